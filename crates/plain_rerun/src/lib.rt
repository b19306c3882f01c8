//! The slow twin of the engine, which runs a script again from its start: for audits and for tests.
#![tactic(auto)]

mod engine;
mod goes_on;
mod nodes;

pub use engine::rerun;
pub use segments::{Answer, Now, Reads, RunEnd as PlainEnd, RunResult as Rerun, Tape};
