//! The tape that a run from the start goes over, how it stopped and what it did: for the slow twin and what both engines share.
#![tactic(auto)]

mod ends;
mod tape;

pub use ends::{RunEnd, RunResult};
pub use tape::{Answer, Now, Reads, Tape};
