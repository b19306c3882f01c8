//! How far a run has used its tape, what its segment did, and why it halts: for both engines.
#![tactic(auto)]

mod halt;
mod progress;
mod values;

pub use halt::{Halt, How, halt_at};
pub use progress::{Next, Progress, Rest, Source};
pub use values::{applied, is_false, turn_count};
