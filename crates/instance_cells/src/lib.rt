//! The cells of an instance and what a segment did to them: for the engine, and for the book, which commits it.
#![tactic(auto)]

mod cells;
mod effect;
mod trail;

pub use cells::Cells;
pub use effect::{Effect, clone_effects};
pub use trail::{AddFault, Trail};
