//! A value that threads work on in turns, with one history: for the row of locks.
#![tactic(auto)]

mod kept;
mod lock;
mod pass;
mod rule;
mod sleepers;
mod steps;
mod view;

pub use kept::Kept;
pub use lock::{ShelfLock, Worn};
pub use pass::{Note, Pass};
