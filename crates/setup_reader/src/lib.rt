//! The scripts of a setup as an input spells them, or the first fault; and as a journal tells their names and texts: for the command and the book.
#![tactic(auto)]

mod fault;
mod setup;
mod texts;

pub use fault::{SetupError, SetupFault, SetupKind, fault_line};
pub use setup::{Ending, Parsed};
pub use texts::{script_of, setup_of};
