//! What an operation gives for its operands, in code: for the engine and the table of forms.
#![tactic(auto)]

mod bindings;
mod fault;
mod kinds;
mod lists;
mod numbers;
mod operands;
mod table;
mod texts;

pub use fault::ApplyFault;
pub use table::{apply, operation, takes};
