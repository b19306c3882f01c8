//! The text of a script as data, or its first fault: for the table of forms.
#![tactic(auto)]

mod classes;
mod fault;
mod laws;
mod reader;
mod scan;
mod words;

pub use fault::{ReadError, ReadFault, ReadKind};
pub use laws::{first_fault, unclosed_goes_on};
pub use reader::read_all;
