//! The tests that an audit makes of one record, on the book of the records before it: for the audit.
//!
//! Its script is run again from its start, by the slow engine.
#![tactic(auto)]

mod checks;
mod fault;
mod home;
mod runs;
mod so;

pub use audit_spec::Word;
pub use fault::fault_in;
