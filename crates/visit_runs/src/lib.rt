//! The run of a segment from what a page left or from the start of its script: for tickets, and for records whose pages are made again.
//!
//! By what it does it is a part of the shelf. It is a crate of its own so that it is proved beside others.
#![tactic(auto)]

mod run;

pub use run::run_from;
pub use send_suspend::Segment;
