//! A segment of a script, from its start or from what was kept of a page, up to the next stop: for the run of a ticket.
#![tactic(auto)]

mod run;

pub use cek_machine::Steps;
pub use machine_states::{Frame, Origin, Outcome, Segment, Suspended};
pub use run::run_segment;
