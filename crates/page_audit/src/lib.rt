//! The audit of a shelf's journal, on three disks: for the command.
#![tactic(auto)]

mod answer;
mod auditor;
mod disks;
mod file;

pub use answer::{AuditFault, Audited};
pub use disks::audit;
pub use record_audit::Word;
