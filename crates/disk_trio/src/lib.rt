//! Three disks as one: two files and a root that names one of them: for the journal, which is rewritten so.
#![tactic(auto)]

mod calls;
mod current;
mod fill;
mod find;
mod open;
mod side;
mod trio;

pub use side::Side;
pub use trio::{Disks, Moment};
