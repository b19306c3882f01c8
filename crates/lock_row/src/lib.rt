//! A row of locks, and passes with a seat at each of them: for the site.
#![tactic(auto)]

mod locking;
mod row;
mod seats;

pub use row::LockRow;
pub use seats::{RowNote, RowPass};
