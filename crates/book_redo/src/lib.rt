//! What a record of any format tells, made again in a book or passed over, as recovery decides: one door for all kinds of records, for recovery and the audit.
//!
//! It is a part of the book, and a crate of its own so that it is proved beside others.
#![tactic(auto)]

mod again;
mod behind;
mod landing;
mod landings;
mod renew;
mod same;
mod stored;
mod takes;
mod told;

pub use again::{are_same_effects, state_left};
pub use instance_book as books;
pub use instance_book::{Book, InOrder, Numbered};
pub use journal_spec as journal_laws;
pub use journal_spec::bodies_of_any_format_fit;
pub use landing::{pass, redo};
pub use landings::lands;
pub use renew::{Renewed, as_newest};
pub use same::is_same_state;
pub use stored::{is_told, told_state};
pub use visit_runs as runs;
