//! The transactions that a page is inside, and those that an instance has closed: for the book.
#![tactic(auto)]

mod closed;
mod entered;

pub use closed::Closed;
pub use entered::inside;
