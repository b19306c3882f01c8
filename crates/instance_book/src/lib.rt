//! The book of a shelf, with its instances, pages and cells, and how a change lands in it: for what is told again and for visits.
//!
//! With `book_visits` and `book_redo` it is one book. Each is a crate of its own so that they are proved one beside the other.
#![tactic(auto)]

mod after;
mod book;
mod calls;
mod change;
mod copies;
mod in_order;
mod instance;
mod instances;
mod landing;
mod list;
mod numbered;
mod origins;
mod page;
mod pages;
mod place;
mod segment;
mod shown;

pub use after::{After, Show};
pub use book::Book;
pub use change::{Change, Ending, Extension, Finish, Opening};
pub use in_order::InOrder;
pub use instance::KeptInstance;
pub use kept_states::{KeptState, StoredValue, ToldState, kept_are_written, next_links};
pub use numbered::Numbered;
pub use origins::{origin_at, state_of};
pub use page::KeptPage;
pub use place::{Place, place_of_numbers};
pub use shown::ShownState;
pub use transactions::Closed;
