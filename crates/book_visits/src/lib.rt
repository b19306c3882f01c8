//! Visits of a book: admission, the ticket of one, and what its segment comes to: for the shelf and the audit.
//!
//! It is a part of the book, and a crate of its own so that it is proved beside others.
#![tactic(auto)]

ghost use Rattle.instance_book.specs.Places.{OneMoreHasItsState};
ghost use Rattle.book_visits.specs.Laws.{AShownPageHasItsState};

mod admission;
mod goes;
mod home;
mod installing;
mod prepared;
mod preparing;
mod shown;
mod take;
mod ticket;

pub use admission::{admit, why_not};
pub use goes::first_to_go;
pub use installing::install;
pub use prepared::Prepared;
pub use preparing::prepare;
pub use take::take_ticket;
pub use ticket::Ticket;

/// Where each page of an instance has the state of its chain, so it is with one more page whose state is that of its chain.
pub fn one_more_has_its_state()
    ensures { OneMoreHasItsState }
{}

/// The page that a visit shows has the state of its chain, where what it went on from was the state of the chain that it
/// answered.
pub fn a_shown_page_has_its_state()
    ensures { AShownPageHasItsState }
{}
