//! The states of pages as a book keeps them, most as a delta from the page before, and values that it keeps: for the book.
#![tactic(auto)]

ghost use Rattle.kept_states.specs.Kept.{KeptAreWritten};

mod form;
mod links;
mod list;
mod memory;
mod shades;
mod state;
mod value;

pub use form::Found;
pub use frame_codec::{Need, Origin, Suspended, each_page_has_one_state, join};
pub use links::{MOST_LINKS, next_links};
pub use list::StoredValues;
pub use memory::trimmed;
pub use state::{KeptState, ToldState};
pub use value::StoredValue;

/// What is kept as bytes of the state of a page is what its record has of it.
pub fn kept_are_written()
    ensures { KeptAreWritten }
{}
