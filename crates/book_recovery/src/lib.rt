//! The book that the records of a journal make, with the scripts that they told: for the shelf's opening and the audit.
#![tactic(auto)]

mod adoption;
mod found;
mod read;
mod reader;
mod setup_scripts;
mod sound;
mod to_note;

pub use adoption::{adopt, adopt_first, would_begin, would_stand};
pub use book_redo::{books, journal_laws, runs};
pub use found::{Found, ReadBook};
pub use read::read_book;
pub use sound::SoundReader;
