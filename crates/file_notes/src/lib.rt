//! What is known of a journal's file without its bytes: its records, of which instance each is and how long: for recovery and the shelf.
//!
//! By what it does it is a part of the shelf. It is a crate of its own so that it is proved beside others.
#![tactic(auto)]

mod note;
mod notes;
mod past;
mod plan;

pub use journal_records::is_role;
pub use note::Note;
pub use notes::FileNotes;
pub use past::FilePast;
