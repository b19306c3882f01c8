//! The bytes of a journal's compacted file, copied from its file, and those of one that is of an older format: for the shelf.
//!
//! By what it does it is a part of the shelf. It is a crate of its own so that it is proved beside others.
#![tactic(auto)]

mod copier;
mod copying;
mod frame;
mod older;

pub use copying::{CopyFault, compacted_file};
pub use file_notes::FileNotes;
pub use older::{Sizes, file_of, sizes_of};
