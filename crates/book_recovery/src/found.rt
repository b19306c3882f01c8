use book_redo::{Book, InOrder};
use file_notes::FileNotes;
use script_nodes::Library;
use script_value::Bytes;

/// What the records of a journal make of a shelf.
#[derive(Drop)]
pub enum Found {
    /// There is no record of a setup: none at all, or those alone that tell whether the shelf follows another one's journal.
    Nothing,
    /// They make this book, as after a crash, under these scripts.
    Made { book: Book, library: Library },
    /// What stands at this place is no record that a shelf writes there.
    Damaged { place: u64 },
    /// The journal is of another shelf, as its first record tells, whose gate is at this place.
    Other { place: u64 },
    /// There was no memory to make it.
    Memory,
}

/// A book that was read, and what is known of its file.
#[derive(Drop)]
pub struct ReadBook {
    pub found: Found,
    pub notes: FileNotes,
    /// Where the file is of an older format, the bodies that the newest has of its records: of the first one, and of those that have a
    /// note. One that is passed over has none.
    pub anew: Vec<Bytes>,
    /// Whether the shelf follows another one's journal.
    pub follows: bool,
    /// The numbers that records told of.
    pub seen: InOrder<()>,
    /// Whether no record stands after that of the first setup.
    pub alone: bool,
}
