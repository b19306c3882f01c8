use instance_book::{Book, Change};
use journal_records::Logged;
use script_nodes::{Library, Setup};
use std::snapshot::Snapshot;

/// The records of a journal's file, as clauses see them.
#[derive(Drop)]
pub enum FilePast {
    /// Nothing is known of them.
    Nothing,
    /// The first one alone, which tells this setup; with it the file is so long.
    Begun {
        setup: Snapshot<Setup>,
        head: u64,
    },
    /// After it the number that a compaction tells.
    Drawn {
        before: Snapshot<FilePast>,
        number: u64,
    },
    /// After others one that was read, whose body is so long.
    Read {
        before: Snapshot<FilePast>,
        logged: Snapshot<Logged>,
        length: u64,
    },
    /// After others that of a visit's change, whose body is so long.
    Visited {
        before: Snapshot<FilePast>,
        change: Snapshot<Change>,
        length: u64,
    },
    /// After others one by which time went on to this tick, whose body is so long.
    Swept {
        before: Snapshot<FilePast>,
        tick: u64,
        length: u64,
    },
    /// After others that of another setup, whose body is so long.
    Renewed {
        before: Snapshot<FilePast>,
        setup: Snapshot<Setup>,
        length: u64,
    },
    /// Those that stayed when the file of this book was compacted, whose scripts are of this library.
    Compacted {
        before: Snapshot<FilePast>,
        book: Snapshot<Book>,
        library: Snapshot<Library>,
    },
}
