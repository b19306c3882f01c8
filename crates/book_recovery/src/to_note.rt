ghost use Rattle.std.specs.Prelude.{◌≡◌, IfOk};
ghost use Rattle.script_nodes.specs.Views.{library_of};
ghost use Rattle.journal_records.specs.Views.{logged_of};
ghost use Rattle.book_redo.specs.InstanceBook.Makes.{HasPlaces};
ghost use Rattle.file_notes.specs.Files.{IsNoted, HasRoom};
ghost use Rattle.book_recovery.specs.Noted.{drawn_by, IsNotingOf, HasItsNote, NotesBy};

use book_redo::{Book, lands};
use file_notes::{FileNotes, Note};
use journal_records::Logged;
use script_nodes::Library;
use std::alloc::{AllocError, Global};
use std::snapshot::Snapshot;

/// What is noted of a record as soon as it is taken, whose body is so long.
#[derive(Drop)]
pub enum Noting {
    /// It tells this number, and has no note.
    Draws {
        number: u64,
    },
    /// It is passed over.
    Passes {
        length: u32,
    },
    /// It lands.
    Lands {
        logged: Snapshot<Logged>,
        note: Note,
        length: u32,
    },
}

/// The number that a record tells, if it is one of a number.
pub fn drawn_of(logged: &Logged) -> Option<u64>
    ensures { result ≡ drawn_by (logged_of logged.now) }
{
    match logged {
        Logged::Begin { .. } => None,
        Logged::Page { .. } => None,
        Logged::Ended(_) => None,
        Logged::Finish(_) => None,
        Logged::Sweep { .. } => None,
        Logged::Texts { .. } => None,
        Logged::Drawn { number } => Some(*number),
        Logged::Follow => None,
        Logged::Promoted => None,
    }
}

/// What is noted of a record of the newest format that is told after this book, of a number that was seen or was not.
pub fn to_note(
    alloc: Global,
    book: &Book,
    library: &Library,
    logged: &Logged,
    again: bool,
    length: u32,
) -> Result<Noting, AllocError>
    requires placed { HasPlaces (library_of library.now).all book.now }
    ensures of { IfOk result (IsNotingOf (library_of library.now) book.now
        (logged_of logged.now) again length) }
    ensures note { IfOk result HasItsNote }
{
    if let Some(number) = drawn_of(logged) {
        return Ok(Noting::Draws { number });
    }
    if !lands(alloc, book, library, logged, again)? {
        return Ok(Noting::Passes { length });
    }
    Ok(Noting::Lands {
        logged: Snapshot::of(logged),
        note: Note::of_read(logged, length),
        length,
    })
}

impl Noting {
    /// Notes the record, for whose note there is room.
    pub fn tell(self, notes: &mut FileNotes)
        requires noted { IsNoted notes.old }
        requires room { HasRoom notes.old.notes }
        requires note { HasItsNote self }
        ensures notes { NotesBy self notes.old notes.new }
        ensures noted { IsNoted notes.new }
    {
        match self {
            Noting::Draws { number } => notes.draw(number),
            Noting::Passes { length } => notes.pass(length),
            Noting::Lands {
                logged,
                note,
                length,
            } => notes.read(logged, note, length),
        }
    }
}
