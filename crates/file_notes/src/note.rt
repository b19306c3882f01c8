ghost use Rattle.std.specs.Prelude.{◌≡◌, ◌<◌, ◌^◌};
ghost use Rattle.journal_records.specs.Views.{page_change, logged_of};
ghost use Rattle.instance_book.specs.Changes.{change_of};
ghost use Rattle.file_notes.specs.Notes.{is_time, length_in, note_by, note_read};
ghost use Rattle.file_notes.specs.Files.{StaysIn};

use instance_book::{Book, Change};
use journal_records::{Logged, Origin, PageRecord};

/// What is known of a record after the first one of a file, and how long its body is.
#[derive(Clone, Copy, Debug, PartialEq, Eq)]
pub enum Note {
    /// A page of the instance of this number was shown, or answered with a page or with a last one.
    Instance { number: u64, length: u32 },
    /// An answer with which its instance was freed.
    Freed { length: u32 },
    /// Time went on.
    Time { length: u32 },
    /// Another setup.
    Setup { length: u32 },
    /// What recovery passes over.
    Passed { length: u32 },
}

// What is known of the record of a page.
fn of_page(page: &PageRecord, length: u32) -> Note
    ensures { result ≡ note_by (page_change page.now) length }
{
    let number = match &page.origin {
        Origin::Start { .. } => page.ticket,
        Origin::Answer { instance, .. } => *instance,
    };
    Note::Instance { number, length }
}

impl Note {
    /// What is known of the record of a visit's change.
    pub fn of_change(change: &Change, length: u32) -> Note
        ensures { result ≡ note_by (change_of change.now) length }
    {
        match change {
            Change::Opens(opening) => of_page(&opening.record, length),
            Change::Extends(extension) => of_page(&extension.record, length),
            Change::Ends(ending) => Note::Instance {
                number: ending.record.instance,
                length,
            },
            Change::Finishes(_) => Note::Freed { length },
        }
    }

    /// What is known of a record as it was read, which is one of a change.
    pub fn of_read(logged: &Logged, length: u32) -> Note
        ensures { result ≡ note_read (logged_of logged.now) length }
    {
        match logged {
            Logged::Page { page, .. } => of_page(page, length),
            Logged::Ended(ended) => Note::Instance {
                number: ended.instance,
                length,
            },
            Logged::Finish(_) => Note::Freed { length },
            Logged::Sweep { .. } => Note::Time { length },
            Logged::Begin { .. } => Note::Passed { length },
            Logged::Texts { .. } => Note::Passed { length },
            Logged::Drawn { .. } => Note::Passed { length },
            Logged::Follow => Note::Passed { length },
            Logged::Promoted => Note::Passed { length },
        }
    }

    /// How long the body of the record is.
    pub fn length(&self) -> u32
        ensures length { result ≡ length_in self.now }
        ensures low { result < 2 ^ 32 }
    {
        match self {
            Note::Instance { length, .. } => *length,
            Note::Freed { length } => *length,
            Note::Time { length } => *length,
            Note::Setup { length } => *length,
            Note::Passed { length } => *length,
        }
    }

    /// Whether the record tells that time went on.
    pub fn is_time(&self) -> bool
        ensures { result ≡ is_time self.now }
    {
        match self {
            Note::Time { .. } => true,
            _ => false,
        }
    }

    /// Whether the record stays when the file of this book is compacted, sweeps that stand together aside.
    pub fn stays(&self, book: &Book) -> bool
        ensures { StaysIn book.now self.now result }
    {
        match self {
            Note::Instance { number, .. } => book.instance(*number).is_some(),
            Note::Freed { .. } => false,
            Note::Time { .. } => true,
            Note::Setup { .. } => true,
            Note::Passed { .. } => false,
        }
    }
}
