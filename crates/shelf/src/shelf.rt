ghost use Rattle.std.specs.Prelude.{◌≡◌, ◌<◌, ◌^◌, None, option_map};

use crate::doubt::Doubt;
use crate::follower::Follower;
use crate::rules::Rules;
use book_recovery::books::Book;
use file_copies::FileNotes;
use page_journal::Journal;
use script_nodes::Library;
use script_value::Reply;
use web_disk::Disk;

/// One shelf: its book in memory, and on a disk the journal of what made it.
#[derive(Drop)]
pub struct Shelf<D: Disk, N> {
    pub(crate) journal: Journal<D>,
    pub(crate) book: Book,
    // The scripts that the journal told, the present setup last.
    pub(crate) library: Library,
    // What may have happened when the disk failed.
    pub(crate) down: Option<Doubt>,
    pub(crate) nonces: N,
    pub(crate) rules: Rules,
    // What is known of the journal's file.
    pub(crate) notes: FileNotes,
    // What is kept where the shelf follows another one's journal.
    pub(crate) follower: Option<Follower>,
}

// What stands in memory is let go.
fn forget(
    book: Book,
    library: Library,
    down: Option<Doubt>,
    notes: FileNotes,
    follower: Option<Follower>,
) {
    drop(book);
    drop(library);
    drop(down);
    drop(notes);
    drop(follower);
}

impl<D: Disk, N> Shelf<D, N> {
    ghost use Rattle.page_journal.specs.Settled.{IsSound, view_of, length_of};
    ghost use Rattle.book_recovery.specs.InstanceBook.Makes.{count_of};
    ghost use Rattle.replay_spec.specs.Step.{barred};
    ghost use Rattle.book_visits.specs.Views.{reply_of};
    ghost use Rattle.shelf.specs.Views.{follows_in, book_in, IsFree};

    /// The book of the shelf.
    pub fn book(&self) -> &Book
        ensures { result.now ≡ self.now.book }
    {
        &self.book
    }

    /// The scripts that the journal told.
    pub fn library(&self) -> &Library
        ensures { result.now ≡ self.now.library }
    {
        &self.library
    }

    /// Whether the shelf follows another one's journal: then it makes no visit.
    pub fn follows(&self) -> bool
        ensures { result ≡ follows_in self.now }
    {
        self.follower.is_some()
    }

    // What bars each event but a sweep at or below the clock: the shelf is down, or it follows another one's journal.
    pub(crate) fn barred(&self) -> Option<Reply>
        ensures barred { option_map reply_of result ≡ barred (book_in D.view self.now) }
        ensures free { result ≡ None → IsFree self.now }
    {
        if let Some(doubt) = &self.down {
            return Some(Reply::Down(doubt.count));
        }
        if self.follows() {
            return Some(Reply::Following);
        }
        None
    }

    /// How many instances are live.
    pub fn live(&self) -> u32
        ensures { result ≡ count_of self.now.book }
    {
        self.book.live()
    }

    /// The limits of the shelf.
    pub fn rules(&self) -> Rules
        ensures rules { result ≡ self.now.rules }
        ensures fuel { result.fuel < 2 ^ 63 }
    {
        self.rules
    }

    /// How long the journal is, in bytes.
    pub fn length(&self) -> u64
        requires { IsSound self.now.journal }
        ensures { result ≡ length_of self.now.journal }
    {
        self.journal.len()
    }

    /// How often a call of the disk has failed, up to the type's end.
    pub fn faults(&self) -> u64
        ensures { result ≡ (view_of D.view self.now.journal).faults }
    {
        self.journal.faults()
    }

    /// Gives back the disk, which stands for the book, with what is in doubt or without it, and the source of the nonces.
    pub fn close(self) -> (D, N)
        ensures disk { result.0 ≡ self.journal.disk }
        ensures nonces { result.1 ≡ self.nonces }
    {
        let Shelf {
            journal,
            book,
            library,
            down,
            nonces,
            rules: _,
            notes,
            follower,
        } = self;
        forget(book, library, down, notes, follower);
        (journal.close(), nonces)
    }
}
