ghost use Rattle.std.specs.Prelude.{◌≡◌, ◌<◌, ◌≤◌, ◌+◌, ◌^◌, false, length};
ghost use Rattle.script_nodes.specs.Views.{library_of};
ghost use Rattle.journal_records.specs.Roles.{is_role};
ghost use Rattle.file_copies.specs.OfFileNotes.Files.{IsNoted};
ghost use Rattle.shelf.specs.Fed.{IsFedAs};
ghost use Rattle.shelf.specs.Following.{IsFedMore, TellsPlace};

use crate::follower::{Fed, Follower};
use crate::recording::added;
use crate::shelf::Shelf;
use book_recovery::books::Book;
use book_recovery::journal_laws::{bodies_of_any_format_fit, one_body_more};
use book_recovery::{adopt as take_record, adopt_first as take_first, would_begin, would_stand};
use file_copies::FileNotes;
use journal_records::{is_role, records_are_exact};
use page_journal::MAX_LEN;
use script_nodes::Library;
use std::alloc::{AllocError, Global};
use web_disk::Disk;

/// Why a shelf is not fed a record.
#[derive(Clone, Copy, Debug, PartialEq, Eq)]
pub enum AdoptFault {
    /// It does not follow another one's journal.
    Leader,
    /// A call of the disk failed before, as a record was added: so often one had failed then.
    Down(u64),
    /// No journal has such a record after those that the shelf was fed.
    Outside,
    /// The journal would be so long with it.
    Full { len: u64 },
    /// A call of the disk failed: so often one has.
    DiskFault(u64),
    /// There was no memory.
    Memory,
}

// Makes the book, and what a shelf that follows keeps beside it, with one record more: whether it has a place there. Where it has none, or memory
// runs out, nothing is changed.
fn fed_more(
    alloc: Global,
    number: u32,
    follower: &mut Follower,
    book: &mut Book,
    library: &mut Library,
    notes: &mut FileNotes,
    body: &[u8],
) -> Result<bool, AllocError>
    requires fed { IsFedAs follower.old.fed number follower.old.seen book.old
        (library_of library.old) }
    requires noted { IsNoted notes.old }
    requires other { is_role body.now ≡ false }
    requires short { length body.now < 2 ^ 32 }
    ensures more { IsFedMore number body.now follower.old follower.new book.old book.new
        library.old library.new notes.old notes.new result }
    ensures noted { IsNoted notes.new }
{
    let alone = match follower.fed {
        Fed::Waits => {
            // No file has room for a longer one, after the record that tells that the shelf follows.
            if body.len() as u64 + 20 > MAX_LEN {
                return Err(AllocError);
            }
            let taken = take_first(alloc, number, book, library, notes, body)?;
            if taken {
                follower.fed = Fed::Begun;
            }
            return Ok(taken);
        }
        Fed::Begun => true,
        Fed::Made => false,
    };
    let seen = &mut follower.seen;
    let taken = take_record(alloc, number, alone, seen, book, library, notes, body)?;
    if taken {
        follower.fed = Fed::Made;
    }
    Ok(taken)
}

// Whether a record would have a place there, of which nothing is made.
fn has_place(
    alloc: Global,
    number: u32,
    follower: &Follower,
    book: &Book,
    library: &Library,
    body: &[u8],
) -> Result<bool, AllocError>
    requires fed { IsFedAs follower.now.fed number follower.now.seen book.now
        (library_of library.now) }
    requires other { is_role body.now ≡ false }
    requires room { length body.now < 2 ^ 32 }
    ensures { TellsPlace number body.now follower.now book.now library.now result }
{
    let alone = match follower.fed {
        Fed::Waits => return would_begin(alloc, number, body),
        Fed::Begun => true,
        Fed::Made => false,
    };
    would_stand(alloc, number, alone, &follower.seen, book, library, body)
}

impl<D: Disk, N> Shelf<D, N> {
    ghost use Rattle.shelf.specs.Events.{CountsOn};
    ghost use Rattle.shelf.specs.Following.{IsInOrderIfFed, Adopts, AdoptsThroughout};

    /// Feeds a shelf that follows the body of one record more of the other one's journal. From `Ok` on it stands after those that it has, and
    /// the book is the one that these make.
    ///
    /// That the shelf does not follow is told first, and then that the disk failed before; that the record has no place there, that there is
    /// no room for it, and that the disk fails. All memory is taken before the first call of the disk: want of it changes nothing. A record
    /// that is refused is on no disk at any moment. Where the disk fails, a crash leaves the record or does not, and the shelf is fed no more
    /// until it is opened again.
    pub fn adopt(&mut self, alloc: Global, body: &[u8]) -> Result<(), AdoptFault>
        requires short { length body.now ≤ 2 ^ 30 }
        requires in_order { IsInOrderIfFed D.view D.tells self.old }
        ensures adopts { Adopts D.view D.tells self.old self.new body.now result }
        ensures in_order { IsInOrderIfFed D.view D.tells self.new }
        ensures any_moment { AdoptsThroughout D.view D.tells self.old self.new body.now result }
        ensures later { CountsOn D.view self.old self.new }
        ensures nonces { self.new.nonces ≡ self.old.nonces }
        ensures rules { self.new.rules ≡ self.old.rules }
    {
        one_body_more();
        bodies_of_any_format_fit();
        records_are_exact();
        let Some(follower) = &mut self.follower else {
            return Err(AdoptFault::Leader);
        };
        if let Some(count) = follower.fallen {
            return Err(AdoptFault::Down(count));
        }
        if is_role(body) {
            return Err(AdoptFault::Outside);
        }
        let number = self.rules.number;
        let len = self.journal.len() + 5 + body.len() as u64;
        if len > MAX_LEN {
            return match has_place(alloc, number, follower, &self.book, &self.library, body) {
                Ok(true) => Err(AdoptFault::Full { len }),
                Ok(false) => Err(AdoptFault::Outside),
                Err(_) => Err(AdoptFault::Memory),
            };
        }
        if self.journal.room(body.len() as u32).is_err() {
            return Err(AdoptFault::Memory);
        }
        let (book, library, notes) = (&mut self.book, &mut self.library, &mut self.notes);
        match fed_more(alloc, number, follower, book, library, notes, body) {
            Ok(true) => (),
            Ok(false) => return Err(AdoptFault::Outside),
            Err(_) => return Err(AdoptFault::Memory),
        }
        match added(&mut self.journal, body) {
            Ok(()) => Ok(()),
            Err(count) => {
                follower.fallen = Some(count);
                Err(AdoptFault::DiskFault(count))
            }
        }
    }
}
