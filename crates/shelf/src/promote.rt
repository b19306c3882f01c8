ghost use Rattle.std.specs.Prelude.{◌≡◌};

use crate::recording::added;
use crate::shelf::Shelf;
use book_recovery::journal_laws::promotions_make_the_book;
use journal_records::{Recorded, encode, records_are_exact};
use page_journal::MAX_LEN;
use script_value::Reply;
use std::alloc::Global;
use web_disk::Disk;

impl<D: Disk, N> Shelf<D, N> {
    ghost use Rattle.shelf.specs.Events.{CountsOn};
    ghost use Rattle.shelf.specs.Following.{IsInOrderIfFed, Promotes, PromotesThroughout};

    /// Makes a shelf that follows one like any other, once this is on the disk: its book is the one of the records that it was fed. A shelf that
    /// does not follow is left alone, which is told by `false`.
    ///
    /// That the disk failed before is told then, a journal that has no room for another record, and that the disk fails. All memory is taken
    /// before the first call of the disk: want of it changes nothing. A promotion that is refused is on no disk at any moment. Where the disk
    /// fails, a crash leaves a shelf that follows or one that does not, and this one is fed no more until it is opened again.
    pub fn promote(&mut self, alloc: Global) -> Result<bool, Reply>
        requires in_order { IsInOrderIfFed D.view D.tells self.old }
        ensures promotes { Promotes D.view D.tells self.old self.new result }
        ensures in_order { IsInOrderIfFed D.view D.tells self.new }
        ensures any_moment { PromotesThroughout D.view D.tells self.old self.new result }
        ensures later { CountsOn D.view self.old self.new }
        ensures nonces { self.new.nonces ≡ self.old.nonces }
        ensures rules { self.new.rules ≡ self.old.rules }
    {
        promotions_make_the_book();
        records_are_exact();
        let Some(follower) = &mut self.follower else {
            return Ok(false);
        };
        if let Some(count) = follower.fallen {
            return Err(Reply::Down(count));
        }
        let len = self.journal.len() + 6;
        if len > MAX_LEN {
            return Err(Reply::JournalFull(len));
        }
        let Ok(body) = encode(alloc, &Recorded::Promoted) else {
            return Err(Reply::Memory);
        };
        if self.notes.room().is_err() {
            return Err(Reply::Memory);
        }
        if self.journal.room(1).is_err() {
            return Err(Reply::Memory);
        }
        match added(&mut self.journal, body.as_slice()) {
            Ok(()) => {
                // It has a note, as others that are passed over.
                self.notes.pass(1);
                self.follower = None;
                Ok(true)
            }
            Err(count) => {
                follower.fallen = Some(count);
                Err(Reply::DiskFault(count))
            }
        }
    }
}
