ghost use Rattle.std.specs.Prelude.{◌≡◌, ◌<◌, ◌^◌, IsTrue};

use crate::doubt::{Doubt, Work};
use crate::recording::{added, written};
use crate::shelf::Shelf;
use book_recovery::journal_laws::{events_are_kept, events_stand_between};
use journal_records::{Recorded, records_are_exact};
use script_value::Reply;
use std::alloc::Global;
use web_disk::Disk;
use web_outside::Nonces;

impl<D: Disk, N: Nonces + Drop> Shelf<D, N> {
    ghost use Rattle.shelf.specs.Views.{IsInOrder, IsOwnShelf, swept_of};
    ghost use Rattle.shelf.specs.Tickets.{KeepsTickets};
    ghost use Rattle.shelf.specs.Events.{IsSweep, HasMoments, HasOwnMoments, TellsFaults, LeavesItsDisk, CountsOn};

    /// Goes on to a tick and frees each instance whose pages are all expired then or evicted, once this is on the disk; a tick at
    /// or below the clock does nothing. It tells how many instances were freed.
    ///
    /// A reply that tells neither a sweep nor a fault of the disk leaves the disk alone.
    pub fn sweep(&mut self, alloc: Global, tick: u64) -> Result<u32, Reply>
        requires tick { tick < 2 ^ 62 }
        requires in_order { IsInOrder D.view D.tells self.old }
        ensures event { IsSweep D.view N.nonce self.old self.new tick result }
        ensures in_order { IsInOrder D.view D.tells self.new }
        ensures tickets { KeepsTickets D.view self.old self.new }
        ensures own { IsOwnShelf D.view D.tells self.old → IsOwnShelf D.view D.tells self.new }
        ensures any_moment { IsTrue D.tells → HasMoments D.view self.old self.new }
        ensures own_moments { IsTrue D.tells → IsOwnShelf D.view D.tells self.old
            → HasOwnMoments D.view self.old self.new }
        ensures cause { TellsFaults D.view self.old self.new (swept_of result) }
        ensures quiet { LeavesItsDisk D.view self.old self.new (swept_of result) }
        ensures later { CountsOn D.view self.old self.new }
        ensures nonces { self.new.nonces ≡ self.old.nonces }
        ensures library { self.new.library ≡ self.old.library }
        ensures rules { self.new.rules ≡ self.old.rules }
    {
        events_are_kept();
        events_stand_between();
        records_are_exact();
        if tick <= self.book.clock() {
            return Ok(0);
        }
        if let Some(reply) = self.barred() {
            return Err(reply);
        }
        let record = Recorded::Sweep { clock: tick };
        let body = match written(alloc, &mut self.journal, &mut self.notes, &record) {
            Ok(body) => body,
            Err(reply) => return Err(reply),
        };
        match added(&mut self.journal, body.as_slice()) {
            Ok(()) => {
                self.notes.sweep(tick, body.len() as u32);
                Ok(self.book.free_expired(tick))
            }
            Err(count) => {
                self.down = Some(Doubt {
                    count,
                    work: Work::Sweeps(tick),
                });
                Err(Reply::DiskFault(count))
            }
        }
    }
}
