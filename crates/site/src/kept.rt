//! What lies behind the lock of a shelf.
use crate::entry::{Did, KeptEntry};
use crate::opening::Opening;
use disk_trio::Disks;
use ghost_history::History;
use page_names::Target;
use script_nodes::Library;
use script_value::{Reply, Value};
use shelf::{Segment, Shelf, Ticket, images_make_books, tickets_go_on_to_fit};
use shelf_lock::Kept;
use std::alloc::{AllocError, Global};
use std::snapshot::Snapshot;
use web_disk::Disk;
use web_outside::Nonces;

// How long a journal is, at least, that is compacted: half of what a journal may be.
const COMPACTED_FROM: u64 = 1 << 29;

/// A shelf, as what it was opened, and its history since. Only the shelf and a count have bytes.
#[derive(Drop)]
pub struct KeptShelf<D: Disk, N: Drop> {
    pub(crate) shelf: Shelf<D, N>,
    pub(crate) opened: Opening<D, N>,
    pub(crate) history: History<KeptEntry>,
}

impl<D: Disk, N: Nonces + Drop> KeptShelf<D, N> {
    ghost use Rattle.std.specs.Prelude.{◌≡◌, ◌<◌, ◌^◌, [], length, IfOk};
    ghost use Rattle.replay_spec.specs.Book.{reopened};
    ghost use Rattle.shelf.specs.Views.{IsInOrder, book_in};
    ghost use Rattle.site.specs.Keeping.{IsSoundShelf, IsHeldOn, GivesOn, IsItsLibrary, IsRunOn, NotesTake, NotesPublish, NotesSweep};

    /// A shelf that was opened, with no entry yet.
    pub fn new(shelf: Shelf<D, N>) -> KeptShelf<D, N>
        requires in_order { IsInOrder D.view D.tells shelf }
        requires opened { book_in D.view shelf ≡ reopened (book_in D.view shelf) }
        ensures opened { result.opened.shelf.value ≡ shelf }
        ensures shelf { result.shelf ≡ shelf }
        ensures fresh { result.history ≡ [] }
        ensures sound { IsSoundShelf D.view D.tells N.nonce result }
    {
        images_make_books();
        let _count = shelf.faults();
        let opened = Opening {
            shelf: Snapshot::of(&shelf),
        };
        KeptShelf {
            shelf,
            opened,
            history: History::new(),
        }
    }

    /// A copy of the scripts that its journal told.
    pub(crate) fn library(&self, alloc: Global) -> Result<Library, AllocError>
        ensures { IfOk result (IsItsLibrary self.now) }
    {
        self.shelf.library().try_clone(alloc)
    }

    /// Takes the next number for a visit of the target: one entry of the caller.
    pub fn take(
        &mut self,
        alloc: Global,
        by: u64,
        target: &Target,
        answer: Value,
    ) -> Result<Ticket, Reply>
        requires room { length self.old.history < 2 ^ 62 }
        requires sound { IsSoundShelf D.view D.tells N.nonce self.old }
        ensures sound { IsSoundShelf D.view D.tells N.nonce self.new }
        ensures opened { self.new.opened ≡ self.old.opened }
        ensures entry { NotesTake by target.now answer result self.old self.new }
        ensures gives { GivesOn D.view D.tells N.nonce by
            target.now answer result self.old self.new }
    {
        let asked = Snapshot::of(&answer);
        let told = self.shelf.take(alloc, target, answer);
        self.history.push(KeptEntry {
            caller: by,
            did: Did::Take {
                target: Snapshot::of(target),
                answer: asked,
                told: Snapshot::of(&told),
            },
        });
        told
    }

    /// Publishes the segment of a ticket that the caller holds: one entry of the caller.
    pub fn publish(
        &mut self,
        alloc: Global,
        by: u64,
        ticket: Ticket,
        segment: Option<Segment>,
    ) -> Reply
        requires room { length self.old.history < 2 ^ 62 }
        requires sound { IsSoundShelf D.view D.tells N.nonce self.old }
        requires held { IsHeldOn D.view D.tells N.nonce self.old by ticket }
        requires segment { IsRunOn self.old ticket segment }
        ensures sound { IsSoundShelf D.view D.tells N.nonce self.new }
        ensures opened { self.new.opened ≡ self.old.opened }
        ensures entry { NotesPublish by ticket result self.old self.new }
    {
        images_make_books();
        tickets_go_on_to_fit();
        let owed = Snapshot::of(&ticket);
        let told = self.shelf.publish(alloc, ticket, segment);
        self.history.push(KeptEntry {
            caller: by,
            did: Did::Publish {
                ticket: owed,
                told: Snapshot::of(&told),
            },
        });
        told
    }

    /// Sweeps to a tick above the clock, in seconds: one entry of the caller. At any other tick it does nothing.
    pub fn sweep(&mut self, alloc: Global, by: u64, tick: u64) -> Result<u32, Reply>
        requires room { length self.old.history < 2 ^ 62 }
        requires tick { tick < 2 ^ 62 }
        requires sound { IsSoundShelf D.view D.tells N.nonce self.old }
        ensures sound { IsSoundShelf D.view D.tells N.nonce self.new }
        ensures opened { self.new.opened ≡ self.old.opened }
        ensures swept { NotesSweep D.view by tick result self.old self.new }
    {
        images_make_books();
        if tick <= self.shelf.book().clock() {
            return Ok(0);
        }
        let told = self.shelf.sweep(alloc, tick);
        self.history.push(KeptEntry {
            caller: by,
            did: Did::Sweep {
                tick,
                told: Snapshot::of(&told),
            },
        });
        told
    }

    /// Its disk, its source of nonces and its history.
    pub(crate) fn close(self) -> (D, N, History<KeptEntry>)
        ensures disk { result.0 ≡ self.shelf.journal.disk }
        ensures nonces { result.1 ≡ self.shelf.nonces }
        ensures history { result.2 ≡ self.history }
    {
        let KeptShelf {
            shelf,
            opened: _,
            history,
        } = self;
        let (disk, nonces) = shelf.close();
        (disk, nonces, history)
    }
}

impl<F: Disk, N: Nonces + Drop> KeptShelf<Disks<F>, N> {
    ghost use Rattle.std.specs.Prelude.{◌≡◌, ◌<◌, ◌^◌, length};
    ghost use Rattle.disk_trio.specs.Trio.{trio_view};
    ghost use Rattle.site.specs.Keeping.{IsSoundShelf, NotesCompaction, NotesCompactionIfLong};

    /// Puts a compacted file in the place of the journal's: one entry of the caller.
    pub fn compact(&mut self, alloc: Global, by: u64) -> Result<u64, Reply>
        requires room { length self.old.history < 2 ^ 62 }
        requires sound { IsSoundShelf trio_view F.tells N.nonce self.old }
        ensures sound { IsSoundShelf trio_view F.tells N.nonce self.new }
        ensures opened { self.new.opened ≡ self.old.opened }
        ensures entry { NotesCompaction by result self.old self.new }
    {
        images_make_books();
        let told = self.shelf.compact(alloc);
        self.history.push(KeptEntry {
            caller: by,
            did: Did::Compact {
                told: Snapshot::of(&told),
            },
        });
        told
    }

    /// Compacts a journal that is long, of 2^29 bytes or more: one entry of the caller. A shorter one it leaves as it is.
    pub fn compact_if_long(&mut self, alloc: Global, by: u64)
        requires room { length self.old.history < 2 ^ 62 }
        requires sound { IsSoundShelf trio_view F.tells N.nonce self.old }
        ensures sound { IsSoundShelf trio_view F.tells N.nonce self.new }
        ensures opened { self.new.opened ≡ self.old.opened }
        ensures compacted { NotesCompactionIfLong trio_view by self.old self.new }
    {
        if self.shelf.length() < COMPACTED_FROM {
            return;
        }
        drop(self.compact(alloc, by));
    }
}

impl<D: Disk, N: Nonces + Drop> Kept for KeptShelf<D, N> {
    ghost use Rattle.std.specs.Prelude.{◌≡◌};
    ghost use Rattle.site.specs.Keeping.{IsSoundShelf};

    type Opening = Opening<D, N>;

    type Entry = KeptEntry;

    ghost opening = { λ k. k.opened };

    ghost first = { λ _. 0 };

    ghost history = { λ k. k.history };

    ghost caller = { λ e. e.caller };

    ghost sound = { λ k. IsSoundShelf D.view D.tells N.nonce k };

    fn first_number(&self) -> u64 {
        0
    }

    fn entry_count(&self) -> u64 {
        self.history.len()
    }
}
