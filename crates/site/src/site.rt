//! The shelves of a site.
ghost use Rattle.std.specs.Prelude.{◌<◌, ◌^◌};
ghost use Rattle.script_nodes.specs.Views.{library_of};
ghost use Rattle.shelf.specs.Visits.{IsRunnable};
ghost use Rattle.shelf.specs.Views.{IsRunIfAny};

use crate::entry::KeptEntry;
use crate::kept::KeptShelf;
use crate::pass::{SiteNote, SitePass};
use ghost_history::History;
use lock_row::LockRow;
use page_names::{Target, shelf_for};
use script_nodes::Library;
use script_value::{Refusal, Reply, Value};
use shelf::{Segment, Ticket, run_ticket};
use shelf_lock::Worn;
use std::alloc::{AllocError, Global};
use std::sync::Wait;
use web_disk::Disk;
use web_outside::{Gate, Nonces};

/// Shelves, each behind a lock of its own.
#[derive(Drop)]
pub struct Site<D: Disk, N: Nonces + Drop> {
    // What each shelf's journal told, in their order: runs are under no lock.
    pub(crate) libraries: Vec<Library>,
    // What a visit may cost, on each shelf.
    pub(crate) fuel: u64,
    pub(crate) row: LockRow<KeptShelf<D, N>>,
    // Where all goes when the site is closed.
    pub(crate) disks: Vec<D>,
    pub(crate) nonces: Vec<N>,
    pub(crate) histories: Vec<History<KeptEntry>>,
}

impl<D: Disk, N: Nonces + Drop> Site<D, N> {
    ghost use Rattle.std.specs.Prelude.{◌≡◌, ◌<◌, ◌^◌, length, Some, IfOk};
    ghost use Rattle.site.specs.Ends.{HearsOf};
    ghost use Rattle.lock_row.specs.Rows.{AreNotesOf, ZipsAll};
    ghost use Rattle.page_names.specs.Views.{target_of};
    ghost use Rattle.lock_row.specs.Spots.{IsNoteIn};
    ghost use Rattle.site.specs.Sites.{IsOwn, HoldsThere, HoldsAt, IsRunThere, IsRunAt, place_for, TakesFor, TookAt, PublishesAt, PublishedAt, VisitsFor};

    /// How many shelves there are.
    pub fn shelves(&self) -> usize
        ensures { result ≡ length self.now.row.homes }
    {
        self.row.len()
    }

    // The place of the shelf that a target of the worker is on, where it is there.
    fn place_for(&self, worker: u64, target: &Target) -> Option<usize>
        ensures { result ≡ place_for (length self.now.row.homes) worker (target_of target.now) }
    {
        let shelves = self.shelves();
        if shelves == 0 {
            return None;
        }
        let shelf = shelf_for(shelves, worker, target);
        if shelf < shelves { Some(shelf) } else { None }
    }

    fn take_at<R: Wait>(
        &self,
        rt: &R,
        alloc: Global,
        pass: &mut SitePass<D, N>,
        shelf: usize,
        target: &Target,
        answer: Value,
    ) -> Result<Ticket, Reply>
        requires own { IsOwn self.now pass.old }
        requires shelf { shelf < length self.now.row.homes }
        ensures own { IsOwn self.now pass.new }
        ensures took { TookAt D.view D.tells N.nonce shelf
            target.now answer result pass.old pass.new }
    {
        let by = pass.caller();
        let told = self.row.turn(
            rt,
            pass,
            shelf,
            |kept: &mut KeptShelf<D, N>| kept.take(alloc, by, target, answer),
        );
        match told {
            Ok(told) => told,
            Err(Worn) => Err(Reply::Worn),
        }
    }

    fn publish_at<R: Wait>(
        &self,
        rt: &R,
        alloc: Global,
        pass: &mut SitePass<D, N>,
        shelf: usize,
        ticket: Ticket,
        segment: Option<Segment>,
    ) -> Reply
        requires own { IsOwn self.now pass.old }
        requires shelf { shelf < length self.now.row.homes }
        requires held { HoldsThere D.view D.tells N.nonce shelf pass.old ticket }
        requires segment { IsRunThere shelf pass.old ticket segment }
        ensures own { IsOwn self.now pass.new }
        ensures published { PublishedAt D.view D.tells N.nonce shelf
            ticket result pass.old pass.new }
    {
        let by = pass.caller();
        let told = self.row.turn(
            rt,
            pass,
            shelf,
            |kept: &mut KeptShelf<D, N>| kept.publish(alloc, by, ticket, segment),
        );
        match told {
            Ok(told) => told,
            Err(Worn) => Reply::Worn,
        }
    }

    /// Takes the next number of the target's shelf for a visit. A target on no shelf makes no entry.
    pub fn take<R: Wait>(
        &self,
        rt: &R,
        alloc: Global,
        pass: &mut SitePass<D, N>,
        target: &Target,
        answer: Value,
    ) -> Result<Ticket, Reply>
        requires own { IsOwn self.now pass.old }
        ensures own { IsOwn self.now pass.new }
        ensures took { TakesFor D.view D.tells N.nonce target.now answer result pass.old pass.new }
    {
        let Some(shelf) = self.place_for(pass.caller(), target) else {
            return Err(Reply::Refused(Refusal::Unknown));
        };
        self.take_at(rt, alloc, pass, shelf, target, answer)
    }

    /// Publishes the segment of a ticket that the pass holds.
    pub fn publish<R: Wait>(
        &self,
        rt: &R,
        alloc: Global,
        pass: &mut SitePass<D, N>,
        ticket: Ticket,
        segment: Option<Segment>,
    ) -> Reply
        requires own { IsOwn self.now pass.old }
        requires held { HoldsAt D.view D.tells N.nonce pass.old ticket }
        requires segment { IsRunAt pass.old ticket segment }
        ensures own { IsOwn self.now pass.new }
        ensures published { PublishesAt D.view D.tells N.nonce pass.old ticket result pass.new }
    {
        let Some(shelf) = self.place_for(pass.caller(), &ticket.target) else {
            unreachable!()
        };
        self.publish_at(rt, alloc, pass, shelf, ticket, segment)
    }

    /// Takes, runs the visit, goes through the gate and publishes. The run and the gate are under no lock.
    pub fn visit<R: Wait, G: Gate>(
        &self,
        rt: &R,
        alloc: Global,
        pass: &mut SitePass<D, N>,
        target: &Target,
        answer: Value,
        gate: &G,
    ) -> Reply
        requires own { IsOwn self.now pass.old }
        ensures own { IsOwn self.now pass.new }
        ensures visited { VisitsFor D.view D.tells N.nonce
            target.now answer result pass.old pass.new }
    {
        let ticket = match self.take(rt, alloc, pass, target, answer) {
            Ok(ticket) => ticket,
            Err(reply) => return reply,
        };
        let segment = self.run(alloc, pass, &ticket);
        gate.pass(ticket.number);
        self.publish(rt, alloc, pass, ticket, segment)
    }

    /// The segment of a ticket that the pass holds, over the cells of its take, where there is memory for the run. It is under
    /// no lock.
    pub fn run(&self, alloc: Global, pass: &SitePass<D, N>, ticket: &Ticket) -> Option<Segment>
        requires own { IsOwn self.now pass.now }
        requires held { HoldsAt D.view D.tells N.nonce pass.now ticket.now }
        ensures { IsRunAt pass.now ticket.now result }
    {
        let Some(shelf) = self.place_for(pass.caller(), &ticket.target) else {
            unreachable!()
        };
        let Some(library) = self.libraries.get(shelf) else {
            unreachable!()
        };
        segment_of(alloc, library, ticket, self.fuel)
    }

    /// A note of what the pass has seen. It makes no entry; want of memory changes nothing.
    pub fn tell(
        &self,
        alloc: Global,
        pass: &mut SitePass<D, N>,
    ) -> Result<SiteNote<D, N>, AllocError>
        requires own { IsOwn self.now pass.old }
        ensures same { pass.new ≡ pass.old }
        ensures own { IfOk result (λ n. IsNoteIn self.now.row n) }
        ensures note { IfOk result (λ n. AreNotesOf pass.old n) }
    {
        self.row.tell(alloc, pass)
    }

    /// Hears a note: of each shelf the pass has then seen what the note's maker had, if that is longer. Both are of one
    /// history, and the pass makes no entry.
    pub fn hear(&self, pass: &mut SitePass<D, N>, note: SiteNote<D, N>)
        requires own { IsOwn self.now pass.old }
        requires note { IsNoteIn self.now.row note }
        ensures own { IsOwn self.now pass.new }
        ensures heard { ZipsAll HearsOf pass.old note pass.new }
    {
        self.row.hear(pass, note);
    }
}

// The segment of a ticket over the cells of its take, where there is memory for the run.
fn segment_of(alloc: Global, library: &Library, ticket: &Ticket, fuel: u64) -> Option<Segment>
    requires runs { IsRunnable (library_of library.now).all ticket.now }
    requires fuel { fuel < 2 ^ 63 }
    ensures { IsRunIfAny (library_of library.now).all fuel ticket.now result }
{
    match run_ticket(alloc, library, ticket, &ticket.cells, fuel) {
        Ok(segment) => Some(segment),
        Err(AllocError) => None,
    }
}
