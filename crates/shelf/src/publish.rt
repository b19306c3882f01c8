ghost use Rattle.std.specs.Prelude.{◌≡◌, None, IsTrue};
ghost use Rattle.script_nodes.specs.Views.{library_of};
ghost use Rattle.book_recovery.specs.InstanceBook.Changes.{HasRoomFor};
ghost use Rattle.book_visits.specs.Fits.{IsRunnable};
ghost use Rattle.book_visits.specs.Views.{reply_of};

use crate::body::told_body;
use crate::doubt::Doubt;
use crate::prepare::prepared;
use crate::recording::added;
use crate::shelf::Shelf;
use book_recovery::journal_laws::{
    events_are_kept, events_stand_between, landings_are_kept, landings_stand_between,
};
use book_recovery::runs::Segment;
use book_visits::{Prepared, Ticket, install};
use journal_records::records_are_exact;
use script_value::Reply;
use std::alloc::Global;
use web_disk::Disk;
use web_outside::Nonces;

impl<D: Disk, N: Nonces + Drop> Shelf<D, N> {
    ghost use Rattle.shelf.specs.Views.{IsInOrder, IsOwnShelf, IsOwnVisit, IsOut, IsRunFor, HasTargetScript, fate_by};
    ghost use Rattle.replay_spec.specs.Step.{plain};
    ghost use Rattle.shelf.specs.Tickets.{GoesOnFromItsPage, KeepsTickets};
    ghost use Rattle.shelf.specs.Events.{TellsRefusal, IsToldIfHeld, WantsIfNone, SpendsNumber, SpendsOnly, HasMoments, TellsFaults, LeavesItsDisk, CountsOn, CarriesOut, ShowsItsState};
    ghost use Rattle.shelf.specs.Calls.{KeepsOwnMoments, PublishesOwn, TellsDecided};
    ghost use Rattle.shelf.specs.Preparing.{CanBeLanded};

    /// Publishes the segment of a ticket, which spends its number whatever the reply.
    ///
    /// The target is admitted anew. A start's segment is published as it is, and so is one whose effects hold over the cells of
    /// now; else it is run again over them, under the same number and nonce. No segment says that its run found no memory.
    ///
    /// A change of the book is on the disk before it is made. All memory is taken before the first call of the disk: a reply that is
    /// neither a page nor a fault of the disk leaves the disk alone. Where the disk fails, the change may stand there or not, and the
    /// shelf is down until it is opened again.
    ///
    /// A shelf that is down or follows another one's journal and a target that is not admitted are told whatever memory there is, and
    /// so is, where no second run is due, any reply that changes nothing, but for the length of a record. Want of memory changes
    /// nothing else than that the number is spent.
    ///
    /// It asks for a number that is out, for a ticket that can be run and that goes on from its page, as a take gave it, and for the
    /// segment of its run over its own cells. On an own shelf, where the ticket is for the visit of its target wherever that is
    /// admitted now, the publish is one event. Whatever the ticket is for, the shelf stays in order, and tickets that go on from
    /// their pages go on to do so.
    pub fn publish(&mut self, alloc: Global, ticket: Ticket, segment: Option<Segment>) -> Reply
        requires in_order { IsInOrder D.view D.tells self.old }
        requires out { IsOut D.view self.old ticket }
        requires runs { IsRunnable (library_of self.old.library).all ticket }
        requires script { HasTargetScript (library_of self.old.library) ticket }
        requires goes { GoesOnFromItsPage D.view self.old ticket }
        requires segment { IsRunFor self.old ticket segment }
        ensures event { PublishesOwn D.view D.tells N.nonce self.old self.new ticket result }
        ensures in_order { IsInOrder D.view D.tells self.new }
        ensures own { IsOwnVisit D.view D.tells self.old ticket
            → IsOwnShelf D.view D.tells self.new }
        ensures spent { SpendsNumber D.view self.old self.new ticket }
        ensures tickets { KeepsTickets D.view self.old self.new }
        ensures any_moment { IsTrue D.tells
            → HasMoments D.view self.old self.new }
        ensures own_moments { KeepsOwnMoments D.view D.tells self.old self.new ticket }
        ensures refused { TellsRefusal D.view self.old ticket.target result }
        ensures none { WantsIfNone D.view self.old ticket segment result }
        ensures held { IsOwnVisit D.view D.tells self.old ticket
            → IsToldIfHeld D.view self.old ticket segment result }
        ensures memory { SpendsOnly D.view self.old self.new ticket result }
        ensures cause { TellsFaults D.view self.old self.new (reply_of result) }
        ensures quiet { LeavesItsDisk D.view self.old self.new (reply_of result) }
        ensures later { CountsOn D.view self.old self.new }
        ensures nonces { self.new.nonces ≡ self.old.nonces }
        ensures library { self.new.library ≡ self.old.library }
        ensures rules { self.new.rules ≡ self.old.rules }
    {
        events_are_kept();
        if let Some(reply) = self.barred() {
            self.book.spend(ticket.number);
            return reply;
        }
        match prepared(
            alloc,
            &mut self.book,
            self.rules,
            &self.library,
            &ticket,
            segment,
        ) {
            Ok(prepared) => self.land(alloc, &ticket, prepared),
            Err(reply) => {
                self.book.spend(ticket.number);
                reply
            }
        }
    }

    // Makes a prepared change, once its record is on the disk, and gives its reply.
    //
    // Whatever the ticket is for, the shelf stays in order; for an own visit this is what the visit comes to.
    fn land(&mut self, alloc: Global, ticket: &Ticket, prepared: Prepared) -> Reply
        requires in_order { IsInOrder D.view D.tells self.old }
        requires up { self.old.down ≡ None }
        requires out { IsOut D.view self.old ticket.now }
        requires runs { IsRunnable (library_of self.old.library).all ticket.now }
        requires script { HasTargetScript (library_of self.old.library) ticket.now }
        requires goes { GoesOnFromItsPage D.view self.old ticket.now }
        requires room { HasRoomFor prepared.change self.old.book }
        requires plain { fate_by (reply_of prepared.reply) ≡ plain }
        requires landed { CanBeLanded (library_of self.old.library) self.old.book ticket.now prepared }
        requires shown { IsOwnVisit D.view D.tells self.old ticket.now
            → ShowsItsState self.old prepared.change }
        requires decided { IsOwnVisit D.view D.tells self.old ticket.now
            → CarriesOut D.view self.old ticket.now prepared }
        ensures event { PublishesOwn D.view D.tells N.nonce self.old self.new ticket.now result }
        ensures in_order { IsInOrder D.view D.tells self.new }
        ensures own { IsOwnVisit D.view D.tells self.old ticket.now
            → IsOwnShelf D.view D.tells self.new }
        ensures spent { SpendsNumber D.view self.old self.new ticket.now }
        ensures tickets { KeepsTickets D.view self.old self.new }
        ensures any_moment { IsTrue D.tells
            → HasMoments D.view self.old self.new }
        ensures own_moments { KeepsOwnMoments D.view D.tells self.old self.new ticket.now }
        ensures told { TellsDecided D.view D.tells self.old ticket.now result }
        ensures memory { SpendsOnly D.view self.old self.new ticket.now result }
        ensures cause { TellsFaults D.view self.old self.new (reply_of result) }
        ensures quiet { LeavesItsDisk D.view self.old self.new (reply_of result) }
        ensures later { CountsOn D.view self.old self.new }
        ensures nonces { self.new.nonces ≡ self.old.nonces }
        ensures library { self.new.library ≡ self.old.library }
        ensures rules { self.new.rules ≡ self.old.rules }
    {
        // A nonce has 64 bits.
        let _nonce = ticket.nonce;
        events_are_kept();
        events_stand_between();
        landings_are_kept();
        landings_stand_between();
        records_are_exact();
        self.book.spend(ticket.number);
        let Some(change) = &prepared.change else {
            return install(&mut self.book, prepared);
        };
        let body = match told_body(alloc, &mut self.journal, &mut self.notes, ticket, change) {
            Ok(body) => body,
            Err(reply) => {
                drop(prepared);
                return reply;
            }
        };
        match added(&mut self.journal, body.as_slice()) {
            Ok(()) => {
                self.notes.visit(change, body.len() as u32);
                install(&mut self.book, prepared)
            }
            Err(count) => {
                self.down = Doubt::of_visit(count, prepared);
                Reply::DiskFault(count)
            }
        }
    }
}
