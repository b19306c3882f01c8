ghost use Rattle.std.specs.Prelude.{◌≡◌, IfOk};
ghost use Rattle.script_nodes.specs.Views.{library_of};
ghost use Rattle.book_visits.specs.Admissions.{HasCellsBy};
ghost use Rattle.book_visits.specs.Fits.{IsRunnable};
ghost use Rattle.book_recovery.specs.InstanceBook.Makes.{HasItsStates};

use crate::shelf::Shelf;
use book_recovery::journal_laws::events_are_kept;
use book_visits::{Ticket, admit, take_ticket};
use page_names::Target;
use script_value::{Reply, Value};
use std::alloc::Global;
use web_disk::Disk;
use web_outside::Nonces;

/// The number at which a shelf's numbers are used up.
pub const NUMBERS: u64 = 4_611_686_018_427_387_904;

impl<D: Disk, N: Nonces + Drop> Shelf<D, N> {
    ghost use Rattle.shelf.specs.Views.{IsInOrder, IsOwnShelf, admission_now, FitsNow, IsOut, HasTargetScript};
    ghost use Rattle.shelf.specs.Tickets.{GoesOnFromItsPage, KeepsTickets};
    ghost use Rattle.shelf.specs.Events.{IsTake, IsTicketOf, TellsWhyNot};

    /// Takes the next number and nonce for a visit of the target. It does not touch the disk.
    ///
    /// A shelf that is down, one that follows another one's journal, one whose numbers are used up, and a target that is not admitted
    /// are told whatever memory there is. A take that is refused, or finds no memory, changes nothing and draws no nonce.
    ///
    /// The ticket can be run, and that of an answer goes on from its page, as do those that were taken before. Where each page of the
    /// shelf has the state of its chain, it is for the visit of the target.
    pub fn take(&mut self, alloc: Global, target: &Target, answer: Value) -> Result<Ticket, Reply>
        requires { IsInOrder D.view D.tells self.old }
        ensures event { IsTake D.view N.nonce self.old self.new target.now answer result }
        ensures in_order { IsInOrder D.view D.tells self.new }
        ensures own { IsOwnShelf D.view D.tells self.old → IsOwnShelf D.view D.tells self.new }
        ensures refused { TellsWhyNot D.view self.old target.now result }
        ensures ticket { IfOk result (IsTicketOf D.view N.nonce self.old target.now answer) }
        ensures fits { HasItsStates (library_of self.old.library).all self.old.book
            → IfOk result (FitsNow D.view self.new) }
        ensures runs { IfOk result (IsRunnable (library_of self.new.library).all) }
        ensures script { IfOk result (HasTargetScript (library_of self.new.library)) }
        ensures cells { IfOk result (HasCellsBy (admission_now D.view self.old target.now)) }
        ensures out { IfOk result (IsOut D.view self.new) }
        ensures goes { IfOk result (GoesOnFromItsPage D.view self.new) }
        ensures tickets { KeepsTickets D.view self.old self.new }
        ensures journal { self.new.journal ≡ self.old.journal }
        ensures library { self.new.library ≡ self.old.library }
        ensures rules { self.new.rules ≡ self.old.rules }
    {
        events_are_kept();
        if let Some(reply) = self.barred() {
            return Err(reply);
        }
        if self.book.drawn() == NUMBERS {
            return Err(Reply::Worn);
        }
        if let Err(refusal) = admit(&self.book, &self.library, target) {
            return Err(Reply::Refused(refusal));
        }
        let mut nonces = self.nonces.again();
        let nonce = nonces.next();
        match take_ticket(alloc, &mut self.book, &self.library, target, answer, nonce) {
            Ok(ticket) => {
                self.nonces = nonces;
                Ok(ticket)
            }
            Err(_) => Err(Reply::Memory),
        }
    }
}
