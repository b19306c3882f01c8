ghost use Rattle.std.specs.Prelude.{◌≤◌, IfOk, Contains};
ghost use Rattle.script_nodes.specs.Views.{library_of};
ghost use Rattle.server_limits.specs.Limits.{most_fuel, most_life};
ghost use Rattle.replay_spec.specs.Invariant.{IsOrderly};
ghost use Rattle.book_recovery.specs.InstanceBook.Standing.{book_under};
ghost use Rattle.book_recovery.specs.InstanceBook.Changes.{HasRoomFor};
ghost use Rattle.book_visits.specs.Fits.{IsRunnable};
ghost use Rattle.book_recovery.specs.InstanceBook.Makes.{HasPlaces, StaysSame, KeepsPlaces, KeepsStates};
ghost use Rattle.shelf.specs.Views.{IsRunIfAny, HasTargetScript};
ghost use Rattle.shelf.specs.Tickets.{GoesOnIfThere};
ghost use Rattle.shelf.specs.Preparing.{IsRefused, WantsMemory, CanBeLanded, TellsOfRun};
ghost use Rattle.shelf.specs.Calls.{DecidesIfFits, DecidesIfHeld, ShowsIfFits};

use crate::rules::Rules;
use crate::second::segment_now;
use book_recovery::books::Book;
use book_recovery::runs::Segment;
use book_visits::{Prepared, Ticket, a_shown_page_has_its_state, admit, prepare};
use script_nodes::Library;
use script_value::Reply;
use std::alloc::Global;

/// What the publish of a ticket is prepared as, or answered, on a shelf that is not down, before its record is measured.
///
/// Whatever the ticket is for, what is prepared can be landed. Where it is for the visit of its target, that is what the visit comes to.
pub fn prepared(
    alloc: Global,
    book: &mut Book,
    rules: Rules,
    library: &Library,
    ticket: &Ticket,
    segment: Option<Segment>,
) -> Result<Prepared, Reply>
    requires fuel { rules.fuel ≤ most_fuel }
    requires life { rules.life ≤ most_life }
    requires placed { HasPlaces (library_of library.now).all book.old }
    requires orderly { IsOrderly (book_under (library_of library.now) book.old) }
    requires out { Contains book.old.out.items ticket.now.number }
    requires runs { IsRunnable (library_of library.now).all ticket.now }
    requires script { HasTargetScript (library_of library.now) ticket.now }
    requires goes { GoesOnIfThere (library_of library.now) book.old ticket.now }
    requires segment { IsRunIfAny (library_of library.now).all rules.fuel ticket.now segment }
    ensures book { StaysSame book.old book.new }
    ensures placed { KeepsPlaces book.old book.new }
    ensures states { KeepsStates book.old book.new }
    ensures room { IfOk result (λ p. HasRoomFor p.change book.new) }
    ensures landed { IfOk result (CanBeLanded (library_of library.now) book.old ticket.now) }
    ensures shown { ShowsIfFits library.now book.old ticket.now result }
    ensures decided { DecidesIfFits library.now rules book.old ticket.now result }
    ensures held { DecidesIfHeld library.now rules book.old ticket.now segment result }
    ensures refused { IsRefused (library_of library.now) book.old ticket.now.target result }
    ensures tells { TellsOfRun result }
    ensures none { WantsMemory (library_of library.now) book.old ticket.now segment result }
{
    a_shown_page_has_its_state();
    if let Err(refusal) = admit(book, library, &ticket.target) {
        return Err(Reply::Refused(refusal));
    }
    let Some(first) = segment else {
        return Err(Reply::Memory);
    };
    match segment_now(alloc, book, library, ticket, first, rules.fuel) {
        Ok(segment) => prepare(
            alloc,
            book,
            ticket,
            segment,
            rules.instances,
            rules.pages,
            rules.life,
        ),
        Err(reply) => Err(reply),
    }
}
