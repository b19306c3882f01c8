ghost use Rattle.std.specs.Prelude.{◌≡◌, ◌<◌, ◌^◌, None, IfOk, IfErr, Ok, map};
ghost use Rattle.script_nodes.specs.Views.{library_of};
ghost use Rattle.instance_cells.specs.Views.{effect_of};
ghost use Rattle.book_recovery.specs.InstanceBook.Standing.{book_under};
ghost use Rattle.book_visits.specs.Admissions.{refusal_for};
ghost use Rattle.book_visits.specs.Fits.{IsRunnable};
ghost use Rattle.book_visits.specs.Prepares.{AreOnCells};
ghost use Rattle.shelf.specs.Views.{HaveTheirCells, HasTargetScript, IsRunOf};
ghost use Rattle.shelf.specs.Calls.{ComesNow, KeepsNow, StaysIfHeld};
ghost use Rattle.shelf.specs.Tickets.{GoesOnIfThere};
ghost use Rattle.shelf.specs.Holding.{AreHeldNow, IsWantOfMemory, ShowsWholeFrom};

use crate::run_ticket;
use book_recovery::books::Book;
use book_recovery::runs::Segment;
use book_visits::Ticket;
use page_names::Target;
use replay_spec::effects_hold_run_same;
use script_nodes::Library;
use script_value::Reply;
use std::alloc::{AllocError, Global};

/// What the segment of a ticket comes to over the cells of now: the first run's result where its effects hold over them, and
/// else that of a second run. A start's cells are its own, so it is never run again.
///
/// It asks for a target that is admitted, and that the ticket of an answer goes on from its page: so its script has as many cells as
/// the instance. Whatever the ticket is for, the effects hold over the cells of its instance, so that recovery takes its record in.
pub fn segment_now(
    alloc: Global,
    book: &Book,
    library: &Library,
    ticket: &Ticket,
    first: Segment,
    fuel: u64,
) -> Result<Segment, Reply>
    requires runs { IsRunnable (library_of library.now).all ticket.now }
    requires script { HasTargetScript (library_of library.now) ticket.now }
    requires segment { IsRunOf (library_of library.now).all fuel ticket.now first }
    requires cells { HaveTheirCells (book_under (library_of library.now) book.now) }
    requires admitted { refusal_for (library_of library.now) book.now ticket.now.target ≡ None }
    requires goes { GoesOnIfThere (library_of library.now) book.now ticket.now }
    requires fuel { fuel < 2 ^ 63 }
    ensures segment { ComesNow fuel library.now book.now ticket.now result }
    ensures state { KeepsNow library.now book.now ticket.now result }
    ensures first { StaysIfHeld library.now book.now ticket.now first result }
    ensures on { IfOk result (λ r. AreOnCells book.now ticket.now (map effect_of r.effects.items)) }
    ensures held { IfOk result (AreHeldNow book.now ticket.now) }
    ensures whole { IfOk result (ShowsWholeFrom (library_of library.now).all ticket.now) }
    ensures none { IfErr result IsWantOfMemory }
{
    let Some(named) = library.get(ticket.script) else {
        unreachable!()
    };
    // A script's root tells that the cells that its nodes name are there.
    let _root = named.script.root();
    effects_hold_run_same();
    let Target::Page(_, page) = &ticket.target else {
        return Ok(first);
    };
    let Some(cells) = book.cells(page.instance) else {
        unreachable!()
    };
    if cells.holds(&first.effects) {
        return Ok(first);
    }
    match run_ticket(alloc, library, ticket, cells, fuel) {
        Ok(segment) => Ok(segment),
        Err(AllocError) => Err(Reply::Memory),
    }
}
