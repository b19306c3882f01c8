//! The run of a ticket's segment.
ghost use Rattle.std.specs.Prelude.{◌<◌, ◌^◌, IfOk};
ghost use Rattle.script_nodes.specs.Views.{library_of};
ghost use Rattle.book_visits.specs.Fits.{IsRunnable};
ghost use Rattle.shelf.specs.Runs.{IsRunOver, IsRunOfItsVisit};

use book_recovery::runs::{Segment, run_from};
use book_visits::Ticket;
use instance_cells::Cells;
use replay_spec::effects_are_on_cells;
use script_nodes::Library;
use std::alloc::{AllocError, Global};

/// Runs the segment of a ticket over these cells, from the state that the ticket goes on from.
///
/// It asks that the ticket's script is one of the library and that what it goes on from fits it. Where the ticket is for a visit, the
/// segment is what the visit comes to.
pub fn run_ticket(
    alloc: Global,
    library: &Library,
    ticket: &Ticket,
    cells: &Cells,
    fuel: u64,
) -> Result<Segment, AllocError>
    requires fits { IsRunnable (library_of library.now).all ticket.now }
    requires fuel { fuel < 2 ^ 63 }
    ensures run { IfOk result (IsRunOver (library_of library.now).all fuel ticket.now cells.now) }
    ensures visit { IfOk result
        (IsRunOfItsVisit (library_of library.now).all fuel ticket.now cells.now) }
{
    effects_are_on_cells();
    let Some(named) = library.get(ticket.script) else {
        unreachable!()
    };
    // A script's root tells that its nodes are its tree's.
    let _root = named.script.root();
    let from = ticket.from.try_clone(alloc)?;
    run_from(
        alloc,
        &named.script,
        from,
        &ticket.answer,
        cells,
        ticket.number,
        &ticket.url,
        fuel,
    )
}
