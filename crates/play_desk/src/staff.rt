ghost use Rattle.std.specs.Prelude.{◌≡◌, ◌≢◌, ◌<◌, ◌^◌, IfOk, IfSome, is_some, length, option_map, replicate, slice_get, slice_set, Some, None};
ghost use Rattle.script_nodes.specs.Views.{library_of};
ghost use Rattle.server_limits.specs.Counts.{most_workers};
ghost use Rattle.disk_trio.specs.Trio.{trio_view};
ghost use Rattle.shelf.specs.Visits.{IsRunnable, ticket_of};
ghost use Rattle.play_desk.specs.Staff.{KeepsOthers, LosesTickets};
ghost use Rattle.shelf.specs.Views.{IsRunIfAny};
ghost use Rattle.play_desk.specs.Desk as spec;
ghost use Rattle.play_desk.specs.Staff.{HoldsTicket, IsFit, KeepsOwn, CompactsShelf, PublishesTicket, StaysThere, SweepsShelf, TakesTicket, held_by, place_of};

use crate::answer::answer_to;
use disk_trio::Disks;
use http_forms::path_and_query;
use page_names::{parse_target, shelf_for};
use replay_spec::refused_is_unchanged;
use script_nodes::Library;
use script_value::{Refusal, Reply};
use server_limits::MOST_WORKERS;
use shelf::{Segment, Shelf, Ticket, run_ticket, tickets_go_on_to_fit};
use std::alloc::Global;
use std::mem;
use web_disk::Disk;
use web_outside::Counting;

/// How many workers may hold a ticket.
const WORKERS: usize = MOST_WORKERS as usize;

/// Shelves on their disks, and the tickets of the workers that visit them.
#[derive(Drop)]
pub struct Staff<D: Disk> {
    pub shelves: Vec<Shelf<D, Counting>>,
    pub tickets: [Option<Ticket>; WORKERS],
}

/// The segment that a ticket is for, over the ticket's own cells; none where its run finds no memory.
pub fn segment_of(alloc: Global, library: &Library, ticket: &Ticket, fuel: u64) -> Option<Segment>
    requires fits { IsRunnable (library_of library.now).all ticket.now }
    requires fuel { fuel < 2 ^ 63 }
    ensures { IsRunIfAny (library_of library.now).all fuel ticket.now result }
{
    run_ticket(alloc, library, ticket, &ticket.cells, fuel).ok()
}

// The ticket that a worker holds, which it holds no longer.
fn handed_in(tickets: &mut [Option<Ticket>; WORKERS], worker: u32) -> Option<Ticket>
    requires { worker < most_workers }
    ensures ticket { slice_get tickets.old worker ≡ Some result }
    ensures without { tickets.new ≡ slice_set tickets.old worker None }
{
    mem::replace(&mut tickets[worker as usize], None)
}

/// Workers that hold nothing.
pub fn no_tickets() -> [Option<Ticket>; WORKERS]
    ensures { result ≡ replicate most_workers None }
{
    [
        None, None, None, None, None, None, None, None, None, None, None, None, None, None, None,
        None,
    ]
}

// What a worker holds once the tickets of the shelf at this place are lost.
fn left_of(held: Option<Ticket>, count: usize, place: usize, worker: u32) -> Option<Ticket>
    requires { 0 < count }
    ensures held { option_map ticket_of result
        ≡ spec.left_of count place worker (option_map ticket_of held) }
    ensures kept { IfSome result (λ t. (held ≡ Some t) × (place_of count worker t ≢ place)) }
{
    let ticket = held?;
    if shelf_for(count, u64::from(worker), &ticket.target) == place {
        return None;
    }
    Some(ticket)
}

/// The tickets of the shelf at this place, of so many, are lost.
pub fn lose_tickets(tickets: &mut [Option<Ticket>; WORKERS], count: usize, place: usize)
    requires some { 0 < count }
    requires workers { length tickets.old ≡ most_workers }
    ensures held { LosesTickets count place tickets.old tickets.new }
    ensures kept { KeepsOthers count place tickets.old tickets.new }
    ensures workers { length tickets.new ≡ most_workers }
{
    for worker in 0..MOST_WORKERS {
        let held = handed_in(tickets, worker);
        tickets[worker as usize] = left_of(held, count, place, worker);
    }
}

/// Whether the worker holds a ticket.
pub fn holds<D: Disk>(staff: &Staff<D>, worker: u32) -> bool
    requires { worker < most_workers }
    ensures { result ≡ is_some (held_by staff.now worker) }
{
    staff.tickets[worker as usize].is_some()
}

/// Draws a number for a visit of the target, and the worker holds its ticket.
pub fn take<D: Disk>(
    alloc: Global,
    staff: &mut Staff<D>,
    worker: u32,
    target: &[u8],
) -> Result<u64, Reply>
    requires worker { worker < most_workers }
    requires fit { IsFit D.view D.tells staff.old }
    ensures step { TakesTicket D.view staff.old worker target.now result staff.new }
    ensures held { IfOk result (λ _. HoldsTicket staff.new worker) }
    ensures fit { IsFit D.view D.tells staff.new }
    ensures own { KeepsOwn D.view D.tells staff.old staff.new }
    ensures there { StaysThere D.view staff.old staff.new }
{
    refused_is_unchanged();
    let (path, query) = path_and_query(target);
    let Some(target) = parse_target(path) else {
        return Err(Reply::Refused(Refusal::Unknown));
    };
    let count = staff.shelves.len();
    if count == 0 {
        return Err(Reply::Refused(Refusal::Unknown));
    }
    let place = shelf_for(count, u64::from(worker), &target);
    if place >= count {
        return Err(Reply::Refused(Refusal::Unknown));
    }
    let Ok(answer) = answer_to(alloc, query) else {
        return Err(Reply::Memory);
    };
    let shelf = &mut staff.shelves[place];
    match shelf.take(alloc, &target, answer) {
        Ok(ticket) => {
            let number = ticket.number;
            staff.tickets[worker as usize] = Some(ticket);
            Ok(number)
        }
        Err(reply) => Err(reply),
    }
}

/// Runs the visit that the worker's ticket is for, and spends the ticket. What it comes to is said of own shelves.
pub fn publish<D: Disk>(alloc: Global, staff: &mut Staff<D>, worker: u32) -> Reply
    requires worker { worker < most_workers }
    requires fit { IsFit D.view D.tells staff.old }
    ensures step { PublishesTicket D.view D.tells staff.old worker result staff.new }
    ensures fit { IsFit D.view D.tells staff.new }
    ensures own { KeepsOwn D.view D.tells staff.old staff.new }
    ensures there { StaysThere D.view staff.old staff.new }
{
    // What holds of a ticket at its take holds until it is published.
    tickets_go_on_to_fit();
    let Some(ticket) = handed_in(&mut staff.tickets, worker) else {
        return Reply::Refused(Refusal::Unknown);
    };
    let place = shelf_for(staff.shelves.len(), u64::from(worker), &ticket.target);
    let shelf = &mut staff.shelves[place];
    let segment = segment_of(alloc, shelf.library(), &ticket, shelf.rules().fuel);
    shelf.publish(alloc, ticket, segment)
}

/// Sweeps the shelf at the tick, in seconds, and tells how many instances it freed.
pub fn sweep<D: Disk>(
    alloc: Global,
    staff: &mut Staff<D>,
    place: u32,
    tick: u64,
) -> Result<u32, Reply>
    requires place { place < length staff.old.shelves.items }
    requires tick { tick < 2 ^ 62 }
    requires fit { IsFit D.view D.tells staff.old }
    ensures step { SweepsShelf D.view staff.old place tick result staff.new }
    ensures fit { IsFit D.view D.tells staff.new }
    ensures own { KeepsOwn D.view D.tells staff.old staff.new }
    ensures there { StaysThere D.view staff.old staff.new }
{
    staff.shelves[place as usize].sweep(alloc, tick)
}

/// Puts a file in the place of the shelf's that has no more than the shelf needs, and tells how long that is.
pub fn compact<F: Disk>(
    alloc: Global,
    staff: &mut Staff<Disks<F>>,
    place: u32,
) -> Result<u64, Reply>
    requires place { place < length staff.old.shelves.items }
    requires fit { IsFit trio_view F.tells staff.old }
    ensures step { CompactsShelf trio_view staff.old place result staff.new }
    ensures fit { IsFit trio_view F.tells staff.new }
    ensures own { KeepsOwn trio_view F.tells staff.old staff.new }
    ensures there { StaysThere trio_view staff.old staff.new }
{
    staff.shelves[place as usize].compact(alloc)
}
