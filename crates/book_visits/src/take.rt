ghost use Rattle.std.specs.Prelude.{◌≡◌, ◌<◌, ◌^◌, None, IfOk, OnOk, OnErr};
ghost use Rattle.script_nodes.specs.Views.{named_of, library_of};
ghost use Rattle.replay_spec.specs.Book as spec;
ghost use Rattle.book_visits.specs.Views.{IsTicketFor};
ghost use Rattle.book_visits.specs.Fits.{IsRunnable};
ghost use Rattle.instance_book.specs.Makes.{Makes, StaysSame, HasPlaces, KeepsPlaces, HasSomeStates, KeepsStates};
ghost use Rattle.instance_book.specs.Standing.{IsPlacedAt, BeginsAt};
ghost use Rattle.book_visits.specs.Admissions.{IsKeptSome, HasCellsBy, FitsStartIn, FitsWhereKept, GoesOnAsGiven, GoesOnStored, admission_for, refusal_for, GoesOnIn, FitsInKept, StartsIn, HasFew};

use crate::admission::{Admission, admission_to};
use crate::home::Home;
use crate::ticket::Ticket;
use instance_book::{Book, Place, next_links, origin_at};
use instance_cells::Cells;
use machine_states::Origin;
use page_names::Target;
use script_nodes::{Library, NamedScript};
use script_value::Value;
use std::alloc::{AllocError, Global};

// The ticket of a start of this script.
fn start_ticket(
    alloc: Global,
    book: &Book,
    library: &Library,
    start: usize,
    place: usize,
    script: &NamedScript,
    target: &Target,
    answer: Value,
    number: u64,
    nonce: u64,
) -> Result<Ticket, AllocError>
    requires few { HasFew (library_of library.now) }
    requires stands { BeginsAt (library_of library.now) start place (named_of script.now) }
    ensures ticket { IfOk result (IsTicketFor target.now answer number nonce) }
    ensures fits { IfOk result
        (FitsStartIn (library_of library.now) book.now start (named_of script.now)) }
    ensures runs { IfOk result (IsRunnable (library_of library.now).all) }
{
    let home = Home {
        name: script.name,
        shelf: book.shelf(),
        instance: number,
    };
    Ok(Ticket {
        number,
        nonce,
        script: place,
        start: start as u8,
        target: *target,
        url: home.url(alloc, number, nonce)?,
        from: Origin::Start,
        links: 0,
        answer,
        cells: Cells::of(alloc, script.script.instance_defaults().as_slice())?,
    })
}

// The ticket of an answer to this page.
fn page_ticket(
    alloc: Global,
    book: &Book,
    library: &Library,
    place: Place,
    target: &Target,
    answer: Value,
    number: u64,
    nonce: u64,
) -> Result<Ticket, AllocError>
    requires placed { IsPlacedAt (library_of library.now).all place }
    requires kept { IsKeptSome (library_of library.now).all place }
    ensures ticket { IfOk result (IsTicketFor target.now answer number nonce) }
    ensures fits { FitsWhereKept (library_of library.now) book.now place.entry result }
    ensures told { GoesOnAsGiven (library_of library.now) place.entry result }
    ensures stored { IfOk result (GoesOnStored place.entry) }
    ensures script { IfOk result (λ t. t.script ≡ place.entry.instance.now.item.script) }
    ensures runs { IfOk result (IsRunnable (library_of library.now).all) }
    ensures cells { IfOk result (λ t. t.cells ≡ place.entry.instance.now.item.cells) }
{
    let home = Home {
        name: place.script.name,
        shelf: book.shelf(),
        instance: place.instance.number,
    };
    Ok(Ticket {
        number,
        nonce,
        script: place.instance.item.script,
        start: 0,
        target: *target,
        url: home.url(alloc, number, nonce)?,
        from: origin_at(alloc, place.script, &place.instance.item.pages, place.page)?,
        links: next_links(place.page.item.state.links),
        answer,
        cells: place.instance.item.cells.try_clone(alloc)?,
    })
}

// The ticket of a target that is admitted.
fn made(
    alloc: Global,
    book: &Book,
    library: &Library,
    target: &Target,
    answer: Value,
    number: u64,
    nonce: u64,
) -> Result<Ticket, AllocError>
    requires few { HasFew (library_of library.now) }
    requires admitted { refusal_for (library_of library.now) book.now target.now ≡ None }
    requires placed { HasPlaces (library_of library.now).all book.now }
    requires kept { HasSomeStates (library_of library.now).all book.now }
    ensures ticket { IfOk result (IsTicketFor target.now answer number nonce) }
    ensures fits { FitsInKept (library_of library.now) book.now target.now result }
    ensures goes { IfOk result (GoesOnIn (library_of library.now) book.now target.now) }
    ensures starts { IfOk result (StartsIn (library_of library.now) book.now target.now) }
    ensures runs { IfOk result (IsRunnable (library_of library.now).all) }
    ensures cells { IfOk result
        (HasCellsBy (admission_for (library_of library.now) book.now target.now)) }
{
    match admission_to(book, library, target) {
        Admission::Begins {
            start,
            place,
            script,
        } => start_ticket(
            alloc, book, library, start, place, script, target, answer, number, nonce,
        ),
        Admission::Resumes(place) => {
            page_ticket(alloc, book, library, place, target, answer, number, nonce)
        }
        Admission::Refused(_) => unreachable!(),
    }
}

/// Takes the next number, for a visit of a target that is admitted.
///
/// It asks for a present setup of at most 255 scripts. The ticket can be run. Where each page of the book has the state of its
/// chain, it is for the visit of the target, and so it is for a start. Whatever states the pages have, the ticket of an answer
/// goes on from that of the page that is answered. Where memory runs out, nothing changes.
pub fn take_ticket(
    alloc: Global,
    book: &mut Book,
    library: &Library,
    target: &Target,
    answer: Value,
    nonce: u64,
) -> Result<Ticket, AllocError>
    requires few { HasFew (library_of library.now) }
    requires admitted { refusal_for (library_of library.now) book.old target.now ≡ None }
    requires numbers { book.old.drawn < 2 ^ 62 }
    requires placed { HasPlaces (library_of library.now).all book.old }
    requires kept { HasSomeStates (library_of library.now).all book.old }
    ensures drawn { OnOk result (Makes spec.draw book.old book.new) }
    ensures ticket { IfOk result (IsTicketFor target.now answer book.old.drawn nonce) }
    ensures fits { FitsInKept (library_of library.now) book.old target.now result }
    ensures goes { IfOk result (GoesOnIn (library_of library.now) book.old target.now) }
    ensures starts { IfOk result (StartsIn (library_of library.now) book.old target.now) }
    ensures runs { IfOk result (IsRunnable (library_of library.now).all) }
    ensures cells { IfOk result
        (HasCellsBy (admission_for (library_of library.now) book.old target.now)) }
    ensures err { OnErr result (StaysSame book.old book.new) }
    ensures placed { KeepsPlaces book.old book.new }
    ensures states { KeepsStates book.old book.new }
{
    let number = book.drawn();
    let ticket = made(alloc, book, library, target, answer, number, nonce)?;
    book.draw()?;
    Ok(ticket)
}
