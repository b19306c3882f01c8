ghost use Rattle.std.specs.Prelude.{◌≡◌, ◌<◌, ◌^◌, true, IfOk, Some};
ghost use Rattle.script_nodes.specs.Views.{library_of};
ghost use Rattle.book_redo.specs.InstanceBook.Makes.{HasPlaces, HasSomeStates, HasItsStates};
ghost use Rattle.book_redo.specs.InstanceBook.Views.{used_of};
ghost use Rattle.book_redo.specs.InstanceBook.Standing.{book_under};
ghost use Rattle.journal_records.specs.Views.{page_change};
ghost use Rattle.book_redo.specs.Again.{CanRunAgain};
ghost use Rattle.audit_spec.specs.Tests as spec;
ghost use Rattle.audit_spec.specs.Tests.{runs_so};
ghost use Rattle.record_audit.specs.Faults.{GoesLeast, GoLeast, TellsOwn};

use crate::runs::script_at;
use book_redo::books::{Book, InOrder, KeptPage, place_of_numbers};
use book_redo::{is_same_state, state_left, told_state};
use book_visits::{first_to_go, why_not};
use journal_records::{Origin, PageRecord};
use script_nodes::Library;
use server_limits::MOST_LIFE;
use std::alloc::{AllocError, Global};

/// Whether a page stands under these numbers and can be answered.
pub fn can_be_answered(book: &Book, library: &Library, instance: u64, page: u64) -> bool
    requires { HasPlaces (library_of library.now).all book.now }
    ensures { result
        ≡ spec.can_be_answered (book_under (library_of library.now) book.now) instance page }
{
    match place_of_numbers(book, library, instance, page) {
        Some(place) => why_not(book.clock(), place.instance, place.page).is_none(),
        None => false,
    }
}

/// Whether what the record of a page answers is admitted: a start of a script of the present setup, or a page that can be answered.
pub fn is_admitted(book: &Book, library: &Library, page: &PageRecord) -> bool
    requires { HasPlaces (library_of library.now).all book.now }
    ensures { result
        ≡ spec.is_admitted (book_under (library_of library.now) book.now) (page_change page.now) }
{
    match &page.origin {
        Origin::Start { script } => script_at(library, *script).is_some(),
        Origin::Answer { instance, page, .. } => can_be_answered(book, library, *instance, *page),
    }
}

// Whether these pages are as many of the least used as they are, once a segment of this number answered one.
fn are_least(
    alloc: Global,
    shown: &InOrder<KeptPage>,
    answered: u64,
    number: u64,
    gone: &[u64],
) -> Result<bool, AllocError>
    ensures { IfOk result (GoesLeast answered number (used_of shown.now) gone.now) }
{
    let least = first_to_go(alloc, shown, answered, number, gone.len())?;
    Ok(gone == least.as_slice())
}

/// Whether the pages that went for the page of a record are the least used, once the page that is answered was used; for a start none goes.
pub fn least_go(
    alloc: Global,
    book: &Book,
    library: &Library,
    page: &PageRecord,
) -> Result<bool, AllocError>
    requires { HasPlaces (library_of library.now).all book.now }
    ensures { IfOk result (GoLeast (library_of library.now) book.now (page_change page.now)) }
{
    match &page.origin {
        Origin::Start { .. } => Ok(page.evicted.is_empty()),
        Origin::Answer {
            instance,
            page: answered,
            ..
        } => match place_of_numbers(book, library, *instance, *answered) {
            Some(place) => are_least(
                alloc,
                &place.instance.item.pages,
                *answered,
                page.ticket,
                &page.evicted,
            ),
            None => Ok(false),
        },
    }
}

/// Whether a deadline is above the clock, by one life at most.
pub fn is_due(clock: u64, deadline: u64) -> bool
    requires { clock < 2 ^ 62 }
    ensures { result ≡ spec.is_due clock deadline }
{
    clock < deadline && deadline <= clock + MOST_LIFE
}

/// Whether the state that the record of a page tells by these bytes is the one that the page's script leaves there, which comes to the page
/// as the record tells. In format 1 none is told.
pub fn tells_own(
    alloc: Global,
    format: u8,
    book: &Book,
    library: &Library,
    page: &PageRecord,
    state: &[u8],
) -> Result<bool, AllocError>
    requires placed { HasPlaces (library_of library.now).all book.now }
    requires kept { HasSomeStates (library_of library.now).all book.now }
    requires own { HasItsStates (library_of library.now).all book.now }
    requires runs { CanRunAgain (library_of library.now) book.now }
    requires so { runs_so (book_under (library_of library.now) book.now) (page_change page.now)
        ≡ true }
    ensures { IfOk result
        (TellsOwn format (library_of library.now) book.now (page_change page.now) state.now) }
{
    if format == 1 {
        return Ok(true);
    }
    let Some(told) = told_state(alloc, format, book, library, page, state)? else {
        return Ok(false);
    };
    match state_left(alloc, book, library, page)? {
        Some(left) => Ok(is_same_state(&told, &left)),
        None => Ok(false),
    }
}
