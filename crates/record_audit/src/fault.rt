ghost use Rattle.std.specs.Prelude.{◌<◌, None, IfOk};
ghost use Rattle.script_nodes.specs.Views.{library_of};
ghost use Rattle.replay_spec.specs.Book.{sweeps};
ghost use Rattle.book_redo.specs.InstanceBook.Makes.{HasPlaces, HasSomeStates, HasItsStates};
ghost use Rattle.journal_records.specs.Records.{changes};
ghost use Rattle.journal_records.specs.Views.{logged_of};
ghost use Rattle.book_redo.specs.Again.{CanRunAgain};
ghost use Rattle.record_audit.specs.Faults.{IsFaultIn, IsFaultAlways, IsEndedFault, IsFinishFault, IsPageFault};

use crate::checks::{can_be_answered, is_admitted, is_due, least_go, tells_own};
use crate::runs::{ended_runs_so, finish_runs_so, page_runs_so};
use audit_spec::Word;
use book_redo::books::{Book, InOrder};
use journal_records::{EndedRecord, FinishRecord, Logged, PageRecord};
use script_nodes::Library;
use std::alloc::{AllocError, Global};

// The word of the record of a page, with these bytes of its state.
fn page_fault(
    alloc: Global,
    format: u8,
    book: &Book,
    library: &Library,
    seen: &InOrder<()>,
    page: &PageRecord,
    state: &[u8],
) -> Result<Option<Word>, AllocError>
    requires placed { HasPlaces (library_of library.now).all book.now }
    requires kept { HasSomeStates (library_of library.now).all book.now }
    requires own { HasItsStates (library_of library.now).all book.now }
    requires runs { CanRunAgain (library_of library.now) book.now }
    ensures { IfOk result
        (IsPageFault format (library_of library.now) seen.now book.now page.now state.now) }
{
    if seen.has(page.ticket) {
        return Ok(Some(Word::Number));
    }
    if !is_admitted(book, library, page) {
        return Ok(Some(Word::Target));
    }
    if !page_runs_so(alloc, book, library, page)? {
        return Ok(Some(Word::Run));
    }
    if !least_go(alloc, book, library, page)? {
        return Ok(Some(Word::Evicted));
    }
    if !is_due(book.clock(), page.deadline) {
        return Ok(Some(Word::Deadline));
    }
    if !tells_own(alloc, format, book, library, page, state)? {
        return Ok(Some(Word::State));
    }
    Ok(None)
}

// The word of the record of a last page.
fn ended_fault(
    alloc: Global,
    book: &Book,
    library: &Library,
    seen: &InOrder<()>,
    ended: &EndedRecord,
) -> Result<Option<Word>, AllocError>
    requires { HasPlaces (library_of library.now).all book.now }
    ensures { IfOk result (IsEndedFault (library_of library.now) seen.now book.now ended.now) }
{
    if seen.has(ended.ticket) {
        return Ok(Some(Word::Number));
    }
    if !can_be_answered(book, library, ended.instance, ended.page) {
        return Ok(Some(Word::Target));
    }
    if !ended_runs_so(alloc, book, library, ended)? {
        return Ok(Some(Word::Run));
    }
    Ok(None)
}

// The word of the record of a last page with which the instance went.
fn finish_fault(
    alloc: Global,
    book: &Book,
    library: &Library,
    seen: &InOrder<()>,
    finish: &FinishRecord,
) -> Result<Option<Word>, AllocError>
    requires { HasPlaces (library_of library.now).all book.now }
    ensures { IfOk result (IsFinishFault (library_of library.now) seen.now book.now finish.now) }
{
    if seen.has(finish.ticket) {
        return Ok(Some(Word::Number));
    }
    if !can_be_answered(book, library, finish.instance, finish.page) {
        return Ok(Some(Word::Target));
    }
    if !finish_runs_so(alloc, book, library, finish)? {
        return Ok(Some(Word::Run));
    }
    Ok(None)
}

// The word of the record of a sweep, if it has one. It looks at the clock alone.
fn sweep_fault(book: &Book, clock: u64) -> Option<Word>
    ensures { IsFaultAlways book.now (changes (sweeps clock) None) result }
{
    if book.clock() < clock {
        None
    } else {
        Some(Word::Sweep)
    }
}

/// The word of the first test that fails of a record of this format, on the book of the records before it, which told these numbers; none
/// where all hold. A record that is none of a change has no word.
///
/// It runs the script of the record from its start over the answers to the page's chain, and then this answer over the present cells. It
/// asks that each page of the book has the state of its chain, that its scripts can be run, and that what stands in it is orderly.
pub fn fault_in(
    alloc: Global,
    format: u8,
    book: &Book,
    library: &Library,
    seen: &InOrder<()>,
    logged: &Logged,
) -> Result<Option<Word>, AllocError>
    requires format { 0 < format }
    requires placed { HasPlaces (library_of library.now).all book.now }
    requires kept { HasSomeStates (library_of library.now).all book.now }
    requires own { HasItsStates (library_of library.now).all book.now }
    requires runs { CanRunAgain (library_of library.now) book.now }
    ensures { IfOk result
        (IsFaultIn format (library_of library.now) seen.now book.now (logged_of logged.now)) }
{
    match logged {
        Logged::Begin { .. } => Ok(None),
        Logged::Page { page, state } => {
            page_fault(alloc, format, book, library, seen, page, state.as_slice())
        }
        Logged::Ended(ended) => ended_fault(alloc, book, library, seen, ended),
        Logged::Finish(finish) => finish_fault(alloc, book, library, seen, finish),
        Logged::Sweep { clock } => Ok(sweep_fault(book, *clock)),
        Logged::Texts { .. } => Ok(None),
        Logged::Drawn { .. } => Ok(None),
        Logged::Follow => Ok(None),
        Logged::Promoted => Ok(None),
    }
}
