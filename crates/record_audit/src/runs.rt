ghost use Rattle.std.specs.Prelude.{◌≡◌, IfOk, slice_get};
ghost use Rattle.script_value.specs.Views.{meaning};
ghost use Rattle.script_nodes.specs.Views.{library_of};
ghost use Rattle.replay_spec.specs.Book.{ends, finishes};
ghost use Rattle.book_redo.specs.InstanceBook.Makes.{HasPlaces};
ghost use Rattle.book_redo.specs.InstanceBook.Standing.{named_if};
ghost use Rattle.segments.specs.Views.{segment_of};
ghost use Rattle.journal_records.specs.Views.{page_change, ending_of, finish_of};
ghost use Rattle.record_audit.specs.Runs.{comes_at, StartRunsSo, AnsweredSo, RunsSo};

use crate::home::Home;
use crate::so::{ends_so, finishes_so, shows_so};
use book_redo::books::{Book, Place, place_of_numbers};
use instance_cells::Cells;
use journal_records::{EndedRecord, FinishRecord, Origin, PageRecord};
use script_nodes::{Library, NamedScript};
use script_value::{Items, Value};
use segments::RunResult;
use std::alloc::{AllocError, Global};

/// The script of this place in the present setup.
pub fn script_at(library: &Library, script: u8) -> Option<&NamedScript>
    ensures { named_if result ≡ slice_get (library_of library.now).setup script }
{
    library.get(library.start(script as usize)?)
}

// What an answer to the page of this place comes to over the instance's present cells, in a segment of this number and nonce.
fn run_at(
    alloc: Global,
    shelf: u32,
    place: &Place<'_>,
    answer: &Value,
    number: u64,
    nonce: u64,
) -> Result<RunResult, AllocError>
    ensures { IfOk result
        (λ ran. segment_of ran ≡ comes_at shelf place.now (meaning answer.now) number nonce) }
{
    let home = Home {
        script: place.script,
        shelf,
        instance: place.instance.number,
    };
    let past = home.past(alloc, &place.instance.item.pages, place.page)?;
    home.run(
        alloc,
        past.as_slice(),
        answer,
        number,
        nonce,
        &place.instance.item.cells,
    )
}

// Whether the start of the script of this place in the present setup comes to the page of the record.
fn start_runs_so(
    alloc: Global,
    book: &Book,
    library: &Library,
    script: u8,
    page: &PageRecord,
) -> Result<bool, AllocError>
    ensures { IfOk result (StartRunsSo (library_of library.now) book.now script page.now) }
{
    let Some(script) = script_at(library, script) else {
        return Ok(false);
    };
    let home = Home {
        script,
        shelf: book.shelf(),
        instance: page.ticket,
    };
    let defaults = script.script.instance_defaults();
    let cells = Cells::of(alloc, defaults.as_slice())?;
    let none = Value::List(Items::new(alloc));
    let ran = home.run(alloc, &[], &none, page.ticket, page.nonce, &cells)?;
    Ok(shows_so(&ran, page))
}

// Whether this answer to this page comes to the page of the record.
fn answer_runs_so(
    alloc: Global,
    book: &Book,
    library: &Library,
    instance: u64,
    answered: u64,
    answer: &Value,
    page: &PageRecord,
) -> Result<bool, AllocError>
    requires { HasPlaces (library_of library.now).all book.now }
    ensures { IfOk result
        (AnsweredSo (library_of library.now) book.now instance answered answer.now page.now) }
{
    let Some(place) = place_of_numbers(book, library, instance, answered) else {
        return Ok(false);
    };
    let ran = run_at(alloc, book.shelf(), &place, answer, page.ticket, page.nonce)?;
    Ok(shows_so(&ran, page))
}

/// Whether the script of the record of a page, run from its start over the answers of the page's chain and what these read, and then this
/// answer over the present cells, shows a page as the record tells.
pub fn page_runs_so(
    alloc: Global,
    book: &Book,
    library: &Library,
    page: &PageRecord,
) -> Result<bool, AllocError>
    requires { HasPlaces (library_of library.now).all book.now }
    ensures { IfOk result (RunsSo (library_of library.now) book.now (page_change page.now)) }
{
    match &page.origin {
        Origin::Start { script } => start_runs_so(alloc, book, library, *script, page),
        Origin::Answer {
            instance,
            page: answered,
            answer,
        } => answer_runs_so(alloc, book, library, *instance, *answered, answer, page),
    }
}

/// Whether the script of the record of a last page, run from its start in the same way, ends as the record tells.
pub fn ended_runs_so(
    alloc: Global,
    book: &Book,
    library: &Library,
    ended: &EndedRecord,
) -> Result<bool, AllocError>
    requires { HasPlaces (library_of library.now).all book.now }
    ensures { IfOk result
        (RunsSo (library_of library.now) book.now (ends (ending_of ended.now))) }
{
    let Some(place) = place_of_numbers(book, library, ended.instance, ended.page) else {
        return Ok(false);
    };
    // No last page tells a nonce, and none is seen in what it comes to.
    let ran = run_at(alloc, book.shelf(), &place, &ended.answer, ended.ticket, 0)?;
    Ok(ends_so(&ran, ended))
}

/// Whether the script of the record of a last page with which the instance went, run from its start in the same way, finishes as the
/// record tells.
pub fn finish_runs_so(
    alloc: Global,
    book: &Book,
    library: &Library,
    finish: &FinishRecord,
) -> Result<bool, AllocError>
    requires { HasPlaces (library_of library.now).all book.now }
    ensures { IfOk result
        (RunsSo (library_of library.now) book.now (finishes (finish_of finish.now))) }
{
    let Some(place) = place_of_numbers(book, library, finish.instance, finish.page) else {
        return Ok(false);
    };
    let ran = run_at(
        alloc,
        book.shelf(),
        &place,
        &finish.answer,
        finish.ticket,
        0,
    )?;
    Ok(finishes_so(&ran, finish))
}
