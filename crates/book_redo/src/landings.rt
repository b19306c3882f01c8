ghost use Rattle.std.specs.Prelude.{◌≡◌, IfOk};
ghost use Rattle.script_nodes.specs.Views.{library_of};
ghost use Rattle.journal_records.specs.Views.{page_change, logged_of};
ghost use Rattle.instance_book.specs.Makes.{HasPlaces};
ghost use Rattle.book_redo.specs.Lands.{StartLands, AnswerLands, TellsLanding, IsPageLanding};

use crate::landing::{ended_in, start_of};
use crate::takes::{can_open, takes};
use instance_book::{Book, place_of_numbers};
use instance_cells::Cells;
use journal_records::{Logged, Origin, PageRecord};
use script_nodes::Library;
use std::alloc::{AllocError, Global};

// Whether the record of a start of the script of this place lands, whose number was not seen.
fn start_lands(
    alloc: Global,
    library: &Library,
    script: u8,
    told: &PageRecord,
) -> Result<bool, AllocError>
    ensures { IfOk result (StartLands (library_of library.now) script told.now) }
{
    let Some(begins) = start_of(library, script as usize) else {
        return Ok(false);
    };
    let defaults = begins.script.script.instance_defaults();
    let cells = Cells::of(alloc, defaults.as_slice())?;
    Ok(can_open(&cells, told))
}

// Whether the record of an answer to this page lands, whose number was not seen.
fn answer_lands(book: &Book, library: &Library, instance: u64, page: u64, told: &PageRecord) -> bool
    requires placed { HasPlaces (library_of library.now).all book.now }
    ensures { AnswerLands (library_of library.now) book.now instance page told.now result }
{
    match place_of_numbers(book, library, instance, page) {
        Some(place) => takes(&place, told),
        None => false,
    }
}

// Whether the record of a page lands, whose number was not seen.
fn page_lands(
    alloc: Global,
    book: &Book,
    library: &Library,
    told: &PageRecord,
) -> Result<bool, AllocError>
    requires placed { HasPlaces (library_of library.now).all book.now }
    ensures { IfOk result (IsPageLanding (library_of library.now) book.now (page_change told.now)) }
{
    match &told.origin {
        Origin::Start { script } => start_lands(alloc, library, *script, told),
        Origin::Answer {
            instance,
            page,
            answer: _answer,
        } => Ok(answer_lands(book, library, *instance, *page, told)),
    }
}

/// Whether a record lands in the book as it stands, where its state can be read and its number was seen or was not; one of a change that
/// does not land is passed over.
pub fn lands(
    alloc: Global,
    book: &Book,
    library: &Library,
    logged: &Logged,
    again: bool,
) -> Result<bool, AllocError>
    requires placed { HasPlaces (library_of library.now).all book.now }
    ensures { IfOk result
        (TellsLanding (library_of library.now) book.now (logged_of logged.now) again) }
{
    if again {
        return Ok(false);
    }
    match logged {
        Logged::Page { page, .. } => page_lands(alloc, book, library, page),
        Logged::Ended(ended) => {
            Ok(ended_in(book, ended.instance, ended.page, &ended.effects).is_some())
        }
        Logged::Finish(finish) => {
            Ok(ended_in(book, finish.instance, finish.page, &finish.effects).is_some())
        }
        Logged::Sweep { clock } => Ok(book.clock() < *clock),
        _ => Ok(true),
    }
}
