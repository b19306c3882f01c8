ghost use Rattle.std.specs.Prelude.{◌≡◌, ◌↔◌, Some, map, IsTrue, IfOk, option_map};
ghost use Rattle.script_value.specs.Views.{meaning};
ghost use Rattle.script_nodes.specs.Views.{library_of};
ghost use Rattle.instance_cells.specs.Views.{effect_of};
ghost use Rattle.machine_states.specs.Views.{suspended_of, state_of};
ghost use Rattle.instance_book.specs.Makes.{HasPlaces, HasSomeStates, HasItsStates};
ghost use Rattle.journal_records.specs.Views.{origin_of, page_change};
ghost use Rattle.book_redo.specs.Again.{CanRunAgain, ComesTo, IsLeftBy};
ghost use Rattle.book_redo.specs.Behind.{IsStoredFrom};
ghost use Rattle.book_redo.specs.Runs.{kind_in, ShowsSo, RunsTo, RunsFrom};

use crate::behind::{Behind, behind_of};
use instance_book::Book;
use instance_cells::{Cells, Effect};
use journal_records::{Origin as ToldOrigin, PageRecord};
use machine_states::{Outcome, Segment, Suspended};
use page_names::{PageName, url_text};
use script_nodes::{Library, SendKind};
use script_value::{Bytes, Items, Str, Value, equal};
use server_limits::MOST_FUEL;
use std::alloc::{AllocError, Global};
use visit_runs::run_from;

// Whether these are the same effect.
fn is_same_effect(left: &Effect, right: &Effect) -> bool
    ensures { IsTrue result ↔ (effect_of left.now ≡ effect_of right.now) }
{
    match (left, right) {
        (Effect::Read(cell, value), Effect::Read(other, another)) => {
            *cell == *other && equal(value, another)
        }
        (Effect::Set(cell, value), Effect::Set(other, another)) => {
            *cell == *other && equal(value, another)
        }
        (Effect::Add(cell, number), Effect::Add(other, another)) => {
            *cell == *other && *number == *another
        }
        _ => false,
    }
}

/// Whether these are the same effects, in the same order.
pub fn are_same_effects(left: &[Effect], right: &[Effect]) -> bool
    ensures { IsTrue result ↔ (map effect_of left.now ≡ map effect_of right.now) }
{
    let mut left = left;
    let mut right = right;
    loop {
        match (left, right) {
            ([], []) => return true,
            ([first, others @ ..], [second, rest @ ..]) => {
                if !is_same_effect(first, second) {
                    return false;
                }
                left = others;
                right = rest;
            }
            _ => return false,
        }
    }
}

// Whether a segment stopped with a page of this kind that waits for an answer.
fn is_of_kind(outcome: &Outcome, kind: SendKind) -> bool
    ensures { IsTrue result ↔ (kind_in outcome.now ≡ Some kind) }
{
    match outcome {
        Outcome::Shown { kind: shown, .. } => *shown == kind,
        _ => false,
    }
}

// Whether a segment shows a page of the record's kind, with its effects, and leaves its transactions.
fn shows_so(segment: &Segment, page: &PageRecord) -> bool
    ensures { IsTrue result ↔ ShowsSo page.now segment.now }
{
    is_of_kind(&segment.outcome, page.kind)
        && are_same_effects(segment.effects.as_slice(), page.effects.as_slice())
        && segment.left.as_slice() == page.left.as_slice()
}

// The state that is kept where a segment stopped with a page that waits for an answer.
fn state_in(outcome: Outcome) -> Option<Suspended>
    ensures { option_map suspended_of result ≡ state_of outcome }
{
    match outcome {
        Outcome::Shown { state, .. } => Some(state),
        _ => None,
    }
}

// The state that the script leaves where it comes to the page of the record again, in this instance, after this answer and over these
// cells; none where it does not.
fn left_over(
    alloc: Global,
    behind: &Behind<'_>,
    page: &PageRecord,
    shelf: u32,
    instance: u64,
    answer: &Value,
    cells: &Cells,
) -> Result<Option<Suspended>, AllocError>
    requires { IsStoredFrom behind.now }
    ensures { IfOk result
        (RunsTo behind.now page.now shelf instance (meaning answer.now) cells.now) }
{
    // A script's root tells that its nodes are its tree's.
    let _root = behind.script.script.root();
    let name = PageName {
        shelf,
        instance,
        page: page.ticket,
        nonce: page.nonce,
    };
    let url = Str::new(url_text(alloc, &behind.script.name, name)?);
    let from = behind.from.try_clone(alloc)?;
    let segment = run_from(
        alloc,
        &behind.script.script,
        from,
        answer,
        cells,
        page.ticket,
        &url,
        MOST_FUEL,
    )?;
    if !shows_so(&segment, page) {
        return Ok(None);
    }
    Ok(state_in(segment.outcome))
}

// The state that the script leaves where it comes to the page of the record again; none where it does not.
fn left_again(
    alloc: Global,
    book: &Book,
    behind: &Behind<'_>,
    page: &PageRecord,
) -> Result<Option<Suspended>, AllocError>
    requires { IsStoredFrom behind.now }
    ensures { IfOk result (RunsFrom behind.now book.now page.now (origin_of page.now.origin)) }
{
    match &page.origin {
        ToldOrigin::Start { .. } => {
            let defaults = behind.script.script.instance_defaults();
            let cells = Cells::of(alloc, defaults.as_slice())?;
            let none = Value::List(Items::new(alloc));
            left_over(
                alloc,
                behind,
                page,
                book.shelf(),
                page.ticket,
                &none,
                &cells,
            )
        }
        ToldOrigin::Answer {
            instance,
            answer,
            ..
        } => match book.cells(*instance) {
            Some(cells) => left_over(alloc, behind, page, book.shelf(), *instance, answer, cells),
            None => Ok(None),
        },
    }
}

/// The state that a page's script leaves there, where it comes to the page of the record again with these effects and transactions
/// left; none where it does not.
///
/// It runs the script from what the page before has, over the instance's cells, with the most fuel that a shelf may have.
pub fn state_left(
    alloc: Global,
    book: &Book,
    library: &Library,
    page: &PageRecord,
) -> Result<Option<Suspended>, AllocError>
    requires placed { HasPlaces (library_of library.now).all book.now }
    requires kept { HasSomeStates (library_of library.now).all book.now }
    requires own { HasItsStates (library_of library.now).all book.now }
    requires runs { CanRunAgain (library_of library.now) book.now }
    ensures { IfOk result (ComesTo (library_of library.now) book.now (page_change page.now)) }
{
    match behind_of(alloc, book, library, page)? {
        Some(behind) => left_again(alloc, book, &behind, page),
        None => Ok(None),
    }
}

/// The bytes that a record of the newest format has of the state that a page's script leaves there, where the script comes to the page
/// again with these effects and transactions left; none where it does not.
///
/// It runs the script from what the page before has, over the instance's cells, with the most fuel that a shelf may have. A state that no
/// record can tell is told as want of memory.
pub fn state_again(
    alloc: Global,
    book: &Book,
    library: &Library,
    page: &PageRecord,
) -> Result<Option<Bytes>, AllocError>
    requires placed { HasPlaces (library_of library.now).all book.now }
    requires kept { HasSomeStates (library_of library.now).all book.now }
    requires own { HasItsStates (library_of library.now).all book.now }
    requires runs { CanRunAgain (library_of library.now) book.now }
    ensures { IfOk result (IsLeftBy (library_of library.now) book.now (page_change page.now)) }
{
    let Some(behind) = behind_of(alloc, book, library, page)? else {
        return Ok(None);
    };
    let Some(state) = left_again(alloc, book, &behind, page)? else {
        return Ok(None);
    };
    match behind.spelled(alloc, &state)? {
        Some(bytes) => Ok(Some(bytes)),
        None => Err(AllocError),
    }
}
