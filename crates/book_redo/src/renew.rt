ghost use Rattle.std.specs.Prelude.{◌≡◌, ◌<◌, Some, IfOk};
ghost use Rattle.script_nodes.specs.Views.{library_of};
ghost use Rattle.instance_book.specs.Makes.{HasPlaces, HasSomeStates, HasItsStates};
ghost use Rattle.journal_records.specs.Records.{changes, IsInGrammar};
ghost use Rattle.journal_records.specs.Views.{logged_of, page_change};
ghost use Rattle.book_redo.specs.Again.{CanRunAgain};
ghost use Rattle.book_redo.specs.Renewing.{IsPageTold, IsChangeRenewed, IsMadeAgain, IsRenewed, FitsWithout, FitsAgain};

use crate::again::state_again;
use crate::behind::behind_of;
use frame_codec::decode;
use instance_book::Book;
use journal_records::{Logged, PageRecord};
use script_nodes::Library;
use script_value::Bytes;
use std::alloc::{AllocError, Global};

// The first format whose pages tell their states as the newest does.
const SHARED: u8 = 3;

// The format whose pages tell no state.
const WITHOUT: u8 = 1;

// How many bytes a record counts of a state at most.
const MOST: usize = u32::MAX as usize;

/// What a record of an older format is in the newest.
#[derive(Drop)]
pub enum Renewed {
    /// The record, with the bytes that the newest format has of its page's state.
    Told(Logged),
    /// It is passed over, since its script does not come to it again.
    Passed,
    /// The bytes of its page's state are no state of its script, or none that can go on from that of the page before.
    Misread,
}

// A page with these bytes of its state.
fn told(page: PageRecord, state: Bytes) -> Result<Renewed, AllocError>
    requires fits { FitsWithout page }
    ensures told { IfOk result (IsPageTold page state) }
    ensures fits { IfOk result FitsAgain }
{
    if state.as_slice().len() > MOST {
        return Err(AllocError);
    }
    Ok(Renewed::Told(Logged::Page { page, state }))
}

// A page of format 2, whose record has the bytes of its state alone.
fn respelled(
    alloc: Global,
    book: &Book,
    library: &Library,
    page: PageRecord,
    state: Bytes,
) -> Result<Renewed, AllocError>
    requires placed { HasPlaces (library_of library.now).all book.now }
    requires kept { HasSomeStates (library_of library.now).all book.now }
    requires fits { IsInGrammar (changes (page_change page) (Some state)) }
    ensures renewed { IfOk result
        (IsChangeRenewed 2 (library_of library.now) book.now (page_change page) (Some state)) }
    ensures fits { IfOk result FitsAgain }
{
    let Some(behind) = behind_of(alloc, book, library, &page)? else {
        return Ok(Renewed::Told(Logged::Page { page, state }));
    };
    // A script's root tells that its nodes are its tree's.
    let _root = behind.script.script.root();
    let Some(state) = decode(alloc, &behind.script.script, state.as_slice())? else {
        return Ok(Renewed::Misread);
    };
    match behind.spelled(alloc, &state)? {
        Some(bytes) => told(page, bytes),
        None => Ok(Renewed::Misread),
    }
}

// A page of format 1, whose record has no bytes of its state.
fn made_again(
    alloc: Global,
    book: &Book,
    library: &Library,
    page: PageRecord,
) -> Result<Renewed, AllocError>
    requires placed { HasPlaces (library_of library.now).all book.now }
    requires kept { HasSomeStates (library_of library.now).all book.now }
    requires own { HasItsStates (library_of library.now).all book.now }
    requires runs { CanRunAgain (library_of library.now) book.now }
    requires fits { FitsWithout page }
    ensures renewed { IfOk result
        (IsMadeAgain (library_of library.now) book.now (page_change page)) }
    ensures fits { IfOk result FitsAgain }
{
    match state_again(alloc, book, library, &page)? {
        Some(bytes) => told(page, bytes),
        None => Ok(Renewed::Passed),
    }
}

/// A record of a format as one of the newest. A page of format 1 has the state that its script leaves there, which is run again from
/// what the page before has; one of format 2 has the state's bytes alone.
///
/// In format 1 it asks that each page of the book has the state of its chain, that its scripts can be run, and that what stands in it
/// is orderly.
pub fn as_newest(
    alloc: Global,
    format: u8,
    book: &Book,
    library: &Library,
    logged: Logged,
) -> Result<Renewed, AllocError>
    requires format { 0 < format }
    requires placed { HasPlaces (library_of library.now).all book.now }
    requires kept { HasSomeStates (library_of library.now).all book.now }
    requires own { format ≡ 1 → HasItsStates (library_of library.now).all book.now }
    requires runs { format ≡ 1 → CanRunAgain (library_of library.now) book.now }
    requires fits { IsInGrammar (logged_of logged) }
    ensures renewed { IfOk result
        (IsRenewed format (library_of library.now) book.now (logged_of logged)) }
    ensures fits { IfOk result FitsAgain }
{
    if format >= SHARED {
        return Ok(Renewed::Told(logged));
    }
    match logged {
        Logged::Page { page, state } => {
            if format == WITHOUT {
                made_again(alloc, book, library, page)
            } else {
                respelled(alloc, book, library, page, state)
            }
        }
        other => Ok(Renewed::Told(other)),
    }
}
