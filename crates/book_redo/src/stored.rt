ghost use Rattle.std.specs.Prelude.{IfOk};
ghost use Rattle.script_nodes.specs.Views.{library_of};
ghost use Rattle.instance_book.specs.Makes.{HasPlaces, HasSomeStates};
ghost use Rattle.journal_records.specs.Views.{page_change};
ghost use Rattle.book_redo.specs.Behind.{IsStoredFrom};
ghost use Rattle.book_redo.specs.Told.{ReadsAlone, ReadsForm, ReadsAt, IsToldAt, IsReadThere};

use crate::behind::{Behind, behind_of};
use frame_codec::{decode, decode_form};
use instance_book::Book;
use journal_records::PageRecord;
use machine_states::Suspended;
use script_nodes::Library;
use std::alloc::{AllocError, Global};

// The format whose records have the bytes of a state by itself.
const ALONE: u8 = 2;

// The state that these bytes spell by itself, where a record can tell it there.
fn read_alone(
    alloc: Global,
    behind: &Behind<'_>,
    bytes: &[u8],
) -> Result<Option<Suspended>, AllocError>
    ensures { IfOk result (ReadsAlone behind.now bytes.now) }
{
    // A script's root tells that its nodes are its tree's.
    let _root = behind.script.script.root();
    let Some(state) = decode(alloc, &behind.script.script, bytes)? else {
        return Ok(None);
    };
    match behind.spelled(alloc, &state)? {
        Some(_) => Ok(Some(state)),
        None => Ok(None),
    }
}

// The state that these bytes spell in the form that is due.
fn read_form(
    alloc: Global,
    behind: &Behind<'_>,
    bytes: &[u8],
) -> Result<Option<Suspended>, AllocError>
    requires { IsStoredFrom behind.now }
    ensures { IfOk result (ReadsForm behind.now bytes.now) }
{
    // A script's root tells that its nodes are its tree's.
    let _root = behind.script.script.root();
    decode_form(alloc, &behind.script.script, behind.before(), bytes)
}

// The state that these bytes spell in this format.
fn read_at(
    alloc: Global,
    format: u8,
    behind: &Behind<'_>,
    bytes: &[u8],
) -> Result<Option<Suspended>, AllocError>
    requires { IsStoredFrom behind.now }
    ensures { IfOk result (ReadsAt format behind.now bytes.now) }
{
    if format == ALONE {
        read_alone(alloc, behind, bytes)
    } else {
        read_form(alloc, behind, bytes)
    }
}

/// The state that the record of a page tells by these bytes in a format from 2 on; none where they are no state of its script that a
/// record tells there, or where the page is of no script.
pub fn told_state(
    alloc: Global,
    format: u8,
    book: &Book,
    library: &Library,
    page: &PageRecord,
    state: &[u8],
) -> Result<Option<Suspended>, AllocError>
    requires placed { HasPlaces (library_of library.now).all book.now }
    requires kept { HasSomeStates (library_of library.now).all book.now }
    ensures { IfOk result (IsToldAt format (library_of library.now) book.now
        (page_change page.now) state.now) }
{
    match behind_of(alloc, book, library, page)? {
        Some(behind) => read_at(alloc, format, &behind, state),
        None => Ok(None),
    }
}

/// Whether the record of a page tells a state of its script by these bytes in the newest format, or is of a page of no script, which need
/// tell none.
pub fn is_told(
    alloc: Global,
    book: &Book,
    library: &Library,
    page: &PageRecord,
    state: &[u8],
) -> Result<bool, AllocError>
    requires placed { HasPlaces (library_of library.now).all book.now }
    requires kept { HasSomeStates (library_of library.now).all book.now }
    ensures { IfOk result (IsReadThere (library_of library.now) book.now
        (page_change page.now) state.now) }
{
    match behind_of(alloc, book, library, page)? {
        Some(behind) => {
            let told = read_form(alloc, &behind, state)?;
            Ok(told.is_some())
        }
        None => Ok(true),
    }
}
