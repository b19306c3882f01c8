ghost use Rattle.std.specs.Prelude.{ℕ, ◌≡◌, ◌<◌, ◌≤◌, ◌+◌, ◌^◌, length, false, true, IfOk};
ghost use Rattle.script_nodes.specs.Views.{library_of};
ghost use Rattle.journal_records.specs.Roles.{is_role};
ghost use Rattle.journal_records.specs.Views.{logged_of};
ghost use Rattle.book_redo.specs.InstanceBook.Makes.{HasPlaces, HasSomeStates};
ghost use Rattle.book_redo.specs.Redo.{UnlessTaken};
ghost use Rattle.file_notes.specs.Files.{IsNoted};
ghost use Rattle.book_recovery.specs.Adopting.{TakesNotes, BeginsSo, IsBegunAs, BeginsNotes, TellsStanding, IsReadBehind, begun_by};
ghost use Rattle.book_recovery.specs.Calls.{Adopts, LeavesAlone, WouldStand};
ghost use Rattle.book_recovery.specs.Reading.{IsUnderWay, IsKept, found_as};
ghost use Rattle.book_recovery.specs.declared.found.Found.TheVariants as found;

use crate::found::Found;
use crate::reader::{Reader, may_stand};
use crate::setup_scripts::told_setup;
use book_redo::{Book, InOrder, is_told};
use file_notes::FileNotes;
use journal_records::{Logged, decode, records_are_exact};
use page_journal::NEWEST_FORMAT;
use script_nodes::Library;
use std::alloc::{AllocError, Global};
use std::mem;

// Where the gate is after the record that tells that a shelf follows.
const WAITING: u64 = 14;

/// Takes one record more of the journal that a shelf follows, after that of its first setup: whether it stands there. Where it does not, or
/// memory runs out, nothing is changed.
///
/// It asks for what reading the records made: the book, the library, what is known of the file, which numbers were seen, and whether no
/// record stands after that of the first setup; and for no record that tells whether a shelf follows. A book that one instance more would
/// not leave countable in 32 bits is told as want of memory.
pub fn adopt(
    alloc: Global,
    shelf: u32,
    alone: bool,
    seen: &mut InOrder<()>,
    book: &mut Book,
    library: &mut Library,
    notes: &mut FileNotes,
    body: &[u8],
) -> Result<bool, AllocError>
    requires kept { IsUnderWay shelf alone seen.old book.old (library_of library.old) }
    requires noted { IsNoted notes.old }
    requires fed { is_role body.now ≡ false }
    requires short { length body.now < 2 ^ 32 }
    ensures gives { Adopts shelf alone body.now book.old library.old seen.old
        result book.new library.new seen.new }
    ensures kept { (place : ℕ) → IsKept shelf false seen.new
        (found_as place result book.new library.new) }
    ensures notes { (place : ℕ) → TakesNotes shelf place body.now alone
        (found.Made book.old library.old) seen.old notes.old notes.new
        (found_as place result book.new library.new) }
    ensures same { LeavesAlone result seen.old seen.new book.old book.new
        library.old library.new notes.old notes.new }
    ensures noted { IsNoted notes.new }
{
    if book.live() >= u32::MAX - 1 {
        return Err(AllocError);
    }
    let mut reader = Reader {
        alloc,
        shelf,
        format: NEWEST_FORMAT,
        seen: mem::replace(seen, InOrder::new(alloc)),
        follows: true,
        alone,
        found: Found::Nothing,
        notes: mem::replace(notes, FileNotes::none(alloc)),
        anew: Vec::new(alloc),
    };
    let taken = reader.later(book, library, body);
    let Reader {
        alloc: _,
        shelf: _,
        format: _,
        seen: after,
        follows: _,
        alone: _,
        found: _,
        notes: known,
        anew: _,
    } = reader;
    *seen = after;
    *notes = known;
    taken
}

/// Takes the first record of the journal that a shelf follows: whether it is that of a setup, for a shelf of this number. Where it is not,
/// or memory runs out, nothing is changed. The book is an empty one after it, and no number was seen.
///
/// It asks for no record that tells whether a shelf follows.
pub fn adopt_first(
    alloc: Global,
    shelf: u32,
    book: &mut Book,
    library: &mut Library,
    notes: &mut FileNotes,
    body: &[u8],
) -> Result<bool, AllocError>
    requires noted { IsNoted notes.old }
    requires fed { is_role body.now ≡ false }
    requires room { 20 + length body.now ≤ 2 ^ 30 }
    ensures begins { BeginsSo shelf body.now book.new (library_of library.new) result }
    ensures kept { IsBegunAs shelf book.new (library_of library.new) result }
    ensures notes { BeginsNotes shelf body.now notes.old notes.new result }
    ensures same { UnlessTaken result (book.new ≡ book.old
        × ((library.new ≡ library.old) × (notes.new ≡ notes.old))) }
    ensures noted { IsNoted notes.new }
{
    let mut reader = Reader {
        alloc,
        shelf,
        format: NEWEST_FORMAT,
        seen: InOrder::new(alloc),
        follows: true,
        alone: true,
        found: Found::Nothing,
        notes: mem::replace(notes, FileNotes::none(alloc)),
        anew: Vec::new(alloc),
    };
    let found = reader.first(WAITING, body);
    let Reader {
        alloc: _,
        shelf: _,
        format: _,
        seen: _,
        follows: _,
        alone: _,
        found: _,
        notes: known,
        anew: _,
    } = reader;
    *notes = known;
    match found {
        Found::Made {
            book: begun,
            library: told,
        } => {
            *book = begun;
            *library = told;
            Ok(true)
        }
        Found::Memory => Err(AllocError),
        Found::Damaged { place: _ } => Ok(false),
        Found::Other { place: _ } => Ok(false),
        Found::Nothing => Ok(false),
    }
}

/// Whether the first record of the journal that a shelf follows is that of a setup, for a shelf of this number.
pub fn would_begin(alloc: Global, shelf: u32, body: &[u8]) -> Result<bool, AllocError>
    requires fed { is_role body.now ≡ false }
    ensures stands { TellsStanding result (begun_by shelf body.now) }
{
    let Some(logged) = decode(alloc, NEWEST_FORMAT, body)? else {
        return Ok(false);
    };
    let Logged::Begin {
        shelf: number,
        scripts,
    } = &logged
    else {
        return Ok(false);
    };
    if *number != shelf {
        return Ok(false);
    }
    let setup = told_setup(alloc, scripts)?;
    Ok(setup.is_some())
}

// Whether what a record tells that may stand there can be read.
fn is_read(
    alloc: Global,
    book: &Book,
    library: &Library,
    logged: &Logged,
) -> Result<bool, AllocError>
    requires placed { HasPlaces (library_of library.now).all book.now }
    requires kept { HasSomeStates (library_of library.now).all book.now }
    ensures { IfOk result (IsReadBehind (library_of library.now) book.now (logged_of logged.now)) }
{
    match logged {
        Logged::Page { page, state } => is_told(alloc, book, library, page, state.as_slice()),
        _ => Ok(true),
    }
}

/// Whether one record more of the journal that a shelf follows stands after those that it has.
pub fn would_stand(
    alloc: Global,
    shelf: u32,
    alone: bool,
    seen: &InOrder<()>,
    book: &Book,
    library: &Library,
    body: &[u8],
) -> Result<bool, AllocError>
    requires kept { IsUnderWay shelf alone seen.now book.now (library_of library.now) }
    requires fed { is_role body.now ≡ false }
    requires short { length body.now < 2 ^ 32 }
    ensures stands { WouldStand shelf alone seen.now book.now library.now body.now result }
{
    records_are_exact();
    let _ = seen;
    let Some(logged) = decode(alloc, NEWEST_FORMAT, body)? else {
        return Ok(false);
    };
    if let Logged::Texts { scripts } = &logged {
        let setup = told_setup(alloc, scripts)?;
        return Ok(setup.is_some());
    }
    if !may_stand(alone, library.present(), &logged) {
        return Ok(false);
    }
    is_read(alloc, book, library, &logged)
}
