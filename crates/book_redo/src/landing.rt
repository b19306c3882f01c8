ghost use Rattle.std.specs.Prelude.{◌≡◌, ◌<◌, ◌≤◌, ◌+◌, ◌^◌, false, true, Some, None, map, IfOk, OnOk, OnErr};
ghost use Rattle.script_nodes.specs.Setup.{Library as Scripts};
ghost use Rattle.script_nodes.specs.Views.{library_of};
ghost use Rattle.instance_cells.specs.Views.{effect_of};
ghost use Rattle.replay_spec.specs.Book.{ends, finishes, sweeps};
ghost use Rattle.journal_records.specs.Fields.{start, answered};
ghost use Rattle.journal_records.specs.Records.{IsInGrammar, EndingFits, FinishFits};
ghost use Rattle.journal_records.specs.Views.{origin_of, ending_of, finish_of, logged_of};
ghost use Rattle.instance_book.specs.Makes.{count_of, Makes, HasPlaces, HasSomeStates, KeepsPlaces, KeepsStates, Reopens, StaysLow};
ghost use Rattle.instance_book.specs.Changes.{HasRoomFor, KeepsPlacesBy, KeepsStatesBy};
ghost use Rattle.book_redo.specs.Redo.{counted_to, Counts, LandsAs, EndsIn, IsFree, IsLanded, number_by, IsBeginning, KeepsPlacesAt, IsAnswered, IsUnchanged, UnlessTaken};
ghost use Rattle.book_redo.specs.Landing.{KeepsStatesBegun, LandsAnyhow, LandsPage, LandsRecord, OpensBegun, RedoesRecord};

use crate::takes::{are_held, can_open, takes};
use crate::told::{state_told, told_there};
use instance_book::{
    Book, Change, Ending, Extension, Finish, KeptInstance, Numbered, ShownState, StoredValue,
    place_of_numbers,
};
use instance_cells::{Cells, Effect};
use journal_records::{EndedRecord, FinishRecord, Logged, Origin, PageRecord};
use script_nodes::{Library, NamedScript};
use script_value::Bytes;
use std::alloc::{AllocError, Global};

// A record of this number counts, and changes nothing else. It takes no memory.
fn pass_over(book: &mut Book, number: u64)
    requires { number < 2 ^ 62 }
    ensures book { Counts number book.old book.new }
    ensures placed { KeepsPlaces book.old book.new }
    ensures states { KeepsStates book.old book.new }
    ensures low { StaysLow book.old book.new }
{
    book.count_to(number + 1);
}

// A change lands, for which there is room, and the number of its record counts. It takes no memory.
fn land(book: &mut Book, change: Change, number: u64)
    requires number { number < 2 ^ 62 }
    requires room { HasRoomFor (Some change) book.old }
    ensures book { LandsAs change number book.old book.new }
    ensures placed { KeepsPlacesBy (Some change) book.old book.new }
    ensures states { KeepsStatesBy (Some change) book.old book.new }
    ensures low { StaysLow book.old book.new }
{
    book.change(Some(change));
    pass_over(book, number);
}

// Where the script of a start stands.
#[derive(Clone, Copy)]
pub(crate) struct Beginning<'a> {
    // Its place among all scripts of the library.
    place: usize,
    pub(crate) script: &'a NamedScript,
}

// The script of this place in the present setup.
pub(crate) fn start_of(library: &Library, start: usize) -> Option<Beginning<'_>>
    ensures { IsBeginning (library_of library.now) start result }
{
    let place = library.start(start)?;
    let script = library.get(place)?;
    Some(Beginning { place, script })
}

// What the record of an answer to a page comes to.
#[derive(Drop)]
enum Answered {
    // No such page stands.
    Absent,
    // The bytes of its state are no state of the script.
    Misread,
    // It can't be of the instance, or its number was seen before.
    Passed,
    Extends(Extension),
}

// A start of this script showed a page: its instance opens, where the record can be of the book.
fn open(
    alloc: Global,
    book: &mut Book,
    begins: Beginning<'_>,
    told: PageRecord,
    page: ShownState,
) -> Result<(), AllocError>
    requires number { told.ticket < 2 ^ 62 }
    requires few { count_of book.old + 1 < 2 ^ 32 }
    ensures opens { OpensBegun begins.entry told page result book.old book.new }
    ensures placed { OnOk result (KeepsPlacesAt begins.entry.place book.old book.new) }
    ensures states { KeepsStatesBegun begins.entry told page result book.old book.new }
    ensures low { OnOk result (StaysLow book.old book.new) }
    ensures same { OnErr result (IsUnchanged book.old book.new) }
{
    let number = told.ticket;
    let defaults = begins.script.script.instance_defaults();
    let cells = Cells::of(alloc, defaults.as_slice())?;
    if !can_open(&cells, &told) {
        pass_over(book, number);
        return Ok(());
    }
    let opening = book.opened(alloc, begins.place, &cells, told, page)?;
    land(book, Change::Opens(opening), number);
    Ok(())
}

// A start of the script of this place showed a page; one of a number that was seen is passed over.
//
// Whether its state could be read.
fn redo_opening(
    alloc: Global,
    book: &mut Book,
    library: &Library,
    script: u8,
    told: PageRecord,
    state: Bytes,
    again: bool,
) -> Result<bool, AllocError>
    requires number { told.ticket < 2 ^ 62 }
    requires start { origin_of told.origin ≡ start script }
    requires few { count_of book.old + 1 < 2 ^ 32 }
    requires placed { HasPlaces (library_of library.now).all book.old }
    ensures landed { LandsPage (library_of library.now) told state again result book.old book.new }
    ensures placed { OnOk result (HasPlaces (library_of library.now).all book.new) }
    ensures low { OnOk result (StaysLow book.old book.new) }
    ensures same { UnlessTaken result (IsUnchanged book.old book.new) }
{
    let number = told.ticket;
    let Some(begins) = start_of(library, script as usize) else {
        pass_over(book, number);
        return Ok(true);
    };
    let Some(page) = state_told(alloc, &begins.script.script, None, 0, state)? else {
        return Ok(false);
    };
    if again {
        pass_over(book, number);
        return Ok(true);
    }
    open(alloc, book, begins, told, page)?;
    Ok(true)
}

// What the record of an answer to a page comes to.
fn comes_to(
    alloc: Global,
    book: &Book,
    library: &Library,
    instance: u64,
    page: u64,
    answer: StoredValue,
    told: PageRecord,
    state: Bytes,
    again: bool,
) -> Result<Answered, AllocError>
    requires placed { HasPlaces (library_of library.now).all book.now }
    requires kept { HasSomeStates (library_of library.now).all book.now }
    ensures { IfOk result
        (IsAnswered (library_of library.now) book.now instance page answer told state again) }
{
    let Some(place) = place_of_numbers(book, library, instance, page) else {
        return Ok(Answered::Absent);
    };
    let Some(shown) = told_there(alloc, &place, state)? else {
        return Ok(Answered::Misread);
    };
    if again {
        return Ok(Answered::Passed);
    }
    if !takes(&place, &told) {
        return Ok(Answered::Passed);
    }
    let extension = place.instance.extended(alloc, told, page, answer, shown)?;
    Ok(Answered::Extends(extension))
}

// An answer to a page showed a page; one of a number that was seen is passed over.
//
// Whether its state could be read, where the page that it answers stands.
fn redo_extension(
    alloc: Global,
    book: &mut Book,
    library: &Library,
    instance: u64,
    page: u64,
    answer: StoredValue,
    told: PageRecord,
    state: Bytes,
    again: bool,
) -> Result<bool, AllocError>
    requires number { told.ticket < 2 ^ 62 }
    requires origin { origin_of told.origin ≡ answered instance page answer }
    requires placed { HasPlaces (library_of library.now).all book.old }
    requires kept { HasSomeStates (library_of library.now).all book.old }
    requires free { again ≡ false
        → IsFree (library_of library.now).all (Some told.ticket) book.old }
    ensures landed { LandsPage (library_of library.now) told state again result book.old book.new }
    ensures placed { OnOk result (HasPlaces (library_of library.now).all book.new) }
    ensures low { OnOk result (StaysLow book.old book.new) }
    ensures same { UnlessTaken result (IsUnchanged book.old book.new) }
{
    let number = told.ticket;
    match comes_to(
        alloc, book, library, instance, page, answer, told, state, again,
    )? {
        Answered::Absent => {
            pass_over(book, number);
            Ok(true)
        }
        Answered::Misread => Ok(false),
        Answered::Passed => {
            pass_over(book, number);
            Ok(true)
        }
        Answered::Extends(extension) => {
            book.room_in(instance)?;
            land(book, Change::Extends(extension), number);
            Ok(true)
        }
    }
}

// A page was shown.
fn redo_page(
    alloc: Global,
    book: &mut Book,
    library: &Library,
    told: PageRecord,
    state: Bytes,
    again: bool,
) -> Result<bool, AllocError>
    requires number { told.ticket < 2 ^ 62 }
    requires few { count_of book.old + 1 < 2 ^ 32 }
    requires placed { HasPlaces (library_of library.now).all book.old }
    requires kept { HasSomeStates (library_of library.now).all book.old }
    requires free { again ≡ false
        → IsFree (library_of library.now).all (Some told.ticket) book.old }
    ensures landed { LandsPage (library_of library.now) told state again result book.old book.new }
    ensures placed { OnOk result (HasPlaces (library_of library.now).all book.new) }
    ensures low { OnOk result (StaysLow book.old book.new) }
    ensures same { UnlessTaken result (IsUnchanged book.old book.new) }
{
    match &told.origin {
        Origin::Start { script } => {
            let script = *script;
            redo_opening(alloc, book, library, script, told, state, again)
        }
        Origin::Answer {
            instance,
            page,
            answer,
        } => {
            let instance = *instance;
            let page = *page;
            let answer = StoredValue::of(alloc, answer)?;
            redo_extension(
                alloc, book, library, instance, page, answer, told, state, again,
            )
        }
    }
}

// The instance where this page stands, where the effects are on its cells and hold over them.
pub(crate) fn ended_in<'a>(
    book: &'a Book,
    instance: u64,
    page: u64,
    effects: &[Effect],
) -> Option<&'a Numbered<KeptInstance>>
    ensures { EndsIn book.now instance page (map effect_of effects.now) result }
{
    let kept = book.instance(instance)?;
    let _answered = kept.item.pages.page(page)?;
    if are_held(&kept.item.cells, effects) {
        Some(kept)
    } else {
        None
    }
}

// A page was answered with a last page; one of a number that was seen, or that can't be of the instance, is passed over.
fn redo_ending(
    alloc: Global,
    book: &mut Book,
    ended: EndedRecord,
    again: bool,
) -> Result<(), AllocError>
    requires { EndingFits (ending_of ended) }
    ensures landed { OnOk result (LandsAnyhow (ends (ending_of ended)) again book.old book.new) }
    ensures placed { KeepsPlaces book.old book.new }
    ensures low { OnOk result (StaysLow book.old book.new) }
    ensures same { OnErr result (IsUnchanged book.old book.new) }
{
    let number = ended.ticket;
    if again {
        pass_over(book, number);
        return Ok(());
    }
    let Some(kept) = ended_in(book, ended.instance, ended.page, &ended.effects) else {
        pass_over(book, number);
        return Ok(());
    };
    let after = kept.item.after(alloc, &ended.effects, &ended.left)?;
    let inside = Vec::new(alloc);
    land(
        book,
        Change::Ends(Ending {
            record: ended,
            inside,
            after,
        }),
        number,
    );
    Ok(())
}

// A page was answered with a last page, and its instance went; one of a number that was seen, or that can't be of the instance,
// is passed over. It takes no memory.
fn redo_finish(alloc: Global, book: &mut Book, finish: FinishRecord, again: bool)
    requires { FinishFits (finish_of finish) }
    ensures landed { LandsAnyhow (finishes (finish_of finish)) again book.old book.new }
    ensures placed { KeepsPlaces book.old book.new }
    ensures low { StaysLow book.old book.new }
{
    let number = finish.ticket;
    if again {
        pass_over(book, number);
        return;
    }
    let Some(_ended) = ended_in(book, finish.instance, finish.page, &finish.effects) else {
        pass_over(book, number);
        return;
    };
    let inside = Vec::new(alloc);
    land(
        book,
        Change::Finishes(Finish {
            record: finish,
            inside,
        }),
        number,
    );
}

// Time went on to this tick; one that is not above the clock is passed over. It takes no memory.
fn redo_sweep(book: &mut Book, tick: u64)
    requires { tick < 2 ^ 62 }
    ensures landed { (library : Scripts)
        → IsLanded library (sweeps tick) None false true book.old book.new }
    ensures placed { KeepsPlaces book.old book.new }
    ensures low { StaysLow book.old book.new }
{
    if tick <= book.clock() {
        return;
    }
    book.free_expired(tick);
}

// The next number, as a file tells it that was compacted. It takes no memory.
fn redo_drawn(book: &mut Book, number: u64)
    requires { number ≤ 2 ^ 62 }
    ensures book { Makes (λ b. record b { logged = number }) book.old book.new }
    ensures placed { KeepsPlaces book.old book.new }
    ensures states { KeepsStates book.old book.new }
    ensures low { StaysLow book.old book.new }
{
    book.go_on_with(number);
}

// What a record tells lands, or is passed over.
fn redo_record(
    alloc: Global,
    book: &mut Book,
    library: &Library,
    logged: Logged,
    again: bool,
) -> Result<bool, AllocError>
    requires fits { IsInGrammar (logged_of logged) }
    requires unnumbered { number_by (logged_of logged) ≡ None → again ≡ false }
    requires few { count_of book.old + 1 < 2 ^ 32 }
    requires placed { HasPlaces (library_of library.now).all book.old }
    requires kept { HasSomeStates (library_of library.now).all book.old }
    requires free { again ≡ false
        → IsFree (library_of library.now).all (number_by (logged_of logged)) book.old }
    ensures landed { LandsRecord (library_of library.now) (logged_of logged) again result
        book.old book.new }
    ensures placed { OnOk result (HasPlaces (library_of library.now).all book.new) }
    ensures low { OnOk result (StaysLow book.old book.new) }
    ensures same { UnlessTaken result (IsUnchanged book.old book.new) }
{
    match logged {
        Logged::Begin {
            shelf: _,
            scripts: _,
        } => Ok(true),
        Logged::Page { page, state } => redo_page(alloc, book, library, page, state, again),
        Logged::Ended(ended) => {
            redo_ending(alloc, book, ended, again)?;
            Ok(true)
        }
        Logged::Finish(finish) => {
            redo_finish(alloc, book, finish, again);
            Ok(true)
        }
        Logged::Sweep { clock } => {
            redo_sweep(book, clock);
            Ok(true)
        }
        Logged::Texts { scripts: _ } => Ok(true),
        Logged::Drawn { number } => {
            redo_drawn(book, number);
            Ok(true)
        }
        Logged::Follow => Ok(true),
        Logged::Promoted => Ok(true),
    }
}

/// Makes what a record tells again, or passes it over, as recovery decides; one of a number that was seen before is passed over. The
/// book is then as after a crash. A start is of the script of its place in the present setup. A record of a setup, or of
/// whether the shelf follows another one's journal, makes no change.
/// It asks for a book that one instance more leaves countable in 32 bits.
///
/// Whether its state could be read: false where its bytes are no state of the page's script. There, and where memory runs out, the
/// book is as it was.
pub fn redo(
    alloc: Global,
    book: &mut Book,
    library: &Library,
    logged: Logged,
    again: bool,
) -> Result<bool, AllocError>
    requires fits { IsInGrammar (logged_of logged) }
    requires unnumbered { number_by (logged_of logged) ≡ None → again ≡ false }
    requires low { book.old.logged ≤ 2 ^ 62 }
    requires few { count_of book.old + 1 < 2 ^ 32 }
    requires placed { HasPlaces (library_of library.now).all book.old }
    requires kept { HasSomeStates (library_of library.now).all book.old }
    requires free { again ≡ false
        → IsFree (library_of library.now).all (number_by (logged_of logged)) book.old }
    ensures redone { RedoesRecord (library_of library.now) (logged_of logged) again result
        book.old book.new }
    ensures placed { OnOk result (HasPlaces (library_of library.now).all book.new) }
    ensures same { UnlessTaken result (IsUnchanged book.old book.new) }
{
    if !redo_record(alloc, book, library, logged, again)? {
        return Ok(false);
    }
    book.reopen();
    Ok(true)
}

/// A record of this number counts, and changes nothing else; the book is then as after a crash. It takes no memory.
pub fn pass(book: &mut Book, number: u64)
    requires number { number < 2 ^ 62 }
    requires low { book.old.logged ≤ 2 ^ 62 }
    ensures book { Reopens (counted_to number) book.old book.new }
    ensures placed { KeepsPlaces book.old book.new }
{
    pass_over(book, number);
    book.reopen();
}
