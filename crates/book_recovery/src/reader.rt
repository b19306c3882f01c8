ghost use Rattle.std.specs.Prelude.{ℕ, ◌≡◌, ◌<◌, ◌≤◌, ◌+◌, ◌*◌, ◌^◌, [], length, not, false, true, map, None, IfOk, IfSome, OnOk};
ghost use Rattle.script_nodes.specs.Views.{library_of};
ghost use Rattle.replay_spec.specs.Recovery.{is_repeated};
ghost use Rattle.book_redo.specs.InstanceBook.Makes.{count_of, HasPlaces, KeepsPlaces, HasItsStates, Reopens};
ghost use Rattle.book_redo.specs.InstanceBook.Lists.{HasRoom as HasRoomToSee};
ghost use Rattle.book_redo.specs.Redo.{counted_to, number_by, IsUnchanged, UnlessTaken};
ghost use Rattle.journal_records.specs.Records.{IsInGrammar};
ghost use Rattle.journal_records.specs.Roles.{is_role};
ghost use Rattle.journal_records.specs.Views.{logged_of, script_of};
ghost use Rattle.file_notes.specs.Files.{IsNoted, HasRoom as HasRoomToNote};
ghost use Rattle.book_recovery.specs.Found.{HasStates};
ghost use Rattle.book_recovery.specs.Anew.{IsBodyAnew, KeepsAnew, KeepsTold};
ghost use Rattle.book_recovery.specs.Calls.{AnewLater, GivesFirst, GivesLater, IsMadeFor, KeepsFor, NotesFor, NotesLater, NotesRenewal, OwnsLater, RenewsFor};
ghost use Rattle.book_recovery.specs.declared.to_note.Noting.TheVariants as noting;
ghost use Rattle.book_recovery.specs.Noted.{NotesBy, NotesFirst};
ghost use Rattle.book_recovery.specs.Reading.{may_stand, turns, HasFew, CountsOneMore, SeesNumber, Sees, IsUnderWay, book_as, found_as, WhereTaken, UnlessMade, IsBegun, TakesNothing, IsKept, IsSoundReader, IsSameFile, IsSameReader, IsTaken, NotesTaken, AnewTaken, seen_by, with_found, Begins};
ghost use Rattle.book_recovery.specs.declared.found.Found.TheVariants as found;

use crate::found::Found;
use crate::setup_scripts::told_setup;
use crate::to_note::{drawn_of, to_note};
use book_redo::{Book, InOrder, Numbered, Renewed, as_newest, pass, redo};
use file_notes::FileNotes;
use journal_records::{Logged, Origin, Recorded, decode, encode, records_are_exact};
use page_journal::NEWEST_FORMAT;
use script_nodes::{Library, ScriptText};
use script_value::Bytes;
use std::alloc::{AllocError, Global};
use std::mem;
use std::snapshot::Snapshot;

// Where the gate of the first record is.
const FIRST: u64 = 8;

/// Makes the book of a shelf from the records of its journal, one by one.
#[derive(Drop)]
pub struct Reader {
    pub alloc: Global,
    pub shelf: u32,
    /// The format of the journal.
    pub format: u8,
    /// The numbers that records told of.
    pub seen: InOrder<()>,
    /// Whether the shelf follows another one's journal.
    pub follows: bool,
    /// Whether no record was read after that of the first setup.
    pub alone: bool,
    /// What was made so far.
    pub found: Found,
    /// What is known of the file so far.
    pub notes: FileNotes,
    /// Where the file is of an older format, the bodies that the newest has of its records: of the first one, and of those that have a
    /// note. One that is passed over has none.
    pub anew: Vec<Bytes>,
}

// The number that a record uses, if it is one of a change of pages.
fn number_of(logged: &Logged) -> Option<u64>
    requires { IsInGrammar (logged_of logged.now) }
    ensures number { result ≡ number_by (logged_of logged.now) }
    ensures low { IfSome result (λ n. n < 2 ^ 62) }
{
    match logged {
        Logged::Begin { .. } => None,
        Logged::Page { page, .. } => Some(page.ticket),
        Logged::Ended(ended) => Some(ended.ticket),
        Logged::Finish(finish) => Some(finish.ticket),
        Logged::Sweep { .. } => None,
        Logged::Texts { .. } => None,
        Logged::Drawn { .. } => None,
        Logged::Follow => None,
        Logged::Promoted => None,
    }
}

// The body that the newest format has of a record which tells no setup.
fn body_anew(alloc: Global, logged: &Logged) -> Result<Bytes, AllocError>
    requires { IsInGrammar (logged_of logged.now) }
    ensures { IfOk result (IsBodyAnew (logged_of logged.now)) }
{
    let line = match logged {
        Logged::Page { page, state } => Recorded::Page {
            page,
            state: Some(state.as_slice()),
        },
        Logged::Ended(ended) => Recorded::Ended(ended),
        Logged::Finish(finish) => Recorded::Finish(finish),
        Logged::Sweep { clock } => Recorded::Sweep { clock: *clock },
        Logged::Drawn { number } => Recorded::Drawn { number: *number },
        Logged::Begin { .. } => return Ok(Bytes::new(Vec::new(alloc))),
        Logged::Texts { .. } => return Ok(Bytes::new(Vec::new(alloc))),
        Logged::Follow => return Ok(Bytes::new(Vec::new(alloc))),
        Logged::Promoted => return Ok(Bytes::new(Vec::new(alloc))),
    };
    encode(alloc, &line)
}

/// Whether a record that tells no setup may stand after others: a start is of a script of the present setup, and a number stands
/// directly after that of the first setup.
pub fn may_stand(alone: bool, present: usize, logged: &Logged) -> bool
    ensures { result ≡ may_stand alone present (logged_of logged.now) }
{
    match logged {
        Logged::Begin { .. } => false,
        Logged::Page { page, .. } => match &page.origin {
            Origin::Start { script } => (*script as usize) < present,
            Origin::Answer { .. } => true,
        },
        Logged::Ended(_) => true,
        Logged::Finish(_) => true,
        Logged::Sweep { .. } => true,
        Logged::Texts { .. } => false,
        Logged::Drawn { .. } => alone,
        Logged::Follow => false,
        Logged::Promoted => false,
    }
}

// The number of a record that is passed over counts in the book.
fn count(book: &mut Book, number: Option<u64>)
    requires number { IfSome number (λ n. n < 2 ^ 62) }
    requires low { book.old.logged ≤ 2 ^ 62 }
    ensures book { IfSome number (λ n. Reopens (counted_to n) book.old book.new) }
    ensures placed { KeepsPlaces book.old book.new }
{
    if let Some(number) = number {
        pass(book, number);
    }
}

// What is found of a book and its library with one record more, whose gate is at this place: whether it was taken.
fn found_as(place: u64, taken: Result<bool, AllocError>, book: Book, library: Library) -> Found
    ensures { result ≡ found_as place taken book library }
{
    match taken {
        Ok(true) => Found::Made { book, library },
        Ok(false) => Found::Damaged { place },
        Err(_) => Found::Memory,
    }
}

impl Reader {
    // Whether the number of a record was seen. What has no number was not.
    fn has_seen(&self, number: Option<u64>) -> bool
        ensures { result ≡ is_repeated number (seen_by self.now.seen) }
    {
        match number {
            Some(number) => self.seen.has(number),
            None => false,
        }
    }

    // Room for one record more.
    fn room(&mut self) -> Result<(), AllocError>
        requires noted { IsNoted self.old.notes }
        ensures numbers { OnOk result (HasRoomToSee self.new.seen) }
        ensures notes { OnOk result (HasRoomToNote self.new.notes.notes) }
        ensures noted { IsNoted self.new.notes }
        ensures nothing { TakesNothing self.old self.new }
        ensures anew { self.new.anew ≡ self.old.anew }
        ensures same { IsSameReader self.old self.new }
    {
        self.seen.make_room()?;
        self.notes.room()
    }

    // The number of a record is seen from now on, for which there is room. It takes no memory.
    fn see(&mut self, number: Option<u64>)
        requires room { HasRoomToSee self.old.seen }
        ensures sees { SeesNumber number self.old.seen self.new.seen }
        ensures notes { self.new.notes ≡ self.old.notes }
        ensures anew { self.new.anew ≡ self.old.anew }
        ensures same { IsSameReader self.old self.new }
    {
        if let Some(number) = number {
            self.seen.put(Numbered { number, item: () });
        }
    }

    // Keeps the body that the newest format has of a record, where the file is of an older one.
    fn keep(&mut self, body: Bytes) -> Result<(), AllocError>
        ensures anew { OnOk result (KeepsAnew self.old.format body self.old.anew self.new.anew) }
        ensures seen { self.new.seen ≡ self.old.seen }
        ensures notes { self.new.notes ≡ self.old.notes }
        ensures same { IsSameReader self.old self.new }
    {
        if self.format != NEWEST_FORMAT {
            self.anew.push(body)?;
        }
        Ok(())
    }

    // Keeps the body of a record as it is.
    fn copy(&mut self, body: &[u8]) -> Result<(), AllocError>
        ensures anew { OnOk result (KeepsAnew self.old.format body.now self.old.anew self.new.anew) }
        ensures seen { self.new.seen ≡ self.old.seen }
        ensures notes { self.new.notes ≡ self.old.notes }
        ensures same { IsSameReader self.old self.new }
    {
        let copy = body.to_vec(self.alloc)?;
        self.keep(Bytes::new(copy))
    }

    // Keeps what is told of a record, which has a note but where it tells a number.
    fn keep_told(&mut self, logged: &Logged) -> Result<(), AllocError>
        requires fits { IsInGrammar (logged_of logged.now) }
        ensures anew { OnOk result (KeepsTold self.old.format (logged_of logged.now) self.old.anew self.new.anew) }
        ensures seen { self.new.seen ≡ self.old.seen }
        ensures notes { self.new.notes ≡ self.old.notes }
        ensures same { IsSameReader self.old self.new }
    {
        match drawn_of(logged) {
            Some(_) => Ok(()),
            None => {
                let body = body_anew(self.alloc, logged)?;
                self.keep(body)
            }
        }
    }

    // What a record that tells no setup makes of the book: whether its state can be read. Where it can't be, or memory runs out, nothing
    // is changed.
    fn redo(
        &mut self,
        book: &mut Book,
        library: &Library,
        logged: Logged,
        length: u32,
    ) -> Result<bool, AllocError>
        requires fits { IsInGrammar (logged_of logged) }
        requires kept { IsUnderWay
            self.old.shelf self.old.alone self.old.seen book.old (library_of library.now) }
        requires known { 0 < self.old.format }
        requires own { self.old.format ≡ 1 → HasItsStates (library_of library.now).all book.old }
        requires few { count_of book.old + 1 < 2 ^ 32 }
        requires noted { IsNoted self.old.notes }
        ensures made { IfOk (book_as result book.new)
            (IsMadeFor self.old library.now logged book.old) }
        ensures placed { IfOk (book_as result book.new)
            (λ found. IfSome found (HasPlaces (library_of library.now).all)) }
        ensures count { IfOk (book_as result book.new) (CountsOneMore book.old) }
        ensures sees { WhereTaken result (Sees (logged_of logged) self.old.seen self.new.seen) }
        ensures notes { IfOk (book_as result book.new)
            (NotesFor library.now book.old logged length self.old self.new) }
        ensures anew { IfOk (book_as result book.new)
            (KeepsFor library.now book.old logged self.old self.new) }
        ensures book { UnlessTaken result (IsUnchanged book.old book.new) }
        ensures nothing { UnlessTaken result (TakesNothing self.old self.new) }
        ensures noted { IsNoted self.new.notes }
        ensures same { IsSameReader self.old self.new }
    {
        let format = self.format;
        let number = number_of(&logged);
        let again = self.has_seen(number);
        match as_newest(self.alloc, format, book, library, logged)? {
            Renewed::Told(told) => {
                let noting = to_note(self.alloc, book, library, &told, again, length)?;
                self.keep_told(&told)?;
                self.room()?;
                if !redo(self.alloc, book, library, told, again)? {
                    return Ok(false);
                }
                self.see(number);
                noting.tell(&mut self.notes);
                Ok(true)
            }
            Renewed::Passed => {
                self.keep(Bytes::new(Vec::new(self.alloc)))?;
                self.room()?;
                self.see(number);
                self.notes.pass(length);
                count(book, number);
                Ok(true)
            }
            Renewed::Misread => Ok(false),
        }
    }

    // A record of another setup makes the library so, whose body is so long: whether its names and texts are a setup. Where they are not,
    // or memory runs out, nothing is changed.
    fn renewed(
        &mut self,
        library: &mut Library,
        texts: &[ScriptText],
        length: u32,
    ) -> Result<bool, AllocError>
        requires noted { IsNoted self.old.notes }
        ensures renews { RenewsFor texts.now library.old result library.new }
        ensures notes { NotesRenewal texts.now length self.old self.new result library.new }
        ensures library { UnlessTaken result
            (library_of library.new ≡ library_of library.old) }
        ensures nothing { UnlessTaken result (TakesNothing self.old self.new) }
        ensures anew { self.new.anew ≡ self.old.anew }
        ensures noted { IsNoted self.new.notes }
        ensures seen { self.new.seen ≡ self.old.seen }
        ensures same { IsSameReader self.old self.new }
    {
        let Some(setup) = told_setup(self.alloc, texts)? else {
            return Ok(false);
        };
        self.notes.room()?;
        let told = Snapshot::of(&setup);
        library.renew(setup)?;
        self.notes.renew(told, length);
        Ok(true)
    }

    // That the shelf follows another one's journal no longer, as a record of this body tells: whether it did. Where it did not, or memory
    // runs out, nothing is changed.
    fn promoted(&mut self, body: &[u8], length: u32) -> Result<bool, AllocError>
        requires noted { IsNoted self.old.notes }
        ensures followed { IfOk result (λ taken. taken ≡ self.old.follows) }
        ensures follows { WhereTaken result (self.new.follows ≡ false) }
        ensures notes { WhereTaken result
            (NotesBy (noting.Passes length) self.old.notes self.new.notes) }
        ensures anew { WhereTaken result
            (KeepsAnew self.old.format body.now self.old.anew self.new.anew) }
        ensures nothing { UnlessTaken result (TakesNothing self.old self.new) }
        ensures noted { IsNoted self.new.notes }
        ensures seen { self.new.seen ≡ self.old.seen }
        ensures same { IsSameFile self.old self.new }
    {
        if !self.follows {
            return Ok(false);
        }
        self.copy(body)?;
        self.notes.room()?;
        self.notes.pass(length);
        self.follows = false;
        Ok(true)
    }

    // What a later record makes of the book and the library: whether it stands there. Where it does not, or memory runs out, nothing is
    // changed.
    pub fn later(
        &mut self,
        book: &mut Book,
        library: &mut Library,
        body: &[u8],
    ) -> Result<bool, AllocError>
        requires kept { IsUnderWay
            self.old.shelf self.old.alone self.old.seen book.old (library_of library.old) }
        requires short { length body.now < 2 ^ 32 }
        requires few { count_of book.old + 1 < 2 ^ 32 }
        requires known { 0 < self.old.format }
        requires own { self.old.format ≡ 1 → HasItsStates (library_of library.old).all book.old }
        requires noted { IsNoted self.old.notes }
        ensures count { count_of book.new ≤ count_of book.old + 1 }
        ensures gives { GivesLater self.old book.old library.old body.now result
            self.new book.new library.new }
        ensures owns { OwnsLater self.old book.old library.old body.now result
            book.new library.new }
        ensures kept { (place : ℕ) → IsKept self.old.shelf false self.new.seen
            (found_as place result book.new library.new) }
        ensures notes { NotesLater self.old book.old library.old body.now result
            self.new book.new library.new }
        ensures anew { AnewLater self.old book.old library.old body.now result
            self.new book.new library.new }
        ensures book { UnlessTaken result (IsUnchanged book.old book.new) }
        ensures library { UnlessTaken result
            (library_of library.new ≡ library_of library.old) }
        ensures nothing { UnlessTaken result (TakesNothing self.old self.new) }
        ensures follows { is_role body.now ≡ false → self.new.follows ≡ self.old.follows }
        ensures noted { IsNoted self.new.notes }
        ensures same { IsSameFile self.old self.new }
    {
        records_are_exact();
        let length = body.len() as u32;
        let Some(logged) = decode(self.alloc, self.format, body)? else {
            return Ok(false);
        };
        if let Logged::Texts { scripts } = &logged {
            self.copy(body)?;
            return self.renewed(library, scripts, length);
        }
        if let Logged::Promoted = &logged {
            return self.promoted(body, length);
        }
        if !may_stand(self.alone, library.present(), &logged) {
            return Ok(false);
        }
        self.redo(book, library, logged, length)
    }

    // The first setup of a journal of this shelf number, whose record's body is so long.
    fn begun(&mut self, place: u64, shelf: u32, texts: &[ScriptText], length: u32) -> Found
        requires noted { IsNoted self.old.notes }
        ensures begins { Begins self.old.shelf place shelf (map script_of texts.now) result }
        ensures anew { self.new.anew ≡ self.old.anew }
        ensures notes { NotesFirst (map script_of texts.now) length self.new.notes result }
        ensures unmade { UnlessMade result (self.new.notes ≡ self.old.notes) }
        ensures noted { IsNoted self.new.notes }
        ensures seen { self.new.seen ≡ self.old.seen }
        ensures same { IsSameReader self.old self.new }
    {
        let setup = match told_setup(self.alloc, texts) {
            Ok(Some(setup)) => setup,
            Ok(None) => return Found::Damaged { place },
            Err(_) => return Found::Memory,
        };
        if shelf != self.shelf {
            return Found::Other { place };
        }
        self.notes.begin(&setup, 14 + length as u64);
        Found::Made {
            book: Book::empty(self.alloc, self.shelf),
            library: Library::of(setup),
        }
    }

    // Whether a record tells there, before that of the first setup, that the shelf follows another one's journal, or that it follows no longer.
    // It then does so.
    fn turns(&mut self, place: u64, logged: &Logged) -> bool
        ensures turns { result ≡ turns self.old.follows place (logged_of logged.now) }
        ensures turned { result ≡ true → self.new.follows ≡ not self.old.follows }
        ensures stays { result ≡ false → self.new.follows ≡ self.old.follows }
        ensures notes { self.new.notes ≡ self.old.notes }
        ensures anew { self.new.anew ≡ self.old.anew }
        ensures seen { self.new.seen ≡ self.old.seen }
        ensures same { IsSameFile self.old self.new }
    {
        let turns = match logged {
            Logged::Follow => !self.follows && place == FIRST,
            Logged::Promoted => self.follows,
            _ => false,
        };
        if turns {
            self.follows = !self.follows;
        }
        turns
    }

    // What a record makes where there is none of a setup yet.
    pub fn first(&mut self, place: u64, body: &[u8]) -> Found
        requires room { place + 6 + length body.now ≤ 2 ^ 30 }
        requires noted { IsNoted self.old.notes }
        ensures few { HasFew (place + 5 + length body.now) result }
        ensures gives { GivesFirst self.old place body.now self.new result }
        ensures owns { HasStates result }
        ensures kept { seen_by self.old.seen ≡ []
            → IsKept self.old.shelf true self.old.seen result }
        ensures notes { NotesTaken (with_found self.old found.Nothing)
            place body.now (with_found self.new result) }
        ensures anew { AnewTaken (with_found self.old found.Nothing)
            place body.now (with_found self.new result) }
        ensures unmade { UnlessMade result (self.new.notes ≡ self.old.notes) }
        ensures begun { is_role body.now ≡ false
            → IsBegun result × (self.new.follows ≡ self.old.follows) }
        ensures noted { IsNoted self.new.notes }
        ensures seen { self.new.seen ≡ self.old.seen }
        ensures same { IsSameFile self.old self.new }
    {
        records_are_exact();
        let logged = match decode(self.alloc, self.format, body) {
            Ok(Some(logged)) => logged,
            Ok(None) => return Found::Damaged { place },
            Err(_) => return Found::Memory,
        };
        if self.copy(body).is_err() {
            return Found::Memory;
        }
        if let Logged::Begin { shelf, scripts } = &logged {
            return self.begun(place, *shelf, scripts, body.len() as u32);
        }
        if self.turns(place, &logged) {
            Found::Nothing
        } else {
            Found::Damaged { place }
        }
    }

    /// Takes the body of the record whose gate is at this place. The book so far has at most one instance for each five bytes up to
    /// there, as each was told by a record.
    pub fn take(&mut self, place: u64, body: &[u8])
        requires sound { IsSoundReader self.old }
        requires room { place + 6 + length body.now ≤ 2 ^ 30 }
        requires few { HasFew place self.old.found }
        ensures few { HasFew (place + 5 + length body.now) self.new.found }
        ensures taken { IsTaken self.old place body.now self.new }
        ensures sound { IsSoundReader self.new }
    {
        match mem::replace(&mut self.found, Found::Memory) {
            Found::Nothing => {
                self.found = self.first(place, body);
                self.alone = true;
            }
            Found::Made { book, library } => {
                let mut book = book;
                let mut library = library;
                let taken = self.later(&mut book, &mut library, body);
                self.found = found_as(place, taken, book, library);
                self.alone = false;
            }
            Found::Damaged { place } => self.found = Found::Damaged { place },
            Found::Other { place } => self.found = Found::Other { place },
            Found::Memory => (),
        }
    }
}
