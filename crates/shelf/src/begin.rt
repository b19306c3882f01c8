ghost use Rattle.std.specs.Prelude.{◌≡◌, ◌≤◌, ◌<◌, ◌^◌, [], false, length, None, IsTrue, IfOk, OnOk};
ghost use Rattle.script_nodes.specs.Views.{named_of, scripts_of, library_of};
ghost use Rattle.book_recovery.specs.SetupReader.Texts.{IsReadSetup};
ghost use Rattle.disk_trio.specs.Trio.{trio_view};
ghost use Rattle.page_journal.specs.Records.{newest};
ghost use Rattle.page_journal.specs.Settled.{IsSettled, IsSound, length_with, is_broken};
ghost use Rattle.journal_records.specs.Records.{IsInGrammar, begin_of, renewal_of, body_of};
ghost use Rattle.journal_records.specs.Views.{recorded_of};
ghost use Rattle.book_recovery.specs.JournalSpec.Opening.{first_body, renewal_body};
ghost use Rattle.book_recovery.specs.JournalSpec.Whole.{IsWhole, AreWhole};
ghost use Rattle.book_recovery.specs.Found.{IsBookInOrder};
ghost use Rattle.shelf.specs.Faults.{begin_fault};
ghost use Rattle.shelf.specs.Calls.{GoesOn, GoesOnOwn, IsFullUnlessFits, OpensOwnFrom, OpensWith, TellsIfFits};
ghost use Rattle.shelf.specs.Opening.{IsFollowedBy, TellsSetup, IsLibraryOf, WasFound};
ghost use Rattle.file_copies.specs.OfFileNotes.Files.{IsNoted};
ghost use Rattle.shelf.specs.Files.{KnowsRead, NotesBegun, NotesRenewed};
ghost use Rattle.shelf.specs.Ranges.{AreInRange};

use crate::fed::{follower_of, go_on_fed};
use crate::follower::Follower;
use crate::migration::migrated;
use crate::present::is_present;
use crate::recording::added;
use crate::rules::Rules;
use crate::shelf::Shelf;
use book_recovery::books::Book;
use book_recovery::journal_laws::{
    a_setup_is_its_texts, openings_stay, recoveries_find_one, renewals_are_kept,
    renewals_stand_between,
};
use book_recovery::{Found, ReadBook, read_book};
use disk_trio::Disks;
use file_copies::FileNotes;
use journal_records::{Recorded, body_length, encode, records_are_exact};
use page_journal::{Journal, JournalFault, MAX_LEN};
use script_nodes::{Library, NamedScript, Setup};
use std::alloc::Global;
use std::snapshot::Snapshot;
use web_disk::Disk;
use web_outside::Nonces;

/// Why a shelf was not opened.
#[derive(Clone, Copy, Debug, PartialEq, Eq)]
pub enum BeginFault {
    /// What stands at this place is no record that a shelf writes there.
    Damaged { place: u64 },
    /// The journal is another shelf's.
    Other { place: u64 },
    /// The journal has no room for the names and the texts of the scripts: with them it would have so many bytes.
    Full { len: u64 },
    /// A call of the disk failed.
    DiskFault,
    /// There was no memory.
    Memory,
}

pub(crate) fn fault_by(fault: JournalFault) -> BeginFault
    ensures { result ≡ begin_fault fault }
{
    match fault {
        JournalFault::Damaged { place } => BeginFault::Damaged { place },
        JournalFault::DiskFault => BeginFault::DiskFault,
        JournalFault::Memory => BeginFault::Memory,
    }
}

// How long the body of a record is.
fn long(line: &Recorded<'_>) -> u64
    requires counted { length (body_of (recorded_of line.now)) < 2 ^ 63 }
    ensures { result ≡ length (body_of (recorded_of line.now)) }
{
    body_length(line)
}

// How long the journal is with a record more.
fn with_record<D: Disk>(journal: &Journal<D>, line: &Recorded<'_>) -> u64
    requires sound { IsSound journal.now }
    requires counted { length (body_of (recorded_of line.now)) < 2 ^ 63 }
    ensures { result ≡ length_with journal.now (body_of (recorded_of line.now)) }
{
    journal.len() + 5 + long(line)
}

// Adds the record of a setup, for which the journal has room.
fn tell<D: Disk>(
    alloc: Global,
    journal: &mut Journal<D>,
    line: &Recorded<'_>,
) -> Result<(), BeginFault>
    requires sound { IsSound journal.old }
    requires newest { journal.old.format ≡ newest }
    requires whole { is_broken journal.old ≡ false }
    requires settled { IsTrue D.tells → IsSettled D.view journal.old }
    requires spelled { IsInGrammar (recorded_of line.now) }
    requires short { length_with journal.old (body_of (recorded_of line.now)) ≤ 2 ^ 30 }
    ensures told { TellsSetup D.view D.tells journal.old journal.new
        (body_of (recorded_of line.now)) result }
    ensures newest { journal.new.format ≡ newest }
    ensures sound { IsSound journal.new }
    ensures whole { OnOk result (is_broken journal.new ≡ false) }
{
    let Ok(body) = encode(alloc, line) else {
        return Err(BeginFault::Memory);
    };
    if journal.room(body.len() as u32).is_err() {
        return Err(BeginFault::Memory);
    }
    match added(journal, body.as_slice()) {
        Ok(()) => Ok(()),
        Err(_) => Err(BeginFault::DiskFault),
    }
}

// Adds the first record, which tells the shelf's number and the scripts.
fn start<D: Disk>(
    alloc: Global,
    journal: &mut Journal<D>,
    setup: &Setup,
    number: u32,
    notes: &mut FileNotes,
) -> Result<Library, BeginFault>
    requires sound { IsSound journal.old }
    requires newest { journal.old.format ≡ newest }
    requires noted { IsNoted notes.old }
    requires whole { is_broken journal.old ≡ false }
    requires settled { IsTrue D.tells → IsSettled D.view journal.old }
    requires read { IsReadSetup (scripts_of setup.now) }
    requires begins { IsInGrammar (begin_of number (scripts_of setup.now)) }
    ensures told { TellsIfFits D.view D.tells journal.old journal.new
        (first_body (scripts_of setup.now) number) result }
    ensures full { IsFullUnlessFits journal.old journal.new
        (first_body (scripts_of setup.now) number) result }
    ensures library { IfOk result (IsLibraryOf [] (scripts_of setup.now)) }
    ensures notes { OnOk result (NotesBegun (scripts_of setup.now) number notes.new) }
    ensures noted { IsNoted notes.new }
    ensures newest { journal.new.format ≡ newest }
    ensures sound { IsSound journal.new }
    ensures whole { OnOk result (is_broken journal.new ≡ false) }
{
    let line = Recorded::Begin {
        shelf: number,
        setup,
    };
    let len = with_record(journal, &line);
    if len > MAX_LEN {
        return Err(BeginFault::Full { len });
    }
    let Ok(scripts) = setup.try_clone(alloc) else {
        return Err(BeginFault::Memory);
    };
    match tell(alloc, journal, &line) {
        Ok(()) => {
            notes.begin(&scripts, 14 + long(&line));
            Ok(Library::of(scripts))
        }
        Err(fault) => Err(fault),
    }
}

// Adds the record of another setup, which is the present one from then on.
fn renew<D: Disk>(
    alloc: Global,
    journal: &mut Journal<D>,
    setup: &Setup,
    library: &mut Library,
    notes: &mut FileNotes,
) -> Result<(), BeginFault>
    requires sound { IsSound journal.old }
    requires newest { journal.old.format ≡ newest }
    requires noted { IsNoted notes.old }
    requires whole { is_broken journal.old ≡ false }
    requires settled { IsTrue D.tells → IsSettled D.view journal.old }
    requires read { IsReadSetup (scripts_of setup.now) }
    requires renews { IsInGrammar (renewal_of (scripts_of setup.now)) }
    ensures told { TellsIfFits D.view D.tells journal.old journal.new
        (renewal_body (scripts_of setup.now)) result }
    ensures full { IsFullUnlessFits journal.old journal.new
        (renewal_body (scripts_of setup.now)) result }
    ensures library { OnOk result
        (IsLibraryOf (library_of library.old).all (scripts_of setup.now) library.new) }
    ensures notes { OnOk result (NotesRenewed (scripts_of setup.now) notes.old notes.new) }
    ensures noted { IsNoted notes.new }
    ensures newest { journal.new.format ≡ newest }
    ensures sound { IsSound journal.new }
    ensures whole { OnOk result (is_broken journal.new ≡ false) }
{
    let line = Recorded::Texts { setup };
    let len = with_record(journal, &line);
    if len > MAX_LEN {
        return Err(BeginFault::Full { len });
    }
    let Ok(scripts) = setup.try_clone(alloc) else {
        return Err(BeginFault::Memory);
    };
    if notes.room().is_err() || library.renew(scripts).is_err() {
        return Err(BeginFault::Memory);
    }
    match tell(alloc, journal, &line) {
        Ok(()) => {
            notes.renew(Snapshot::of(setup), long(&line) as u32);
            Ok(())
        }
        Err(fault) => Err(fault),
    }
}

// A shelf goes on with a setup, whose book was read: where it has other names or texts than the present one, it is told.
fn go_on<D: Disk>(
    alloc: Global,
    journal: &mut Journal<D>,
    setup: &Setup,
    number: u32,
    book: &Book,
    library: &mut Library,
    notes: &mut FileNotes,
) -> Result<(), BeginFault>
    requires sound { IsSound journal.old }
    requires newest { journal.old.format ≡ newest }
    requires noted { IsNoted notes.old }
    requires known { IsTrue D.tells → KnowsRead D.view number journal.old notes.old }
    requires whole { is_broken journal.old ≡ false }
    requires settled { IsTrue D.tells → IsSettled D.view journal.old }
    requires read { IsReadSetup (scripts_of setup.now) }
    requires can_run { AreWhole (scripts_of setup.now) }
    requires begins { IsInGrammar (begin_of number (scripts_of setup.now)) }
    requires found { IsTrue D.tells
        → WasFound D.view number journal.old book.now (library_of library.old) }
    requires in_order { IsBookInOrder number book.now (library_of library.old) }
    ensures opened { GoesOn D.view D.tells setup.now number journal.old journal.new
        book.now library.new result }
    ensures own { GoesOnOwn D.view D.tells number journal.old journal.new
        book.now library.old library.new result }
    ensures known { IsTrue D.tells → OnOk result (KnowsRead D.view number journal.new notes.new) }
    ensures noted { IsNoted notes.new }
    ensures newest { journal.new.format ≡ newest }
    ensures sound { IsSound journal.new }
    ensures whole { OnOk result (is_broken journal.new ≡ false) }
{
    records_are_exact();
    a_setup_is_its_texts();
    renewals_are_kept();
    renewals_stand_between();
    if is_present(library, setup) {
        Ok(())
    } else {
        renew(alloc, journal, setup, library, notes)
    }
}

// Makes the book of the records; a journal without records gets its first one, and one of another setup that of this one, unless the shelf
// follows another one's journal.
fn open<D: Disk>(
    alloc: Global,
    journal: &mut Journal<D>,
    setup: &Setup,
    number: u32,
    notes: &mut FileNotes,
    follower: &mut Option<Follower>,
) -> Result<(Book, Library), BeginFault>
    requires sound { IsSound journal.old }
    requires newest { journal.old.format ≡ newest }
    requires noted { IsNoted notes.old }
    requires whole { is_broken journal.old ≡ false }
    requires settled { IsTrue D.tells → IsSettled D.view journal.old }
    requires read { IsReadSetup (scripts_of setup.now) }
    requires begins { IsInGrammar (begin_of number (scripts_of setup.now)) }
    requires leads { follower.old ≡ None }
    ensures opened { OpensWith D.view D.tells setup.now number follower.new
        journal.old journal.new result }
    ensures follows { IsFollowedBy D.view D.tells number journal.new follower.new result }
    ensures own { OpensOwnFrom D.view D.tells number journal.old journal.new result }
    ensures known { IsTrue D.tells → OnOk result (KnowsRead D.view number journal.new notes.new) }
    ensures noted { IsNoted notes.new }
    ensures newest { journal.new.format ≡ newest }
    ensures sound { IsSound journal.new }
    ensures whole { OnOk result (is_broken journal.new ≡ false) }
{
    records_are_exact();
    scripts_are_whole(setup);
    let Ok(read) = read_book(alloc, journal, number) else {
        return Err(BeginFault::DiskFault);
    };
    let ReadBook {
        found,
        notes: known,
        anew: _,
        follows,
        seen,
        alone,
    } = read;
    if follows {
        *follower = Some(follower_of(&found, alone, seen));
        return go_on_fed(alloc, number, found, known, notes);
    }
    *notes = known;
    match found {
        Found::Made { book, library } => {
            let mut library = library;
            match go_on(alloc, journal, setup, number, &book, &mut library, notes) {
                Ok(()) => Ok((book, library)),
                Err(fault) => Err(fault),
            }
        }
        Found::Damaged { place } => Err(BeginFault::Damaged { place }),
        Found::Other { place } => Err(BeginFault::Other { place }),
        Found::Memory => Err(BeginFault::Memory),
        Found::Nothing => match start(alloc, journal, setup, number, notes) {
            Ok(library) => Ok((Book::empty(alloc, number), library)),
            Err(fault) => Err(fault),
        },
    }
}

// Each script of a setup can be run: its nodes are those of what it means.
fn scripts_are_whole(setup: &Setup)
    ensures { AreWhole (scripts_of setup.now) }
{
    for place in 0..setup.len() {
        match setup.get(place) {
            Some(named) => can_be_run(named),
            None => (),
        }
    }
}

fn can_be_run(named: &NamedScript)
    ensures { IsWhole (named_of named.now) }
{
    let _root = named.script.root();
}

impl<F: Disk, N: Nonces + Drop> Shelf<Disks<F>, N> {
    ghost use Rattle.shelf.specs.Views.{IsInOrder};
    ghost use Rattle.shelf.specs.Calls.{BeginsOwn, OpensOneIfNow, StandsIfNow};
    ghost use Rattle.shelf.specs.Opening.{MakesShelf, IsOpenedAnew, MigratesThroughout, OpensOwnIfEmpty, LeavesOwn, TellsFault, TellsCause, KeepsDisk, IsFullStill, HasRoomFor, disk_of, nonces_of};

    /// Opens the shelf of these limits, which are in their ranges, on three disks: its book is what the records of the journal make,
    /// as after a crash. Disks without a record get the first, which tells the shelf's number and its scripts. A journal of an older
    /// format gives place to one of the newest, with the records of live instances and the setups. Where the setup has
    /// other names or texts than the last one that the journal tells, it is told after the others; instances go on with the scripts
    /// with which they began. A shelf whose journal tells that it follows another one's is told no setup, and goes on to follow: nothing is
    /// written. Disks that are refused are handed back, with what stands on them, but where one of their calls failed.
    /// Where the records that are read are own ones, as those of empty disks are, the shelf is an own one; on disks that tell no bytes
    /// it is where its book has no instance. Where disks hold own records, a crash at any moment of the opening leaves some.
    ///
    /// Damage and another shelf's number are told before all else, then that a file of the newest format would be too long, and then that
    /// the journal has no room for the setup. Before the first and the second nothing is written.
    ///
    /// It asks for a setup that is what its names and texts are read as, which records can tell, and for disks that were not opened yet.
    pub fn begin(
        alloc: Global,
        disks: Disks<F>,
        nonces: N,
        setup: &Setup,
        rules: Rules,
    ) -> Result<Shelf<Disks<F>, N>, (BeginFault, Disks<F>, N)>
        requires fresh { disks.known ≡ false }
        requires range { AreInRange rules }
        requires read { IsReadSetup (scripts_of setup.now) }
        requires begins { IsInGrammar (begin_of rules.number (scripts_of setup.now)) }
        ensures book { IsTrue F.tells
            → MakesShelf trio_view (scripts_of setup.now) rules.number disks result }
        ensures opened { IfOk result (IsOpenedAnew trio_view (scripts_of setup.now)) }
        ensures one_of { OpensOneIfNow trio_view F.tells setup.now rules.number disks result }
        ensures any_moment { StandsIfNow trio_view F.tells setup.now rules.number disks result }
        ensures migration { IsTrue F.tells
            → MigratesThroughout trio_view (scripts_of setup.now) rules.number disks result }
        ensures in_order { IfOk result (λ s. IsInOrder trio_view F.tells s) }
        ensures own { BeginsOwn trio_view F.tells rules.number (trio_view disks) result }
        ensures own_if_empty { OpensOwnIfEmpty trio_view F.tells result }
        ensures own_moments { IsTrue F.tells → LeavesOwn trio_view rules.number disks result }
        ensures rules { IfOk result (λ s. s.rules ≡ rules) }
        ensures nonces { nonces_of result ≡ nonces }
        ensures refused { IsTrue F.tells
            → TellsFault trio_view (scripts_of setup.now) rules.number disks result }
        ensures keeps { IsTrue F.tells
            → KeepsDisk trio_view (scripts_of setup.now) rules.number disks result }
        ensures full { IsTrue F.tells
            → IsFullStill trio_view (scripts_of setup.now) rules.number result }
        ensures fits { IsTrue F.tells
            → OnOk result (HasRoomFor rules.number (trio_view disks).seen) }
        ensures cause { TellsCause trio_view disks result }
        ensures later { (trio_view disks).faults ≤ (trio_view (disk_of result)).faults }
    {
        openings_stay::<Disks<F>>();
        recoveries_find_one::<Disks<F>>();
        let mut journal = match Journal::begin_on(alloc, disks) {
            Ok(journal) => journal,
            Err((fault, disks)) => return Err((fault_by(fault), disks, nonces)),
        };
        match migrated(alloc, &mut journal, rules.number) {
            Ok(()) => {
                let mut notes = FileNotes::none(alloc);
                let mut follower = None;
                match open(
                    alloc,
                    &mut journal,
                    setup,
                    rules.number,
                    &mut notes,
                    &mut follower,
                ) {
                    Ok((book, library)) => Ok(Shelf {
                        journal,
                        book,
                        library,
                        down: None,
                        nonces,
                        rules,
                        notes,
                        follower,
                    }),
                    Err(fault) => Err((fault, journal.close(), nonces)),
                }
            }
            Err(unmoved) => Err((unmoved, journal.close(), nonces)),
        }
    }
}
