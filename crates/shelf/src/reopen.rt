ghost use Rattle.std.specs.Prelude.{◌≡◌, ◌≤◌, true, false, None, IsTrue, IfOk, OnOk};
ghost use Rattle.disk_trio.specs.Trio.{trio_view};
ghost use Rattle.page_journal.specs.Records.{newest};
ghost use Rattle.page_journal.specs.Settled.{IsSettled, IsSound, length_of, is_broken};
ghost use Rattle.journal_records.specs.Records.{follows, body_of};
ghost use Rattle.file_copies.specs.OfFileNotes.Files.{IsNoted};
ghost use Rattle.shelf.specs.Opening.{TellsSetup};
ghost use Rattle.shelf.specs.Ranges.{AreInRange};
ghost use Rattle.shelf.specs.Reopening.{OpensParts};

use crate::begin::{BeginFault, fault_by};
use crate::fed::{follower_of, go_on_fed};
use crate::follower::{Fed, Follower};
use crate::migration::migrated;
use crate::recording::added;
use crate::rules::Rules;
use crate::shelf::Shelf;
use book_recovery::books::Book;
use book_recovery::journal_laws::{openings_stay, recoveries_find_one};
use book_recovery::{Found, ReadBook, read_book};
use disk_trio::Disks;
use file_copies::FileNotes;
use journal_records::{Recorded, encode, records_are_exact};
use page_journal::Journal;
use script_nodes::Library;
use std::alloc::Global;
use web_disk::Disk;
use web_outside::Nonces;

// How long a journal without records is.
const BARE: u64 = 9;

// Adds the record that tells that the shelf follows another one's journal, after no other.
fn tell_role<D: Disk>(alloc: Global, journal: &mut Journal<D>) -> Result<(), BeginFault>
    requires sound { IsSound journal.old }
    requires newest { journal.old.format ≡ newest }
    requires whole { is_broken journal.old ≡ false }
    requires settled { IsTrue D.tells → IsSettled D.view journal.old }
    requires bare { length_of journal.old ≡ 9 }
    ensures told { TellsSetup D.view D.tells journal.old journal.new (body_of follows) result }
    ensures newest { journal.new.format ≡ newest }
    ensures sound { IsSound journal.new }
    ensures whole { OnOk result (is_broken journal.new ≡ false) }
{
    let Ok(body) = encode(alloc, &Recorded::Follow) else {
        return Err(BeginFault::Memory);
    };
    if journal.room(1).is_err() {
        return Err(BeginFault::Memory);
    }
    match added(journal, body.as_slice()) {
        Ok(()) => Ok(()),
        Err(_) => Err(BeginFault::DiskFault),
    }
}

// Makes the book of the records. A journal without records is told that the shelf follows another one's, if it is to.
fn open_bare<D: Disk>(
    alloc: Global,
    journal: &mut Journal<D>,
    number: u32,
    fed: bool,
    notes: &mut FileNotes,
    follower: &mut Option<Follower>,
) -> Result<(Book, Library), BeginFault>
    requires sound { IsSound journal.old }
    requires newest { journal.old.format ≡ newest }
    requires noted { IsNoted notes.old }
    requires whole { is_broken journal.old ≡ false }
    requires settled { IsTrue D.tells → IsSettled D.view journal.old }
    requires leads { follower.old ≡ None }
    ensures opened { OpensParts D.view D.tells fed number journal.old journal.new
        follower.new notes.new result }
    ensures noted { IsNoted notes.new }
    ensures newest { journal.new.format ≡ newest }
    ensures sound { IsSound journal.new }
    ensures whole { OnOk result (is_broken journal.new ≡ false) }
{
    records_are_exact();
    let Ok(read) = read_book(alloc, journal, number) else {
        return Err(BeginFault::DiskFault);
    };
    let ReadBook {
        found,
        notes: known,
        anew: _,
        follows,
        seen,
        alone,
    } = read;
    if follows {
        *follower = Some(follower_of(&found, alone, seen));
        return go_on_fed(alloc, number, found, known, notes);
    }
    if let Found::Nothing = &found {
        if fed && journal.len() == BARE {
            if let Err(fault) = tell_role(alloc, journal) {
                return Err(fault);
            }
            *follower = Some(Follower {
                seen,
                fed: Fed::Waits,
                fallen: None,
            });
        }
    }
    go_on_fed(alloc, number, found, known, notes)
}

impl<F: Disk, N: Nonces + Drop> Shelf<Disks<F>, N> {
    ghost use Rattle.shelf.specs.Opening.{IsOfNow, LeavesOwn, TellsCause, HasRoomFor, disk_of, nonces_of};
    ghost use Rattle.shelf.specs.Following.{IsOpen, IsReadable};
    ghost use Rattle.shelf.specs.Reopening.{OpensBare, HoldsRecordsThroughout, StaysBare, StaysOrMigrates, TellsBareFault, KeepsBareDisk};

    /// Opens the shelf of these limits, which are in their ranges, on three disks, as `begin` does, with the last setup that their journal
    /// tells. Where it tells none, nor that the shelf follows another one's journal, the shelf has not begun: its journal can be read, and it can
    /// be closed.
    pub fn reopen(
        alloc: Global,
        disks: Disks<F>,
        nonces: N,
        rules: Rules,
    ) -> Result<Shelf<Disks<F>, N>, (BeginFault, Disks<F>, N)>
        requires fresh { disks.known ≡ false }
        requires range { AreInRange rules }
        ensures opened { IsTrue F.tells → OpensBare trio_view false rules.number disks result }
        ensures open { IfOk result (IsOpen trio_view F.tells) }
        ensures readable { IfOk result (IsReadable trio_view F.tells) }
        ensures any_moment { IsTrue F.tells → IsOfNow (trio_view disks)
            → StaysBare trio_view rules.number disks result }
        ensures records { IsTrue F.tells → IsOfNow (trio_view disks)
            → HoldsRecordsThroughout trio_view false disks result }
        ensures migration { IsTrue F.tells → StaysOrMigrates trio_view rules.number disks result }
        ensures own_moments { IsTrue F.tells → LeavesOwn trio_view rules.number disks result }
        ensures rules { IfOk result (λ s. s.rules ≡ rules) }
        ensures nonces { nonces_of result ≡ nonces }
        ensures refused { IsTrue F.tells → TellsBareFault trio_view rules.number disks result }
        ensures keeps { IsTrue F.tells → KeepsBareDisk trio_view false rules.number disks result }
        ensures fits { IsTrue F.tells
            → OnOk result (HasRoomFor rules.number (trio_view disks).seen) }
        ensures cause { TellsCause trio_view disks result }
        ensures later { (trio_view disks).faults ≤ (trio_view (disk_of result)).faults }
    {
        Shelf::open_as(alloc, disks, nonces, rules, false)
    }

    /// Opens the shelf as `reopen` does; where the disks have no record, it follows another one's journal from then on, which they tell.
    pub fn follow(
        alloc: Global,
        disks: Disks<F>,
        nonces: N,
        rules: Rules,
    ) -> Result<Shelf<Disks<F>, N>, (BeginFault, Disks<F>, N)>
        requires fresh { disks.known ≡ false }
        requires range { AreInRange rules }
        ensures opened { IsTrue F.tells → OpensBare trio_view true rules.number disks result }
        ensures open { IfOk result (IsOpen trio_view F.tells) }
        ensures readable { IfOk result (IsReadable trio_view F.tells) }
        ensures any_moment { IsTrue F.tells → IsOfNow (trio_view disks)
            → StaysBare trio_view rules.number disks result }
        ensures records { IsTrue F.tells → IsOfNow (trio_view disks)
            → HoldsRecordsThroughout trio_view true disks result }
        ensures migration { IsTrue F.tells → StaysOrMigrates trio_view rules.number disks result }
        ensures own_moments { IsTrue F.tells → LeavesOwn trio_view rules.number disks result }
        ensures rules { IfOk result (λ s. s.rules ≡ rules) }
        ensures nonces { nonces_of result ≡ nonces }
        ensures refused { IsTrue F.tells → TellsBareFault trio_view rules.number disks result }
        ensures keeps { IsTrue F.tells → KeepsBareDisk trio_view true rules.number disks result }
        ensures fits { IsTrue F.tells
            → OnOk result (HasRoomFor rules.number (trio_view disks).seen) }
        ensures cause { TellsCause trio_view disks result }
        ensures later { (trio_view disks).faults ≤ (trio_view (disk_of result)).faults }
    {
        Shelf::open_as(alloc, disks, nonces, rules, true)
    }

    // Opens the shelf; where the disks have no record, it follows another one's journal, if it is to.
    fn open_as(
        alloc: Global,
        disks: Disks<F>,
        nonces: N,
        rules: Rules,
        fed: bool,
    ) -> Result<Shelf<Disks<F>, N>, (BeginFault, Disks<F>, N)>
        requires fresh { disks.known ≡ false }
        requires range { AreInRange rules }
        ensures opened { IsTrue F.tells → OpensBare trio_view fed rules.number disks result }
        ensures open { IfOk result (IsOpen trio_view F.tells) }
        ensures readable { IfOk result (IsReadable trio_view F.tells) }
        ensures any_moment { IsTrue F.tells → IsOfNow (trio_view disks)
            → StaysBare trio_view rules.number disks result }
        ensures records { IsTrue F.tells → IsOfNow (trio_view disks)
            → HoldsRecordsThroughout trio_view fed disks result }
        ensures migration { IsTrue F.tells → StaysOrMigrates trio_view rules.number disks result }
        ensures own_moments { IsTrue F.tells → LeavesOwn trio_view rules.number disks result }
        ensures rules { IfOk result (λ s. s.rules ≡ rules) }
        ensures nonces { nonces_of result ≡ nonces }
        ensures refused { IsTrue F.tells → TellsBareFault trio_view rules.number disks result }
        ensures keeps { IsTrue F.tells → KeepsBareDisk trio_view fed rules.number disks result }
        ensures fits { IsTrue F.tells
            → OnOk result (HasRoomFor rules.number (trio_view disks).seen) }
        ensures cause { TellsCause trio_view disks result }
        ensures later { (trio_view disks).faults ≤ (trio_view (disk_of result)).faults }
    {
        records_are_exact();
        openings_stay::<Disks<F>>();
        recoveries_find_one::<Disks<F>>();
        let mut journal = match Journal::begin_on(alloc, disks) {
            Ok(journal) => journal,
            Err((fault, disks)) => return Err((fault_by(fault), disks, nonces)),
        };
        if let Err(fault) = migrated(alloc, &mut journal, rules.number) {
            return Err((fault, journal.close(), nonces));
        }
        let mut notes = FileNotes::none(alloc);
        let mut follower = None;
        match open_bare(
            alloc,
            &mut journal,
            rules.number,
            fed,
            &mut notes,
            &mut follower,
        ) {
            Ok((book, library)) => Ok(Shelf {
                journal,
                book,
                library,
                down: None,
                nonces,
                rules,
                notes,
                follower,
            }),
            Err(fault) => Err((fault, journal.close(), nonces)),
        }
    }
}
