ghost use Rattle.std.specs.Prelude.{◌≡◌, ◌<◌, ◌≤◌, ◌+◌, ◌^◌, false, IsTrue, IfOk, OnOk, IfErr};
ghost use Rattle.script_nodes.specs.Views.{library_of};
ghost use Rattle.disk_trio.specs.Trio.{trio_view};
ghost use Rattle.page_journal.specs.Replacing.{IsWholeFile};
ghost use Rattle.page_journal.specs.Scanned.{IsQuiet};
ghost use Rattle.page_journal.specs.Settled.{IsSettled, IsSound, view_of, length_of, is_broken};
ghost use Rattle.journal_records.specs.Fields.{numbers_end};
ghost use Rattle.file_copies.specs.OfFileNotes.Files.{IsNoted};
ghost use Rattle.shelf.specs.Compacting.{IsPlanOf, IsPlannedFor, IsTooLongFor, IsWholeCopy, Replaces};
ghost use Rattle.shelf.specs.Calls.{CountsInCopy, FailsInCopy, IsCopyIn, RewritesFor};

use crate::doubt::{Doubt, Work};
use crate::shelf::Shelf;
use book_recovery::books::Book;
use book_recovery::journal_laws::{
    books_stand_alike, compactions_stand_between, copies_are_own, copies_make_the_book,
};
use disk_trio::Disks;
use file_copies::{CopyFault, FileNotes, compacted_file};
use journal_records::{Recorded, encode, records_are_exact};
use page_journal::{Journal, MAX_LEN};
use script_nodes::Library;
use script_value::Reply;
use std::alloc::Global;
use web_disk::Disk;
use web_outside::Nonces;

// Which records stay, and what is known of the file that has them.
#[derive(Drop)]
pub(crate) struct Planned {
    plan: Vec<bool>,
    notes: FileNotes,
    // How long the file is, and its longest body at most.
    len: u64,
    longest: u64,
}

// Why a file is not compacted.
#[derive(Clone, Copy)]
pub(crate) enum CompactFault {
    // It would be so long.
    TooLong(u64),
    DiskFault,
    Memory,
}

// What a file has when it is compacted, or why it is not: it would be too long, or there was no memory.
fn plan_file(
    alloc: Global,
    notes: &FileNotes,
    book: &Book,
    library: &Library,
) -> Result<Planned, CompactFault>
    requires noted { IsNoted notes.now }
    ensures plan { IfOk result (IsPlannedFor (library_of library.now) book.now notes.now) }
    ensures refused { IfErr result (IsTooLongFor (library_of library.now) book.now notes.now) }
{
    let Ok(plan) = notes.plan(alloc, book) else {
        return Err(CompactFault::Memory);
    };
    let Ok(kept) = notes.compacted(alloc, plan.as_slice(), book, library) else {
        return Err(CompactFault::Memory);
    };
    let Some(len) = kept.total() else {
        return Err(CompactFault::Memory);
    };
    if len > MAX_LEN {
        return Err(CompactFault::TooLong(len));
    }
    let longest = kept.longest();
    Ok(Planned {
        plan,
        notes: kept,
        len,
        longest,
    })
}

// The bytes of the compacted file, as planned. Nothing is written to a disk.
fn copied<F: Disk>(
    alloc: Global,
    journal: &mut Journal<Disks<F>>,
    notes: &FileNotes,
    number: u64,
    planned: &Planned,
) -> Result<Vec<u8>, CopyFault>
    requires sound { IsSound journal.old }
    requires settled { IsTrue F.tells → IsSettled trio_view journal.old }
    requires number { number < numbers_end + 1 }
    requires planned { IsPlanOf notes.now planned.now }
    ensures file { IfOk result (IsWholeCopy planned.now) }
    ensures copy { IsTrue F.tells →
        IfOk result (IsCopyIn trio_view journal.old notes.now planned.now number) }
    ensures quiet { IsQuiet (view_of trio_view journal.old) (view_of trio_view journal.new) }
    ensures faults { OnOk result ((view_of trio_view journal.new).faults ≡ (view_of trio_view journal.old).faults) }
    ensures len { length_of journal.new ≡ length_of journal.old }
    ensures whole { is_broken journal.new ≡ is_broken journal.old }
    ensures format { journal.new.format ≡ journal.old.format }
    ensures sound { IsSound journal.new }
    ensures settled { IsTrue F.tells → IsSettled trio_view journal.new }
    ensures cause { FailsInCopy trio_view journal.old journal.new result }
    ensures memory { CountsInCopy trio_view journal.old journal.new result }
{
    let Ok(body) = encode(alloc, &Recorded::Drawn { number }) else {
        return Err(CopyFault::Memory);
    };
    compacted_file(
        alloc,
        journal,
        notes,
        planned.plan.as_slice(),
        body.as_slice(),
        planned.len,
        planned.longest,
    )
}

// Puts the compacted file in the place of the journal's, where there is room for it.
pub(crate) fn replaced<F: Disk>(
    journal: &mut Journal<Disks<F>>,
    file: &[u8],
    longest: u64,
) -> Result<(), CopyFault>
    requires sound { IsSound journal.old }
    requires settled { IsTrue F.tells → IsSettled trio_view journal.old }
    requires whole { is_broken journal.old ≡ false }
    requires longest { longest ≤ 2 ^ 30 }
    requires file { IsWholeFile file.now longest }
    ensures sound { IsSound journal.new }
    ensures replaces { Replaces trio_view F.tells journal.old journal.new file.now result }
{
    if journal.room_to_replace(file.len() as u64, longest).is_err() {
        return Err(CopyFault::Memory);
    }
    match journal.replace(file) {
        Ok(()) => Ok(()),
        Err(_) => Err(CopyFault::DiskFault),
    }
}

// Copies the records that stay into the other file, and turns to it.
fn rewritten<F: Disk>(
    alloc: Global,
    journal: &mut Journal<Disks<F>>,
    notes: &FileNotes,
    book: &Book,
    library: &Library,
) -> Result<FileNotes, CompactFault>
    requires sound { IsSound journal.old }
    requires settled { IsTrue F.tells → IsSettled trio_view journal.old }
    requires whole { is_broken journal.old ≡ false }
    requires noted { IsNoted notes.now }
    requires number { book.now.logged ≤ 2 ^ 62 }
    ensures rewritten { RewritesFor trio_view F.tells journal.old journal.new
        notes.now book.now library.now result }
    ensures sound { IsSound journal.new }
{
    let planned = match plan_file(alloc, notes, book, library) {
        Ok(planned) => planned,
        Err(fault) => return Err(fault),
    };
    let file = match copied(alloc, journal, notes, book.logged(), &planned) {
        Ok(file) => file,
        Err(CopyFault::Memory) => return Err(CompactFault::Memory),
        Err(CopyFault::DiskFault) => return Err(CompactFault::DiskFault),
    };
    let Planned {
        plan: _,
        notes: kept,
        len: _,
        longest,
    } = planned;
    match replaced(journal, &file, longest) {
        Ok(()) => Ok(kept),
        Err(CopyFault::Memory) => Err(CompactFault::Memory),
        Err(CopyFault::DiskFault) => Err(CompactFault::DiskFault),
    }
}

impl<F: Disk, N: Nonces + Drop> Shelf<Disks<F>, N> {
    ghost use Rattle.shelf.specs.Views.{IsInOrder, IsOwnShelf, compacted_of as answer_of};
    ghost use Rattle.shelf.specs.Tickets.{KeepsTickets};
    ghost use Rattle.shelf.specs.Events.{IsCompaction, HasMoments, HasOwnMoments, TellsFaults, LeavesItsDisk, CountsOn};

    /// Puts a file in the place of the journal's that has the records of live instances and the setups alone, with the number that is
    /// drawn next. It tells how long that is.
    ///
    /// A shelf that is down is told first, then one that follows another one's journal, and then a file that would be too long, which
    /// leaves the shelf as it was. Where the disk fails, the one file stands there or the other, and the shelf is down until it is
    /// opened again. Want of memory changes nothing. A reply that tells neither a compaction nor a fault of the disk leaves the disk
    /// alone.
    pub fn compact(&mut self, alloc: Global) -> Result<u64, Reply>
        requires in_order { IsInOrder trio_view F.tells self.old }
        ensures event { IsCompaction trio_view N.nonce self.old self.new result }
        ensures in_order { IsInOrder trio_view F.tells self.new }
        ensures tickets { KeepsTickets trio_view self.old self.new }
        ensures own { IsOwnShelf trio_view F.tells self.old → IsOwnShelf trio_view F.tells self.new }
        ensures any_moment { IsTrue F.tells → HasMoments trio_view self.old self.new }
        ensures own_moments { IsTrue F.tells → IsOwnShelf trio_view F.tells self.old
            → HasOwnMoments trio_view self.old self.new }
        ensures cause { TellsFaults trio_view self.old self.new (answer_of result) }
        ensures quiet { LeavesItsDisk trio_view self.old self.new (answer_of result) }
        ensures later { CountsOn trio_view self.old self.new }
        ensures length { IfOk result (λ n. n ≡ length_of self.new.journal) }
        ensures nonces { self.new.nonces ≡ self.old.nonces }
        ensures library { self.new.library ≡ self.old.library }
        ensures rules { self.new.rules ≡ self.old.rules }
    {
        books_stand_alike();
        compactions_stand_between();
        copies_are_own();
        copies_make_the_book();
        records_are_exact();
        if let Some(reply) = self.barred() {
            return Err(reply);
        }
        match rewritten(
            alloc,
            &mut self.journal,
            &self.notes,
            &self.book,
            &self.library,
        ) {
            Ok(notes) => {
                self.notes = notes;
                Ok(self.journal.len())
            }
            Err(CompactFault::TooLong(len)) => Err(Reply::JournalFull(len)),
            Err(CompactFault::Memory) => Err(Reply::Memory),
            Err(CompactFault::DiskFault) => {
                let count = self.journal.faults();
                self.down = Some(Doubt {
                    count,
                    work: Work::Compacts,
                });
                Err(Reply::DiskFault(count))
            }
        }
    }
}
