ghost use Rattle.std.specs.Prelude.{◌≡◌, true, false, IsTrue, IfOk, IfErr, OnOk};
ghost use Rattle.disk_trio.specs.Trio.{trio_view};
ghost use Rattle.page_journal.specs.Records.{newest, is_format};
ghost use Rattle.page_journal.specs.Settled.{IsSettled, IsSound, is_broken};
ghost use Rattle.shelf.specs.Migrating.{StaysOf, IsNoBook, HasLow, anew_by, IsFileAnew, IsNoneAnew, Migrates};

use crate::begin::BeginFault;
use crate::compaction::replaced;
use book_recovery::journal_laws::{
    copies_are_own, migrations_make_the_book, migrations_stand_between,
};
use book_recovery::{Found, ReadBook, read_book};
use disk_trio::Disks;
use file_copies::{CopyFault, file_of, sizes_of};
use journal_records::{Recorded, encode, records_are_exact};
use page_journal::{Journal, MAX_LEN, NEWEST_FORMAT};
use script_value::Bytes;
use std::alloc::Global;
use web_disk::Disk;

// The bytes of a file, and how long its longest body is at most.
#[derive(Drop)]
pub(crate) struct FileAnew {
    bytes: Vec<u8>,
    longest: u64,
}

// Which records stay of a file that was read, and the number that is told of it; or why there is no book.
fn stays(alloc: Global, read: &ReadBook) -> Result<(Vec<bool>, u64), BeginFault>
    ensures stays { IfOk result (StaysOf read.now) }
    ensures none { IfErr result (IsNoBook read.now) }
{
    match &read.found {
        Found::Nothing => Ok((Vec::new(alloc), 0)),
        Found::Made { book, .. } => match read.notes.plan(alloc, book) {
            Ok(plan) => Ok((plan, book.logged())),
            Err(_) => Err(BeginFault::Memory),
        },
        Found::Damaged { place } => Err(BeginFault::Damaged { place: *place }),
        Found::Other { place } => Err(BeginFault::Other { place: *place }),
        Found::Memory => Err(BeginFault::Memory),
    }
}

// The bodies that the newest format has of what was read; none where there was no record.
fn bodies_anew(read: &ReadBook) -> &[Bytes]
    ensures { result.now ≡ anew_by read.now.found read.now.anew.items }
{
    match &read.found {
        Found::Nothing => &read.anew.as_slice()[..0],
        _ => read.anew.as_slice(),
    }
}

// The file of the newest format with the records that stay of one that was read; or why there is none: the records make no book, it would be
// too long, or there was no memory.
fn file_anew(alloc: Global, read: &ReadBook) -> Result<FileAnew, BeginFault>
    requires number { HasLow read.now }
    ensures file { IfOk result (IsFileAnew read.now) }
    ensures none { IfErr result (IsNoneAnew read.now) }
{
    let (plan, logged) = match stays(alloc, read) {
        Ok(stays) => stays,
        Err(fault) => return Err(fault),
    };
    let Ok(number) = encode(alloc, &Recorded::Drawn { number: logged }) else {
        return Err(BeginFault::Memory);
    };
    let bodies = bodies_anew(read);
    let Some(sizes) = sizes_of(bodies, plan.as_slice(), number.as_slice()) else {
        return Err(BeginFault::Memory);
    };
    if sizes.len > MAX_LEN {
        return Err(BeginFault::Full { len: sizes.len });
    }
    match file_of(alloc, bodies, plan.as_slice(), number.as_slice(), sizes) {
        Ok(bytes) => Ok(FileAnew {
            bytes,
            longest: sizes.longest,
        }),
        Err(_) => Err(BeginFault::Memory),
    }
}

// Where a journal is of an older format, its file gives place to one of the newest, with the records of live instances and the setups.
pub(crate) fn migrated<F: Disk>(
    alloc: Global,
    journal: &mut Journal<Disks<F>>,
    shelf: u32,
) -> Result<(), BeginFault>
    requires sound { IsSound journal.old }
    requires known { is_format journal.old.format ≡ true }
    requires whole { is_broken journal.old ≡ false }
    requires settled { IsTrue F.tells → IsSettled trio_view journal.old }
    ensures migrates { Migrates trio_view F.tells shelf journal.old journal.new result }
    ensures newest { OnOk result (journal.new.format ≡ newest) }
    ensures whole { OnOk result (is_broken journal.new ≡ false) }
    ensures sound { IsSound journal.new }
{
    records_are_exact();
    copies_are_own();
    migrations_make_the_book();
    migrations_stand_between();
    if journal.format() == NEWEST_FORMAT {
        return Ok(());
    }
    let Ok(read) = read_book(alloc, journal, shelf) else {
        return Err(BeginFault::DiskFault);
    };
    let file = match file_anew(alloc, &read) {
        Ok(file) => file,
        Err(fault) => return Err(fault),
    };
    match replaced(journal, &file.bytes, file.longest) {
        Ok(()) => Ok(()),
        Err(CopyFault::Memory) => Err(BeginFault::Memory),
        Err(CopyFault::DiskFault) => Err(BeginFault::DiskFault),
    }
}
