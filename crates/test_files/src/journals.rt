ghost use Rattle.std.specs.Prelude.{◌≡◌, false, IsTrue, IfOk, OnOk};
ghost use Rattle.disk_trio.specs.Trio.{trio_view};
ghost use Rattle.page_journal.specs.Settled.{IsSettled, IsSound, is_broken};

use disk_trio::Disks;
use page_journal::{DiskFault, Journal, Take};
use std::alloc::Global;
use std::test::Fail;
use web_disk::{Disk, MemoryDisk, Wreck};

// The records `abc`, `de` and `f` after open gates, and a closed gate.
const RECORDS: &[u8] = &[
    1, 3, 0, 0, 0, b'a', b'b', b'c', 1, 2, 0, 0, 0, b'd', b'e', 1, 1, 0, 0, 0, b'f', 0,
];

/// What is read of these records.
pub const EARLIER: &[u8] = b",abc,de,f";

/// A file of the records `xyz` and one without bytes, which takes the place of another file.
pub const NEXT: &[u8] = &[
    75, 83, 87, 69, 66, 0, 0, 6, 1, 3, 0, 0, 0, b'x', b'y', b'z', 1, 0, 0, 0, 0, 0,
];

/// What is read of its records.
pub const LATER: &[u8] = b",xyz,";

/// The file of the earlier records in this format.
pub fn file_of(alloc: Global, format: u8) -> Result<Vec<u8>, Fail> {
    let mut bytes = b"KSWEB\0\0".to_vec(alloc)?;
    bytes.push(format)?;
    bytes.extend_from_slice(RECORDS)?;
    Ok(bytes)
}

/// Puts records one after the other, each after a comma.
#[derive(Drop)]
pub struct Reader {
    text: Vec<u8>,
    failed: bool,
}

impl Reader {
    /// One that has read nothing.
    pub fn new(alloc: Global) -> Reader {
        Reader {
            text: Vec::new(alloc),
            failed: false,
        }
    }

    /// The records, unless memory ran out.
    pub fn finish(self) -> Option<Vec<u8>> {
        if self.failed { None } else { Some(self.text) }
    }
}

impl Take for Reader {
    ghost takes = { λ old place body new. Unit {0} };

    ghost ready = { λ old place. Unit {0} };

    fn body(&mut self, _place: u64, body: &[u8]) {
        if self.text.push(b',').is_err() || self.text.extend_from_slice(body).is_err() {
            self.failed = true;
        }
    }
}

/// The records of a journal, each after a comma.
pub fn read<D: Disk>(alloc: Global, journal: &mut Journal<D>) -> Result<Vec<u8>, Fail>
    requires sound { IsSound journal.old }
    requires settled { IsTrue D.tells → IsSettled D.view journal.old }
    ensures sound { OnOk result (IsSound journal.new) }
    ensures settled { IsTrue D.tells → OnOk result (IsSettled D.view journal.new) }
    ensures whole { is_broken journal.new ≡ is_broken journal.old }
{
    let mut reader = Reader::new(alloc);
    journal.for_each(&mut reader)?;
    match reader.finish() {
        Some(text) => Ok(text),
        None => Err(Fail::from("memory")),
    }
}

/// Opens the journal of three disks.
pub fn opened<D: Disk + Drop>(alloc: Global, disks: Disks<D>) -> Result<Journal<Disks<D>>, Fail>
    ensures sound { IfOk result (λ j. IsSound j) }
    ensures settled { IsTrue D.tells → IfOk result (λ j. IsSettled trio_view j) }
    ensures whole { IfOk result (λ j. is_broken j ≡ false) }
{
    match Journal::begin_on(alloc, disks.renew()) {
        Ok(journal) => Ok(journal),
        Err((fault, _)) => Err(Fail::from(fault)),
    }
}

/// Adds a record.
pub fn add<D: Disk>(journal: &mut Journal<D>, body: &[u8]) -> Result<(), Fail>
    requires sound { IsSound journal.old }
    requires settled { IsTrue D.tells → IsSettled D.view journal.old }
    requires whole { is_broken journal.old ≡ false }
    ensures sound { OnOk result (IsSound journal.new) }
    ensures settled { IsTrue D.tells → OnOk result (IsSettled D.view journal.new) }
    ensures whole { OnOk result (is_broken journal.new ≡ false) }
{
    let Ok(size) = u32::try_from(body.len()) else {
        return Err(Fail::from("a long body"));
    };
    journal.room(size)?;
    journal.append(body)?;
    Ok(())
}

/// Puts the next file in the place of a journal's own.
pub fn replaced<D: Disk>(journal: &mut Journal<Disks<D>>) -> Result<Result<(), DiskFault>, Fail>
    requires sound { IsSound journal.old }
    requires settled { IsTrue D.tells → IsSettled trio_view journal.old }
    requires whole { is_broken journal.old ≡ false }
    ensures sound { IsSound journal.new }
    ensures done { IsTrue D.tells →
        IfOk result (λ done. OnOk done (IsSettled trio_view journal.new)) }
    ensures whole { IfOk result (λ done. OnOk done (is_broken journal.new ≡ false)) }
{
    journal.room_to_replace(NEXT.len() as u64, 3)?;
    Ok(journal.replace(NEXT))
}

/// How the calls of a disk go.
#[derive(Clone, Copy)]
pub enum Calls {
    /// Each does its work.
    All,
    /// From this one on they fail and do nothing.
    StopAt(u64),
    /// This one fails, and may have done some of its work.
    Fail(u64),
}

/// A disk with these bytes, whose calls go so.
pub fn disk_of(alloc: Global, bytes: &[u8], calls: Calls) -> Result<MemoryDisk, Fail> {
    let mut failing = Vec::new(alloc);
    if let Calls::Fail(number) = calls {
        failing.push(number)?;
    }
    let mut disk = MemoryDisk::new(alloc, bytes.to_vec(alloc)?, failing)?;
    if let Calls::StopAt(number) = calls {
        disk.stop_at(number);
    }
    Ok(disk)
}

// What such a crash leaves of a disk.
fn left(alloc: Global, disk: MemoryDisk, wreck: Wreck) -> Result<MemoryDisk, Fail> {
    Ok(MemoryDisk::new(alloc, disk.crash(wreck), Vec::new(alloc))?)
}

/// What such a crash leaves of three disks.
pub fn crashed(
    alloc: Global,
    disks: Disks<MemoryDisk>,
    wreck: Wreck,
) -> Result<Disks<MemoryDisk>, Fail> {
    let (a, b, root) = disks.close();
    Ok(Disks::new(
        left(alloc, a, wreck)?,
        left(alloc, b, wreck)?,
        left(alloc, root, wreck)?,
    ))
}
