ghost use Rattle.std.specs.Prelude.{◌≡◌, true, IsTrue, IfOk, IfSome, OnOk, OnErr, IsErrOf};
ghost use Rattle.web_disk.specs.View.{Only};
ghost use Rattle.page_journal.specs.Records.{is_format, stored};
ghost use Rattle.page_journal.specs.Opened.{IsFault};
ghost use Rattle.page_journal.specs.Scanned.{IsQuiet};
ghost use Rattle.page_journal.specs.Settled.{HasFailed};
ghost use Rattle.page_journal.specs.Stored.{IsUnwritten, AreStored, IsFoundOn};
ghost use Rattle.page_journal.specs.Taken.{TakesFront};
ghost use Rattle.page_journal.specs.Calls.{TakesSome, TakesStored};

use crate::JournalFault;
use crate::each::{DiskFault, Take, hand_on};
use crate::scan::{Extent, read_gates};
use std::alloc::Global;
use web_disk::Disk;

/// The records of a journal as they stand on a disk, of which nothing is mended.
#[derive(Drop)]
pub struct StoredRecords {
    pub(crate) format: u8,
    // The length of the file, with what stands after the records.
    pub(crate) len: u64,
    // Its room is enough for the longest record.
    pub(crate) buffer: Vec<u8>,
}

/// Puts on a disk what was written to it, and finds the records that stand there; none on an empty disk. Nothing is written.
pub fn find_records<D: Disk>(
    alloc: Global,
    disk: &mut D,
) -> Result<Option<StoredRecords>, JournalFault>
    ensures found { IsTrue D.tells → IfOk result (λ found. IsFoundOn (D.view disk.old).seen found) }
    ensures known { IfOk result (λ found. IfSome found (λ records.
        is_format records.format ≡ true)) }
    ensures refused { IsTrue D.tells → IsFault (D.view disk.old) (D.view disk.new) result }
    ensures durable { OnOk result (Only (D.view disk.old).seen (D.view disk.new)) }
    ensures seen { (D.view disk.new).seen ≡ (D.view disk.old).seen }
    ensures unwritten { IsUnwritten (D.view disk.old) (D.view disk.new) }
    ensures cause { IsErrOf result JournalFault.DiskFault →
        HasFailed (D.view disk.old) (D.view disk.new) }
{
    let len = disk.len()?;
    disk.room(len)?;
    disk.sync()?;
    if len == 0 {
        return Ok(None);
    }
    match read_gates(disk, len)? {
        Extent::Broken { place } => Err(JournalFault::Damaged { place }),
        Extent::Ends {
            place: _,
            gate: _,
            longest,
            format,
        } => {
            let buffer = Vec::with_capacity(alloc, longest as usize)?;
            Ok(Some(StoredRecords {
                format,
                len,
                buffer,
            }))
        }
    }
}

impl StoredRecords {
    /// Hands on each record, in order, to a taker that is ready for the first gate. It takes no memory.
    pub fn for_each<D: Disk, T: Take>(
        &mut self,
        disk: &mut D,
        taker: &mut T,
    ) -> Result<(), DiskFault>
        requires stored { IsTrue D.tells → AreStored (D.view disk.old).seen self.old }
        requires ready { T.ready taker.old 8 }
        ensures taken { TakesStored D.tells T.takes taker.old (D.view disk.old) result taker.new }
        ensures front { IsTrue D.tells →
            TakesFront T.takes taker.old (stored (D.view disk.old).seen) taker.new }
        // What follows holds of a disk that does not tell its bytes too, and where a call of it failed.
        ensures handed { TakesSome T.takes taker.old taker.new }
        ensures quiet { IsQuiet (D.view disk.old) (D.view disk.new) }
        ensures format { self.new.format ≡ self.old.format }
        ensures stored { IsTrue D.tells → AreStored (D.view disk.new).seen self.new }
        ensures cause { OnErr result (HasFailed (D.view disk.old) (D.view disk.new)) }
    {
        hand_on(disk, &mut self.buffer, self.len, taker)
    }

    /// The format of the file.
    pub fn format(&self) -> u8
        ensures { result ≡ self.now.format }
    {
        self.format
    }
}
