ghost use Rattle.std.specs.Prelude.{false, true, ◌≡◌, ◌<◌, ◌≤◌, ◌+◌, ◌^◌, [], length, IsTrue, IfOk, OnOk, IsErrOf};
ghost use Rattle.page_journal.specs.Holding.{MayHoldNowAndThroughout, ClosedNowAndThroughout, EitherNowAndThroughout, IsBeforeOrWith, IsOneOfEither};
ghost use Rattle.page_journal.specs.Records.{Damaged, is_format, newest, records, stored};
ghost use Rattle.page_journal.specs.Opened.{IsOpened, IsFault};
ghost use Rattle.page_journal.specs.declared.repair.JournalFault.TheVariants.{DiskFault as OpenDiskFault, Memory as OpenMemory};
ghost use Rattle.page_journal.specs.Settled.{HasFailed};

use crate::mend::{create, settle};
use crate::scan::{Extent, read_gates};
use crate::{Journal, NEWEST_FORMAT};
use std::alloc::{AllocError, Global};
use thiserror::Error;
use web_disk::Disk;
use web_outside::Failed;

/// Why a journal was not opened.
#[derive(Clone, Copy, Debug, PartialEq, Eq, Error)]
pub enum JournalFault {
    /// At this place the bytes are no journal's.
    #[error("the bytes at {place} are no journal's")]
    Damaged { place: u64 },
    /// A call of the disk failed.
    #[error("a call of the disk failed")]
    DiskFault,
    /// There was no memory; nothing was written.
    #[error("memory ran out")]
    Memory,
}

impl From<Failed> for JournalFault {
    ghost from_gives = { λ _ fault. fault ≡ OpenDiskFault };

    fn from(_: Failed) -> Self {
        JournalFault::DiskFault
    }
}

impl From<AllocError> for JournalFault {
    ghost from_gives = { λ _ fault. fault ≡ OpenMemory };

    fn from(_: AllocError) -> Self {
        JournalFault::Memory
    }
}

/// What an opened journal goes on with: the place of the closed gate, and a buffer with room for the longest record.
#[derive(Drop)]
pub struct Opening {
    pub format: u8,
    pub end: u64,
    pub buffer: Vec<u8>,
}

/// Reads the records of a disk that is not empty, and mends its end.
pub fn recover<D: Disk>(alloc: Global, disk: &mut D, len: u64) -> Result<Opening, JournalFault>
    requires len { IsTrue D.tells → len ≡ length (D.view disk.old).seen }
    requires filled { 0 < len }
    requires ready { 5 ≤ (D.view disk.old).ready }
    requires end { len ≤ (D.view disk.old).end }
    requires left { 1 ≤ (D.view disk.old).left }
    ensures fits { IfOk result (λ opening. opening.end + 1 ≤ 2 ^ 30) }
    ensures known { IfOk result (λ opening. is_format opening.format ≡ true) }
    ensures opened { IsTrue D.tells →
        IfOk result (λ opening. IsOpened (D.view disk.old) (D.view disk.new) opening) }
    ensures refused { IsTrue D.tells → IsFault (D.view disk.old) (D.view disk.new) result }
    ensures cause { IsErrOf result JournalFault.DiskFault →
        HasFailed (D.view disk.old) (D.view disk.new) }
    ensures any_moment { IsTrue D.tells →
        MayHoldNowAndThroughout (D.view disk.old) (D.view disk.new) }
    ensures closed_stays { IsTrue D.tells →
        ClosedNowAndThroughout (D.view disk.old) (D.view disk.new) }
    ensures either_stays { IsTrue D.tells →
        EitherNowAndThroughout (D.view disk.old) (D.view disk.new) }
    ensures later { (D.view disk.old).faults ≤ (D.view disk.new).faults }
{
    disk.sync()?;
    match read_gates(disk, len)? {
        Extent::Broken { place } => Err(JournalFault::Damaged { place }),
        Extent::Ends {
            place,
            gate,
            longest,
            format,
        } => {
            let buffer = Vec::with_capacity(alloc, longest as usize)?;
            settle(disk, place, gate)?;
            Ok(Opening {
                format,
                end: place,
                buffer,
            })
        }
    }
}

/// Reads the records of any disk, and mends its end. An empty one gets a journal with no records.
pub fn recover_or_create<D: Disk>(alloc: Global, disk: &mut D) -> Result<Opening, JournalFault>
    ensures fits { IfOk result (λ opening. opening.end + 1 ≤ 2 ^ 30) }
    ensures known { IfOk result (λ opening. is_format opening.format ≡ true) }
    ensures opened { IsTrue D.tells →
        IfOk result (λ opening. IsOpened (D.view disk.old) (D.view disk.new) opening) }
    ensures fresh { IsTrue D.tells → (D.view disk.old).seen ≡ []
        → IfOk result (λ opening. opening.format ≡ newest) }
    ensures refused { IsTrue D.tells → IsFault (D.view disk.old) (D.view disk.new) result }
    ensures cause { IsErrOf result JournalFault.DiskFault →
        HasFailed (D.view disk.old) (D.view disk.new) }
    ensures any_moment { IsTrue D.tells →
        MayHoldNowAndThroughout (D.view disk.old) (D.view disk.new) }
    ensures closed_stays { IsTrue D.tells →
        ClosedNowAndThroughout (D.view disk.old) (D.view disk.new) }
    ensures either_stays { IsTrue D.tells →
        EitherNowAndThroughout (D.view disk.old) (D.view disk.new) }
    ensures later { (D.view disk.old).faults ≤ (D.view disk.new).faults }
{
    let len = disk.len()?;
    disk.room(len.max(9))?;
    if len > 0 {
        return recover(alloc, disk, len);
    }
    create(disk)?;
    Ok(Opening {
        format: NEWEST_FORMAT,
        end: 8,
        buffer: Vec::new(alloc),
    })
}

impl<D: Disk> Journal<D> {
    ghost use Rattle.page_journal.specs.Settled.{IsSettled, IsSound, bodies_in, is_broken};
    ghost use Rattle.page_journal.specs.Opened.{IsIntactOrEmpty, TellsFormat, disk_of, fault_of};

    /// Opens the journal of a disk: an empty disk gets one without records, and of any other the records are read and the end is mended. A disk that is refused is handed back.
    pub fn begin(alloc: Global, disk: D) -> Result<Journal<D>, (JournalFault, D)>
        ensures sound { IfOk result (λ journal. IsSound journal) }
        ensures whole { IfOk result (λ journal. is_broken journal ≡ false) }
        ensures known { IfOk result (λ journal. is_format journal.format ≡ true) }
        ensures settled { IsTrue D.tells → IfOk result (λ journal. IsSettled D.view journal) }
        ensures records { IsTrue D.tells →
            IfOk result (λ journal. bodies_in D.view journal ≡ stored (D.view disk).seen) }
        ensures format { IsTrue D.tells →
            IfOk result (λ journal. TellsFormat (D.view disk).seen journal.format) }
        ensures fresh { IsTrue D.tells → (D.view disk).seen ≡ []
            → IfOk result (λ journal. journal.format ≡ newest) }
        ensures before_or_with { IsTrue D.tells →
            IfOk result (λ journal. IsBeforeOrWith (D.view disk) (bodies_in D.view journal)) }
        ensures intact { IsTrue D.tells → OnOk result (IsIntactOrEmpty (D.view disk)) }
        ensures refused { IsTrue D.tells →
            IsFault (D.view disk) (D.view (disk_of result)) (fault_of result) }
        ensures cause { IsErrOf (fault_of result) JournalFault.DiskFault →
            HasFailed (D.view disk) (D.view (disk_of result)) }
        ensures any_moment { IsTrue D.tells →
            MayHoldNowAndThroughout (D.view disk) (D.view (disk_of result)) }
        ensures closed_stays { IsTrue D.tells →
            ClosedNowAndThroughout (D.view disk) (D.view (disk_of result)) }
        ensures either_stays { IsTrue D.tells →
            EitherNowAndThroughout (D.view disk) (D.view (disk_of result)) }
        ensures one_of_either { IsTrue D.tells →
            IfOk result (λ journal. IsOneOfEither (D.view disk) (bodies_in D.view journal)) }
        ensures later { (D.view disk).faults ≤ (D.view (disk_of result)).faults }
    {
        let mut disk = disk;
        match recover_or_create(alloc, &mut disk) {
            Ok(opening) => Ok(Journal {
                disk,
                format: opening.format,
                end: opening.end,
                buffer: opening.buffer,
                broken: false,
            }),
            Err(fault) => Err((fault, disk)),
        }
    }
}
