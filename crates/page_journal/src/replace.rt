ghost use Rattle.std.specs.Prelude.{◌≡◌, ◌≤◌, ◌^◌, [], length, true, false, IsTrue, OnOk, OnErr, IfOk, vec_capacity};
ghost use Rattle.web_disk.specs.View.{NoNewImage, Elapses};
ghost use Rattle.disk_trio.specs.Trio.{trio_view};
ghost use Rattle.page_journal.specs.Records.{is_format, newest};
ghost use Rattle.page_journal.specs.Holding.{MayHoldNowAndThroughout, ClosedNowAndThroughout, EitherNowAndThroughout};
ghost use Rattle.page_journal.specs.Settled.{HasFailed, IsSettled, IsSound, view_of, length_of, is_broken};
ghost use Rattle.page_journal.specs.Opened.{IsIntactOrEmpty, TellsFormat, IsFault, disk_of, fault_of};
ghost use Rattle.page_journal.specs.Replacing.{IsWholeFile, IsReadyToReplace};
ghost use Rattle.page_journal.specs.Calls.{FailedIfTold, HasReplaced, HoldsBeforeOrWith, HoldsOneOfEither, HoldsStored, ReplacesThroughout};

use crate::each::DiskFault;
use crate::{Journal, JournalFault, NEWEST_FORMAT};
use disk_trio::Disks;
use std::alloc::{AllocError, Global};
use web_disk::Disk;

impl<D: Disk> Journal<Disks<D>> {
    /// Opens the journal of three disks: the root is put on its disk and read, and then the file that it names is opened.
    pub fn begin_on(
        alloc: Global,
        disks: Disks<D>,
    ) -> Result<Journal<Disks<D>>, (JournalFault, Disks<D>)>
        requires fresh { disks.known ≡ false }
        ensures sound { IfOk result (λ journal. IsSound journal) }
        ensures whole { IfOk result (λ journal. is_broken journal ≡ false) }
        ensures known { IfOk result (λ journal. is_format journal.format ≡ true) }
        ensures settled { IsTrue D.tells → IfOk result (λ journal. IsSettled trio_view journal) }
        ensures records { IsTrue D.tells → IfOk result (HoldsStored trio_view disks) }
        ensures format { IsTrue D.tells →
            IfOk result (λ journal. TellsFormat (trio_view disks).seen journal.format) }
        ensures fresh { IsTrue D.tells → (trio_view disks).seen ≡ []
            → IfOk result (λ journal. journal.format ≡ newest) }
        ensures before_or_with { IsTrue D.tells → IfOk result (HoldsBeforeOrWith trio_view disks) }
        ensures one_of_either { IsTrue D.tells → IfOk result (HoldsOneOfEither trio_view disks) }
        ensures intact { IsTrue D.tells → OnOk result (IsIntactOrEmpty (trio_view disks)) }
        ensures refused { IsTrue D.tells →
            IsFault (trio_view disks) (trio_view (disk_of result)) (fault_of result) }
        ensures cause { FailedIfTold (fault_of result) (trio_view disks) (trio_view (disk_of result)) }
        ensures any_moment { IsTrue D.tells →
            MayHoldNowAndThroughout (trio_view disks) (trio_view (disk_of result)) }
        ensures closed_stays { IsTrue D.tells →
            ClosedNowAndThroughout (trio_view disks) (trio_view (disk_of result)) }
        ensures either_stays { IsTrue D.tells →
            EitherNowAndThroughout (trio_view disks) (trio_view (disk_of result)) }
        ensures later { (trio_view disks).faults ≤ (trio_view (disk_of result)).faults }
    {
        let mut disks = disks;
        if disks.room_to_open().is_err() {
            return Err((JournalFault::Memory, disks));
        }
        match disks.open() {
            Ok(()) => Journal::begin(alloc, disks),
            Err(_) => Err((JournalFault::DiskFault, disks)),
        }
    }

    /// Makes room to put a file of this length, whose records are no longer than this, in the place of the current one. No call of a
    /// disk is made that could fail.
    pub fn room_to_replace(&mut self, len: u64, longest: u64) -> Result<(), AllocError>
        requires sound { IsSound self.old }
        requires settled { IsTrue D.tells → IsSettled trio_view self.old }
        requires short { longest ≤ 2 ^ 30 }
        ensures sound { IsSound self.new }
        ensures settled { IsTrue D.tells → IsSettled trio_view self.new }
        ensures ready { OnOk result (IsReadyToReplace self.new len longest) }
        ensures len { length_of self.new ≡ length_of self.old }
        ensures whole { is_broken self.new ≡ is_broken self.old }
        ensures format { self.new.format ≡ self.old.format }
        ensures seen { (view_of trio_view self.new).seen ≡ (view_of trio_view self.old).seen }
        ensures images { NoNewImage (view_of trio_view self.old) (view_of trio_view self.new) }
        ensures time { Elapses (view_of trio_view self.old) (view_of trio_view self.new) }
        ensures faults { (view_of trio_view self.new).faults
            ≡ (view_of trio_view self.old).faults }
    {
        self.buffer.clear();
        self.buffer.reserve(longest as usize)?;
        self.disk.room_to_fill(len)
    }

    /// Puts a whole file of records in the place of the current one. A crash at any moment leaves the records of the one file or
    /// those of the other; from `Ok` on those of the new one. It takes no memory.
    pub fn replace(&mut self, file: &[u8]) -> Result<(), DiskFault>
        requires sound { IsSound self.old }
        requires settled { IsTrue D.tells → IsSettled trio_view self.old }
        requires whole { is_broken self.old ≡ false }
        requires file { IsWholeFile file.now (vec_capacity self.old.buffer) }
        requires ready { IsReadyToReplace self.old (length file.now) 0 }

        ensures sound { IsSound self.new }
        ensures whole { OnOk result (is_broken self.new ≡ false) }
        ensures format { OnOk result (self.new.format ≡ newest) }
        ensures broken { OnErr result (is_broken self.new ≡ true) }
        ensures len { OnOk result (length_of self.new ≡ length file.now) }
        ensures same_len { OnErr result (length_of self.new ≡ length_of self.old) }
        ensures same_format { OnErr result (self.new.format ≡ self.old.format) }
        ensures ok { IsTrue D.tells → OnOk result (HasReplaced trio_view file.now self.new) }
        ensures known { OnOk result (self.new.disk.known ≡ true) }

        // A crash at any moment of the call leaves the records of the one file or of the other.
        ensures any_moment { IsTrue D.tells → ReplacesThroughout trio_view self.old file.now self.new }

        ensures cause { OnErr result
            (HasFailed (view_of trio_view self.old) (view_of trio_view self.new)) }
        ensures later { (view_of trio_view self.old).faults
            ≤ (view_of trio_view self.new).faults }
    {
        self.broken = true;
        self.disk.fill(file)?;
        self.disk.switch()?;
        self.end = file.len() as u64 - 1;
        self.format = NEWEST_FORMAT;
        self.broken = false;
        Ok(())
    }
}
