ghost use Rattle.std.specs.Prelude.{◌≡◌, ◌≤◌, ◌+◌, ◌^◌, length, IsTrue, IfOk, OnOk, IsErrOf};
ghost use Rattle.page_journal.specs.Scanned.{IsQuiet};
ghost use Rattle.page_journal.specs.Settled.{HasFailed, IsSettled, IsSound, view_of, bodies_in, length_of, is_broken};
ghost use Rattle.page_journal.specs.Replacing.{IsWholeFile};
ghost use Rattle.file_notes.specs.Files.{IsLonger};
ghost use Rattle.file_notes.specs.Notes.{picked};
ghost use Rattle.file_copies.specs.Copies.{IsCopyIn, NoneFailed};
ghost use Rattle.file_copies.specs.declared.copying.CopyFault.TheVariants as fault;

use crate::copier::Copier;
use file_notes::FileNotes;
use page_journal::{DiskFault, Journal};
use std::alloc::{AllocError, Global};
use thiserror::Error;
use web_disk::Disk;

/// Why a file was not copied.
#[derive(Clone, Copy, Debug, PartialEq, Eq, Error)]
pub enum CopyFault {
    /// A call of the disk failed.
    #[error("a call of the disk failed")]
    DiskFault,
    /// There was no memory, or the disk does not read as it was written.
    #[error("memory ran out")]
    Memory,
}

impl From<DiskFault> for CopyFault {
    ghost from_gives = { λ _ copy. copy ≡ fault.DiskFault };

    fn from(_: DiskFault) -> Self {
        CopyFault::DiskFault
    }
}

impl From<AllocError> for CopyFault {
    ghost from_gives = { λ _ copy. copy ≡ fault.Memory };

    fn from(_: AllocError) -> Self {
        CopyFault::Memory
    }
}

/// The compacted file of a journal: its first record, the one of this number, and those that are planned to stay. What tells in front
/// of the first one whether the shelf follows another one's journal goes. The file is as long as is asked for, and no record of it is
/// longer than this. Nothing is written to the disk.
///
/// Where a disk does not read as is known of its file, that is told as want of memory.
pub fn compacted_file<D: Disk>(
    alloc: Global,
    journal: &mut Journal<D>,
    notes: &FileNotes,
    plan: &[bool],
    number: &[u8],
    len: u64,
    longest: u64,
) -> Result<Vec<u8>, CopyFault>
    requires sound { IsSound journal.old }
    requires settled { IsTrue D.tells → IsSettled D.view journal.old }
    requires planned { length plan.now ≡ length notes.now.notes.items }
    requires number { length number.now ≤ 9 }
    requires longest { IsLonger (picked plan.now notes.now.notes.items) longest }
    requires first { notes.now.head ≤ longest + 14 }
    requires short { len ≤ 2 ^ 30 }
    ensures whole_file { IfOk result (λ file. IsWholeFile file.items longest) }
    ensures len { IfOk result (λ file. length file.items ≡ len) }
    ensures file { IsTrue D.tells →
        IfOk result (IsCopyIn plan.now notes.now number.now (bodies_in D.view journal.old)) }
    ensures quiet { IsQuiet (view_of D.view journal.old) (view_of D.view journal.new) }
    ensures faults { OnOk result (NoneFailed (view_of D.view journal.old) (view_of D.view journal.new)) }
    ensures same_len { length_of journal.new ≡ length_of journal.old }
    ensures whole { is_broken journal.new ≡ is_broken journal.old }
    ensures format { journal.new.format ≡ journal.old.format }
    ensures sound { IsSound journal.new }
    ensures settled { IsTrue D.tells → IsSettled D.view journal.new }
    ensures cause { IsErrOf result fault.DiskFault →
        HasFailed (view_of D.view journal.old) (view_of D.view journal.new) }
    ensures memory { IsErrOf result fault.Memory →
        NoneFailed (view_of D.view journal.old) (view_of D.view journal.new) }
{
    let faults = journal.faults();
    let mut copier = Copier::new(alloc, notes, plan, number, len as usize)?;
    journal.for_each(&mut copier)?;
    // A call that failed counts, also where the disk made it good.
    if journal.faults() != faults {
        return Err(CopyFault::DiskFault);
    }
    Ok(copier.finish(len)?)
}
