ghost use Rattle.std.specs.Prelude.{◌≡◌, ◌<◌, ◌≤◌, ◌+◌, ◌^◌, ◌++◌, [], ◌∷◌, length, true, false, IsTrue, OnOk, OnErr, IsErrOf, vec_capacity};
ghost use Rattle.page_journal.specs.declared.journal.AppendFault.TheVariants.{DiskFault as AppendDiskFault};
ghost use Rattle.page_journal.specs.Records.{framed};
ghost use Rattle.page_journal.specs.Calls.{AppendsThroughout, HasAppended, IsFullFor};

use thiserror::Error;
use web_disk::Disk;
use web_outside::Failed;
use wire_bytes::u32_to_wire;

/// The greatest length of a journal, in bytes.
pub const MAX_LEN: u64 = 1 << 30;

/// The newest format, the one that is written.
pub const NEWEST_FORMAT: u8 = 6;

/// Why a record was not added.
#[derive(Clone, Copy, Debug, PartialEq, Eq, Error)]
pub enum AppendFault {
    /// The journal would reach this length, which is above the greatest.
    #[error("the journal would reach {len} bytes, too many")]
    Full { len: u64 },
    /// A call of the disk failed.
    #[error("a call of the disk failed")]
    DiskFault,
}

impl From<Failed> for AppendFault {
    ghost from_gives = { λ _ fault. fault ≡ AppendDiskFault };

    fn from(_: Failed) -> Self {
        AppendFault::DiskFault
    }
}

/// Records on a disk: the header, and then each record after a gate that is open (1), its length and its body. After the last one stands a closed gate (0), which is on the disk before anything is written after it.
#[derive(Drop)]
pub struct Journal<D: Disk> {
    pub(crate) disk: D,
    // The format of the file.
    pub(crate) format: u8,
    // The place of the closed gate.
    pub(crate) end: u64,
    // Its room is enough for the longest record.
    pub(crate) buffer: Vec<u8>,
    // A call of the disk failed in an append, so what a crash leaves is open.
    pub(crate) broken: bool,
}

// Puts a record, without its gate, and a closed gate into the buffer.
fn frame(buffer: &mut Vec<u8>, body: &[u8])
    requires size { length body.now < 2 ^ 32 }
    requires room { length body.now + 5 ≤ vec_capacity buffer.old }
    ensures bytes { buffer.new.items ≡ framed body.now ++ 0 ∷ [] }
    ensures capacity { vec_capacity buffer.old ≤ vec_capacity buffer.new }
{
    buffer.clear();
    let size = u32_to_wire(body.len() as u32);
    let Ok(()) = buffer.extend_from_slice(&size) else {
        unreachable!()
    };
    let Ok(()) = buffer.extend_from_slice(body) else {
        unreachable!()
    };
    let Ok(()) = buffer.extend_from_slice(&[0]) else {
        unreachable!()
    };
}

impl<D: Disk> Journal<D> {
    ghost use Rattle.page_journal.specs.Settled.{HasFailed, IsSettled, IsReady, IsSound, view_of, length_of, length_with, is_broken};

    /// Adds a record, for which `room` was made since the last one. From `Ok` on each crash leaves it there; after `DiskFault` a crash leaves it or does not, and no record is added until the disk is begun again. It takes no memory.
    pub fn append(&mut self, body: &[u8]) -> Result<(), AppendFault>
        requires sound { IsSound self.old }
        requires settled { IsTrue D.tells → IsSettled D.view self.old }
        requires whole { is_broken self.old ≡ false }
        requires ready { IsReady D.view self.old (length body.now) }

        ensures sound { IsSound self.new }
        ensures format { self.new.format ≡ self.old.format }
        ensures whole { OnOk result (is_broken self.new ≡ false) }
        ensures broken { IsErrOf result AppendFault.DiskFault → is_broken self.new ≡ true }
        ensures len { OnOk result (length_of self.new ≡ length_with self.old body.now) }
        ensures same_len { OnErr result (length_of self.new ≡ length_of self.old) }
        ensures ok { IsTrue D.tells → OnOk result (HasAppended D.view self.old body.now self.new) }

        // A crash at any moment of the call leaves the records from before it, with the new one or without.
        ensures any_moment { IsTrue D.tells → AppendsThroughout D.view self.old body.now self.new }

        ensures full { IsFullFor self.old body.now result self.new }
        ensures only_full { length_with self.old body.now ≤ 2 ^ 30 →
            OnErr result (result ≡ Err AppendFault.DiskFault) }
        ensures cause { IsErrOf result AppendFault.DiskFault →
            HasFailed (view_of D.view self.old) (view_of D.view self.new) }
        ensures later { (view_of D.view self.old).faults ≤ (view_of D.view self.new).faults }
    {
        let gate = self.end;
        let len = gate + 6 + body.len() as u64;
        if len > MAX_LEN {
            return Err(AppendFault::Full { len });
        }
        frame(&mut self.buffer, body);
        self.broken = true;
        self.disk.write_at(gate + 1, &self.buffer)?;
        self.disk.sync()?;
        self.disk.write_at(gate, &[1])?;
        self.disk.sync()?;
        self.end = len - 1;
        self.broken = false;
        Ok(())
    }
}
