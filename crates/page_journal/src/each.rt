ghost use Rattle.std.specs.Prelude.{◌≡◌, ◌<◌, ◌≤◌, ◌+◌, ◌^◌, List, ℕ, length, take, drop, IsTrue, OnOk, OnErr, vec_capacity};
ghost use Rattle.web_disk.specs.View.{NoNewImage, Elapses};
ghost use Rattle.page_journal.specs.Records.{stored};
ghost use Rattle.page_journal.specs.Scanned.{IsQuiet};
ghost use Rattle.page_journal.specs.Settled.{HasFailed, IsSettled, IsReady, IsSound, view_of, bodies_in, length_of, is_broken};
ghost use Rattle.page_journal.specs.Stored.{HoldRecords};
ghost use Rattle.page_journal.specs.Taken.{TakesAll, TakesFront};
ghost use Rattle.page_journal.specs.Calls.{TakesSome, TakesStored};

use crate::Journal;
use crate::scan::{Found, look};
use std::alloc::AllocError;
use thiserror::Error;
use web_disk::Disk;
use web_outside::Failed;

/// A call of the disk failed.
#[derive(Clone, Copy, Debug, PartialEq, Eq, Error)]
#[error("a call of the disk failed")]
pub struct DiskFault;

impl From<Failed> for DiskFault {
    ghost from_gives = { λ _ fault. fault ≡ record {} };

    fn from(_: Failed) -> Self {
        DiskFault
    }
}

/// Takes records, one by one.
pub trait Take {
    /// What one record makes of the taker.
    ghost takes: { Self → ℕ → List ℕ → Self → Type 0 };

    /// What holds of the taker where the next gate is at this place.
    ghost ready: { Self → ℕ → Type 0 };

    /// Takes the body of the record whose gate is at this place. A closed gate has room after it.
    fn body(&mut self, place: u64, body: &[u8])
        requires room { place + 6 + length body.now ≤ 2 ^ 30 }
        requires ready { ready self.old place }
        ensures takes { takes self.old place body.now self.new }
        ensures ready { ready self.new (place + 5 + length body.now) };
}

// Reads this many bytes into the buffer.
fn read_body<D: Disk>(
    disk: &mut D,
    buffer: &mut Vec<u8>,
    place: u64,
    size: u64,
) -> Result<(), Failed>
    requires inside { IsTrue D.tells → place + size ≤ length (D.view disk.old).seen }
    requires room { size ≤ vec_capacity buffer.old }
    ensures bytes { IsTrue D.tells →
        OnOk result (buffer.new.items ≡ take size (drop place (D.view disk.old).seen)) }
    ensures size { OnOk result (length buffer.new.items ≡ size) }
    ensures capacity { vec_capacity buffer.old ≤ vec_capacity buffer.new }
    ensures quiet { IsQuiet (D.view disk.old) (D.view disk.new) }
    ensures cause { OnErr result (HasFailed (D.view disk.old) (D.view disk.new)) }
{
    buffer.clear();
    let Ok(()) = buffer.resize(size as usize, 0) else {
        unreachable!()
    };
    disk.read(place, buffer)
}

/// Hands on each record of a disk with this length, in order, to a taker that is ready for the first gate.
pub fn hand_on<D: Disk, T: Take>(
    disk: &mut D,
    buffer: &mut Vec<u8>,
    len: u64,
    taker: &mut T,
) -> Result<(), DiskFault>
    requires len { IsTrue D.tells → len ≡ length (D.view disk.old).seen }
    requires holds { IsTrue D.tells →
        HoldRecords (D.view disk.old).seen (vec_capacity buffer.old) }
    requires ready { T.ready taker.old 8 }
    ensures taken { TakesStored D.tells T.takes taker.old (D.view disk.old) result taker.new }
    ensures front { IsTrue D.tells →
        TakesFront T.takes taker.old (stored (D.view disk.old).seen) taker.new }
    ensures handed { TakesSome T.takes taker.old taker.new }
    ensures capacity { vec_capacity buffer.old ≤ vec_capacity buffer.new }
    ensures quiet { IsQuiet (D.view disk.old) (D.view disk.new) }
    ensures cause { OnErr result (HasFailed (D.view disk.old) (D.view disk.new)) }
{
    let mut place = 8;
    'gates: while place < len {
        match look(disk, place, len)? {
            Found::Wrong => return Ok(()),
            Found::End { .. } => return Ok(()),
            Found::Next { size } => {
                // No record is longer, as was read when they were found.
                if size as usize > buffer.capacity() {
                    return Ok(());
                }
                read_body(disk, buffer, place + 5, size)?;
                taker.body(place, buffer);
                place += 5 + size;
            }
        }
    }
    Ok(())
}

impl<D: Disk> Journal<D> {
    /// Hands on each record, in order, to a taker that is ready for the first gate. It takes no memory.
    pub fn for_each<T: Take>(&mut self, taker: &mut T) -> Result<(), DiskFault>
        requires sound { IsSound self.old }
        requires settled { IsTrue D.tells → IsSettled D.view self.old }
        requires ready { T.ready taker.old 8 }
        ensures taken { IsTrue D.tells →
            OnOk result (TakesAll T.takes taker.old 8 (bodies_in D.view self.old) taker.new) }
        ensures front { IsTrue D.tells →
            TakesFront T.takes taker.old (bodies_in D.view self.old) taker.new }
        // What follows holds of a disk that does not tell its bytes too, and where a call of it failed.
        ensures handed { TakesSome T.takes taker.old taker.new }
        ensures quiet { IsQuiet (view_of D.view self.old) (view_of D.view self.new) }
        ensures len { length_of self.new ≡ length_of self.old }
        ensures whole { is_broken self.new ≡ is_broken self.old }
        ensures format { self.new.format ≡ self.old.format }
        ensures sound { IsSound self.new }
        ensures settled { IsTrue D.tells → IsSettled D.view self.new }
        ensures cause { OnErr result
            (HasFailed (view_of D.view self.old) (view_of D.view self.new)) }
    {
        hand_on(&mut self.disk, &mut self.buffer, self.end + 1, taker)
    }

    /// Makes room for a record with a body of this length. No call of the disk is made that could fail.
    pub fn room(&mut self, len: u32) -> Result<(), AllocError>
        requires sound { IsSound self.old }
        requires settled { IsTrue D.tells → IsSettled D.view self.old }
        ensures sound { IsSound self.new }
        ensures settled { IsTrue D.tells → IsSettled D.view self.new }
        ensures ready { OnOk result (IsReady D.view self.new len) }
        ensures len { length_of self.new ≡ length_of self.old }
        ensures whole { is_broken self.new ≡ is_broken self.old }
        ensures format { self.new.format ≡ self.old.format }
        ensures seen { (view_of D.view self.new).seen ≡ (view_of D.view self.old).seen }
        ensures images { NoNewImage (view_of D.view self.old) (view_of D.view self.new) }
        ensures time { Elapses (view_of D.view self.old) (view_of D.view self.new) }
        ensures faults { (view_of D.view self.new).faults ≡ (view_of D.view self.old).faults }
    {
        self.buffer.clear();
        self.buffer.reserve(len as usize + 5)?;
        self.disk.room(self.end + 6 + len as u64)
    }

    /// The length of the journal, in bytes.
    pub fn len(&self) -> u64
        requires { IsSound self.now }
        ensures len { result ≡ length_of self.now }
        ensures seen { IsTrue D.tells → IsSettled D.view self.now →
            result ≡ length (view_of D.view self.now).seen }
    {
        self.end + 1
    }

    /// The format of the file.
    pub fn format(&self) -> u8
        ensures { result ≡ self.now.format }
    {
        self.format
    }

    /// How often a call of the disk has failed, up to the type's end.
    pub fn faults(&self) -> u64
        ensures { result ≡ (view_of D.view self.now).faults }
    {
        self.disk.faults()
    }

    /// Gives back the disk.
    pub fn close(self) -> D
        ensures { result ≡ self.disk }
    {
        let Journal {
            disk,
            format: _,
            end: _,
            buffer: _,
            broken: _,
        } = self;
        disk
    }
}
