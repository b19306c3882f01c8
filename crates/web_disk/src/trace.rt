ghost use Rattle.std.specs.Prelude.{◌≤◌, ◌<◌, ◌+◌, ◌-◌, length, IfOk, OnOk, vec_len, vec_capacity};
ghost use Rattle.web_disk.specs.View.{Holds};
ghost use Rattle.web_disk.specs.Change.{Put, Torn, CutTo, Synced};

use std::alloc::{AllocError, Global};

/// A call that changed the bytes, or which of them a crash may leave.
#[derive(Clone, Copy, Debug, PartialEq, Eq)]
pub enum Call {
    /// A write at a place, with so many bytes.
    Write { place: u64, size: u64 },
    /// A call that failed where it would have changed these places.
    Spoil { span: Span },
    /// A cut to this length.
    Cut { len: u64 },
    /// A sync.
    Sync,
}

/// The places from `low` up to `high`.
#[derive(Clone, Copy, Debug, PartialEq, Eq)]
pub struct Span {
    pub low: u64,
    pub high: u64,
}

/// All that was done to the bytes of a disk in memory.
#[derive(Drop)]
pub struct Trace {
    /// What a read gives.
    pub bytes: Vec<u8>,
    /// What was touched since the last sync.
    pub touched: Vec<Span>,
    /// What a read gave at first.
    pub first: Vec<u8>,
    /// The calls since then.
    pub calls: Vec<Call>,
    /// The pieces of the writes among them, one after the other.
    pub pieces: Vec<u8>,
}

/// Writes over what is there, and past the end.
pub fn overwrite(bytes: &mut Vec<u8>, place: usize, piece: &[u8])
    requires place { place ≤ vec_len bytes.old }
    requires room { place + length piece.now ≤ vec_capacity bytes.old }
    ensures bytes { Holds bytes.old.items place piece.now bytes.new.items }
    ensures capacity { vec_capacity bytes.old ≤ vec_capacity bytes.new }
{
    let count = piece.len().min(bytes.len() - place);
    let front = &piece[..count];
    let behind = &piece[count..];
    bytes[place..place + count].copy_from_slice(front);
    let Ok(()) = bytes.extend_from_slice(behind) else {
        unreachable!()
    };
}

impl Trace {
    /// Nothing was done to these bytes.
    pub fn new(alloc: Global, bytes: Vec<u8>) -> Result<Trace, AllocError>
        ensures { IfOk result (λ trace. IsFresh bytes.items trace) }
    {
        let first = bytes.to_vec(alloc)?;
        Ok(Trace {
            bytes,
            touched: Vec::new(alloc),
            first,
            calls: Vec::new(alloc),
            pieces: Vec::new(alloc),
        })
    }

    ghost use Rattle.web_disk.specs.Memory.{IsKept, IsFresh, Adds, HasRoom, Stays, calls_left};

    /// Writes the piece over the bytes from this place on.
    pub fn write(&mut self, place: u64, piece: &[u8])
        requires kept { IsKept self.old }
        requires place { place ≤ vec_len self.old.bytes }
        requires end { place + length piece.now ≤ vec_capacity self.old.bytes }
        requires call { 0 < calls_left self.old }
        requires left { length piece.now ≤ vec_capacity self.old.pieces - vec_len self.old.pieces }
        ensures kept { IsKept self.new }
        ensures adds { Adds (Put place piece.now) self.old self.new }
        ensures room { HasRoom (length piece.now) self.old self.new }
    {
        overwrite(&mut self.bytes, place as usize, piece);
        let Ok(()) = self.pieces.extend_from_slice(piece) else {
            unreachable!()
        };
        let size = piece.len() as u64;
        self.calls.push_reserved(Call::Write { place, size });
        self.touched.push_reserved(Span {
            low: place,
            high: place + size,
        });
    }

    /// A call fails that would have changed these places.
    pub fn spoil(&mut self, span: Span)
        requires kept { IsKept self.old }
        requires call { 0 < calls_left self.old }
        ensures kept { IsKept self.new }
        ensures adds { Adds (Torn span) self.old self.new }
        ensures room { HasRoom 0 self.old self.new }
    {
        self.calls.push_reserved(Call::Spoil { span });
        self.touched.push_reserved(span);
    }

    /// Leaves the first `len` bytes.
    pub fn cut(&mut self, len: u64)
        requires kept { IsKept self.old }
        requires len { len ≤ vec_len self.old.bytes }
        requires call { 0 < calls_left self.old }
        ensures kept { IsKept self.new }
        ensures adds { Adds (CutTo len) self.old self.new }
        ensures room { HasRoom 0 self.old self.new }
    {
        let end = self.bytes.len() as u64;
        self.bytes.truncate(len as usize);
        self.calls.push_reserved(Call::Cut { len });
        self.touched.push_reserved(Span {
            low: len,
            high: end,
        });
    }

    /// No place is touched any more.
    pub fn sync(&mut self)
        requires kept { IsKept self.old }
        requires call { 0 < calls_left self.old }
        ensures kept { IsKept self.new }
        ensures adds { Adds Synced self.old self.new }
        ensures room { HasRoom 0 self.old self.new }
    {
        self.calls.push_reserved(Call::Sync);
        self.touched.clear();
    }

    /// Makes room for eight calls more, up to a length of `end`, with pieces of as many bytes in all.
    pub fn reserve(&mut self, end: u64) -> Result<(), AllocError>
        ensures calls { OnOk result (8 ≤ calls_left self.new) }
        ensures end { OnOk result (end ≤ vec_capacity self.new.bytes) }
        ensures pieces { OnOk result
            (vec_len self.new.pieces + end ≤ vec_capacity self.new.pieces) }
        ensures stays { Stays self.old self.new }
    {
        let end = end as usize;
        self.calls.reserve(8)?;
        self.touched.reserve(8)?;
        self.pieces.reserve(end)?;
        let len = self.bytes.len();
        if len < end {
            self.bytes.reserve(end - len)?;
        }
        Ok(())
    }
}
