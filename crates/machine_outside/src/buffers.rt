// A source that reads ahead, and a sink that keeps its bytes together.
ghost use Rattle.std.specs.Prelude.{◌≡◌, ◌≤◌, ◌<◌, ◌++◌, [], length, vec_len, take, OnOk, OnErr};
ghost use Rattle.std.specs.Io.{WritesAtMost};
ghost use Rattle.std.specs.Io.KnownBytes.{IsAtEnd, Keeps};
ghost use Rattle.web_outside.specs.Causes.{HasCause};
ghost use Rattle.web_outside.specs.Pieces.{TakesSome};

use std::alloc::{AllocError, Global};
use web_outside::{Failed, Sink, Source};

const AHEAD: usize = 4_096;

/// A source that is read in large pieces, and gives them in whatever pieces it is asked for.
#[derive(Drop)]
pub struct ReadAhead<S> {
    source: S,
    bytes: [u8; AHEAD],
    start: usize,
    end: usize,
    ghost ordered: { start ≤ end },
    ghost within: { end ≤ 4096 },
}

impl<S: Source> ReadAhead<S> {
    ghost use Rattle.machine_outside.specs.Buffers.{kept_ahead, ahead_view};

    /// Nothing is read yet.
    pub fn new(source: S) -> ReadAhead<S>
        ensures kept { kept_ahead result ≡ [] }
        ensures below { result.source ≡ source }
    {
        ReadAhead {
            source,
            bytes: [0u8; AHEAD],
            start: 0,
            end: 0,
        }
    }

    // Reads on below where nothing is kept.
    fn fill(&mut self) -> Result<(), Failed>
        ensures same { Keeps (ahead_view S.view self.old).left (ahead_view S.view self.new).left }
        ensures end { OnOk result (kept_ahead self.new ≡ [] → IsAtEnd (S.view self.new.source).left) }
        ensures cause { HasCause (S.view self.old.source).faults (S.view self.new.source).faults result }
    {
        if self.start == self.end {
            let count = self.source.read(&mut self.bytes)?;
            self.start = 0;
            self.end = count;
        }
        Ok(())
    }

    // Gives the front of what is kept, as far as there is room for it.
    fn give(&mut self, buf: &mut [u8]) -> usize
        ensures room { result ≤ length buf.new }
        ensures length { length buf.new ≡ length buf.old }
        ensures front { kept_ahead self.old ≡ take result buf.new ++ kept_ahead self.new }
        ensures all { result < length buf.new → kept_ahead self.new ≡ [] }
        ensures below { self.new.source ≡ self.old.source }
    {
        let count = buf.len().min(self.end - self.start);
        buf[..count].copy_from_slice(&self.bytes[self.start..self.start + count]);
        self.start += count;
        count
    }
}

impl<S: Source> Source for ReadAhead<S> {
    ghost use Rattle.machine_outside.specs.Buffers.{ahead_view};

    ghost view = { ahead_view S.view };

    fn faults(&self) -> u64 {
        self.source.faults()
    }

    fn read(&mut self, buf: &mut [u8]) -> Result<usize, Failed> {
        self.fill()?;
        Ok(self.give(buf))
    }
}

/// A sink that keeps what it is given until a flush, and then writes it in one piece. Without memory for more it writes what
/// it has before.
#[derive(Drop)]
pub struct Together<O> {
    sink: O,
    bytes: Vec<u8>,
    // So many of the bytes are written.
    start: usize,
    ghost ordered: { start ≤ vec_len bytes },
}

impl<O: Sink> Together<O> {
    ghost use Rattle.machine_outside.specs.Buffers.{kept_together, together_view, PassesOn};

    /// Nothing is kept yet.
    pub fn new(alloc: Global, sink: O) -> Together<O>
        ensures kept { kept_together result ≡ [] }
        ensures below { result.sink ≡ sink }
    {
        Together {
            sink,
            bytes: Vec::new(alloc),
            start: 0,
        }
    }

    /// The sink that it stands on.
    pub fn below(&self) -> &O
        ensures { result.now ≡ self.now.sink }
    {
        &self.sink
    }

    // Writes below what it takes of what is kept.
    fn pour_some(&mut self) -> Result<(), Failed>
        requires { self.old.start < vec_len self.old.bytes }
        ensures same { Keeps (together_view O.view self.old).written (together_view O.view self.new).written }
        ensures moves { OnOk result (self.old.start < self.new.start) }
        ensures bytes { self.new.bytes ≡ self.old.bytes }
        ensures cause { HasCause (O.view self.old.sink).faults (O.view self.new.sink).faults result }
    {
        self.start += self.sink.write(&self.bytes[self.start..])?;
        Ok(())
    }

    // Keeps a piece. Without memory for it nothing changes.
    fn keep(&mut self, piece: &[u8]) -> Result<(), AllocError>
        ensures kept { OnOk result (kept_together self.new ≡ kept_together self.old ++ piece.now) }
        ensures memory { OnErr result (kept_together self.new ≡ kept_together self.old) }
        ensures below { self.new.sink ≡ self.old.sink }
    {
        self.bytes.extend_from_slice(piece)
    }

    // Writes below all that is kept. Where that fails, what was not taken is kept on.
    fn pour(&mut self) -> Result<(), Failed>
        ensures same { Keeps (together_view O.view self.old).written (together_view O.view self.new).written }
        ensures empty { OnOk result (kept_together self.new ≡ []) }
        ensures cause { HasCause (O.view self.old.sink).faults (O.view self.new.sink).faults result }
    {
        while self.start < self.bytes.len() {
            self.pour_some()?;
        }
        self.start = 0;
        self.bytes.clear();
        Ok(())
    }

    // Writes below what is kept, and then what it takes of this piece.
    fn pass_on(&mut self, piece: &[u8]) -> Result<usize, Failed>
        ensures bound { WritesAtMost result piece.now }
        ensures moves { TakesSome result piece.now }
        ensures bytes { PassesOn O.view self.old self.new result piece.now }
        ensures cause { HasCause (O.view self.old.sink).faults (O.view self.new.sink).faults result }
    {
        self.pour()?;
        self.sink.write(piece)
    }
}

impl<O: Sink> Sink for Together<O> {
    ghost use Rattle.machine_outside.specs.Buffers.{together_view};

    ghost view = { together_view O.view };

    fn faults(&self) -> u64 {
        self.sink.faults()
    }

    fn write(&mut self, piece: &[u8]) -> Result<usize, Failed> {
        match self.keep(piece) {
            Ok(()) => Ok(piece.len()),
            Err(AllocError) => self.pass_on(piece),
        }
    }

    fn flush(&mut self) -> Result<(), Failed> {
        self.pour()?;
        self.sink.flush()
    }
}
