// The real input and output, which count their own faults.
ghost use Rattle.machine_outside.specs.Sockets.{reading_view, writing_view};

use std::io::{ErrorKind, Read, Write};
use web_outside::{Failed, Sink, Source};

/// A reader, with a count of the reads that failed.
#[derive(Drop)]
pub struct Reading<R> {
    pub inner: R,
    pub count: u64,
}

/// A writer, with a count of the writes that failed.
#[derive(Drop)]
pub struct Writing<W> {
    pub inner: W,
    pub count: u64,
}

impl<R: Read> Source for Reading<R> {
    ghost view = { reading_view R.remaining };

    fn faults(&self) -> u64 {
        self.count
    }

    fn read(&mut self, buf: &mut [u8]) -> Result<usize, Failed> {
        'tries: for _ in 0..u64::MAX {
            match self.inner.read(buf) {
                Ok(count) => return Ok(count),
                Err(fault) if fault.kind() == ErrorKind::Interrupted => {}
                Err(_) => break 'tries,
            }
        }
        self.count = self.count.saturating_add(1);
        Err(Failed)
    }
}

impl<W: Write> Sink for Writing<W> {
    ghost view = { writing_view W.contents };

    fn faults(&self) -> u64 {
        self.count
    }

    fn write(&mut self, piece: &[u8]) -> Result<usize, Failed> {
        'tries: for _ in 0..u64::MAX {
            match self.inner.write(piece) {
                Ok(count) if count > 0 || piece.is_empty() => return Ok(count),
                Err(fault) if fault.kind() == ErrorKind::Interrupted => {}
                Ok(_) | Err(_) => break 'tries,
            }
        }
        self.count = self.count.saturating_add(1);
        Err(Failed)
    }

    fn flush(&mut self) -> Result<(), Failed> {
        'tries: for _ in 0..u64::MAX {
            match self.inner.flush() {
                Ok(()) => return Ok(()),
                Err(fault) if fault.kind() == ErrorKind::Interrupted => {}
                Err(_) => break 'tries,
            }
        }
        self.count = self.count.saturating_add(1);
        Err(Failed)
    }
}
