ghost use Rattle.std.specs.Prelude.{◌≡◌, ◌<◌, ◌≤◌, ◌+◌, ◌-◌, ◌*◌, ◌^◌, ◌++◌, false, min, not, length, take, drop, slice_get, Some, IfOk, OnOk, OnErr, is_err};
ghost use Rattle.std.specs.List.{repeat};
ghost use Rattle.web_outside.specs.Causes.{Rose};
ghost use Rattle.web_disk.specs.View.{Holds, Elapses, IsCall};

use crate::Disk;
use crate::trace::overwrite;
use std::alloc::AllocError;
use web_outside::Failed;

/// A disk of a first part, a block that stands so many times after it, and a last part, the only one that can be written. It keeps one block, so a long disk takes little memory. What a read gives is told of it alone, and nothing of what a crash leaves.
#[derive(Drop)]
pub struct RepeatDisk {
    first: Vec<u8>,
    block: Vec<u8>,
    times: u64,
    last: Vec<u8>,
    // How often a call failed, up to the type's end.
    faults: u64,
    ghost fits: { length first.items + times * length block.items ≤ 2 ^ 63 },
}

impl RepeatDisk {
    ghost use Rattle.web_disk.specs.Repeated.{bytes_of, start_of, is_in_last, repeat_view};

    /// A disk of these parts, whose calls have not failed.
    pub fn new(first: Vec<u8>, block: Vec<u8>, times: u64, last: Vec<u8>) -> RepeatDisk
        requires { length first.items + times * length block.items ≤ 2 ^ 63 }
        ensures bytes { (repeat_view result).seen
            ≡ (first.items ++ repeat times block.items) ++ last.items }
        ensures start { start_of result ≡ length first.items + times * length block.items }
        ensures faults { (repeat_view result).faults ≡ 0 }
    {
        RepeatDisk {
            first,
            block,
            times,
            last,
            faults: 0,
        }
    }

    // Where the last part begins.
    fn start(&self) -> u64
        ensures { result ≡ start_of self.now }
    {
        self.first.len() as u64 + self.times * self.block.len() as u64
    }

    // Where it ends.
    fn end(&self) -> u64
        ensures { result ≡ start_of self.now + length self.now.last.items }
    {
        self.start() + self.last.len() as u64
    }

    // Whether such a place is one of the last part, or its end.
    fn is_in_last(&self, place: u64) -> bool
        ensures { result ≡ is_in_last self.now place }
    {
        self.start() <= place && place <= self.end()
    }

    fn byte_at(&self, place: u64) -> u8
        requires { place < start_of self.now + length self.now.last.items }
        ensures { slice_get (bytes_of self.now) place ≡ Some result }
    {
        let first = self.first.len() as u64;
        if place < first {
            return self.first[place as usize];
        }
        let start = self.start();
        if place < start {
            let inside = (place - first) % self.block.len() as u64;
            return self.block[inside as usize];
        }
        self.last[(place - start) as usize]
    }

    // Fills the buffer with the bytes from a place on.
    fn copy(&self, place: u64, buf: &mut [u8])
        requires { place + length buf.old ≤ start_of self.now + length self.now.last.items }
        ensures { buf.new ≡ take (length buf.old) (drop place (bytes_of self.now)) }
    {
        for i in 0..buf.len() {
            buf[i] = self.byte_at(place + i as u64);
        }
    }

    // Counts a fault.
    fn fail(&mut self) -> Failed
        ensures count { self.new ≡ record self.old { faults = min (self.old.faults + 1) (2 ^ 64 - 1) } }
        ensures later { self.old.faults ≤ self.new.faults }
        ensures rose { Rose self.old.faults self.new.faults }
    {
        self.faults = self.faults.saturating_add(1);
        Failed
    }
}

impl Disk for RepeatDisk {
    ghost use Rattle.web_disk.specs.Repeated.{is_in_last, is_there, start_of, repeat_view, OnlyCounts, Serves, nothing_told};

    ghost tells = { false };

    ghost view = { λ disk. repeat_view disk };

    fn faults(&self) -> u64 {
        self.faults
    }

    // It does not fail.
    fn len(&mut self) -> Result<u64, Failed>
        ensures len { IfOk result (λ len. len ≡ length (repeat_view self.old).seen) }
        ensures call { IsCall 0 (repeat_view self.old) (repeat_view self.new) result }
        ensures fails { is_err result ≡ false }
        ensures same { self.new ≡ self.old }
    {
        Ok(self.end())
    }

    // A read past the end is a fault.
    fn read(&mut self, place: u64, buf: &mut [u8]) -> Result<(), Failed>
        ensures bytes { OnOk result
            (buf.new ≡ take (length buf.old) (drop place (repeat_view self.old).seen)) }
        ensures call { IsCall 0 (repeat_view self.old) (repeat_view self.new) result }
        ensures fails { is_err result ≡ not (is_there self.old place (length buf.old)) }
        ensures counts { OnlyCounts self.old self.new result }
        ensures kept { OnErr result (buf.new ≡ buf.old) }
    {
        let end = self.end();
        if end < place || end - place < buf.len() as u64 {
            return Err(self.fail());
        }
        self.copy(place, buf);
        Ok(())
    }

    // A write that does not begin in the last part or at its end is a fault.
    fn write_at(&mut self, place: u64, piece: &[u8]) -> Result<(), Failed>
        requires end { place + length piece.now ≤ (repeat_view self.old).end }
        ensures written { OnOk result
            (Holds (repeat_view self.old).seen place piece.now (repeat_view self.new).seen) }
        ensures call { IsCall (length piece.now) (repeat_view self.old)
            (repeat_view self.new) result }
        ensures serves { Serves (is_in_last self.old place) self.old self.new result }
    {
        if !self.is_in_last(place) {
            return Err(self.fail());
        }
        let offset = place - self.start();
        overwrite(&mut self.last, offset as usize, piece);
        Ok(())
    }

    // A cut elsewhere than in the last part or at its end is a fault.
    fn cut(&mut self, len: u64) -> Result<(), Failed>
        ensures cut { OnOk result
            ((repeat_view self.new).seen ≡ take len (repeat_view self.old).seen) }
        ensures call { IsCall 0 (repeat_view self.old) (repeat_view self.new) result }
        ensures serves { Serves (is_in_last self.old len) self.old self.new result }
    {
        if !self.is_in_last(len) {
            return Err(self.fail());
        }
        let offset = len - self.start();
        self.last.truncate(offset as usize);
        Ok(())
    }

    // There is nothing to be done, and it does not fail.
    fn sync(&mut self) -> Result<(), Failed>
        ensures call { IsCall 0 (repeat_view self.old) (repeat_view self.new) result }
        ensures fails { is_err result ≡ false }
        ensures same { self.new ≡ self.old }
    {
        Ok(())
    }

    fn room(&mut self, end: u64) -> Result<(), AllocError>
        ensures end { OnOk result (end ≤ (repeat_view self.new).end) }
        ensures seen { (repeat_view self.new).seen ≡ (repeat_view self.old).seen }
        ensures time { Elapses (repeat_view self.old) (repeat_view self.new) }
        ensures start { start_of self.new ≡ start_of self.old }
        ensures faults { self.new.faults ≡ self.old.faults }
    {
        let len = self.end();
        if len < end {
            self.last.reserve((end - len) as usize)?;
        }
        Ok(())
    }

    ghost counts_now = { λ disk t image le now. now };

    ghost only_now = { λ disk image left. left };

    ghost reads_image = { λ disk told. nothing_told told };
}
