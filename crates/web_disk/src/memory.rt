ghost use Rattle.std.specs.Prelude.{◌≡◌, length};
ghost use Rattle.web_disk.specs.Memory.{content_of, sizes};

use crate::plan::{Fate, Plan};
use crate::trace::{Span, Trace};
use crate::{Disk, Wreck};
use std::alloc::{AllocError, Global};
use web_outside::Failed;

/// A disk in memory. A call does its work at once, but for those that are to fail.
#[derive(Drop)]
pub struct MemoryDisk {
    trace: Trace,
    plan: Plan,
    ghost whole: { sizes trace.calls.items ≡ length trace.pieces.items },
    ghost same: { trace.bytes.items ≡ (content_of trace).seen },
    ghost touched: { trace.touched.items ≡ (content_of trace).touched },
}

impl MemoryDisk {
    ghost use Rattle.std.specs.Prelude.{IfOk, OnOk, OnErr, Some, None};
    ghost use Rattle.web_disk.specs.View.{Only};
    ghost use Rattle.web_disk.specs.Disks.{memory_view, IsAnew, LeftBy};

    /// A disk with these bytes, all of them on it. Its calls of these numbers fail, the first call being 0.
    pub fn new(alloc: Global, bytes: Vec<u8>, failing: Vec<u64>) -> Result<MemoryDisk, AllocError>
        ensures seen { IfOk result (λ disk. (memory_view disk).seen ≡ bytes.items) }
        ensures durable { IfOk result (λ disk. Only bytes.items (memory_view disk)) }
        ensures faults { IfOk result (λ disk. disk.plan.faults ≡ 0) }
        ensures made { IfOk result (λ disk. disk.plan.made ≡ 0) }
        ensures failing { IfOk result (λ disk. disk.plan.failing.items ≡ failing.items) }
        ensures stop { IfOk result (λ disk. disk.plan.stop ≡ None) }
    {
        Ok(MemoryDisk {
            trace: Trace::new(alloc, bytes)?,
            plan: Plan::new(failing),
        })
    }

    /// Lets so many calls be made since the disk was new; each later one fails and does nothing.
    pub fn stop_at(&mut self, calls: u64)
        ensures trace { self.new.trace ≡ self.old.trace }
        ensures stop { self.new.plan.stop ≡ Some calls }
        ensures faults { self.new.plan.faults ≡ self.old.plan.faults }
        ensures made { self.new.plan.made ≡ self.old.plan.made }
        ensures failing { self.new.plan.failing.items ≡ self.old.plan.failing.items }
    {
        self.plan.stop_at(calls);
    }

    /// What is read.
    pub fn bytes(&self) -> &[u8]
        ensures { result.now ≡ (memory_view self.now).seen }
    {
        &self.trace.bytes
    }

    /// What such a crash now leaves, which is one of all that a crash may leave.
    pub fn crash(self, wreck: Wreck) -> Vec<u8>
        ensures left { LeftBy wreck self result.items }
        ensures image { (memory_view self).images result.items }
    {
        let mut trace = self.trace;
        wreck.leave(&mut trace.bytes, &trace.touched);
        trace.bytes
    }

    /// Crashes and is begun anew: it has what the crash leaves, all of it on the disk, its faults are counted from 0, and no number of calls stops it. Its calls are counted on.
    pub fn begin_anew(&mut self, alloc: Global, wreck: Wreck) -> Result<(), AllocError>
        ensures left { OnOk result (LeftBy wreck self.old (memory_view self.new).seen) }
        ensures image { OnOk result ((memory_view self.old).images (memory_view self.new).seen) }
        ensures durable { OnOk result (Only (memory_view self.new).seen (memory_view self.new)) }
        ensures plan { OnOk result (IsAnew self.old self.new) }
        ensures err { OnErr result (self.new ≡ self.old) }
    {
        let mut bytes = self.trace.bytes.to_vec(alloc)?;
        wreck.leave(&mut bytes, &self.trace.touched);
        self.trace = Trace::new(alloc, bytes)?;
        self.plan.begin_anew();
        Ok(())
    }
}

impl Disk for MemoryDisk {
    ghost use Rattle.std.specs.Prelude.{true};
    ghost use Rattle.std.specs.Prelude.{◌+◌, ◌<◌, ◌≤◌, IfOk, OnOk, OnErr, take, drop};
    ghost use Rattle.web_disk.specs.View.{Only, Spoils, Cuts, NoNewImage, Holds, Elapses, IsCall};
    ghost use Rattle.web_disk.specs.Change.{fresh, Synced};
    ghost use Rattle.web_disk.specs.Memory.{changes_of, Adds, Stays};
    ghost use Rattle.web_disk.specs.Disks.{memory_view, Obeys, DoesWrite, DoesCut};
    ghost use Rattle.web_disk.specs.Since.{now_counts, now_only, seen_is_image};

    ghost tells = { true };

    ghost view = { λ disk. memory_view disk };

    fn faults(&self) -> u64 {
        self.plan.faults()
    }

    // A call fails exactly where the plan says so.
    fn len(&mut self) -> Result<u64, Failed>
        ensures len { IfOk result (λ len. len ≡ length (memory_view self.old).seen) }
        ensures seen { (memory_view self.new).seen ≡ (memory_view self.old).seen }
        ensures images { NoNewImage (memory_view self.old) (memory_view self.new) }
        ensures call { IsCall 0 (memory_view self.old) (memory_view self.new) result }
        ensures ready { (memory_view self.new).ready ≡ (memory_view self.old).ready }
        ensures obeys { Obeys self.old self.new result }
        ensures nothing { self.new.trace ≡ self.old.trace }
    {
        match self.plan.count_call() {
            Fate::Done => Ok(self.trace.bytes.len() as u64),
            _ => Err(Failed),
        }
    }

    fn read(&mut self, place: u64, buf: &mut [u8]) -> Result<(), Failed>
        requires { place + length buf.old ≤ length (memory_view self.old).seen }
        ensures bytes { OnOk result
            (buf.new ≡ take (length buf.old) (drop place (memory_view self.old).seen)) }
        ensures seen { (memory_view self.new).seen ≡ (memory_view self.old).seen }
        ensures images { NoNewImage (memory_view self.old) (memory_view self.new) }
        ensures call { IsCall 0 (memory_view self.old) (memory_view self.new) result }
        ensures ready { (memory_view self.new).ready ≡ (memory_view self.old).ready }
        ensures obeys { Obeys self.old self.new result }
        ensures nothing { self.new.trace ≡ self.old.trace }
    {
        match self.plan.count_call() {
            Fate::Done => {
                let place = place as usize;
                buf.copy_from_slice(&self.trace.bytes[place..place + buf.len()]);
                Ok(())
            }
            _ => Err(Failed),
        }
    }

    // Where it fails, but for a stop, a crash may leave any bytes where it would have written.
    fn write_at(&mut self, place: u64, piece: &[u8]) -> Result<(), Failed>
        requires inside { place ≤ length (memory_view self.old).seen }
        requires end { place + length piece.now ≤ (memory_view self.old).end }
        requires left { length piece.now ≤ (memory_view self.old).left }
        requires ready { 0 < (memory_view self.old).ready }
        ensures written { OnOk result
            (Holds (memory_view self.old).seen place piece.now (memory_view self.new).seen) }
        ensures images { Spoils place (place + length piece.now) (memory_view self.old)
            (memory_view self.new) }
        ensures call { IsCall (length piece.now) (memory_view self.old)
            (memory_view self.new) result }
        ensures obeys { Obeys self.old self.new result }
        ensures does { DoesWrite place piece.now self.old self.new }
    {
        match self.plan.count_call() {
            Fate::Done => {
                self.trace.write(place, piece);
                Ok(())
            }
            Fate::Fails => {
                self.trace.spoil(Span {
                    low: place,
                    high: place + piece.len() as u64,
                });
                Err(Failed)
            }
            Fate::Stopped => Err(Failed),
        }
    }

    // Where it fails, but for a stop, a crash may leave any bytes where it would have cut.
    fn cut(&mut self, len: u64) -> Result<(), Failed>
        requires inside { len ≤ length (memory_view self.old).seen }
        requires ready { 0 < (memory_view self.old).ready }
        ensures cut { OnOk result
            ((memory_view self.new).seen ≡ take len (memory_view self.old).seen) }
        ensures images { Cuts len (memory_view self.old) (memory_view self.new) }
        ensures call { IsCall 0 (memory_view self.old) (memory_view self.new) result }
        ensures obeys { Obeys self.old self.new result }
        ensures does { DoesCut len self.old self.new }
    {
        match self.plan.count_call() {
            Fate::Done => {
                self.trace.cut(len);
                Ok(())
            }
            Fate::Fails => {
                let end = self.trace.bytes.len() as u64;
                self.trace.spoil(Span {
                    low: len,
                    high: end,
                });
                Err(Failed)
            }
            Fate::Stopped => Err(Failed),
        }
    }

    // Where it fails, nothing is done.
    fn sync(&mut self) -> Result<(), Failed>
        requires { 0 < (memory_view self.old).ready }
        ensures durable { OnOk result (Only (memory_view self.old).seen (memory_view self.new)) }
        ensures seen { (memory_view self.new).seen ≡ (memory_view self.old).seen }
        ensures images { NoNewImage (memory_view self.old) (memory_view self.new) }
        ensures call { IsCall 0 (memory_view self.old) (memory_view self.new) result }
        ensures obeys { Obeys self.old self.new result }
        ensures does { OnOk result (Adds Synced self.old.trace self.new.trace) }
        ensures nothing { OnErr result (self.new.trace ≡ self.old.trace) }
    {
        match self.plan.count_call() {
            Fate::Done => {
                self.trace.sync();
                Ok(())
            }
            _ => Err(Failed),
        }
    }

    fn room(&mut self, end: u64) -> Result<(), AllocError>
        ensures calls { OnOk result (8 ≤ (memory_view self.new).ready) }
        ensures end { OnOk result (end ≤ (memory_view self.new).end) }
        ensures left { OnOk result (end ≤ (memory_view self.new).left) }
        ensures seen { (memory_view self.new).seen ≡ (memory_view self.old).seen }
        ensures images { NoNewImage (memory_view self.old) (memory_view self.new) }
        ensures time { Elapses (memory_view self.old) (memory_view self.new) }
        ensures faults { (memory_view self.new).faults ≡ (memory_view self.old).faults }
        ensures plan { self.new.plan ≡ self.old.plan }
        ensures trace { Stays self.old.trace self.new.trace }
    {
        self.trace.reserve(end)
    }

    ghost counts_now = { λ disk t image le now. now_counts (changes_of disk.trace) (fresh disk.trace.first.items) t image le now };

    ghost only_now = { λ disk image left. now_only (changes_of disk.trace) (fresh disk.trace.first.items) image left };

    ghost reads_image = { λ disk _. seen_is_image (content_of disk.trace) disk.trace.bytes.items disk.same };
}
