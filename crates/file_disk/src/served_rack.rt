ghost use Rattle.std.specs.Prelude.{◌≡◌, ◌≤◌, ℕ, [], false, IfOk, OnOk, OnErr, IsErrOf};
ghost use Rattle.web_outside.specs.Causes.{Rose};
ghost use Rattle.web_disk.specs.Asked.{asked_in};
ghost use Rattle.web_disk.specs.Failures.{failed_in};
ghost use Rattle.file_disk.specs.Lendings.{is_out, CountsTake, Lends, SameOut, lending_view};
ghost use Rattle.file_disk.specs.MemoryFiles.{memory_file_view};

use crate::file_rack::take_file;
use crate::lending::Lending;
use crate::memory_shelves::MemoryShelves;
use crate::watch::Watch;
use crate::watched::WatchedFile;
use crate::{MemoryFile, ServedDisk};
use std::alloc::Global;
use std::fs::{File, Files};
use std::time::Clock;
use web_disk::{Disk, Rack, RackFault};

/// The directory of this name is no folder: its disks are in memory.
pub const MEMORY: &str = "-";

/// The disks that a program is given: of the directory named `-` disks in memory, and of any other its files.
#[derive(Drop)]
pub struct ServedRack<'r, R> {
    rt: &'r R,
    lending: Lending,
    shelves: MemoryShelves,
}

impl<'r, R> ServedRack<'r, R> {
    /// A rack of which no disk is out or was asked for.
    pub fn new(rt: &'r R, alloc: Global) -> ServedRack<'r, R>
        ensures out { (number : ℕ) → is_out result.lending number ≡ false }
        ensures faults { result.lending.faults ≡ 0 }
        ensures failed { (number : ℕ) → failed_in result.lending.failed number ≡ 0 }
        ensures asked { asked_in result.lending.asked ≡ [] }
    {
        ServedRack {
            rt,
            lending: Lending::new(alloc),
            shelves: MemoryShelves::new(alloc),
        }
    }
}

// The disk in memory of this number, or the fault, which is counted.
fn take_memory(
    alloc: Global,
    lending: &mut Lending,
    shelves: &mut MemoryShelves,
    number: u32,
) -> Result<MemoryFile, RackFault>
    ensures fresh { IfOk result (λ disk. (memory_file_view disk).faults ≡ 0) }
    ensures out { OnOk result (Lends lending.old lending.new number) }
    ensures err { OnErr result (SameOut lending.old lending.new) }
    ensures counted { CountsTake lending.old lending.new number result }
    ensures failed { IsErrOf result RackFault.Failed → Rose lending.old.faults lending.new.faults }
    ensures later { lending.old.faults ≤ lending.new.faults }
    ensures asked { lending.new.asked ≡ lending.old.asked }
{
    lending.reserve()?;
    match shelves.take(alloc, number) {
        Ok(disk) => {
            lending.lend(number);
            Ok(MemoryFile::new(disk))
        }
        Err(RackFault::Memory) => Err(RackFault::Memory),
        Err(RackFault::Failed) => Err(lending.fail(number)),
    }
}

impl<'r, R: Files<File = File> + Clock + Eprint> Rack<ServedDisk<'r, R>> for ServedRack<'r, R> {
    ghost tells = { false };

    ghost view = { λ rack. lending_view rack.lending };

    fn faults(&self) -> u64 {
        self.lending.faults()
    }

    fn take(
        &mut self,
        alloc: Global,
        directory: &str,
        number: u32,
    ) -> Result<ServedDisk<'r, R>, RackFault> {
        let lending = &mut self.lending;
        lending.ask(number);
        if directory == MEMORY {
            let disk = take_memory(alloc, lending, &mut self.shelves, number)?;
            Ok(ServedDisk::Memory(disk))
        } else {
            let path = format!(in alloc; "{directory}/shelf-{number}")?;
            let disk = take_file(self.rt, alloc, lending, directory, number)?;
            let watch = Watch::new(self.rt, path);
            Ok(ServedDisk::File(WatchedFile::new(disk, watch)))
        }
    }

    fn give(&mut self, number: u32, disk: ServedDisk<'r, R>) {
        self.lending.take_back(number, disk.faults());
        match disk {
            ServedDisk::Memory(disk) => self.shelves.give(number, disk.into_disk()),
            ServedDisk::File(disk) => drop(disk),
        }
    }
}
