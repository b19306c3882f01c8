ghost use Rattle.std.specs.Prelude.{◌≡◌, ◌≤◌, ℕ, [], false, IfOk, OnOk, OnErr, IsErrOf};
ghost use Rattle.web_outside.specs.Causes.{Rose};
ghost use Rattle.web_disk.specs.Asked.{asked_in};
ghost use Rattle.web_disk.specs.Failures.{failed_in};
ghost use Rattle.file_disk.specs.Lendings.{is_out, CountsTake, Lends, SameOut, lending_view};

use crate::FileDisk;
use crate::lending::Lending;
use crate::open::{Refusal, open_alone};
use std::alloc::Global;
use std::fs::{File, Files};
use web_disk::{Disk, Rack, RackFault};

/// Disks that are files: that of number N is the file `shelf-N` of the directory. A file is held by one process alone. Where one is not taken, the reason is told on the standard error, and where others than its owner may use a file, that is told too.
#[derive(Drop)]
pub struct FileRack<'r, R> {
    rt: &'r R,
    lending: Lending,
}

impl<'r, R> FileRack<'r, R> {
    /// A rack of which no disk is out or was asked for.
    pub fn new(rt: &'r R, alloc: Global) -> FileRack<'r, R>
        ensures out { (number : ℕ) → is_out result.lending number ≡ false }
        ensures faults { result.lending.faults ≡ 0 }
        ensures failed { (number : ℕ) → failed_in result.lending.failed number ≡ 0 }
        ensures asked { asked_in result.lending.asked ≡ [] }
    {
        FileRack {
            rt,
            lending: Lending::new(alloc),
        }
    }
}

/// The file of a disk, or the fault, which is told and counted.
pub fn take_file<R: Files<File = File> + Eprint>(
    rt: &R,
    alloc: Global,
    lending: &mut Lending,
    directory: &str,
    number: u32,
) -> Result<FileDisk<File>, RackFault>
    ensures fresh { IfOk result (λ disk. disk.faults ≡ 0) }
    ensures out { OnOk result (Lends lending.old lending.new number) }
    ensures err { OnErr result (SameOut lending.old lending.new) }
    ensures counted { CountsTake lending.old lending.new number result }
    ensures failed { IsErrOf result RackFault.Failed → Rose lending.old.faults lending.new.faults }
    ensures later { lending.old.faults ≤ lending.new.faults }
    ensures asked { lending.new.asked ≡ lending.old.asked }
{
    lending.reserve()?;
    let path = format!(in alloc; "{directory}/shelf-{number}")?;
    match open_alone(rt, directory, path.as_str()) {
        Ok(opened) => {
            if opened.shared {
                let _ = eprintln!(rt; "hovgyelit: {path}: others than its owner may use it");
            }
            lending.lend(number);
            Ok(FileDisk::new(opened.file))
        }
        Err(Refusal::Memory) => Err(RackFault::Memory),
        Err(refusal) => {
            let _ = eprintln!(rt; "hovgyelit: {path}: {refusal}");
            Err(lending.fail(number))
        }
    }
}

impl<'r, R: Files<File = File> + Eprint> Rack<FileDisk<File>> for FileRack<'r, R> {
    ghost tells = { false };

    ghost view = { λ rack. lending_view rack.lending };

    fn faults(&self) -> u64 {
        self.lending.faults()
    }

    fn take(
        &mut self,
        alloc: Global,
        directory: &str,
        number: u32,
    ) -> Result<FileDisk<File>, RackFault> {
        self.lending.ask(number);
        take_file(self.rt, alloc, &mut self.lending, directory, number)
    }

    fn give(&mut self, number: u32, disk: FileDisk<File>) {
        self.lending.take_back(number, disk.faults());
    }
}
