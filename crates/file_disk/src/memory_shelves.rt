ghost use Rattle.std.specs.Prelude.{◌≡◌, ◌<◌, [], true, Some, IfOk};
ghost use Rattle.web_disk.specs.Disks.{memory_view};
ghost use Rattle.web_disk.specs.Racks.{place_of, is_lent};
ghost use Rattle.file_disk.specs.MemoryRacks.{KeepsDisks, TakesSurely, TakesThere};

use std::alloc::{AllocError, Global};
use web_disk::{MemoryDisk, MemoryRack, Rack, RackFault, Wreck};

/// Numbers of disks in memory are below this.
pub const MOST_MEMORY_DISKS: u32 = 64;

// All that was written stays.
const NO_WRECK: Wreck = Wreck {
    reached: u64::MAX,
    fill: 0,
    short: false,
};

/// Disks in memory, which are empty at first.
#[derive(Drop)]
pub struct MemoryShelves {
    rack: MemoryRack,
    // How many disks were made, those of the numbers below this.
    made: u32,
}

impl MemoryShelves {
    /// No disk was made yet.
    pub fn new(alloc: Global) -> MemoryShelves
        ensures disks { result.rack.disks.items ≡ [] }
        ensures failing { result.rack.failing.items ≡ [] }
        ensures made { result.made ≡ 0 }
    {
        MemoryShelves {
            rack: MemoryRack::new(alloc, NO_WRECK, Vec::new(alloc)),
            made: 0,
        }
    }

    // Makes the disks that are not there yet, up to that of this number.
    fn make(&mut self, alloc: Global, number: u32) -> Result<(), AllocError>
        requires { number < MOST_MEMORY_DISKS }
        ensures kept { KeepsDisks self.old.rack self.new.rack }
        ensures wreck { self.new.rack.wreck ≡ self.old.rack.wreck }
        ensures failing { self.new.rack.failing.items ≡ self.old.rack.failing.items }
    {
        'disks: for _ in self.made..number + 1 {
            let disk = MemoryDisk::new(alloc, Vec::new(alloc), Vec::new(alloc))?;
            self.rack.add(disk)?;
            self.made = self.made.saturating_add(1);
        }
        Ok(())
    }

    /// Takes the disk of this number: what a crash leaves of it where it was given back. It fails where the disk is out, and where the number is too large.
    pub fn take(&mut self, alloc: Global, number: u32) -> Result<MemoryDisk, RackFault>
        ensures fresh { IfOk result (λ disk. (memory_view disk).faults ≡ 0) }
        ensures taken { IfOk result (λ disk. TakesThere self.old.rack number disk) }
        ensures fails_only { number < MOST_MEMORY_DISKS → TakesSurely self.old.rack number result }
    {
        if number >= MOST_MEMORY_DISKS {
            return Err(RackFault::Failed);
        }
        self.make(alloc, number)?;
        self.rack.take(alloc, "-", number)
    }

    /// Keeps the disk of this number, which was taken here.
    pub fn give(&mut self, number: u32, disk: MemoryDisk)
        ensures { is_lent self.old.rack number ≡ true →
            place_of self.new.rack number ≡ Some (Some disk) }
    {
        self.rack.give(number, disk);
    }
}
