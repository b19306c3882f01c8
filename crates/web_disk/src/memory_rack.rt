ghost use Rattle.std.specs.Prelude.{◌≡◌, ◌≢◌, ◌≤◌, ◌<◌, ◌+◌, ◌-◌, ◌^◌, ◌++◌, [], ◌∷◌, ℕ, min, true, false, Some, None, IfOk, OnOk, OnErr, IsErrOf, option_map};
ghost use Rattle.web_outside.specs.Causes.{Rose};
ghost use Rattle.web_disk.specs.View.{AreAmong};
ghost use Rattle.web_disk.specs.Disks.{memory_view};
ghost use Rattle.web_disk.specs.Asked.{asked_in};
ghost use Rattle.web_disk.specs.Failures.{failed_in};
ghost use Rattle.web_disk.specs.Takes.{failed_after};
ghost use Rattle.web_disk.specs.declared.rack.RackFault.TheVariants.{Failed as RackFailed};
ghost use Rattle.web_disk.specs.Racks.{place_of, disk_in, emptied, may_hold, is_lent, rack_view, bytes_at, take_fails, faults_after_take, IsTakenFrom, SameRules};

use crate::{Asked, Disk, Failures, MemoryDisk, Rack, RackFault, Wreck};
use std::alloc::{AllocError, Global};
use std::mem;

/// Disks in memory, numbered from 0 on. A disk that was given back is what a crash leaves of it when it is taken again.
#[derive(Drop)]
pub struct MemoryRack {
    disks: Vec<Option<MemoryDisk>>,
    wreck: Wreck,
    // The numbers of the takes that fail, the first take being 0.
    failing: Vec<u64>,
    takes: u64,
    faults: u64,
    failed: Failures,
    asked: Asked,
}

impl MemoryRack {
    /// A rack without disks, whose disks crash like this, and whose takes of these numbers fail, the first take being 0.
    pub fn new(alloc: Global, wreck: Wreck, failing: Vec<u64>) -> MemoryRack
        ensures disks { result.disks.items ≡ [] }
        ensures wreck { result.wreck ≡ wreck }
        ensures failing { result.failing.items ≡ failing.items }
        ensures takes { result.takes ≡ 0 }
        ensures faults { result.faults ≡ 0 }
        ensures failed { (n : ℕ) → failed_in result.failed n ≡ 0 }
        ensures asked { asked_in result.asked ≡ [] }
    {
        MemoryRack {
            disks: Vec::new(alloc),
            wreck,
            failing,
            takes: 0,
            faults: 0,
            failed: Failures::new(),
            asked: Asked::new(),
        }
    }

    /// Adds a disk, whose number is the count of those before it.
    pub fn add(&mut self, disk: MemoryDisk) -> Result<(), AllocError>
        ensures ok { OnOk result (self.new.disks.items ≡ self.old.disks.items ++ Some disk ∷ []) }
        ensures err { OnErr result (self.new.disks.items ≡ self.old.disks.items) }
        ensures wreck { self.new.wreck ≡ self.old.wreck }
        ensures failing { self.new.failing.items ≡ self.old.failing.items }
        ensures takes { self.new.takes ≡ self.old.takes }
        ensures faults { self.new.faults ≡ self.old.faults }
        ensures failed { self.new.failed ≡ self.old.failed }
        ensures asked { self.new.asked ≡ self.old.asked }
    {
        self.disks.push(Some(disk))?;
        Ok(())
    }

    /// What is read of the disk of this number; nothing where it is out, or where there is none.
    pub fn bytes(&self, number: u32) -> Option<&[u8]>
        ensures { option_map (λ bytes. bytes.now) result ≡ bytes_at self.now number }
    {
        match self.disks.get(number as usize) {
            Some(Some(disk)) => Some(disk.bytes()),
            _ => None,
        }
    }

    // Takes out the disk of this number.
    fn take_out(&mut self, number: u32) -> Option<MemoryDisk>
        ensures taken { result ≡ disk_in (place_of self.old number) }
        ensures out { place_of self.new number ≡ emptied (place_of self.old number) }
        ensures others { (n : ℕ) → n ≢ number → place_of self.new n ≡ place_of self.old n }
        ensures wreck { self.new.wreck ≡ self.old.wreck }
        ensures failing { self.new.failing.items ≡ self.old.failing.items }
        ensures takes { self.new.takes ≡ self.old.takes }
        ensures faults { self.new.faults ≡ self.old.faults }
        ensures failed { self.new.failed ≡ self.old.failed }
        ensures asked { self.new.asked ≡ self.old.asked }
    {
        let index = number as usize;
        if index >= self.disks.len() {
            return None;
        }
        mem::replace(&mut self.disks[index], None)
    }

    // Puts a disk into the place of this number, if there is one.
    fn put_back(&mut self, number: u32, disk: MemoryDisk)
        ensures there { place_of self.old number ≢ None →
            place_of self.new number ≡ Some (Some disk) }
        ensures nowhere { place_of self.old number ≡ None → place_of self.new number ≡ None }
        ensures home { is_lent self.new number ≡ false }
        ensures others { (n : ℕ) → n ≢ number → place_of self.new n ≡ place_of self.old n }
        ensures wreck { self.new.wreck ≡ self.old.wreck }
        ensures failing { self.new.failing.items ≡ self.old.failing.items }
        ensures takes { self.new.takes ≡ self.old.takes }
        ensures faults { self.new.faults ≡ self.old.faults }
        ensures failed { self.new.failed ≡ self.old.failed }
        ensures asked { self.new.asked ≡ self.old.asked }
    {
        let index = number as usize;
        if index < self.disks.len() {
            drop(mem::replace(&mut self.disks[index], Some(disk)));
        }
    }

    // Counts a take of the disk of this number that failed.
    fn fail(&mut self, number: u32) -> RackFault
        ensures answer { result ≡ RackFailed }
        ensures disks { self.new.disks.items ≡ self.old.disks.items }
        ensures wreck { self.new.wreck ≡ self.old.wreck }
        ensures failing { self.new.failing.items ≡ self.old.failing.items }
        ensures takes { self.new.takes ≡ self.old.takes }
        ensures faults { self.new.faults ≡ min (self.old.faults + 1) (2 ^ 64 - 1) }
        ensures later { self.old.faults ≤ self.new.faults }
        ensures counted { failed_in self.new.failed number ≡ failed_in self.old.failed number + 1 }
        ensures others { (n : ℕ) → n ≢ number →
            failed_in self.new.failed n ≡ failed_in self.old.failed n }
        ensures asked { self.new.asked ≡ self.old.asked }
    {
        self.faults = self.faults.saturating_add(1);
        self.failed.count(number, 1);
        RackFault::Failed
    }
}

impl Rack<MemoryDisk> for MemoryRack {
    ghost tells = { true };

    ghost view = { λ rack. rack_view rack };

    fn faults(&self) -> u64 {
        self.faults
    }

    // It fails exactly where it is listed, and where the disk is out or there is none.
    fn take(&mut self, alloc: Global, directory: &str, number: u32) -> Result<MemoryDisk, RackFault>
        ensures images { IfOk result (λ disk.
            AreAmong (memory_view disk).images (may_hold self.old number)) }
        ensures taken { IfOk result (λ disk.
            IsTakenFrom self.old.wreck (disk_in (place_of self.old number)) disk) }
        ensures fresh { IfOk result (λ disk. (memory_view disk).faults ≡ 0) }
        ensures out { OnOk result (is_lent self.new number ≡ true) }
        ensures others { (n : ℕ) → n ≢ number →
            AreAmong (may_hold self.new n) (may_hold self.old n) }
        ensures others_out { (n : ℕ) → n ≢ number → is_lent self.new n ≡ is_lent self.old n }
        ensures err { OnErr result ((n : ℕ) →
            AreAmong (may_hold self.new n) (may_hold self.old n)) }
        ensures err_out { OnErr result ((n : ℕ) → is_lent self.new n ≡ is_lent self.old n) }
        ensures failed { IsErrOf result RackFault.Failed → Rose self.old.faults self.new.faults }
        ensures later { self.old.faults ≤ self.new.faults }
        ensures counted { failed_in self.new.failed number
            ≡ failed_after result (failed_in self.old.failed number) }
        ensures others_counted { (n : ℕ) → n ≢ number →
            failed_in self.new.failed n ≡ failed_in self.old.failed n }
        ensures fails { take_fails self.old number ≡ true → IsErrOf result RackFault.Failed }
        ensures fails_only { IsErrOf result RackFault.Failed → take_fails self.old number ≡ true }
        ensures faults { self.new.faults ≡ faults_after_take result self.old.faults }
        ensures takes { self.new.takes ≡ min (self.old.takes + 1) (2 ^ 64 - 1) }
        ensures asked { asked_in self.new.asked ≡ asked_in self.old.asked ++ number ∷ [] }
        ensures rules { SameRules self.old self.new }
    {
        let _ = directory;
        self.asked.note(number);
        let take = self.takes;
        self.takes = take.saturating_add(1);
        if self.failing.contains(&take) {
            return Err(self.fail(number));
        }
        let Some(mut disk) = self.take_out(number) else {
            return Err(self.fail(number));
        };
        match disk.begin_anew(alloc, self.wreck) {
            Ok(()) => Ok(disk),
            Err(_) => {
                self.put_back(number, disk);
                Err(RackFault::Memory)
            }
        }
    }

    fn give(&mut self, number: u32, disk: MemoryDisk)
        ensures images { AreAmong (may_hold self.new number) (memory_view disk).images }
        ensures there { is_lent self.old number ≡ true →
            place_of self.new number ≡ Some (Some disk) }
        ensures home { is_lent self.new number ≡ false }
        ensures others { (n : ℕ) → n ≢ number →
            AreAmong (may_hold self.new n) (may_hold self.old n) }
        ensures others_out { (n : ℕ) → n ≢ number → is_lent self.new n ≡ is_lent self.old n }
        ensures faults { self.new.faults ≡ min (self.old.faults + (memory_view disk).faults)
            (2 ^ 64 - 1) }
        ensures counted { failed_in self.new.failed number
            ≡ failed_in self.old.failed number + (memory_view disk).faults }
        ensures others_counted { (n : ℕ) → n ≢ number →
            failed_in self.new.failed n ≡ failed_in self.old.failed n }
        ensures takes { self.new.takes ≡ self.old.takes }
        ensures asked { asked_in self.new.asked ≡ asked_in self.old.asked }
        ensures rules { SameRules self.old self.new }
    {
        let faults = disk.faults();
        self.faults = self.faults.saturating_add(faults);
        self.failed.count(number, faults);
        self.put_back(number, disk);
    }
}
