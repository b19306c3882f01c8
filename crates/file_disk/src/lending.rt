ghost use Rattle.std.specs.Prelude.{◌≡◌, ◌≢◌, ◌≤◌, ◌<◌, ◌+◌, ◌-◌, ◌^◌, ◌==◌, ◌++◌, ◌∷◌, not, ℕ, false, min, [], OnOk, vec_len, vec_capacity};
ghost use Rattle.std.specs.List.{filter};
ghost use Rattle.web_outside.specs.Causes.{Rose};
ghost use Rattle.web_disk.specs.Asked.{asked_in};
ghost use Rattle.web_disk.specs.Failures.{failed_in};
ghost use Rattle.web_disk.specs.declared.rack.RackFault.TheVariants.{Failed as RackFailed};
ghost use Rattle.file_disk.specs.Lendings.{is_out, Lends, SameOthers, SameOut};

use std::alloc::{AllocError, Global};
use web_disk::{Asked, Failures, RackFault};

/// Which disks of a rack are out, which were asked for, and how often a call failed.
#[derive(Drop)]
pub struct Lending {
    out: Vec<u32>,
    faults: u64,
    failed: Failures,
    asked: Asked,
}

// Takes out each such number.
fn remove(numbers: &mut Vec<u32>, number: u32)
    ensures { numbers.new.items ≡ filter (λ n. not (n == number)) numbers.old.items }
{
    numbers.retain(|n| *n != number);
}

impl Lending {
    /// No disk is out or was asked for, and no call has failed.
    pub fn new(alloc: Global) -> Lending
        ensures out { result.out.items ≡ [] }
        ensures faults { result.faults ≡ 0 }
        ensures failed { (n : ℕ) → failed_in result.failed n ≡ 0 }
        ensures asked { asked_in result.asked ≡ [] }
    {
        Lending {
            out: Vec::new(alloc),
            faults: 0,
            failed: Failures::new(),
            asked: Asked::new(),
        }
    }

    /// How often a call failed, up to the type's end.
    pub fn faults(&self) -> u64
        ensures { result ≡ self.now.faults }
    {
        self.faults
    }

    /// The disk of this number is asked for.
    pub fn ask(&mut self, number: u32)
        ensures asked { asked_in self.new.asked ≡ asked_in self.old.asked ++ number ∷ [] }
        ensures out { self.new.out ≡ self.old.out }
        ensures faults { self.new.faults ≡ self.old.faults }
        ensures failed { self.new.failed ≡ self.old.failed }
    {
        self.asked.note(number);
    }

    /// Makes room for one disk more.
    pub fn reserve(&mut self) -> Result<(), AllocError>
        ensures room { OnOk result (vec_len self.new.out < vec_capacity self.new.out) }
        ensures out { SameOut self.old self.new }
        ensures faults { self.new.faults ≡ self.old.faults }
        ensures failed { self.new.failed ≡ self.old.failed }
        ensures asked { self.new.asked ≡ self.old.asked }
    {
        self.out.reserve(1)
    }

    /// The disk of this number is out.
    pub fn lend(&mut self, number: u32)
        requires { vec_len self.old.out < vec_capacity self.old.out }
        ensures lends { Lends self.old self.new number }
        ensures faults { self.new.faults ≡ self.old.faults }
        ensures failed { self.new.failed ≡ self.old.failed }
        ensures asked { self.new.asked ≡ self.old.asked }
    {
        self.out.push_reserved(number);
    }

    /// Counts a take of the disk of this number that failed.
    pub fn fail(&mut self, number: u32) -> RackFault
        ensures failed { result ≡ RackFailed }
        ensures out { SameOut self.old self.new }
        ensures faults { self.new.faults ≡ min (self.old.faults + 1) (2 ^ 64 - 1) }
        ensures rose { Rose self.old.faults self.new.faults }
        ensures later { self.old.faults ≤ self.new.faults }
        ensures counted { failed_in self.new.failed number ≡ failed_in self.old.failed number + 1 }
        ensures others_counted { SameOthers self.old self.new number }
        ensures asked { self.new.asked ≡ self.old.asked }
    {
        self.faults = self.faults.saturating_add(1);
        self.failed.count(number, 1);
        RackFault::Failed
    }

    /// The disk of this number is home. So many of its calls failed.
    pub fn take_back(&mut self, number: u32, faults: u64)
        ensures home { is_out self.new number ≡ false }
        ensures others { (n : ℕ) → n ≢ number → is_out self.new n ≡ is_out self.old n }
        ensures faults { self.new.faults ≡ min (self.old.faults + faults) (2 ^ 64 - 1) }
        ensures counted { failed_in self.new.failed number
            ≡ failed_in self.old.failed number + faults }
        ensures others_counted { SameOthers self.old self.new number }
        ensures asked { self.new.asked ≡ self.old.asked }
    {
        remove(&mut self.out, number);
        self.faults = self.faults.saturating_add(faults);
        self.failed.count(number, faults);
    }
}
