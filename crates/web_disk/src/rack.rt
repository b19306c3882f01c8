ghost use Rattle.std.specs.Prelude.{◌≡◌, ◌≢◌, ◌≤◌, ◌+◌, ◌-◌, ◌^◌, ◌++◌, ◌∷◌, [], Bool, true, false, IsTrue, ℕ, min, IfOk, OnOk, OnErr, IsErrOf};
ghost use Rattle.web_outside.specs.Causes.{Rose};
ghost use Rattle.web_disk.specs.View.{RackView, AreAmong};
ghost use Rattle.web_disk.specs.Takes.{failed_after};
ghost use Rattle.web_disk.specs.declared.rack.RackFault.TheVariants.{Failed as RackFailed, Memory as RackMemory};

use crate::Disk;
use std::alloc::{AllocError, Global};
use thiserror::Error;
use web_outside::Failed;

/// Why a disk was not taken.
#[derive(Clone, Copy, Debug, PartialEq, Eq, Error)]
pub enum RackFault {
    /// The rack or the disk failed.
    #[error("the rack or the disk failed")]
    Failed,
    /// Memory ran out.
    #[error("memory ran out")]
    Memory,
}

impl From<Failed> for RackFault {
    ghost from_gives = { λ _ fault. fault ≡ RackFailed };

    fn from(_: Failed) -> Self {
        RackFault::Failed
    }
}

impl From<AllocError> for RackFault {
    ghost from_gives = { λ _ fault. fault ≡ RackMemory };

    fn from(_: AllocError) -> Self {
        RackFault::Memory
    }
}

/// Where disks are taken from and given back to, by their numbers. It is asked for one directory alone.
pub trait Rack<D: Disk> {
    /// Whether it tells what its disks may hold. A directory of files cannot.
    ghost tells: { Bool };

    /// What contracts see of it.
    ghost view: { Self → RackView };

    /// How often a call failed, up to the type's end.
    fn faults(&self) -> u64
        ensures { result ≡ (view self.now).faults };

    /// Takes the disk of this number out of the directory.
    fn take(&mut self, alloc: Global, directory: &str, number: u32) -> Result<D, RackFault>
        ensures images { IsTrue tells →
            IfOk result (λ disk. AreAmong (D.view disk).images ((view self.old).holds number)) }
        ensures fresh { IfOk result (λ disk. (D.view disk).faults ≡ 0) }
        ensures out { OnOk result ((view self.new).out number ≡ true) }
        ensures others { (n : ℕ) → n ≢ number →
            AreAmong ((view self.new).holds n) ((view self.old).holds n) }
        ensures others_out { (n : ℕ) → n ≢ number → (view self.new).out n ≡ (view self.old).out n }
        ensures err { OnErr result ((n : ℕ) →
            AreAmong ((view self.new).holds n) ((view self.old).holds n)) }
        ensures err_out { OnErr result ((n : ℕ) → (view self.new).out n ≡ (view self.old).out n) }
        ensures failed { IsErrOf result RackFault.Failed →
            Rose (view self.old).faults (view self.new).faults }
        ensures later { (view self.old).faults ≤ (view self.new).faults }
        ensures asked { (view self.new).asked ≡ (view self.old).asked ++ number ∷ [] }
        ensures counted { (view self.new).failed number
            ≡ failed_after result ((view self.old).failed number) }
        ensures others_counted { (n : ℕ) → n ≢ number →
            (view self.new).failed n ≡ (view self.old).failed n };

    /// Gives back the disk of this number. The faults of the disk since it was taken count as the rack's, for this number.
    fn give(&mut self, number: u32, disk: D)
        ensures images { IsTrue tells →
            AreAmong ((view self.new).holds number) (D.view disk).images }
        ensures others { (n : ℕ) → n ≢ number →
            AreAmong ((view self.new).holds n) ((view self.old).holds n) }
        ensures home { (view self.new).out number ≡ false }
        ensures others_out { (n : ℕ) → n ≢ number → (view self.new).out n ≡ (view self.old).out n }
        ensures faults { (view self.new).faults ≡ min
            ((view self.old).faults + (D.view disk).faults) (2 ^ 64 - 1) }
        ensures asked { (view self.new).asked ≡ (view self.old).asked }
        ensures counted { (view self.new).failed number
            ≡ (view self.old).failed number + (D.view disk).faults }
        ensures others_counted { (n : ℕ) → n ≢ number →
            (view self.new).failed n ≡ (view self.old).failed n };
}
