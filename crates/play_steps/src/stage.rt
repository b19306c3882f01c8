ghost use Rattle.std.specs.Prelude.{◌≡◌, ◌≤◌, ℕ, ◌<◌, ◌^◌, List, Bool, true, false, IsTrue, IfOk, IfErr, OnOk, OnErr, IsErrOf};
ghost use Rattle.web_outside.specs.Causes.{Rose};
ghost use Rattle.play_steps.specs.Rules.{StageRules, CompactsOn, CrashesOn, PublishesOn, SweepsOn, TakesOn, Edits, KeepsShelves, StaysAt, StaysFirst, StaysUp, StaysHome};
ghost use Rattle.server_limits.specs.Counts.{most_workers};
ghost use Rattle.play_steps.specs.declared.stage.Reopen.{Reopen};

use script_value::Reply;
use std::alloc::AllocError;

/// Why a shelf was not opened, at first or after a crash.
#[derive(Clone, Copy, Debug, PartialEq, Eq)]
pub enum Reopen {
    /// One of its disks has bytes already, where they have to be empty: no crash tells this.
    NotEmpty,
    /// A device failed.
    Disk,
    /// What stands at this place of its journal is no record.
    Damaged { place: u64 },
    /// The record at this place is that of another shelf.
    Other { place: u64 },
    /// With the setup that it is opened with, its journal would have this length in bytes, too many.
    Full { len: u64 },
    /// There was no memory for it.
    Memory,
}

/// What performs the events of a run's steps: shelves, and the tickets that `MOST_WORKERS` workers hold.
pub trait Stage {
    /// Where shelves that crash find their disks. It is lent for each call that needs it.
    type Devices;

    /// What its events do.
    ghost rules: { StageRules };

    /// Whether its disks tell what they hold. Files cannot; then nothing is known of what a crash leaves.
    ghost tells: { Bool };

    /// The state that it stands for.
    ghost state: { Self → rules.State };

    /// What holds of it between its calls.
    ghost sound: { Self → Type 0 };

    /// That all it holds was left by events of its own: of what others left, it is not said what its events do.
    ghost own: { Self → Type 0 };

    /// What it and its devices owe each other.
    ghost at_home: { Self → Self.Devices → Type 0 };

    /// How often its disks and its devices failed, up to the type's end.
    ghost faults: { Self → Self.Devices → ℕ };

    /// How often its devices have failed for the disk of each shelf.
    ghost failed: { Self.Devices → ℕ → ℕ };

    /// That its devices were asked for the disks of these numbers first, in this order.
    ghost asked: { Self.Devices → (front : List ℕ) → Type 0 };

    /// What its devices hold where this shelf of a state crashed and was not opened again for this
    /// cause.
    ghost left: { Self.Devices → rules.State → (shelf : ℕ) → Reopen → Type 0 };

    /// How many shelves there are.
    fn shelves(&self) -> u32
        requires { sound self.now }
        ensures { result ≡ rules.shelves (state self.now) };

    /// Whether the worker, below `MOST_WORKERS`, holds a ticket.
    fn holds(&self, worker: u32) -> bool
        requires { worker < most_workers }
        ensures { result ≡ rules.holds (state self.now) worker };

    /// Draws a number for a visit of the target, and the worker holds its ticket; or the reply that
    /// says why not.
    fn take(&mut self, worker: u32, target: &[u8]) -> Result<u64, Reply>
        requires sound { sound self.old }
        requires worker { worker < most_workers }
        requires free { rules.holds (state self.old) worker ≡ false }
        ensures step { TakesOn rules own faults state self.old worker target.now result self.new }
        ensures held { IfOk result (λ _. rules.holds (state self.new) worker ≡ true) }
        ensures shelves { rules.shelves (state self.new) ≡ rules.shelves (state self.old) }
        ensures sound { sound self.new }
        ensures own { own self.old → own self.new }
        ensures home { StaysHome (at_home self.old) (at_home self.new) }
        ensures later { StaysUp (faults self.old) (faults self.new) };

    /// Runs the visit that the worker's ticket is for, and spends the ticket.
    fn publish(&mut self, worker: u32) -> Reply
        requires sound { sound self.old }
        requires worker { worker < most_workers }
        requires held { rules.holds (state self.old) worker ≡ true }
        ensures step { PublishesOn rules own faults state self.old worker result self.new }
        ensures shelves { rules.shelves (state self.new) ≡ rules.shelves (state self.old) }
        ensures sound { sound self.new }
        ensures own { own self.old → own self.new }
        ensures home { StaysHome (at_home self.old) (at_home self.new) }
        ensures later { StaysUp (faults self.old) (faults self.new) };

    /// Sweeps the shelf at the tick, in seconds: frees what is over by then, so many instances; or
    /// the reply that says why not.
    fn sweep(&mut self, shelf: u32, tick: u64) -> Result<u32, Reply>
        requires sound { sound self.old }
        requires shelf { shelf < rules.shelves (state self.old) }
        requires tick { tick < 2 ^ 62 }
        ensures step { SweepsOn rules own faults state self.old shelf tick result self.new }
        ensures shelves { rules.shelves (state self.new) ≡ rules.shelves (state self.old) }
        ensures sound { sound self.new }
        ensures own { own self.old → own self.new }
        ensures home { StaysHome (at_home self.old) (at_home self.new) }
        ensures later { StaysUp (faults self.old) (faults self.new) };

    /// Puts a file in the place of the shelf's that has no more than the shelf needs, of so many bytes; or the reply
    /// that says why not.
    fn compact(&mut self, shelf: u32) -> Result<u64, Reply>
        requires sound { sound self.old }
        requires shelf { shelf < rules.shelves (state self.old) }
        ensures step { CompactsOn rules own faults state self.old shelf result self.new }
        ensures shelves { rules.shelves (state self.new) ≡ rules.shelves (state self.old) }
        ensures sound { sound self.new }
        ensures own { own self.old → own self.new }
        ensures home { StaysHome (at_home self.old) (at_home self.new) }
        ensures later { StaysUp (faults self.old) (faults self.new) };

    /// Lets the shelf's disk crash, and opens the shelf again on what is left there: with so many live
    /// instances; or why not. Disks that tell what they hold have what makes a shelf; where they tell
    /// nothing, nothing is known of what is left.
    fn crash(&mut self, devices: &mut Self::Devices, shelf: u32) -> Result<u32, Reopen>
        requires sound { sound self.old }
        requires shelf { shelf < rules.shelves (state self.old) }
        requires home { at_home self.old devices.old }
        ensures step { CrashesOn rules own faults state tells
            self.old devices.old shelf result self.new devices.new }
        ensures shelves { OnOk result (KeepsShelves rules (state self.old) (state self.new)) }
        ensures sound { sound self.new }
        ensures own { IsTrue tells → own self.old → own self.new }
        ensures left { IsTrue tells → own self.old →
            IfErr result (left devices.new (state self.old) shelf) }
        ensures home { at_home self.new devices.new }
        ensures later { faults self.old devices.old ≤ faults self.new devices.new }
        ensures disk { IsErrOf result Reopen.Disk →
            Rose (faults self.old devices.old) (faults self.new devices.new) }
        ensures failed { IsErrOf result Reopen.Disk →
            Rose (failed devices.old shelf) (failed devices.new shelf) }
        ensures failed_later { StaysUp (failed devices.old) (failed devices.new) }
        ensures asked { StaysFirst (asked devices.old) (asked devices.new) }
        ensures bytes { IsErrOf result Reopen.NotEmpty → ⊥ }
        ensures damaged { IsTrue tells → (place : ℕ) → IsErrOf result (Reopen.Damaged place) → ⊥ }
        ensures other { IsTrue tells → (place : ℕ) → IsErrOf result (Reopen.Other place) → ⊥ };

    /// The script of this name has this text from now on, or stands after the others; a shelf has it
    /// once it is opened again. False, and nothing changes, exactly where that does not fit. Nothing
    /// changes either where there is no memory to see that.
    fn edit(&mut self, name: &[u8], text: &[u8]) -> Result<bool, AllocError>
        requires { sound self.old }
        ensures step { IfOk result (λ fits. Edits rules (state self.old) name.now text.now fits
            (state self.new)) }
        ensures kept { OnErr result (state self.new ≡ state self.old) }
        ensures shelves { rules.shelves (state self.new) ≡ rules.shelves (state self.old) }
        ensures sound { sound self.new }
        ensures own { own self.old → own self.new }
        ensures home { StaysHome (at_home self.old) (at_home self.new) }
        ensures same { StaysAt (faults self.old) (faults self.new) };
}
