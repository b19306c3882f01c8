ghost use Rattle.std.specs.Prelude.{◌≡◌, ◌≤◌, ◌<◌, ◌^◌, ◌∷◌, [], IsTrue, OnOk, true, false};
ghost use Rattle.play_steps.specs.Step.{IsTold, IsWithin, is_edit};
ghost use Rattle.play_steps.specs.Rules.{KeepsShelves, StaysFirst, StaysHome, StaysUp};
ghost use Rattle.play_steps.specs.Transcript.{fits};
ghost use Rattle.play_steps.specs.Views.{meaning};
ghost use Rattle.play_steps.specs.Played.{Lengthens, TellsCrash, TellsOne};
ghost use Rattle.play_steps.specs.Staged.{Performed, SweepsEach};
ghost use Rattle.play_steps.specs.Losses.{LosesBy, NoneIsLostToBytes, NoneIsLostToDamage, NoneIsLostToMemory, NoneIsLostToOther, RoseAtLost, RoseForLost};
ghost use Rattle.play_steps.specs.declared.performing.Halt.TheVariants.{Memory as HaltMemory};

use crate::report::Report;
use crate::stage::{Reopen, Stage};
use crate::step::Step;
use std::alloc::{AllocError, AllocFailed, Global};

/// Why a step told nothing.
#[derive(Clone, Copy, Debug, PartialEq, Eq)]
pub enum Halt {
    /// There was no memory for it.
    Memory,
    /// The shelf's disk crashed, and the shelf was not opened again, for another cause.
    Reopen { shelf: u32, why: Reopen },
}

impl From<AllocError> for Halt {
    ghost from_gives = { λ _ halt. halt ≡ HaltMemory };

    fn from(_: AllocError) -> Self {
        Halt::Memory
    }
}

impl<T: Drop> From<AllocFailed<T>> for Halt {
    ghost from_gives = { λ _ halt. halt ≡ HaltMemory };

    fn from(_: AllocFailed<T>) -> Self {
        Halt::Memory
    }
}

/// Whether the step fits what the workers hold, and the shelves that there are. An edit is tried
/// instead.
pub fn fits<T: Stage>(stage: &T, step: &Step) -> bool
    requires sound { T.sound stage.now }
    requires range { IsWithin (meaning step.now) }
    requires no_edit { is_edit (meaning step.now) ≡ false }
    ensures { result ≡ fits T.rules (meaning step.now) (T.state stage.now) }
{
    match step {
        Step::Take { worker, .. } => !stage.holds(*worker),
        Step::Publish { worker } => stage.holds(*worker),
        Step::Get { worker, .. } => !stage.holds(*worker),
        Step::Tick { .. } => true,
        Step::Crash { shelf } | Step::CrashEdited { shelf } | Step::Compact { shelf } => {
            *shelf < stage.shelves()
        }
        Step::Edit { .. } => unreachable!(),
    }
}

// One report alone.
fn one(alloc: Global, report: Report) -> Result<Vec<Report>, Halt>
    ensures { TellsOne report result }
{
    let mut reports = Vec::new(alloc);
    reports.push(report)?;
    Ok(reports)
}

// Reports, and one more.
fn and_report(
    told: Result<Vec<Report>, AllocError>,
    report: Report,
) -> Result<Vec<Report>, AllocError>
    ensures { Lengthens told (report ∷ []) result }
{
    let mut reports = told?;
    reports.push(report)?;
    Ok(reports)
}

// Sweeps every shelf in order, also where there is no memory for what is told.
fn sweep_all<T: Stage>(alloc: Global, stage: &mut T, time: u64) -> Result<Vec<Report>, AllocError>
    requires sound { T.sound stage.old }
    requires time { time < 2 ^ 62 }
    ensures swept { SweepsEach T.Stage time result stage.old stage.new }
    ensures sound { T.sound stage.new }
    ensures own { T.own stage.old → T.own stage.new }
    ensures home { StaysHome (T.at_home stage.old) (T.at_home stage.new) }
    ensures later { StaysUp (T.faults stage.old) (T.faults stage.new) }
    ensures shelves { KeepsShelves T.rules (T.state stage.old) (T.state stage.new) }
{
    let count = stage.shelves();
    let mut told = Ok(Vec::new(alloc));
    for shelf in 0..count {
        let swept = stage.sweep(shelf, time);
        told = and_report(told, Report::of_sweep(shelf, swept));
    }
    told
}

// What a crash told: how many instances are live, or why the shelf was not opened again.
fn crash_report(alloc: Global, shelf: u32, opened: Result<u32, Reopen>) -> Result<Vec<Report>, Halt>
    ensures { TellsCrash shelf opened result }
{
    match opened {
        Ok(live) => one(alloc, Report::Reopened { shelf, live }),
        Err(Reopen::Memory) => Err(Halt::Memory),
        Err(why) => Err(Halt::Reopen { shelf, why }),
    }
}

/// Performs a step that fits and is no edit, and gives what its events told. Every event of the step
/// takes place, also where there is no memory for that; but of a shelf that is not opened again nothing
/// more is known. What is told leaves as many shelves as there were.
pub fn perform<T: Stage>(
    alloc: Global,
    stage: &mut T,
    devices: &mut T::Devices,
    step: &Step,
) -> Result<Vec<Report>, Halt>
    requires sound { T.sound stage.old }
    requires range { IsWithin (meaning step.now) }
    requires no_edit { is_edit (meaning step.now) ≡ false }
    requires fitting { fits T.rules (meaning step.now) (T.state stage.old) ≡ true }
    requires home { T.at_home stage.old devices.old }
    ensures came { Performed T.Stage (meaning step.now) result
        stage.old devices.old stage.new devices.new }
    ensures shelves { OnOk result (KeepsShelves T.rules (T.state stage.old) (T.state stage.new)) }
    ensures sound { T.sound stage.new }
    ensures own { IsTold T.tells (meaning step.now) → T.own stage.old → T.own stage.new }
    ensures home { T.at_home stage.new devices.new }
    ensures later { T.faults stage.old devices.old ≤ T.faults stage.new devices.new }
    ensures disk { RoseForLost (LosesBy result)
        (T.faults stage.old devices.old) (T.faults stage.new devices.new) }
    ensures failed { RoseAtLost (LosesBy result) (T.failed devices.old) (T.failed devices.new) }
    ensures failed_later { StaysUp (T.failed devices.old) (T.failed devices.new) }
    ensures asked { StaysFirst (T.asked devices.old) (T.asked devices.new) }
    ensures why { NoneIsLostToMemory (LosesBy result) }
    ensures bytes { NoneIsLostToBytes (LosesBy result) }
    ensures damaged { IsTrue T.tells → NoneIsLostToDamage (LosesBy result) }
    ensures other { IsTrue T.tells → NoneIsLostToOther (LosesBy result) }
{
    match step {
        Step::Take { worker, target } => {
            let taken = stage.take(*worker, target);
            one(alloc, Report::of_take(*worker, taken))
        }
        Step::Publish { worker } => {
            let reply = stage.publish(*worker);
            one(
                alloc,
                Report::Replied {
                    worker: *worker,
                    reply,
                },
            )
        }
        Step::Get { worker, target } => match stage.take(*worker, target) {
            Ok(_) => {
                let shown = stage.publish(*worker);
                one(
                    alloc,
                    Report::Replied {
                        worker: *worker,
                        reply: shown,
                    },
                )
            }
            Err(reply) => one(
                alloc,
                Report::Replied {
                    worker: *worker,
                    reply,
                },
            ),
        },
        Step::Tick { time } => Ok(sweep_all(alloc, stage, *time)?),
        Step::Crash { shelf } | Step::CrashEdited { shelf } => {
            let opened = stage.crash(devices, *shelf);
            crash_report(alloc, *shelf, opened)
        }
        Step::Compact { shelf } => {
            let compacted = stage.compact(*shelf);
            one(alloc, Report::of_compaction(*shelf, compacted))
        }
        Step::Edit { .. } => unreachable!(),
    }
}
