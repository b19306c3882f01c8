ghost use Rattle.std.specs.Prelude.{◌≡◌, ◌≤◌, IsTrue, true, false};
ghost use Rattle.web_outside.specs.Causes.{Rose};
ghost use Rattle.play_steps.specs.Step.{IsTold, IsWithin, is_told, steps_of};
ghost use Rattle.play_steps.specs.Played.{end_of};
ghost use Rattle.play_steps.specs.Staged.{Edited, Played, Stepped};
ghost use Rattle.play_steps.specs.Losses.{LosesAtEnd, LosesInTurn, NoneIsLostToBytes, NoneIsLostToDamage, NoneIsLostToMemory, NoneIsLostToOther, RoseAtLost, RoseForLost};
ghost use Rattle.play_steps.specs.Rules.{StaysAt, StaysFirst, StaysHome, StaysUp};
ghost use Rattle.play_steps.specs.Views.{meaning};

use crate::course::{Course, Next};
use crate::performing::{Halt, fits, perform};
use crate::report::print;
use crate::stage::{Reopen, Stage};
use crate::step::Step;
use std::alloc::Global;
use web_outside::{Sink, write_all};

/// Why a run ended.
#[derive(Clone, Copy, Debug, PartialEq, Eq)]
pub enum PlayEnd {
    /// Each step was answered.
    Done,
    /// At the line of this number stands no step, or one that does not fit; the first is 1.
    Line(u64),
    /// A reply could not be written whole.
    Write,
    /// There was no memory for what a step told, or for its text, or to open a shelf again.
    Memory,
    /// This shelf's disk crashed, and the shelf was not opened again, for another cause than memory.
    Reopen { shelf: u32, why: Reopen },
}

impl PlayEnd {
    // The end of a run that halts so.
    fn of(halt: Halt) -> PlayEnd
        ensures { result ≡ end_of halt }
    {
        match halt {
            Halt::Memory => PlayEnd::Memory,
            Halt::Reopen { shelf, why } => PlayEnd::Reopen { shelf, why },
        }
    }
}

// What one step came to.
enum Turn {
    Went,
    NoFit,
    Write,
    Halted(Halt),
}

// Tries an edit.
fn play_edit<T: Stage>(stage: &mut T, name: &[u8], text: &[u8]) -> Turn
    requires { T.sound stage.old }
    ensures turned { Edited T.Stage name.now text.now result stage.old stage.new }
    ensures sound { T.sound stage.new }
    ensures own { T.own stage.old → T.own stage.new }
    ensures home { StaysHome (T.at_home stage.old) (T.at_home stage.new) }
    ensures same { StaysAt (T.faults stage.old) (T.faults stage.new) }
{
    match stage.edit(name, text) {
        Ok(true) => Turn::Went,
        Ok(false) => Turn::NoFit,
        Err(_) => Turn::Halted(Halt::Memory),
    }
}

// Plays one step.
fn play_step<T: Stage, O: Sink>(
    alloc: Global,
    stage: &mut T,
    devices: &mut T::Devices,
    step: &Step,
    sink: &mut O,
) -> Turn
    requires sound { T.sound stage.old }
    requires range { IsWithin (meaning step.now) }
    requires home { T.at_home stage.old devices.old }
    ensures turned { Stepped T.Stage O.view step.now result
        stage.old devices.old sink.old stage.new devices.new sink.new }
    ensures write { result ≡ Turn.Write → Rose (O.view sink.old).faults (O.view sink.new).faults }
    ensures later { (O.view sink.old).faults ≤ (O.view sink.new).faults }
    ensures sound { T.sound stage.new }
    ensures own { IsTold T.tells (meaning step.now) → T.own stage.old → T.own stage.new }
    ensures home { T.at_home stage.new devices.new }
    ensures devices_later { T.faults stage.old devices.old ≤ T.faults stage.new devices.new }
    ensures disk { RoseForLost (LosesInTurn result)
        (T.faults stage.old devices.old) (T.faults stage.new devices.new) }
    ensures failed { RoseAtLost (LosesInTurn result) (T.failed devices.old) (T.failed devices.new) }
    ensures failed_later { StaysUp (T.failed devices.old) (T.failed devices.new) }
    ensures asked { StaysFirst (T.asked devices.old) (T.asked devices.new) }
    ensures why { NoneIsLostToMemory (LosesInTurn result) }
    ensures bytes { NoneIsLostToBytes (LosesInTurn result) }
    ensures damaged { IsTrue T.tells → NoneIsLostToDamage (LosesInTurn result) }
    ensures other { IsTrue T.tells → NoneIsLostToOther (LosesInTurn result) }
{
    if let Step::Edit { name, text } = step {
        return play_edit(stage, name, text);
    }
    if !fits(stage, step) {
        return Turn::NoFit;
    }
    let told = match perform(alloc, stage, devices, step) {
        Ok(told) => told,
        Err(halt) => return Turn::Halted(halt),
    };
    let Ok(text) = print(alloc, &told) else {
        return Turn::Halted(Halt::Memory);
    };
    match write_all(sink, &text) {
        Ok(()) => Turn::Went,
        Err(_) => Turn::Write,
    }
}

/// Plays the steps, and writes what each prints.
///
/// After an edit comes the crash of every shelf, in order.
///
/// For some fates of their events, the sink grows by the transcript of the steps over the stage's
/// rules, and the stage is left in its last state; this is said of a stage that holds what its own
/// events left, and not where disks tell nothing and a step is a crash or an edit. A line that is no
/// step, or does not fit, ends the run. A failed write and want of memory for a text end it at a step
/// that was performed, after the whole text of all before it. A shelf that crashed and was not opened
/// again ends it there, after the same; so does an edit that there is no memory to try.
pub fn play<T: Stage, O: Sink>(
    alloc: Global,
    stage: &mut T,
    devices: &mut T::Devices,
    text: &[u8],
    sink: &mut O,
) -> PlayEnd
    requires sound { T.sound stage.old }
    requires home { T.at_home stage.old devices.old }
    ensures ended { Played T.Stage O.view text.now result
        stage.old devices.old sink.old stage.new devices.new sink.new }
    ensures write { result ≡ PlayEnd.Write
        → Rose (O.view sink.old).faults (O.view sink.new).faults }
    ensures later { (O.view sink.old).faults ≤ (O.view sink.new).faults }
    ensures sound { T.sound stage.new }
    ensures own { is_told T.tells (steps_of text.now) ≡ true → T.own stage.old → T.own stage.new }
    ensures home { T.at_home stage.new devices.new }
    ensures devices_later { T.faults stage.old devices.old ≤ T.faults stage.new devices.new }
    ensures disk { RoseForLost (LosesAtEnd result)
        (T.faults stage.old devices.old) (T.faults stage.new devices.new) }
    ensures failed { RoseAtLost (LosesAtEnd result) (T.failed devices.old) (T.failed devices.new) }
    ensures failed_later { StaysUp (T.failed devices.old) (T.failed devices.new) }
    ensures asked { StaysFirst (T.asked devices.old) (T.asked devices.new) }
    ensures why { NoneIsLostToMemory (LosesAtEnd result) }
    ensures bytes { NoneIsLostToBytes (LosesAtEnd result) }
    ensures damaged { IsTrue T.tells → NoneIsLostToDamage (LosesAtEnd result) }
    ensures other { IsTrue T.tells → NoneIsLostToOther (LosesAtEnd result) }
{
    let mut course = Course::new(text, stage.shelves());
    let mut number = 1u64;
    'steps: loop {
        match course.next() {
            Next::Over => return PlayEnd::Done,
            Next::NoStep => return PlayEnd::Line(number),
            Next::Step(step, after) => {
                match play_step(alloc, stage, devices, &step, sink) {
                    Turn::Went => {}
                    Turn::NoFit => return PlayEnd::Line(number),
                    Turn::Write => return PlayEnd::Write,
                    Turn::Halted(halt) => return PlayEnd::of(halt),
                }
                course = after;
                number += step.lines();
            }
        }
    }
}
