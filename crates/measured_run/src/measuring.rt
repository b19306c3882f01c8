ghost use Rattle.std.specs.Prelude.{◌≡◌, ◌<◌, ◌≤◌, ◌+◌, ◌^◌, IfOk, OnOk, IsTrue, string_bytes};
ghost use Rattle.measured_run.specs.Fnv.{goes_on};
ghost use Rattle.play_steps.specs.Losses.{LosesBy, NoneIsLostToBytes, NoneIsLostToDamage, NoneIsLostToMemory, NoneIsLostToOther, RoseAtLost, RoseForLost};
ghost use Rattle.play_steps.specs.Rules.{KeepsShelves, StaysFirst, StaysUp};
ghost use Rattle.play_steps.specs.Texts.{print};
ghost use Rattle.measured_run.specs.Counting.{line_of};
ghost use Rattle.measured_run.specs.Drawing.{HasLearned};
ghost use Rattle.measured_run.specs.Course.{HasGone, HasRun, holders_of, shelves_of};

use crate::{Fnv1a, Generator, Tally};
use play_steps::{Halt, Report, Stage, perform, print};
use std::alloc::{AllocError, Global};

/// How many steps a measured run has.
pub const LOAD_STEPS: u64 = 20_000;

/// What a measured run comes to: its counts, and the 64-bit FNV-1a of all that `play` would print of
/// its steps.
#[derive(Clone, Copy, Debug, PartialEq, Eq)]
pub struct Measure {
    pub tally: Tally,
    pub hash: u64,
}

impl Measure {
    /// The line that is printed of it: `steps K pages P refused Q hash H` and a newline, `H` in 16
    /// hexadecimal digits.
    pub fn line(&self, alloc: Global) -> Result<String, AllocError>
        ensures { IfOk result (λ text. string_bytes text ≡ line_of self.now) }
    {
        self.tally.summary(alloc, self.hash)
    }
}

/// How far a measured run came: what draws its steps, what is counted of them, and the hash of what
/// they print.
#[derive(Drop)]
pub(crate) struct Course {
    pub(crate) generator: Generator,
    pub(crate) tally: Tally,
    pub(crate) hash: Fnv1a,
}

// Which of the four workers hold a ticket.
fn holders<T: Stage>(stage: &T) -> [bool; 4]
    requires { T.sound stage.now }
    ensures { result ≡ holders_of T.rules (T.state stage.now) }
{
    [
        stage.holds(0),
        stage.holds(1),
        stage.holds(2),
        stage.holds(3),
    ]
}

// Learns of reports, one after the other.
fn learn_all(alloc: Global, told: &[Report], generator: &mut Generator) -> Result<(), AllocError>
    ensures learned { OnOk result (HasLearned told.now generator.old generator.new) }
    ensures clock { generator.new.clock ≡ generator.old.clock }
{
    for report in told {
        generator.learn_from(alloc, report)?;
    }
    Ok(())
}

// Goes on with a hash over what is printed of reports.
fn hash_all(alloc: Global, told: &[Report], hash: &mut Fnv1a) -> Result<(), AllocError>
    ensures { OnOk result (hash.new ≡ goes_on hash.old (print told.now)) }
{
    let text = print(alloc, told)?;
    hash.update(text.as_slice());
    Ok(())
}

// Draws the next step and performs it, and counts, prints into the hash and learns what it told.
fn go_on<T: Stage>(
    alloc: Global,
    stage: &mut T,
    devices: &mut T::Devices,
    course: &mut Course,
) -> Result<(), Halt>
    requires sound { T.sound stage.old }
    requires home { T.at_home stage.old devices.old }
    requires some { 0 < shelves_of T.rules (T.state stage.old) }
    requires clock { course.old.generator.clock + 59 < 2 ^ 62 }
    ensures went { HasGone T.Stage result
        course.old stage.old devices.old course.new stage.new devices.new }
    ensures shelves { OnOk result (KeepsShelves T.rules (T.state stage.old) (T.state stage.new)) }
    ensures slowly { course.new.generator.clock ≤ course.old.generator.clock + 59 }
    ensures sound { T.sound stage.new }
    ensures own { IsTrue T.tells → T.own stage.old → T.own stage.new }
    ensures home { T.at_home stage.new devices.new }
    ensures later { T.faults stage.old devices.old ≤ T.faults stage.new devices.new }
    ensures disk { RoseForLost (LosesBy result)
        (T.faults stage.old devices.old) (T.faults stage.new devices.new) }
    ensures failed { RoseAtLost (LosesBy result) (T.failed devices.old) (T.failed devices.new) }
    ensures failed_later { StaysUp (T.failed devices.old) (T.failed devices.new) }
    ensures asked { StaysFirst (T.asked devices.old) (T.asked devices.new) }
    ensures why { NoneIsLostToMemory (LosesBy result) }
    ensures bytes { NoneIsLostToBytes (LosesBy result) }
    ensures damaged { IsTrue T.tells → NoneIsLostToDamage (LosesBy result) }
    ensures other { IsTrue T.tells → NoneIsLostToOther (LosesBy result) }
{
    let shelves = stage.shelves();
    let workers = holders(stage);
    let Ok(step) = course.generator.next(alloc, shelves, workers) else {
        return Err(Halt::Memory);
    };
    let told = match perform(alloc, stage, devices, &step.as_step()) {
        Ok(told) => told,
        Err(halt) => return Err(halt),
    };
    course.tally.count(&told);
    match note(alloc, &told, course) {
        Ok(()) => Ok(()),
        Err(_) => Err(Halt::Memory),
    }
}

// Prints into the hash what was told, and learns of it.
fn note(alloc: Global, told: &[Report], course: &mut Course) -> Result<(), AllocError>
    ensures learned { OnOk result (HasLearned told.now course.old.generator course.new.generator) }
    ensures hashed { OnOk result (course.new.hash ≡ goes_on course.old.hash (print told.now)) }
    ensures tally { course.new.tally ≡ course.old.tally }
    ensures clock { course.new.generator.clock ≡ course.old.generator.clock }
{
    hash_all(alloc, told, &mut course.hash)?;
    learn_all(alloc, told, &mut course.generator)
}

/// Performs so many steps of the measured run of a number, of which nothing is printed: each is drawn
/// over the stage as those before it left it, and fits. Each step's text goes into the hash and is let
/// go.
///
/// For some fates of their events the answer is that of the transcript of these steps over the stage's
/// rules, and the stage is left in its last state; this is said of a stage whose disks tell, and that
/// holds what its own events left. A shelf that crashed and was not opened again ends the run there. So
/// does want of memory, after some of the steps.
pub fn load<T: Stage>(
    alloc: Global,
    stage: &mut T,
    devices: &mut T::Devices,
    number: u64,
    steps: u64,
) -> Result<Measure, Halt>
    requires low { 1 ≤ number }
    requires high { number ≤ 9223372036854775807 }
    requires few { steps ≤ 2 ^ 32 }
    requires sound { T.sound stage.old }
    requires home { T.at_home stage.old devices.old }
    requires some { 0 < shelves_of T.rules (T.state stage.old) }
    ensures measured { HasRun T.Stage steps number result
        stage.old devices.old stage.new devices.new }
    ensures sound { T.sound stage.new }
    ensures own { IsTrue T.tells → T.own stage.old → T.own stage.new }
    ensures home { T.at_home stage.new devices.new }
    ensures later { T.faults stage.old devices.old ≤ T.faults stage.new devices.new }
    ensures disk { RoseForLost (LosesBy result)
        (T.faults stage.old devices.old) (T.faults stage.new devices.new) }
    ensures failed { RoseAtLost (LosesBy result) (T.failed devices.old) (T.failed devices.new) }
    ensures failed_later { StaysUp (T.failed devices.old) (T.failed devices.new) }
    ensures asked { StaysFirst (T.asked devices.old) (T.asked devices.new) }
    ensures why { NoneIsLostToMemory (LosesBy result) }
    ensures bytes { NoneIsLostToBytes (LosesBy result) }
    ensures damaged { IsTrue T.tells → NoneIsLostToDamage (LosesBy result) }
    ensures other { IsTrue T.tells → NoneIsLostToOther (LosesBy result) }
{
    let mut course = Course {
        generator: Generator::new(alloc, number),
        tally: Tally::new(),
        hash: Fnv1a::new(),
    };
    for done in 0..steps {
        match go_on(alloc, stage, devices, &mut course) {
            Ok(()) => {}
            Err(halt) => return Err(halt),
        }
    }
    Ok(Measure {
        tally: course.tally,
        hash: course.hash.value(),
    })
}
