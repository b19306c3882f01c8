//! The steps of a run over any stage, and what is told of them: for `play` and for measured runs.
#![tactic(auto)]

ghost use Rattle.play_steps.specs.Laws.{RepliesGoOn, LinesAreSteps, LinesAreCounted};

mod course;
mod performing;
mod report;
mod run;
mod stage;
mod step;

pub use performing::{Halt, fits, perform};
pub use report::{Report, print};
pub use run::{PlayEnd, play};
pub use stage::{Reopen, Stage};
pub use step::{Step, TEXT_LIMIT, read_step};

/// Over any stage, a run of steps and then of others is the run of the first, and then that of the
/// others over what the first leave. Where the first end at a line, it is theirs alone.
pub fn replies_go_on<T: Stage>()
    ensures { RepliesGoOn T.rules }
{}

/// Lines are steps exactly where they are spelled as these steps are, each ended by a newline.
pub fn lines_are_steps()
    ensures { LinesAreSteps }
{}

/// A step has as many lines as newlines stand in what spells it.
pub fn lines_are_counted()
    ensures { LinesAreCounted }
{}
