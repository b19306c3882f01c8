ghost use Rattle.std.specs.Prelude.{◌≡◌, ◌<◌, ◌+◌};
ghost use Rattle.play_steps.specs.Step.{steps_of, with_crashes, IsWithin};
ghost use Rattle.play_steps.specs.Views.{meaning};
ghost use Rattle.play_steps.specs.Courses.{left_in, left_past, Follows, IfStep, IsOfFewerLines};

use crate::step::{Step, read_step};

/// The steps of a text that are left, with the crashes that its edits bring.
#[derive(Clone, Copy)]
pub(crate) struct Course<'a> {
    rest: &'a [u8],
    // The next shelf whose crash the last edit brings: none, where there are not so many.
    shelf: u32,
    shelves: u32,
}

/// What stands next.
pub(crate) enum Next<'a> {
    /// Nothing is left.
    Over,
    /// What is left begins with no step.
    NoStep,
    /// This step, and what is left after it.
    Step(Step<'a>, Course<'a>),
}

impl<'a> Course<'a> {
    /// The steps of a text, on so many shelves.
    pub(crate) fn new(text: &'a [u8], shelves: u32) -> Course<'a>
        ensures left { left_in result ≡ with_crashes shelves (steps_of text.now) }
        ensures rest { result.rest.now ≡ text.now }
    {
        Course {
            rest: text,
            shelf: shelves,
            shelves,
        }
    }

    /// What stands next.
    pub(crate) fn next(&self) -> Next<'a>
        ensures follows { Follows (left_in self.now) result }
        ensures within { IfStep result (λ step after. IsWithin (meaning step)) }
        ensures lines { IfStep result (IsOfFewerLines self.now) }
    {
        if self.shelf < self.shelves {
            return Next::Step(Step::CrashEdited { shelf: self.shelf }, self.past_crash());
        }
        if self.rest.is_empty() {
            return Next::Over;
        }
        match read_step(self.rest) {
            Some((step, rest)) => Next::Step(step, self.past(&step, rest)),
            None => Next::NoStep,
        }
    }

    // What is left after the next crash.
    fn past_crash(&self) -> Course<'a>
        requires { self.now.shelf < self.now.shelves }
        ensures shelf { result.shelf ≡ self.now.shelf + 1 }
        ensures shelves { result.shelves ≡ self.now.shelves }
        ensures rest { result.rest.now ≡ self.now.rest.now }
    {
        Course {
            rest: self.rest,
            shelf: self.shelf + 1,
            shelves: self.shelves,
        }
    }

    // What is left after a step, where these bytes stand after it.
    fn past(&self, step: &Step<'a>, rest: &'a [u8]) -> Course<'a>
        ensures left { left_in result ≡ left_past self.now.shelves (meaning step.now) rest.now }
        ensures rest { result.rest.now ≡ rest.now }
    {
        let shelf = match step {
            Step::Edit { .. } => 0,
            Step::Take { .. }
            | Step::Publish { .. }
            | Step::Get { .. }
            | Step::Tick { .. }
            | Step::Crash { .. }
            | Step::Compact { .. }
            | Step::CrashEdited { .. } => self.shelves,
        };
        Course {
            rest,
            shelf,
            shelves: self.shelves,
        }
    }
}
