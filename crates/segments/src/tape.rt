ghost use Rattle.std.specs.Prelude.{◌≡◌, IfOk};
ghost use Rattle.segments.specs.Views.{now_of, ran_of};

use instance_cells::Cells;
use script_value::{Items, Str, Value};
use std::alloc::{AllocError, Global};

/// A segment that ran, after the answer that began it.
#[derive(Drop)]
pub struct Answer {
    /// The answer; of a start, which nothing answers, any value.
    pub value: Value,
    /// The number of its ticket.
    pub number: u64,
    /// The URL of its page.
    pub url: Str,
    /// What it read of instance cells, in order.
    pub reads: Items,
}

/// Where a segment's reads of instance cells come from.
#[derive(Clone, Copy, Drop)]
pub enum Reads<'t> {
    /// What was read when the segment ran.
    Recorded(&'t Items),
    /// The cells as they are at present; the segment stops at the first cost above the fuel.
    Present { cells: &'t Cells, fuel: u64 },
}

/// A segment of a run, from the start or from an answer up to the next stop.
#[derive(Clone, Copy, Drop)]
pub struct Now<'t> {
    /// The number of its ticket.
    pub number: u64,
    /// The URL that a page of it would have.
    pub url: &'t Str,
    /// Where its reads of instance cells come from.
    pub reads: Reads<'t>,
}

/// What a script is run over: segments that followed one another, and the newest after them.
///
/// It borrows all that it names, so to make one takes no memory.
#[derive(Clone, Copy, Drop)]
pub struct Tape<'t> {
    /// The segments after which the newest runs, from the start on; none where the newest is the start.
    pub past: &'t [Answer],
    /// The answer after which the newest runs, where it is not the start.
    pub answer: &'t Value,
    /// The newest segment.
    pub newest: Now<'t>,
}

impl Answer {
    /// The segment.
    pub fn segment(&self) -> Now
        ensures { now_of result ≡ ran_of self.now }
    {
        Now {
            number: self.number,
            url: &self.url,
            reads: Reads::Recorded(&self.reads),
        }
    }

    /// A copy, equal to its source.
    pub fn try_clone(&self, alloc: Global) -> Result<Answer, AllocError>
        ensures { IfOk result (λ copy. copy ≡ self.now) }
    {
        Ok(Answer {
            value: self.value.try_clone(alloc)?,
            number: self.number,
            url: self.url.try_clone(alloc)?,
            reads: self.reads.try_clone(alloc)?,
        })
    }
}
