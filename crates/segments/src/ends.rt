ghost use Rattle.std.specs.Prelude.{◌≡◌, IfOk};
ghost use Rattle.segments.specs.Views.{segment_of};

use instance_cells::{Effect, clone_effects};
use script_nodes::SendKind;
use script_value::{Bytes, Fault, TxName};
use std::alloc::{AllocError, Global};

/// How a segment stopped.
#[derive(Drop)]
pub enum RunEnd {
    /// With a page that waits for an answer.
    Shown { page: Bytes, kind: SendKind },
    /// With a page that frees the instance.
    Finished(Bytes),
    /// With a last page.
    Ended(Bytes),
    /// By a fault of the script.
    Faulted(Fault),
    /// At this cost, the first above its fuel.
    Fuel(u64),
}

/// What a run comes to: how it stopped, and what its last segment did.
#[derive(Drop)]
pub struct RunResult {
    pub end: RunEnd,
    /// What it did to the instance's cells, the oldest first; nothing where its reads were recorded.
    pub effects: Vec<Effect>,
    /// The transactions that are open where it stopped, the outermost first.
    pub entered: Vec<TxName>,
    /// The transactions of earlier segments that it left, the first first.
    pub left: Vec<TxName>,
    /// The charges of its visits, 2^63 at most.
    pub cost: u64,
}

impl RunEnd {
    /// A copy, equal to its source.
    pub fn try_clone(&self, alloc: Global) -> Result<RunEnd, AllocError>
        ensures { IfOk result (λ copy. copy ≡ self.now) }
    {
        match self {
            RunEnd::Shown { page, kind } => Ok(RunEnd::Shown {
                page: page.try_clone(alloc)?,
                kind: *kind,
            }),
            RunEnd::Finished(page) => Ok(RunEnd::Finished(page.try_clone(alloc)?)),
            RunEnd::Ended(page) => Ok(RunEnd::Ended(page.try_clone(alloc)?)),
            RunEnd::Faulted(fault) => Ok(RunEnd::Faulted(*fault)),
            RunEnd::Fuel(cost) => Ok(RunEnd::Fuel(*cost)),
        }
    }
}

impl RunResult {
    /// A copy, equal to its source.
    pub fn try_clone(&self, alloc: Global) -> Result<RunResult, AllocError>
        ensures { IfOk result (λ copy. segment_of copy ≡ segment_of self.now) }
    {
        Ok(RunResult {
            end: self.end.try_clone(alloc)?,
            effects: clone_effects(alloc, self.effects.as_slice())?,
            entered: self.entered.as_slice().to_vec(alloc)?,
            left: self.left.as_slice().to_vec(alloc)?,
            cost: self.cost,
        })
    }
}
