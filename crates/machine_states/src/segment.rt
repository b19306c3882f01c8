ghost use Rattle.std.specs.Prelude.{◌≡◌, IfOk};
ghost use Rattle.machine_states.specs.Views.{origin_of, outcome_of, state_of, segment_of};

use crate::frame::Suspended;
use instance_cells::{Effect, clone_effects};
use script_nodes::SendKind;
use script_value::{Bytes, Fault, TxName};
use std::alloc::{AllocError, Global};

/// Where a segment begins.
#[derive(Drop)]
pub enum Origin {
    /// At the start of its script.
    Start,
    /// At a page of which this was kept.
    Page(Suspended),
}

/// How a segment stopped.
#[derive(Drop)]
pub enum Outcome {
    /// With a page that waits for an answer, and what is kept of the script there.
    Shown {
        page: Bytes,
        kind: SendKind,
        state: Suspended,
    },
    /// With a page that frees the instance.
    Finished(Bytes),
    /// With a last page.
    Ended(Bytes),
    /// By a fault of the script.
    Faulted(Fault),
    /// At this cost, the first above its fuel.
    Fuel(u64),
}

/// What a segment came to.
#[derive(Drop)]
pub struct Segment {
    pub outcome: Outcome,
    /// What it did to the instance's cells, the oldest first.
    pub effects: Vec<Effect>,
    /// The transactions that are open where it stopped, the outermost first.
    pub entered: Vec<TxName>,
    /// The transactions of earlier segments that it left, the first first.
    pub left: Vec<TxName>,
    /// The charges of its visits.
    pub cost: u64,
}

impl Origin {
    /// A copy, equal to its source.
    pub fn try_clone(&self, alloc: Global) -> Result<Origin, AllocError>
        ensures { IfOk result (λ copy. origin_of copy ≡ origin_of self.now) }
    {
        match self {
            Origin::Start => Ok(Origin::Start),
            Origin::Page(state) => Ok(Origin::Page(state.try_clone(alloc)?)),
        }
    }
}

impl Outcome {
    // A copy, equal to its source.
    fn try_clone(&self, alloc: Global) -> Result<Outcome, AllocError>
        ensures outcome { IfOk result (λ copy. outcome_of copy ≡ outcome_of self.now) }
        ensures state { IfOk result (λ copy. state_of copy ≡ state_of self.now) }
    {
        match self {
            Outcome::Shown { page, kind, state } => Ok(Outcome::Shown {
                page: page.try_clone(alloc)?,
                kind: *kind,
                state: state.try_clone(alloc)?,
            }),
            Outcome::Finished(page) => Ok(Outcome::Finished(page.try_clone(alloc)?)),
            Outcome::Ended(page) => Ok(Outcome::Ended(page.try_clone(alloc)?)),
            Outcome::Faulted(fault) => Ok(Outcome::Faulted(*fault)),
            Outcome::Fuel(cost) => Ok(Outcome::Fuel(*cost)),
        }
    }
}

impl Segment {
    /// A copy, equal to its source.
    pub fn try_clone(&self, alloc: Global) -> Result<Segment, AllocError>
        ensures segment { IfOk result (λ copy. segment_of copy ≡ segment_of self.now) }
        ensures state { IfOk result (λ copy. state_of copy.outcome ≡ state_of self.now.outcome) }
    {
        Ok(Segment {
            outcome: self.outcome.try_clone(alloc)?,
            effects: clone_effects(alloc, self.effects.as_slice())?,
            entered: self.entered.as_slice().to_vec(alloc)?,
            left: self.left.as_slice().to_vec(alloc)?,
            cost: self.cost,
        })
    }
}
