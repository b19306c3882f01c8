use page_names::Target;
use script_value::{Reply, Value};
use shelf::Ticket;
use std::snapshot::Snapshot;

/// What was done at a shelf, and what it was answered. Clauses alone read what stands after a snapshot.
#[derive(Drop)]
pub enum Did {
    Take {
        target: Snapshot<Target>,
        answer: Snapshot<Value>,
        told: Snapshot<Result<Ticket, Reply>>,
    },
    Publish {
        ticket: Snapshot<Ticket>,
        told: Snapshot<Reply>,
    },
    Sweep {
        tick: u64,
        told: Snapshot<Result<u32, Reply>>,
    },
    Compact {
        told: Snapshot<Result<u64, Reply>>,
    },
}

/// An entry of a history: what a caller did, and what it was answered.
#[derive(Drop)]
pub struct KeptEntry {
    pub caller: u64,
    pub did: Did,
}
