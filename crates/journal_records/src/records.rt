ghost use Rattle.std.specs.Prelude.{◌≡◌, IfOk};
ghost use Rattle.journal_records.specs.Views.{origin_of, ending_of, finish_of, IsSamePage};

use instance_cells::{Effect, clone_effects};
use script_nodes::{ScriptText, SendKind, Setup};
use script_value::{Bytes, TxName, Value};
use std::alloc::{AllocError, Global};

/// Where a segment began that showed a page.
#[derive(Drop)]
pub enum Origin {
    /// At the start of the script of this place in the present setup.
    Start {
        script: u8,
    },
    /// Where this page of this instance was answered.
    Answer {
        instance: u64,
        page: u64,
        answer: Value,
    },
}

impl Origin {
    /// A copy, equal to its source.
    pub fn try_clone(&self, alloc: Global) -> Result<Origin, AllocError>
        ensures { IfOk result (λ copy. origin_of copy ≡ origin_of self.now) }
    {
        match self {
            Origin::Start { script } => Ok(Origin::Start { script: *script }),
            Origin::Answer {
                instance,
                page,
                answer,
            } => Ok(Origin::Answer {
                instance: *instance,
                page: *page,
                answer: answer.try_clone(alloc)?,
            }),
        }
    }
}

/// A page was shown. The bytes of its state stand beside it.
#[derive(Drop)]
pub struct PageRecord {
    pub ticket: u64,
    pub nonce: u64,
    pub origin: Origin,
    /// What the segment did to the instance cells, in its order.
    pub effects: Vec<Effect>,
    /// The transactions that the segment left, in its order.
    pub left: Vec<TxName>,
    pub kind: SendKind,
    /// Until when the page can be answered, in seconds.
    pub deadline: u64,
    /// The pages that went for this one.
    pub evicted: Vec<u64>,
}

impl PageRecord {
    /// A copy, equal to its source.
    pub fn try_clone(&self, alloc: Global) -> Result<PageRecord, AllocError>
        ensures { IfOk result (IsSamePage self.now) }
    {
        Ok(PageRecord {
            ticket: self.ticket,
            nonce: self.nonce,
            origin: self.origin.try_clone(alloc)?,
            effects: clone_effects(alloc, &self.effects)?,
            left: self.left.as_slice().to_vec(alloc)?,
            kind: self.kind,
            deadline: self.deadline,
            evicted: self.evicted.as_slice().to_vec(alloc)?,
        })
    }
}

/// A page was answered with a last page, which has no name.
#[derive(Drop)]
pub struct EndedRecord {
    pub ticket: u64,
    pub instance: u64,
    pub page: u64,
    pub answer: Value,
    /// What the segment did to the instance cells, in its order.
    pub effects: Vec<Effect>,
    /// The transactions that the segment left, in its order.
    pub left: Vec<TxName>,
}

impl EndedRecord {
    /// A copy, equal to its source.
    pub fn try_clone(&self, alloc: Global) -> Result<EndedRecord, AllocError>
        ensures { IfOk result (λ copy. ending_of copy ≡ ending_of self.now) }
    {
        Ok(EndedRecord {
            ticket: self.ticket,
            instance: self.instance,
            page: self.page,
            answer: self.answer.try_clone(alloc)?,
            effects: clone_effects(alloc, &self.effects)?,
            left: self.left.as_slice().to_vec(alloc)?,
        })
    }
}

/// A page was answered with a last page, and its instance is gone.
#[derive(Drop)]
pub struct FinishRecord {
    pub ticket: u64,
    pub instance: u64,
    pub page: u64,
    pub answer: Value,
    /// What the segment did to the instance cells, in its order.
    pub effects: Vec<Effect>,
}

impl FinishRecord {
    /// A copy, equal to its source.
    pub fn try_clone(&self, alloc: Global) -> Result<FinishRecord, AllocError>
        ensures { IfOk result (λ copy. finish_of copy ≡ finish_of self.now) }
    {
        Ok(FinishRecord {
            ticket: self.ticket,
            instance: self.instance,
            page: self.page,
            answer: self.answer.try_clone(alloc)?,
            effects: clone_effects(alloc, &self.effects)?,
        })
    }
}

/// What a record of a journal says, as it was read.
#[derive(Drop)]
pub enum Logged {
    /// The journal of a shelf, by its number, begins, with these scripts.
    Begin {
        shelf: u32,
        scripts: Vec<ScriptText>,
    },
    /// A page was shown.
    Page {
        page: PageRecord,
        /// The state of the page, as bytes, which are of no script yet.
        state: Bytes,
    },
    /// A segment ended with a page that has no name.
    Ended(EndedRecord),
    /// An instance finished.
    Finish(FinishRecord),
    /// Time went on to this clock, in seconds.
    Sweep {
        clock: u64,
    },
    /// These are the scripts from here on.
    Texts {
        scripts: Vec<ScriptText>,
    },
    /// The file was compacted, and this number is one more than the greatest in a record before.
    Drawn {
        number: u64,
    },
    /// The shelf of this file follows another one's journal.
    Follow,
    /// The shelf of this file follows no longer.
    Promoted,
}

/// What a record of a journal says, lent to be written.
#[derive(Drop)]
pub enum Recorded<'r> {
    /// The journal of a shelf, by its number, begins, with the scripts that it serves.
    Begin {
        shelf: u32,
        setup: &'r Setup,
    },
    /// A page was shown.
    Page {
        page: &'r PageRecord,
        /// The state of the page, as bytes; none where it has no spelling.
        state: Option<&'r [u8]>,
    },
    /// A segment ended with a page that has no name.
    Ended(&'r EndedRecord),
    /// An instance finished.
    Finish(&'r FinishRecord),
    /// Time went on to this clock, in seconds.
    Sweep {
        clock: u64,
    },
    /// These are the scripts from here on.
    Texts {
        setup: &'r Setup,
    },
    /// The file was compacted, and this number is one more than the greatest in a record before.
    Drawn {
        number: u64,
    },
    /// The shelf of this file follows another one's journal.
    Follow,
    /// The shelf of this file follows no longer.
    Promoted,
}
