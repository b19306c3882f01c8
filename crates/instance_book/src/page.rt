ghost use Rattle.std.specs.Prelude.{◌≡◌, Some, max, map, IfOk};
ghost use Rattle.instance_cells.specs.Cells.{reads_of};
ghost use Rattle.instance_cells.specs.Views.{effect_of};
ghost use Rattle.kept_states.specs.Kept.{kept_of};
ghost use Rattle.instance_book.specs.Uses.{is_over_by};
ghost use Rattle.instance_book.specs.Views.{page_of, mark_of, new_in};
ghost use Rattle.instance_book.specs.Places.{kept_at};
ghost use Rattle.instance_book.specs.Segments.{IsNewPage};

use crate::numbered::Numbered;
use expiry::expired;
use instance_cells::Effect;
use journal_records::PageRecord;
use kept_states::{KeptState, StoredValue, StoredValues};
use script_value::{Items, TxName};
use std::alloc::{AllocError, Global};

/// What is kept of a page that was shown, under its number.
#[derive(Drop)]
pub struct KeptPage {
    pub nonce: u64,
    /// The page that was answered before it; none for the first of its instance.
    pub parent: Option<u64>,
    /// The answer to that page; the empty list where there is none.
    pub answer: StoredValue,
    /// What its segment read of the instance's cells.
    pub reads: StoredValues,
    /// The transactions that it is inside, the outermost first.
    pub inside: Vec<TxName>,
    /// From this tick on it can't be answered, in seconds.
    pub deadline: u64,
    /// The greatest number of a segment that showed or answered it.
    pub last: u64,
    /// The page for which it went, if it did.
    pub gone: Option<u64>,
    /// What is kept of the state of its script: an answer goes on from there.
    pub state: KeptState,
}

impl KeptPage {
    /// A segment of this number answered the page.
    pub fn answer(&mut self, number: u64)
        ensures { self.new ≡ record (self.old) { last = max self.old.last number } }
    {
        self.last = self.last.max(number);
    }

    /// The page goes for the one of this number.
    pub fn evict(&mut self, number: u64)
        ensures { self.new ≡ record (self.old) { gone = Some number } }
    {
        self.gone = Some(number);
    }

    /// Whether it can't be answered at this tick: its time is over, or it went for another.
    pub fn is_over(&self, tick: u64) -> bool
        ensures { result ≡ is_over_by tick self.now.deadline self.now.gone }
    {
        expired(tick, self.deadline) || self.gone.is_some()
    }
}

impl Numbered<KeptPage> {
    /// A copy, equal to its source.
    pub fn try_clone(&self, alloc: Global) -> Result<Numbered<KeptPage>, AllocError>
        ensures page { IfOk result (λ copy. page_of copy ≡ page_of self.now) }
        ensures mark { IfOk result (λ copy. mark_of copy ≡ mark_of self.now) }
        ensures state { IfOk result (λ copy. kept_at copy ≡ kept_at self.now) }
    {
        Ok(Numbered {
            number: self.number,
            item: KeptPage {
                nonce: self.item.nonce,
                parent: self.item.parent,
                answer: self.item.answer.try_clone(alloc)?,
                reads: self.item.reads.try_clone(alloc)?,
                inside: self.item.inside.as_slice().to_vec(alloc)?,
                deadline: self.item.deadline,
                last: self.item.last,
                gone: self.item.gone,
                state: self.item.state.try_clone(alloc)?,
            },
        })
    }
}

// The values that were read.
fn reads_in(alloc: Global, effects: &[Effect]) -> Result<StoredValues, AllocError>
    ensures { IfOk result (λ reads. reads ≡ reads_of (map effect_of effects.now)) }
{
    let mut reads = Items::new(alloc);
    for effect in effects {
        if let Effect::Read(_, value) = effect {
            reads.push(value.try_clone(alloc)?)?;
        }
    }
    StoredValues::of(alloc, reads)
}

/// What is kept of the page of a record, which answers this one, if any, with this.
pub fn new_page(
    alloc: Global,
    told: &PageRecord,
    parent: Option<u64>,
    answer: StoredValue,
    inside: Vec<TxName>,
    kept: KeptState,
) -> Result<Numbered<KeptPage>, AllocError>
    ensures { IfOk result
        (IsNewPage (new_in told.now parent answer inside.items) (kept_of kept)) }
{
    let reads = reads_in(alloc, &told.effects)?;
    Ok(Numbered {
        number: told.ticket,
        item: KeptPage {
            nonce: told.nonce,
            parent,
            answer,
            reads,
            inside,
            deadline: told.deadline,
            last: told.ticket,
            gone: None,
            state: kept,
        },
    })
}
