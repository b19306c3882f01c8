ghost use Rattle.std.specs.Prelude.{IfOk};
ghost use Rattle.book_visits.specs.Fits.{IsCopy};

use instance_cells::Cells;
use machine_states::Origin;
use page_names::Target;
use script_value::{Str, Value};
use std::alloc::{AllocError, Global};

/// The right to publish one segment under a number and a nonce, with all that the run of the segment needs.
#[derive(Drop)]
pub struct Ticket {
    pub number: u64,
    pub nonce: u64,
    /// The place of the script among all that the journal told.
    pub script: usize,
    /// The place of a start's script in the present setup; 0 where a page is answered.
    pub start: u8,
    pub target: Target,
    /// The URL that a page of the segment would have.
    pub url: Str,
    /// What its segment goes on from: the start, or the state of the page that is answered.
    pub from: Origin,
    /// How many links a page of the segment would be from one whose state is kept by itself.
    pub links: u8,
    pub answer: Value,
    /// The cells of its instance at the take; for a start those that the script begins with.
    pub cells: Cells,
}

impl Ticket {
    /// A copy, equal to its source.
    pub fn try_clone(&self, alloc: Global) -> Result<Ticket, AllocError>
        ensures { IfOk result (λ copy. IsCopy copy self.now) }
    {
        Ok(Ticket {
            number: self.number,
            nonce: self.nonce,
            script: self.script,
            start: self.start,
            target: self.target,
            url: self.url.try_clone(alloc)?,
            from: self.from.try_clone(alloc)?,
            links: self.links,
            answer: self.answer.try_clone(alloc)?,
            cells: self.cells.try_clone(alloc)?,
        })
    }
}
