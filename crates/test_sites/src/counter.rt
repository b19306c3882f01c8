//! A counter, as a value that may lie behind the lock.
ghost use Rattle.std.specs.Prelude.{◌≡◌, [], ◌∷◌, ◌++◌, IfSome, IfNone};

use shelf_lock::Kept;
use std::alloc::Global;

/// What was counted: who did it, and which of its turns it was.
#[derive(Clone, Copy, Debug, PartialEq)]
pub struct Count {
    pub caller: u64,
    pub turn: u64,
}

/// Keeps what was counted.
#[derive(Drop)]
pub struct Counter {
    pub first: u64,
    pub counts: Vec<Count>,
}

impl Kept for Counter {
    type Opening = ();

    type Entry = Count;

    ghost opening = { λ _. tt };

    ghost first = { λ c. c.first };

    ghost history = { λ c. c.counts.items };

    ghost caller = { λ e. e.caller };

    ghost sound = { λ _. Unit {0} };

    fn first_number(&self) -> u64 {
        self.first
    }

    fn entry_count(&self) -> u64 {
        self.counts.len() as u64
    }
}

impl Counter {
    pub fn new(alloc: Global, first: u64) -> Counter
        ensures { (result.first ≡ first) × (result.counts.items ≡ []) }
    {
        Counter {
            first,
            counts: Vec::new(alloc),
        }
    }

    /// One count more, or none where there is no memory.
    pub fn count(&mut self, count: Count) -> Option<()>
        ensures first { self.new.first ≡ self.old.first }
        ensures some { IfSome result (λ _. self.new.counts.items ≡ self.old.counts.items ++ count ∷ []) }
        ensures none_left { IfNone result (self.new.counts.items ≡ self.old.counts.items) }
    {
        let counts = &mut self.counts;
        counts.push(count).ok()
    }
}
