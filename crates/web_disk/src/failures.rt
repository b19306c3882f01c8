ghost use Rattle.std.specs.Prelude.{◌≡◌, ◌≢◌, ◌+◌, ℕ};
ghost use Rattle.web_disk.specs.Failures.{failed_in};

use ghost_history::Past;
use std::mem;
use std::snapshot::Snapshot;

/// So many calls failed for the disk of this number.
#[derive(Drop)]
pub struct Failure {
    number: u32,
    count: u64,
}

/// How often calls failed for the disk of each number. Clauses alone read it, and it takes no memory.
#[derive(Drop)]
pub struct Failures {
    past: Snapshot<Past<Failure>>,
}

impl Failures {
    /// No call has failed.
    pub fn new() -> Failures
        ensures { (n : ℕ) → failed_in result n ≡ 0 }
    {
        Failures {
            past: Snapshot::of(&Past::Nothing),
        }
    }

    /// So many calls more have failed for the disk of this number.
    pub fn count(&mut self, number: u32, count: u64)
        ensures counted { failed_in self.new number ≡ failed_in self.old number + count }
        ensures others { (n : ℕ) → n ≢ number → failed_in self.new n ≡ failed_in self.old n }
    {
        let before = mem::replace(&mut self.past, Snapshot::of(&Past::Nothing));
        let entry = Failure { number, count };
        self.past = Snapshot::of(&Past::Then { before, entry });
    }
}
