ghost use Rattle.std.specs.Prelude.{◌≡◌, [], ◌∷◌, ◌++◌};
ghost use Rattle.web_disk.specs.Asked.{asked_in};

use ghost_history::Past;
use std::mem;
use std::snapshot::Snapshot;

/// The numbers of the disks that were asked for, in order. Clauses alone read it, and it takes no memory.
#[derive(Drop)]
pub struct Asked {
    past: Snapshot<Past<u32>>,
}

impl Asked {
    /// No disk was asked for.
    pub fn new() -> Asked
        ensures { asked_in result ≡ [] }
    {
        Asked {
            past: Snapshot::of(&Past::Nothing),
        }
    }

    /// The disk of this number was asked for.
    pub fn note(&mut self, number: u32)
        ensures { asked_in self.new ≡ asked_in self.old ++ number ∷ [] }
    {
        let before = mem::replace(&mut self.past, Snapshot::of(&Past::Nothing));
        self.past = Snapshot::of(&Past::Then {
            before,
            entry: number,
        });
    }
}
