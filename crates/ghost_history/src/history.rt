//! A history that only clauses read.
use crate::past::Past;
use std::marker::Model;
use std::mem;
use std::snapshot::Snapshot;

/// A history. It keeps how many entries it has and nothing else: clauses see it as the list of its entries, oldest first.
#[derive(Drop)]
pub struct History<E> {
    past: Snapshot<Past<E>>,
    len: u64,
}

impl<E> Model for History<E> {
    ghost use Rattle.std.specs.Prelude.{◌≡◌, List, length};
    ghost use Rattle.ghost_history.specs.Entries.{entries};

    ghost Value = { List E };

    ghost view = { λ h. entries h.past.value };

    ghost invariant = { λ h. length (entries h.past.value) ≡ h.len };
}

impl<E: Drop> History<E> {
    ghost use Rattle.std.specs.Prelude.{◌≡◌, ◌+◌, ◌<◌, ◌^◌, [], ◌∷◌, ◌++◌, length};

    /// A history without entries.
    pub fn new() -> History<E>
        ensures { result ≡ [] }
    {
        History {
            past: Snapshot::of(&Past::Nothing),
            len: 0,
        }
    }

    /// How many entries it has.
    pub fn len(&self) -> u64
        ensures { result ≡ length self.now }
    {
        self.len
    }

    /// Puts an entry after the others. It takes no memory, and keeps none of the entry.
    pub fn push(&mut self, entry: E)
        requires room { length self.old + 1 < 2 ^ 64 }
        ensures behind { self.new ≡ self.old ++ entry ∷ [] }
    {
        let before = mem::replace(&mut self.past, Snapshot::of(&Past::Nothing));
        self.past = Snapshot::of(&Past::Then { before, entry });
        self.len += 1;
    }
}
