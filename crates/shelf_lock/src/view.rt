//! What a seat at the lock's table knows.
use std::collections::LinkedList;

pub enum Role {
    /// It splits off new callers, and takes no turn.
    Maker,
    Outside,
    /// It has the value.
    Inside,
    /// It has put the value back for good.
    Closer,
    /// It took a note in, and compares its histories at its next load.
    Comparing,
    /// It has seen a history, has no number and takes no turn.
    Noted,
    /// It was joined into another.
    Spent,
}

/// What a seat knows, in clauses alone: no value of it is made.
pub struct View<O, E> {
    pub role: Role,
    /// Its caller number; of the maker the one that comes next.
    pub caller: u64,
    /// The opening, alone; empty once spent.
    pub opening: LinkedList<O>,
    /// The number of the first entry.
    pub first: u64,
    /// The history that it has seen.
    pub seen: LinkedList<E>,
    /// The callers that were joined into it, each with what it had seen.
    pub heard: LinkedList<(u64, LinkedList<E>)>,
    /// While it compares: what it had seen itself, and then what the note had.
    pub told: LinkedList<LinkedList<E>>,
}
