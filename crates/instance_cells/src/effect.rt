ghost use Rattle.std.specs.Prelude.{◌≡◌, ◌↔◌, map, IsTrue, IfOk};
ghost use Rattle.script_value.specs.Views.{meaning};
ghost use Rattle.instance_cells.specs.Cells as spec;
ghost use Rattle.instance_cells.specs.Cells.{cell_of};
ghost use Rattle.instance_cells.specs.Views.{effect_of, seen_of, Sums};
ghost use Rattle.instance_cells.specs.OneCell.{HoldsAt, Turns};

use script_value::{Fault, Value, equal};
use std::alloc::{AllocError, Global};

/// What a segment did to one cell.
#[derive(Drop)]
pub enum Effect {
    /// It read this value.
    Read(u8, Value),
    /// It wrote this value.
    Set(u8, Value),
    /// It added this number to the cell's.
    Add(u8, i64),
}

impl Effect {
    /// The cell that it is on.
    pub fn cell(&self) -> u8
        ensures { result ≡ cell_of (effect_of self.now) }
    {
        match self {
            Effect::Read(cell, _) | Effect::Set(cell, _) | Effect::Add(cell, _) => *cell,
        }
    }

    /// A copy, equal to its source.
    pub fn try_clone(&self, alloc: Global) -> Result<Effect, AllocError>
        ensures { IfOk result (λ copy. copy ≡ self.now) }
    {
        match self {
            Effect::Read(cell, value) => Ok(Effect::Read(*cell, value.try_clone(alloc)?)),
            Effect::Set(cell, value) => Ok(Effect::Set(*cell, value.try_clone(alloc)?)),
            Effect::Add(cell, n) => Ok(Effect::Add(*cell, *n)),
        }
    }
}

/// Copies of effects, equal to their sources.
pub fn clone_effects(alloc: Global, effects: &[Effect]) -> Result<Vec<Effect>, AllocError>
    ensures { IfOk result (λ copies. copies.items ≡ effects.now) }
{
    let mut copies = Vec::new(alloc);
    for effect in effects {
        copies.push(effect.try_clone(alloc)?)?;
    }
    Ok(copies)
}

/// A cell's value after some effects: one that is kept somewhere, or a sum.
#[derive(Clone, Copy, Drop)]
pub enum Seen<'v> {
    Here(&'v Value),
    Sum(i64),
}

// Whether the cell has this value.
fn is_seen(seen: Seen, value: &Value) -> bool
    ensures { IsTrue result ↔ (seen_of seen.entry ≡ meaning value.now) }
{
    match seen {
        Seen::Here(here) => equal(here, value),
        Seen::Sum(sum) => match value {
            Value::Int(n) => sum == *n,
            _ => false,
        },
    }
}

/// A number and this one more, where both are numbers and the sum is in range.
pub fn sum(seen: Seen, n: i64) -> Result<i64, Fault>
    ensures { Sums result (spec.sum (seen_of seen.entry) n) }
{
    let m = match seen {
        Seen::Here(Value::Int(m)) => *m,
        Seen::Here(_) => return Err(Fault::WrongType),
        Seen::Sum(m) => m,
    };
    match m.checked_add(n) {
        Some(sum) => Ok(sum),
        None => Err(Fault::Overflow),
    }
}

// The cell's value after one more effect, or none where the effect does not stand.
fn turn<'v>(cell: usize, effect: &'v Effect, seen: Seen<'v>) -> Option<Seen<'v>>
    ensures { Turns cell (effect_of effect.now) (seen_of seen.entry) result }
{
    match effect {
        Effect::Read(c, value) => {
            if *c as usize == cell && !is_seen(seen, value) {
                return None;
            }
            Some(seen)
        }
        Effect::Set(c, value) => {
            if *c as usize == cell {
                return Some(Seen::Here(value));
            }
            Some(seen)
        }
        Effect::Add(c, n) => {
            if *c as usize == cell {
                return match sum(seen, *n) {
                    Ok(sum) => Some(Seen::Sum(sum)),
                    Err(_) => None,
                };
            }
            Some(seen)
        }
    }
}

/// Whether the effects on this cell stand over its value, one after the other.
pub fn holds_at(cell: usize, start: &Value, effects: &[Effect]) -> bool
    ensures { IsTrue result ↔ HoldsAt cell (map effect_of effects.now) (meaning start.now) }
{
    let mut seen = Seen::Here(start);
    for effect in effects {
        match turn(cell, effect, seen) {
            Some(next) => seen = next,
            None => return false,
        }
    }
    true
}
