ghost use Rattle.std.specs.Prelude.{◌≡◌, [], ◌∷◌, ◌++◌, map, IfOk, OnOk, OnErr};
ghost use Rattle.script_value.specs.Views.{meaning};
ghost use Rattle.instance_cells.specs.Cells as spec;
ghost use Rattle.instance_cells.specs.Views.{effect_of, behind, has, Notes, Refuses};
ghost use Rattle.instance_cells.specs.declared.trail.AddFault.TheVariants.{Memory};

use crate::cells::Cells;
use crate::effect::{Effect, clone_effects};
use script_value::{Fault, Value};
use std::alloc::{AllocError, Global};
use thiserror::Error;

/// Why an add was none.
#[derive(Drop, Debug, Error)]
pub enum AddFault {
    /// The fault of the script; a read of the cell was recorded.
    #[error("{0}")]
    Fault(Fault),
    /// Memory ran out.
    #[error("memory ran out")]
    Memory,
}

impl From<AllocError> for AddFault {
    ghost from_gives = { λ _ e. e ≡ Memory };

    fn from(_e: AllocError) -> AddFault {
        AddFault::Memory
    }
}

/// A segment's way through the cells: as they were, what it did to them, and as they are now.
#[derive(Drop)]
pub struct Trail<'c> {
    start: &'c Cells,
    effects: Vec<Effect>,
    current: Cells,
    ghost applied: { current ≡ behind effects.items start.now },
}

// One more effect; where memory runs out, nothing changes.
fn note(effects: &mut Vec<Effect>, effect: Effect) -> Result<(), AllocError>
    ensures ok { OnOk result (effects.new.items ≡ effects.old.items ++ effect ∷ []) }
    ensures err { OnErr result (effects.new.items ≡ effects.old.items) }
{
    effects.push(effect)?;
    Ok(())
}

impl<'c> Trail<'c> {
    ghost use Rattle.instance_cells.specs.Trails.{AddsOn};

    /// Over these cells, with nothing done.
    pub fn new(alloc: Global, start: &'c Cells) -> Result<Trail<'c>, AllocError>
        ensures start { IfOk result (λ t. t.start.now ≡ start.now) }
        ensures effects { IfOk result (λ t. map effect_of t.effects.items ≡ []) }
    {
        Ok(Trail {
            start,
            effects: Vec::new(alloc),
            current: start.try_clone(alloc)?,
        })
    }

    /// A copy, equal to its source.
    pub fn try_clone(&self, alloc: Global) -> Result<Trail<'c>, AllocError>
        ensures start { IfOk result (λ copy. copy.start.now ≡ self.now.start.now) }
        ensures effects { IfOk result (λ copy. copy.effects.items ≡ self.now.effects.items) }
    {
        Ok(Trail {
            start: self.start,
            effects: clone_effects(alloc, &self.effects)?,
            current: self.current.try_clone(alloc)?,
        })
    }

    /// A read of a cell, recorded; #f where there is no such cell. Where memory runs out, nothing changes.
    pub fn read(&mut self, alloc: Global, cell: u8) -> Result<Value, AllocError>
        ensures value { IfOk result (λ v. meaning v ≡ has self.old.start.now self.old.effects.items cell) }
        ensures effects { IfOk result (λ v. Notes (spec.read cell (meaning v)) self.old.effects.items self.new.effects.items) }
        ensures err { OnErr result (self.new.effects.items ≡ self.old.effects.items) }
        ensures start { self.new.start.now ≡ self.old.start.now }
    {
        let value = self.current.value(alloc, cell)?;
        let seen = value.try_clone(alloc)?;
        note(&mut self.effects, Effect::Read(cell, seen))?;
        Ok(value)
    }

    /// A write of a cell, recorded. Where memory runs out, nothing changes.
    pub fn set(&mut self, alloc: Global, cell: u8, value: Value) -> Result<(), AllocError>
        ensures effects { OnOk result (Notes (spec.set cell (meaning value)) self.old.effects.items self.new.effects.items) }
        ensures err { OnErr result (self.new.effects.items ≡ self.old.effects.items) }
        ensures start { self.new.start.now ≡ self.old.start.now }
    {
        let kept = value.try_clone(alloc)?;
        note(&mut self.effects, Effect::Set(cell, kept))?;
        self.current.set(cell, value);
        Ok(())
    }

    /// An add to a cell, recorded; at a fault a read of the cell is recorded in its place. Where memory runs out, nothing changes.
    pub fn add(&mut self, alloc: Global, cell: u8, operand: &Value) -> Result<(), AddFault>
        ensures adds { AddsOn result self.old self.new cell (meaning operand.now) }
        ensures start { self.new.start.now ≡ self.old.start.now }
    {
        let n = match operand {
            Value::Int(n) => *n,
            _ => return self.refuse(alloc, cell, Fault::WrongType),
        };
        match self.current.sum(cell, n) {
            Ok(sum) => {
                note(&mut self.effects, Effect::Add(cell, n))?;
                self.current.set(cell, Value::Int(sum));
                Ok(())
            }
            Err(fault) => self.refuse(alloc, cell, fault),
        }
    }

    // A fault of an add: a read of the cell is recorded.
    fn refuse(&mut self, alloc: Global, cell: u8, fault: Fault) -> Result<(), AddFault>
        ensures adds { Refuses result self.old.start.now self.old.effects.items self.new.effects.items cell fault }
        ensures start { self.new.start.now ≡ self.old.start.now }
    {
        drop(self.read(alloc, cell)?);
        Err(AddFault::Fault(fault))
    }

    /// What was done to the cells, the oldest first.
    pub fn into_effects(self) -> Vec<Effect>
        ensures { map effect_of result.items ≡ map effect_of self.entry.effects.items }
    {
        self.effects
    }
}
