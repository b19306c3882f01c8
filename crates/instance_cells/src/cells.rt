ghost use Rattle.std.specs.Prelude.{◌≡◌, ◌↔◌, ◌<◌, List, map, length, slice_set, slice_get, option_map, IsTrue, IfOk, OnOk, OnErr};
ghost use Rattle.script_value.specs.Val.{Val};
ghost use Rattle.script_value.specs.Views.{meaning};
ghost use Rattle.instance_cells.specs.Cells.{AreOn, cell_of, cell_at, landed, commit, Holds};
ghost use Rattle.instance_cells.specs.Cells as spec;
ghost use Rattle.instance_cells.specs.Views.{effect_of, Adds, Sums};

use crate::effect::{Effect, Seen, holds_at, sum};
use script_value::{Fault, Items, Value};
use std::alloc::{AllocError, Global};
use std::marker::Model;

/// The cells of an instance: a value each.
#[derive(Drop)]
pub struct Cells {
    values: Items,
}

impl Model for Cells {
    ghost use Rattle.std.specs.Prelude.{List};
    ghost use Rattle.script_value.specs.Val.{Val};
    ghost use Rattle.script_value.specs.ValCode.{val_code};
    ghost use Rattle.std.specs.Coded.{coded_list};

    ghost Value = { List Val };

    ghost coded = { coded_list val_code };

    ghost view = { λ c. c.values };
}

impl Cells {
    /// The cells of a new instance: each has its default.
    pub fn of(alloc: Global, defaults: &[Value]) -> Result<Cells, AllocError>
        ensures { IfOk result (λ cells. cells ≡ map meaning defaults.now) }
    {
        let mut values = Items::new(alloc);
        for value in defaults {
            values.push(value.try_clone(alloc)?)?;
        }
        Ok(Cells { values })
    }

    /// How many there are.
    pub fn len(&self) -> usize
        ensures { result ≡ length self.now }
    {
        self.values.len()
    }

    /// The value of a cell. It takes no memory.
    pub fn get(&self, cell: u8) -> &Value
        requires { cell < length self.now }
        ensures { meaning result.now ≡ cell_at self.now cell }
    {
        self.at(cell as usize)
    }

    fn at(&self, cell: usize) -> &Value
        requires { cell < length self.now }
        ensures { meaning result.now ≡ cell_at self.now cell }
    {
        &self.values.as_slice()[cell]
    }

    /// The value of a cell, if there is such.
    pub fn find(&self, cell: u8) -> Option<&Value>
        ensures { option_map (λ v. meaning v.now) result ≡ slice_get self.now cell }
    {
        self.values.get(cell as usize)
    }

    /// A copy of a cell's value; #f where there is no such cell.
    pub fn value(&self, alloc: Global, cell: u8) -> Result<Value, AllocError>
        ensures { IfOk result (λ v. meaning v ≡ cell_at self.now cell) }
    {
        match self.find(cell) {
            Some(value) => value.try_clone(alloc),
            None => Ok(Value::Truth(false)),
        }
    }

    /// A number more than a cell's; a cell that is not there has none, which is WrongType.
    pub fn sum(&self, cell: u8, n: i64) -> Result<i64, Fault>
        ensures { Sums result (spec.sum (cell_at self.now cell) n) }
    {
        match self.find(cell) {
            Some(value) => sum(Seen::Here(value), n),
            None => Err(Fault::WrongType),
        }
    }

    /// Writes a cell; where it is not there, nothing changes.
    pub fn set(&mut self, cell: u8, value: Value)
        ensures { self.new ≡ slice_set self.old cell (meaning value) }
    {
        self.values.set(cell as usize, value);
    }

    /// Adds a number to that of a cell.
    ///
    /// WrongType where either is no number, Overflow where the sum leaves 64 bits with a sign; nothing changes then.
    pub fn add(&mut self, cell: u8, operand: &Value) -> Result<(), Fault>
        requires { cell < length self.old }
        ensures { Adds result self.old self.new cell (meaning operand.now) }
    {
        let n = match operand {
            Value::Int(n) => *n,
            _ => return Err(Fault::WrongType),
        };
        let sum = sum(Seen::Here(self.get(cell)), n)?;
        self.set(cell, Value::Int(sum));
        Ok(())
    }

    /// Whether each effect is on one of these cells. It takes no memory.
    pub fn are_on(&self, effects: &[Effect]) -> bool
        ensures { IsTrue result ↔ AreOn (length self.now) (map effect_of effects.now) }
    {
        for effect in effects {
            if effect.cell() as usize >= self.len() {
                return false;
            }
        }
        true
    }

    /// Whether each read gives the same and each add has a sum over these cells, the earlier writes applied.
    ///
    /// It takes no memory.
    pub fn holds(&self, effects: &[Effect]) -> bool
        requires { AreOn (length self.now) (map effect_of effects.now) }
        ensures { IsTrue result ↔ Holds (map effect_of effects.now) self.now }
    {
        for cell in 0..self.len() {
            if !holds_at(cell, self.at(cell), effects) {
                return false;
            }
        }
        true
    }

    // One effect; where memory runs out, nothing changes.
    fn land(&mut self, alloc: Global, effect: &Effect) -> Result<(), AllocError>
        requires { cell_of (effect_of effect.now) < length self.old }
        ensures ok { OnOk result (self.new ≡ landed (effect_of effect.now) self.old) }
        ensures err { OnErr result (self.new ≡ self.old) }
    {
        match effect {
            Effect::Read(_, _) => (),
            Effect::Set(cell, value) => self.set(*cell, value.try_clone(alloc)?),
            Effect::Add(cell, n) => match sum(Seen::Here(self.get(*cell)), *n) {
                Ok(sum) => self.set(*cell, Value::Int(sum)),
                Err(_) => (),
            },
        }
        Ok(())
    }

    /// A copy, equal to its source.
    pub fn try_clone(&self, alloc: Global) -> Result<Cells, AllocError>
        ensures { IfOk result (λ copy. copy ≡ self.now) }
    {
        Ok(Cells {
            values: self.values.try_clone(alloc)?,
        })
    }

    /// These cells with the sets and the adds applied, the oldest first.
    pub fn committed(&self, alloc: Global, effects: &[Effect]) -> Result<Cells, AllocError>
        requires { AreOn (length self.now) (map effect_of effects.now) }
        ensures { IfOk result (λ next. next ≡ commit (map effect_of effects.now) self.now) }
    {
        let mut next = self.try_clone(alloc)?;
        for effect in effects {
            next.land(alloc, effect)?;
        }
        Ok(next)
    }

    /// Applies the sets and the adds, the oldest first; where memory runs out, nothing changes.
    pub fn commit(&mut self, alloc: Global, effects: &[Effect]) -> Result<(), AllocError>
        requires { AreOn (length self.old) (map effect_of effects.now) }
        ensures ok { OnOk result (self.new ≡ commit (map effect_of effects.now) self.old) }
        ensures err { OnErr result (self.new ≡ self.old) }
    {
        *self = self.committed(alloc, effects)?;
        Ok(())
    }
}
