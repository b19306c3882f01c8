ghost use Rattle.std.specs.Prelude.{◌≡◌, ℕ, ◌<◌, ◌≤◌, List, [], map, length, drop, option_map, IfOk, OnOk, OnErr, IsTrue, ◌↔◌};
ghost use Rattle.script_value.specs.Val.{Val};
ghost use Rattle.script_value.specs.Views.{meaning};
ghost use Rattle.web_cells.specs.Shadows.{bound_to, binding};
ghost use Rattle.web_cells.specs.Views.{pair_of, Binds};
ghost use Rattle.web_cells.specs.Places.{Below, NotBelow, IsAt};

use script_value::Value;
use std::alloc::{AllocError, Global};
use std::marker::Model;
use std::mem;

/// A binding of a web cell.
#[derive(Drop)]
pub struct Shadow {
    pub cell: u8,
    pub value: Value,
}

/// The nearest binding of each web cell, the cells rising.
#[derive(Drop)]
pub struct Shades {
    shadows: Vec<Shadow>,
}

impl Model for Shades {
    ghost use Rattle.std.specs.Prelude.{ℕ, List, map};
    ghost use Rattle.script_value.specs.Val.{Val};
    ghost use Rattle.script_value.specs.ValCode.{val_code};
    ghost use Rattle.std.specs.Coded.{coded_list, coded_ℕ, coded×};
    ghost use Rattle.web_cells.specs.Views.{pair_of};

    ghost Value = { List (ℕ × Val) };

    ghost coded = { coded_list (coded× coded_ℕ val_code) };

    ghost view = { λ s. map pair_of s.shadows.items };
}

// How many of the first are of lower cells: the place of the cell.
fn place_of(shadows: &[Shadow], cell: u8) -> usize
    ensures within { result ≤ length shadows.now }
    ensures below { Below cell result shadows.now }
    ensures here { NotBelow cell (drop result shadows.now) }
{
    for (place, shadow) in shadows.iter().enumerate() {
        if cell <= shadow.cell {
            return place;
        }
    }
    shadows.len()
}

// Whether this place has the binding of a cell.
fn is_at(shadows: &[Shadow], place: usize, cell: u8) -> bool
    requires { place ≤ length shadows.now }
    ensures { IsTrue result ↔ IsAt cell (drop place shadows.now) }
{
    match &shadows[place..] {
        [] => false,
        [shadow, ..] => shadow.cell == cell,
    }
}

// One more binding, in its place; where memory runs out, nothing changes.
fn bind_in(shadows: &mut Vec<Shadow>, shadow: Shadow) -> Result<(), AllocError>
    ensures ok { OnOk result (Binds shadow shadows.old.items shadows.new.items) }
    ensures err { OnErr result (shadows.new.items ≡ shadows.old.items) }
{
    let place = place_of(shadows.as_slice(), shadow.cell);
    if is_at(shadows.as_slice(), place, shadow.cell) {
        drop(mem::replace(&mut shadows[place], shadow));
        return Ok(());
    }
    shadows.insert(place, shadow)?;
    Ok(())
}

impl Shadow {
    /// A copy, equal to its source.
    pub fn try_clone(&self, alloc: Global) -> Result<Shadow, AllocError>
        ensures { IfOk result (λ copy. copy ≡ self.now) }
    {
        Ok(Shadow {
            cell: self.cell,
            value: self.value.try_clone(alloc)?,
        })
    }
}

impl Shades {
    /// No bindings: each web cell has its default.
    pub fn root(alloc: Global) -> Shades
        ensures { result ≡ [] }
    {
        Shades {
            shadows: Vec::new(alloc),
        }
    }

    /// The nearest binding of a cell; none where it has its default.
    pub fn lookup(&self, cell: u8) -> Option<&Value>
        ensures { option_map (λ v. meaning v.now) result ≡ binding cell self.now }
    {
        for shadow in &self.shadows {
            if shadow.cell == cell {
                return Some(&shadow.value);
            }
        }
        None
    }

    /// Binds a cell in this frame; where memory runs out, nothing changes.
    pub fn shadow(&mut self, cell: u8, value: Value) -> Result<(), AllocError>
        ensures ok { OnOk result (self.new ≡ bound_to cell (meaning value) self.old) }
        ensures err { OnErr result (self.new ≡ self.old) }
    {
        bind_in(&mut self.shadows, Shadow { cell, value })
    }

    /// A new frame below this one: it looks up as its parent, and its shadows are never seen there.
    pub fn child(&self, alloc: Global) -> Result<Shades, AllocError>
        ensures { IfOk result (λ child. child ≡ self.now) }
    {
        self.try_clone(alloc)
    }

    /// A copy, equal to its source.
    pub fn try_clone(&self, alloc: Global) -> Result<Shades, AllocError>
        ensures { IfOk result (λ copy. copy ≡ self.now) }
    {
        let mut shadows = Vec::new(alloc);
        for shadow in &self.shadows {
            shadows.push(shadow.try_clone(alloc)?)?;
        }
        Ok(Shades { shadows })
    }

    /// The bindings, the cells rising.
    pub fn as_slice(&self) -> &[Shadow]
        ensures { map pair_of result.now ≡ self.now }
    {
        self.shadows.as_slice()
    }
}
