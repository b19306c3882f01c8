ghost use Rattle.std.specs.Prelude.{◌≡◌, ◌↔◌, List, map, IfOk, IsTrue};
ghost use Rattle.web_cells.specs.Shadows.{all_bound};
ghost use Rattle.web_cells.specs.Own.{IsBoundSo, IsOwn};
ghost use Rattle.web_cells.specs.Views.{pair_of};

use crate::shades::{Shades, Shadow};
use script_value::equal;
use std::alloc::{AllocError, Global};
use std::marker::Model;

/// The bindings of a page that its parent has not, or has with another value.
#[derive(Drop)]
pub struct Own {
    shadows: Vec<Shadow>,
}

impl Model for Own {
    ghost use Rattle.std.specs.Prelude.{ℕ, List, map};
    ghost use Rattle.script_value.specs.Val.{Val};
    ghost use Rattle.script_value.specs.ValCode.{val_code};
    ghost use Rattle.std.specs.Coded.{coded_list, coded_ℕ, coded×};
    ghost use Rattle.web_cells.specs.Views.{pair_of};

    ghost Value = { List (ℕ × Val) };

    ghost coded = { coded_list (coded× coded_ℕ val_code) };

    ghost view = { λ o. map pair_of o.shadows.items };
}

impl Own {
    /// These bindings.
    pub fn of(shadows: Vec<Shadow>) -> Own
        ensures { result ≡ map pair_of shadows.items }
    {
        Own { shadows }
    }

    /// The bindings, in their order.
    pub fn as_slice(&self) -> &[Shadow]
        ensures { map pair_of result.now ≡ self.now }
    {
        self.shadows.as_slice()
    }
}

impl Shades {
    // Whether a web cell is bound to the value of this shadow.
    fn binds(&self, shadow: &Shadow) -> bool
        ensures { IsTrue result ↔ IsBoundSo self.now (pair_of shadow.now) }
    {
        match self.lookup(shadow.cell) {
            Some(value) => equal(value, &shadow.value),
            None => false,
        }
    }

    /// What of these bindings a parent has not, or has with another value. With it the parent's bindings give these back, where the cells of both rise and each web cell that the parent binds is bound here.
    pub fn own(&self, alloc: Global, parent: &Shades) -> Result<Own, AllocError>
        ensures { IfOk result (λ own. IsOwn parent.now self.now own) }
    {
        let mut own = Vec::new(alloc);
        for shadow in self.as_slice() {
            if !parent.binds(shadow) {
                own.push(shadow.try_clone(alloc)?)?;
            }
        }
        Ok(Own::of(own))
    }

    /// These bindings, with a page's own in their place.
    #[tactic(auto, using(crate::proofs::Owned::with_one))]
    pub fn with(&self, alloc: Global, own: &Own) -> Result<Shades, AllocError>
        ensures { IfOk result (λ shades. shades ≡ all_bound own.now self.now) }
    {
        let mut shades = self.try_clone(alloc)?;
        for shadow in own.as_slice() {
            shades.shadow(shadow.cell, shadow.value.try_clone(alloc)?)?;
        }
        Ok(shades)
    }
}
