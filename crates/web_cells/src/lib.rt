//! The bindings of web cells, of which each page has its own: for the states of pages and the engine.
#![tactic(auto)]

ghost use Rattle.web_cells.specs.Laws.{AShadowBindsItsCell, TheLastShadowBinds, ShadowsRise};
ghost use Rattle.web_cells.specs.Own.{OwnGiveBack, OwnAreOne};

mod own;
mod shades;

pub use own::Own;
pub use shades::{Shades, Shadow};

/// A shadow is the binding of its web cell, and leaves those of all others.
pub fn a_shadow_binds_its_cell()
    ensures { AShadowBindsItsCell }
{}

/// After any shadows, a web cell is bound to its last one, or else to what it was bound to before.
pub fn the_last_shadow_binds()
    ensures { TheLastShadowBinds }
{}

/// A shadow keeps the web cells rising, so that each has one binding at most.
pub fn shadows_rise()
    ensures { ShadowsRise }
{}

/// The parent's bindings with a page's own are the page's, where it binds each web cell that its parent binds.
pub fn own_bindings_give_back()
    ensures { OwnGiveBack }
{}

/// A page has one list of its own bindings.
pub fn own_bindings_are_one()
    ensures { OwnAreOne }
{}
