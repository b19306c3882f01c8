//! A seat with its number.
ghost use Rattle.std.specs.Prelude.{◌≡◌, []};
ghost use Rattle.shelf_lock.specs.declared.view.Role.TheVariants.{Outside, Noted};

use crate::kept::Kept;
use crate::rule::Place;

/// What one caller has seen of the history. It has no bytes but its number.
#[derive(Drop)]
pub struct Pass<V: Kept> {
    pub seat: Place<V>,
    pub caller: u64,
    pub ghost outside: { seat.me.0.role ≡ Outside },
    pub ghost idle: { seat.me.1 ≡ [] },
    pub ghost numbered: { seat.me.0.caller ≡ caller },
}

/// What a pass had seen of the history, without a number. It has no bytes, makes no entry and takes no turn.
#[derive(Drop)]
pub struct Note<V: Kept> {
    pub seat: Place<V>,
    pub ghost noted: { seat.me.0.role ≡ Noted },
    pub ghost idle: { seat.me.1 ≡ [] },
}
