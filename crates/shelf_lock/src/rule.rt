//! The rule of the lock's table, and what each step tells.
//! Word 0 is the gate: 0 while the value is at home, 1 while a seat has it, 2 once the lock is closed. Slot 0 is the value's.
use crate::kept::Kept;
use crate::view::View;
use atomic_table::{Join, Play, Seat, Shared, Split, Table, TableRule};
use std::alloc::Global;
use std::marker::PhantomData;
use std::snapshot::Snapshot;

pub type Known<V> = View<<V as Kept>::Opening, <V as Kept>::Entry>;

/// There is one history, and each seat knows a beginning of it.
pub struct OneHistory<V> {
    kept: PhantomData<V>,
}

/// The value that the lock was made with, and how many callers it has.
#[derive(Drop)]
pub struct Start<V> {
    pub value: Snapshot<V>,
    pub seats: u32,
}

impl<V: Kept> TableRule<V, View<V::Opening, V::Entry>, Start<V>> for OneHistory<V> {
    ghost use Rattle.shelf_lock.specs.Order.{Ordered, maker};

    ghost holds = { λ key. Ordered V.Kept key.value.value key.seats };

    ghost first = { λ key. maker (V.opening key.value.value) (V.first key.value.value) 0 };
}

pub type Board<V> = Table<V, Known<V>, Start<V>, OneHistory<V>, Global>;

pub type Top<V> = Shared<V, Known<V>, Start<V>, OneHistory<V>>;

pub type Place<V> = Seat<V, Known<V>>;

/// A seat takes the value where the gate is open.
pub struct Enter<V> {
    kept: PhantomData<V>,
}

impl<V: Kept> Play<V, View<V::Opening, V::Entry>> for Enter<V> {
    ghost use Rattle.shelf_lock.specs.Order.{Entered};

    ghost then = { Entered V.Kept };
}

/// A seat puts the value back, with what the turn made of it.
pub struct Leave<V> {
    kept: PhantomData<V>,
}

impl<V: Kept> Play<V, View<V::Opening, V::Entry>> for Leave<V> {
    ghost use Rattle.shelf_lock.specs.Order.{Left};

    ghost then = { Left V.history };
}

/// The maker hands out its next number.
pub struct Appoint;

impl<O, E> Split<View<O, E>> for Appoint {
    ghost use Rattle.shelf_lock.specs.Order.{appointer, appointed};

    ghost left = { appointer };

    ghost right = { appointed };
}

/// A seat that took a note in compares the two histories.
pub struct Look<V> {
    kept: PhantomData<V>,
}

impl<V: Kept> Play<V, View<V::Opening, V::Entry>> for Look<V> {
    ghost use Rattle.shelf_lock.specs.Order.{Looked};

    ghost then = { Looked V.Kept };
}

/// A seat puts the value back for good.
pub struct Shut<V> {
    kept: PhantomData<V>,
}

impl<V: Kept> Play<V, View<V::Opening, V::Entry>> for Shut<V> {
    ghost use Rattle.shelf_lock.specs.Order as order;

    ghost then = { order.Shut V.Kept };
}

/// A seat takes another over, with its number.
pub struct Absorb;

impl<O, E> Join<View<O, E>> for Absorb {
    ghost use Rattle.shelf_lock.specs.Order.{nobody};
    ghost use Rattle.shelf_lock.specs.Order as order;

    ghost both = { order.both };

    ghost spent = { nobody };
}

/// A seat leaves a note of what it has seen.
pub struct Tell;

impl<O, E> Split<View<O, E>> for Tell {
    ghost use Rattle.shelf_lock.specs.Order.{noted};

    ghost left = { λ v. v };

    ghost right = { noted };
}

/// A seat takes a note in.
pub struct Hear;

impl<O, E> Join<View<O, E>> for Hear {
    ghost use Rattle.shelf_lock.specs.Order.{comparing, nobody};

    ghost both = { comparing };

    ghost spent = { nobody };
}
