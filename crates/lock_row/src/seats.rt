//! A seat at each lock of a row.
use shelf_lock::{Kept, Note, Pass};
use std::alloc::Global;
use std::marker::Model;

/// What one caller has seen of each value. Contracts see the table and the view of each.
#[derive(Drop)]
pub struct RowPass<V: Kept> {
    pub(crate) seats: Vec<Pass<V>>,
}

impl<V: Kept> Model for RowPass<V> {
    ghost use Rattle.std.specs.Prelude.{List, map};
    ghost use Rattle.lock_row.specs.Spots.{Spot, spot};

    ghost Value = { List (Spot V.Opening V.Entry) };

    ghost view = { λ p. map (λ q. spot q.seat.table_id q.seat.me.0) p.seats.items };
}

impl<V: Kept> RowPass<V> {
    ghost use Rattle.std.specs.Prelude.{◌≡◌};
    ghost use Rattle.lock_row.specs.Spots.{caller_at};

    /// Its caller's number, by its first seat; 0 for a pass without seats.
    pub fn caller(&self) -> u64
        ensures { result ≡ caller_at self.now }
    {
        match self.seats.first() {
            Some(seat) => seat.caller,
            None => 0,
        }
    }
}

/// Seats of one caller, while a row is made.
#[derive(Drop)]
pub struct Column<V: Kept> {
    seats: Vec<Pass<V>>,
}

impl<V: Kept> Model for Column<V> {
    ghost use Rattle.std.specs.Prelude.{◌-◌, map, vec_len, vec_capacity};
    ghost use Rattle.lock_row.specs.Spots.{spot};
    ghost use Rattle.lock_row.specs.Locking.{Seats};

    ghost Value = { Seats V.Opening V.Entry };

    ghost view = { λ c. record {
      spots = map (λ q. spot q.seat.table_id q.seat.me.0) c.seats.items;
      room = vec_capacity c.seats - vec_len c.seats;
    } };
}

impl<V: Kept> Column<V> {
    ghost use Rattle.std.specs.Prelude.{◌≡◌, ◌<◌, ◌≤◌, [], IfSome};
    ghost use Rattle.lock_row.specs.Spots.{spot};
    ghost use Rattle.lock_row.specs.Locking.{Extends};

    // No seats, and room for so many.
    pub(crate) fn new(alloc: Global, places: usize) -> Option<Column<V>>
        ensures { IfSome result (λ c. (c.spots ≡ []) × (places ≤ c.room)) }
    {
        match Vec::with_capacity(alloc, places) {
            Ok(seats) => Some(Column { seats }),
            Err(_) => None,
        }
    }

    // One seat more.
    pub(crate) fn push(&mut self, seat: Pass<V>)
        requires { 0 < self.old.room }
        ensures { Extends (spot seat.seat.table_id seat.seat.me.0) self.old self.new }
    {
        self.seats.push_reserved(seat);
    }

    // Gives up the room for seats, of which there is none.
    pub(crate) fn free(self)
        requires { self.spots ≡ [] }
    {
        let Column { seats } = self;
        seats.destroy_empty();
    }

    // They are a pass.
    pub(crate) fn pass(self) -> RowPass<V>
        ensures { result ≡ self.spots }
    {
        let Column { seats } = self;
        RowPass { seats }
    }
}

/// What a pass had seen of each value. It makes no entry and takes no turn.
#[derive(Drop)]
pub struct RowNote<V: Kept> {
    pub(crate) notes: Vec<Note<V>>,
}

impl<V: Kept> Model for RowNote<V> {
    ghost use Rattle.std.specs.Prelude.{List, map};
    ghost use Rattle.lock_row.specs.Spots.{Spot, spot};

    ghost Value = { List (Spot V.Opening V.Entry) };

    ghost view = { λ p. map (λ q. spot q.seat.table_id q.seat.me.0) p.notes.items };
}
