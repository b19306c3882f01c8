//! The locks.
ghost use Rattle.std.specs.Prelude.{◌≡◌, ℕ, ◌<◌, ◌∷◌, Some, IfOk, vec_len, reverse, length, slice_get};
ghost use Rattle.std.specs.List.{AllZip};
ghost use Rattle.lock_row.specs.Spots.{spot, one_dealt, IsAt, IsOf, IsNoteIn, At};
ghost use Rattle.lock_row.specs.Rows.{MayCallAt, KeepsEachAt, AllTell, AreNotesOf, HasTurnedAt, Hears, HearsAt, IsBackFrom, IsNoteAt, SitsAt, IsNewPass, TellsAll, Absorbs, ZipsAll};
ghost use Rattle.lock_row.specs.Locks.{HasRoomFor, AreSeatsAt, IsClosedOf, TellsOfSeat, lock_homes};
ghost use Rattle.shelf_lock.specs.Order.{both};

use crate::seats::{RowNote, RowPass};
use shelf_lock::{Kept, Note, Pass, ShelfLock, Worn};
use std::alloc::{AllocError, Global};
use std::marker::Model;
use std::sync::Wait;

/// Values, each behind a lock of its own. Contracts see where the locks are, how many callers have their pass, and for how
/// many more there are seats.
#[derive(Drop)]
pub struct LockRow<V: Kept> {
    pub(crate) locks: Vec<ShelfLock<V>>,
    // Where the values go when the row is closed.
    pub(crate) room: Vec<V>,
    // The passes that no caller has yet; the last is the next caller's.
    pub(crate) spare: Vec<RowPass<V>>,
    // That of a caller after them, who has none.
    pub(crate) own: RowPass<V>,
    // How many callers have theirs.
    pub(crate) dealt: u32,
}

impl<V: Kept> Model for LockRow<V> {
    ghost use Rattle.std.specs.Prelude.{length, vec_len};
    ghost use Rattle.lock_row.specs.Spots.{Homes};
    ghost use Rattle.lock_row.specs.Locks.{HasRoomFor, HasSeats, lock_homes};

    ghost Value = { Homes V.Opening };

    ghost view = { λ s. record {
      homes = lock_homes V.Kept s.locks.items;
      seats = s.dealt;
      left = length s.spare.items;
    } };

    ghost invariant = { λ s. HasRoomFor (vec_len s.locks) s.room
        × HasSeats V.Kept s.dealt s.locks.items s.spare.items s.own };
}

impl<V: Kept> LockRow<V> {
    /// How many locks there are.
    pub fn len(&self) -> usize
        ensures { result ≡ length self.now.homes }
    {
        self.locks.len()
    }

    /// The pass of the next caller, who has seen nothing.
    pub fn deal(&mut self) -> RowPass<V>
        requires { 0 < self.old.left }
        ensures dealt { self.new ≡ one_dealt self.old }
        ensures own { IsOf self.new result }
        ensures new { IsNewPass self.old.seats result }
    {
        let pass = self.spare.pop().unwrap();
        self.dealt += 1;
        pass
    }

    /// Calls `f` on the value at this place, while no other pass has it, and gives the answer of `f`. It may wait for other
    /// passes. The pass has then seen the value's history.
    pub fn turn<R: Wait, A, F: FnOnce(&mut V) -> A>(
        &self,
        rt: &R,
        pass: &mut RowPass<V>,
        place: usize,
        f: F,
    ) -> Result<A, Worn>
        requires own { IsOf self.now pass.old }
        requires place { place < length self.now.homes }
        requires callable { MayCallAt V.Kept F.FnOnce f place pass.old }
        requires keeps { KeepsEachAt V.Kept F.FnOnce f place pass.old }
        ensures own { IsOf self.now pass.new }
        ensures turned { HasTurnedAt V.Kept F.FnOnce f place pass.old result pass.new }
    {
        self.locks[place].turn(rt, &mut pass.seats[place], f)
    }

    fn note_at(&self, pass: &mut RowPass<V>, place: usize) -> Note<V>
        requires own { IsOf self.now pass.old }
        requires place { place < length self.now.homes }
        ensures same { pass.new ≡ pass.old }
        ensures note { IsNoteAt place pass.old (spot result.seat.table_id result.seat.me.0) }
    {
        self.locks[place].split(&mut pass.seats[place])
    }

    fn hear_at(&self, pass: &mut RowPass<V>, place: usize, note: Note<V>)
        requires own { IsOf self.now pass.old }
        requires place { place < length self.now.homes }
        requires note { SitsAt place pass.old note.seat.table_id }
        ensures own { IsOf self.now pass.new }
        ensures heard { HearsAt V.Kept place note.seat.me.0.seen pass.old pass.new }
    {
        self.locks[place].join(&mut pass.seats[place], note);
    }

    /// A note of what the pass has seen. Want of memory changes nothing.
    pub fn tell(&self, alloc: Global, pass: &mut RowPass<V>) -> Result<RowNote<V>, AllocError>
        requires own { IsOf self.now pass.old }
        ensures same { pass.new ≡ pass.old }
        ensures own { IfOk result (λ n. IsNoteIn self.now n) }
        ensures note { IfOk result (λ n. AreNotesOf pass.old n) }
    {
        let places = self.len();
        let mut notes = Vec::with_capacity(alloc, places)?;
        for place in 0..places {
            notes.push_reserved(self.note_at(pass, place));
        }
        Ok(RowNote { notes })
    }

    /// Hears a note: of each value the pass has then seen what the note's maker had, if that is longer. Both are of one
    /// history.
    pub fn hear(&self, pass: &mut RowPass<V>, note: RowNote<V>)
        requires own { IsOf self.now pass.old × IsNoteIn self.now note }
        ensures own { IsOf self.now pass.new }
        ensures heard { ZipsAll (Hears V.Kept) pass.old note pass.new }
    {
        let RowNote { mut notes } = note;
        while let Some(note) = notes.pop() {
            self.hear_at(pass, notes.len(), note);
        }
        notes.destroy_empty();
    }

    /// Waits for each value, and gives them all back, in the order of the places. It takes no memory. Each history tells of
    /// each pass, and callers who have none made nothing.
    pub fn close<R: Wait>(self, rt: &R, passes: Vec<RowPass<V>>) -> Vec<V>
        requires own { (j : ℕ) (p : _) → slice_get passes.items j ≡ Some p → IsOf self p }
        ensures back { AllZip (IsBackFrom V.Kept self.seats) self.homes result.items }
        ensures told { AllTell V.Kept passes.items result.items }
    {
        let LockRow {
            locks,
            room,
            mut own,
            spare,
            dealt: _,
        } = self;
        take_in(&locks, &mut own, passes);
        take_in(&locks, &mut own, spare);
        let RowPass { seats } = own;
        let mut values = room;
        shut(rt, locks, seats, &mut values);
        values.reverse();
        values
    }
}

// Takes passes in: what is then told of this one is told of all.
fn take_in<V: Kept>(locks: &[ShelfLock<V>], pass: &mut RowPass<V>, mut others: Vec<RowPass<V>>)
    requires own { IsAt (lock_homes V.Kept locks.now) pass.old }
    requires others { (j : ℕ) (p : _) → slice_get others.items j ≡ Some p
        → IsAt (lock_homes V.Kept locks.now) p }
    ensures own { IsAt (lock_homes V.Kept locks.now) pass.new }
    ensures told { TellsAll V.Kept (pass.old ∷ others.items) pass.new }
{
    while let Some(other) = others.pop() {
        absorb(locks, pass, other);
    }
    others.destroy_empty();
}

// Takes another pass in: what is then told of this one is told of both.
fn absorb<V: Kept>(locks: &[ShelfLock<V>], pass: &mut RowPass<V>, other: RowPass<V>)
    requires own { IsAt (lock_homes V.Kept locks.now) pass.old }
    requires other { IsAt (lock_homes V.Kept locks.now) other }
    ensures own { IsAt (lock_homes V.Kept locks.now) pass.new }
    ensures both { ZipsAll Absorbs pass.old other pass.new }
{
    let RowPass { mut seats } = other;
    while let Some(seat) = seats.pop() {
        absorb_at(locks, pass, seats.len(), seat);
    }
    seats.destroy_empty();
}

fn absorb_at<V: Kept>(locks: &[ShelfLock<V>], pass: &mut RowPass<V>, place: usize, other: Pass<V>)
    requires own { IsAt (lock_homes V.Kept locks.now) pass.old }
    requires place { place < length locks.now }
    requires other { SitsAt place pass.old other.seat.table_id }
    ensures own { IsAt (lock_homes V.Kept locks.now) pass.new }
    ensures both { At place (λ v w. w ≡ both v other.seat.me.0) pass.old pass.new }
{
    locks[place].absorb(&mut pass.seats[place], other);
}

// Closes each lock with its seat, from the last on.
fn shut<V: Kept, R: Wait>(
    rt: &R,
    mut locks: Vec<ShelfLock<V>>,
    mut seats: Vec<Pass<V>>,
    values: &mut Vec<V>,
)
    requires own { AreSeatsAt locks.items seats.items }
    requires room { HasRoomFor (vec_len locks) values.old }
    ensures closed { AllZip (IsClosedOf V.Kept) locks.items (reverse values.new.items) }
    ensures told { AllZip (TellsOfSeat V.Kept) seats.items (reverse values.new.items) }
{
    while let Some(lock) = locks.pop() {
        let seat = seats.pop().unwrap();
        values.push_reserved(lock.close_with(rt, seat));
    }
    locks.destroy_empty();
    seats.destroy_empty();
}
