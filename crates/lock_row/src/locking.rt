//! Putting values behind locks, and their seats into passes.
ghost use Rattle.std.specs.Prelude.{◌≡◌, ℕ, ◌+◌, ◌<◌, ◌≤◌, ◌^◌, [], Some, IfOk, IfErr, IfSome, IfNone, vec_len, vec_capacity, reverse, length, slice_get, map};
ghost use Rattle.std.specs.List.{AllZip};
ghost use Rattle.lock_row.specs.Spots.{spot};
ghost use Rattle.lock_row.specs.Rows.{IsFresh, AreFresh, AreHomesOf, ComesBack, ZipsAll};
ghost use Rattle.lock_row.specs.Locks.{HasRoomFor, GrowsBy, AreMadeFor, lock_homes, seat_spot};
ghost use Rattle.lock_row.specs.Locking.{IsHeld, AreHeld, AreColumns, AreDealt, Extends, HoldsAll, PutsBack, AllComeBack, first_value, home_in};

use crate::row::LockRow;
use crate::seats::{Column, RowPass};
use shelf_lock::{Kept, Pass, ShelfLock};
use std::alloc::Global;
use std::marker::Model;
use std::sync::Wait;

/// A lock, with the seats of all its callers.
#[derive(Drop)]
pub struct Held<V: Kept> {
    lock: ShelfLock<V>,
    seats: Vec<Pass<V>>,
}

impl<V: Kept> Model for Held<V> {
    ghost use Rattle.std.specs.Prelude.{map};
    ghost use Rattle.lock_row.specs.Spots.{spot};
    ghost use Rattle.lock_row.specs.Locking as locking;

    ghost Value = { locking.Held V V.Opening V.Entry };

    ghost view = { λ h. record {
      table = h.lock.board.shared.table_id;
      start = h.lock.board.shared.key;
      spots = map (λ q. spot q.seat.table_id q.seat.me.0) h.seats.items;
    } };
}

impl<V: Kept> Held<V> {
    // Puts a value behind a lock. Without memory it comes back.
    fn new(alloc: Global, value: V, seats: u32) -> Result<Held<V>, V>
        requires { IsFresh V.Kept value }
        ensures held { IfOk result (λ h. IsHeld V.Kept seats h × (first_value h ≡ value)) }
        ensures back { IfErr result (λ v. v ≡ value) }
    {
        let (lock, seats) = ShelfLock::new(alloc, value, seats)?;
        Ok(Held { lock, seats })
    }

    // Takes the value back.
    fn undo<R: Wait>(self, rt: &R, seats: u32) -> V
        requires some { 0 < seats }
        requires held { IsHeld V.Kept seats self }
        ensures { ComesBack V.Kept (first_value self) result }
    {
        let _ = seats;
        let Held { lock, seats } = self;
        lock.close(rt, seats)
    }
}

/// What a row takes of memory beside its locks.
#[derive(Drop)]
pub struct Room<V: Kept> {
    held: Vec<Held<V>>,
    locks: Vec<ShelfLock<V>>,
    columns: Vec<Column<V>>,
    spare: Vec<RowPass<V>>,
}

impl<V: Kept> LockRow<V> {
    /// Puts values behind locks, each with seats for so many callers; none has his pass yet. Where there is no memory the
    /// values come back, with which nothing was done. It may wait, where it takes them from locks again.
    pub fn new<R: Wait>(
        rt: &R,
        alloc: Global,
        values: Vec<V>,
        seats: u32,
    ) -> Result<LockRow<V>, Vec<V>>
        requires few { seats + 1 < 2 ^ 32 }
        requires fresh { AreFresh V.Kept values.items }
        ensures homes { IfOk result (λ r. AreHomesOf V.Kept values.items r.homes) }
        ensures seats { IfOk result (λ r. (r.seats ≡ 0) × (r.left ≡ seats)) }
        ensures back { IfErr result (λ v. AllZip (ComesBack V.Kept) values.items v.items) }
        ensures room { IfErr result (λ v. vec_len v ≡ vec_len values) }
    {
        let mut values = values;
        // One seat at each lock stays with the row.
        let all = seats + 1;
        let Some(room) = room_for::<V>(alloc, values.len(), all) else {
            return Err(values);
        };
        let Room {
            held,
            mut locks,
            mut columns,
            spare,
        } = room;
        match hold_all(rt, alloc, &mut values, held, all) {
            None => {
                locks.destroy_empty();
                spare.destroy_empty();
                free_all(columns);
                Err(values)
            }
            Some(held) => {
                deal_all(held, &mut locks, &mut columns);
                let own = columns.pop().unwrap().pass();
                let spare = passes_of(columns, spare);
                Ok(LockRow {
                    locks,
                    room: values,
                    spare,
                    own,
                    dealt: 0,
                })
            }
        }
    }
}

// Room for so many places, and so many callers.
fn room_for<V: Kept>(alloc: Global, places: usize, seats: u32) -> Option<Room<V>>
    ensures held { IfSome result (λ r. HasRoomFor places r.held) }
    ensures locks { IfSome result (λ r. HasRoomFor places r.locks) }
    ensures columns { IfSome result (λ r. AreColumns seats places r.columns) }
    ensures spare { IfSome result (λ r. HasRoomFor seats r.spare) }
{
    let Ok(held) = Vec::with_capacity(alloc, places) else {
        return None;
    };
    let Ok(locks) = Vec::with_capacity(alloc, places) else {
        held.destroy_empty();
        return None;
    };
    let Ok(spare) = Vec::with_capacity(alloc, seats as usize) else {
        held.destroy_empty();
        locks.destroy_empty();
        return None;
    };
    let Some(columns) = columns_for(alloc, places, seats) else {
        held.destroy_empty();
        locks.destroy_empty();
        spare.destroy_empty();
        return None;
    };
    Some(Room {
        held,
        locks,
        columns,
        spare,
    })
}

// For so many callers, room for so many seats.
fn columns_for<V: Kept>(alloc: Global, places: usize, seats: u32) -> Option<Vec<Column<V>>>
    ensures { IfSome result (AreColumns seats places) }
{
    let Ok(mut columns) = Vec::with_capacity(alloc, seats as usize) else {
        return None;
    };
    for caller in 0..seats {
        let _ = caller;
        let Some(column) = Column::new(alloc, places) else {
            free_all(columns);
            return None;
        };
        columns.push_reserved(column);
    }
    Some(columns)
}

// Gives up room that was not used.
fn free_all<V: Kept>(mut columns: Vec<Column<V>>)
    requires { (k : ℕ) (c : _) → slice_get columns.items k ≡ Some c → c.spots ≡ [] }
{
    while let Some(column) = columns.pop() {
        column.free();
    }
    columns.destroy_empty();
}

// Puts values behind locks, from the last on. Without memory they come back.
fn hold_all<V: Kept, R: Wait>(
    rt: &R,
    alloc: Global,
    values: &mut Vec<V>,
    mut held: Vec<Held<V>>,
    seats: u32,
) -> Option<Vec<Held<V>>>
    requires some { 0 < seats }
    requires fresh { AreFresh V.Kept values.old.items }
    requires room { HasRoomFor (vec_len values.old) held }
    ensures held { IfSome result (λ h. HoldsAll V.Kept seats values.old.items h.items) }
    ensures len { IfSome result (λ h. vec_len h ≡ vec_len values.old) }
    ensures gone { IfSome result (λ _. (values.new.items ≡ []) × (vec_len values.new ≡ 0)) }
    ensures capacity { vec_capacity values.new ≡ vec_capacity values.old }
    ensures back { IfNone result (AllComeBack V.Kept values.old values.new) }
{
    while let Some(value) = values.pop() {
        match Held::new(alloc, value, seats) {
            Ok(more) => held.push_reserved(more),
            Err(value) => {
                values.push_reserved(value);
                undo_all(rt, values, held, seats);
                return None;
            }
        }
    }
    Some(held)
}

// Takes values back from their locks, that of the last lock first.
fn undo_all<V: Kept, R: Wait>(rt: &R, values: &mut Vec<V>, mut held: Vec<Held<V>>, seats: u32)
    requires some { 0 < seats }
    requires held { AreHeld V.Kept seats held.items }
    requires room { vec_len values.old + vec_len held ≤ vec_capacity values.old }
    ensures back { PutsBack V.Kept held.items values.old.items values.new.items }
    ensures room { GrowsBy (vec_len held) values.old values.new }
{
    while let Some(last) = held.pop() {
        values.push_reserved(last.undo(rt, seats));
    }
    held.destroy_empty();
}

// Deals the seats at all locks, from the last lock on.
fn deal_all<V: Kept>(
    mut held: Vec<Held<V>>,
    locks: &mut Vec<ShelfLock<V>>,
    columns: &mut Vec<Column<V>>,
)
    requires held { AreHeld V.Kept (length columns.old.items) held.items }
    requires room { HasRoomFor (vec_len held) locks.old }
    requires columns { AreDealt [] (vec_len held) columns.old.items }
    ensures homes { lock_homes V.Kept locks.new.items ≡ reverse (map (home_in V.Kept) held.items) }
    ensures seats { AreMadeFor (length columns.old.items) locks.new.items }
    ensures len { vec_len locks.new ≡ vec_len held }
    ensures many { length columns.new.items ≡ length columns.old.items }
    ensures columns { AreDealt (reverse (map (home_in V.Kept) held.items)) 0 columns.new.items }
{
    while let Some(last) = held.pop() {
        let Held { lock, seats } = last;
        locks.push_reserved(lock);
        deal(columns, seats);
    }
    held.destroy_empty();
}

// Deals the seats at one lock, one to each caller.
fn deal<V: Kept>(columns: &mut Vec<Column<V>>, mut seats: Vec<Pass<V>>)
    requires len { length seats.items ≡ length columns.old.items }
    requires room { (k : ℕ) (c : _) → slice_get columns.old.items k ≡ Some c → 0 < c.room }
    ensures dealt { ZipsAll Extends columns.old.items (map seat_spot seats.items) columns.new.items }
    ensures len { length columns.new.items ≡ length columns.old.items }
{
    while let Some(seat) = seats.pop() {
        columns[seats.len()].push(seat);
    }
    seats.destroy_empty();
}

// The passes of the callers, the last caller's first.
fn passes_of<V: Kept>(mut columns: Vec<Column<V>>, mut spare: Vec<RowPass<V>>) -> Vec<RowPass<V>>
    requires room { HasRoomFor (vec_len columns) spare }
    ensures { result.items ≡ reverse (map (λ c. c.spots) columns.items) }
{
    while let Some(column) = columns.pop() {
        spare.push_reserved(column.pass());
    }
    columns.destroy_empty();
    spare
}
