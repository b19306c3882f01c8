//! The lock.
ghost use Rattle.std.specs.Prelude.{◌≡◌, ℕ, ◌+◌, ◌<◌, ◌≤◌, ◌^◌, [], Some, length, slice_get, IfOk, IfErr};
ghost use Rattle.shelf_lock.specs.Order.{Begins, MadeBelow, both};
ghost use mathlib.Core.List.{IsPrefix};
ghost use Rattle.shelf_lock.specs.Turns.{IsSized, IsSameSeat, IsUntouched, MayCall, KeepsEach, AreNewPasses, AreOf, GoesOnFrom, HasTurned, IsMade, MakesInTurn, TellsEach, joined};

use crate::kept::Kept;
use crate::pass::{Note, Pass};
use crate::rule::{Appoint, Board, Place, Start};
use crate::sleepers::Sleepers;
use crate::steps;
use atomic_table::{Refused, Table};
use std::alloc::Global;
use std::snapshot::Snapshot;
use std::sync::Wait;

/// Lets one pass at a time work on the value. Threads may share it where the value is `Send`.
#[derive(Drop)]
pub struct ShelfLock<V: Kept> {
    pub board: Board<V>,
    sleepers: Sleepers,
    pub ghost sized: { IsSized board.shared.table_id },
}

/// The next entry would have the number 2^62, and no entry has that.
#[derive(Debug, Drop)]
pub struct Worn;

// The table, with the seat that hands out the callers.
fn made<V: Kept>(alloc: Global, value: V, seats: u32) -> Result<(Board<V>, Place<V>), V>
    requires { V.sound value × (V.history value ≡ []) × (V.first value ≤ 2 ^ 62) }
    ensures ok { IfOk result (λ r.
        IsMade V.Kept value seats r.0.shared.table_id r.0.shared.key r.1) }
    ensures err { IfErr result (λ v. v ≡ value) }
{
    let start = Start {
        value: Snapshot::of(&value),
        seats,
    };
    let Ok(mut slots) = Vec::with_capacity(alloc, 1) else {
        return Err(value);
    };
    slots.push_reserved(value);
    match Table::new(alloc, &[0], slots, &start) {
        Ok(parts) => Ok(parts),
        Err(Refused { mut slots }) => {
            let value = slots.pop().unwrap();
            slots.destroy_empty();
            Err(value)
        }
    }
}

impl<V: Kept> ShelfLock<V> {
    /// The lock, and a pass for each of the callers 0, 1, and so on, as many as there are seats. Where there is no memory
    /// the value comes back.
    pub fn new(alloc: Global, value: V, seats: u32) -> Result<(ShelfLock<V>, Vec<Pass<V>>), V>
        requires { V.sound value × (V.history value ≡ []) × (V.first value ≤ 2 ^ 62) }
        ensures lock { IfOk result (λ r. (r.0.board.shared.key.value.value ≡ value) × (r.0.board.shared.key.seats ≡ seats)) }
        ensures passes { IfOk result (λ r.
            AreNewPasses V.Kept value seats r.0.board.shared.table_id r.1.items) }
        ensures err { IfErr result (λ v. v ≡ value) }
    {
        let Ok(mut passes) = Vec::with_capacity(alloc, seats as usize) else {
            return Err(value);
        };
        let (board, mut first) = made(alloc, value, seats)?;
        for caller in 0..seats {
            let seat = board.shared.split_seat::<Appoint>(&mut first);
            passes.push_reserved(Pass {
                seat,
                caller: u64::from(caller),
            });
        }
        let sleepers = Sleepers::none();
        Ok((ShelfLock { board, sleepers }, passes))
    }

    /// Calls `f` on the value, while no other pass has it, and gives the answer of `f`. It may wait for other passes. What
    /// `f` made of the value is put back in the step at which its entry, if it made one, is in the history. The pass has
    /// then seen the value's history.
    pub fn turn<R: Wait, A, F: FnOnce(&mut V) -> A>(
        &self,
        rt: &R,
        pass: &mut Pass<V>,
        f: F,
    ) -> Result<A, Worn>
        requires own { pass.old.seat.table_id ≡ self.now.board.shared.table_id }
        requires callable { MayCall V.Kept F.FnOnce f pass.old.seat.me.0 }
        requires keeps { KeepsEach V.Kept F.FnOnce f pass.old.seat.me.0 }
        ensures own { IsSameSeat pass.old.seat pass.new.seat × (pass.new.caller ≡ pass.old.caller) }
        ensures turned { HasTurned V.Kept F.FnOnce f
            pass.old.seat.me.0 result pass.new.seat.me.0 }
        ensures grows { IsPrefix pass.old.seat.me.0.seen pass.new.seat.me.0.seen }
        ensures made { MakesInTurn V.caller pass.old.caller
            pass.old.seat.me.0.seen result pass.new.seat.me.0.seen }
    {
        steps::turn(rt, &self.board.shared, &self.sleepers, &mut pass.seat, f)
    }

    /// A note of what the pass has seen. It takes no memory, and there is no end of notes.
    pub fn split(&self, pass: &mut Pass<V>) -> Note<V>
        requires own { pass.old.seat.table_id ≡ self.now.board.shared.table_id }
        ensures own { IsUntouched pass.old pass.new }
        ensures note { (result.seat.table_id ≡ pass.old.seat.table_id) × (result.seat.me.0.seen ≡ pass.old.seat.me.0.seen) }
    {
        Note {
            seat: steps::note(&self.board.shared, &mut pass.seat),
        }
    }

    /// Takes a note in: the pass has then seen the longer of what it had and what the note's maker had. Both are of one
    /// history, and the pass made no entry after what it had seen.
    pub fn join(&self, pass: &mut Pass<V>, note: Note<V>)
        requires own { AreOf self.now.board.shared.table_id pass.old.seat note.seat }
        ensures own { IsSameSeat pass.old.seat pass.new.seat × (pass.new.caller ≡ pass.old.caller) }
        ensures seen { pass.new.seat.me.0 ≡ joined pass.old.seat.me.0 note.seat.me.0 }
        ensures one { GoesOnFrom V.Kept pass.old.caller
            pass.old.seat.me.0 note.seat.me.0 pass.new.seat.me.0 }
    {
        let Note { seat } = note;
        steps::hear(&self.board.shared, &mut pass.seat, seat);
    }

    /// Takes another pass in, for one that closes many locks and has no list of each lock's passes. What `close_with` then
    /// tells of this pass is told of both.
    pub fn absorb(&self, pass: &mut Pass<V>, other: Pass<V>)
        requires own { AreOf self.now.board.shared.table_id pass.old.seat other.seat }
        ensures own { IsSameSeat pass.old.seat pass.new.seat × (pass.new.caller ≡ pass.old.caller) }
        ensures both { pass.new.seat.me.0 ≡ both pass.old.seat.me.0 other.seat.me.0 }
    {
        let Pass { seat, caller: _ } = other;
        steps::absorb(&self.board.shared, &mut pass.seat, seat);
    }

    /// Waits for the value, and gives it back. Its history tells of the pass, and of each that was taken into it.
    pub fn close_with<R: Wait>(self, rt: &R, pass: Pass<V>) -> V
        requires own { pass.seat.table_id ≡ self.board.shared.table_id }
        ensures sound { V.sound result }
        ensures opening { V.opening result ≡ V.opening self.board.shared.key.value.value }
        ensures first { V.first result ≡ V.first self.board.shared.key.value.value }
        ensures within { V.first result + length (V.history result) ≤ 2 ^ 62 }
        ensures callers { MadeBelow V.Kept self.board.shared.key.seats (V.history result) }
        ensures told { Begins V.Kept (V.history result) pass.seat.me.0 }
    {
        let ShelfLock { board, sleepers } = self;
        let Pass {
            mut seat,
            caller: _,
        } = pass;
        steps::enter(rt, &board.shared, &sleepers, &mut seat);
        steps::shut(&board.shared, &mut seat);
        let mut closed = board.close_with(seat);
        let value = closed.take(0);
        closed.free();
        value
    }

    /// Waits for the value, and gives it back. Its history tells of each pass, and of those that were taken into it: what
    /// each has seen begins the history, and has all of its caller's entries.
    pub fn close<R: Wait>(self, rt: &R, mut passes: Vec<Pass<V>>) -> V
        requires some { 0 < length passes.items }
        requires own { (k : ℕ) (p : _) → slice_get passes.items k ≡ Some p → p.seat.table_id ≡ self.board.shared.table_id }
        ensures sound { V.sound result }
        ensures opening { V.opening result ≡ V.opening self.board.shared.key.value.value }
        ensures first { V.first result ≡ V.first self.board.shared.key.value.value }
        ensures within { V.first result + length (V.history result) ≤ 2 ^ 62 }
        ensures callers { MadeBelow V.Kept self.board.shared.key.seats (V.history result) }
        ensures told { TellsEach V.Kept (V.history result) passes.items }
    {
        let mut pass = passes.pop().unwrap();
        while let Some(other) = passes.pop() {
            self.absorb(&mut pass, other);
        }
        passes.destroy_empty();
        self.close_with(rt, pass)
    }
}
