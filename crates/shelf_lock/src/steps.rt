//! What a seat does in a turn, and between turns.
ghost use Rattle.std.specs.Prelude.{◌≡◌, ◌+◌, ◌<◌, [], length};
ghost use Rattle.shelf_lock.specs.declared.view.Role.TheVariants.{Closer, Comparing, Noted};
ghost use Rattle.shelf_lock.specs.Order.{IsWithin, posed, both, noted};
ghost use Rattle.shelf_lock.specs.Turns.{IsSized, IsOutside, IsSameSeat, HasEntered, MayCall, KeepsEach, AreSeated, GoesOnFrom, HasCompared, HasLeft, HasTurned, MayLeave, MayShut, joined};

use crate::kept::Kept;
use crate::lock::Worn;
use crate::rule::{Absorb, Enter, Hear, Leave, Look, Place, Shut, Tell, Top};
use crate::sleepers::{GATE, Sleepers};
use crossbeam_utils::Backoff;
use std::sync::Wait;

/// The number that no entry has.
const ENTRY_LIMIT: u64 = 1 << 62;

/// The table's slot that is the value's.
const VALUE: usize = 0;

/// The gate while the value is at home.
const HOME: u64 = 0;

/// The gate while a seat has the value.
const OUT: u64 = 1;

/// The gate once the value was put back for good.
const CLOSED: u64 = 2;

// Waits until the seat has the value: awake for a moment, and then asleep.
pub fn enter<V: Kept, R: Wait>(rt: &R, top: &Top<V>, sleepers: &Sleepers, seat: &mut Place<V>)
    requires table { (seat.old.table_id ≡ top.now.table_id) × IsSized top.now.table_id }
    requires out { IsOutside seat.old }
    ensures same { IsSameSeat seat.old seat.new }
    ensures has { (x : V) × HasEntered V.Kept seat.old seat.new x }
{
    let backoff = Backoff::new();
    for _ in rt.forever() {
        if top.compare_exchange::<Enter<V>>(seat, GATE, HOME, OUT) == HOME {
            return;
        }
        if backoff.is_completed() {
            sleepers.sleep(rt, top);
        } else {
            backoff.snooze();
        }
    }
    unreachable!()
}

// Puts the value back.
fn leave<V: Kept>(top: &Top<V>, sleepers: &Sleepers, seat: &mut Place<V>)
    requires table { (seat.old.table_id ≡ top.now.table_id) × IsSized top.now.table_id }
    requires kept { MayLeave V.Kept seat.old }
    ensures same { IsSameSeat seat.old seat.new }
    ensures left { HasLeft V.Kept seat.old seat.new }
{
    top.store::<Leave<V>>(seat, GATE, HOME);
    sleepers.wake(top);
}

// The number that the next entry gets.
fn next_number<V: Kept>(value: &V) -> u64
    requires { IsWithin V.Kept value.now }
    ensures { result ≡ V.first value.now + length (V.history value.now) }
{
    value.first_number() + value.entry_count()
}

// Calls `f` on the value, while no other seat has it.
pub fn turn<V: Kept, R: Wait, A, F: FnOnce(&mut V) -> A>(
    rt: &R,
    top: &Top<V>,
    sleepers: &Sleepers,
    seat: &mut Place<V>,
    f: F,
) -> Result<A, Worn>
    requires table { (seat.old.table_id ≡ top.now.table_id) × IsSized top.now.table_id }
    requires out { IsOutside seat.old }
    requires callable { MayCall V.Kept F.FnOnce f seat.old.me.0 }
    requires keeps { KeepsEach V.Kept F.FnOnce f seat.old.me.0 }
    ensures same { IsSameSeat seat.old seat.new × (seat.new.me.1 ≡ []) }
    ensures turned { HasTurned V.Kept F.FnOnce f seat.old.me.0 result seat.new.me.0 }
{
    enter(rt, top, sleepers, seat);
    let value = seat.slot_mut(top, VALUE);
    if next_number(value) == ENTRY_LIMIT {
        leave(top, sleepers, seat);
        return Err(Worn);
    }
    let answer = f(value);
    leave(top, sleepers, seat);
    Ok(answer)
}

// Compares what was taken in.
fn compare<V: Kept>(top: &Top<V>, seat: &mut Place<V>)
    requires table { (seat.old.table_id ≡ top.now.table_id) × IsSized top.now.table_id }
    requires role { (seat.old.me.0.role ≡ Comparing) × (seat.old.me.1 ≡ []) }
    ensures same { IsSameSeat seat.old seat.new }
    ensures seen { HasCompared V.Kept seat.old seat.new }
{
    top.load::<Look<V>>(seat, GATE);
}

// A note of what the seat has seen.
pub fn note<V: Kept>(top: &Top<V>, seat: &mut Place<V>) -> Place<V>
    requires table { (seat.old.table_id ≡ top.now.table_id) × IsSized top.now.table_id }
    requires out { IsOutside seat.old }
    ensures same { IsSameSeat seat.old seat.new × (seat.new.me ≡ seat.old.me) }
    ensures note { (result.table_id ≡ top.now.table_id) × (result.me ≡ (noted seat.old.me.0, [])) }
{
    top.split_seat::<Tell>(seat)
}

// Takes a note in.
pub fn hear<V: Kept>(top: &Top<V>, seat: &mut Place<V>, note: Place<V>)
    requires table { AreSeated top.now.table_id seat.old note }
    requires out { IsOutside seat.old × (note.me.0.role ≡ Noted) × (note.me.1 ≡ []) }
    ensures same { IsSameSeat seat.old seat.new }
    ensures seen { seat.new.me ≡ (joined seat.old.me.0 note.me.0, []) }
    ensures one { GoesOnFrom V.Kept seat.old.me.0.caller seat.old.me.0 note.me.0 seat.new.me.0 }
{
    top.join_seat::<Hear>(seat, note);
    compare(top, seat);
}

// Takes another seat in.
pub fn absorb<V: Kept>(top: &Top<V>, seat: &mut Place<V>, other: Place<V>)
    requires table { AreSeated top.now.table_id seat.old other }
    requires out { IsOutside seat.old × IsOutside other }
    ensures same { IsSameSeat seat.old seat.new }
    ensures both { seat.new.me ≡ (both seat.old.me.0 other.me.0, []) }
{
    top.join_seat::<Absorb>(seat, other);
}

// Puts the value back for good.
pub fn shut<V: Kept>(top: &Top<V>, seat: &mut Place<V>)
    requires table { (seat.old.table_id ≡ top.now.table_id) × IsSized top.now.table_id }
    requires kept { MayShut V.Kept seat.old }
    ensures same { IsSameSeat seat.old seat.new }
    ensures left { seat.new.me ≡ (posed Closer seat.old.me.0.seen seat.old.me.0, []) }
{
    top.store::<Shut<V>>(seat, GATE, CLOSED);
}
