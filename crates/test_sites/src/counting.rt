//! What passes do at the lock, alone and in threads.
ghost use Rattle.std.specs.Prelude.{◌≡◌};
ghost use mathlib.Core.List.{IsPrefix};
ghost use Rattle.shelf_lock.specs.Turns.{AreOf};

use crate::counter::{Count, Counter};
use shelf_lock::{Kept, Pass, ShelfLock, Worn};
use std::sync::Wait;
use std::thread::{Threads, join};

/// One turn, in which the pass counts. It tells whether the count was kept.
pub fn count_once<R: Wait>(
    rt: &R,
    lock: &ShelfLock<Counter>,
    pass: &mut Pass<Counter>,
    turn: u64,
) -> Result<Option<()>, Worn>
    requires own { pass.old.seat.table_id ≡ lock.now.board.shared.table_id }
    ensures own { pass.new.seat.table_id ≡ pass.old.seat.table_id }
    ensures caller { pass.new.caller ≡ pass.old.caller }
    ensures grows { IsPrefix pass.old.seat.me.0.seen pass.new.seat.me.0.seen }
{
    let caller = pass.caller;
    lock.turn(rt, pass, |c: &mut Counter| c.count(Count { caller, turn }))
}

/// So many turns of the pass, one after the other.
pub fn count_up<R: Wait>(
    rt: &R,
    lock: &ShelfLock<Counter>,
    mut pass: Pass<Counter>,
    turns: u64,
) -> Pass<Counter>
    requires { pass.seat.table_id ≡ lock.now.board.shared.table_id }
    ensures { result.seat.table_id ≡ lock.now.board.shared.table_id }
{
    for turn in 0..turns {
        let _ = count_once(rt, lock, &mut pass, turn);
    }
    pass
}

/// Both passes count, each in a thread.
pub fn both_count<R: Threads + Wait + Sync>(
    rt: &R,
    lock: &ShelfLock<Counter>,
    first: Pass<Counter>,
    second: Pass<Counter>,
    turns: u64,
) -> (Pass<Counter>, Pass<Counter>)
    requires { AreOf lock.now.board.shared.table_id first.seat second.seat }
    ensures first { result.0.seat.table_id ≡ lock.now.board.shared.table_id }
    ensures second { result.1.seat.table_id ≡ lock.now.board.shared.table_id }
{
    join(
        rt,
        || count_up(rt, lock, first, turns),
        || count_up(rt, lock, second, turns),
    )
}

/// A turn that changes nothing.
pub fn look<V: Kept, R: Wait>(rt: &R, lock: &ShelfLock<V>, mut pass: Pass<V>) -> Pass<V>
    requires { pass.seat.table_id ≡ lock.now.board.shared.table_id }
    ensures { result.seat.table_id ≡ lock.now.board.shared.table_id }
{
    let _ = lock.turn(rt, &mut pass, |_: &mut V| ());
    pass
}

/// Two passes look, each in a thread, at any value that may go to another thread.
pub fn both_look<V: Kept + Send, R: Threads + Wait + Sync>(
    rt: &R,
    lock: &ShelfLock<V>,
    first: Pass<V>,
    second: Pass<V>,
) -> (Pass<V>, Pass<V>)
    requires { AreOf lock.now.board.shared.table_id first.seat second.seat }
    ensures first { result.0.seat.table_id ≡ lock.now.board.shared.table_id }
    ensures second { result.1.seat.table_id ≡ lock.now.board.shared.table_id }
{
    join(rt, || look(rt, lock, first), || look(rt, lock, second))
}

/// One pass tells another what it has seen.
pub fn tell(lock: &ShelfLock<Counter>, from: &mut Pass<Counter>, to: &mut Pass<Counter>)
    requires own { AreOf lock.now.board.shared.table_id from.old.seat to.old.seat }
    ensures own { (from.new.seat.table_id ≡ from.old.seat.table_id) × (to.new.seat.table_id ≡ to.old.seat.table_id) }
    ensures callers { (from.new.caller ≡ from.old.caller) × (to.new.caller ≡ to.old.caller) }
    ensures heard { IsPrefix from.old.seat.me.0.seen to.new.seat.me.0.seen }
    ensures kept { IsPrefix to.old.seat.me.0.seen to.new.seat.me.0.seen }
{
    let note = lock.split(from);
    lock.join(to, note);
}
