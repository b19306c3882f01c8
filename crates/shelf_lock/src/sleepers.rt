//! The threads that wait for the value asleep, so that they take no processor.
ghost use Rattle.shelf_lock.specs.Turns.{IsSized};

use crate::kept::Kept;
use crate::rule::Top;
use std::sync::Wait;
use std::sync::atomic::{AtomicU64, Ordering};

/// The table's word that is the gate.
pub const GATE: usize = 0;

/// The gate while a pass has the value.
const OUT: u32 = 1;

/// How many threads are about to sleep, or asleep, at the gate. One that counts itself looks at the gate once more before
/// it sleeps; one that opens the gate looks at the count after that. So one of the two sees the other.
#[derive(Drop)]
pub struct Sleepers {
    count: AtomicU64,
}

impl Sleepers {
    pub fn none() -> Sleepers {
        Sleepers {
            count: AtomicU64::new(0),
        }
    }

    /// Sleeps until the gate opens, or for less; where it is open it returns at once.
    pub fn sleep<V: Kept, R: Wait>(&self, rt: &R, top: &Top<V>)
        requires { IsSized top.now.table_id }
    {
        self.count.fetch_add(1, Ordering::SeqCst);
        top.park(rt, GATE, OUT);
        self.count.fetch_sub(1, Ordering::SeqCst);
    }

    /// Wakes one sleeper, if there is one.
    pub fn wake<V: Kept>(&self, top: &Top<V>)
        requires { IsSized top.now.table_id }
    {
        if self.count.load(Ordering::SeqCst) > 0 {
            top.wake_one(GATE);
        }
    }
}
