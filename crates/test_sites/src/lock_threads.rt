use crate::counter::{Count, Counter};
use crate::counting::{both_count, both_look};
use shelf_lock::ShelfLock;
use std::test::Fail;

const TURNS: u64 = 1000;

// Whether the caller's counts are those of its turns, in order.
fn in_order(counts: &[Count], caller: u64) -> bool {
    let mut next = 0;
    for count in counts {
        if count.caller == caller {
            if count.turn != next {
                return false;
            }
            next = count.turn.saturating_add(1);
        }
    }
    next == TURNS
}

#[test]
fn each_thread_counts_in_its_order(rt: HostRuntime) -> Result<(), Fail> {
    let counter = Counter::new(rt.alloc(), 0);
    let Ok((lock, mut passes)) = ShelfLock::new(rt.alloc(), counter, 2) else {
        return Err(Fail::from("no memory"));
    };
    let (Some(second), Some(first)) = (passes.pop(), passes.pop()) else {
        return Err(Fail::from("no passes"));
    };
    let (first, second) = both_count(&rt, &lock, first, second, TURNS);
    let (mut first, second) = both_look(&rt, &lock, first, second);
    lock.absorb(&mut first, second);
    let counter = lock.close_with(&rt, first);
    assert!(rt; counter.counts.len() as u64 == 2 * TURNS);
    assert!(rt; in_order(&counter.counts, 0));
    assert!(rt; in_order(&counter.counts, 1));
    Ok(())
}
