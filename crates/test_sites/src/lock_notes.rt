use crate::counter::Counter;
use crate::counting::{count_once, tell};
use shelf_lock::ShelfLock;
use std::test::Fail;

#[test]
fn a_note_makes_no_entry(rt: HostRuntime) -> Result<(), Fail> {
    let counter = Counter::new(rt.alloc(), 0);
    let Ok((lock, mut passes)) = ShelfLock::new(rt.alloc(), counter, 2) else {
        return Err(Fail::from("no memory"));
    };
    let (Some(mut second), Some(mut first)) = (passes.pop(), passes.pop()) else {
        return Err(Fail::from("no passes"));
    };
    let one = count_once(&rt, &lock, &mut first, 0);
    tell(&lock, &mut first, &mut second);
    tell(&lock, &mut second, &mut first);
    let two = count_once(&rt, &lock, &mut second, 0);
    passes.push_reserved(first);
    passes.push_reserved(second);
    let counter = lock.close(&rt, passes);
    assert!(rt; matches!(one, Ok(Some(()))) && matches!(two, Ok(Some(()))));
    let [older, newer] = counter.counts.as_slice() else {
        return Err(Fail::from("not two counts"));
    };
    assert!(rt; older.caller == 0 && newer.caller == 1);
    Ok(())
}
