use crate::counter::Counter;
use crate::counting::count_once;
use shelf_lock::{ShelfLock, Worn};
use std::test::Fail;

#[test]
fn the_second_turn_is_worn(rt: HostRuntime) -> Result<(), Fail> {
    let counter = Counter::new(rt.alloc(), (1 << 62) - 1);
    let Ok((lock, mut passes)) = ShelfLock::new(rt.alloc(), counter, 1) else {
        return Err(Fail::from("no memory"));
    };
    let Some(mut pass) = passes.pop() else {
        return Err(Fail::from("no pass"));
    };
    let first = count_once(&rt, &lock, &mut pass, 0);
    let second = count_once(&rt, &lock, &mut pass, 1);
    let counter = lock.close_with(&rt, pass);
    assert!(rt; matches!(first, Ok(Some(()))));
    assert!(rt; matches!(second, Err(Worn)));
    assert!(rt; counter.counts.len() == 1);
    Ok(())
}
