//! Ticks of a site.
ghost use Rattle.site.specs.Sites.{IsOwn};

use crate::passes::{MemoryPass, shown, two_passes};
use crate::sites::{MemorySite, begun};
use script_value::Reply;
use std::alloc::Global;
use std::sync::Wait;
use std::test::Fail;

// How many instances a tick frees, of both shelves.
fn freed<R: Wait>(
    rt: &R,
    alloc: Global,
    site: &MemorySite,
    pass: &mut MemoryPass,
    tick: u32,
) -> Result<(u32, u32), Fail>
    requires { IsOwn site.now pass.old }
    ensures { IsOwn site.now pass.new }
{
    let swept = site.tick(rt, alloc, pass, tick as u64)?;
    match swept.as_slice() {
        [Ok(first), Ok(second)] => Ok((*first, *second)),
        _ => Err(Fail::from("not two shelves")),
    }
}

// What three ticks free after three starts, of which two are of the second pass.
fn swept<R: Wait>(
    rt: &R,
    alloc: Global,
    site: &MemorySite,
    first: &mut MemoryPass,
    second: &mut MemoryPass,
) -> Result<[(u32, u32); 3], Fail>
    requires first { IsOwn site.now first.old }
    requires second { IsOwn site.now second.old }
{
    shown(rt, alloc, site, first, "/servlets/shop")?;
    shown(rt, alloc, site, second, "/servlets/shop")?;
    shown(rt, alloc, site, second, "/servlets/note")?;
    Ok([
        freed(rt, alloc, site, first, 3_599)?,
        freed(rt, alloc, site, second, 3_600)?,
        freed(rt, alloc, site, first, 3_600)?,
    ])
}

// A page can be answered for 3,600 seconds; a tick that is over does nothing.
#[test]
fn a_tick_sweeps_each_shelf(rt: HostRuntime) -> Result<(), Fail> {
    let alloc = rt.alloc();
    let mut site = begun(&rt, alloc)?;
    let (mut first, mut second) = two_passes(alloc, &mut site)?;
    let swept = swept(&rt, alloc, &site, &mut first, &mut second)?;
    assert!(rt; swept == [(0, 0), (1, 2), (0, 0)], "{swept:?}");
    Ok(())
}
