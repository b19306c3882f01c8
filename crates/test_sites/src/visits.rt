//! Visits of two passes of a site.
ghost use Rattle.site.specs.Sites.{IsOwn};

use crate::passes::{MemoryPass, end_of, published, shown, taken, target, two_passes, visited};
use crate::sites::{MemorySite, begun};
use page_names::Target;
use script_value::{Refusal, Reply};
use std::alloc::Global;
use std::sync::Wait;
use std::test::Fail;

// What both passes are told that take a page while there is one item, and run it before either publishes.
fn bought_twice<R: Wait>(
    rt: &R,
    alloc: Global,
    site: &MemorySite,
    first: &mut MemoryPass,
    second: &mut MemoryPass,
) -> Result<(Reply, Reply), Fail>
    requires first { IsOwn site.now first.old }
    requires second { IsOwn site.now second.old }
{
    let page = shown(rt, alloc, site, first, "/servlets/shop")?;
    let one = taken(rt, alloc, site, first, &page)?;
    let other = taken(rt, alloc, site, second, &page)?;
    let early = site.run(alloc, second, &other);
    let sold = published(rt, alloc, site, first, one);
    let late = site.publish(rt, alloc, second, other, early);
    Ok((sold, late))
}

#[test]
fn the_last_item_is_sold_once(rt: HostRuntime) -> Result<(), Fail> {
    let alloc = rt.alloc();
    let mut site = begun(&rt, alloc)?;
    let (mut first, mut second) = two_passes(alloc, &mut site)?;
    let (sold, late) = bought_twice(&rt, alloc, &site, &mut first, &mut second)?;
    assert_eq!(rt; end_of(&sold), b"<p>bought</p>".as_slice());
    assert_eq!(rt; end_of(&late), b"<p>sold out</p>".as_slice());
    Ok(())
}

// What the first pass is told that says something, and the second, which heard of it.
fn said_and_read<R: Wait>(
    rt: &R,
    alloc: Global,
    site: &MemorySite,
    first: &mut MemoryPass,
    second: &mut MemoryPass,
) -> Result<(Reply, Reply), Fail>
    requires first { IsOwn site.now first.old }
    requires second { IsOwn site.now second.old }
{
    let page = shown(rt, alloc, site, first, "/servlets/note")?;
    let said = visited(rt, alloc, site, first, &page, "w=hi")?;
    let note = site.tell(alloc, first)?;
    site.hear(second, note);
    let read = visited(rt, alloc, site, second, &page, "")?;
    Ok((said, read))
}

#[test]
fn a_worker_that_heard_a_note_goes_on(rt: HostRuntime) -> Result<(), Fail> {
    let alloc = rt.alloc();
    let mut site = begun(&rt, alloc)?;
    let (mut first, mut second) = two_passes(alloc, &mut site)?;
    let (said, read) = said_and_read(&rt, alloc, &site, &mut first, &mut second)?;
    assert_eq!(rt; end_of(&said), b"<p>ok</p>".as_slice());
    assert_eq!(rt; end_of(&read), b"<p>hi</p>".as_slice());
    Ok(())
}

// The page that a start of a pass shows, and whether a page of the shelf 2 is unknown to it.
fn started<R: Wait>(
    rt: &R,
    alloc: Global,
    site: &MemorySite,
    pass: &mut MemoryPass,
) -> Result<(Target, bool), Fail>
    requires { IsOwn site.now pass.old }
{
    let page = shown(rt, alloc, site, pass, "/servlets/shop")?;
    let nowhere = target("/servlets/shop;2*0*0*0000000000000000")?;
    let refused = visited(rt, alloc, site, pass, &nowhere, "")?;
    Ok((page, matches!(refused, Reply::Refused(Refusal::Unknown))))
}

// A start of worker 1 is on shelf 1, and there is no shelf 2.
#[test]
fn each_worker_starts_on_a_shelf_of_its_own(rt: HostRuntime) -> Result<(), Fail> {
    let alloc = rt.alloc();
    let mut site = begun(&rt, alloc)?;
    let (_first, mut second) = two_passes(alloc, &mut site)?;
    let (Target::Page(_, name), true) = started(&rt, alloc, &site, &mut second)? else {
        return Err(Fail::from("no page"));
    };
    assert_eq!(rt;
        (name.shelf, name.instance, name.page, name.nonce),
        (1, 0, 0, 1)
    );
    Ok(())
}
