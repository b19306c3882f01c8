//! What a site hands back at its end, and a site that goes on with it.
ghost use Rattle.script_nodes.specs.Views.{scripts_of};
ghost use Rattle.setup_reader.specs.Texts.{IsReadSetup};
ghost use Rattle.site.specs.Sites.{IsOwn};
ghost use Rattle.site.specs.Beginnings.{CanBegin, IsReady, IsWhole};

use crate::passes::{MemoryPass, end_of, shown, target, two_passes, visited};
use crate::sites::{MemoryDisks, MemorySite, begun, opened, renewed, rewritten, written};
use page_names::Target;
use script_nodes::Setup;
use script_value::Reply;
use std::alloc::Global;
use std::sync::Wait;
use std::test::Fail;
use web_outside::Counting;

// What a site of two passes hands back: its disks and its sources.
fn closed<R: Wait>(
    rt: &R,
    alloc: Global,
    site: MemorySite,
    first: MemoryPass,
    second: MemoryPass,
) -> Result<(Vec<MemoryDisks>, Vec<Counting>), Fail>
    requires whole { IsWhole site }
    requires own { IsOwn site first × IsOwn site second }
{
    let mut passes = Vec::with_capacity(alloc, 2)?;
    passes.push_reserved(first);
    passes.push_reserved(second);
    let (disks, sources, _histories) = site.close(rt, passes);
    Ok((disks, sources))
}

// What a site that is closed showed and handed back.
#[derive(Drop)]
struct Handed {
    page: Target,
    disks: Vec<MemoryDisks>,
    sources: Vec<Counting>,
}

// A site that showed a page, and was closed.
fn shown_and_closed<R: Wait>(rt: &R, alloc: Global) -> Result<Handed, Fail> {
    let mut site = begun(rt, alloc)?;
    let (mut first, second) = two_passes(alloc, &mut site)?;
    let page = shown(rt, alloc, &site, &mut first, "/servlets/shop")?;
    let (disks, sources) = closed(rt, alloc, site, first, second)?;
    Ok(Handed {
        page,
        disks,
        sources,
    })
}

// What the first pass of a site is told that answers a page, and then starts a shop.
fn answered<R: Wait>(
    rt: &R,
    alloc: Global,
    site: &mut MemorySite,
    page: &Target,
) -> Result<(Reply, Reply), Fail>
    requires { IsReady site.old }
{
    let (mut first, _second) = two_passes(alloc, site)?;
    let old = visited(rt, alloc, site, &mut first, page, "")?;
    let start = target("/servlets/shop")?;
    let new = visited(rt, alloc, site, &mut first, &start, "")?;
    Ok((old, new))
}

// What a site of this setup is told that is begun where another was closed, answers its page, and starts a shop.
fn gone_on<R: Wait>(
    rt: &R,
    alloc: Global,
    setup: Setup,
    handed: Handed,
) -> Result<(Reply, Reply), Fail>
    requires read { IsReadSetup (scripts_of setup) }
    requires begins { CanBegin (scripts_of setup) 2 }
{
    let Handed {
        page,
        disks,
        sources,
    } = handed;
    if sources.len() != 2 {
        return Err(Fail::from("not two sources"));
    }
    match opened(rt, alloc, setup, renewed(alloc, disks)?, sources) {
        Ok(mut site) => answered(rt, alloc, &mut site, &page),
        Err(_) => Err(Fail::from("not begun again")),
    }
}

// A page is answered by a site on the disks of one that was closed.
#[test]
fn a_site_goes_on_where_another_ended(rt: HostRuntime) -> Result<(), Fail> {
    let alloc = rt.alloc();
    let handed = shown_and_closed(&rt, alloc)?;
    let (sold, _again) = gone_on(&rt, alloc, written(alloc)?, handed)?;
    assert_eq!(rt; end_of(&sold), b"<p>bought</p>".as_slice());
    Ok(())
}

// A page of before goes on with the text of its start, and a new start has the new one.
#[test]
fn a_site_goes_on_with_another_setup(rt: HostRuntime) -> Result<(), Fail> {
    let alloc = rt.alloc();
    let handed = shown_and_closed(&rt, alloc)?;
    let (sold, started) = gone_on(&rt, alloc, rewritten(alloc)?, handed)?;
    assert_eq!(rt; end_of(&sold), b"<p>bought</p>".as_slice());
    assert_eq!(rt; end_of(&started), b"<p>closed</p>".as_slice());
    Ok(())
}
