//! Visits and ticks of a site where memory is short.
ghost use Rattle.std.specs.Prelude.{IfOk};
ghost use Rattle.site.specs.Sites.{IsOwn};
ghost use Rattle.site.specs.Beginnings.{IsReady};

use crate::passes::{MemoryPass, target, two_passes, visited};
use crate::sites::{MemoryFault, MemorySite, begun, disks, opened, renewed, sources, written};
use page_names::{Target, parse_target};
use script_value::Reply;
use shelf::BeginFault;
use std::alloc::Global;
use std::sync::Wait;
use std::test::Fail;

// These hold where no allocation fails, and where any one of the calls that they are about fails.

// The number of the instance that a start makes; none for want of memory.
fn started<R: Wait>(
    rt: &R,
    alloc: Global,
    site: &MemorySite,
    pass: &mut MemoryPass,
) -> Result<Option<u64>, Fail>
    requires { IsOwn site.now pass.old }
    ensures { IsOwn site.now pass.new }
{
    let start = target("/servlets/shop")?;
    match visited(rt, alloc, site, pass, &start, "")? {
        Reply::Page { bytes: _, url } => match parse_target(url.as_slice()) {
            Some(Target::Page(_, page)) => Ok(Some(page.instance)),
            _ => Err(Fail::from("no name")),
        },
        Reply::Memory => Ok(None),
        _ => Err(Fail::from("no page")),
    }
}

// How many instances a tick frees. A shelf that there is no memory for frees none.
fn freed<R: Wait>(
    rt: &R,
    alloc: Global,
    site: &MemorySite,
    pass: &mut MemoryPass,
) -> Result<u32, Fail>
    requires { IsOwn site.now pass.old }
    ensures { IsOwn site.now pass.new }
{
    let Ok(answers) = site.tick(rt, alloc, pass, 3_600) else {
        return Ok(0);
    };
    let mut freed = 0u32;
    for answer in answers.as_slice() {
        match answer {
            Ok(count) => freed = freed.saturating_add(*count),
            Err(Reply::Memory) => (),
            Err(_) => return Err(Fail::from("not swept")),
        }
    }
    Ok(freed)
}

// The numbers of two starts, and what two ticks between them free.
type Numbers = (Option<u64>, u32, u32, Option<u64>);

fn numbers<R: Wait>(
    rt: &R,
    alloc: Global,
    site: &MemorySite,
    pass: &mut MemoryPass,
) -> Result<Numbers, Fail>
    requires { IsOwn site.now pass.old }
{
    Ok((
        started(rt, alloc, site, pass)?,
        freed(rt, alloc, site, pass)?,
        freed(rt, alloc, site, pass)?,
        started(rt, alloc, site, pass)?,
    ))
}

// A visit for which there is no memory changes nothing but that its number is spent, if it was drawn; a tick leaves the
// shelf that it finds none for as it was, and the next one sweeps it.
#[test]
fn want_of_memory_spends_a_number_at_most(rt: HostRuntime) -> Result<(), Fail> {
    let alloc = rt.alloc();
    let mut site = begun(&rt, alloc)?;
    let (mut pass, _second) = two_passes(alloc, &mut site)?;
    let numbers = numbers(&rt, alloc, &site, &mut pass)?;
    let is_so = matches!(
        numbers,
        (Some(0), 1, 0, None | Some(1)) | (Some(0), 0, 1, Some(1)) | (None, 0, 0, Some(0 | 1))
    );
    assert!(rt; is_so, "{numbers:?}");
    Ok(())
}

// The site that is begun again with what was handed back for want of memory.
fn begun_again<R: Wait>(rt: &R, alloc: Global, fault: MemoryFault) -> Result<MemorySite, Fail>
    ensures { IfOk result IsReady }
{
    let setup = written(alloc)?;
    let is_memory = fault.fault == BeginFault::Memory;
    let are_back = fault.nonces.as_slice() == sources(alloc)?.as_slice();
    if !is_memory || !are_back || fault.nonces.len() != 2 {
        return Err(Fail::from("not handed back"));
    }
    match opened(rt, alloc, setup, renewed(alloc, fault.disks)?, fault.nonces) {
        Ok(site) => Ok(site),
        Err(_) => Err(Fail::from("not begun again")),
    }
}

// The site of two shelves, also where there was no memory for it at first.
fn begun_at_last<R: Wait>(rt: &R, alloc: Global) -> Result<MemorySite, Fail>
    ensures { IfOk result IsReady }
{
    let setup = written(alloc)?;
    let disks = disks(alloc, &[])?;
    match opened(rt, alloc, setup, disks, sources(alloc)?) {
        Ok(site) => Ok(site),
        Err(fault) => begun_again(rt, alloc, fault),
    }
}

// Whether a start has the number 0; or the next one the number 0 or 1, where there is no memory for it.
fn starts_well<R: Wait>(
    rt: &R,
    alloc: Global,
    site: &MemorySite,
    pass: &mut MemoryPass,
) -> Result<bool, Fail>
    requires { IsOwn site.now pass.old }
{
    if let Some(number) = started(rt, alloc, site, pass)? {
        return Ok(number == 0);
    }
    Ok(matches!(started(rt, alloc, site, pass)?, Some(0 | 1)))
}

// Where there is no memory to begin a site, one is begun with what is handed back once there is some. A start after it for
// which there is none spends a number at most.
#[test]
fn what_a_site_was_not_begun_with_begins_one(rt: HostRuntime) -> Result<(), Fail> {
    let alloc = rt.alloc();
    let mut site = begun_at_last(&rt, alloc)?;
    let (mut pass, _second) = two_passes(alloc, &mut site)?;
    assert!(rt; starts_well(&rt, alloc, &site, &mut pass)?);
    Ok(())
}
