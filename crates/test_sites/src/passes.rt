ghost use Rattle.std.specs.Prelude.{IfOk, true};
ghost use Rattle.disk_trio.specs.Trio.{trio_view};
ghost use Rattle.web_outside.specs.Counted.{counted};
ghost use Rattle.site.specs.Sites.{IsOwn, HoldsAt};
ghost use Rattle.site.specs.Beginnings.{IsReady, IsWhole};

use crate::sites::{MemoryDisks, MemorySite};
use http_forms::answer_of;
use page_names::{Target, parse_target};
use script_value::Reply;
use shelf::Ticket;
use site::SitePass;
use std::alloc::Global;
use std::sync::Wait;
use std::test::Fail;
use web_outside::{Counting, OpenGate};

/// What a worker has seen of a site on disks in memory.
pub type MemoryPass = SitePass<MemoryDisks, Counting>;

/// The passes of the workers 0 and 1.
pub fn two_passes(alloc: Global, site: &mut MemorySite) -> Result<(MemoryPass, MemoryPass), Fail>
    requires { IsReady site.old }
    ensures whole { IsWhole site.new }
    ensures own { IfOk result (λ r. IsOwn site.new r.0 × IsOwn site.new r.1) }
{
    let mut passes = site.passes(alloc, 2)?;
    let Some(second) = passes.pop() else {
        return Err(Fail::from("no pass"));
    };
    let Some(first) = passes.pop() else {
        return Err(Fail::from("no pass"));
    };
    Ok((first, second))
}

/// What a path names.
pub fn target(path: &str) -> Result<Target, Fail> {
    Ok(parse_target(path.as_bytes()).ok_or("no target")?)
}

/// What a visit of the target with this query is answered.
pub fn visited<R: Wait>(
    rt: &R,
    alloc: Global,
    site: &MemorySite,
    pass: &mut MemoryPass,
    target: &Target,
    query: &str,
) -> Result<Reply, Fail>
    requires { IsOwn site.now pass.old }
    ensures { IsOwn site.now pass.new }
{
    let answer = answer_of(alloc, query.as_bytes(), b"".as_slice())?;
    Ok(site.visit(rt, alloc, pass, target, answer, &OpenGate))
}

/// The page that a start of this path is shown.
pub fn shown<R: Wait>(
    rt: &R,
    alloc: Global,
    site: &MemorySite,
    pass: &mut MemoryPass,
    path: &str,
) -> Result<Target, Fail>
    requires { IsOwn site.now pass.old }
    ensures { IsOwn site.now pass.new }
{
    let start = target(path)?;
    match visited(rt, alloc, site, pass, &start, "")? {
        Reply::Page { bytes: _, url } => Ok(parse_target(url.as_slice()).ok_or("no name")?),
        _ => Err(Fail::from("no page")),
    }
}

/// What a last page says, and nothing where there is none.
pub fn end_of(reply: &Reply) -> &[u8] {
    match reply {
        Reply::Ended(page) => page.as_slice(),
        _ => &[],
    }
}

/// The ticket of a visit of the target, whose answer has no binding.
pub fn taken<R: Wait>(
    rt: &R,
    alloc: Global,
    site: &MemorySite,
    pass: &mut MemoryPass,
    target: &Target,
) -> Result<Ticket, Fail>
    requires { IsOwn site.now pass.old }
    ensures own { IsOwn site.now pass.new }
    ensures held { IfOk result (HoldsAt trio_view true counted pass.new) }
{
    let answer = answer_of(alloc, b"".as_slice(), b"".as_slice())?;
    match site.take(rt, alloc, pass, target, answer) {
        Ok(ticket) => Ok(ticket),
        Err(_) => Err(Fail::from("no ticket")),
    }
}

/// Runs the visit of a ticket, and publishes it.
pub fn published<R: Wait>(
    rt: &R,
    alloc: Global,
    site: &MemorySite,
    pass: &mut MemoryPass,
    ticket: Ticket,
) -> Reply
    requires own { IsOwn site.now pass.old }
    requires held { HoldsAt trio_view true counted pass.old ticket }
    ensures { IsOwn site.now pass.new }
{
    let segment = site.run(alloc, pass, &ticket);
    site.publish(rt, alloc, pass, ticket, segment)
}
