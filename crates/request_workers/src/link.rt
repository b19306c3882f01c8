ghost use Rattle.std.specs.Prelude.{◌≡◌, ◌≤◌, ◌<◌, ◌+◌, [], true, IfSome};
ghost use Rattle.http_forms.specs.Passes.{AreSwept, KeepsSkips, MaySkip};
ghost use Rattle.http_forms.specs.Reader.{kept};
ghost use Rattle.request_workers.specs.Linking as spec;
ghost use Rattle.request_workers.specs.Linking.{Linked, TurnsLink, Answered, links_count, HasRoom};
ghost use Rattle.request_workers.specs.Scenes.{IsLater};

use crate::serve::visit;
use http_forms::{
    Answer, Answering, Incoming, ReadStop, Refused, Request, RequestReader, write_reply,
};
use reply_words::Told;
use script_value::Reply;
use std::alloc::Global;
use web_outside::{Clock, Gate, Link};

// The last tick of all, in seconds.
const LAST_TICK: u64 = (1 << 62) - 1;

/// Why a link was served no further.
#[derive(Clone, Copy, Debug, PartialEq, Eq)]
pub enum LinkEnd {
    /// The last request that was answered closes the connection, or is the last one that may come.
    Closed,
    /// The next bytes were refused, and this was written.
    Refused(Refused),
    /// The link ended before a byte of the next request.
    Idle,
    /// Reading failed.
    ReadFault,
    /// Writing failed: a reply or a refusal is written in part.
    WriteFault,
    /// Memory ran out.
    Memory,
}

/// How a link was served.
#[derive(Clone, Copy, Debug, PartialEq, Eq)]
pub struct Links {
    /// Visits that were answered with a page, written or not.
    pub pages: u64,
    /// All other visits.
    pub refused: u64,
    /// Why it was served no further.
    pub end: LinkEnd,
}

impl Links {
    // Nothing was served yet.
    fn nothing() -> Links
        ensures { links_count result ≡ spec.no_visit }
    {
        Links {
            pages: 0,
            refused: 0,
            end: LinkEnd::Idle,
        }
    }

    // One visit more, which had this reply.
    fn count(&mut self, reply: &Reply)
        requires { HasRoom self.old }
        ensures { links_count self.new ≡ spec.both (links_count self.old) (spec.visited reply.now) }
    {
        match Told::of(reply) {
            Told::Page(_) => self.pages += 1,
            Told::Word(..) => self.refused += 1,
        }
    }
}

// Whether each shelf was swept.
fn are_swept(answers: &[Result<u32, Reply>]) -> bool
    ensures { result ≡ true → AreSwept answers.now }
{
    match answers {
        [] => true,
        [Ok(_), rest @ ..] => are_swept(rest),
        [Err(_), ..] => false,
    }
}

// Sweeps the shelves at the clock's tick, unless they were swept at this tick before: then there is nothing to do, and no
// lock is taken. Says whether there was memory for their answers.
fn sweep<A: Answering, C: Clock>(
    alloc: Global,
    answering: &A,
    pass: &mut A::Pass,
    clock: &C,
    ticked: &mut Option<u64>,
) -> bool
    requires own { (A.rules answering.now).IsOwn pass.old }
    requires ticked { IfSome ticked.old (MaySkip (A.rules answering.now) pass.old) }
    ensures own { (A.rules answering.now).IsOwn pass.new }
    ensures ticked { IfSome ticked.new (MaySkip (A.rules answering.now) pass.new) }
    ensures swept { spec.SweptBy (A.rules answering.now) (C.shows clock.now) pass.old result pass.new }
{
    let tick = clock.now().min(LAST_TICK);
    if *ticked == Some(tick) {
        return true;
    }
    *ticked = None;
    let Ok(answers) = answering.tick(alloc, pass, tick) else {
        return false;
    };
    if are_swept(&answers) {
        *ticked = Some(tick);
    }
    true
}

// Makes the visit that a request asks for, and writes its reply. Says why the link is served no further, if so.
fn answer_request<A: Answering, L: Link, G: Gate>(
    alloc: Global,
    answering: &A,
    pass: &mut A::Pass,
    request: Request,
    link: &mut L,
    gate: &G,
    last: bool,
    links: &mut Links,
) -> Option<LinkEnd>
    requires own { (A.rules answering.now).IsOwn pass.old }
    requires room { HasRoom links.old }
    ensures own { (A.rules answering.now).IsOwn pass.new }
    ensures answered { Answered (A.rules answering.now) pass.old pass.new request last
        (L.view link.old) (L.view link.new) (links_count links.old) (links_count links.new) result }
    ensures skips { KeepsSkips (A.rules answering.now) pass.old pass.new }
    ensures later { IsLater (L.view link.old) (L.view link.new) }
{
    let Request {
        target,
        answer,
        closes,
        ..
    } = request;
    let closes = closes || last;
    let reply = visit(alloc, answering, pass, target, answer, gate);
    links.count(&reply);
    let answer = Answer::Reply(reply);
    if write_reply(&answer, closes, link.output()).is_err() {
        return Some(LinkEnd::WriteFault);
    }
    if closes {
        return Some(LinkEnd::Closed);
    }
    None
}

// Writes why the bytes of a link are refused.
fn refuse<L: Link>(link: &mut L, reason: Refused) -> LinkEnd
    ensures refused { spec.Refuses reason (L.view link.old) (L.view link.new) result }
    ensures later { IsLater (L.view link.old) (L.view link.new) }
{
    if write_reply(&Answer::Refused(reason), true, link.output()).is_err() {
        return LinkEnd::WriteFault;
    }
    LinkEnd::Refused(reason)
}

// Sweeps at the clock's tick, and then serves the next request of the link. Says why the link is served no further, if so.
fn take_request<A: Answering, L: Link, C: Clock, G: Gate>(
    alloc: Global,
    answering: &A,
    pass: &mut A::Pass,
    reader: &mut RequestReader,
    link: &mut L,
    clock: &C,
    gate: &G,
    left: u32,
    ticked: &mut Option<u64>,
    links: &mut Links,
) -> Option<LinkEnd>
    requires own { (A.rules answering.now).IsOwn pass.old }
    requires room { HasRoom links.old }
    requires some { 0 < left }
    requires ticked { IfSome ticked.old (MaySkip (A.rules answering.now) pass.old) }
    ensures own { (A.rules answering.now).IsOwn pass.new }
    ensures ticked { IfSome ticked.new (MaySkip (A.rules answering.now) pass.new) }
    ensures turn { TurnsLink (A.rules answering.now) (C.shows clock.now) left pass.old pass.new
        (kept reader.old) (kept reader.new) (L.view link.old) (L.view link.new)
        (links_count links.old) (links_count links.new) result }
    ensures later { IsLater (L.view link.old) (L.view link.new) }
{
    if sweep(alloc, answering, pass, clock, ticked) {
        match reader.next(alloc, link.input()) {
            Ok(Incoming::Visit(request)) => {
                answer_request(
                    alloc,
                    answering,
                    pass,
                    request,
                    link,
                    gate,
                    left == 1,
                    links,
                )
            }
            Ok(Incoming::Refused(reason)) => Some(refuse(link, reason)),
            Ok(Incoming::Nothing) => Some(LinkEnd::Idle),
            Err(ReadStop::Failed) => Some(LinkEnd::ReadFault),
            Err(ReadStop::Memory) => Some(LinkEnd::Memory),
        }
    } else {
        Some(LinkEnd::Memory)
    }
}

/// Serves one link: the requests that come over it, so many at most, each after the one before, until one closes the
/// connection, the next bytes are refused, no more come, or something fails. Before each the shelves are swept at the
/// clock's tick, which does nothing where they were at that tick before. Bytes read past a request are kept for the next.
pub fn serve_link<A: Answering, L: Link, C: Clock, G: Gate>(
    alloc: Global,
    answering: &A,
    pass: &mut A::Pass,
    link: &mut L,
    clock: &C,
    gate: &G,
    requests: u32,
) -> Links
    requires own { (A.rules answering.now).IsOwn pass.old }
    requires some { 0 < requests }
    requires few { requests ≤ 1000 }
    ensures own { (A.rules answering.now).IsOwn pass.new }
    ensures linked { Linked (A.rules answering.now) (C.shows clock.now) requests pass.old pass.new
        [] (L.view link.old) (L.view link.new) (links_count result) result.end }
    ensures few { result.pages + result.refused ≤ requests }
    ensures later { IsLater (L.view link.old) (L.view link.new) }
{
    let mut reader = RequestReader::new(alloc);
    let mut links = Links::nothing();
    let mut left = requests;
    let mut ticked = None;
    loop {
        let end = take_request(
            alloc,
            answering,
            pass,
            &mut reader,
            link,
            clock,
            gate,
            left,
            &mut ticked,
            &mut links,
        );
        match end {
            Some(end) => return Links { end, ..links },
            None => left -= 1,
        }
    }
}
