ghost use Rattle.std.specs.Prelude.{◌≡◌, IfOk};
ghost use Rattle.request_workers.specs.Scenes.{IsLater};
ghost use Rattle.request_workers.specs.Serving.{RepliesTo, Answers, ServesOrDrops, served_by};
ghost use Rattle.http_forms.specs.Passes.{KeepsSkips};

use crate::request::read_request;
use http_forms::{Answer, Answering, Incoming, ReadStop, Refused, Request, write_reply};
use page_names::Target;
use script_value::{Refusal, Reply, Value};
use std::alloc::{AllocError, Global};
use web_outside::{Gate, Link};

/// How a link was served.
#[derive(Drop)]
pub enum Served {
    /// A visit was made, and its reply written.
    Answered(Reply),
    /// The bytes were refused, and this was written. No visit was made.
    Refused(Refused),
    /// The link ended before its first byte. No visit was made, and nothing written.
    Idle,
    /// Reading failed. No visit was made, and nothing written.
    ReadFault,
    /// Writing failed: the reply of the visit, if one was made, or else the refusal is written in part.
    WriteFault(Option<Reply>),
}

impl Served {
    /// A copy, equal to its source.
    pub fn try_clone(&self, alloc: Global) -> Result<Served, AllocError>
        ensures { IfOk result (λ copy. copy ≡ self.now) }
    {
        Ok(match self {
            Served::Answered(reply) => Served::Answered(reply.try_clone(alloc)?),
            Served::Refused(reason) => Served::Refused(*reason),
            Served::Idle => Served::Idle,
            Served::ReadFault => Served::ReadFault,
            Served::WriteFault(None) => Served::WriteFault(None),
            Served::WriteFault(Some(reply)) => Served::WriteFault(Some(reply.try_clone(alloc)?)),
        })
    }
}

// The reply of the visit that is asked for. What names nothing is unknown, and then nothing is visited.
pub(crate) fn visit<A: Answering, G: Gate>(
    alloc: Global,
    answering: &A,
    pass: &mut A::Pass,
    target: Option<Target>,
    answer: Value,
    gate: &G,
) -> Reply
    requires { (A.rules answering.now).IsOwn pass.old }
    ensures own { (A.rules answering.now).IsOwn pass.new }
    ensures reply { RepliesTo (A.rules answering.now) pass.old target answer result pass.new }
    ensures skips { KeepsSkips (A.rules answering.now) pass.old pass.new }
{
    match target {
        Some(target) => answering.visit(alloc, pass, &target, answer, gate),
        None => Reply::Refused(Refusal::Unknown),
    }
}

// What an incoming request is answered, if one came.
fn answer<A: Answering, G: Gate>(
    alloc: Global,
    answering: &A,
    pass: &mut A::Pass,
    incoming: Incoming,
    gate: &G,
) -> Option<Answer>
    requires { (A.rules answering.now).IsOwn pass.old }
    ensures own { (A.rules answering.now).IsOwn pass.new }
    ensures answer { Answers (A.rules answering.now) pass.old incoming result pass.new }
{
    match incoming {
        Incoming::Visit(Request { target, answer, .. }) => {
            let reply = visit(alloc, answering, pass, target, answer, gate);
            Some(Answer::Reply(reply))
        }
        Incoming::Refused(reason) => Some(Answer::Refused(reason)),
        Incoming::Nothing => None,
    }
}

// How a link was served, by the answer and whether it was written whole.
fn told(answer: Answer, whole: bool) -> Served
    ensures { result ≡ served_by answer whole }
{
    match (answer, whole) {
        (Answer::Reply(reply), true) => Served::Answered(reply),
        (Answer::Reply(reply), false) => Served::WriteFault(Some(reply)),
        (Answer::Refused(reason), true) => Served::Refused(reason),
        (Answer::Refused(_), false) => Served::WriteFault(None),
    }
}

/// Serves one link: reads the bytes of one request and not one more, makes the visit that they ask for, and writes its
/// reply, after which the link closes; or writes why they are refused. An error is want of memory: then no visit was
/// made, and nothing was written.
pub fn serve_one<A: Answering, L: Link, G: Gate>(
    alloc: Global,
    answering: &A,
    pass: &mut A::Pass,
    link: &mut L,
    gate: &G,
) -> Result<Served, AllocError>
    requires { (A.rules answering.now).IsOwn pass.old }
    ensures own { (A.rules answering.now).IsOwn pass.new }
    ensures served { ServesOrDrops (A.rules answering.now) pass.old pass.new (L.view link.old)
        (L.view link.new) result }
    ensures later { IsLater (L.view link.old) (L.view link.new) }
{
    let incoming = match read_request(alloc, link.input()) {
        Ok(incoming) => incoming,
        Err(ReadStop::Failed) => return Ok(Served::ReadFault),
        Err(ReadStop::Memory) => return Err(AllocError),
    };
    let Some(answer) = answer(alloc, answering, pass, incoming, gate) else {
        return Ok(Served::Idle);
    };
    let written = write_reply(&answer, true, link.output());
    Ok(told(answer, written.is_ok()))
}
