ghost use Rattle.std.specs.Prelude.{◌≡◌, IfOk, length};
ghost use Rattle.httparse.specs.Spans.{IsWithin};
ghost use Rattle.http_forms.specs.Judged.{asked_of};
ghost use Rattle.http_forms.specs.Outcomes.{visit_in, Is, Tells};
ghost use Rattle.http_forms.specs.Progress.{HasHead, Knows};
ghost use Rattle.http_forms.specs.Request as spec;
ghost use Rattle.http_forms.specs.Request.{Decides};

use crate::answer::{answer_of, path_and_query};
use crate::head::{MOST_HEAD, without_blank};
use crate::progress::{Progress, ReadHead, RequestScanner};
use crate::refused::{Refused, RequestFault};
use crate::rows::Asked;
use page_names::{Target, parse_target};
use script_value::Value;
use std::alloc::{AllocError, Global};

/// What a request asks for: what its path names, and its bindings; and how it stands among the bytes of its link.
#[derive(Drop)]
pub struct Request {
    /// What the path names, if it names anything.
    pub target: Option<Target>,
    /// The pairs of the query and of the body of a POST, in order.
    pub answer: Value,
    /// How many bytes the request has, its head and its body.
    pub length: usize,
    /// Whether the connection closes after it: its version is 1.0, or it says so.
    pub closes: bool,
}

impl Request {
    /// A copy, equal to its source.
    pub fn try_clone(&self, alloc: Global) -> Result<Request, AllocError>
        ensures { IfOk result (λ copy. copy ≡ self.now) }
    {
        Ok(Request {
            target: self.target,
            answer: self.answer.try_clone(alloc)?,
            length: self.length,
            closes: self.closes,
        })
    }
}

// What so many bytes without the end of a head come to.
fn without_head(count: usize, ended: bool) -> Result<Option<Request>, RequestFault>
    ensures { Is result (spec.without_head count ended) }
{
    if count >= MOST_HEAD {
        return Err(RequestFault::Refused(Refused::Head));
    }
    if ended && count > 0 {
        return Err(RequestFault::Refused(Refused::BadRequest));
    }
    Ok(None)
}

// The request of so many bytes, by the lines of its head, what they ask for, and its whole body.
fn request_for(
    alloc: Global,
    lines: &[u8],
    asked: Asked,
    count: usize,
    body: &[u8],
) -> Result<Request, AllocError>
    requires { IsWithin (length lines.now) asked.target }
    ensures { IfOk result (λ r.
        visit_in r ≡ spec.visit_of count (asked_of lines.now asked) body.now) }
{
    let (path, query) = path_and_query(asked.target.of(lines));
    let form: &[u8] = if asked.posts { body } else { &[] };
    let answer = answer_of(alloc, query, form)?;
    Ok(Request {
        target: parse_target(path),
        answer,
        length: count,
        closes: asked.closes,
    })
}

// What a head and the bytes after it come to.
fn with_head(
    alloc: Global,
    head: ReadHead,
    bytes: &[u8],
    ended: bool,
) -> Result<Option<Request>, RequestFault>
    requires { HasHead head bytes.now }
    ensures { Tells result (Decides bytes.now ended) }
{
    let (front, behind) = bytes.split_at(head.end);
    let size = head.asked.length as usize;
    if size <= behind.len() {
        let lines = without_blank(front);
        let request = request_for(alloc, lines, head.asked, head.end + size, &behind[..size])?;
        return Ok(Some(request));
    }
    if ended {
        return Err(RequestFault::Refused(Refused::BadRequest));
    }
    Ok(None)
}

impl RequestScanner {
    /// The request that the bytes are which were shown last, `ended` where the link has no more of them. `None` where it is
    /// unfinished, so that more bytes are to be read.
    pub fn request(
        &self,
        alloc: Global,
        bytes: &[u8],
        ended: bool,
    ) -> Result<Option<Request>, RequestFault>
        requires { Knows self.now bytes.now }
        ensures { Tells result (Decides bytes.now ended) }
    {
        match self.progress {
            Progress::Head(_) => without_head(bytes.len(), ended),
            Progress::Body(head) => with_head(alloc, head, bytes, ended),
            Progress::Refused(reason) => Err(RequestFault::Refused(reason)),
        }
    }
}

/// The request that the bytes read from a link are, `ended` where the link has no more of them. `None` where it is
/// unfinished, so that more bytes are to be read. No byte after the request is looked at.
///
/// Of the causes for a refusal that hold, the answer names the first in this order: the bytes end before the head does;
/// the head is too long or has too many lines; it is outside the grammar; at version 1.1 it has not exactly one Host; it has
/// a Transfer-Encoding; its Content-Length is no length or stands twice; its method is neither GET nor POST; a POST has
/// no Content-Length; the body is too long; it is no form; the bytes end inside the body.
pub fn request_of(alloc: Global, bytes: &[u8], ended: bool) -> Result<Option<Request>, RequestFault>
    ensures { Tells result (Decides bytes.now ended) }
{
    let mut scanner = RequestScanner::new();
    let _ = scanner.wanted(bytes);
    scanner.request(alloc, bytes, ended)
}
