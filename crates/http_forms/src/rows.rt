ghost use Rattle.std.specs.Prelude.{◌≡◌, ◌≤◌, ℕ, List, All, IfOk, OnOk, bytes_eq, length, map};
ghost use Rattle.httparse.specs.Spans.{IsWithin, IsHeaderWithin, header_bytes};
ghost use Rattle.http_forms.specs.Fields as fields;
ghost use Rattle.http_forms.specs.Head.{field_lines, without_blank};
ghost use Rattle.http_forms.specs.Found.{IsFound};
ghost use Rattle.http_forms.specs.Rows as spec;
ghost use Rattle.http_forms.specs.Judged.{judged_of, JudgesBody, JudgesFields, Measures};
ghost use Rattle.http_forms.specs.Rows.{Reads, Judges};

use crate::fields::{Found, announced, find, is_form, says_close};
use crate::head::{MOST_HEAD, field_lines, without_blank};
use crate::refused::Refused;
use httparse::Status;
use httparse::spans::{EMPTY_HEADER_SPAN, HeaderSpan, Span, parse_request};

/// The most field lines of a head.
const MOST_FIELDS: usize = 64;

/// The most bytes of a body.
const MOST_BODY: u32 = 65_536;

/// What a head asks for that is not refused.
#[derive(Clone, Copy, Debug, PartialEq, Eq)]
pub(crate) struct Asked {
    /// Where the target stands in the lines of the head.
    pub(crate) target: Span,
    pub(crate) posts: bool,
    pub(crate) length: u32,
    pub(crate) closes: bool,
}

fn is_one(found: Found<'_>) -> bool
    ensures { (values : List (List ℕ)) → IsFound values found.entry →
        result ≡ fields.is_one values }
{
    matches!(found, Found::Once(_))
}

fn is_none(found: Found<'_>) -> bool
    ensures { (values : List (List ℕ)) → IsFound values found.entry →
        result ≡ fields.is_none values }
{
    matches!(found, Found::Absent)
}

// Whether both are the same.
fn are_same(left: &[u8], right: &[u8]) -> bool
    ensures { result ≡ bytes_eq left.now right.now }
{
    left == right
}

// The rows on the method, the length and the media type.
fn body_verdict(
    method: &[u8],
    target: Span,
    types: Found<'_>,
    closes: bool,
    announced: Option<u32>,
) -> Result<Asked, Refused>
    ensures judges { JudgesBody method.now target types.entry closes announced result }
    ensures target { IfOk result (λ asked. asked.target ≡ target) }
{
    let posts = are_same(method, b"POST");
    if !are_same(method, b"GET") && !posts {
        return Err(Refused::Method);
    }
    if posts && announced.is_none() {
        return Err(Refused::Length);
    }
    let length = announced.unwrap_or(0);
    if length > MOST_BODY {
        return Err(Refused::TooLarge);
    }
    if posts && length > 0 && !is_form(types) {
        return Err(Refused::MediaType);
    }
    Ok(Asked {
        target,
        posts,
        length,
        closes,
    })
}

// Whether a head of version 1.1 has not exactly one Host.
fn lacks_host(minor: u8, lines: &[u8], headers: &[HeaderSpan]) -> bool
    requires { All (IsHeaderWithin (length lines.now)) headers.now }
    ensures { result ≡ spec.lacks_host minor (map (header_bytes lines.now) headers.now) }
{
    minor == 1 && !is_one(find(lines, headers, "Host"))
}

// Whether the connection closes after the request.
fn closes_by(minor: u8, lines: &[u8], headers: &[HeaderSpan]) -> bool
    requires { All (IsHeaderWithin (length lines.now)) headers.now }
    ensures { result ≡ spec.closes_by minor (map (header_bytes lines.now) headers.now) }
{
    minor == 0 || says_close(lines, headers)
}

// The rows on the fields, and then those on the body.
#[tactic(auto, using(crate::proofs::Verdicts::capped_verdict))]
fn fields_verdict(
    minor: u8,
    method: &[u8],
    target: Span,
    lines: &[u8],
    headers: &[HeaderSpan],
) -> Result<Asked, Refused>
    requires { All (IsHeaderWithin (length lines.now)) headers.now }
    ensures judges { JudgesFields minor method.now target lines.now headers.now result }
    ensures target { IfOk result (λ asked. asked.target ≡ target) }
{
    if lacks_host(minor, lines, headers) {
        return Err(Refused::BadRequest);
    }
    if !is_none(find(lines, headers, "Transfer-Encoding")) {
        return Err(Refused::Chunked);
    }
    let announced = announced(find(lines, headers, "Content-Length"))?;
    let types = find(lines, headers, "Content-Type");
    let closes = closes_by(minor, lines, headers);
    body_verdict(method, target, types, closes, announced)
}

// The verdict on a head without empty lines before it.
fn head_verdict(lines: &[u8]) -> Result<Asked, Refused>
    requires { field_lines lines.now ≤ 64 }
    ensures reads { Reads lines.now (judged_of lines.now result) }
    ensures within { IfOk result (λ asked. IsWithin (length lines.now) asked.target) }
{
    let mut room = [EMPTY_HEADER_SPAN; MOST_FIELDS];
    match parse_request(lines, &mut room) {
        Ok(Status::Complete(head)) => {
            if head.len != lines.len() {
                return Err(Refused::BadRequest);
            }
            let method = head.method.of(lines);
            fields_verdict(
                head.version,
                method,
                head.path,
                lines,
                &room[..head.headers],
            )
        }
        Ok(Status::Partial) => Err(Refused::BadRequest),
        Err(_) => Err(Refused::BadRequest),
    }
}

/// What a whole head asks for, or the first row that refuses it.
pub(crate) fn judge(head: &[u8]) -> Result<Asked, Refused>
    ensures judges { Judges head.now (judged_of (without_blank head.now) result) }
    ensures within { IfOk result (λ asked.
        IsWithin (length (without_blank head.now)) asked.target) }
    ensures short { OnOk result (length head.now ≤ 16384) }
{
    let lines = without_blank(head);
    if head.len() > MOST_HEAD || field_lines(lines) > MOST_FIELDS {
        return Err(Refused::Head);
    }
    head_verdict(lines)
}

/// The length of the body after a whole head, or the first row of the table of refusals that the head decides.
pub fn body_length(head: &[u8]) -> Result<u32, Refused>
    ensures { Measures head.now result }
{
    Ok(judge(head)?.length)
}
