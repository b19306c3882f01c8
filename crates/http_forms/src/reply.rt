ghost use Rattle.std.specs.Prelude.{◌≡◌, ◌<◌, ◌+◌, ◌^◌, ◌++◌, length, IfOk, OnOk};
ghost use Rattle.reply_words.specs.Words.{told};
ghost use Rattle.http_forms.specs.Writes.{AppendsTo, WritesMessage, WritesTo};
ghost use Rattle.web_outside.specs.Causes.{HasCause};
ghost use Rattle.web_outside.specs.Pieces.{AppendsPart, HandsOn};
ghost use Rattle.http_forms.specs.Reply as spec;

use crate::refused::Refused;
use crate::status::Status;
use itoa::Buffer;
use reply_words::Told;
use script_value::Reply;
use std::alloc::{AllocError, Global};
use web_outside::{Failed, Sink, write_all};

/// What is sent to a browser: the reply of a visit, or that its request is refused.
#[derive(Drop)]
pub enum Answer {
    Reply(Reply),
    Refused(Refused),
}

impl Answer {
    /// A copy, equal to its source.
    pub fn try_clone(&self, alloc: Global) -> Result<Answer, AllocError>
        ensures { IfOk result (λ copy. copy ≡ self.now) }
    {
        Ok(match self {
            Answer::Reply(reply) => Answer::Reply(reply.try_clone(alloc)?),
            Answer::Refused(refused) => Answer::Refused(*refused),
        })
    }
}

// The field that names the methods there are, for a request of another one.
fn allow(status: Status) -> &'static str
    ensures { result.now ≡ spec.allow status }
{
    match status {
        Status::MethodNotAllowed => "Allow: GET, POST\r\n",
        _ => "",
    }
}

// Writes three pieces, one after the other.
fn write_three<O: Sink>(
    sink: &mut O,
    first: &[u8],
    second: &[u8],
    third: &[u8],
) -> Result<(), Failed>
    ensures { WritesTo O.view sink.old sink.new (first.now ++ (second.now ++ third.now)) result }
{
    write_all(sink, first)?;
    write_all(sink, second)?;
    write_all(sink, third)
}

// Writes the lines up to the length.
fn write_front<O: Sink>(sink: &mut O, status: Status, media_type: &str) -> Result<(), Failed>
    ensures { WritesTo O.view sink.old sink.new (spec.first_lines status media_type.now) result }
{
    write_three(sink, b"HTTP/1.1 ", status.text().as_bytes(), b"\r\n")?;
    write_three(
        sink,
        b"Content-Type: ",
        media_type.as_bytes(),
        b"; charset=utf-8\r\n",
    )?;
    write_all(sink, allow(status).as_bytes())
}

// The last line and the empty one.
fn last_lines(closes: bool) -> &'static str
    ensures { result.now ≡ spec.last_lines closes }
{
    if closes {
        "Connection: close\r\n\r\n"
    } else {
        "Connection: keep-alive\r\n\r\n"
    }
}

// Writes the length of a body in two pieces, the last lines, and the body.
fn write_body<O: Sink>(sink: &mut O, closes: bool, body: &[u8], end: &[u8]) -> Result<(), Failed>
    requires { length body.now + length end.now < 2 ^ 64 }
    ensures { WritesTo O.view sink.old sink.new
        (spec.length_and_body closes (body.now ++ end.now)) result }
{
    let mut digits = Buffer::new();
    let length = digits.format(body.len() + end.len());
    write_three(sink, b"Content-Length: ", length.as_bytes(), b"\r\n")?;
    write_three(sink, last_lines(closes).as_bytes(), body, end)
}

// Writes a message whose body is in two pieces.
fn write_message<O: Sink>(
    sink: &mut O,
    status: Status,
    closes: bool,
    media_type: &str,
    body: &[u8],
    end: &[u8],
) -> Result<(), Failed>
    requires { length body.now + length end.now < 2 ^ 64 }
    ensures { WritesMessage O.view sink.old sink.new
        status closes media_type.now body.now end.now result }
{
    write_front(sink, status, media_type)?;
    write_body(sink, closes, body, end)
}

// Writes a page, as HTML.
fn write_page<O: Sink>(sink: &mut O, closes: bool, page: &[u8]) -> Result<(), Failed>
    ensures { WritesTo O.view sink.old sink.new (spec.page_message closes page.now) result }
{
    write_message(sink, Status::Ok, closes, "text/html", page, b"")
}

// Writes a word and a newline, as plain text.
fn write_word<O: Sink>(sink: &mut O, status: Status, closes: bool, word: &str) -> Result<(), Failed>
    ensures { WritesTo O.view sink.old sink.new (spec.word_message status closes word.now) result }
{
    write_message(sink, status, closes, "text/plain", word.as_bytes(), b"\n")
}

// Writes what the reply of a visit says.
fn write_told<O: Sink>(sink: &mut O, closes: bool, reply: &Reply) -> Result<(), Failed>
    ensures { WritesTo O.view sink.old sink.new (spec.told_message closes (told reply.now)) result }
{
    match Told::of(reply) {
        Told::Page(page) => write_page(sink, closes, page),
        Told::Word(status, word) => write_word(sink, Status::from(status), closes, word),
    }
}

#[tactic(auto, unfolding(crate::specs::Reply::reply_text))]
fn write_answer<O: Sink>(sink: &mut O, closes: bool, answer: &Answer) -> Result<(), Failed>
    ensures { WritesTo O.view sink.old sink.new (spec.reply_text answer.now closes) result }
{
    match answer {
        Answer::Reply(reply) => write_told(sink, closes, reply),
        Answer::Refused(refused) => write_word(sink, refused.status(), closes, refused.word()),
    }
}

/// Writes the answer, whole or as far as the sink takes it, and hands it on. It says whether the connection is closed after
/// it. It takes no memory.
pub fn write_reply<O: Sink>(answer: &Answer, closes: bool, sink: &mut O) -> Result<(), Failed>
    ensures ok { OnOk result
        (AppendsTo O.view sink.old sink.new (spec.reply_text answer.now closes)) }
    ensures handed { OnOk result (HandsOn (O.view sink.new).written (O.view sink.new).handed) }
    ensures part { AppendsPart (O.view sink.old).written (O.view sink.new).written
        (spec.reply_text answer.now closes) }
    ensures cause { HasCause (O.view sink.old).faults (O.view sink.new).faults result }
{
    write_answer(sink, closes, answer)?;
    sink.flush()
}
