ghost use Rattle.std.specs.Prelude.{◌<◌, ◌^◌, ◌++◌, length, OnOk};
ghost use Rattle.std.specs.Io.KnownBytes.{Appends};
ghost use Rattle.shelf.specs.WebOutside.Causes.{HasCause};
ghost use Rattle.shelf.specs.WebOutside.Pieces.{AppendsPart, HandsOn};
ghost use Rattle.shelf.specs.PageJournal.Records.{framed};
ghost use Rattle.page_follower.specs.Acks.{ack_line};
ghost use Rattle.page_follower.specs.Feed.{feed_head};

use crate::FEED_HEAD;
use itoa::Buffer;
use shelf::{Failed, Sink, u32_to_wire, write_all};

// Writes two texts, one after the other.
fn write_both<O: Sink>(sink: &mut O, first: &[u8], second: &[u8]) -> Result<(), Failed>
    ensures ok { OnOk result
        (Appends (O.view sink.old).written (O.view sink.new).written (first.now ++ second.now)) }
    ensures part { AppendsPart (O.view sink.old).written (O.view sink.new).written
        (first.now ++ second.now) }
    ensures cause { HasCause (O.view sink.old).faults (O.view sink.new).faults result }
{
    write_all(sink, first)?;
    write_all(sink, second)
}

/// Writes the head of a feed.
pub fn write_head<O: Sink>(sink: &mut O) -> Result<(), Failed>
    ensures ok { OnOk result
        (Appends (O.view sink.old).written (O.view sink.new).written feed_head) }
    ensures part { AppendsPart (O.view sink.old).written (O.view sink.new).written feed_head }
    ensures cause { HasCause (O.view sink.old).faults (O.view sink.new).faults result }
{
    write_all(sink, &FEED_HEAD)
}

/// Writes a record of a feed: its body's length and its body.
pub fn write_record<O: Sink>(sink: &mut O, body: &[u8]) -> Result<(), Failed>
    requires { length body.now < 2 ^ 32 }
    ensures ok { OnOk result
        (Appends (O.view sink.old).written (O.view sink.new).written (framed body.now)) }
    ensures part { AppendsPart (O.view sink.old).written (O.view sink.new).written
        (framed body.now) }
    ensures cause { HasCause (O.view sink.old).faults (O.view sink.new).faults result }
{
    write_both(sink, &u32_to_wire(body.len() as u32), body)
}

// Writes the line that acknowledges the record of this number.
fn write_line<O: Sink>(sink: &mut O, number: u64) -> Result<(), Failed>
    ensures ok { OnOk result
        (Appends (O.view sink.old).written (O.view sink.new).written (ack_line number)) }
    ensures part { AppendsPart (O.view sink.old).written (O.view sink.new).written
        (ack_line number) }
    ensures cause { HasCause (O.view sink.old).faults (O.view sink.new).faults result }
{
    let mut digits = Buffer::new();
    write_all(sink, b"ack ")?;
    write_both(sink, digits.format(number).as_bytes(), b"\n")
}

/// Writes the line that acknowledges the record of this number, and hands it on.
pub fn write_ack<O: Sink>(sink: &mut O, number: u64) -> Result<(), Failed>
    ensures ok { OnOk result
        (Appends (O.view sink.old).written (O.view sink.new).written (ack_line number)) }
    ensures handed { OnOk result (HandsOn (O.view sink.new).written (O.view sink.new).handed) }
    ensures part { AppendsPart (O.view sink.old).written (O.view sink.new).written
        (ack_line number) }
    ensures cause { HasCause (O.view sink.old).faults (O.view sink.new).faults result }
{
    write_line(sink, number)?;
    sink.flush()
}
