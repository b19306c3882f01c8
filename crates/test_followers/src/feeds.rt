//! The feed of a journal: as a shelf sends it, and as it is put together from the bytes of the journal's file.
ghost use Rattle.std.specs.Prelude.{true};
ghost use Rattle.disk_trio.specs.Trio.{trio_view};
ghost use Rattle.shelf.specs.Following.{IsReadable};

use crate::openings::{Opening, opened_bare};
use page_follower::export;
use std::alloc::Global;
use std::test::Fail;
use test_compactions::files::Files;
use test_shelves::{MemoryShelf, put_away};
use web_outside::TextSink;

/// The bytes that a feed begins with.
pub const HEAD: &[u8] = b"KSFEED\0\x06";

/// The bodies of the records that tell that a shelf follows, and that it was promoted.
pub const ROLES: &[&[u8]] = &[b"\x08", b"\x09"];

// Room for the feeds of these tests.
const ROOM: usize = 100_000;

/// The first bytes of some, at most so many.
pub fn front(bytes: &[u8], length: usize) -> &[u8] {
    &bytes[..length.min(bytes.len())]
}

/// The first of some bodies, at most so many.
pub fn first_of(bodies: &[Vec<u8>], count: usize) -> &[Vec<u8>] {
    &bodies[..count.min(bodies.len())]
}

// What was written to a sink, all of which has to be handed on.
fn all_handed(alloc: Global, sink: &TextSink) -> Result<Vec<u8>, Fail> {
    if sink.handed() != sink.bytes() {
        return Err(Fail::from("a feed that is not handed on"));
    }
    Ok(sink.bytes().to_vec(alloc)?)
}

// The feed of a shelf's records, which has to be written and handed on.
fn sent(alloc: Global, shelf: &mut MemoryShelf) -> Result<Vec<u8>, Fail>
    requires { IsReadable trio_view true shelf.old }
{
    let mut sink = TextSink::new(alloc, ROOM, Vec::new(alloc))?;
    export(shelf, &mut sink)?;
    all_handed(alloc, &sink)
}

/// The feed of the shelf of these files.
pub fn feed_of(alloc: Global, files: &Files) -> Result<Vec<u8>, Fail> {
    let mut shelf = opened_bare(alloc, files, Opening::AsItIs)?;
    let feed = sent(alloc, &mut shelf);
    put_away(shelf);
    feed
}

// The body of the record after the gate at this place of a file; none where the gate is closed.
fn body_at(file: &[u8], place: usize) -> Option<&[u8]> {
    if place > file.len() {
        return None;
    }
    match &file[place..] {
        [1, a, b, c, d, rest @ ..] => {
            let size = u32::from_le_bytes([*a, *b, *c, *d]) as usize;
            if size > rest.len() {
                return None;
            }
            Some(&rest[..size])
        }
        _ => None,
    }
}

/// Puts a record after those of a feed.
pub fn push_record(feed: &mut Vec<u8>, body: &[u8]) -> Result<(), Fail> {
    let size = u32::try_from(body.len())?;
    feed.extend_from_slice(&size.to_le_bytes())?;
    feed.extend_from_slice(body)?;
    Ok(())
}

/// A feed with a record more.
pub fn with_record(alloc: Global, feed: &[u8], body: &[u8]) -> Result<Vec<u8>, Fail> {
    let mut longer = feed.to_vec(alloc)?;
    push_record(&mut longer, body)?;
    Ok(longer)
}

// Puts a body after others, but for those that tell whether a shelf follows.
fn push_body(alloc: Global, bodies: &mut Vec<Vec<u8>>, body: &[u8]) -> Result<(), Fail> {
    if !ROLES.contains(&body) {
        bodies.push(body.to_vec(alloc)?)?;
    }
    Ok(())
}

/// The bodies of the records of a file, in order, but for those that tell whether the shelf follows.
pub fn bodies_in(alloc: Global, file: &[u8]) -> Result<Vec<Vec<u8>>, Fail> {
    let mut bodies = Vec::new(alloc);
    let mut place: usize = 8;
    for _ in 0..file.len() {
        let Some(body) = body_at(file, place) else {
            return Ok(bodies);
        };
        push_body(alloc, &mut bodies, body)?;
        place = place.saturating_add(5).saturating_add(body.len());
    }
    Ok(bodies)
}

/// The feed of these bodies.
pub fn feed_with(alloc: Global, bodies: &[Vec<u8>]) -> Result<Vec<u8>, Fail> {
    let mut feed = HEAD.to_vec(alloc)?;
    for body in bodies {
        push_record(&mut feed, body.as_slice())?;
    }
    Ok(feed)
}

/// The feed of the records of a file, from its bytes.
pub fn feed_in(alloc: Global, file: &[u8]) -> Result<Vec<u8>, Fail> {
    let bodies = bodies_in(alloc, file)?;
    feed_with(alloc, bodies.as_slice())
}

/// Whether a feed is that of these bodies.
pub fn is_feed_with(alloc: Global, feed: &[u8], bodies: &[Vec<u8>]) -> Result<bool, Fail> {
    let other = feed_with(alloc, bodies)?;
    Ok(other.as_slice() == feed)
}

/// Whether this is the feed of these files.
pub fn has_feed(alloc: Global, files: &Files, feed: &[u8]) -> Result<bool, Fail> {
    let other = feed_of(alloc, files)?;
    Ok(other.as_slice() == feed)
}

/// Whether these files have the feed of the others.
pub fn has_feed_of(alloc: Global, files: &Files, others: &Files) -> Result<bool, Fail> {
    let feed = feed_of(alloc, others)?;
    has_feed(alloc, files, &feed)
}

/// Whether the feed of these files is its head alone.
pub fn has_no_records(alloc: Global, files: &Files) -> Result<bool, Fail> {
    has_feed(alloc, files, HEAD)
}
