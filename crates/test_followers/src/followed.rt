//! Shelves that follow a feed, and what becomes of it.
ghost use Rattle.std.specs.Prelude.{◌≡◌, true};
ghost use Rattle.disk_trio.specs.Trio.{trio_view};
ghost use Rattle.shelf.specs.Following.{CanBeFed, IsInOrderIfFed, IsReadable};
ghost use Rattle.shelf.specs.Views.{follows_in};

use crate::feeds::HEAD;
use crate::openings::{Opening, opened_bare};
use crate::sums::sums_feed;
use page_follower::{FollowEnd, follow};
use std::alloc::Global;
use std::test::Fail;
use test_compactions::files::Files;
use test_compactions::sums::{left_on_disks, nothing};
use test_shelves::MemoryShelf;
use web_outside::{Source, TextSink, TextSource};

/// What a feed comes through, and the acknowledgments go through: the reads that fail, the greatest piece of one, and the room for what is written.
#[derive(Clone, Copy)]
pub struct Pipes<'a> {
    pub reads: &'a [u64],
    pub greatest: usize,
    pub room: usize,
}

/// Pipes that never fail.
pub const FAIR: Pipes<'static> = Pipes {
    reads: &[],
    greatest: 4096,
    room: 4096,
};

/// What following came to: how it ended, how many records were acknowledged, and what stands on the disks then.
#[derive(Drop)]
pub struct Outcome {
    pub end: FollowEnd,
    pub acks: u64,
    pub files: Files,
}

impl Outcome {
    /// How following ended, and how many records were acknowledged.
    pub fn told(&self) -> (FollowEnd, u64) {
        (self.end, self.acks)
    }

    // What is told, where the disks are as these were; refuses others.
    fn told_of_same(&self, files: &Files) -> Result<(FollowEnd, u64), Fail> {
        if is_same(&self.files, files) {
            return Ok(self.told());
        }
        Err(Fail::from("something was written"))
    }

    /// What is told, where the whole feed of four records is held next; refuses files that do not.
    pub fn told_and_held(&self, alloc: Global, feed: &[u8]) -> Result<(FollowEnd, u64), Fail> {
        expect_held(alloc, &self.files, feed, 4)?;
        Ok(self.told())
    }
}

// Whether the same stands on the disks.
fn is_same(files: &Files, others: &Files) -> bool {
    files.a == others.a && files.b == others.b && files.root == others.root
}

// Puts the line that acknowledges the record of this number after others.
fn push_line(alloc: Global, lines: &mut String, number: u64) -> Result<(), Fail> {
    let line = format!(in alloc; "ack {number}\n")?;
    lines.push_str(line.as_str())?;
    Ok(())
}

// The lines that acknowledge so many records.
fn lines(alloc: Global, acks: u64) -> Result<String, Fail> {
    let mut lines = String::new(alloc);
    for number in 0..acks {
        push_line(alloc, &mut lines, number.saturating_add(1))?;
    }
    Ok(lines)
}

// How many lines end in a text.
fn count_of_lines(text: &[u8]) -> u64 {
    let mut count: u64 = 0;
    for byte in text {
        if *byte == b'\n' {
            count = count.saturating_add(1);
        }
    }
    count
}

/// How many records a text acknowledges, which has nothing but these lines and at most the front of the next one.
pub fn acks_in(alloc: Global, text: &[u8]) -> Result<u64, Fail> {
    let acks = count_of_lines(text);
    let next = lines(alloc, acks.saturating_add(1))?;
    if next.as_bytes().starts_with(text) {
        return Ok(acks);
    }
    Err(Fail::from("another line"))
}

/// How following the feed of this source ends, and how many records are acknowledged, where there is room for so many bytes.
pub fn fed_from<S: Source>(
    alloc: Global,
    shelf: &mut MemoryShelf,
    source: &mut S,
    room: usize,
) -> Result<(FollowEnd, u64), Fail>
    requires readable { IsReadable trio_view true shelf.old }
    requires can { follows_in shelf.old ≡ true → CanBeFed shelf.old }
    requires in_order { IsInOrderIfFed trio_view true shelf.old }
{
    let mut sink = TextSink::new(alloc, room, Vec::new(alloc))?;
    let end = follow(alloc, shelf, source, &mut sink);
    Ok((end, acks_in(alloc, sink.bytes())?))
}

// The source of this feed, through such pipes.
fn source_of(alloc: Global, feed: &[u8], pipes: &Pipes) -> Result<TextSource, Fail> {
    let reads = pipes.reads.to_vec(alloc)?;
    Ok(TextSource::new(feed.to_vec(alloc)?, reads, pipes.greatest.max(1)))
}

/// How following this feed ends, and how many records are acknowledged.
pub fn fed(
    alloc: Global,
    shelf: &mut MemoryShelf,
    feed: &[u8],
    pipes: &Pipes,
) -> Result<(FollowEnd, u64), Fail>
    requires readable { IsReadable trio_view true shelf.old }
    requires can { follows_in shelf.old ≡ true → CanBeFed shelf.old }
    requires in_order { IsInOrderIfFed trio_view true shelf.old }
{
    let mut source = source_of(alloc, feed, pipes)?;
    fed_from(alloc, shelf, &mut source, pipes.room)
}

/// What it comes to that the shelf of these files follows this feed through such pipes.
pub fn followed_through(
    alloc: Global,
    files: &Files,
    feed: &[u8],
    pipes: &Pipes,
) -> Result<Outcome, Fail> {
    let mut shelf = opened_bare(alloc, files, Opening::ToFollow)?;
    let fed = fed(alloc, &mut shelf, feed, pipes);
    let files = left_on_disks(shelf);
    let (end, acks) = fed?;
    Ok(Outcome { end, acks, files })
}

/// What it comes to that the shelf of these files follows this feed through pipes that never fail.
pub fn followed(alloc: Global, files: &Files, feed: &[u8]) -> Result<Outcome, Fail> {
    followed_through(alloc, files, feed, &FAIR)
}

/// How following this feed ends, and how many records are acknowledged, which has to leave the disks as they are.
pub fn refused(alloc: Global, files: &Files, feed: &[u8]) -> Result<(FollowEnd, u64), Fail> {
    let outcome = followed(alloc, files, feed)?;
    outcome.told_of_same(files)
}

/// What stands on the disks once a feed was followed to its end, each of its records, of which there are so many, being acknowledged.
pub fn held(alloc: Global, files: &Files, feed: &[u8], records: u64) -> Result<Files, Fail> {
    let Outcome { end, acks, files } = followed(alloc, files, feed)?;
    if (end, acks) == (FollowEnd::Held, records) {
        return Ok(files);
    }
    Err(Fail::from("a feed that is not held"))
}

/// Refuses files that do not hold this feed of so many records once they are fed it.
pub fn expect_held(alloc: Global, files: &Files, feed: &[u8], records: u64) -> Result<(), Fail> {
    let _held = held(alloc, files, feed, records)?;
    Ok(())
}

/// What stands on the disks of a new follower that holds this feed of so many records.
pub fn new_follower(alloc: Global, feed: &[u8], records: u64) -> Result<Files, Fail> {
    held(alloc, &nothing(alloc), feed, records)
}

/// What stands on the disks of a new follower of the journal of sums.
pub fn sums_follower(alloc: Global) -> Result<Files, Fail> {
    let feed = sums_feed(alloc)?;
    new_follower(alloc, &feed, 4)
}

/// The feed of the journal of sums, and what stands on the disks of a new follower of it.
#[derive(Drop)]
pub struct FedFiles {
    pub feed: Vec<u8>,
    pub files: Files,
}

/// The feed of the journal of sums, and a new follower of it.
pub fn sums_fed(alloc: Global) -> Result<FedFiles, Fail> {
    let feed = sums_feed(alloc)?;
    let files = new_follower(alloc, &feed, 4)?;
    Ok(FedFiles { feed, files })
}

/// What stands on the disks of a new follower that was fed nothing.
pub fn waiting(alloc: Global) -> Result<Files, Fail> {
    new_follower(alloc, HEAD, 0)
}

// Promotes a shelf, which has to tell whether it followed; it follows no longer.
fn expect_promotion(alloc: Global, shelf: &mut MemoryShelf, followed: bool) -> Result<(), Fail>
    requires { IsInOrderIfFed trio_view true shelf.old }
{
    let Ok(told) = shelf.promote(alloc) else {
        return Err(Fail::from("no promotion"));
    };
    if told == followed && !shelf.follows() {
        return Ok(());
    }
    Err(Fail::from("another promotion"))
}

/// What stands on the disks of these files once they are promoted, which has to tell whether they followed; they follow no longer.
pub fn promoted(alloc: Global, files: &Files, followed: bool) -> Result<Files, Fail> {
    let mut shelf = opened_bare(alloc, files, Opening::AsItIs)?;
    let promoted = expect_promotion(alloc, &mut shelf, followed);
    let files = left_on_disks(shelf);
    promoted?;
    Ok(files)
}

/// What stands on the disks of a new follower that was fed nothing and is promoted.
pub fn promoted_unfed(alloc: Global) -> Result<Files, Fail> {
    let files = waiting(alloc)?;
    promoted(alloc, &files, true)
}

/// What stands on the disks of a new follower of the journal of sums that is promoted.
pub fn promoted_sums(alloc: Global) -> Result<Files, Fail> {
    let files = sums_follower(alloc)?;
    promoted(alloc, &files, true)
}
