//! The greatest length of a feed.
use crate::feeds::HEAD;
use crate::followed::{fed_from, sums_follower};
use crate::openings::{Opening, opened_bare};
use page_follower::{FeedFault, FollowEnd};
use std::alloc::Global;
use std::test::Fail;
use test_compactions::files::Files;
use test_shelves::put_away;
use web_outside::{Failed, Source};

/// An input of a front and a block again and again after it, up to a length.
#[derive(Drop)]
struct LongSource {
    front: Vec<u8>,
    block: Vec<u8>,
    place: u64,
    length: u64,
}

impl LongSource {
    // Nothing of it is read yet.
    fn new(front: Vec<u8>, block: Vec<u8>, length: u64) -> LongSource {
        LongSource {
            front,
            block,
            place: 0,
            length,
        }
    }

    // What the front has, or else the block, from the place on.
    fn rest(&self) -> &[u8] {
        let place = self.place as usize;
        if place < self.front.len() {
            return &self.front[place..];
        }
        if self.block.is_empty() {
            return &[];
        }
        &self.block[(place - self.front.len()) % self.block.len()..]
    }
}

impl Source for LongSource {
    ghost use Rattle.std.specs.Prelude.{None};

    // Nothing is told of its bytes, and no call fails.
    ghost view = { λ source. record { left = None; faults = 0 } };

    fn faults(&self) -> u64 {
        0
    }

    fn read(&mut self, buf: &mut [u8]) -> Result<usize, Failed> {
        let left = self.length.saturating_sub(self.place);
        let rest = self.rest();
        let count = rest.len().min(buf.len()).min(left as usize);
        buf[..count].copy_from_slice(&rest[..count]);
        self.place = self.place.saturating_add(count as u64);
        Ok(count)
    }
}

// How following a feed ends that begins so and has zeros after it, up to this length, how many records are acknowledged, and how many bytes were read.
fn ended(
    alloc: Global,
    files: &Files,
    front: &[u8],
    length: u64,
) -> Result<(FollowEnd, u64, u64), Fail> {
    let zeros = zeros(alloc, 4_096)?;
    let mut source = LongSource::new(front.to_vec(alloc)?, zeros, length);
    let (end, acks) = followed_by(alloc, files, &mut source)?;
    Ok((end, acks, source.place))
}

// So many zeros.
fn zeros(alloc: Global, count: usize) -> Result<Vec<u8>, Fail> {
    Ok(vec![in alloc; 0u8; count]?)
}

// How following such a feed ends, and how many records are acknowledged, on the shelf of these files.
fn followed_by(
    alloc: Global,
    files: &Files,
    source: &mut LongSource,
) -> Result<(FollowEnd, u64), Fail> {
    let mut shelf = opened_bare(alloc, files, Opening::ToFollow)?;
    let told = fed_from(alloc, &mut shelf, source, 100);
    put_away(shelf);
    told
}

// The front of a feed whose first record has this length.
fn front_with(alloc: Global, length: u32) -> Result<Vec<u8>, Fail> {
    let mut front = HEAD.to_vec(alloc)?;
    front.extend_from_slice(&length.to_le_bytes())?;
    Ok(front)
}

// The length of the first record, that of the feed, how following it ends without an acknowledgment, and how many bytes were read.
const LONG_FEEDS: &[(u32, u64, FollowEnd, u64)] = &[
    (
        1_073_741_812,
        2_000_000_000,
        FollowEnd::Other { place: 8 },
        1_073_741_824,
    ),
    (
        1_073_741_813,
        1_073_741_824,
        FollowEnd::Feed(FeedFault::Cut { place: 8 }),
        1_073_741_824,
    ),
    (
        1_073_741_813,
        1_073_741_825,
        FollowEnd::Feed(FeedFault::Long),
        1_073_741_825,
    ),
];

// How following a feed of this length ends whose first record is so long.
fn ended_with(
    alloc: Global,
    files: &Files,
    record: u32,
    length: u64,
) -> Result<(FollowEnd, u64, u64), Fail> {
    let front = front_with(alloc, record)?;
    ended(alloc, files, &front, length)
}

// The first record ends in the byte 2^30 of the feed, or after it.
#[test]
fn a_feed_has_at_most_1073741824_bytes(rt: HostRuntime) -> Result<(), Fail> {
    let alloc = rt.alloc();
    let files = sums_follower(alloc)?;
    for (record, length, end, read) in LONG_FEEDS {
        assert_eq!(rt;
            ended_with(alloc, &files, *record, *length)?,
            (*end, 0, *read),
            "{length}"
        );
    }
    Ok(())
}
