//! A feed that is cut at each of its bytes, and then comes whole.

use crate::feeds::{front, has_feed};
use crate::followed::{Pipes, followed_through, held};
use crate::sums::{PLACES, sums_feed};
use page_follower::{FeedFault, FollowEnd};
use std::alloc::Global;
use std::test::Fail;
use test_compactions::files::Files;
use test_compactions::sums::nothing;

// How following the first of so many bytes of the feed ends, and how many records are acknowledged.
fn wanted(length: usize) -> (FollowEnd, u64) {
    let mut records: u64 = 0;
    let mut place = 0;
    for (count, start) in PLACES.iter().enumerate() {
        if *start <= length {
            records = count as u64;
            place = *start;
        }
    }
    if place == length && length > 0 {
        return (FollowEnd::Held, records);
    }
    let place = place as u64;
    (FollowEnd::Feed(FeedFault::Cut { place }), records)
}

// Whether the shelf of these files has this feed once it is fed it.
fn holds_feed(alloc: Global, files: &Files, feed: &[u8]) -> Result<bool, Fail> {
    let whole = held(alloc, files, feed, 4)?;
    has_feed(alloc, &whole, feed)
}

// How following the first of so many bytes of the feed ends, which come in pieces of 1 to 13; after it the whole feed has to be held.
fn ended(alloc: Global, feed: &[u8], length: usize) -> Result<(FollowEnd, u64), Fail> {
    let pipes = Pipes {
        reads: &[],
        greatest: length % 13 + 1,
        room: 64,
    };
    let cut = front(feed, length);
    let outcome = followed_through(alloc, &nothing(alloc), cut, &pipes)?;
    if holds_feed(alloc, &outcome.files, feed)? {
        return Ok(outcome.told());
    }
    Err(Fail::from("another feed"))
}

// Whether following the first of so many bytes of the feed ends as it has to.
fn ends_so(alloc: Global, feed: &[u8], length: usize) -> Result<bool, Fail> {
    Ok(ended(alloc, feed, length)? == wanted(length))
}

#[test]
fn a_feed_that_is_cut_is_held_up_to_there(rt: HostRuntime) -> Result<(), Fail> {
    let alloc = rt.alloc();
    let feed = sums_feed(alloc)?;
    assert_eq!(rt; feed.len(), 614);
    for (length, _) in feed.iter().enumerate() {
        assert!(rt; ends_so(alloc, &feed, length)?, "{length}");
    }
    Ok(())
}
