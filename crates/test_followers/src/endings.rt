//! Each way in which following a feed ends before the feed does.

use crate::feeds::{HEAD, ROLES, front, has_no_records, with_record};
use crate::followed::{
    FedFiles, Outcome, Pipes, followed_through, held, promoted_sums, promoted_unfed, refused,
    sums_fed, waiting,
};
use crate::sums::{PLACES, bare, leader, sums_bodies, sums_feed};
use page_follower::{FeedFault, FollowEnd};
use std::alloc::Global;
use std::test::Fail;
use test_compactions::files::Files;
use test_compactions::sums::nothing;

// Whether following this feed ends so, with so many records acknowledged; refuses disks on which something else stands then.
fn is_refused(
    alloc: Global,
    files: &Files,
    feed: &[u8],
    end: (FollowEnd, u64),
) -> Result<bool, Fail> {
    Ok(refused(alloc, files, feed)? == end)
}

// Whether a new follower that was fed nothing refuses this feed so.
fn is_refused_first(alloc: Global, feed: &[u8], end: (FollowEnd, u64)) -> Result<bool, Fail> {
    let files = waiting(alloc)?;
    is_refused(alloc, &files, feed, end)
}

// A copy of these bytes with another one at this place.
fn changed(alloc: Global, bytes: &[u8], place: usize) -> Result<Vec<u8>, Fail> {
    let mut copy = bytes.to_vec(alloc)?;
    match copy.get_mut(place) {
        Some(byte) => *byte ^= 1,
        None => return Err(Fail::from("no such byte")),
    }
    Ok(copy)
}

// The end where the head is another one.
const NO_HEAD: (FollowEnd, u64) = (FollowEnd::Feed(FeedFault::Head), 0);

// Whether another byte at this place of the head is told, whether the feed goes on after it or not.
fn is_no_head(alloc: Global, feed: &[u8], place: usize) -> Result<bool, Fail> {
    let other = changed(alloc, feed, place)?;
    let short = front(&other, place.saturating_add(1));
    Ok(is_refused_first(alloc, &other, NO_HEAD)? && is_refused_first(alloc, short, NO_HEAD)?)
}

#[test]
fn another_head_is_told(rt: HostRuntime) -> Result<(), Fail> {
    let alloc = rt.alloc();
    let feed = sums_feed(alloc)?;
    for (place, _) in HEAD.iter().enumerate() {
        assert!(rt; is_no_head(alloc, &feed, place)?, "{place}");
    }
    Ok(())
}

// The end where the shelf does not follow.
const LEADS: (FollowEnd, u64) = (FollowEnd::Promoted, 0);

// Whether the shelf of these files takes no feed: whatever it is, and where it cannot be read.
fn takes_none(alloc: Global, files: &Files, feed: &[u8]) -> Result<bool, Fail> {
    let whole = is_refused(alloc, files, feed, LEADS)?;
    let other = is_refused(alloc, files, b"no feed", LEADS)?;
    let unread = followed_unread(alloc, files, feed, 0)?;
    Ok(whole && other && unread.told() == LEADS)
}

// Whether the shelf of these files takes no feed, such as that of sums.
fn takes_no_sums(alloc: Global, files: Files) -> Result<bool, Fail> {
    let feed = sums_feed(alloc)?;
    takes_none(alloc, &files, &feed)
}

// That a journal was not begun by a follower, or was promoted, is told before the feed is read.
#[test]
fn a_leader_takes_no_feed(rt: HostRuntime) -> Result<(), Fail> {
    let alloc = rt.alloc();
    assert!(rt; takes_no_sums(alloc, leader(alloc)?)?);
    assert!(rt; takes_no_sums(alloc, promoted_sums(alloc)?)?, "promoted");
    assert!(rt;
        takes_no_sums(alloc, promoted_unfed(alloc)?)?,
        "fed nothing"
    );
    Ok(())
}

// How following ends where the read of this number fails, of at most seven bytes each; and what stands on the disks then.
fn followed_unread(alloc: Global, files: &Files, feed: &[u8], read: u64) -> Result<Outcome, Fail> {
    let reads = [read];
    let pipes = Pipes {
        reads: &reads,
        greatest: 7,
        room: 64,
    };
    followed_through(alloc, files, feed, &pipes)
}

// How following ends through such pipes, and how many records are acknowledged. After it the whole feed has to be held.
fn ended_unread(alloc: Global, feed: &[u8], read: u64) -> Result<(FollowEnd, u64), Fail> {
    let outcome = followed_unread(alloc, &nothing(alloc), feed, read)?;
    outcome.told_and_held(alloc, feed)
}

// The read that fails, and how many records are acknowledged before it.
const READS: &[(u64, u64)] = &[(0, 0), (1, 0), (2, 0), (3, 0), (44, 0), (45, 1), (46, 1)];

// Whether a read that fails ends following so.
fn is_unread(alloc: Global, feed: &[u8], read: u64, acks: u64) -> Result<bool, Fail> {
    Ok(ended_unread(alloc, feed, read)? == (FollowEnd::Feed(FeedFault::Failed), acks))
}

// The head takes two reads, a length one, and the first body 42.
#[test]
fn a_read_that_fails_is_told(rt: HostRuntime) -> Result<(), Fail> {
    let alloc = rt.alloc();
    let feed = sums_feed(alloc)?;
    for (read, acks) in READS {
        assert!(rt; is_unread(alloc, &feed, *read, *acks)?, "{read}");
    }
    Ok(())
}

// How following ends where there is room for so many bytes of acknowledgments.
fn ended_untold(
    alloc: Global,
    files: &Files,
    feed: &[u8],
    room: usize,
) -> Result<(FollowEnd, u64), Fail> {
    let pipes = Pipes {
        reads: &[],
        greatest: 100,
        room,
    };
    let outcome = followed_through(alloc, files, feed, &pipes)?;
    outcome.told_and_held(alloc, feed)
}

// The room for acknowledgments, and the end.
const ROOMS: &[(usize, (FollowEnd, u64))] = &[
    (0, (FollowEnd::Unwritten, 0)),
    (5, (FollowEnd::Unwritten, 0)),
    (6, (FollowEnd::Unwritten, 1)),
    (17, (FollowEnd::Unwritten, 2)),
    (23, (FollowEnd::Unwritten, 3)),
    (24, (FollowEnd::Held, 4)),
];

// Whether following ends so where there is such room, on empty disks and on those of a follower.
fn is_untold(
    alloc: Global,
    fed: &FedFiles,
    room: usize,
    end: (FollowEnd, u64),
) -> Result<bool, Fail> {
    let first = ended_untold(alloc, &nothing(alloc), &fed.feed, room)?;
    let again = ended_untold(alloc, &fed.files, &fed.feed, room)?;
    Ok(first == end && again == end)
}

// An acknowledgment has six bytes. The record whose line cannot be written is held.
#[test]
fn a_line_that_cannot_be_written_is_told(rt: HostRuntime) -> Result<(), Fail> {
    let alloc = rt.alloc();
    let fed = sums_fed(alloc)?;
    for (room, end) in ROOMS {
        assert!(rt; is_untold(alloc, &fed, *room, *end)?, "{room}");
    }
    Ok(())
}

// The place of the record of this number in the feed.
fn place_of(number: u64) -> Result<u64, Fail> {
    match PLACES.get(number as usize) {
        Some(place) => Ok(*place as u64),
        None => Err(Fail::from("no such record")),
    }
}

// A byte of a feed, and the number of the record that it is in.
const BYTES: &[(usize, u64)] = &[
    (12, 0),
    (40, 0),
    (299, 0),
    (304, 1),
    (402, 1),
    (407, 2),
    (559, 3),
    (613, 3),
];

// Whether another byte of the feed is told at the place of its record.
fn differs(alloc: Global, fed: &FedFiles, byte: usize, number: u64) -> Result<bool, Fail> {
    let place = place_of(number)?;
    let other = changed(alloc, &fed.feed, byte)?;
    is_refused(
        alloc,
        &fed.files,
        &other,
        (FollowEnd::Other { place }, number),
    )
}

#[test]
fn a_record_that_differs_is_told(rt: HostRuntime) -> Result<(), Fail> {
    let alloc = rt.alloc();
    let fed = sums_fed(alloc)?;
    for (byte, number) in BYTES {
        assert!(rt; differs(alloc, &fed, *byte, *number)?, "{byte}");
    }
    Ok(())
}

// The feed with its first record, and then one of the front of the second body that has this length, and of the last bytes.
fn with_second(alloc: Global, feed: &[u8], length: usize, more: &[u8]) -> Result<Vec<u8>, Fail> {
    let (before, rest) = feed.split_at(feed.len().min(304));
    let mut body = front(rest, length).to_vec(alloc)?;
    body.extend_from_slice(more)?;
    with_record(alloc, front(before, 300), &body)
}

// The end where the second record differs.
const SECOND_DIFFERS: (FollowEnd, u64) = (FollowEnd::Other { place: 300 }, 1);

// How many bytes of the second body stand in the feed, what stands after them, and the end.
const LENGTHS: &[(usize, &[u8], (FollowEnd, u64))] = &[
    (0, b"", SECOND_DIFFERS),
    (1, b"", SECOND_DIFFERS),
    (98, b"", SECOND_DIFFERS),
    (99, b"", (FollowEnd::Held, 2)),
    (99, b"\0", SECOND_DIFFERS),
];

// Whether following a feed of two records ends so, the second one of which is made of such parts.
fn ends_in_second(
    alloc: Global,
    fed: &FedFiles,
    length: usize,
    more: &[u8],
    end: (FollowEnd, u64),
) -> Result<bool, Fail> {
    let other = with_second(alloc, &fed.feed, length, more)?;
    is_refused(alloc, &fed.files, &other, end)
}

// The second body has 99 bytes. A record that has less than these, or more after them, differs from it.
#[test]
fn a_record_of_another_length_differs(rt: HostRuntime) -> Result<(), Fail> {
    let alloc = rt.alloc();
    let fed = sums_fed(alloc)?;
    for (length, more, end) in LENGTHS {
        assert!(rt;
            ends_in_second(alloc, &fed, *length, more, *end)?,
            "{length}"
        );
    }
    Ok(())
}

// The end where the second record is cut.
const SECOND_IS_CUT: (FollowEnd, u64) = (FollowEnd::Feed(FeedFault::Cut { place: 300 }), 1);

// Whether a feed of this length is cut whose second record differs.
fn is_cut(alloc: Global, fed: &FedFiles, length: usize) -> Result<bool, Fail> {
    let other = changed(alloc, &fed.feed, 310)?;
    is_refused(alloc, &fed.files, front(&other, length), SECOND_IS_CUT)
}

// A record that differs and is cut is cut.
#[test]
fn a_record_that_is_cut_is_not_compared(rt: HostRuntime) -> Result<(), Fail> {
    let alloc = rt.alloc();
    let fed = sums_fed(alloc)?;
    for length in [301, 304, 354, 402] {
        assert!(rt; is_cut(alloc, &fed, length)?, "{length}");
    }
    Ok(())
}

// Bodies that no journal has after those of the feed: of no byte, of kinds that there are not, cut, with a byte too many, of a first record, of
// the number that is drawn next, and of those that tell whether a shelf follows.
const NO_RECORDS: &[&[u8]] = &[
    b"",
    b"\x00",
    b"\x0a",
    b"\x05",
    b"\x05\x07\0\0\0\0\0\0",
    b"\x05\x07\0\0\0\0\0\0\0\0",
    b"\x01\0\0\0\0\x01\0\0\0\x01\0\0\0a\x02\0\0\0'a",
    b"\x07\x09\0\0\0\0\0\0\0",
    b"\x08",
    b"\x09",
];

// Whether this body has no place after the records of the feed.
fn has_no_place(alloc: Global, fed: &FedFiles, body: &[u8]) -> Result<bool, Fail> {
    let longer = with_record(alloc, &fed.feed, body)?;
    is_refused(
        alloc,
        &fed.files,
        &longer,
        (FollowEnd::Record { place: 614 }, 4),
    )
}

#[test]
fn a_record_that_has_no_place_is_told(rt: HostRuntime) -> Result<(), Fail> {
    let alloc = rt.alloc();
    let fed = sums_fed(alloc)?;
    for body in NO_RECORDS {
        assert!(rt; has_no_place(alloc, &fed, body)?, "{body:?}");
    }
    Ok(())
}

// The end where the first record has no place.
const NO_FIRST: (FollowEnd, u64) = (FollowEnd::Record { place: 8 }, 0);

// Whether this body has no place as the first one of a feed.
fn has_no_first_place(alloc: Global, body: &[u8]) -> Result<bool, Fail> {
    let feed = with_record(alloc, HEAD, body)?;
    is_refused_first(alloc, &feed, NO_FIRST)
}

// A feed does not tell whether a shelf follows.
#[test]
fn a_record_of_a_role_has_no_place(rt: HostRuntime) -> Result<(), Fail> {
    let alloc = rt.alloc();
    for body in ROLES {
        assert!(rt; has_no_first_place(alloc, body)?, "{body:?}");
    }
    Ok(())
}

// A feed whose first record is another one than the first of a journal.
#[test]
fn a_journal_begins_with_its_first_record(rt: HostRuntime) -> Result<(), Fail> {
    let alloc = rt.alloc();
    let bodies = sums_bodies(alloc)?;
    let (_first, others) = bodies.split_at(bodies.len().min(1));
    for body in others {
        assert!(rt; has_no_first_place(alloc, body)?);
    }
    Ok(())
}

// The feed of another shelf, whose number stands after the kind of the first record.
fn feed_of_another(alloc: Global) -> Result<Vec<u8>, Fail> {
    let feed = sums_feed(alloc)?;
    changed(alloc, &feed, 13)
}

#[test]
fn the_feed_of_another_shelf_is_told(rt: HostRuntime) -> Result<(), Fail> {
    let alloc = rt.alloc();
    let feed = feed_of_another(alloc)?;
    assert!(rt; is_refused_first(alloc, &feed, NO_FIRST)?);
    Ok(())
}

// Whether a feed that ends at this place, after so many records, is held.
fn is_shorter(alloc: Global, fed: &FedFiles, place: usize, records: u64) -> Result<bool, Fail> {
    let end = (FollowEnd::Held, records);
    is_refused(alloc, &fed.files, front(&fed.feed, place), end)
}

// A feed that is followed from its beginning on is one of the same journal; what it has less is kept.
#[test]
fn a_shorter_feed_takes_nothing_away(rt: HostRuntime) -> Result<(), Fail> {
    let alloc = rt.alloc();
    let fed = sums_fed(alloc)?;
    for (records, place) in PLACES.iter().enumerate() {
        assert!(rt; is_shorter(alloc, &fed, *place, records as u64)?, "{place}");
    }
    Ok(())
}

// Whether the feed of these files, which are no longer wanted, is its head alone.
fn has_head_alone(alloc: Global, files: Files) -> Result<bool, Fail> {
    has_no_records(alloc, &files)
}

// The head alone is the feed of a journal without records, and of a follower that was fed nothing.
#[test]
fn a_journal_without_records_has_a_feed(rt: HostRuntime) -> Result<(), Fail> {
    let alloc = rt.alloc();
    assert!(rt; has_head_alone(alloc, nothing(alloc))?);
    assert!(rt; has_head_alone(alloc, waiting(alloc)?)?);
    assert!(rt; has_head_alone(alloc, bare(alloc)?)?);
    Ok(())
}

// What stands on the disks of a journal without records that follows.
fn bare_follower(alloc: Global) -> Result<Files, Fail> {
    let files = bare(alloc)?;
    held(alloc, &files, HEAD, 0)
}

// A journal without records is told that its shelf follows, as an empty one is.
#[test]
fn a_journal_without_records_follows(rt: HostRuntime) -> Result<(), Fail> {
    let alloc = rt.alloc();
    let files = bare_follower(alloc)?;
    assert_eq!(rt;
        files.a.as_slice(),
        b"KSWEB\0\0\x06\x01\x01\0\0\0\x08\0".as_slice()
    );
    Ok(())
}
