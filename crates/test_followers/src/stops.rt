//! Following and promoting over disks that stop or fail at each of their calls.
ghost use Rattle.std.specs.Prelude.{◌≡◌, true};
ghost use Rattle.disk_trio.specs.Trio.{trio_view};
ghost use Rattle.shelf.specs.Following.{CanBeFed, IsInOrderIfFed, IsReadable};
ghost use Rattle.shelf.specs.Views.{follows_in};

use crate::adoptions::{PLACES, WRECKS, if_disk_failed};
use crate::feeds::{bodies_in, feed_of, first_of, is_feed_with};
use crate::followed::{FAIR, fed, held, promoted, sums_follower};
use crate::openings::{Opening, RULES, opened_bare, tried_bare};
use crate::sums::{bare, expect_seven, sums_feed};
use disk_trio::Disks;
use page_follower::FollowEnd;
use script_value::Reply;
use std::alloc::Global;
use std::test::Fail;
use test_compactions::files::{Files, Place, Trouble, Wrong, disks_of, left_by};
use test_shelves::{MemoryShelf, put_away};
use web_disk::{MemoryDisk, Wreck};

// Each disk makes fewer calls until a shelf that follows has come to the end of a feed of four records, or is promoted.
const MOST_CALLS: u64 = 100;

// How many records of the feed are acknowledged, which is held, or ends where the disk fails.
fn acked(alloc: Global, shelf: &mut MemoryShelf, feed: &[u8]) -> Result<u64, Fail>
    requires readable { IsReadable trio_view true shelf.old }
    requires can { follows_in shelf.old ≡ true → CanBeFed shelf.old }
    requires in_order { IsInOrderIfFed trio_view true shelf.old }
{
    let (end, acks) = fed(alloc, shelf, feed, &FAIR)?;
    match end {
        FollowEnd::Held | FollowEnd::DiskFault => Ok(acks),
        _ => Err(Fail::from("another end")),
    }
}

// The disks of a journal without records, one of which is wrong.
fn bare_disks(alloc: Global, wrong: Wrong) -> Result<Disks<MemoryDisk>, Fail> {
    let files = bare(alloc)?;
    disks_of(alloc, &files, Some(wrong))
}

// How many records of the feed were acknowledged that a journal without records follows, one of whose disks is wrong; and what such a crash leaves of
// its disks.
fn acked_despite(
    alloc: Global,
    feed: &[u8],
    wrong: Wrong,
    wreck: Wreck,
) -> Result<(u64, Files), Fail> {
    let disks = bare_disks(alloc, wrong)?;
    let (acks, disks) = match tried_bare(alloc, disks, Opening::ToFollow, RULES) {
        Ok(mut shelf) => {
            let acks = acked(alloc, &mut shelf, feed);
            let (disks, _nonces) = shelf.close();
            (acks, disks)
        }
        Err((fault, disks)) => (if_disk_failed(fault, 0), disks),
    };
    let left = left_by(disks, wreck);
    Ok((acks?, left))
}

// Whether a feed has so many of these bodies, the first ones, or one more.
fn has_first(alloc: Global, feed: &[u8], bodies: &[Vec<u8>], count: usize) -> Result<bool, Fail> {
    if is_feed_with(alloc, feed, first_of(bodies, count))? {
        return Ok(true);
    }
    is_feed_with(alloc, feed, first_of(bodies, count.saturating_add(1)))
}

// The bodies of the records of these files once they were fed this feed, which goes on from there.
fn whole_bodies(alloc: Global, files: &Files, feed: &[u8]) -> Result<Vec<Vec<u8>>, Fail> {
    let whole = held(alloc, files, feed, 4)?;
    bodies_in(alloc, &whole.a)
}

// Whether at least as many records of the feed are held on these files as were acknowledged, and at most one more; the feed goes on from there.
fn are_held(alloc: Global, files: &Files, feed: &[u8], acks: u64) -> Result<bool, Fail> {
    let known = feed_of(alloc, files)?;
    let bodies = whole_bodies(alloc, files, feed)?;
    has_first(alloc, &known, &bodies, acks as usize)
}

// How many records were acknowledged before such a crash; refuses one that loses any of them.
fn acked_and_kept(alloc: Global, feed: &[u8], wrong: Wrong, wreck: Wreck) -> Result<u64, Fail> {
    let (acks, left) = acked_despite(alloc, feed, wrong, wreck)?;
    if are_held(alloc, &left, feed, acks)? {
        return Ok(acks);
    }
    Err(Fail::from("a record that was acknowledged is gone"))
}

// How many records are acknowledged with this call wrong; refuses a crash after such a feeding that loses one of them.
fn acked_and_held(alloc: Global, feed: &[u8], wrong: Wrong) -> Result<u64, Fail> {
    let mut most: u64 = 0;
    for wreck in WRECKS {
        most = most.max(acked_and_kept(alloc, feed, wrong, *wreck)?);
    }
    Ok(most)
}

// Refuses such a crash where a call of this disk is wrong, each in turn, up to one that is not made.
fn expect_held(alloc: Global, feed: &[u8], place: Place, trouble: Trouble) -> Result<(), Fail> {
    for call in 0..MOST_CALLS {
        let wrong = Wrong {
            place,
            trouble,
            call,
        };
        if acked_and_held(alloc, feed, wrong)? == 4 {
            return Ok(());
        }
    }
    Err(Fail::from("more calls"))
}

#[test]
fn what_was_acknowledged_is_held(rt: HostRuntime) -> Result<(), Fail> {
    let alloc = rt.alloc();
    let feed = sums_feed(alloc)?;
    for place in PLACES {
        expect_held(alloc, &feed, *place, Trouble::Stops)?;
        expect_held(alloc, &feed, *place, Trouble::Fails)?;
    }
    Ok(())
}

/// How promoting a shelf went.
#[derive(Clone, Copy)]
enum Went {
    Unopened,
    Fell,
    Promoted,
}

// Promotes a shelf; where the disk fails, it follows no longer and leads no more than before, until it is opened again.
fn promote(alloc: Global, shelf: &mut MemoryShelf) -> Result<Went, Fail>
    requires { IsInOrderIfFed trio_view true shelf.old }
{
    match shelf.promote(alloc) {
        Ok(true) => return Ok(Went::Promoted),
        Err(Reply::DiskFault(1)) => {}
        _ => return Err(Fail::from("another answer")),
    }
    match shelf.promote(alloc) {
        Err(Reply::Down(1)) => Ok(Went::Fell),
        _ => Err(Fail::from("a promotion of a shelf whose disk failed")),
    }
}

// How promoting the shelf of these files went, one of whose disks is wrong; and what such a crash leaves of the disks.
fn promoted_despite(
    alloc: Global,
    files: &Files,
    wrong: Wrong,
    wreck: Wreck,
) -> Result<(Went, Files), Fail> {
    let disks = disks_of(alloc, files, Some(wrong))?;
    let (went, disks) = match tried_bare(alloc, disks, Opening::AsItIs, RULES) {
        Ok(mut shelf) => {
            let went = promote(alloc, &mut shelf);
            let (disks, _nonces) = shelf.close();
            (went, disks)
        }
        Err((fault, disks)) => (if_disk_failed(fault, Went::Unopened), disks),
    };
    let left = left_by(disks, wreck);
    Ok((went?, left))
}

// Whether the shelf of these files follows.
fn follows(alloc: Global, files: &Files) -> Result<bool, Fail> {
    let shelf = opened_bare(alloc, files, Opening::AsItIs)?;
    let follows = shelf.follows();
    put_away(shelf);
    Ok(follows)
}

// Whether the shelf follows of these files, which such a crash left of a promotion. It goes on with its visits, once it is promoted where it follows.
fn goes_on(alloc: Global, files: &Files) -> Result<bool, Fail> {
    let still = follows(alloc, files)?;
    let whole = promoted(alloc, files, still)?;
    expect_seven(alloc, &whole)?;
    Ok(still)
}

// Whether a shelf may follow after a promotion that went so.
fn may_follow(went: Went, follows: bool) -> bool {
    match went {
        Went::Unopened => follows,
        Went::Fell => true,
        Went::Promoted => !follows,
    }
}

// How promoting went before such a crash; refuses one after which a shelf that was promoted follows, or one that was not leads.
fn promoted_and_kept(
    alloc: Global,
    files: &Files,
    wrong: Wrong,
    wreck: Wreck,
) -> Result<Went, Fail> {
    let (went, left) = promoted_despite(alloc, files, wrong, wreck)?;
    if may_follow(went, goes_on(alloc, &left)?) {
        return Ok(went);
    }
    Err(Fail::from("a promotion in part"))
}

// Whether a shelf of these files is promoted with this call wrong; refuses a crash that leaves a promotion in part.
fn promoted_whole(alloc: Global, files: &Files, wrong: Wrong) -> Result<bool, Fail> {
    let mut told = false;
    for wreck in WRECKS {
        let went = promoted_and_kept(alloc, files, wrong, *wreck)?;
        told = matches!(went, Went::Promoted);
    }
    Ok(told)
}

// Refuses such a crash where a call of this disk is wrong, each in turn, up to one that is not made.
fn expect_whole(alloc: Global, files: &Files, place: Place, trouble: Trouble) -> Result<(), Fail> {
    for call in 0..MOST_CALLS {
        let wrong = Wrong {
            place,
            trouble,
            call,
        };
        if promoted_whole(alloc, files, wrong)? {
            return Ok(());
        }
    }
    Err(Fail::from("more calls"))
}

#[test]
fn a_promotion_that_stops_happened_or_not(rt: HostRuntime) -> Result<(), Fail> {
    let alloc = rt.alloc();
    let files = sums_follower(alloc)?;
    for place in PLACES {
        expect_whole(alloc, &files, *place, Trouble::Stops)?;
        expect_whole(alloc, &files, *place, Trouble::Fails)?;
    }
    Ok(())
}
