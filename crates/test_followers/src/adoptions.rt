//! What a shelf answers to records that it is fed, and on disks that stop or fail.
ghost use Rattle.std.specs.Prelude.{true};
ghost use Rattle.disk_trio.specs.Trio.{trio_view};
ghost use Rattle.shelf.specs.Following.{IsInOrderIfFed};

use crate::feeds::{bodies_in, feed_of, feed_with, first_of, is_feed_with};
use crate::followed::{expect_held, sums_follower, waiting};
use crate::openings::{Opening, RULES, opened_bare, tried_bare};
use crate::sums::{bare, leader, sums_bodies};
use script_value::Reply;
use shelf::{AdoptFault, BeginFault};
use std::alloc::Global;
use std::test::Fail;
use test_compactions::files::{Files, Place, Trouble, Wrong, disks_of, left_by};
use test_compactions::sums::nothing;
use test_shelves::{MemoryShelf, put_away};
use web_disk::Wreck;

/// The disks of a shelf.
pub const PLACES: &[Place] = &[Place::First, Place::Second, Place::Root];

/// How far what was not synced is on the disk, the byte in lost places, and whether those at the end are gone.
pub const WRECKS: &[Wreck] = &[
    Wreck {
        reached: u64::MAX,
        fill: 0,
        short: false,
    },
    Wreck {
        reached: 0,
        fill: 0,
        short: true,
    },
    Wreck {
        reached: 0,
        fill: 0,
        short: false,
    },
    Wreck {
        reached: 0,
        fill: 1,
        short: false,
    },
    Wreck {
        reached: 16,
        fill: 255,
        short: false,
    },
];

// Each disk makes fewer calls until a shelf is opened that follows, and was fed four records.
const MOST_CALLS: u64 = 100;

// What a shelf answers to a record.
fn adopted(
    alloc: Global,
    shelf: &mut MemoryShelf,
    body: &[u8],
) -> Result<Result<(), AdoptFault>, Fail>
    requires { IsInOrderIfFed trio_view true shelf.old }
    ensures { IsInOrderIfFed trio_view true shelf.new }
{
    if body.len() > 100_000 {
        return Err(Fail::from("a long record"));
    }
    Ok(shelf.adopt(alloc, body))
}

// What a shelf of these files, opened so, answers to a record.
fn answer(
    alloc: Global,
    files: &Files,
    opening: Opening,
    body: &[u8],
) -> Result<Result<(), AdoptFault>, Fail> {
    let mut shelf = opened_bare(alloc, files, opening)?;
    let answer = adopted(alloc, &mut shelf, body);
    put_away(shelf);
    answer
}

// A record that no journal has, and one that each has after its first one.
const NO_RECORD: &[u8] = b"\x0a";

// The records that tell that a shelf follows, and no longer.
const FOLLOW: &[u8] = b"\x08";

const PROMOTED: &[u8] = b"\x09";

const A_SWEEP: &[u8] = b"\x05\x07\0\0\0\0\0\0\0";

// Whether a shelf of these files, opened so, answers this to a record.
fn answers(
    alloc: Global,
    files: &Files,
    opening: Opening,
    body: &[u8],
    wanted: Result<(), AdoptFault>,
) -> Result<bool, Fail> {
    Ok(answer(alloc, files, opening, body)? == wanted)
}

// Whether a shelf of these files, opened so, tells that it leads to a record that no journal has, and to a sweep.
fn leads(alloc: Global, files: Files, opening: Opening) -> Result<bool, Fail> {
    let told = answers(alloc, &files, opening, NO_RECORD, Err(AdoptFault::Leader))?;
    let swept = answers(alloc, &files, opening, A_SWEEP, Err(AdoptFault::Leader))?;
    Ok(told && swept)
}

// That a shelf leads is told before what is asked of the record.
#[test]
fn a_shelf_that_leads_is_fed_nothing(rt: HostRuntime) -> Result<(), Fail> {
    let alloc = rt.alloc();
    assert!(rt; leads(alloc, leader(alloc)?, Opening::ToFollow)?);
    assert!(rt; leads(alloc, nothing(alloc), Opening::AsItIs)?);
    Ok(())
}

// Whether a shelf of these files, opened so, refuses this record and those that have no place after others, and takes a sweep.
fn takes_a_sweep_alone(
    alloc: Global,
    files: &Files,
    opening: Opening,
    first: &[u8],
) -> Result<bool, Fail> {
    for body in [NO_RECORD, FOLLOW, PROMOTED, first] {
        if !answers(alloc, files, opening, body, Err(AdoptFault::Outside))? {
            return Ok(false);
        }
    }
    answers(alloc, files, opening, A_SWEEP, Ok(()))
}

// Whether a shelf of these files refuses the first of their records, and those that have no place, however it is opened.
fn refuses_its_first(alloc: Global, files: &Files, bodies: &[Vec<u8>]) -> Result<bool, Fail> {
    let first = bodies.first().ok_or("no record")?.as_slice();
    let as_it_is = takes_a_sweep_alone(alloc, files, Opening::AsItIs, first)?;
    let to_follow = takes_a_sweep_alone(alloc, files, Opening::ToFollow, first)?;
    Ok(as_it_is && to_follow)
}

#[test]
fn a_record_outside_its_place_is_refused(rt: HostRuntime) -> Result<(), Fail> {
    let alloc = rt.alloc();
    let files = sums_follower(alloc)?;
    let bodies = bodies_in(alloc, &files.a)?;
    assert!(rt; refuses_its_first(alloc, &files, &bodies)?);
    Ok(())
}

/// How feeding a shelf went: the shelf was not opened, or it was, and adopted so many records up to one at which the disk failed, or all.
#[derive(Clone, Copy)]
enum Went {
    Unopened,
    Fell(usize),
    Ended,
}

// Refuses another answer to a record than that the disk failed once, before what is asked of the record.
fn expect_down(alloc: Global, shelf: &mut MemoryShelf, body: &[u8]) -> Result<(), Fail>
    requires { IsInOrderIfFed trio_view true shelf.old }
    ensures { IsInOrderIfFed trio_view true shelf.new }
{
    match adopted(alloc, shelf, body)? {
        Err(AdoptFault::Down(1)) => Ok(()),
        _ => Err(Fail::from("a record of a shelf whose disk failed")),
    }
}

// Refuses a shelf that goes on though its disk failed.
fn expect_fallen(alloc: Global, shelf: &mut MemoryShelf) -> Result<(), Fail>
    requires { IsInOrderIfFed trio_view true shelf.old }
    ensures { IsInOrderIfFed trio_view true shelf.new }
{
    expect_down(alloc, shelf, A_SWEEP)?;
    expect_down(alloc, shelf, NO_RECORD)?;
    match shelf.promote(alloc) {
        Err(Reply::Down(1)) => Ok(()),
        _ => Err(Fail::from("a promotion of a shelf whose disk failed")),
    }
}

// Feeds a shelf these records, up to one at which its disk fails: from then on it is fed nothing.
fn adopt_all(alloc: Global, shelf: &mut MemoryShelf, bodies: &[Vec<u8>]) -> Result<Went, Fail>
    requires { IsInOrderIfFed trio_view true shelf.old }
{
    'bodies: for (count, body) in bodies.iter().enumerate() {
        match adopted(alloc, shelf, body)? {
            Ok(()) => {}
            Err(AdoptFault::DiskFault(1)) => {
                expect_fallen(alloc, shelf)?;
                return Ok(Went::Fell(count));
            }
            Err(_) => return Err(Fail::from("another answer to a record")),
        }
    }
    Ok(Went::Ended)
}

/// This value, where a failed disk kept a shelf from being opened; refuses another fault.
pub fn if_disk_failed<T: Copy>(fault: BeginFault, value: T) -> Result<T, Fail> {
    match fault {
        BeginFault::DiskFault => Ok(value),
        _ => Err(Fail::from("another fault")),
    }
}

// How feeding the shelf of these files went, one of whose disks is wrong; and what such a crash leaves of the disks.
fn fed_despite(
    alloc: Global,
    files: &Files,
    bodies: &[Vec<u8>],
    wrong: Wrong,
    wreck: Wreck,
) -> Result<(Went, Files), Fail> {
    let disks = disks_of(alloc, files, Some(wrong))?;
    let (went, disks) = match tried_bare(alloc, disks, Opening::ToFollow, RULES) {
        Ok(mut shelf) => {
            let went = adopt_all(alloc, &mut shelf, bodies);
            let (disks, _nonces) = shelf.close();
            (went, disks)
        }
        Err((fault, disks)) => (if_disk_failed(fault, Went::Unopened), disks),
    };
    let left = left_by(disks, wreck);
    Ok((went?, left))
}

// How many of these bodies a feed has: at most all, and they are the first ones.
fn count_in(alloc: Global, feed: &[u8], bodies: &[Vec<u8>]) -> Result<usize, Fail> {
    for (count, _) in bodies.iter().enumerate() {
        if is_feed_with(alloc, feed, first_of(bodies, count))? {
            return Ok(count);
        }
    }
    if is_feed_with(alloc, feed, bodies)? {
        return Ok(bodies.len());
    }
    Err(Fail::from("other records"))
}

// How many records of these are held on such files.
fn held_of(alloc: Global, files: &Files, bodies: &[Vec<u8>]) -> Result<usize, Fail> {
    let feed = feed_of(alloc, files)?;
    count_in(alloc, &feed, bodies)
}

// Whether so many records may be held after feeding that went so.
fn may_hold(went: Went, held: usize, all: usize) -> bool {
    match went {
        Went::Unopened => held == 0,
        Went::Fell(adopted) => held == adopted || held == adopted.saturating_add(1),
        Went::Ended => held == all,
    }
}

// How many more than were adopted are held.
fn more_held(went: Went, held: usize) -> usize {
    match went {
        Went::Fell(adopted) => held.saturating_sub(adopted),
        Went::Unopened | Went::Ended => 0,
    }
}

/// How often no shelf was opened, how often its disk failed, and how many records were held that were not adopted.
#[derive(Clone, Copy)]
struct Counts {
    unopened: u64,
    fell: u64,
    more: u64,
}

impl Counts {
    fn count(&mut self, went: Went, more: usize) {
        match went {
            Went::Unopened => self.unopened = self.unopened.saturating_add(1),
            Went::Fell(_) => self.fell = self.fell.saturating_add(1),
            Went::Ended => {}
        }
        self.more = self.more.saturating_add(more as u64);
    }
}

// Refuses files that do not hold the feed of these bodies once they are fed it.
fn expect_all(alloc: Global, files: &Files, bodies: &[Vec<u8>]) -> Result<(), Fail> {
    let feed = feed_with(alloc, bodies)?;
    expect_held(alloc, files, &feed, bodies.len() as u64)
}

// How many records are held on the files that feeding left, which went so: what was adopted, or one record more; the whole feed goes on from there.
fn held_after(alloc: Global, left: &Files, bodies: &[Vec<u8>], went: Went) -> Result<usize, Fail> {
    let count = held_of(alloc, left, bodies)?;
    if !may_hold(went, count, bodies.len()) {
        return Err(Fail::from("a record was lost, or came from nowhere"));
    }
    expect_all(alloc, left, bodies)?;
    Ok(count)
}

// Counts how feeding went after which such a crash came, and tells it.
fn count_crash(
    alloc: Global,
    files: &Files,
    bodies: &[Vec<u8>],
    wrong: Wrong,
    wreck: Wreck,
    counts: &mut Counts,
) -> Result<Went, Fail> {
    let (went, left) = fed_despite(alloc, files, bodies, wrong, wreck)?;
    let count = held_after(alloc, &left, bodies, went)?;
    counts.count(went, more_held(went, count));
    Ok(went)
}

// Counts how feeding goes with this call wrong, and each of these crashes after it; and tells whether all records are adopted.
fn count_crashes(
    alloc: Global,
    files: &Files,
    bodies: &[Vec<u8>],
    wrong: Wrong,
    counts: &mut Counts,
) -> Result<bool, Fail> {
    let mut ended = false;
    for wreck in WRECKS {
        let went = count_crash(alloc, files, bodies, wrong, *wreck, counts)?;
        ended = matches!(went, Went::Ended);
    }
    Ok(ended)
}

// Counts how feeding goes where a call of this disk is wrong, each in turn, up to one that is not made.
fn count_calls(
    alloc: Global,
    files: &Files,
    bodies: &[Vec<u8>],
    place: Place,
    trouble: Trouble,
    counts: &mut Counts,
) -> Result<(), Fail> {
    for call in 0..MOST_CALLS {
        let wrong = Wrong {
            place,
            trouble,
            call,
        };
        if count_crashes(alloc, files, bodies, wrong, counts)? {
            return Ok(());
        }
    }
    Err(Fail::from("more calls"))
}

// How feeding goes where a call of one of the disks is wrong, each of those in turn, and after each of these crashes.
fn counted(alloc: Global, files: &Files, trouble: Trouble) -> Result<Counts, Fail> {
    let bodies = sums_bodies(alloc)?;
    let mut counts = Counts {
        unopened: 0,
        fell: 0,
        more: 0,
    };
    for place in PLACES {
        count_calls(alloc, files, &bodies, *place, trouble, &mut counts)?;
    }
    Ok(counts)
}

// Four calls add a record: it is written and synced, and then its gate, which alone tells whether it stands.
#[test]
fn what_was_adopted_stands(rt: HostRuntime) -> Result<(), Fail> {
    let alloc = rt.alloc();
    let files = waiting(alloc)?;
    for trouble in [Trouble::Stops, Trouble::Fails] {
        let counts = counted(alloc, &files, trouble)?;
        assert_eq!(rt; counts.fell, 80);
        assert!(rt; counts.more > 0);
    }
    Ok(())
}

// What was adopted stands so too from a journal without records on, which is told that its shelf follows before it is fed.
#[test]
fn a_journal_without_records_that_stops_goes_on(rt: HostRuntime) -> Result<(), Fail> {
    let alloc = rt.alloc();
    let counts = counted(alloc, &bare(alloc)?, Trouble::Stops)?;
    assert_eq!(rt; counts.fell, 80);
    assert!(rt; counts.unopened > 0);
    Ok(())
}
