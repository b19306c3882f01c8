//! Compactions that are stopped, or fail, at each call of each disk, and shelves that are opened again after a crash.
ghost use Rattle.std.specs.Prelude.{true};
ghost use Rattle.script_nodes.specs.Views.{scripts_of};
ghost use Rattle.setup_reader.specs.Texts.{IsReadSetup};
ghost use Rattle.disk_trio.specs.Trio.{trio_view};
ghost use Rattle.shelf.specs.Views.{IsInOrder};

use crate::compactions::{both, expect_second_alone};
use crate::files::{Files, Place, Trouble, Wrong, disks_of, left_by, reopened};
use disk_trio::Disks;
use script_nodes::Setup;
use script_value::Reply;
use shelf::BeginFault;
use std::alloc::Global;
use std::test::Fail;
use test_shelves::{MemoryShelf, SUM, put_away, setup, tried};
use web_disk::{MemoryDisk, Wreck};

/// How far what was not synced is on the disk, the byte in lost places, and whether those at the end are gone.
pub const WRECKS: &[(u64, u8, bool)] = &[
    (u64::MAX, 0, false),
    (0, 0, true),
    (0, 0, false),
    (0, 1, false),
    (0, 255, false),
    (12, 1, false),
];

// After so many calls of each of its disks an opening and a compaction have come to their end.
const MOST_CALLS: u64 = 12;

/// The disks of a shelf.
pub const PLACES: &[Place] = &[Place::First, Place::Second, Place::Root];

// How a compaction went.
#[derive(Clone, Copy, PartialEq, Eq)]
enum Went {
    // It came to its end.
    Done,
    // A disk failed, and the shelf is down.
    Down,
    // A disk failed before the shelf was open.
    Unopened,
}

// Compacts a shelf; where a disk fails, it is down from then on.
fn attempt(alloc: Global, shelf: &mut MemoryShelf) -> Result<Went, Fail>
    requires { IsInOrder trio_view true shelf.old }
    ensures { IsInOrder trio_view true shelf.new }
{
    match shelf.compact(alloc) {
        Ok(_length) => return Ok(Went::Done),
        Err(Reply::DiskFault(1)) => {}
        Err(_) => return Err(Fail::from("another reply")),
    }
    match shelf.compact(alloc) {
        Err(Reply::Down(1)) => Ok(Went::Down),
        _ => Err(Fail::from("a compaction of a shelf that is down")),
    }
}

// How it goes to open a shelf on these files, where a disk is wrong, and to compact it; and what is left of the disks.
fn compacted_despite(
    alloc: Global,
    setup: &Setup,
    files: &Files,
    wrong: Wrong,
) -> Result<(Went, Disks<MemoryDisk>), Fail>
    requires { IsReadSetup (scripts_of setup.now) }
{
    match tried(alloc, disks_of(alloc, files, Some(wrong))?, setup)? {
        Ok(mut shelf) => {
            let went = attempt(alloc, &mut shelf)?;
            let (disks, _nonces) = shelf.close();
            Ok((went, disks))
        }
        Err((BeginFault::DiskFault, disks)) => Ok((Went::Unopened, disks)),
        Err(_) => Err(Fail::from("another fault")),
    }
}

// What such a crash leaves of files on which a shelf is opened, where a disk is wrong.
fn left_by_opening(
    alloc: Global,
    setup: &Setup,
    files: &Files,
    wrong: Wrong,
    wreck: Wreck,
) -> Result<Files, Fail>
    requires { IsReadSetup (scripts_of setup.now) }
{
    match tried(alloc, disks_of(alloc, files, Some(wrong))?, setup)? {
        Ok(shelf) => {
            let (disks, _nonces) = shelf.close();
            Ok(left_by(disks, wreck))
        }
        Err((BeginFault::DiskFault, disks)) => Ok(left_by(disks, wreck)),
        Err(_) => Err(Fail::from("another fault")),
    }
}

// Refuses files of other instances than the second one.
fn expect_files(alloc: Global, setup: &Setup, files: &Files) -> Result<(), Fail>
    requires { IsReadSetup (scripts_of setup.now) }
{
    let mut shelf = reopened(alloc, files, setup)?;
    let told = expect_second_alone(alloc, &mut shelf);
    put_away(shelf);
    told
}

// Refuses a crash after such a compaction that changes what the shelf has, or one after an opening that stops then.
fn expect_crash(
    alloc: Global,
    setup: &Setup,
    files: &Files,
    wrong: Wrong,
    wreck: Wreck,
) -> Result<Went, Fail>
    requires { IsReadSetup (scripts_of setup.now) }
{
    let (went, disks) = compacted_despite(alloc, setup, files, wrong)?;
    let left = left_by(disks, wreck);
    expect_files(alloc, setup, &left)?;
    let once = left_by_opening(alloc, setup, &left, wrong, wreck)?;
    expect_files(alloc, setup, &once)?;
    Ok(went)
}

// How many of the compactions that go wrong in one of these ways come to their end, how many leave a shelf that is down, and how many
// find none.
#[derive(Clone, Copy, Debug, PartialEq, Eq)]
struct Counts {
    done: u64,
    down: u64,
    unopened: u64,
}

impl Counts {
    fn count(&mut self, went: Went) {
        let count = match went {
            Went::Done => &mut self.done,
            Went::Down => &mut self.down,
            Went::Unopened => &mut self.unopened,
        };
        *count = count.saturating_add(1);
    }
}

// The counts for each crash after a compaction that goes wrong so.
fn count_crashes(
    alloc: Global,
    setup: &Setup,
    files: &Files,
    wrong: Wrong,
    counts: &mut Counts,
) -> Result<(), Fail>
    requires { IsReadSetup (scripts_of setup.now) }
{
    for (reached, fill, short) in WRECKS {
        let wreck = Wreck {
            reached: *reached,
            fill: *fill,
            short: *short,
        };
        counts.count(expect_crash(alloc, setup, files, wrong, wreck)?);
    }
    Ok(())
}

// How compactions go where a call of one of the disks is wrong, each of those in turn.
fn counted(alloc: Global, setup: &Setup, files: &Files, trouble: Trouble) -> Result<Counts, Fail>
    requires { IsReadSetup (scripts_of setup.now) }
{
    let mut counts = Counts {
        done: 0,
        down: 0,
        unopened: 0,
    };
    for place in PLACES {
        for call in 0..MOST_CALLS {
            let wrong = Wrong {
                place: *place,
                trouble,
                call,
            };
            count_crashes(alloc, setup, files, wrong, &mut counts)?;
        }
    }
    Ok(counts)
}

// An opening makes fourteen calls of the three disks, and a compaction five: each of them goes wrong in its turn, under six crashes.
#[test]
fn a_compaction_that_stops_at_each_call_is_there_or_not(rt: HostRuntime) -> Result<(), Fail> {
    let alloc = rt.alloc();
    let setup = setup(alloc, &[("s", SUM)])?;
    let files = both(alloc, &setup)?;
    let counts = counted(alloc, &setup, &files, Trouble::Stops)?;
    assert_eq!(rt;
        counts,
        Counts {
            done: 102,
            down: 30,
            unopened: 84
        }
    );
    Ok(())
}

#[test]
fn a_compaction_with_a_fault_at_each_call_is_there_or_not(rt: HostRuntime) -> Result<(), Fail> {
    let alloc = rt.alloc();
    let setup = setup(alloc, &[("s", SUM)])?;
    let files = both(alloc, &setup)?;
    let counts = counted(alloc, &setup, &files, Trouble::Fails)?;
    assert_eq!(rt;
        counts,
        Counts {
            done: 102,
            down: 30,
            unopened: 84
        }
    );
    Ok(())
}
