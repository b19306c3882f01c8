//! Openings of a journal of an older format that are stopped, or fail, at each call of each disk, and shelves that are opened again after
//! a crash.
ghost use Rattle.script_nodes.specs.Views.{scripts_of};
ghost use Rattle.setup_reader.specs.Texts.{IsReadSetup};

use crate::files::{Files, Trouble, Wrong, disks_of, left_by};
use crate::older::{expect_sum, first_setup, sums};
use crate::stops::{PLACES, WRECKS};
use crate::sums::RULES;
use disk_trio::Disks;
use script_nodes::Setup;
use shelf::BeginFault;
use std::alloc::Global;
use std::test::Fail;
use test_shelves::tried_under;
use web_disk::{MemoryDisk, Wreck};

// After so many calls of each of its disks an opening has come to its end.
const MOST_CALLS: u64 = 32;

// Whether a shelf is opened on these files, where a disk is wrong; and what is left of the disks.
fn opened_despite(
    alloc: Global,
    setup: &Setup,
    files: &Files,
    wrong: Wrong,
) -> Result<(bool, Disks<MemoryDisk>), Fail>
    requires { IsReadSetup (scripts_of setup.now) }
{
    match tried_under(alloc, disks_of(alloc, files, Some(wrong))?, setup, RULES)? {
        Ok(shelf) => {
            let (disks, _nonces) = shelf.close();
            Ok((true, disks))
        }
        Err((BeginFault::DiskFault, disks)) => Ok((false, disks)),
        Err(_) => Err(Fail::from("another fault")),
    }
}

// Whether such an opening comes to its end. After a crash, and after another opening that goes wrong so, the page goes on.
fn expect_crash(
    alloc: Global,
    setup: &Setup,
    files: &Files,
    wrong: Wrong,
    wreck: Wreck,
) -> Result<bool, Fail>
    requires { IsReadSetup (scripts_of setup.now) }
{
    let (opened, disks) = opened_despite(alloc, setup, files, wrong)?;
    let left = left_by(disks, wreck);
    let (_again, disks) = opened_despite(alloc, setup, &left, wrong)?;
    expect_sum(alloc, &left_by(disks, wreck), setup)?;
    Ok(opened)
}

// How many such openings do not come to their end, of those after which a crash follows.
fn failed(alloc: Global, setup: &Setup, files: &Files, wrong: Wrong) -> Result<u64, Fail>
    requires { IsReadSetup (scripts_of setup.now) }
{
    let mut failed: u64 = 0;
    for (reached, fill, short) in WRECKS {
        let wreck = Wreck {
            reached: *reached,
            fill: *fill,
            short: *short,
        };
        if !expect_crash(alloc, setup, files, wrong, wreck)? {
            failed = failed.saturating_add(1);
        }
    }
    Ok(failed)
}

// How many openings do not come to their end of those at which a call of one of the disks is wrong, each of these in turn.
fn all_failed(alloc: Global, setup: &Setup, files: &Files, trouble: Trouble) -> Result<u64, Fail>
    requires { IsReadSetup (scripts_of setup.now) }
{
    let mut count: u64 = 0;
    for place in PLACES {
        for call in 0..MOST_CALLS {
            let wrong = Wrong {
                place: *place,
                trouble,
                call,
            };
            count = count.saturating_add(failed(alloc, setup, files, wrong)?);
        }
    }
    Ok(count)
}

// Each of the fifty calls of the three disks goes wrong in its turn, under six crashes.
#[test]
fn an_older_journal_whose_opening_stops_is_there(rt: HostRuntime) -> Result<(), Fail> {
    let alloc = rt.alloc();
    let setup = first_setup(alloc)?;
    let files = sums(alloc)?;
    assert_eq!(rt; all_failed(alloc, &setup, &files, Trouble::Stops)?, 300);
    Ok(())
}

#[test]
fn an_older_journal_whose_opening_fails_is_there(rt: HostRuntime) -> Result<(), Fail> {
    let alloc = rt.alloc();
    let setup = first_setup(alloc)?;
    let files = sums(alloc)?;
    assert_eq!(rt; all_failed(alloc, &setup, &files, Trouble::Fails)?, 300);
    Ok(())
}
