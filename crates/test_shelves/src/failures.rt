//! Shelves whose disk fails while they are opened with another setup.
ghost use Rattle.std.specs.Prelude.{true};
ghost use Rattle.script_nodes.specs.Views.{scripts_of};
ghost use Rattle.setup_reader.specs.Texts.{IsReadSetup};
ghost use Rattle.disk_trio.specs.Trio.{trio_view};
ghost use Rattle.shelf.specs.Views.{IsInOrder};

use crate::openings::{MemoryShelf, put_away, reopened};
use crate::setups::{FIRST, NEW, OLD, START, expect_page, opened, started};
use crate::texts::setup;
use crate::troubles::{Trouble, WRECKS, left_by_opening, opened_despite, troubled};
use script_nodes::Setup;
use std::alloc::Global;
use std::test::Fail;
use web_disk::Wreck;

// After so many calls of its disk an opening with another setup has come to its end.
const MOST_CALLS: u64 = 24;

// In how many crashes the new setup is told.
#[derive(Clone, Copy)]
struct Times {
    // After openings whose disk fails at a call.
    failed: u64,
    // After openings that come to their end.
    ended: u64,
}

// Refuses a shelf on which the page does not go on, or a start is not one of the old setup.
fn expect_pages(alloc: Global, shelf: &mut MemoryShelf) -> Result<(), Fail>
    requires { IsInOrder trio_view true shelf.old }
{
    expect_page(alloc, shelf, START, "a")?;
    expect_page(alloc, shelf, FIRST, "b")
}

// Refuses a disk of these bytes where its shelf's page does not go on, or a start is not one of the old setup.
fn expect_pages_on(alloc: Global, bytes: Vec<u8>, old: &Setup) -> Result<(), Fail>
    requires { IsReadSetup (scripts_of old.now) }
{
    let mut shelf = reopened(alloc, bytes, old)?;
    let pages = expect_pages(alloc, &mut shelf);
    put_away(shelf);
    pages
}

// Whether a journal that was so long before and has this length now tells the new setup and then the old one: else it tells neither.
fn tells_both(before: usize, len: usize) -> Result<bool, Fail> {
    if len == before {
        return Ok(false);
    }
    let more = OLD.len().saturating_add(NEW.len()).saturating_add(38);
    if len == before.saturating_add(more) {
        return Ok(true);
    }
    Err(Fail::from("another record"))
}

// Whether the new setup was told on such a disk, which was so long before: then the next opening tells the old one anew.
fn is_told(alloc: Global, left: Vec<u8>, before: usize, old: &Setup) -> Result<bool, Fail>
    requires { IsReadSetup (scripts_of old.now) }
{
    let bytes = opened(alloc, left, old)?;
    let len = bytes.len();
    expect_pages_on(alloc, bytes, old)?;
    tells_both(before, len)
}

// In how many of these crashes the new setup is told, after an opening on a disk of these bytes whose call of this number fails.
fn times_told(alloc: Global, bytes: &[u8], call: u64, old: &Setup, new: &Setup) -> Result<u64, Fail>
    requires old { IsReadSetup (scripts_of old.now) }
    requires new { IsReadSetup (scripts_of new.now) }
{
    let mut times: u64 = 0;
    for wreck in WRECKS {
        let left = left_by_opening(alloc, new, bytes, Trouble::Fault(call), *wreck)?;
        if is_told(alloc, left, bytes.len(), old)? {
            times = times.saturating_add(1);
        }
    }
    Ok(times)
}

// Whether such an opening comes to its end.
fn ends(alloc: Global, bytes: &[u8], call: u64, new: &Setup) -> Result<bool, Fail>
    requires { IsReadSetup (scripts_of new.now) }
{
    match opened_despite(alloc, new, troubled(alloc, bytes, Trouble::Fault(call))?)? {
        Ok(shelf) => {
            put_away(shelf);
            Ok(true)
        }
        Err(_disks) => Ok(false),
    }
}

// In how many crashes after such openings, each with a fault at another call, the new setup is told.
fn told(alloc: Global, bytes: &[u8], old: &Setup, new: &Setup) -> Result<Times, Fail>
    requires old { IsReadSetup (scripts_of old.now) }
    requires new { IsReadSetup (scripts_of new.now) }
{
    let mut told = Times {
        failed: 0,
        ended: 0,
    };
    for call in 0..MOST_CALLS {
        let times = times_told(alloc, bytes, call, old, new)?;
        if ends(alloc, bytes, call, new)? {
            told.ended = told.ended.saturating_add(times);
        } else {
            told.failed = told.failed.saturating_add(times);
        }
    }
    Ok(told)
}

// The record of a setup is written and synced, and then its gate, which alone tells whether it stands. So where the last sync fails,
// it is there after the crash that loses nothing and the one that fills with open gates, and where the write of its gate fails,
// after the latter.
#[test]
fn another_text_is_told_or_not(rt: HostRuntime) -> Result<(), Fail> {
    let alloc = rt.alloc();
    let old = setup(alloc, &[("s", OLD)])?;
    let new = setup(alloc, &[("s", NEW)])?;
    let bytes = started(alloc, &old)?;
    let Times { failed, ended } = told(alloc, &bytes, &old, &new)?;
    assert_eq!(rt; failed, 3);
    assert!(rt; ended > 0 && ended % 4 == 0, "{ended}");
    Ok(())
}
