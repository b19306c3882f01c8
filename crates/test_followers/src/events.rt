//! What a shelf that follows answers to a visit, a sweep and a compaction.
ghost use Rattle.std.specs.Prelude.{true};
ghost use Rattle.script_nodes.specs.Views.{scripts_of};
ghost use Rattle.setup_reader.specs.Texts.{IsReadSetup};
ghost use Rattle.disk_trio.specs.Trio.{trio_view};
ghost use Rattle.shelf.specs.Views.{IsInOrder};

use crate::feeds::feed_in;
use crate::followed::{new_follower, sums_follower, waiting};
use crate::openings::RULES;
use script_nodes::Setup;
use script_value::Reply;
use std::alloc::Global;
use std::test::Fail;
use test_compactions::files::Files;
use test_compactions::sums::{left_on_disks, nothing, opened, sums_setup};
use test_compactions::visits::swept;
use test_shelves::{MemoryShelf, SUM, answered, datum, setup};

// A start, pages that are there and that are not, names of no script, and another shelf's page.
const PATHS: &[&str] = &[
    "/servlets/sum",
    "/servlets/sum;0*0*0*0000000000000000",
    "/servlets/sum;0*0*1*0000000000000001",
    "/servlets/sum;0*0*1*0000000000000002",
    "/servlets/sum;0*5*5*0000000000000000",
    "/servlets/none",
    "/servlets/none;0*0*0*0000000000000000",
    "/servlets/sum;1*0*0*0000000000000000",
];

// Whether an answer tells that the shelf follows.
fn tells_following(reply: &Reply) -> bool {
    matches!(reply, Reply::Following)
}

// Whether a visit of this path is answered that the shelf follows.
fn is_put_off(alloc: Global, shelf: &mut MemoryShelf, path: &str) -> Result<bool, Fail>
    requires { IsInOrder trio_view true shelf.old }
    ensures { IsInOrder trio_view true shelf.new }
{
    let reply = answered(alloc, shelf, path, datum(alloc, "()")?)?;
    Ok(tells_following(&reply))
}

// Refuses a shelf that answers one of these visits in another way.
fn expect_no_visits(alloc: Global, shelf: &mut MemoryShelf) -> Result<(), Fail>
    requires { IsInOrder trio_view true shelf.old }
    ensures { IsInOrder trio_view true shelf.new }
{
    'visits: for path in PATHS {
        if !is_put_off(alloc, shelf, path)? {
            return Err(Fail::from("a visit of a shelf that follows"));
        }
    }
    Ok(())
}

// Whether a sweep at this second is answered by the count of what it frees, which is none; else the shelf follows.
fn is_swept(alloc: Global, shelf: &mut MemoryShelf, tick: u64) -> Result<bool, Fail>
    requires { IsInOrder trio_view true shelf.old }
    ensures { IsInOrder trio_view true shelf.new }
{
    if tick >= 4_000_000 {
        return Err(Fail::from("a late tick"));
    }
    match shelf.sweep(alloc, tick) {
        Ok(0) => Ok(true),
        Err(Reply::Following) => Ok(false),
        _ => Err(Fail::from("another answer to a sweep")),
    }
}

// Refuses a shelf whose clock is another one, or that is swept beyond it.
fn expect_clock(alloc: Global, shelf: &mut MemoryShelf, clock: u64) -> Result<(), Fail>
    requires { IsInOrder trio_view true shelf.old }
    ensures { IsInOrder trio_view true shelf.new }
{
    let at = is_swept(alloc, shelf, clock)?;
    let below = is_swept(alloc, shelf, clock.saturating_sub(1))?;
    let above = is_swept(alloc, shelf, clock.saturating_add(1))?;
    let late = is_swept(alloc, shelf, 3_999_999)?;
    if at && below && !above && !late {
        return Ok(());
    }
    Err(Fail::from("another clock"))
}

// Refuses a shelf that does not follow, with this clock.
fn expect_following(alloc: Global, shelf: &mut MemoryShelf, clock: u64) -> Result<(), Fail>
    requires { IsInOrder trio_view true shelf.old }
    ensures { IsInOrder trio_view true shelf.new }
{
    expect_no_visits(alloc, shelf)?;
    expect_clock(alloc, shelf, clock)?;
    match shelf.compact(alloc) {
        Err(Reply::Following) if shelf.follows() => Ok(()),
        _ => Err(Fail::from("a compaction of a shelf that follows")),
    }
}

// What stands on the disks of these files, which follow, with this clock, once a shelf of this setup was opened on them and asked for all that.
fn asked(alloc: Global, files: &Files, setup: &Setup, clock: u64) -> Result<Files, Fail>
    requires { IsReadSetup (scripts_of setup.now) }
{
    let mut shelf = opened(alloc, files, setup, RULES)?;
    let follows = expect_following(alloc, &mut shelf, clock);
    let files = left_on_disks(shelf);
    follows?;
    Ok(files)
}

// Whether the shelf of these files, of this setup, does nothing but to tell that it follows.
fn stays(alloc: Global, files: &Files, setup: &Setup, clock: u64) -> Result<bool, Fail>
    requires { IsReadSetup (scripts_of setup.now) }
{
    let left = asked(alloc, files, setup, clock)?;
    Ok(left.a == files.a && left.b.is_empty() && left.root == files.root)
}

// Whether the shelf of these files, of these scripts, does nothing but to tell that it follows.
fn stays_with(
    alloc: Global,
    files: &Files,
    scripts: &[(&str, &str)],
    clock: u64,
) -> Result<bool, Fail> {
    let setup = setup(alloc, scripts)?;
    stays(alloc, files, &setup, clock)
}

// Whether the shelf of these files, of each of two setups, does nothing but to tell that it follows.
fn does_nothing(alloc: Global, files: Files, clock: u64) -> Result<bool, Fail> {
    let sums = stays_with(alloc, &files, &[("sum", SUM)], clock)?;
    let other = stays_with(alloc, &files, &[("a", "'a")], clock)?;
    Ok(sums && other)
}

#[test]
fn a_shelf_that_follows_does_nothing_else(rt: HostRuntime) -> Result<(), Fail> {
    let alloc = rt.alloc();
    assert!(rt; does_nothing(alloc, sums_follower(alloc)?, 0)?);
    assert!(rt; does_nothing(alloc, waiting(alloc)?, 0)?, "fed nothing");
    Ok(())
}

// The feed of a shelf of sums that was swept at 50, with two records.
fn swept_feed(alloc: Global) -> Result<Vec<u8>, Fail> {
    let setup = sums_setup(alloc)?;
    swept_feed_with(alloc, &setup)
}

// The feed of a shelf of this setup that was swept at 50.
fn swept_feed_with(alloc: Global, setup: &Setup) -> Result<Vec<u8>, Fail>
    requires { IsReadSetup (scripts_of setup.now) }
{
    let files = swept_files(alloc, setup)?;
    feed_in(alloc, &files.a)
}

// What stands on the disks of a shelf of this setup that was swept so.
fn swept_files(alloc: Global, setup: &Setup) -> Result<Files, Fail>
    requires { IsReadSetup (scripts_of setup.now) }
{
    let mut shelf = opened(alloc, &nothing(alloc), setup, RULES)?;
    let swept = swept(alloc, &mut shelf, 50);
    let files = left_on_disks(shelf);
    let _none = swept?;
    Ok(files)
}

// What stands on the disks of a new follower of a shelf of sums that was swept at 50.
fn swept_follower(alloc: Global) -> Result<Files, Fail> {
    let feed = swept_feed(alloc)?;
    new_follower(alloc, &feed, 2)
}

#[test]
fn a_follower_has_the_clock_of_its_leader(rt: HostRuntime) -> Result<(), Fail> {
    let alloc = rt.alloc();
    assert!(rt; does_nothing(alloc, swept_follower(alloc)?, 50)?);
    Ok(())
}
