//! Feeds of journals that were compacted, of an older format, and of several setups; and what a follower of each goes on with once it is promoted.
ghost use Rattle.std.specs.Prelude.{true, IfOk};
ghost use Rattle.script_nodes.specs.Views.{scripts_of};
ghost use Rattle.setup_reader.specs.Texts.{IsReadSetup};
ghost use Rattle.disk_trio.specs.Trio.{trio_view};
ghost use Rattle.shelf.specs.Views.{IsInOrder};

use crate::feeds::{bodies_in, feed_of, feed_with, has_feed};
use crate::followed::{
    followed, held, new_follower, promoted, promoted_sums, refused, sums_follower,
};
use crate::openings::{Opening, RULES, opened_bare};
use crate::sums::{SEVEN, expect_seven, sums_feed, visited};
use page_follower::FollowEnd;
use script_nodes::Setup;
use std::alloc::Global;
use std::test::Fail;
use test_compactions::files::Files;
use test_compactions::old::{ANSWERS, SCRIPTS, file_of, files_with};
use test_compactions::records::{DRAWN, FORMAT_1, FORMAT_2, FORMAT_3, RENEWED};
use test_compactions::sums::{VISITS, left_on_disks, nothing, opened, sums_setup, visited_with};
use test_compactions::visits::{Told, Visit, compacted, expect_visits};
use test_shelves::{MemoryShelf, setup};

// What stands on the disks of these files once they are fed the feed of a leader, of so many records.
fn fed_of(alloc: Global, files: &Files, leader: &Files, records: u64) -> Result<Files, Fail> {
    let feed = feed_of(alloc, leader)?;
    held(alloc, files, &feed, records)
}

// Whether another feeding left these files as they were, of which this is the feed.
fn is_kept(alloc: Global, files: &Files, before: &Files, feed: &[u8]) -> Result<bool, Fail> {
    Ok(files.a == before.a && has_feed(alloc, files, feed)?)
}

// What stands on the disks of a follower of this feed, of so many records, once it was fed it again, which changes nothing.
fn fed_again(alloc: Global, once: &Files, feed: &[u8], records: u64) -> Result<Files, Fail> {
    let twice = held(alloc, once, feed, records)?;
    if is_kept(alloc, &twice, once, feed)? {
        return Ok(twice);
    }
    Err(Fail::from("another feed"))
}

// What stands on the disks of a new follower of this feed, of so many records, once it was fed it twice.
fn fed_twice(alloc: Global, feed: &[u8], records: u64) -> Result<Files, Fail> {
    let once = new_follower(alloc, feed, records)?;
    fed_again(alloc, &once, feed, records)
}

// What stands on the disks of a new follower of the shelf of these files, which has so many records. Its feed is its leader's, and after another
// feeding it is still.
fn follower_of(alloc: Global, leader: &Files, records: u64) -> Result<Files, Fail> {
    let feed = feed_of(alloc, leader)?;
    fed_twice(alloc, &feed, records)
}

// What stands on the disks of a new follower of the shelf of these files, which has so many records, once it is promoted.
fn promoted_of(alloc: Global, leader: &Files, records: u64) -> Result<Files, Fail> {
    let files = follower_of(alloc, leader, records)?;
    promoted(alloc, &files, true)
}

// Refuses files whose shelf, of this setup, does not go on with these visits.
fn expect_visited(alloc: Global, files: &Files, setup: &Setup, visits: &[Visit]) -> Result<(), Fail>
    requires { IsReadSetup (scripts_of setup.now) }
{
    let _visited = visited_with(alloc, files, setup, visits, RULES)?;
    Ok(())
}

// Refuses a leader of these files and so many records, a new follower of which does not go on with these visits once it is promoted.
fn expect_goes_on(
    alloc: Global,
    leader: &Files,
    records: u64,
    setup: &Setup,
    visits: &[Visit],
) -> Result<(), Fail>
    requires { IsReadSetup (scripts_of setup.now) }
{
    let files = promoted_of(alloc, leader, records)?;
    expect_visited(alloc, &files, setup, visits)
}

// Refuses a leader of sums of these files and so many records, a new follower of which does not go on with the visits after its leader's.
fn expect_sums_go_on(alloc: Global, leader: &Files, records: u64) -> Result<(), Fail> {
    let setup = sums_setup(alloc)?;
    expect_goes_on(alloc, leader, records, &setup, SEVEN)
}

// A journal of this format with these records after the first one, and how many records it has once it is of the newest format.
const OLDER: &[(u8, &[&[&[u8]]])] = &[
    (1, &[FORMAT_1]),
    (2, &[FORMAT_2]),
    (3, &[FORMAT_3]),
    (4, &[FORMAT_3, RENEWED]),
    (5, &[DRAWN, FORMAT_3, RENEWED]),
];

// The file that the root names.
fn newest_file(files: &Files) -> &[u8] {
    if files.root.is_empty() {
        files.a.as_slice()
    } else {
        files.b.as_slice()
    }
}

// What stands on the disks of these files once they were opened without a setup.
fn reopened(alloc: Global, files: &Files) -> Result<Files, Fail> {
    let shelf = opened_bare(alloc, files, Opening::AsItIs)?;
    Ok(left_on_disks(shelf))
}

// What stands on the disks of a journal of this format, with these records after the first one.
fn old_files(alloc: Global, format: u8, parts: &[&[&[u8]]]) -> Result<Files, Fail> {
    Ok(files_with(alloc, file_of(alloc, format, SCRIPTS, parts)?))
}

// Whether the feed of these files is that of these bodies.
fn tells(alloc: Global, files: &Files, bodies: &[Vec<u8>]) -> Result<bool, Fail> {
    let feed = feed_with(alloc, bodies)?;
    has_feed(alloc, files, &feed)
}

// How many records a migrated journal has, which the feed of the old one has to tell.
fn records_of(alloc: Global, old: &Files, migrated: &Files) -> Result<u64, Fail> {
    let bodies = bodies_in(alloc, newest_file(migrated))?;
    if tells(alloc, old, &bodies)? {
        return Ok(bodies.len() as u64);
    }
    Err(Fail::from("another feed than the migrated file's"))
}

// Refuses a journal of so many records whose follower does not go on with each of the pages of an older format.
fn expect_answers(alloc: Global, files: &Files, records: u64) -> Result<(), Fail> {
    let setup = setup(alloc, SCRIPTS)?;
    expect_goes_on(alloc, files, records, &setup, ANSWERS)
}

// Refuses a journal, as it was and migrated, whose feed does not tell each of its pages.
fn expect_both_followed(alloc: Global, old: &Files, migrated: &Files) -> Result<(), Fail> {
    let records = records_of(alloc, old, migrated)?;
    expect_answers(alloc, old, records)?;
    expect_answers(alloc, migrated, records)
}

// Refuses files of an older format whose feed does not tell each of their pages.
fn expect_old_followed(alloc: Global, old: &Files) -> Result<(), Fail> {
    let migrated = reopened(alloc, old)?;
    expect_both_followed(alloc, old, &migrated)
}

// Refuses a journal of an older format whose feed does not tell each of its pages.
fn expect_followed(alloc: Global, format: u8, parts: &[&[&[u8]]]) -> Result<(), Fail> {
    let old = old_files(alloc, format, parts)?;
    expect_old_followed(alloc, &old)
}

#[test]
fn journals_of_older_formats_are_followed(rt: HostRuntime) -> Result<(), Fail> {
    let alloc = rt.alloc();
    for (format, parts) in OLDER {
        expect_followed(alloc, *format, parts)?;
    }
    Ok(())
}

// What stands on the disks of the shelf of these files after visits and a compaction.
fn compacted_after(
    alloc: Global,
    files: &Files,
    setup: &Setup,
    visits: &[Visit],
) -> Result<Files, Fail>
    requires { IsReadSetup (scripts_of setup.now) }
{
    let mut shelf = opened(alloc, files, setup, RULES)?;
    let length = visited_and_compacted(alloc, &mut shelf, visits);
    let files = left_on_disks(shelf);
    let _length = length?;
    Ok(files)
}

// What stands on the disks of the shelf of these files after visits and a compaction, with the setup of the script that tells sums.
fn compacted_sums(alloc: Global, files: &Files, visits: &[Visit]) -> Result<Files, Fail> {
    let setup = sums_setup(alloc)?;
    compacted_after(alloc, files, &setup, visits)
}

// What stands on the disks of a leader of sums that is compacted after its visits.
fn compacted_leader(alloc: Global) -> Result<Files, Fail> {
    compacted_sums(alloc, &nothing(alloc), VISITS)
}

// How long the file is that a compaction makes after these visits.
fn visited_and_compacted(
    alloc: Global,
    shelf: &mut MemoryShelf,
    visits: &[Visit],
) -> Result<u64, Fail>
    requires { IsInOrder trio_view true shelf.old }
{
    expect_visits(alloc, shelf, visits)?;
    compacted(alloc, shelf)
}

// The record that tells that three numbers were drawn.
const THREE_DRAWN: &[u8] = b"\x07\x03\0\0\0\0\0\0\0";

// Whether the second one of some bodies is this one.
fn is_second(bodies: &[Vec<u8>], body: &[u8]) -> bool {
    match bodies.get(1) {
        Some(second) => second.as_slice() == body,
        None => false,
    }
}

// How many records a file has whose second one has this body.
fn records_with_second(alloc: Global, file: &[u8], body: &[u8]) -> Result<u64, Fail> {
    let bodies = bodies_in(alloc, file)?;
    if is_second(&bodies, body) {
        return Ok(bodies.len() as u64);
    }
    Err(Fail::from("another second record"))
}

// A compaction leaves out the last visit. After the first record stands the number that is drawn next.
#[test]
fn a_compacted_journal_is_followed(rt: HostRuntime) -> Result<(), Fail> {
    let alloc = rt.alloc();
    let files = compacted_leader(alloc)?;
    let records = records_with_second(alloc, newest_file(&files), THREE_DRAWN)?;
    expect_sums_go_on(alloc, &files, records)
}

// The feed of a leader of sums that is compacted after its visits.
fn compacted_feed(alloc: Global) -> Result<Vec<u8>, Fail> {
    let files = compacted_leader(alloc)?;
    feed_of(alloc, &files)
}

// A follower holds the records of its leader's older file: it does not go on with the newer one, and nothing of it is written.
#[test]
fn a_compaction_ends_following(rt: HostRuntime) -> Result<(), Fail> {
    let alloc = rt.alloc();
    let files = sums_follower(alloc)?;
    let feed = compacted_feed(alloc)?;
    assert_eq!(rt;
        refused(alloc, &files, &feed)?,
        (FollowEnd::Other { place: 300 }, 1)
    );
    Ok(())
}

// A script of two pages, and another one of the same name.
const VERSIONS: &[&str] = &[
    "(begin (send/suspend (lambda (u) \"a1\")) (send/suspend (lambda (u) \"a2\")))",
    "(begin (send/suspend (lambda (u) \"b1\")) (send/suspend (lambda (u) \"b2\")))",
];

// Each is started.
const STARTS: &[Visit] = &[
    Visit {
        path: "/servlets/s",
        answer: "()",
        told: Told::Page("a1"),
    },
    Visit {
        path: "/servlets/s",
        answer: "()",
        told: Told::Page("b1"),
    },
];

// Each page of a start is answered.
const PAGES: &[Visit] = &[
    Visit {
        path: "/servlets/s;0*0*0*0000000000000000",
        answer: "()",
        told: Told::Page("a2"),
    },
    Visit {
        path: "/servlets/s;0*1*1*0000000000000000",
        answer: "()",
        told: Told::Page("b2"),
    },
];

// The setup of this version of the script.
fn version_setup(alloc: Global, version: usize) -> Result<Setup, Fail>
    ensures { IfOk result (λ s. IsReadSetup (scripts_of s)) }
{
    match VERSIONS.get(version) {
        Some(text) => setup(alloc, &[("s", text)]),
        None => Err(Fail::from("no such version")),
    }
}

// What stands on the disks of these files after a start of this version.
fn started(alloc: Global, files: &Files, version: usize) -> Result<Files, Fail> {
    let start = STARTS.get(version).ok_or("no such start")?;
    let setup = version_setup(alloc, version)?;
    visited_with(alloc, files, &setup, &[*start], RULES)
}

// What stands on the disks of a new follower of the first of these, once it was fed the other one too, which has four records.
fn fed_both(alloc: Global, first: &Files, both: &Files) -> Result<Files, Fail> {
    let early = follower_of(alloc, first, 2)?;
    fed_of(alloc, &early, both, 4)
}

// What stands on the disks of a follower of the first of these, fed the other one too, once it is promoted.
fn promoted_fed_both(alloc: Global, first: &Files, both: &Files) -> Result<Files, Fail> {
    let late = fed_both(alloc, first, both)?;
    promoted(alloc, &late, true)
}

// Whether opening the shelf of these files with this setup tells no setup.
fn has_setup(alloc: Global, files: &Files, setup: &Setup) -> Result<bool, Fail>
    requires { IsReadSetup (scripts_of setup.now) }
{
    let opened = visited_with(alloc, files, setup, &[], RULES)?;
    Ok(opened.a == files.a)
}

// Whether the shelf of these files has the second setup.
fn has_second_setup(alloc: Global, files: &Files) -> Result<bool, Fail> {
    let second = version_setup(alloc, 1)?;
    has_setup(alloc, files, &second)
}

// Whether a promoted follower of both of these has the second setup.
fn follower_has_second_setup(alloc: Global, first: &Files, both: &Files) -> Result<bool, Fail> {
    let files = promoted_fed_both(alloc, first, both)?;
    has_second_setup(alloc, &files)
}

// Refuses files a new follower of which does not go on with the pages of both versions.
fn expect_pages(alloc: Global, both: &Files) -> Result<(), Fail> {
    let second = version_setup(alloc, 1)?;
    expect_goes_on(alloc, both, 4, &second, PAGES)
}

// The feed of a leader is longer after another setup. Its follower has each: promoted, it goes on with both, and tells no setup when it is opened
// with the second one.
#[test]
fn a_journal_of_two_setups_is_followed(rt: HostRuntime) -> Result<(), Fail> {
    let alloc = rt.alloc();
    let first = started(alloc, &nothing(alloc), 0)?;
    let both = started(alloc, &first, 1)?;
    assert!(rt; follower_has_second_setup(alloc, &first, &both)?);
    expect_pages(alloc, &both)
}

#[test]
fn a_follower_is_followed(rt: HostRuntime) -> Result<(), Fail> {
    let alloc = rt.alloc();
    let once = sums_follower(alloc)?;
    let twice = follower_of(alloc, &once, 4)?;
    assert!(rt; twice.a == once.a);
    expect_sums_go_on(alloc, &twice, 4)
}

// What stands on the disks of these files, which follow, once they are promoted and a visit was answered after it.
fn led_on(alloc: Global, files: &Files) -> Result<Files, Fail> {
    let leads = promoted(alloc, files, true)?;
    visited(alloc, &leads, SEVEN)
}

// Refuses a leader of five records whose feed a follower of four of them does not go on with.
fn expect_fed_on(alloc: Global, follower: &Files, leader: &Files) -> Result<(), Fail> {
    let _next = fed_of(alloc, follower, leader, 5)?;
    Ok(())
}

// Refuses a leader of five records that a follower of these files, which have four of them, does not go on with.
fn expect_followed_on(alloc: Global, once: &Files, longer: &Files) -> Result<(), Fail> {
    let twice = follower_of(alloc, once, 4)?;
    expect_fed_on(alloc, &twice, longer)
}

// Refuses a leader of five records that a new follower does not go on with.
fn expect_followed_anew(alloc: Global, longer: &Files) -> Result<(), Fail> {
    let third = follower_of(alloc, longer, 5)?;
    expect_sums_go_on(alloc, &third, 5)
}

// What followed it before goes on, and so does a new follower.
#[test]
fn a_promoted_shelf_is_followed(rt: HostRuntime) -> Result<(), Fail> {
    let alloc = rt.alloc();
    let once = sums_follower(alloc)?;
    let longer = led_on(alloc, &once)?;
    expect_followed_on(alloc, &once, &longer)?;
    expect_followed_anew(alloc, &longer)
}

// What stands on the disks of a new follower of sums that is promoted, and then compacted.
fn compacted_promoted(alloc: Global) -> Result<Files, Fail> {
    let files = promoted_sums(alloc)?;
    compacted_sums(alloc, &files, &[])
}

// Whether the newest file of these is that of a leader that is compacted.
fn is_compacted_leader(alloc: Global, files: &Files) -> Result<bool, Fail> {
    let led = compacted_leader(alloc)?;
    Ok(newest_file(files) == newest_file(&led))
}

// Whether following this feed ends at once since the shelf of these files leads.
fn leads(alloc: Global, files: &Files, feed: &[u8]) -> Result<bool, Fail> {
    let outcome = followed(alloc, files, feed)?;
    Ok(outcome.told() == (FollowEnd::Promoted, 0))
}

// Whether the shelf of these files takes no feed, such as that of sums.
fn takes_no_feed(alloc: Global, files: &Files) -> Result<bool, Fail> {
    let feed = sums_feed(alloc)?;
    leads(alloc, files, &feed)
}

// A promoted shelf is compacted as any other: the records that tell what it was are gone, and it takes no feed.
#[test]
fn a_promoted_shelf_is_compacted(rt: HostRuntime) -> Result<(), Fail> {
    let alloc = rt.alloc();
    let short = compacted_promoted(alloc)?;
    assert!(rt; is_compacted_leader(alloc, &short)?);
    assert!(rt; takes_no_feed(alloc, &short)?);
    expect_seven(alloc, &short)
}
