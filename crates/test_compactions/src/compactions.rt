//! What stays of a file that is compacted.
ghost use Rattle.std.specs.Prelude.{true, IfOk};
ghost use Rattle.script_nodes.specs.Views.{scripts_of};
ghost use Rattle.setup_reader.specs.Texts.{IsReadSetup};
ghost use Rattle.disk_trio.specs.Trio.{trio_view};
ghost use Rattle.shelf.specs.Views.{IsInOrder};

use crate::files::{Files, disks_of, files_of, reopened};
use crate::visits::{Told, Visit, compacted, expect_visits, swept};
use script_nodes::Setup;
use shelf::Rules;
use std::alloc::Global;
use std::test::Fail;
use test_shelves::{MemoryShelf, SUM, created, put_away, setup, tried_under};

const START: &str = "/servlets/s";

const FIRST: &str = "/servlets/s;7*0*0*0000000000000000";

const SECOND: &str = "/servlets/s;7*2*2*0000000000000002";

// An instance with two pages.
const EARLY: &[Visit] = &[
    Visit {
        path: START,
        answer: "()",
        told: Told::Page("<a href=\"/servlets/s;7*0*0*0000000000000000\">1</a>"),
    },
    Visit {
        path: FIRST,
        answer: "((n \"3\"))",
        told: Told::Page("<a href=\"/servlets/s;7*0*1*0000000000000001\">2</a>"),
    },
];

// Another one with three.
const LATE: &[Visit] = &[
    Visit {
        path: START,
        answer: "()",
        told: Told::Page("<a href=\"/servlets/s;7*2*2*0000000000000002\">1</a>"),
    },
    Visit {
        path: SECOND,
        answer: "((n \"3\"))",
        told: Told::Page("<a href=\"/servlets/s;7*2*3*0000000000000003\">2</a>"),
    },
    Visit {
        path: SECOND,
        answer: "((n \"10\"))",
        told: Told::Page("<a href=\"/servlets/s;7*2*4*0000000000000004\">2</a>"),
    },
];

// What is told once the first instance is gone.
const THEN: &[Visit] = &[
    Visit {
        path: FIRST,
        answer: "((n \"3\"))",
        told: Told::Unknown,
    },
    Visit {
        path: "/servlets/s;7*2*3*0000000000000003",
        answer: "((n \"4\"))",
        told: Told::Last("<p>7</p>"),
    },
    Visit {
        path: "/servlets/s;7*2*4*0000000000000004",
        answer: "((n \"4\"))",
        told: Told::Last("<p>14</p>"),
    },
];

/// Makes an instance whose time is over, and one with pages that go on.
pub fn visit_both(alloc: Global, shelf: &mut MemoryShelf) -> Result<(), Fail>
    requires { IsInOrder trio_view true shelf.old }
    ensures { IsInOrder trio_view true shelf.new }
{
    expect_visits(alloc, shelf, EARLY)?;
    let none = swept(alloc, shelf, 100)?;
    expect_visits(alloc, shelf, LATE)?;
    let one = swept(alloc, shelf, 3_600)?;
    if none == 0 && one == 1 {
        return Ok(());
    }
    Err(Fail::from("another count of freed instances"))
}

/// Refuses a shelf on which the first of these instances lives, or pages of the second do not go on.
pub fn expect_second_alone(alloc: Global, shelf: &mut MemoryShelf) -> Result<(), Fail>
    requires { IsInOrder trio_view true shelf.old }
    ensures { IsInOrder trio_view true shelf.new }
{
    if shelf.live() != 1 || shelf.book().drawn() < 5 {
        return Err(Fail::from("other instances or numbers"));
    }
    expect_visits(alloc, shelf, THEN)
}

/// What stands on the disks of a shelf with these instances.
pub fn both(alloc: Global, setup: &Setup) -> Result<Files, Fail>
    requires { IsReadSetup (scripts_of setup.now) }
{
    let mut shelf = created(alloc, setup)?;
    visit_both(alloc, &mut shelf)?;
    files_of(alloc, shelf)
}

// What stands on the disks of the shelf of these files, after a compaction.
fn compacted_once(alloc: Global, setup: &Setup, files: &Files) -> Result<Files, Fail>
    requires { IsReadSetup (scripts_of setup.now) }
{
    let mut shelf = reopened(alloc, files, setup)?;
    let _length = compacted(alloc, &mut shelf)?;
    files_of(alloc, shelf)
}

// How long the file is after two compactions in a row.
fn compact_twice(alloc: Global, shelf: &mut MemoryShelf) -> Result<u64, Fail>
    requires { IsInOrder trio_view true shelf.old }
    ensures { IsInOrder trio_view true shelf.new }
{
    let _length = compacted(alloc, shelf)?;
    compacted(alloc, shelf)
}

// What stands on the disks of the shelf of these files after that.
fn compacted_twice(alloc: Global, setup: &Setup, files: &Files) -> Result<Files, Fail>
    requires { IsReadSetup (scripts_of setup.now) }
{
    let mut shelf = reopened(alloc, files, setup)?;
    let _length = compact_twice(alloc, &mut shelf)?;
    files_of(alloc, shelf)
}

// Refuses files of other instances than the second.
fn expect_files(alloc: Global, setup: &Setup, files: &Files) -> Result<(), Fail>
    requires { IsReadSetup (scripts_of setup.now) }
{
    let mut shelf = reopened(alloc, files, setup)?;
    let told = expect_second_alone(alloc, &mut shelf);
    put_away(shelf);
    told
}

#[test]
fn a_compaction_keeps_what_lives(rt: HostRuntime) -> Result<(), Fail> {
    let alloc = rt.alloc();
    let setup = setup(alloc, &[("s", SUM)])?;
    let files = both(alloc, &setup)?;
    let once = compacted_once(alloc, &setup, &files)?;
    assert_eq!(rt; once.a.as_slice(), files.a.as_slice());
    assert_eq!(rt; once.root.as_slice(), b"\x01".as_slice());
    assert!(rt; once.b.len() < files.a.len());
    expect_files(alloc, &setup, &once)
}

// Nothing is left to be dropped, so the one file has the same bytes as the other.
#[test]
fn two_compactions_in_a_row_make_the_same_file(rt: HostRuntime) -> Result<(), Fail> {
    let alloc = rt.alloc();
    let setup = setup(alloc, &[("s", SUM)])?;
    let twice = compacted_twice(alloc, &setup, &both(alloc, &setup)?)?;
    assert_eq!(rt; twice.a.as_slice(), twice.b.as_slice());
    assert_eq!(rt; twice.root.as_slice(), b"\0".as_slice());
    expect_files(alloc, &setup, &twice)
}

// The header, the gates and the first record stay; the record of the number that is drawn next has 14 bytes.
#[test]
fn a_compaction_of_an_empty_shelf_tells_a_number(rt: HostRuntime) -> Result<(), Fail> {
    let alloc = rt.alloc();
    let setup = setup(alloc, &[("s", SUM)])?;
    let files = files_of(alloc, created(alloc, &setup)?)?;
    let once = compacted_once(alloc, &setup, &files)?;
    let end = files.a.len().saturating_sub(1);
    assert_eq!(rt; once.b.len(), files.a.len().saturating_add(14));
    assert!(rt; once.b.starts_with(&files.a[..end]));
    assert_eq!(rt;
        &once.b[end..],
        [1, 9, 0, 0, 0, 7, 0, 0, 0, 0, 0, 0, 0, 0, 0].as_slice()
    );
    Ok(())
}

// The shelf 7, with at most three pages of an instance.
const FEW_PAGES: Rules = Rules {
    number: 7,
    shelves: 8,
    fuel: 100_000,
    life: 3_600,
    instances: 256,
    pages: 3,
};

// Four pages, of which the second was used least when the fourth came.
const FOUR: &[Visit] = &[
    Visit {
        path: START,
        answer: "()",
        told: Told::Page("<a href=\"/servlets/s;7*0*0*0000000000000000\">1</a>"),
    },
    Visit {
        path: FIRST,
        answer: "((n \"1\"))",
        told: Told::Page("<a href=\"/servlets/s;7*0*1*0000000000000001\">2</a>"),
    },
    Visit {
        path: FIRST,
        answer: "((n \"2\"))",
        told: Told::Page("<a href=\"/servlets/s;7*0*2*0000000000000002\">2</a>"),
    },
    Visit {
        path: FIRST,
        answer: "((n \"3\"))",
        told: Told::Page("<a href=\"/servlets/s;7*0*3*0000000000000003\">2</a>"),
    },
];

// What is told of the second and of the third.
const LEFT: &[Visit] = &[
    Visit {
        path: "/servlets/s;7*0*1*0000000000000001",
        answer: "((n \"4\"))",
        told: Told::Gone(3),
    },
    Visit {
        path: "/servlets/s;7*0*2*0000000000000002",
        answer: "((n \"4\"))",
        told: Told::Last("<p>6</p>"),
    },
];

// The shelf of these files, of whose instances three pages are kept.
fn few_on(alloc: Global, files: &Files, setup: &Setup) -> Result<MemoryShelf, Fail>
    requires { IsReadSetup (scripts_of setup.now) }
    ensures { IfOk result (IsInOrder trio_view true) }
{
    match tried_under(alloc, disks_of(alloc, files, None)?, setup, FEW_PAGES)? {
        Ok(shelf) => Ok(shelf),
        Err(_) => Err(Fail::from("no shelf")),
    }
}

// Shows four pages, of which one gives way, and compacts the file.
fn evict(alloc: Global, shelf: &mut MemoryShelf) -> Result<(), Fail>
    requires { IsInOrder trio_view true shelf.old }
    ensures { IsInOrder trio_view true shelf.new }
{
    expect_visits(alloc, shelf, FOUR)?;
    let _length = compacted(alloc, shelf)?;
    Ok(())
}

// What stands on the disks of a shelf of these files after that.
fn evicted(alloc: Global, files: &Files, setup: &Setup) -> Result<Files, Fail>
    requires { IsReadSetup (scripts_of setup.now) }
{
    let mut shelf = few_on(alloc, files, setup)?;
    evict(alloc, &mut shelf)?;
    files_of(alloc, shelf)
}

// Refuses files on which another page gave way.
fn expect_left(alloc: Global, files: &Files, setup: &Setup) -> Result<(), Fail>
    requires { IsReadSetup (scripts_of setup.now) }
{
    let mut shelf = few_on(alloc, files, setup)?;
    let told = expect_visits(alloc, &mut shelf, LEFT);
    put_away(shelf);
    told
}

#[test]
fn a_page_that_gave_way_stays_gone(rt: HostRuntime) -> Result<(), Fail> {
    let alloc = rt.alloc();
    let setup = setup(alloc, &[("s", SUM)])?;
    let none = files_of(alloc, created(alloc, &setup)?)?;
    let files = evicted(alloc, &none, &setup)?;
    expect_left(alloc, &files, &setup)
}

// A record of an answer to a page that is not there, which is passed over; with it 51 is drawn next.
const PASSED: &[u8] =
    b"\x03\x32\0\0\0\0\0\0\0\x09\0\0\0\0\0\0\0\x09\0\0\0\0\0\0\0\x05\0\0\0\0\0\0\0\0\0\0\0\0";

// These files, the first of which has such a record after its others.
fn with_passed(alloc: Global, files: &Files) -> Result<Files, Fail> {
    let mut a = files.a.as_slice().to_vec(alloc)?;
    let _gate = a.pop();
    a.push(1)?;
    a.extend_from_slice(&(PASSED.len() as u32).to_le_bytes())?;
    a.extend_from_slice(PASSED)?;
    a.push(0)?;
    Ok(Files {
        a,
        b: Vec::new(alloc),
        root: Vec::new(alloc),
    })
}

// What stands on the disks of a shelf of these files and of such a record, after a compaction.
fn dropped(alloc: Global, setup: &Setup, files: &Files) -> Result<Files, Fail>
    requires { IsReadSetup (scripts_of setup.now) }
{
    let more = with_passed(alloc, files)?;
    compacted_once(alloc, setup, &more)
}

// How long the compacted files are, without such a record and with it.
fn lengths(alloc: Global, setup: &Setup) -> Result<(usize, usize), Fail>
    requires { IsReadSetup (scripts_of setup.now) }
{
    let files = both(alloc, setup)?;
    let without = compacted_once(alloc, setup, &files)?;
    let with = dropped(alloc, setup, &files)?;
    Ok((without.b.len(), with.b.len()))
}

#[test]
fn what_is_passed_over_goes(rt: HostRuntime) -> Result<(), Fail> {
    let alloc = rt.alloc();
    let setup = setup(alloc, &[("s", SUM)])?;
    let (without, with) = lengths(alloc, &setup)?;
    assert_eq!(rt; without, with);
    Ok(())
}

// The number that is drawn next on the shelf of these files.
fn drawn(alloc: Global, setup: &Setup, files: &Files) -> Result<u64, Fail>
    requires { IsReadSetup (scripts_of setup.now) }
{
    let shelf = reopened(alloc, files, setup)?;
    let drawn = shelf.book().drawn();
    put_away(shelf);
    Ok(drawn)
}

#[test]
fn the_number_of_what_is_passed_over_is_told(rt: HostRuntime) -> Result<(), Fail> {
    let alloc = rt.alloc();
    let setup = setup(alloc, &[("s", SUM)])?;
    let files = dropped(alloc, &setup, &both(alloc, &setup)?)?;
    assert_eq!(rt; drawn(alloc, &setup, &files)?, 51);
    expect_files(alloc, &setup, &files)
}
