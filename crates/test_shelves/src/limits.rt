//! Shelves that are opened again under other limits.
ghost use Rattle.std.specs.Prelude.{true};
ghost use Rattle.script_nodes.specs.Views.{scripts_of};
ghost use Rattle.setup_reader.specs.Texts.{IsReadSetup};
ghost use Rattle.disk_trio.specs.Trio.{trio_view};
ghost use Rattle.shelf.specs.Views.{IsInOrder};

use crate::openings::{
    MemoryShelf, answered, bytes_of, created, disks_of, put_away, reopened, reopened_under,
    tried_under,
};
use crate::setups::{FIRST, START};
use crate::texts::{datum, setup};
use script_nodes::Setup;
use script_value::{Refusal, Reply};
use shelf::{BeginFault, Rules};
use std::alloc::Global;
use std::test::Fail;

// The shelf 7, with at most three pages of an instance.
const FEW_PAGES: Rules = Rules {
    number: 7,
    shelves: 8,
    fuel: 100_000,
    life: 3_600,
    instances: 256,
    pages: 3,
};

// The shelf 6, with as many pages as are kept in the other tests.
const ANOTHER_SHELF: Rules = Rules {
    number: 6,
    shelves: 8,
    fuel: 100_000,
    life: 3_600,
    instances: 256,
    pages: 64,
};

const SCRIPT: &str =
    "(begin (send/suspend (lambda (u) \"a\")) (send/suspend (lambda (u) \"b\")) '(p \"c\"))";

// A page, and for which other one it went; none where it is still there.
struct Later {
    path: &'static str,
    gone_for: Option<u64>,
}

const SECOND: &str = "/servlets/s;7*0*1*0000000000000001";

// The pages that the visits 1, 2, 3 and 5 showed, after another answer to the first page where at most three are kept.
const LATER: &[Later] = &[
    Later {
        path: SECOND,
        gone_for: Some(6),
    },
    Later {
        path: "/servlets/s;7*0*2*0000000000000002",
        gone_for: Some(6),
    },
    Later {
        path: "/servlets/s;7*0*3*0000000000000003",
        gone_for: Some(6),
    },
    Later {
        path: "/servlets/s;7*0*5*0000000000000005",
        gone_for: None,
    },
];

// A start and five answers, by which the pages 2, 3, 1, 0 and 5 were used last, in this order.
const VISITS: &[&str] = &[START, FIRST, FIRST, FIRST, SECOND, FIRST];

// How a record tells that the pages 2, 3 and 1 go.
const GONE: &[u8] = &[
    3, 0, 0, 0, 2, 0, 0, 0, 0, 0, 0, 0, 3, 0, 0, 0, 0, 0, 0, 0, 1, 0, 0, 0, 0, 0, 0, 0,
];

// Why the shelf 6 is not opened on a disk of these bytes.
fn refused(alloc: Global, bytes: Vec<u8>, setup: &Setup) -> Result<BeginFault, Fail>
    requires { IsReadSetup (scripts_of setup.now) }
{
    match tried_under(alloc, disks_of(alloc, bytes)?, setup, ANOTHER_SHELF)? {
        Ok(shelf) => {
            put_away(shelf);
            Err(Fail::from("opened"))
        }
        Err((fault, _disks)) => Ok(fault),
    }
}

// For which page the one that was answered went; none where it is still there.
fn gone_for(reply: &Reply) -> Result<Option<u64>, Fail> {
    match reply {
        Reply::Page { .. } | Reply::Ended(_) => Ok(None),
        Reply::Refused(Refusal::Evicted(page)) => Ok(Some(*page)),
        _ => Err(Fail::from("another reply")),
    }
}

// For which page the page of a path went; none where it is still there.
fn gone(alloc: Global, shelf: &mut MemoryShelf, path: &str) -> Result<Option<u64>, Fail>
    requires { IsInOrder trio_view true shelf.old }
    ensures { IsInOrder trio_view true shelf.new }
{
    let reply = answered(alloc, shelf, path, datum(alloc, "()")?)?;
    gone_for(&reply)
}

// Refuses a shelf on which other later pages went, or for another page.
fn expect_gone(alloc: Global, shelf: &mut MemoryShelf) -> Result<(), Fail>
    requires { IsInOrder trio_view true shelf.old }
{
    'pages: for page in LATER {
        if gone(alloc, shelf, page.path)? != page.gone_for {
            return Err(Fail::from("another page went"));
        }
    }
    Ok(())
}

// Refuses a shelf on which a page is gone at one of the visits.
fn visit_all(alloc: Global, shelf: &mut MemoryShelf) -> Result<(), Fail>
    requires { IsInOrder trio_view true shelf.old }
{
    'visits: for path in VISITS {
        if gone(alloc, shelf, path)?.is_some() {
            return Err(Fail::from("a page went early"));
        }
    }
    Ok(())
}

// What stands on the disk of a new shelf after the visits, under a limit of 64 pages, which none of them reaches.
fn visited(alloc: Global, setup: &Setup) -> Result<Vec<u8>, Fail>
    requires { IsReadSetup (scripts_of setup.now) }
{
    let mut shelf = created(alloc, setup)?;
    visit_all(alloc, &mut shelf)?;
    bytes_of(alloc, shelf)
}

// Refuses a shelf on which the later pages do not go at another answer to the first one.
fn expect_evicted(alloc: Global, shelf: &mut MemoryShelf) -> Result<(), Fail>
    requires { IsInOrder trio_view true shelf.old }
{
    if gone(alloc, shelf, FIRST)?.is_some() {
        return Err(Fail::from("the first page went"));
    }
    expect_gone(alloc, shelf)
}

// What stands on the disk where from then on at most three pages are kept, and the first one is answered again.
fn lowered(alloc: Global, setup: &Setup) -> Result<Vec<u8>, Fail>
    requires { IsReadSetup (scripts_of setup.now) }
{
    let mut shelf = reopened_under(alloc, visited(alloc, setup)?, setup, FEW_PAGES)?;
    expect_evicted(alloc, &mut shelf)?;
    bytes_of(alloc, shelf)
}

// Refuses a disk of these bytes on which other later pages went.
fn expect_gone_on(alloc: Global, bytes: Vec<u8>, setup: &Setup) -> Result<(), Fail>
    requires { IsReadSetup (scripts_of setup.now) }
{
    let mut shelf = reopened(alloc, bytes, setup)?;
    let pages = expect_gone(alloc, &mut shelf);
    put_away(shelf);
    pages
}

// Whether these bytes stand somewhere on a disk.
fn stand_on(bytes: &[u8], wanted: &[u8]) -> bool {
    for place in 0..bytes.len() {
        if bytes[place..].starts_with(wanted) {
            return true;
        }
    }
    false
}

// An instance has five pages where at most three are kept from now on: for the next one those go that were used least.
#[test]
fn a_lower_limit_evicts_several_pages_at_once(rt: HostRuntime) -> Result<(), Fail> {
    let alloc = rt.alloc();
    let setup = setup(alloc, &[("s", SCRIPT)])?;
    let bytes = lowered(alloc, &setup)?;
    assert!(rt; stand_on(&bytes, GONE));
    expect_gone_on(alloc, bytes, &setup)
}

#[test]
fn a_journal_is_of_one_shelf(rt: HostRuntime) -> Result<(), Fail> {
    let alloc = rt.alloc();
    let setup = setup(alloc, &[("s", SCRIPT)])?;
    let bytes = visited(alloc, &setup)?;
    assert_eq!(rt;
        refused(alloc, bytes, &setup)?,
        BeginFault::Other { place: 8 }
    );
    Ok(())
}
