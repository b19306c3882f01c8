//! Shelves whose disk stops, or fails once, at each of its calls, and which are opened again after a crash.
ghost use Rattle.std.specs.Prelude.{true};
ghost use Rattle.script_nodes.specs.Views.{scripts_of};
ghost use Rattle.setup_reader.specs.Texts.{IsReadSetup};
ghost use Rattle.disk_trio.specs.Trio.{trio_view};
ghost use Rattle.shelf.specs.Views.{IsInOrder};

use crate::openings::{MemoryShelf, answered, bytes_of, created, put_away, reopened};
use crate::texts::{SUM, datum, setup, text_of};
use crate::troubles::{Trouble, WRECKS, left_by, left_by_opening, opened_despite, troubled};
use disk_trio::Disks;
use script_nodes::Setup;
use script_value::{Bytes, Refusal, Reply};
use std::alloc::Global;
use std::test::Fail;
use web_disk::{MemoryDisk, Wreck};

// A visit of a run: what is asked, and the page that it is told.
struct Visit {
    path: &'static str,
    answer: &'static str,
    page: &'static str,
}

// A page that a visit of this place showed, and what comes of it in the end where it is answered with 1 until then.
struct Shown {
    visit: u64,
    path: &'static str,
    end: &'static str,
}

const FIRST: &str = "/servlets/s;7*0*0*0000000000000000";

const SECOND: &str = "/servlets/s;7*0*1*0000000000000001";

const THIRD: &str = "/servlets/s;7*0*3*0000000000000003";

// A start and seven answers, with pages that are answered again.
const VISITS: &[Visit] = &[
    Visit {
        path: "/servlets/s",
        answer: "()",
        page: "<a href=\"/servlets/s;7*0*0*0000000000000000\">1</a>",
    },
    Visit {
        path: FIRST,
        answer: "((n \"3\"))",
        page: "<a href=\"/servlets/s;7*0*1*0000000000000001\">2</a>",
    },
    Visit {
        path: SECOND,
        answer: "((n \"4\"))",
        page: "<p>7</p>",
    },
    Visit {
        path: FIRST,
        answer: "((n \"10\"))",
        page: "<a href=\"/servlets/s;7*0*3*0000000000000003\">2</a>",
    },
    Visit {
        path: THIRD,
        answer: "((n \"4\"))",
        page: "<p>14</p>",
    },
    Visit {
        path: SECOND,
        answer: "((n \"1\"))",
        page: "<p>4</p>",
    },
    Visit {
        path: FIRST,
        answer: "((n \"3\"))",
        page: "<a href=\"/servlets/s;7*0*6*0000000000000006\">2</a>",
    },
    Visit {
        path: FIRST,
        answer: "((n \"3\"))",
        page: "<a href=\"/servlets/s;7*0*7*0000000000000007\">2</a>",
    },
];

// Each page of these visits that can be answered.
const SHOWN: &[Shown] = &[
    Shown {
        visit: 0,
        path: FIRST,
        end: "<p>2</p>",
    },
    Shown {
        visit: 1,
        path: SECOND,
        end: "<p>4</p>",
    },
    Shown {
        visit: 3,
        path: THIRD,
        end: "<p>11</p>",
    },
    Shown {
        visit: 6,
        path: "/servlets/s;7*0*6*0000000000000006",
        end: "<p>4</p>",
    },
    Shown {
        visit: 7,
        path: "/servlets/s;7*0*7*0000000000000007",
        end: "<p>4</p>",
    },
];

// After so many calls of its disk a run of these visits has come to its end.
const MOST_CALLS: u64 = 48;

// Refuses a shelf that is not down.
fn expect_down(alloc: Global, shelf: &mut MemoryShelf) -> Result<(), Fail>
    requires { IsInOrder trio_view true shelf.old }
{
    'visits: for visit in VISITS {
        match answered(alloc, shelf, visit.path, datum(alloc, visit.answer)?)? {
            Reply::Down(1) => {}
            _ => return Err(Fail::from("a visit of a shelf that is down")),
        }
    }
    match shelf.sweep(alloc, 50) {
        Err(Reply::Down(1)) => Ok(()),
        _ => Err(Fail::from("a sweep of a shelf that is down")),
    }
}

// Refuses another page than this.
fn expect_page(told: &Bytes, page: &str) -> Result<(), Fail> {
    if text_of(told)? == page {
        return Ok(());
    }
    Err(Fail::from("another page"))
}

// Whether a visit is told its page; else the disk failed at it.
fn is_told(reply: &Reply, page: &str) -> Result<bool, Fail> {
    match reply {
        Reply::Page { bytes, .. } | Reply::Ended(bytes) => {
            expect_page(bytes, page)?;
            Ok(true)
        }
        Reply::DiskFault(1) => Ok(false),
        _ => Err(Fail::from("another reply")),
    }
}

// How many of the visits are told, up to one at which the disk fails: from then on the shelf is down.
fn visits_told(alloc: Global, shelf: &mut MemoryShelf) -> Result<usize, Fail>
    requires { IsInOrder trio_view true shelf.old }
{
    'visits: for (place, visit) in VISITS.iter().enumerate() {
        let reply = answered(alloc, shelf, visit.path, datum(alloc, visit.answer)?)?;
        if !is_told(&reply, visit.page)? {
            expect_down(alloc, shelf)?;
            return Ok(place);
        }
    }
    Ok(VISITS.len())
}

// What disks whose first has these bytes are after a run on them, and how many visits were told.
fn ran(
    alloc: Global,
    setup: &Setup,
    bytes: &[u8],
    trouble: Trouble,
) -> Result<(Disks<MemoryDisk>, usize), Fail>
    requires { IsReadSetup (scripts_of setup.now) }
{
    match opened_despite(alloc, setup, troubled(alloc, bytes, trouble)?)? {
        Ok(mut shelf) => {
            let told = visits_told(alloc, &mut shelf)?;
            let (disks, _nonces) = shelf.close();
            Ok((disks, told))
        }
        Err(disks) => Ok((disks, 0)),
    }
}

// What comes of a page in the end that is answered with 1 until then.
fn end_of(alloc: Global, shelf: &mut MemoryShelf, path: &str) -> Result<Reply, Fail>
    requires { IsInOrder trio_view true shelf.old }
    ensures { IsInOrder trio_view true shelf.new }
{
    match answered(alloc, shelf, path, datum(alloc, "((n \"1\"))")?)? {
        Reply::Page { url, .. } => {
            let path = text_of(&url)?;
            answered(alloc, shelf, path, datum(alloc, "((n \"1\"))")?)
        }
        reply => Ok(reply),
    }
}

// Whether a page goes on to its end; else it is unknown.
fn goes_on(alloc: Global, shelf: &mut MemoryShelf, page: &Shown) -> Result<bool, Fail>
    requires { IsInOrder trio_view true shelf.old }
    ensures { IsInOrder trio_view true shelf.new }
{
    match end_of(alloc, shelf, page.path)? {
        Reply::Ended(told) => {
            expect_page(&told, page.end)?;
            Ok(true)
        }
        Reply::Refused(Refusal::Unknown) => Ok(false),
        _ => Err(Fail::from("a page does not go on")),
    }
}

// Refuses a shelf on which other pages go on than those that so many visits showed.
fn expect_pages(alloc: Global, shelf: &mut MemoryShelf, visits: u64) -> Result<(), Fail>
    requires { IsInOrder trio_view true shelf.old }
{
    'pages: for page in SHOWN {
        if goes_on(alloc, shelf, page)? != (page.visit < visits) {
            return Err(Fail::from("a visit is there in part"));
        }
    }
    Ok(())
}

// How many visits a shelf tells of: the pages that these showed go on, and no others.
fn visits_in(alloc: Global, shelf: &mut MemoryShelf) -> Result<u64, Fail>
    requires { IsInOrder trio_view true shelf.old }
{
    let visits = shelf.book().drawn();
    if (shelf.live() == 1) != (visits > 0) {
        return Err(Fail::from("another count of instances"));
    }
    expect_pages(alloc, shelf, visits)?;
    Ok(visits)
}

// How many visits the shelf of a disk of these bytes tells of.
fn visits_of(alloc: Global, setup: &Setup, bytes: &[u8]) -> Result<u64, Fail>
    requires { IsReadSetup (scripts_of setup.now) }
{
    let mut shelf = reopened(alloc, bytes.to_vec(alloc)?, setup)?;
    let visits = visits_in(alloc, &mut shelf);
    put_away(shelf);
    visits
}

// How many visits more than were told a crash after such a run leaves. They are still there after crashes of two openings
// that stop at the same call.
fn more_than_told(
    alloc: Global,
    setup: &Setup,
    bytes: &[u8],
    trouble: Trouble,
    wreck: Wreck,
) -> Result<u64, Fail>
    requires { IsReadSetup (scripts_of setup.now) }
{
    let (disks, told) = ran(alloc, setup, bytes, trouble)?;
    let left = left_by(disks, wreck);
    let kept = visits_of(alloc, setup, &left)?;
    for stop in trouble.stops() {
        let once = left_by_opening(alloc, setup, &left, Trouble::Stop(stop), wreck)?;
        let twice = left_by_opening(alloc, setup, &once, Trouble::Stop(stop), wreck)?;
        if visits_of(alloc, setup, &twice)? != kept {
            return Err(Fail::from("an opening that stops changes what is kept"));
        }
    }
    Ok(
        kept.checked_sub(told as u64)
            .ok_or("a visit that was told is gone")?,
    )
}

// How many visits more than were told these crashes after such a run leave, all together: one each at most.
fn in_doubt(alloc: Global, setup: &Setup, bytes: &[u8], trouble: Trouble) -> Result<u64, Fail>
    requires { IsReadSetup (scripts_of setup.now) }
{
    let mut visits: u64 = 0;
    for wreck in WRECKS {
        match more_than_told(alloc, setup, bytes, trouble, *wreck)? {
            0 => {}
            1 => visits = visits.saturating_add(1),
            _ => return Err(Fail::from("two visits were in doubt")),
        }
    }
    Ok(visits)
}

// What stands on the disk of a new shelf of this setup.
fn new_disk(alloc: Global, setup: &Setup) -> Result<Vec<u8>, Fail>
    requires { IsReadSetup (scripts_of setup.now) }
{
    let shelf = created(alloc, setup)?;
    bytes_of(alloc, shelf)
}

// A visit makes four calls: its record is written and synced, and then its gate, which alone tells whether it happened. So where
// the last sync is not made, it is there after the crash that loses nothing and the one that fills with open gates.
#[test]
fn a_run_that_stops_at_each_call_is_recovered(rt: HostRuntime) -> Result<(), Fail> {
    let alloc = rt.alloc();
    let setup = setup(alloc, &[("s", SUM)])?;
    let bytes = new_disk(alloc, &setup)?;
    let mut visits: u64 = 0;
    for stop in 0..MOST_CALLS {
        let more = in_doubt(alloc, &setup, &bytes, Trouble::Stop(stop))?;
        visits = visits.saturating_add(more);
    }
    assert_eq!(rt; visits, 16);
    let (_disks, told) = ran(alloc, &setup, &bytes, Trouble::Stop(MOST_CALLS))?;
    assert_eq!(rt; told, VISITS.len());
    Ok(())
}

// A visit whose last sync fails is there so too. And where the write of its gate fails, it is there after the crash that fills with open
// gates.
#[test]
fn a_run_with_a_fault_at_each_call_is_recovered(rt: HostRuntime) -> Result<(), Fail> {
    let alloc = rt.alloc();
    let setup = setup(alloc, &[("s", SUM)])?;
    let bytes = new_disk(alloc, &setup)?;
    let mut visits: u64 = 0;
    for call in 0..MOST_CALLS {
        let more = in_doubt(alloc, &setup, &bytes, Trouble::Fault(call))?;
        visits = visits.saturating_add(more);
    }
    assert_eq!(rt; visits, 24);
    Ok(())
}
