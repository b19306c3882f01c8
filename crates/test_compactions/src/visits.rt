//! Visits of a shelf, and what they are told.
ghost use Rattle.std.specs.Prelude.{true};
ghost use Rattle.disk_trio.specs.Trio.{trio_view};
ghost use Rattle.shelf.specs.Views.{IsInOrder};

use script_value::{Refusal, Reply};
use std::alloc::Global;
use std::test::Fail;
use test_shelves::{MemoryShelf, answered, datum, text_of};

/// What a visit is told.
#[derive(Clone, Copy)]
pub enum Told {
    /// A page that can be answered.
    Page(&'static str),
    /// A page without a name.
    Last(&'static str),
    /// A page with which the instance goes.
    Finished(&'static str),
    /// That the page went for the page of this number.
    Gone(u64),
    /// That the page is inside a transaction that is closed.
    Closed,
    /// That there is no such page.
    Unknown,
}

/// A visit of a path with an answer, and what it is told.
#[derive(Clone, Copy)]
pub struct Visit {
    pub path: &'static str,
    pub answer: &'static str,
    pub told: Told,
}

// Whether a reply tells just that.
fn tells(reply: &Reply, told: Told) -> Result<bool, Fail> {
    Ok(match (reply, told) {
        (Reply::Page { bytes, .. }, Told::Page(page)) => text_of(bytes)? == page,
        (Reply::Ended(bytes), Told::Last(page)) => text_of(bytes)? == page,
        (Reply::Finished(bytes), Told::Finished(page)) => text_of(bytes)? == page,
        (Reply::Refused(Refusal::Evicted(by)), Told::Gone(page)) => *by == page,
        (Reply::Refused(Refusal::Closed(_)), Told::Closed) => true,
        (Reply::Refused(Refusal::Unknown), Told::Unknown) => true,
        _ => false,
    })
}

/// Refuses a shelf that tells a visit something else.
pub fn expect_visit(alloc: Global, shelf: &mut MemoryShelf, visit: Visit) -> Result<(), Fail>
    requires { IsInOrder trio_view true shelf.old }
    ensures { IsInOrder trio_view true shelf.new }
{
    let reply = answered(alloc, shelf, visit.path, datum(alloc, visit.answer)?)?;
    if tells(&reply, visit.told)? {
        return Ok(());
    }
    Err(Fail::from(visit.path))
}

/// Refuses a shelf that tells one of these visits something else.
pub fn expect_visits(alloc: Global, shelf: &mut MemoryShelf, visits: &[Visit]) -> Result<(), Fail>
    requires { IsInOrder trio_view true shelf.old }
    ensures { IsInOrder trio_view true shelf.new }
{
    'visits: for visit in visits {
        expect_visit(alloc, shelf, *visit)?;
    }
    Ok(())
}

/// How long the file is that a compaction makes.
pub fn compacted(alloc: Global, shelf: &mut MemoryShelf) -> Result<u64, Fail>
    requires { IsInOrder trio_view true shelf.old }
    ensures { IsInOrder trio_view true shelf.new }
{
    match shelf.compact(alloc) {
        Ok(length) => Ok(length),
        Err(_) => Err(Fail::from("not compacted")),
    }
}

/// How many instances a sweep frees.
pub fn swept(alloc: Global, shelf: &mut MemoryShelf, tick: u64) -> Result<u32, Fail>
    requires in_order { IsInOrder trio_view true shelf.old }
    ensures { IsInOrder trio_view true shelf.new }
{
    if tick >= 4_000_000 {
        return Err(Fail::from("a late tick"));
    }
    match shelf.sweep(alloc, tick) {
        Ok(freed) => Ok(freed),
        Err(_) => Err(Fail::from("not swept")),
    }
}
