//! A site under sixteen threads: what each visit was told is run again, in one thread, by the slow engine.
ghost use Rattle.std.specs.Prelude.{◌≤◌, All};
ghost use Rattle.site.specs.Sites.{IsOwn};

mod again;
mod notes;
mod orders;
mod sites;
mod visitors;

use crate::setups::{TALLY_AND_PATH, setup};
use crate::sites::MemorySite;
use again::run_again;
use notes::Note;
use sites::begun;
use std::alloc::Global;
use std::sync::Wait;
use std::test::Fail;
use std::thread::Threads;
use visitors::{TURNS, VISITORS, Visitor, visit_all, visitors_of};

/// How many rounds of visits there are after the starts.
const ROUNDS: u64 = 5;

// Puts what visitors noted after what was noted before.
fn gather(alloc: Global, visitors: &[Visitor], notes: &mut Vec<Note>) -> Result<(), Fail> {
    for visitor in visitors {
        visitor.end?;
        for note in visitor.notes.as_slice() {
            notes.push(note.try_clone(alloc)?)?;
        }
    }
    Ok(())
}

// What the visitors are told in their rounds, of which the first is their starts.
fn rounds<R: Threads + Wait + Sync>(
    rt: &R,
    alloc: Global,
    site: &MemorySite,
    visitors: &mut [Visitor],
) -> Result<Vec<Note>, Fail>
    requires { All (λ v. IsOwn site.now v.pass) visitors.old }
{
    let mut notes = Vec::new(alloc);
    for round in 0..=ROUNDS {
        visit_all(rt, alloc, site, visitors, &notes, round);
        gather(alloc, visitors, &mut notes)?;
    }
    Ok(notes)
}

// What sixteen visitors are told by a site of so many shelves, in 10,000 visits after their starts.
fn noted<R: Threads + Wait + Sync>(rt: &R, alloc: Global, shelves: u32) -> Result<Vec<Note>, Fail>
    requires { (1 ≤ shelves) × (shelves ≤ 16) }
{
    let mut site = begun(rt, alloc, shelves)?;
    let passes = site.passes(alloc, VISITORS)?;
    let mut visitors = visitors_of(alloc, &site, passes)?;
    rounds(rt, alloc, &site, &mut visitors)
}

// Whether that many visits were noted, each of which the slow engine tells as it was told.
fn are_told_again(alloc: Global, notes: &[Note]) -> Result<(), Fail> {
    let starts = 2 * VISITORS as usize;
    if notes.len() != starts + (ROUNDS * VISITORS as u64 * TURNS) as usize {
        return Err(Fail::from("not so many visits"));
    }
    run_again(alloc, &setup(alloc, TALLY_AND_PATH)?, notes)
}

// All visitors start on one shelf, and visit its instances and their pages at once.
#[test]
fn on_one_shelf_each_page_is_that_of_the_slow_engine(rt: HostRuntime) -> Result<(), Fail> {
    let alloc = rt.alloc();
    are_told_again(alloc, &noted(&rt, alloc, 1)?)
}

// Each visitor starts on a shelf of its own, and all visit all of them.
#[test]
fn on_sixteen_shelves_each_page_is_that_of_the_slow_engine(rt: HostRuntime) -> Result<(), Fail> {
    let alloc = rt.alloc();
    are_told_again(alloc, &noted(&rt, alloc, 16)?)
}
