ghost use Rattle.std.specs.Prelude.{◌≡◌, ◌≤◌, length, IfOk};
ghost use Rattle.shelf.specs.Ranges.{AreInRange, numbered};
ghost use Rattle.site.specs.Beginnings.{AreNew, IsReady};

use crate::setups::{TALLY_AND_PATH, setup};
use crate::sites::{MemoryDisks, MemorySite};
use disk_trio::Disks;
use journal_records::can_begin;
use shelf::Rules;
use site::{Site, SiteFault};
use std::alloc::Global;
use std::sync::Wait;
use std::test::Fail;
use web_disk::MemoryDisk;
use web_outside::Counting;

// The limits of so many shelves.
fn rules(shelves: u32) -> Rules
    requires { (1 ≤ shelves) × (shelves ≤ 16) }
    ensures range { AreInRange (numbered result 0) }
    ensures shelves { result.shelves ≡ shelves }
{
    Rules {
        number: 0,
        shelves,
        fuel: 100_000,
        life: 3_600,
        instances: 64,
        pages: 1_024,
    }
}

fn empty(alloc: Global) -> Result<MemoryDisk, Fail> {
    Ok(MemoryDisk::new(alloc, Vec::new(alloc), Vec::new(alloc))?)
}

// The empty disks of so many shelves, and as many sources of nonces.
fn outside(alloc: Global, shelves: u32) -> Result<(Vec<MemoryDisks>, Vec<Counting>), Fail>
    ensures disks { IfOk result (λ r. length r.0.items ≡ shelves) }
    ensures sources { IfOk result (λ r. length r.1.items ≡ shelves) }
    ensures fresh { IfOk result (λ r. AreNew r.0.items) }
{
    let mut disks = Vec::new(alloc);
    let mut sources = Vec::new(alloc);
    for shelf in 0..shelves {
        let _ = shelf;
        disks.push(Disks::new(empty(alloc)?, empty(alloc)?, empty(alloc)?))?;
        sources.push(Counting::new())?;
    }
    Ok((disks, sources))
}

/// The site of so many shelves, on empty disks.
#[tactic(auto, using(crate::proofs::Written::all_begin))]
pub fn begun<R: Wait>(rt: &R, alloc: Global, shelves: u32) -> Result<MemorySite, Fail>
    requires { (1 ≤ shelves) × (shelves ≤ 16) }
    ensures { IfOk result IsReady }
{
    let setup = setup(alloc, TALLY_AND_PATH)?;
    if !can_begin(0, &setup) {
        return Err(Fail::from("no journal can begin"));
    }
    let (disks, sources) = outside(alloc, shelves)?;
    match Site::begin(rt, alloc, setup, disks, sources, rules(shelves)) {
        Ok(site) => Ok(site),
        Err(SiteFault { fault, .. }) => Err(Fail::from(fault)),
    }
}
