ghost use Rattle.std.specs.Prelude.{◌≡◌, false, length, IfOk};
ghost use Rattle.script_nodes.specs.Views.{scripts_of};
ghost use Rattle.setup_reader.specs.Texts.{IsReadSetup};
ghost use Rattle.site.specs.Beginnings.{AreNew, CanBegin, IsReady};

use crate::setups::{EMPTY_SHOP_AND_NOTE, SHOP_AND_NOTE, setup};
use disk_trio::Disks;
use journal_records::can_begin;
use script_nodes::Setup;
use shelf::Rules;
use site::{Site, SiteFault};
use std::alloc::Global;
use std::sync::Wait;
use std::test::Fail;
use web_disk::MemoryDisk;
use web_outside::{Counting, Nonces};

/// The three disks of a shelf, in memory.
pub type MemoryDisks = Disks<MemoryDisk>;

/// A site on disks in memory.
pub type MemorySite = Site<MemoryDisks, Counting>;

/// Why one was not begun, and what it was given.
pub type MemoryFault = SiteFault<MemoryDisks, Counting>;

const RULES: Rules = Rules {
    number: 0,
    shelves: 2,
    fuel: 100_000,
    life: 3_600,
    instances: 256,
    pages: 64,
};

// An empty disk, whose calls of these numbers fail.
fn disk(alloc: Global, failing: &[u64]) -> Result<MemoryDisk, Fail> {
    Ok(MemoryDisk::new(alloc, Vec::new(alloc), failing.to_vec(alloc)?)?)
}

// Three empty disks, whose root fails at the calls of these numbers.
fn trio(alloc: Global, failing: &[u64]) -> Result<MemoryDisks, Fail>
    ensures { IfOk result (λ d. d.known ≡ false) }
{
    Ok(Disks::new(disk(alloc, &[])?, disk(alloc, &[])?, disk(alloc, failing)?))
}

/// The empty disks of two shelves, of which those of the second fail at the calls of these numbers of their root.
pub fn disks(alloc: Global, failing: &[u64]) -> Result<Vec<MemoryDisks>, Fail>
    ensures many { IfOk result (λ v. length v.items ≡ 2) }
    ensures fresh { IfOk result (λ v. AreNew v.items) }
{
    let mut disks = Vec::new(alloc);
    disks.push(trio(alloc, &[])?)?;
    disks.push(trio(alloc, failing)?)?;
    Ok(disks)
}

/// The disks of two shelves as they were handed back, to be opened again.
pub fn renewed(alloc: Global, disks: Vec<MemoryDisks>) -> Result<Vec<MemoryDisks>, Fail>
    ensures many { IfOk result (λ v. length v.items ≡ 2) }
    ensures fresh { IfOk result (λ v. AreNew v.items) }
{
    let mut disks = disks;
    let (Some(second), Some(first), None) = (disks.pop(), disks.pop(), disks.pop()) else {
        return Err(Fail::from("not two shelves"));
    };
    let mut fresh = Vec::new(alloc);
    fresh.push(first.renew())?;
    fresh.push(second.renew())?;
    Ok(fresh)
}

/// Two sources of nonces, of which the second has given one.
pub fn sources(alloc: Global) -> Result<Vec<Counting>, Fail>
    ensures { IfOk result (λ v. length v.items ≡ 2) }
{
    let first = Counting::new();
    let mut second = first;
    let _ = second.next();
    let mut sources = Vec::new(alloc);
    sources.push(first)?;
    sources.push(second)?;
    Ok(sources)
}

// A setup of these scripts, with which two journals can begin.
#[tactic(auto, using(crate::proofs::Written::all_begin))]
fn read(alloc: Global, scripts: &[(&str, &str)]) -> Result<Setup, Fail>
    ensures read { IfOk result (λ setup. IsReadSetup (scripts_of setup)) }
    ensures begins { IfOk result (λ setup. CanBegin (scripts_of setup) 2) }
{
    let setup = setup(alloc, scripts)?;
    if !can_begin(0, &setup) {
        return Err(Fail::from("no setup of two shelves"));
    }
    Ok(setup)
}

/// A setup with which two journals can begin.
pub fn written(alloc: Global) -> Result<Setup, Fail>
    ensures read { IfOk result (λ setup. IsReadSetup (scripts_of setup)) }
    ensures begins { IfOk result (λ setup. CanBegin (scripts_of setup) 2) }
{
    read(alloc, SHOP_AND_NOTE)
}

/// One whose shop was changed.
pub fn rewritten(alloc: Global) -> Result<Setup, Fail>
    ensures read { IfOk result (λ setup. IsReadSetup (scripts_of setup)) }
    ensures begins { IfOk result (λ setup. CanBegin (scripts_of setup) 2) }
{
    read(alloc, EMPTY_SHOP_AND_NOTE)
}

/// The site of two shelves of this setup, on these disks and with these sources.
pub fn opened<R: Wait>(
    rt: &R,
    alloc: Global,
    setup: Setup,
    disks: Vec<MemoryDisks>,
    sources: Vec<Counting>,
) -> Result<MemorySite, MemoryFault>
    requires disks { length disks.items ≡ 2 }
    requires fresh { AreNew disks.items }
    requires sources { length sources.items ≡ 2 }
    requires read { IsReadSetup (scripts_of setup) }
    requires begins { CanBegin (scripts_of setup) 2 }
    ensures { IfOk result IsReady }
{
    Site::begin(rt, alloc, setup, disks, sources, RULES)
}

/// The site of two shelves, on empty disks.
pub fn begun<R: Wait>(rt: &R, alloc: Global) -> Result<MemorySite, Fail>
    ensures { IfOk result IsReady }
{
    let setup = written(alloc)?;
    let disks = disks(alloc, &[])?;
    match opened(rt, alloc, setup, disks, sources(alloc)?) {
        Ok(site) => Ok(site),
        Err(SiteFault { fault, .. }) => Err(Fail::from(fault)),
    }
}
