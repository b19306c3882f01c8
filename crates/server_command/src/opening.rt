ghost use Rattle.std.specs.Prelude.{◌&&◌, ◌≡◌, ◌≤◌, ◌<◌, ◌+◌, length, Some, IsTrue, IfOk, IfErr, OnErr};
ghost use Rattle.disk_trio.specs.Trio.{trio_view};
ghost use Rattle.trio_rack.specs.Each.{GivesEach};
ghost use Rattle.trio_rack.specs.Trios.{KeepsHome, LeavesAllDisks};
ghost use Rattle.script_nodes.specs.Views.{scripts_of};
ghost use Rattle.server_limits.specs.Limits.{most_shelves};
ghost use Rattle.setup_reader.specs.Texts.{IsReadSetup};
ghost use Rattle.site_serving.specs.Shelves as shelves;
ghost use Rattle.site_serving.specs.Shelves.{AreNew, IsReady};
ghost use Rattle.command_words.specs.Plain.{AreInRange};
ghost use Rattle.server_command.specs.Calls.{HasTakenAll, OpensSite, RefusesFor};
ghost use Rattle.server_command.specs.Opening.{AreAsked, AreFrom, AreGiven, AsksAsTaken, FailsAt, AreRulesFor, AreUntaken, CanBegin, TakesBack, unopened_by};

use command_words::Options;
use disk_trio::Disks;
use play_desk::{OpenFault, why_not};
use play_steps::Reopen;
use script_nodes::Setup;
use site_serving::{BeginFault, Rules, Site, SiteFault};
use std::alloc::Global;
use std::sync::Wait;
use trio_rack::{give_trio, take_trio};
use web_disk::{Disk, Rack, RackFault};
use web_outside::Nonces;

// What a fault of the opening of this shelf is told as.
fn why_unopened(shelf: u32, fault: BeginFault) -> OpenFault
    ensures { result ≡ unopened_by shelf fault }
{
    OpenFault {
        shelf,
        why: why_not(fault),
    }
}

/// The rules of the shelf of this number.
pub fn rules_of(options: &Options, number: u32) -> Rules
    requires range { AreInRange options.now }
    requires number { number < options.now.shelves }
    ensures in_range { shelves.AreInRange result }
    ensures number { result.number ≡ number }
    ensures rules { AreRulesFor options.now number result }
    ensures asked { AreAsked options.now result }
{
    Rules {
        number,
        shelves: options.shelves,
        fuel: options.fuel,
        life: options.life,
        instances: options.instances,
        pages: options.pages,
    }
}

/// Gives back the disks of shelves, of which those of place 0 are of shelf 0. Their faults count as the rack's.
pub fn give_all<D: Disk, R: Rack<D>>(rack: &mut R, disks: Vec<Disks<D>>)
    requires few { length disks.items ≤ most_shelves }
    ensures back { TakesBack (R.view rack.old) (R.view rack.new) 0 (length disks.items) }
    ensures given { AreGiven trio_view (IsTrue (R.tells && D.tells))
        (R.view rack.old) (R.view rack.new) disks.items }
    ensures each { IsTrue R.tells → GivesEach (R.view rack.old) (R.view rack.new) disks.items }
{
    let mut disks = disks;
    // A count is below 2^64, so it does not fall where that of a disk is added.
    let _count = rack.faults();
    'giving: while let Some(three) = disks.pop() {
        give_trio(rack, disks.len() as u32, three);
    }
    disks.destroy_empty();
}

// Takes the disks of so many shelves, from 0 on.
fn take_all<D: Disk, R: Rack<D>>(
    alloc: Global,
    rack: &mut R,
    directory: &str,
    count: u32,
) -> Result<Vec<Disks<D>>, OpenFault>
    requires { count ≤ most_shelves }
    ensures taken { IfOk result
        (HasTakenAll D.Disk R.view R.tells rack.old rack.new count) }
    ensures fresh { IfOk result (λ disks. AreNew disks.items) }
    ensures from { IsTrue R.tells →
        IfOk result (λ disks. AreFrom trio_view (R.view rack.old) disks.items) }
    ensures unwritten { IsTrue R.tells →
        OnErr result (LeavesAllDisks (R.view rack.old) (R.view rack.new)) }
    ensures home { OnErr result (KeepsHome (R.view rack.old) (R.view rack.new)) }
    ensures refused { IfErr result
        (AreUntaken (FailsAt count (R.view rack.old) (R.view rack.new))) }
    ensures asked { IfErr result (λ f.
        AsksAsTaken (R.view rack.old) (R.view rack.new) count f.shelf f.why) }
    ensures later { (R.view rack.old).faults ≤ (R.view rack.new).faults }
{
    let Ok(mut disks) = Vec::with_capacity(alloc, count as usize) else {
        return Err(OpenFault {
            shelf: 0,
            why: Reopen::Memory,
        });
    };
    'taking: for number in 0..count {
        match take_trio(rack, alloc, directory, number) {
            Ok(three) => disks.push_reserved(three),
            Err(fault) => {
                give_all(rack, disks);
                let why = match fault {
                    RackFault::Failed => Reopen::Disk,
                    RackFault::Memory => Reopen::Memory,
                };
                return Err(OpenFault { shelf: number, why });
            }
        }
    }
    Ok(disks)
}

/// Opens a site with this setup on the disks of a directory, three for each shelf, with a source of nonces for each. All disks are taken first;
/// where a shelf is not opened, all are given back.
pub fn open_site<W: Wait, D: Disk, R: Rack<D>, N: Nonces + Drop>(
    rt: &W,
    alloc: Global,
    rack: &mut R,
    sources: Vec<N>,
    setup: Setup,
    options: &Options,
) -> Result<Site<Disks<D>, N>, OpenFault>
    requires range { AreInRange options.now }
    requires read { IsReadSetup (scripts_of setup) }
    requires begins { CanBegin options.now.shelves (scripts_of setup) }
    requires sources { length sources.items ≡ options.now.shelves }
    ensures opened { IfOk result (OpensSite D.Disk R.view R.tells
        N.nonce options.now setup sources rack.old rack.new) }
    ensures count { IfOk result (λ site. length site.row.homes ≡ options.now.shelves) }
    ensures ready { IfOk result IsReady }
    ensures refused { IfErr result (RefusesFor R.view (R.tells && D.tells) setup
        options.now.shelves rack.old rack.new) }
    ensures later { (R.view rack.old).faults ≤ (R.view rack.new).faults }
{
    let rules = rules_of(options, 0);
    let disks = take_all(alloc, rack, options.journal.as_str(), options.shelves)?;
    match Site::begin(rt, alloc, setup, disks, sources, rules) {
        Ok(site) => Ok(site),
        Err(
            SiteFault {
                shelf,
                fault,
                disks,
                nonces,
            },
        ) => {
            drop(nonces);
            give_all(rack, disks);
            Err(why_unopened(shelf, fault))
        }
    }
}
