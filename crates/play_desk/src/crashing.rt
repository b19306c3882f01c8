ghost use Rattle.std.specs.Prelude.{◌≡◌, ◌<◌, [], IsTrue, OnErr, OnOk, length};
ghost use Rattle.script_nodes.specs.Views.{scripts_of};
ghost use Rattle.disk_trio.specs.Trio.{trio_view};
ghost use Rattle.trio_rack.specs.Trios.{shelves_of};
ghost use Rattle.play_steps.specs.Rules.{StaysFirst};
ghost use Rattle.setup_reader.specs.Texts.{IsReadSetup};
ghost use Rattle.play_desk.specs.Asking.{HasAsked};
ghost use Rattle.play_desk.specs.Opening.{FailuresStay, IsNeverDamaged, IsNeverForBytes, IsNeverOther, IsPutBack, KeepsShelvesBut};
ghost use Rattle.play_desk.specs.Staff.{AreLow, HaveOwnNumbers, IsFit, IsHome, KeepsOwn};
ghost use Rattle.play_desk.specs.Failing.{FailsOf, FailsThere, FaultsRise, FaultsStay};
ghost use Rattle.play_desk.specs.Told.{CrashesOwn, LeavesAll, LeavesOwn, OutgrowsOwn};

use crate::desk_disks::put_all_back;
use crate::opening::{put_back, reopened};
use crate::staff::{Staff, lose_tickets, no_tickets};
use disk_trio::Disks;
use play_steps::Reopen;
use script_nodes::Setup;
use std::alloc::Global;
use std::mem;
use web_disk::{Disk, Rack};

// Lets the disks of the shelf at this place crash, and opens the shelf again with the setup on what is
// left there; its tickets are lost. A shelf that is not opened again stands there no longer, and its disks
// are in the rack.
fn reopen_at<F: Disk, R: Rack<F>>(
    alloc: Global,
    setup: &Setup,
    directory: &str,
    staff: &mut Staff<Disks<F>>,
    rack: &mut R,
    place: u32,
) -> Result<u32, Reopen>
    requires place { place < length staff.old.shelves.items }
    requires read { IsReadSetup (scripts_of setup.now) }
    requires fit { IsFit trio_view F.tells staff.old }
    requires home { IsHome staff.old.shelves.items (shelves_of (R.view rack.old)).out }
    ensures step { CrashesOwn trio_view R.tells F.tells
        setup.now staff.old place result staff.new }
    ensures count { OnOk result (length staff.new.shelves.items ≡ length staff.old.shelves.items) }
    ensures fit { OnOk result (IsFit trio_view F.tells staff.new) }
    ensures own { IsTrue R.tells → IsTrue F.tells →
        OnOk result (KeepsOwn trio_view F.tells staff.old staff.new) }
    ensures numbers { OnErr result (HaveOwnNumbers staff.new.shelves.items) }
    ensures low { OnErr result (AreLow staff.new.shelves.items) }
    ensures gone { OnErr result
        (IsPutBack staff.old.shelves.items place (shelves_of (R.view rack.new)).out) }
    ensures others { OnErr result
        (KeepsShelvesBut place staff.old.shelves.items staff.new.shelves.items) }
    ensures left { LeavesOwn trio_view R.tells F.tells
        setup.now staff.old place result (R.view rack.new) }
    ensures room { OutgrowsOwn trio_view R.tells F.tells
        setup.now staff.old place result (R.view rack.new) }
    ensures home { IsHome staff.new.shelves.items (shelves_of (R.view rack.new)).out }
    ensures bytes { IsNeverForBytes result }
    ensures damaged { IsTrue R.tells → IsTrue F.tells → IsNeverDamaged result }
    ensures other { IsTrue R.tells → IsTrue F.tells → IsNeverOther result }
    ensures disk { FaultsRise trio_view result
        (R.view rack.old) staff.old (R.view rack.new) staff.new }
    ensures here { FailsThere trio_view result
        staff.old place (R.view rack.old) (R.view rack.new) }
    ensures later { FaultsStay trio_view
        (R.view rack.old) staff.old (R.view rack.new) staff.new }
    ensures failed_later { FailuresStay (R.view rack.old) (R.view rack.new) }
    ensures asked { StaysFirst (HasAsked (R.view rack.old)) (HasAsked (R.view rack.new)) }
{
    let count = staff.shelves.len();
    let shelf = staff.shelves.remove(place as usize);
    let shelf = match reopened(alloc, setup, directory, rack, shelf) {
        Ok(shelf) => shelf,
        Err(why) => return Err(why),
    };
    let live = shelf.live();
    match staff.shelves.insert(place as usize, shelf) {
        Ok(()) => {
            lose_tickets(&mut staff.tickets, count, place as usize);
            Ok(live)
        }
        Err(refused) => {
            put_back(rack, refused.value);
            Err(Reopen::Memory)
        }
    }
}

/// Lets the disks of the shelf at this place crash, and opens the shelf again with the setup on what is left
/// there; its tickets are lost. Where it is not opened again, all shelves are closed, their disks go back to the
/// rack, and nobody holds a ticket.
pub fn crash<F: Disk, R: Rack<F>>(
    alloc: Global,
    setup: &Setup,
    directory: &str,
    staff: &mut Staff<Disks<F>>,
    rack: &mut R,
    place: u32,
) -> Result<u32, Reopen>
    requires place { place < length staff.old.shelves.items }
    requires read { IsReadSetup (scripts_of setup.now) }
    requires fit { IsFit trio_view F.tells staff.old }
    requires home { IsHome staff.old.shelves.items (shelves_of (R.view rack.old)).out }
    ensures step { CrashesOwn trio_view R.tells F.tells
        setup.now staff.old place result staff.new }
    ensures count { OnOk result (length staff.new.shelves.items ≡ length staff.old.shelves.items) }
    ensures closed { OnErr result (staff.new.shelves.items ≡ []) }
    ensures fit { IsFit trio_view F.tells staff.new }
    ensures own { IsTrue R.tells → IsTrue F.tells →
        KeepsOwn trio_view F.tells staff.old staff.new }
    ensures left { LeavesAll trio_view R.tells F.tells
        setup.now staff.old place result (R.view rack.new) }
    ensures home { IsHome staff.new.shelves.items (shelves_of (R.view rack.new)).out }
    ensures bytes { IsNeverForBytes result }
    ensures damaged { IsTrue R.tells → IsTrue F.tells → IsNeverDamaged result }
    ensures other { IsTrue R.tells → IsTrue F.tells → IsNeverOther result }
    ensures disk { FaultsRise trio_view result
        (R.view rack.old) staff.old (R.view rack.new) staff.new }
    ensures here { FailsThere trio_view result
        staff.old place (R.view rack.old) (R.view rack.new) }
    ensures failed { FailsOf result place (R.view rack.old) (R.view rack.new) }
    ensures later { FaultsStay trio_view
        (R.view rack.old) staff.old (R.view rack.new) staff.new }
    ensures failed_later { FailuresStay (R.view rack.old) (R.view rack.new) }
    ensures asked { StaysFirst (HasAsked (R.view rack.old)) (HasAsked (R.view rack.new)) }
{
    match reopen_at(alloc, setup, directory, staff, rack, place) {
        Ok(live) => Ok(live),
        Err(why) => {
            staff.tickets = no_tickets();
            put_all_back(rack, mem::replace(&mut staff.shelves, Vec::new(alloc)));
            Err(why)
        }
    }
}
