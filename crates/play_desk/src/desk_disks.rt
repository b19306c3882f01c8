ghost use Rattle.std.specs.Prelude.{◌≡◌, ◌≤◌, ◌<◌, false, length, IsTrue, IfOk, IfErr, IsErrOf, OnErr, OnOk};
ghost use Rattle.script_nodes.specs.Views.{scripts_of};
ghost use Rattle.setup_reader.specs.Texts.{IsReadSetup};
ghost use Rattle.shelf.specs.Ranges.{AreInRange};
ghost use Rattle.disk_trio.specs.Trio.{trio_view};
ghost use Rattle.trio_rack.specs.Trios.{shelves_of};
ghost use Rattle.play_desk.specs.Staff.{AreLow, HaveOwnNumbers, IsHome, IsOwn, IsReady, faults_in, total};
ghost use Rattle.play_desk.specs.Asking.{AsksForFirst, AsksForNone, AsksForOne, AsksForSome, AsksUntil};
ghost use Rattle.play_desk.specs.Opening.{AreHome, CountStays, FailedFor, FailuresStay, GivesOne, IsRefusedBy, LeaveOthers};
ghost use Rattle.play_desk.specs.Failing.{faults_beside};
ghost use Rattle.play_desk.specs.Told.{AllHoldAsLeft, AllStayIfClosed, AsksIfUsed, ClosesOwn, IsFirst, OpensAll, OpensLast, StaysIfClosed, TellsCause, WereBare};

use crate::desk::Desk;
use crate::opening::{OpenFault, opened, put_back};
use crate::staff::{Staff, no_tickets};
use disk_trio::Disks;
use play_steps::Reopen;
use script_nodes::Setup;
use shelf::{Rules, Shelf};
use std::alloc::Global;
use std::marker::PhantomData;
use web_disk::{Disk, Rack};
use web_outside::Counting;

/// Closes shelves, and gives their disks back.
pub(crate) fn put_all_back<F: Disk, R: Rack<F>>(
    rack: &mut R,
    shelves: Vec<Shelf<Disks<F>, Counting>>,
)
    requires numbers { HaveOwnNumbers shelves.items }
    requires low { AreLow shelves.items }
    requires home { IsHome shelves.items (shelves_of (R.view rack.old)).out }
    ensures home { AreHome (shelves_of (R.view rack.new)).out }
    ensures images { AllHoldAsLeft trio_view R.tells F.tells
        shelves.items (R.view rack.new) }
    ensures others { LeaveOthers shelves.items (R.view rack.old) (R.view rack.new) }
    ensures later { total (R.view rack.old).faults (faults_in trio_view shelves.items)
        ≤ (R.view rack.new).faults }
    ensures failed_later { FailuresStay (R.view rack.old) (R.view rack.new) }
    ensures asked { AsksForNone (R.view rack.old) (R.view rack.new) }
{
    let mut shelves = shelves;
    while let Some(shelf) = shelves.pop() {
        put_back(rack, shelf);
    }
    shelves.destroy_empty();
}

// Opens an empty shelf of these limits after the others. Where none is opened, its disks are in the
// rack.
fn open_next<F: Disk, R: Rack<F>>(
    alloc: Global,
    setup: &Setup,
    directory: &str,
    rack: &mut R,
    shelves: &mut Vec<Shelf<Disks<F>, Counting>>,
    rules: Rules,
) -> Result<(), Reopen>
    requires range { AreInRange rules }
    requires read { IsReadSetup (scripts_of setup.now) }
    requires home { (shelves_of (R.view rack.old)).out rules.number ≡ false }
    ensures opened { OpensLast F.Disk R.view R.tells setup.now rules result
        shelves.old shelves.new rack.old rack.new }
    ensures same { OnErr result (shelves.new.items ≡ shelves.old.items) }
    ensures given { OnErr result (GivesOne rules.number (R.view rack.old) (R.view rack.new)) }
    ensures why { IsTrue R.tells → IsTrue F.tells →
        IfErr result (IsRefusedBy (R.view rack.old) rules.number) }
    ensures keeps { StaysIfClosed R.tells F.tells setup.now rules
        (R.view rack.old) (R.view rack.new) result }
    ensures disk { IsErrOf result Reopen.Disk →
        FailedFor rules.number (R.view rack.old) (R.view rack.new) }
    ensures later { OnErr result
        (CountStays (R.view rack.old).faults 0 (R.view rack.new).faults 0) }
    ensures asked { OnErr result (AsksForSome rules.number (R.view rack.old) (R.view rack.new)) }
    ensures asked_shut { IsErrOf result Reopen.NotEmpty →
        AsksForOne rules.number (R.view rack.old) (R.view rack.new) }
{
    let shelf = opened(alloc, setup, directory, rack, rules)?;
    match shelves.push(shelf) {
        Ok(()) => Ok(()),
        Err(refused) => {
            put_back(rack, refused.value);
            Err(Reopen::Memory)
        }
    }
}

// Opens empty shelves of the setup, from number 0 on. Where one is not opened, all disks go back to the
// rack.
fn open_all<F: Disk, R: Rack<F>>(
    alloc: Global,
    rack: &mut R,
    directory: &str,
    setup: &Setup,
    rules: Rules,
) -> Result<Vec<Shelf<Disks<F>, Counting>>, OpenFault>
    requires range { AreInRange rules }
    requires read { IsReadSetup (scripts_of setup.now) }
    requires home { AreHome (shelves_of (R.view rack.old)).out }
    ensures opened { OpensAll trio_view R.tells F.tells setup.now rules
        (R.view rack.old) (R.view rack.new) result }
    ensures closed { TellsCause R.tells F.tells (R.view rack.old) rules.shelves result }
    ensures keeps { AllStayIfClosed R.tells F.tells setup.now
        (R.view rack.old) (R.view rack.new) result }
    ensures all_home { IfErr result (λ e. AreHome (shelves_of (R.view rack.new)).out) }
    ensures disk { IfErr result (λ e. e.why ≡ Reopen.Disk →
        FailedFor e.shelf (R.view rack.old) (R.view rack.new)) }
    ensures later { (R.view rack.old).faults ≤ (R.view rack.new).faults }
    ensures failed_later { FailuresStay (R.view rack.old) (R.view rack.new) }
    ensures asked { IfErr result (λ e.
        AsksUntil rules.shelves e.shelf (R.view rack.old) (R.view rack.new)) }
    ensures asked_shut { AsksIfUsed result (R.view rack.old) (R.view rack.new) }
{
    // A count is below 2^64, so it does not fall where those of the disks are added.
    let _count = rack.faults();
    let mut shelves = Vec::new(alloc);
    for number in 0..rules.shelves {
        let next = rules.numbered(number);
        if let Err(why) = open_next(alloc, setup, directory, rack, &mut shelves, next) {
            put_all_back(rack, shelves);
            return Err(OpenFault { shelf: number, why });
        }
    }
    Ok(shelves)
}

/// Opens empty shelves of the setup, from number 0 on, on the rack's disks of this directory, with
/// workers that hold nothing. The limits are those of each shelf, but for its number.
///
/// Each shelf has three disks. One that is not empty, or that fails, is told with the number of its shelf, and
/// then all disks go back to the rack. Nothing was lost on any then, but on those of a shelf of which a call failed,
/// and nothing was written on those after them, which are not even asked for.
pub fn open_desk<'s, F: Disk, R: Rack<F>>(
    alloc: Global,
    rack: &mut R,
    directory: &'s str,
    setup: Setup,
    rules: Rules,
) -> Result<Desk<'s, F, R>, OpenFault>
    requires range { AreInRange rules }
    requires read { IsReadSetup (scripts_of setup) }
    requires home { AreHome (shelves_of (R.view rack.old)).out }
    ensures setup { IfOk result (λ d. d.setup ≡ setup) }
    ensures desk { IsTrue R.tells → IsTrue F.tells →
        IfOk result (λ d. IsFirst trio_view rules setup d.setup d.staff) }
    ensures count { IfOk result (λ d. length d.staff.shelves.items ≡ rules.shelves) }
    ensures empty { WereBare R.tells F.tells (R.view rack.old) rules.shelves result }
    ensures sound { IfOk result (λ d. IsReady trio_view F.tells (scripts_of d.setup) d.staff) }
    ensures own { IsTrue R.tells → IsTrue F.tells →
        IfOk result (λ d. IsOwn trio_view F.tells d.staff) }
    ensures home { IfOk result (λ d.
        IsHome d.staff.shelves.items (shelves_of (R.view rack.new)).out) }
    ensures closed { TellsCause R.tells F.tells (R.view rack.old) rules.shelves result }
    ensures keeps { AllStayIfClosed R.tells F.tells setup
        (R.view rack.old) (R.view rack.new) result }
    ensures all_home { IfErr result (λ e. AreHome (shelves_of (R.view rack.new)).out) }
    ensures disk { IfErr result (λ e. e.why ≡ Reopen.Disk →
        FailedFor e.shelf (R.view rack.old) (R.view rack.new)) }
    ensures later { (R.view rack.old).faults ≤ (R.view rack.new).faults }
    ensures failed_later { FailuresStay (R.view rack.old) (R.view rack.new) }
    ensures later_open { IfOk result (λ d.
        (R.view rack.old).faults ≤ faults_beside trio_view (R.view rack.new) d.staff) }
    ensures asked { OnOk result (AsksForFirst rules.shelves (R.view rack.old) (R.view rack.new)) }
    ensures asked_until { IfErr result (λ e.
        AsksUntil rules.shelves e.shelf (R.view rack.old) (R.view rack.new)) }
    ensures asked_shut { AsksIfUsed result (R.view rack.old) (R.view rack.new) }
{
    match open_all(alloc, rack, directory, &setup, rules) {
        Ok(shelves) => Ok(Desk {
            alloc,
            setup,
            directory,
            staff: Staff {
                shelves,
                tickets: no_tickets(),
            },
            devices: PhantomData,
        }),
        Err(fault) => Err(fault),
    }
}

impl<'s, F: Disk, R: Rack<F>> Desk<'s, F, R> {
    /// Closes the shelves, and gives their disks back to the rack. They stand for the last books of their
    /// shelves.
    pub fn close(self, rack: &mut R)
        requires sound { IsReady trio_view F.tells (scripts_of self.setup) self.staff }
        requires home { IsHome self.staff.shelves.items (shelves_of (R.view rack.old)).out }
        ensures home { AreHome (shelves_of (R.view rack.new)).out }
        ensures books { ClosesOwn trio_view R.tells F.tells
            self.entry.setup self.entry.staff (R.view rack.new) }
        ensures later { faults_beside trio_view (R.view rack.old) self.entry.staff
            ≤ (R.view rack.new).faults }
        ensures failed_later { FailuresStay (R.view rack.old) (R.view rack.new) }
        ensures others { LeaveOthers self.entry.staff.shelves.items
            (R.view rack.old) (R.view rack.new) }
        ensures asked { AsksForNone (R.view rack.old) (R.view rack.new) }
    {
        let Desk {
            alloc: _,
            setup: _,
            directory: _,
            staff,
            devices: _,
        } = self;
        let Staff {
            shelves,
            tickets: _,
        } = staff;
        put_all_back(rack, shelves);
    }
}
