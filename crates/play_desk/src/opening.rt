ghost use Rattle.std.specs.Prelude.{◌≡◌, ◌≤◌, ◌<◌, true, false, IsTrue, IfOk, IfErr, OnOk, OnErr, IsErrOf};
ghost use Rattle.script_nodes.specs.Views.{scripts_of};
ghost use Rattle.setup_reader.specs.Texts.{IsReadSetup};
ghost use Rattle.disk_trio.specs.Trio.{trio_view};
ghost use Rattle.server_limits.specs.Limits.{most_shelves};
ghost use Rattle.trio_rack.specs.Trios.{shelves_of, AreFrom};
ghost use Rattle.shelf.specs.Ranges.{AreInRange};
ghost use Rattle.play_desk.specs.Asking.{AsksForNone, AsksForOne, AsksForSome};
ghost use Rattle.play_desk.specs.Opening.{CountStays, FailedFor, GivesOne, IsNeverDamaged, IsNeverForBytes, IsNeverOther, IsOutside, OpensOne, TakesEmpty, TakesOrLeaves, disk_faults, faults_left, reopen_of};
ghost use Rattle.shelf.specs.Views.{IsInOrder, IsOwnShelf};
ghost use Rattle.play_desk.specs.Failing.{CountsFor, FailsOn, RisesInAll, StaysInAll};
ghost use Rattle.shelf.specs.Calls.{BeginsOwn};
ghost use Rattle.play_desk.specs.Told.{BeginsBare, ComesBack, ComesBackOwn, FindsNow, GivesHeld, HasNoRoomIn, HoldsAsLeft, KeepsHeld, OpensBare, OutgrowsAfter, StandsAfter, StandsBegun, StaysBegun, StaysInOpening, StaysUnread};

use disk_trio::Disks;
use play_steps::Reopen;
use script_nodes::Setup;
use shelf::{BeginFault, Rules, Shelf, a_reopened_shelf_has_crashed, images_make_books};
use std::alloc::Global;
use trio_rack::{give_trio, take_trio};
use web_disk::{Disk, Rack, RackFault};
use web_outside::Counting;

/// The shelf whose disks are at fault, and why the desk was not opened.
#[derive(Clone, Copy, Debug, PartialEq, Eq)]
pub struct OpenFault {
    pub shelf: u32,
    pub why: Reopen,
}

// Takes the disks of the shelf of this number out of the rack.
fn taken<F: Disk, R: Rack<F>>(
    alloc: Global,
    directory: &str,
    rack: &mut R,
    number: u32,
) -> Result<Disks<F>, Reopen>
    requires { number < most_shelves }
    ensures unopened { IfOk result (λ disks. disks.known ≡ false) }
    ensures images { GivesHeld trio_view R.tells number (R.view rack.old) result }
    ensures each { IsTrue R.tells →
        IfOk result (λ disks. AreFrom (R.view rack.old) number disks) }
    ensures left { KeepsHeld R.tells number (R.view rack.old) (R.view rack.new) result }
    ensures fresh { IfOk result (λ disks. (trio_view disks).faults ≡ 0) }
    ensures rack { TakesOrLeaves number result (R.view rack.old) (R.view rack.new) }
    ensures disk { IsErrOf result Reopen.Disk →
        FailedFor number (R.view rack.old) (R.view rack.new) }
    ensures later { (R.view rack.old).faults ≤ (R.view rack.new).faults }
    ensures whole { IfErr result IsOutside }
    ensures asked { AsksForSome number (R.view rack.old) (R.view rack.new) }
    ensures asked_all { OnOk result (AsksForOne number (R.view rack.old) (R.view rack.new)) }
{
    match take_trio(rack, alloc, directory, number) {
        Ok(disks) => Ok(disks),
        Err(RackFault::Failed) => Err(Reopen::Disk),
        Err(RackFault::Memory) => Err(Reopen::Memory),
    }
}

/// Why a shelf is told as not opened, where this fault kept it from being begun.
pub fn why_not(fault: BeginFault) -> Reopen
    ensures { result ≡ reopen_of fault }
{
    match fault {
        BeginFault::Damaged { place } => Reopen::Damaged { place },
        BeginFault::Other { place } => Reopen::Other { place },
        BeginFault::Full { len } => Reopen::Full { len },
        BeginFault::DiskFault => Reopen::Disk,
        BeginFault::Memory => Reopen::Memory,
    }
}

// Begins the shelf on its disks, which go back to the rack where there is no shelf.
fn begun<F: Disk, R: Rack<F>>(
    alloc: Global,
    setup: &Setup,
    rack: &mut R,
    disks: Disks<F>,
    nonces: Counting,
    rules: Rules,
) -> Result<Shelf<Disks<F>, Counting>, Reopen>
    requires unopened { disks.known ≡ false }
    requires range { AreInRange rules }
    requires read { IsReadSetup (scripts_of setup.now) }
    ensures in_order { IfOk result (IsInOrder trio_view F.tells) }
    ensures rules { IfOk result (λ s. s.rules ≡ rules) }
    ensures nonces { IfOk result (λ s. s.nonces ≡ nonces) }
    ensures found { FindsNow trio_view F.tells
        setup.now rules.number (trio_view disks) result }
    ensures empty { BeginsBare trio_view F.tells setup.now rules (trio_view disks) result }
    ensures own { BeginsOwn trio_view F.tells rules.number (trio_view disks) result }
    ensures keeps { StaysBegun trio_view R.tells F.tells
        setup.now rules (trio_view disks) result (R.view rack.new) }
    ensures left { StandsBegun trio_view R.tells F.tells
        setup.now rules (trio_view disks) result (R.view rack.new) }
    ensures full { HasNoRoomIn R.tells F.tells setup.now rules.number result (R.view rack.new) }
    ensures kept { OnOk result (rack.new ≡ rack.old) }
    ensures given { OnErr result (GivesOne rules.number (R.view rack.old) (R.view rack.new)) }
    ensures disk { RisesInAll trio_view result (trio_view disks)
        (R.view rack.old) (R.view rack.new) }
    ensures here { FailsOn result rules.number (trio_view disks)
        (R.view rack.old) (R.view rack.new) }
    ensures later { StaysInAll trio_view result (trio_view disks)
        (R.view rack.old) (R.view rack.new) }
    ensures bytes { IsNeverForBytes result }
    ensures asked { AsksForNone (R.view rack.old) (R.view rack.new) }
{
    match Shelf::begin(alloc, disks, nonces, setup, rules) {
        Ok(shelf) => Ok(shelf),
        Err((fault, disks, _)) => {
            give_trio(rack, rules.number, disks);
            Err(why_not(fault))
        }
    }
}

/// Closes the shelf, and gives its disks back to the rack.
pub fn put_back<F: Disk, R: Rack<F>>(rack: &mut R, shelf: Shelf<Disks<F>, Counting>) -> Counting
    requires low { shelf.rules.number < most_shelves }
    ensures nonces { result ≡ shelf.nonces }
    ensures images { HoldsAsLeft R.tells F.tells
        shelf.rules.number (trio_view shelf.journal.disk) (R.view rack.new) }
    ensures counted { CountsFor shelf.rules.number (trio_view shelf.journal.disk)
        (R.view rack.old) (R.view rack.new) }
    ensures given { GivesOne shelf.rules.number (R.view rack.old) (R.view rack.new) }
    ensures later { CountStays (R.view rack.old).faults (trio_view shelf.journal.disk).faults
        (R.view rack.new).faults 0 }
    ensures asked { AsksForNone (R.view rack.old) (R.view rack.new) }
{
    let number = shelf.rules().number;
    let (disks, nonces) = shelf.close();
    give_trio(rack, number, disks);
    nonces
}

/// Lets the disks of the shelf crash, and opens the shelf again with the setup on what is left there. It goes
/// on with the same nonces.
pub fn reopened<F: Disk, R: Rack<F>>(
    alloc: Global,
    setup: &Setup,
    directory: &str,
    rack: &mut R,
    shelf: Shelf<Disks<F>, Counting>,
) -> Result<Shelf<Disks<F>, Counting>, Reopen>
    requires in_order { IsInOrder trio_view F.tells shelf }
    requires read { IsReadSetup (scripts_of setup.now) }
    ensures in_order { IfOk result (IsInOrder trio_view F.tells) }
    ensures rules { IfOk result (λ s. s.rules ≡ shelf.rules) }
    ensures nonces { IfOk result (λ s. s.nonces ≡ shelf.nonces) }
    ensures crashed { ComesBack trio_view R.tells F.tells setup.now shelf result }
    ensures own { ComesBackOwn trio_view R.tells F.tells shelf result }
    ensures left { StandsAfter trio_view R.tells F.tells
        setup.now shelf result (R.view rack.new) }
    ensures room { OutgrowsAfter trio_view R.tells F.tells
        setup.now shelf result (R.view rack.new) }
    ensures bytes { IsNeverForBytes result }
    ensures damaged { IsTrue R.tells → IsTrue F.tells → IsNeverDamaged result }
    ensures other { IsTrue R.tells → IsTrue F.tells → IsNeverOther result }
    ensures rack { OpensOne shelf.rules.number result (R.view rack.old) (R.view rack.new) }
    ensures disk { RisesInAll trio_view result (trio_view shelf.journal.disk)
        (R.view rack.old) (R.view rack.new) }
    ensures here { FailsOn result shelf.rules.number
        (trio_view shelf.journal.disk) (R.view rack.old) (R.view rack.new) }
    ensures later { StaysInAll trio_view result (trio_view shelf.journal.disk)
        (R.view rack.old) (R.view rack.new) }
    ensures asked { AsksForSome shelf.rules.number (R.view rack.old) (R.view rack.new) }
{
    images_make_books();
    a_reopened_shelf_has_crashed::<Disks<F>>();
    let rules = shelf.rules();
    let nonces = put_back(rack, shelf);
    let disks = taken(alloc, directory, rack, rules.number)?;
    begun(alloc, setup, rack, disks, nonces, rules)
}

// Takes the disks of the shelf of this number, which have to be empty; any others go back to the rack.
fn taken_empty<F: Disk, R: Rack<F>>(
    alloc: Global,
    directory: &str,
    rack: &mut R,
    number: u32,
) -> Result<Disks<F>, Reopen>
    requires low { number < most_shelves }
    requires home { (shelves_of (R.view rack.old)).out number ≡ false }
    ensures unopened { IfOk result (λ disks. disks.known ≡ false) }
    ensures empty { IsTrue R.tells → IsTrue F.tells →
        TakesEmpty trio_view (R.view rack.old) number result }
    ensures images { StaysUnread trio_view R.tells F.tells number
        (R.view rack.old) (R.view rack.new) result }
    ensures rack { OpensOne number result (R.view rack.old) (R.view rack.new) }
    ensures disk { IsErrOf result Reopen.Disk →
        FailedFor number (R.view rack.old) (R.view rack.new) }
    ensures later { CountStays (R.view rack.old).faults 0
        (R.view rack.new).faults (disk_faults trio_view result) }
    ensures rack_later { OnOk result ((R.view rack.old).faults ≤ (R.view rack.new).faults) }
    ensures asked { AsksForSome number (R.view rack.old) (R.view rack.new) }
    ensures asked_all { OnOk result (AsksForOne number (R.view rack.old) (R.view rack.new)) }
    ensures asked_shut { IsErrOf result Reopen.NotEmpty →
        AsksForOne number (R.view rack.old) (R.view rack.new) }
{
    let mut disks = match taken(alloc, directory, rack, number) {
        Ok(disks) => disks,
        Err(why) => return Err(why),
    };
    match disks.are_empty() {
        Ok(true) => Ok(disks),
        Ok(false) => {
            give_trio(rack, number, disks);
            Err(Reopen::NotEmpty)
        }
        Err(_) => {
            give_trio(rack, number, disks);
            Err(Reopen::Disk)
        }
    }
}

/// Opens an empty shelf, on disks that have to be empty; any others go back to the rack.
pub fn opened<F: Disk, R: Rack<F>>(
    alloc: Global,
    setup: &Setup,
    directory: &str,
    rack: &mut R,
    rules: Rules,
) -> Result<Shelf<Disks<F>, Counting>, Reopen>
    requires range { AreInRange rules }
    requires read { IsReadSetup (scripts_of setup.now) }
    requires home { (shelves_of (R.view rack.old)).out rules.number ≡ false }
    ensures in_order { IfOk result (IsInOrder trio_view F.tells) }
    ensures rules { IfOk result (λ s. s.rules ≡ rules) }
    ensures empty { OpensBare trio_view R.tells F.tells setup.now rules (R.view rack.old) result }
    ensures own { IsTrue R.tells → IsTrue F.tells →
        IfOk result (IsOwnShelf trio_view F.tells) }
    ensures keeps { StaysInOpening trio_view R.tells F.tells setup.now rules
        (R.view rack.old) (R.view rack.new) result }
    ensures rack { OpensOne rules.number result (R.view rack.old) (R.view rack.new) }
    ensures disk { IsErrOf result Reopen.Disk →
        FailedFor rules.number (R.view rack.old) (R.view rack.new) }
    ensures later { CountStays (R.view rack.old).faults 0
        (R.view rack.new).faults (faults_left trio_view result) }
    ensures rack_later { OnOk result ((R.view rack.old).faults ≤ (R.view rack.new).faults) }
    ensures asked { AsksForSome rules.number (R.view rack.old) (R.view rack.new) }
    ensures asked_all { OnOk result
        (AsksForOne rules.number (R.view rack.old) (R.view rack.new)) }
    ensures asked_shut { IsErrOf result Reopen.NotEmpty →
        AsksForOne rules.number (R.view rack.old) (R.view rack.new) }
{
    let disks = taken_empty(alloc, directory, rack, rules.number)?;
    match begun(alloc, setup, rack, disks, Counting::new(), rules) {
        Ok(shelf) => Ok(shelf),
        Err(why) => Err(why),
    }
}
