ghost use Rattle.std.specs.Prelude.{◌&&◌, ◌≡◌, ◌<◌, ◌≤◌, false, IfOk};
ghost use Rattle.disk_trio.specs.Trio.{trio_view};
ghost use Rattle.server_limits.specs.Limits.{most_shelves};
ghost use Rattle.page_follower.specs.OfShelf.Following.{IsOpen, IsReadable};
ghost use Rattle.page_follower.specs.OfShelf.Ranges.{AreInRange};
ghost use Rattle.command_words.specs.Plain.{CanFeed, HasShelves};
ghost use Rattle.play_desk.specs.Opening.{AreHome};
ghost use Rattle.server_command.specs.Bare.{AsksOne, OpensAs, is_to_follow, untaken_for};
ghost use Rattle.server_command.specs.Calls.{ExportsOn, GivesBackTo, OpensShelf, PromotesAll, PromotesShelf, rack_over};
ghost use Rattle.server_command.specs.Feeding.{LeavesFollow, unpromoted_for};
ghost use Rattle.server_command.specs.Output.{Hands};
ghost use Rattle.server_command.specs.Racks.{AreBack};

use crate::program::Status;
use crate::telling::{hand_on, tell_followed, tell_promoted, tell_unopened};
use command_words::{FeedOptions, ShelvesOptions};
use disk_trio::Disks;
use page_follower::shelves::{BeginFault, Rules, Shelf};
use page_follower::{ExportFault, export, follow};
use play_desk::{OpenFault, why_not};
use play_steps::Reopen;
use script_value::Reply;
use server_limits::MOST_SHELVES;
use std::alloc::Global;
use trio_rack::{give_trio, take_trio};
use web_disk::{Disk, Rack, RackFault};
use web_outside::{Counting, Sink, Source};

/// How a shelf is opened without a setup.
#[derive(Clone, Copy, Debug, PartialEq, Eq)]
enum Opening {
    /// As what its records tell.
    AsItIs,
    /// As a follower, where it has no record.
    ToFollow,
}

// A shelf on three disks. No visit is made, so its nonces are any.
type Opened<D> = Shelf<Disks<D>, Counting>;

// Limits of a shelf on which no visit is made.
fn limits(number: u32) -> Rules
    requires { number < most_shelves }
    ensures number { result.number ≡ number }
    ensures in_range { AreInRange result }
{
    Rules {
        number,
        shelves: MOST_SHELVES,
        fuel: 1,
        life: 1,
        instances: 1,
        pages: 1,
    }
}

// Opens a shelf on its disks.
fn open_on<D: Disk>(
    alloc: Global,
    disks: Disks<D>,
    shelf: u32,
    opening: Opening,
) -> Result<Opened<D>, (BeginFault, Disks<D>, Counting)>
    requires fresh { disks.known ≡ false }
    requires number { shelf < most_shelves }
    ensures opens { OpensAs trio_view D.tells (is_to_follow opening) shelf disks result }
    ensures open { IfOk result (IsOpen trio_view D.tells) }
    ensures readable { IfOk result (IsReadable trio_view D.tells) }
    ensures number { IfOk result (λ s. s.rules.number ≡ shelf) }
{
    let rules = limits(shelf);
    match opening {
        Opening::AsItIs => Shelf::reopen(alloc, disks, Counting::new(), rules),
        Opening::ToFollow => Shelf::follow(alloc, disks, Counting::new(), rules),
    }
}

// Why the disks of a shelf were not taken.
fn untaken(fault: RackFault) -> Reopen
    ensures { result ≡ untaken_for fault }
{
    match fault {
        RackFault::Failed => Reopen::Disk,
        RackFault::Memory => Reopen::Memory,
    }
}

// Takes the disks of a shelf and opens it; where it is not opened, they are given back.
fn open_shelf<D: Disk, R: Rack<D>>(
    alloc: Global,
    rack: &mut R,
    directory: &str,
    shelf: u32,
    opening: Opening,
) -> Result<Opened<D>, Reopen>
    requires { shelf < most_shelves }
    ensures { OpensShelf D.Disk R.view R.tells (is_to_follow opening)
        rack.old rack.new shelf result }
{
    let disks = match take_trio(rack, alloc, directory, shelf) {
        Ok(disks) => disks,
        Err(fault) => return Err(untaken(fault)),
    };
    match open_on(alloc, disks, shelf, opening) {
        Ok(opened) => Ok(opened),
        Err((fault, disks, _nonces)) => {
            give_back(rack, shelf, disks);
            Err(why_not(fault))
        }
    }
}

// Gives back the disks of a shelf.
fn give_back<D: Disk, R: Rack<D>>(rack: &mut R, shelf: u32, disks: Disks<D>)
    requires { shelf < most_shelves }
    ensures { GivesBackTo trio_view R.view (R.tells && D.tells) shelf disks rack.old rack.new }
{
    // A count is below 2^64, so it does not fall where that of a disk is added.
    let _count = rack.faults();
    give_trio(rack, shelf, disks);
}

// Closes a shelf and gives back its disks.
fn close_shelf<D: Disk, R: Rack<D>>(rack: &mut R, number: u32, shelf: Opened<D>)
    requires { number < most_shelves }
    ensures { GivesBackTo trio_view R.view (R.tells && D.tells) number shelf.journal.disk
        rack.old rack.new }
{
    let (disks, _nonces) = shelf.close();
    give_back(rack, number, disks);
}

/// Writes the feed of a shelf, for a follower.
pub(crate) fn export_shelf<O: Sink, D: Disk, R: Rack<D>>(
    alloc: Global,
    options: &FeedOptions,
    output: &mut O,
    rack: &mut R,
) -> Status
    requires range { CanFeed options.now }
    requires home { AreHome (R.view rack.old).out }
    ensures leaves { ExportsOn D.Disk R.view R.tells O.view options.now result
        rack.old rack.new output.old output.new }
    ensures hands { Hands result (O.view output.old) (O.view output.new) }
    ensures back { AreBack (R.view rack.old) (R.view rack.new) }
{
    let number = options.shelf;
    let directory = options.journal.as_str();
    let mut shelf = match open_shelf(alloc, rack, directory, number, Opening::AsItIs) {
        Ok(shelf) => shelf,
        Err(why) => return tell_unopened(alloc, OpenFault { shelf: number, why }, output),
    };
    let sent = export(&mut shelf, output);
    close_shelf(rack, number, shelf);
    match sent {
        Ok(()) => Status::Done,
        Err(ExportFault::Unwritten) => Status::Write,
        Err(ExportFault::DiskFault) => {
            let why = Reopen::Disk;
            tell_unopened(alloc, OpenFault { shelf: number, why }, output)
        }
    }
}

/// Lets a shelf follow the feed that its input is.
pub(crate) fn follow_feed<I: Source, O: Sink, D: Disk, R: Rack<D>>(
    alloc: Global,
    options: &FeedOptions,
    input: &mut I,
    output: &mut O,
    rack: &mut R,
) -> Status
    requires range { CanFeed options.now }
    requires home { AreHome (R.view rack.old).out }
    ensures leaves { LeavesFollow (trio_view {G = D.Disk})
        (rack_over R.view R.tells D.tells rack.old rack.new)
        options.now.shelf result (I.view input.old) (I.view input.new)
        (O.view output.old) (O.view output.new) }
    ensures hands { Hands result (O.view output.old) (O.view output.new) }
    ensures back { AreBack (R.view rack.old) (R.view rack.new) }
    ensures input_later { (I.view input.old).faults ≤ (I.view input.new).faults }
{
    let number = options.shelf;
    let directory = options.journal.as_str();
    let mut shelf = match open_shelf(alloc, rack, directory, number, Opening::ToFollow) {
        Ok(shelf) => shelf,
        Err(why) => return tell_unopened(alloc, OpenFault { shelf: number, why }, output),
    };
    let end = follow(alloc, &mut shelf, input, output);
    close_shelf(rack, number, shelf);
    tell_followed(alloc, number, end, output)
}

// Why a shelf was not promoted.
fn unpromoted(reply: &Reply) -> Reopen
    ensures { result ≡ unpromoted_for reply.now }
{
    match reply {
        Reply::JournalFull(len) => Reopen::Full { len: *len },
        Reply::Down(_) | Reply::DiskFault(_) => Reopen::Disk,
        _ => Reopen::Memory,
    }
}

// Opens a shelf, promotes it where it follows, and closes it. It says whether it followed.
fn promote_shelf<D: Disk, R: Rack<D>>(
    alloc: Global,
    rack: &mut R,
    directory: &str,
    number: u32,
) -> Result<bool, Reopen>
    requires { number < most_shelves }
    ensures promotes { PromotesShelf D.Disk R.view R.tells
        rack.old rack.new number result }
    ensures rest { AsksOne (rack_over R.view R.tells D.tells rack.old rack.new) number }
{
    let mut shelf = match open_shelf(alloc, rack, directory, number, Opening::AsItIs) {
        Ok(shelf) => shelf,
        Err(why) => return Err(why),
    };
    let promoted = shelf.promote(alloc);
    close_shelf(rack, number, shelf);
    match promoted {
        Ok(followed) => Ok(followed),
        Err(reply) => Err(unpromoted(&reply)),
    }
}

/// Promotes each shelf that follows, in order, and tells of each whether it followed.
pub(crate) fn promote_all<O: Sink, D: Disk, R: Rack<D>>(
    alloc: Global,
    options: &ShelvesOptions,
    output: &mut O,
    rack: &mut R,
) -> Status
    requires range { HasShelves options.now }
    requires home { AreHome (R.view rack.old).out }
    ensures leaves { PromotesAll D.Disk R.view R.tells O.view options.now result
        rack.old rack.new output.old output.new }
    ensures hands { Hands result (O.view output.old) (O.view output.new) }
    ensures back { AreBack (R.view rack.old) (R.view rack.new) }
{
    'promoting: for shelf in 0..options.shelves {
        match promote_shelf(alloc, rack, options.journal.as_str(), shelf) {
            Ok(followed) => match tell_promoted(alloc, shelf, followed, output) {
                Ok(()) => {}
                Err(status) => return status,
            },
            Err(why) => return tell_unopened(alloc, OpenFault { shelf, why }, output),
        }
    }
    hand_on(output)
}
