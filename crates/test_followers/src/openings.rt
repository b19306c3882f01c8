//! Shelves that are opened without a setup.
ghost use Rattle.std.specs.Prelude.{◌≡◌, true, false, IfOk};
ghost use Rattle.disk_trio.specs.Trio.{trio_view};
ghost use Rattle.shelf.specs.Following.{CanBeFed, IsInOrderIfFed, IsOpen, IsReadable};
ghost use Rattle.shelf.specs.Ranges.{AreInRange};
ghost use Rattle.shelf.specs.Views.{follows_in};

use disk_trio::Disks;
use shelf::{BeginFault, Rules, Shelf};
use std::alloc::Global;
use std::test::Fail;
use test_compactions::files::{Files, disks_of};
use test_shelves::MemoryShelf;
use web_disk::Disk;
use web_outside::Counting;

/// The shelf 0.
pub const RULES: Rules = Rules {
    number: 0,
    shelves: 2,
    fuel: 10_000_000,
    life: 3_600,
    instances: 256,
    pages: 64,
};

/// The shelf 1.
pub const OTHER_RULES: Rules = Rules {
    number: 1,
    shelves: 2,
    fuel: 10_000_000,
    life: 3_600,
    instances: 256,
    pages: 64,
};

/// What a shelf without a setup is opened for.
#[derive(Clone, Copy)]
pub enum Opening {
    /// To be what its records tell.
    AsItIs,
    /// To follow, where it has no record.
    ToFollow,
}

// The shelf of three disks under these rules, opened without a setup.
fn opened_so<F: Disk + Drop>(
    alloc: Global,
    disks: Disks<F>,
    opening: Opening,
    rules: Rules,
) -> Result<Shelf<Disks<F>, Counting>, (BeginFault, Disks<F>, Counting)>
    requires fresh { disks.known ≡ false }
    requires range { AreInRange rules }
    ensures readable { IfOk result (IsReadable trio_view F.tells) }
    ensures open { IfOk result (IsOpen trio_view F.tells) }
{
    match opening {
        Opening::AsItIs => Shelf::reopen(alloc, disks, Counting::new(), rules),
        Opening::ToFollow => Shelf::follow(alloc, disks, Counting::new(), rules),
    }
}

/// The shelf of three disks under these rules; or why it was not opened, and the disks.
#[tactic(auto, using(crate::proofs::Opened::in_order_fed, crate::proofs::Opened::can_be_fed))]
pub fn tried_bare<F: Disk + Drop>(
    alloc: Global,
    disks: Disks<F>,
    opening: Opening,
    rules: Rules,
) -> Result<Shelf<Disks<F>, Counting>, (BeginFault, Disks<F>)>
    requires { AreInRange rules }
    ensures readable { IfOk result (IsReadable trio_view F.tells) }
    ensures in_order { IfOk result (IsInOrderIfFed trio_view F.tells) }
    ensures can { IfOk result (λ s. follows_in s ≡ true → CanBeFed s) }
{
    match opened_so(alloc, disks.renew(), opening, rules) {
        Ok(shelf) => Ok(shelf),
        Err((fault, disks, _nonces)) => Err((fault, disks)),
    }
}

/// The shelf of these files, which has to be opened.
pub fn opened_bare(alloc: Global, files: &Files, opening: Opening) -> Result<MemoryShelf, Fail>
    ensures readable { IfOk result (IsReadable trio_view true) }
    ensures in_order { IfOk result (IsInOrderIfFed trio_view true) }
    ensures can { IfOk result (λ s. follows_in s ≡ true → CanBeFed s) }
{
    match tried_bare(alloc, disks_of(alloc, files, None)?, opening, RULES) {
        Ok(shelf) => Ok(shelf),
        Err(_) => Err(Fail::from("no shelf")),
    }
}
