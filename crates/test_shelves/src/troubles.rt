//! Disks that stop, or whose call fails, and what a crash leaves of them.
ghost use Rattle.std.specs.Prelude.{true, IfOk};
ghost use Rattle.script_nodes.specs.Views.{scripts_of};
ghost use Rattle.setup_reader.specs.Texts.{IsReadSetup};
ghost use Rattle.disk_trio.specs.Trio.{trio_view};
ghost use Rattle.shelf.specs.Views.{IsInOrder};

use crate::openings::{MemoryShelf, tried, with_others};
use disk_trio::Disks;
use script_nodes::Setup;
use shelf::BeginFault;
use std::alloc::Global;
use std::test::Fail;
use web_disk::{MemoryDisk, Wreck};

/// How far what was not synced is on the disk, the byte in lost places, and whether those at the end are gone.
pub const WRECKS: &[Wreck] = &[
    Wreck {
        reached: u64::MAX,
        fill: 0,
        short: false,
    },
    Wreck {
        reached: 0,
        fill: 0,
        short: true,
    },
    Wreck {
        reached: 0,
        fill: 1,
        short: false,
    },
    Wreck {
        reached: 60,
        fill: 171,
        short: false,
    },
];

/// What is wrong with the calls of a disk.
#[derive(Clone, Copy, Debug)]
pub enum Trouble {
    /// It stops after so many.
    Stop(u64),
    /// The one of this number fails.
    Fault(u64),
}

impl Trouble {
    /// Where four openings after it stop. An opening makes two calls for a record that a visit made four for, and then it mends
    /// the end of the disk: these are the calls by which it does.
    pub fn stops(self) -> [u64; 4] {
        let half = match self {
            Trouble::Stop(call) | Trouble::Fault(call) => call / 2,
        };
        [half + 2, half + 3, half + 4, half + 5]
    }
}

// The calls that fail by such a trouble.
fn failing(alloc: Global, trouble: Trouble) -> Result<Vec<u64>, Fail> {
    let mut calls = Vec::new(alloc);
    if let Trouble::Fault(call) = trouble {
        calls.push(call)?;
    }
    Ok(calls)
}

/// Three disks, of which the first has these bytes and such a trouble; the others are empty.
pub fn troubled(alloc: Global, bytes: &[u8], trouble: Trouble) -> Result<Disks<MemoryDisk>, Fail> {
    let calls = failing(alloc, trouble)?;
    let mut disk = MemoryDisk::new(alloc, bytes.to_vec(alloc)?, calls)?;
    if let Trouble::Stop(calls) = trouble {
        disk.stop_at(calls);
    }
    with_others(alloc, disk)
}

/// What a crash leaves of the first of three disks.
pub fn left_by(disks: Disks<MemoryDisk>, wreck: Wreck) -> Vec<u8> {
    let (disk, _, _) = disks.close();
    disk.crash(wreck)
}

/// The shelf of three disks, or the disks, where these refuse the shelf.
pub fn opened_despite(
    alloc: Global,
    setup: &Setup,
    disks: Disks<MemoryDisk>,
) -> Result<Result<MemoryShelf, Disks<MemoryDisk>>, Fail>
    requires { IsReadSetup (scripts_of setup.now) }
    ensures { IfOk result (λ r. IfOk r (IsInOrder trio_view true)) }
{
    match tried(alloc, disks, setup)? {
        Ok(shelf) => Ok(Ok(shelf)),
        Err((BeginFault::DiskFault, disks)) => Ok(Err(disks)),
        Err(_) => Err(Fail::from("another fault")),
    }
}

/// What a crash leaves of the first disk, of these bytes and with such a trouble, while it is opened.
pub fn left_by_opening(
    alloc: Global,
    setup: &Setup,
    bytes: &[u8],
    trouble: Trouble,
    wreck: Wreck,
) -> Result<Vec<u8>, Fail>
    requires { IsReadSetup (scripts_of setup.now) }
{
    match opened_despite(alloc, setup, troubled(alloc, bytes, trouble)?)? {
        Ok(shelf) => {
            let (disks, _nonces) = shelf.close();
            Ok(left_by(disks, wreck))
        }
        Err(disks) => Ok(left_by(disks, wreck)),
    }
}
