//! What stands on the three disks of a shelf, and how their calls go.
ghost use Rattle.std.specs.Prelude.{true, IfOk};
ghost use Rattle.script_nodes.specs.Views.{scripts_of};
ghost use Rattle.setup_reader.specs.Texts.{IsReadSetup};
ghost use Rattle.disk_trio.specs.Trio.{trio_view};
ghost use Rattle.shelf.specs.Views.{IsInOrder};

use disk_trio::Disks;
use script_nodes::Setup;
use std::alloc::Global;
use std::test::Fail;
use test_shelves::{MemoryShelf, tried};
use web_disk::{MemoryDisk, Wreck};

/// What stands on the three disks of a shelf.
#[derive(Drop)]
pub struct Files {
    pub a: Vec<u8>,
    pub b: Vec<u8>,
    pub root: Vec<u8>,
}

/// One of the disks of a shelf.
#[derive(Clone, Copy, Debug, PartialEq, Eq)]
pub enum Place {
    First,
    Second,
    Root,
}

/// What is wrong with the calls of a disk.
#[derive(Clone, Copy, Debug)]
pub enum Trouble {
    /// After so many of them it does nothing more.
    Stops,
    /// The one of this number fails.
    Fails,
}

/// What is wrong with one of the disks of a shelf, and from which call on, or at which.
#[derive(Clone, Copy, Debug)]
pub struct Wrong {
    pub place: Place,
    pub trouble: Trouble,
    pub call: u64,
}

// A disk of these bytes, all of whose calls do their work.
fn sound_disk(alloc: Global, bytes: &[u8]) -> Result<MemoryDisk, Fail> {
    Ok(MemoryDisk::new(alloc, bytes.to_vec(alloc)?, Vec::new(alloc))?)
}

// The calls that fail by such a trouble.
fn failing(alloc: Global, wrong: Wrong) -> Result<Vec<u64>, Fail> {
    match wrong.trouble {
        Trouble::Fails => Ok(vec![in alloc; wrong.call; 1]?),
        Trouble::Stops => Ok(Vec::new(alloc)),
    }
}

// A disk of these bytes with such a trouble.
fn troubled_disk(alloc: Global, bytes: &[u8], wrong: Wrong) -> Result<MemoryDisk, Fail> {
    let failing = failing(alloc, wrong)?;
    let mut disk = MemoryDisk::new(alloc, bytes.to_vec(alloc)?, failing)?;
    if let Trouble::Stops = wrong.trouble {
        disk.stop_at(wrong.call);
    }
    Ok(disk)
}

// The disk at this place, of these bytes, where one of the three is wrong, if any is.
fn disk_at(
    alloc: Global,
    place: Place,
    bytes: &[u8],
    wrong: Option<Wrong>,
) -> Result<MemoryDisk, Fail> {
    match wrong {
        Some(wrong) if wrong.place == place => troubled_disk(alloc, bytes, wrong),
        _ => sound_disk(alloc, bytes),
    }
}

/// Disks on which these files stand, one of which is wrong, if any is.
pub fn disks_of(
    alloc: Global,
    files: &Files,
    wrong: Option<Wrong>,
) -> Result<Disks<MemoryDisk>, Fail> {
    let a = disk_at(alloc, Place::First, &files.a, wrong)?;
    let b = disk_at(alloc, Place::Second, &files.b, wrong)?;
    let root = disk_at(alloc, Place::Root, &files.root, wrong)?;
    Ok(Disks::new(a, b, root))
}

/// What such a crash leaves of three disks.
pub fn left_by(disks: Disks<MemoryDisk>, wreck: Wreck) -> Files {
    let (a, b, root) = disks.close();
    Files {
        a: a.crash(wreck),
        b: b.crash(wreck),
        root: root.crash(wreck),
    }
}

/// What stands on the disks of a shelf that is closed.
pub fn files_of(alloc: Global, shelf: MemoryShelf) -> Result<Files, Fail> {
    let (disks, _nonces) = shelf.close();
    let (a, b, root) = disks.close();
    Ok(Files {
        a: a.bytes().to_vec(alloc)?,
        b: b.bytes().to_vec(alloc)?,
        root: root.bytes().to_vec(alloc)?,
    })
}

/// The shelf of these files, which has to be opened.
pub fn reopened(alloc: Global, files: &Files, setup: &Setup) -> Result<MemoryShelf, Fail>
    requires { IsReadSetup (scripts_of setup.now) }
    ensures { IfOk result (IsInOrder trio_view true) }
{
    match tried(alloc, disks_of(alloc, files, None)?, setup)? {
        Ok(shelf) => Ok(shelf),
        Err(_) => Err(Fail::from("no shelf")),
    }
}
