//! Racks of files on the machine, and their folders.

use file_disk::FileRack;
use std::fs;
use std::test::Fail;

/// A rack of files on the machine.
pub type Files<'r> = FileRack<'r, HostRuntime>;

/// A rack that has lent nothing.
pub fn rack_of(rt: &HostRuntime) -> Files<'_> {
    FileRack::new(rt, rt.alloc())
}

/// Lets no file of an earlier run stand in a folder.
pub fn clear(rt: &HostRuntime, folder: &str) -> Result<(), Fail> {
    if fs::exists(rt, folder)? {
        fs::remove_dir_all(rt, folder)?;
    }
    Ok(())
}
