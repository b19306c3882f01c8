//! Shelves whose journal is nearly full, and which are opened with another setup.
ghost use Rattle.std.specs.Prelude.{◌≤◌};
ghost use Rattle.script_nodes.specs.Views.{scripts_of};
ghost use Rattle.setup_reader.specs.Texts.{IsReadSetup};

use crate::full::{disks_with, long_record};
use crate::openings::tried;
use crate::setups::{NEW, OLD};
use crate::texts::setup;
use disk_trio::Disks;
use script_nodes::Setup;
use shelf::BeginFault;
use std::alloc::Global;
use std::test::Fail;
use web_disk::{Disk, RepeatDisk};

// Where the last part of the disk begins.
const START: u64 = 1_072_693_350;

// How long a last record is with which the journal lacks 90 bytes of 2^30, as many as the record of the new setup has.
const FITTING: u32 = 1_048_383;

// A last part: a record of so many bytes, and a closed gate.
fn last_part(alloc: Global, size: u32) -> Result<Vec<u8>, Fail>
    requires { 43 ≤ size }
{
    let mut bytes = long_record(alloc, size)?;
    bytes.push(0)?;
    Ok(bytes)
}

// What an opening answers: none where the shelf is opened, and the first disk after it.
fn answer(
    alloc: Global,
    disks: Disks<RepeatDisk>,
    setup: &Setup,
) -> Result<(Option<BeginFault>, RepeatDisk), Fail>
    requires { IsReadSetup (scripts_of setup.now) }
{
    match tried(alloc, disks, setup)? {
        Ok(shelf) => {
            let (disks, _nonces) = shelf.close();
            Ok((None, disks.close().0))
        }
        Err((fault, disks)) => Ok((Some(fault), disks.close().0)),
    }
}

// What stands on a disk after all that cannot be written.
fn written(alloc: Global, disk: &mut RepeatDisk) -> Result<Vec<u8>, Fail> {
    let len = disk.len()?;
    let size = len.checked_sub(START).ok_or("a shorter disk")?;
    let mut bytes = vec![in alloc; 0u8; size as usize]?;
    disk.read(START, bytes.as_mut_slice())?;
    Ok(bytes)
}

// What an opening answers on a disk of another setup with this last part, and what the last part is after it.
fn opened_on(
    alloc: Global,
    old: &Setup,
    last: &[u8],
    setup: &Setup,
) -> Result<(Option<BeginFault>, Vec<u8>), Fail>
    requires old { IsReadSetup (scripts_of old.now) }
    requires read { IsReadSetup (scripts_of setup.now) }
{
    let disks = disks_with(alloc, old, last.to_vec(alloc)?)?;
    let (told, mut disk) = answer(alloc, disks, setup)?;
    Ok((told, written(alloc, &mut disk)?))
}

// With its record the journal would have a byte more than 2^30.
#[test]
fn another_text_that_has_no_room_is_refused(rt: HostRuntime) -> Result<(), Fail> {
    let alloc = rt.alloc();
    let old = setup(alloc, &[("s", OLD)])?;
    let new = setup(alloc, &[("s", NEW)])?;
    let last = last_part(alloc, FITTING + 1)?;
    let (told, left) = opened_on(alloc, &old, &last, &new)?;
    assert_eq!(rt; told, Some(BeginFault::Full { len: 1_073_741_825 }));
    assert!(rt; left == last);
    Ok(())
}

// There is no room for another record of the old setup either, which is told already.
#[test]
fn the_same_text_needs_no_room(rt: HostRuntime) -> Result<(), Fail> {
    let alloc = rt.alloc();
    let old = setup(alloc, &[("s", OLD)])?;
    let last = last_part(alloc, FITTING + 1)?;
    let (told, left) = opened_on(alloc, &old, &last, &old)?;
    assert_eq!(rt; told, None);
    assert!(rt; left == last);
    Ok(())
}

#[test]
fn another_text_may_fill_a_journal(rt: HostRuntime) -> Result<(), Fail> {
    let alloc = rt.alloc();
    let old = setup(alloc, &[("s", OLD)])?;
    let new = setup(alloc, &[("s", NEW)])?;
    let last = last_part(alloc, FITTING)?;
    let (told, left) = opened_on(alloc, &old, &last, &new)?;
    assert_eq!(rt; told, None);
    assert_eq!(rt; START.saturating_add(left.len() as u64), 1_073_741_824);
    Ok(())
}
