//! Audits of files on disks in memory, and shelves that write such files.
ghost use Rattle.shelf.specs.Ranges.{AreInRange};

use page_audit::{AuditFault, Audited, audit};
use shelf::Rules;
use std::alloc::Global;
use std::test::Fail;
use test_compactions::files::{Files, disks_of};
use test_compactions::old::files_with;
use test_compactions::sums::{nothing, sums_setup, visited_with};
use test_compactions::visits::Visit;

/// What an audit of these files answers, which has to leave them as they are.
pub fn audited(alloc: Global, files: &Files) -> Result<Result<Audited, AuditFault>, Fail> {
    let mut disks = disks_of(alloc, files, None)?.renew();
    let answer = audit(alloc, &mut disks);
    let (a, b, root) = disks.close();
    if a.bytes() == files.a.as_slice()
        && b.bytes() == files.b.as_slice()
        && root.bytes() == files.root.as_slice()
    {
        return Ok(answer);
    }
    Err(Fail::from("something was written"))
}

/// What stands on the disks of a shelf after these visits of sums.
pub fn visited(alloc: Global, visits: &[Visit], rules: Rules) -> Result<Files, Fail>
    requires { AreInRange rules }
{
    let setup = sums_setup(alloc)?;
    visited_with(alloc, &nothing(alloc), &setup, visits, rules)
}

// A copy of these bytes with this one at this place.
fn copy_with(alloc: Global, bytes: &[u8], place: usize, byte: u8) -> Result<Vec<u8>, Fail> {
    let mut copy = bytes.to_vec(alloc)?;
    match copy.get_mut(place) {
        Some(old) => *old = byte,
        None => return Err(Fail::from("no such byte")),
    }
    Ok(copy)
}

/// These files with this byte at this place of the first one; the others are empty.
pub fn changed(alloc: Global, files: &Files, place: usize, byte: u8) -> Result<Files, Fail> {
    let a = copy_with(alloc, files.a.as_slice(), place, byte)?;
    Ok(files_with(alloc, a))
}

/// What an audit answers to these files with this byte at this place of the first one.
pub fn audited_with(
    alloc: Global,
    files: &Files,
    place: usize,
    byte: u8,
) -> Result<Result<Audited, AuditFault>, Fail> {
    let changed = changed(alloc, files, place, byte)?;
    audited(alloc, &changed)
}
