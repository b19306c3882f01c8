//! Audits of disks whose calls fail.

use crate::audits::visited;
use disk_trio::Disks;
use page_audit::{AuditFault, Audited, audit};
use std::alloc::Global;
use std::test::Fail;
use test_compactions::files::{Files, Place, Trouble, Wrong, disks_of};
use test_compactions::sums::{RULES, VISITS};
use web_disk::{Disk, MemoryDisk};

// After so many calls of each of its disks an audit has come to its end.
const MOST_CALLS: u64 = 32;

// Whether an audit of these files comes to its end, where a call of a disk fails. It is told where one failed, and only there.
fn comes_to_its_end(alloc: Global, files: &Files, wrong: Wrong) -> Result<bool, Fail> {
    let mut disks = disks_of(alloc, files, Some(wrong))?.renew();
    let answer = audit(alloc, &mut disks);
    match (answer, disks.faults()) {
        (Ok(Audited::Yes { records: 4 }), 0) => Ok(true),
        (Err(AuditFault::DiskFault), 1) => Ok(false),
        _ => Err(Fail::from("another answer")),
    }
}

// How many audits do not come to their end of those in which a call of this disk fails, each in turn.
fn failed(alloc: Global, files: &Files, place: Place) -> Result<u64, Fail> {
    let mut failed: u64 = 0;
    for call in 0..MOST_CALLS {
        let wrong = Wrong {
            place,
            trouble: Trouble::Fails,
            call,
        };
        if !comes_to_its_end(alloc, files, wrong)? {
            failed = failed.saturating_add(1);
        }
    }
    Ok(failed)
}

// The root is put on its disk and its length read. The file is put on its disk, its length and its header are read, and each of its gates,
// lengths and records.
#[test]
fn a_call_that_fails_is_told(rt: HostRuntime) -> Result<(), Fail> {
    let alloc = rt.alloc();
    let files = visited(alloc, VISITS, RULES)?;
    assert_eq!(rt; failed(alloc, &files, Place::Root)?, 2);
    assert_eq!(rt; failed(alloc, &files, Place::Second)?, 0);
    assert!(rt; failed(alloc, &files, Place::First)? > 10);
    Ok(())
}
