//! A site that is not begun, and what it hands back.
use crate::sites::{MemoryDisks, MemoryFault, disks, opened, sources, written};
use shelf::BeginFault;
use std::alloc::Global;
use std::test::Fail;

// Whether the three disks of a shelf are empty.
fn are_empty(disks: MemoryDisks) -> bool {
    let (a, b, root) = disks.close();
    a.bytes().is_empty() && b.bytes().is_empty() && root.bytes().is_empty()
}

// Whether these are the disks of two shelves, of which the first alone were written.
fn are_back(mut disks: Vec<MemoryDisks>) -> bool {
    match (disks.pop(), disks.pop(), disks.pop()) {
        (Some(second), Some(first), None) => !are_empty(first) && are_empty(second),
        _ => false,
    }
}

// Whether the disks of the second shelf failed, and all was handed back.
fn is_of_the_second(alloc: Global, fault: MemoryFault) -> Result<bool, Fail> {
    let sources = sources(alloc)?;
    Ok(
        fault.shelf == 1
            && fault.fault == BeginFault::DiskFault
            && fault.nonces.as_slice() == sources.as_slice()
            && are_back(fault.disks),
    )
}

// The disks of the second shelf fail at the first call of their root.
#[test]
fn a_fault_names_its_shelf_and_hands_all_back(rt: HostRuntime) -> Result<(), Fail> {
    let alloc = rt.alloc();
    let setup = written(alloc)?;
    let disks = disks(alloc, &[0])?;
    let Err(fault) = opened(&rt, alloc, setup, disks, sources(alloc)?) else {
        return Err(Fail::from("begun"));
    };
    assert!(rt; is_of_the_second(alloc, fault)?);
    Ok(())
}
