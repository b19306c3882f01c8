use crate::machine::Machine;
use crate::racks::{clear, rack_of};
use file_disk::{FileRack, Refusal};
use std::fs::{Permissions, TryLockError};
use std::io::ErrorKind;
use std::os::unix::fs::{MetadataExt, PermissionsExt};
use std::test::Fail;
use std::{fs, io};
use web_disk::{Rack, RackFault};

#[test]
fn a_folder_that_cannot_be_synced_is_refused(rt: HostRuntime) -> Result<(), Fail> {
    let alloc = rt.alloc();
    fs::create_dir_all(&rt, "folders/there")?;
    // There is no such file; and a device has no such call, as some file systems have none for their folders.
    for (instead, taken) in [("folders/none", false), ("/dev/null", true)] {
        let files = Machine::with_other_folder(&rt, "folders/there", instead);
        let mut rack = FileRack::new(&files, alloc);
        let outcome = rack.take(alloc, "folders/there", 0);
        assert_eq!(rt; outcome.is_ok(), taken, "{instead}");
        match outcome {
            Ok(disk) => rack.give(0, disk),
            Err(fault) => assert_eq!(rt; fault, RackFault::Failed),
        }
        assert_eq!(rt; rack.faults(), u64::from(!taken));
    }
    fs::remove_dir_all(&rt, "folders")?;
    Ok(())
}

#[test]
fn what_is_made_is_its_owners_alone(rt: HostRuntime) -> Result<(), Fail> {
    let alloc = rt.alloc();
    clear(&rt, "owners")?;
    let mut rack = rack_of(&rt);
    let disk = rack.take(alloc, "owners/of/shelves", 0)?;
    rack.give(0, disk);
    for (path, mode) in [
        ("owners", 0o700),
        ("owners/of", 0o700),
        ("owners/of/shelves", 0o700),
        ("owners/of/shelves/shelf-0", 0o600),
    ] {
        let found = fs::metadata(&rt, path)?.mode() % 0o1000;
        assert_eq!(rt; found, mode, "{path}");
    }
    // A file that others may read is told, and taken nevertheless.
    let shared = Permissions::from_mode(0o644);
    fs::set_permissions(&rt, "owners/of/shelves/shelf-0", shared)?;
    let disk = rack.take(alloc, "owners/of/shelves", 0)?;
    rack.give(0, disk);
    assert_eq!(rt; rack.faults(), 0);
    clear(&rt, "owners")
}

#[test]
fn faults_of_locks_are_told_apart(rt: HostRuntime) -> Result<(), Fail> {
    assert!(rt; matches!(Refusal::from(TryLockError::WouldBlock), Refusal::Busy));
    for (kind, memory) in [
        (ErrorKind::OutOfMemory, true),
        (ErrorKind::Unsupported, false),
    ] {
        let fault = TryLockError::Error(io::Error::from(kind));
        let refusal = Refusal::from(fault);
        assert_eq!(rt; matches!(refusal, Refusal::Memory), memory);
        assert_eq!(rt; matches!(refusal, Refusal::System(_)), !memory);
    }
    Ok(())
}
