use file_disk::{FileRack, MEMORY, ServedRack};
use std::fs;
use std::test::Fail;
use web_disk::{Disk, Rack, RackFault};

// The numbers of the disks of the first shelf and of the last.
const FIRST: [u32; 3] = [0, 16, 32];

const LAST: [u32; 3] = [15, 31, 47];

#[test]
fn an_old_folder_gets_its_new_files(rt: HostRuntime) -> Result<(), Fail> {
    let alloc = rt.alloc();
    fs::create_dir(&rt, "old-folder")?;
    fs::write(&rt, "old-folder/shelf-15", b"a journal")?;
    let mut rack = FileRack::new(&rt, alloc);
    for number in LAST {
        let disk = rack.take(alloc, "old-folder", number)?;
        rack.give(number, disk);
    }
    for (path, bytes) in [
        ("old-folder/shelf-15", b"a journal".as_slice()),
        ("old-folder/shelf-31", b"".as_slice()),
        ("old-folder/shelf-47", b"".as_slice()),
    ] {
        let found = fs::read(&rt, path)?;
        assert_eq!(rt; found.as_slice(), bytes, "{path}");
    }
    let mut files: u64 = 0;
    for entry in fs::read_dir(&rt, "old-folder")? {
        drop(entry?);
        files = files.saturating_add(1);
    }
    assert_eq!(rt; files, 3);
    assert_eq!(rt; rack.faults(), 0);
    fs::remove_dir_all(&rt, "old-folder")?;
    Ok(())
}

#[test]
fn each_of_three_files_is_held_alone(rt: HostRuntime) -> Result<(), Fail> {
    let alloc = rt.alloc();
    let mut rack = FileRack::new(&rt, alloc);
    let mut other = FileRack::new(&rt, alloc);
    for number in FIRST {
        let disk = rack.take(alloc, "held-folder", number)?;
        let refused = other.take(alloc, "held-folder", number);
        assert_eq!(rt; refused.err(), Some(RackFault::Failed), "{number}");
        rack.give(number, disk);
        let disk = other.take(alloc, "held-folder", number)?;
        other.give(number, disk);
    }
    assert_eq!(rt; rack.faults(), 0);
    assert_eq!(rt; other.faults(), 3);
    fs::remove_dir_all(&rt, "held-folder")?;
    Ok(())
}

// Writes a disk anew.
fn write_anew<D: Disk>(disk: &mut D, piece: &[u8]) -> Result<(), Fail> {
    disk.room(piece.len() as u64)?;
    disk.cut(0)?;
    disk.write_at(0, piece)?;
    disk.sync()?;
    Ok(())
}

#[test]
fn a_file_is_written_anew(rt: HostRuntime) -> Result<(), Fail> {
    let alloc = rt.alloc();
    let mut rack = ServedRack::new(&rt, alloc);
    for folder in ["anew-folder", MEMORY] {
        let mut disk = rack.take(alloc, folder, 16)?;
        for piece in [b"a file".as_slice(), b"another".as_slice()] {
            write_anew(&mut disk, piece)?;
            assert_eq!(rt; disk.len(), Ok(piece.len() as u64));
        }
        rack.give(16, disk);
    }
    let bytes = fs::read(&rt, "anew-folder/shelf-16")?;
    assert_eq!(rt; bytes.as_slice(), b"another".as_slice());
    assert_eq!(rt; rack.faults(), 0);
    fs::remove_dir_all(&rt, "anew-folder")?;
    Ok(())
}
