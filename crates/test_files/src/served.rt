use file_disk::{MEMORY, MOST_MEMORY_DISKS, ServedDisk, ServedRack};
use std::fs;
use std::test::Fail;
use web_disk::{Disk, Rack, RackFault};
use web_outside::Failed;

#[test]
fn a_disk_in_memory_is_kept_until_it_is_taken_again(rt: HostRuntime) -> Result<(), Fail> {
    let alloc = rt.alloc();
    let mut rack = ServedRack::new(&rt, alloc);
    let mut disk = rack.take(alloc, MEMORY, 2)?;
    assert_eq!(rt; rack.take(alloc, MEMORY, 2).err(), Some(RackFault::Failed));
    assert_eq!(rt;
        rack.take(alloc, MEMORY, MOST_MEMORY_DISKS).err(),
        Some(RackFault::Failed)
    );
    assert_eq!(rt; rack.faults(), 2);
    disk.room(9)?;
    disk.write_at(0, b"abcd")?;
    disk.sync()?;
    let other = rack.take(alloc, MEMORY, 0)?;
    rack.give(0, other);
    rack.give(2, disk);

    let mut disk = rack.take(alloc, MEMORY, 2)?;
    assert_eq!(rt; disk.len(), Ok(4));
    let mut two = [0u8; 2];
    disk.read(1, &mut two)?;
    assert_eq!(rt; two.as_slice(), b"bc".as_slice());
    assert!(rt; matches!(disk, ServedDisk::Memory(_)));
    rack.give(2, disk);
    assert_eq!(rt; rack.faults(), 2);
    Ok(())
}

#[test]
fn a_place_that_a_disk_in_memory_has_not_is_a_fault(rt: HostRuntime) -> Result<(), Fail> {
    let alloc = rt.alloc();
    let mut rack = ServedRack::new(&rt, alloc);
    let mut disk = rack.take(alloc, MEMORY, 0)?;
    disk.room(9)?;
    disk.write_at(0, b"abcd")?;
    assert_eq!(rt; disk.write_at(5, b"e"), Err(Failed));
    assert_eq!(rt; disk.read(4, &mut [0u8; 1]), Err(Failed));
    assert_eq!(rt; disk.read(5, &mut [0u8; 0]), Err(Failed));
    assert_eq!(rt; disk.cut(5), Err(Failed));
    disk.cut(4)?;
    disk.read(4, &mut [0u8; 0])?;
    assert_eq!(rt; disk.faults(), 4);
    rack.give(0, disk);
    assert_eq!(rt; rack.faults(), 4);
    Ok(())
}

#[test]
fn any_other_name_is_a_folder(rt: HostRuntime) -> Result<(), Fail> {
    let alloc = rt.alloc();
    let mut rack = ServedRack::new(&rt, alloc);
    let mut disk = rack.take(alloc, "a-folder", 1)?;
    assert!(rt; matches!(disk, ServedDisk::File(_)));
    assert_eq!(rt;
        rack.take(alloc, "a-folder", 1).err(),
        Some(RackFault::Failed)
    );
    disk.cut(0)?;
    disk.room(9)?;
    disk.write_at(0, b"abcd")?;
    disk.sync()?;
    assert_eq!(rt; disk.len(), Ok(4));
    disk.read(0, &mut [0u8; 4])?;
    assert_eq!(rt; disk.faults(), 0);
    rack.give(1, disk);
    let bytes = fs::read(&rt, "a-folder/shelf-1")?;
    assert_eq!(rt; bytes.as_slice(), b"abcd".as_slice());
    assert_eq!(rt; rack.faults(), 1);
    fs::remove_dir_all(&rt, "a-folder")?;
    Ok(())
}

// A disk goes from thread to thread, and is looked at by several.
fn is_shared<D: Send + Sync>(_disk: &D) -> bool {
    true
}

#[test]
fn a_disk_may_go_to_another_thread(rt: HostRuntime) -> Result<(), Fail> {
    let alloc = rt.alloc();
    let mut rack = ServedRack::new(&rt, alloc);
    let disk = rack.take(alloc, MEMORY, 0)?;
    assert!(rt; is_shared(&disk));
    rack.give(0, disk);
    Ok(())
}
