use crate::journals::{EARLIER, LATER, NEXT, add, opened, read, replaced};
use crate::racks::{Files, clear, rack_of};
use disk_trio::Disks;
use file_disk::FileDisk;
use std::alloc::Global;
use std::fs;
use std::fs::File;
use std::test::Fail;
use web_disk::Rack;

const FOLDER: &str = "three-files";

// Takes three files.
fn taken(alloc: Global, rack: &mut Files<'_>) -> Result<Disks<FileDisk<File>>, Fail> {
    let a = rack.take(alloc, FOLDER, 0)?;
    let b = rack.take(alloc, FOLDER, 16)?;
    let root = rack.take(alloc, FOLDER, 32)?;
    Ok(Disks::new(a, b, root))
}

// Gives them back.
fn give(rack: &mut Files<'_>, disks: Disks<FileDisk<File>>) {
    let (a, b, root) = disks.close();
    rack.give(0, a);
    rack.give(16, b);
    rack.give(32, root);
}

#[test]
fn a_journal_in_three_files_is_replaced(rt: HostRuntime) -> Result<(), Fail> {
    let alloc = rt.alloc();
    clear(&rt, FOLDER)?;
    let mut rack = rack_of(&rt);
    let disks = taken(alloc, &mut rack)?;
    let mut journal = opened(alloc, disks)?;
    add(&mut journal, b"abc")?;
    add(&mut journal, b"de")?;
    add(&mut journal, b"f")?;
    assert_eq!(rt; read(alloc, &mut journal)?.as_slice(), EARLIER);
    replaced(&mut journal)??;
    give(&mut rack, journal.close());

    assert_eq!(rt; fs::read(&rt, "three-files/shelf-0")?.len(), 30);
    assert_eq!(rt; fs::read(&rt, "three-files/shelf-16")?.as_slice(), NEXT);
    assert_eq!(rt;
        fs::read(&rt, "three-files/shelf-32")?.as_slice(),
        [1u8].as_slice()
    );

    let disks = taken(alloc, &mut rack)?;
    let mut journal = opened(alloc, disks)?;
    assert_eq!(rt; read(alloc, &mut journal)?.as_slice(), LATER);
    assert_eq!(rt; journal.faults(), 0);
    give(&mut rack, journal.close());
    clear(&rt, FOLDER)
}
