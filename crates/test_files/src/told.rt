use crate::journals::{Reader, read};
use crate::machine::Machine;
use file_disk::{ServedDisk, ServedRack};
use page_journal::{Journal, find_records};
use std::alloc::Global;
use std::fs;
use std::test::Fail;
use web_disk::{Disk, Rack};

// A journal with a record of a page that a start showed, one of a page that an answer showed, and one of time.
const JOURNAL: &[u8] = &[
    75, 83, 87, 69, 66, 0, 0, 6, // the header
    1, 18, 0, 0, 0, 2, 0, 0, 0, 0, 0, 0, 0, 0, 9, 9, 9, 9, 9, 9, 9, 9, 0, // its body is behind 5 bytes
    1, 18, 0, 0, 0, 2, 1, 0, 0, 0, 0, 0, 0, 0, 9, 9, 9, 9, 9, 9, 9, 9, 1, //
    1, 9, 0, 0, 0, 5, 7, 0, 0, 0, 0, 0, 0, 0, //
    0,
];

type Served<'m, 'r> = ServedDisk<'m, Machine<'r>>;

// Reads the records as an audit does.
fn audit(alloc: Global, disk: &mut Served<'_, '_>) -> Result<(), Fail> {
    if let Some(mut records) = find_records(alloc, disk)? {
        let mut reader = Reader::new(alloc);
        records.for_each(disk, &mut reader)?;
    }
    Ok(())
}

// Reads them as an opening does.
fn open<'m, 'r>(alloc: Global, disk: Served<'m, 'r>) -> Result<Served<'m, 'r>, Fail> {
    match Journal::begin(alloc, disk) {
        Ok(mut journal) => {
            let _ = read(alloc, &mut journal)?;
            Ok(journal.close())
        }
        Err((fault, _)) => Err(Fail::from(fault)),
    }
}

#[test]
fn audits_are_told_and_openings(rt: HostRuntime) -> Result<(), Fail> {
    let alloc = rt.alloc();
    let machine = Machine::with_clock(&rt, 0);
    fs::create_dir_all(&rt, "told-folder")?;
    fs::write(&rt, "told-folder/shelf-0", JOURNAL)?;
    let mut rack = ServedRack::new(&machine, alloc);
    let mut disk = rack.take(alloc, "told-folder", 0)?;
    drop(machine.told());
    for _ in 0..2 {
        audit(alloc, &mut disk)?;
        assert_eq!(rt;
            machine.told().as_str(),
            "hovgyelit: told-folder/shelf-0: 3 records, of 2 pages and 1 instances, audited in 0 ms\n"
        );
    }
    let disk = open(alloc, disk)?;
    assert_eq!(rt;
        machine.told().as_str(),
        "hovgyelit: told-folder/shelf-0: 3 records, of 2 pages and 1 instances, read in 0 ms\n"
    );
    let bytes = fs::read(&rt, "told-folder/shelf-0")?;
    assert_eq!(rt; bytes.as_slice(), JOURNAL);
    rack.give(0, disk);
    fs::remove_dir_all(&rt, "told-folder")?;
    Ok(())
}

#[test]
fn each_second_is_told_how_far_it_is(rt: HostRuntime) -> Result<(), Fail> {
    let alloc = rt.alloc();
    let machine = Machine::with_clock(&rt, 1);
    fs::create_dir_all(&rt, "slow-folder")?;
    fs::write(&rt, "slow-folder/shelf-0", JOURNAL)?;
    let mut rack = ServedRack::new(&machine, alloc);
    let mut disk = rack.take(alloc, "slow-folder", 0)?;
    drop(machine.told());
    audit(alloc, &mut disk)?;
    let audited = machine.told();
    let first = "hovgyelit: slow-folder/shelf-0: 1 records audited, up to byte 13 of 69\n";
    assert!(rt; audited.as_str().starts_with(first));
    let disk = open(alloc, disk)?;
    let opened = machine.told();
    let first = "hovgyelit: slow-folder/shelf-0: 1 records read, up to byte 13 of 69\n";
    assert!(rt; opened.as_str().starts_with(first));
    rack.give(0, disk);
    fs::remove_dir_all(&rt, "slow-folder")?;
    Ok(())
}
