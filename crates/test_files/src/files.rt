ghost use Rattle.std.specs.Prelude.{◌≡◌, false, IfOk};
ghost use Rattle.page_journal.specs.Settled.{IsSound, is_broken};

use crate::journals::{add, read};
use crate::racks::{clear, rack_of};
use file_disk::FileDisk;
use page_journal::Journal;
use std::alloc::Global;
use std::fs;
use std::fs::File;
use std::os::unix::fs::MetadataExt;
use std::test::Fail;
use web_disk::{Disk, Rack, RackFault};
use web_outside::Failed;

#[test]
fn a_file_holds_what_was_written(rt: HostRuntime) -> Result<(), Fail> {
    clear(&rt, "kept-bytes")?;
    let alloc = rt.alloc();
    let mut rack = rack_of(&rt);
    let mut disk = rack.take(alloc, "kept-bytes/of/shelves", 3)?;
    assert_eq!(rt; disk.len(), Ok(0));
    disk.room(16)?;
    disk.write_at(0, b"hello ink")?;
    disk.write_at(6, b"world")?;
    disk.sync()?;
    let mut five = [0u8; 5];
    disk.read(6, &mut five)?;
    assert_eq!(rt; five.as_slice(), b"world".as_slice());
    disk.cut(7)?;
    disk.sync()?;
    assert_eq!(rt; disk.len(), Ok(7));
    assert_eq!(rt; disk.read(3, &mut five), Err(Failed));
    assert_eq!(rt; disk.faults(), 1);
    rack.give(3, disk);
    assert_eq!(rt; rack.faults(), 1);

    let mut disk = rack.take(alloc, "kept-bytes/of/shelves", 3)?;
    assert_eq!(rt; disk.len(), Ok(7));
    assert_eq!(rt; disk.faults(), 0);
    rack.give(3, disk);
    let bytes = fs::read(&rt, "kept-bytes/of/shelves/shelf-3")?;
    assert_eq!(rt; bytes.as_slice(), b"hello w".as_slice());
    let mode = fs::metadata(&rt, "kept-bytes/of/shelves/shelf-3")?.mode();
    assert_eq!(rt; mode % 0o1000, 0o600);
    clear(&rt, "kept-bytes")
}

#[test]
fn a_file_that_is_open_is_refused(rt: HostRuntime) -> Result<(), Fail> {
    clear(&rt, "open-files")?;
    let alloc = rt.alloc();
    let mut rack = rack_of(&rt);
    let mut other = rack_of(&rt);
    let disk = rack.take(alloc, "open-files", 0)?;
    assert_eq!(rt;
        other.take(alloc, "open-files", 0).err(),
        Some(RackFault::Failed)
    );
    assert_eq!(rt; other.faults(), 1);
    let next = other.take(alloc, "open-files", 1)?;
    other.give(1, next);
    rack.give(0, disk);
    let disk = other.take(alloc, "open-files", 0)?;
    other.give(0, disk);
    assert_eq!(rt; rack.faults(), 0);
    assert_eq!(rt; other.faults(), 1);
    clear(&rt, "open-files")
}

#[test]
fn what_is_no_file_of_a_folder_is_refused(rt: HostRuntime) -> Result<(), Fail> {
    clear(&rt, "no-files")?;
    let alloc = rt.alloc();
    fs::create_dir_all(&rt, "no-files/of/shelf-0")?;
    fs::write(&rt, "no-files/text", "a text")?;
    std::os::unix::fs::symlink(&rt, "/dev/null", "no-files/shelf-1")?;
    let mut rack = rack_of(&rt);
    let places = [
        ("no-files/of", 0),
        ("no-files/text", 0),
        ("no-files/text/in", 0),
        ("no-files", 1),
    ];
    let mut count = 0u64;
    for (folder, number) in places {
        count = count.saturating_add(1);
        assert_eq!(rt;
            rack.take(alloc, folder, number).err(),
            Some(RackFault::Failed),
            "{folder}"
        );
        assert_eq!(rt; rack.faults(), count);
    }
    clear(&rt, "no-files")
}

// Records, each with what is read of a journal before it is added and after it.
const ADDED: &[(&[u8], &[u8], &[u8])] = &[
    (b"", b"abc", b",abc"),
    (b",abc", b"", b",abc,"),
    (b",abc,", b"defghij", b",abc,,defghij"),
];

// A journal of these.
const THREE: &[u8] = &[
    75, 83, 87, 69, 66, 0, 0, 6, 1, 3, 0, 0, 0, b'a', b'b', b'c', 1, 0, 0, 0, 0, 1, 7, 0, 0, 0,
    b'd', b'e', b'f', b'g', b'h', b'i', b'j', 0,
];

type FileJournal = Journal<FileDisk<File>>;

fn begun(alloc: Global, disk: FileDisk<File>) -> Result<FileJournal, Fail>
    ensures sound { IfOk result (λ journal. IsSound journal) }
    ensures whole { IfOk result (λ journal. is_broken journal ≡ false) }
{
    match Journal::begin(alloc, disk) {
        Ok(journal) => Ok(journal),
        Err((fault, _)) => Err(Fail::from(fault)),
    }
}

// Opens the journal of a disk and adds a record; tells what is read of it before and after that, and the disk's count of faults.
fn added(
    alloc: Global,
    disk: FileDisk<File>,
    body: &[u8],
) -> Result<(FileDisk<File>, Vec<u8>, Vec<u8>, u64), Fail> {
    let mut journal = begun(alloc, disk)?;
    let before = read(alloc, &mut journal)?;
    add(&mut journal, body)?;
    let behind = read(alloc, &mut journal)?;
    let faults = journal.faults();
    Ok((journal.close(), before, behind, faults))
}

#[test]
fn a_journal_in_a_file_has_its_records_again(rt: HostRuntime) -> Result<(), Fail> {
    clear(&rt, "a-journal")?;
    let alloc = rt.alloc();
    let mut rack = rack_of(&rt);
    for (had, body, has) in ADDED {
        let disk = rack.take(alloc, "a-journal", 0)?;
        let (disk, before, behind, faults) = added(alloc, disk, body)?;
        rack.give(0, disk);
        assert_eq!(rt;
            (before.as_slice(), behind.as_slice(), faults),
            (*had, *has, 0)
        );
    }
    let bytes = fs::read(&rt, "a-journal/shelf-0")?;
    assert_eq!(rt; bytes.as_slice(), THREE);
    clear(&rt, "a-journal")
}
