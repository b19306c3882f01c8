use crate::journals::{Calls, EARLIER, LATER, NEXT, add, disk_of, file_of, opened, read, replaced};
use disk_trio::Disks;
use page_journal::{Journal, JournalFault, NEWEST_FORMAT};
use std::alloc::Global;
use std::test::Fail;
use web_disk::MemoryDisk;

// Three disks, the first of which has the earlier records in this format.
fn disks_of(alloc: Global, format: u8) -> Result<Disks<MemoryDisk>, Fail> {
    Ok(Disks::new(
        disk_of(alloc, &file_of(alloc, format)?, Calls::All)?,
        disk_of(alloc, b"", Calls::All)?,
        disk_of(alloc, b"", Calls::All)?,
    ))
}

#[test]
fn each_format_is_read_and_the_newest_takes_its_place(rt: HostRuntime) -> Result<(), Fail> {
    let alloc = rt.alloc();
    for format in 1..=6 {
        let mut journal = opened(alloc, disks_of(alloc, format)?)?;
        assert_eq!(rt; journal.format(), format);
        assert_eq!(rt; read(alloc, &mut journal)?.as_slice(), EARLIER);
        replaced(&mut journal)??;
        assert_eq!(rt; journal.format(), NEWEST_FORMAT);
        let mut journal = opened(alloc, journal.close())?;
        assert_eq!(rt; journal.format(), NEWEST_FORMAT);
        assert_eq!(rt; read(alloc, &mut journal)?.as_slice(), LATER);
    }
    Ok(())
}

#[test]
fn a_record_is_added_in_the_format_of_its_file(rt: HostRuntime) -> Result<(), Fail> {
    let alloc = rt.alloc();
    let mut journal = opened(alloc, disks_of(alloc, 3)?)?;
    add(&mut journal, b"gh")?;
    let (a, _, _) = journal.close().close();
    let mut bytes = file_of(alloc, 3)?;
    let _ = bytes.pop();
    bytes.extend_from_slice(&[1, 2, 0, 0, 0, b'g', b'h', 0])?;
    assert_eq!(rt; a.bytes(), bytes.as_slice());
    Ok(())
}

#[test]
fn a_format_to_come_is_refused(rt: HostRuntime) -> Result<(), Fail> {
    let alloc = rt.alloc();
    for format in [0, 7, 255] {
        match Journal::begin_on(alloc, disks_of(alloc, format)?.renew()) {
            Err((JournalFault::Damaged { place }, _)) => assert_eq!(rt; place, 0),
            _ => return Err(Fail::from("another journal")),
        }
    }
    Ok(())
}

#[test]
fn the_first_byte_of_a_root_names_a_file(rt: HostRuntime) -> Result<(), Fail> {
    let alloc = rt.alloc();
    for byte in 0..=255u8 {
        let disks = Disks::new(
            disk_of(alloc, &file_of(alloc, NEWEST_FORMAT)?, Calls::All)?,
            disk_of(alloc, NEXT, Calls::All)?,
            disk_of(alloc, &[byte, 1], Calls::All)?,
        );
        let mut journal = opened(alloc, disks)?;
        let text = if byte % 2 == 0 { EARLIER } else { LATER };
        assert_eq!(rt; read(alloc, &mut journal)?.as_slice(), text);
    }
    Ok(())
}

#[test]
fn disks_are_empty_where_all_three_are(rt: HostRuntime) -> Result<(), Fail> {
    let alloc = rt.alloc();
    for (a, b, root, empty) in [
        (b"".as_slice(), b"".as_slice(), b"".as_slice(), true),
        (b"x", b"", b"", false),
        (b"", b"x", b"", false),
        (b"", b"", b"x", false),
    ] {
        let disks = Disks::new(
            disk_of(alloc, a, Calls::All)?,
            disk_of(alloc, b, Calls::All)?,
            disk_of(alloc, root, Calls::All)?,
        );
        let mut disks = disks.renew();
        assert_eq!(rt; disks.are_empty(), Ok(empty));
    }
    Ok(())
}

#[test]
fn a_root_that_is_not_read_is_a_fault(rt: HostRuntime) -> Result<(), Fail> {
    let alloc = rt.alloc();
    // It is put on its disk, its length is told, and it is read.
    for call in 0..3 {
        let disks = Disks::new(
            disk_of(alloc, b"", Calls::All)?,
            disk_of(alloc, &file_of(alloc, NEWEST_FORMAT)?, Calls::All)?,
            disk_of(alloc, b"\x01", Calls::Fail(call))?,
        );
        let Err((fault, disks)) = Journal::begin_on(alloc, disks.renew()) else {
            return Err(Fail::from("a journal without its root"));
        };
        assert_eq!(rt; fault, JournalFault::DiskFault);
        let mut journal = opened(alloc, disks)?;
        assert_eq!(rt; journal.faults(), 1);
        assert_eq!(rt; read(alloc, &mut journal)?.as_slice(), EARLIER);
    }
    Ok(())
}
