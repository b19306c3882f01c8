ghost use Rattle.std.specs.Prelude.{◌≡◌, false, IfOk};

use crate::journals::{
    Calls, EARLIER, LATER, NEXT, Reader, crashed, disk_of, file_of, opened, read,
};
use disk_trio::Disks;
use page_journal::{Journal, JournalFault, NEWEST_FORMAT, find_records};
use std::alloc::Global;
use std::test::Fail;
use web_disk::{Disk, MemoryDisk, Wreck};

// How many calls of its disk a reading of the earlier records makes: its length, a sync, the header, two for each record and one for the
// end, and then three for each record and one for the end.
const CALLS: u64 = 20;

// Bytes that are no journal's, and the place where they are not.
const DAMAGED: &[(&[u8], u64)] = &[
    (b"x", 0),
    (b"KSWEB\0\0", 0),
    (b"KSWEB\0\0\0\0", 0),
    (b"KSWEB\0\0\x07\0", 0),
    (b"KSWEB\0\0\x06", 8),
    (b"KSWEB\0\0\x06\x01\x01\0\0", 8),
    (b"KSWEB\0\0\x06\x01\x01\0\0\0\x09", 14),
    (b"KSWEB\0\0\x06\x01\x01\0\0\0\x09\x01\x02\0\0\0\x09", 14),
];

// The format and the records that are found on disks that are open, each record after a comma.
fn found_in<D: Disk>(
    alloc: Global,
    disks: &mut Disks<D>,
) -> Result<Option<(u8, Vec<u8>)>, JournalFault> {
    let Some(mut records) = find_records(alloc, disks)? else {
        return Ok(None);
    };
    let mut reader = Reader::new(alloc);
    if records.for_each(disks, &mut reader).is_err() {
        return Err(JournalFault::DiskFault);
    }
    match reader.finish() {
        Some(text) => Ok(Some((records.format(), text))),
        None => Err(JournalFault::Memory),
    }
}

// Opens three disks, finds their records and forgets which file is the current one.
fn found<D: Disk>(
    alloc: Global,
    disks: &mut Disks<D>,
) -> Result<Option<(u8, Vec<u8>)>, JournalFault>
    requires closed { disks.old.known ≡ false }
    ensures closed { disks.new.known ≡ false }
{
    if disks.room_to_open().is_err() {
        return Err(JournalFault::Memory);
    }
    let answer = match disks.open() {
        Ok(()) => found_in(alloc, disks),
        Err(_) => Err(JournalFault::DiskFault),
    };
    disks.forget();
    answer
}

// Three disks, the first of which has these bytes, with calls that go so.
fn disks_of(alloc: Global, bytes: &[u8], calls: Calls) -> Result<Disks<MemoryDisk>, Fail>
    ensures { IfOk result (λ disks. disks.known ≡ false) }
{
    Ok(Disks::new(
        disk_of(alloc, bytes, calls)?,
        disk_of(alloc, b"", Calls::All)?,
        disk_of(alloc, b"", Calls::All)?,
    ))
}

#[test]
fn a_torn_end_is_left_as_it_is(rt: HostRuntime) -> Result<(), Fail> {
    let alloc = rt.alloc();
    for format in 1..=6 {
        let whole = file_of(alloc, format)?;
        let mut torn = file_of(alloc, format)?;
        let _ = torn.pop();
        torn.extend_from_slice(&[7, 1, 2, 3])?;
        let mut disks = disks_of(alloc, &torn, Calls::All)?;
        let Ok(Some((told, text))) = found(alloc, &mut disks) else {
            return Err(Fail::from("no records"));
        };
        assert_eq!(rt; told, format);
        assert_eq!(rt; text.as_slice(), EARLIER);
        let (a, b, root) = disks.close();
        assert_eq!(rt; a.bytes(), torn.as_slice());
        assert_eq!(rt; b.bytes(), b"".as_slice());
        assert_eq!(rt; root.bytes(), b"".as_slice());

        // Opened, it is mended.
        let (a, _, _) = opened(alloc, Disks::new(a, b, root))?.close().close();
        assert_eq!(rt; a.bytes(), whole.as_slice());
    }
    Ok(())
}

#[test]
fn damage_is_told_at_its_place(rt: HostRuntime) -> Result<(), Fail> {
    let alloc = rt.alloc();
    for (bytes, at) in DAMAGED {
        let mut disks = disks_of(alloc, bytes, Calls::All)?;
        match found(alloc, &mut disks) {
            Err(JournalFault::Damaged { place }) => assert_eq!(rt; place, *at),
            _ => return Err(Fail::from("records of other bytes")),
        }
        let (a, _, _) = disks.close();
        assert_eq!(rt; a.bytes(), *bytes);
    }
    Ok(())
}

#[test]
fn an_empty_disk_has_no_records_and_stays_empty(rt: HostRuntime) -> Result<(), Fail> {
    let alloc = rt.alloc();
    let mut disks = disks_of(alloc, b"", Calls::All)?;
    let Ok(None) = found(alloc, &mut disks) else {
        return Err(Fail::from("records of no bytes"));
    };
    assert_eq!(rt; disks.are_empty(), Ok(true));
    Ok(())
}

#[test]
fn the_file_that_the_root_names_is_read(rt: HostRuntime) -> Result<(), Fail> {
    let alloc = rt.alloc();
    for (byte, records) in [(0, EARLIER), (1, LATER)] {
        let mut disks = Disks::new(
            disk_of(alloc, &file_of(alloc, NEWEST_FORMAT)?, Calls::All)?,
            disk_of(alloc, NEXT, Calls::All)?,
            disk_of(alloc, &[byte], Calls::All)?,
        );
        let Ok(Some((_, text))) = found(alloc, &mut disks) else {
            return Err(Fail::from("no records"));
        };
        assert_eq!(rt; text.as_slice(), records);

        // The same disks can be opened.
        let Ok(mut journal) = Journal::begin_on(alloc, disks) else {
            return Err(Fail::from("no journal"));
        };
        assert_eq!(rt; read(alloc, &mut journal)?.as_slice(), records);
    }
    Ok(())
}

#[test]
fn each_call_that_fails_is_a_fault(rt: HostRuntime) -> Result<(), Fail> {
    let alloc = rt.alloc();
    let bytes = file_of(alloc, NEWEST_FORMAT)?;
    for call in 0..=CALLS {
        let mut disks = disks_of(alloc, &bytes, Calls::Fail(call))?;
        if call == CALLS {
            let Ok(Some((_, text))) = found(alloc, &mut disks) else {
                return Err(Fail::from("no records"));
            };
            assert_eq!(rt; text.as_slice(), EARLIER);
        }
        let Err(JournalFault::DiskFault) = found(alloc, &mut disks) else {
            return Err(Fail::from("a call that is not made"));
        };
        // Whichever failed, it is read after it, and nothing was written.
        let Ok(Some((_, text))) = found(alloc, &mut disks) else {
            return Err(Fail::from("no records"));
        };
        assert_eq!(rt; text.as_slice(), EARLIER);
        assert_eq!(rt; disks.faults(), 1);
        let (a, _, _) = disks.close();
        assert_eq!(rt; a.bytes(), bytes.as_slice());
    }
    Ok(())
}

#[test]
fn what_is_read_is_on_its_disk(rt: HostRuntime) -> Result<(), Fail> {
    let alloc = rt.alloc();
    let bytes = file_of(alloc, NEWEST_FORMAT)?;
    for (reached, fill, short) in [(0, 0, true), (0, 255, false), (u64::MAX, 1, false)] {
        let mut a = disk_of(alloc, b"", Calls::All)?;
        a.room(bytes.len() as u64)?;
        a.write_at(0, &bytes)?;
        let b = disk_of(alloc, b"", Calls::All)?;
        let root = disk_of(alloc, b"", Calls::All)?;
        let mut disks = Disks::new(a, b, root);
        let Ok(Some((_, text))) = found(alloc, &mut disks) else {
            return Err(Fail::from("no records"));
        };
        assert_eq!(rt; text.as_slice(), EARLIER);
        let wreck = Wreck {
            reached,
            fill,
            short,
        };
        let (a, _, _) = crashed(alloc, disks, wreck)?.close();
        assert_eq!(rt; a.bytes(), bytes.as_slice());
    }
    Ok(())
}
