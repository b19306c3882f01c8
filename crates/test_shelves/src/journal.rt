//! The greatest length of a journal.
ghost use Rattle.std.specs.Prelude.{◌≤◌, ◌^◌};

use page_journal::{AppendFault, Journal};
use std::alloc::Global;
use std::test::Fail;
use web_disk::RepeatDisk;

const HEADER: &[u8] = &[75, 83, 87, 69, 66, 0, 0, 6];

// A disk with 1,023 records of so many bytes, the gate and the length of each included. The length is written for 2^20.
fn long_disk(alloc: Global, size: usize) -> Result<RepeatDisk, Fail>
    requires low { 4 ≤ size }
    requires high { size ≤ 2 ^ 32 }
{
    let mut record = vec![in alloc; 0u8; size]?;
    record[0] = 1;
    record[1] = 251;
    record[2] = 255;
    record[3] = 15;
    let header = HEADER.to_vec(alloc)?;
    let gate = vec![in alloc; 0u8; 1]?;
    Ok(RepeatDisk::new(header, record, 1_023, gate))
}

// What a journal of 1,072,693,257 bytes answers to a body of this length.
fn added(alloc: Global, size: u32) -> Result<Result<(), AppendFault>, Fail> {
    let mut journal = match Journal::begin(alloc, long_disk(alloc, 1_048_576)?) {
        Ok(journal) => journal,
        Err(_) => return Err(Fail::from("not opened")),
    };
    let body = vec![in alloc; 0u8; size as usize]?;
    journal.room(size)?;
    Ok(journal.append(&body))
}

#[test]
fn a_journal_has_at_most_1073741824_bytes(rt: HostRuntime) -> Result<(), Fail> {
    let alloc = rt.alloc();
    assert_eq!(rt; added(alloc, 1_048_562)?, Ok(()));
    assert_eq!(rt;
        added(alloc, 1_048_563)?,
        Err(AppendFault::Full { len: 1_073_741_825 })
    );
    Ok(())
}
