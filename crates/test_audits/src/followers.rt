//! Audits of the journals of shelves that follow another one's, and of such that were promoted.

use crate::audits::{audited, changed, visited};
use audit_spec::Word;
use page_audit::{AuditFault, Audited};
use std::alloc::Global;
use std::test::Fail;
use test_compactions::files::Files;
use test_compactions::old::files_with;
use test_compactions::sums::{RULES, VISITS};

// The header of a file.
const HEADER: &[u8] = b"KSWEB\0\0\x06";

// The record that tells that a shelf follows, after its gate.
const FOLLOW: &[u8] = b"\x01\x01\0\0\0\x08";

// The record that tells that a shelf was promoted, after its gate.
const PROMOTED: &[u8] = b"\x01\x01\0\0\0\x09";

// The file of these records, each after its gate.
fn file_of(alloc: Global, records: &[&[u8]]) -> Result<Files, Fail> {
    let mut file = HEADER.to_vec(alloc)?;
    for record in records {
        file.extend_from_slice(record)?;
    }
    file.push(0)?;
    Ok(files_with(alloc, file))
}

// What an audit answers to the file of these records.
fn answer(alloc: Global, records: &[&[u8]]) -> Result<Result<Audited, AuditFault>, Fail> {
    let files = file_of(alloc, records)?;
    audited(alloc, &files)
}

// That so many records pass.
fn passes(records: u64) -> Result<Audited, AuditFault> {
    Ok(Audited::Yes { records })
}

// That the record with this gate is damage.
fn damaged(place: u64) -> Result<Audited, AuditFault> {
    Err(AuditFault::Damaged { place })
}

// That the record with this gate is none that a shelf writes, for this reason.
fn found(place: u64, word: Word) -> Result<Audited, AuditFault> {
    Ok(Audited::No { place, word })
}

// The records of a leader's journal, which have their gates at 8, 301, 405 and 558, up to the last gate at 618.
fn led(alloc: Global) -> Result<Vec<u8>, Fail> {
    let files = visited(alloc, VISITS, RULES)?;
    if files.a.len() != 619 {
        return Err(Fail::from("another journal"));
    }
    Ok(files.a[8..618].to_vec(alloc)?)
}

#[test]
fn the_journal_of_a_follower_passes(rt: HostRuntime) -> Result<(), Fail> {
    let alloc = rt.alloc();
    let led = led(alloc)?;
    let records = led.as_slice();
    assert_eq!(rt; answer(alloc, &[FOLLOW])?, passes(1));
    assert_eq!(rt; answer(alloc, &[FOLLOW, PROMOTED])?, passes(2));
    assert_eq!(rt; answer(alloc, &[FOLLOW, records])?, passes(5));
    assert_eq!(rt; answer(alloc, &[FOLLOW, records, PROMOTED])?, passes(6));
    assert_eq!(rt; answer(alloc, &[FOLLOW, PROMOTED, records])?, passes(6));
    let (early, late) = records.split_at(293.min(records.len()));
    assert_eq!(rt; answer(alloc, &[FOLLOW, early, PROMOTED, late])?, passes(6));
    Ok(())
}

#[test]
fn a_record_out_of_its_place_is_damage(rt: HostRuntime) -> Result<(), Fail> {
    let alloc = rt.alloc();
    let led = led(alloc)?;
    let records = led.as_slice();
    assert_eq!(rt; answer(alloc, &[PROMOTED])?, damaged(8));
    assert_eq!(rt; answer(alloc, &[FOLLOW, FOLLOW])?, damaged(14));
    assert_eq!(rt; answer(alloc, &[FOLLOW, PROMOTED, PROMOTED])?, damaged(20));
    assert_eq!(rt; answer(alloc, &[records, FOLLOW])?, damaged(618));
    assert_eq!(rt; answer(alloc, &[records, PROMOTED])?, damaged(618));
    assert_eq!(rt; answer(alloc, &[FOLLOW, records, FOLLOW])?, damaged(624));
    assert_eq!(rt;
        answer(alloc, &[FOLLOW, records, PROMOTED, PROMOTED])?,
        damaged(630)
    );
    assert_eq!(rt;
        answer(alloc, &[FOLLOW, PROMOTED, records, PROMOTED])?,
        damaged(630)
    );
    Ok(())
}

// What an audit answers to the file of these records with this byte at this place.
fn answer_with(
    alloc: Global,
    records: &[&[u8]],
    place: usize,
    byte: u8,
) -> Result<Result<Audited, AuditFault>, Fail> {
    let files = file_of(alloc, records)?;
    let changed = changed(alloc, &files, place, byte)?;
    audited(alloc, &changed)
}

// What is told of a leader's record is told of its follower's, whose gate is 6 bytes later, or 12 after a promotion: of the number that the second
// page's state holds, at 522; and of a page that an answer names, at 580. The shelf's number is at 14.
#[test]
fn a_change_is_told_at_its_place(rt: HostRuntime) -> Result<(), Fail> {
    let alloc = rt.alloc();
    let led = led(alloc)?;
    let follower = [FOLLOW, led.as_slice()];
    let early = [FOLLOW, PROMOTED, led.as_slice()];
    assert_eq!(rt;
        answer_with(alloc, &follower, 528, 4)?,
        found(411, Word::State)
    );
    assert_eq!(rt;
        answer_with(alloc, &early, 534, 4)?,
        found(417, Word::State)
    );
    assert_eq!(rt;
        answer_with(alloc, &follower, 586, 9)?,
        found(564, Word::Target)
    );
    assert_eq!(rt;
        answer_with(alloc, &early, 592, 9)?,
        found(570, Word::Target)
    );
    assert_eq!(rt; answer_with(alloc, &follower, 20, 3)?, passes(5));
    assert_eq!(rt; answer_with(alloc, &early, 26, 3)?, passes(6));
    Ok(())
}
