//! Each byte of a journal changed in turn.

use crate::audits::{audited_with, visited};
use page_audit::{AuditFault, Audited};
use std::alloc::Global;
use std::test::Fail;
use test_compactions::files::Files;
use test_compactions::sums::{RULES, VISITS};

// The header, and the gates of the records of a setup, of a start, of an answer that shows a page and of one that ends; and the last gate.
const GATES: &[usize] = &[0, 8, 301, 405, 558, 618];

// From the first of these places up to the second a byte may be another one in a journal that a shelf writes: gates, the shelf's number, the
// name and the text of the script, nonces, deadlines up to the longest life, the number of the last segment, and its answer's digit.
const FREE: &[(usize, usize)] = &[
    (8, 9),
    (14, 18),
    (26, 29),
    (33, 302),
    (315, 323),
    (339, 343),
    (405, 406),
    (419, 427),
    (475, 479),
    (558, 559),
    (564, 572),
    (609, 610),
    (618, 619),
];

// Whether such a byte stands at this place.
fn is_free(place: usize) -> bool {
    FREE.iter().any(|(from, to)| *from <= place && place < *to)
}

// The place of the header or gate in front of a byte, or its own.
fn gate_of(place: usize) -> u64 {
    let mut last = 0;
    for gate in GATES {
        if *gate <= place {
            last = *gate;
        }
    }
    last as u64
}

// Whether an audit may answer so where the byte at this place is another one: what it tells is not in front of that byte's record.
fn may_answer(place: usize, answer: Result<Audited, AuditFault>) -> bool {
    match answer {
        Ok(Audited::Yes { .. }) => is_free(place),
        Ok(Audited::No { place: gate, .. }) => gate_of(place) <= gate,
        Err(AuditFault::Damaged { place: gate }) => gate_of(place) <= gate,
        Err(_) => false,
    }
}

// The places of the bytes at which another answer comes where this bit of them is turned.
fn not_told(alloc: Global, files: &Files, bit: u8) -> Result<Vec<usize>, Fail> {
    let mut places = Vec::new(alloc);
    for (place, byte) in files.a.iter().enumerate() {
        if !may_answer(place, audited_with(alloc, files, place, *byte ^ bit)?) {
            places.push(place)?;
        }
    }
    Ok(places)
}

#[test]
fn each_byte_that_a_shelf_does_not_write_is_told(rt: HostRuntime) -> Result<(), Fail> {
    let alloc = rt.alloc();
    let files = visited(alloc, VISITS, RULES)?;
    for bit in [1u8, 128] {
        assert_eq!(rt;
            not_told(alloc, &files, bit)?.as_slice(),
            [0usize; 0].as_slice()
        );
    }
    Ok(())
}
