//! Audits of journals in files.

use crate::outside::{FULL, Machine, UNREAD, comes_to, emptied, overwrite, stands_in};
use crate::transcripts::{play_first_sums, play_sums_of_two};
use std::fs;
use std::test::Fail;

// Whether an audit of so many shelves of a folder, which reads nothing, comes to this.
fn is_audited<R: Machine>(
    rt: &R,
    folder: &str,
    shelves: &str,
    told: (u8, &str),
) -> Result<bool, Fail> {
    let words = &[
        "hovgyelit",
        "audit",
        "--journal",
        folder,
        "--shelves",
        shelves,
    ];
    comes_to(rt, words, b"", &UNREAD, told)
}

// Whether an audit of one shelf of a folder comes to this, and leaves this file as it is.
fn is_left_audited<R: Machine>(
    rt: &R,
    folder: &str,
    path: &str,
    told: (u8, &str),
) -> Result<bool, Fail> {
    let before = fs::read(rt, path)?;
    let is_told = is_audited(rt, folder, "1", told)?;
    Ok(stands_in(rt, path, before.as_slice())? && is_told)
}

// What stands in a Let frame that has done the number 3: its part, how many are done, and that.
const DONE: &[u8] = &[1, 0, 0, 0, 1, 0, 0, 0, 0, 3, 0, 0, 0, 0, 0, 0, 0];

// What stands in a Let frame that has done the number 4.
const OTHER: &[u8] = &[1, 0, 0, 0, 1, 0, 0, 0, 0, 4, 0, 0, 0, 0, 0, 0, 0];

// Makes the number 3 of the second page of a journal 4.
fn tampered<R: Machine>(rt: &R, path: &str) -> Result<(), Fail> {
    overwrite(rt, path, DONE, OTHER)
}

#[test]
fn the_first_rows_pass(rt: HostRuntime) -> Result<(), Fail> {
    let folder = "audited-sums";
    play_first_sums(&rt, folder, "1")?;
    let told = (0, "shelf 0 ok 4\n");
    assert!(rt; is_left_audited(&rt, folder, "audited-sums/shelf-0", told)?);
    fs::remove_dir_all(&rt, folder)?;
    Ok(())
}

#[test]
fn a_changed_state_is_told_at_its_place(rt: HostRuntime) -> Result<(), Fail> {
    let folder = "tampered-sums";
    play_first_sums(&rt, folder, "1")?;
    tampered(&rt, "tampered-sums/shelf-0")?;
    let told = (12, "error 12 0 405 state\n");
    assert!(rt; is_left_audited(&rt, folder, "tampered-sums/shelf-0", told)?);
    fs::remove_dir_all(&rt, folder)?;
    Ok(())
}

// How many shelves are audited, and what that comes to.
type Audit = (&'static str, (u8, &'static str));

// Refuses audits of the shelves of a folder that come to something else.
fn expect_audits<R: Machine>(rt: &R, folder: &str, audits: &[Audit]) -> Result<(), Fail> {
    for (shelves, told) in audits {
        if !is_audited(rt, folder, shelves, *told)? {
            return Err(Fail::from(told.1));
        }
    }
    Ok(())
}

const BOTH_PASS: &[Audit] = &[
    ("2", (0, "shelf 0 ok 4\nshelf 1 ok 4\n")),
    ("3", (0, "shelf 0 ok 4\nshelf 1 ok 4\nshelf 2 ok 0\n")),
];

const FIRST_PASSES: &[Audit] = &[
    ("1", (0, "shelf 0 ok 4\n")),
    ("3", (12, "shelf 0 ok 4\nerror 12 1 405 state\n")),
];

#[test]
fn shelves_are_audited_in_order_up_to_a_no(rt: HostRuntime) -> Result<(), Fail> {
    let folder = "audited-pair";
    play_sums_of_two(&rt, folder)?;
    expect_audits(&rt, folder, BOTH_PASS)?;
    tampered(&rt, "audited-pair/shelf-1")?;
    expect_audits(&rt, folder, FIRST_PASSES)?;
    tampered(&rt, "audited-pair/shelf-0")?;
    assert!(rt; is_audited(&rt, folder, "2", (12, "error 12 0 405 state\n"))?);
    fs::remove_dir_all(&rt, folder)?;
    Ok(())
}

#[test]
fn an_empty_folder_has_no_records(rt: HostRuntime) -> Result<(), Fail> {
    emptied(&rt, "audited-nothing")?;
    assert!(rt;
        is_audited(
            &rt,
            "audited-nothing",
            "2",
            (0, "shelf 0 ok 0\nshelf 1 ok 0\n")
        )?
    );
    assert!(rt; is_audited(&rt, "-", "1", (0, "shelf 0 ok 0\n"))?);
    emptied(&rt, "audited-nothing")
}

// Makes the first byte of a journal another one.
fn damage<R: Machine>(rt: &R, path: &str) -> Result<(), Fail> {
    let mut bytes = fs::read(rt, path)?;
    if !bytes.is_empty() {
        bytes[0] = b'X';
    }
    fs::write(rt, path, bytes.as_slice())?;
    Ok(())
}

#[test]
fn a_damaged_journal_is_told(rt: HostRuntime) -> Result<(), Fail> {
    let folder = "damaged-pair";
    play_sums_of_two(&rt, folder)?;
    damage(&rt, "damaged-pair/shelf-1")?;
    let told = "shelf 0 ok 4\nerror 8 1 0 damaged\n";
    assert!(rt; is_audited(&rt, folder, "2", (8, told))?);
    fs::remove_dir_all(&rt, folder)?;
    Ok(())
}

// A journal of format 1: its head, the script `a`, a sweep to the clock 50, and the end.
const OLD: &[u8] =
    b"KSWEB\0\0\x01\x01\x14\0\0\0\x01\0\0\0\0\x01\0\0\0\x01\0\0\0a\x02\0\0\0'a\x01\x09\0\0\0\x05\x32\0\0\0\0\0\0\0\0";

// Makes a folder that holds this file alone.
fn put_alone<R: Machine>(rt: &R, folder: &str, path: &str, bytes: &[u8]) -> Result<(), Fail> {
    emptied(rt, folder)?;
    fs::create_dir_all(rt, folder)?;
    fs::write(rt, path, bytes)?;
    Ok(())
}

#[test]
fn a_journal_of_an_older_format_is_audited(rt: HostRuntime) -> Result<(), Fail> {
    let folder = "audited-old";
    put_alone(&rt, folder, "audited-old/shelf-0", OLD)?;
    assert!(rt; is_audited(&rt, folder, "1", (0, "shelf 0 ok 2\n"))?);
    assert!(rt; stands_in(&rt, "audited-old/shelf-0", OLD)?);
    fs::remove_dir_all(&rt, folder)?;
    Ok(())
}

#[test]
fn an_audit_whose_line_cannot_be_written_ends_with_6(rt: HostRuntime) -> Result<(), Fail> {
    let words = &["hovgyelit", "audit"];
    assert!(rt; comes_to(&rt, words, b"", &FULL, (6, ""))?);
    Ok(())
}
