use crate::journals::{
    Calls, EARLIER, LATER, NEXT, add, crashed, disk_of, file_of, opened, read, replaced,
};
use disk_trio::{Disks, Side};
use page_journal::{Journal, NEWEST_FORMAT};
use std::alloc::Global;
use std::test::Fail;
use web_disk::{MemoryDisk, Wreck};

// Crashes, and the file that a root names whose byte was lost there.
const WRECKS: &[(u64, u8, bool, Option<Side>)] = &[
    (u64::MAX, 0, false, None),
    (0, 0, true, Some(Side::A)),
    (0, 0, false, Some(Side::A)),
    (0, 1, false, Some(Side::B)),
    (0, 255, false, Some(Side::B)),
    (12, 1, false, None),
];

// The roots of disks, and the file that each names.
const ROOTS: &[(&[u8], Side)] = &[(&[], Side::A), (&[6], Side::A), (&[1], Side::B)];

// Three disks whose root names this file, which has the earlier records. The other one's bytes are no journal's, and more than
// those that take their place.
fn disks_with(
    alloc: Global,
    root: (&[u8], Side),
    other_calls: Calls,
    root_calls: Calls,
) -> Result<Disks<MemoryDisk>, Fail> {
    let (bytes, side) = root;
    let earlier = file_of(alloc, NEWEST_FORMAT)?;
    let current = disk_of(alloc, &earlier, Calls::All)?;
    let other = disk_of(alloc, &[1; 99], other_calls)?;
    let root = disk_of(alloc, bytes, root_calls)?;
    Ok(match side {
        Side::A => Disks::new(current, other, root),
        Side::B => Disks::new(other, current, root),
    })
}

// How the calls of the other file's disk and of the root's go, and what comes of it: whether the replacement is done, the file that the
// root names where its byte is not lost, and whether a crash may lose it.
#[derive(Clone, Copy)]
struct Case {
    other: Calls,
    root: Calls,
    done: bool,
    named: Side,
    may_be_lost: bool,
}

// What is read after a replacement.
#[derive(Drop)]
struct Outcome {
    done: bool,
    faults: u64,
    text: Vec<u8>,
}

// Opens three disks, puts the next file in the place of the one that their root names, lets them crash, if they are to, and opens them
// again.
fn outcome_of(
    alloc: Global,
    disks: Disks<MemoryDisk>,
    wreck: Option<Wreck>,
) -> Result<Outcome, Fail> {
    let mut journal = opened(alloc, disks)?;
    let done = replaced(&mut journal)?.is_ok();
    let faults = journal.faults();
    let disks = match wreck {
        Some(wreck) => crashed(alloc, journal.close(), wreck)?,
        None => journal.close(),
    };
    let mut journal = opened(alloc, disks)?;
    let text = read(alloc, &mut journal)?;
    Ok(Outcome { done, faults, text })
}

// Refuses another outcome than this.
fn expect(outcome: &Outcome, done: bool, text: &[u8]) -> Result<(), Fail> {
    if outcome.done != done {
        return Err(Fail::from("the replacement went otherwise"));
    }
    if outcome.faults != u64::from(!done) {
        return Err(Fail::from("another count of faults"));
    }
    if outcome.text.as_slice() != text {
        return Err(Fail::from("other records"));
    }
    Ok(())
}

// Lets a replacement crash in each way.
fn expect_case(alloc: Global, root: (&[u8], Side), case: Case) -> Result<(), Fail> {
    let (_, side) = root;
    for (reached, fill, short, lost) in WRECKS {
        let wreck = Wreck {
            reached: *reached,
            fill: *fill,
            short: *short,
        };
        let named = match lost {
            Some(lost) if case.may_be_lost => *lost,
            _ => case.named,
        };
        let text = if named == side { EARLIER } else { LATER };
        let disks = disks_with(alloc, root, case.other, case.root)?;
        let outcome = outcome_of(alloc, disks, Some(wreck))?;
        expect(&outcome, case.done, text)?;
    }
    Ok(())
}

// The number of the call that writes a root: before it, the root was put on its disk, its length was told, and its first byte was read.
fn write_of(root: &[u8]) -> u64 {
    if root.is_empty() { 2 } else { 3 }
}

#[test]
fn a_fill_that_crashes_leaves_the_earlier_file(rt: HostRuntime) -> Result<(), Fail> {
    for (root, side) in ROOTS {
        // The other file is cut, written and synced.
        for call in 0..3 {
            for other in [Calls::StopAt(call), Calls::Fail(call)] {
                let case = Case {
                    other,
                    root: Calls::All,
                    done: false,
                    named: *side,
                    may_be_lost: false,
                };
                expect_case(rt.alloc(), (root, *side), case)?;
            }
        }
    }
    Ok(())
}

#[test]
fn a_root_that_is_not_written_names_the_earlier_file(rt: HostRuntime) -> Result<(), Fail> {
    for (root, side) in ROOTS {
        let write = write_of(root);
        let stopped = Case {
            other: Calls::All,
            root: Calls::StopAt(write),
            done: false,
            named: *side,
            may_be_lost: false,
        };
        expect_case(rt.alloc(), (root, *side), stopped)?;
        // Where the write fails, the byte that it would have written over may be lost, if there is one.
        let failed = Case {
            root: Calls::Fail(write),
            may_be_lost: !root.is_empty(),
            ..stopped
        };
        expect_case(rt.alloc(), (root, *side), failed)?;
    }
    Ok(())
}

#[test]
fn a_root_that_is_not_synced_names_the_one_file_or_the_other(rt: HostRuntime) -> Result<(), Fail> {
    for (root, side) in ROOTS {
        let sync = write_of(root).saturating_add(1);
        for calls in [Calls::StopAt(sync), Calls::Fail(sync)] {
            let case = Case {
                other: Calls::All,
                root: calls,
                done: false,
                named: side.other(),
                may_be_lost: true,
            };
            expect_case(rt.alloc(), (root, *side), case)?;
        }
    }
    Ok(())
}

#[test]
fn a_replacement_that_is_done_stays(rt: HostRuntime) -> Result<(), Fail> {
    for (root, side) in ROOTS {
        let case = Case {
            other: Calls::All,
            root: Calls::All,
            done: true,
            named: side.other(),
            may_be_lost: false,
        };
        expect_case(rt.alloc(), (root, *side), case)?;
    }
    Ok(())
}

#[test]
fn a_replacement_that_failed_is_opened_again(rt: HostRuntime) -> Result<(), Fail> {
    let alloc = rt.alloc();
    for (root, side) in ROOTS {
        for call in 0..3 {
            let disks = disks_with(alloc, (root, *side), Calls::Fail(call), Calls::All)?;
            expect(&outcome_of(alloc, disks, None)?, false, EARLIER)?;
        }
        let write = write_of(root);
        let disks = disks_with(alloc, (root, *side), Calls::All, Calls::Fail(write))?;
        expect(&outcome_of(alloc, disks, None)?, false, EARLIER)?;
        let sync = write.saturating_add(1);
        let disks = disks_with(alloc, (root, *side), Calls::All, Calls::Fail(sync))?;
        expect(&outcome_of(alloc, disks, None)?, false, LATER)?;
    }
    Ok(())
}

// Lets an opening stop at this call of each disk and crash.
fn reopened(
    alloc: Global,
    disks: Disks<MemoryDisk>,
    call: u64,
    wreck: Wreck,
) -> Result<Disks<MemoryDisk>, Fail> {
    let (mut a, mut b, mut root) = disks.close();
    a.stop_at(call);
    b.stop_at(call);
    root.stop_at(call);
    let disks = match Journal::begin_on(alloc, Disks::new(a, b, root)) {
        Ok(journal) => journal.close(),
        Err((_, disks)) => disks,
    };
    crashed(alloc, disks, wreck)
}

// A replacement crashes while its root is not synced, and so does the opening after it, at this call.
fn expect_same_file(alloc: Global, root: (&[u8], Side), call: u64) -> Result<(), Fail> {
    let (bytes, side) = root;
    let sync = write_of(bytes).saturating_add(1);
    for (reached, fill, short, lost) in WRECKS {
        let wreck = Wreck {
            reached: *reached,
            fill: *fill,
            short: *short,
        };
        let disks = disks_with(alloc, root, Calls::All, Calls::StopAt(sync))?;
        let mut journal = opened(alloc, disks)?;
        if replaced(&mut journal)?.is_ok() {
            return Err(Fail::from("the root was synced"));
        }
        let disks = crashed(alloc, journal.close(), wreck)?;
        let disks = reopened(alloc, disks, call, wreck)?;
        let mut journal = opened(alloc, disks)?;
        let named = match lost {
            Some(lost) => *lost,
            None => side.other(),
        };
        let text = if named == side { EARLIER } else { LATER };
        if read(alloc, &mut journal)?.as_slice() != text {
            return Err(Fail::from("another file"));
        }
    }
    Ok(())
}

#[test]
fn an_opening_that_crashes_finds_the_same_file(rt: HostRuntime) -> Result<(), Fail> {
    for (root, side) in ROOTS {
        for call in 0..13 {
            expect_same_file(rt.alloc(), (root, *side), call)?;
        }
    }
    Ok(())
}

#[test]
fn the_files_take_turns(rt: HostRuntime) -> Result<(), Fail> {
    let alloc = rt.alloc();
    let disks = disks_with(alloc, (&[], Side::A), Calls::All, Calls::All)?;
    let mut journal = opened(alloc, disks)?;
    replaced(&mut journal)??;
    add(&mut journal, b"gh")?;
    assert_eq!(rt;
        read(alloc, &mut journal)?.as_slice(),
        b",xyz,,gh".as_slice()
    );
    let (a, b, root) = journal.close().close();
    assert_eq!(rt; a.bytes(), file_of(alloc, NEWEST_FORMAT)?.as_slice());
    assert_eq!(rt; b.bytes().len(), NEXT.len() + 7);
    assert_eq!(rt; root.bytes(), [1u8].as_slice());
    let mut journal = opened(alloc, Disks::new(a, b, root))?;
    replaced(&mut journal)??;
    assert_eq!(rt; read(alloc, &mut journal)?.as_slice(), LATER);
    assert_eq!(rt; journal.len(), NEXT.len() as u64);
    assert_eq!(rt; journal.faults(), 0);
    let (a, b, root) = journal.close().close();
    assert_eq!(rt; a.bytes(), NEXT);
    assert_eq!(rt; b.bytes().len(), NEXT.len() + 7);
    assert_eq!(rt; root.bytes(), [0u8].as_slice());
    Ok(())
}
