//! Journals with one fault: each is what a shelf wrote but for one byte.
ghost use Rattle.std.specs.Prelude.{true};
ghost use Rattle.disk_trio.specs.Trio.{trio_view};
ghost use Rattle.script_nodes.specs.Views.{scripts_of};
ghost use Rattle.setup_reader.specs.Texts.{IsReadSetup};
ghost use Rattle.shelf.specs.Views.{IsInOrder};

use crate::audits::{audited, audited_with, changed, visited};
use audit_spec::Word;
use page_audit::{AuditFault, Audited};
use script_nodes::Setup;
use shelf::Rules;
use std::alloc::Global;
use std::test::Fail;
use test_compactions::files::{Files, files_of};
use test_compactions::sums::{RULES, VISITS, nothing, opened, sums_setup};
use test_compactions::visits::swept;
use test_shelves::MemoryShelf;

/// A byte of a file, and what an audit answers where it is this one.
struct Change {
    place: usize,
    byte: u8,
    answer: Result<Audited, AuditFault>,
}

// Whether an audit says Yes to these files, with so many records.
fn passes(alloc: Global, files: &Files, records: u64) -> Result<bool, Fail> {
    Ok(audited(alloc, files)? == Ok(Audited::Yes { records }))
}

// Whether an audit answers No at this place, for this reason, where the byte at that place is this one.
fn is_found(
    alloc: Global,
    files: &Files,
    byte: (usize, u8),
    place: u64,
    word: Word,
) -> Result<bool, Fail> {
    Ok(audited_with(alloc, files, byte.0, byte.1)? == Ok(Audited::No { place, word }))
}

// The records of a start, of an answer that shows a page and of one that ends have their gates at 301, 405 and 558.
const CHANGES: &[Change] = &[
    // The number that the second page's state holds.
    Change {
        place: 522,
        byte: 4,
        answer: Ok(Audited::No {
            place: 405,
            word: Word::State,
        }),
    },
    // The number of the second segment, and of the third.
    Change {
        place: 411,
        byte: 0,
        answer: Ok(Audited::No {
            place: 405,
            word: Word::Number,
        }),
    },
    Change {
        place: 564,
        byte: 1,
        answer: Ok(Audited::No {
            place: 558,
            word: Word::Number,
        }),
    },
    // The instance, and the page, that are answered.
    Change {
        place: 428,
        byte: 1,
        answer: Ok(Audited::No {
            place: 405,
            word: Word::Target,
        }),
    },
    Change {
        place: 436,
        byte: 7,
        answer: Ok(Audited::No {
            place: 405,
            word: Word::Target,
        }),
    },
    Change {
        place: 580,
        byte: 9,
        answer: Ok(Audited::No {
            place: 558,
            word: Word::Target,
        }),
    },
    // The kind of a page.
    Change {
        place: 338,
        byte: 1,
        answer: Ok(Audited::No {
            place: 301,
            word: Word::Run,
        }),
    },
    Change {
        place: 474,
        byte: 1,
        answer: Ok(Audited::No {
            place: 405,
            word: Word::Run,
        }),
    },
    // An answer to the first page does not end the script.
    Change {
        place: 580,
        byte: 0,
        answer: Ok(Audited::No {
            place: 558,
            word: Word::Run,
        }),
    },
    // The deadline is too far above the clock.
    Change {
        place: 346,
        byte: 1,
        answer: Ok(Audited::No {
            place: 301,
            word: Word::Deadline,
        }),
    },
    // There is no record of this kind, no format of this number, and no script of these letters.
    Change {
        place: 306,
        byte: 9,
        answer: Err(AuditFault::Damaged { place: 301 }),
    },
    Change {
        place: 7,
        byte: 7,
        answer: Err(AuditFault::Damaged { place: 0 }),
    },
    Change {
        place: 33,
        byte: 41,
        answer: Err(AuditFault::Damaged { place: 8 }),
    },
    // Another shelf, another nonce, another life and another answer are as good.
    Change {
        place: 14,
        byte: 3,
        answer: Ok(Audited::Yes { records: 4 }),
    },
    Change {
        place: 315,
        byte: 9,
        answer: Ok(Audited::Yes { records: 4 }),
    },
    Change {
        place: 340,
        byte: 0,
        answer: Ok(Audited::Yes { records: 4 }),
    },
    Change {
        place: 609,
        byte: 57,
        answer: Ok(Audited::Yes { records: 4 }),
    },
    // A gate that is not open ends the records.
    Change {
        place: 618,
        byte: 5,
        answer: Ok(Audited::Yes { records: 4 }),
    },
    Change {
        place: 301,
        byte: 0,
        answer: Ok(Audited::Yes { records: 1 }),
    },
    Change {
        place: 8,
        byte: 0,
        answer: Ok(Audited::Yes { records: 0 }),
    },
];

#[test]
fn a_journal_of_visits_passes(rt: HostRuntime) -> Result<(), Fail> {
    let alloc = rt.alloc();
    let files = visited(alloc, VISITS, RULES)?;
    assert_eq!(rt; files.a.len(), 619);
    assert_eq!(rt; audited(alloc, &files)?, Ok(Audited::Yes { records: 4 }));
    Ok(())
}

#[test]
fn empty_disks_pass(rt: HostRuntime) -> Result<(), Fail> {
    let alloc = rt.alloc();
    assert_eq!(rt;
        audited(alloc, &nothing(alloc))?,
        Ok(Audited::Yes { records: 0 })
    );
    Ok(())
}

#[test]
fn a_changed_byte_is_told(rt: HostRuntime) -> Result<(), Fail> {
    let alloc = rt.alloc();
    let files = visited(alloc, VISITS, RULES)?;
    for change in CHANGES {
        assert_eq!(rt;
            audited_with(alloc, &files, change.place, change.byte)?,
            change.answer,
            "{}",
            change.place
        );
    }
    Ok(())
}

// Damage is told, though a record before it is none that a shelf writes.
// Whether damage is told of files that have a record with a fault before it.
fn is_damaged(alloc: Global, files: &Files) -> Result<bool, Fail> {
    let answer = audited_with(alloc, files, 563, 9)?;
    Ok(answer == Err(AuditFault::Damaged { place: 558 }))
}

#[test]
fn damage_comes_first(rt: HostRuntime) -> Result<(), Fail> {
    let alloc = rt.alloc();
    let files = visited(alloc, VISITS, RULES)?;
    let once = changed(alloc, &files, 338, 1)?;
    assert!(rt; is_damaged(alloc, &once)?);
    Ok(())
}

// The shelf 0, with one page of an instance.
const ONE_PAGE: Rules = Rules {
    number: 0,
    shelves: 1,
    fuel: 10_000_000,
    life: 3_600,
    instances: 256,
    pages: 1,
};

// The record of the second page tells that the page 0 goes, at 487.
#[test]
fn another_page_that_goes_is_told(rt: HostRuntime) -> Result<(), Fail> {
    let alloc = rt.alloc();
    let files = visited(alloc, VISITS, ONE_PAGE)?;
    assert!(rt; passes(alloc, &files, 4)?);
    assert!(rt; is_found(alloc, &files, (487, 1), 405, Word::Evicted)?);
    Ok(())
}

// The record that ends the visits has its gate at 566, and the page that it answers at 588: the page 0 went.
#[test]
fn an_answer_to_a_page_that_went_is_told(rt: HostRuntime) -> Result<(), Fail> {
    let alloc = rt.alloc();
    let files = visited(alloc, VISITS, ONE_PAGE)?;
    assert!(rt; is_found(alloc, &files, (588, 0), 566, Word::Target)?);
    Ok(())
}

// Sweeps a shelf at 50 and at 60.
fn sweep(alloc: Global, shelf: &mut MemoryShelf) -> Result<(), Fail>
    requires { IsInOrder trio_view true shelf.old }
    ensures { IsInOrder trio_view true shelf.new }
{
    let _none = swept(alloc, shelf, 50)?;
    let _none = swept(alloc, shelf, 60)?;
    Ok(())
}

// What stands on the disks of a shelf of this setup that was swept so.
fn swept_files(alloc: Global, setup: &Setup) -> Result<Files, Fail>
    requires { IsReadSetup (scripts_of setup.now) }
{
    let mut shelf = opened(alloc, &nothing(alloc), setup, RULES)?;
    sweep(alloc, &mut shelf)?;
    files_of(alloc, shelf)
}

// What stands on the disks of a shelf of sums that was swept twice.
fn swept_twice(alloc: Global) -> Result<Files, Fail> {
    let setup = sums_setup(alloc)?;
    swept_files(alloc, &setup)
}

// The second sweep's record has its gate at 315, and its clock at 321.
#[test]
fn a_sweep_that_goes_back_is_told(rt: HostRuntime) -> Result<(), Fail> {
    let alloc = rt.alloc();
    let files = swept_twice(alloc)?;
    assert!(rt; passes(alloc, &files, 3)?);
    assert!(rt; is_found(alloc, &files, (321, 50), 315, Word::Sweep)?);
    assert!(rt; is_found(alloc, &files, (321, 49), 315, Word::Sweep)?);
    Ok(())
}
