//! Journals that were compacted, of an older format, and of several setups.
ghost use Rattle.script_nodes.specs.Views.{scripts_of};
ghost use Rattle.setup_reader.specs.Texts.{IsReadSetup};

use crate::audits::audited;
use page_audit::Audited;
use script_nodes::Setup;
use std::alloc::Global;
use std::test::Fail;
use test_compactions::files::{Files, files_of};
use test_compactions::old::{SCRIPTS, file_of, files_with};
use test_compactions::records::FORMAT_3;
use test_compactions::sums::{RULES, nothing, opened, visited_with};
use test_compactions::visits::{Told, Visit, compacted};
use test_shelves::setup;

// Refuses files that do not pass.
fn expect_pass(alloc: Global, files: &Files) -> Result<(), Fail> {
    match audited(alloc, files)? {
        Ok(Audited::Yes { .. }) => Ok(()),
        Ok(Audited::No { .. }) => Err(Fail::from("a record is found")),
        Err(_) => Err(Fail::from("no answer")),
    }
}

// What stands on the disks of the shelf of these files after a compaction.
fn short_files(alloc: Global, files: &Files, setup: &Setup) -> Result<Files, Fail>
    requires { IsReadSetup (scripts_of setup.now) }
{
    let mut shelf = opened(alloc, files, setup, RULES)?;
    let _length = compacted(alloc, &mut shelf)?;
    files_of(alloc, shelf)
}

// What stands there after visits and then a compaction. Before it and after it the files have to pass.
fn compacted_files(
    alloc: Global,
    files: &Files,
    setup: &Setup,
    visits: &[Visit],
) -> Result<Files, Fail>
    requires { IsReadSetup (scripts_of setup.now) }
{
    let long = visited_with(alloc, files, setup, visits, RULES)?;
    expect_pass(alloc, &long)?;
    short_files(alloc, &long, setup)
}

// What pages of the older journal go on with: a sum, a room and a transaction.
const FIRST_ANSWERS: &[Visit] = &[
    Visit {
        path: "/servlets/sum;0*0*1*0000000000000001",
        answer: "((n \"4\"))",
        told: Told::Last("<p>7</p>"),
    },
    Visit {
        path: "/servlets/hotel;0*3*4*0000000000000004",
        answer: "()",
        told: Told::Last("<p>A</p>"),
    },
    Visit {
        path: "/servlets/pay;0*10*12*000000000000000c",
        answer: "()",
        told: Told::Closed,
    },
];

// What pages of the older journal go on with after a compaction.
const LATER_ANSWERS: &[Visit] = &[
    Visit {
        path: "/servlets/hotel;0*3*5*0000000000000005",
        answer: "()",
        told: Told::Last("<p>B</p>"),
    },
    Visit {
        path: "/servlets/pay;0*10*13*000000000000000d",
        answer: "()",
        told: Told::Last("<p>end</p>"),
    },
];

// What stands on the disks of a shelf with the older journal, after such answers and a compaction of each.
fn compacted_twice(alloc: Global, setup: &Setup) -> Result<Files, Fail>
    requires { IsReadSetup (scripts_of setup.now) }
{
    let old = files_with(alloc, file_of(alloc, 3, SCRIPTS, &[FORMAT_3])?);
    let once = compacted_files(alloc, &old, setup, FIRST_ANSWERS)?;
    compacted_files(alloc, &once, setup, LATER_ANSWERS)
}

#[test]
fn a_journal_that_was_compacted_twice_passes(rt: HostRuntime) -> Result<(), Fail> {
    let alloc = rt.alloc();
    let setup = setup(alloc, SCRIPTS)?;
    let twice = compacted_twice(alloc, &setup)?;
    expect_pass(alloc, &twice)
}

// A script of two pages, and another one of the same name.
const VERSIONS: &[&str] = &[
    "(begin (send/suspend (lambda (u) \"a1\")) (send/suspend (lambda (u) \"a2\")))",
    "(begin (send/suspend (lambda (u) \"b1\")) (send/suspend (lambda (u) \"b2\")))",
];

// Both are started, and the page of the first one is answered.
const STARTS: &[&[Visit]] = &[
    &[Visit {
        path: "/servlets/s",
        answer: "()",
        told: Told::Page("a1"),
    }],
    &[
        Visit {
            path: "/servlets/s",
            answer: "()",
            told: Told::Page("b1"),
        },
        Visit {
            path: "/servlets/s;0*0*0*0000000000000000",
            answer: "()",
            told: Told::Page("a2"),
        },
    ],
];

// What stands on the disks of the shelf of these files after the visits of a version, and a compaction.
fn started(alloc: Global, files: &Files, version: &str, visits: &[Visit]) -> Result<Files, Fail> {
    let setup = setup(alloc, &[("s", version)])?;
    compacted_files(alloc, files, &setup, visits)
}

#[test]
fn a_journal_of_two_setups_passes(rt: HostRuntime) -> Result<(), Fail> {
    let alloc = rt.alloc();
    let once = started(alloc, &nothing(alloc), VERSIONS[0], STARTS[0])?;
    let twice = started(alloc, &once, VERSIONS[1], STARTS[1])?;
    expect_pass(alloc, &twice)
}
