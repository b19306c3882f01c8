//! Files that tell several versions of a script, and are compacted.
ghost use Rattle.std.specs.Prelude.{true};
ghost use Rattle.script_nodes.specs.Views.{scripts_of};
ghost use Rattle.setup_reader.specs.Texts.{IsReadSetup};
ghost use Rattle.disk_trio.specs.Trio.{trio_view};
ghost use Rattle.shelf.specs.Views.{IsInOrder};

use crate::files::{Files, files_of, reopened};
use crate::visits::{Told, Visit, compacted, expect_visit, expect_visits};
use script_nodes::Setup;
use std::alloc::Global;
use std::test::Fail;
use test_shelves::{MemoryShelf, created, put_away, setup};

// A version of a script: its pages name it.
struct Version {
    text: &'static str,
    first: Visit,
}

const VERSIONS: &[Version] = &[
    Version {
        text: "(begin (send/suspend (lambda (u) \"a1\")) (send/suspend (lambda (u) \"a2\")))",
        first: Visit {
            path: "/servlets/s",
            answer: "()",
            told: Told::Page("a1"),
        },
    },
    Version {
        text: "(begin (send/suspend (lambda (u) \"b1\")) (send/suspend (lambda (u) \"b2\")))",
        first: Visit {
            path: "/servlets/s",
            answer: "()",
            told: Told::Page("b1"),
        },
    },
    Version {
        text: "(begin (send/suspend (lambda (u) \"c1\")) (send/suspend (lambda (u) \"c2\")))",
        first: Visit {
            path: "/servlets/s",
            answer: "()",
            told: Told::Page("c1"),
        },
    },
];

// What the first page of each goes on with. The numbers that are drawn for the addresses begin anew with each opening.
const ANSWERS: &[Visit] = &[
    Visit {
        path: "/servlets/s;7*0*0*0000000000000000",
        answer: "()",
        told: Told::Page("a2"),
    },
    Visit {
        path: "/servlets/s;7*1*1*0000000000000000",
        answer: "()",
        told: Told::Page("b2"),
    },
    Visit {
        path: "/servlets/s;7*2*2*0000000000000000",
        answer: "()",
        told: Told::Page("c2"),
    },
];

// What stands on the disks of a shelf of these files once it was opened with this setup, and its script started.
fn started(alloc: Global, files: &Files, setup: &Setup, first: Visit) -> Result<Files, Fail>
    requires { IsReadSetup (scripts_of setup.now) }
{
    let mut shelf = reopened(alloc, files, setup)?;
    expect_visit(alloc, &mut shelf, first)?;
    files_of(alloc, shelf)
}

// What stands on the disks of a shelf that is compacted.
fn compacted_files(alloc: Global, files: &Files, setup: &Setup) -> Result<Files, Fail>
    requires { IsReadSetup (scripts_of setup.now) }
{
    let mut shelf = reopened(alloc, files, setup)?;
    let _length = compacted(alloc, &mut shelf)?;
    files_of(alloc, shelf)
}

// What stands on the disks of a shelf each of whose instances began with another version.
fn all_started(alloc: Global) -> Result<Files, Fail> {
    let first = setup(alloc, &[("s", "'(p \"none\")")])?;
    let mut files = files_of(alloc, created(alloc, &first)?)?;
    for version in VERSIONS {
        let setup = setup(alloc, &[("s", version.text)])?;
        files = started(alloc, &files, &setup, version.first)?;
    }
    Ok(files)
}

// Refuses a shelf whose instances do not go on with the script with which they began, or whose start is not that of the last one.
fn expect_versions(alloc: Global, shelf: &mut MemoryShelf) -> Result<(), Fail>
    requires { IsInOrder trio_view true shelf.old }
    ensures { IsInOrder trio_view true shelf.new }
{
    expect_visits(alloc, shelf, ANSWERS)?;
    expect_visit(alloc, shelf, VERSIONS[2].first)
}

// Refuses the shelf of these files where an instance does not go on with its script, or a start is not of the last one.
fn expect_files(alloc: Global, files: &Files, setup: &Setup) -> Result<(), Fail>
    requires { IsReadSetup (scripts_of setup.now) }
{
    let mut shelf = reopened(alloc, files, setup)?;
    let told = expect_versions(alloc, &mut shelf);
    put_away(shelf);
    told
}

#[test]
fn instances_keep_their_versions(rt: HostRuntime) -> Result<(), Fail> {
    let alloc = rt.alloc();
    let files = all_started(alloc)?;
    let last = setup(alloc, &[("s", VERSIONS[2].text)])?;
    let files = compacted_files(alloc, &files, &last)?;
    assert_eq!(rt; files.root.as_slice(), b"\x01".as_slice());
    expect_files(alloc, &files, &last)
}
