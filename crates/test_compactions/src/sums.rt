//! The shelf 0 of files, and visits that ask for a sum and tell it.
ghost use Rattle.std.specs.Prelude.{true, IfOk};
ghost use Rattle.script_nodes.specs.Views.{scripts_of};
ghost use Rattle.setup_reader.specs.Texts.{IsReadSetup};
ghost use Rattle.disk_trio.specs.Trio.{trio_view};
ghost use Rattle.shelf.specs.Ranges.{AreInRange};
ghost use Rattle.shelf.specs.Views.{IsInOrder};

use crate::files::{Files, disks_of, left_by};
use crate::old::files_with;
use crate::visits::{Told, Visit, expect_visits};
use script_nodes::Setup;
use shelf::Rules;
use std::alloc::Global;
use std::test::Fail;
use test_shelves::{MemoryShelf, SUM, setup, tried_under};
use web_disk::Wreck;

/// The shelf 0.
pub const RULES: Rules = Rules {
    number: 0,
    shelves: 1,
    fuel: 10_000_000,
    life: 3_600,
    instances: 256,
    pages: 64,
};

/// A sum is asked for and told.
pub const VISITS: &[Visit] = &[
    Visit {
        path: "/servlets/sum",
        answer: "()",
        told: Told::Page("<a href=\"/servlets/sum;0*0*0*0000000000000000\">1</a>"),
    },
    Visit {
        path: "/servlets/sum;0*0*0*0000000000000000",
        answer: "((n \"3\"))",
        told: Told::Page("<a href=\"/servlets/sum;0*0*1*0000000000000001\">2</a>"),
    },
    Visit {
        path: "/servlets/sum;0*0*1*0000000000000001",
        answer: "((n \"4\"))",
        told: Told::Last("<p>7</p>"),
    },
];

/// What stands on empty disks.
pub fn nothing(alloc: Global) -> Files {
    files_with(alloc, Vec::new(alloc))
}

/// The setup of the script that tells sums.
pub fn sums_setup(alloc: Global) -> Result<Setup, Fail>
    ensures { IfOk result (λ s. IsReadSetup (scripts_of s)) }
{
    setup(alloc, &[("sum", SUM)])
}

/// The shelf of these files with this setup, which has to be opened.
pub fn opened(
    alloc: Global,
    files: &Files,
    setup: &Setup,
    rules: Rules,
) -> Result<MemoryShelf, Fail>
    requires read { IsReadSetup (scripts_of setup.now) }
    requires range { AreInRange rules }
    ensures { IfOk result (IsInOrder trio_view true) }
{
    match tried_under(alloc, disks_of(alloc, files, None)?, setup, rules)? {
        Ok(shelf) => Ok(shelf),
        Err(_) => Err(Fail::from("no shelf")),
    }
}

// A crash after which all that was written is there.
const LOSES_NOTHING: Wreck = Wreck {
    reached: u64::MAX,
    fill: 0,
    short: false,
};

/// What stands on the disks of a shelf, which is closed.
pub fn left_on_disks(shelf: MemoryShelf) -> Files {
    let (disks, _nonces) = shelf.close();
    left_by(disks, LOSES_NOTHING)
}

/// What stands on the disks of the shelf of these files after visits.
pub fn visited_with(
    alloc: Global,
    files: &Files,
    setup: &Setup,
    visits: &[Visit],
    rules: Rules,
) -> Result<Files, Fail>
    requires read { IsReadSetup (scripts_of setup.now) }
    requires range { AreInRange rules }
{
    let mut shelf = opened(alloc, files, setup, rules)?;
    let answered = expect_visits(alloc, &mut shelf, visits);
    let files = left_on_disks(shelf);
    answered?;
    Ok(files)
}
