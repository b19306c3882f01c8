//! Journals of the formats 1 to 5, which earlier versions of this program wrote, or may have written: they are opened, visited and
//! compacted. Those of the formats 1, 2 and 3 are the same visits as the commits 25f9cc87, 697cd3b8 and 0660d5ea wrote them down.
ghost use Rattle.std.specs.Prelude.{IfOk};
ghost use Rattle.script_nodes.specs.Views.{scripts_of};
ghost use Rattle.setup_reader.specs.Texts.{IsReadSetup};

use crate::files::{Files, disks_of, files_of};
use crate::old::{ANSWERS, SCRIPTS, file_of, files_with};
use crate::records::{DRAWN, FORMAT_1, FORMAT_2, FORMAT_3, RENEWED};
use crate::sums::{RULES, opened, visited_with};
use crate::visits::{Told, Visit, compacted, expect_visit};
use script_nodes::Setup;
use shelf::BeginFault;
use std::alloc::Global;
use std::test::Fail;
use test_shelves::{put_away, setup, tried_under};

// What the page goes on with that the last start of the formats 4 and 5 showed.
const NEWEST: Visit = Visit {
    path: "/servlets/fin;0*14*14*000000000000000e",
    answer: "()",
    told: Told::Finished("<p>bye</p>"),
};

// The number that is drawn next on the shelf of these files.
fn drawn(alloc: Global, files: &Files, setup: &Setup) -> Result<u64, Fail>
    requires { IsReadSetup (scripts_of setup.now) }
{
    let shelf = opened(alloc, files, setup, RULES)?;
    let drawn = shelf.book().drawn();
    put_away(shelf);
    Ok(drawn)
}

// What stands on the disks of the shelf of these files, after visits of their pages.
fn visited(alloc: Global, files: &Files, setup: &Setup) -> Result<Files, Fail>
    requires { IsReadSetup (scripts_of setup.now) }
{
    visited_with(alloc, files, setup, ANSWERS, RULES)
}

// What stands on the disks of the shelf of these files, after visits of their pages and a compaction.
fn compacted_files(alloc: Global, files: &Files, setup: &Setup) -> Result<Files, Fail>
    requires { IsReadSetup (scripts_of setup.now) }
{
    let mut shelf = opened(alloc, files, setup, RULES)?;
    let _length = compacted(alloc, &mut shelf)?;
    files_of(alloc, shelf)
}

/// The setup of the first of these scripts alone.
pub fn first_setup(alloc: Global) -> Result<Setup, Fail>
    ensures { IfOk result (λ s. IsReadSetup (scripts_of s)) }
{
    setup(alloc, &SCRIPTS[..1])
}

/// What stands on disks of which the first has the visits of that script, as a journal of format 3.
pub fn sums(alloc: Global) -> Result<Files, Fail> {
    let file = file_of(alloc, 3, &SCRIPTS[..1], &[&FORMAT_3[..3]])?;
    Ok(files_with(alloc, file))
}

/// Refuses a shelf of these files, with the setup of that script, on which its page does not go on.
pub fn expect_sum(alloc: Global, files: &Files, setup: &Setup) -> Result<(), Fail>
    requires { IsReadSetup (scripts_of setup.now) }
{
    let mut shelf = opened(alloc, files, setup, RULES)?;
    let told = expect_visit(alloc, &mut shelf, ANSWERS[0]);
    put_away(shelf);
    told
}

// Refuses a file that stands there changed, or has no file of format 6 in its place.
fn expect_migrated(old: &Files, new: &Files) -> Result<(), Fail> {
    if new.a == old.a && new.root.as_slice() == b"\x01".as_slice() && new.b.get(7) == Some(&6) {
        return Ok(());
    }
    Err(Fail::from("no migration"))
}

// Refuses a file whose pages do not go on when it is opened, or after a compaction. What is there in the end.
fn expect_pages(alloc: Global, old: &Files, setup: &Setup) -> Result<Files, Fail>
    requires { IsReadSetup (scripts_of setup.now) }
{
    let new = visited(alloc, old, setup)?;
    expect_migrated(old, &new)?;
    let once = compacted_files(alloc, &new, setup)?;
    visited(alloc, &once, setup)
}

// Refuses a file of this format on which another number is drawn next, or whose pages do not go on.
fn expect_opened(alloc: Global, format: u8, parts: &[&[&[u8]]], next: u64) -> Result<Files, Fail> {
    let setup = setup(alloc, SCRIPTS)?;
    let old = files_with(alloc, file_of(alloc, format, SCRIPTS, parts)?);
    if drawn(alloc, &old, &setup)? != next {
        return Err(Fail::from("another number is drawn next"));
    }
    expect_pages(alloc, &old, &setup)
}

// Refuses files on which the last start does not go on.
fn expect_newest(alloc: Global, files: &Files) -> Result<(), Fail> {
    let setup = setup(alloc, SCRIPTS)?;
    let mut shelf = opened(alloc, files, &setup, RULES)?;
    let told = expect_visit(alloc, &mut shelf, NEWEST);
    put_away(shelf);
    told
}

#[test]
fn a_journal_without_states_is_opened(rt: HostRuntime) -> Result<(), Fail> {
    let _files = expect_opened(rt.alloc(), 1, &[FORMAT_1], 14)?;
    Ok(())
}

#[test]
fn a_journal_with_whole_states_is_opened(rt: HostRuntime) -> Result<(), Fail> {
    let _files = expect_opened(rt.alloc(), 2, &[FORMAT_2], 14)?;
    Ok(())
}

#[test]
fn a_journal_without_scripts_that_change_is_opened(rt: HostRuntime) -> Result<(), Fail> {
    let _files = expect_opened(rt.alloc(), 3, &[FORMAT_3], 14)?;
    Ok(())
}

#[test]
fn a_journal_that_was_never_compacted_is_opened(rt: HostRuntime) -> Result<(), Fail> {
    let alloc = rt.alloc();
    let files = expect_opened(alloc, 4, &[FORMAT_3, RENEWED], 15)?;
    expect_newest(alloc, &files)
}

#[test]
fn a_journal_without_pages_that_give_way_is_opened(rt: HostRuntime) -> Result<(), Fail> {
    let alloc = rt.alloc();
    let files = expect_opened(alloc, 5, &[DRAWN, FORMAT_3, RENEWED], 20)?;
    expect_newest(alloc, &files)
}

// Why no shelf is opened on a file of this format.
fn refused(alloc: Global, format: u8) -> Result<BeginFault, Fail> {
    let setup = setup(alloc, SCRIPTS)?;
    let files = files_with(alloc, file_of(alloc, format, SCRIPTS, &[FORMAT_3])?);
    match tried_under(alloc, disks_of(alloc, &files, None)?, &setup, RULES)? {
        Ok(_) => Err(Fail::from("opened")),
        Err((fault, _disks)) => Ok(fault),
    }
}

#[test]
fn a_journal_of_a_format_to_come_is_refused(rt: HostRuntime) -> Result<(), Fail> {
    assert_eq!(rt; refused(rt.alloc(), 7)?, BeginFault::Damaged { place: 0 });
    assert_eq!(rt; refused(rt.alloc(), 0)?, BeginFault::Damaged { place: 0 });
    Ok(())
}
