//! The greatest length of a shelf's journal.
ghost use Rattle.std.specs.Prelude.{◌≡◌, ◌≤◌, false, length, IfOk};
ghost use Rattle.script_nodes.specs.Views.{scripts_of};
ghost use Rattle.setup_reader.specs.Texts.{IsReadSetup};
ghost use Rattle.disk_trio.specs.Trio.{trio_view};
ghost use Rattle.shelf.specs.Views.{IsInOrder};

use crate::openings::{LongShelf, answered, bytes_of, created, tried};
use crate::texts::setup;
use disk_trio::Disks;
use script_nodes::Setup;
use script_value::{Reply, Str, Value};
use std::alloc::Global;
use std::test::Fail;
use web_disk::RepeatDisk;

const PAGES: &str = "(begin (send/suspend (lambda (u) \"a\")) (send/suspend (lambda (u) \"b\")))";

const START: &str = "/servlets/s";

const FIRST: &str = "/servlets/s;7*1*1*0000000000000000";

/// A record of so many bytes, its gate and length among them: segment 0 answered a page that is not there with a text of
/// characters of code 0, and ended with a last page, without effects.
pub fn long_record(alloc: Global, size: u32) -> Result<Vec<u8>, Fail>
    requires { 43 ≤ size }
    ensures { IfOk result (λ bytes. length bytes.items ≡ size) }
{
    let mut bytes = vec![in alloc; 1u8; 1]?;
    bytes.extend_from_slice(&(size - 5).to_le_bytes())?;
    bytes.push(3)?;
    bytes.resize(30, 0)?;
    bytes.push(3)?;
    bytes.extend_from_slice(&(size - 43).to_le_bytes())?;
    bytes.resize(size as usize, 0)?;
    Ok(bytes)
}

// A disk without bytes.
fn empty(alloc: Global) -> RepeatDisk {
    RepeatDisk::new(Vec::new(alloc), Vec::new(alloc), 0, Vec::new(alloc))
}

/// The disks of a new shelf, of which the first has 1,023 such records of 1,048,576 bytes and this after them: 1,072,693,350 bytes more than this.
pub fn disks_with(alloc: Global, setup: &Setup, last: Vec<u8>) -> Result<Disks<RepeatDisk>, Fail>
    requires { IsReadSetup (scripts_of setup.now) }
{
    let mut first = bytes_of(alloc, created(alloc, setup)?)?;
    let _gate = first.pop();
    if first.len() != 102 {
        return Err(Fail::from("another first record"));
    }
    let long = RepeatDisk::new(first, long_record(alloc, 1_048_576)?, 1_023, last);
    Ok(Disks::new(long, empty(alloc), empty(alloc)))
}

// Such disks, of which the first has a closed gate at its end: it lacks 1,048,473 bytes of 2^30.
fn long_disks(alloc: Global, setup: &Setup) -> Result<Disks<RepeatDisk>, Fail>
    requires { IsReadSetup (scripts_of setup.now) }
{
    disks_with(alloc, setup, vec![in alloc; 0; 1]?)
}

// Their shelf.
fn long_shelf(alloc: Global, setup: &Setup) -> Result<LongShelf, Fail>
    requires { IsReadSetup (scripts_of setup.now) }
    ensures { IfOk result (IsInOrder trio_view false) }
{
    match tried(alloc, long_disks(alloc, setup)?, setup)? {
        Ok(shelf) => Ok(shelf),
        Err(_) => Err(Fail::from("no shelf")),
    }
}

// What a path is told for a text of so many zeros: none where that is a page, and else the length that the journal would have.
fn too_long(
    alloc: Global,
    shelf: &mut LongShelf,
    path: &str,
    count: usize,
) -> Result<Option<u64>, Fail>
    requires { IsInOrder trio_view false shelf.old }
    ensures { IsInOrder trio_view false shelf.new }
{
    let zeros = String::from_utf8(vec![in alloc; b'0'; count]?)?;
    match answered(alloc, shelf, path, Value::Text(Str::new(zeros)))? {
        Reply::Page { .. } => Ok(None),
        Reply::JournalFull(length) => Ok(Some(length)),
        _ => Err(Fail::from("another reply")),
    }
}

// What a sweep is told: none where it is one, and else the length that the journal would have.
fn too_late(alloc: Global, shelf: &mut LongShelf) -> Result<Option<u64>, Fail>
    requires { IsInOrder trio_view false shelf.old }
    ensures { IsInOrder trio_view false shelf.new }
{
    match shelf.sweep(alloc, 1) {
        Ok(_) => Ok(None),
        Err(Reply::JournalFull(length)) => Ok(Some(length)),
        Err(_) => Err(Fail::from("another reply to a sweep")),
    }
}

// What a start is told, its page for three texts, and a sweep.
fn five_told(alloc: Global, shelf: &mut LongShelf) -> Result<[Option<u64>; 5], Fail>
    requires { IsInOrder trio_view false shelf.old }
    ensures { IsInOrder trio_view false shelf.new }
{
    Ok([
        too_long(alloc, shelf, START, 0)?,
        too_long(alloc, shelf, FIRST, 1_048_299)?,
        too_long(alloc, shelf, FIRST, 1_048_298)?,
        too_long(alloc, shelf, FIRST, 1)?,
        too_late(alloc, shelf)?,
    ])
}

// What a start is told, its page for three texts, and a sweep, on a new shelf of these disks.
fn five_told_at_the_end(alloc: Global, setup: &Setup) -> Result<[Option<u64>; 5], Fail>
    requires { IsReadSetup (scripts_of setup.now) }
{
    let mut shelf = long_shelf(alloc, setup)?;
    five_told(alloc, &mut shelf)
}

// A start adds 76 bytes, an answer 99 besides its zeros, and a sweep 14; 26 and 35 of the first two are the state of its page.
#[test]
fn a_shelf_writes_up_to_1073741824_bytes(rt: HostRuntime) -> Result<(), Fail> {
    let alloc = rt.alloc();
    let setup = setup(alloc, &[("s", PAGES)])?;
    let told = five_told_at_the_end(alloc, &setup)?;
    assert_eq!(rt;
        told,
        [
            None,
            Some(1_073_741_825),
            None,
            Some(1_073_741_924),
            Some(1_073_741_838)
        ]
    );
    Ok(())
}

// What a shelf on such disks, whose journal is full, is told of a compaction: how long its file is then; and of the page after it.
fn shortened(alloc: Global, setup: &Setup) -> Result<(u64, Option<u64>), Fail>
    requires { IsReadSetup (scripts_of setup.now) }
{
    let mut shelf = long_shelf(alloc, setup)?;
    let _told = five_told(alloc, &mut shelf)?;
    let Ok(length) = shelf.compact(alloc) else {
        return Err(Fail::from("not compacted"));
    };
    Ok((length, too_long(alloc, &mut shelf, FIRST, 1)?))
}

// The long records are of no page that is there, so none of them stays; the number that is drawn next has 14 bytes.
#[test]
fn a_journal_of_1073741824_bytes_becomes_short(rt: HostRuntime) -> Result<(), Fail> {
    let alloc = rt.alloc();
    let setup = setup(alloc, &[("s", PAGES)])?;
    assert_eq!(rt; shortened(alloc, &setup)?, (1_048_590, None));
    Ok(())
}
