//! The last number of a shelf.
ghost use Rattle.script_nodes.specs.Views.{scripts_of};
ghost use Rattle.setup_reader.specs.Texts.{IsReadSetup};

use crate::openings::{bytes_of, created, next_number, put_away, reopened};
use crate::texts::{SUM, setup};
use script_nodes::Setup;
use std::alloc::Global;
use std::test::Fail;

// What stands after the closed gate of a new shelf: a record of a last page of segment 2^62 - 2, and of 2^62 - 1, which is the
// last one. They answered a page of an instance that is not there.
const LAST_BUT_ONE: &[u8] = &[
    1, 38, 0, 0, 0, 3, 254, 255, 255, 255, 255, 255, 255, 63, 9, 0, 0, 0, 0, 0, 0, 0, 8, 0, 0, 0,
    0, 0, 0, 0, 5, 0, 0, 0, 0, 0, 0, 0, 0, 0, 0, 0, 0, 0,
];

const LAST: &[u8] = &[
    1, 38, 0, 0, 0, 3, 255, 255, 255, 255, 255, 255, 255, 63, 9, 0, 0, 0, 0, 0, 0, 0, 8, 0, 0, 0,
    0, 0, 0, 0, 5, 0, 0, 0, 0, 0, 0, 0, 0, 0, 0, 0, 0, 0,
];

// The disk of a new shelf, with this record and a gate in the place of its gate.
fn disk_with(alloc: Global, setup: &Setup, record: &[u8]) -> Result<Vec<u8>, Fail>
    requires { IsReadSetup (scripts_of setup.now) }
{
    let mut bytes = bytes_of(alloc, created(alloc, setup)?)?;
    let _gate = bytes.pop();
    bytes.extend_from_slice(record)?;
    Ok(bytes)
}

// The number of the next start of a shelf whose journal has this record; none where the numbers are used up.
fn next_behind(alloc: Global, setup: &Setup, record: &[u8]) -> Result<Option<u64>, Fail>
    requires { IsReadSetup (scripts_of setup.now) }
{
    let bytes = disk_with(alloc, setup, record)?;
    let mut shelf = reopened(alloc, bytes, setup)?;
    let number = next_number(alloc, &mut shelf);
    put_away(shelf);
    number
}

#[test]
fn the_numbers_are_used_up(rt: HostRuntime) -> Result<(), Fail> {
    let alloc = rt.alloc();
    let setup = setup(alloc, &[("s", SUM)])?;
    let last = 4_611_686_018_427_387_903;
    assert_eq!(rt; next_behind(alloc, &setup, LAST_BUT_ONE)?, Some(last));
    assert_eq!(rt; next_behind(alloc, &setup, LAST)?, None);
    Ok(())
}
