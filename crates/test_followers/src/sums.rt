//! A journal of visits that ask for a sum and tell it, and its feed.

use crate::feeds::{bodies_in, feed_in};
use crate::openings::RULES;
use std::alloc::Global;
use std::test::Fail;
use test_compactions::files::Files;
use test_compactions::old::files_with;
use test_compactions::sums::{VISITS, nothing, sums_setup, visited_with};
use test_compactions::visits::{Told, Visit};

/// The second page goes on.
pub const SEVEN: &[Visit] = &[Visit {
    path: "/servlets/sum;0*0*1*0000000000000001",
    answer: "((n \"4\"))",
    told: Told::Last("<p>7</p>"),
}];

/// Where the records of this feed begin, and where it ends.
pub const PLACES: &[usize] = &[8, 300, 403, 555, 614];

/// The file of a journal without records.
pub const BARE: &[u8] = b"KSWEB\0\0\x06\0";

/// What stands on the disks of a journal without records.
pub fn bare(alloc: Global) -> Result<Files, Fail> {
    Ok(files_with(alloc, BARE.to_vec(alloc)?))
}

/// What stands on the disks of the shelf of these files after visits, with the setup of the script that tells sums.
pub fn visited(alloc: Global, files: &Files, visits: &[Visit]) -> Result<Files, Fail> {
    let setup = sums_setup(alloc)?;
    visited_with(alloc, files, &setup, visits, RULES)
}

/// Refuses files whose shelf does not go on with the visits after those of a leader.
pub fn expect_seven(alloc: Global, files: &Files) -> Result<(), Fail> {
    let _visited = visited(alloc, files, SEVEN)?;
    Ok(())
}

/// What stands on the disks of a leader after the visits of a sum.
pub fn leader(alloc: Global) -> Result<Files, Fail> {
    visited(alloc, &nothing(alloc), VISITS)
}

/// The feed of that leader.
pub fn sums_feed(alloc: Global) -> Result<Vec<u8>, Fail> {
    let files = leader(alloc)?;
    feed_in(alloc, files.a.as_slice())
}

/// The bodies of the records of a leader of sums.
pub fn sums_bodies(alloc: Global) -> Result<Vec<Vec<u8>>, Fail> {
    let files = leader(alloc)?;
    bodies_in(alloc, files.a.as_slice())
}
