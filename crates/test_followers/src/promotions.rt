//! Shelves that are promoted, and the journals that they have then.
ghost use Rattle.script_nodes.specs.Views.{scripts_of};
ghost use Rattle.setup_reader.specs.Texts.{IsReadSetup};
ghost use Rattle.shelf.specs.Ranges.{AreInRange};

use crate::feeds::{front, has_feed_of, has_no_records};
use crate::followed::{promoted, promoted_sums, promoted_unfed, sums_follower, waiting};
use crate::openings::{OTHER_RULES, Opening, RULES, tried_bare};
use crate::sums::{BARE, SEVEN, expect_seven, leader, visited};
use disk_trio::Disks;
use script_nodes::Setup;
use shelf::{BeginFault, Rules};
use std::alloc::Global;
use std::test::Fail;
use test_compactions::files::{Files, disks_of};
use test_compactions::old::files_with;
use test_compactions::sums::{VISITS, nothing, sums_setup, visited_with};
use test_shelves::{MemoryShelf, put_away, setup, tried_under};
use web_disk::MemoryDisk;

// The header of a file.
const HEADER: &[u8] = b"KSWEB\0\0\x06";

// The record that tells that a shelf follows, after its gate.
const FOLLOW: &[u8] = b"\x01\x01\0\0\0\x08";

// The record that tells that a shelf was promoted, after its gate.
const PROMOTION: &[u8] = b"\x01\x01\0\0\0\x09";

// These bytes, one after the other.
fn joined(alloc: Global, parts: &[&[u8]]) -> Result<Vec<u8>, Fail> {
    let mut bytes = Vec::new(alloc);
    for part in parts {
        bytes.extend_from_slice(part)?;
    }
    Ok(bytes)
}

// Whether the first file consists of these parts.
fn is_made_of(alloc: Global, files: &Files, parts: &[&[u8]]) -> Result<bool, Fail> {
    let wanted = joined(alloc, parts)?;
    Ok(files.a == wanted)
}

// What follows the header of a file.
fn after_header(file: &[u8]) -> Result<&[u8], Fail> {
    Ok(file.strip_prefix(HEADER).ok_or("another header")?)
}

// What stands in a file before its last byte, the gate that is closed.
fn before_gate(file: &[u8]) -> &[u8] {
    front(file, file.len().saturating_sub(1))
}

// Whether the file of a follower begins with the record that tells so, and is its leader's else.
fn follower_has_records_of(alloc: Global, leader: &Files) -> Result<bool, Fail> {
    let records = after_header(&leader.a)?;
    let files = sums_follower(alloc)?;
    is_made_of(alloc, &files, &[HEADER, FOLLOW, records])
}

#[test]
fn a_follower_has_the_records_of_its_leader(rt: HostRuntime) -> Result<(), Fail> {
    let alloc = rt.alloc();
    let leader = leader(alloc)?;
    assert!(rt; follower_has_records_of(alloc, &leader)?);
    Ok(())
}

// Whether the others have one record more than these files, which their feed has not.
fn has_promotion(alloc: Global, others: &Files, files: &Files) -> Result<bool, Fail> {
    let parts: [&[u8]; 3] = [before_gate(&files.a), PROMOTION, b"\0"];
    Ok(is_made_of(alloc, others, &parts)? && has_feed_of(alloc, others, files)?)
}

// Whether promoting these files adds one record, which their feed has not, and promoting them once more nothing.
fn is_promoted_once(alloc: Global, files: &Files) -> Result<bool, Fail> {
    let once = promoted(alloc, files, true)?;
    let twice = promoted(alloc, &once, false)?;
    Ok(twice.a == once.a && has_promotion(alloc, &twice, files)?)
}

#[test]
fn a_follower_is_promoted_once(rt: HostRuntime) -> Result<(), Fail> {
    let alloc = rt.alloc();
    let files = sums_follower(alloc)?;
    assert!(rt; is_promoted_once(alloc, &files)?);
    Ok(())
}

#[test]
fn a_promoted_shelf_goes_on(rt: HostRuntime) -> Result<(), Fail> {
    let alloc = rt.alloc();
    let files = promoted_sums(alloc)?;
    let once = visited(alloc, &files, SEVEN)?;
    expect_seven(alloc, &once)
}

// Whether promoting a shelf of these files leaves this file.
fn is_left_as(alloc: Global, files: &Files, wanted: &[u8]) -> Result<bool, Fail> {
    let left = promoted(alloc, files, false)?;
    Ok(left.a.as_slice() == wanted)
}

// A journal that no follower began, and one without records, are left alone.
#[test]
fn a_leader_is_not_promoted(rt: HostRuntime) -> Result<(), Fail> {
    let alloc = rt.alloc();
    let files = leader(alloc)?;
    assert!(rt; is_left_as(alloc, &files, &files.a)?);
    assert!(rt; is_left_as(alloc, &nothing(alloc), BARE)?);
    Ok(())
}

// What stands on the disks of a shelf of sums on these files, once it was opened.
fn begun(alloc: Global, files: &Files) -> Result<Files, Fail> {
    visited(alloc, files, &[])
}

// What stands on the disks of a new follower that was fed nothing, once it was opened.
fn begun_unfed(alloc: Global) -> Result<Files, Fail> {
    let files = waiting(alloc)?;
    begun(alloc, &files)
}

// What stands on the disks of a new follower that was fed nothing and is promoted, once it was opened.
fn begun_promoted(alloc: Global) -> Result<Files, Fail> {
    let files = promoted_unfed(alloc)?;
    begun(alloc, &files)
}

// Whether a promotion of these files is their second record, and no other follows it.
fn is_promoted_alone(alloc: Global, files: &Files) -> Result<bool, Fail> {
    let files = promoted(alloc, files, true)?;
    let parts: [&[u8]; 4] = [HEADER, FOLLOW, PROMOTION, b"\0"];
    Ok(is_made_of(alloc, &files, &parts)? && has_no_records(alloc, &files)?)
}

// A shelf that waits gets no setup, and none with its promotion.
#[test]
fn a_shelf_that_was_fed_nothing_is_promoted(rt: HostRuntime) -> Result<(), Fail> {
    let alloc = rt.alloc();
    let files = begun_unfed(alloc)?;
    assert!(rt; is_made_of(alloc, &files, &[HEADER, FOLLOW, b"\0"])?);
    assert!(rt; is_promoted_alone(alloc, &files)?);
    Ok(())
}

// What stands on the disks of a new follower that was fed nothing and is promoted, after the visits of a sum.
fn visited_unfed(alloc: Global) -> Result<Files, Fail> {
    let files = promoted_unfed(alloc)?;
    visited(alloc, &files, VISITS)
}

// Whether these files have the records of a leader after a follower's and its promotion, and the leader's feed.
fn leads_as(alloc: Global, files: &Files, leader: &Files) -> Result<bool, Fail> {
    let parts: [&[u8]; 4] = [HEADER, FOLLOW, PROMOTION, after_header(&leader.a)?];
    Ok(is_made_of(alloc, files, &parts)? && has_feed_of(alloc, files, leader)?)
}

// Once it is promoted, its setup stands after the two records, and its visits after that.
#[test]
fn a_shelf_that_was_fed_nothing_goes_on(rt: HostRuntime) -> Result<(), Fail> {
    let alloc = rt.alloc();
    let leader = leader(alloc)?;
    let files = visited_unfed(alloc)?;
    assert!(rt; leads_as(alloc, &files, &leader)?);
    Ok(())
}

// The record that tells another setup, after its gate, and the gate after it.
const OTHER_SETUP: &[u8] = b"\x01\x10\0\0\0\x06\x01\0\0\0\x01\0\0\0a\x02\0\0\0'a\0";

// What stands on the disks of these files, once they were opened with another setup.
fn renewed(alloc: Global, files: &Files) -> Result<Files, Fail> {
    let setup = setup(alloc, &[("a", "'a")])?;
    visited_with(alloc, files, &setup, &[], RULES)
}

// Whether these files get no other setup.
fn is_not_renewed(alloc: Global, files: &Files) -> Result<bool, Fail> {
    let same = renewed(alloc, files)?;
    Ok(same.a == files.a)
}

// Whether these files get another setup.
fn is_renewed(alloc: Global, files: &Files) -> Result<bool, Fail> {
    let longer = renewed(alloc, files)?;
    is_made_of(alloc, &longer, &[before_gate(&files.a), OTHER_SETUP])
}

// What stands on the disks of these files, once they were opened with another setup and promoted.
fn promoted_renewed(alloc: Global, files: &Files) -> Result<Files, Fail> {
    let same = renewed(alloc, files)?;
    promoted(alloc, &same, true)
}

// A follower gets no other setup; once it is promoted, it does.
#[test]
fn another_setup_is_told_to_a_promoted_shelf(rt: HostRuntime) -> Result<(), Fail> {
    let alloc = rt.alloc();
    let files = sums_follower(alloc)?;
    assert!(rt; is_not_renewed(alloc, &files)?);
    let files = promoted_renewed(alloc, &files)?;
    assert!(rt; is_renewed(alloc, &files)?);
    Ok(())
}

// Why no shelf was opened.
fn fault_of(
    opened: Result<MemoryShelf, (BeginFault, Disks<MemoryDisk>)>,
) -> Result<BeginFault, Fail> {
    match opened {
        Ok(shelf) => {
            put_away(shelf);
            Err(Fail::from("opened"))
        }
        Err((fault, _disks)) => Ok(fault),
    }
}

// Why no shelf under these rules is opened on these files, with this setup.
fn begin_fault(
    alloc: Global,
    files: &Files,
    setup: &Setup,
    rules: Rules,
) -> Result<BeginFault, Fail>
    requires read { IsReadSetup (scripts_of setup.now) }
    requires range { AreInRange rules }
{
    fault_of(tried_under(alloc, disks_of(alloc, files, None)?, setup, rules)?)
}

// Why none is opened on them without a setup.
fn bare_fault(
    alloc: Global,
    files: &Files,
    opening: Opening,
    rules: Rules,
) -> Result<BeginFault, Fail>
    requires { AreInRange rules }
{
    fault_of(tried_bare(alloc, disks_of(alloc, files, None)?, opening, rules))
}

// Why no shelf under these rules is opened on these files, with the setup of sums.
fn sums_fault(alloc: Global, files: &Files, rules: Rules) -> Result<BeginFault, Fail>
    requires { AreInRange rules }
{
    let setup = sums_setup(alloc)?;
    begin_fault(alloc, files, &setup, rules)
}

// Whether this is why no shelf under these rules is opened on these files, with the setup of sums or without one.
fn is_fault(alloc: Global, files: &Files, rules: Rules, wanted: BeginFault) -> Result<bool, Fail>
    requires { AreInRange rules }
{
    let begun = sums_fault(alloc, files, rules)?;
    let opened = bare_fault(alloc, files, Opening::AsItIs, rules)?;
    let fed = bare_fault(alloc, files, Opening::ToFollow, rules)?;
    Ok(begun == wanted && opened == wanted && fed == wanted)
}

// Whether the files are another shelf's whose first setup has its gate at this place.
fn is_another(alloc: Global, files: Files, place: u64) -> Result<bool, Fail> {
    is_fault(alloc, &files, OTHER_RULES, BeginFault::Other { place })
}

// The first record of a setup names the shelf: it has its gate at 8, after the record of a follower at 14, and at 20 where the promotion stands
// before it too.
#[test]
fn another_shelf_is_told_where_the_first_setup_stands(rt: HostRuntime) -> Result<(), Fail> {
    let alloc = rt.alloc();
    assert!(rt; is_another(alloc, leader(alloc)?, 8)?);
    assert!(rt; is_another(alloc, sums_follower(alloc)?, 14)?);
    assert!(rt; is_another(alloc, promoted_sums(alloc)?, 14)?);
    assert!(rt; is_another(alloc, begun_promoted(alloc)?, 20)?);
    Ok(())
}

// Records that tell whether a shelf follows, out of their place, and where their gate is.
const OUT_OF_PLACE: &[(&[&[u8]], u64)] = &[
    (&[PROMOTION], 8),
    (&[FOLLOW, FOLLOW], 14),
    (&[FOLLOW, PROMOTION, PROMOTION], 20),
    (&[FOLLOW, PROMOTION, FOLLOW], 20),
];

// Whether a file of these records is damaged at this place.
fn are_damage(alloc: Global, records: &[&[u8]], place: u64) -> Result<bool, Fail> {
    let records = joined(alloc, records)?;
    let file = joined(alloc, &[HEADER, &records, b"\0"])?;
    is_damage(alloc, file, place)
}

#[test]
fn such_records_out_of_their_place_are_damage(rt: HostRuntime) -> Result<(), Fail> {
    let alloc = rt.alloc();
    for (records, place) in OUT_OF_PLACE {
        assert!(rt; are_damage(alloc, records, *place)?, "{place}");
    }
    Ok(())
}

// Whether a file is damaged at this place.
fn is_damage(alloc: Global, file: Vec<u8>, place: u64) -> Result<bool, Fail> {
    let files = files_with(alloc, file);
    is_fault(alloc, &files, RULES, BeginFault::Damaged { place })
}

// Whether a record that tells a shelf's role is damage after the records of a leader.
fn is_damage_after(alloc: Global, leader: &Files, record: &[u8]) -> Result<bool, Fail> {
    let file = joined(alloc, &[before_gate(&leader.a), record, b"\0"])?;
    is_damage(alloc, file, 618)
}

#[test]
fn after_records_of_a_leader_they_are_damage(rt: HostRuntime) -> Result<(), Fail> {
    let alloc = rt.alloc();
    let leader = leader(alloc)?;
    assert!(rt; is_damage_after(alloc, &leader, FOLLOW)?);
    assert!(rt; is_damage_after(alloc, &leader, PROMOTION)?);
    Ok(())
}
