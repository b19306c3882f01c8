ghost use Rattle.std.specs.Prelude.{◌≡◌, ◌<◌, ◌≤◌, ◌∷◌, [], ◌^◌, false, length, All, IfOk, IfSome, OnOk};
ghost use Rattle.page_journal.specs.Records.{at_rest};
ghost use Rattle.page_journal.specs.Replacing.{IsWholeFile};
ghost use Rattle.page_journal.specs.Scanned.{NoLonger};
ghost use Rattle.file_notes.specs.Notes.{picked};
ghost use Rattle.file_copies.specs.Copies.{copied, HasMore, IsForBodies};
ghost use Rattle.file_copies.specs.Sizing.{AreSizesWith};

use crate::frame::put_record;
use page_journal::NEWEST_FORMAT;
use script_value::Bytes;
use std::alloc::{AllocError, Global};

// How long a file without records is, and what stands before a body there.
const EMPTY: u64 = 9;

const FRAME: u64 = 5;

/// How long a file is, and its longest body.
#[derive(Clone, Copy, Debug, PartialEq, Eq)]
pub struct Sizes {
    pub len: u64,
    pub longest: u64,
}

impl Sizes {
    // The sizes of a file with one record more; none where it is 2^64 bytes long or longer.
    fn with(self, body: &[u8]) -> Option<Sizes>
        ensures { IfSome result (AreSizesWith self (body.now ∷ [])) }
    {
        let size = body.len() as u64;
        let len = self.len.checked_add(FRAME)?.checked_add(size)?;
        Some(Sizes {
            len,
            longest: self.longest.max(size),
        })
    }

    // The sizes with those of these records more that are planned to stay.
    fn with_planned(self, others: &[Bytes], plan: &[bool]) -> Option<Sizes>
        requires { length plan.now ≡ length others.now }
        ensures { IfSome result (AreSizesWith self (picked plan.now others.now)) }
    {
        let mut sizes = self;
        for place in 0..plan.len() {
            if plan[place] {
                sizes = sizes.with(others[place].as_slice())?;
            }
        }
        Some(sizes)
    }
}

/// The sizes of the file of the newest format that has the first of these bodies, this one of a number, and those of the others that
/// are planned to stay; of none where there is no body. None where the plan is not of these bodies, or it is 2^64 bytes long or longer.
pub fn sizes_of(bodies: &[Bytes], plan: &[bool], number: &[u8]) -> Option<Sizes>
    ensures plan { IfSome result (λ s. IsForBodies plan.now bodies.now) }
    ensures low { IfSome result (λ s. s.longest ≤ s.len) }
    ensures len { IfSome result (λ s. s.len ≡ length (at_rest (copied plan.now false number.now bodies.now))) }
    ensures longest { IfSome result (λ s. NoLonger s.longest (copied plan.now false number.now bodies.now)) }
{
    let empty = Sizes {
        len: EMPTY,
        longest: 0,
    };
    let Some((first, others)) = bodies.split_first() else {
        return Some(empty);
    };
    if others.len() != plan.len() {
        return None;
    }
    let sizes = empty.with(first.as_slice())?.with(number)?;
    sizes.with_planned(others, plan)
}

// Puts those of these records that are planned to stay at the end of a file.
fn put_planned(file: &mut Vec<u8>, others: &[Bytes], plan: &[bool]) -> Result<(), AllocError>
    requires plan { length plan.now ≡ length others.now }
    requires short { All (λ body. length body < 2 ^ 32) (picked plan.now others.now) }
    ensures { OnOk result (HasMore file.old (picked plan.now others.now) file.new) }
{
    for place in 0..plan.len() {
        if plan[place] {
            put_record(file, others[place].as_slice())?;
        }
    }
    Ok(())
}

// Puts what is copied of these bodies at the end of a file.
fn put_copied(
    file: &mut Vec<u8>,
    bodies: &[Bytes],
    plan: &[bool],
    number: &[u8],
) -> Result<(), AllocError>
    requires plan { IsForBodies plan.now bodies.now }
    requires short { All (λ body. length body < 2 ^ 32) (copied plan.now false number.now bodies.now) }
    ensures { OnOk result (HasMore file.old (copied plan.now false number.now bodies.now) file.new) }
{
    let Some((first, others)) = bodies.split_first() else {
        return Ok(());
    };
    put_record(file, first.as_slice())?;
    put_record(file, number)?;
    put_planned(file, others, plan)
}

/// The file of the newest format that has the first of these bodies, this one of a number, and those of the others that are planned to
/// stay. A journal has room for it, as its sizes tell.
pub fn file_of(
    alloc: Global,
    bodies: &[Bytes],
    plan: &[bool],
    number: &[u8],
    sizes: Sizes,
) -> Result<Vec<u8>, AllocError>
    requires plan { IsForBodies plan.now bodies.now }
    requires len { sizes.len ≡ length (at_rest (copied plan.now false number.now bodies.now)) }
    requires longest { NoLonger sizes.longest (copied plan.now false number.now bodies.now) }
    requires short { sizes.len ≤ 2 ^ 30 }
    ensures file { IfOk result (λ file. file.items ≡ at_rest (copied plan.now false number.now bodies.now)) }
    ensures whole { IfOk result (λ file. IsWholeFile file.items sizes.longest) }
{
    let mut file = Vec::with_capacity(alloc, sizes.len as usize)?;
    file.extend_from_slice(&[75, 83, 87, 69, 66, 0, 0, NEWEST_FORMAT])?;
    put_copied(&mut file, bodies, plan, number)?;
    file.push(0)?;
    Ok(file)
}
