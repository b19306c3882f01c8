ghost use Rattle.std.specs.Prelude.{◌≡◌, ◌≤◌, ◌*◌, ◌^◌, ◌&&◌, not, if◌then◌else◌, length, max, IfOk};
ghost use Rattle.file_notes.specs.Files.{IsPlan, IsLonger};
ghost use Rattle.file_notes.specs.Notes.{all_lengths, is_time, picked};

use crate::note::Note;
use instance_book::Book;
use std::alloc::{AllocError, Global};

// How long the body of a record of a number is.
const DRAWN_BODY: u64 = 9;

// Whether a record stays before others, of which the next one that stays tells that time went on, or not.
fn is_left(note: &Note, stays: bool, time: bool) -> bool
    ensures { result ≡ (stays && not (is_time note.now && time)) }
{
    stays && !(note.is_time() && time)
}

// Whether the next record that stays tells that time went on, from this one on.
fn tells_time(note: &Note, stays: bool, time: bool) -> bool
    ensures { result ≡ (if stays then is_time note.now else time) }
{
    if stays { note.is_time() } else { time }
}

/// Which records stay when the file of this book is compacted: those of live instances, setups, and of sweeps that then stand together
/// the last one.
pub fn plan_of(alloc: Global, notes: &[Note], book: &Book) -> Result<Vec<bool>, AllocError>
    ensures { IfOk result (IsPlan book.now notes.now) }
{
    let mut plan = Vec::new(alloc);
    plan.resize(notes.len(), false)?;
    // Whether the next record that stays tells that time went on.
    let mut time = false;
    let mut place = notes.len();
    'records: while place > 0 {
        place -= 1;
        let note = notes[place];
        let stays = note.stays(book);
        plan[place] = is_left(&note, stays, time);
        time = tells_time(&note, stays, time);
    }
    Ok(plan)
}

/// The notes of the records that stay.
pub fn picked(alloc: Global, plan: &[bool], notes: &[Note]) -> Result<Vec<Note>, AllocError>
    requires { length plan.now ≡ length notes.now }
    ensures { IfOk result (λ kept. kept.items ≡ picked plan.now notes.now) }
{
    let mut kept = Vec::new(alloc);
    for place in 0..notes.len() {
        if plan[place] {
            kept.push(notes[place])?;
        }
    }
    Ok(kept)
}

/// How long records are in a file, each with its gate and its length.
pub fn lengths_of(notes: &[Note]) -> u128
    ensures lengths { result ≡ all_lengths notes.now }
    ensures low { result ≤ length notes.now * 2 ^ 33 }
{
    let mut total = 0;
    for note in notes {
        total += 5 + note.length() as u128;
    }
    total
}

/// How long the longest body is of these records and of that of a number.
pub fn longest_of(notes: &[Note]) -> u64
    ensures longer { IsLonger notes.now result }
    ensures low { result ≤ max 9 (all_lengths notes.now) }
{
    let mut longest = DRAWN_BODY;
    for note in notes {
        longest = longest.max(note.length() as u64);
    }
    longest
}
