//! In which order the visits of an instance took place, as their replies tell it.
use crate::threads::notes::Note;
use std::alloc::Global;
use std::test::Fail;

// The start of the instance that the note of this place is of.
fn root_of(notes: &[Note], place: usize) -> usize {
    let mut root = place;
    for _ in 0..notes.len() {
        match notes.get(root) {
            Some(
                Note {
                    behind: Some(before),
                    ..
                },
            ) => root = *before,
            _ => return root,
        }
    }
    root
}

/// The places of the visits of the instance that began at this one, in the order of the notes: a page's before those that
/// answered it.
pub fn visits_behind(alloc: Global, notes: &[Note], start: usize) -> Result<Vec<usize>, Fail> {
    let mut visits = Vec::new(alloc);
    for place in 0..notes.len() {
        if root_of(notes, place) == start {
            visits.push(place)?;
        }
    }
    Ok(visits)
}

// Puts the visit of this place where its count says, and the start first.
fn put(order: &mut [Option<usize>], notes: &[Note], place: usize) -> Result<(), Fail> {
    let note = notes.get(place).ok_or("no note")?;
    let count = match note.behind {
        Some(_) => note.count().ok_or("no count")?,
        None => 0,
    };
    match order.get_mut(count as usize) {
        Some(slot @ None) => {
            *slot = Some(place);
            Ok(())
        }
        _ => Err(Fail::from("a count twice, or too high")),
    }
}

// The places, each of which has to be there.
fn all_of(alloc: Global, order: &[Option<usize>]) -> Result<Vec<usize>, Fail> {
    let mut places = Vec::new(alloc);
    for place in order {
        places.push(place.ok_or("a count that nobody told")?)?;
    }
    Ok(places)
}

/// Visits in the order of what they counted: the start, and then each number from 1 on once.
pub fn counted(alloc: Global, notes: &[Note], visits: &[usize]) -> Result<Vec<usize>, Fail> {
    let mut order = vec![in alloc; None; visits.len()]?;
    for place in visits {
        put(&mut order, notes, *place)?;
    }
    all_of(alloc, &order)
}

/// Whether no visit of this order stands after one of a later round.
pub fn are_by_rounds(notes: &[Note], order: &[usize]) -> bool {
    let mut latest = 0;
    for place in order {
        let round = notes.get(*place).map_or(0, |note| note.round);
        if round < latest {
            return false;
        }
        latest = round;
    }
    true
}
