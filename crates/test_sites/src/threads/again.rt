//! Visits that were noted, run again by the slow engine.
use crate::threads::notes::Note;
use crate::threads::orders::{are_by_rounds, counted, visits_behind};
use http_forms::answer_of;
use instance_cells::{Cells, Effect};
use page_names::{Target, parse_target};
use plain_rerun::rerun;
use script_nodes::{Script, SendKind, Setup};
use script_value::{Items, Reply, Str, Value};
use segments::{Answer, Now, Reads, RunEnd, RunResult, Tape};
use std::alloc::{AllocError, Global};
use std::test::Fail;

/// The most that a visit may cost.
const FUEL: u64 = 100_000;

// What was noted, and of each visit that was run again what it read of instance cells.
#[derive(Drop)]
struct Again<'n> {
    notes: &'n [Note],
    reads: Vec<Option<Items>>,
}

// What a visit reads of instance cells.
fn reads_of(alloc: Global, effects: &[Effect]) -> Result<Items, AllocError> {
    let mut reads = Items::new(alloc);
    for effect in effects {
        if let Effect::Read(_, value) = effect {
            reads.push(value.try_clone(alloc)?)?;
        }
    }
    Ok(reads)
}

// The number of the ticket of a visit that was shown this URL.
fn number_in(url: &str) -> u64 {
    match parse_target(url.as_bytes()) {
        Some(Target::Page(_, page)) => page.page,
        _ => 0,
    }
}

// The URL of the page that was shown; of a last page, which has none, nothing.
fn url_of(alloc: Global, note: &Note) -> Result<Str, Fail> {
    let url = str::from_utf8(note.url().unwrap_or(&[]))?;
    Ok(Str::new(String::from_str(alloc, url)?))
}

// The tape of the visits before one, of its answer, and of its URL, over these cells.
fn tape_of<'t>(past: &'t [Answer], answer: &'t Value, url: &'t Str, cells: &'t Cells) -> Tape<'t> {
    Tape {
        past,
        answer,
        newest: Now {
            number: number_in(url.as_str()),
            url,
            reads: Reads::Present { cells, fuel: FUEL },
        },
    }
}

impl Again<'_> {
    // The visit of this place, as one that lies after others.
    fn answer_at(&self, alloc: Global, place: usize) -> Result<Answer, Fail> {
        let note = self.notes.get(place).ok_or("no note")?;
        let Some(Some(reads)) = self.reads.get(place) else {
            return Err(Fail::from("a page that was not run again yet"));
        };
        let url = url_of(alloc, note)?;
        Ok(Answer {
            value: answer_of(alloc, note.query.as_bytes(), b"".as_slice())?,
            number: number_in(url.as_str()),
            url,
            reads: reads.try_clone(alloc)?,
        })
    }

    // The visits up to that of this place, from the start on.
    fn past(&self, alloc: Global, last: Option<usize>) -> Result<Vec<Answer>, Fail> {
        let mut past = Vec::new(alloc);
        let mut next = last;
        for _ in 0..self.notes.len() {
            let Some(place) = next else { break };
            past.push(self.answer_at(alloc, place)?)?;
            next = self.notes.get(place).ok_or("no note")?.behind;
        }
        past.reverse();
        Ok(past)
    }

    // What a visit comes to over these cells, as the slow engine runs it.
    fn run(
        &self,
        alloc: Global,
        script: &Script,
        note: &Note,
        cells: &Cells,
    ) -> Result<RunResult, Fail> {
        let past = self.past(alloc, note.behind)?;
        let answer = answer_of(alloc, note.query.as_bytes(), b"".as_slice())?;
        let url = url_of(alloc, note)?;
        let tape = tape_of(past.as_slice(), &answer, &url, cells);
        Ok(rerun(alloc, script, &tape)?)
    }

    // Runs the visit of this place, which has to be told as it was, over the cells that those before it left.
    fn run_next(
        &mut self,
        alloc: Global,
        script: &Script,
        cells: &mut Cells,
        place: usize,
    ) -> Result<(), Fail> {
        let notes = self.notes;
        let note = notes.get(place).ok_or("no note")?;
        let run = self.run(alloc, script, note, cells)?;
        let told = settled(alloc, &run, note, cells)?;
        if let Some(reads) = self.reads.get_mut(place) {
            *reads = Some(told);
        }
        Ok(())
    }

    // Runs visits again, in this order, from the cells that an instance begins with.
    fn run_all(&mut self, alloc: Global, script: &Script, order: &[usize]) -> Result<(), Fail> {
        let mut cells = Cells::of(alloc, script.instance_defaults().as_slice())?;
        for place in order {
            self.run_next(alloc, script, &mut cells, *place)?;
        }
        Ok(())
    }
}

// Whether a run stopped with the page that was told.
fn is_as_told(end: &RunEnd, reply: &Reply) -> bool {
    match (end, reply) {
        (
            RunEnd::Shown {
                page,
                kind: SendKind::Suspend,
            },
            Reply::Page { bytes, url: _ },
        ) => page.as_slice() == bytes.as_slice(),
        (RunEnd::Ended(page), Reply::Ended(bytes)) => page.as_slice() == bytes.as_slice(),
        _ => false,
    }
}

// Commits the effects of a run that was told so, and gives what it read.
fn settled(alloc: Global, run: &RunResult, note: &Note, cells: &mut Cells) -> Result<Items, Fail> {
    let effects = run.effects.as_slice();
    if !is_as_told(&run.end, &note.reply) || !cells.are_on(effects) {
        return Err(Fail::from("the slow engine shows another page"));
    }
    cells.commit(alloc, effects)?;
    Ok(reads_of(alloc, effects)?)
}

// The script that a visit is of.
fn script_of<'s>(setup: &'s Setup, note: &Note) -> Result<&'s Script, Fail> {
    let name = match note.target {
        Target::Start(name) => name,
        Target::Page(name, _) => name,
    };
    Ok(setup.find(&name).ok_or("no script")?)
}

// The visits of the instance that began at this place, in an order that the replies tell.
fn order_behind(
    alloc: Global,
    script: &Script,
    notes: &[Note],
    start: usize,
) -> Result<Vec<usize>, Fail> {
    let visits = visits_behind(alloc, notes, start)?;
    if script.instance_defaults().is_empty() {
        Ok(visits)
    } else {
        counted(alloc, notes, visits.as_slice())
    }
}

/// Runs all visits again, each instance's in an order that the replies tell and in which none stands after one of a later
/// round. It fails where one is told another page than was noted.
pub fn run_again(alloc: Global, setup: &Setup, notes: &[Note]) -> Result<(), Fail> {
    let mut reads = Vec::new(alloc);
    for _ in notes {
        reads.push(None)?;
    }
    let mut again = Again { notes, reads };
    for (place, note) in notes.iter().enumerate() {
        if note.behind.is_none() {
            let script = script_of(setup, note)?;
            let order = order_behind(alloc, script, notes, place)?;
            if !are_by_rounds(notes, order.as_slice()) {
                return Err(Fail::from("a visit behind one of a later round"));
            }
            again.run_all(alloc, script, order.as_slice())?;
        }
    }
    Ok(())
}
