//! Setups that are served over links in memory, and what that comes to.

use crate::outside::{Machine, NARROW, sink_of};
use crate::streets::{Street, door_of};
use crate::texts::{setup_of, text_of};
use file_disk::ServedRack;
use server_command::{KeptPast, command};
use std::alloc::Global;
use std::test::Fail;
use web_outside::{Clock, Gate, ListDoor, ListSeeds, OpenGate, SetClock, TextSink, TextSource};

/// Words with one worker.
pub const SERVE: &[&str] = &["hovgyelit", "serve", "--port", "0", "--workers", "1"];

/// A script of one page.
pub const TEN: (&str, &str) = ("ten", "'(p \"12345\")");

/// A script that shows the bindings `n` of its answer.
pub const ALL: (&str, &str) = (
    "all",
    "(let ((b (send/suspend (lambda (u) `(a ((href ,u)) \"1\"))))) (cons 'p (extract-bindings 'n b)))",
);

/// The status, what was told, what stands on the links, the pages that each worker counted, and how long the history of each
/// shelf is.
#[derive(Drop)]
pub struct Ending {
    pub status: u8,
    pub text: String,
    pub links: Vec<String>,
    pub pages: Vec<u64>,
    pub entries: Vec<u64>,
}

/// The input that is the setup of this script.
pub fn source_of_script(alloc: Global, script: (&str, &str)) -> Result<TextSource, Fail> {
    let setup = setup_of(alloc, script)?;
    Ok(TextSource::new(setup.into_bytes(), Vec::new(alloc), 4096))
}

// What a serving runs on.
#[derive(Drop)]
struct Serving {
    source: TextSource,
    sink: TextSink,
    door: ListDoor,
    seeds: ListSeeds,
    past: KeptPast,
}

impl Serving {
    fn new(alloc: Global, script: (&str, &str), street: &Street) -> Result<Serving, Fail> {
        let source = source_of_script(alloc, script)?;
        let sink = sink_of(alloc, &NARROW)?;
        let door = door_of(alloc, street)?;
        Ok(Serving {
            source,
            sink,
            door,
            seeds: ListSeeds::new(Vec::new(alloc)),
            past: KeptPast::new(),
        })
    }

    // The status that serving with these words ends with.
    fn serve<R: Machine, C: Clock + Sync, G: Gate + Sync>(
        &mut self,
        rt: &R,
        words: &[&str],
        clock: &C,
        gate: &G,
    ) -> u8 {
        let alloc = rt.alloc();
        let mut rack = ServedRack::new(rt, alloc);
        command(
            rt,
            alloc,
            words,
            &mut self.source,
            &mut self.sink,
            &mut rack,
            &mut self.door,
            clock,
            &mut self.seeds,
            gate,
            &mut self.past,
        )
    }
}

// What stands on the links that were served.
fn links_of(alloc: Global, door: &ListDoor) -> Result<Vec<String>, Fail> {
    let mut links = Vec::new(alloc);
    for porch in door.closed() {
        for link in porch.served() {
            links.push(text_of(alloc, link.output.bytes())?)?;
        }
    }
    Ok(links)
}

// The pages that each worker counted.
fn pages_of(alloc: Global, past: &KeptPast) -> Result<Vec<u64>, Fail> {
    let mut pages = Vec::new(alloc);
    if let Some(tallies) = past.tallies() {
        for tally in tallies {
            pages.push(tally.pages)?;
        }
    }
    Ok(pages)
}

// How long the history of each shelf is.
fn entries_of(alloc: Global, past: &KeptPast) -> Result<Vec<u64>, Fail> {
    let mut entries = Vec::new(alloc);
    if let Some(histories) = past.histories() {
        for history in histories {
            entries.push(history.len())?;
        }
    }
    Ok(entries)
}

// The pages that each worker counted, and how long the history of each shelf is.
fn counts_of(alloc: Global, past: &KeptPast) -> Result<(Vec<u64>, Vec<u64>), Fail> {
    let pages = pages_of(alloc, past)?;
    let entries = entries_of(alloc, past)?;
    Ok((pages, entries))
}

// What a serving came to that ended with this status.
fn ending_of(alloc: Global, status: u8, serving: &Serving) -> Result<Ending, Fail> {
    let text = text_of(alloc, serving.sink.bytes())?;
    let links = links_of(alloc, &serving.door)?;
    let (pages, entries) = counts_of(alloc, &serving.past)?;
    Ok(Ending {
        status,
        text,
        links,
        pages,
        entries,
    })
}

/// What serving a script comes to, at this clock and through this gate.
pub fn served_at<R: Machine, C: Clock + Sync, G: Gate + Sync>(
    rt: &R,
    words: &[&str],
    script: (&str, &str),
    street: &Street,
    clock: &C,
    gate: &G,
) -> Result<Ending, Fail> {
    let alloc = rt.alloc();
    let mut serving = Serving::new(alloc, script, street)?;
    let status = serving.serve(rt, words, clock, gate);
    ending_of(alloc, status, &serving)
}

/// What serving a script comes to.
pub fn served<R: Machine>(
    rt: &R,
    words: &[&str],
    script: (&str, &str),
    street: &Street,
) -> Result<Ending, Fail> {
    served_at(rt, words, script, street, &SetClock::new(0), &OpenGate)
}

/// What stands on the link of this number, the first being 0.
pub fn told_on(ending: &Ending, number: usize) -> &str {
    match ending.links.get(number) {
        Some(text) => text.as_str(),
        None => "",
    }
}

/// Whether a text begins and ends so.
pub fn has_ends(text: &str, ends: (&str, &str)) -> bool {
    text.starts_with(ends.0) && text.ends_with(ends.1)
}

/// Whether what stands on the links, in their order, begins and ends so.
pub fn are_told(ending: &Ending, links: &[(&str, &str)]) -> bool {
    for (number, ends) in links.iter().enumerate() {
        if !has_ends(told_on(ending, number), *ends) {
            return false;
        }
    }
    true
}
