ghost use Rattle.std.specs.Prelude.{◌<◌, All, IfOk};
ghost use Rattle.site.specs.Sites.{IsOwn};

use crate::passes::MemoryPass;
use crate::sites::MemorySite;
use crate::threads::notes::{Asked, Note, next_behind};
use http_forms::answer_of;
use page_names::parse_target;
use std::alloc::{AllocError, Global};
use std::sync::Wait;
use std::thread::{Threads, for_each_mut};
use web_outside::OpenGate;

/// How many visitors there are, each in a thread of its own.
pub const VISITORS: u32 = 16;

/// How many visits each of them makes in a round.
pub const TURNS: u64 = 125;

// What is started before the first round, by each visitor.
const STARTS: [&str; 2] = ["/servlets/tally", "/servlets/path"];

/// A visitor: the pass that it visits through, its visits of this round, and whether there was memory for them.
#[derive(Drop)]
pub struct Visitor {
    pub pass: MemoryPass,
    pub notes: Vec<Note>,
    pub end: Result<(), AllocError>,
}

/// A visitor for each pass of the site.
pub fn visitors_of(
    alloc: Global,
    site: &MemorySite,
    passes: Vec<MemoryPass>,
) -> Result<Vec<Visitor>, AllocError>
    requires { All (λ pass. IsOwn site.now pass) passes.items }
    ensures { IfOk result (λ visitors. All (λ v. IsOwn site.now v.pass) visitors.items) }
{
    let _ = site;
    let mut passes = passes;
    let mut visitors = Vec::new(alloc);
    'hiring: while let Some(pass) = passes.pop() {
        visitors.push(Visitor {
            pass,
            notes: Vec::new(alloc),
            end: Ok(()),
        })?;
    }
    Ok(visitors)
}

// One visit, of which a note is taken.
fn visit<R: Wait>(
    rt: &R,
    alloc: Global,
    site: &MemorySite,
    visitor: &mut Visitor,
    round: u64,
    asked: Asked,
) -> Result<(), AllocError>
    requires { IsOwn site.now visitor.old.pass }
    ensures { IsOwn site.now visitor.new.pass }
{
    let worker = visitor.pass.caller();
    let turn = visitor.notes.len();
    let query = format!(in alloc; "k={worker}-{turn}")?;
    let answer = answer_of(alloc, query.as_bytes(), b"".as_slice())?;
    let reply = site.visit(
        rt,
        alloc,
        &mut visitor.pass,
        &asked.target,
        answer,
        &OpenGate,
    );
    visitor.notes.push(Note {
        round,
        behind: asked.behind,
        target: asked.target,
        query,
        reply,
    })?;
    Ok(())
}

// The place of the note after which a visitor visits in this turn. In every other turn all visitors choose the same.
fn choice(worker: u64, round: u64, turn: u64, count: u64) -> u64
    requires { 0 < count }
{
    let own = if turn % 2 == 0 {
        0
    } else {
        worker.wrapping_add(1)
    };
    let mixed = round
        .wrapping_mul(7_919)
        .wrapping_add(turn)
        .wrapping_mul(104_729)
        .wrapping_add(own.wrapping_mul(1_299_709));
    (mixed >> 3) % count
}

// The visits of one visitor in a round: where nothing is known yet, the starts; and else after what was noted.
fn visit_in_turn<R: Wait>(
    rt: &R,
    alloc: Global,
    site: &MemorySite,
    visitor: &mut Visitor,
    known: &[Note],
    round: u64,
) -> Result<(), AllocError>
    requires { IsOwn site.now visitor.old.pass }
    ensures { IsOwn site.now visitor.new.pass }
{
    visitor.notes.clear();
    if known.is_empty() {
        for start in STARTS {
            if let Some(target) = parse_target(start.as_bytes()) {
                let asked = Asked {
                    behind: None,
                    target,
                };
                visit(rt, alloc, site, visitor, round, asked)?;
            }
        }
        return Ok(());
    }
    for turn in 0..TURNS {
        let worker = visitor.pass.caller();
        let place = choice(worker, round, turn, known.len() as u64);
        if let Some(asked) = next_behind(known, place as usize) {
            visit(rt, alloc, site, visitor, round, asked)?;
        }
    }
    Ok(())
}

// The visits of one visitor in a round, and whether there was memory for them.
fn visit_round<R: Wait>(
    rt: &R,
    alloc: Global,
    site: &MemorySite,
    visitor: &mut Visitor,
    known: &[Note],
    round: u64,
)
    requires { IsOwn site.now visitor.old.pass }
    ensures { IsOwn site.now visitor.new.pass }
{
    visitor.end = visit_in_turn(rt, alloc, site, visitor, known, round);
}

/// A round of visits, each visitor's in a thread of its own.
pub fn visit_all<R: Threads + Wait + Sync>(
    rt: &R,
    alloc: Global,
    site: &MemorySite,
    visitors: &mut [Visitor],
    known: &[Note],
    round: u64,
)
    requires { All (λ v. IsOwn site.now v.pass) visitors.old }
    ensures { All (λ v. IsOwn site.now v.pass) visitors.new }
{
    for_each_mut(
        rt,
        visitors,
        VISITORS as usize,
        &|_, visitor| visit_round(rt, alloc, site, visitor, known, round),
    );
}
