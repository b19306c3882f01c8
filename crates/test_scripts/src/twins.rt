ghost use Rattle.std.specs.Prelude.{◌≡◌, ◌<◌, ◌^◌, IfOk, IfSome, OnOk};
ghost use Rattle.machine_states.specs.Fits.{Fits};
ghost use Rattle.machine_states.specs.Views.{Keeps};
ghost use Rattle.send_suspend.specs.Segments.{FitsFrom};
ghost use Rattle.cek_machine.specs.Machines.{IsReady};

use crate::runs::{Asked, end_told, question_of, tape, url};
use crate::told::Told;
use cek_machine::{Machine, Steps};
use instance_cells::{Cells, Effect};
use machine_states::{Origin, Outcome, Segment, Suspended};
use plain_rerun::rerun;
use script_nodes::Script;
use script_value::{Items, Str, Value, equal};
use segments::{Answer, Now, Reads, RunEnd, RunResult};
use send_suspend::run_segment;
use std::alloc::{AllocError, Global};
use std::marker::Brand;
use std::sync::ledger::{Blank, Ledger};

/// The most that a segment may cost, and the most steps that are counted.
const MOST: u64 = i64::MAX as u64;

/// A segment as both engines ran it.
#[derive(Drop)]
pub struct Twins {
    /// What the machine of stored frames came to.
    pub machine: Segment,
    /// What the slow engine came to, from the start of the script.
    pub plain: RunResult,
    /// The steps that the machine took.
    steps: u64,
    /// The frames that it began with.
    frames: usize,
}

/// The segments that one visitor ran, the oldest first.
#[derive(Drop)]
pub struct Chain {
    pub segments: Vec<Twins>,
    /// The segments as the slow engine is told of them.
    past: Vec<Answer>,
    /// The instance's cells after them.
    cells: Cells,
    /// Where the next segment begins; none where the last waits for no answer.
    from: Option<Origin>,
}

// A copy of where a segment begins.
fn copy_of(alloc: Global, script: &Script, from: &Origin) -> Result<Origin, AllocError>
    requires { FitsFrom script.now from.now }
    ensures { IfOk result (λ copy. FitsFrom script.now copy) }
{
    match from {
        Origin::Start => Ok(Origin::Start),
        Origin::Page(state) => Ok(Origin::Page(state.try_clone(alloc)?)),
    }
}

// The machine that begins there.
fn machine_at<'s>(
    alloc: Global,
    script: &'s Script,
    from: &Origin,
    answer: &Value,
    segment: Now<'s>,
) -> Result<Machine<'s>, AllocError>
    requires { FitsFrom script.now from.now }
    ensures { IfOk result (λ machine. IsReady machine) }
{
    match from {
        Origin::Start => Machine::start(alloc, script, segment),
        Origin::Page(state) => {
            let state = state.try_clone(alloc)?;
            let answer = answer.try_clone(alloc)?;
            Machine::resume(alloc, script, state, answer, segment)
        }
    }
}

// How many steps a machine takes up to its stop.
fn steps_of<L: Ledger>(
    alloc: Global,
    machine: &mut Machine<'_>,
    steps: &mut Steps<L>,
) -> Result<u64, AllocError>
    requires { IsReady machine.old }
{
    for before in 0..MOST {
        match machine.step(alloc, steps)? {
            Some(_) => return Ok(before + 1),
            None => (),
        }
    }
    Ok(MOST)
}

fn frames_at(from: &Origin) -> usize {
    match from {
        Origin::Start => 0,
        Origin::Page(state) => state.frames.len(),
    }
}

// How many steps the machine that begins there takes up to its stop.
fn stepped<L: Ledger>(
    alloc: Global,
    script: &Script,
    from: &Origin,
    answer: &Value,
    segment: Now<'_>,
    counter: &mut Steps<L>,
) -> Result<u64, AllocError>
    requires { FitsFrom script.now from.now }
{
    let mut machine = machine_at(alloc, script, from, answer, segment)?;
    steps_of(alloc, &mut machine, counter)
}

// The segment that the machine comes to.
fn run_from<L: Ledger>(
    alloc: Global,
    script: &Script,
    from: &Origin,
    answer: &Value,
    cells: &Cells,
    number: u64,
    url: &Str,
    fuel: u64,
    counter: &mut Steps<L>,
) -> Result<Segment, AllocError>
    requires fits { FitsFrom script.now from.now }
    requires fuel { fuel < 2 ^ 63 }
    ensures { IfOk result (λ segment. Keeps segment.outcome (λ d. Fits script.now d)) }
{
    let begun = copy_of(alloc, script, from)?;
    run_segment(
        alloc, script, begun, answer, cells, number, url, fuel, counter,
    )
}

// A segment by both engines, the steps of the machine counted.
fn counted<L: Ledger>(
    alloc: Global,
    blank: Blank,
    script: &Script,
    from: &Origin,
    past: &[Answer],
    url: &Str,
    cells: &Cells,
    answer: &Value,
    fuel: u64,
) -> Result<Twins, AllocError>
    requires name { blank.name ≡ L.name }
    requires parts { blank.parts ≡ L.parts }
    requires one { blank.parts ≡ 1 }
    requires fits { FitsFrom script.now from.now }
    requires fuel { fuel < 2 ^ 63 }
    ensures { IfOk result (λ twins. Keeps twins.machine.outcome (λ d. Fits script.now d)) }
{
    let (book, share) = blank.open::<L>();
    let mut counter = Steps::from_ledger(book, share);
    let number = past.len() as u64;
    let segment = Now {
        number,
        url,
        reads: Reads::Present { cells, fuel },
    };
    let steps = stepped(alloc, script, from, answer, segment, &mut counter)?;
    let machine = run_from(
        alloc,
        script,
        from,
        answer,
        cells,
        number,
        url,
        fuel,
        &mut counter,
    )?;
    let plain = rerun(alloc, script, &tape(past, answer, url, cells, fuel))?;
    Ok(Twins {
        machine,
        plain,
        steps,
        frames: frames_at(from),
    })
}

// A segment after an answer, by both engines.
fn twins_of(
    alloc: Global,
    script: &Script,
    from: &Origin,
    chain: &Chain,
    answer: &Value,
    fuel: u64,
) -> Result<Twins, AllocError>
    requires fits { FitsFrom script.now from.now }
    requires fuel { fuel < 2 ^ 63 }
    ensures { IfOk result (λ twins. Keeps twins.machine.outcome (λ d. Fits script.now d)) }
{
    let url = url(alloc, chain.past.len() as u64)?;
    counted::<Brand>(
        alloc,
        Blank::new(1),
        script,
        from,
        chain.past.as_slice(),
        &url,
        &chain.cells,
        answer,
        fuel,
    )
}

/// The first segment of a script, whose page has this URL.
pub fn first_of(alloc: Global, script: &Script, url: &Str) -> Result<Twins, AllocError> {
    let cells = Cells::of(alloc, script.instance_defaults().as_slice())?;
    counted::<Brand>(
        alloc,
        Blank::new(1),
        script,
        &Origin::Start,
        &[],
        url,
        &cells,
        &Value::Truth(false),
        MOST,
    )
}

// Where the segment after this one begins, if it waits for an answer.
fn origin_behind(
    alloc: Global,
    script: &Script,
    segment: &Segment,
) -> Result<Option<Origin>, AllocError>
    requires { Keeps segment.now.outcome (λ d. Fits script.now d) }
    ensures { IfOk result (λ from. IfSome from (λ f. FitsFrom script.now f)) }
{
    match &segment.outcome {
        Outcome::Shown { state, .. } => Ok(Some(Origin::Page(state.try_clone(alloc)?))),
        _ => Ok(None),
    }
}

// What a segment read of instance cells.
fn reads_of(alloc: Global, effects: &[Effect]) -> Result<Items, AllocError> {
    let mut reads = Items::new(alloc);
    for effect in effects {
        if let Effect::Read(_, value) = effect {
            reads.push(value.try_clone(alloc)?)?;
        }
    }
    Ok(reads)
}

impl Chain {
    // No segment yet.
    fn new(alloc: Global, script: &Script) -> Result<Chain, AllocError>
        ensures { IfOk result (λ chain. IfSome chain.from (λ f. FitsFrom script.now f)) }
    {
        Ok(Chain {
            segments: Vec::new(alloc),
            past: Vec::new(alloc),
            cells: Cells::of(alloc, script.instance_defaults().as_slice())?,
            from: Some(Origin::Start),
        })
    }

    /// How the last segment stopped, by the machine.
    pub fn last_stop(&self) -> Option<&Outcome> {
        Some(&self.segments.last()?.machine.outcome)
    }

    /// What is kept at the page that was shown so many pages before the last.
    pub fn page(&self, before: usize) -> Option<&Suspended> {
        match &self.segments.iter().rev().nth(before)?.machine.outcome {
            Outcome::Shown { state, .. } => Some(state),
            _ => None,
        }
    }

    // Keeps of a segment what the slow engine is told of it, and what it did to the cells.
    fn note(&mut self, alloc: Global, answer: &Value, segment: &Segment) -> Result<(), AllocError>
        ensures { self.new.from ≡ self.old.from }
    {
        let number = self.past.len() as u64;
        self.past.push(Answer {
            value: answer.try_clone(alloc)?,
            number,
            url: url(alloc, number)?,
            reads: reads_of(alloc, segment.effects.as_slice())?,
        })?;
        let effects = segment.effects.as_slice();
        if self.cells.are_on(effects) {
            self.cells.commit(alloc, effects)?;
        }
        Ok(())
    }

    // One more segment, which begins there.
    fn visit_from(
        &mut self,
        alloc: Global,
        script: &Script,
        from: &Origin,
        answer: &Value,
        fuel: u64,
    ) -> Result<(), AllocError>
        requires fits { FitsFrom script.now from.now }
        requires fuel { fuel < 2 ^ 63 }
        ensures { OnOk result (IfSome self.new.from (λ f. FitsFrom script.now f)) }
    {
        let twins = twins_of(alloc, script, from, self, answer, fuel)?;
        self.note(alloc, answer, &twins.machine)?;
        self.from = origin_behind(alloc, script, &twins.machine)?;
        self.segments.push(twins)?;
        Ok(())
    }

    // One more segment, where the last waits for an answer.
    fn visit(
        &mut self,
        alloc: Global,
        script: &Script,
        answer: &Value,
        fuel: u64,
    ) -> Result<(), AllocError>
        requires fits { IfSome self.old.from (λ f. FitsFrom script.now f) }
        requires fuel { fuel < 2 ^ 63 }
        ensures { OnOk result (IfSome self.new.from (λ f. FitsFrom script.now f)) }
    {
        match self.from.take() {
            Some(from) => self.visit_from(alloc, script, &from, answer, fuel),
            None => Ok(()),
        }
    }
}

/// What a script comes to over answers, up to the first segment that waits for none.
pub fn chain_of(
    alloc: Global,
    script: &Script,
    answers: &[Value],
    fuel: u64,
) -> Result<Chain, AllocError>
    ensures { IfOk result (λ chain. IfSome chain.from (λ f. FitsFrom script.now f)) }
{
    let fuel = fuel.min(MOST);
    let mut chain = Chain::new(alloc, script)?;
    chain.visit(alloc, script, &Value::Truth(false), fuel)?;
    for answer in answers {
        chain.visit(alloc, script, answer, fuel)?;
    }
    Ok(chain)
}

// ---- whether both came to the same

fn are_ends_alike(plain: &RunEnd, machine: &Outcome) -> bool {
    match (plain, machine) {
        (
            RunEnd::Shown { page, kind },
            Outcome::Shown {
                page: other,
                kind: another,
                ..
            },
        ) => *kind == *another && page.as_slice() == other.as_slice(),
        (RunEnd::Finished(page), Outcome::Finished(other)) => page.as_slice() == other.as_slice(),
        (RunEnd::Ended(page), Outcome::Ended(other)) => page.as_slice() == other.as_slice(),
        (RunEnd::Faulted(fault), Outcome::Faulted(other)) => *fault == *other,
        (RunEnd::Fuel(cost), Outcome::Fuel(other)) => *cost == *other,
        _ => false,
    }
}

fn is_effect_alike(plain: &Effect, machine: &Effect) -> bool {
    match (plain, machine) {
        (Effect::Read(cell, value), Effect::Read(other, another)) => {
            *cell == *other && equal(value, another)
        }
        (Effect::Set(cell, value), Effect::Set(other, another)) => {
            *cell == *other && equal(value, another)
        }
        (Effect::Add(cell, number), Effect::Add(other, another)) => {
            *cell == *other && *number == *another
        }
        _ => false,
    }
}

fn are_effects_alike(plain: &[Effect], machine: &[Effect]) -> bool {
    plain.len() == machine.len()
        && plain
            .iter()
            .zip(machine.iter())
            .all(|(effect, other)| is_effect_alike(effect, other))
}

impl Twins {
    // Whether both engines came to the same stop, effects, transactions and cost.
    fn are_alike(&self) -> bool {
        are_ends_alike(&self.plain.end, &self.machine.outcome)
            && are_effects_alike(
                self.plain.effects.as_slice(),
                self.machine.effects.as_slice(),
            )
            && self.plain.entered.as_slice() == self.machine.entered.as_slice()
            && self.plain.left.as_slice() == self.machine.left.as_slice()
            && self.plain.cost == self.machine.cost
    }

    /// The most steps that the segment's cost and the frames that it began with allow.
    pub fn most_steps(&self) -> u64 {
        self.machine
            .cost
            .saturating_mul(3)
            .saturating_add(self.frames as u64)
            .saturating_add(3)
    }

    // Whether the machine took no more.
    fn is_within(&self) -> bool {
        self.steps <= self.most_steps()
    }

    /// How the segment stopped, where both engines agree and the machine is within its bound.
    pub fn told(&self, alloc: Global) -> Result<String, AllocError> {
        if !self.are_alike() {
            return String::from_str(alloc, "the engines differ");
        }
        if !self.is_within() {
            return String::from_str(alloc, "too many steps");
        }
        end_told(alloc, &self.plain.end)
    }
}

fn are_all_alike(chain: &Chain) -> bool {
    for twins in &chain.segments {
        if !twins.are_alike() || !twins.is_within() {
            return false;
        }
    }
    true
}

/// Whether both engines agree on each segment of a row.
pub fn engines_agree(alloc: Global, asked: &Asked) -> Result<bool, AllocError> {
    let chain = chain_of(alloc, &asked.script, asked.answers.as_slice(), asked.fuel)?;
    Ok(are_all_alike(&chain))
}

/// How each segment stops, by both engines.
pub fn each_told(alloc: Global, chain: &Chain) -> Result<String, AllocError> {
    let mut told = Told::new(alloc);
    for (place, twins) in chain.segments.iter().enumerate() {
        if place > 0 {
            told.add("; ");
        }
        told.put(twins.told(alloc));
    }
    told.all()
}

/// How many segments there are, and how the last of them stops, by both engines.
pub fn last_told(alloc: Global, chain: &Chain) -> Result<String, AllocError> {
    let count = chain.segments.len();
    match chain.segments.last() {
        Some(twins) => {
            let told = twins.told(alloc)?;
            format!(in alloc; "{count}: {told}")
        }
        None => String::from_str(alloc, "no segment"),
    }
}

// How a page goes on with each of these answers, from what was kept there, by both engines.
fn each_told_behind(
    alloc: Global,
    script: &Script,
    chain: &Chain,
    answers: &[Value],
    fuel: u64,
) -> Result<String, AllocError>
    requires fits { IfSome chain.now.from (λ f. FitsFrom script.now f) }
    requires fuel { fuel < 2 ^ 63 }
{
    let mut told = Told::new(alloc);
    for (place, answer) in answers.iter().enumerate() {
        if place > 0 {
            told.add("; ");
        }
        told.put(told_behind(alloc, script, chain, answer, fuel));
    }
    told.all()
}

// How a page goes on with this answer, by both engines.
fn told_behind(
    alloc: Global,
    script: &Script,
    chain: &Chain,
    answer: &Value,
    fuel: u64,
) -> Result<String, AllocError>
    requires fits { IfSome chain.now.from (λ f. FitsFrom script.now f) }
    requires fuel { fuel < 2 ^ 63 }
{
    match &chain.from {
        Some(from) => twins_of(alloc, script, from, chain, answer, fuel)?.told(alloc),
        None => String::from_str(alloc, "no page"),
    }
}

// How the first page of a question goes on with each of its answers.
fn again_asked(alloc: Global, asked: &Asked) -> Result<String, AllocError> {
    let fuel = asked.fuel.min(MOST);
    let chain = chain_of(alloc, &asked.script, &[], fuel)?;
    each_told_behind(alloc, &asked.script, &chain, asked.answers.as_slice(), fuel)
}

/// How the first page of a row goes on with each of its answers, from what was kept there, by both engines.
pub fn again_told(alloc: Global, row: &str) -> Result<String, AllocError> {
    match question_of(alloc, row)? {
        Ok(asked) => again_asked(alloc, &asked),
        Err(fault) => Ok(fault),
    }
}
