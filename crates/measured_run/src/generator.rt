ghost use Rattle.std.specs.Prelude.{◌≡◌, ◌+◌, ◌<◌, ◌≤◌, ◌^◌, IfOk, OnOk, OnErr, length};
ghost use Rattle.measured_run.specs.Generator as spec;

use crate::script::LoadScript;
use crate::step::LoadStep;
use play_steps::Report;
use script_value::{Bytes, Reply};
use std::alloc::{AllocError, Global};
use std::marker::Model;

/// How many URLs are kept.
const MOST_TARGETS: usize = 256;

/// What draws the steps of a measured run: a number, the clock in seconds, and the URLs of the last
/// pages, at most `MOST_TARGETS`.
#[derive(Drop)]
pub struct Generator {
    number: u64,
    clock: u64,
    targets: Vec<Bytes>,
}

impl Model for Generator {
    ghost use Rattle.std.specs.Prelude.{length, ◌≤◌};
    ghost use Rattle.measured_run.specs.Generator.{Source, most_targets};

    ghost Value = { Source };

    ghost view = { λ g. record { number = g.number; clock = g.clock; targets = g.targets.items } };

    ghost invariant = { λ g. length g.targets.items ≤ most_targets };
}

impl Generator {
    /// What draws the run of this number.
    pub fn new(alloc: Global, number: u64) -> Generator
        requires low { 1 ≤ number }
        requires high { number ≤ 9223372036854775807 }
        ensures { result ≡ spec.source_of number }
    {
        Generator {
            number,
            clock: 0,
            targets: Vec::new(alloc),
        }
    }

    /// Draws the next step, over so many shelves and where these of the four workers hold a ticket.
    /// Where there is no memory for a target, nothing was drawn. The clock rises by 59 seconds at
    /// most.
    #[tactic(auto, unfolding(crate::specs::Generator::next_step))]
    pub fn next(
        &mut self,
        alloc: Global,
        shelves: u32,
        holds: [bool; 4],
    ) -> Result<LoadStep, AllocError>
        requires shelves { 0 < shelves }
        requires clock { self.old.clock + 59 < 2 ^ 62 }
        ensures drawn { IfOk result (λ step. spec.Draws shelves holds self.old step self.new) }
        ensures lacking { OnErr result (self.new ≡ self.old) }
        ensures rises { self.old.clock ≤ self.new.clock }
        ensures slowly { self.new.clock ≤ self.old.clock + 59 }
    {
        let number = drawn(self.number);
        let step = self.step(alloc, number, shelves, holds)?;
        if let LoadStep::Tick { time } = &step {
            self.clock = *time;
        }
        self.number = number;
        Ok(step)
    }

    // The step on which a number decides that was drawn.
    fn step(
        &self,
        alloc: Global,
        number: u64,
        shelves: u32,
        holds: [bool; 4],
    ) -> Result<LoadStep, AllocError>
        requires shelves { 0 < shelves }
        requires clock { self.now.clock + 59 < 2 ^ 62 }
        ensures { IfOk result (λ step. step ≡ spec.step_for shelves holds self.now number) }
    {
        if lot(number) == 0 {
            return Ok(LoadStep::Crash {
                shelf: (choice(number) % u64::from(shelves)) as u32,
            });
        }
        if lot(number) < 21 {
            return Ok(LoadStep::Tick {
                time: self.clock + choice(number) % 60,
            });
        }
        let worker = worker(number);
        if holds[worker as usize] {
            return Ok(LoadStep::Publish { worker });
        }
        let target = self.target(alloc, number)?;
        Ok(visit(lot(number), worker, target))
    }

    // The target of a visit.
    fn target(&self, alloc: Global, number: u64) -> Result<Bytes, AllocError>
        ensures { IfOk result (λ target. target ≡ spec.visit_target self.now.targets number) }
    {
        let choice = choice(number);
        if lot(number) < 120 || self.targets.is_empty() {
            let start = LoadScript::of(choice % 3).start(alloc)?;
            return Ok(Bytes::new(start));
        }
        page_target(alloc, self.targets.as_slice(), choice)
    }

    /// Keeps a URL as the last, and of 257 the first goes. Where there is no memory for it, those
    /// that were kept are kept.
    pub fn learn(&mut self, alloc: Global, url: &[u8]) -> Result<(), AllocError>
        ensures kept { IfOk result (λ _. self.new ≡ spec.with_url url.now self.old) }
        ensures lacking { OnErr result (self.new ≡ self.old) }
        ensures few { OnOk result (length self.new.targets ≤ spec.most_targets) }
        ensures clock { self.new.clock ≡ self.old.clock }
    {
        let url = Bytes::new(url.to_vec(alloc)?);
        self.targets.push(url)?;
        if MOST_TARGETS < self.targets.len() {
            self.targets.remove(0);
        }
        Ok(())
    }

    /// Keeps the URL of the page that was told, where one was. Where there is no memory for it,
    /// those that were kept are kept.
    pub fn learn_from(&mut self, alloc: Global, told: &Report) -> Result<(), AllocError>
        ensures kept { IfOk result (λ _. self.new ≡ spec.learned told.now self.old) }
        ensures lacking { OnErr result (self.new ≡ self.old) }
        ensures clock { self.new.clock ≡ self.old.clock }
    {
        match told {
            Report::Replied {
                reply: Reply::Page { url, .. },
                ..
            } => self.learn(alloc, url.as_slice()),
            _ => Ok(()),
        }
    }
}

// The number that is drawn after a number.
#[tactic(auto, unfolding(crate::specs::Generator::drawn))]
fn drawn(number: u64) -> u64
    ensures { result ≡ spec.drawn number }
{
    let number = number ^ (number << 13);
    let number = number ^ (number >> 7);
    number ^ (number << 17)
}

// What decides on the row.
fn lot(number: u64) -> u64
    ensures { result ≡ spec.lot_of number }
{
    number % 1000
}

fn worker(number: u64) -> u32
    ensures value { result ≡ spec.worker_of number }
    ensures range { result < 4 }
{
    (number / 1000 % 4) as u32
}

// What is chosen within the row.
fn choice(number: u64) -> u64
    ensures { result ≡ spec.choice_of number }
{
    number / 4000
}

fn visit(lot: u64, worker: u32, target: Bytes) -> LoadStep
    ensures { result ≡ spec.visit_of lot worker target }
{
    if lot % 2 == 0 {
        LoadStep::Take { worker, target }
    } else {
        LoadStep::Get { worker, target }
    }
}

// One of the URLs, with a digit as the answer `h`.
fn page_target(alloc: Global, targets: &[Bytes], choice: u64) -> Result<Bytes, AllocError>
    requires { 0 < length targets.now }
    ensures { IfOk result (λ target. target ≡ spec.page_target targets.now choice) }
{
    let place = (choice % targets.len() as u64) as usize;
    let digit = choice / 256 % 10;
    let answer = format!(in alloc; "?h={digit}")?;
    let mut target = targets[place].as_slice().to_vec(alloc)?;
    target.extend_from_slice(answer.as_bytes())?;
    Ok(Bytes::new(target))
}
