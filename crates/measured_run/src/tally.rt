ghost use Rattle.std.specs.Prelude.{◌≡◌, IfOk, string_bytes, count_by};
ghost use Rattle.measured_run.specs.Tallies as spec;

use crate::hex_digits;
use play_steps::Report;
use reply_words::Told;
use std::alloc::{AllocError, Global};

/// What is counted of a measured run. A count of 64 bits stands still at its end.
#[derive(Clone, Copy, Debug, PartialEq, Eq)]
pub struct Tally {
    /// The steps.
    pub steps: u64,
    /// The answers to workers with a page.
    pub pages: u64,
    /// The answers to workers without one.
    pub refused: u64,
}

impl Tally {
    /// The counts of no step.
    pub fn new() -> Tally
        ensures { result ≡ record { steps = 0; pages = 0; refused = 0 } }
    {
        Tally {
            steps: 0,
            pages: 0,
            refused: 0,
        }
    }

    /// Counts a step, of which this was told.
    pub fn count(&mut self, told: &[Report])
        ensures { self.new ≡ spec.counted self.old told.now }
    {
        self.steps = self.steps.saturating_add(1);
        self.pages = self.pages.saturating_add(pages_in(told));
        self.refused = self.refused.saturating_add(refusals_in(told));
    }

    /// What is printed of a run of these counts, and of the hash of what it printed.
    pub fn summary(&self, alloc: Global, hash: u64) -> Result<String, AllocError>
        ensures { IfOk result (λ text. string_bytes text ≡ spec.summary_text self.now hash) }
    {
        let Tally {
            steps,
            pages,
            refused,
        } = *self;
        let hash = hex_digits(alloc, hash)?;
        let mut text = format!(in alloc; "steps {steps} pages {pages} refused {refused} hash ")?;
        text.push_str(hash.as_str())?;
        text.push_str("\n")?;
        Ok(text)
    }
}

fn pages_in(told: &[Report]) -> u64
    ensures { result ≡ count_by spec.tells_page told.now }
{
    let mut count = 0u64;
    for report in told {
        if tells_page(report) {
            count += 1;
        }
    }
    count
}

fn refusals_in(told: &[Report]) -> u64
    ensures { result ≡ count_by spec.tells_refusal told.now }
{
    let mut count = 0u64;
    for report in told {
        if tells_refusal(report) {
            count += 1;
        }
    }
    count
}

// Whether a worker was answered with a page.
fn tells_page(report: &Report) -> bool
    ensures { result ≡ spec.tells_page report.now }
{
    match report {
        Report::Replied { reply, .. } => matches!(Told::of(reply), Told::Page(_)),
        _ => false,
    }
}

// Whether a worker was answered without a page.
fn tells_refusal(report: &Report) -> bool
    ensures { result ≡ spec.tells_refusal report.now }
{
    match report {
        Report::Replied { reply, .. } => matches!(Told::of(reply), Told::Word(..)),
        _ => false,
    }
}
