ghost use Rattle.std.specs.Prelude.{◌≡◌, ◌<◌, ◌≤◌, ◌+◌, ◌*◌, ◌^◌, IfOk};
ghost use Rattle.machine_states.specs.Fits.{Fits};
ghost use Rattle.cek_machine.specs.Machines.{IsReady, machine_of};
ghost use Rattle.machine_states.specs.Views.{Keeps};
ghost use Rattle.send_suspend.specs.Segments.{FitsFrom, frames_in, Ends, IsBegun, IsConsistent, ReplaysNewest};

use cek_machine::{Machine, Steps};
use instance_cells::Cells;
use machine_states::{Origin, Outcome, Segment, Suspended};
use script_nodes::Script;
use script_value::{Str, Value};
use segments::{Now, Reads, RunEnd};
use std::alloc::{AllocError, Global};
use std::sync::ledger::Ledger;

// How a segment stopped, with what is kept where it waits for an answer.
fn outcome_with(end: RunEnd, state: Suspended) -> Outcome
    ensures { Ends result end state }
{
    match end {
        RunEnd::Shown { page, kind } => Outcome::Shown { page, kind, state },
        RunEnd::Finished(page) => Outcome::Finished(page),
        RunEnd::Ended(page) => Outcome::Ended(page),
        RunEnd::Faulted(fault) => Outcome::Faulted(fault),
        RunEnd::Fuel(cost) => Outcome::Fuel(cost),
    }
}

// The machine that a segment begins with.
fn begin<'s>(
    alloc: Global,
    script: &'s Script,
    from: Origin,
    answer: &Value,
    segment: Now<'s>,
) -> Result<Machine<'s>, AllocError>
    requires { FitsFrom script.now from }
    ensures machine { IfOk result (λ m.
        IsBegun from script.now answer.now segment.entry (machine_of m)) }
    ensures script { IfOk result (λ m. m.script.now ≡ script.now) }
    ensures ready { IfOk result (λ m. IsReady m) }
{
    match from {
        Origin::Start => Machine::start(alloc, script, segment),
        Origin::Page(state) => {
            let answer = answer.try_clone(alloc)?;
            Machine::resume(alloc, script, state, answer, segment)
        }
    }
}

/// Runs a segment of a script after an answer, over the instance's cells as they are, up to the next stop.
///
/// It is given the newest answer alone: what earlier ones came to is in the state that it goes on from. Where memory runs out,
/// there is no answer.
#[tactic(auto, using(crate::proofs::Law::within_begun))]
pub fn run_segment<L: Ledger>(
    alloc: Global,
    script: &Script,
    from: Origin,
    answer: &Value,
    cells: &Cells,
    number: u64,
    url: &Str,
    fuel: u64,
    steps: &mut Steps<L>,
) -> Result<Segment, AllocError>
    requires fits { FitsFrom script.now from }
    requires fuel { fuel < 2 ^ 63 }
    ensures replays { IfOk result
        (ReplaysNewest from script.now answer.now number url.now cells.now fuel) }
    ensures consistent { IfOk result (IsConsistent from script.now cells.now) }
    ensures fits { IfOk result (λ r. Keeps r.outcome (λ d. Fits script.now d)) }
    ensures few { IfOk result (λ r. steps.new ≤ steps.old + (2 * r.cost + frames_in from + 2)) }
{
    let segment = Now {
        number,
        url,
        reads: Reads::Present { cells, fuel },
    };
    let mut machine = begin(alloc, script, from, answer, segment)?;
    let end = machine.run(alloc, steps)?;
    let (run, state) = machine.into_parts(alloc, end);
    let entered = state.inside(alloc)?;
    Ok(Segment {
        outcome: outcome_with(run.end, state),
        effects: run.effects,
        entered,
        left: run.left,
        cost: run.cost,
    })
}
