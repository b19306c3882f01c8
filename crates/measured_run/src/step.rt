ghost use Rattle.std.specs.Prelude.{◌≡◌, IfOk};
ghost use Rattle.play_steps.specs.Views.{meaning};
ghost use Rattle.measured_run.specs.Lines as spec;

use play_steps::Step;
use script_value::Bytes;
use std::alloc::{AllocError, Global};

/// A step of a measured run.
#[derive(Drop)]
pub enum LoadStep {
    /// The shelf's disk crashes, and the shelf is opened again.
    Crash { shelf: u32 },
    /// Each shelf is swept at this time, in seconds.
    Tick { time: u64 },
    /// The worker's ticket is spent.
    Publish { worker: u32 },
    /// The worker takes a ticket for a visit of the target.
    Take { worker: u32, target: Bytes },
    /// A take, and where it gives a ticket its publish.
    Get { worker: u32, target: Bytes },
}

impl LoadStep {
    /// The step of `play` that it is.
    pub fn as_step(&self) -> Step<'_>
        ensures { meaning result ≡ spec.played self.now }
    {
        match self {
            LoadStep::Crash { shelf } => Step::Crash { shelf: *shelf },
            LoadStep::Tick { time } => Step::Tick { time: *time },
            LoadStep::Publish { worker } => Step::Publish { worker: *worker },
            LoadStep::Take { worker, target } => Step::Take {
                worker: *worker,
                target: target.as_slice(),
            },
            LoadStep::Get { worker, target } => Step::Get {
                worker: *worker,
                target: target.as_slice(),
            },
        }
    }

    /// The line that spells it, without the newline: `crash S`, `tick T`, `publish W`,
    /// `take W TARGET` or `get W TARGET`.
    pub fn line(&self, alloc: Global) -> Result<Vec<u8>, AllocError>
        ensures { IfOk result (λ line. line.items ≡ spec.line_of self.now) }
    {
        match self {
            LoadStep::Crash { shelf } => {
                let line = format!(in alloc; "crash {shelf}")?;
                Ok(line.into_bytes())
            }
            LoadStep::Tick { time } => {
                let line = format!(in alloc; "tick {time}")?;
                Ok(line.into_bytes())
            }
            LoadStep::Publish { worker } => {
                let line = format!(in alloc; "publish {worker}")?;
                Ok(line.into_bytes())
            }
            LoadStep::Take { worker, target } => visit_line(
                alloc,
                "take",
                *worker,
                target.as_slice(),
            ),
            LoadStep::Get { worker, target } => visit_line(
                alloc,
                "get",
                *worker,
                target.as_slice(),
            ),
        }
    }
}

// A word, a worker and a target.
fn visit_line(alloc: Global, word: &str, worker: u32, target: &[u8]) -> Result<Vec<u8>, AllocError>
    ensures { IfOk result (λ line. line.items ≡ spec.visit_line word.now worker target.now) }
{
    let head = format!(in alloc; "{word} {worker} ")?;
    let mut line = head.into_bytes();
    line.extend_from_slice(target)?;
    Ok(line)
}
