ghost use Rattle.std.specs.Prelude.{◌≡◌};
ghost use Rattle.script_value.specs.Views.{meaning};
ghost use Rattle.page_spec.specs.Page.{page_of};
ghost use Rattle.segments.specs.ReplaySpec.Tape.{page_stop};
ghost use Rattle.segment_progress.specs.Halts.{how_of, HaltsAs};
ghost use Rattle.segment_progress.specs.declared.halt.Halt.TheVariants.{Memory, Stopped};
ghost use Rattle.segments.specs.declared.ends.RunEnd.TheVariants.{Faulted};

use script_nodes::SendKind;
use script_value::{Fault, Value};
use segments::RunEnd;
use std::alloc::{AllocError, AllocFailed, Global};
use xexpr_page::{RenderFault, render};

/// Why a run gives no value.
#[derive(Drop)]
pub enum Halt {
    /// Memory ran out.
    Memory,
    /// The segment stopped.
    Stopped(RunEnd),
}

impl From<AllocError> for Halt {
    ghost from_gives = { λ _ e. e ≡ Memory };

    fn from(_e: AllocError) -> Halt {
        Halt::Memory
    }
}

impl<T: Drop> From<AllocFailed<T>> for Halt {
    ghost from_gives = { λ _ e. e ≡ Memory };

    fn from(_e: AllocFailed<T>) -> Halt {
        Halt::Memory
    }
}

impl From<Fault> for Halt {
    ghost from_gives = { λ fault e. e ≡ Stopped (Faulted fault) };

    fn from(fault: Fault) -> Halt {
        Halt::Stopped(RunEnd::Faulted(fault))
    }
}

impl From<RunEnd> for Halt {
    ghost from_gives = { λ end e. e ≡ Stopped end };

    fn from(end: RunEnd) -> Halt {
        Halt::Stopped(end)
    }
}

/// How a page stops a segment.
#[derive(Clone, Copy)]
pub enum How {
    /// It waits for an answer.
    Shows(SendKind),
    /// It frees the instance.
    Finishes,
    /// It is the last.
    Ends,
}

/// Why a segment stops at a page.
pub fn halt_at(alloc: Global, how: How, page: &Value) -> Halt
    ensures { HaltsAs result (page_stop (how_of how) (page_of (meaning page.now))) }
{
    match render(alloc, page) {
        Ok(page) => Halt::Stopped(match how {
            How::Shows(kind) => RunEnd::Shown { page, kind },
            How::Finishes => RunEnd::Finished(page),
            How::Ends => RunEnd::Ended(page),
        }),
        Err(RenderFault::NotPage) => Halt::Stopped(RunEnd::Faulted(Fault::NotPage)),
        Err(RenderFault::Memory) => Halt::Memory,
    }
}
