ghost use Rattle.std.specs.Prelude.{◌≡◌, IfOk};
ghost use Rattle.machine_states.specs.Machine.{inside_of};
ghost use Rattle.machine_states.specs.Views.{stack};

use machine_states::Suspended;
use script_value::TxName;
use std::alloc::{AllocError, Global};

/// The transactions that a page is inside, the outermost first.
pub fn inside(alloc: Global, state: &Suspended) -> Result<Vec<TxName>, AllocError>
    ensures { IfOk result (λ names. names.items ≡ inside_of (stack state.now.frames.items)) }
{
    state.inside(alloc)
}
