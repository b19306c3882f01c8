ghost use Rattle.std.specs.Prelude.{◌≡◌};
ghost use Rattle.prim_ops.specs.declared.fault.ApplyFault.TheVariants.{Memory, Fault as FaultOf};

use script_value::Fault;
use std::alloc::{AllocError, AllocFailed};
use thiserror::Error;

/// Why an operation gives no value.
#[derive(Clone, Copy, Debug, PartialEq, Eq, Error)]
pub enum ApplyFault {
    /// Memory ran out.
    #[error("memory ran out")]
    Memory,
    /// The operands do not fit the operation, or its value no limit.
    #[error("{0}")]
    Fault(Fault),
}

impl From<AllocError> for ApplyFault {
    ghost from_gives = { λ _ e. e ≡ Memory };

    fn from(_e: AllocError) -> ApplyFault {
        ApplyFault::Memory
    }
}

impl<T: Drop> From<AllocFailed<T>> for ApplyFault {
    ghost from_gives = { λ _ e. e ≡ Memory };

    fn from(_e: AllocFailed<T>) -> ApplyFault {
        ApplyFault::Memory
    }
}

impl From<Fault> for ApplyFault {
    ghost from_gives = { λ fault e. e ≡ FaultOf fault };

    fn from(fault: Fault) -> ApplyFault {
        ApplyFault::Fault(fault)
    }
}
