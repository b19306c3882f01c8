ghost use Rattle.std.specs.Prelude.{◌≡◌};
ghost use Rattle.xexpr_page.specs.declared.fault.RenderFault.TheVariants.{Memory};

use std::alloc::{AllocError, AllocFailed};
use thiserror::Error;

/// Why a value gives no page.
#[derive(Clone, Copy, Debug, PartialEq, Eq, Error)]
pub enum RenderFault {
    /// Memory ran out.
    #[error("memory ran out")]
    Memory,
    /// The value is no page.
    #[error("the value is no page")]
    NotPage,
}

impl From<AllocError> for RenderFault {
    ghost from_gives = { λ _ e. e ≡ Memory };

    fn from(_e: AllocError) -> RenderFault {
        RenderFault::Memory
    }
}

impl<T: Drop> From<AllocFailed<T>> for RenderFault {
    ghost from_gives = { λ _ e. e ≡ Memory };

    fn from(_e: AllocFailed<T>) -> RenderFault {
        RenderFault::Memory
    }
}
