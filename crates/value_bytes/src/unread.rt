use std::alloc::{AllocError, AllocFailed};
use thiserror::Error;

/// Why something is not read.
#[derive(Debug, Drop, Error)]
pub enum Unread {
    /// Memory ran out.
    #[error("memory ran out")]
    Memory,
    /// It does not stand there.
    #[error("the bytes are no spelling of it")]
    Misspelled,
}

impl From<AllocError> for Unread {
    ghost use Rattle.std.specs.Prelude.{◌≡◌};
    ghost use Rattle.value_bytes.specs.declared.unread.Unread.TheVariants.{Memory};

    ghost from_gives = { λ _ e. e ≡ Memory };

    fn from(_: AllocError) -> Self {
        Unread::Memory
    }
}

impl<T: Drop> From<AllocFailed<T>> for Unread {
    ghost use Rattle.std.specs.Prelude.{◌≡◌};
    ghost use Rattle.value_bytes.specs.declared.unread.Unread.TheVariants.{Memory};

    ghost from_gives = { λ _ e. e ≡ Memory };

    fn from(_: AllocFailed<T>) -> Self {
        Unread::Memory
    }
}
