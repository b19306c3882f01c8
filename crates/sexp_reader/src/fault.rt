ghost use Rattle.std.specs.Prelude.{◌≡◌};
ghost use Rattle.sexp_reader.specs.declared.fault.ReadFault.TheVariants.{Memory};

use std::alloc::{AllocError, AllocFailed};
use thiserror::Error;

/// What is wrong with a text.
#[derive(Clone, Copy, Debug, PartialEq, Eq, Drop, Error)]
pub enum ReadKind {
    /// The text has more than 65,536 bytes.
    #[error("the text has more than 65,536 bytes")]
    Long,
    /// The text is not UTF-8.
    #[error("the text is not UTF-8")]
    Utf8,
    /// What stands here is no piece of a script.
    #[error("what stands here is no piece of a script")]
    Token,
    /// The text ended inside a list or a text, or after a mark.
    #[error("the text ended inside a list or a text, or after a mark")]
    Unclosed,
    /// A parenthesis or bracket closes what was never opened.
    #[error("what closes here was never opened")]
    Unopened,
    /// A parenthesis closes a bracket, or a bracket a parenthesis.
    #[error("a parenthesis closes a bracket, or a bracket a parenthesis")]
    Mismatch,
    /// A number needs more than 64 bits.
    #[error("a number needs more than 64 bits")]
    Range,
    /// More than 128 lists and marks would be open.
    #[error("more than 128 lists and marks would be open")]
    Deep,
}

/// The first fault of a text, and the place of the byte that it is told at, the first byte being at 0.
#[derive(Clone, Copy, Debug, PartialEq, Eq, Drop, Error)]
#[error("byte {place}: {kind}")]
pub struct ReadError {
    pub place: u64,
    pub kind: ReadKind,
}

/// Why a text gave no data.
#[derive(Clone, Copy, Debug, PartialEq, Eq, Drop, Error)]
pub enum ReadFault {
    /// Memory ran out.
    #[error("memory ran out")]
    Memory,
    /// The text spells no data.
    #[error("{0}")]
    At(ReadError),
}

impl From<AllocError> for ReadFault {
    ghost from_gives = { λ _ e. e ≡ Memory };

    fn from(_error: AllocError) -> ReadFault {
        ReadFault::Memory
    }
}

impl<T: Drop> From<AllocFailed<T>> for ReadFault {
    ghost from_gives = { λ _ e. e ≡ Memory };

    fn from(_failed: AllocFailed<T>) -> ReadFault {
        ReadFault::Memory
    }
}

/// A fault of a text.
pub fn fault(place: u64, kind: ReadKind) -> ReadFault
    ensures { result ≡ ReadFault.At (record { place = place; kind = kind }) }
{
    ReadFault::At(ReadError { place, kind })
}
