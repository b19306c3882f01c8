ghost use Rattle.std.specs.Prelude.{◌≡◌};

use std::alloc::{AllocError, AllocFailed};
use thiserror::Error;

/// Why data are no script.
#[derive(Clone, Copy, Debug, PartialEq, Eq, Error)]
pub enum SyntaxKind {
    /// The parts of a form are not as the table of forms says, or there is no expression after the definitions.
    #[error("the parts of a form are not as they have to be")]
    Shape,
    /// A variable has no binding, or there is no cell of this kind and name, or no earlier task of this name.
    #[error("a variable has no binding, or there is no such cell or earlier task")]
    Unbound,
    /// A name is bound twice in one `let` or by one task, a cell or a task is defined twice, or a bound name is that of a form, an
    /// operation, a cell or a task.
    #[error("a name is bound twice, or is one that cannot be bound")]
    Duplicate,
    /// An operation or a call of a task has too few or too many operands.
    #[error("an operation or a call has too few or too many operands")]
    Arity,
    /// A page body sends a page, enters a transaction or calls a task.
    #[error("a page body sends a page, enters a transaction or calls a task")]
    NestedSend,
    /// A page body writes a cell.
    #[error("a page body writes a cell")]
    Effect,
    /// There are more than 64 cells, 16 tasks, 16 parameters of one, or 16,384 nodes, or a node nests deeper than 1,024.
    #[error("there are too many cells, tasks, parameters or nodes, or a node nests too deep")]
    TooMany,
    /// The last clause of a `cond` is not `else`.
    #[error("the last clause of a cond is not else")]
    NoElse,
}

/// The first fault, and the number of the form in which it stands, the first being 0.
#[derive(Clone, Copy, Debug, PartialEq, Eq, Error)]
#[error("form {form}: {kind}")]
pub struct SyntaxError {
    pub kind: SyntaxKind,
    pub form: u32,
}

/// Why there is no script.
#[derive(Clone, Copy, Debug, PartialEq, Eq, Error)]
pub enum ExpandFault {
    /// Memory ran out.
    #[error("memory ran out")]
    Memory,
    /// The data are no script.
    #[error("{0}")]
    At(SyntaxError),
}

impl From<AllocError> for ExpandFault {
    ghost use Rattle.core_syntax.specs.declared.faults.ExpandFault.TheVariants.{Memory};

    ghost from_gives = { λ _ e. e ≡ Memory };

    fn from(_e: AllocError) -> ExpandFault {
        ExpandFault::Memory
    }
}

impl<T: Drop> From<AllocFailed<T>> for ExpandFault {
    ghost use Rattle.core_syntax.specs.declared.faults.ExpandFault.TheVariants.{Memory};

    ghost from_gives = { λ _ e. e ≡ Memory };

    fn from(_e: AllocFailed<T>) -> ExpandFault {
        ExpandFault::Memory
    }
}

/// Why data gave no tree.
#[derive(Clone, Copy)]
pub enum ReadFault {
    /// Memory ran out.
    Memory,
    /// The data are not as the table of forms says.
    Syntax(SyntaxKind),
}

impl From<AllocError> for ReadFault {
    ghost use Rattle.core_syntax.specs.declared.faults.ReadFault.TheVariants.{Memory};

    ghost from_gives = { λ _ e. e ≡ Memory };

    fn from(_e: AllocError) -> ReadFault {
        ReadFault::Memory
    }
}

impl<T: Drop> From<AllocFailed<T>> for ReadFault {
    ghost use Rattle.core_syntax.specs.declared.faults.ReadFault.TheVariants.{Memory};

    ghost from_gives = { λ _ e. e ≡ Memory };

    fn from(_e: AllocFailed<T>) -> ReadFault {
        ReadFault::Memory
    }
}

impl From<SyntaxKind> for ReadFault {
    ghost use Rattle.core_syntax.specs.declared.faults.ReadFault.TheVariants.{Syntax};

    ghost from_gives = { λ k e. e ≡ Syntax k };

    fn from(kind: SyntaxKind) -> ReadFault {
        ReadFault::Syntax(kind)
    }
}
