ghost use Rattle.std.specs.Prelude.{◌≡◌, IfOk, string_bytes};
ghost use Rattle.setup_reader.specs.Faults as spec;
ghost use Rattle.setup_reader.specs.Views.{fault_of, line_of};
ghost use Rattle.setup_reader.specs.declared.fault.SetupFault.TheVariants.{Memory};

use core_syntax::{SyntaxError, SyntaxKind};
use page_names::ScriptName;
use sexp_reader::{ReadError, ReadKind};
use std::alloc::{AllocError, AllocFailed, Global};
use thiserror::Error;

/// What is wrong with a setup itself.
#[derive(Clone, Copy, Debug, PartialEq, Eq, Error)]
pub enum SetupKind {
    /// What stands here is neither a script's section nor what ends a setup.
    #[error("what stands here is neither a section nor what ends a setup")]
    Section,
    /// A section has the name of an earlier one.
    #[error("a section has the name of an earlier one")]
    Repeat,
    /// There are more than `MOST_SCRIPTS` sections.
    #[error("there are too many sections")]
    Many,
    /// The setup ends before any section.
    #[error("the setup ends before any section")]
    Empty,
    /// The input ends where a section or the line `steps` is due.
    #[error("the input ends where a section or the line `steps` is due")]
    End,
}

/// The first fault of a setup.
#[derive(Clone, Copy, Debug, Error)]
pub enum SetupError {
    /// Of the section that begins at this byte of the input.
    #[error("the setup, byte {place}: {kind}")]
    Setup {
        place: u64,
        kind: SetupKind,
    },
    /// Of the text of the script of this name.
    #[error("the text of a script, {error}")]
    Read {
        name: ScriptName,
        error: ReadError,
    },
    /// Of a form of the script of this name.
    #[error("a script, {error}")]
    Syntax {
        name: ScriptName,
        error: SyntaxError,
    },
}

/// Why an input gave no setup.
#[derive(Clone, Copy, Debug, Error)]
pub enum SetupFault {
    /// Memory ran out.
    #[error("memory ran out")]
    Memory,
    /// The input has no setup.
    #[error("{0}")]
    At(SetupError),
}

impl From<AllocError> for SetupFault {
    ghost from_gives = { λ _ e. e ≡ Memory };

    fn from(_e: AllocError) -> SetupFault {
        SetupFault::Memory
    }
}

impl<T: Drop> From<AllocFailed<T>> for SetupFault {
    ghost from_gives = { λ _ e. e ≡ Memory };

    fn from(_e: AllocFailed<T>) -> SetupFault {
        SetupFault::Memory
    }
}

fn setup_word(kind: SetupKind) -> &'static str
    ensures { result.now ≡ spec.setup_word kind }
{
    match kind {
        SetupKind::Section => "section",
        SetupKind::Repeat => "repeat",
        SetupKind::Many => "many",
        SetupKind::Empty => "empty",
        SetupKind::End => "end",
    }
}

fn read_word(kind: ReadKind) -> &'static str
    ensures { result.now ≡ spec.read_word kind }
{
    match kind {
        ReadKind::Long => "long",
        ReadKind::Utf8 => "utf8",
        ReadKind::Token => "token",
        ReadKind::Unclosed => "unclosed",
        ReadKind::Unopened => "unopened",
        ReadKind::Mismatch => "mismatch",
        ReadKind::Range => "range",
        ReadKind::Deep => "deep",
    }
}

fn syntax_word(kind: SyntaxKind) -> &'static str
    ensures { result.now ≡ spec.syntax_word kind }
{
    match kind {
        SyntaxKind::Shape => "shape",
        SyntaxKind::Unbound => "unbound",
        SyntaxKind::Duplicate => "duplicate",
        SyntaxKind::Arity => "arity",
        SyntaxKind::NestedSend => "nestedsend",
        SyntaxKind::Effect => "effect",
        SyntaxKind::TooMany => "toomany",
        SyntaxKind::NoElse => "noelse",
    }
}

/// The line that tells a fault of a setup.
pub fn fault_line(alloc: Global, error: &SetupError) -> Result<String, AllocError>
    ensures { IfOk result (λ text. string_bytes text ≡ spec.fault_line (fault_of error.now)) }
{
    match error {
        SetupError::Setup { place, kind } => setup_line(alloc, *place, *kind),
        SetupError::Read { name, error } => read_line(alloc, name, *error),
        SetupError::Syntax { name, error } => syntax_line(alloc, name, *error),
    }
}

fn setup_line(alloc: Global, place: u64, kind: SetupKind) -> Result<String, AllocError>
    ensures { IfOk result (λ text. string_bytes text ≡ line_of (SetupError.Setup place kind)) }
{
    let word = setup_word(kind);
    format!(in alloc; "error 3 setup {place} {word}\n")
}

fn read_line(alloc: Global, name: &ScriptName, error: ReadError) -> Result<String, AllocError>
    ensures { IfOk result (λ text. string_bytes text ≡ line_of (SetupError.Read name.now error)) }
{
    let name = name.as_str();
    let place = error.place;
    let word = read_word(error.kind);
    format!(in alloc; "error 3 {name} read {place} {word}\n")
}

fn syntax_line(alloc: Global, name: &ScriptName, error: SyntaxError) -> Result<String, AllocError>
    ensures { IfOk result (λ text. string_bytes text ≡ line_of (SetupError.Syntax name.now error)) }
{
    let name = name.as_str();
    let form = error.form;
    let word = syntax_word(error.kind);
    format!(in alloc; "error 3 {name} syntax {form} {word}\n")
}
