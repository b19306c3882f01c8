//! Scripts as nodes and as trees, setups of named scripts, and the library of a journal's setups: for the engine, the book and the readers of texts.
#![tactic(auto)]

mod library;
mod present;
mod script;
mod setup;

pub use library::{Library, ScriptText};
pub use script::{Node, Numbers, Script, SendKind};
pub use setup::{NamedScript, Setup};
