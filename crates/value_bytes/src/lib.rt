//! Values of scripts as bytes, each in one way: for records, states and what the book keeps.
#![tactic(auto)]

ghost use Rattle.value_bytes.specs.Laws.{AreValuesExact};

pub mod fields;
mod length;
mod read;
mod unread;
mod write;

pub use length::{value_length, values_length};
pub use read::{MOST_LEVELS, read_value, read_values, value, values};
pub use unread::Unread;
pub use write::{has_bytes, have_bytes, write_value, write_values};

/// What is written is read back, and what is read is spelled so; no spelling is the front of another one.
pub fn values_are_exact()
    ensures { AreValuesExact }
{}
