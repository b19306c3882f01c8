//! Numbers and byte strings as they are written: for every format on the disk.
#![tactic(auto)]

ghost use Rattle.wire_bytes.specs.Laws.{IsReadBack};

mod cursor;
mod number;
mod writer;

pub use cursor::Cursor;
pub use number::{u32_from_wire, u32_to_wire, u64_from_wire, u64_to_wire};
pub use writer::Writer;

/// What is written is read back, and what stands after it is left.
pub fn spellings_are_read_back()
    ensures { IsReadBack }
{}
