//! What a record of a shelf's journal says, as bytes, each in one way: for the book, the shelf and recovery.
#![tactic(auto)]

mod decoding;
mod encoding;
mod grammar;
mod laws;
mod nesting;
mod records;

pub use decoding::{decode, is_role};
pub use encoding::{body_length, encode, record_length};
pub use grammar::can_begin;
pub use laws::records_are_exact;
pub use records::{EndedRecord, FinishRecord, Logged, Origin, PageRecord, Recorded};
