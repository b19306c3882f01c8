//! What a reply says, a page or a status with a word: for what prints, sends and counts replies.
#![tactic(auto)]

mod status;
mod words;

pub use status::ReplyStatus;
pub use words::Told;
