//! A rack's disks three at a time: those of a shelf.
#![tactic(auto)]

mod trios;

pub use trios::{give_trio, take_trio};
