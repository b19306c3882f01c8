//! Tests of shelves on disks in memory that stop, fail or are full; and what opens and visits such shelves, for other crates of tests.
#![tactic(auto)]

#[cfg(test)]
mod copies;
#[cfg(test)]
mod failures;
#[cfg(test)]
mod full;
#[cfg(test)]
mod journal;
#[cfg(test)]
mod limits;
#[cfg(test)]
mod numbers;
mod openings;
#[cfg(test)]
mod room;
#[cfg(test)]
mod setups;
#[cfg(test)]
mod stops;
mod texts;
#[cfg(test)]
mod troubles;

pub use openings::{MemoryShelf, answered, created, put_away, tried, tried_under};
pub use texts::{SUM, datum, setup, target, text_of};
