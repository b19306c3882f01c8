//! Tests of compactions: what stays, and what one leaves that is stopped or fails; and their files and visits, for other crates of tests.
#![tactic(auto)]

#[cfg(test)]
mod compactions;
pub mod files;
#[cfg(test)]
mod moves;
pub mod old;
#[cfg(test)]
mod older;
pub mod records;
#[cfg(test)]
mod stops;
pub mod sums;
#[cfg(test)]
mod versions;
pub mod visits;
