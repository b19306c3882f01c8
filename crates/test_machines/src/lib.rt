//! Tests of the machine of stored frames, where scripts nest deep or run long.
#![tactic(auto)]

#[cfg(test)]
mod deep;
