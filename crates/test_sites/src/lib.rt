//! Tests of a site and of its lock: visits of two passes, notes, ticks, its end, what is handed back where it is not begun, and sixteen threads; and turns of the lock over a counter.
#![tactic(auto)]

#[cfg(test)]
mod begins;
pub mod counter;
pub mod counting;
#[cfg(test)]
mod ends;
#[cfg(test)]
mod lock_notes;
#[cfg(test)]
mod lock_numbers;
#[cfg(test)]
mod lock_threads;
#[cfg(test)]
mod memory;
#[cfg(test)]
mod passes;
#[cfg(test)]
mod setups;
#[cfg(test)]
mod sites;
#[cfg(test)]
mod threads;
#[cfg(test)]
mod ticks;
#[cfg(test)]
mod visits;
