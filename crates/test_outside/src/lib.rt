//! Tests of the machine's streams, sockets, clock and seeds.
#![tactic(auto)]

#[cfg(test)]
mod fakes;
#[cfg(test)]
mod links;
#[cfg(test)]
mod outside;
#[cfg(test)]
mod writes;
