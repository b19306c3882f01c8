//! The commands `check`, `play`, `serve`, `load`, `audit`, `export`, `follow` and `promote`, over any streams, disks, sockets and clock: for `main`.
#![tactic(auto)]

mod auditing;
mod feeding;
mod jobs;
mod loading;
mod opening;
mod outside;
mod program;
mod serving;
mod telling;

pub use program::{Status, command};
pub use site_serving::{KeptPast, NoPast, Past};
