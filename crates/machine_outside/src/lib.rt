//! The machine's streams, sockets, clock and randomness, in the forms of web_outside: for the program.
#![tactic(auto)]

mod adapters;
mod buffers;
mod course;
mod door;
mod line;
mod link;
mod lobby;
mod machine;
mod porch;

pub use adapters::{Reading, Writing};
pub use buffers::{ReadAhead, Together};
pub use course::{Course, Stage};
pub use door::SocketDoor;
pub use line::Patience;
pub use link::SocketLink;
pub use lobby::{AcceptFault, Lobby};
pub use machine::{MachineClock, MachineSeeds, StreamNonces};
pub use porch::SocketPorch;
