//! A disk, what a crash may leave of it, and racks of disks, all of them in memory too: for the journal.
#![tactic(auto)]

mod asked;
mod disk;
mod failures;
mod memory;
mod memory_rack;
mod plan;
mod rack;
mod repeated;
mod trace;
mod wreck;

pub use asked::Asked;
pub use disk::Disk;
pub use failures::Failures;
pub use memory::MemoryDisk;
pub use memory_rack::MemoryRack;
pub use rack::{Rack, RackFault};
pub use repeated::RepeatDisk;
pub use wreck::Wreck;
