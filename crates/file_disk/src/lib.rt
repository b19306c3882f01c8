//! Disks that are files of a folder, and the racks that they are taken from: for the program.
#![tactic(auto)]

mod file;
mod file_rack;
mod lending;
mod memory_file;
mod memory_shelves;
mod open;
mod served;
mod served_rack;
mod watch;
mod watched;

pub use file::FileDisk;
pub use file_rack::FileRack;
pub use memory_file::MemoryFile;
pub use memory_shelves::MOST_MEMORY_DISKS;
pub use open::Refusal;
pub use served::ServedDisk;
pub use served_rack::{MEMORY, ServedRack};
pub use watched::WatchedFile;
