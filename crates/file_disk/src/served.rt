ghost use Rattle.std.specs.Prelude.{false};
ghost use Rattle.file_disk.specs.Files.{nothing_told};
ghost use Rattle.file_disk.specs.Served.{served_view, no_image, no_moment};

use crate::MemoryFile;
use crate::watched::WatchedFile;
use std::alloc::AllocError;
use std::time::Clock;
use web_disk::Disk;
use web_outside::Failed;

/// A disk that a program is given: in memory, or a file. It does not tell its bytes.
#[derive(Drop)]
pub enum ServedDisk<'r, R> {
    /// A disk in memory, of the directory named `-`.
    Memory(MemoryFile),
    /// A file of a folder.
    File(WatchedFile<'r, R>),
}

impl<R: Clock + Eprint> Disk for ServedDisk<'_, R> {
    ghost tells = { false };

    ghost view = { λ disk. served_view disk };

    fn faults(&self) -> u64 {
        match self {
            ServedDisk::Memory(disk) => disk.faults(),
            ServedDisk::File(disk) => disk.faults(),
        }
    }

    fn len(&mut self) -> Result<u64, Failed> {
        match self {
            ServedDisk::Memory(disk) => disk.len(),
            ServedDisk::File(disk) => disk.len(),
        }
    }

    fn read(&mut self, place: u64, buf: &mut [u8]) -> Result<(), Failed> {
        match self {
            ServedDisk::Memory(disk) => disk.read(place, buf),
            ServedDisk::File(disk) => disk.read(place, buf),
        }
    }

    fn write_at(&mut self, place: u64, piece: &[u8]) -> Result<(), Failed> {
        match self {
            ServedDisk::Memory(disk) => disk.write_at(place, piece),
            ServedDisk::File(disk) => disk.write_at(place, piece),
        }
    }

    fn cut(&mut self, len: u64) -> Result<(), Failed> {
        match self {
            ServedDisk::Memory(disk) => disk.cut(len),
            ServedDisk::File(disk) => disk.cut(len),
        }
    }

    fn sync(&mut self) -> Result<(), Failed> {
        match self {
            ServedDisk::Memory(disk) => disk.sync(),
            ServedDisk::File(disk) => disk.sync(),
        }
    }

    fn room(&mut self, end: u64) -> Result<(), AllocError> {
        match self {
            ServedDisk::Memory(disk) => disk.room(end),
            ServedDisk::File(disk) => disk.room(end),
        }
    }

    ghost counts_now = { λ disk t image le now. absurd (no_image disk image now) };

    ghost only_now = { λ disk image left. absurd (no_moment disk _ image left) };

    ghost reads_image = { λ disk told. absurd (nothing_told told) };
}
