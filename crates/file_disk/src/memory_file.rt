ghost use Rattle.std.specs.Prelude.{◌≡◌, ◌<◌, ◌-◌, false};
ghost use Rattle.file_disk.specs.Files.{HasRisen, nothing_told};
ghost use Rattle.file_disk.specs.MemoryFiles.{faults_of, memory_file_view};

use std::alloc::AllocError;
use web_disk::{Disk, MemoryDisk};
use web_outside::Failed;

/// A disk in memory that is called as a file is: where its bytes are not asked about, a call at a place that it has not is a fault. It does not tell its bytes.
#[derive(Drop)]
pub struct MemoryFile {
    disk: MemoryDisk,
    // How many calls were refused, up to the type's end.
    refused: u64,
}

impl MemoryFile {
    /// This disk. No call was refused.
    pub fn new(disk: MemoryDisk) -> MemoryFile
        ensures { result ≡ record { disk = disk; refused = 0 } }
    {
        MemoryFile { disk, refused: 0 }
    }

    /// The disk.
    pub fn into_disk(self) -> MemoryDisk
        ensures { result ≡ self.disk }
    {
        let MemoryFile { disk, refused: _ } = self;
        disk
    }

    // Counts a call that is refused.
    fn refuse(&mut self) -> Failed
        ensures disk { self.new.disk ≡ self.old.disk }
        ensures risen { HasRisen (faults_of self.old) (faults_of self.new) }
    {
        self.refused = self.refused.saturating_add(1);
        Failed
    }
}

impl Disk for MemoryFile {
    ghost tells = { false };

    ghost view = { λ file. memory_file_view file };

    fn faults(&self) -> u64 {
        self.disk.faults().saturating_add(self.refused)
    }

    fn len(&mut self) -> Result<u64, Failed> {
        self.disk.len()
    }

    fn read(&mut self, place: u64, buf: &mut [u8]) -> Result<(), Failed> {
        let end = self.disk.bytes().len() as u64;
        if place > end || buf.len() as u64 > end - place {
            return Err(self.refuse());
        }
        self.disk.read(place, buf)
    }

    fn write_at(&mut self, place: u64, piece: &[u8]) -> Result<(), Failed> {
        if place > self.disk.bytes().len() as u64 {
            return Err(self.refuse());
        }
        self.disk.write_at(place, piece)
    }

    fn cut(&mut self, len: u64) -> Result<(), Failed> {
        if len > self.disk.bytes().len() as u64 {
            return Err(self.refuse());
        }
        self.disk.cut(len)
    }

    fn sync(&mut self) -> Result<(), Failed> {
        self.disk.sync()
    }

    fn room(&mut self, end: u64) -> Result<(), AllocError> {
        self.disk.room(end)
    }

    ghost counts_now = { λ file t image le now. now };

    ghost only_now = { λ file image left. left };

    ghost reads_image = { λ file told. nothing_told told };
}
