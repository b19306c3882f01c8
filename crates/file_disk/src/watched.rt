ghost use Rattle.std.specs.Prelude.{◌≡◌, false};
ghost use Rattle.file_disk.specs.Files.{file_view, nothing_told};

use crate::FileDisk;
use crate::watch::Watch;
use std::alloc::AllocError;
use std::fs::File;
use std::time::Clock;
use web_disk::Disk;
use web_outside::Failed;

/// A disk that is a file. How long it takes to open or audit it, and to write it anew, is told on the standard error.
#[derive(Drop)]
pub struct WatchedFile<'r, R> {
    disk: FileDisk<File>,
    watch: Watch<'r, R>,
}

impl<'r, R> WatchedFile<'r, R> {
    /// This disk, and what tells of it.
    pub fn new(disk: FileDisk<File>, watch: Watch<'r, R>) -> WatchedFile<'r, R>
        ensures { result.disk ≡ disk }
    {
        WatchedFile { disk, watch }
    }
}

impl<R: Clock + Eprint> Disk for WatchedFile<'_, R> {
    ghost tells = { false };

    ghost view = { λ file. file_view file.disk };

    fn faults(&self) -> u64 {
        self.disk.faults()
    }

    fn len(&mut self) -> Result<u64, Failed> {
        let len = self.disk.len()?;
        self.watch.measured(len);
        Ok(len)
    }

    fn read(&mut self, place: u64, buf: &mut [u8]) -> Result<(), Failed> {
        self.disk.read(place, buf)?;
        self.watch.saw(place, buf);
        Ok(())
    }

    fn write_at(&mut self, place: u64, piece: &[u8]) -> Result<(), Failed> {
        self.watch.wrote(place, piece.len());
        self.disk.write_at(place, piece)
    }

    fn cut(&mut self, len: u64) -> Result<(), Failed> {
        self.watch.was_cut(len);
        self.disk.cut(len)
    }

    fn sync(&mut self) -> Result<(), Failed> {
        self.disk.sync()?;
        self.watch.synced();
        Ok(())
    }

    fn room(&mut self, end: u64) -> Result<(), AllocError> {
        self.disk.room(end)
    }

    ghost counts_now = { λ file t image le now. now };

    ghost only_now = { λ file image left. left };

    ghost reads_image = { λ file told. nothing_told told };
}
