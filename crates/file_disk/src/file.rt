ghost use Rattle.std.specs.Prelude.{◌≡◌, ◌≤◌, ◌+◌, ◌-◌, ◌^◌, false, true, length, min, OnOk, OnErr};
ghost use Rattle.web_disk.specs.View.{Elapses, IsCall};
ghost use Rattle.web_disk.specs.Repeated.{faults_after};
ghost use Rattle.file_disk.specs.Files.{file_view, Counts, HasRisen, lost_after, nothing_told};

use std::alloc::AllocError;
use std::fs::OpenFile;
use std::os::unix::fs::FileExt;
use web_disk::Disk;
use web_outside::Failed;

/// An open file as a disk. It does not tell its bytes.
#[derive(Drop)]
pub struct FileDisk<F> {
    file: F,
    // How often a call failed, up to the type's end.
    faults: u64,
    // Since a cut no sync has succeeded, so the next one writes all that the system knows of the file.
    was_cut: bool,
    // A sync failed. The system may have dropped what was to be written, and tells that once.
    lost: bool,
}

impl<F> FileDisk<F> {
    /// The disk of a file that is open for reading and writing.
    pub fn new(file: F) -> FileDisk<F>
        ensures { result ≡ record { file = file; faults = 0; was_cut = false; lost = false } }
    {
        FileDisk {
            file,
            faults: 0,
            was_cut: false,
            lost: false,
        }
    }

    // Counts a fault.
    fn fail(&mut self) -> Failed
        ensures count { self.new ≡ record self.old { faults = min (self.old.faults + 1) (2 ^ 64 - 1) } }
        ensures risen { HasRisen self.old.faults self.new.faults }
    {
        self.faults = self.faults.saturating_add(1);
        Failed
    }
}

#[tactic(auto, using(crate::proofs::Calls::failed_call, crate::proofs::Calls::untold_time))]
impl<F: FileExt + OpenFile> Disk for FileDisk<F> {
    ghost tells = { false };

    ghost view = { λ disk. file_view disk };

    fn faults(&self) -> u64 {
        self.faults
    }

    fn len(&mut self) -> Result<u64, Failed>
        ensures call { IsCall 0 (file_view self.old) (file_view self.new) result }
        ensures counts { Counts self.old self.new result }
    {
        match self.file.metadata() {
            Ok(metadata) => Ok(metadata.len()),
            Err(_) => Err(self.fail()),
        }
    }

    // A read that is short is a fault.
    fn read(&mut self, place: u64, buf: &mut [u8]) -> Result<(), Failed>
        ensures call { IsCall 0 (file_view self.old) (file_view self.new) result }
        ensures counts { Counts self.old self.new result }
    {
        match self.file.read_exact_at(buf, place) {
            Ok(()) => Ok(()),
            Err(_) => Err(self.fail()),
        }
    }

    fn write_at(&mut self, place: u64, piece: &[u8]) -> Result<(), Failed>
        ensures call { IsCall (length piece.now) (file_view self.old) (file_view self.new) result }
        ensures counts { Counts self.old self.new result }
    {
        match self.file.write_all_at(piece, place) {
            Ok(()) => Ok(()),
            Err(_) => Err(self.fail()),
        }
    }

    fn cut(&mut self, len: u64) -> Result<(), Failed>
        ensures call { IsCall 0 (file_view self.old) (file_view self.new) result }
        ensures counts { Counts (record self.old { was_cut = true }) self.new result }
    {
        self.was_cut = true;
        match self.file.set_len(len) {
            Ok(()) => Ok(()),
            Err(_) => Err(self.fail()),
        }
    }

    // Once one has failed, none succeeds.
    fn sync(&mut self) -> Result<(), Failed>
        ensures call { IsCall 0 (file_view self.old) (file_view self.new) result }
        ensures faults { self.new.faults ≡ faults_after result self.old.faults }
        ensures lost { self.new.lost ≡ lost_after result self.old.lost }
        ensures never { self.old.lost ≡ true → OnOk result ⊥ }
        ensures whole { OnOk result (self.new.was_cut ≡ false) }
        ensures cut { OnErr result (self.new.was_cut ≡ self.old.was_cut) }
        ensures file { self.new.file ≡ self.old.file }
    {
        if self.lost {
            return Err(self.fail());
        }
        let outcome = if self.was_cut {
            self.file.sync_all()
        } else {
            self.file.sync_data()
        };
        match outcome {
            Ok(()) => {
                self.was_cut = false;
                Ok(())
            }
            Err(_) => {
                self.lost = true;
                Err(self.fail())
            }
        }
    }

    // There always is room.
    fn room(&mut self, end: u64) -> Result<(), AllocError>
        ensures end { end ≤ 2 ^ 64 - 1 }
        ensures time { Elapses (file_view self.old) (file_view self.new) }
        ensures same { self.new ≡ self.old }
        ensures ok { OnErr result ⊥ }
    {
        let _ = end;
        Ok(())
    }

    ghost counts_now = { λ disk t image le now. now };

    ghost only_now = { λ disk image left. left };

    ghost reads_image = { λ disk told. nothing_told told };
}
