// Opening the file of a disk.
use std::alloc::AllocError;
use std::fs::{self, DirBuilder, File, Files, TryLockError};
use std::io::{self, ErrorKind};
use std::os::unix::fs::{DirBuilderExt, MetadataExt, OpenOptionsExt};
use std::path::Path;
use thiserror::Error;

// A file that is made may be read and written by its owner, and by nobody else.
const OWNER_ALONE: u32 = 0o600;

// A folder that is made may be looked into by its owner, and by nobody else.
const OWNERS_FOLDER: u32 = 0o700;

// What others than its owner may do with a file.
const OTHERS: u32 = 0o077;

/// Why a file does not serve as a disk.
#[derive(Debug, Drop, Error)]
pub enum Refusal {
    /// Another process has it open, or this one has.
    #[error("another process has it open")]
    Busy,
    /// It is a device, or something else that is no file.
    #[error("it is no file")]
    NoFile,
    /// The system refused a call.
    #[error("{0}")]
    System(io::Error),
    /// Memory ran out.
    #[error("memory ran out")]
    Memory,
}

impl From<io::Error> for Refusal {
    fn from(fault: io::Error) -> Refusal {
        match fault.kind() {
            ErrorKind::OutOfMemory => Refusal::Memory,
            _ => Refusal::System(fault),
        }
    }
}

impl From<AllocError> for Refusal {
    fn from(_: AllocError) -> Refusal {
        Refusal::Memory
    }
}

impl From<TryLockError> for Refusal {
    fn from(fault: TryLockError) -> Refusal {
        match fault {
            TryLockError::WouldBlock => Refusal::Busy,
            TryLockError::Error(fault) => Refusal::from(fault),
        }
    }
}

/// A file that was opened.
#[derive(Drop)]
pub struct Opened {
    /// The file.
    pub file: File,
    /// Whether others than its owner may read or write it.
    pub shared: bool,
}

// Puts the entries of a folder on the device, where its file system has such a call.
fn sync_folder<R: Files<File = File>>(rt: &R, folder: Path<'_>) -> io::Result<()> {
    let named = if folder.as_str().is_empty() {
        Path::new(".")
    } else {
        folder
    };
    match File::open(rt, named)?.sync_all() {
        Err(fault) if fault.kind() == ErrorKind::InvalidInput => Ok(()),
        outcome => outcome,
    }
}

// How many of a folder and those that it lies in are not there.
fn count_missing<R: Files>(rt: &R, folder: Path<'_>) -> io::Result<usize> {
    let mut count = 0usize;
    for place in folder.ancestors() {
        if place.as_str().is_empty() || fs::exists(rt, place)? {
            break;
        }
        count = count.saturating_add(1);
    }
    Ok(count)
}

// Makes a folder and those that it lies in, where they are not there.
fn make_folder<R: Files>(rt: &R, folder: Path<'_>) -> io::Result<()> {
    let mut builder = DirBuilder::new();
    builder.recursive(true).mode(OWNERS_FOLDER);
    builder.create(rt, folder)
}

/// Opens the file at a path in a folder, for reading and writing, and keeps others from it. The folder, those that it lies in and the file are made where they are not there, for their owner alone; a file that is there keeps its bytes. The entries of what was made are on the device.
pub fn open_alone<R: Files<File = File>>(
    rt: &R,
    folder: &str,
    path: &str,
) -> Result<Opened, Refusal> {
    let folder = Path::new(folder);
    let missing = count_missing(rt, folder)?;
    make_folder(rt, folder)?;
    let file = File::options()
        .read(true)
        .write(true)
        .create(true)
        .mode(OWNER_ALONE)
        .open(rt, path)?;
    let metadata = file.metadata()?;
    if !metadata.is_file() {
        return Err(Refusal::NoFile);
    }
    // The lock is held as long as the file is open.
    file.try_lock()?;
    for place in folder.ancestors().take(missing.saturating_add(1)) {
        sync_folder(rt, place)?;
    }
    let shared = metadata.mode() & OTHERS != 0;
    Ok(Opened { file, shared })
}
