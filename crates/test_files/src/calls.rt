use file_disk::FileDisk;
use std::cell::Cell;
use std::fs::{Metadata, OpenFile};
use std::io::{self, ErrorKind};
use std::os::unix::fs::FileExt;
use std::test::Fail;
use web_disk::Disk;
use web_outside::Failed;

// What a file of a test is to do, and what was done to it.
#[derive(Drop)]
struct Log {
    fails: Cell<bool>,
    reads_and_writes: Cell<u64>,
    whole_syncs: Cell<u64>,
    data_syncs: Cell<u64>,
}

impl Log {
    fn new() -> Log {
        Log {
            fails: Cell::new(false),
            reads_and_writes: Cell::new(0),
            whole_syncs: Cell::new(0),
            data_syncs: Cell::new(0),
        }
    }

    fn outcome(&self) -> io::Result<()> {
        if self.fails.get() {
            return Err(io::Error::from(ErrorKind::StorageFull));
        }
        Ok(())
    }

    // Every other read or write is interrupted.
    fn step(&self) -> io::Result<()> {
        let count = self.reads_and_writes.get();
        self.reads_and_writes.set(count.saturating_add(1));
        if count % 2 == 0 {
            return Err(io::Error::from(ErrorKind::Interrupted));
        }
        self.outcome()
    }
}

// A file whose bytes are their places, read and written one at a time.
#[derive(Drop)]
struct Slow<'a> {
    log: &'a Log,
}

impl FileExt for Slow<'_> {
    fn read_at(&self, buf: &mut [u8], offset: u64) -> io::Result<usize> {
        self.log.step()?;
        match buf.first_mut() {
            Some(first) => {
                *first = (offset % 256) as u8;
                Ok(1)
            }
            None => Ok(0),
        }
    }

    fn write_at(&self, buf: &[u8], _offset: u64) -> io::Result<usize> {
        self.log.step()?;
        Ok(buf.len().min(1))
    }
}

impl OpenFile for Slow<'_> {
    fn metadata(&self) -> io::Result<Metadata> {
        self.log.outcome()?;
        Ok(Metadata::of_file(70))
    }

    fn set_len(&self, _size: u64) -> io::Result<()> {
        self.log.outcome()
    }

    fn sync_all(&self) -> io::Result<()> {
        let count = self.log.whole_syncs.get();
        self.log.whole_syncs.set(count.saturating_add(1));
        self.log.outcome()
    }

    fn sync_data(&self) -> io::Result<()> {
        let count = self.log.data_syncs.get();
        self.log.data_syncs.set(count.saturating_add(1));
        self.log.outcome()
    }
}

#[test]
fn interrupted_calls_are_tried_again(rt: HostRuntime) -> Result<(), Fail> {
    let log = Log::new();
    let mut disk = FileDisk::new(Slow { log: &log });
    let mut three = [0u8; 3];
    disk.read(65, &mut three)?;
    assert_eq!(rt; three.as_slice(), b"ABC".as_slice());
    disk.room(9)?;
    disk.write_at(0, b"abcd")?;
    assert_eq!(rt; log.reads_and_writes.get(), 14);
    assert_eq!(rt; disk.len(), Ok(70));
    assert_eq!(rt; disk.faults(), 0);
    Ok(())
}

#[test]
fn each_failing_call_is_counted(rt: HostRuntime) -> Result<(), Fail> {
    let log = Log::new();
    let mut disk = FileDisk::new(Slow { log: &log });
    log.fails.set(true);
    disk.room(9)?;
    assert_eq!(rt; disk.len(), Err(Failed));
    assert_eq!(rt; disk.read(0, &mut [0u8; 2]), Err(Failed));
    assert_eq!(rt; disk.write_at(0, b"ab"), Err(Failed));
    assert_eq!(rt; disk.cut(1), Err(Failed));
    assert_eq!(rt; disk.faults(), 4);
    log.fails.set(false);
    assert_eq!(rt; disk.sync(), Ok(()));
    log.fails.set(true);
    assert_eq!(rt; disk.sync(), Err(Failed));
    log.fails.set(false);
    assert_eq!(rt; disk.sync(), Err(Failed), "behind one that failed");
    assert_eq!(rt; disk.faults(), 6);
    Ok(())
}

#[test]
fn a_sync_behind_a_cut_writes_all_of_the_file(rt: HostRuntime) -> Result<(), Fail> {
    let log = Log::new();
    let mut disk = FileDisk::new(Slow { log: &log });
    disk.room(9)?;
    disk.write_at(0, b"abcd")?;
    disk.sync()?;
    assert_eq!(rt; (log.data_syncs.get(), log.whole_syncs.get()), (1, 0));
    disk.cut(2)?;
    disk.sync()?;
    disk.sync()?;
    assert_eq!(rt; (log.data_syncs.get(), log.whole_syncs.get()), (2, 1));
    Ok(())
}
