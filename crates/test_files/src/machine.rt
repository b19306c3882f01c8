//! The machine of a test.
use std::alloc::Allocator;
use std::cell::Cell;
use std::fmt::Display;
use std::fs::{File, Files, Metadata, OpenOptions};
use std::io;
use std::time::{Clock, Duration};

/// The machine's files, but for one folder, in whose place another file is opened. What is told on its standard error is kept,
/// and its clock goes on by so many seconds each time that it is looked at.
#[derive(Drop)]
pub struct Machine<'r> {
    rt: &'r HostRuntime,
    folder: &'static str,
    instead: &'static str,
    told: Cell<String>,
    time: Cell<u64>,
    step: u64,
}

impl<'r> Machine<'r> {
    /// The machine's files, with a clock that goes on by so many seconds.
    pub fn with_clock(rt: &'r HostRuntime, step: u64) -> Machine<'r> {
        Machine {
            rt,
            folder: "",
            instead: "",
            told: Cell::new(String::new(rt.alloc())),
            time: Cell::new(0),
            step,
        }
    }

    /// Those, where in the place of a folder another file is opened.
    pub fn with_other_folder(
        rt: &'r HostRuntime,
        folder: &'static str,
        instead: &'static str,
    ) -> Machine<'r> {
        let machine = Machine::with_clock(rt, 0);
        Machine {
            folder,
            instead,
            ..machine
        }
    }

    /// What was told since it was asked last.
    pub fn told(&self) -> String {
        self.told.replace(String::new(self.rt.alloc()))
    }
}

impl Files for Machine<'_> {
    type File = File;

    type Dir = <HostRuntime as Files>::Dir;

    fn open_file(&self, how: &OpenOptions, path: &str) -> io::Result<File> {
        let path = if path == self.folder {
            self.instead
        } else {
            path
        };
        self.rt.open_file(how, path)
    }

    fn open_dir(&self, path: &str) -> io::Result<<HostRuntime as Files>::Dir> {
        self.rt.open_dir(path)
    }

    fn metadata(&self, path: &str) -> io::Result<Metadata> {
        self.rt.metadata(path)
    }

    fn symlink_metadata(&self, path: &str) -> io::Result<Metadata> {
        self.rt.symlink_metadata(path)
    }

    fn copy(&self, from: &str, to: &str) -> io::Result<u64> {
        self.rt.copy(from, to)
    }

    fn rename(&self, from: &str, to: &str) -> io::Result<()> {
        self.rt.rename(from, to)
    }

    fn remove_file(&self, path: &str) -> io::Result<()> {
        self.rt.remove_file(path)
    }

    fn create_dir(&self, path: &str) -> io::Result<()> {
        self.rt.create_dir(path)
    }

    fn create_dir_with_mode(&self, path: &str, mode: u32) -> io::Result<()> {
        self.rt.create_dir_with_mode(path, mode)
    }

    fn remove_dir(&self, path: &str) -> io::Result<()> {
        self.rt.remove_dir(path)
    }

    fn remove_dir_all<B: Allocator>(&self, alloc: B, path: &str) -> io::Result<()> {
        self.rt.remove_dir_all(alloc, path)
    }
}

impl Eprint for Machine<'_> {
    fn eprint<D: Display + Drop>(&self, value: D) -> io::Result<()> {
        let more = format!(in self.rt.alloc(); "{value}")?;
        let mut told = self.told();
        told.push_str(&more)?;
        self.told.set(told);
        Ok(())
    }

    fn eprintln<D: Display + Drop>(&self, value: D) -> io::Result<()> {
        self.eprint(value)?;
        self.eprint("\n")
    }
}

impl Clock for Machine<'_> {
    fn monotonic(&self) -> io::Result<Duration> {
        let time = self.time.get().saturating_add(self.step);
        self.time.set(time);
        Ok(Duration::from_secs(time))
    }

    fn since_1970(&self) -> io::Result<Duration> {
        self.monotonic()
    }
}
