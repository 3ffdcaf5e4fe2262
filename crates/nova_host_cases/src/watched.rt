//! The system's files, watched.
use std::alloc::{AllocGlobal, Allocator, Global};
use std::cell::Cell;
use std::fmt::Display;
use std::fs::{File, Metadata, OpenOptions};
use std::io;
use std::io::{ErrorKind, Print};
use std::rt::Files;

/// The system's files, but that one path can be neither opened nor removed, and that what is opened
/// is counted.
#[derive(Drop)]
pub struct Watched {
    rt: HostRuntime,
    refused: Cell<&'static str>,
    opened: Cell<u64>,
}

impl Watched {
    /// No path is refused.
    pub fn new(rt: HostRuntime) -> Watched {
        Watched {
            rt,
            refused: Cell::new(""),
            opened: Cell::new(0),
        }
    }

    /// Refuses this path, and no other.
    pub fn refuse(&self, path: &'static str) {
        self.refused.set(path);
    }

    /// How many files and folders were opened since it was last asked.
    pub fn opened(&self) -> u64 {
        let count = self.opened.get();
        self.opened.set(0);
        count
    }

    /// Makes a link to a path.
    pub fn link(&self, to: &str, path: &str) -> io::Result<()> {
        self.rt.symlink(to, path)
    }

    fn admit(&self, path: &str) -> io::Result<()> {
        if path == self.refused.get() {
            return Err(ErrorKind::PermissionDenied.into());
        }
        Ok(())
    }
}

impl Alloc for Watched {
    type A = Global;

    fn alloc(&self) -> Global {
        self.rt.alloc()
    }
}

impl Print for Watched {
    fn print<D: Display + Drop>(&self, value: D) -> io::Result<()> {
        self.rt.print(value)
    }

    fn println<D: Display + Drop>(&self, value: D) -> io::Result<()> {
        self.rt.println(value)
    }

    fn write_all(&self, bytes: &[u8]) -> io::Result<()> {
        self.rt.write_all(bytes)
    }
}

impl Files for Watched {
    type File = File;

    type Dir = <HostRuntime as Files>::Dir;

    fn open_file(&self, how: &OpenOptions, path: &str) -> io::Result<File> {
        self.admit(path)?;
        self.opened.set(self.opened.get().saturating_add(1));
        self.rt.open_file(how, path)
    }

    fn open_dir(&self, path: &str) -> io::Result<Self::Dir> {
        self.rt.open_dir(path)
    }

    fn metadata(&self, path: &str) -> io::Result<Metadata> {
        self.rt.metadata(path)
    }

    fn symlink_metadata(&self, path: &str) -> io::Result<Metadata> {
        self.rt.symlink_metadata(path)
    }

    fn copy(&self, from: &str, to: &str) -> io::Result<u64> {
        self.rt.copy(from, to)
    }

    fn rename(&self, from: &str, to: &str) -> io::Result<()> {
        self.rt.rename(from, to)
    }

    fn remove_file(&self, path: &str) -> io::Result<()> {
        self.admit(path)?;
        self.rt.remove_file(path)
    }

    fn create_dir(&self, path: &str) -> io::Result<()> {
        self.rt.create_dir(path)
    }

    fn remove_dir(&self, path: &str) -> io::Result<()> {
        self.rt.remove_dir(path)
    }

    fn remove_dir_all<B: Allocator>(&self, alloc: B, path: &str) -> io::Result<()> {
        self.rt.remove_dir_all(alloc, path)
    }
}
