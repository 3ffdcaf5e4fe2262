//! A folder and standard output as a host.
ghost use Rattle.std.specs.Prelude.{◌≡◌, [], false, Ok, IfOk};
ghost use Rattle.nova_outside.specs.Causes.{HasCause};

use crate::files::write_whole;
use crate::folder::Folder;
use crate::raise;
use nova_outside::{Failed, Host};
use std::alloc::AllocGlobal;
use std::fs::File;
use std::io;
use std::io::{Print, Write};
use std::rt::Files;

/// The files of a folder, of which file n is named n in decimal, and standard output for the
/// replies. It tells nothing of contents. It takes the folder's lock at the first call that finds
/// the folder, and keeps it until it is dropped; a call that can't have it fails.
#[derive(Drop)]
pub struct DirHost<'a, R: Files<File = File> + Print + AllocGlobal> {
    rt: &'a R,
    folder: Folder<'a, R>,
    disk_faults: u64,
    reply_faults: u64,
    read_count: u64,
}

impl<'a, R: Files<File = File> + Print + AllocGlobal> DirHost<'a, R> {
    /// A host over this folder, which is made once a file in it is made or synced; the folder that it
    /// stands in has to be there.
    pub fn new(rt: &'a R, folder: &'a str) -> DirHost<'a, R>
        ensures folder { result.folder.path.now ≡ folder.now }
        ensures disk_faults { result.disk_faults ≡ 0 }
        ensures reply_faults { result.reply_faults ≡ 0 }
        ensures bytes_read { result.read_count ≡ 0 }
    {
        DirHost {
            rt,
            folder: Folder::new(rt, folder),
            disk_faults: 0,
            reply_faults: 0,
            read_count: 0,
        }
    }

    // Raises the count where a call on a file failed.
    fn counted<T>(&mut self, answer: io::Result<T>) -> Result<T, Failed>
        ensures ok { IfOk result (λ x. answer ≡ Ok x) }
        ensures cause { HasCause self.old.disk_faults self.new.disk_faults result }
        ensures reply_faults { self.new.reply_faults ≡ self.old.reply_faults }
        ensures bytes_read { self.new.read_count ≡ self.old.read_count }
    {
        match answer {
            Ok(value) => Ok(value),
            Err(_) => {
                raise(&mut self.disk_faults);
                Err(Failed)
            }
        }
    }
}

impl<R: Files<File = File> + Print + AllocGlobal> Host for DirHost<'_, R> {
    ghost is_honest = { false };

    ghost history = { λ _. [] };

    ghost disk_faults = { λ h. h.disk_faults };

    ghost reply_faults = { λ h. h.reply_faults };

    ghost bytes_read = { λ h. h.read_count };

    ghost valid = { λ _. tt };

    fn size(&mut self, file: u64) -> Result<Option<u64>, Failed> {
        let answer = self.folder.size(file);
        self.counted(answer)
    }

    fn read(&mut self, file: u64, at: u64, into: &mut [u8]) -> Result<usize, Failed> {
        let answer = self.folder.read(file, at, into);
        let count = self.counted(answer)?;
        self.read_count = self.read_count.saturating_add(count as u64);
        Ok(count)
    }

    fn create(&mut self, file: u64) -> Result<(), Failed> {
        let answer = self.folder.create(file);
        self.counted(answer)
    }

    fn write(&mut self, file: u64, at: u64, bytes: &[u8]) -> Result<(), Failed> {
        let answer = self.folder.write(file, at, bytes);
        self.counted(answer)
    }

    fn sync(&mut self, file: u64) -> Result<(), Failed> {
        let answer = self.folder.sync(file);
        self.counted(answer)
    }

    fn remove(&mut self, file: u64) -> Result<(), Failed> {
        let answer = self.folder.remove(file);
        self.counted(answer)
    }

    fn next_file(&mut self, after: Option<u64>) -> Result<Option<u64>, Failed> {
        let answer = self.folder.next_file(after);
        self.counted(answer)
    }

    fn reply(&mut self, bytes: &[u8]) -> Result<(), Failed> {
        let mut out = io::writer(self.rt);
        if write_whole(&mut out, bytes).is_err() || out.flush().is_err() {
            raise(&mut self.reply_faults);
            return Err(Failed);
        }
        Ok(())
    }
}
