//! A folder of numbered files, which one host at a time has.
ghost use Rattle.std.specs.Prelude.{◌≡◌, ◌≤◌, length, IfOk, IfSome};
ghost use Rattle.nova_outside.specs.Disk.{IsAfter};

use crate::files::{
    lock_in, numbers_in, open_file, path_of, read_file, size_of, sync_path, write_whole,
};
use std::alloc::{AllocError, AllocGlobal};
use std::collections::{BTreeMap, BTreeSet};
use std::fs::{File, OpenFile, OpenOptions};
use std::io::{ErrorKind, Seek, SeekFrom};
use std::ops::Bound;
use std::rt::Files;
use std::{fs, io};

/// The files of a folder. The lock is taken at the first call that finds the folder, and kept, so
/// nobody else changes what was read.
#[derive(Drop)]
pub struct Folder<'a, R: Files<File = File> + AllocGlobal> {
    rt: &'a R,
    path: &'a str,
    lock: Option<File>,
    // whether a call was answered since there was no folder
    was_missing: bool,
    // the numbers of the files, from one `next_file` to the next
    listing: Option<BTreeSet<u64>>,
    // the files that were made or written and not synced since
    written: BTreeMap<u64, File>,
    // whether each name that was made or removed in the folder lasts
    is_synced: bool,
    is_parent_synced: bool,
}

impl<'a, R: Files<File = File> + AllocGlobal> Folder<'a, R> {
    /// The folder at a path, which needn't be there yet.
    pub fn new(rt: &'a R, path: &'a str) -> Folder<'a, R>
        ensures { result.path.now ≡ path.now }
    {
        Folder {
            rt,
            path,
            lock: None,
            was_missing: false,
            listing: None,
            written: BTreeMap::new(rt.alloc()),
            is_synced: false,
            is_parent_synced: false,
        }
    }

    fn path_of(&self, file: u64) -> Result<String, AllocError> {
        path_of(self.rt.alloc(), self.path, file)
    }

    // Takes the lock, where the folder is there, and answers whether it is. Files that came after
    // a call had found no folder are another's.
    fn lock(&mut self) -> io::Result<bool> {
        if self.lock.is_some() {
            return Ok(true);
        }
        let Some(lock) = lock_in(self.rt, self.rt.alloc(), self.path)? else {
            self.was_missing = true;
            return Ok(false);
        };
        if self.was_missing && !numbers_in(self.rt, self.rt.alloc(), self.path)?.is_empty() {
            return Err(ErrorKind::ResourceBusy.into());
        }
        self.lock = Some(lock);
        Ok(true)
    }

    // Makes the folder where it is missing, and takes the lock.
    fn make(&mut self) -> io::Result<()> {
        if self.lock()? {
            return Ok(());
        }
        match fs::create_dir(self.rt, self.path) {
            Ok(()) => {}
            Err(error) if error.kind() == ErrorKind::AlreadyExists => {}
            Err(error) => return Err(error),
        }
        if self.lock()? {
            Ok(())
        } else {
            Err(ErrorKind::NotFound.into())
        }
    }

    /// The length of a file in bytes, or None where it is absent.
    pub fn size(&mut self, file: u64) -> io::Result<Option<u64>> {
        if !self.lock()? {
            return Ok(None);
        }
        size_of(self.rt, self.path_of(file)?.as_str())
    }

    /// Reads bytes of a file from an offset on, as many as there are and fit.
    pub fn read(&mut self, file: u64, at: u64, into: &mut [u8]) -> io::Result<usize>
        ensures { IfOk result (λ n. n ≤ length into.old) }
    {
        if !self.lock()? {
            return Err(ErrorKind::NotFound.into());
        }
        let path = self.path_of(file)?;
        read_file(self.rt, &path, at, into)
    }

    /// Makes a file, empty, and the folder where it is missing. What has the name and is no file of
    /// the store is left, and an error.
    pub fn create(&mut self, file: u64) -> io::Result<()> {
        self.make()?;
        self.listing = None;
        let path = self.path_of(file)?;
        let opened = if size_of(self.rt, path.as_str())?.is_some() {
            OpenOptions::new()
                .write(true)
                .truncate(true)
                .open(self.rt, path.as_str())?
        } else {
            self.is_synced = false;
            File::create_new(self.rt, path.as_str())?
        };
        self.written.insert(file, opened)?;
        Ok(())
    }

    /// Writes bytes into a file from an offset on. The file stays open until it is synced, so that
    /// the sync asks the descriptor that wrote.
    pub fn write(&mut self, file: u64, at: u64, bytes: &[u8]) -> io::Result<()> {
        if !self.lock()? {
            return Err(ErrorKind::NotFound.into());
        }
        if !self.written.contains_key(&file) {
            let path = self.path_of(file)?;
            let opened = open_file(self.rt, &path)?;
            self.written.insert(file, opened)?;
        }
        match self.written.get_mut(&file) {
            Some(opened) => {
                opened.seek(SeekFrom::Start(at))?;
                write_whole(opened, bytes)
            }
            None => Err(ErrorKind::NotFound.into()),
        }
    }

    // Syncs the bytes of a file, where it is there.
    fn sync_bytes(&mut self, file: u64) -> io::Result<()> {
        match self.written.get(&file) {
            Some(opened) => opened.sync_all()?,
            None => {
                let path = self.path_of(file)?;
                if size_of(self.rt, path.as_str())?.is_some() {
                    sync_path(self.rt, &path)?;
                }
            }
        }
        let _ = self.written.remove(&file);
        Ok(())
    }

    /// Syncs a file, where it is there, and so that its name or its absence lasts too, the folder:
    /// where a name was made or removed since that was last synced, and the first time. The first
    /// time the folder that it stands in is synced as well. A missing folder is made first.
    pub fn sync(&mut self, file: u64) -> io::Result<()> {
        self.make()?;
        self.sync_bytes(file)?;
        if !self.is_synced {
            sync_path(self.rt, self.path)?;
            self.is_synced = true;
        }
        if !self.is_parent_synced {
            let folder = self.path;
            let parent = format!(in self.rt.alloc(); "{folder}/..")?;
            sync_path(self.rt, &parent)?;
            self.is_parent_synced = true;
        }
        Ok(())
    }

    /// Removes a file; one that is absent may be removed.
    pub fn remove(&mut self, file: u64) -> io::Result<()> {
        if !self.lock()? {
            return Ok(());
        }
        let path = self.path_of(file)?;
        if size_of(self.rt, path.as_str())?.is_none() {
            return Ok(());
        }
        self.is_synced = false;
        let listing = self.listing.take();
        fs::remove_file(self.rt, path.as_str())?;
        let _ = self.written.remove(&file);
        if let Some(mut numbers) = listing {
            let _ = numbers.remove(&file);
            self.listing = Some(numbers);
        }
        Ok(())
    }

    /// The least number of a file above this one, or the least of all. The listing is made anew
    /// where the least of all is asked for or a file was made.
    pub fn next_file(&mut self, after: Option<u64>) -> io::Result<Option<u64>>
        ensures { IfOk result (λ found. IfSome found (IsAfter after)) }
    {
        if !self.lock()? {
            return Ok(None);
        }
        let kept = if after.is_some() {
            self.listing.take()
        } else {
            None
        };
        let numbers = match kept {
            Some(numbers) => numbers,
            None => numbers_in(self.rt, self.rt.alloc(), self.path)?,
        };
        let found = next_of(&numbers, after);
        self.listing = Some(numbers);
        Ok(found)
    }
}

// The least of the numbers above this one.
fn next_of(numbers: &BTreeSet<u64>, after: Option<u64>) -> Option<u64>
    ensures { IfSome result (IsAfter after) }
{
    let start = match after {
        Some(number) => Bound::Excluded(number),
        None => Bound::Unbounded,
    };
    match numbers.range((start, Bound::Unbounded)).next() {
        Some(number) => Some(*number),
        None => None,
    }
}
