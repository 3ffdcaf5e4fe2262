//! A host in memory that tells nothing, so that calls of any kind may be made of it.
ghost use Rattle.std.specs.Prelude.{◌≡◌, [], false, Ok, IfOk};
ghost use Rattle.nova_outside.specs.Causes.{HasCause};

use nova_mem::MemHost;
use nova_outside::{Failed, Host};
use std::alloc::{AllocError, Global};

/// A host in memory. A read of an absent file fails, as does a write to one or past the end.
#[derive(Drop)]
pub struct Quiet {
    host: MemHost,
    disk_faults: u64,
    reply_faults: u64,
    read_count: u64,
}

impl Quiet {
    /// A host without files.
    pub fn new(alloc: Global) -> Quiet {
        Quiet {
            host: MemHost::new(alloc),
            disk_faults: 0,
            reply_faults: 0,
            read_count: 0,
        }
    }

    /// The host in memory.
    pub fn host(&self) -> &MemHost {
        &self.host
    }

    /// The call with this number, from 0, fails.
    pub fn fail_at(&mut self, call: u64) -> Result<(), AllocError> {
        self.host.fail_at(call)
    }

    /// Puts a byte of a file in the place of another, and answers whether there is one.
    pub fn edit(&mut self, file: u64, at: usize, byte: u8) -> bool {
        let is_there = self.host.file(file).is_some_and(|bytes| at < bytes.len());
        if is_there {
            self.host.edit(file, at, byte);
        }
        is_there
    }

    /// Cuts a file to a length, and answers whether it was longer.
    pub fn cut(&mut self, file: u64, length: usize) -> bool {
        let is_longer = self
            .host
            .file(file)
            .is_some_and(|bytes| length < bytes.len());
        if is_longer {
            self.host.cut(file, length);
        }
        is_longer
    }

    // Raises the count where a call on a file failed.
    fn counted<T>(&mut self, answer: Result<T, Failed>) -> Result<T, Failed>
        ensures ok { IfOk result (λ x. answer ≡ Ok x) }
        ensures cause { HasCause self.old.disk_faults self.new.disk_faults result }
        ensures reply_faults { self.new.reply_faults ≡ self.old.reply_faults }
        ensures bytes_read { self.new.read_count ≡ self.old.read_count }
    {
        if answer.is_err() {
            self.disk_faults = self.disk_faults.saturating_add(1);
        }
        answer
    }
}

impl Host for Quiet {
    ghost is_honest = { false };

    ghost history = { λ _. [] };

    ghost disk_faults = { λ h. h.disk_faults };

    ghost reply_faults = { λ h. h.reply_faults };

    ghost bytes_read = { λ h. h.read_count };

    ghost valid = { λ _. tt };

    fn size(&mut self, file: u64) -> Result<Option<u64>, Failed> {
        let answer = self.host.size(file);
        self.counted(answer)
    }

    fn read(&mut self, file: u64, at: u64, into: &mut [u8]) -> Result<usize, Failed> {
        let answer = if self.host.file(file).is_some() {
            self.host.read(file, at, into)
        } else {
            Err(Failed)
        };
        let count = self.counted(answer)?;
        self.read_count = self.read_count.saturating_add(count as u64);
        Ok(count)
    }

    fn create(&mut self, file: u64) -> Result<(), Failed> {
        let answer = self.host.create(file);
        self.counted(answer)
    }

    fn write(&mut self, file: u64, at: u64, bytes: &[u8]) -> Result<(), Failed> {
        let reaches = self
            .host
            .file(file)
            .is_some_and(|bytes| at <= bytes.len() as u64);
        let answer = if reaches {
            self.host.write(file, at, bytes)
        } else {
            Err(Failed)
        };
        self.counted(answer)
    }

    fn sync(&mut self, file: u64) -> Result<(), Failed> {
        let answer = self.host.sync(file);
        self.counted(answer)
    }

    fn remove(&mut self, file: u64) -> Result<(), Failed> {
        let answer = self.host.remove(file);
        self.counted(answer)
    }

    fn next_file(&mut self, after: Option<u64>) -> Result<Option<u64>, Failed> {
        let answer = self.host.next_file(after);
        self.counted(answer)
    }

    fn reply(&mut self, bytes: &[u8]) -> Result<(), Failed> {
        let answer = self.host.reply(bytes);
        if answer.is_err() {
            self.reply_faults = self.reply_faults.saturating_add(1);
        }
        answer
    }
}
