//! A host in memory.
ghost use Rattle.std.specs.Prelude.{◌≡◌, ◌↔◌, IsTrue, ◌⊎◌, ◌+◌, ◌-◌, ◌^◌, ◌<◌, ◌≤◌, ◌∷◌, ◌++◌, [], ℕ, true, min, length, slice_set, take, Option, Some, None, option_map, IfOk, IfSome, IsSome, MatchResult, OnOk, OnErr};
ghost use Rattle.nova_outside.specs.Causes.{HasCause, Rose};
ghost use Rattle.nova_outside.specs.Disk.{IsAfter, IsNext, LeavesSameBut, Only, Reaches, SameBut, overlaid, piece};
ghost use Rattle.nova_outside.specs.History.{ChangesInPart, Outcome, RepliesInPart, current, replies};
ghost use Rattle.nova_outside.specs.History.Change.{Created, Removed, Synced, SyncFailed, Written};
ghost use Rattle.nova_outside.specs.History.Event.{OnFile, Replied};
ghost use Rattle.nova_mem.specs.Deeds.{bytes_in};
ghost use Rattle.nova_mem.specs.Disks.{history_of};
ghost use Rattle.nova_mem.specs.Hosts.{IsTold, TakesTurn};
ghost use Rattle.nova_mem.specs.Valid.{valid_disk};

use crate::counts::{is_among, raise};
use crate::files::{next_of, read_piece, size_of};
use crate::parts::Disk;
use nova_outside::{Failed, Host};
use std::alloc::{AllocError, Global};

/// A host that keeps its files and a record of its calls in memory, tells all of it, and fails where
/// it was told to. A call that finds no memory fails too, and does nothing; `starved` counts those.
#[derive(Drop)]
pub struct MemHost {
    disk: Disk,
    told: Vec<u64>,
    calls: u64,
    disk_faults: u64,
    reply_faults: u64,
    read_count: u64,
    starved: u64,
}

impl MemHost {
    /// A host without files and replies.
    pub fn new(alloc: Global) -> MemHost
        ensures files { (n : ℕ) → current (history_of result.disk) n ≡ None }
        ensures settled { (n : ℕ) → Only None (Outcome (history_of result.disk) n) }
        ensures replies { replies (history_of result.disk) ≡ [] }
        ensures told { result.told.items ≡ [] }
        ensures calls { result.calls ≡ 0 }
        ensures disk_faults { result.disk_faults ≡ 0 }
        ensures reply_faults { result.reply_faults ≡ 0 }
        ensures read_count { result.read_count ≡ 0 }
        ensures starved { result.starved ≡ 0 }
    {
        MemHost {
            disk: Disk::new(alloc),
            told: Vec::new(alloc),
            calls: 0,
            disk_faults: 0,
            reply_faults: 0,
            read_count: 0,
            starved: 0,
        }
    }

    /// The call with this number, from 0 over all calls of `Host`, fails.
    pub fn fail_at(&mut self, call: u64) -> Result<(), AllocError>
        ensures told { OnOk result (self.new.told.items ≡ self.old.told.items ++ call ∷ []) }
        ensures err { OnErr result (self.new.told.items ≡ self.old.told.items) }
        ensures disk { self.new.disk ≡ self.old.disk }
        ensures rest { self.new ≡ record self.old { told = self.new.told } }
    {
        self.told.push(call)?;
        Ok(())
    }

    /// The reply bytes so far.
    pub fn replies(&self) -> &[u8]
        ensures { result.now ≡ replies (history_of self.now.disk) }
    {
        &self.disk.replies
    }

    /// How many calls of `Host` were made.
    pub fn calls(&self) -> u64
        ensures { result ≡ self.now.calls }
    {
        self.calls
    }

    /// How many bytes were read.
    pub fn read_count(&self) -> u64
        ensures { result ≡ self.now.read_count }
    {
        self.read_count
    }

    /// How many calls found no memory.
    pub fn starved(&self) -> u64
        ensures { result ≡ self.now.starved }
    {
        self.starved
    }

    /// The bytes of a file.
    pub fn file(&self, file: u64) -> Option<&[u8]>
        ensures { option_map (λ bytes. bytes.now) result ≡ current (history_of self.now.disk) file }
    {
        match self.disk.files.get(&file) {
            Some(bytes) => Some(bytes),
            None => None,
        }
    }

    /// Puts a byte of a file in the place of another, and settles the file. What is pending of the others stays.
    pub fn edit(&mut self, file: u64, at: usize, byte: u8)
        requires { at < length (bytes_in (current (history_of self.old.disk) file)) }
        ensures edited { current (history_of self.new.disk) file ≡ option_map (λ bytes. slice_set bytes at byte) (current (history_of self.old.disk) file) }
        ensures others { SameBut file (current (history_of self.old.disk)) (current (history_of self.new.disk)) }
        ensures settled { Only (current (history_of self.new.disk) file) (Outcome (history_of self.new.disk) file) }
        ensures pending { LeavesSameBut file (Outcome (history_of self.old.disk)) (Outcome (history_of self.new.disk)) }
        ensures replies { replies (history_of self.new.disk) ≡ replies (history_of self.old.disk) }
        ensures rest { self.new ≡ record self.old { disk = self.new.disk } }
    {
        self.disk.edit(file, at, byte);
    }

    /// Cuts a file to a length, and settles the file. What is pending of the others stays.
    pub fn cut(&mut self, file: u64, length: usize)
        requires { Reaches length (current (history_of self.old.disk) file) }
        ensures shortened { current (history_of self.new.disk) file ≡ option_map (take length) (current (history_of self.old.disk) file) }
        ensures others { SameBut file (current (history_of self.old.disk)) (current (history_of self.new.disk)) }
        ensures settled { Only (current (history_of self.new.disk) file) (Outcome (history_of self.new.disk) file) }
        ensures pending { LeavesSameBut file (Outcome (history_of self.old.disk)) (Outcome (history_of self.new.disk)) }
        ensures replies { replies (history_of self.new.disk) ≡ replies (history_of self.old.disk) }
        ensures rest { self.new ≡ record self.old { disk = self.new.disk } }
    {
        self.disk.cut(file, length);
    }

    // Counts a call, and answers whether it was told to fail.
    fn is_told(&mut self) -> bool
        ensures told { IsTrue result ↔ IsTold self.old }
        ensures calls { self.new.calls ≡ min (self.old.calls + 1) (2 ^ 64 - 1) }
        ensures rest { self.new ≡ record self.old { calls = self.new.calls } }
    {
        let call = self.calls;
        self.calls = call.saturating_add(1);
        is_among(call, &self.told)
    }
}

impl Host for MemHost {
    ghost is_honest = { true };

    ghost history = { λ h. history_of h.disk };

    ghost disk_faults = { λ h. h.disk_faults };

    ghost reply_faults = { λ h. h.reply_faults };

    ghost bytes_read = { λ h. h.read_count };

    ghost valid = { λ h. valid_disk h.disk };

    fn size(&mut self, file: u64) -> Result<Option<u64>, Failed>
        ensures answer { IfOk result (λ n. n ≡ option_map length (current (history_of self.old.disk) file)) }
        ensures same { history_of self.new.disk ≡ history_of self.old.disk }
        ensures cause { HasCause self.old.disk_faults self.new.disk_faults result }
        ensures reply_faults { self.new.reply_faults ≡ self.old.reply_faults }
        ensures bytes_read { self.new.read_count ≡ self.old.read_count }
        ensures turn { TakesTurn self.old self.new result }
    {
        if self.is_told() {
            raise(&mut self.disk_faults);
            return Err(Failed);
        }
        Ok(size_of(&self.disk.files, file))
    }

    fn read(&mut self, file: u64, at: u64, into: &mut [u8]) -> Result<usize, Failed>
        requires { IsSome (current (history_of self.old.disk) file) }
        ensures within { IfOk result (λ n. n ≤ length into.old) }
        ensures answer { IfOk result (λ n. take n into.new ≡ piece at (length into.old) (current (history_of self.old.disk) file)) }
        ensures same { history_of self.new.disk ≡ history_of self.old.disk }
        ensures cause { HasCause self.old.disk_faults self.new.disk_faults result }
        ensures reply_faults { self.new.reply_faults ≡ self.old.reply_faults }
        ensures bytes_read { MatchResult result (λ n. self.new.read_count ≡ min (self.old.read_count + n) (2 ^ 64 - 1)) (λ _. self.new.read_count ≡ self.old.read_count) }
        ensures turn { TakesTurn self.old self.new result }
    {
        if self.is_told() {
            raise(&mut self.disk_faults);
            return Err(Failed);
        }
        let count = read_piece(&self.disk.files, file, at, into);
        self.read_count = self.read_count.saturating_add(count as u64);
        Ok(count)
    }

    fn create(&mut self, file: u64) -> Result<(), Failed>
        ensures ok { OnOk result (history_of self.new.disk ≡ OnFile Created file (Some []) ∷ history_of self.old.disk) }
        ensures err { OnErr result (ChangesInPart Created file (history_of self.old.disk) (history_of self.new.disk)) }
        ensures cause { HasCause self.old.disk_faults self.new.disk_faults result }
        ensures reply_faults { self.new.reply_faults ≡ self.old.reply_faults }
        ensures bytes_read { self.new.read_count ≡ self.old.read_count }
        ensures turn { TakesTurn self.old self.new result }
    {
        if self.is_told() {
            raise(&mut self.disk_faults);
            return Err(Failed);
        }
        if self.disk.create(file).is_err() {
            raise(&mut self.starved);
            raise(&mut self.disk_faults);
            return Err(Failed);
        }
        Ok(())
    }

    fn write(&mut self, file: u64, at: u64, bytes: &[u8]) -> Result<(), Failed>
        requires { Reaches at (current (history_of self.old.disk) file) }
        ensures ok { OnOk result (history_of self.new.disk ≡ OnFile (Written at (length bytes.now)) file (option_map (overlaid at bytes.now) (current (history_of self.old.disk) file)) ∷ history_of self.old.disk) }
        ensures err { OnErr result (ChangesInPart (Written at (length bytes.now)) file (history_of self.old.disk) (history_of self.new.disk)) }
        ensures cause { HasCause self.old.disk_faults self.new.disk_faults result }
        ensures reply_faults { self.new.reply_faults ≡ self.old.reply_faults }
        ensures bytes_read { self.new.read_count ≡ self.old.read_count }
        ensures turn { TakesTurn self.old self.new result }
    {
        if self.is_told() {
            raise(&mut self.disk_faults);
            return Err(Failed);
        }
        if self.disk.write(file, at, bytes).is_err() {
            raise(&mut self.starved);
            raise(&mut self.disk_faults);
            return Err(Failed);
        }
        Ok(())
    }

    fn sync(&mut self, file: u64) -> Result<(), Failed>
        ensures ok { OnOk result (history_of self.new.disk ≡ OnFile Synced file (current (history_of self.old.disk) file) ∷ history_of self.old.disk) }
        ensures err { OnErr result (ChangesInPart SyncFailed file (history_of self.old.disk) (history_of self.new.disk)) }
        ensures cause { HasCause self.old.disk_faults self.new.disk_faults result }
        ensures reply_faults { self.new.reply_faults ≡ self.old.reply_faults }
        ensures bytes_read { self.new.read_count ≡ self.old.read_count }
        ensures turn { TakesTurn self.old self.new result }
    {
        if self.is_told() {
            raise(&mut self.disk_faults);
            return Err(Failed);
        }
        if self.disk.sync(file).is_err() {
            raise(&mut self.starved);
            raise(&mut self.disk_faults);
            return Err(Failed);
        }
        Ok(())
    }

    fn remove(&mut self, file: u64) -> Result<(), Failed>
        ensures ok { OnOk result (history_of self.new.disk ≡ OnFile Removed file None ∷ history_of self.old.disk) }
        ensures err { OnErr result (ChangesInPart Removed file (history_of self.old.disk) (history_of self.new.disk)) }
        ensures cause { HasCause self.old.disk_faults self.new.disk_faults result }
        ensures reply_faults { self.new.reply_faults ≡ self.old.reply_faults }
        ensures bytes_read { self.new.read_count ≡ self.old.read_count }
        ensures turn { TakesTurn self.old self.new result }
    {
        if self.is_told() {
            raise(&mut self.disk_faults);
            return Err(Failed);
        }
        if self.disk.remove(file).is_err() {
            raise(&mut self.starved);
            raise(&mut self.disk_faults);
            return Err(Failed);
        }
        Ok(())
    }

    fn next_file(&mut self, after: Option<u64>) -> Result<Option<u64>, Failed>
        ensures above { IfOk result (λ found. IfSome found (IsAfter after)) }
        ensures answer { IfOk result (IsNext (current (history_of self.old.disk)) after) }
        ensures same { history_of self.new.disk ≡ history_of self.old.disk }
        ensures cause { HasCause self.old.disk_faults self.new.disk_faults result }
        ensures reply_faults { self.new.reply_faults ≡ self.old.reply_faults }
        ensures bytes_read { self.new.read_count ≡ self.old.read_count }
        ensures turn { TakesTurn self.old self.new result }
    {
        if self.is_told() {
            raise(&mut self.disk_faults);
            return Err(Failed);
        }
        Ok(next_of(&self.disk.files, after))
    }

    fn reply(&mut self, bytes: &[u8]) -> Result<(), Failed>
        ensures ok { OnOk result (history_of self.new.disk ≡ Replied bytes.now ∷ history_of self.old.disk) }
        ensures err { OnErr result (RepliesInPart bytes.now (history_of self.old.disk) (history_of self.new.disk)) }
        ensures cause { HasCause self.old.reply_faults self.new.reply_faults result }
        ensures disk_faults { self.new.disk_faults ≡ self.old.disk_faults }
        ensures bytes_read { self.new.read_count ≡ self.old.read_count }
        ensures turn { TakesTurn self.old self.new result }
    {
        if self.is_told() {
            raise(&mut self.reply_faults);
            return Err(Failed);
        }
        if self.disk.reply(bytes).is_err() {
            raise(&mut self.starved);
            raise(&mut self.reply_faults);
            return Err(Failed);
        }
        Ok(())
    }
}
