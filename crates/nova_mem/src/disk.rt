// Calls on a disk in memory, and changes of its files from outside.
ghost use Rattle.std.specs.Prelude.{◌≡◌, ◌<◌, ◌≤◌, ◌∷◌, [], ℕ, length, slice_set, take, OnOk, OnErr, Some, None, IsSome, option_map};
ghost use Rattle.nova_outside.specs.Disk.{LeavesSameBut, Only, Reaches, SameBut, overlaid};
ghost use Rattle.nova_outside.specs.History.{Outcome, current, replies};
ghost use Rattle.nova_outside.specs.History.Change.{Created, Removed, Synced, Written};
ghost use Rattle.nova_outside.specs.History.Event.{OnFile, Replied};
ghost use Rattle.nova_mem.specs.Deeds.{bytes_in};
ghost use Rattle.nova_mem.specs.Disks.{history_of};

use crate::files::{create_file, cut_file, edit_file, forget, remove_file, sync_file, write_file};
use crate::parts::{Deed, Disk};
use std::alloc::{AllocError, Global};
use std::collections::BTreeMap;

impl Disk {
    /// A disk without files.
    pub fn new(alloc: Global) -> Disk
        ensures files { (n : ℕ) → current (history_of result) n ≡ None }
        ensures settled { (n : ℕ) → Only None (Outcome (history_of result) n) }
        ensures replies { replies (history_of result) ≡ [] }
    {
        Disk {
            alloc,
            files: BTreeMap::new(alloc),
            replies: Vec::new(alloc),
            deeds: Vec::new(alloc),
        }
    }

    /// Makes a file, empty.
    pub fn create(&mut self, file: u64) -> Result<(), AllocError>
        ensures ok { OnOk result (history_of self.new ≡ OnFile Created file (Some []) ∷ history_of self.old) }
        ensures err { OnErr result (history_of self.new ≡ history_of self.old) }
    {
        create_file(self.alloc, &mut self.files, &mut self.deeds, file)
    }

    /// Writes bytes into a file that is there and reaches as far as the offset.
    pub fn write(&mut self, file: u64, at: u64, bytes: &[u8]) -> Result<(), AllocError>
        requires { Reaches at (current (history_of self.old) file) }
        ensures ok { OnOk result (history_of self.new ≡ OnFile (Written at (length bytes.now)) file (option_map (overlaid at bytes.now) (current (history_of self.old) file)) ∷ history_of self.old) }
        ensures err { OnErr result (history_of self.new ≡ history_of self.old) }
    {
        write_file(
            self.alloc,
            &mut self.files,
            &mut self.deeds,
            file,
            at,
            bytes,
        )
    }

    /// Syncs a file.
    pub fn sync(&mut self, file: u64) -> Result<(), AllocError>
        ensures ok { OnOk result (history_of self.new ≡ OnFile Synced file (current (history_of self.old) file) ∷ history_of self.old) }
        ensures err { OnErr result (history_of self.new ≡ history_of self.old) }
    {
        sync_file(&mut self.files, &mut self.deeds, file)
    }

    /// Takes a file away.
    pub fn remove(&mut self, file: u64) -> Result<(), AllocError>
        ensures ok { OnOk result (history_of self.new ≡ OnFile Removed file None ∷ history_of self.old) }
        ensures err { OnErr result (history_of self.new ≡ history_of self.old) }
    {
        remove_file(&mut self.files, &mut self.deeds, file)
    }

    /// Adds to the replies.
    pub fn reply(&mut self, bytes: &[u8]) -> Result<(), AllocError>
        ensures ok { OnOk result (history_of self.new ≡ Replied bytes.now ∷ history_of self.old) }
        ensures err { OnErr result (history_of self.new ≡ history_of self.old) }
    {
        let length = self.replies.len();
        self.replies.extend_from_slice(bytes)?;
        let count = bytes.len() as u64;
        if self.deeds.push(Deed::Replied { count }).is_err() {
            self.replies.truncate(length);
            return Err(AllocError);
        }
        Ok(())
    }

    /// Puts a byte of a file in the place of another, and settles the file. What is pending of the others stays.
    pub fn edit(&mut self, file: u64, at: usize, byte: u8)
        requires { at < length (bytes_in (current (history_of self.old) file)) }
        ensures edited { current (history_of self.new) file ≡ option_map (λ bytes. slice_set bytes at byte) (current (history_of self.old) file) }
        ensures others { SameBut file (current (history_of self.old)) (current (history_of self.new)) }
        ensures settled { Only (current (history_of self.new) file) (Outcome (history_of self.new) file) }
        ensures pending { LeavesSameBut file (Outcome (history_of self.old)) (Outcome (history_of self.new)) }
        ensures replies { replies (history_of self.new) ≡ replies (history_of self.old) }
    {
        edit_file(&mut self.files, file, at, byte);
        forget(&mut self.deeds, file);
    }

    /// Cuts a file to a length, and settles the file. What is pending of the others stays.
    pub fn cut(&mut self, file: u64, count: usize)
        requires { Reaches count (current (history_of self.old) file) }
        ensures shortened { current (history_of self.new) file ≡ option_map (take count) (current (history_of self.old) file) }
        ensures others { SameBut file (current (history_of self.old)) (current (history_of self.new)) }
        ensures settled { Only (current (history_of self.new) file) (Outcome (history_of self.new) file) }
        ensures pending { LeavesSameBut file (Outcome (history_of self.old)) (Outcome (history_of self.new)) }
        ensures replies { replies (history_of self.new) ≡ replies (history_of self.old) }
    {
        cut_file(&mut self.files, file, count);
        forget(&mut self.deeds, file);
    }
}
