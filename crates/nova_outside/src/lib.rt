//! What the program is handed from outside: a source of bytes, and a host with numbered files that
//! takes the replies.
#![tactic(auto)]

mod laws;
mod writing;

ghost use Rattle.std.specs.Prelude.{◌≡◌, ◌+◌, ◌-◌, ◌^◌, ◌≤◌, ◌∷◌, [], ℕ, Bool, List, Option, min, length, take, option_map, IfOk, IfSome, IsSome, MatchResult, OnOk, OnErr, IsTrue};
ghost use Rattle.std.specs.Io.{ReadsAtMost};
ghost use Rattle.std.specs.Io.KnownBytes.{ReadConsumes};
ghost use Rattle.nova_outside.specs.Causes.{HasCause};
ghost use Rattle.nova_outside.specs.Disk.{IsAfter, IsNext, Reaches, overlaid, piece};
ghost use Rattle.nova_outside.specs.History.{Event, ChangesInPart, RepliesInPart, Valid, current};
ghost use Rattle.nova_outside.specs.History.Change.{Created, Removed, Synced, SyncFailed, Written};
ghost use Rattle.nova_outside.specs.History.Event.{OnFile, Replied};

pub use laws::{crash_laws, failure_laws};
pub use writing::{put_file, write_through};

/// A call that didn't do its work. The one fault of every call to the outside; the count of the
/// object that was called tells it apart from a call that gave up.
#[derive(Clone, Copy, Debug, PartialEq, Eq)]
pub struct Failed;

/// Bytes that come in pieces of any length.
pub trait Source {
    /// The bytes that are left, where the source tells them.
    ghost left: { Self → Option (List ℕ) };

    /// How often a call failed, up to the greatest `u64`.
    ghost faults: { Self → ℕ };

    /// Moves the next bytes to the front of the slice and answers how many: none only where the
    /// slice is empty or nothing is left. After `Failed` the bytes that are left are as before.
    fn take(&mut self, into: &mut [u8]) -> Result<usize, Failed>
        ensures bound { ReadsAtMost result into.new }
        ensures bytes { ReadConsumes (left self.old) (left self.new) result into.new }
        ensures cause { HasCause (faults self.old) (faults self.new) result };
}

/// Files with a number each, and what takes the replies. Clauses on contents hold where the host is
/// honest, and so do conditions on them; counts and bounds hold for every host. A call on a file
/// answers `Failed` only where `disk_faults` rose, and `reply` only where `reply_faults` did.
pub trait Host {
    /// Whether the history tells what happened. It is a fact of the type, so each call keeps it.
    ghost is_honest: { Bool };

    /// What was done, the newest first. What a read returns, what a crash may leave and the replies
    /// so far follow from it; its length is the moment.
    ghost history: { Self → List Event };

    /// How often a call on a file failed, up to the greatest `u64`.
    ghost disk_faults: { Self → ℕ };

    /// How often a reply failed, up to the greatest `u64`.
    ghost reply_faults: { Self → ℕ };

    /// How many bytes `read` has given, up to the greatest `u64`.
    ghost bytes_read: { Self → ℕ };

    /// The length of a file in bytes, or None where it is absent.
    fn size(&mut self, file: u64) -> Result<Option<u64>, Failed>
        ensures answer { IsTrue is_honest → IfOk result (λ n. n ≡ option_map length (current (history self.old) file)) }
        ensures same { IsTrue is_honest → history self.new ≡ history self.old }
        ensures cause { HasCause (disk_faults self.old) (disk_faults self.new) result }
        ensures reply_faults { reply_faults self.new ≡ reply_faults self.old }
        ensures bytes_read { bytes_read self.new ≡ bytes_read self.old };

    /// Moves bytes of a present file, from an offset on, to the front of the slice and answers how
    /// many: as many as the slice takes and the file has, so none at its end and past it.
    fn read(&mut self, file: u64, at: u64, into: &mut [u8]) -> Result<usize, Failed>
        requires { IsTrue is_honest → IsSome (current (history self.old) file) }
        ensures within { IfOk result (λ n. n ≤ length into.old) }
        ensures answer { IsTrue is_honest → IfOk result (λ n. take n into.new ≡ piece at (length into.old) (current (history self.old) file)) }
        ensures same { IsTrue is_honest → history self.new ≡ history self.old }
        ensures cause { HasCause (disk_faults self.old) (disk_faults self.new) result }
        ensures reply_faults { reply_faults self.new ≡ reply_faults self.old }
        ensures bytes_read { MatchResult result (λ n. bytes_read self.new ≡ min (bytes_read self.old + n) (2 ^ 64 - 1)) (λ _. bytes_read self.new ≡ bytes_read self.old) };

    /// Makes a file, empty, in the place of any of this number. After `Failed` it reads as before or
    /// as any bytes. Until a sync a crash may leave it absent or with any bytes.
    fn create(&mut self, file: u64) -> Result<(), Failed>
        ensures ok { IsTrue is_honest → OnOk result (history self.new ≡ OnFile Created file (Some []) ∷ history self.old) }
        ensures err { IsTrue is_honest → OnErr result (ChangesInPart Created file (history self.old) (history self.new)) }
        ensures cause { HasCause (disk_faults self.old) (disk_faults self.new) result }
        ensures reply_faults { reply_faults self.new ≡ reply_faults self.old }
        ensures bytes_read { bytes_read self.new ≡ bytes_read self.old };

    /// Writes over the bytes of a present file from an offset on, and past its end. After `Failed`,
    /// and after a crash until a sync, the range holds any bytes, and the file has any length from
    /// the old to the new.
    fn write(&mut self, file: u64, at: u64, bytes: &[u8]) -> Result<(), Failed>
        requires { IsTrue is_honest → Reaches at (current (history self.old) file) }
        ensures ok { IsTrue is_honest → OnOk result (history self.new ≡ OnFile (Written at (length bytes.now)) file (option_map (overlaid at bytes.now) (current (history self.old) file)) ∷ history self.old) }
        ensures err { IsTrue is_honest → OnErr result (ChangesInPart (Written at (length bytes.now)) file (history self.old) (history self.new)) }
        ensures cause { HasCause (disk_faults self.old) (disk_faults self.new) result }
        ensures reply_faults { reply_faults self.new ≡ reply_faults self.old }
        ensures bytes_read { bytes_read self.new ≡ bytes_read self.old };

    /// Makes what a read of the file returns, or its absence, outlast a crash. After `Failed` what
    /// was pending stays pending. A file that is absent may be synced.
    fn sync(&mut self, file: u64) -> Result<(), Failed>
        ensures ok { IsTrue is_honest → OnOk result (history self.new ≡ OnFile Synced file (current (history self.old) file) ∷ history self.old) }
        ensures err { IsTrue is_honest → OnErr result (ChangesInPart SyncFailed file (history self.old) (history self.new)) }
        ensures cause { HasCause (disk_faults self.old) (disk_faults self.new) result }
        ensures reply_faults { reply_faults self.new ≡ reply_faults self.old }
        ensures bytes_read { bytes_read self.new ≡ bytes_read self.old };

    /// Takes a file away; one that is absent may be removed. After `Failed` it reads as before or is
    /// absent. Until a sync a crash may leave it absent or with any bytes.
    fn remove(&mut self, file: u64) -> Result<(), Failed>
        ensures ok { IsTrue is_honest → OnOk result (history self.new ≡ OnFile Removed file None ∷ history self.old) }
        ensures err { IsTrue is_honest → OnErr result (ChangesInPart Removed file (history self.old) (history self.new)) }
        ensures cause { HasCause (disk_faults self.old) (disk_faults self.new) result }
        ensures reply_faults { reply_faults self.new ≡ reply_faults self.old }
        ensures bytes_read { bytes_read self.new ≡ bytes_read self.old };

    /// The least number of a present file above this one, or the least of all for None.
    fn next_file(&mut self, after: Option<u64>) -> Result<Option<u64>, Failed>
        ensures above { IfOk result (λ found. IfSome found (IsAfter after)) }
        ensures answer { IsTrue is_honest → IfOk result (IsNext (current (history self.old)) after) }
        ensures same { IsTrue is_honest → history self.new ≡ history self.old }
        ensures cause { HasCause (disk_faults self.old) (disk_faults self.new) result }
        ensures reply_faults { reply_faults self.new ≡ reply_faults self.old }
        ensures bytes_read { bytes_read self.new ≡ bytes_read self.old };

    /// Adds the bytes to the replies; after `Failed` some front of them was added.
    fn reply(&mut self, bytes: &[u8]) -> Result<(), Failed>
        ensures ok { IsTrue is_honest → OnOk result (history self.new ≡ Replied bytes.now ∷ history self.old) }
        ensures err { IsTrue is_honest → OnErr result (RepliesInPart bytes.now (history self.old) (history self.new)) }
        ensures cause { HasCause (reply_faults self.old) (reply_faults self.new) result }
        ensures disk_faults { disk_faults self.new ≡ disk_faults self.old }
        ensures bytes_read { bytes_read self.new ≡ bytes_read self.old };

    /// Each event of the history may follow those before it.
    ghost valid: { (host : Self) → Valid (history host) };
}
