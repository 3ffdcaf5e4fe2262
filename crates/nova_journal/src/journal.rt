//! A journal, its making and opening, and records that are added.
ghost use Rattle.std.specs.Prelude.{◌≡◌, ◌+◌, ◌*◌, ◌^◌, ◌<◌, ◌≤◌, ℕ, List, [], ◌∷◌, ◌++◌, Option, Some, None, length, IfOk, IfErr, IsErr, OnOk, IsTrue};
ghost use Rattle.nova_outside.specs.Disk.{Only, SameBut, LeavesSameBut, OneChanges};
ghost use Rattle.nova_outside.specs.History.{LeftNow, Meanwhile, Outcome, current, replies};
ghost use Rattle.nova_journal.specs.Fault.{AppendCause, MarkCause, ReopenCause, ReopenTold};
ghost use Rattle.nova_journal.specs.Log.{BeforeOrAfter, IsFrame, IsPlaced, IsReadTo, LogTo, file_length, frame, payloads_of};
ghost use Rattle.nova_journal.specs.Marks.{Holds, IsIn, IsMark, IsUnmarked};

use crate::contents::whole;
use crate::fault::LogFault;
use crate::format_fault::FormatFault;
use crate::marks::newest_synced;
use crate::payload::Payload;
use crate::reading::read_log;
use nova_outside::{Host, write_through};
use std::alloc::Global;
use std::marker::Model;

/// No record takes a journal past this length.
const LIMIT: u64 = 1 << 62;

/// An open journal: its generation and its length, which is the place of its last gate plus 1. Its
/// payloads are in its file.
#[derive(Drop)]
pub struct Journal {
    generation: u64,
    length: u64,
}

impl Model for Journal {
    ghost use Rattle.nova_journal.specs.Extent.{Extent, IsExtent};

    ghost Value = { Extent };

    ghost view = { λ j. record { generation = j.generation; length = j.length } };

    ghost invariant = { λ j. IsExtent (record { generation = j.generation; length = j.length }) };
}

impl Journal {
    /// The number that the files of the journal and of its mark are named by.
    pub fn generation(&self) -> u64
        ensures is { result ≡ self.now.generation }
        ensures numbered { result < 2 ^ 62 }
    {
        self.generation
    }

    /// The length in bytes, the last gate included.
    pub fn length(&self) -> u64
        ensures is { result ≡ self.now.length }
        ensures bounded { result < 2 ^ 63 }
    {
        self.length
    }

    /// Makes a journal with one record, in four calls. It is the store's once its mark is there.
    pub fn create<H: Host>(
        host: &mut H,
        generation: u64,
        framed: &[u8],
    ) -> Result<Journal, LogFault>
        requires numbered { generation < 2 ^ 62 }
        requires framed { IsFrame framed.now }
        requires unmarked { IsTrue H.is_honest → IsUnmarked generation (current (H.history host.old)) }
        ensures made { IsTrue H.is_honest → (payload : List ℕ) → framed.now ≡ frame payload → IfOk result (λ journal. Holds generation journal.length (payload ∷ []) (current (H.history host.new))) }
        ensures length { IfOk result (λ journal. (journal.length ≡ 1 + length framed.now) × (journal.generation ≡ generation)) }
        ensures settled { IsTrue H.is_honest → OnOk result (Only (current (H.history host.new) (4 * generation)) (Outcome (H.history host.new) (4 * generation))) }
        ensures others { IsTrue H.is_honest → SameBut (4 * generation) (current (H.history host.old)) (current (H.history host.new)) }
        ensures replies { IsTrue H.is_honest → replies (H.history host.new) ≡ replies (H.history host.old) }
        ensures crash_others { IsTrue H.is_honest → LeavesSameBut (4 * generation) (Outcome (H.history host.old)) (Outcome (H.history host.new)) }
        ensures any_moment { IsTrue H.is_honest → Meanwhile (OneChanges (4 * generation) (λ _. Unit {0}) (Outcome (H.history host.old)) (replies (H.history host.old))) (H.history host.old) (H.history host.new) }
        ensures full { (2 ^ 62 < 1 + length framed.now) → IsErr result × (host.new ≡ host.old) }
        ensures cause { IfErr result (AppendCause (H.disk_faults host.old) (H.disk_faults host.new) 1 (1 + length framed.now)) }
        ensures later { H.disk_faults host.old ≤ H.disk_faults host.new }
        ensures reply_faults { H.reply_faults host.new ≡ H.reply_faults host.old }
        ensures bytes_read { H.bytes_read host.new ≡ H.bytes_read host.old }
    {
        let size = framed.len() as u64;
        if size > LIMIT - 1 {
            return Err(LogFault::Full { length: 1 });
        }
        let file = 4 * generation;
        host.create(file)?;
        host.write(file, 0, &[1])?;
        write_through(host, file, 1, framed)?;
        Ok(Journal {
            generation,
            length: 1 + size,
        })
    }

    /// Makes the mark of the journal's generation, in two calls: the journal is the store's.
    pub fn mark<H: Host>(self, host: &mut H) -> Result<Journal, LogFault>
        requires unmarked { IsTrue H.is_honest → IsUnmarked self.generation (current (H.history host.old)) }
        ensures marked { IsTrue H.is_honest → OnOk result (IsMark (current (H.history host.new)) (Some self.generation)) }
        ensures kept { IsTrue H.is_honest → (payloads : List (List ℕ)) → Holds self.generation self.length payloads (current (H.history host.old)) → OnOk result (Holds self.generation self.length payloads (current (H.history host.new))) }
        ensures same { IfOk result (λ journal. (journal.length ≡ self.length) × (journal.generation ≡ self.generation)) }
        ensures settled { IsTrue H.is_honest → OnOk result (Only (current (H.history host.new) (4 * self.generation + 1)) (Outcome (H.history host.new) (4 * self.generation + 1))) }
        ensures others { IsTrue H.is_honest → SameBut (4 * self.generation + 1) (current (H.history host.old)) (current (H.history host.new)) }
        ensures crash_others { IsTrue H.is_honest → LeavesSameBut (4 * self.generation + 1) (Outcome (H.history host.old)) (Outcome (H.history host.new)) }
        ensures any_moment { IsTrue H.is_honest → Meanwhile (OneChanges (4 * self.generation + 1) (λ _. Unit {0}) (Outcome (H.history host.old)) (replies (H.history host.old))) (H.history host.old) (H.history host.new) }
        ensures replies { IsTrue H.is_honest → replies (H.history host.new) ≡ replies (H.history host.old) }
        ensures cause { IfErr result (MarkCause (H.disk_faults host.old) (H.disk_faults host.new)) }
        ensures later { H.disk_faults host.old ≤ H.disk_faults host.new }
        ensures reply_faults { H.reply_faults host.new ≡ H.reply_faults host.old }
        ensures bytes_read { H.bytes_read host.new ≡ H.bytes_read host.old }
    {
        let mark = 4 * self.generation + 1;
        host.create(mark)?;
        host.sync(mark)?;
        Ok(self)
    }

    /// Opens the journal of the greatest mark, once the mark and the journal are synced, and gives its
    /// payloads.
    pub fn reopen<H: Host>(alloc: Global, host: &mut H) -> Result<(Journal, Vec<Payload>), LogFault>
        ensures found { IsTrue H.is_honest → IfOk result (λ found. IsMark (current (H.history host.old)) (Some found.0.generation) × IsReadTo found.0.length (payloads_of found.1.items) (current (H.history host.old) (4 * found.0.generation))) }
        ensures in_host { IsTrue H.is_honest → IfOk result (λ found. Holds found.0.generation found.0.length (payloads_of found.1.items) (current (H.history host.new))) }
        ensures places { IfOk result (λ found. IsPlaced 0 found.1.items) }
        ensures settled { IsTrue H.is_honest → IfOk result (λ found. Only (current (H.history host.old) (4 * found.0.generation)) (Outcome (H.history host.new) (4 * found.0.generation))) }
        ensures mark_settled { IsTrue H.is_honest → IfOk result (λ found. Only (current (H.history host.old) (4 * found.0.generation + 1)) (Outcome (H.history host.new) (4 * found.0.generation + 1))) }
        ensures crash { IsTrue H.is_honest → (n : ℕ) (c : Option (List ℕ)) → Outcome (H.history host.new) n c → Outcome (H.history host.old) n c }
        ensures any_moment { IsTrue H.is_honest → Meanwhile (LeftNow (H.history host.old)) (H.history host.old) (H.history host.new) }
        ensures files { IsTrue H.is_honest → (n : ℕ) → current (H.history host.new) n ≡ current (H.history host.old) n }
        ensures replies { IsTrue H.is_honest → replies (H.history host.new) ≡ replies (H.history host.old) }
        ensures told { IsTrue H.is_honest → IfErr result (ReopenTold (current (H.history host.old))) }
        ensures cause { IfErr result (ReopenCause (H.disk_faults host.old) (H.disk_faults host.new)) }
        ensures later { H.disk_faults host.old ≤ H.disk_faults host.new }
        ensures reply_faults { H.reply_faults host.new ≡ H.reply_faults host.old }
        ensures bytes_read { IsTrue H.is_honest → (x : ℕ) → IsMark (current (H.history host.old)) (Some x) → H.bytes_read host.new ≤ H.bytes_read host.old + file_length (current (H.history host.old) (4 * x)) }
        ensures no_read { IsTrue H.is_honest → IsMark (current (H.history host.old)) None → H.bytes_read host.new ≡ H.bytes_read host.old }
    {
        let generation = newest_synced(host)?;
        let file = 4 * generation;
        let Some(bytes) = whole(alloc, host, file)? else {
            return Err(LogFault::Damaged { file, at: 0 });
        };
        match read_log(alloc, &bytes) {
            Ok((payloads, length)) => Ok((
                Journal {
                    generation,
                    length: length as u64,
                },
                payloads,
            )),
            Err(FormatFault::At(at)) => Err(LogFault::Damaged {
                file,
                at: at as u64,
            }),
            Err(FormatFault::NoMemory) => Err(LogFault::NoMemory),
        }
    }

    /// Adds a record, in four calls: the body with its closed gate is written and synced, and then its
    /// gate is opened and synced. After an error the journal has to be opened again.
    pub fn append<H: Host>(self, host: &mut H, framed: &[u8]) -> Result<Journal, LogFault>
        requires in_host { IsTrue H.is_honest → IsIn self.generation self.length (current (H.history host.old)) }
        requires framed { IsFrame framed.now }
        ensures added { IsTrue H.is_honest → (payloads : List (List ℕ)) (payload : List ℕ) → Holds self.generation self.length payloads (current (H.history host.old)) → framed.now ≡ frame payload
            → IfOk result (λ journal. Holds self.generation journal.length (payloads ++ payload ∷ []) (current (H.history host.new))) }
        ensures length { IfOk result (λ journal. (journal.length ≡ self.length + length framed.now) × (journal.generation ≡ self.generation)) }
        ensures any_moment { IsTrue H.is_honest → (payloads : List (List ℕ)) (payload : List ℕ) → LogTo self.length payloads (current (H.history host.old) (4 * self.generation)) → framed.now ≡ frame payload
            → Only (current (H.history host.old) (4 * self.generation)) (Outcome (H.history host.old) (4 * self.generation))
            → Meanwhile (OneChanges (4 * self.generation) (BeforeOrAfter payloads payload) (Outcome (H.history host.old)) (replies (H.history host.old))) (H.history host.old) (H.history host.new) }
        ensures settled { IsTrue H.is_honest → OnOk result (Only (current (H.history host.new) (4 * self.generation)) (Outcome (H.history host.new) (4 * self.generation))) }
        ensures others { IsTrue H.is_honest → SameBut (4 * self.generation) (current (H.history host.old)) (current (H.history host.new)) }
        ensures crash_others { IsTrue H.is_honest → LeavesSameBut (4 * self.generation) (Outcome (H.history host.old)) (Outcome (H.history host.new)) }
        ensures replies { IsTrue H.is_honest → replies (H.history host.new) ≡ replies (H.history host.old) }
        ensures full { (2 ^ 62 < self.length + length framed.now) → IsErr result × (host.new ≡ host.old) }
        ensures cause { IfErr result (AppendCause (H.disk_faults host.old) (H.disk_faults host.new) self.length (self.length + length framed.now)) }
        ensures later { H.disk_faults host.old ≤ H.disk_faults host.new }
        ensures reply_faults { H.reply_faults host.new ≡ H.reply_faults host.old }
        ensures bytes_read { H.bytes_read host.new ≡ H.bytes_read host.old }
    {
        let size = framed.len() as u64;
        if self.length + size > LIMIT {
            return Err(LogFault::Full {
                length: self.length,
            });
        }
        let file = 4 * self.generation;
        write_through(host, file, self.length, framed)?;
        write_through(host, file, self.length - 1, &[1])?;
        Ok(Journal {
            generation: self.generation,
            length: self.length + size,
        })
    }
}
