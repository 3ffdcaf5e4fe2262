//! A run.
ghost use Rattle.std.specs.Prelude.{◌≡◌, ◌&&◌, nat_lt, ◌+◌, ◌<◌, ◌≤◌, ◌^◌, ℕ, true, false, is_some, length, IfOk, IfErr, IsTrue, MatchResult, OnOk};
ghost use Rattle.std.specs.Option.{option_map};
ghost use Rattle.nova_outside.specs.History.{current};
ghost use Rattle.nova_row_codec.specs.Spelling.{spelling_of};
ghost use Rattle.nova_commit.specs.Commits.{HasSpelling};
ghost use Rattle.nova_channel.specs.Reading.{ReadCause};
ghost use Rattle.nova_machine.specs.Workflow.{output_in, plan_in};
ghost use Rattle.nova_machine.specs.Steps.{Run};
ghost use Rattle.nova_meta.specs.Catalog.{bound, progress_at, shelf_at};
ghost use Rattle.nova_execution.specs.Damage.{ExecutionTold};
ghost use Rattle.nova_execution.specs.declared.made.Made.{Made};
ghost use Rattle.nova_runner.specs.Acts.{IsFull, IsStepDamage, keeps_in, kept_spelling, newest_reads, parts_of, read_size};
ghost use Rattle.nova_runner.specs.Beginning.{captured_in};
ghost use Rattle.nova_runner.specs.Committing.{ReadsOn, Touched};
ghost use Rattle.nova_runner.specs.RunFiles.{AreRunFiles, HasRunFiles};
ghost use Rattle.nova_runner.specs.Runs.{GivesRun, IsGiven, IsPreparedFor, RunFull, RunReady, StopDamage, made_commit, read_stop, run_commit, run_counters};
ghost use Rattle.nova_runner.specs.Steps.{AsksRun, Does, InHost, IsNoFailedCall, IsStopFull, StopCause, Stops, silent, why_of};

use crate::ready::{Fresh, Ready};
use crate::stop::Stopped;
use crate::store::Store;
use nova_block::{BlockFault, encode};
use nova_execution::{Made, execute};
use nova_group_codec::encode as encode_state;
use nova_journal::frame;
use nova_meta::{Captured, Commit, MetaFault, PartFile, encode_commit};
use nova_outside::Host;
use nova_trigger::capture;
use sqlite_items::Items;
use std::alloc::{AllocError, Global};

/// No journal passes this length, and no counter this number.
const LIMIT: u64 = 1 << 62;

/// How many bytes the frame of a run's commit has without those of its versions and of its part.
const RUN_FRAME: u64 = 54;

/// How many bytes the part of a state has in a run's commit.
const PART_FRAME: u64 = 20;

/// The files of a run with their bytes, how long its block is, and the parts of its commit.
#[derive(Drop)]
struct RunFiles {
    fresh: Vec<Fresh>,
    size: u64,
    parts: Items<PartFile>,
}

impl Store {
    /// How many parts of its state a run of a task writes.
    fn part_count(&self, task: u32) -> u64
        requires { task < length self.now.flow.tasks }
        ensures { result ≡ length (parts_of (keeps_in self.now.flow task) self.now.catalog.next 0) }
    {
        if self.flow.keeps_state(task) { 1 } else { 0 }
    }

    /// Whether one run more of a task may be counted, and its block and its part numbered.
    fn may_count(&self, task: u32) -> bool
        requires { task < length self.now.flow.tasks }
        ensures { result ≡ (nat_lt (progress_at self.now.catalog task).runs bound && nat_lt (self.now.catalog.next + length (parts_of (keeps_in self.now.flow task) self.now.catalog.next 0)) bound) }
    {
        self.catalog.runs(task) < LIMIT && self.catalog.next_block() < LIMIT - self.part_count(task)
    }

    /// Whether each number that a run counts up has room.
    fn has_counters(&self, task: u32) -> bool
        requires { task < length self.now.flow.tasks }
        ensures { result ≡ run_counters self.now.catalog task (keeps_in self.now.flow task) }
    {
        self.catalog.version(self.flow.output(task)) < LIMIT && self.may_count(task)
    }

    /// Whether a run has room, in the journal and in each counter but the sum of its output's
    /// sizes. It takes no memory.
    fn may_run(&self, task: u32) -> bool
        requires { task < length self.now.flow.tasks }
        ensures full { result ≡ false → IsFull self.now.journal.length self.now.catalog (run_commit self.now task 0 0) }
        ensures room { result ≡ true → IsFull self.now.journal.length self.now.catalog (run_commit self.now task 0 0) → ⊥ }
    {
        let versions = 8 * self.flow.input_count(task) as u64;
        let parts = PART_FRAME * self.part_count(task);
        self.journal.length() <= LIMIT - RUN_FRAME - versions - parts && self.has_counters(task)
    }

    /// What a run captures that begins now.
    fn captured(&self, task: u32) -> Captured
        requires { task < length self.now.flow.tasks }
        ensures { result ≡ captured_in self.now task }
    {
        capture(self.flow.flow(), &self.catalog, &self.flight, task)
    }

    /// What a run makes which captured this.
    fn made<H: Host>(
        &self,
        alloc: Global,
        host: &mut H,
        task: u32,
        run: &Captured,
    ) -> Result<Made, BlockFault>
        requires in_range { task < length self.now.flow.tasks }
        requires captured { run.now ≡ captured_in self.now task }
        ensures made { IfOk result (λ x. GivesRun H.is_honest self.now task x (H.history host.old)) }
        ensures given { IsTrue H.is_honest → IfOk result (IsGiven self.now task (current (H.history host.old))) }
        ensures keeps { IfOk result (λ x. is_some x.state ≡ keeps_in self.now.flow task) }
        ensures told { IsTrue H.is_honest → IfErr result (ExecutionTold self.now.flow.channels (plan_in self.now.flow task) self.now.catalog (current (H.history host.old)) task (newest_reads self.now.catalog task)) }
        ensures undamaged { IsTrue H.is_honest → OnOk result ((file at : ℕ) → IsStepDamage self.now.flow self.now.catalog (current (H.history host.old)) (Run task) file at → ⊥) }
        ensures cause { IfErr result (ReadCause (H.disk_faults host.old) (H.disk_faults host.new)) }
        ensures same { IsTrue H.is_honest → H.history host.new ≡ H.history host.old }
        ensures later { H.disk_faults host.old ≤ H.disk_faults host.new }
        ensures reply_faults { H.reply_faults host.new ≡ H.reply_faults host.old }
        ensures bytes_read { H.bytes_read host.new ≤ H.bytes_read host.old + read_size self.now.catalog (Run task) }
    {
        execute(alloc, host, self.flow.admitted(), &self.catalog, task, run)
    }

    /// Takes all the memory of a commit, and looks whether it may come next: None where it may not.
    fn ready_if_allowed(&self, alloc: Global, commit: &Commit) -> Result<Option<Ready>, AllocError>
        requires { HasSpelling commit.now }
        ensures { IfOk result (IsPreparedFor self.now commit.now) }
    {
        let payload = encode_commit(alloc, commit)?;
        let framed = frame(alloc, &payload)?;
        match self.catalog.prepare(alloc, commit) {
            Ok(prepared) => Ok(Some(Ready { framed, prepared })),
            Err(MetaFault::BadRecord) => Ok(None),
            Err(MetaFault::NoMemory) => Err(AllocError),
        }
    }

    /// The files of what a run made, and the parts that its commit names.
    fn run_files(&self, alloc: Global, made: &Made) -> Result<RunFiles, AllocError>
        ensures files { IfOk result (λ r. AreRunFiles self.now.catalog.next made.now.block made.now.state r.fresh.items) }
        ensures size { IfOk result (λ r. r.size ≡ length (spelling_of made.now.block)) }
        ensures parts { IfOk result (λ r. r.parts ≡ parts_of (is_some made.now.state) self.now.catalog.next (length (kept_spelling made.now.state))) }
        ensures wide { IfOk result (λ r. length (kept_spelling made.now.state) < 2 ^ 64) }
    {
        let block = self.catalog.next_block();
        let bytes = encode(alloc, &made.block)?;
        let size = bytes.len() as u64;
        let mut fresh = Vec::with_capacity(alloc, 2)?;
        fresh.push(Fresh { block, bytes })?;
        let mut parts = Items::new(alloc);
        if let Some(state) = &made.state {
            let block = block + 1;
            let bytes = encode_state(alloc, state)?;
            parts.push(PartFile {
                part: 0,
                block,
                size: bytes.len() as u64,
            })?;
            fresh.push(Fresh { block, bytes })?;
        }
        Ok(RunFiles { fresh, size, parts })
    }

    /// Takes all the memory of a run that has room but for the size of its block; None where that
    /// has none.
    fn run_ready(
        &self,
        alloc: Global,
        task: u32,
        run: &Captured,
        made: &Made,
    ) -> Result<Option<(Vec<Fresh>, Ready)>, AllocError>
        requires in_range { task < length self.now.flow.tasks }
        requires captured { run.now ≡ captured_in self.now task }
        requires keeps { is_some made.now.state ≡ keeps_in self.now.flow task }
        requires room { IsFull self.now.journal.length self.now.catalog (run_commit self.now task 0 0) → ⊥ }
        ensures { IfOk result (λ o. RunReady self.now task made.now (option_map (λ m. (m.0.items, m.1)) o)) }
    {
        let RunFiles { fresh, size, parts } = self.run_files(alloc, made)?;
        let block = self.catalog.next_block();
        let clock = self.catalog.moment();
        let versions = Items::from_slice(alloc, run.versions.as_slice())?;
        let commit = Commit::Run {
            task,
            versions,
            moment: clock,
            seen: run.seen,
            block,
            size,
            parts,
        };
        match self.ready_if_allowed(alloc, &commit)? {
            Some(ready) => Ok(Some((fresh, ready))),
            None => Ok(None),
        }
    }

    /// Why a run ended whose inputs weren't read.
    fn not_read(self, fault: BlockFault) -> Stopped
        ensures { result ≡ read_stop self fault }
    {
        match fault {
            BlockFault::Disk => Stopped::Disk,
            BlockFault::Damaged { file, at } => Stopped::Damaged { file, at },
            BlockFault::NoMemory => Stopped::NoMemory(self),
        }
    }

    /// Runs a task, and answers the number of the version that it made of its output.
    pub fn run<H: Host>(
        self,
        alloc: Global,
        host: &mut H,
        task: u32,
    ) -> Result<(Store, u64), Stopped>
        requires task { task < length self.flow.tasks }
        requires in_host { InHost H.is_honest self (H.history host.old) }
        // From each state that the store stood for it is the machine's step, or stopped.
        ensures step { MatchResult result
            (λ made. Does H.is_honest (AsksRun task) silent self made.0 (H.history host.old) (H.history host.new))
            (λ stop. Stops (why_of stop) H.is_honest (AsksRun task) self (H.history host.old) (H.history host.new)) }
        // Whatever the files stand for: it changes only what its commit names, the journal has the commit, and the files behind it have the block and the state that the task makes of those that the files have.
        ensures read { IfOk result (λ done. (x : Made) × (IsTrue H.is_honest → IsGiven self task (current (H.history host.old)) x) × ReadsOn H.is_honest self done.0 (made_commit self task x) (H.history host.old) (H.history host.new) × (IsTrue H.is_honest → HasRunFiles self.catalog.next x.block x.state (current (H.history host.new)))) }
        ensures touched { IsTrue H.is_honest → Touched self (run_commit self task 0 0) (H.history host.old) (H.history host.new) }
        ensures in_host { IfOk result (λ made. InHost H.is_honest made.0 (H.history host.new)) }
        ensures flow { IfOk result (λ made. made.0.flow ≡ self.flow) }
        ensures flight { IfOk result (λ made. made.0.flight ≡ self.flight) }
        ensures version { IfOk result (λ made. made.1 ≡ (shelf_at self.catalog (output_in self.flow task)).version + 1) }
        // Full only where its commit has no room, whatever its block is or for the one that it makes; where that is so whatever its block is, before any memory is taken and any file is called.
        ensures full { IfErr result (λ stop. IsStopFull stop → RunFull H.is_honest self task (current (H.history host.old))) }
        ensures room { IsFull self.journal.length self.catalog (run_commit self task 0 0) → MatchResult result (λ made. ⊥) IsStopFull × (host.new ≡ host.old) }
        // But for a failed call the files are as they were, so a store that is handed back is in the host still.
        ensures unchanged { IfErr result (λ stop. IsNoFailedCall stop → IsTrue H.is_honest → H.history host.new ≡ H.history host.old) }
        ensures cause { IfErr result (StopCause self (H.disk_faults host.old) (H.disk_faults host.new)) }
        ensures told { IsTrue H.is_honest → IfErr result (StopDamage self task (current (H.history host.old))) }
        // Whatever the files stand for, it is done only where each block that it read is one.
        ensures undamaged { IsTrue H.is_honest → OnOk result ((file at : ℕ) → IsStepDamage self.flow self.catalog (current (H.history host.old)) (Run task) file at → ⊥) }
        ensures later { H.disk_faults host.old ≤ H.disk_faults host.new }
        ensures reply_faults { H.reply_faults host.new ≡ H.reply_faults host.old }
        ensures bytes_read { H.bytes_read host.new ≤ H.bytes_read host.old + read_size self.catalog (Run task) }
    {
        if !self.may_run(task) {
            return Err(Stopped::Full {
                length: self.journal.length(),
            });
        }
        let run = self.captured(task);
        let made = match self.made(alloc, host, task, &run) {
            Ok(made) => made,
            Err(fault) => return Err(self.not_read(fault)),
        };
        let (fresh, ready) = match self.run_ready(alloc, task, &run, &made) {
            Ok(Some(all)) => all,
            Ok(None) => {
                return Err(Stopped::Full {
                    length: self.journal.length(),
                });
            }
            Err(_) => return Err(Stopped::NoMemory(self)),
        };
        let version = self.catalog.version(self.flow.output(task)) + 1;
        match self.commit(host, &fresh, ready) {
            Ok(store) => Ok((store, version)),
            Err(_) => Err(Stopped::Disk),
        }
    }
}
