//! A store that is opened.
ghost use Rattle.std.specs.Prelude.{◌≡◌, ◌+◌, ◌*◌, ◌≤◌, ◌<◌, ◌^◌, ℕ, List, Option, Some, None, true, IfOk, IfErr, IsTrue, MatchResult, OnOk};
ghost use Rattle.nova_outside.specs.Disk.{Only};
ghost use Rattle.nova_outside.specs.History.{LeftNow, Meanwhile, Outcome, current, replies};
ghost use Rattle.nova_journal.specs.Log.{IsPlaced, file_length, payloads_of};
ghost use Rattle.nova_journal.specs.Marks.{IsMark};
ghost use Rattle.nova_meta.specs.Catalog.{Entered, applied, allows, blank};
ghost use Rattle.nova_commit.specs.Commits.{Fits, commit_bytes};
ghost use Rattle.nova_commit.specs.declared.commit.Commit.{Commit as Committed};
ghost use Rattle.nova_runner.specs.Files.{journal_file, mark_file};
ghost use Rattle.nova_runner.specs.Flights.{idle_slots};
ghost use Rattle.nova_runner.specs.Opening.{HasCommits, HasTaken, IsFlowIn, IsSaid, IsStuckTold, IsFirstFlow, NoBadStore, NoStoreThere, NotReadTold, OneBadStore, OpenCause, Opens, TakesCommit, UnopenedTold, unopened_by, unread_in};
ghost use Rattle.nova_meta.specs.Wired.{IsWiring};
ghost use Rattle.nova_runner.specs.Steps.{InHost};
ghost use Rattle.nova_runner.specs.Texts.{HasFlow};
ghost use Rattle.nova_runner.specs.Workflow.{wiring_of};
ghost use Rattle.nova_runner.specs.declared.opening.NotRead.TheVariants as not_read;

use crate::store::Store;
use crate::text::texts_are_settled;
use crate::wiring::wiring;
use crate::workflow::{Workflow, read_flow};
use nova_journal::{Journal, LogFault, Payload};
use nova_meta::{Catalog, Commit, MetaFault, Wiring, decode_commit};
use nova_outside::Host;
use nova_trigger::InFlight;
use std::alloc::{AllocError, AllocFailed, Global};

/// Why a store wasn't opened.
#[derive(Clone, Copy, Debug, PartialEq, Eq)]
pub enum OpenFault {
    Disk,
    /// No mark is there.
    NoStore,
    /// The file with this number isn't a store's journal, at this place.
    Damaged { file: u64, at: u64 },
    NoMemory,
}

/// Why payloads aren't a store's.
#[derive(Clone, Copy, Debug, PartialEq, Eq)]
pub enum NotRead {
    /// The payload at this place may not come there.
    At(u64),
    NoMemory,
}

impl From<AllocError> for NotRead {
    ghost from_gives = { λ _ e. e ≡ not_read.NoMemory };

    fn from(_: AllocError) -> Self {
        NotRead::NoMemory
    }
}

fn unopened(fault: LogFault) -> OpenFault
    ensures { result ≡ unopened_by fault }
{
    match fault {
        LogFault::Disk => OpenFault::Disk,
        LogFault::NoStore => OpenFault::NoStore,
        LogFault::Damaged { file, at } => OpenFault::Damaged { file, at },
        LogFault::Full { length: _ } | LogFault::NoMemory => OpenFault::NoMemory,
    }
}

fn unread(file: u64, why: NotRead) -> OpenFault
    ensures { result ≡ unread_in file why }
{
    match why {
        NotRead::At(at) => OpenFault::Damaged { file, at },
        NotRead::NoMemory => OpenFault::NoMemory,
    }
}

/// The workflow that a text says, or None where it says none.
fn flow_said(alloc: Global, text: &[u8]) -> Result<Option<Workflow>, AllocError>
    ensures { IfOk result (IsSaid text.now) }
{
    texts_are_settled();
    match read_flow(alloc, text)? {
        Ok(flow) => Ok(Some(flow)),
        Err(_) => Ok(None),
    }
}

/// The workflow of a commit, or None where it is another's.
fn flow_in(alloc: Global, commit: &Commit) -> Result<Option<Workflow>, AllocError>
    ensures { IfOk result (IsFlowIn commit.now) }
{
    match commit {
        Commit::Flow { text } => flow_said(alloc, text.as_slice()),
        Commit::Load {
            channel: _,
            block: _,
            size: _,
        }
        | Commit::Tick { moment: _ }
        | Commit::Run {
            task: _,
            versions: _,
            moment: _,
            seen: _,
            block: _,
            size: _,
            parts: _,
        }
        | Commit::Joined {
            channel: _,
            from: _,
            to: _,
            block: _,
            size: _,
        }
        | Commit::Collected { kept: _ } => Ok(None),
    }
}

/// The workflow of a first payload, or None where it is none.
fn first_flow(alloc: Global, payload: &[u8]) -> Result<Option<Workflow>, AllocError>
    ensures { IfOk result (IsFirstFlow payload.now) }
{
    match decode_commit(alloc, payload) {
        Ok(commit) => flow_in(alloc, &commit),
        Err(MetaFault::BadRecord) => Ok(None),
        Err(MetaFault::NoMemory) => Err(AllocError),
    }
}

/// One commit more, or its payload isn't one that may come.
fn take_commit(alloc: Global, catalog: &mut Catalog, payload: &[u8]) -> Result<bool, AllocError>
    ensures { TakesCommit catalog.old catalog.new payload.now result }
{
    let commit = match decode_commit(alloc, payload) {
        Ok(commit) => commit,
        Err(MetaFault::BadRecord) => return Ok(false),
        Err(MetaFault::NoMemory) => return Err(AllocError),
    };
    let prepared = match catalog.prepare(alloc, &commit) {
        Ok(prepared) => prepared,
        Err(MetaFault::BadRecord) => return Ok(false),
        Err(MetaFault::NoMemory) => return Err(AllocError),
    };
    catalog.apply(prepared);
    Ok(true)
}

/// The catalog of payloads that are commits in order.
fn take_commits(alloc: Global, wiring: Wiring, payloads: &[Payload]) -> Result<Catalog, NotRead>
    requires wiring { IsWiring wiring }
    requires placed { IsPlaced 0 payloads.now }
    ensures taken { MatchResult result (HasTaken wiring (payloads_of payloads.now)) (IsStuckTold wiring (payloads_of payloads.now)) }
{
    let mut catalog = Catalog::start(alloc, wiring)?;
    for payload in payloads {
        if !take_commit(alloc, &mut catalog, &payload.bytes)? {
            return Err(NotRead::At(payload.at));
        }
    }
    Ok(catalog)
}

/// The workflow and the catalog of a journal's payloads.
fn read_commits(alloc: Global, payloads: &[Payload]) -> Result<(Workflow, Catalog), NotRead>
    requires placed { IsPlaced 0 payloads.now }
    ensures read { MatchResult result (λ p. HasCommits (payloads_of payloads.now) p.0 p.1) (λ why. NotReadTold why (payloads_of payloads.now)) }
{
    let Some((first, _)) = payloads.split_first() else {
        return Err(NotRead::At(0));
    };
    let Some(flow) = first_flow(alloc, &first.bytes)? else {
        return Err(NotRead::At(first.at));
    };
    let catalog = take_commits(alloc, wiring(alloc, &flow)?, payloads)?;
    Ok((flow, catalog))
}

/// The same, with nothing in flight.
fn read_store(alloc: Global, payloads: &[Payload]) -> Result<(Workflow, Catalog, InFlight), NotRead>
    requires placed { IsPlaced 0 payloads.now }
    ensures read { MatchResult result (λ p. HasCommits (payloads_of payloads.now) p.0 p.1) (λ why. NotReadTold why (payloads_of payloads.now)) }
    ensures idle { IfOk result (λ p. p.2 ≡ idle_slots p.0) }
{
    let (flow, catalog) = read_commits(alloc, payloads)?;
    let flight = InFlight::new(alloc, flow.task_count())?;
    Ok((flow, catalog, flight))
}

/// Files without a mark are no store. Those of the newest mark are a store's, or damaged at one place,
/// and never both.
pub fn bad_stores()
    ensures one { OneBadStore }
    ensures never { NoBadStore }
    ensures none { NoStoreThere }
{}

impl Store {
    /// Opens the store of the newest mark: it reads its journal's commits, and no block.
    pub fn reopen<H: Host>(alloc: Global, host: &mut H) -> Result<Store, OpenFault>
        ensures opened { MatchResult result
            (λ store. Opens H.is_honest store (H.history host.old) (H.history host.new))
            (λ why. IsTrue H.is_honest → UnopenedTold why (current (H.history host.old))) }
        ensures in_host { IfOk result (λ store. InHost H.is_honest store (H.history host.new)) }
        ensures idle { IfOk result (λ store. store.flight ≡ idle_slots store.flow) }
        // Nothing is pending on its journal and on its mark.
        ensures settled { IsTrue H.is_honest → IfOk result (λ store. Only (current (H.history host.old) (journal_file store.journal.generation)) (Outcome (H.history host.new) (journal_file store.journal.generation))) }
        ensures mark_settled { IsTrue H.is_honest → IfOk result (λ store. Only (current (H.history host.old) (mark_file store.journal.generation)) (Outcome (H.history host.new) (mark_file store.journal.generation))) }
        ensures crash { IsTrue H.is_honest → (n : ℕ) (c : Option (List ℕ)) → Outcome (H.history host.new) n c → Outcome (H.history host.old) n c }
        ensures any_moment { IsTrue H.is_honest → Meanwhile (LeftNow (H.history host.old)) (H.history host.old) (H.history host.new) }
        ensures files { IsTrue H.is_honest → (n : ℕ) → current (H.history host.new) n ≡ current (H.history host.old) n }
        ensures replies { IsTrue H.is_honest → replies (H.history host.new) ≡ replies (H.history host.old) }
        ensures cause { IfErr result (OpenCause (H.disk_faults host.old) (H.disk_faults host.new)) }
        ensures later { H.disk_faults host.old ≤ H.disk_faults host.new }
        ensures reply_faults { H.reply_faults host.new ≡ H.reply_faults host.old }
        ensures bytes_read { IsTrue H.is_honest → (x : ℕ) → IsMark (current (H.history host.old)) (Some x) → H.bytes_read host.new ≤ H.bytes_read host.old + file_length (current (H.history host.old) (4 * x)) }
        ensures no_read { IsTrue H.is_honest → IsMark (current (H.history host.old)) None → H.bytes_read host.new ≡ H.bytes_read host.old }
    {
        let (journal, payloads) = match Journal::reopen(alloc, host) {
            Ok(found) => found,
            Err(fault) => return Err(unopened(fault)),
        };
        match read_store(alloc, payloads.as_slice()) {
            Ok((flow, catalog, flight)) => Ok(Store {
                journal,
                flow,
                catalog,
                flight,
            }),
            Err(why) => Err(unread(4 * journal.generation(), why)),
        }
    }
}
