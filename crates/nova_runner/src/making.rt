//! A store that is made.
ghost use Rattle.std.specs.Prelude.{◌≡◌, ◌+◌, ◌≤◌, ◌<◌, ◌^◌, ℕ, List, None, length, IfOk, IfErr, IsTrue, MatchResult};
ghost use Rattle.nova_outside.specs.Causes.{HasCause};
ghost use Rattle.nova_outside.specs.History.{current};
ghost use Rattle.nova_journal.specs.Log.{IsFrame, frame};
ghost use Rattle.nova_journal.specs.Marks.{IsIn, IsUnmarked};
ghost use Rattle.nova_runner.specs.Flights.{idle_slots};
ghost use Rattle.nova_runner.specs.Making.{HasFirst, HasNoneOrFirst, InitCause, IsBlank, Makes, NotBlank, OnlyMade, Unmakes};
ghost use Rattle.nova_meta.specs.Catalog.{applied, blank};
ghost use Rattle.nova_runner.specs.Steps.{InHost};
ghost use Rattle.nova_runner.specs.Texts.{HasFlow};
ghost use Rattle.nova_runner.specs.Workflow.{wiring_of};
ghost use Rattle.nova_runner.specs.declared.making.InitFault.TheVariants as init;

use crate::store::Store;
use crate::text::TextFault;
use crate::wiring::wiring;
use crate::workflow::{Workflow, copied, read_flow};
use nova_journal::{Journal, frame};
use nova_meta::{Catalog, Commit, encode_commit};
use nova_outside::{Failed, Host};
use nova_trigger::InFlight;
use std::alloc::{AllocError, Global};

/// Why a store wasn't made.
#[derive(Debug, Drop)]
pub enum InitFault {
    Disk,
    /// The workflow's text is refused, for this.
    Flow(TextFault),
    NoMemory,
}

impl From<AllocError> for InitFault {
    ghost from_gives = { λ _ e. e ≡ init.NoMemory };

    fn from(_: AllocError) -> Self {
        InitFault::NoMemory
    }
}

/// A store without versions before its files are made: all its memory.
#[derive(Drop)]
pub struct Blank {
    pub flow: Workflow,
    pub catalog: Catalog,
    pub flight: InFlight,
    /// The frame of the workflow's commit.
    pub framed: Vec<u8>,
}

/// The catalog of a workflow with its one commit.
fn first_catalog(alloc: Global, flow: &Workflow, commit: &Commit) -> Result<Catalog, AllocError>
    ensures { IfOk result (λ catalog. catalog ≡ applied (blank (wiring_of flow.now)) commit.now) }
{
    let mut catalog = Catalog::start(alloc, wiring(alloc, flow)?)?;
    match catalog.prepare(alloc, commit) {
        Ok(prepared) => {
            catalog.apply(prepared);
            Ok(catalog)
        }
        Err(_) => Err(AllocError),
    }
}

/// The memory of a store of this text.
fn blank_store(alloc: Global, text: &[u8]) -> Result<Blank, InitFault>
    ensures { MatchResult result (IsBlank text.now) (NotBlank text.now) }
{
    let flow = match read_flow(alloc, text)? {
        Ok(flow) => flow,
        Err(fault) => return Err(InitFault::Flow(fault)),
    };
    let commit = Commit::Flow {
        text: copied(alloc, text)?,
    };
    let catalog = first_catalog(alloc, &flow, &commit)?;
    let payload = encode_commit(alloc, &commit)?;
    let framed = frame(alloc, &payload)?;
    let flight = InFlight::new(alloc, flow.task_count())?;
    Ok(Blank {
        flow,
        catalog,
        flight,
        framed,
    })
}

/// Makes the journal of generation 0 with its first record, and then its mark.
fn make<H: Host>(host: &mut H, framed: &[u8]) -> Result<Journal, Failed>
    requires unmarked { IsTrue H.is_honest → IsUnmarked 0 (current (H.history host.old)) }
    requires framed { IsFrame framed.now }
    requires short { length framed.now < 2 ^ 62 }
    ensures made { IsTrue H.is_honest → (payload : List ℕ) → framed.now ≡ frame payload → MatchResult result
        (λ journal. HasFirst journal.length payload (H.history host.old) (H.history host.new))
        (λ _. HasNoneOrFirst payload (current (H.history host.new))) }
    ensures only { IsTrue H.is_honest → OnlyMade (H.history host.old) (H.history host.new) }
    ensures generation { IfOk result (λ journal. journal.generation ≡ 0) }
    ensures cause { HasCause (H.disk_faults host.old) (H.disk_faults host.new) result }
    ensures reply_faults { H.reply_faults host.new ≡ H.reply_faults host.old }
    ensures bytes_read { H.bytes_read host.new ≡ H.bytes_read host.old }
{
    let journal = match Journal::create(host, 0, framed) {
        Ok(journal) => journal,
        Err(_) => return Err(Failed),
    };
    match journal.mark(host) {
        Ok(journal) => Ok(journal),
        Err(_) => Err(Failed),
    }
}

impl Store {
    /// Makes a store of a workflow's text, without versions, of generation 0. The text is looked at
    /// and all memory taken before the first call on a file.
    pub fn init<H: Host>(alloc: Global, host: &mut H, text: &[u8]) -> Result<Store, InitFault>
        requires unmarked { IsTrue H.is_honest → IsUnmarked 0 (current (H.history host.old)) }
        ensures made { MatchResult result
            (Makes H.is_honest text.now (H.history host.old) (H.history host.new))
            (Unmakes H.is_honest text.now (H.history host.old) (H.history host.new)) }
        ensures flow { IfOk result (λ store. HasFlow text.now store.flow) }
        ensures idle { IfOk result (λ store. store.flight ≡ idle_slots store.flow) }
        ensures in_host { IfOk result (λ store. InHost H.is_honest store (H.history host.new)) }
        ensures cause { IfErr result (InitCause (H.disk_faults host.old) (H.disk_faults host.new) text.now) }
        ensures later { H.disk_faults host.old ≤ H.disk_faults host.new }
        ensures reply_faults { H.reply_faults host.new ≡ H.reply_faults host.old }
        ensures bytes_read { H.bytes_read host.new ≡ H.bytes_read host.old }
    {
        let Blank {
            flow,
            catalog,
            flight,
            framed,
        } = blank_store(alloc, text)?;
        match make(host, &framed) {
            Ok(journal) => Ok(Store {
                journal,
                flow,
                catalog,
                flight,
            }),
            Err(_) => Err(InitFault::Disk),
        }
    }
}
