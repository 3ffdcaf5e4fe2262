//! A load whose lines are being read: each is parsed as it comes, and only its entry is kept.
ghost use Rattle.std.specs.Prelude.{◌≡◌, ◌≢◌, ◌+◌, ◌≤◌, ◌<◌, ◌^◌, ℕ, List, Some, IfOk, false, true, length};
ghost use Rattle.std.specs.FinMap as fin;
ghost use Rattle.nova_value.specs.Text.{has_newline};
ghost use Rattle.nova_value.specs.Entries.{FitsEntry};
ghost use Rattle.nova_delta.specs.Seen.{with_entry};
ghost use Rattle.nova_machine.specs.Workflow.{is_input, schema_in};
ghost use Rattle.nova_engine.specs.Positions.{IsFront};
ghost use Rattle.nova_runner.specs.Around.{around_held};
ghost use Rattle.nova_engine.specs.Loading.{BeginsLoad, FitsStore, HasRows, IsLoadMet, IsMet, KeepsSchema, TakesRow, line_count};

use nova_delta::Delta;
use nova_runner::Store;
use nova_script::{Refusal, Request, is_over_limit};
use nova_value::{Entry, RowFault, row_from_text};
use std::alloc::{AllocError, Global};

/// The rows of a load so far: the channel that it names, the delta that they make, and how many
/// lines they were.
#[derive(Drop)]
pub struct Rows {
    pub channel: u32,
    pub delta: Delta,
    pub lines: u64,
}

/// What is kept of a load until its `.`.
#[derive(Drop)]
pub enum Pending {
    /// It will be refused so, unless a line over the limit comes.
    Refused(Refusal),
    /// Its lines so far are rows.
    Rows(Rows),
}

/// A load without rows so far, of this channel.
fn without_rows(alloc: Global, store: &Store, channel: u32) -> Result<Pending, AllocError>
    requires channel { channel < length store.now.flow.channels }
    requires input { is_input store.now.flow channel ≡ true }
    ensures rows { IfOk result (λ p. HasRows p channel (record { schema = schema_in store.now.flow channel; entries = fin.empty }) 0) }
    ensures fits { IfOk result (λ p. FitsStore store.now (Some p)) }
{
    let schema = store.schema(channel).copy(alloc)?;
    Ok(Pending::Rows(Rows {
        channel,
        delta: Delta::empty(alloc, schema),
        lines: 0,
    }))
}

/// A load whose own line met this.
pub fn begun(
    alloc: Global,
    store: &Store,
    met: Result<Request, Refusal>,
) -> Result<Pending, AllocError>
    requires met { IsMet (around_held store.now) met }
    requires load { IsLoadMet met }
    ensures load { IfOk result (BeginsLoad store.now met) }
    ensures fits { IfOk result (λ p. FitsStore store.now (Some p)) }
    ensures lines { IfOk result (λ p. line_count (Some p) ≡ 0) }
{
    match met {
        Ok(Request::Load(channel)) => without_rows(alloc, store, channel),
        Ok(_) => Ok(Pending::Refused(Refusal::NotBuilt)),
        Err(refusal) => Ok(Pending::Refused(refusal)),
    }
}

/// The rows and one more, the entry of a line.
fn with_row(rows: Rows, entry: Entry) -> Result<Pending, AllocError>
    requires room { rows.lines < 2 ^ 63 }
    requires fits { FitsEntry rows.delta.schema entry }
    ensures { IfOk result (λ new. HasRows new rows.channel (with_entry rows.delta entry) (rows.lines + 1)) }
{
    let Rows {
        channel,
        mut delta,
        lines,
    } = rows;
    delta.set(entry)?;
    Ok(Pending::Rows(Rows {
        channel,
        delta,
        lines: lines + 1,
    }))
}

/// The load behind a line that was not read: it is no row, or there was no memory for it.
fn behind_fault(fault: RowFault, lines: u64) -> Result<Pending, AllocError>
    requires { lines < 2 ^ 63 }
    ensures { IfOk result (λ new. (fault ≢ RowFault.NoMemory) × (new ≡ Pending.Refused (Refusal.BadRow (lines + 1)))) }
{
    match fault {
        RowFault::NoMemory => Err(AllocError),
        _ => Ok(Pending::Refused(Refusal::BadRow { line: lines + 1 })),
    }
}

/// The load behind one more line.
pub fn with_line(alloc: Global, pending: Pending, line: &[u8]) -> Result<Pending, AllocError>
    requires room { line_count (Some pending) < 2 ^ 63 }
    requires line { has_newline line.now ≡ false }
    ensures load { IfOk result (λ new. (l : List ℕ) → IsFront line.now l → TakesRow pending new l) }
    ensures schema { IfOk result (KeepsSchema pending) }
    ensures lines { IfOk result (λ new. line_count (Some new) ≤ line_count (Some pending) + 1) }
{
    if is_over_limit(line) {
        return Ok(Pending::Refused(Refusal::LineTooLong));
    }
    match pending {
        Pending::Refused(refusal) => Ok(Pending::Refused(refusal)),
        Pending::Rows(rows) => match row_from_text(alloc, line, rows.delta.schema()) {
            Ok(entry) => with_row(rows, entry),
            Err(fault) => behind_fault(fault, rows.lines),
        },
    }
}
