//! A session: lines in turn.
ghost use Rattle.std.specs.Prelude.{◌≡◌, ◌+◌, ◌<◌, ◌≤◌, ◌^◌, Some, None, IfOk, false};
ghost use Rattle.nova_value.specs.Text.{has_newline};
ghost use Rattle.nova_engine.specs.Damage.{IsReadIn};
ghost use Rattle.nova_engine.specs.Loading.{FitsStore, line_count};
ghost use Rattle.nova_engine.specs.Moves.{LineTold};
ghost use Rattle.nova_engine.specs.Seen.{seen};
ghost use Rattle.nova_engine.specs.Stopping.{HasStopCause, RepliesGrow};
ghost use Rattle.nova_engine.specs.Taking.{Answers, AsksClose, IsOneStore};

use crate::building::met;
use crate::commands::{answer, load, refused};
use crate::load::{Pending, begun, with_line};
use crate::reader::Session;
use crate::stop::Stop;
use nova_outside::Host;
use nova_runner::Store;
use nova_script::{Refusal, begins_load, ends_load};
use std::alloc::Global;

/// Takes a load whose `.` came, or whose lines the input cut off.
pub fn close<H: Host>(
    store: Store,
    alloc: Global,
    host: &mut H,
    pending: Pending,
    is_ended: bool,
) -> Result<Store, Stop>
    requires fits { FitsStore store (Some pending) }
    requires in_host { IsReadIn H.is_honest store (H.history host.old) }
    ensures answers { Answers H.is_honest (AsksClose pending is_ended) store (seen H.Host host.old) (seen H.Host host.new) result }
    ensures store { IfOk result (IsOneStore H.is_honest store (H.history host.new)) }
    ensures cause { HasStopCause H.Host host.old host.new result }
    ensures grows { RepliesGrow H.is_honest (H.history host.old) (H.history host.new) }
{
    match pending {
        Pending::Refused(refusal) => refused(store, host, refusal),
        Pending::Rows(rows) => {
            if is_ended {
                load(store, alloc, host, &rows)
            } else {
                refused(store, host, Refusal::UnfinishedLoad)
            }
        }
    }
}

/// Takes a line that no load takes.
fn command<H: Host>(store: Store, alloc: Global, host: &mut H, line: &[u8]) -> Result<Session, Stop>
    requires in_host { IsReadIn H.is_honest store (H.history host.old) }
    ensures told { LineTold H.is_honest store None line.now (seen H.Host host.old) (seen H.Host host.new) result }
    ensures in_host { IfOk result (λ new. IsReadIn H.is_honest new.store (H.history host.new)) }
    ensures lines { IfOk result (λ new. line_count new.load ≡ 0) }
    ensures cause { HasStopCause H.Host host.old host.new result }
    ensures grows { RepliesGrow H.is_honest (H.history host.old) (H.history host.new) }
{
    let Some(met) = met(&store, line) else {
        return Ok(Session { store, load: None });
    };
    if begins_load(line) {
        let pending = begun(alloc, &store, met)?;
        return Ok(Session {
            store,
            load: Some(pending),
        });
    }
    let store = answer(store, alloc, host, met)?;
    Ok(Session { store, load: None })
}

/// Takes the next line, of which no more need be held than decides what it is.
pub fn take_line<H: Host>(
    session: Session,
    alloc: Global,
    host: &mut H,
    line: &[u8],
) -> Result<Session, Stop>
    requires room { line_count session.load < 2 ^ 63 }
    requires line { has_newline line.now ≡ false }
    requires in_host { IsReadIn H.is_honest session.store (H.history host.old) }
    ensures told { LineTold H.is_honest session.store session.load line.now (seen H.Host host.old) (seen H.Host host.new) result }
    ensures in_host { IfOk result (λ new. IsReadIn H.is_honest new.store (H.history host.new)) }
    ensures lines { IfOk result (λ new. line_count new.load ≤ line_count session.load + 1) }
    ensures cause { HasStopCause H.Host host.old host.new result }
    ensures grows { RepliesGrow H.is_honest (H.history host.old) (H.history host.new) }
{
    let Session { store, load } = session;
    match load {
        None => command(store, alloc, host, line),
        Some(pending) => {
            if ends_load(line) {
                let store = close(store, alloc, host, pending, true)?;
                Ok(Session { store, load: None })
            } else {
                let pending = with_line(alloc, pending, line)?;
                Ok(Session {
                    store,
                    load: Some(pending),
                })
            }
        }
    }
}
