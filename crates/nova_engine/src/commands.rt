//! The commands on a store, each with its reply.
ghost use Rattle.std.specs.Prelude.{◌≡◌, ◌^◌, ◌<◌, ◌≤◌, ℕ, true, false, length, IfOk, Ok};
ghost use Rattle.nova_script.specs.declared.context.Request.TheVariants.{Load as LoadOf};
ghost use Rattle.nova_machine.specs.Workflow.{is_input, schema_in};
ghost use Rattle.nova_trigger.specs.Due.{in_flight};
ghost use Rattle.nova_runner.specs.Around.{around_held};
ghost use Rattle.nova_runner.specs.Steps.{AsksLoad, AsksRun, AsksShow, AsksTick};
ghost use Rattle.nova_engine.specs.Damage.{IsReadIn};
ghost use Rattle.nova_engine.specs.Loading.{IsMet};
ghost use Rattle.nova_engine.specs.Seen.{seen};
ghost use Rattle.nova_engine.specs.Stopping.{HasStopCause, RepliesGrow};
ghost use Rattle.nova_engine.specs.Taking.{Answers, AsksBegin, AsksDrop, AsksMet, AsksOne, AsksRefused, IsOneStore};

use crate::load::Rows;
use crate::stop::{Stop, stop_of, stop_of_show};
use nova_outside::Host;
use nova_runner::Store;
use nova_script::{Refusal, Reply, Request, refuse, send};
use std::alloc::Global;

/// Adds a version to an input channel, and replies its line once it is kept.
pub fn load<H: Host>(store: Store, alloc: Global, host: &mut H, rows: &Rows) -> Result<Store, Stop>
    requires channel { rows.now.channel < length store.flow.channels }
    requires input { is_input store.flow rows.now.channel ≡ true }
    requires schema { rows.now.delta.schema ≡ schema_in store.flow rows.now.channel }
    requires in_host { IsReadIn H.is_honest store (H.history host.old) }
    ensures answers { Answers H.is_honest (AsksOne (AsksLoad rows.now.channel rows.now.delta)) store (seen H.Host host.old) (seen H.Host host.new) result }
    ensures store { IfOk result (IsOneStore H.is_honest store (H.history host.new)) }
    ensures cause { HasStopCause H.Host host.old host.new result }
    ensures grows { RepliesGrow H.is_honest (H.history host.old) (H.history host.new) }
{
    match store.load(alloc, host, rows.channel, &rows.delta) {
        Ok((store, version)) => {
            let line = Reply::loaded(store.channel_name(rows.channel), version);
            send(host, &line)?;
            Ok(store)
        }
        Err(stopped) => Err(stop_of(stopped)),
    }
}

/// Sets the clock, and replies its line once that is kept.
fn tick<H: Host>(store: Store, host: &mut H, moment: u64) -> Result<Store, Stop>
    requires later { store.catalog.moment ≤ moment }
    requires low { moment ≤ 2 ^ 62 }
    requires in_host { IsReadIn H.is_honest store (H.history host.old) }
    ensures answers { Answers H.is_honest (AsksOne (AsksTick moment)) store (seen H.Host host.old) (seen H.Host host.new) result }
    ensures store { IfOk result (IsOneStore H.is_honest store (H.history host.new)) }
    ensures cause { HasStopCause H.Host host.old host.new result }
    ensures grows { RepliesGrow H.is_honest (H.history host.old) (H.history host.new) }
{
    match store.tick(host, moment) {
        Ok(store) => {
            let line = Reply::ticked(moment);
            send(host, &line)?;
            Ok(store)
        }
        Err(stopped) => Err(stop_of(stopped)),
    }
}

/// Runs a task, and replies the version that it made of its output once that is kept.
fn run<H: Host>(store: Store, alloc: Global, host: &mut H, task: u32) -> Result<Store, Stop>
    requires task { task < length store.flow.tasks }
    requires in_host { IsReadIn H.is_honest store (H.history host.old) }
    ensures answers { Answers H.is_honest (AsksOne (AsksRun task)) store (seen H.Host host.old) (seen H.Host host.new) result }
    ensures store { IfOk result (IsOneStore H.is_honest store (H.history host.new)) }
    ensures cause { HasStopCause H.Host host.old host.new result }
    ensures grows { RepliesGrow H.is_honest (H.history host.old) (H.history host.new) }
{
    match store.run(alloc, host, task) {
        Ok((store, version)) => {
            let line = Reply::ran(store.task_name(task), version);
            send(host, &line)?;
            Ok(store)
        }
        Err(stopped) => Err(stop_of(stopped)),
    }
}

/// Begins an execution of a task, and replies its line. No file has it: it ends with the call.
fn begin<H: Host>(store: Store, host: &mut H, task: u32) -> Result<Store, Stop>
    requires task { task < length store.flow.tasks }
    requires idle { in_flight store.flight task ≡ false }
    requires in_host { IsReadIn H.is_honest store (H.history host.old) }
    ensures answers { Answers H.is_honest (AsksOne (AsksBegin task)) store (seen H.Host host.old) (seen H.Host host.new) result }
    ensures store { IfOk result (IsOneStore H.is_honest store (H.history host.new)) }
    ensures cause { HasStopCause H.Host host.old host.new result }
    ensures grows { RepliesGrow H.is_honest (H.history host.old) (H.history host.new) }
{
    let mut begun = store;
    begun.begin(task);
    let line = Reply::began(begun.task_name(task));
    send(host, &line)?;
    Ok(begun)
}

/// Drops the execution of a task, and replies its line.
fn drop_run<H: Host>(store: Store, host: &mut H, task: u32) -> Result<Store, Stop>
    requires task { task < length store.flow.tasks }
    requires begun { in_flight store.flight task ≡ true }
    requires in_host { IsReadIn H.is_honest store (H.history host.old) }
    ensures answers { Answers H.is_honest (AsksOne (AsksDrop task)) store (seen H.Host host.old) (seen H.Host host.new) result }
    ensures store { IfOk result (IsOneStore H.is_honest store (H.history host.new)) }
    ensures cause { HasStopCause H.Host host.old host.new result }
    ensures grows { RepliesGrow H.is_honest (H.history host.old) (H.history host.new) }
{
    let mut idle = store;
    idle.drop_run(task);
    let line = Reply::dropped(idle.task_name(task));
    send(host, &line)?;
    Ok(idle)
}

/// Replies the rows of a channel, and the line that counts them.
fn show<H: Host>(store: Store, alloc: Global, host: &mut H, channel: u32) -> Result<Store, Stop>
    requires channel { channel < length store.flow.channels }
    requires in_host { IsReadIn H.is_honest store (H.history host.old) }
    ensures answers { Answers H.is_honest (AsksOne (AsksShow channel)) store (seen H.Host host.old) (seen H.Host host.new) result }
    ensures store { IfOk result (IsOneStore H.is_honest store (H.history host.new)) }
    ensures cause { HasStopCause H.Host host.old host.new result }
    ensures grows { RepliesGrow H.is_honest (H.history host.old) (H.history host.new) }
{
    match store.show(alloc, host, channel) {
        Ok(()) => Ok(store),
        Err(unshown) => Err(stop_of_show(unshown)),
    }
}

/// Refuses a command, which changes nothing.
pub fn refused<H: Host>(store: Store, host: &mut H, refusal: Refusal) -> Result<Store, Stop>
    requires in_host { IsReadIn H.is_honest store (H.history host.old) }
    ensures answers { Answers H.is_honest (AsksOne (AsksRefused refusal)) store (seen H.Host host.old) (seen H.Host host.new) result }
    ensures store { IfOk result (IsOneStore H.is_honest store (H.history host.new)) }
    ensures cause { HasStopCause H.Host host.old host.new result }
    ensures grows { RepliesGrow H.is_honest (H.history host.old) (H.history host.new) }
{
    refuse(host, &refusal)?;
    Ok(store)
}

/// Does what a command that has no rows met.
pub fn answer<H: Host>(
    store: Store,
    alloc: Global,
    host: &mut H,
    met: Result<Request, Refusal>,
) -> Result<Store, Stop>
    requires met { IsMet (around_held store) met }
    requires no_load { (c : ℕ) → met ≡ Ok (LoadOf c) → ⊥ }
    requires in_host { IsReadIn H.is_honest store (H.history host.old) }
    ensures answers { Answers H.is_honest (AsksMet met) store (seen H.Host host.old) (seen H.Host host.new) result }
    ensures store { IfOk result (IsOneStore H.is_honest store (H.history host.new)) }
    ensures cause { HasStopCause H.Host host.old host.new result }
    ensures grows { RepliesGrow H.is_honest (H.history host.old) (H.history host.new) }
{
    match met {
        Ok(Request::Tick(moment)) => tick(store, host, moment),
        Ok(Request::Run(task)) => run(store, alloc, host, task),
        Ok(Request::Begin(task)) => begin(store, host, task),
        Ok(Request::Drop(task)) => drop_run(store, host, task),
        Ok(Request::Show(channel)) => show(store, alloc, host, channel),
        Ok(_) => refused(store, host, Refusal::NotBuilt),
        Err(refusal) => refused(store, host, refusal),
    }
}
