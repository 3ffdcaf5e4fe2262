//! The trigger's rule, on a catalog and the executions in flight.
ghost use Rattle.std.specs.Prelude.{◌≡◌, ◌<◌, length, map, slice_index_or};
ghost use Rattle.std.specs.List.{All};
ghost use Rattle.std.specs.Option.{option_copied};
ghost use Rattle.nova_workflow.specs.declared.flow.Input.{Input};
ghost use Rattle.nova_machine.specs.Due.{is_above, is_ready};
ghost use Rattle.nova_trigger.specs.Due.{IsFirstDue, IsOneWorkflow, NamesTask, capture_in, captured_of, is_due, last_or, newest_in};

use crate::flight::InFlight;
use crate::tasks::task_of;
use nova_meta::{Captured, Catalog};
use nova_workflow::{Flow, Input, Task, Trigger};

/// The version of an input that a run captured, 0 where there was none.
fn captured_version(last: Option<&Captured>, input: usize) -> u64
    ensures { result ≡ slice_index_or (last_or (option_copied last.entry)).versions input 0 }
{
    match last {
        Some(run) => match run.versions.as_slice().get(input) {
            Some(version) => *version,
            None => 0,
        },
        None => 0,
    }
}

/// Whether an input has a version above the one that was captured.
fn has_new_version(inputs: &[Input], catalog: &Catalog, last: Option<&Captured>) -> bool
    requires { All (λ (i : Input). i.channel < length catalog.now.channels) inputs.now }
    ensures { result ≡ is_above 0 (last_or (option_copied last.entry)).versions (map (newest_in catalog.now) inputs.now) }
{
    for at in 0..inputs.len() {
        if catalog.version(inputs[at].channel) > captured_version(last, at) {
            return true;
        }
    }
    false
}

/// The moment at which a run began, 0 where there was none.
fn moment_of(last: Option<&Captured>) -> u64
    ensures { result ≡ (last_or (option_copied last.entry)).moment }
{
    match last {
        Some(run) => run.moment,
        None => 0,
    }
}

/// The run count that a run saw, 0 where there was none.
fn seen_by(last: Option<&Captured>) -> u64
    ensures { result ≡ (last_or (option_copied last.entry)).seen }
{
    match last {
        Some(run) => run.seen,
        None => 0,
    }
}

/// Whether the trigger of a task is ready, whose last run is this one.
fn is_trigger_ready(task: &Task, catalog: &Catalog, last: Option<&Captured>) -> bool
    requires channels { All (λ (i : Input). i.channel < length catalog.now.channels) task.now.inputs }
    requires named { NamesTask (length catalog.now.tasks) task.now.trigger }
    ensures { result ≡ is_ready task.now.trigger (last_or (option_copied last.entry)) (capture_in (captured_of catalog.now task.now)) }
{
    match task.trigger {
        Trigger::OnData => has_new_version(task.inputs.as_slice(), catalog, last),
        Trigger::Every(period) => period <= catalog.moment().saturating_sub(moment_of(last)),
        Trigger::After(other) => seen_by(last) < catalog.runs(other),
    }
}

/// Whether a task is due: it isn't in flight, and its trigger is ready. No memory is taken.
pub fn due(flow: &Flow, catalog: &Catalog, flight: &InFlight, task: u32) -> bool
    requires one { IsOneWorkflow flow.now catalog.now flight.now }
    requires in_range { task < length flow.now.tasks }
    ensures { result ≡ is_due flow.now catalog.now flight.now task }
{
    if flight.is_in_flight(task) {
        return false;
    }
    is_trigger_ready(
        task_of(flow, catalog, flight, task),
        catalog,
        catalog.last(task),
    )
}

/// The least task that is due. No memory is taken.
pub fn first_due(flow: &Flow, catalog: &Catalog, flight: &InFlight) -> Option<u32>
    requires one { IsOneWorkflow flow.now catalog.now flight.now }
    ensures { IsFirstDue flow.now catalog.now flight.now result }
{
    let count = flow.tasks.len() as u32;
    for task in 0..count {
        if due(flow, catalog, flight, task) {
            return Some(task);
        }
    }
    None
}
