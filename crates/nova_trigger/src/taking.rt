//! What an execution captures.
ghost use Rattle.std.specs.Prelude.{◌≡◌, ◌<◌, ◌≤◌, length, map};
ghost use Rattle.std.specs.List.{All};
ghost use Rattle.nova_workflow.specs.declared.flow.Input.{Input};
ghost use Rattle.nova_trigger.specs.Due.{IsOneWorkflow, NamesTask, captured_of, newest_in, runs_named, task_at};

use crate::flight::InFlight;
use crate::tasks::task_of;
use arrayvec::ArrayVec;
use nova_meta::{Captured, Catalog, Versions};
use nova_workflow::{Flow, Input, Task, Trigger};

/// The newest versions of inputs.
fn newest_versions(inputs: &[Input], catalog: &Catalog) -> Versions
    requires few { length inputs.now ≤ 16 }
    requires channels { All (λ (i : Input). i.channel < length catalog.now.channels) inputs.now }
    ensures { result ≡ map (newest_in catalog.now) inputs.now }
{
    let mut versions: ArrayVec<u64, 16> = ArrayVec::new();
    for input in inputs {
        versions.push(catalog.version(input.channel));
    }
    Versions::copied(versions.as_slice())
}

/// The run count of the task that a trigger names, or 0.
fn named_runs(trigger: Trigger, catalog: &Catalog) -> u64
    requires { NamesTask (length catalog.now.tasks) trigger }
    ensures { result ≡ runs_named catalog.now trigger }
{
    match trigger {
        Trigger::OnData => 0,
        Trigger::Every(_) => 0,
        Trigger::After(task) => catalog.runs(task),
    }
}

/// What a task captures whose execution begins now.
fn captured_by(task: &Task, catalog: &Catalog) -> Captured
    requires few { length task.now.inputs ≤ 16 }
    requires channels { All (λ (i : Input). i.channel < length catalog.now.channels) task.now.inputs }
    requires named { NamesTask (length catalog.now.tasks) task.now.trigger }
    ensures { result ≡ captured_of catalog.now task.now }
{
    Captured {
        versions: newest_versions(task.inputs.as_slice(), catalog),
        moment: catalog.moment(),
        seen: named_runs(task.trigger, catalog),
    }
}

/// What an execution of a task captures that begins now. No memory is taken.
pub fn capture(flow: &Flow, catalog: &Catalog, flight: &InFlight, task: u32) -> Captured
    requires one { IsOneWorkflow flow.now catalog.now flight.now }
    requires in_range { task < length flow.now.tasks }
    ensures { result ≡ captured_of catalog.now (task_at flow.now task) }
{
    captured_by(task_of(flow, catalog, flight, task), catalog)
}
