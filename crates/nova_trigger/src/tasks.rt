//! A task of a workflow, by its number.
ghost use Rattle.std.specs.Prelude.{◌≡◌, ◌<◌, ◌≤◌, length};
ghost use Rattle.std.specs.List.{All};
ghost use Rattle.nova_workflow.specs.declared.flow.Input.{Input};
ghost use Rattle.nova_trigger.specs.Due.{IsOneWorkflow, NamesTask, task_at};

use crate::flight::InFlight;
use nova_meta::Catalog;
use nova_workflow::{Flow, Task};

/// A task.
fn nth_task(flow: &Flow, task: u32) -> &Task
    requires { task < length flow.now.tasks }
    ensures { result.now ≡ task_at flow.now task }
{
    let tasks = flow.tasks.as_slice();
    &tasks[task as usize]
}

/// A task, whose channels and whose trigger the catalog knows.
pub fn task_of<'a>(flow: &'a Flow, catalog: &Catalog, flight: &InFlight, task: u32) -> &'a Task
    requires one { IsOneWorkflow flow.now catalog.now flight.now }
    requires in_range { task < length flow.now.tasks }
    ensures task { result.now ≡ task_at flow.now task }
    ensures few { length result.now.inputs ≤ 16 }
    ensures channels { All (λ (i : Input). i.channel < length catalog.now.channels) result.now.inputs }
    ensures named { NamesTask (length catalog.now.tasks) result.now.trigger }
{
    nth_task(flow, task)
}
