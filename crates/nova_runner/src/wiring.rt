//! What a catalog knows of a workflow.
ghost use Rattle.std.specs.Prelude.{◌≡◌, map, IfOk};
ghost use Rattle.nova_workflow.specs.declared.flow.Channel.{Channel as Seen};
ghost use Rattle.nova_machine.specs.Workflow as machine;
ghost use Rattle.nova_meta.specs.Wired.{IsWiring};
ghost use Rattle.nova_runner.specs.Texts.{task_plan};
ghost use Rattle.nova_runner.specs.Workflow as spec;

use crate::workflow::{Workflow, keeps_state};
use nova_admit::{Admitted, Pattern};
use nova_meta::{Edge, Wire, Wiring};
use nova_workflow::{Channel, Input, Mode, Task, Trigger};
use sqlite_items::Items;
use std::alloc::{AllocError, Global};

/// The writer of each channel.
fn writers(alloc: Global, channels: &[Channel]) -> Result<Items<Option<u32>>, AllocError>
    ensures { IfOk result (λ writers. writers ≡ map (λ (c : Seen). c.writer) channels.now) }
{
    let mut writers = Vec::new(alloc);
    for channel in channels {
        writers.push(channel.writer)?;
    }
    Ok(Items::from_vec(writers))
}

/// Whether an input is read as what is new.
fn is_new(mode: Mode) -> bool
    ensures { result ≡ machine.is_new mode }
{
    match mode {
        Mode::New => true,
        Mode::All => false,
    }
}

/// The inputs of a task.
fn edges(alloc: Global, inputs: &[Input]) -> Result<Items<Edge>, AllocError>
    ensures { IfOk result (λ edges. edges ≡ map spec.edge_of inputs.now) }
{
    let mut edges = Vec::new(alloc);
    for input in inputs {
        edges.push(Edge {
            channel: input.channel,
            new: is_new(input.mode),
        })?;
    }
    Ok(Items::from_vec(edges))
}

/// The task that a cascade names.
fn named_by(trigger: Trigger) -> Option<u32>
    ensures { result ≡ spec.named_by trigger }
{
    match trigger {
        Trigger::OnData => None,
        Trigger::Every(_) => None,
        Trigger::After(task) => Some(task),
    }
}

/// The channels of a task.
fn wire(alloc: Global, task: &Task, pattern: &Pattern) -> Result<Wire, AllocError>
    ensures { IfOk result (λ wire. wire ≡ spec.wire_of task.now (task_plan pattern.now)) }
{
    Ok(Wire {
        inputs: edges(alloc, task.inputs.as_slice())?,
        output: task.output,
        based: task.based,
        after: named_by(task.trigger),
        stateful: keeps_state(pattern),
    })
}

/// The channels of each task.
fn wires(alloc: Global, admitted: &Admitted) -> Result<Items<Wire>, AllocError>
    ensures { IfOk result (λ wires. wires ≡ spec.wires_of admitted.now.flow.tasks (map task_plan admitted.now.patterns)) }
{
    let mut wires = Vec::new(alloc);
    let mut number = 0;
    for task in admitted.flow().tasks.as_slice() {
        wires.push(wire(alloc, task, admitted.pattern(number))?)?;
        number += 1;
    }
    Ok(Items::from_vec(wires))
}

/// What a catalog knows of a workflow.
pub fn wiring(alloc: Global, flow: &Workflow) -> Result<Wiring, AllocError>
    ensures wiring { IfOk result (λ wiring. wiring ≡ spec.wiring_of flow.now) }
    ensures right { IfOk result IsWiring }
{
    let admitted = flow.admitted();
    Ok(Wiring {
        writers: writers(alloc, admitted.flow().channels.as_slice())?,
        tasks: wires(alloc, admitted)?,
    })
}
