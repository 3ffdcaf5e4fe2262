//! The wiring of the cases' workflow.
ghost use Rattle.std.specs.Prelude.{◌≡◌, ◌<◌, IfOk, IfSome, false};
ghost use Rattle.nova_meta.specs.Wired.{IsWiring};

use nova_meta::{Edge, Wire, Wiring};
use nova_workflow::{Task, Trigger};
use sqlite_items::Items;
use std::alloc::{AllocError, Global};

fn edge(channel: u32, new: bool) -> Edge
    ensures { result ≡ record { channel = channel; new = new } }
{
    Edge { channel, new }
}

fn wire(
    alloc: Global,
    inputs: &[Edge],
    output: u32,
    based: bool,
    after: Option<u32>,
) -> Result<Wire, AllocError>
    ensures { IfOk result (λ wire. wire ≡ record { inputs = inputs.now; output = output; based = based; after = after; stateful = false }) }
{
    Ok(Wire {
        inputs: Items::from_slice(alloc, inputs)?,
        output,
        based,
        after,
        stateful: false,
    })
}

/// The earlier task that a task's cascade names, if it has one.
fn earlier_task(tasks: &[Task], task: u32) -> Option<u32>
    ensures { IfSome result (λ other. other < task) }
{
    match tasks.get(task as usize)?.trigger {
        Trigger::After(other) if other < task => Some(other),
        _ => None,
    }
}

/// Task 0 reads the input channels 0 and 1 into channel 2, the first as new; task 1 reads that as
/// new into channel 3; task 2 reads that whole and writes channel 4 anew. Each runs after the
/// earlier task that its cascade names.
#[tactic(auto, using(crate::proofs::Wirings::three_are_wired))]
pub fn wiring_of(alloc: Global, tasks: &[Task]) -> Result<Wiring, AllocError>
    ensures { IfOk result IsWiring }
{
    let first = [edge(0, true), edge(1, false)];
    let tasks = vec![in alloc;
        wire(alloc, &first, 2, false, None)?,
        wire(alloc, &[edge(2, true)], 3, false, earlier_task(tasks, 1))?,
        wire(alloc, &[edge(3, false)], 4, true, earlier_task(tasks, 2))?,
    ]?;
    Ok(Wiring {
        writers: Items::from_vec(vec![in alloc; None, None, Some(0), Some(1), Some(2)]?),
        tasks: Items::from_vec(tasks),
    })
}
