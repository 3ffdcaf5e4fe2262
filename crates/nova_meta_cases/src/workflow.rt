//! The workflow of the cases.
ghost use Rattle.std.specs.Prelude.{◌≡◌, IfOk, is_some};
ghost use Rattle.nova_meta.specs.Wired.{IsWiring};

use nova_meta::{Edge, Wire, Wiring};
use sqlite_items::Items;
use std::alloc::{AllocError, Global};

fn edge(channel: u32, new: bool) -> Edge
    ensures { result ≡ record { channel = channel; new = new } }
{
    Edge { channel, new }
}

fn wire(
    alloc: Global,
    inputs: &[Edge],
    output: u32,
    based: bool,
    after: Option<u32>,
) -> Result<Wire, AllocError>
    ensures { IfOk result (λ wire. wire ≡ record { inputs = inputs.now; output = output; based = based; after = after; stateful = is_some after }) }
{
    Ok(Wire {
        inputs: Items::from_slice(alloc, inputs)?,
        output,
        based,
        after,
        stateful: after.is_some(),
    })
}

/// Two input channels; task 0 reads them into channel 2, the first as new; task 1 reads that as new
/// into channel 3 after task 0, and keeps state; task 2 reads that whole and writes channel 4 anew.
#[tactic(auto, using(nova_meta::proofs::Example::three_are_wired))]
pub fn three_tasks(alloc: Global) -> Result<Wiring, AllocError>
    ensures { IfOk result IsWiring }
{
    let first = [edge(0, true), edge(1, false)];
    let tasks = vec![in alloc;
        wire(alloc, &first, 2, false, None)?,
        wire(alloc, &[edge(2, true)], 3, false, Some(0))?,
        wire(alloc, &[edge(3, false)], 4, true, None)?,
    ]?;
    Ok(Wiring {
        writers: Items::from_vec(vec![in alloc; None, None, Some(0), Some(1), Some(2)]?),
        tasks: Items::from_vec(tasks),
    })
}
