//! Plans the script on standard input and prints what is found: the number of nodes and the key,
//! or the fault. The input `raw` has the columns id, url and ms, and so has the output `out`.
#![tactic(auto)]

use nova_admit::{ScriptFault, plan_of_text};
use nova_pig_plan::{Channels, Plan};
use nova_value::{Column, Kind, Name, Schema};
use sqlite_items::Items;
use std::alloc::{AllocError, Global};
use std::io;
use std::io::Print;

/// The columns of raw.
fn raw(alloc: Global) -> Result<Schema, AllocError> {
    Schema::new(
        alloc,
        &[
            Column {
                name: Name::new("id"),
                kind: Kind::Long,
            },
            Column {
                name: Name::new("url"),
                kind: Kind::Text,
            },
            Column {
                name: Name::new("ms"),
                kind: Kind::Long,
            },
        ],
        &[0],
    )
}

/// raw, and an output of its columns.
fn channels(alloc: Global) -> Result<Channels, AllocError> {
    let mut inputs = Items::new(alloc);
    inputs.push((Name::new("raw"), raw(alloc)?))?;
    Ok(Channels {
        inputs,
        output: (Name::new("out"), raw(alloc)?),
    })
}

/// The number of nodes of a plan, and of the columns of its key.
fn print_plan(rt: &impl Print, plan: &Plan) -> io::Result<()> {
    let nodes = plan.nodes().len();
    match plan.key() {
        Some(key) => {
            let columns = key.len();
            println!(rt; "plan of {nodes} nodes, key of {columns} columns")
        }
        None => println!(rt; "plan of {nodes} nodes, no key"),
    }
}

/// The fault of a script.
fn print_fault(rt: &impl Print, fault: ScriptFault) -> io::Result<()> {
    match fault {
        ScriptFault::Parse(fault) => println!(rt; "{fault}"),
        ScriptFault::Plan(fault) => println!(rt; "{fault}"),
    }
}

fn main(rt: HostRuntime) -> io::Result<()> {
    let text = io::read_to_string(rt.alloc(), rt.reader())?;
    let channels = channels(rt.alloc())?;
    match plan_of_text(rt.alloc(), text.as_str(), &channels) {
        Ok(plan) => print_plan(&rt, &plan),
        Err(fault) => print_fault(&rt, fault),
    }
}
