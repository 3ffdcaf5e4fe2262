//! Workflows and faults as lines of text.
use nova_flow::{FlowFault, read_flow};
use nova_value::{Kind, Name};
use nova_workflow::{Channel, Flow, Mode, Task, Trigger};
use std::alloc::{AllocError, Global};

fn put_trigger(alloc: Global, flow: &Flow, trigger: &Trigger) -> Result<String, AllocError> {
    match trigger {
        Trigger::OnData => format!(in alloc; "data"),
        Trigger::Every(period) => format!(in alloc; "every {period}"),
        Trigger::After(task) => match flow.tasks.get(*task as usize) {
            Some(task) => format!(in alloc; "after {}", task.name.text()),
            None => format!(in alloc; "after nothing"),
        },
    }
}

fn put_channel(alloc: Global, out: &mut String, channel: &Channel) -> Result<(), AllocError> {
    out.push_str(channel.name.text())?;
    for column in channel.schema.columns() {
        out.push_str(" ")?;
        out.push_str(column.name.text())?;
        match column.kind {
            Kind::Long => out.push_str(":L")?,
            Kind::Text => out.push_str(":T")?,
        }
    }
    for place in channel.schema.key() {
        out.push_str(format!(in alloc; " {place}")?.as_str())?;
    }
    match channel.writer {
        Some(task) => out.push_str(format!(in alloc; " by {task}")?.as_str())?,
        None => {}
    }
    if channel.based {
        out.push_str(" anew")?;
    }
    out.push_str("\n")
}

fn put_task(alloc: Global, out: &mut String, flow: &Flow, task: &Task) -> Result<(), AllocError> {
    out.push_str(task.name.text())?;
    for input in task.inputs.as_slice() {
        out.push_str(match input.mode {
            Mode::All => " all",
            Mode::New => " new",
        })?;
        out.push_str(format!(in alloc; " {}", input.channel)?.as_str())?;
    }
    out.push_str(if task.based { " base" } else { " delta" })?;
    out.push_str(format!(in alloc; " {} ", task.output)?.as_str())?;
    out.push_str(put_trigger(alloc, flow, &task.trigger)?.as_str())?;
    out.push_str(" <")?;
    out.push_str(task.script.text())?;
    out.push_str(">\n")
}

fn show_flow(alloc: Global, flow: &Flow) -> Result<String, AllocError> {
    let mut out = String::new(alloc);
    for channel in flow.channels.as_slice() {
        put_channel(alloc, &mut out, channel)?;
    }
    for task in flow.tasks.as_slice() {
        put_task(alloc, &mut out, flow, task)?;
    }
    Ok(out)
}

fn word(alloc: Global, word: &str, name: &Name) -> Result<String, AllocError> {
    format!(in alloc; "{word} {}\n", name.text())
}

fn show_fault(alloc: Global, fault: &FlowFault) -> Result<String, AllocError> {
    match fault {
        FlowFault::Toml => format!(in alloc; "toml\n"),
        FlowFault::UnknownWord { name } => word(alloc, "unknown-word", name),
        FlowFault::Missing { name } => word(alloc, "missing", name),
        FlowFault::BadName { name } => word(alloc, "bad-name", name),
        FlowFault::BadColumn { channel } => word(alloc, "bad-column", channel),
        FlowFault::BadKey { channel } => word(alloc, "bad-key", channel),
        FlowFault::TooMany { name } => word(alloc, "too-many", name),
        FlowFault::NamedLater { task } => word(alloc, "named-later", task),
        FlowFault::TwoWriters { channel } => word(alloc, "two-writers", channel),
        FlowFault::BadTrigger { task } => word(alloc, "bad-trigger", task),
        FlowFault::NoMemory => Err(AllocError),
    }
}

/// The workflow of a text, or its fault, as lines.
pub fn read(alloc: Global, text: &[u8]) -> Result<Vec<u8>, AllocError> {
    let shown = match read_flow(alloc, text) {
        Ok(flow) => show_flow(alloc, &flow)?,
        Err(fault) => show_fault(alloc, &fault)?,
    };
    shown.as_str().as_bytes().to_vec(alloc)
}
