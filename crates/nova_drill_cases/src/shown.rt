//! Commands of a drill as lines.
use nova_delta::Delta;
use nova_drill::DrillStep;
use nova_script::Command;
use nova_value::{Entry, Value};
use std::alloc::{AllocError, Global};

/// Adds a line: a mark, and then values parted by tabs.
fn add_values(
    alloc: Global,
    out: &mut Vec<u8>,
    mark: u8,
    values: &[Value],
) -> Result<(), AllocError> {
    for (at, value) in values.iter().enumerate() {
        out.push(if at > 0 { b'\t' } else { mark })?;
        match value {
            Value::Long(n) => {
                let text = format!(in alloc; "{n}")?;
                out.extend_from_slice(text.as_str().as_bytes())?;
            }
            Value::Text(text) => out.extend_from_slice(text.bytes())?,
        }
    }
    out.push(b'\n')?;
    Ok(())
}

/// Adds a line for each entry, in the order of their keys.
fn add_delta(alloc: Global, out: &mut Vec<u8>, delta: &Delta) -> Result<(), AllocError> {
    for entry in delta.entries() {
        match entry {
            Entry::Put(row) => add_values(alloc, out, b'+', row.values())?,
            Entry::Removal(key) => add_values(alloc, out, b'-', key.values())?,
        }
    }
    Ok(())
}

/// A command that a drill may give.
fn line_of(alloc: Global, command: &Command) -> Result<String, AllocError> {
    match command {
        Command::Tick(moment) => format!(in alloc; "tick {moment}\n"),
        Command::Work => String::from_str(alloc, "work\n"),
        Command::Compact(name) => format!(in alloc; "compact {}\n", name.text()),
        Command::Collect => String::from_str(alloc, "collect\n"),
        _ => String::from_str(alloc, "another command\n"),
    }
}

/// Adds the lines of a command, or `end` where there is none.
pub fn add_step(
    alloc: Global,
    out: &mut Vec<u8>,
    step: Option<&DrillStep>,
) -> Result<(), AllocError> {
    match step {
        Some(DrillStep::LoadRows(channel, delta)) => {
            let text = format!(in alloc; "load {channel}\n")?;
            out.extend_from_slice(text.as_str().as_bytes())?;
            add_delta(alloc, out, delta)
        }
        Some(DrillStep::Do(command)) => {
            let text = line_of(alloc, command)?;
            out.extend_from_slice(text.as_str().as_bytes())
        }
        None => out.extend_from_slice(b"end\n"),
    }
}
