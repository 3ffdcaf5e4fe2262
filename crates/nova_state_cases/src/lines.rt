//! Deltas of lines of text, and deltas as lines.
ghost use Rattle.std.specs.Prelude.{◌≡◌, OnOk};
ghost use Rattle.nova_value.specs.Text.{has_newline};

use nova_delta::Delta;
use nova_value::{Entry, Schema, Value, row_from_text};
use std::alloc::{AllocError, Global};

fn holds_newline(line: &[u8]) -> bool
    ensures { result ≡ has_newline line.now }
{
    line.iter().any(|b| *b == b'\n')
}

/// Sets the entry of a line, and says whether it is one.
fn set(alloc: Global, delta: &mut Delta, line: &[u8]) -> Result<bool, AllocError>
    ensures { OnOk result (delta.new.schema ≡ delta.old.schema) }
{
    if holds_newline(line) {
        return Ok(false);
    }
    match row_from_text(alloc, line, delta.schema()) {
        Ok(entry) => {
            delta.set(entry)?;
            Ok(true)
        }
        Err(_) => Ok(false),
    }
}

/// The delta of the lines, where each is an entry.
pub fn delta(alloc: Global, schema: &Schema, lines: &str) -> Result<Option<Delta>, AllocError> {
    let mut delta = Delta::empty(alloc, schema.copy(alloc)?);
    for line in lines.lines() {
        if !set(alloc, &mut delta, line.as_bytes())? {
            return Ok(None);
        }
    }
    Ok(Some(delta))
}

/// Adds a line: a mark, and then values parted by tabs.
fn add_line(
    alloc: Global,
    out: &mut Vec<u8>,
    mark: u8,
    values: &[Value],
) -> Result<(), AllocError> {
    for (at, value) in values.iter().enumerate() {
        out.push(if at > 0 { b'\t' } else { mark })?;
        match value {
            Value::Long(n) => {
                let text = format!(in alloc; "{n}")?;
                out.extend_from_slice(text.as_str().as_bytes())?;
            }
            Value::Text(text) => out.extend_from_slice(text.bytes())?,
        }
    }
    out.push(b'\n')?;
    Ok(())
}

/// The entries of a delta, each as a line, in the order of their keys.
pub fn shown(alloc: Global, delta: &Delta) -> Result<Vec<u8>, AllocError> {
    let mut out = Vec::new(alloc);
    for entry in delta.entries() {
        match entry {
            Entry::Put(row) => add_line(alloc, &mut out, b'+', row.values())?,
            Entry::Removal(key) => add_line(alloc, &mut out, b'-', key.values())?,
        }
    }
    Ok(out)
}
