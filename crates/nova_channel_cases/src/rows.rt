//! Rows, entries and deltas as lines.
ghost use Rattle.std.specs.Prelude.{◌≡◌, IfOk};
ghost use Rattle.nova_value.specs.Text.{has_newline};
ghost use Rattle.nova_channel_cases.specs.Examples.{two_longs};

use nova_delta::{Delta, Table};
use nova_value::{Column, Entry, Kind, Name, Schema, Value, row_from_text};
use std::alloc::{AllocError, Global};

/// Two numbers; the first is the key.
pub fn schema(alloc: Global) -> Result<Schema, AllocError>
    ensures { IfOk result (λ s. s ≡ two_longs) }
{
    Schema::new(
        alloc,
        &[
            Column {
                name: Name::new("k"),
                kind: Kind::Long,
            },
            Column {
                name: Name::new("v"),
                kind: Kind::Long,
            },
        ],
        &[0],
    )
}

fn holds_newline(line: &[u8]) -> bool
    ensures { result ≡ has_newline line.now }
{
    line.iter().any(|b| *b == b'\n')
}

/// Sets the entry of a line, where it is one, and says whether it is.
fn set_line(alloc: Global, delta: &mut Delta, line: &[u8]) -> Result<bool, AllocError>
    ensures { delta.new.schema ≡ delta.old.schema }
{
    if holds_newline(line) {
        return Ok(false);
    }
    let Ok(entry) = row_from_text(alloc, line, delta.schema()) else {
        return Ok(false);
    };
    delta.set(entry)?;
    Ok(true)
}

/// The delta of lines, each an entry, and how many of them were none.
pub fn delta_of(alloc: Global, lines: &[u8]) -> Result<Delta, AllocError>
    ensures { IfOk result (λ d. d.schema ≡ two_longs) }
{
    let mut delta = Delta::empty(alloc, schema(alloc)?);
    for line in lines.split(|b| *b == b'\n') {
        let _ = set_line(alloc, &mut delta, line)?;
    }
    Ok(delta)
}

/// Adds values, parted by tabs, as a line that begins with a sign.
pub fn add_values(
    alloc: Global,
    out: &mut Vec<u8>,
    sign: u8,
    values: &[Value],
) -> Result<(), AllocError> {
    out.push(sign)?;
    for (at, value) in values.iter().enumerate() {
        if at > 0 {
            out.push(b'\t')?;
        }
        if let Value::Long(number) = value {
            let text = format!(in alloc; "{number}")?;
            out.extend_from_slice(text.as_str().as_bytes())?;
        }
    }
    out.extend_from_slice(b"\n")
}

/// A line for each entry of a delta.
pub fn lines_of_delta(alloc: Global, delta: &Delta) -> Result<Vec<u8>, AllocError> {
    let mut out = Vec::new(alloc);
    for entry in delta.entries() {
        match entry {
            Entry::Put(row) => add_values(alloc, &mut out, b'+', row.values())?,
            Entry::Removal(key) => add_values(alloc, &mut out, b'-', key.values())?,
        }
    }
    Ok(out)
}

/// A line for each row of a table.
pub fn lines_of_table(alloc: Global, table: &Table) -> Result<Vec<u8>, AllocError> {
    let mut out = Vec::new(alloc);
    for row in table.rows() {
        add_values(alloc, &mut out, b'+', row.values())?;
    }
    Ok(out)
}
