//! Tables of lines of text, and rows as lines.
ghost use Rattle.std.specs.Prelude.{◌≡◌, IfOk, OnOk};
ghost use Rattle.nova_value.specs.Text.{has_newline};

use nova_delta::{Delta, Table, merge};
use nova_value::{Row, Schema, Value, row_from_text};
use std::alloc::{AllocError, Global};

fn holds_newline(line: &[u8]) -> bool
    ensures { result ≡ has_newline line.now }
{
    line.iter().any(|b| *b == b'\n')
}

/// Puts the row of a line, and says whether it is one.
fn put(alloc: Global, delta: &mut Delta, line: &[u8]) -> Result<bool, AllocError>
    ensures { OnOk result (delta.new.schema ≡ delta.old.schema) }
{
    if holds_newline(line) {
        return Ok(false);
    }
    match row_from_text(alloc, line, delta.schema()) {
        Ok(entry) => {
            delta.set(entry)?;
            Ok(true)
        }
        Err(_) => Ok(false),
    }
}

/// The table of the lines that put rows; others are passed over.
pub fn table(alloc: Global, schema: &Schema, lines: &str) -> Result<Table, AllocError>
    ensures { IfOk result (λ t. t.schema ≡ schema.now) }
{
    let mut delta = Delta::empty(alloc, schema.copy(alloc)?);
    for line in lines.lines() {
        put(alloc, &mut delta, line.as_bytes())?;
    }
    let table = Table::empty(alloc, schema.copy(alloc)?);
    let merged = merge(alloc, table, &delta)?;
    Ok(merged)
}

/// Adds a row as a line, its values parted by tabs.
pub fn add_row(alloc: Global, out: &mut Vec<u8>, row: &Row) -> Result<(), AllocError> {
    for (at, value) in row.values().iter().enumerate() {
        if at > 0 {
            out.push(b'\t')?;
        }
        match value {
            Value::Long(n) => {
                let text = format!(in alloc; "{n}")?;
                out.extend_from_slice(text.as_str().as_bytes())?;
            }
            Value::Text(text) => out.extend_from_slice(text.bytes())?,
        }
    }
    out.push(b'\n')?;
    Ok(())
}
