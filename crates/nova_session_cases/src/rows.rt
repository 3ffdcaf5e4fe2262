//! Rows on their way to a host in memory.
ghost use Rattle.std.specs.Prelude.{◌≡◌};
ghost use Rattle.nova_value.specs.Text.{has_newline};

use nova_mem::MemHost;
use nova_outside::Failed;
use nova_script::{ReplyBuffer, row_text};
use nova_value::{Column, Entry, Kind, Name, Row, Schema, row_from_text};
use std::alloc::{AllocError, Global};

/// A long column, which is the key, and a text column.
fn schema(alloc: Global) -> Result<Schema, AllocError> {
    Schema::new(
        alloc,
        &[
            Column {
                name: Name::new("number"),
                kind: Kind::Long,
            },
            Column {
                name: Name::new("text"),
                kind: Kind::Text,
            },
        ],
        &[0],
    )
}

fn holds_newline(line: &[u8]) -> bool
    ensures { result ≡ has_newline line.now }
{
    line.iter().any(|b| *b == b'\n')
}

/// The row of a row line.
fn row_of(alloc: Global, line: &[u8]) -> Result<Option<Row>, AllocError> {
    if holds_newline(line) {
        return Ok(None);
    }
    let schema = schema(alloc)?;
    match row_from_text(alloc, line, &schema) {
        Ok(Entry::Put(row)) => Ok(Some(row)),
        _ => Ok(None),
    }
}

/// Replies a row so many times, through one buffer.
fn reply_times(host: &mut MemHost, row: &Row, times: u64) -> Result<(), Failed> {
    let mut waiting = ReplyBuffer::new();
    for _ in 0..times {
        waiting.push_row(host, row)?;
    }
    waiting.flush(host)
}

/// The line of a row as `row_text` replies it; and then, replied so many times through a buffer, in
/// how many calls of the host, and how many bytes.
pub fn show(alloc: Global, line: &[u8], times: &str) -> Result<Vec<u8>, AllocError> {
    let Some(row) = row_of(alloc, line)? else {
        return b"no row\n".to_vec(alloc);
    };
    let mut host = MemHost::new(alloc);
    if row_text(&mut host, &row).is_err() {
        return b"failed\n".to_vec(alloc);
    }
    let mut out = host.replies().to_vec(alloc)?;
    let mut host = MemHost::new(alloc);
    if reply_times(&mut host, &row, times.parse::<u64>().unwrap_or(0)).is_err() {
        return b"failed\n".to_vec(alloc);
    }
    let told = format!(in alloc; "{} calls, {} bytes\n", host.calls(), host.replies().len())?;
    out.extend_from_slice(told.as_str().as_bytes())?;
    Ok(out)
}
