//! Rows of text, and keys in their order.
ghost use Rattle.std.specs.Prelude.{◌≡◌};
ghost use Rattle.nova_value.specs.Text.{has_newline, is_clean};

use nova_value::{
    Column, Entry, Key, Kind, Name, Schema, Str, Value, compare_keys, copy_entry, copy_key,
    copy_row, key_of, key_of_entry, row_from_text,
};
use std::alloc::{AllocError, Global};
use std::cmp::Ordering;

/// Two long columns with a text column between; the key is the text and then the first number.
fn schema(alloc: Global) -> Result<Schema, AllocError> {
    Schema::new(
        alloc,
        &[
            Column {
                name: Name::new("number"),
                kind: Kind::Long,
            },
            Column {
                name: Name::new("text"),
                kind: Kind::Text,
            },
            Column {
                name: Name::new("more"),
                kind: Kind::Long,
            },
        ],
        &[1, 0],
    )
}

fn holds_newline(line: &[u8]) -> bool
    ensures { result ≡ has_newline line.now }
{
    line.iter().any(|b| *b == b'\n')
}

/// Adds a text and then values, parted by tabs, as a line.
fn add_values(
    alloc: Global,
    out: &mut Vec<u8>,
    front: &[u8],
    values: &[Value],
) -> Result<(), AllocError> {
    out.extend_from_slice(front)?;
    for (at, value) in values.iter().enumerate() {
        if at > 0 {
            out.extend_from_slice(b"\t")?;
        }
        match value {
            Value::Long(n) => {
                let text = format!(in alloc; "{n}")?;
                out.extend_from_slice(text.as_str().as_bytes())?;
            }
            Value::Text(text) => out.extend_from_slice(text.bytes())?,
        }
    }
    out.extend_from_slice(b"\n")
}

/// The row or removal that a line spells, written anew, and its key; or the line's fault.
pub fn row(alloc: Global, input: &[u8]) -> Result<Vec<u8>, AllocError> {
    let line = input.strip_suffix(b"\n").unwrap_or(input);
    if holds_newline(line) {
        return b"two lines\n".to_vec(alloc);
    }
    let schema = schema(alloc)?.copy(alloc)?;
    let entry = match row_from_text(alloc, line, &schema) {
        Ok(entry) => entry,
        Err(fault) => {
            let text = format!(in alloc; "{fault}\n")?;
            return text.as_str().as_bytes().to_vec(alloc);
        }
    };
    let mut out = Vec::new(alloc);
    let key = key_of_entry(alloc, &entry, &schema)?;
    match copy_entry(alloc, &entry)? {
        Entry::Put(row) => {
            let own = key_of(alloc, &row, &schema)?;
            if compare_keys(&own, &key) != Ordering::Equal {
                out.extend_from_slice(b"another key\n")?;
            }
            add_values(alloc, &mut out, b"+", &copy_row(alloc, &row)?.into_values())?;
        }
        Entry::Removal(key) => add_values(alloc, &mut out, b"-", key.values())?,
    }
    add_values(
        alloc,
        &mut out,
        b"key ",
        &copy_key(alloc, &key)?.into_values(),
    )?;
    Ok(out)
}

fn is_clean_text(text: &str) -> bool
    ensures { result ≡ is_clean text.now }
{
    text.as_bytes()
        .iter()
        .all(|b| !(*b == b'\t' || *b == b'\n'))
}

/// The value of a field: a number where it is one, and otherwise a text, if it is short and clean.
fn value_of(alloc: Global, field: &str) -> Result<Value, AllocError> {
    if let Ok(n) = field.parse::<i64>() {
        return Ok(Value::Long(n));
    }
    let text = if field.len() <= 65535 && is_clean_text(field) {
        Str::new(alloc, field)?
    } else {
        Str::new(alloc, "")?
    };
    Ok(Value::Text(text.copy(alloc)?))
}

/// The key whose values stand in a line, parted by tabs.
fn key_of_line(alloc: Global, line: &str) -> Result<Key, AllocError> {
    let mut values = Vec::new(alloc);
    for field in line.split('\t') {
        values.push(value_of(alloc, field)?)?;
    }
    Ok(Key::new(values))
}

/// Whether the keys of the lines are in order, each before all that follow.
pub fn keys(alloc: Global, input: &[u8]) -> Result<Vec<u8>, AllocError> {
    let mut keys = Vec::new(alloc);
    for line in str::from_utf8(input).unwrap_or("").lines() {
        keys.push(key_of_line(alloc, line)?)?;
    }
    let mut out = Vec::new(alloc);
    for (i, a) in keys.iter().enumerate() {
        for (j, b) in keys.iter().enumerate() {
            if compare_keys(a, b) != i.cmp(&j) || (a == b) != (i == j) {
                let line = format!(in alloc; "{i} and {j}\n")?;
                out.extend_from_slice(line.as_str().as_bytes())?;
            }
        }
    }
    Ok(out)
}
