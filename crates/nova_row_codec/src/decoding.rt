//! Entries from bytes.
ghost use Rattle.std.specs.Prelude.{◌≡◌, ◌≢◌, ◌≤◌, ◌<◌, length, drop, IfOk, IfErr, true};
ghost use Rattle.nova_value.specs.Text.{is_clean};
ghost use Rattle.nova_value.specs.Signs.{kinds_for};
ghost use Rattle.nova_row_codec.specs.Faults.{EntryFails};
ghost use Rattle.nova_row_codec.specs.Written.{StandsAt};
ghost use Rattle.nova_row_codec.specs.Reading.{Gives, entry_at, long_at, text_at, text_of, value_at, values_at};
ghost use Rattle.nova_row_codec.specs.declared.fault.CodecFault.TheVariants.{NoMemory};

use crate::fault::CodecFault;
use nova_value::{Entry, Key, Kind, Row, Schema, Sign, Str, Value, field_count, field_kind};
use std::alloc::Global;
use std::str;

#[tactic(auto, unfolding(crate::specs::Reading::long_at))]
fn long_from(bytes: &[u8]) -> Result<(Value, &[u8]), CodecFault>
    ensures { Gives (λ a. (a.0, a.1.now)) result (long_at bytes.now) }
{
    if bytes.len() < 8 {
        return Err(CodecFault::Short);
    }
    let (prefix, rest) = bytes.split_at(8);
    let number = i64::from_be_bytes([
        prefix[0], prefix[1], prefix[2], prefix[3], prefix[4], prefix[5], prefix[6], prefix[7],
    ]);
    Ok((Value::Long(number), rest))
}

/// No tab and no newline is among the bytes.
fn is_clean_text(text: &[u8]) -> bool
    ensures { result ≡ is_clean text.now }
{
    for byte in text {
        if *byte == b'\t' || *byte == b'\n' {
            return false;
        }
    }
    true
}

#[tactic(auto, unfolding(crate::specs::Reading::text_of))]
fn text_from(alloc: Global, text: &[u8]) -> Result<Value, CodecFault>
    requires { length text.now ≤ 65535 }
    ensures { Gives (λ v. v) result (text_of text.now) }
{
    match str::from_utf8(text) {
        Ok(valid) => {
            if !is_clean_text(text) {
                return Err(CodecFault::BadText);
            }
            Ok(Value::Text(Str::new(alloc, valid)?))
        }
        Err(_) => Err(CodecFault::BadText),
    }
}

#[tactic(auto, unfolding(crate::specs::Reading::text_at))]
fn text_with_length(alloc: Global, bytes: &[u8]) -> Result<(Value, &[u8]), CodecFault>
    ensures { Gives (λ a. (a.0, a.1.now)) result (text_at bytes.now) }
{
    if bytes.len() < 2 {
        return Err(CodecFault::Short);
    }
    let (prefix, rest) = bytes.split_at(2);
    let length = u16::from_be_bytes([prefix[0], prefix[1]]) as usize;
    if rest.len() < length {
        return Err(CodecFault::Short);
    }
    let (text, rest) = rest.split_at(length);
    let value = text_from(alloc, text)?;
    Ok((value, rest))
}

/// The value of this kind that the bytes begin with, and the bytes after it.
pub fn value_from(alloc: Global, kind: Kind, bytes: &[u8]) -> Result<(Value, &[u8]), CodecFault>
    ensures { Gives (λ a. (a.0, a.1.now)) result (value_at kind bytes.now) }
{
    match kind {
        Kind::Long => long_from(bytes),
        Kind::Text => text_with_length(alloc, bytes),
    }
}

/// A value of each kind.
fn values_from<'a>(
    alloc: Global,
    bytes: &'a [u8],
    schema: &Schema,
    sign: Sign,
) -> Result<(Vec<Value>, &'a [u8]), CodecFault>
    ensures { Gives (λ a. (a.0.items, a.1.now)) result (values_at (kinds_for schema.now sign) bytes.now) }
{
    let count = field_count(schema, sign);
    let mut values = Vec::with_capacity(alloc, count)?;
    let mut rest = bytes;
    for i in 0..count {
        let (value, after) = value_from(alloc, field_kind(schema, sign, i), rest)?;
        values.push(value)?;
        rest = after;
    }
    Ok((values, rest))
}

/// The values of these kinds that the bytes begin with, and the bytes after them.
pub fn values_of<'a>(
    alloc: Global,
    kinds: &[Kind],
    bytes: &'a [u8],
) -> Result<(Vec<Value>, &'a [u8]), CodecFault>
    ensures { Gives (λ a. (a.0.items, a.1.now)) result (values_at kinds.now bytes.now) }
{
    let mut values = Vec::with_capacity(alloc, kinds.len())?;
    let mut rest = bytes;
    for i in 0..kinds.len() {
        let (value, after) = value_from(alloc, kinds[i], rest)?;
        values.push(value)?;
        rest = after;
    }
    Ok((values, rest))
}

/// The entry that the bytes begin with, and the bytes after it.
#[tactic(auto, unfolding(crate::specs::Reading::entry_at))]
pub fn entry_from<'a>(
    alloc: Global,
    bytes: &'a [u8],
    schema: &Schema,
) -> Result<(Entry, &'a [u8]), CodecFault>
    ensures { Gives (λ a. (a.0, a.1.now)) result (entry_at schema.now bytes.now) }
{
    match bytes {
        [] => Err(CodecFault::Short),
        [1, values @ ..] => {
            let (row, rest) = values_from(alloc, values, schema, Sign::Put)?;
            Ok((Entry::Put(Row::new(row)), rest))
        }
        [0, values @ ..] => {
            let (key, rest) = values_from(alloc, values, schema, Sign::Removal)?;
            Ok((Entry::Removal(Key::new(key)), rest))
        }
        _ => Err(CodecFault::BadTag),
    }
}

/// The entry that stands at a place, and the place after it. At the end of the bytes and past it
/// they are `Short`.
pub fn decode_entry(
    alloc: Global,
    bytes: &[u8],
    at: usize,
    schema: &Schema,
) -> Result<(Entry, usize), CodecFault>
    ensures found { IfOk result (StandsAt schema.now bytes.now at) }
    ensures refused { IfErr result (λ fault. fault ≢ NoMemory → EntryFails schema.now (drop at bytes.now) fault) }
{
    if at >= bytes.len() {
        return Err(CodecFault::Short);
    }
    let (_, after) = bytes.split_at(at);
    let (entry, rest) = entry_from(alloc, after, schema)?;
    Ok((entry, bytes.len() - rest.len()))
}
