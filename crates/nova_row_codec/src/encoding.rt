//! Entries as bytes.
ghost use Rattle.std.specs.Prelude.{◌≡◌, ◌≤◌, ◌∷◌, ◌++◌, length, take, OnOk, OnErr};
ghost use Rattle.nova_row_codec.specs.Spelling.{two, value_bytes, values_bytes, entry_bytes};

use nova_value::{Entry, Value};
use std::alloc::{AllocError, Global};

/// A text after its length. After a refusal what was there still stands before it.
fn put_text(out: &mut Vec<u8>, text: &[u8]) -> Result<(), AllocError>
    requires { length text.now ≤ 65535 }
    ensures done { OnOk result (out.new.items ≡ out.old.items ++ (two (length text.now) ++ text.now)) }
    ensures kept { OnErr result (take (length out.old.items) out.new.items ≡ out.old.items) }
{
    out.extend_from_slice(&(text.len() as u16).to_be_bytes())?;
    out.extend_from_slice(text)
}

/// Adds the value's bytes. After a refusal what was there still stands before what was added.
#[tactic(auto, unfolding(crate::specs::Spelling::value_bytes))]
pub fn put_value(out: &mut Vec<u8>, value: &Value) -> Result<(), AllocError>
    ensures done { OnOk result (out.new.items ≡ out.old.items ++ value_bytes value.now) }
    ensures kept { OnErr result (take (length out.old.items) out.new.items ≡ out.old.items) }
{
    match value {
        Value::Long(number) => out.extend_from_slice(&number.to_be_bytes()),
        Value::Text(text) => put_text(out, text.bytes()),
    }
}

/// Adds the values' bytes, one value after the other. After a refusal what was there still stands
/// before what was added.
pub fn put_values(out: &mut Vec<u8>, values: &[Value]) -> Result<(), AllocError>
    ensures done { OnOk result (out.new.items ≡ out.old.items ++ values_bytes values.now) }
    ensures kept { OnErr result (take (length out.old.items) out.new.items ≡ out.old.items) }
{
    for value in values {
        put_value(out, value)?;
    }
    Ok(())
}

/// The tag, and then the values.
fn put_tagged(out: &mut Vec<u8>, tag: u8, values: &[Value]) -> Result<(), AllocError>
    ensures done { OnOk result (out.new.items ≡ out.old.items ++ (tag ∷ values_bytes values.now)) }
    ensures kept { OnErr result (take (length out.old.items) out.new.items ≡ out.old.items) }
{
    out.push(tag)?;
    put_values(out, values)
}

#[tactic(auto, unfolding(crate::specs::Spelling::entry_bytes))]
fn put_entry(out: &mut Vec<u8>, entry: &Entry) -> Result<(), AllocError>
    ensures done { OnOk result (out.new.items ≡ out.old.items ++ entry_bytes entry.now) }
    ensures kept { OnErr result (take (length out.old.items) out.new.items ≡ out.old.items) }
{
    match entry {
        Entry::Put(row) => put_tagged(out, 1, row.values()),
        Entry::Removal(key) => put_tagged(out, 0, key.values()),
    }
}

/// Adds the entry's bytes. After a refusal `out` has the bytes that it had. Its memory is that of
/// `out`.
pub fn encode_entry(_alloc: Global, entry: &Entry, out: &mut Vec<u8>) -> Result<(), AllocError>
    ensures done { OnOk result (out.new.items ≡ out.old.items ++ entry_bytes entry.now) }
    ensures kept { OnErr result (out.new.items ≡ out.old.items) }
{
    let len = out.len();
    match put_entry(out, entry) {
        Ok(()) => Ok(()),
        Err(refused) => {
            out.truncate(len);
            Err(refused)
        }
    }
}
