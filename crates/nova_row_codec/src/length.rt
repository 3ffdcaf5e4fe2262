//! How many bytes entries have, before they are written.
ghost use Rattle.std.specs.Prelude.{◌≡◌, length};
ghost use Rattle.nova_row_codec.specs.Spelling.{entry_bytes, told_length, value_bytes, values_bytes};

use nova_value::{Entry, Value};

#[tactic(auto, unfolding(crate::specs::Spelling::value_bytes))]
fn value_length(value: &Value) -> u64
    ensures { result ≡ length (value_bytes value.now) }
{
    match value {
        Value::Long(_) => 8,
        Value::Text(text) => 2 + text.bytes().len() as u64,
    }
}

fn values_length(values: &[Value]) -> u64
    ensures { result ≡ told_length (values_bytes values.now) }
{
    let mut total: u64 = 0;
    for value in values {
        total = total.saturating_add(value_length(value));
    }
    total
}

/// How many bytes an entry has, or 2^64 - 1 where it has more. It takes no memory.
#[tactic(auto, unfolding(crate::specs::Spelling::entry_bytes))]
pub fn entry_length(entry: &Entry) -> u64
    ensures { result ≡ told_length (entry_bytes entry.now) }
{
    match entry {
        Entry::Put(row) => values_length(row.values()).saturating_add(1),
        Entry::Removal(key) => values_length(key.values()).saturating_add(1),
    }
}
