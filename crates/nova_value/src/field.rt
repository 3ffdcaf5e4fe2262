//! The fields of a line of text.
ghost use Rattle.std.specs.Prelude.{◌≡◌, ◌<◌, false, true, ℕ, ◌∷◌, length, option_copied, IfSome, IfNone, slice_index, ◌≢◌};
ghost use Rattle.nova_value.specs.Text.{has_newline, is_clean};
ghost use Rattle.nova_value.specs.Line.{long_at, value_of, fields};
ghost use Rattle.nova_value.specs.Reading.{IsReadingOf, rest_fields, IsFirstTab};

use crate::fault::RowFault;
use crate::limit::MAX_TEXT_BYTES;
use crate::value::{Kind, Str, Value};
use std::alloc::Global;
use std::str;

/// The number that a field of a long column spells: an optional `-` and one or more digits.
/// None where the field is no such spelling, or the number has no 64 bits.
fn long_of(field: &[u8]) -> Option<i64>
    ensures { result ≡ long_at field.now }
{
    if field.is_empty() {
        return None;
    }
    if field[0] == b'+' {
        return None;
    }
    match str::from_utf8(field) {
        Ok(text) => text.parse::<i64>().ok(),
        Err(_) => None,
    }
}

/// Where the first tab is.
fn first_tab(text: &[u8]) -> Option<usize>
    ensures some { IfSome result (λ at. IsFirstTab text.now at) }
    ensures none { IfNone result ((j : ℕ) → j < length text.now → slice_index text.now j ≢ 9) }
{
    text.iter().position(|b| *b == b'\t')
}

/// The first field, and what stands after its tab, if there is one.
pub fn cut(text: &[u8]) -> (&[u8], Option<&[u8]>)
    ensures fields { fields text.now ≡ result.0.now ∷ rest_fields (option_copied result.1) }
    ensures clean { has_newline text.now ≡ false → is_clean result.0.now ≡ true }
    ensures rest { has_newline text.now ≡ false → IfSome result.1 (λ r. has_newline r.now ≡ false) }
{
    match first_tab(text) {
        Some(at) => (&text[..at], Some(&text[at + 1..])),
        None => (text, None),
    }
}

/// How many fields there are.
pub fn count_fields(text: &[u8]) -> usize
    ensures { result ≡ length (fields text.now) }
{
    let mut n = 1;
    for b in text {
        if *b == b'\t' {
            n += 1;
        }
    }
    n
}

/// The value of field number `at`, in a column of this kind.
pub fn value_from(alloc: Global, field: &[u8], kind: Kind, at: u32) -> Result<Value, RowFault>
    requires { is_clean field.now ≡ true }
    ensures { IsReadingOf (λ v. v) result (value_of kind at field.now) }
{
    match kind {
        Kind::Long => match long_of(field) {
            Some(n) => Ok(Value::Long(n)),
            None => Err(RowFault::BadNumber { field: at }),
        },
        Kind::Text => {
            if field.len() > MAX_TEXT_BYTES {
                return Err(RowFault::TooLong { field: at });
            }
            match str::from_utf8(field) {
                Ok(text) => Ok(Value::Text(Str::new(alloc, text)?)),
                Err(_) => Err(RowFault::NotUtf8 { field: at }),
            }
        }
    }
}
