//! Identifiers, and the names that they are.
ghost use Rattle.std.specs.Prelude.{◌≡◌};
ghost use Rattle.std.specs.List.{list_all};
ghost use Rattle.nova_name.specs.Names as spec;

use nova_value::Name;
use std::str;

fn is_name_byte(b: u8) -> bool
    ensures { result ≡ spec.is_name_byte b }
{
    b.is_ascii_alphanumeric() || b == b'_'
}

fn are_name_bytes(bytes: &[u8]) -> bool
    ensures { result ≡ list_all spec.is_name_byte bytes.now }
{
    bytes.iter().all(|b| is_name_byte(*b))
}

/// Whether a word is a letter A-Z or a-z followed by letters, digits and `_`.
pub fn is_identifier(word: &[u8]) -> bool
    ensures { result ≡ spec.is_identifier word.now }
{
    match word.split_first() {
        Some((first, rest)) => first.is_ascii_alphabetic() && are_name_bytes(rest),
        None => false,
    }
}

/// Whether a word is an identifier of at most 64 bytes.
pub fn is_name(word: &[u8]) -> bool
    ensures { result ≡ spec.is_name word.now }
{
    word.len() <= 64 && is_identifier(word)
}

/// The name that a word is.
pub fn name_of(word: &[u8]) -> Option<Name>
    ensures { result ≡ spec.name_of word.now }
{
    if !is_name(word) {
        return None;
    }
    match str::from_utf8(word) {
        Ok(text) => Some(Name::new(text)),
        Err(_) => None,
    }
}
