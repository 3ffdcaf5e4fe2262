//! The forms of words: names, numbers, and what stands behind a command's first word.
ghost use Rattle.std.specs.Prelude.{◌≡◌, ◌≤◌, [], List, ℕ, length, option_map, option_copied, map, true, IsTrue, ◌↔◌};
ghost use Rattle.std.specs.List.{list_all};
ghost use Rattle.std.specs.Char.{is_ascii_digit};
ghost use Rattle.nova_value.specs.Line.{is_numeral};
ghost use Rattle.nova_script.specs.Words.{words_of};
ghost use Rattle.nova_script.specs.Forms.{number_of, one_name, one_number, two_numbers, name_and_numbers, no_word, verb_in, verb_of};

use crate::words::next_word;
use nova_name::name_of;
use nova_value::Name;
use std::str;

/// A command's first word.
#[derive(Clone, Copy, Debug, PartialEq, Eq)]
pub enum Verb {
    Load,
    Tick,
    Run,
    Begin,
    Finish,
    Drop,
    Work,
    Compact,
    Chain,
    Collect,
    Show,
    Blocks,
}

const VERBS: [(&[u8], Verb); 12] = [
    (b"load", Verb::Load),
    (b"tick", Verb::Tick),
    (b"run", Verb::Run),
    (b"begin", Verb::Begin),
    (b"finish", Verb::Finish),
    (b"drop", Verb::Drop),
    (b"work", Verb::Work),
    (b"compact", Verb::Compact),
    (b"chain", Verb::Chain),
    (b"collect", Verb::Collect),
    (b"show", Verb::Show),
    (b"blocks", Verb::Blocks),
];

/// The verb of the first entry of a table with this word.
fn lookup(mut table: &[(&[u8], Verb)], word: &[u8]) -> Option<Verb>
    ensures { result ≡ verb_in (map (λ entry. (entry.0.now, entry.1)) table.entry.now) word.now }
{
    while let [entry, rest @ ..] = table {
        if word == entry.0 {
            return Some(entry.1);
        }
        table = rest;
    }
    None
}

/// The command that a first word names.
pub fn verb_named(word: &[u8]) -> Option<Verb>
    ensures { result ≡ verb_of word.now }
{
    lookup(&VERBS, word)
}

fn are_digits(bytes: &[u8]) -> bool
    ensures { result ≡ list_all is_ascii_digit bytes.now }
{
    bytes.iter().all(|b| b.is_ascii_digit())
}

/// Whether there are digits and nothing else.
fn is_digits(word: &[u8]) -> bool
    ensures { result ≡ is_numeral word.now }
{
    match word.split_first() {
        Some(_) => are_digits(word),
        None => false,
    }
}

/// The largest number of a session, 2^62.
const LARGEST_NUMBER: u64 = 4_611_686_018_427_387_904;

/// The number that a word is: digits alone, at most 2^62.
pub fn number(word: &[u8]) -> Option<u64>
    ensures { result ≡ number_of word.now }
{
    if !is_digits(word) {
        return None;
    }
    match str::from_utf8(word) {
        Ok(text) => match text.parse::<u64>() {
            Ok(n) if n <= LARGEST_NUMBER => Some(n),
            _ => None,
        },
        Err(_) => None,
    }
}

/// Whether there is no word.
pub fn is_blank(words: &[u8]) -> bool
    ensures { IsTrue result ↔ (words_of words.now ≡ []) }
{
    next_word(words).is_none()
}

/// A name, and no word behind it.
pub fn only_name(words: &[u8]) -> Option<Name>
    ensures { result ≡ one_name (words_of words.now) }
{
    let (word, rest) = next_word(words)?;
    if is_blank(rest) { name_of(word) } else { None }
}

/// A number, and no word behind it.
pub fn only_number(words: &[u8]) -> Option<u64>
    ensures { result ≡ one_number (words_of words.now) }
{
    let (word, rest) = next_word(words)?;
    if is_blank(rest) { number(word) } else { None }
}

/// Two numbers, and no word behind them.
fn only_numbers(words: &[u8]) -> Option<(u64, u64)>
    ensures { result ≡ two_numbers (words_of words.now) }
{
    let (word, rest) = next_word(words)?;
    let first = number(word)?;
    let second = only_number(rest)?;
    Some((first, second))
}

/// A name and two numbers, and no word behind them.
pub fn only_range(words: &[u8]) -> Option<(Name, (u64, u64))>
    ensures { result ≡ name_and_numbers (words_of words.now) }
{
    let (word, rest) = next_word(words)?;
    let name = name_of(word)?;
    let range = only_numbers(rest)?;
    Some((name, range))
}
