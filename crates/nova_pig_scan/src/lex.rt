//! The runs of bytes that pieces are made of.

ghost use Rattle.std.specs.Prelude.{◌≡◌, ◌≤◌, length, map, false, IfOk, MatchOption};
ghost use Rattle.std.specs.Str.{str_eq_ignore_ascii_case};
ghost use Rattle.nova_pig_scan.specs.Lex as spec;
ghost use Rattle.nova_pig_scan.specs.Lexemes.{is_word, begins};

use nova_pig_tree::{CompareOp, Symbol, Word};
use sqlite_items::Items;
use std::alloc::{AllocError, Global};

/// What begins at a byte.
#[derive(Clone, Copy, Debug, PartialEq, Eq)]
pub enum Class {
    Blank,
    Dash,
    Slash,
    Letter,
    Digit,
    Dollar,
    Quote,
    Other,
}

/// The class of a byte.
pub fn class_of(b: u8) -> Class
    ensures { result ≡ spec.class_of b }
{
    if b == b' ' || b == b'\t' || b == b'\r' || b == b'\n' {
        Class::Blank
    } else if b == b'-' {
        Class::Dash
    } else if b == b'/' {
        Class::Slash
    } else if b.is_ascii_alphabetic() {
        Class::Letter
    } else if b.is_ascii_digit() {
        Class::Digit
    } else if b == b'$' {
        Class::Dollar
    } else if b == b'\'' {
        Class::Quote
    } else {
        Class::Other
    }
}

/// Whether the byte is a letter, a digit or `_`.
fn is_word(b: u8) -> bool
    ensures { result ≡ is_word b }
{
    b.is_ascii_alphanumeric() || b == b'_'
}

/// How many letters, digits and `_` the text begins with.
pub fn word_len(text: &[u8]) -> usize
    ensures value { result ≡ spec.word_len text.now }
    ensures within { result ≤ length text.now }
{
    for (i, b) in text.iter().enumerate() {
        if !is_word(*b) {
            return i;
        }
    }
    text.len()
}

/// How many digits the text begins with.
pub fn digit_len(text: &[u8]) -> usize
    ensures value { result ≡ spec.digit_len text.now }
    ensures within { result ≤ length text.now }
{
    for (i, b) in text.iter().enumerate() {
        if !b.is_ascii_digit() {
            return i;
        }
    }
    text.len()
}

/// How many bytes stand before the end of the line.
pub fn line_len(text: &[u8]) -> usize
    ensures value { result ≡ spec.line_len text.now }
    ensures within { result ≤ length text.now }
{
    for (i, b) in text.iter().enumerate() {
        if *b == b'\n' {
            return i;
        }
    }
    text.len()
}

/// The keywords but `GROUP`, in lower case.
const KEYWORDS: [(&[u8], Word); 17] = [
    (b"and", Word::And),
    (b"as", Word::As),
    (b"by", Word::By),
    (b"distinct", Word::Distinct),
    (b"filter", Word::Filter),
    (b"flatten", Word::Flatten),
    (b"foreach", Word::Foreach),
    (b"generate", Word::Generate),
    (b"into", Word::Into),
    (b"is", Word::Is),
    (b"join", Word::Join),
    (b"load", Word::Load),
    (b"not", Word::Not),
    (b"null", Word::Null),
    (b"or", Word::Or),
    (b"store", Word::Store),
    (b"union", Word::Union),
];

/// Whether the words are the same in any case.
pub fn same_word(a: &[u8], b: &[u8]) -> bool
    ensures { result ≡ str_eq_ignore_ascii_case a.now b.now }
{
    a.eq_ignore_ascii_case(b)
}

/// The word of a table, in any case.
fn lookup(mut table: &[(&[u8], Word)], word: &[u8]) -> Option<Word>
    ensures { result ≡ spec.lookup (map (λ k. (k.0.now, k.1)) table.entry.now) word.now }
{
    while let [entry, rest @ ..] = table {
        if same_word(entry.0, word) {
            return Some(entry.1);
        }
        table = rest;
    }
    None
}

/// The keyword but GROUP that the word is, in any case.
#[tactic(auto, unfolding(crate::specs::Lex::keyword))]
pub fn keyword(word: &[u8]) -> Option<Word>
    ensures { result ≡ spec.keyword word.now }
{
    lookup(&KEYWORDS, word)
}

/// One more than the largest number, 2^63.
pub const TOO_LARGE: u64 = 9_223_372_036_854_775_808;

/// The value of some digits, or 2^63 where it is above that.
pub fn digits_value(digits: &[u8]) -> u64
    ensures { result ≡ spec.capped digits.now }
{
    let mut n = 0;
    for b in digits {
        n = n.min(TOO_LARGE / 10 + 1) * 10 + u64::from(b.saturating_sub(b'0'));
        n = n.min(TOO_LARGE);
    }
    n
}

/// The longest symbol that the text begins with, and how many bytes it has.
pub fn symbol_at(text: &[u8]) -> Option<(Symbol, usize)>
    ensures { result ≡ spec.symbol text.now }
{
    match text {
        [b'=', b'=', ..] => Some((Symbol::Compare(CompareOp::Eq), 2)),
        [b'=', ..] => Some((Symbol::Assign, 1)),
        [b'!', b'=', ..] => Some((Symbol::Compare(CompareOp::Ne), 2)),
        [b'<', b'=', ..] => Some((Symbol::Compare(CompareOp::Le), 2)),
        [b'<', ..] => Some((Symbol::Compare(CompareOp::Lt), 1)),
        [b'>', b'=', ..] => Some((Symbol::Compare(CompareOp::Ge), 2)),
        [b'>', ..] => Some((Symbol::Compare(CompareOp::Gt), 1)),
        [b':', b':', ..] => Some((Symbol::ColonColon, 2)),
        [b':', ..] => Some((Symbol::Colon, 1)),
        [b, ..] => single_symbol(*b),
        _ => None,
    }
}

/// A symbol that no other one begins with.
fn single_symbol(b: u8) -> Option<(Symbol, usize)>
    ensures { result ≡ spec.single_symbol b }
{
    match b {
        b'+' => Some((Symbol::Plus, 1)),
        b'*' => Some((Symbol::Star, 1)),
        b'(' => Some((Symbol::Open, 1)),
        b')' => Some((Symbol::Close, 1)),
        b',' => Some((Symbol::Comma, 1)),
        b';' => Some((Symbol::Semicolon, 1)),
        b'.' => Some((Symbol::Dot, 1)),
        b'?' => Some((Symbol::Question, 1)),
        _ => None,
    }
}

/// Why a literal wasn't read.
#[derive(Clone, Copy, Debug, PartialEq, Eq)]
pub enum LexFault {
    Token,
    NoMemory,
}

impl From<AllocError> for LexFault {
    ghost use Rattle.std.specs.Prelude.{◌≡◌};
    ghost use Rattle.nova_pig_scan.specs.declared.lex.LexFault.TheVariants.{NoMemory};

    ghost from_gives = { λ _ e. e ≡ NoMemory };

    fn from(_error: AllocError) -> LexFault {
        LexFault::NoMemory
    }
}

/// What a byte of a literal does.
#[derive(Clone, Copy, Debug, PartialEq, Eq)]
pub enum Step {
    Bad,
    Close,
    Escape,
    Keep,
}

/// What the byte does, after a backslash or not.
fn step_of(escaped: bool, b: u8) -> Step
    ensures { result ≡ spec.step_of escaped b }
{
    match (escaped, b) {
        (true, b'\'' | b'\\') => Step::Keep,
        (true, _) => Step::Bad,
        (false, b'\'') => Step::Close,
        (false, b'\\') => Step::Escape,
        (false, b'\t' | b'\n') => Step::Bad,
        (false, _) => Step::Keep,
    }
}

/// The characters of a literal after its opening quote, and how many bytes they and the closing quote take.
pub fn literal(alloc: Global, text: &[u8]) -> Result<(Items<u8>, usize), LexFault>
    ensures value { spec.IsLiteralOf (spec.literal false text.now) result }
    ensures within { IfOk result (λ p. p.1 ≤ length text.now) }
{
    let mut out = Items::new(alloc);
    let mut escaped = false;
    for (at, b) in text.iter().enumerate() {
        match step_of(escaped, *b) {
            Step::Bad => return Err(LexFault::Token),
            Step::Close => return Ok((out, at + 1)),
            Step::Escape => escaped = true,
            Step::Keep => {
                out.push(*b)?;
                escaped = false;
            }
        }
    }
    Err(LexFault::Token)
}

/// How many bytes a comment takes after its `/*`.
pub fn block_comment(mut text: &[u8]) -> Option<usize>
    ensures value { result ≡ spec.block text.entry.now }
    ensures within { MatchOption result (Unit {0}) (λ n. n ≤ length text.entry.now) }
{
    let mut taken = 0;
    while let Some((first, rest)) = text.split_first() {
        if *first == b'*' && begins(b'/', rest) {
            return Some(taken + 2);
        }
        text = rest;
        taken += 1;
    }
    None
}

/// Whether the text begins with the byte.
pub fn begins(b: u8, text: &[u8]) -> bool
    ensures { result ≡ begins b text.now }
{
    match text {
        [first, ..] => *first == b,
        [] => false,
    }
}
