//! The piece that a text begins with.

ghost use Rattle.std.specs.Prelude.{◌≡◌, ℕ, ◌+◌, ◌≤◌, ◌∷◌, length, drop, IfOk, true, false};
ghost use Rattle.std.specs.Char.{is_ascii_alphabetic};
ghost use Rattle.std.specs.Str.{is_utf8};
ghost use Rattle.nova_value.specs.Text.{IsText};
ghost use Rattle.nova_pig_scan.specs.Lexemes.{IsName, begins};
ghost use Rattle.nova_pig_scan.specs.Lex.{literal, symbol};
ghost use Rattle.nova_pig_scan.specs.Tokens as spec;

use crate::MAX_SCRIPT_BYTES;
use crate::lex::{
    Class, LexFault, TOO_LARGE, begins, block_comment, class_of, digit_len, digits_value, keyword,
    line_len, literal, same_word, symbol_at, word_len,
};
use nova_pig_tree::{Str, Symbol, Token};
use nova_value::MAX_TEXT_BYTES;
use std::alloc::{AllocError, Global};
use std::str::from_utf8;

/// What a text begins with, and how many bytes it takes.
#[derive(Drop)]
pub enum Piece {
    /// The text is at its end.
    End,
    /// White space or a comment.
    Skip(usize),
    /// A token.
    Take(Token, usize),
    /// A number or position that is too large.
    TooLarge(usize),
    /// None of these.
    Bad,
}

/// What a first `-` begins: a comment, or the symbol.
fn dash(rest: &[u8]) -> Piece
    ensures { result ≡ spec.dash rest.now }
{
    let Some((first, more)) = rest.split_first() else {
        return Piece::Take(Token::Symbol(Symbol::Minus), 1);
    };
    if *first == b'-' {
        Piece::Skip(line_len(more) + 2)
    } else {
        Piece::Take(Token::Symbol(Symbol::Minus), 1)
    }
}

/// What a first `/` begins: a comment, or nothing.
fn slash(rest: &[u8]) -> Piece
    ensures { result ≡ spec.slash rest.now }
{
    let Some((first, more)) = rest.split_first() else {
        return Piece::Bad;
    };
    if *first != b'*' {
        return Piece::Bad;
    }
    match block_comment(more) {
        Some(n) => Piece::Skip(n + 2),
        None => Piece::Bad,
    }
}

/// The text value that the bytes are.
fn text_of(alloc: Global, bytes: &[u8]) -> Result<Str, AllocError>
    requires { IsText bytes.now }
    ensures { IfOk result (λ s. s ≡ bytes.now) }
{
    match from_utf8(bytes) {
        Ok(text) => Str::new(alloc, text),
        Err(_) => unreachable!(),
    }
}

/// The token that a name is: a keyword in any case, or an identifier.
fn word_token(alloc: Global, word: &[u8]) -> Result<Token, AllocError>
    requires { IsName word.now }
    ensures { IfOk result (λ t. t ≡ spec.word_token word.now) }
{
    if same_word(word, b"group") {
        return Ok(Token::Group(word == b"group".as_slice()));
    }
    match keyword(word) {
        Some(found) => Ok(Token::Word(found)),
        None if word.len() > MAX_TEXT_BYTES => Ok(Token::LongName),
        None => Ok(Token::Ident(text_of(alloc, word)?)),
    }
}

/// A name, whose first letter stands before the rest.
fn word(alloc: Global, text: &[u8], rest: &[u8]) -> Result<Piece, AllocError>
    requires { (b : ℕ) × (text.now ≡ b ∷ rest.now) × (is_ascii_alphabetic b ≡ true) }
    ensures { IfOk result (λ p. p ≡ spec.word text.now rest.now) }
{
    let n = word_len(rest) + 1;
    Ok(Piece::Take(word_token(alloc, &text[..n])?, n))
}

/// A number, whose first digit stands before the rest.
fn number(text: &[u8], rest: &[u8]) -> Piece
    requires { length text.now ≡ length rest.now + 1 }
    ensures { result ≡ spec.number text.now rest.now }
{
    let n = digit_len(rest) + 1;
    let value = digits_value(&text[..n]);
    let after = &text[n..];
    let taken = if begins(b'L', after) || begins(b'l', after) {
        n + 1
    } else {
        n
    };
    if value >= TOO_LARGE {
        Piece::TooLarge(taken)
    } else {
        Piece::Take(Token::Number(value as i64), taken)
    }
}

/// A position after its `$`.
fn position(rest: &[u8]) -> Piece
    ensures { result ≡ spec.position rest.now }
{
    let n = digit_len(rest);
    if n == 0 {
        return Piece::Bad;
    }
    let value = digits_value(&rest[..n]);
    if value >= TOO_LARGE {
        return Piece::TooLarge(n + 1);
    }
    Piece::Take(Token::Position(value), n + 1)
}

/// A literal after its opening quote.
fn quoted(alloc: Global, rest: &[u8]) -> Result<Piece, AllocError>
    requires short { length rest.now ≤ MAX_TEXT_BYTES }
    requires utf8 { is_utf8 rest.now ≡ true }
    ensures { IfOk result (λ p. p ≡ spec.quoted (literal false rest.now)) }
{
    match literal(alloc, rest) {
        Ok((text, n)) => Ok(Piece::Take(Token::Literal(text_of(alloc, text.as_slice())?), n + 1)),
        Err(LexFault::Token) => Ok(Piece::Bad),
        Err(LexFault::NoMemory) => Err(AllocError),
    }
}

/// A symbol.
fn symbol(text: &[u8]) -> Piece
    ensures { result ≡ spec.symbol_piece (symbol text.now) }
{
    match symbol_at(text) {
        Some((found, n)) => Piece::Take(Token::Symbol(found), n),
        None => Piece::Bad,
    }
}

/// The piece that the text begins with.
pub fn piece_at(alloc: Global, text: &[u8]) -> Result<Piece, AllocError>
    requires short { length text.now ≤ MAX_SCRIPT_BYTES }
    requires utf8 { begins 39 text.now ≡ true → is_utf8 (drop 1 text.now) ≡ true }
    ensures { IfOk result (λ p. p ≡ spec.piece text.now) }
{
    let Some((first, rest)) = text.split_first() else {
        return Ok(Piece::End);
    };
    match class_of(*first) {
        Class::Blank => Ok(Piece::Skip(1)),
        Class::Dash => Ok(dash(rest)),
        Class::Slash => Ok(slash(rest)),
        Class::Letter => word(alloc, text, rest),
        Class::Digit => Ok(number(text, rest)),
        Class::Dollar => Ok(position(rest)),
        Class::Quote => quoted(alloc, rest),
        Class::Other => Ok(symbol(text)),
    }
}
