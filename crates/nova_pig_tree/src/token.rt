//! Tokens of a script.

use crate::expression::CompareOp;
use nova_value::Str;

/// A keyword, except `GROUP`.
#[derive(Clone, Copy, Debug, PartialEq, Eq)]
pub enum Word {
    And,
    As,
    By,
    Distinct,
    Filter,
    Flatten,
    Foreach,
    Generate,
    Into,
    Is,
    Join,
    Load,
    Not,
    Null,
    Or,
    Store,
    Union,
}

/// A symbol: `=`, a comparison, `+ - * ( ) , ; . : ::` or `?`.
#[derive(Clone, Copy, Debug, PartialEq, Eq)]
pub enum Symbol {
    Assign,
    Compare(CompareOp),
    Plus,
    Minus,
    Star,
    Open,
    Close,
    Comma,
    Semicolon,
    Dot,
    Colon,
    ColonColon,
    Question,
}

/// A token.
#[derive(Debug, Drop)]
pub enum Token {
    /// An identifier.
    Ident(Str),
    /// An identifier of more than 65,535 bytes, which no text value holds. It can only be the
    /// whole of the longest text, and stands in no statement.
    LongName,
    Word(Word),
    /// The keyword `GROUP`, and whether it is spelled exactly `group`, as a field is.
    Group(bool),
    Number(i64),
    /// The number after a `$`.
    Position(u64),
    /// The text of a literal, after its escapes.
    Literal(Str),
    Symbol(Symbol),
}

/// A token, with the byte places in the text where it begins and ends.
#[derive(Debug, Drop)]
pub struct Placed {
    pub token: Token,
    pub start: u64,
    pub end: u64,
}
