//! What single tokens are to expressions.

ghost use Rattle.std.specs.Prelude.{◌≡◌};
ghost use Rattle.nova_pig_grammar.specs.Operators as spec;

use nova_pig_tree::{CallKind, CompareOp, Symbol, Token, Word};

/// The levels of the grammar whose operators group to the left.
#[derive(Clone, Copy, Debug, PartialEq, Eq)]
pub enum Level {
    Or,
    And,
    Sum,
    Prod,
}

/// An operator of a level.
#[derive(Clone, Copy, Debug, PartialEq, Eq)]
pub enum BinaryOp {
    Or,
    And,
    Add,
    Sub,
    Mul,
}

/// A token that reading asks for: a keyword, `group` as a field, or a symbol.
#[derive(Clone, Copy, Debug, PartialEq, Eq)]
pub enum Mark {
    By,
    Generate,
    Into,
    Not,
    Group,
    Assign,
    Open,
    Close,
    Comma,
    Colon,
    Semicolon,
    Minus,
}

/// Whether the token is this one.
pub fn is(mark: Mark, token: &Token) -> bool
    ensures { result ≡ spec.is mark token.now }
{
    match (mark, token) {
        (Mark::By, Token::Word(Word::By)) => true,
        (Mark::Generate, Token::Word(Word::Generate)) => true,
        (Mark::Into, Token::Word(Word::Into)) => true,
        (Mark::Not, Token::Word(Word::Not)) => true,
        (Mark::Group, Token::Group(true)) => true,
        (Mark::Assign, Token::Symbol(Symbol::Assign)) => true,
        (Mark::Open, Token::Symbol(Symbol::Open)) => true,
        (Mark::Close, Token::Symbol(Symbol::Close)) => true,
        (Mark::Comma, Token::Symbol(Symbol::Comma)) => true,
        (Mark::Colon, Token::Symbol(Symbol::Colon)) => true,
        (Mark::Semicolon, Token::Symbol(Symbol::Semicolon)) => true,
        (Mark::Minus, Token::Symbol(Symbol::Minus)) => true,
        _ => false,
    }
}

/// The operator of this level that the token is.
pub fn operator(level: Level, token: &Token) -> Option<BinaryOp>
    ensures { result ≡ spec.operator level token.now }
{
    match (level, token) {
        (Level::Or, Token::Word(Word::Or)) => Some(BinaryOp::Or),
        (Level::And, Token::Word(Word::And)) => Some(BinaryOp::And),
        (Level::Sum, Token::Symbol(Symbol::Plus)) => Some(BinaryOp::Add),
        (Level::Sum, Token::Symbol(Symbol::Minus)) => Some(BinaryOp::Sub),
        (Level::Prod, Token::Symbol(Symbol::Star)) => Some(BinaryOp::Mul),
        _ => None,
    }
}

/// The comparison that the token is.
pub fn comparison(token: &Token) -> Option<CompareOp>
    ensures { result ≡ spec.comparison token.now }
{
    match token {
        Token::Symbol(Symbol::Compare(op)) => Some(*op),
        _ => None,
    }
}

/// The call that begins with the name: `COUNT`, `SUM`, `MIN` or `MAX`, as they stand.
#[tactic(auto, unfolding(crate::specs::Operators::call_kind))]
pub fn call_kind(name: &[u8]) -> Option<CallKind>
    ensures { result ≡ spec.call_kind name.now }
{
    if name == b"COUNT".as_slice() {
        Some(CallKind::Count)
    } else if name == b"SUM".as_slice() {
        Some(CallKind::Sum)
    } else if name == b"MIN".as_slice() {
        Some(CallKind::Min)
    } else if name == b"MAX".as_slice() {
        Some(CallKind::Max)
    } else {
        None
    }
}
