//! Limits on tokens.

ghost use Rattle.std.specs.Prelude.{◌≡◌};
ghost use Rattle.nova_pig_parse.specs.Limits as limits;
ghost use Rattle.nova_pig_parse.specs.Parse as spec;

use crate::text::ParseFault;
use nova_pig_tree::{MAX_STATEMENTS, Placed, Symbol, Token, Word};

/// The most `;` of a script: one for each definition, and one for the STORE.
const MAX_SEMICOLONS: usize = MAX_STATEMENTS;

/// The most `=` of a script: one for each alias.
const MAX_ASSIGNS: usize = 256;

/// Whether the token is `;`.
pub fn is_semicolon(token: &Token) -> bool
    ensures { result ≡ limits.is_semicolon token.now }
{
    matches!(token, Token::Symbol(Symbol::Semicolon))
}

/// Whether the token is `=`.
fn is_assign(token: &Token) -> bool
    ensures { result ≡ limits.is_assign token.now }
{
    matches!(token, Token::Symbol(Symbol::Assign))
}

/// Whether the token ends a piece: `,` or `;`.
fn parts(token: &Token) -> bool
    ensures { result ≡ limits.parts token.now }
{
    matches!(token, Token::Symbol(Symbol::Semicolon | Symbol::Comma))
}

/// Whether the token makes a tree deeper: `( ? + - *`, a comparison, NOT, AND or OR.
fn nests(token: &Token) -> bool
    ensures { result ≡ limits.nests token.now }
{
    match token {
        Token::Symbol(
            Symbol::Open
            | Symbol::Question
            | Symbol::Plus
            | Symbol::Minus
            | Symbol::Star
            | Symbol::Compare(_),
        ) => true,
        Token::Word(Word::Not | Word::And | Word::Or) => true,
        _ => false,
    }
}

/// The place of the first token that nests after 64 others of its piece.
#[tactic(auto, unfolding(crate::specs::Parse::too_deep))]
fn too_deep(mut tokens: &[Placed]) -> Option<u64>
    ensures { result ≡ limits.first_deep tokens.entry.now }
{
    let mut n = 0u32;
    while let Some((p, rest)) = tokens.split_first() {
        tokens = rest;
        if parts(&p.token) {
            n = 0;
        } else if nests(&p.token) {
            if n == 64 {
                return Some(p.start);
            }
            n += 1;
        }
    }
    None
}

/// How many `;` there are.
pub fn count_semicolons(tokens: &[Placed]) -> usize
    ensures { result ≡ limits.semicolons tokens.now }
{
    tokens.iter().filter(|p| is_semicolon(&p.token)).count()
}

/// How many `=` there are.
fn count_assigns(tokens: &[Placed]) -> usize
    ensures { result ≡ limits.assigns tokens.now }
{
    tokens.iter().filter(|p| is_assign(&p.token)).count()
}

/// The limit that the tokens break first.
pub fn limit_of(tokens: &[Placed]) -> Option<ParseFault>
    ensures { result ≡ spec.limit tokens.now }
{
    if count_semicolons(tokens) > MAX_SEMICOLONS {
        return Some(ParseFault::TooLong);
    }
    if let Some(at) = too_deep(tokens) {
        return Some(ParseFault::TooDeep { at });
    }
    if count_assigns(tokens) > MAX_ASSIGNS {
        Some(ParseFault::TooLong)
    } else {
        None
    }
}
