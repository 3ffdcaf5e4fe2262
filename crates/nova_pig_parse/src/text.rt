//! The script of a text.

ghost use Rattle.std.specs.Prelude.{◌≡◌, List, IfOk, IfErr, MatchResult};
ghost use Rattle.nova_pig_tree.specs.declared.statement.Statement.{Statement};
ghost use Rattle.nova_pig_parse.specs.declared.text.ParseFault.{ParseFault};
ghost use Rattle.nova_pig_parse.specs.Script.{IsScriptOf, IsFaultOf, TextsAreSettled};
ghost use Rattle.nova_pig_parse.specs.Size.{ScriptsAreSmall};
ghost use Rattle.nova_pig_parse.specs.Parse as spec;

use crate::limit::limit_of;
use crate::script::statements_of;
use nova_pig_scan::{Cause, MAX_SCRIPT_BYTES, TextFault, scan_text};
use nova_pig_tree::Script;
use std::alloc::{AllocError, Global};
use thiserror::Error;

/// Why a text is no script. A place is a byte place in the text.
#[derive(Clone, Copy, Debug, PartialEq, Eq, Error)]
pub enum ParseFault {
    /// No token or white space begins there, or a comment or a literal that begins there isn't
    /// closed, or the literal holds what may not stand in it.
    #[error("no token begins at {at}")]
    Token { at: u64 },
    /// The cut that begins there is no statement; the text's length, where it has no `;`.
    #[error("no statement at {at}")]
    Syntax { at: u64 },
    /// More than 65,536 bytes, 257 `;` or 256 `=`.
    #[error("the script is too long")]
    TooLong,
    /// The first token of a run without `,` and `;` that nests after 64 others.
    #[error("too many operators at {at}")]
    TooDeep { at: u64 },
    /// The number or position that begins there is above 9223372036854775807.
    #[error("the number at {at} is too large")]
    NumberTooLarge { at: u64 },
    /// Out of memory.
    #[error("out of memory")]
    NoMemory,
}

impl From<AllocError> for ParseFault {
    ghost use Rattle.std.specs.Prelude.{◌≡◌};
    ghost use Rattle.nova_pig_parse.specs.declared.text.ParseFault.TheVariants.{NoMemory};

    ghost from_gives = { λ _ e. e ≡ NoMemory };

    fn from(_error: AllocError) -> ParseFault {
        ParseFault::NoMemory
    }
}

/// The fault of a text whose tokens fail.
fn fault_of(fault: TextFault) -> ParseFault
    ensures { spec.IsSameFault fault result }
{
    match fault {
        TextFault::At(Cause::Token, at) => ParseFault::Token { at },
        TextFault::At(Cause::NumberTooLarge, at) => ParseFault::NumberTooLarge { at },
        TextFault::NoMemory => ParseFault::NoMemory,
    }
}

/// The script that the text is, or its first fault.
#[tactic(auto, using(crate::proofs::Size::read_small))]
fn script_of(alloc: Global, text: &str) -> Result<Script, ParseFault>
    ensures { spec.IsParseOf (spec.parse_of text.now) result }
{
    if text.len() > MAX_SCRIPT_BYTES {
        return Err(ParseFault::TooLong);
    }
    match scan_text(alloc, text) {
        Ok(tokens) => match limit_of(tokens.as_slice()) {
            Some(fault) => Err(fault),
            None => Ok(Script::new(statements_of(alloc, tokens.as_slice(), text.len() as u64)?)),
        },
        Err(fault) => Err(fault_of(fault)),
    }
}

/// The script that the text is, or why it is none. The first fault is answered: the text's
/// length, then the first place at which no token begins or a number is too large, then the
/// number of `;`, the depth, the number of `=`, and the first cut that is no statement.
pub fn parse(alloc: Global, text: &str) -> Result<Script, ParseFault>
    // What is answered is a script by the grammar, within the limits.
    ensures script { IfOk result (λ xs. IsScriptOf text.now xs) }
    // Each script is answered, unless memory runs out.
    ensures read { (xs : List Statement) → IsScriptOf text.now xs → MatchResult result (λ found. found ≡ xs) (λ e. e ≡ ParseFault.NoMemory) }
    // A fault that is answered is the text's.
    ensures fault { IfErr result (λ f. (f ≡ ParseFault.NoMemory → ⊥) → IsFaultOf text.now f) }
    // The text's fault is answered, unless memory runs out.
    ensures only { (f : ParseFault) → IsFaultOf text.now f → MatchResult result (λ _. ⊥) (λ e. (e ≡ ParseFault.NoMemory → ⊥) → e ≡ f) }
{
    script_of(alloc, text)
}

/// A text is one script, or has one first fault, and not both.
pub fn texts_are_settled()
    ensures { TextsAreSettled }
{}

/// The script of a text has at most 257 statements, at most 64 operators in each of its
/// expressions and at most 65,536 fields in each BY list, so no descent into one is deep.
pub fn scripts_are_small()
    ensures { ScriptsAreSmall }
{}
