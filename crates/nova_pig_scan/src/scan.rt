//! The tokens of a whole text, with their places.

ghost use Rattle.std.specs.Prelude.{◌≡◌, ◌≤◌, ◌↔◌, ℕ, List, length, drop, IfOk, MatchResult};
ghost use Rattle.nova_pig_scan.specs.Tokens as spec;
ghost use Rattle.nova_pig_scan.specs.Text.{IsTokens, FailsAt, OneLexeme, TextsAreSettled};
ghost use Rattle.nova_pig_scan.specs.declared.scan.Cause.{Cause};
ghost use Rattle.nova_pig_tree.specs.declared.token.Placed.{Placed};

use crate::MAX_SCRIPT_BYTES;
use crate::piece::{Piece, piece_at};
use nova_pig_tree::Placed;
use sqlite_items::Items;
use std::alloc::{AllocError, AllocFailed, Global};

/// What is wrong at a place.
#[derive(Clone, Copy, Debug, PartialEq, Eq)]
pub enum Cause {
    /// No token and no white space begins there, or a comment or a literal isn't as it must be.
    Token,
    /// The digits of a number or position are above 9223372036854775807.
    NumberTooLarge,
}

/// Why a text has no tokens.
#[derive(Clone, Copy, Debug, PartialEq, Eq)]
pub enum TextFault {
    /// The first fault, and its byte place.
    At(Cause, u64),
    /// Out of memory.
    NoMemory,
}

impl From<AllocError> for TextFault {
    ghost use Rattle.std.specs.Prelude.{◌≡◌};
    ghost use Rattle.nova_pig_scan.specs.declared.scan.TextFault.TheVariants.{NoMemory};

    ghost from_gives = { λ _ e. e ≡ NoMemory };

    fn from(_error: AllocError) -> TextFault {
        TextFault::NoMemory
    }
}

/// The bytes from a place on.
fn text_from(text: &[u8], at: usize) -> &[u8]
    requires { at ≤ length text.now }
    ensures { result.now ≡ drop at text.now }
{
    &text[at..]
}

/// The tokens of a text of at most 65,536 bytes, or its first fault. Each byte is looked at by one
/// piece.
pub fn scan_text(alloc: Global, text: &str) -> Result<Items<Placed>, TextFault>
    requires { length text.now ≤ MAX_SCRIPT_BYTES }
    ensures { spec.AreTokensOf (spec.tokens text.now) result }
{
    let bytes = text.as_bytes();
    let mut out = Items::new(alloc);
    let mut at = 0;
    loop {
        match piece_at(alloc, text_from(bytes, at))? {
            Piece::End => return Ok(out),
            Piece::Skip(n) => at += n,
            Piece::Take(token, n) => {
                out.push(Placed {
                    token,
                    start: at as u64,
                    end: (at + n) as u64,
                })?;
                at += n;
            }
            Piece::TooLarge(_) => return Err(TextFault::At(Cause::NumberTooLarge, at as u64)),
            Piece::Bad => return Err(TextFault::At(Cause::Token, at as u64)),
        }
    }
}

/// The tokens of a text of at most 65,536 bytes, or its first fault, each exactly where the
/// relations say.
pub fn tokens_of(alloc: Global, text: &str) -> Result<Items<Placed>, TextFault>
    requires { length text.now ≤ MAX_SCRIPT_BYTES }
    ensures found { IfOk result (λ ps. IsTokens 0 text.now ps) }
    ensures complete { (ps : List Placed) → IsTokens 0 text.now ps → MatchResult result (λ found. found ≡ ps) (λ e. e ≡ TextFault.NoMemory) }
    ensures fault { MatchResult result (λ _. Unit {0}) (λ e. (e ≡ TextFault.NoMemory → ⊥) → (c : Cause) × (place : ℕ) × (e ≡ TextFault.At c place) × FailsAt 0 text.now c place) }
    ensures only { (c : Cause) (place : ℕ) → FailsAt 0 text.now c place → MatchResult result (λ _. ⊥) (λ e. (e ≡ TextFault.NoMemory → ⊥) → e ≡ TextFault.At c place) }
{
    scan_text(alloc, text)
}

/// A run of bytes is one token at most, or white space, or a comment.
pub fn one_lexeme()
    ensures { OneLexeme }
{}

/// A text has one list of tokens, or one first fault.
pub fn texts_are_settled()
    ensures { TextsAreSettled }
{}
