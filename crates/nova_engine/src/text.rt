//! A workflow's text, read from the source.
ghost use Rattle.std.specs.Prelude.{◌≡◌, ◌+◌, ◌<◌, ◌≤◌, List, ℕ, Some, length, take, IfErr, IfOk, MatchResult};
ghost use Rattle.std.specs.Io.KnownBytes.{Consumes, IsAtEnd, Keeps};
ghost use Rattle.nova_outside.specs.Causes.{HasCause, Rose};
ghost use Rattle.nova_engine.specs.Taken.{ReadText, TookText};
ghost use Rattle.nova_engine.specs.declared.text.Unread.TheVariants as unread;

use nova_outside::{Failed, Source};
use std::alloc::{AllocError, Global};

/// How many bytes of the source are read at most: one more than a text may have.
const LIMIT: usize = 1_048_577;

/// The most bytes that are taken at once.
const PIECE: usize = 65536;

/// Why a text wasn't read.
#[derive(Clone, Copy, Debug, PartialEq, Eq)]
pub enum Unread {
    Source,
    NoMemory,
}

impl From<AllocError> for Unread {
    ghost from_gives = { λ _ e. e ≡ unread.NoMemory };

    fn from(_: AllocError) -> Self {
        Unread::NoMemory
    }
}

impl From<Failed> for Unread {
    ghost from_gives = { λ _ e. e ≡ unread.Source };

    fn from(_: Failed) -> Self {
        Unread::Source
    }
}

/// How much may be taken at once behind so many bytes.
fn room_behind(held: usize) -> usize
    requires { held < 1048577 }
    ensures some { 0 < result }
    ensures fits { result ≤ 65536 }
    ensures limit { held + result ≤ 1048577 }
{
    let left = LIMIT - held;
    if left < PIECE { left } else { PIECE }
}

/// Takes the next bytes of a text into the buffer.
fn fill_text<S: Source>(source: &mut S, buffer: &mut [u8], held: usize) -> Result<usize, Failed>
    requires limit { held < 1048577 }
    requires size { length buffer.old ≡ 65536 }
    ensures size { length buffer.new ≡ 65536 }
    ensures bound { IfOk result (λ n. (n ≤ 65536) × (held + n ≤ 1048577)) }
    ensures bytes { MatchResult result (λ n. Consumes (S.left source.old) (S.left source.new) (take n buffer.new)) (λ _. Keeps (S.left source.old) (S.left source.new)) }
    ensures end { IfOk result (λ n. n ≡ 0 → IsAtEnd (S.left source.new)) }
    ensures cause { HasCause (S.faults source.old) (S.faults source.new) result }
{
    let room = room_behind(held);
    source.take(&mut buffer[..room])
}

/// The bytes of a text, up to one more than a text may have.
pub fn read_text<S: Source>(alloc: Global, source: &mut S) -> Result<Vec<u8>, Unread>
    ensures text { (input : List ℕ) → S.left source.old ≡ Some input → MatchResult result
        (λ text. ReadText input (S.left source.new) text.items)
        (λ _. (taken : List ℕ) × TookText input (S.left source.new) taken) }
    ensures cause { IfErr result (λ why. why ≡ Unread.Source → Rose (S.faults source.old) (S.faults source.new)) }
{
    let mut text = Vec::new(alloc);
    let mut buffer = [0; PIECE];
    while text.len() < LIMIT {
        let count = fill_text(source, &mut buffer, text.len())?;
        if count == 0 {
            return Ok(text);
        }
        text.extend_from_slice(&buffer[..count])?;
    }
    Ok(text)
}
