//! A case: bytes, and what they are wanted to be.

use hex::FromHexError;
use nova_meta::{Catalog, Commit, MetaFault, decode_commit};
use std::alloc::{AllocError, Global};

/// What the bytes of a case are wanted to be.
#[derive(Clone, Copy, PartialEq, Eq)]
pub enum Wanted {
    /// A commit that keeps the rules, and is added.
    Added,
    /// A commit that keeps the rules.
    Allowed,
    /// A commit that breaks a rule.
    Refused,
    /// No commit.
    NoCommit,
}

/// A line of the cases.
#[derive(Drop)]
pub enum Case<'a> {
    /// A line without words, or a remark alone.
    Nothing,
    /// The catalog is shown.
    Show,
    /// A line of no form.
    Unreadable,
    /// A commit's bytes.
    Commit { wanted: Wanted, bytes: Vec<u8> },
    /// A question, and its answer.
    Question { asked: &'a str, wanted: &'a str },
}

fn wanted_of(word: &str) -> Option<Wanted> {
    match word {
        "add" => Some(Wanted::Added),
        "yes" => Some(Wanted::Allowed),
        "no" => Some(Wanted::Refused),
        "bad" => Some(Wanted::NoCommit),
        _ => None,
    }
}

/// The text before a `#`.
fn without_remark(line: &str) -> &str {
    match line.split_once('#') {
        Some((front, _)) => front,
        None => line,
    }
}

/// The bytes of hexadecimal words, or None where one isn't.
pub fn bytes_of(alloc: Global, words: &str) -> Result<Option<Vec<u8>>, AllocError> {
    let mut digits = String::new(alloc);
    for word in words.split_whitespace() {
        digits.push_str(word)?;
    }
    match hex::decode(alloc, digits.as_str()) {
        Ok(bytes) => Ok(Some(bytes)),
        Err(FromHexError::OutOfMemory) => Err(AllocError),
        Err(_) => Ok(None),
    }
}

/// The case of a line: a word, and hexadecimal digits, or a question and behind `=` its answer; a `#`
/// begins a remark.
pub fn case_of<'a>(alloc: Global, line: &'a str) -> Result<Case<'a>, AllocError> {
    let words = without_remark(line).trim();
    if words.is_empty() {
        return Ok(Case::Nothing);
    }
    if words == "show" {
        return Ok(Case::Show);
    }
    if let Some((asked, wanted)) = words.split_once(" = ") {
        return Ok(Case::Question { asked, wanted });
    }
    let (word, digits) = words.split_once(' ').unwrap_or((words, ""));
    let Some(wanted) = wanted_of(word) else {
        return Ok(Case::Unreadable);
    };
    match bytes_of(alloc, digits)? {
        Some(bytes) => Ok(Case::Commit { wanted, bytes }),
        None => Ok(Case::Unreadable),
    }
}

/// The commit of these bytes, or None where they are none.
fn commit_of(alloc: Global, bytes: &[u8]) -> Result<Option<Commit>, AllocError> {
    match decode_commit(alloc, bytes) {
        Ok(commit) => Ok(Some(commit)),
        Err(MetaFault::BadRecord) => Ok(None),
        Err(MetaFault::NoMemory) => Err(AllocError),
    }
}

/// Whether a case comes out as it is wanted. A commit that is to be added is.
pub fn comes_out(
    alloc: Global,
    catalog: &mut Catalog,
    wanted: Wanted,
    bytes: &[u8],
) -> Result<bool, AllocError> {
    let Some(commit) = commit_of(alloc, bytes)? else {
        return Ok(wanted == Wanted::NoCommit);
    };
    match catalog.prepare(alloc, &commit) {
        Ok(prepared) if wanted == Wanted::Added => {
            catalog.apply(prepared);
            Ok(true)
        }
        Ok(_) => Ok(wanted == Wanted::Allowed),
        Err(MetaFault::BadRecord) => Ok(wanted == Wanted::Refused),
        Err(MetaFault::NoMemory) => Err(AllocError),
    }
}
