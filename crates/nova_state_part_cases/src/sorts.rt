//! The kinds of what a task keeps, by words.
use nova_group_codec::{Kept, Sorts};
use nova_value::Kind;
use std::alloc::{AllocError, Global};

/// The kinds of the letters: `T` a text, any other a long.
fn kinds(alloc: Global, letters: &str) -> Result<Vec<Kind>, AllocError> {
    let mut kinds = Vec::new(alloc);
    for letter in letters.as_bytes() {
        kinds.push(match letter {
            b'T' => Kind::Text,
            _ => Kind::Long,
        })?;
    }
    Ok(kinds)
}

/// What is kept by the letters: `S` a sum, `L` how often longs stand, `T` how often texts do. Another
/// letter keeps nothing.
fn kept(alloc: Global, letters: &str) -> Result<Vec<Kept>, AllocError> {
    let mut kept = Vec::new(alloc);
    for letter in letters.as_bytes() {
        match letter {
            b'S' => kept.push(Kept::Total)?,
            b'L' => kept.push(Kept::Counts(Kind::Long))?,
            b'T' => kept.push(Kept::Counts(Kind::Text))?,
            _ => {}
        }
    }
    Ok(kept)
}

/// Three words: the kinds of the input's key and of the BY values, and what is kept.
pub fn sorts_of_words(alloc: Global, words: &str) -> Result<Sorts, AllocError> {
    let (key, rest) = words.split_once(' ').unwrap_or((words, ""));
    let (by, letters) = rest.split_once(' ').unwrap_or((rest, ""));
    Ok(Sorts::new(kinds(alloc, key)?, kinds(alloc, by)?, kept(alloc, letters)?))
}
