//! Commits in words.
use nova_meta::{Commit, MetaFault, PartFile, decode_commit, encode_commit};
use std::alloc::{AllocError, Global};

/// Adds numbers, each behind a space.
fn add_numbers(alloc: Global, text: &mut String, numbers: &[u64]) -> Result<(), AllocError> {
    for number in numbers {
        text.push_str(format!(in alloc; " {number}")?.as_str())?;
    }
    Ok(())
}

/// Adds the parts of a run.
fn add_parts(alloc: Global, text: &mut String, parts: &[PartFile]) -> Result<(), AllocError> {
    for part in parts {
        let PartFile { part, block, size } = part;
        let words = format!(in alloc; ", part {part} block {block} size {size}")?;
        text.push_str(words.as_str())?;
    }
    Ok(())
}

/// A commit in words.
fn words_of(alloc: Global, commit: &Commit) -> Result<String, AllocError> {
    match commit {
        Commit::Flow { text } => {
            let text = str::from_utf8(text.as_slice()).unwrap_or("no text");
            format!(in alloc; "flow '{text}'")
        }
        Commit::Load {
            channel,
            block,
            size,
        } => format!(in alloc; "load channel {channel}, block {block}, size {size}"),
        Commit::Tick { moment } => format!(in alloc; "tick {moment}"),
        Commit::Run {
            task,
            versions,
            moment,
            seen,
            block,
            size,
            parts,
        } => {
            let mut text = format!(in alloc; "run task {task}, versions")?;
            add_numbers(alloc, &mut text, versions.as_slice())?;
            let rest = format!(in alloc;
                ", moment {moment}, seen {seen}, block {block}, size {size}"
            )?;
            text.push_str(rest.as_str())?;
            add_parts(alloc, &mut text, parts.as_slice())?;
            Ok(text)
        }
        Commit::Joined {
            channel,
            from,
            to,
            block,
            size,
        } => format!(in alloc;
            "joined channel {channel}, from {from}, to {to}, block {block}, size {size}"
        ),
        Commit::Collected { kept } => {
            let mut text = String::from_str(alloc, "collected")?;
            add_numbers(alloc, &mut text, kept.as_slice())?;
            Ok(text)
        }
    }
}

/// The commit of these bytes in words, where it is spelled as these bytes again.
#[tactic(auto, using(nova_commit::proofs::Reading::fits_spelling))]
pub fn meaning(alloc: Global, bytes: &[u8]) -> Result<String, AllocError> {
    let commit = match decode_commit(alloc, bytes) {
        Ok(commit) => commit,
        Err(MetaFault::BadRecord) => return String::from_str(alloc, "no commit"),
        Err(MetaFault::NoMemory) => return Err(AllocError),
    };
    if encode_commit(alloc, &commit)?.as_slice() != bytes {
        return String::from_str(alloc, "spelled otherwise");
    }
    words_of(alloc, &commit)
}
