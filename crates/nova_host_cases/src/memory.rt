//! Hosts and sources in memory.
use crate::call::number;
use crate::quiet::Quiet;
use nova_case::Step;
use nova_mem::{MemHost, MemSource, MemSteady};
use nova_outside::{Failed, Source};
use std::alloc::{AllocError, Global};

fn told(alloc: Global, is_done: bool) -> Result<Vec<u8>, AllocError> {
    if is_done {
        return Ok(Vec::new(alloc));
    }
    b"no such place\n".to_vec(alloc)
}

/// The bytes of a file, or `none`.
fn bytes(alloc: Global, host: &MemHost, file: u64) -> Result<Vec<u8>, AllocError> {
    let Some(bytes) = host.file(file) else {
        return b"none\n".to_vec(alloc);
    };
    let mut answer = bytes.to_vec(alloc)?;
    answer.push(b'\n')?;
    Ok(answer)
}

/// How many calls were made and how many found no memory, how many bytes were read, and the replies.
fn counts(alloc: Global, host: &MemHost) -> Result<Vec<u8>, AllocError> {
    let text = format!(in alloc;
        "calls {}, starved {}, read {}, replies ",
        host.calls(),
        host.starved(),
        host.read_count()
    )?;
    let mut answer = text.into_bytes();
    answer.extend_from_slice(host.replies())?;
    answer.push(b'\n')?;
    Ok(answer)
}

/// Asks a host in memory, or has it changed: `fail CALL`, `bytes FILE`, `counts`, `cut FILE LENGTH`,
/// and `edit FILE AT` with a byte as input.
pub fn answer(alloc: Global, host: &mut Quiet, step: &Step) -> Result<Vec<u8>, AllocError> {
    let mut words = step.words.as_str().split(' ');
    let file = number(words.next());
    let at = usize::try_from(number(words.next())).unwrap_or(usize::MAX);
    match (step.verb.as_str(), step.input.as_slice()) {
        ("fail", _) => {
            host.fail_at(file)?;
            Ok(Vec::new(alloc))
        }
        ("bytes", _) => bytes(alloc, host.host(), file),
        ("cut", _) => told(alloc, host.cut(file, at)),
        ("edit", [byte]) => told(alloc, host.edit(file, at, *byte)),
        _ => counts(alloc, host.host()),
    }
}

/// Takes bytes into a room of so many that were 0: a line with them, or `failed`. It says so where
/// the rest of the room isn't as it was.
fn take<S: Source>(
    alloc: Global,
    source: &mut S,
    room: u64,
    answer: &mut Vec<u8>,
) -> Result<(), AllocError> {
    let mut into = vec![in alloc; 0; room as usize]?;
    match source.take(&mut into) {
        Ok(count) => {
            answer.extend_from_slice(into.get(..count).unwrap_or(b"too many"))?;
            let rest = into.get(count..).unwrap_or(&[]);
            if rest.iter().any(|b| *b != 0) {
                answer.extend_from_slice(b" and more of the room")?;
            }
        }
        Err(Failed) => answer.extend_from_slice(b"failed")?,
    }
    answer.extend_from_slice(b"\n")
}

/// The numbers of words that are parted by commas.
fn numbers(alloc: Global, words: &str) -> Result<Vec<u64>, AllocError> {
    let mut all = Vec::new(alloc);
    for word in words.split(',') {
        if let Ok(number) = word.parse::<u64>() {
            all.push(number)?;
        }
    }
    Ok(all)
}

/// A source of these bytes in pieces, of which calls fail.
fn source_of(
    alloc: Global,
    bytes: &[u8],
    pieces: &str,
    fails: &str,
) -> Result<MemSource, AllocError> {
    let mut lengths = Vec::new(alloc);
    for piece in numbers(alloc, pieces)?.iter() {
        lengths.push(*piece as usize)?;
    }
    let mut source = MemSource::new(alloc, bytes.to_vec(alloc)?, lengths);
    for call in numbers(alloc, fails)?.iter() {
        source.fail_at(*call)?;
    }
    Ok(source)
}

/// What a source of the step's input gives: `source ROOMS PIECES FAILS` takes into rooms of these
/// lengths, where the source gives pieces of these lengths and these calls fail, each list parted by
/// commas, and `-` where there is none; `steady ROOMS` does without pieces and failures.
pub fn take_all(alloc: Global, step: &Step) -> Result<Vec<u8>, AllocError> {
    let mut words = step.words.as_str().split(' ');
    let rooms = numbers(alloc, words.next().unwrap_or(""))?;
    let pieces = words.next().unwrap_or("");
    let fails = words.next().unwrap_or("");
    let mut answer = Vec::new(alloc);
    if step.verb.as_str() == "steady" {
        let mut source = MemSteady::new(step.input.as_slice().to_vec(alloc)?);
        for room in rooms.iter() {
            take(alloc, &mut source, *room, &mut answer)?;
        }
        return Ok(answer);
    }
    let mut source = source_of(alloc, &step.input, pieces, fails)?;
    for room in rooms.iter() {
        take(alloc, &mut source, *room, &mut answer)?;
    }
    Ok(answer)
}
