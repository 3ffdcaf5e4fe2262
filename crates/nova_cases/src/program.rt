//! The program over a host in memory, and damage to its files.
use nova_case::{Step, bytes_of};
use nova_engine::nova;
use nova_mem::{MemHost, MemSource};
use nova_outside::put_file;
use std::alloc::{AllocError, Global};

/// The words of a line, parted by a space.
fn words_of(alloc: Global, line: &str) -> Result<Vec<String>, AllocError> {
    let mut words = Vec::new(alloc);
    if line.is_empty() {
        return Ok(words);
    }
    for word in line.split(' ') {
        let bytes = bytes_of(alloc, word)?;
        let text = str::from_utf8(&bytes).unwrap_or("no text");
        words.push(String::from_str(alloc, text)?)?;
    }
    Ok(words)
}

/// The most pieces of an input, but for one.
const PIECES: usize = 65536;

/// The step's input, in pieces of this length, or of a longer one where they would be too many.
fn source_of(alloc: Global, step: &Step, piece: usize) -> Result<MemSource, AllocError> {
    let piece = piece.max(step.input.len() / PIECES);
    let pieces = vec![in alloc; piece; step.input.len()]?;
    let mut source = MemSource::new(alloc, step.input.as_slice().to_vec(alloc)?, pieces);
    if !step.is_readable {
        source.fail_at(0)?;
    }
    Ok(source)
}

/// Calls the program: its reply lines, its status, and the host's calls where its words are refused.
pub fn call(
    alloc: Global,
    step: &Step,
    host: &mut MemHost,
    piece: usize,
) -> Result<Vec<u8>, AllocError> {
    let words = words_of(alloc, step.words.as_str())?;
    let mut source = source_of(alloc, step, piece)?;
    let calls = host.calls();
    let length = host.replies().len();
    let status = nova(alloc, &words, &mut source, host);
    let mut answer = host.replies().get(length..).unwrap_or(&[]).to_vec(alloc)?;
    let line = format!(in alloc; "status {status}\n")?;
    answer.extend_from_slice(line.as_str().as_bytes())?;
    if status == 1 && host.calls() != calls {
        answer.extend_from_slice(b"calls of the host\n")?;
    }
    Ok(answer)
}

/// The number of a word.
fn number(word: Option<&str>) -> u64 {
    word.unwrap_or("").parse::<u64>().unwrap_or(u64::MAX)
}

/// Puts a byte of a file in the place of another, where it has one there.
fn put_byte(host: &mut MemHost, file: u64, at: u64, byte: u8) -> bool {
    let Ok(at) = usize::try_from(at) else {
        return false;
    };
    let is_there = host.file(file).is_some_and(|bytes| at < bytes.len());
    if is_there {
        host.edit(file, at, byte);
    }
    is_there
}

/// Cuts a file to a length, where it is longer.
fn cut_to(host: &mut MemHost, file: u64, length: u64) -> bool {
    let Ok(length) = usize::try_from(length) else {
        return false;
    };
    let is_longer = host.file(file).is_some_and(|bytes| length < bytes.len());
    if is_longer {
        host.cut(file, length);
    }
    is_longer
}

/// Prepares the host: `put FILE` makes a file of the step's input, and after `fail N` the call N of
/// the host from there on fails, the next one being 0. There is an answer only where that fails.
pub fn prepare(alloc: Global, step: &Step, host: &mut MemHost) -> Result<Vec<u8>, AllocError> {
    let number = number(Some(step.words.as_str()));
    if step.verb.as_str() == "fail" {
        host.fail_at(host.calls().saturating_add(number))?;
    } else if put_file(host, number, &step.input).is_err() {
        return b"not put\n".to_vec(alloc);
    }
    Ok(Vec::new(alloc))
}

/// The bytes of a file, and a newline.
pub fn file(alloc: Global, words: &str, host: &MemHost) -> Result<Vec<u8>, AllocError> {
    let Some(bytes) = host.file(number(Some(words))) else {
        return b"no such file\n".to_vec(alloc);
    };
    let mut answer = bytes.to_vec(alloc)?;
    answer.push(b'\n')?;
    Ok(answer)
}

/// How many bytes of its files the host has given so far.
pub fn taken(alloc: Global, host: &MemHost) -> Result<Vec<u8>, AllocError> {
    Ok(format!(in alloc; "{} bytes\n", host.read_count())?.into_bytes())
}

/// Damages a file: `edit FILE AT BYTE` puts a byte in the place of another, `cut FILE LENGTH`
/// cuts the file. There is an answer only where the file isn't long enough.
pub fn damage(alloc: Global, words: &str, host: &mut MemHost) -> Result<Vec<u8>, AllocError> {
    let mut words = words.split(' ');
    let file = number(words.next());
    let at = number(words.next());
    let is_done = match words.next() {
        Some(word) => match bytes_of(alloc, word)?.as_slice() {
            [byte] => put_byte(host, file, at, *byte),
            _ => false,
        },
        None => cut_to(host, file, at),
    };
    if is_done {
        return Ok(Vec::new(alloc));
    }
    b"no such place\n".to_vec(alloc)
}
