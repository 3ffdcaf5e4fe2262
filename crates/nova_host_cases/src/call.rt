//! Calls of a host by their words, and what they answer.
ghost use Rattle.std.specs.Prelude.{◌≡◌, false};

use crate::journal;
use nova_case::Step;
use nova_journal::Journal;
use nova_outside::{Failed, Host};
use std::alloc::{AllocError, Global};
use std::str::Split;

/// The number of a word; where it is none, the greatest.
pub fn number(word: Option<&str>) -> u64 {
    word.unwrap_or("").parse::<u64>().unwrap_or(u64::MAX)
}

/// `done` or `failed`.
fn done(alloc: Global, answer: Result<(), Failed>) -> Result<Vec<u8>, AllocError> {
    match answer {
        Ok(()) => b"done\n".to_vec(alloc),
        Err(Failed) => b"failed\n".to_vec(alloc),
    }
}

/// A number, `none` or `failed`.
fn found(alloc: Global, answer: Result<Option<u64>, Failed>) -> Result<Vec<u8>, AllocError> {
    match answer {
        Ok(Some(number)) => Ok(format!(in alloc; "{number}\n")?.into_bytes()),
        Ok(None) => b"none\n".to_vec(alloc),
        Err(Failed) => b"failed\n".to_vec(alloc),
    }
}

/// Reads into so many bytes that were 0: how many were read, and all these bytes.
fn read<H: Host>(
    alloc: Global,
    host: &mut H,
    file: u64,
    at: u64,
    length: u64,
) -> Result<Vec<u8>, AllocError>
    requires { H.is_honest ≡ false }
{
    let mut into = vec![in alloc; 0; length as usize]?;
    match host.read(file, at, &mut into) {
        Ok(count) => {
            let mut answer = format!(in alloc; "{count} ")?.into_bytes();
            answer.extend_from_slice(&into)?;
            answer.push(b'\n')?;
            Ok(answer)
        }
        Err(Failed) => b"failed\n".to_vec(alloc),
    }
}

/// The file after one, or the first of all.
fn next<H: Host>(
    alloc: Global,
    host: &mut H,
    mut words: Split<'_, char>,
) -> Result<Vec<u8>, AllocError> {
    let after = match words.next() {
        Some("") | None => None,
        word => Some(number(word)),
    };
    found(alloc, host.next_file(after))
}

/// What a call of the host answers: `size FILE`, `read FILE AT LENGTH`, `create FILE`,
/// `write FILE AT` and `reply` with the step's input, `sync FILE`, `remove FILE`, `next` or
/// `next FILE`.
fn of_host<H: Host>(alloc: Global, host: &mut H, step: &Step) -> Result<Vec<u8>, AllocError>
    requires { H.is_honest ≡ false }
{
    let mut words = step.words.as_str().split(' ');
    if step.verb.as_str() == "next" {
        return next(alloc, host, words);
    }
    let file = number(words.next());
    let at = number(words.next());
    match step.verb.as_str() {
        "size" => found(alloc, host.size(file)),
        "read" => read(alloc, host, file, at, number(words.next())),
        "create" => done(alloc, host.create(file)),
        "write" => done(alloc, host.write(file, at, &step.input)),
        "sync" => done(alloc, host.sync(file)),
        "remove" => done(alloc, host.remove(file)),
        "reply" => done(alloc, host.reply(&step.input)),
        _ => b"no such step\n".to_vec(alloc),
    }
}

/// What a step answers that is a call of the host or, as `journal WORDS`, one on the journal in it.
pub fn answer<H: Host>(
    alloc: Global,
    host: &mut H,
    log: &mut Option<Journal>,
    step: &Step,
) -> Result<Vec<u8>, AllocError>
    requires { H.is_honest ≡ false }
{
    if step.verb.as_str() == "journal" {
        return journal::answer(alloc, host, log, step);
    }
    of_host(alloc, host, step)
}
