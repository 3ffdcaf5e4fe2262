//! Lines that tell refusals and what accepted commands did.
use crate::command::refused;
use nova_name::name_of;
use nova_script::{Refusal, Reply};
use nova_value::Name;
use std::alloc::{AllocError, Global};

/// The refusal with a name, and the number that it tells.
fn refusal_of(name: &str, number: u64) -> Option<Refusal> {
    match name {
        "UnknownCommand" => Some(Refusal::UnknownCommand),
        "WrongWords" => Some(Refusal::WrongWords),
        "UnknownChannel" => Some(Refusal::UnknownChannel),
        "UnknownTask" => Some(Refusal::UnknownTask),
        "NotAnInputChannel" => Some(Refusal::NotAnInputChannel),
        "BadRow" => Some(Refusal::BadRow { line: number }),
        "UnfinishedLoad" => Some(Refusal::UnfinishedLoad),
        "ClockBack" => Some(Refusal::ClockBack { moment: number }),
        "InFlight" => Some(Refusal::InFlight),
        "NotInFlight" => Some(Refusal::NotInFlight),
        "LineTooLong" => Some(Refusal::LineTooLong),
        "BadRange" => Some(Refusal::BadRange),
        "NotBuilt" => Some(Refusal::NotBuilt),
        _ => None,
    }
}

fn number(word: &str) -> u64 {
    word.parse::<u64>().unwrap_or(0)
}

/// The line of the refusal that words name.
pub fn show_refusal(alloc: Global, words: &str) -> Result<Vec<u8>, AllocError> {
    let (name, detail) = words.split_once(' ').unwrap_or((words, "0"));
    match refusal_of(name, number(detail)) {
        Some(refusal) => refused(alloc, &refusal),
        None => b"no such refusal\n".to_vec(alloc),
    }
}

/// The reply of numbers alone.
fn of_numbers(which: &str, a: u64, b: u64) -> Option<Reply> {
    match which {
        "ticked" => Some(Reply::ticked(a)),
        "worked" => Some(Reply::worked(a)),
        "collected" => Some(Reply::collected(a)),
        "base" => Some(Reply::base(a)),
        "delta" => Some(Reply::delta(a, b)),
        "ready" => Some(Reply::ready(u32::try_from(a).unwrap_or(0), u32::try_from(b).unwrap_or(0))),
        "damaged" => Some(Reply::damaged(a, b)),
        _ => None,
    }
}

/// The reply of a channel or task, and numbers.
fn of_name(which: &str, name: &Name, a: u64, b: u64) -> Option<Reply> {
    match which {
        "loaded" => Some(Reply::loaded(name, a)),
        "ran" => Some(Reply::ran(name, a)),
        "began" => Some(Reply::began(name)),
        "dropped" => Some(Reply::dropped(name)),
        "compacted" => Some(Reply::compacted(name, a)),
        "chained" => Some(Reply::chained(name, a, b)),
        "shown" => Some(Reply::shown(name, a, b)),
        "listed" => Some(Reply::listed(name, a)),
        "parse" => Some(Reply::script_refused(
            name,
            "parse",
            u8::try_from(a).unwrap_or(0),
            if b == 0 { None } else { Some(b) },
        )),
        _ => None,
    }
}

/// The reply of a workflow or a task that is refused: its cause, and up to two names.
fn of_cause(which: &str, cause: u8, word: &str, names: &str) -> Option<Reply> {
    if word.len() > 20 {
        return None;
    }
    let (first, second) = names.split_once(' ').unwrap_or((names, ""));
    let first = name_of(first.as_bytes());
    let second = name_of(second.as_bytes());
    match which {
        "flow" => Some(Reply::flow_refused(cause, word, first.as_ref())),
        "task" => {
            let task = first?;
            Some(Reply::task_refused(cause, word, &task, second.as_ref()))
        }
        _ => None,
    }
}

/// The reply that words name.
fn reply_of(words: &str) -> Option<Reply> {
    let (which, rest) = words.split_once(' ')?;
    let (first, others) = rest.split_once(' ').unwrap_or((rest, ""));
    let (second, third) = others.split_once(' ').unwrap_or((others, ""));
    if which == "flow" || which == "task" {
        return of_cause(which, first.parse::<u8>().unwrap_or(0), second, third);
    }
    match name_of(first.as_bytes()) {
        Some(name) => of_name(which, &name, number(second), number(third)),
        None => of_numbers(which, number(first), number(second)),
    }
}

/// The line of the reply that words name: which, its names and its numbers.
pub fn show(alloc: Global, words: &str) -> Result<Vec<u8>, AllocError> {
    match reply_of(words) {
        Some(reply) => reply.bytes().to_vec(alloc),
        None => b"no such reply\n".to_vec(alloc),
    }
}
