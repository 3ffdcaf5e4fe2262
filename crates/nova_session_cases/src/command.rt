//! What a line reads as.
use nova_script::{Command, Refusal, read_command, refusal_line};
use std::alloc::{AllocError, Global};

/// The line of a refusal.
pub fn refused(alloc: Global, refusal: &Refusal) -> Result<Vec<u8>, AllocError> {
    refusal_line(refusal).bytes().to_vec(alloc)
}

/// A command by its words, each number without leading zeros.
fn spelled(alloc: Global, command: &Command) -> Result<String, AllocError> {
    match command {
        Command::Load(name) => format!(in alloc; "load {}\n", name.text()),
        Command::Tick(moment) => format!(in alloc; "tick {moment}\n"),
        Command::Run(name) => format!(in alloc; "run {}\n", name.text()),
        Command::Begin(name) => format!(in alloc; "begin {}\n", name.text()),
        Command::Finish(name) => format!(in alloc; "finish {}\n", name.text()),
        Command::Drop(name) => format!(in alloc; "drop {}\n", name.text()),
        Command::Work => String::from_str(alloc, "work\n"),
        Command::Compact(name) => format!(in alloc; "compact {}\n", name.text()),
        Command::Chain(name, from, to) => {
            format!(in alloc; "chain {} {from} {to}\n", name.text())
        }
        Command::Collect => String::from_str(alloc, "collect\n"),
        Command::Show(name) => format!(in alloc; "show {}\n", name.text()),
        Command::Blocks(name) => format!(in alloc; "blocks {}\n", name.text()),
    }
}

/// The command of a line, the line of its refusal, or that it has no words.
pub fn show(alloc: Global, line: &[u8]) -> Result<Vec<u8>, AllocError> {
    match read_command(line) {
        Ok(Some(command)) => Ok(spelled(alloc, &command)?.into_bytes()),
        Ok(None) => b"no words\n".to_vec(alloc),
        Err(refusal) => refused(alloc, &refusal),
    }
}
