//! `nova`: the program, over standard input, standard output and the folder `nova.d`.
#![tactic(auto)]

use nova_dir::{DirHost, StdSource};
use nova_engine::{Status, nova};
use std::io::ErrorKind;
use std::process::ExitCode;
use std::{env, io};

/// The folder of the store, in the folder that the program is called in.
const FOLDER: &str = "nova.d";

/// The words behind the program's name.
fn words(rt: &HostRuntime) -> io::Result<Vec<String>> {
    let mut words = Vec::new(rt.alloc());
    for word in env::args(rt)?.skip(1) {
        words.push(word)?;
    }
    Ok(words)
}

/// The status where there are no words to read: one that isn't UTF-8 makes a faulty command line.
fn status_without_words(error: io::Error) -> Status {
    if error.kind() == ErrorKind::InvalidData {
        Status::Usage
    } else {
        Status::NoMemory
    }
}

fn main(rt: HostRuntime) -> ExitCode {
    let words = match words(&rt) {
        Ok(words) => words,
        Err(error) => return ExitCode::from(status_without_words(error).code()),
    };
    let mut source = StdSource::new(&rt);
    let mut host = DirHost::new(&rt, FOLDER);
    ExitCode::from(nova(rt.alloc(), &words, &mut source, &mut host))
}
