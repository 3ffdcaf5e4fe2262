//! `nova_session_cases`: tries the lines of sessions, refusals and replies by the cases of the files
//! that its words name.
#![tactic(auto)]

mod command;
mod context;
mod held;
mod load;
mod reply;
mod rows;
mod session;

use nova_case::{Bench, Step, try_files};
use std::alloc::{AllocError, Global};
use std::io;

/// Lines are tried by themselves.
#[derive(Drop)]
struct Lines;

impl Bench for Lines {
    fn begin(&mut self, _alloc: Global) -> Result<(), AllocError> {
        Ok(())
    }

    fn answer(&mut self, alloc: Global, step: &Step) -> Result<Vec<u8>, AllocError> {
        let line = step.input.strip_suffix(b"\n").unwrap_or(&step.input);
        let words = step.words.as_str();
        match step.verb.as_str() {
            "command" => command::show(alloc, line),
            "held" => held::show(alloc, line, words),
            "role" => load::role(line).as_bytes().to_vec(alloc),
            "request" => context::show(alloc, line),
            "load" => load::show_end(alloc, words),
            "refusal" => reply::show_refusal(alloc, words),
            "reply" => reply::show(alloc, words),
            "rows" => rows::show(alloc, line, words),
            "session" => session::show(alloc, line),
            _ => b"no such step\n".to_vec(alloc),
        }
    }
}

fn main(rt: HostRuntime) -> io::Result<()> {
    try_files(&rt, &mut Lines)
}
