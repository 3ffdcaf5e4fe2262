//! `nova_eval_cases`: tries the rows and tables of scripts, the patterns of tasks, and whether
//! workflows are admitted, by the cases of the files that its words name.
#![tactic(auto)]

mod answers;
mod channels;
mod compared;
mod flows;
mod tables;
mod words;

use answers::Lines;
use nova_case::{Bench, Step, try_files};
use std::alloc::{AllocError, Global};
use std::io;

/// Scripts over the rows of the channels, which stay from one case to the next.
#[derive(Drop)]
struct Scripts {
    lines: Lines,
}

impl Bench for Scripts {
    fn begin(&mut self, _alloc: Global) -> Result<(), AllocError> {
        Ok(())
    }

    fn answer(&mut self, alloc: Global, step: &Step) -> Result<Vec<u8>, AllocError> {
        let Ok(text) = str::from_utf8(&step.input) else {
            return b"no text\n".to_vec(alloc);
        };
        let words = step.words.as_str();
        match step.verb.as_str() {
            "channel" => self.lines.set(alloc, words, text),
            "admit" => flows::answer(alloc, text),
            verb => answers::answer(alloc, verb, words, text, &self.lines),
        }
    }
}

fn main(rt: HostRuntime) -> io::Result<()> {
    let lines = Lines::new(rt.alloc())?;
    try_files(&rt, &mut Scripts { lines })
}
