//! `nova_script_cases`: tries scripts' trees, plans and faults by the cases of the files that its
//! words name.
#![tactic(auto)]

mod channels;
mod plan;
mod text;
mod tree;

use nova_case::{Bench, Step, try_files};
use std::alloc::{AllocError, Global};
use std::io;

/// Scripts are tried by themselves.
#[derive(Drop)]
struct Scripts;

impl Bench for Scripts {
    fn begin(&mut self, _alloc: Global) -> Result<(), AllocError> {
        Ok(())
    }

    fn answer(&mut self, alloc: Global, step: &Step) -> Result<Vec<u8>, AllocError> {
        let input = step.input.strip_suffix(b"\n").unwrap_or(&step.input);
        let Ok(text) = str::from_utf8(input) else {
            return b"no text\n".to_vec(alloc);
        };
        match step.verb.as_str() {
            "tokens" => tree::show_tokens(alloc, text),
            "expression" => tree::show_part(alloc, text, true),
            "statement" => tree::show_part(alloc, text, false),
            "tree" => tree::show(alloc, text),
            "plan" => {
                let channels = channels::channels(alloc, step.words.as_str())?;
                plan::show(alloc, text, &channels)
            }
            _ => b"no such step\n".to_vec(alloc),
        }
    }
}

fn main(rt: HostRuntime) -> io::Result<()> {
    try_files(&rt, &mut Scripts)
}
