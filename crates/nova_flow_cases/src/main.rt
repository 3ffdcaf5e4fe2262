//! `nova_flow_cases`: tries texts of workflows by the cases of the files that its words name.
#![tactic(auto)]

mod shown;

use nova_case::{Bench, Step, try_files};
use std::alloc::{AllocError, Global};
use std::io;

/// A step `flow`: what its input is as a workflow.
#[derive(Clone, Copy, Drop)]
struct Texts;

impl Bench for Texts {
    fn begin(&mut self, _alloc: Global) -> Result<(), AllocError> {
        Ok(())
    }

    fn answer(&mut self, alloc: Global, step: &Step) -> Result<Vec<u8>, AllocError> {
        match step.verb.as_str() {
            "flow" => shown::read(alloc, &step.input),
            _ => b"no such step\n".to_vec(alloc),
        }
    }
}

fn main(rt: HostRuntime) -> io::Result<()> {
    try_files(&rt, &mut Texts)
}
