//! `nova_trigger_cases`: tries when tasks are due by the cases of the files that its words name.
#![tactic(auto)]

mod stand;
mod wired;

use nova_case::{Bench, Step, try_files};
use stand::Stand;
use std::alloc::{AllocError, Global};
use std::io;

/// What the steps of a case led to, from its step `start` on.
#[derive(Drop)]
struct Triggers {
    stand: Option<Stand>,
}

impl Bench for Triggers {
    fn begin(&mut self, _alloc: Global) -> Result<(), AllocError> {
        self.stand = None;
        Ok(())
    }

    fn answer(&mut self, alloc: Global, step: &Step) -> Result<Vec<u8>, AllocError> {
        let words = step.words.as_str();
        if step.verb.as_str() == "start" {
            self.stand = Stand::start(alloc, words)?;
        }
        match &mut self.stand {
            Some(stand) => stand.answer(alloc, step.verb.as_str(), words),
            None => b"no workflow\n".to_vec(alloc),
        }
    }
}

fn main(rt: HostRuntime) -> io::Result<()> {
    try_files(&rt, &mut Triggers { stand: None })
}
