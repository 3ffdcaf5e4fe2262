//! `nova_channel_cases`: tries deltas, tables and reads of a channel by the cases of the files that
//! its words name. Rows are of two numbers, of which the first is the key.
#![tactic(auto)]

mod channel;
mod delta;
mod rows;
mod table;

use channel::Channel;
use nova_case::{Bench, Step, try_files};
use std::alloc::{AllocError, Global};
use std::io;

/// The channel of a case.
#[derive(Drop)]
struct Channels {
    channel: Channel,
}

impl Bench for Channels {
    fn begin(&mut self, alloc: Global) -> Result<(), AllocError> {
        self.channel = Channel::new(alloc)?;
        Ok(())
    }

    fn answer(&mut self, alloc: Global, step: &Step) -> Result<Vec<u8>, AllocError> {
        match step.verb.as_str() {
            "merge" | "chain" | "puts" | "keys" => delta::answer(alloc, step),
            "three" => table::answer(alloc, step),
            _ => self.channel.answer(alloc, step),
        }
    }
}

fn main(rt: HostRuntime) -> io::Result<()> {
    let channel = Channel::new(rt.alloc())?;
    try_files(&rt, &mut Channels { channel })
}
