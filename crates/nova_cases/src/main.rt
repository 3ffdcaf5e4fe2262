//! `nova_cases`: tries calls of the program, rows and keys by the cases of the files that its words
//! name.
#![tactic(auto)]

mod program;
mod values;

use nova_case::{Bench, Step, try_files};
use nova_mem::MemHost;
use std::alloc::{AllocError, Global};
use std::io;

/// How many bytes of its input a call of the program is given at once.
const PIECES: [usize; 3] = [1, 3, 65536];

/// Each case is tried once for each piece size, on a host of its own.
#[derive(Drop)]
struct Hosts {
    hosts: Vec<(usize, MemHost)>,
}

/// What a step answers on a host.
fn answer(
    alloc: Global,
    step: &Step,
    host: &mut MemHost,
    piece: usize,
) -> Result<Vec<u8>, AllocError> {
    match step.verb.as_str() {
        "nova" => program::call(alloc, step, host, piece),
        "edit" | "cut" => program::damage(alloc, step.words.as_str(), host),
        "put" | "fail" => program::prepare(alloc, step, host),
        "file" => program::file(alloc, step.words.as_str(), host),
        "taken" => program::taken(alloc, host),
        "row" => values::row(alloc, &step.input),
        "keys" => values::keys(alloc, &step.input),
        _ => b"no such step\n".to_vec(alloc),
    }
}

impl Bench for Hosts {
    fn begin(&mut self, alloc: Global) -> Result<(), AllocError> {
        self.hosts.clear();
        for piece in PIECES {
            self.hosts.push((piece, MemHost::new(alloc)))?;
        }
        Ok(())
    }

    fn answer(&mut self, alloc: Global, step: &Step) -> Result<Vec<u8>, AllocError> {
        let mut found = Vec::new(alloc);
        for (piece, host) in self.hosts.iter_mut() {
            found = answer(alloc, step, host, *piece)?;
            if found.as_slice() != step.wanted.as_slice() {
                let line = format!(in alloc; "in pieces of {piece}\n")?;
                found.extend_from_slice(line.as_str().as_bytes())?;
                return Ok(found);
            }
        }
        Ok(found)
    }
}

fn main(rt: HostRuntime) -> io::Result<()> {
    let mut hosts = Hosts {
        hosts: Vec::new(rt.alloc()),
    };
    try_files(&rt, &mut hosts)
}
