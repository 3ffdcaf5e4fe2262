//! `nova_drill_cases`: tries the commands of drills by the cases of the files that its words name.
#![tactic(auto)]

mod shown;

use nova_case::{Bench, Step, try_files};
use nova_drill::{Drill, flow_text};
use std::alloc::{AllocError, Global};
use std::io;

/// The drill of a case, from its step `drill` on.
#[derive(Drop)]
struct Commands {
    drill: Option<Drill>,
}

/// The number that these words are.
fn number(words: &str) -> u64 {
    words.parse::<u64>().unwrap_or(0)
}

/// Begins a drill, where the number is one of rounds.
fn begun(count: u64) -> Option<Drill> {
    if (1..=5000).contains(&count) {
        return Some(Drill::new(count));
    }
    None
}

/// The next commands, at most so many.
fn next(alloc: Global, drill: &mut Drill, count: u64) -> Result<Vec<u8>, AllocError> {
    let mut out = Vec::new(alloc);
    for _ in 0..count {
        let step = drill.next(alloc)?;
        shown::add_step(alloc, &mut out, step.as_ref())?;
    }
    Ok(out)
}

/// Passes over commands, at most so many, and says how many there were.
fn skip(alloc: Global, drill: &mut Drill, count: u64) -> Result<Vec<u8>, AllocError> {
    let mut found = 0u64;
    for _ in 0..count {
        if drill.next(alloc)?.is_some() {
            found = found.saturating_add(1);
        }
    }
    Ok(format!(in alloc; "{found}\n")?.into_bytes())
}

/// What a step of a drill answers.
fn answer(alloc: Global, drill: &mut Drill, verb: &str, count: u64) -> Result<Vec<u8>, AllocError> {
    match verb {
        "drill" => Ok(Vec::new(alloc)),
        "next" => next(alloc, drill, count),
        "skip" => skip(alloc, drill, count),
        _ => b"no such step\n".to_vec(alloc),
    }
}

impl Bench for Commands {
    fn begin(&mut self, _alloc: Global) -> Result<(), AllocError> {
        self.drill = None;
        Ok(())
    }

    fn answer(&mut self, alloc: Global, step: &Step) -> Result<Vec<u8>, AllocError> {
        let count = number(step.words.as_str());
        match step.verb.as_str() {
            "flow" => return flow_text().as_bytes().to_vec(alloc),
            "drill" => self.drill = begun(count),
            _ => {}
        }
        match &mut self.drill {
            Some(drill) => answer(alloc, drill, step.verb.as_str(), count),
            None => b"no drill\n".to_vec(alloc),
        }
    }
}

fn main(rt: HostRuntime) -> io::Result<()> {
    try_files(&rt, &mut Commands { drill: None })
}
