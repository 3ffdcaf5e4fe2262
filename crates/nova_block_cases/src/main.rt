//! `nova_block_cases`: reads the blocks of the files that its words name, whole and damaged, tells
//! each that isn't what its line says, and counts the others.
#![tactic(auto)]

mod answer;
mod entry;
mod file;
mod schema;
mod text;
mod trial;

use std::{env, fs, io};
use trial::Trial;

fn main(rt: HostRuntime) -> io::Result<()> {
    for file in env::args(&rt)?.skip(1) {
        let text = fs::read_to_string(&rt, file.as_str())?;
        let mut trial = Trial::new(rt.alloc())?;
        for line in text.as_str().lines() {
            trial.take(&rt, line)?;
        }
        let agreeing = trial.agreeing();
        println!(rt; "{file}: {agreeing} cases")?;
    }
    Ok(())
}
