//! The files that a program's words name.
use crate::step::Bench;
use crate::trial::Trial;
use std::rt::{Env, Files};
use std::{env, fs, io};

/// Tries the cases of a file, and counts those that don't differ.
fn count_agreeing<R: Files + Print + AllocGlobal, B: Bench>(
    rt: &R,
    bench: &mut B,
    file: &str,
) -> io::Result<u64> {
    let text = fs::read_to_string(rt, file)?;
    let mut trial = Trial::new(rt.alloc(), file);
    for line in text.as_str().lines() {
        trial.take(rt, bench, line)?;
    }
    trial.end_case(rt, bench)?;
    Ok(trial.agreeing())
}

/// Tries the cases of each file that the program's words name, prints each that differs, and for
/// each file how many don't.
pub fn try_files<R: Files + Env + Print + AllocGlobal, B: Bench>(
    rt: &R,
    bench: &mut B,
) -> io::Result<()> {
    for file in env::args(rt)?.skip(1) {
        let count = count_agreeing(rt, bench, file.as_str())?;
        println!(rt; "{file}: {count} cases")?;
    }
    Ok(())
}
