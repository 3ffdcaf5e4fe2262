//! Tries the cases of the files that its words name: bytes that are commits or aren't and what they
//! mean, commits that keep the catalog's rules or break one, and the paths of a catalog.
#![tactic(auto)]

mod case;
mod question;
mod shown;
mod spelling;
mod workflow;

use case::{Case, case_of, comes_out};
use nova_meta::Catalog;
use shown::show;
use std::{env, fs, io};
use workflow::three_tasks;

/// The lines that failed, and how many were tried.
#[derive(Clone, Copy)]
struct Tally {
    tried: u32,
    failed: u32,
}

impl Tally {
    /// One case more.
    fn with(self, came_out: bool) -> Tally {
        Tally {
            tried: self.tried.saturating_add(1),
            failed: self.failed.saturating_add(u32::from(!came_out)),
        }
    }
}

/// Tries the case of a line on the catalog, which `show` prints and `add` changes.
fn try_line(
    rt: &HostRuntime,
    catalog: &mut Catalog,
    line: &str,
    tally: Tally,
) -> io::Result<Tally> {
    let found = case_of(rt.alloc(), line)?;
    match found {
        Case::Nothing => Ok(tally),
        Case::Show => {
            show(rt, catalog)?;
            Ok(tally)
        }
        Case::Unreadable => {
            println!(rt; "unreadable: {line}")?;
            Ok(tally.with(false))
        }
        Case::Commit { wanted, bytes } => {
            let holds = comes_out(rt.alloc(), catalog, wanted, &bytes)?;
            if !holds {
                println!(rt; "came out otherwise: {line}")?;
            }
            Ok(tally.with(holds))
        }
        Case::Question { asked, wanted } => {
            let found = question::answer(rt.alloc(), catalog, asked)?;
            let holds = found.as_str() == wanted;
            if !holds {
                println!(rt; "{asked} = {found}")?;
            }
            Ok(tally.with(holds))
        }
    }
}

/// Tries the cases of a file on a catalog of their own.
fn try_file(rt: &HostRuntime, file: &str) -> io::Result<()> {
    let text = fs::read_to_string(rt, file)?;
    let mut catalog = Catalog::start(rt.alloc(), three_tasks(rt.alloc())?)?;
    let mut tally = Tally {
        tried: 0,
        failed: 0,
    };
    for line in text.lines() {
        tally = try_line(rt, &mut catalog, line, tally)?;
    }
    println!(rt; "{file}: {} cases, {} failed", tally.tried, tally.failed)
}

fn main(rt: HostRuntime) -> io::Result<()> {
    for file in env::args(&rt)?.skip(1) {
        try_file(&rt, file.as_str())?;
    }
    Ok(())
}
