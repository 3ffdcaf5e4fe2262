//! `nova_host_cases`: tries calls of hosts, in memory and over a folder, by the cases of the files
//! that its words name.
#![tactic(auto)]

mod call;
mod journal;
mod memory;
mod place;
mod quiet;
mod watched;

use call::number;
use nova_case::{Bench, Step, try_files};
use nova_dir::DirHost;
use nova_journal::Journal;
use quiet::Quiet;
use std::alloc::{AllocError, Global};
use std::io;
use watched::Watched;

/// What calls are made of.
#[derive(Clone, Copy, PartialEq, Eq)]
enum Target {
    /// The host in memory and host 0 over a folder, which have to answer alike.
    Both,
    /// The host in memory.
    Memory,
    /// The host with this number over a folder.
    Folder(u64),
}

/// A host over a folder, its number, and the journal that was opened in it.
#[derive(Drop)]
struct Folder<'r> {
    number: u64,
    host: DirHost<'r, Watched>,
    log: Option<Journal>,
}

/// A host in memory, with the journal that was opened in it; hosts over folders; and what calls are
/// made of.
#[derive(Drop)]
struct Hosts<'r> {
    rt: &'r Watched,
    memory: Quiet,
    log: Option<Journal>,
    folders: Vec<Folder<'r>>,
    target: Target,
}

impl<'r> Hosts<'r> {
    /// No host over a folder yet.
    fn new(rt: &'r Watched) -> Hosts<'r> {
        Hosts {
            rt,
            memory: Quiet::new(rt.alloc()),
            log: None,
            folders: Vec::new(rt.alloc()),
            target: Target::Both,
        }
    }

    fn drop_host(&mut self, number: u64) {
        self.folders.retain(|folder| folder.number != number);
    }

    /// Makes the host with a number, over the folder at a path.
    fn open(&mut self, number: u64, path: &str) -> Result<(), AllocError> {
        self.drop_host(number);
        let host = DirHost::new(self.rt, place::known(path));
        self.folders.push(Folder {
            number,
            host,
            log: None,
        })?;
        Ok(())
    }

    fn of_folder(
        &mut self,
        alloc: Global,
        number: u64,
        step: &Step,
    ) -> Result<Vec<u8>, AllocError> {
        for folder in self.folders.iter_mut() {
            if folder.number == number {
                return call::answer(alloc, &mut folder.host, &mut folder.log, step);
            }
        }
        b"no such host\n".to_vec(alloc)
    }

    /// What a call answers, or both answers where two hosts differ.
    fn call(&mut self, alloc: Global, step: &Step) -> Result<Vec<u8>, AllocError> {
        match self.target {
            Target::Memory => call::answer(alloc, &mut self.memory, &mut self.log, step),
            Target::Folder(number) => self.of_folder(alloc, number, step),
            Target::Both => {
                let mut found = call::answer(alloc, &mut self.memory, &mut self.log, step)?;
                let other = self.of_folder(alloc, 0, step)?;
                if found.as_slice() != other.as_slice() {
                    found.extend_from_slice(b"and over the folder:\n")?;
                    found.extend_from_slice(&other)?;
                }
                Ok(found)
            }
        }
    }

    /// Changes what calls are made of, or the hosts over folders: `over WHERE`, `open HOST PATH`,
    /// `drop HOST`, `refuse PATH`.
    fn set(&mut self, step: &Step) -> Result<(), AllocError> {
        let words = step.words.as_str();
        let (first, path) = words.split_once(' ').unwrap_or((words, ""));
        match (step.verb.as_str(), first) {
            ("over", "both") => self.target = Target::Both,
            ("over", "memory") => self.target = Target::Memory,
            ("over", host) => self.target = Target::Folder(number(Some(host))),
            ("open", host) => self.open(number(Some(host)), path)?,
            ("drop", host) => self.drop_host(number(Some(host))),
            (_, path) => self.rt.refuse(place::known(path)),
        }
        Ok(())
    }
}

impl<'r> Bench for Hosts<'r> {
    fn begin(&mut self, alloc: Global) -> Result<(), AllocError> {
        self.folders.clear();
        place::clear(self.rt);
        self.rt.refuse("");
        let _ = self.rt.opened();
        self.memory = Quiet::new(alloc);
        self.log = None;
        self.target = Target::Both;
        self.open(0, "store")
    }

    fn answer(&mut self, alloc: Global, step: &Step) -> Result<Vec<u8>, AllocError> {
        match step.verb.as_str() {
            "over" | "open" | "drop" | "refuse" => {
                self.set(step)?;
                Ok(Vec::new(alloc))
            }
            "file" | "folder" | "link" | "kind" => place::answer(alloc, self.rt, step),
            "opened" => Ok(format!(in alloc; "{}\n", self.rt.opened())?.into_bytes()),
            "fail" | "bytes" | "counts" | "edit" | "cut" => {
                memory::answer(alloc, &mut self.memory, step)
            }
            "source" | "steady" => memory::take_all(alloc, step),
            _ => self.call(alloc, step),
        }
    }
}

fn main(rt: HostRuntime) -> io::Result<()> {
    let watched = Watched::new(rt.clone()?);
    let mut hosts = Hosts::new(&watched);
    try_files(&rt, &mut hosts)?;
    hosts.folders.clear();
    place::clear(&watched);
    Ok(())
}
