//! Cases, line by line.
use crate::step::{Bench, Step};
use std::alloc::Global;
use std::io;

/// The cases of a file as far as they were taken: the last one, and its last step.
#[derive(Drop)]
pub struct Trial<'a> {
    alloc: Global,
    file: &'a str,
    name: String,
    step: Option<Step>,
    steps: u64,
    is_as_wanted: bool,
    agreeing: u64,
}

impl<'a> Trial<'a> {
    /// No case yet.
    pub fn new(alloc: Global, file: &'a str) -> Trial<'a> {
        Trial {
            alloc,
            file,
            name: String::new(alloc),
            step: None,
            steps: 0,
            is_as_wanted: true,
            agreeing: 0,
        }
    }

    /// How many cases with a step were as wanted.
    pub fn agreeing(&self) -> u64 {
        self.agreeing
    }

    /// Takes a line.
    pub fn take<B: Bench>(&mut self, rt: &impl Print, bench: &mut B, line: &str) -> io::Result<()> {
        if line.is_empty() {
            return Ok(());
        }
        let (mark, text) = line.split_once(' ').unwrap_or((line, ""));
        match mark {
            "#" => Ok(()),
            "=" => self.begin_case(rt, bench, text),
            "$" => self.begin_step(rt, bench, text),
            _ => self.add_to_step(rt, mark, text),
        }
    }

    fn begin_case<B: Bench>(
        &mut self,
        rt: &impl Print,
        bench: &mut B,
        name: &str,
    ) -> io::Result<()> {
        self.end_case(rt, bench)?;
        self.name = String::from_str(self.alloc, name)?;
        bench.begin(self.alloc)?;
        Ok(())
    }

    fn begin_step<B: Bench>(
        &mut self,
        rt: &impl Print,
        bench: &mut B,
        line: &str,
    ) -> io::Result<()> {
        self.end_step(rt, bench)?;
        self.step = Some(Step::new(self.alloc, line)?);
        Ok(())
    }

    fn add_to_step(&mut self, rt: &impl Print, mark: &str, text: &str) -> io::Result<()> {
        let is_added = match &mut self.step {
            Some(step) => step.add(self.alloc, mark, text)?,
            None => false,
        };
        if is_added {
            return Ok(());
        }
        self.tell(rt, "no such mark, or no step before it: ", mark)
    }

    /// Tells that the case isn't as wanted, and why.
    fn tell(&mut self, rt: &impl Print, why: &str, text: &str) -> io::Result<()> {
        self.is_as_wanted = false;
        let (file, name) = (self.file, self.name.as_str());
        println!(rt; "{file}: {name}: {why}{text}")
    }

    fn end_step<B: Bench>(&mut self, rt: &impl Print, bench: &mut B) -> io::Result<()> {
        let Some(step) = self.step.take() else {
            return Ok(());
        };
        self.steps = self.steps.saturating_add(1);
        let found = bench.answer(self.alloc, &step)?;
        if found.as_slice() == step.wanted.as_slice() {
            return Ok(());
        }
        let wanted = str::from_utf8(&step.wanted).unwrap_or("no text");
        let found = str::from_utf8(&found).unwrap_or("no text");
        self.tell(rt, "at $ ", step.verb.as_str())?;
        println!(rt; "wanted:\n{wanted}found:\n{found}")
    }

    /// Ends the last case, and counts it where it was as wanted.
    pub fn end_case<B: Bench>(&mut self, rt: &impl Print, bench: &mut B) -> io::Result<()> {
        self.end_step(rt, bench)?;
        if self.is_as_wanted && self.steps > 0 {
            self.agreeing = self.agreeing.saturating_add(1);
        }
        self.steps = 0;
        self.is_as_wanted = true;
        Ok(())
    }
}
