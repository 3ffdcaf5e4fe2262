//! A workflow of three tasks, its catalog and its executions in flight.
ghost use Rattle.std.specs.Prelude.{◌≡◌, length, IfOk, IfSome, IsTrue};
ghost use Rattle.nova_workflow.specs.Whole.{IsFlow};
ghost use Rattle.nova_trigger.specs.Due.{IsOneWorkflow};

use crate::wired::wiring_of;
use nova_flow::{FlowFault, read_flow};
use nova_meta::{Captured, Catalog, Commit, MetaFault};
use nova_trigger::{InFlight, capture, due, first_due};
use nova_workflow::Flow;
use sqlite_items::Items;
use std::alloc::{AllocError, Global};

/// The text of the workflow, and what its commits and its executions led to.
#[derive(Drop)]
pub struct Stand {
    text: String,
    catalog: Catalog,
    flight: InFlight,
}

/// The channels of the workflow: two inputs, and what each task writes.
const CHANNELS: &str = "\
[[channel]]
name = \"raw\"
columns = [\"id long\"]
key = [\"id\"]
[[channel]]
name = \"pages\"
columns = [\"id long\"]
key = [\"id\"]
[[channel]]
name = \"picked\"
columns = [\"id long\"]
key = [\"id\"]
[[channel]]
name = \"counted\"
columns = [\"id long\"]
key = [\"id\"]
[[channel]]
name = \"summed\"
columns = [\"id long\"]
key = [\"id\"]
";

/// Adds a task.
fn add_task(
    alloc: Global,
    text: &mut String,
    name: &str,
    inputs: &str,
    output: &str,
    trigger: &str,
) -> Result<(), AllocError> {
    let task = format!(in alloc;
        "[[task]]\nname = \"{name}\"\nscript = \"\"\ninputs = [{inputs}]\noutput = \"{output}\"\ntrigger = \"{trigger}\"\n"
    )?;
    text.push_str(task.as_str())
}

/// The workflow whose tasks have these triggers, parted by `, `.
fn text_of(alloc: Global, triggers: &str) -> Result<String, AllocError> {
    let (first, others) = triggers.split_once(", ").unwrap_or((triggers, ""));
    let (second, third) = others.split_once(", ").unwrap_or((others, ""));
    let mut text = String::from_str(alloc, CHANNELS)?;
    let both = "\"raw NEW\", \"pages ALL\"";
    add_task(alloc, &mut text, "pick", both, "picked DELTA", first)?;
    add_task(
        alloc,
        &mut text,
        "count",
        "\"picked NEW\"",
        "counted DELTA",
        second,
    )?;
    add_task(
        alloc,
        &mut text,
        "sum",
        "\"counted ALL\"",
        "summed BASE",
        third,
    )?;
    Ok(text)
}

/// The workflow of a text, or None where it is none.
fn flow_of(alloc: Global, text: &str) -> Result<Option<Flow>, AllocError>
    ensures { IfOk result (λ found. IfSome found IsFlow) }
{
    match read_flow(alloc, text.as_bytes()) {
        Ok(flow) => Ok(Some(flow)),
        Err(FlowFault::NoMemory) => Err(AllocError),
        Err(_) => Ok(None),
    }
}

/// The workflow with its catalog and its executions in flight, whose numbers of channels and tasks
/// are the same.
fn is_one(flow: &Flow, catalog: &Catalog, flight: &InFlight) -> bool
    ensures channels { IsTrue result → length catalog.now.channels ≡ length flow.now.channels }
    ensures tasks { IsTrue result → length catalog.now.tasks ≡ length flow.now.tasks }
    ensures flights { IsTrue result → length flight.now ≡ length flow.now.tasks }
{
    flow.channels.len() == catalog.channel_count() as usize
        && flow.tasks.len() == catalog.task_count() as usize
        && flow.tasks.len() == flight.len()
}

/// The numbers of the tasks that are due, and the first.
fn due_tasks(
    alloc: Global,
    flow: &Flow,
    catalog: &Catalog,
    flight: &InFlight,
) -> Result<Vec<u8>, AllocError>
    requires { IsOneWorkflow flow.now catalog.now flight.now }
{
    let mut told = String::new(alloc);
    for task in 0..catalog.task_count() {
        if due(flow, catalog, flight, task) {
            told.push_str(format!(in alloc; "{task} is due\n")?.as_str())?;
        }
    }
    if let Some(task) = first_due(flow, catalog, flight) {
        told.push_str(format!(in alloc; "{task} is the first\n")?.as_str())?;
    }
    Ok(told.into_bytes())
}

/// A capture.
fn told(alloc: Global, captured: &Captured) -> Result<Vec<u8>, AllocError> {
    let mut told = String::from_str(alloc, "versions")?;
    for version in captured.versions.as_slice() {
        told.push_str(format!(in alloc; " {version}")?.as_str())?;
    }
    let (moment, seen) = (captured.moment, captured.seen);
    told.push_str(format!(in alloc; ", moment {moment}, seen {seen}\n")?.as_str())?;
    Ok(told.into_bytes())
}

/// A commit more, or None where it breaks a rule.
fn with_commit(
    alloc: Global,
    catalog: &mut Catalog,
    commit: &Commit,
) -> Result<Option<()>, AllocError> {
    match catalog.prepare(alloc, commit) {
        Ok(prepared) => {
            catalog.apply(prepared);
            Ok(Some(()))
        }
        Err(MetaFault::BadRecord) => Ok(None),
        Err(MetaFault::NoMemory) => Err(AllocError),
    }
}

/// The run of a task that captured this.
fn run_of(
    alloc: Global,
    catalog: &Catalog,
    task: u32,
    captured: &Captured,
) -> Result<Commit, AllocError> {
    Ok(Commit::Run {
        task,
        versions: Items::from_slice(alloc, captured.versions.as_slice())?,
        moment: captured.moment,
        seen: captured.seen,
        block: catalog.next_block(),
        size: 8,
        parts: Items::new(alloc),
    })
}

impl Stand {
    /// A store of the workflow whose tasks have these triggers, or None where it is no workflow.
    pub fn start(alloc: Global, triggers: &str) -> Result<Option<Stand>, AllocError> {
        let text = text_of(alloc, triggers)?;
        let Some(flow) = flow_of(alloc, text.as_str())? else {
            return Ok(None);
        };
        let wiring = wiring_of(alloc, flow.tasks.as_slice())?;
        let mut catalog = Catalog::start(alloc, wiring)?;
        let begun = Commit::Flow {
            text: Items::new(alloc),
        };
        let _ = with_commit(alloc, &mut catalog, &begun)?;
        Ok(Some(Stand {
            text,
            catalog,
            flight: InFlight::new(alloc, 3)?,
        }))
    }

    /// What a task captures whose execution begins now, or None where there is no such task.
    fn captured(&self, alloc: Global, task: u32) -> Result<Option<Captured>, AllocError> {
        let Some(flow) = flow_of(alloc, self.text.as_str())? else {
            return Ok(None);
        };
        if !is_one(&flow, &self.catalog, &self.flight) || task >= self.catalog.task_count() {
            return Ok(None);
        }
        Ok(Some(capture(&flow, &self.catalog, &self.flight, task)))
    }

    /// The tasks that are due.
    fn due(&self, alloc: Global) -> Result<Vec<u8>, AllocError> {
        let Some(flow) = flow_of(alloc, self.text.as_str())? else {
            return b"no workflow\n".to_vec(alloc);
        };
        if !is_one(&flow, &self.catalog, &self.flight) {
            return b"not one workflow\n".to_vec(alloc);
        }
        due_tasks(alloc, &flow, &self.catalog, &self.flight)
    }

    /// A load of a channel.
    fn load(&mut self, alloc: Global, channel: u32) -> Result<Option<()>, AllocError> {
        let load = Commit::Load {
            channel,
            block: self.catalog.next_block(),
            size: 8,
        };
        with_commit(alloc, &mut self.catalog, &load)
    }

    /// Begins an execution of a task that isn't in flight.
    fn begin(&mut self, alloc: Global, task: u32) -> Result<Option<()>, AllocError> {
        let Some(captured) = self.captured(alloc, task)? else {
            return Ok(None);
        };
        if task as usize >= self.flight.len() || self.flight.is_in_flight(task) {
            return Ok(None);
        }
        self.flight.begin(task, captured);
        Ok(Some(()))
    }

    /// Ends the execution of a task, and hands out what it captured.
    fn end(&mut self, task: u32) -> Option<Captured> {
        if task as usize >= self.flight.len() {
            return None;
        }
        self.flight.end(task)
    }

    /// Ends the execution of a task, whose run is committed.
    fn finish(&mut self, alloc: Global, task: u32) -> Result<Option<()>, AllocError> {
        let Some(captured) = self.end(task) else {
            return Ok(None);
        };
        let run = run_of(alloc, &self.catalog, task, &captured)?;
        with_commit(alloc, &mut self.catalog, &run)
    }

    /// A step that changes something, or None where it may not be taken.
    fn step(&mut self, alloc: Global, verb: &str, number: u64) -> Result<Option<()>, AllocError> {
        let place = u32::try_from(number).unwrap_or(u32::MAX);
        match verb {
            "load" => self.load(alloc, place),
            "tick" => with_commit(alloc, &mut self.catalog, &Commit::Tick { moment: number }),
            "begin" => self.begin(alloc, place),
            "finish" => self.finish(alloc, place),
            "drop" => Ok(self.end(place).map(|_| ())),
            _ => Ok(None),
        }
    }

    /// What a step answers: nothing where it is taken.
    pub fn answer(
        &mut self,
        alloc: Global,
        verb: &str,
        words: &str,
    ) -> Result<Vec<u8>, AllocError> {
        match verb {
            "start" => return Ok(Vec::new(alloc)),
            "due" => return self.due(alloc),
            _ => {}
        }
        let Ok(number) = words.parse::<u64>() else {
            return b"no number\n".to_vec(alloc);
        };
        if verb == "capture" {
            return match self.captured(alloc, u32::try_from(number).unwrap_or(u32::MAX))? {
                Some(captured) => told(alloc, &captured),
                None => b"no such task\n".to_vec(alloc),
            };
        }
        match self.step(alloc, verb, number)? {
            Some(()) => Ok(Vec::new(alloc)),
            None => b"refused\n".to_vec(alloc),
        }
    }
}
