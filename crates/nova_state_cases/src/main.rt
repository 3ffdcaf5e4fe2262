//! `nova_state_cases`: tries grouping tasks, by the cases of the files that its words name.
#![tactic(auto)]

mod lines;
mod task;

use nova_case::{Bench, Step, try_files};
use nova_value::Schema;
use std::alloc::{AllocError, Global};
use std::io;
use task::{Task, by_id, by_tag, plan};

/// The task of a case, once it is there.
#[derive(Drop)]
struct Tasks {
    task: Option<Task>,
}

impl Tasks {
    /// Begins a task of this script, whose state is that of no rows.
    fn start(
        &mut self,
        alloc: Global,
        input: Schema,
        kinds: &str,
        script: &str,
    ) -> Result<Vec<u8>, AllocError> {
        match plan(alloc, &input, kinds, script)? {
            Some(plan) => {
                self.task = Some(Task::new(alloc, plan, input));
                Ok(Vec::new(alloc))
            }
            None => b"no grouping task\n".to_vec(alloc),
        }
    }

    /// Gives the task a delta, and answers that of its output.
    fn advance(&mut self, alloc: Global, lines: &str) -> Result<Vec<u8>, AllocError> {
        match self.task.take() {
            Some(task) => {
                let (task, text) = task.advanced(alloc, lines)?;
                self.task = task;
                Ok(text)
            }
            None => b"no task\n".to_vec(alloc),
        }
    }
}

impl Bench for Tasks {
    fn begin(&mut self, _alloc: Global) -> Result<(), AllocError> {
        self.task = None;
        Ok(())
    }

    fn answer(&mut self, alloc: Global, step: &Step) -> Result<Vec<u8>, AllocError> {
        let Ok(text) = str::from_utf8(&step.input) else {
            return b"no text\n".to_vec(alloc);
        };
        match step.verb.as_str() {
            "task" => self.start(alloc, by_id(alloc)?, step.words.as_str(), text),
            "keyed" => self.start(alloc, by_tag(alloc)?, step.words.as_str(), text),
            "advance" => self.advance(alloc, text),
            _ => b"no such step\n".to_vec(alloc),
        }
    }
}

fn main(rt: HostRuntime) -> io::Result<()> {
    try_files(&rt, &mut Tasks { task: None })
}
