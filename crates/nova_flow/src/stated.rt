//! A task as its table states it.
ghost use Rattle.std.specs.Prelude.{◌≡◌, option_map};

use nova_value::Name;
use nova_workflow::{Input, ScriptText, Task, Trigger};
use sqlite_items::Items;
use std::alloc::{AllocError, Global};
use std::marker::Model;

/// A task as its table states it, its trigger not yet read.
#[derive(Drop)]
pub(crate) struct Stated<'a> {
    name: Name,
    script: &'a str,
    inputs: Items<Input>,
    output: u32,
    based: bool,
    trigger: Option<&'a str>,
}

impl<'a> Model for Stated<'a> {
    ghost use Rattle.std.specs.Prelude.{option_map as seen};
    ghost use Rattle.nova_flow.specs.Tasks.{Stated as S};

    ghost Value = { S };

    ghost view = { λ t. record { name = t.name; script = t.script.now; inputs = t.inputs; output = t.output; based = t.based; trigger = seen (λ s. s.now) t.trigger } };
}

impl<'a> Stated<'a> {
    ghost use Rattle.std.specs.Prelude.{IfOk};
    ghost use Rattle.nova_flow.specs.Wiring.{with_trigger};

    pub(crate) fn new(
        name: Name,
        script: &'a str,
        inputs: Items<Input>,
        output: u32,
        based: bool,
        trigger: Option<&'a str>,
    ) -> Stated<'a>
        ensures { result ≡ record { name = name; script = script.now; inputs = inputs; output = output; based = based; trigger = option_map (λ s. s.now) trigger.entry } }
    {
        Stated {
            name,
            script,
            inputs,
            output,
            based,
            trigger,
        }
    }

    pub(crate) fn name(&self) -> &Name
        ensures { result.now ≡ self.now.name }
    {
        &self.name
    }

    pub(crate) fn inputs(&self) -> &[Input]
        ensures { result.now ≡ self.now.inputs }
    {
        self.inputs.as_slice()
    }

    pub(crate) fn output(&self) -> u32
        ensures { result ≡ self.now.output }
    {
        self.output
    }

    /// The task with its trigger.
    pub(crate) fn with_trigger(&self, alloc: Global, trigger: Trigger) -> Result<Task, AllocError>
        ensures { IfOk result (λ t. t ≡ with_trigger self.now trigger) }
    {
        Ok(Task {
            name: self.name.copy(),
            script: ScriptText::new(alloc, self.script)?,
            inputs: Items::from_slice(alloc, self.inputs.as_slice())?,
            output: self.output,
            based: self.based,
            trigger,
        })
    }

    pub(crate) fn trigger(&self) -> Option<&'a str>
        ensures { option_map (λ s. s.now) result ≡ self.now.trigger }
    {
        self.trigger
    }
}
