//! Workflows of texts.
ghost use Rattle.std.specs.Prelude.{◌≡◌, ◌<◌, ◌^◌, length, map, is_some, IfOk, IfSome};
ghost use Rattle.nova_script.specs.Session.{place_from};
ghost use Rattle.nova_workflow.specs.declared.flow.Channel.{Channel as Seen};
ghost use Rattle.nova_workflow.specs.declared.flow.Task.{Task as SeenTask};
ghost use Rattle.nova_pig_algebra.specs.Plan.{IsPlan};
ghost use Rattle.nova_admit.specs.Flows.{HavePatterns};
ghost use Rattle.nova_admit.specs.TaskPlans.{kind_of, plan_of};
ghost use Rattle.nova_machine.specs.Workflow.{channel_in, output_in, schema_in, task_in};
ghost use Rattle.nova_execution.specs.Groups.{keeps_state as pattern_keeps};
ghost use Rattle.nova_runner.specs.Acts.{keeps_in};
ghost use Rattle.nova_runner.specs.Flights.{flow_of};
ghost use Rattle.nova_runner.specs.Texts.{Admits, ArePlans, HasFlow, Says, workflow_of};
ghost use Rattle.nova_runner.specs.Workflow.{FlowsAreAdmitted};

use crate::text::TextFault;
use nova_admit::{AdmitFault, Admitted, Pattern, admit};
use nova_flow::FlowFault;
use nova_value::{Name, Schema};
use nova_workflow::{Channel, Flow, Task};
use sqlite_items::Items;
use std::alloc::{AllocError, Global};
use std::marker::Model;

/// A workflow, as its text says it.
#[derive(Drop)]
pub struct Workflow {
    text: Items<u8>,
    admitted: Admitted,
}

impl Model for Workflow {
    ghost use Rattle.nova_machine.specs.Workflow.{Workflow as Seen};
    ghost use Rattle.nova_runner.specs.Texts.{HasFlow, workflow_of};
    ghost use Rattle.nova_pig_algebra.specs.contracts.node.PlanExpr as e;
    ghost use Rattle.std.specs.Coded.{codes};

    ghost Value = { Seen };

    ghost coded = { Prim.hlevel (codes, e.the_row.coded) };

    ghost view = { λ w. workflow_of w.text w.admitted.flow w.admitted.patterns };

    ghost invariant = { λ w. HasFlow w.text (workflow_of w.text w.admitted.flow w.admitted.patterns) };
}

/// Each workflow that a text says keeps the rules on which the store rests.
pub fn flows_are_admitted()
    ensures { FlowsAreAdmitted }
{}

/// A copy of bytes.
pub(crate) fn copied(alloc: Global, bytes: &[u8]) -> Result<Items<u8>, AllocError>
    ensures { IfOk result (λ items. items ≡ bytes.now) }
{
    let mut copy = Vec::new(alloc);
    copy.extend_from_slice(bytes)?;
    Ok(Items::from_vec(copy))
}

/// The plan of a pattern is one, as its type keeps it.
fn is_plan(pattern: &Pattern)
    ensures { IsPlan (plan_of pattern.now) }
{
    let plan = match pattern {
        Pattern::N(plan) => plan,
        Pattern::S(rows) => rows.plan(),
        Pattern::L(rows) => rows.plan(),
        Pattern::F(groups) => groups.plan(),
    };
    let _nodes = plan.nodes();
}

/// So is each plan of an admitted workflow.
fn are_plans(admitted: &Admitted)
    requires { HavePatterns admitted.now.flow admitted.now.flow.tasks admitted.now.patterns }
    ensures { ArePlans admitted.now.patterns }
{
    for task in 0..admitted.flow().tasks.len() as u32 {
        is_plan(admitted.pattern(task));
    }
}

/// The admitted workflow that a text reads as, or the text's first fault.
fn admit_text(alloc: Global, text: &[u8]) -> Result<Result<Admitted, TextFault>, AllocError>
    ensures { IfOk result (Admits text.now) }
{
    let flow = match nova_flow::read_flow(alloc, text) {
        Ok(flow) => flow,
        Err(FlowFault::NoMemory) => return Err(AllocError),
        Err(fault) => return Ok(Err(TextFault::Flow(fault))),
    };
    match admit(alloc, flow) {
        Ok(admitted) => Ok(Ok(admitted)),
        Err(AdmitFault::NoMemory) => Err(AllocError),
        Err(fault) => Ok(Err(TextFault::Admit(fault))),
    }
}

/// The workflow that a text says, or the text's first fault.
pub fn read_flow(alloc: Global, text: &[u8]) -> Result<Result<Workflow, TextFault>, AllocError>
    ensures { IfOk result (Says text.now) }
{
    match admit_text(alloc, text)? {
        Ok(admitted) => {
            are_plans(&admitted);
            let text = copied(alloc, text)?;
            Ok(Ok(Workflow { text, admitted }))
        }
        Err(fault) => Ok(Err(fault)),
    }
}

/// Whether runs of the pattern keep state.
pub(crate) fn keeps_state(pattern: &Pattern) -> bool
    ensures { result ≡ pattern_keeps (kind_of pattern.now) }
{
    match pattern {
        Pattern::N(_) => false,
        Pattern::S(_) => false,
        Pattern::L(_) => false,
        Pattern::F(_) => true,
    }
}

/// The number of the first of these channels that has a name.
fn channel_with(channels: &[Channel], name: &Name) -> Option<u32>
    requires { length channels.now < 2 ^ 32 }
    ensures place { result ≡ place_from 0 (map (λ (c : Seen). c.name) channels.now) name.now }
    ensures in_range { IfSome result (λ c. c < length channels.now) }
{
    let mut place = 0;
    for channel in channels {
        if name.text() == channel.name.text() {
            return Some(place);
        }
        place += 1;
    }
    None
}

/// The number of the first of these tasks that has a name.
fn task_with(tasks: &[Task], name: &Name) -> Option<u32>
    requires { length tasks.now < 2 ^ 32 }
    ensures place { result ≡ place_from 0 (map (λ (t : SeenTask). t.name) tasks.now) name.now }
    ensures in_range { IfSome result (λ t. t < length tasks.now) }
{
    let mut place = 0;
    for task in tasks {
        if name.text() == task.name.text() {
            return Some(place);
        }
        place += 1;
    }
    None
}

impl Workflow {
    /// The workflow with the patterns of its tasks.
    pub(crate) fn admitted(&self) -> &Admitted
        ensures same { workflow_of self.now.text result.now.flow result.now.patterns ≡ self.now }
        ensures says { HasFlow self.now.text self.now }
    {
        &self.admitted
    }

    /// The text that it was read from.
    pub fn text(&self) -> &[u8]
        ensures { result.now ≡ self.now.text }
    {
        self.text.as_slice()
    }

    /// Its channels and its tasks, as triggers see them.
    pub(crate) fn flow(&self) -> &Flow
        ensures { result.now ≡ flow_of self.now }
    {
        self.admitted.flow()
    }

    /// How many channels it has.
    pub fn channel_count(&self) -> u32
        ensures { result ≡ length self.now.channels }
    {
        self.admitted.flow().channels.len() as u32
    }

    /// How many tasks it has.
    pub fn task_count(&self) -> u32
        ensures { result ≡ length self.now.tasks }
    {
        self.admitted.flow().tasks.len() as u32
    }

    /// The number of the channel with a name.
    pub fn channel_named(&self, name: &Name) -> Option<u32>
        ensures place { result ≡ place_from 0 (map (λ (c : Seen). c.name) self.now.channels) name.now }
        ensures in_range { IfSome result (λ c. c < length self.now.channels) }
    {
        channel_with(self.admitted.flow().channels.as_slice(), name)
    }

    /// The number of the task with a name.
    pub fn task_named(&self, name: &Name) -> Option<u32>
        ensures place { result ≡ place_from 0 (map (λ (t : SeenTask). t.name) self.now.tasks) name.now }
        ensures in_range { IfSome result (λ t. t < length self.now.tasks) }
    {
        task_with(self.admitted.flow().tasks.as_slice(), name)
    }

    /// The channel that a task writes.
    pub(crate) fn output(&self, task: u32) -> u32
        requires { task < length self.now.tasks }
        ensures { result ≡ output_in self.now task }
    {
        let tasks = self.admitted.flow().tasks.as_slice();
        let task = &tasks[task as usize];
        task.output
    }

    /// How many inputs a task has.
    pub(crate) fn input_count(&self, task: u32) -> usize
        requires { task < length self.now.tasks }
        ensures { result ≡ length (task_in self.now task).inputs }
    {
        let tasks = self.admitted.flow().tasks.as_slice();
        let task = &tasks[task as usize];
        task.inputs.len()
    }

    /// Whether runs of a task keep state.
    pub(crate) fn keeps_state(&self, task: u32) -> bool
        requires { task < length self.now.tasks }
        ensures { result ≡ keeps_in self.now task }
    {
        keeps_state(self.admitted.pattern(task))
    }

    /// Whether a task writes a channel.
    pub fn has_writer(&self, channel: u32) -> bool
        requires { channel < length self.now.channels }
        ensures { result ≡ is_some (channel_in self.now channel).writer }
    {
        let channels = self.admitted.flow().channels.as_slice();
        let channel = &channels[channel as usize];
        channel.writer.is_some()
    }

    /// The name of a channel.
    pub fn name(&self, channel: u32) -> &Name
        requires { channel < length self.now.channels }
        ensures { result.now ≡ (channel_in self.now channel).name }
    {
        let channels = self.admitted.flow().channels.as_slice();
        let channel = &channels[channel as usize];
        &channel.name
    }

    /// The name of a task.
    pub fn task_name(&self, task: u32) -> &Name
        requires { task < length self.now.tasks }
        ensures { result.now ≡ (task_in self.now task).name }
    {
        let tasks = self.admitted.flow().tasks.as_slice();
        let task = &tasks[task as usize];
        &task.name
    }

    /// The schema of a channel.
    pub fn schema(&self, channel: u32) -> &Schema
        requires { channel < length self.now.channels }
        ensures { result.now ≡ schema_in self.now channel }
    {
        let channels = self.admitted.flow().channels.as_slice();
        let channel = &channels[channel as usize];
        &channel.schema
    }
}
