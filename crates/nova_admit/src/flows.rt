//! The tasks of a workflow with their patterns, in file order.
ghost use Rattle.std.specs.Prelude.{◌≡◌, ◌<◌, length, map, IfOk};
ghost use Rattle.std.specs.List.{AllByRecursion};
ghost use Rattle.nova_admit.specs.TaskPlans.{kind_of};
ghost use Rattle.nova_admit.specs.Flows as spec;

use crate::fault::AdmitFault;
use crate::plans::{Pattern, admit_task};
use crate::script::{ScriptFault, plan_of_text};
use nova_pig_algebra::Plan;
use nova_pig_parse::ParseFault;
use nova_pig_pattern::{Input, TaskFault};
use nova_pig_plan::{Channels, PlanFault};
use nova_value::{Name, Schema};
use nova_workflow::{Channel, Flow, Input as Edge, Mode, Task};
use sqlite_items::Items;
use std::alloc::{AllocError, Global};

/// A channel's name and schema, copied.
fn named(alloc: Global, flow: &Flow, channel: u32) -> Result<(Name, Schema), AllocError>
    requires { channel < length flow.now.channels }
    ensures { IfOk result (λ c. c ≡ spec.named (spec.channel_at flow.now channel)) }
{
    let channel: &Channel = &flow.channels.as_slice()[channel as usize];
    let schema = channel.schema.copy(alloc)?;
    Ok((channel.name.copy(), schema))
}

/// The names and schemas of inputs.
fn named_inputs(
    alloc: Global,
    flow: &Flow,
    inputs: &[Edge],
) -> Result<Items<(Name, Schema)>, AllocError>
    requires { spec.AreWithin flow.now inputs.now }
    ensures { IfOk result (λ cs. cs ≡ spec.named_inputs flow.now inputs.now) }
{
    let mut all = Items::new(alloc);
    for input in inputs {
        let input = named(alloc, flow, input.channel)?;
        all.push(input)?;
    }
    Ok(all)
}

/// The channels of a task as its script sees them.
fn channels_of(alloc: Global, flow: &Flow, task: &Task) -> Result<Channels, AllocError>
    requires { spec.IsWithin flow.now task.now }
    ensures { IfOk result (λ c. c ≡ spec.channels_of flow.now task.now) }
{
    let inputs = named_inputs(alloc, flow, task.inputs.as_slice())?;
    let output = named(alloc, flow, task.output)?;
    Ok(Channels { inputs, output })
}

/// The name of a channel.
fn name_of(flow: &Flow, channel: u32) -> Name
    ensures { result ≡ (spec.channel_at flow.now channel).name }
{
    match flow.channels.get(channel as usize) {
        Some(channel) => channel.name.copy(),
        None => Name::new(""),
    }
}

/// Whether a channel is written as BASE.
fn is_based(flow: &Flow, channel: u32) -> bool
    ensures { result ≡ (spec.channel_at flow.now channel).based }
{
    match flow.channels.get(channel as usize) {
        Some(channel) => channel.based,
        None => false,
    }
}

/// Whether it is NEW.
fn is_new(mode: Mode) -> bool
    ensures { result ≡ spec.is_new mode }
{
    match mode {
        Mode::New => true,
        Mode::All => false,
    }
}

/// Inputs as a pattern sees them.
fn inputs_of(alloc: Global, flow: &Flow, inputs: &[Edge]) -> Result<Vec<Input>, AllocError>
    ensures { IfOk result (λ is. is.items ≡ map (spec.input_of flow.now) inputs.now) }
{
    let mut all = Vec::with_capacity(alloc, inputs.len())?;
    for input in inputs {
        all.push(Input {
            channel: input.channel,
            is_new: is_new(input.mode),
            based: is_based(flow, input.channel),
        })?;
    }
    Ok(all)
}

/// The fault of a task.
fn fault_of(flow: &Flow, task: &Name, fault: TaskFault) -> AdmitFault
    ensures { result ≡ spec.fault_of flow.now task.now fault }
{
    let task = task.copy();
    match fault {
        TaskFault::NoKey => AdmitFault::NoKey { task },
        TaskFault::KeyDiffers => AdmitFault::KeyDiffers { task },
        TaskFault::BaseReadAsNew { channel } => AdmitFault::BaseReadAsNew {
            task,
            channel: name_of(flow, channel),
        },
        TaskFault::NotAPattern => AdmitFault::NotAPattern { task },
    }
}

/// The fault of a task's script.
fn script_fault(task: &Name, fault: ScriptFault) -> AdmitFault
    ensures { result ≡ spec.script_fault task.now fault }
{
    match fault {
        ScriptFault::Parse(ParseFault::NoMemory) => AdmitFault::NoMemory,
        ScriptFault::Plan(PlanFault::NoMemory) => AdmitFault::NoMemory,
        _ => AdmitFault::Script {
            task: task.copy(),
            fault,
        },
    }
}

/// The pattern of a task with this plan, or its fault.
fn with_plan(alloc: Global, flow: &Flow, task: &Task, plan: Plan) -> Result<Pattern, AdmitFault>
    ensures { spec.GivesWithPlan flow.now task.now plan result }
{
    let inputs = inputs_of(alloc, flow, task.inputs.as_slice())?;
    match admit_task(alloc, plan, &inputs, task.based)? {
        Ok(pattern) => Ok(pattern),
        Err(fault) => Err(fault_of(flow, &task.name, fault)),
    }
}

/// The pattern of a task, or its first fault: that of its script comes before those of its plan.
fn pattern_of(alloc: Global, flow: &Flow, task: &Task) -> Result<Pattern, AdmitFault>
    requires { spec.IsWithin flow.now task.now }
    ensures { spec.GivesPattern flow.now task.now result }
{
    let channels = channels_of(alloc, flow, task)?;
    match plan_of_text(alloc, task.script.text(), &channels) {
        Ok(plan) => {
            let pattern = with_plan(alloc, flow, task, plan)?;
            Ok(pattern)
        }
        Err(fault) => Err(script_fault(&task.name, fault)),
    }
}

/// The patterns of these tasks, or the fault of the first that isn't admitted.
pub(crate) fn patterns_of(
    alloc: Global,
    flow: &Flow,
    tasks: &[Task],
) -> Result<Items<Pattern>, AdmitFault>
    requires { AllByRecursion (spec.IsWithin flow.now) tasks.now }
    ensures { spec.IsAdmission flow.now tasks.now result }
{
    let mut patterns = Items::new(alloc);
    for task in tasks {
        let pattern = pattern_of(alloc, flow, task)?;
        patterns.push(pattern)?;
    }
    Ok(patterns)
}
