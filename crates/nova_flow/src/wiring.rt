//! How the tasks of a workflow hang together.
ghost use Rattle.std.specs.Prelude.{◌≡◌, ◌≤◌, length, IfOk};
ghost use Rattle.nova_flow.specs.Answers.{Gives};
ghost use Rattle.nova_workflow.specs.Writers as writers;
ghost use Rattle.nova_flow.specs.Wiring as spec;

use crate::fault::{FlowFault, Stop};
use crate::period::period_of;
use crate::stated::Stated;
use crate::tasks::has_task;
use crate::words::{same_text, two_words};
use nova_value::Name;
use nova_workflow::{Channel, Input, Task, Trigger};
use sqlite_items::Items;
use std::alloc::{AllocError, Global};

/// Whether one of the tasks writes a channel.
fn is_written(channel: u32, tasks: &[Task]) -> bool
    ensures { result ≡ spec.is_written channel tasks.now }
{
    for task in tasks {
        if task.output == channel {
            return true;
        }
    }
    false
}

/// The same of tasks as they are stated.
fn is_output(channel: u32, tasks: &[Stated<'_>]) -> bool
    ensures { result ≡ spec.is_output channel tasks.now }
{
    for task in tasks {
        if task.output() == channel {
            return true;
        }
    }
    false
}

/// The name of a channel.
fn channel_name(channels: &[Channel], channel: u32) -> Name
    ensures { result ≡ spec.channel_name channels.now channel }
{
    match channels.get(channel as usize) {
        Some(channel) => channel.name.copy(),
        None => Name::new("?"),
    }
}

/// TwoWriters: one of the tasks that are done has this output.
fn one_writer(channels: &[Channel], done: &[Task], output: u32) -> Result<(), Stop>
    ensures { Gives result (spec.one_writer channels.now done.now output) }
{
    if is_written(output, done) {
        Err(Stop::Fault(FlowFault::TwoWriters {
            channel: channel_name(channels, output),
        }))
    } else {
        Ok(())
    }
}

/// Whether one of the tasks writes one of the inputs.
fn write_input(tasks: &[Stated<'_>], inputs: &[Input]) -> bool
    ensures { result ≡ spec.write_input tasks.now inputs.now }
{
    for input in inputs {
        if is_output(input.channel, tasks) {
            return true;
        }
    }
    false
}

/// NamedLater: one of the tasks writes one of the inputs.
fn written_before(task: &Name, rest: &[Stated<'_>], inputs: &[Input]) -> Result<(), Stop>
    ensures { Gives result (spec.written_before task.now rest.now inputs.now) }
{
    if write_input(rest, inputs) {
        Err(Stop::Fault(FlowFault::NamedLater { task: task.copy() }))
    } else {
        Ok(())
    }
}

/// BadTrigger of a task.
fn bad_trigger(task: &Name) -> Stop
    ensures { result ≡ spec.bad_trigger task.now }
{
    Stop::Fault(FlowFault::BadTrigger { task: task.copy() })
}

/// The number of the task with this name.
fn task_place(name: &str, tasks: &[Task]) -> Option<usize>
    ensures { result ≡ spec.task_place name.now tasks.now }
{
    tasks
        .iter()
        .position(|task| same_text(task.name.text(), name))
}

/// The trigger after each run of the task with this name.
fn after(task: &Name, done: &[Task], rest: &[Stated<'_>], name: &str) -> Result<Trigger, Stop>
    requires { length done.now ≤ 256 }
    ensures { Gives result (spec.known_after task.now rest.now name.now (spec.task_place name.now done.now)) }
{
    match task_place(name, done) {
        Some(place) => Ok(Trigger::After(place as u32)),
        None => {
            if has_task(name, rest) {
                Err(Stop::Fault(FlowFault::NamedLater { task: task.copy() }))
            } else {
                Err(bad_trigger(task))
            }
        }
    }
}

/// The trigger after each period.
fn every(task: &Name, digits: &str) -> Result<Trigger, Stop>
    ensures { Gives result (spec.every task.now (spec.period_of digits.now)) }
{
    match period_of(digits) {
        Some(period) => Ok(Trigger::Every(period)),
        None => Err(bad_trigger(task)),
    }
}

/// The trigger that a text states.
fn trigger_in(task: &Name, done: &[Task], rest: &[Stated<'_>], text: &str) -> Result<Trigger, Stop>
    requires { length done.now ≤ 256 }
    ensures { Gives result (spec.trigger_of task.now done.now rest.now (Some text.now)) }
{
    if same_text(text, "data") {
        return Ok(Trigger::OnData);
    }
    match two_words(text) {
        Some((first, second)) => {
            if same_text(first, "every") {
                every(task, second)
            } else if same_text(first, "after") {
                after(task, done, rest, second)
            } else {
                Err(bad_trigger(task))
            }
        }
        None => Err(bad_trigger(task)),
    }
}

/// The trigger of a task.
fn trigger_of(task: &Stated<'_>, done: &[Task], rest: &[Stated<'_>]) -> Result<Trigger, Stop>
    requires { length done.now ≤ 256 }
    ensures { Gives result (spec.trigger_of task.now.name done.now rest.now task.now.trigger) }
{
    match task.trigger() {
        Some(text) => trigger_in(task.name(), done, rest, text),
        None => Ok(Trigger::OnData),
    }
}

/// A task behind those that are done, where `rest` is the task and those behind it.
fn settle(
    alloc: Global,
    channels: &[Channel],
    done: &[Task],
    rest: &[Stated<'_>],
    task: &Stated<'_>,
) -> Result<Task, Stop>
    requires { length done.now ≤ 256 }
    ensures { Gives result (spec.settled channels.now done.now rest.now task.now) }
{
    one_writer(channels, done, task.output())?;
    written_before(task.name(), rest, task.inputs())?;
    let trigger = trigger_of(task, done, rest)?;
    Ok(task.with_trigger(alloc, trigger)?)
}

/// The tasks, each among the others.
pub(crate) fn settle_all(
    alloc: Global,
    channels: &[Channel],
    stated: &[Stated<'_>],
) -> Result<Items<Task>, Stop>
    requires { length stated.now ≤ 256 }
    ensures gives { Gives result (spec.all_settled channels.now stated.now) }
    ensures each { IfOk result (λ ts. length ts ≡ length stated.now) }
{
    let mut tasks = Items::new(alloc);
    for (at, task) in stated.iter().enumerate() {
        let rest = &stated[at..];
        let task = settle(alloc, channels, tasks.as_slice(), rest, task)?;
        tasks.push(task)?;
    }
    Ok(tasks)
}

/// Whether a task writes a channel.
fn writes(task: &Task, channel: u32) -> bool
    ensures { result ≡ writers.writes channel task.now }
{
    task.output == channel
}

/// The place of the task that writes a channel.
fn writer_place(tasks: &[Task], channel: u32) -> Option<usize>
    ensures { result ≡ writers.writer_of tasks.now channel }
{
    tasks.iter().position(|task| writes(task, channel))
}

/// The number of the task that writes a channel.
fn writer_of(tasks: &[Task], channel: u32) -> Option<u32>
    requires { length tasks.now ≤ 256 }
    ensures { result ≡ writers.writer_of tasks.now channel }
{
    match writer_place(tasks, channel) {
        Some(place) => Some(place as u32),
        None => None,
    }
}

/// Whether a task writes a channel anew at each run.
fn is_based(tasks: &[Task], channel: u32) -> bool
    ensures { result ≡ writers.is_based tasks.now channel }
{
    for task in tasks {
        if task.output == channel && task.based {
            return true;
        }
    }
    false
}

/// A channel with its writer.
fn wire(
    alloc: Global,
    tasks: &[Task],
    number: u32,
    channel: &Channel,
) -> Result<Channel, AllocError>
    requires { length tasks.now ≤ 256 }
    ensures { IfOk result (λ c. c ≡ spec.wired tasks.now number channel.now) }
{
    Ok(Channel {
        name: channel.name.copy(),
        schema: channel.schema.copy(alloc)?,
        writer: writer_of(tasks, number),
        based: is_based(tasks, number),
    })
}

/// The channels with their writers.
pub(crate) fn wire_all(
    alloc: Global,
    tasks: &[Task],
    channels: &[Channel],
) -> Result<Items<Channel>, AllocError>
    requires tasks { length tasks.now ≤ 256 }
    requires channels { length channels.now ≤ 256 }
    ensures { IfOk result (λ cs. cs ≡ spec.all_wired tasks.now 0 channels.now) }
{
    let mut all = Items::new(alloc);
    for (number, channel) in channels.iter().enumerate() {
        all.push(wire(alloc, tasks, number as u32, channel)?)?;
    }
    Ok(all)
}
