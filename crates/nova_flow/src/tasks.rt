//! The tasks of a workflow, as they are stated.
ghost use Rattle.std.specs.Prelude.{◌≡◌, ◌≤◌, ◌<◌, length, map, IfOk, []};
ghost use Rattle.toml.specs.View.{view};
ghost use Rattle.nova_flow.specs.Answers.{Gives, GivesBy};
ghost use Rattle.nova_flow.specs.Documents.{text_in};
ghost use Rattle.nova_flow.specs.Tasks as spec;

use crate::channels::channel_place;
use crate::document::text_in;
use crate::fault::{FlowFault, Stop};
use crate::rules::{at_most, missing, only, text_if_there, text_needed, texts_needed};
use crate::stated::Stated;
use crate::words::{kept, same_text, two_words};
use nova_name::is_name;
use nova_value::Name;
use nova_workflow::{Channel, Input, Mode};
use sqlite_items::Items;
use std::alloc::Global;
use toml::Value;

/// The two words of a text.
fn words_of(text: &str) -> Result<(&str, &str), Stop>
    ensures { GivesBy (λ w. (w.0.now, w.1.now)) result (spec.words_of text.now) }
{
    match two_words(text) {
        Some(words) => Ok(words),
        None => Err(Stop::Fault(FlowFault::UnknownWord { name: kept(text) })),
    }
}

/// How an input is read.
fn mode_of(word: &str) -> Result<Mode, Stop>
    ensures { Gives result (spec.mode_of word.now) }
{
    match word {
        "ALL" => Ok(Mode::All),
        "NEW" => Ok(Mode::New),
        _ => Err(Stop::Fault(FlowFault::UnknownWord { name: kept(word) })),
    }
}

/// Whether an output is written anew.
fn based_of(word: &str) -> Result<bool, Stop>
    ensures { Gives result (spec.based_of word.now) }
{
    match word {
        "BASE" => Ok(true),
        "DELTA" => Ok(false),
        _ => Err(Stop::Fault(FlowFault::UnknownWord { name: kept(word) })),
    }
}

/// The number of the channel with this name.
fn channel_named(channels: &[Channel], name: &str) -> Result<u32, Stop>
    requires { length channels.now ≤ 256 }
    ensures gives { Gives result (spec.channel_named channels.now name.now) }
    ensures below { IfOk result (λ c. c < length channels.now) }
{
    match channel_place(channels, name) {
        Some(place) => Ok(place as u32),
        None => Err(Stop::Fault(FlowFault::BadName { name: kept(name) })),
    }
}

/// Whether one of the inputs reads a channel.
fn reads(channel: u32, inputs: &[Input]) -> bool
    ensures { result ≡ spec.reads channel inputs.now }
{
    for input in inputs {
        if input.channel == channel {
            return true;
        }
    }
    false
}

/// The input that a text states, after those that are done.
fn input_of(channels: &[Channel], done: &[Input], text: &str) -> Result<Input, Stop>
    requires { length channels.now ≤ 256 }
    ensures { Gives result (spec.input_of channels.now done.now text.now) }
{
    let (name, mode) = words_of(text)?;
    let mode = mode_of(mode)?;
    let channel = channel_named(channels, name)?;
    if reads(channel, done) {
        return Err(Stop::Fault(FlowFault::BadName { name: kept(name) }));
    }
    Ok(Input { channel, mode })
}

/// The inputs that the texts state.
fn inputs_of(alloc: Global, channels: &[Channel], texts: &[Value]) -> Result<Items<Input>, Stop>
    requires { length channels.now ≤ 256 }
    ensures { Gives result (spec.inputs_after channels.now [] (map text_in texts.now)) }
{
    let mut inputs = Items::new(alloc);
    for value in texts {
        let input = input_of(channels, inputs.as_slice(), text_in(value))?;
        inputs.push(input)?;
    }
    Ok(inputs)
}

/// The channel that an output names, and whether it is written anew.
fn output_of(channels: &[Channel], text: &str) -> Result<(u32, bool), Stop>
    requires { length channels.now ≤ 256 }
    ensures { Gives result (spec.output_of channels.now text.now) }
{
    let (name, mode) = words_of(text)?;
    let based = based_of(mode)?;
    let channel = channel_named(channels, name)?;
    Ok((channel, based))
}

/// Whether one of the tasks has this name.
pub(crate) fn has_task(name: &str, tasks: &[Stated<'_>]) -> bool
    ensures { result ≡ spec.has_task name.now tasks.now }
{
    for task in tasks {
        if same_text(task.name().text(), name) {
            return true;
        }
    }
    false
}

/// The name of a task after those that are done.
fn new_task(done: &[Stated<'_>], name: &str) -> Result<Name, Stop>
    ensures { Gives result (spec.new_task done.now name.now) }
{
    if is_name(name.as_bytes()) && !has_task(name, done) {
        Ok(Name::new(name))
    } else {
        Err(Stop::Fault(FlowFault::BadName { name: kept(name) }))
    }
}

/// The texts of the inputs, of which there is one at least.
fn inputs_needed<'a>(table: &'a Value) -> Result<&'a [Value], Stop>
    ensures { GivesBy (λ vs. map text_in vs.now) result (spec.inputs_needed (view table.now)) }
{
    let inputs = texts_needed(table, "inputs")?;
    if inputs.is_empty() {
        return Err(missing("inputs"));
    }
    Ok(inputs)
}

/// The task that a table states, after those that are done.
fn task_of<'a>(
    alloc: Global,
    channels: &[Channel],
    done: &[Stated<'a>],
    table: &'a Value,
) -> Result<Stated<'a>, Stop>
    requires { length channels.now ≤ 256 }
    ensures { Gives result (spec.task_of channels.now done.now (view table.now)) }
{
    only(table, &["name", "script", "inputs", "output", "trigger"])?;
    let name = text_needed(table, "name")?;
    let script = text_needed(table, "script")?;
    let inputs = inputs_needed(table)?;
    let output = text_needed(table, "output")?;
    let trigger = text_if_there(table, "trigger")?;
    let name = new_task(done, name)?;
    at_most("inputs", 16, inputs.len())?;
    let inputs = inputs_of(alloc, channels, inputs)?;
    let (output, based) = output_of(channels, output)?;
    Ok(Stated::new(name, script, inputs, output, based, trigger))
}

/// The tasks that the tables state.
pub(crate) fn tasks_of<'a>(
    alloc: Global,
    channels: &[Channel],
    tables: &'a [Value],
) -> Result<Vec<Stated<'a>>, Stop>
    requires { length channels.now ≤ 256 }
    ensures gives { GivesBy (λ ts. ts.items) result (spec.tasks_of channels.now (map view tables.now)) }
    ensures each { IfOk result (λ ts. length ts.items ≡ length tables.now) }
{
    let mut tasks = Vec::new(alloc);
    for table in tables {
        let task = task_of(alloc, channels, &tasks, table)?;
        tasks.push(task)?;
    }
    Ok(tasks)
}
