//! Workflows from texts.
ghost use Rattle.std.specs.Prelude.{◌≡◌, ◌≢◌, Ok, Err, IfOk, IfErr, map};
ghost use Rattle.toml.specs.View.{view};
ghost use Rattle.nova_flow.specs.declared.fault.FlowFault.TheVariants.{NoMemory};
ghost use Rattle.nova_flow.specs.Answers.{Gives, GivesBy};
ghost use Rattle.nova_flow.specs.Flows as spec;
ghost use Rattle.nova_workflow.specs.Whole.{IsFlow};

use crate::channels::channels_of;
use crate::fault::{FlowFault, Stop};
use crate::rules::{at_most, missing, only, tables_if_there, tables_needed};
use crate::tasks::tasks_of;
use crate::wiring::{settle_all, wire_all};
use nova_workflow::Flow;
use std::alloc::Global;
use toml::Value;

/// The document of a text.
fn document(alloc: Global, text: &[u8]) -> Result<Value, Stop>
    ensures { GivesBy view result (spec.document_needed text.now) }
{
    match toml::table_from_slice(alloc, text) {
        Ok(table) => Ok(Value::Table(table)),
        Err(error) => {
            if error.is_memory() {
                Err(Stop::NoMemory)
            } else {
                Err(Stop::Fault(FlowFault::Toml))
            }
        }
    }
}

/// The tables of the channels, of which there is one at least.
fn channels_needed<'a>(root: &'a Value) -> Result<&'a [Value], Stop>
    ensures { GivesBy (λ vs. map view vs.now) result (spec.channels_needed (view root.now)) }
{
    let channels = tables_needed(root, "channel")?;
    if channels.is_empty() {
        return Err(missing("channel"));
    }
    Ok(channels)
}

/// The workflow of a document.
fn flow_of(alloc: Global, root: &Value) -> Result<Flow, Stop>
    ensures { Gives result (spec.flow_of_document (view root.now)) }
{
    only(root, &["channel", "task"])?;
    let channels = channels_needed(root)?;
    let tasks = tables_if_there(root, "task")?;
    at_most("channel", 256, channels.len())?;
    at_most("task", 256, tasks.len())?;
    let channels = channels_of(alloc, channels)?;
    let stated = tasks_of(alloc, channels.as_slice(), tasks)?;
    let tasks = settle_all(alloc, channels.as_slice(), &stated)?;
    let channels = wire_all(alloc, tasks.as_slice(), channels.as_slice())?;
    Ok(Flow { channels, tasks })
}

/// The workflow of a text of any length.
#[tactic(auto, unfolding(crate::specs::Flows::flow_of))]
fn flow_of_text(alloc: Global, text: &[u8]) -> Result<Flow, Stop>
    ensures { Gives result (spec.flow_of text.now) }
{
    at_most("text", 1_048_576, text.len())?;
    let root = document(alloc, text)?;
    flow_of(alloc, &root)
}

/// The workflow of a text, or its first fault.
///
/// A text that no workflow has is refused by the first of these: TooMany `text`; Toml; unknown keys
/// at the top; Missing `channel`, then `task`; TooMany `channel`, then `task`. Then each channel in
/// order: unknown keys; Missing in the order name, columns, key; BadName; TooMany `columns`;
/// BadColumn; TooMany `key`; BadKey. Then each task in order: unknown keys; Missing in the order
/// name, script, inputs, output, trigger; BadName; TooMany `inputs`; each input in order, its words
/// and then its channel; the output, its words and then its channel. Then each task in order again:
/// TwoWriters; NamedLater of its inputs; its trigger, BadTrigger before NamedLater. Any call may
/// answer `NoMemory` in place of what comes after.
pub fn read_flow(alloc: Global, text: &[u8]) -> Result<Flow, FlowFault>
    ensures ok { IfOk result (λ f. spec.flow_of text.now ≡ Ok f) }
    ensures err { IfErr result (λ f. f ≢ NoMemory → spec.flow_of text.now ≡ Err f) }
    ensures whole { IfOk result IsFlow }
{
    match flow_of_text(alloc, text) {
        Ok(flow) => Ok(flow),
        Err(Stop::Fault(fault)) => Err(fault),
        Err(Stop::NoMemory) => Err(FlowFault::NoMemory),
    }
}
