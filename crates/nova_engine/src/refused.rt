//! The lines that tell why a workflow's text is refused.
ghost use Rattle.std.specs.Prelude.{◌≡◌};
ghost use Rattle.nova_engine.specs.Refused as spec;

use nova_admit::{AdmitFault, ScriptFault};
use nova_flow::FlowFault;
use nova_pig_parse::ParseFault;
use nova_pig_plan::PlanFault;
use nova_runner::TextFault;
use nova_script::Reply;
use nova_value::Name;

/// What stands for want of memory, which no text is refused for.
fn memory_reply() -> Reply
    ensures { result ≡ spec.memory_line }
{
    Reply::flow_refused(11, "no-memory", None)
}

/// The line of a text that reads as no workflow.
fn flow_reply(fault: &FlowFault) -> Reply
    ensures { result ≡ spec.flow_line fault.now }
{
    match fault {
        FlowFault::Toml => Reply::flow_refused(1, "toml", None),
        FlowFault::UnknownWord { name } => Reply::flow_refused(2, "unknown-word", Some(name)),
        FlowFault::Missing { name } => Reply::flow_refused(3, "missing", Some(name)),
        FlowFault::BadName { name } => Reply::flow_refused(4, "bad-name", Some(name)),
        FlowFault::BadColumn { channel } => Reply::flow_refused(5, "bad-column", Some(channel)),
        FlowFault::BadKey { channel } => Reply::flow_refused(6, "bad-key", Some(channel)),
        FlowFault::TooMany { name } => Reply::flow_refused(7, "too-many", Some(name)),
        FlowFault::NamedLater { task } => Reply::flow_refused(8, "named-later", Some(task)),
        FlowFault::TwoWriters { channel } => Reply::flow_refused(9, "two-writers", Some(channel)),
        FlowFault::BadTrigger { task } => Reply::flow_refused(10, "bad-trigger", Some(task)),
        FlowFault::NoMemory => memory_reply(),
    }
}

/// The line of a script that isn't parsed.
fn parse_reply(task: &Name, fault: ParseFault) -> Reply
    ensures { result ≡ spec.parse_line task.now fault }
{
    match fault {
        ParseFault::Token { at } => Reply::script_refused(task, "parse", 1, Some(at)),
        ParseFault::Syntax { at } => Reply::script_refused(task, "parse", 2, Some(at)),
        ParseFault::TooLong => Reply::script_refused(task, "parse", 3, None),
        ParseFault::TooDeep { at } => Reply::script_refused(task, "parse", 4, Some(at)),
        ParseFault::NumberTooLarge { at } => Reply::script_refused(task, "parse", 5, Some(at)),
        ParseFault::NoMemory => memory_reply(),
    }
}

/// The line of a script without a plan, by the number of its fault and its statement.
fn statement_reply(task: &Name, number: u8, statement: u32) -> Reply
    ensures { result ≡ spec.statement_line task.now number statement }
{
    Reply::script_refused(task, "plan", number, Some(statement as u64))
}

/// The line of a script without a plan.
fn plan_reply(task: &Name, fault: PlanFault) -> Reply
    ensures { result ≡ spec.plan_line task.now fault }
{
    match fault {
        PlanFault::UnknownAlias { statement } => statement_reply(task, 1, statement),
        PlanFault::UnknownField { statement } => statement_reply(task, 2, statement),
        PlanFault::Ambiguous { statement } => statement_reply(task, 3, statement),
        PlanFault::WrongType { statement } => statement_reply(task, 4, statement),
        PlanFault::SchemaDiffers { statement } => statement_reply(task, 5, statement),
        PlanFault::UnknownChannel { statement } => statement_reply(task, 6, statement),
        PlanFault::TooWide { statement } => statement_reply(task, 7, statement),
        PlanFault::BagMisused { statement } => statement_reply(task, 8, statement),
        PlanFault::NoStore { statement } => statement_reply(task, 9, statement),
        PlanFault::AliasTwice { statement } => statement_reply(task, 10, statement),
        PlanFault::NoMemory => memory_reply(),
    }
}

/// The line of a task's script.
fn script_reply(task: &Name, fault: ScriptFault) -> Reply
    ensures { result ≡ spec.script_line task.now fault }
{
    match fault {
        ScriptFault::Parse(why) => parse_reply(task, why),
        ScriptFault::Plan(why) => plan_reply(task, why),
    }
}

/// The line of a task that isn't admitted.
fn admit_reply(fault: &AdmitFault) -> Reply
    ensures { result ≡ spec.admit_line fault.now }
{
    match fault {
        AdmitFault::Script { task, fault } => script_reply(task, *fault),
        AdmitFault::NoKey { task } => Reply::task_refused(2, "no-key", task, None),
        AdmitFault::KeyDiffers { task } => Reply::task_refused(3, "key-differs", task, None),
        AdmitFault::BaseReadAsNew { task, channel } => {
            Reply::task_refused(4, "base-read-as-new", task, Some(channel))
        }
        AdmitFault::NotAPattern { task } => Reply::task_refused(5, "not-a-pattern", task, None),
        AdmitFault::NoMemory => memory_reply(),
    }
}

/// The line that tells why a text is refused.
pub fn refused_reply(fault: &TextFault) -> Reply
    ensures { result ≡ spec.refused_line fault.now }
{
    match fault {
        TextFault::Flow(why) => flow_reply(why),
        TextFault::Admit(why) => admit_reply(why),
    }
}
