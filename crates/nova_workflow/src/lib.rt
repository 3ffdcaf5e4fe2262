//! Workflows as plain data: channels, and the tasks that read and write them.
#![tactic(auto)]

mod flow;

pub use flow::{Channel, Flow, Input, Mode, ScriptText, Task, Trigger};
