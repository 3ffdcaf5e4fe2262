//! Workflows, from texts in TOML.
//!
//! `read_flow` reads the channels and tasks of a text, or answers its first fault.
#![tactic(auto)]

mod channels;
mod document;
mod fault;
mod laws;
mod period;
mod read;
mod rules;
mod stated;
mod tasks;
mod wiring;
mod words;

pub use fault::FlowFault;
pub use laws::flows_are_whole;
pub use read::read_flow;
