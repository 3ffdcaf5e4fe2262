//! The drill: commands made from a number, for a store of a workflow with all four patterns.
//!
//! `Drill` gives one command after the other: a load of pages, and then in each round a load of
//! requests, the clock, `work`, and after each sixteenth round compactions and a collection. The
//! numbers behind the requests are made as they are needed.
#![tactic(auto)]

mod drill;
mod entry;
mod flow;
mod number;

pub use drill::{Drill, DrillStep};
pub use flow::flow_text;
