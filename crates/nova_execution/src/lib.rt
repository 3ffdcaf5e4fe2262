//! What a run of a task reads, and the block that it makes of that.
#![tactic(auto)]

mod base;
mod groups;
mod inputs;
mod laws;
mod made;
mod rows;
mod runs;

pub use laws::executions_are_runs;
pub use made::Made;
pub use runs::execute;
