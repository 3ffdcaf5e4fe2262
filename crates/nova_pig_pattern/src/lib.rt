//! The patterns of tasks: which shape a plan has, and what is wrong with a task.
#![tactic(auto)]

mod laws;
mod task;

pub use laws::{
    output_keys_are_worked, patterns_are_the_table, patterns_have_shapes, tests_decide_shapes,
};
pub use task::{Input, PatternKind, TaskFault};
