//! Runs of grouping tasks: a delta of the input changes the task's state, and tells the output's
//! delta.
#![tactic(auto)]

mod change;
mod fit;
mod kinds;
mod laws;
mod plan;

pub use change::advance;
pub use kinds::sorts;
pub use laws::{groups_merge, no_rows_no_state, rows_are_grouped, states_are_whole, states_fit};
pub use nova_groups::State;
