//! The rows of plans by plain loops, one definition after the other: what faster evaluation is
//! compared with.
#![tactic(auto)]

mod groups;
mod nodes;
mod rows;
mod value;

pub use nodes::rows_of_nodes;
