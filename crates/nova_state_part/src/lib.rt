//! State parts: the state of a grouping task in a file of its own.
#![tactic(auto)]

mod file;
mod laws;

pub use file::get;
pub use laws::parts_are_read_one_way;
