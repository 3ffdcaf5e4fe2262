//! Reading a channel: the blocks of the chosen path, joined.
#![tactic(auto)]

mod join;
mod laws;
mod route;

pub use join::{read, read_table};
pub use laws::{files_are_one_block, reads_are_blocks, reads_are_whole};
