//! Sources and a host in memory: what tests hand to the program in the place of the outside.
#![tactic(auto)]

mod counts;
mod disk;
mod files;
mod host;
mod parts;
mod source;

pub use host::MemHost;
pub use source::{MemSource, MemSteady};
