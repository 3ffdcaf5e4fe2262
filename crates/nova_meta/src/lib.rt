//! The catalog that a store's commits make, and the rules that they keep.
#![tactic(auto)]

mod captured;
mod catalog;
mod collecting;
mod keeping;
mod laws;
mod placing;
mod prepare;
mod prepared;
mod progress;
mod running;
mod shelf;
mod spans;
mod wiring;

pub use captured::{Captured, Versions};
pub use catalog::Catalog;
pub use laws::{
    blocks_are_numbered, catalogs_are_sound, commits_compose, counters_are_bounded,
    lists_are_spelled_once, parts_are_kept,
};
pub use nova_commit::{Commit, MetaFault, PartFile, decode_commit, encode_commit};
pub use prepared::Prepared;
pub use wiring::{Edge, Wire, Wiring};
