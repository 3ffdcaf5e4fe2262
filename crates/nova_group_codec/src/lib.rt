//! The state of a grouping task as bytes.
#![tactic(auto)]

mod decoding;
mod encoding;
mod fault;
mod laws;
mod list;
mod pieces;
mod sorts;
mod state;

pub use encoding::encode;
pub use fault::StateFault;
pub use laws::states_are_spelled_once;
pub use pieces::{kind_at, kinds_at, sorts_of};
pub use sorts::{Kept, Sorts};
pub use state::decode;
