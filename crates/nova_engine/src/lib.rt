//! The program behind its words: a store is made, and sessions on it are taken.
#![tactic(auto)]

mod building;
mod call;
mod commands;
mod cut;
mod laws;
mod lines;
mod load;
mod opening;
mod program;
mod reader;
mod refused;
mod session;
mod status;
mod stop;
mod text;

pub use laws::{nothing_is_left_out, sessions_have_room, texts_are_inputs};
pub use program::nova;
pub use status::Status;
