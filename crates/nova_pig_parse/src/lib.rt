//! Scripts, read from a text of at most 65,536 bytes.
//!
//! `parse` scans the text once, tests the limits over its tokens, cuts them after each `;`, and
//! reads each cut by itself, so it is linear in the text. The depth limit is tested before the
//! descent, which it bounds; lists of statements, items and names are loops.
#![tactic(auto)]

mod limit;
mod script;
mod text;

pub use text::{ParseFault, parse, scripts_are_small, texts_are_settled};
