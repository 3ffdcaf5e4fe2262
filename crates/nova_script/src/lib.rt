//! The language of sessions: words, commands, refusals and reply lines.
#![tactic(auto)]

mod command;
mod context;
mod forms;
mod held;
mod laws;
mod refusal;
mod reply;
mod rows;
mod words;

pub use command::{Command, LINE_LIMIT, begins_load, ends_load, is_over_limit, read_command};
pub use context::{Context, Request, end_load, request_for};
pub use held::HeldLine;
pub use laws::{front_decides, lines_are_commands, requests_are_rules, words_are_parted};
pub use refusal::{Refusal, refusal_line, refuse};
pub use reply::{Reply, send};
pub use rows::{ReplyBuffer, row_text};
