//! The names of channels, tasks and columns, and the keywords of scripts, which name no column.
#![tactic(auto)]

mod keywords;
mod names;

pub use keywords::is_keyword;
pub use names::{is_identifier, is_name, name_of};
