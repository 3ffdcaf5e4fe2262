//! The state of a grouping task: what each row gives to its group, and the groups, changed by one
//! key at a time.
#![tactic(auto)]

mod group;
mod item;
mod laws;
mod state;

pub use group::{Group, Share};
pub use item::{Item, Numbers};
pub use laws::{parts_change_alone, states_follow_deltas};
pub use state::{State, move_share};
