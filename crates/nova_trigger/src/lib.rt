//! When a task is due, and what an execution of it captures.
#![tactic(auto)]

mod flight;
mod laws;
mod rule;
mod taking;
mod tasks;

pub use flight::InFlight;
pub use laws::{standing_goes_on, starts_stand, triggers_are_the_machines};
pub use rule::{due, first_due};
pub use taking::capture;
