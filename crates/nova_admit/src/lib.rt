//! The plan of a script's text, and whether a workflow is admitted: the pattern of each task, from
//! the nodes of its plan, or the fault of the first task that isn't admitted.
#![tactic(auto)]

mod admitted;
mod fault;
mod flows;
mod laws;
mod pattern;
mod plans;
mod reach;
mod script;
mod shape;
mod task;

pub use admitted::{Admitted, admit};
pub use fault::AdmitFault;
pub use laws::tasks_are_settled;
pub use plans::{GroupPlan, Pattern, RowPlan, admit_task};
pub use script::{ScriptFault, plan_of_text};
pub use task::admission;
