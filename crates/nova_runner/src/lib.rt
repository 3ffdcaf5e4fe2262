//! The store: what files and memory stand for, and each command's step.
//!
//! `Store::init` makes a store and `Store::reopen` opens one; `load`, `tick`, `run`, `begin`,
//! `drop_run` and `show` are the machine's steps of their names. A command more is a line in each
//! table of `specs/Acts.antt`, a lemma that its commit leads to the state behind it, and a body:
//! files are the business of `Store::commit` alone.
#![tactic(auto)]

mod commit;
mod context;
mod executions;
mod laws;
mod load;
mod making;
mod opening;
mod ready;
mod run;
mod show;
mod stop;
mod store;
mod table;
mod text;
mod tick;
mod wiring;
mod workflow;

pub use laws::{
    commits_lead, deciding_files_decide, loads_commit, no_step_tells_damage, runs_commit,
    ticks_commit, what_stands_stays,
};
pub use making::InitFault;
pub use opening::{OpenFault, bad_stores};
pub use show::Unshown;
pub use stop::Stopped;
pub use store::Store;
pub use text::{TextFault, texts_are_settled};
pub use workflow::{Workflow, flows_are_admitted};
