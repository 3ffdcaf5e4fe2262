//! The deltas of plans that go row by row.
//!
//! A run of a stateless or of a lookup task doesn't evaluate its plan over the whole input: it
//! makes its output's delta of its main input's.
#![tactic(auto)]

mod key;
mod laws;
mod run;
mod source;

pub use laws::{
    deltas_are_written, derived_at_each_key, lookup_merges, main_is_new, output_keys_tell,
    rules_merge, stateless_merges, tasks_are_row_tasks,
};
pub use run::{derive, main_place};
