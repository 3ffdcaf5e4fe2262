//! The operators of a plan: nodes and expressions, what they mean, and their keys.
//!
//! A plan is a list of nodes, each of which names earlier ones, with a stored node; it means the
//! list of rows of that node. A node's key is a set of columns at which no two of its rows are
//! equal; it is computed with the node's constant columns, node by node from the left.
#![tactic(auto)]

mod columns;
mod constants;
mod facts;
mod keys;
mod known;
mod laws;
mod node;
mod places;
mod plan;
mod readers;

pub use columns::{column_set, covers, narrow, same_columns};
pub use facts::{Constant, Facts};
pub use known::{facts_of_node, key_of_nodes};
pub use laws::{
    constants_hold, expressions_depend_on_their_calls, keys_rise, keys_tell_rows_apart,
    rows_fit_their_kinds, trees_are_of_earlier_nodes,
};
pub use node::{Node, PlanExpr, Sort};
pub use plan::Plan;
pub use readers::{last_readers, read_by};
