//! Expressions and statements of scripts, read by recursive descent over their tokens.
//!
//! The descent goes one call deeper for each `(`, `?`, `NOT`, unary `-` and operand, so its caller
//! bounds how many of them stand in an expression. Operands of one level are a loop, and so are
//! the lists of items, fields and names.
#![tactic(auto)]

mod fault;
mod item;
mod operators;
mod parser;
mod read;
mod statement;

pub use fault::Fault;
pub use read::{one_reading, read_expr};
pub use statement::{cut_body, one_statement, statement_body};
