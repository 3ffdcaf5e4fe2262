//! The syntax tree and the tokens of a script, as plain data.
//!
//! A script is a small part of Pig Latin: statements that define an alias by an operator, and at
//! most one `STORE` at the end.
#![tactic(auto)]

mod expression;
mod statement;
mod token;

pub use expression::{CallKind, CompareOp, Expr, Field};
pub use nova_value::{Kind, Str};
pub use statement::{Body, Item, MAX_FIELDS, MAX_OPERATORS, MAX_STATEMENTS, Op, Script, Statement};
pub use token::{Placed, Symbol, Token, Word};
