//! Pieces of text.
use nova_pig_tree::CompareOp;
use std::alloc::{AllocError, Global};
use std::fmt::Display;

pub type Done = Result<(), AllocError>;

/// Adds a text.
pub fn add(out: &mut Vec<u8>, text: &str) -> Done {
    out.extend_from_slice(text.as_bytes())
}

/// Adds a place.
pub fn add_place(alloc: Global, out: &mut Vec<u8>, n: u64) -> Done {
    let text = format!(in alloc; "{n}")?;
    add(out, text.as_str())
}

/// Adds a number.
pub fn add_number(alloc: Global, out: &mut Vec<u8>, n: i64) -> Done {
    let text = format!(in alloc; "{n}")?;
    add(out, text.as_str())
}

/// Adds a fault, as a line.
pub fn add_line<F: Display + Drop>(alloc: Global, out: &mut Vec<u8>, fault: F) -> Done {
    let text = format!(in alloc; "{fault}\n")?;
    add(out, text.as_str())
}

/// A comparison's sign, between blanks.
pub fn sign(op: CompareOp) -> &'static str {
    match op {
        CompareOp::Eq => " == ",
        CompareOp::Ne => " != ",
        CompareOp::Lt => " < ",
        CompareOp::Le => " <= ",
        CompareOp::Gt => " > ",
        CompareOp::Ge => " >= ",
    }
}
