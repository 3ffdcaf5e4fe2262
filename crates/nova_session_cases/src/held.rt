//! Lines that come in pieces.
use crate::command;
use nova_script::HeldLine;
use std::alloc::{AllocError, Global};

/// A line in pieces of so many bytes: how many bytes of it are held, and what these read as.
pub fn show(alloc: Global, line: &[u8], piece: &str) -> Result<Vec<u8>, AllocError> {
    let length = piece.parse::<usize>().unwrap_or(1);
    if length == 0 {
        return b"no pieces\n".to_vec(alloc);
    }
    let mut held = HeldLine::new(alloc);
    for bytes in line.chunks(length) {
        held.push(bytes)?;
    }
    let told = format!(in alloc; "{} bytes\n", held.bytes().len())?;
    let mut out = told.into_bytes();
    out.extend_from_slice(&command::show(alloc, held.bytes())?)?;
    held.clear();
    if !held.bytes().is_empty() {
        out.extend_from_slice(b"not cleared\n")?;
    }
    Ok(out)
}
