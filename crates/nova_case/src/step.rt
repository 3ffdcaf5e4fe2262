//! A step of a case: what is done, and what it has to answer.
use crate::text::bytes_of;
use std::alloc::{AllocError, Global};

/// A step: what is done, the rest of its line, its input, whether that can be read, and the answer
/// that is wanted.
#[derive(Drop)]
pub struct Step {
    pub verb: String,
    pub words: String,
    pub input: Vec<u8>,
    pub is_readable: bool,
    pub wanted: Vec<u8>,
}

/// Something that steps are tried on.
pub trait Bench {
    /// A case begins.
    fn begin(&mut self, alloc: Global) -> Result<(), AllocError>;

    /// What a step answers.
    fn answer(&mut self, alloc: Global, step: &Step) -> Result<Vec<u8>, AllocError>;
}

/// Adds a line.
fn add_line(out: &mut Vec<u8>, front: &[u8], bytes: &[u8]) -> Result<(), AllocError> {
    out.extend_from_slice(front)?;
    out.extend_from_slice(bytes)?;
    out.extend_from_slice(b"\n")
}

impl Step {
    /// A step without an input and an answer.
    pub fn new(alloc: Global, line: &str) -> Result<Step, AllocError> {
        let (verb, words) = line.split_once(' ').unwrap_or((line, ""));
        Ok(Step {
            verb: String::from_str(alloc, verb)?,
            words: String::from_str(alloc, words)?,
            input: Vec::new(alloc),
            is_readable: true,
            wanted: Vec::new(alloc),
        })
    }

    /// Adds what stands behind a mark, and says whether there is such a mark.
    pub fn add(&mut self, alloc: Global, mark: &str, text: &str) -> Result<bool, AllocError> {
        let bytes = bytes_of(alloc, text)?;
        match mark {
            "<" => add_line(&mut self.input, b"", &bytes)?,
            "<<" => self.input.extend_from_slice(&bytes)?,
            "!" => self.is_readable = false,
            ">" => add_line(&mut self.wanted, b"", &bytes)?,
            "?" => add_line(&mut self.wanted, b"status ", &bytes)?,
            _ => return Ok(false),
        }
        Ok(true)
    }
}
