//! Cases, line by line.
//!
//! A line is `#` and a remark; `schema` and its name; `block` and bytes, as hexadecimal digits; or
//! a case: `is ANSWER` for the block, `flip PLACE ANSWER` for the block with the lowest bit of one
//! byte turned, `cut LENGTH ANSWER` for its first bytes, `entry PLACE ANSWER` for the entry at a
//! place. Of the block in a file: `whole ANSWER` for its bytes and the host's calls, `size LENGTH
//! ANSWER` and `absent LENGTH ANSWER` where it, or a file that isn't there, is read as one of that
//! length, `fail CALL ANSWER` where a call of the host fails. Empty lines are skipped.
use crate::answer::answer_for;
use crate::entry::answer_at;
use crate::file::{answer_failing, answer_in, answer_whole};
use crate::schema;
use crate::text::{bytes_of, number_and_rest};
use nova_value::Schema;
use std::alloc::{AllocError, Global};
use std::io;

/// The schema and the block of the next case, and how many cases were as wanted.
#[derive(Drop)]
pub struct Trial {
    alloc: Global,
    schema: Schema,
    block: Vec<u8>,
    agreeing: u64,
}

impl Trial {
    /// No case yet.
    pub fn new(alloc: Global) -> Result<Trial, AllocError> {
        Ok(Trial {
            alloc,
            schema: schema::words(alloc)?,
            block: Vec::new(alloc),
            agreeing: 0,
        })
    }

    /// How many cases were as wanted.
    pub fn agreeing(&self) -> u64 {
        self.agreeing
    }

    /// Takes a line.
    pub fn take(&mut self, rt: &impl Print, line: &str) -> io::Result<()> {
        let (word, rest) = line.split_once(' ').unwrap_or((line, ""));
        match word {
            "" | "#" => {}
            "schema" => self.set_schema(rest)?,
            "block" => self.block = bytes_of(self.alloc, rest)?,
            _ => self.try_case(rt, line, word, rest)?,
        }
        Ok(())
    }

    fn set_schema(&mut self, name: &str) -> Result<(), AllocError> {
        self.schema = match name {
            "visits" => schema::visits(self.alloc)?,
            "turned" => schema::turned(self.alloc)?,
            _ => schema::words(self.alloc)?,
        };
        Ok(())
    }

    /// The block with the lowest bit of one byte turned.
    fn flipped(&self, at: usize) -> Result<Vec<u8>, AllocError> {
        let mut bytes = self.block.as_slice().to_vec(self.alloc)?;
        if let Some(byte) = bytes.get_mut(at) {
            *byte ^= 1;
        }
        Ok(bytes)
    }

    /// What the first bytes of the block are.
    fn answer_cut(&self, length: usize) -> Result<String, AllocError> {
        let bytes = self.block.get(..length).unwrap_or(&[]);
        answer_for(self.alloc, bytes, &self.schema)
    }

    /// What the block is in a case, or None where there is no such word.
    fn answer(&self, word: &str, number: usize) -> Result<Option<String>, AllocError> {
        let (alloc, block, schema) = (self.alloc, self.block.as_slice(), &self.schema);
        let found = match word {
            "is" => answer_for(alloc, block, schema)?,
            "flip" => answer_for(alloc, &self.flipped(number)?, schema)?,
            "cut" => self.answer_cut(number)?,
            "entry" => answer_at(alloc, block, number, schema)?,
            "whole" => answer_whole(alloc, block, schema)?,
            "size" => answer_in(alloc, block, 2, number as u64, schema)?,
            "absent" => answer_in(alloc, block, 6, number as u64, schema)?,
            "fail" => answer_failing(alloc, block, number as u64, schema)?,
            _ => return Ok(None),
        };
        Ok(Some(found))
    }

    /// Tells a case that isn't as wanted, and counts one that is.
    fn try_case(&mut self, rt: &impl Print, line: &str, word: &str, rest: &str) -> io::Result<()> {
        let (number, wanted) = match word {
            "is" | "whole" => (0, rest),
            _ => number_and_rest(rest),
        };
        let Some(found) = self.answer(word, number)? else {
            return println!(rt; "no such word: {line}");
        };
        if found.as_str() == wanted {
            self.agreeing = self.agreeing.saturating_add(1);
            return Ok(());
        }
        println!(rt; "{line}: found {found}")
    }
}
