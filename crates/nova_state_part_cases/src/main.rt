//! `nova_state_part_cases`: tries state parts, whole and damaged, by the cases of the files that its
//! words name.
#![tactic(auto)]

mod answer;
mod file;
mod sorts;

use answer::answer_for;
use file::{answer_failing, answer_in, answer_whole};
use nova_case::{Bench, Step, try_files};
use nova_group_codec::Sorts;
use sorts::sorts_of_words;
use std::alloc::{AllocError, Global};
use std::io;

/// The kinds of what the task of a case keeps, and its state part.
#[derive(Drop)]
struct Part {
    sorts: Sorts,
    bytes: Vec<u8>,
}

impl Part {
    /// Sets the kinds.
    fn keep(&mut self, alloc: Global, words: &str) -> Result<Vec<u8>, AllocError> {
        self.sorts = sorts_of_words(alloc, words)?;
        Ok(Vec::new(alloc))
    }

    /// Sets the part.
    fn set(&mut self, alloc: Global, bytes: &[u8]) -> Result<Vec<u8>, AllocError> {
        self.bytes = bytes.to_vec(alloc)?;
        answer_for(alloc, bytes, &self.sorts)
    }

    /// What the part is with the lowest bit of one byte turned.
    fn flip(&self, alloc: Global, at: usize) -> Result<Vec<u8>, AllocError> {
        let mut bytes = self.bytes.as_slice().to_vec(alloc)?;
        if let Some(byte) = bytes.get_mut(at) {
            *byte ^= 1;
        }
        answer_for(alloc, &bytes, &self.sorts)
    }

    /// What the first bytes of the part are.
    fn cut(&self, alloc: Global, length: usize) -> Result<Vec<u8>, AllocError> {
        let bytes = self.bytes.get(..length).unwrap_or(&[]);
        answer_for(alloc, bytes, &self.sorts)
    }
}

/// The number of a word; of another word that of no place.
fn number(word: &str) -> usize {
    word.parse::<usize>().unwrap_or(usize::MAX)
}

impl Bench for Part {
    fn begin(&mut self, alloc: Global) -> Result<(), AllocError> {
        self.sorts = sorts_of_words(alloc, "")?;
        self.bytes = Vec::new(alloc);
        Ok(())
    }

    fn answer(&mut self, alloc: Global, step: &Step) -> Result<Vec<u8>, AllocError> {
        let words = step.words.as_str();
        let at = number(words);
        match step.verb.as_str() {
            "keeps" => self.keep(alloc, words),
            "part" => self.set(alloc, &step.input),
            "flip" => self.flip(alloc, at),
            "cut" => self.cut(alloc, at),
            "whole" => answer_whole(alloc, &self.bytes, &self.sorts),
            "size" => answer_in(alloc, &self.bytes, 2, at as u64, &self.sorts),
            "absent" => answer_in(alloc, &self.bytes, 6, at as u64, &self.sorts),
            "fail" => answer_failing(alloc, &self.bytes, at as u64, &self.sorts),
            _ => b"no such step\n".to_vec(alloc),
        }
    }
}

fn main(rt: HostRuntime) -> io::Result<()> {
    let mut part = Part {
        sorts: sorts_of_words(rt.alloc(), "")?,
        bytes: Vec::new(rt.alloc()),
    };
    try_files(&rt, &mut part)
}
