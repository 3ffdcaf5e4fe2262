//! The words of a step: the inputs of a task, and its output.
use crate::channels::NAMES;
use nova_pig_pattern::Input;
use std::alloc::{AllocError, Global};

/// What the words say: the inputs with their numbers, the kinds of the output, and whether it is
/// written as BASE.
#[derive(Drop)]
pub struct Words<'a> {
    pub inputs: Vec<Input>,
    pub kinds: &'a str,
    pub based: bool,
}

/// The number of an input.
pub fn number_of(name: &str) -> Option<u32> {
    let place = NAMES.iter().position(|known| *known == name)?;
    u32::try_from(place).ok()
}

/// Takes a word on the inputs: a name, or how the last one is read or written.
fn take(inputs: &mut Vec<Input>, word: &str) -> Result<(), AllocError> {
    if let Some(channel) = number_of(word) {
        inputs.push(Input {
            channel,
            is_new: false,
            based: false,
        })?;
        return Ok(());
    }
    if let Some(last) = inputs.last_mut() {
        match word {
            "NEW" => last.is_new = true,
            "BASE" => last.based = true,
            _ => {}
        }
    }
    Ok(())
}

/// What words say: `raw NEW pages > LTL`. An input is read as ALL where `NEW` doesn't follow, and
/// its channel is written as BASE where `BASE` follows; `BASE` behind the kinds is the output's.
pub fn read_words<'a>(alloc: Global, text: &'a str) -> Result<Words<'a>, AllocError> {
    let (front, back) = text.split_once(" > ").unwrap_or((text, ""));
    let mut inputs = Vec::new(alloc);
    for word in front.split(' ') {
        take(&mut inputs, word)?;
    }
    let (kinds, mode) = back.split_once(' ').unwrap_or((back, ""));
    Ok(Words {
        inputs,
        kinds,
        based: mode == "BASE",
    })
}

impl<'a> Words<'a> {
    /// The numbers of the inputs.
    pub fn numbers(&self, alloc: Global) -> Result<Vec<u32>, AllocError> {
        let mut numbers = Vec::new(alloc);
        for input in &self.inputs {
            numbers.push(input.channel)?;
        }
        Ok(numbers)
    }
}
