//! Where loads begin and end, and what they ask for then.
use crate::context::show_outcome;
use nova_script::{Refusal, Request, begins_load, end_load, ends_load, is_over_limit};
use std::alloc::{AllocError, Global};

/// What a line is to the lines around it.
pub fn role(line: &[u8]) -> &'static str {
    match (begins_load(line), ends_load(line), is_over_limit(line)) {
        (true, false, false) => "begins a load\n",
        (false, true, false) => "ends a load\n",
        (false, false, true) => "over the limit\n",
        (false, false, false) => "neither\n",
        _ => "more than one\n",
    }
}

/// What the lines of a load came to, by four words: `long` where one is over the limit; `wrong`
/// where its own line is refused; the first line that is no row; `open` where no `.` ended it. A
/// `-` stands for each that isn't so.
pub fn show_end(alloc: Global, words: &str) -> Result<Vec<u8>, AllocError> {
    let mut words = words.split(' ');
    let is_too_long = words.next() == Some("long");
    let met = if words.next() == Some("wrong") {
        Err(Refusal::WrongWords)
    } else {
        Ok(Request::Load(0))
    };
    let bad_row = words.next().unwrap_or("-").parse::<u64>().ok();
    let is_ended = words.next() != Some("open");
    show_outcome(alloc, end_load(is_too_long, met, bad_row, is_ended))
}
