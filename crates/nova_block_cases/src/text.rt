//! Bytes and numbers of a line.
use std::alloc::{AllocError, Global};

/// The number of a hexadecimal digit in lower case.
fn digit(byte: u8) -> Option<u8> {
    match byte {
        b'0'..=b'9' => Some(byte - b'0'),
        b'a'..=b'f' => Some(byte - b'a' + 10),
        _ => None,
    }
}

/// The bytes that pairs of hexadecimal digits stand for. What is no digit is passed over.
pub fn bytes_of(alloc: Global, text: &str) -> Result<Vec<u8>, AllocError> {
    let mut bytes = Vec::new(alloc);
    let mut high = None;
    for byte in text.as_bytes() {
        let Some(low) = digit(*byte) else {
            continue;
        };
        match high.take() {
            Some(first) => bytes.push((first << 4) | low)?,
            None => high = Some(low),
        }
    }
    Ok(bytes)
}

/// A number and the text after it; where there is none, the number is that of no place.
pub fn number_and_rest(text: &str) -> (usize, &str) {
    let (number, rest) = text.split_once(' ').unwrap_or((text, ""));
    (number.parse::<usize>().unwrap_or(usize::MAX), rest)
}
