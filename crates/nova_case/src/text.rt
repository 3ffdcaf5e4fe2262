//! The bytes that a line of a case stands for.
use std::alloc::{AllocError, Global};

/// Adds a text so many times.
fn add_times(out: &mut Vec<u8>, text: &[u8], times: &str) -> Result<(), AllocError> {
    for _ in 0..times.parse::<u32>().unwrap_or(0) {
        out.extend_from_slice(text)?;
    }
    Ok(())
}

/// Adds what stands in braces: a byte by its two hex digits, or a text in quotes; behind `*` how
/// many times.
fn add_braced(out: &mut Vec<u8>, braced: &str) -> Result<(), AllocError> {
    let (what, times) = braced.rsplit_once('*').unwrap_or((braced, "1"));
    match what.strip_prefix('\'') {
        Some(text) => add_times(
            out,
            text.strip_suffix('\'').unwrap_or(text).as_bytes(),
            times,
        ),
        None => match u8::from_str_radix(what, 16) {
            Ok(byte) => add_times(out, &[byte], times),
            Err(_) => out.extend_from_slice(b"no byte"),
        },
    }
}

/// The bytes of a line in which `{09}` is a byte, `{ff*3}` the same three times, and `{'ab'*3}` a
/// text three times.
pub fn bytes_of(alloc: Global, line: &str) -> Result<Vec<u8>, AllocError> {
    let mut out = Vec::new(alloc);
    for (at, part) in line.split('{').enumerate() {
        let (braced, plain) = part.split_once('}').unwrap_or(("", part));
        if at > 0 && !braced.is_empty() {
            add_braced(&mut out, braced)?;
        }
        out.extend_from_slice(plain.as_bytes())?;
    }
    Ok(out)
}
