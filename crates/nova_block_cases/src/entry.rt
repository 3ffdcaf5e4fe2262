//! One entry of a block.
use nova_row_codec::{CodecFault, decode_entry, encode_entry};
use nova_value::Schema;
use std::alloc::{AllocError, Global};

/// Where the entry that stands at a place ends, which is spelled as its bytes again; or its fault.
pub fn answer_at(
    alloc: Global,
    bytes: &[u8],
    at: usize,
    schema: &Schema,
) -> Result<String, AllocError> {
    let (entry, next) = match decode_entry(alloc, bytes, at, schema) {
        Ok(found) => found,
        Err(CodecFault::NoMemory) => return Err(AllocError),
        Err(fault) => return format!(in alloc; "{fault:?}"),
    };
    let mut spelling = Vec::new(alloc);
    encode_entry(alloc, &entry, &mut spelling)?;
    if bytes.get(at..next) != Some(spelling.as_slice()) {
        return String::from_str(alloc, "spelled otherwise");
    }
    format!(in alloc; "to {next}")
}
