//! What the bytes of a block are, read from memory and from a file.
use nova_block::{BlockFault, encode, get, put};
use nova_mem::MemHost;
use nova_row_codec::{CodecFault, decode_list};
use nova_value::Schema;
use std::alloc::{AllocError, Global};

/// How many entries the block in a file of these bytes has.
fn got(alloc: Global, bytes: &[u8], schema: &Schema) -> Result<usize, BlockFault> {
    let mut host = MemHost::new(alloc);
    put(&mut host, 2, bytes)?;
    Ok(get(alloc, &mut host, 2, bytes.len() as u64, schema)?.len())
}

/// Whether a file of the bytes is answered as the bytes are.
fn is_alike(read: Result<usize, (CodecFault, usize)>, got: Result<usize, BlockFault>) -> bool {
    match (read, got) {
        (Ok(read), Ok(got)) => read == got,
        (Err((_, read)), Err(BlockFault::Damaged { file: 2, at })) => read as u64 == at,
        _ => false,
    }
}

/// What the bytes are: so many entries, which are spelled as these bytes again, or a fault and its
/// place.
pub fn answer_for(alloc: Global, bytes: &[u8], schema: &Schema) -> Result<String, AllocError> {
    let read = match decode_list(alloc, bytes, schema) {
        Ok(delta) => {
            let spelling = encode(alloc, &delta)?;
            if spelling.as_slice() != bytes {
                return String::from_str(alloc, "spelled otherwise");
            }
            Ok(delta.len())
        }
        Err(fault) => Err(fault),
    };
    if !is_alike(read, got(alloc, bytes, schema)) {
        return String::from_str(alloc, "otherwise in a file");
    }
    match read {
        Ok(count) => format!(in alloc; "entries {count}"),
        Err((fault, at)) => format!(in alloc; "{fault:?} {at}"),
    }
}
