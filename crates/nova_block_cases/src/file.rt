//! A block in a file of a host in memory.
use nova_block::{BlockFault, encode, get, put};
use nova_mem::MemHost;
use nova_value::Schema;
use std::alloc::{AllocError, Global};

/// So many entries, or why there is no block.
fn told(alloc: Global, got: Result<usize, BlockFault>) -> Result<String, AllocError> {
    match got {
        Ok(count) => format!(in alloc; "entries {count}"),
        Err(BlockFault::Disk) => String::from_str(alloc, "Disk"),
        Err(BlockFault::Damaged { file, at }) => format!(in alloc; "Damaged {file} {at}"),
        Err(BlockFault::NoMemory) => Err(AllocError),
    }
}

/// What a file gives as the block of so many bytes, where file 2 has these.
pub fn answer_in(
    alloc: Global,
    bytes: &[u8],
    file: u64,
    size: u64,
    schema: &Schema,
) -> Result<String, AllocError> {
    let mut host = MemHost::new(alloc);
    if put(&mut host, 2, bytes).is_err() {
        return String::from_str(alloc, "not put");
    }
    let got = get(alloc, &mut host, file, size, schema).map(|delta| delta.len());
    told(alloc, got)
}

/// What a block gives that is put in a file and got, where a call of the host fails.
pub fn answer_failing(
    alloc: Global,
    bytes: &[u8],
    call: u64,
    schema: &Schema,
) -> Result<String, AllocError> {
    let mut host = MemHost::new(alloc);
    host.fail_at(call)?;
    if put(&mut host, 2, bytes).is_err() {
        return String::from_str(alloc, "not put");
    }
    let got = get(alloc, &mut host, 2, bytes.len() as u64, schema).map(|delta| delta.len());
    told(alloc, got)
}

/// How many bytes are read, in how many calls of the host, where a block is put in a file, got and
/// spelled as its bytes again.
pub fn answer_whole(alloc: Global, bytes: &[u8], schema: &Schema) -> Result<String, AllocError> {
    let mut host = MemHost::new(alloc);
    if put(&mut host, 2, bytes).is_err() {
        return String::from_str(alloc, "not put");
    }
    let Ok(delta) = get(alloc, &mut host, 2, bytes.len() as u64, schema) else {
        return String::from_str(alloc, "not got");
    };
    if encode(alloc, &delta)?.as_slice() != bytes {
        return String::from_str(alloc, "spelled otherwise");
    }
    format!(in alloc; "{} bytes in {} calls", host.read_count(), host.calls())
}
