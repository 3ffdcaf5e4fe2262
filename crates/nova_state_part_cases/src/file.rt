//! A state part in a file of a host in memory.
use crate::answer::counted;
use nova_block::BlockFault;
use nova_group_codec::{Sorts, encode};
use nova_groups::State;
use nova_mem::MemHost;
use nova_outside::put_file;
use nova_state_part::get;
use std::alloc::{AllocError, Global};

/// The state of a file of these bytes.
pub fn got(alloc: Global, bytes: &[u8], sorts: &Sorts) -> Result<State, BlockFault> {
    let mut host = MemHost::new(alloc);
    if put_file(&mut host, 2, bytes).is_err() {
        return Err(BlockFault::Disk);
    }
    get(alloc, &mut host, 2, bytes.len() as u64, sorts)
}

/// How many contributions and groups it has, or why there is no state.
fn told(alloc: Global, got: Result<State, BlockFault>) -> Result<Vec<u8>, AllocError> {
    match got {
        Ok(state) => counted(alloc, &state),
        Err(BlockFault::Disk) => b"disk\n".to_vec(alloc),
        Err(BlockFault::Damaged { file, at }) => {
            Ok(format!(in alloc; "damaged {file} {at}\n")?.into_bytes())
        }
        Err(BlockFault::NoMemory) => Err(AllocError),
    }
}

/// What a file gives as the part of so many bytes, where file 2 has these.
pub fn answer_in(
    alloc: Global,
    bytes: &[u8],
    file: u64,
    size: u64,
    sorts: &Sorts,
) -> Result<Vec<u8>, AllocError> {
    let mut host = MemHost::new(alloc);
    if put_file(&mut host, 2, bytes).is_err() {
        return b"not put\n".to_vec(alloc);
    }
    told(alloc, get(alloc, &mut host, file, size, sorts))
}

/// What a part gives that is put in a file and got, where a call of the host fails.
pub fn answer_failing(
    alloc: Global,
    bytes: &[u8],
    call: u64,
    sorts: &Sorts,
) -> Result<Vec<u8>, AllocError> {
    let mut host = MemHost::new(alloc);
    host.fail_at(call)?;
    if put_file(&mut host, 2, bytes).is_err() {
        return b"not put\n".to_vec(alloc);
    }
    told(alloc, get(alloc, &mut host, 2, bytes.len() as u64, sorts))
}

/// How many bytes are read, in how many calls of the host, where a part is put in a file, got and
/// spelled as its bytes again.
pub fn answer_whole(alloc: Global, bytes: &[u8], sorts: &Sorts) -> Result<Vec<u8>, AllocError> {
    let mut host = MemHost::new(alloc);
    if put_file(&mut host, 2, bytes).is_err() {
        return b"not put\n".to_vec(alloc);
    }
    let Ok(state) = get(alloc, &mut host, 2, bytes.len() as u64, sorts) else {
        return b"not got\n".to_vec(alloc);
    };
    if encode(alloc, &state)?.as_slice() != bytes {
        return b"spelled otherwise\n".to_vec(alloc);
    }
    let (count, calls) = (host.read_count(), host.calls());
    Ok(format!(in alloc; "{count} bytes in {calls} calls\n")?.into_bytes())
}
