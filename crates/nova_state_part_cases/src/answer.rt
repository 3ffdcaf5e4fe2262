//! What the bytes of a state part are, read from memory and from a file.
use crate::file::got;
use nova_block::BlockFault;
use nova_group_codec::{Sorts, StateFault, decode, encode};
use nova_groups::State;
use std::alloc::{AllocError, Global};

/// How many contributions and groups a state has, as a line.
pub fn counted(alloc: Global, state: &State) -> Result<Vec<u8>, AllocError> {
    let (shares, groups) = (state.shares().len(), state.groups().len());
    Ok(format!(in alloc; "contributions {shares} groups {groups}\n")?.into_bytes())
}

/// Whether a file of the bytes is answered as the bytes are.
fn is_alike(read: &Result<State, StateFault>, got: &Result<State, BlockFault>) -> bool {
    match (read, got) {
        (Ok(read), Ok(got)) => {
            read.shares().len() == got.shares().len() && read.groups().len() == got.groups().len()
        }
        (Err(StateFault::Damaged { at: read }), Err(BlockFault::Damaged { file: 2, at })) => {
            *read as u64 == *at
        }
        _ => false,
    }
}

/// What the bytes are: so many contributions and groups, which are spelled as these bytes again, or
/// the place of their damage.
pub fn answer_for(alloc: Global, bytes: &[u8], sorts: &Sorts) -> Result<Vec<u8>, AllocError> {
    let read = decode(alloc, sorts, bytes);
    if !is_alike(&read, &got(alloc, bytes, sorts)) {
        return b"otherwise in a file\n".to_vec(alloc);
    }
    match read {
        Ok(state) => {
            if encode(alloc, &state)?.as_slice() != bytes {
                return b"spelled otherwise\n".to_vec(alloc);
            }
            counted(alloc, &state)
        }
        Err(StateFault::Damaged { at }) => { Ok(format!(in alloc; "damaged {at}\n")?.into_bytes()) }
        Err(StateFault::NoMemory) => Err(AllocError),
    }
}
