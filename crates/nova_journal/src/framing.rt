// What is written of a record.
ghost use Rattle.std.specs.Prelude.{◌≡◌, ◌+◌, ◌≤◌, ◌++◌, IfOk};
ghost use Rattle.nova_journal.specs.Log.{frame, length_bytes, tick_payload};
ghost use Rattle.arrayvec.specs.ArrayVec.{array_vec_len};

use arrayvec::ArrayVec;
use std::alloc::{AllocError, Global};

/// What is written behind a gate for a payload: its length, the payload and a closed gate.
#[tactic(auto, unfolding(crate::specs::Log::length_bytes))]
pub fn frame(alloc: Global, payload: &[u8]) -> Result<Vec<u8>, AllocError>
    ensures { IfOk result (λ framed. framed.items ≡ frame payload.now) }
{
    let mut framed = Vec::new(alloc);
    framed.reserve(payload.len())?;
    framed.extend_from_slice(&(payload.len() as u64).to_be_bytes())?;
    framed.extend_from_slice(payload)?;
    framed.push(0)?;
    Ok(framed)
}

/// Eight bytes more, the highest first.
#[tactic(auto, unfolding(crate::specs::Log::length_bytes))]
fn push_number(framed: &mut ArrayVec<u8, 32>, number: u64)
    requires { array_vec_len framed.old + 8 ≤ 32 }
    ensures items { framed.new.items ≡ framed.old.items ++ length_bytes number }
    ensures len { array_vec_len framed.new ≡ array_vec_len framed.old + 8 }
{
    let _ = framed.try_extend_from_slice(&number.to_be_bytes());
}

/// What `frame` makes of the payload that a tick is written as, without memory.
pub fn frame_tick(moment: u64) -> ArrayVec<u8, 32>
    ensures { result.items ≡ frame (tick_payload moment) }
{
    let mut framed = ArrayVec::new();
    push_number(&mut framed, 9);
    framed.push(3);
    push_number(&mut framed, moment);
    framed.push(0);
    framed
}
