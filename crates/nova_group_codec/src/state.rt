//! States from bytes.
ghost use Rattle.std.specs.Prelude.{◌≡◌, T, IfOk, IfErr};
ghost use Rattle.std.specs.FinMap.{is_sorted};
ghost use Rattle.nova_value.specs.Order.{key_cmp};
ghost use Rattle.nova_groups.specs.Seen.{share_seen, group_seen};
ghost use Rattle.nova_group_codec.specs.Written.{IsRefused, SpellsState, fault_at};

use crate::fault::{Flaw, StateFault};
use crate::list::parts_from;
use crate::sorts::Sorts;
use nova_groups::{Group, Share, State};
use nova_value::Key;
use std::alloc::{AllocError, Global};
use std::collections::BTreeMap;

fn share_map(alloc: Global, shares: Vec<(Key, Share)>) -> Result<BTreeMap<Key, Share>, AllocError>
    requires { T (is_sorted key_cmp shares.items) }
    ensures { IfOk result (λ map. share_seen map.entries ≡ share_seen shares.items) }
{
    shares.into_iter().collect(alloc)
}

fn group_map(alloc: Global, groups: Vec<(Key, Group)>) -> Result<BTreeMap<Key, Group>, AllocError>
    requires { T (is_sorted key_cmp groups.items) }
    ensures { IfOk result (λ map. group_seen map.entries ≡ group_seen groups.items) }
{
    groups.into_iter().collect(alloc)
}

/// The state of contributions and groups that rise.
fn state_of(
    alloc: Global,
    shares: Vec<(Key, Share)>,
    groups: Vec<(Key, Group)>,
) -> Result<State, AllocError>
    requires shares { T (is_sorted key_cmp shares.items) }
    requires groups { T (is_sorted key_cmp groups.items) }
    ensures { IfOk result (λ s. s ≡ record { shares = share_seen shares.items; groups = group_seen groups.items }) }
{
    let shares = share_map(alloc, shares)?;
    Ok(State::new(shares, group_map(alloc, groups)?))
}

/// The place of a flaw, of which the thing that has it starts so many bytes before the end.
fn fault_of(flaw: Flaw, left: usize, len: usize) -> StateFault
    ensures { result ≡ fault_at len (flaw, left) }
{
    match flaw {
        Flaw::Short => StateFault::Damaged { at: len },
        Flaw::Broken => StateFault::Damaged {
            at: len.saturating_sub(left),
        },
        Flaw::NoMemory => StateFault::NoMemory,
    }
}

/// The state that the bytes spell, of a task of these sorts. Whether the groups are those of the
/// contributions isn't tested.
pub fn decode(alloc: Global, sorts: &Sorts, bytes: &[u8]) -> Result<State, StateFault>
    ensures found { IfOk result (SpellsState sorts.now bytes.now) }
    ensures refused { IfErr result (IsRefused sorts.now bytes.now) }
{
    match parts_from(alloc, sorts, bytes) {
        Ok((shares, groups)) => match state_of(alloc, shares, groups) {
            Ok(state) => Ok(state),
            Err(_) => Err(StateFault::NoMemory),
        },
        Err((flaw, left)) => Err(fault_of(flaw, left, bytes.len())),
    }
}
