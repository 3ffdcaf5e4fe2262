//! Lists of contributions and of groups from bytes. With a flaw comes how many bytes there were from
//! the start of the one that has it.
ghost use Rattle.std.specs.Prelude.{◌≡◌, []};
ghost use Rattle.nova_value.specs.Order.{key_cmp};
ghost use Rattle.nova_group_codec.specs.Sorts.{argument_kinds};
ghost use Rattle.nova_group_codec.specs.Reading as spec;
ghost use Rattle.nova_group_codec.specs.Reading.{Gives, GivesAt};

use crate::decoding::{group_from, number_from, share_from};
use crate::fault::Flaw;
use crate::sorts::{Sorts, argument_kinds};
use nova_groups::{Group, Share};
use nova_value::{Key, Kind, compare_keys};
use std::alloc::Global;

/// The key is above that of the last contribution.
fn is_above_shares(shares: &[(Key, Share)], key: &Key) -> bool
    ensures { result ≡ spec.is_above key_cmp shares.now key.now }
{
    match shares.last() {
        Some((last, _)) => compare_keys(last, key).is_lt(),
        None => true,
    }
}

/// The BY values are above those of the last group.
fn is_above_groups(groups: &[(Key, Group)], by: &Key) -> bool
    ensures { result ≡ spec.is_above key_cmp groups.now by.now }
{
    match groups.last() {
        Some((last, _)) => compare_keys(last, by).is_lt(),
        None => true,
    }
}

/// The contribution at the start of the bytes, whose key is above that of the last one.
fn next_share<'a>(
    alloc: Global,
    sorts: &Sorts,
    arguments: &[Kind],
    shares: &[(Key, Share)],
    bytes: &'a [u8],
) -> Result<((Key, Share), &'a [u8]), Flaw>
    requires { arguments.now ≡ argument_kinds sorts.now.kept }
    ensures { Gives (λ a. (a.0, a.1.now)) result (spec.next_at key_cmp (spec.share_at sorts.now) shares.now bytes.now) }
{
    let (found, after) = share_from(alloc, sorts, arguments, bytes)?;
    if !is_above_shares(shares, &found.0) {
        return Err(Flaw::Broken);
    }
    Ok((found, after))
}

/// The group at the start of the bytes, whose BY values are above those of the last one.
fn next_group<'a>(
    alloc: Global,
    sorts: &Sorts,
    groups: &[(Key, Group)],
    bytes: &'a [u8],
) -> Result<((Key, Group), &'a [u8]), Flaw>
    ensures { Gives (λ a. (a.0, a.1.now)) result (spec.next_at key_cmp (spec.group_at sorts.now) groups.now bytes.now) }
{
    let (found, after) = group_from(alloc, sorts, bytes)?;
    if !is_above_groups(groups, &found.0) {
        return Err(Flaw::Broken);
    }
    Ok((found, after))
}

/// So many contributions, whose keys rise, and the bytes after them.
fn shares_from<'a>(
    alloc: Global,
    sorts: &Sorts,
    arguments: &[Kind],
    count: u64,
    bytes: &'a [u8],
) -> Result<(Vec<(Key, Share)>, &'a [u8]), (Flaw, usize)>
    requires { arguments.now ≡ argument_kinds sorts.now.kept }
    ensures { GivesAt (λ a. (a.0.items, a.1.now)) result (spec.more_at key_cmp (spec.share_at sorts.now) count [] bytes.now) }
{
    let mut shares = Vec::new(alloc);
    let mut rest = bytes;
    for _ in 0..count {
        match next_share(alloc, sorts, arguments, &shares, rest) {
            Ok((found, after)) => {
                if shares.push(found).is_err() {
                    return Err((Flaw::NoMemory, 0));
                }
                rest = after;
            }
            Err(flaw) => return Err((flaw, rest.len())),
        }
    }
    Ok((shares, rest))
}

/// So many groups, whose BY values rise, and the bytes after them.
fn groups_from<'a>(
    alloc: Global,
    sorts: &Sorts,
    count: u64,
    bytes: &'a [u8],
) -> Result<(Vec<(Key, Group)>, &'a [u8]), (Flaw, usize)>
    ensures { GivesAt (λ a. (a.0.items, a.1.now)) result (spec.more_at key_cmp (spec.group_at sorts.now) count [] bytes.now) }
{
    let mut groups = Vec::new(alloc);
    let mut rest = bytes;
    for _ in 0..count {
        match next_group(alloc, sorts, &groups, rest) {
            Ok((found, after)) => {
                if groups.push(found).is_err() {
                    return Err((Flaw::NoMemory, 0));
                }
                rest = after;
            }
            Err(flaw) => return Err((flaw, rest.len())),
        }
    }
    Ok((groups, rest))
}

/// The contributions behind the number of them.
#[tactic(auto, unfolding(crate::specs::Reading::list_at))]
fn share_list<'a>(
    alloc: Global,
    sorts: &Sorts,
    bytes: &'a [u8],
) -> Result<(Vec<(Key, Share)>, &'a [u8]), (Flaw, usize)>
    ensures { GivesAt (λ a. (a.0.items, a.1.now)) result (spec.list_at key_cmp (spec.share_at sorts.now) bytes.now) }
{
    let arguments = match argument_kinds(alloc, sorts.kept()) {
        Ok(kinds) => kinds,
        Err(_) => return Err((Flaw::NoMemory, 0)),
    };
    match number_from(bytes) {
        Ok((count, rest)) => shares_from(alloc, sorts, &arguments, count, rest),
        Err(flaw) => Err((flaw, bytes.len())),
    }
}

/// The groups behind the number of them.
#[tactic(auto, unfolding(crate::specs::Reading::list_at))]
fn group_list<'a>(
    alloc: Global,
    sorts: &Sorts,
    bytes: &'a [u8],
) -> Result<(Vec<(Key, Group)>, &'a [u8]), (Flaw, usize)>
    ensures { GivesAt (λ a. (a.0.items, a.1.now)) result (spec.list_at key_cmp (spec.group_at sorts.now) bytes.now) }
{
    match number_from(bytes) {
        Ok((count, rest)) => groups_from(alloc, sorts, count, rest),
        Err(flaw) => Err((flaw, bytes.len())),
    }
}

/// The contributions and the groups, with nothing after them.
#[tactic(auto, unfolding(crate::specs::Reading::parts_at))]
pub(crate) fn parts_from(
    alloc: Global,
    sorts: &Sorts,
    bytes: &[u8],
) -> Result<(Vec<(Key, Share)>, Vec<(Key, Group)>), (Flaw, usize)>
    ensures { GivesAt (λ a. (a.0.items, a.1.items)) result (spec.parts_at sorts.now bytes.now) }
{
    let (shares, rest) = share_list(alloc, sorts, bytes)?;
    let (groups, rest) = group_list(alloc, sorts, rest)?;
    if !rest.is_empty() {
        return Err((Flaw::Broken, rest.len()));
    }
    Ok((shares, groups))
}
