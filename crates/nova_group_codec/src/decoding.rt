//! Contributions and groups from bytes.
ghost use Rattle.std.specs.Prelude.{◌≡◌, T, IfOk};
ghost use Rattle.std.specs.FinMap.{is_sorted};
ghost use Rattle.nova_groups.specs.Numbers.{count_seen};
ghost use Rattle.nova_value.specs.Order.{value_cmp};
ghost use Rattle.nova_row_codec.specs.Reading.{value_at, values_at};
ghost use Rattle.nova_group_codec.specs.Sorts.{argument_kinds};
ghost use Rattle.nova_group_codec.specs.Reading as spec;
ghost use Rattle.nova_group_codec.specs.Reading.{Gives, flawed};

use crate::fault::Flaw;
use crate::sorts::{Kept, Sorts};
use nova_groups::{Group, Item, Numbers, Share};
use nova_row_codec::{value_from, values_of};
use nova_value::{Key, Kind, Row, Value, compare_values};
use std::alloc::{AllocError, Global};
use std::collections::BTreeMap;

#[tactic(auto, unfolding(crate::specs::Reading::number_at))]
pub(crate) fn number_from(bytes: &[u8]) -> Result<(u64, &[u8]), Flaw>
    ensures { Gives (λ a. (a.0, a.1.now)) result (spec.number_at bytes.now) }
{
    if bytes.len() < 8 {
        return Err(Flaw::Short);
    }
    let (prefix, rest) = bytes.split_at(8);
    let number = u64::from_be_bytes([
        prefix[0], prefix[1], prefix[2], prefix[3], prefix[4], prefix[5], prefix[6], prefix[7],
    ]);
    Ok((number, rest))
}

/// A number from 1.
#[tactic(auto, unfolding(crate::specs::Reading::positive_at))]
fn positive_from(bytes: &[u8]) -> Result<(u64, &[u8]), Flaw>
    ensures { Gives (λ a. (a.0, a.1.now)) result (spec.positive_at bytes.now) }
{
    let (number, rest) = number_from(bytes)?;
    if number == 0 {
        return Err(Flaw::Broken);
    }
    Ok((number, rest))
}

fn values_from<'a>(
    alloc: Global,
    kinds: &[Kind],
    bytes: &'a [u8],
) -> Result<(Vec<Value>, &'a [u8]), Flaw>
    ensures { Gives (λ a. (a.0.items, a.1.now)) result (flawed (values_at kinds.now bytes.now)) }
{
    Ok(values_of(alloc, kinds, bytes)?)
}

/// A value and how often it stands.
#[tactic(auto, unfolding(crate::specs::Reading::count_at))]
fn count_from(alloc: Global, kind: Kind, bytes: &[u8]) -> Result<((Value, u64), &[u8]), Flaw>
    ensures { Gives (λ a. (a.0, a.1.now)) result (spec.count_at kind bytes.now) }
{
    let (value, rest) = value_from(alloc, kind, bytes)?;
    let (number, rest) = positive_from(rest)?;
    Ok(((value, number), rest))
}

/// The value is above the last one.
fn is_above(counts: &[(Value, u64)], value: &Value) -> bool
    ensures { result ≡ spec.is_above value_cmp counts.now value.now }
{
    match counts.last() {
        Some((last, _)) => compare_values(last, value).is_lt(),
        None => true,
    }
}

/// The value at the start of the bytes, which is above the last one, and how often it stands.
fn next_count<'a>(
    alloc: Global,
    kind: Kind,
    counts: &[(Value, u64)],
    bytes: &'a [u8],
) -> Result<((Value, u64), &'a [u8]), Flaw>
    ensures { Gives (λ a. (a.0, a.1.now)) result (spec.next_at value_cmp (spec.count_at kind) counts.now bytes.now) }
{
    let (found, after) = count_from(alloc, kind, bytes)?;
    if !is_above(counts, &found.0) {
        return Err(Flaw::Broken);
    }
    Ok((found, after))
}

/// Values that rise, each with how often it stands.
fn counts_from<'a>(
    alloc: Global,
    kind: Kind,
    bytes: &'a [u8],
) -> Result<(Vec<(Value, u64)>, &'a [u8]), Flaw>
    ensures { Gives (λ a. (a.0.items, a.1.now)) result (spec.counts_at kind bytes.now) }
{
    let (count, after) = number_from(bytes)?;
    let mut counts = Vec::new(alloc);
    let mut rest = after;
    for _ in 0..count {
        let (found, after) = next_count(alloc, kind, &counts, rest)?;
        counts.push(found)?;
        rest = after;
    }
    Ok((counts, rest))
}

/// The map of values with how often they stand.
fn count_map(alloc: Global, counts: Vec<(Value, u64)>) -> Result<BTreeMap<Value, u64>, AllocError>
    requires { T (is_sorted value_cmp counts.items) }
    ensures { IfOk result (λ map. count_seen map.entries ≡ count_seen counts.items) }
{
    counts.into_iter().collect(alloc)
}

/// A sum.
#[tactic(auto, unfolding(crate::specs::Reading::number_at))]
fn total_from(bytes: &[u8]) -> Result<(Item, &[u8]), Flaw>
    ensures { Gives (λ a. (a.0, a.1.now)) result (spec.total_at bytes.now) }
{
    if bytes.len() < 8 {
        return Err(Flaw::Short);
    }
    let (prefix, rest) = bytes.split_at(8);
    let sum = i64::from_be_bytes([
        prefix[0], prefix[1], prefix[2], prefix[3], prefix[4], prefix[5], prefix[6], prefix[7],
    ]);
    Ok((Item::Total(sum), rest))
}

#[tactic(auto, unfolding(crate::specs::Reading::item_at))]
fn item_from(alloc: Global, kept: Kept, bytes: &[u8]) -> Result<(Item, &[u8]), Flaw>
    ensures { Gives (λ a. (a.0, a.1.now)) result (spec.item_at kept bytes.now) }
{
    match kept {
        Kept::Total => total_from(bytes),
        Kept::Counts(kind) => {
            let (counts, rest) = counts_from(alloc, kind, bytes)?;
            let map = count_map(alloc, counts)?;
            Ok((Item::Counts(Numbers::new(map)), rest))
        }
    }
}

/// An item for each kept aggregate.
fn items_from<'a>(
    alloc: Global,
    kept: &[Kept],
    bytes: &'a [u8],
) -> Result<(Vec<Item>, &'a [u8]), Flaw>
    ensures { Gives (λ a. (a.0.items, a.1.now)) result (spec.items_at kept.now bytes.now) }
{
    let mut items = Vec::with_capacity(alloc, kept.len())?;
    let mut rest = bytes;
    for i in 0..kept.len() {
        let (item, after) = item_from(alloc, kept[i], rest)?;
        items.push(item)?;
        rest = after;
    }
    Ok((items, rest))
}

/// A contribution at its input key.
#[tactic(auto, unfolding(crate::specs::Reading::share_at))]
pub(crate) fn share_from<'a>(
    alloc: Global,
    sorts: &Sorts,
    arguments: &[Kind],
    bytes: &'a [u8],
) -> Result<((Key, Share), &'a [u8]), Flaw>
    requires { arguments.now ≡ argument_kinds sorts.now.kept }
    ensures { Gives (λ a. (a.0, a.1.now)) result (spec.share_at sorts.now bytes.now) }
{
    let (key, rest) = values_from(alloc, sorts.key(), bytes)?;
    let (by, rest) = values_from(alloc, sorts.by(), rest)?;
    let (args, rest) = values_from(alloc, arguments, rest)?;
    let share = Share {
        by: Key::new(by),
        args: Row::new(args),
    };
    Ok(((Key::new(key), share), rest))
}

/// A group at its BY values.
#[tactic(auto, unfolding(crate::specs::Reading::group_at))]
pub(crate) fn group_from<'a>(
    alloc: Global,
    sorts: &Sorts,
    bytes: &'a [u8],
) -> Result<((Key, Group), &'a [u8]), Flaw>
    ensures { Gives (λ a. (a.0, a.1.now)) result (spec.group_at sorts.now bytes.now) }
{
    let (by, rest) = values_from(alloc, sorts.by(), bytes)?;
    let (members, rest) = positive_from(rest)?;
    let (items, rest) = items_from(alloc, sorts.kept(), rest)?;
    Ok(((Key::new(by), Group::new(members, items)), rest))
}
