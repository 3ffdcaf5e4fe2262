//! States as bytes.
ghost use Rattle.std.specs.Prelude.{◌≡◌, ◌++◌, ◌<◌, ◌^◌, length, IfOk, OnOk};
ghost use Rattle.std.specs.List.{flat_map};
ghost use Rattle.std.specs.BTreeMap.{IsOrdered};
ghost use Rattle.std.specs.FinMap as fin;
ghost use Rattle.nova_value.specs.Order.{key_cmp, value_cmp};
ghost use Rattle.nova_row_codec.specs.Spelling.{eight};
ghost use Rattle.nova_group_codec.specs.Spelling as spec;

use nova_groups::{Group, Item, Share, State};
use nova_row_codec::{put_value, put_values};
use nova_value::{Key, Value};
use std::alloc::{AllocError, Global};
use std::collections::BTreeMap;

fn put_number(out: &mut Vec<u8>, number: u64) -> Result<(), AllocError>
    ensures { OnOk result (out.new.items ≡ out.old.items ++ eight number) }
{
    out.extend_from_slice(&number.to_be_bytes())
}

/// A value and how often it stands.
fn put_count(out: &mut Vec<u8>, value: &Value, number: u64) -> Result<(), AllocError>
    ensures { OnOk result (out.new.items ≡ out.old.items ++ spec.count_bytes (value.now, number)) }
{
    put_value(out, value)?;
    put_number(out, number)
}

fn put_counts(out: &mut Vec<u8>, map: &BTreeMap<Value, u64>) -> Result<(), AllocError>
    ensures done { OnOk result (out.new.items ≡ out.old.items ++ spec.list_bytes spec.count_bytes map.now.entries) }
    ensures ordered { IsOrdered value_cmp map.now }
{
    put_number(out, map.len() as u64)?;
    for (value, number) in map {
        put_count(out, value, *number)?;
    }
    Ok(())
}

#[tactic(auto, unfolding(crate::specs::Spelling::item_bytes))]
fn put_item(out: &mut Vec<u8>, item: &Item) -> Result<(), AllocError>
    ensures { OnOk result (out.new.items ≡ out.old.items ++ spec.item_bytes item.now) }
{
    match item {
        Item::Total(sum) => put_value(out, &Value::Long(*sum)),
        Item::Counts(numbers) => put_counts(out, numbers.map()),
    }
}

fn put_items(out: &mut Vec<u8>, items: &[Item]) -> Result<(), AllocError>
    ensures { OnOk result (out.new.items ≡ out.old.items ++ flat_map spec.item_bytes items.now) }
{
    for item in items {
        put_item(out, item)?;
    }
    Ok(())
}

fn put_share(out: &mut Vec<u8>, key: &Key, share: &Share) -> Result<(), AllocError>
    ensures { OnOk result (out.new.items ≡ out.old.items ++ spec.share_bytes (key.now, share.now)) }
{
    put_values(out, key.values())?;
    put_values(out, share.by.values())?;
    put_values(out, share.args.values())
}

fn put_group(out: &mut Vec<u8>, by: &Key, group: &Group) -> Result<(), AllocError>
    ensures { OnOk result (out.new.items ≡ out.old.items ++ spec.group_bytes (by.now, group.now)) }
{
    put_values(out, by.values())?;
    put_number(out, group.members())?;
    put_items(out, group.items())
}

fn put_shares(out: &mut Vec<u8>, shares: &BTreeMap<Key, Share>) -> Result<(), AllocError>
    ensures done { OnOk result (out.new.items ≡ out.old.items ++ spec.list_bytes spec.share_bytes shares.now.entries) }
    ensures ordered { IsOrdered key_cmp shares.now }
    ensures few { length shares.now.entries < 2 ^ 63 }
{
    put_number(out, shares.len() as u64)?;
    for (key, share) in shares {
        put_share(out, key, share)?;
    }
    Ok(())
}

fn put_groups(out: &mut Vec<u8>, groups: &BTreeMap<Key, Group>) -> Result<(), AllocError>
    ensures done { OnOk result (out.new.items ≡ out.old.items ++ spec.list_bytes spec.group_bytes groups.now.entries) }
    ensures ordered { IsOrdered key_cmp groups.now }
{
    put_number(out, groups.len() as u64)?;
    for (by, group) in groups {
        put_group(out, by, group)?;
    }
    Ok(())
}

/// The bytes of a state: its contributions and then its groups, each behind the number of them.
pub fn encode(alloc: Global, state: &State) -> Result<Vec<u8>, AllocError>
    ensures bytes { IfOk result (λ bytes. bytes.items ≡ spec.state_bytes state.now) }
    ensures few { IfOk result (λ _. fin.len state.now.shares < 2 ^ 63) }
{
    let mut out = Vec::new(alloc);
    put_shares(&mut out, state.shares())?;
    put_groups(&mut out, state.groups())?;
    Ok(out)
}
