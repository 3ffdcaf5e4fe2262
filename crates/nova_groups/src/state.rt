//! The state: contributions by input key, groups by BY values.
ghost use Rattle.std.specs.Prelude.{◌≡◌, ◌++◌, ◌<◌, ◌^◌, IfOk, OnOk, Some, option_copied};
ghost use Rattle.std.specs.Option.{option_map};
ghost use Rattle.std.specs.FinMap as fin;
ghost use Rattle.nova_groups.specs.State as spec;
ghost use Rattle.nova_groups.specs.Seen.{share_seen, group_seen};

use crate::group::{Group, Share, blank, changed};
use nova_pig_tree::CallKind;
use nova_value::{Key, copy_key};
use std::alloc::{AllocError, Global};
use std::collections::BTreeMap;
use std::marker::Model;

/// The state of a grouping task: at each input key what its row gives to a group, and the groups by
/// their BY values.
#[derive(Drop)]
pub struct State {
    shares: BTreeMap<Key, Share>,
    groups: BTreeMap<Key, Group>,
}

impl Model for State {
    ghost use Rattle.nova_groups.specs.State.{StateValue};
    ghost use Rattle.nova_groups.specs.Seen.{share_seen, group_seen, state_code};

    ghost Value = { StateValue };

    ghost coded = { state_code };

    ghost view = { λ s. record { shares = share_seen s.shares.entries; groups = group_seen s.groups.entries } };
}

impl State {
    /// The state of the empty table.
    pub fn empty(alloc: Global) -> State
        ensures { result ≡ record { shares = fin.empty; groups = fin.empty } }
    {
        State {
            shares: BTreeMap::new(alloc),
            groups: BTreeMap::new(alloc),
        }
    }

    /// The state of these shares and groups.
    pub fn new(shares: BTreeMap<Key, Share>, groups: BTreeMap<Key, Group>) -> State
        ensures { result ≡ record { shares = share_seen shares.entries; groups = group_seen groups.entries } }
    {
        State { shares, groups }
    }

    /// The shares by input key.
    pub fn shares(&self) -> &BTreeMap<Key, Share>
        ensures { share_seen result.now.entries ≡ self.now.shares }
    {
        &self.shares
    }

    /// How many shares there are.
    pub fn share_count(&self) -> usize
        ensures count { result ≡ fin.len self.now.shares }
        ensures small { result < 2 ^ 63 }
    {
        self.shares.len()
    }

    /// The groups by BY values.
    pub fn groups(&self) -> &BTreeMap<Key, Group>
        ensures { group_seen result.now.entries ≡ self.now.groups }
    {
        &self.groups
    }

    /// The group with these BY values, where there is one.
    pub fn group(&self, by: &Key) -> Option<&Group>
        ensures { option_map (λ g. g.now) result ≡ fin.get self.now.groups by.now }
    {
        self.groups.get(by)
    }
}

/// Takes the group out, or makes one of no members.
fn take_group(
    alloc: Global,
    kinds: &[CallKind],
    groups: &mut BTreeMap<Key, Group>,
    by: &Key,
) -> Result<Group, AllocError>
    ensures group { IfOk result (λ g. g ≡ spec.or_blank kinds.now (fin.get (group_seen groups.old.entries) by.now)) }
    ensures others { OnOk result (group_seen groups.new.entries ≡ fin.remove (group_seen groups.old.entries) by.now) }
{
    match groups.remove(by) {
        Some(group) => Ok(group),
        None => Ok(blank(alloc, kinds)?),
    }
}

/// The group, if it has members.
fn put_group(groups: &mut BTreeMap<Key, Group>, by: Key, group: Group) -> Result<(), AllocError>
    ensures { OnOk result (group_seen groups.new.entries ≡ spec.put_group (group_seen groups.old.entries) by group) }
{
    if group.members == 0 {
        groups.remove(&by);
    } else {
        groups.insert(by, group)?;
    }
    Ok(())
}

/// One member more, or one fewer.
fn change_group(
    alloc: Global,
    grows: bool,
    kinds: &[CallKind],
    groups: &mut BTreeMap<Key, Group>,
    share: &Share,
) -> Result<(), AllocError>
    ensures { OnOk result (group_seen groups.new.entries ≡ spec.change_group grows kinds.now (group_seen groups.old.entries) (Some share.now)) }
{
    let group = take_group(alloc, kinds, groups, &share.by)?;
    let group = changed(alloc, grows, group, &share.args)?;
    put_group(groups, copy_key(alloc, &share.by)?, group)?;
    Ok(())
}

fn change_groups(
    alloc: Global,
    grows: bool,
    kinds: &[CallKind],
    groups: &mut BTreeMap<Key, Group>,
    share: Option<&Share>,
) -> Result<(), AllocError>
    ensures { OnOk result (group_seen groups.new.entries ≡ spec.change_group grows kinds.now (group_seen groups.old.entries) (option_copied share.entry)) }
{
    match share {
        Some(share) => change_group(alloc, grows, kinds, groups, share),
        None => Ok(()),
    }
}

/// Takes a key's share out.
fn take_share(shares: &mut BTreeMap<Key, Share>, key: &Key) -> Option<Share>
    ensures old { result ≡ fin.get (share_seen shares.old.entries) key.now }
    ensures others { share_seen shares.new.entries ≡ fin.remove (share_seen shares.old.entries) key.now }
{
    shares.remove(key)
}

/// Puts a key's share, if it has one, where it had none.
fn put_share(shares: &mut BTreeMap<Key, Share>, key: Key, share: Share) -> Result<(), AllocError>
    ensures { OnOk result (share_seen shares.new.entries ≡ fin.insert (share_seen shares.old.entries) key share) }
{
    shares.insert(key, share)?;
    Ok(())
}

/// Puts what a key gives, if it gives anything, where it gave nothing.
fn keep_share(
    alloc: Global,
    shares: &mut BTreeMap<Key, Share>,
    key: &Key,
    share: Option<Share>,
) -> Result<(), AllocError>
    ensures { OnOk result ((m : spec.ShareMap) → share_seen shares.old.entries ≡ fin.remove m key.now → share_seen shares.new.entries ≡ spec.put_share m key.now share) }
{
    match share {
        Some(share) => {
            put_share(shares, copy_key(alloc, key)?, share)?;
            Ok(())
        }
        None => Ok(()),
    }
}

/// Notes a group.
fn note(alloc: Global, touched: &mut Vec<Key>, share: Option<&Share>) -> Result<(), AllocError>
    ensures { OnOk result (touched.new.items ≡ touched.old.items ++ spec.by_list (option_copied share.entry)) }
{
    match share {
        Some(share) => {
            touched.push(copy_key(alloc, &share.by)?)?;
            Ok(())
        }
        None => Ok(()),
    }
}

/// A key's new share, or none, in the place of its old one: the old group loses a member and the
/// new one gains one, and a group without members goes. The BY values of both groups are noted. It
/// takes a logarithm of the numbers of shares, of groups and of distinct values, whatever the number
/// of members.
pub fn move_share(
    alloc: Global,
    kinds: &[CallKind],
    state: State,
    touched: &mut Vec<Key>,
    key: &Key,
    new: Option<Share>,
) -> Result<State, AllocError>
    ensures state { IfOk result (λ s. s ≡ spec.moved kinds.now state key.now new) }
    ensures touched { OnOk result (touched.new.items ≡ (touched.old.items ++ spec.by_list (fin.get state.shares key.now)) ++ spec.by_list new) }
{
    let State {
        mut shares,
        mut groups,
    } = state;
    let old = take_share(&mut shares, key);
    change_groups(alloc, false, kinds, &mut groups, old.as_ref())?;
    change_groups(alloc, true, kinds, &mut groups, new.as_ref())?;
    note(alloc, touched, old.as_ref())?;
    note(alloc, touched, new.as_ref())?;
    keep_share(alloc, &mut shares, key, new)?;
    Ok(State { shares, groups })
}
