//! Groups, and what rows give to them.
ghost use Rattle.std.specs.Prelude.{◌≡◌, [], IfOk};
ghost use Rattle.nova_groups.specs.Kinds.{Group as G};
ghost use Rattle.nova_groups.specs.State as state;

use crate::item::{Item, blank_items, change_each};
use nova_pig_tree::CallKind;
use nova_value::{Key, Row};
use std::alloc::{AllocError, Global};
use std::marker::Model;

/// What a row gives to its group, its contribution: the BY values, and an argument for each kept
/// aggregate.
#[derive(Drop)]
pub struct Share {
    pub by: Key,
    pub args: Row,
}

/// The number of members, and the kept aggregates.
#[derive(Drop)]
pub struct Group {
    pub(crate) members: u64,
    pub(crate) items: Vec<Item>,
}

impl Model for Group {
    ghost use Rattle.nova_groups.specs.Kinds.{Group as G, group_code};

    ghost Value = { G };

    ghost coded = { group_code };

    ghost view = { λ g. record { members = g.members; items = g.items.items } };
}

impl Group {
    /// A group of so many members, with these kept aggregates.
    pub fn new(members: u64, items: Vec<Item>) -> Group
        ensures { result ≡ record { members = members; items = items.items } }
    {
        Group { members, items }
    }

    /// How many members it has; none beyond 2^64 - 1 are counted.
    pub fn members(&self) -> u64
        ensures { result ≡ self.now.members }
    {
        self.members
    }

    /// Its kept aggregates, in the order of the calls.
    pub fn items(&self) -> &[Item]
        ensures { result.now ≡ self.now.items }
    {
        &self.items
    }
}

/// A group of no members.
pub(crate) fn blank(alloc: Global, kinds: &[CallKind]) -> Result<Group, AllocError>
    ensures { IfOk result (λ g. g ≡ state.tally kinds.now []) }
{
    Ok(Group {
        members: 0,
        items: blank_items(alloc, kinds)?,
    })
}

/// One member more, or one fewer.
pub(crate) fn changed(
    alloc: Global,
    grows: bool,
    group: Group,
    args: &Row,
) -> Result<Group, AllocError>
    ensures { IfOk result (λ g. g ≡ state.changed grows group args.now) }
{
    let Group { members, items } = group;
    let items = change_each(alloc, grows, items, args.values())?;
    if grows {
        Ok(Group {
            members: members.saturating_add(1),
            items,
        })
    } else {
        Ok(Group {
            members: members.saturating_sub(1),
            items,
        })
    }
}
