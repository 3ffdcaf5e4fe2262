//! Kept aggregates.
ghost use Rattle.std.specs.Prelude.{◌≡◌, ◌-◌, ◌+ℤ◌, ◌-ℤ◌, [], map, IfOk, OnOk};
ghost use Rattle.std.specs.FinMap as fin;
ghost use Rattle.nova_groups.specs.Numbers.{count_seen};
ghost use Rattle.nova_pig_algebra.specs.Meaning as meaning;
ghost use Rattle.nova_pig_rows.specs.Seen.{datum};
ghost use Rattle.nova_value.specs.Wrapped.{wrapped};
ghost use Rattle.nova_groups.specs.State as state;
ghost use Rattle.nova_groups.specs.State.{or_zero, put_count, up, long_of, head, rest};

use nova_pig_rows::{Datum, lend};
use nova_pig_tree::CallKind;
use nova_value::{Value, copy_value};
use std::alloc::{AllocError, Global};
use std::collections::BTreeMap;
use std::marker::Model;

/// How often each value stands among the arguments of a group's members.
#[derive(Drop)]
pub struct Numbers {
    pub(crate) map: BTreeMap<Value, u64>,
}

impl Model for Numbers {
    ghost use Rattle.nova_groups.specs.Numbers.{CountMap, count_code, count_seen};

    ghost Value = { CountMap };

    ghost coded = { count_code };

    ghost view = { λ n. count_seen n.map.entries };
}

/// A kept aggregate: a sum, or how often each value stands among the members.
#[derive(Drop)]
pub enum Item {
    Total(i64),
    Counts(Numbers),
}

/// How often the value stands.
fn number_at(map: &BTreeMap<Value, u64>, value: &Value) -> u64
    ensures { result ≡ or_zero (fin.get (count_seen map.now.entries) value.now) }
{
    match map.get(value) {
        Some(number) => *number,
        None => 0,
    }
}

/// The number at the value, where 0 is none.
fn put_number(map: &mut BTreeMap<Value, u64>, value: Value, number: u64) -> Result<(), AllocError>
    ensures { OnOk result (count_seen map.new.entries ≡ put_count (count_seen map.old.entries) value number) }
{
    if number == 0 {
        map.remove(&value);
    } else {
        map.insert(value, number)?;
    }
    Ok(())
}

impl Numbers {
    /// The numbers of these values.
    pub fn new(map: BTreeMap<Value, u64>) -> Numbers
        ensures { result ≡ count_seen map.entries }
    {
        Numbers { map }
    }

    /// Each value with how often it stands.
    pub fn map(&self) -> &BTreeMap<Value, u64>
        ensures { count_seen result.now.entries ≡ self.now }
    {
        &self.map
    }

    pub(crate) fn empty(alloc: Global) -> Numbers
        ensures { result ≡ fin.empty }
    {
        Numbers {
            map: BTreeMap::new(alloc),
        }
    }

    /// The least value, and 0 where there is none.
    pub fn least<'a>(&'a self) -> Datum<'a>
        ensures { datum result ≡ meaning.least (fin.keys self.now) }
    {
        match self.map.first_key_value() {
            Some((value, _)) => lend(value),
            None => Datum::Long(0),
        }
    }

    /// The greatest value, and 0 where there is none.
    pub fn greatest<'a>(&'a self) -> Datum<'a>
        ensures { datum result ≡ meaning.greatest (fin.keys self.now) }
    {
        match self.map.last_key_value() {
            Some((value, _)) => lend(value),
            None => Datum::Long(0),
        }
    }

    /// The value stands once more.
    fn more(self, alloc: Global, value: &Value) -> Result<Numbers, AllocError>
        ensures { IfOk result (λ m. m ≡ put_count self value.now (up (or_zero (fin.get self value.now)))) }
    {
        let mut map = self.map;
        let number = number_at(&map, value);
        put_number(
            &mut map,
            copy_value(alloc, value)?,
            number.saturating_add(1),
        )?;
        Ok(Numbers { map })
    }

    /// The value stands once less.
    fn fewer(self, alloc: Global, value: &Value) -> Result<Numbers, AllocError>
        ensures { IfOk result (λ m. m ≡ put_count self value.now (or_zero (fin.get self value.now) - 1)) }
    {
        let mut map = self.map;
        let number = number_at(&map, value);
        put_number(
            &mut map,
            copy_value(alloc, value)?,
            number.saturating_sub(1),
        )?;
        Ok(Numbers { map })
    }
}

fn long_of(value: &Value) -> i64
    ensures { result ≡ state.long_of value.now }
{
    match value {
        Value::Long(number) => *number,
        Value::Text(_) => 0,
    }
}

fn sum_with(sum: i64, long: i64) -> i64
    ensures { result ≡ wrapped (sum +ℤ long) }
{
    sum.wrapping_add(long)
}

fn sum_without(sum: i64, long: i64) -> i64
    ensures { result ≡ wrapped (sum -ℤ long) }
{
    sum.wrapping_sub(long)
}

/// One member more, or one fewer.
pub(crate) fn change(
    alloc: Global,
    grows: bool,
    item: Item,
    value: &Value,
) -> Result<Item, AllocError>
    ensures { IfOk result (λ i. i ≡ state.change grows item value.now) }
{
    match item {
        Item::Total(sum) => {
            let long = long_of(value);
            if grows {
                Ok(Item::Total(sum_with(sum, long)))
            } else {
                Ok(Item::Total(sum_without(sum, long)))
            }
        }
        Item::Counts(numbers) => {
            if grows {
                Ok(Item::Counts(numbers.more(alloc, value)?))
            } else {
                Ok(Item::Counts(numbers.fewer(alloc, value)?))
            }
        }
    }
}

/// By the first argument.
fn change_first(alloc: Global, grows: bool, item: Item, args: &[Value]) -> Result<Item, AllocError>
    ensures { IfOk result (λ i. i ≡ state.change grows item (head args.now)) }
{
    match args.split_first() {
        Some((value, _)) => change(alloc, grows, item, value),
        None => change(alloc, grows, item, &Value::Long(0)),
    }
}

/// The arguments after the first.
fn after_first(args: &[Value]) -> &[Value]
    ensures { result.now ≡ rest args.now }
{
    match args.split_first() {
        Some((_, others)) => others,
        None => args,
    }
}

/// Each item by its argument.
pub(crate) fn change_each(
    alloc: Global,
    grows: bool,
    items: Vec<Item>,
    args: &[Value],
) -> Result<Vec<Item>, AllocError>
    ensures { IfOk result (λ is. is.items ≡ state.each (state.change grows) items.items args.now) }
{
    let mut changed = Vec::new(alloc);
    let mut left = args;
    for item in items {
        changed.push(change_first(alloc, grows, item, left)?)?;
        left = after_first(left);
    }
    Ok(changed)
}

/// A kept aggregate over no members.
fn blank_item(alloc: Global, kind: CallKind) -> Item
    ensures { result ≡ state.item kind [] }
{
    match kind {
        CallKind::Count => Item::Total(0),
        CallKind::Sum => Item::Total(0),
        CallKind::Min => Item::Counts(Numbers::empty(alloc)),
        CallKind::Max => Item::Counts(Numbers::empty(alloc)),
    }
}

pub(crate) fn blank_items(alloc: Global, kinds: &[CallKind]) -> Result<Vec<Item>, AllocError>
    ensures { IfOk result (λ is. is.items ≡ map (λ k. state.item k []) kinds.now) }
{
    let mut items = Vec::new(alloc);
    for kind in kinds {
        items.push(blank_item(alloc, *kind))?;
    }
    Ok(items)
}
