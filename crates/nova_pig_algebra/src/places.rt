//! The items that keep a key.
ghost use Rattle.std.specs.Prelude.{◌≡◌, IfOk, slice_get};
ghost use Rattle.nova_pig_algebra.specs.declared.node.PlanExpr.TheViews.{out-PlanExpr};
ghost use Rattle.nova_pig_algebra.specs.Keys as spec;

use crate::columns::{narrow, with_column};
use crate::node::PlanExpr;
use sqlite_items::Items;
use std::alloc::{AllocError, Global};

/// Whether the item is a plain reference to the column.
fn is_column(column: u32, item: &PlanExpr) -> bool
    ensures { result ≡ spec.is_column column (spec.plain_step (out-PlanExpr item.now)) }
{
    match item {
        PlanExpr::Column(other) => *other == column,
        _ => false,
    }
}

/// Whether the column stands at this place of the list.
fn is_column_at(columns: &[u32], place: u32, column: u32) -> bool
    ensures { result ≡ spec.is_some column (slice_get columns.now place) }
{
    match columns.get(place as usize) {
        Some(other) => *other == column,
        None => false,
    }
}

/// Whether the item is that column of the source, by which these columns group.
fn is_by(columns: &[u32], column: u32, item: &PlanExpr) -> bool
    ensures { result ≡ spec.is_by columns.now column (spec.plain_step (out-PlanExpr item.now)) }
{
    match item {
        PlanExpr::GroupColumn(place) => is_column_at(columns, *place, column),
        _ => false,
    }
}

/// The place of the first item that is the column.
fn place_of(column: u32, items: &[PlanExpr]) -> Option<usize>
    ensures { result ≡ spec.place_of (spec.is_column column) items.now }
{
    for (at, item) in items.iter().enumerate() {
        if is_column(column, item) {
            return Some(at);
        }
    }
    None
}

/// The place of the first item that is the BY column.
fn place_by(columns: &[u32], column: u32, items: &[PlanExpr]) -> Option<usize>
    ensures { result ≡ spec.place_of (spec.is_by columns.now column) items.now }
{
    for (at, item) in items.iter().enumerate() {
        if is_by(columns, column, item) {
            return Some(at);
        }
    }
    None
}

/// The set with one place more.
fn and_place(alloc: Global, place: usize, set: &[u32]) -> Result<Items<u32>, AllocError>
    ensures { IfOk result (λ r. r ≡ spec.with_column place set.now) }
{
    let column = narrow(place)?;
    with_column(alloc, column, set)
}

/// For each key column the first item that is a plain reference to it. The first column from the
/// right that no item is ends the search.
pub(crate) fn places_of(
    alloc: Global,
    items: &[PlanExpr],
    key: &[u32],
) -> Result<Option<Items<u32>>, AllocError>
    ensures { IfOk result (λ r. r ≡ spec.places_of spec.is_column items.now key.now) }
{
    let mut set = Items::new(alloc);
    let mut at = key.len();
    while at > 0 {
        at -= 1;
        match place_of(key[at], items) {
            Some(place) => set = and_place(alloc, place, set.as_slice())?,
            None => return Ok(None),
        }
    }
    Ok(Some(set))
}

/// For each of these BY columns the first item that is it. The first column from the right that no
/// item is ends the search.
pub(crate) fn places_by(
    alloc: Global,
    columns: &[u32],
    items: &[PlanExpr],
) -> Result<Option<Items<u32>>, AllocError>
    ensures { IfOk result (λ r. r ≡ spec.places_of (spec.is_by columns.now) items.now columns.now) }
{
    let mut set = Items::new(alloc);
    let mut at = columns.len();
    while at > 0 {
        at -= 1;
        match place_by(columns, columns[at], items) {
            Some(place) => set = and_place(alloc, place, set.as_slice())?,
            None => return Ok(None),
        }
    }
    Ok(Some(set))
}
