//! The keys of the operators.
ghost use Rattle.std.specs.Prelude.{◌≡◌, ◌++◌, ◌+◌, Some, IfOk, OnOk, map, length};
ghost use Rattle.nova_pig_algebra.specs.Keys as spec;
ghost use Rattle.nova_pig_algebra.specs.Steps as step;

use crate::columns::{covers, narrow, push_all, same_columns, with_column};
use crate::constants::constant_at;
use crate::facts::{Constant, Facts};
use crate::node::PlanExpr;
use crate::places::places_of;
use sqlite_items::Items;
use std::alloc::{AllocError, Global};

/// The key of a FOREACH, by that of its operand.
pub(crate) fn foreach_key(
    alloc: Global,
    items: &[PlanExpr],
    key: &Option<Items<u32>>,
) -> Result<Option<Items<u32>>, AllocError>
    ensures { IfOk result (λ k. k ≡ spec.foreach_key items.now key.now) }
{
    match key {
        None => Ok(None),
        Some(key) => places_of(alloc, items, key.as_slice()),
    }
}

/// Adds the columns, moved by the width.
fn push_moved(out: &mut Items<u32>, width: usize, columns: &[u32]) -> Result<(), AllocError>
    ensures { OnOk result (out.new ≡ out.old ++ map (λ k. width + k) columns.now) }
{
    for column in columns {
        let Some(place) = width.checked_add(*column as usize) else {
            return Err(AllocError);
        };
        out.push(narrow(place)?)?;
    }
    Ok(())
}

/// Both keys of a JOIN, the right one moved by the left width.
fn both_keys(
    alloc: Global,
    left: &[u32],
    width: usize,
    right: &[u32],
) -> Result<Items<u32>, AllocError>
    ensures { IfOk result (λ k. k ≡ left.now ++ map (λ k. width + k) right.now) }
{
    let mut out = Items::new(alloc);
    push_all(&mut out, left)?;
    push_moved(&mut out, width, right)?;
    Ok(out)
}

/// The key of a JOIN, by those of its operands.
pub(crate) fn join_key(
    alloc: Global,
    right_by: &[u32],
    left: &Facts<'_>,
    right: &Facts<'_>,
) -> Result<Option<Items<u32>>, AllocError>
    ensures { IfOk result (λ k. k ≡ spec.join_key right_by.now (length left.now.constants) left.now.key right.now.key) }
{
    match &left.key {
        None => Ok(None),
        Some(own) => match &right.key {
            None => Ok(None),
            Some(other) => {
                if covers(right_by, other.as_slice()) {
                    Ok(Some(Items::from_slice(alloc, own.as_slice())?))
                } else {
                    let width = left.constants.len();
                    Ok(Some(both_keys(alloc, own.as_slice(), width, other.as_slice())?))
                }
            }
        },
    }
}

/// What a node has in every row at the column.
fn node_constant<'a>(done: &[Facts<'a>], node: u32, column: usize) -> Option<Constant<'a>>
    ensures { result ≡ spec.constant_at (step.fact_at done.now node).constants column }
{
    if (node as usize) < done.len() {
        constant_at(done[node as usize].constants.as_slice(), column)
    } else {
        None
    }
}

/// Whether each of the arms has a value at the column, and another one than this.
fn each_other(done: &[Facts<'_>], arms: &[u32], column: usize, value: &Constant<'_>) -> bool
    ensures { result ≡ step.each_other value.now (spec.in_arms column (step.facts_at done.now arms.now)) }
{
    for arm in arms {
        match node_constant(done, *arm, column) {
            None => return false,
            Some(other) => {
                if other.is_same(value) {
                    return false;
                }
            }
        }
    }
    true
}

/// Whether the column tells the arms apart. Each is compared with those before it, so an arm that
/// comes again ends the search, and no more of them are compared than there are nodes.
#[tactic(auto, using(crate::proofs::Arms::one_more, crate::proofs::Arms::not_constant, crate::proofs::Arms::same_constant))]
fn are_apart(done: &[Facts<'_>], arms: &[u32], column: usize) -> bool
    ensures { result ≡ spec.are_apart (spec.in_arms column (step.facts_at done.now arms.now)) }
{
    for (at, arm) in arms.iter().enumerate() {
        match node_constant(done, *arm, column) {
            None => return false,
            Some(value) => {
                if !each_other(done, &arms[..at], column, &value) {
                    return false;
                }
            }
        }
    }
    true
}

/// The first column of those below the width that tells the arms apart.
#[tactic(auto, using(crate::proofs::Steps::apart_next))]
fn first_apart(done: &[Facts<'_>], arms: &[u32], width: usize) -> Option<usize>
    ensures { result ≡ spec.first_apart (step.facts_at done.now arms.now) 0 width }
{
    for column in 0..width {
        if are_apart(done, arms, column) {
            return Some(column);
        }
    }
    None
}

/// Whether the other key is there and is this one.
fn has_key(key: &[u32], other: &Option<Items<u32>>) -> bool
    ensures { result ≡ spec.has_key key.now other.now }
{
    match other {
        None => false,
        Some(other) => same_columns(other.as_slice(), key),
    }
}

/// Whether a node has this key.
fn node_has(key: &[u32], done: &[Facts<'_>], node: u32) -> bool
    ensures { result ≡ spec.has_key key.now (step.fact_at done.now node).key }
{
    if (node as usize) < done.len() {
        has_key(key, &done[node as usize].key)
    } else {
        false
    }
}

/// Whether all arms have this key.
fn all_have(key: &[u32], done: &[Facts<'_>], arms: &[u32]) -> bool
    ensures { result ≡ spec.all_have key.now (step.facts_at done.now arms.now) }
{
    for arm in arms {
        if !node_has(key, done, *arm) {
            return false;
        }
    }
    true
}

/// The key with the column, where there is one.
fn and_column(
    alloc: Global,
    column: Option<usize>,
    key: &[u32],
) -> Result<Option<Items<u32>>, AllocError>
    ensures { IfOk result (λ k. k ≡ spec.and_column column key.now) }
{
    match column {
        None => Ok(None),
        Some(column) => {
            let place = narrow(column)?;
            Ok(Some(with_column(alloc, place, key)?))
        }
    }
}

/// The key of a UNION: where the others have the first arm's key and a column below the width
/// tells all arms apart, the key and the first such column.
pub(crate) fn union_key(
    alloc: Global,
    key: &Option<Items<u32>>,
    width: usize,
    done: &[Facts<'_>],
    arms: &[u32],
    others: &[u32],
) -> Result<Option<Items<u32>>, AllocError>
    ensures { IfOk result (λ k. k ≡ spec.union_key key.now (step.facts_at done.now others.now) (spec.first_apart (step.facts_at done.now arms.now) 0 width)) }
{
    match key {
        None => Ok(None),
        Some(key) => {
            if all_have(key.as_slice(), done, others) {
                and_column(alloc, first_apart(done, arms, width), key.as_slice())
            } else {
                Ok(None)
            }
        }
    }
}

/// All columns below the width.
#[tactic(auto, using(crate::proofs::Steps::columns_next))]
fn all_columns(alloc: Global, width: usize) -> Result<Items<u32>, AllocError>
    ensures { IfOk result (λ k. k ≡ spec.columns_from 0 width) }
{
    let mut out = Items::new(alloc);
    for column in 0..width {
        out.push(narrow(column)?)?;
    }
    Ok(out)
}

/// The key of a DISTINCT: that of the operand, or all columns where it has none.
pub(crate) fn distinct_key(
    alloc: Global,
    key: &Option<Items<u32>>,
    width: usize,
) -> Result<Items<u32>, AllocError>
    ensures { IfOk result (λ k. Some k ≡ spec.or_all (spec.columns_from 0 width) key.now) }
{
    match key {
        None => all_columns(alloc, width),
        Some(key) => Items::from_slice(alloc, key.as_slice()),
    }
}
