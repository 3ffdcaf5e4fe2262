//! FOREACH over a GROUP.
ghost use Rattle.std.specs.Prelude.{◌≡◌, map, IfOk};
ghost use Rattle.std.specs.FinMap.{from_entries};
ghost use Rattle.std.specs.List.Sorted.{IsStrictlySortedBy};
ghost use Rattle.std.specs.Map.{keys_of};
ghost use Rattle.nova_value.specs.Order.{key_cmp};
ghost use Rattle.nova_value.specs.Rows.{key_at};
ghost use Rattle.nova_pig_algebra.specs.Meaning as meaning;
ghost use Rattle.nova_pig_algebra.specs.Tree as tree;

use crate::rows::same;
use crate::value::{made, picked};
use nova_pig_algebra::PlanExpr;
use nova_value::{Key, Row, copy_key, copy_row};
use std::alloc::{AllocError, Global};
use std::collections::BTreeMap;

/// The lists of BY values, each at itself.
fn lists(alloc: Global, columns: &[u32], rows: &[Row]) -> Result<BTreeMap<Key, Key>, AllocError>
    ensures map { IfOk result (λ m. from_entries m.entries ≡ from_entries {R = key_cmp} (map (λ by. (by, by)) (map (key_at columns.now) rows.now))) }
    ensures ordered { IfOk result (λ m. IsStrictlySortedBy key_cmp (keys_of m.entries)) }
{
    let mut lists = BTreeMap::new(alloc);
    let mut left = rows.len();
    while left > 0 {
        left -= 1;
        let by = Key::new(picked(alloc, columns, rows[left].values())?);
        lists.insert(copy_key(alloc, &by)?, by)?;
    }
    Ok(lists)
}

/// The keys of a map, in their order.
fn keys(alloc: Global, lists: &BTreeMap<Key, Key>) -> Result<Vec<Key>, AllocError>
    ensures { IfOk result (λ ks. ks.items ≡ keys_of lists.now.entries) }
{
    let mut all = Vec::new(alloc);
    for (by, _) in lists {
        all.push(copy_key(alloc, by)?)?;
    }
    Ok(all)
}

/// The distinct lists of BY values, in their order.
fn rising(alloc: Global, columns: &[u32], rows: &[Row]) -> Result<Vec<Key>, AllocError>
    ensures { IfOk result (λ ks. ks.items ≡ tree.rising (map (key_at columns.now) rows.now)) }
{
    let lists = lists(alloc, columns, rows)?;
    let keys = keys(alloc, &lists)?;
    Ok(keys)
}

/// The rows with these BY values.
fn members(alloc: Global, columns: &[u32], rows: &[Row], by: &Key) -> Result<Vec<Row>, AllocError>
    ensures { IfOk result (λ rs. rs.items ≡ tree.members columns.now rows.now by.now) }
{
    let mut all = Vec::new(alloc);
    for row in rows {
        let wanted = copy_key(alloc, by)?.into_values();
        if same(wanted, picked(alloc, columns, row.values())?) {
            all.push(copy_row(alloc, row)?)?;
        }
    }
    Ok(all)
}

/// The row of a group.
fn group_row(
    alloc: Global,
    columns: &[u32],
    items: &[PlanExpr],
    rows: &[Row],
    by: &Key,
) -> Result<Row, AllocError>
    ensures { IfOk result (λ r. r ≡ meaning.made items.now by.now (meaning.calls_over (tree.members columns.now rows.now by.now))) }
{
    let members = members(alloc, columns, rows, by)?;
    made(alloc, items, by.values(), &members)
}

/// A row for each of these groups.
fn group_rows(
    alloc: Global,
    columns: &[u32],
    items: &[PlanExpr],
    rows: &[Row],
    bys: &[Key],
) -> Result<Vec<Row>, AllocError>
    ensures { IfOk result (λ rs. rs.items ≡ map (λ by. meaning.made items.now by (meaning.calls_over (tree.members columns.now rows.now by))) bys.now) }
{
    let mut all = Vec::new(alloc);
    for by in bys {
        all.push(group_row(alloc, columns, items, rows, by)?)?;
    }
    Ok(all)
}

/// A row for each group, in the order of the BY values.
pub(crate) fn grouped(
    alloc: Global,
    columns: &[u32],
    items: &[PlanExpr],
    rows: &[Row],
) -> Result<Vec<Row>, AllocError>
    ensures { IfOk result (λ rs. rs.items ≡ map (λ by. meaning.made items.now by (meaning.calls_over (tree.members columns.now rows.now by))) (tree.rising (map (key_at columns.now) rows.now))) }
{
    let bys = rising(alloc, columns, rows)?;
    let all = group_rows(alloc, columns, items, rows, &bys)?;
    Ok(all)
}
