//! FILTER, FOREACH, JOIN, UNION and DISTINCT over lists of rows.
ghost use Rattle.std.specs.Prelude.{◌≡◌, ◌∷◌, ◌++◌, filter, flat_map, map, not, IfOk, OnOk};
ghost use Rattle.nova_value.specs.Rows.{key_at};
ghost use Rattle.nova_pig_algebra.specs.Meaning as meaning;
ghost use Rattle.nova_pig_algebra.specs.Tree as tree;

use crate::value::{holds, made, picked};
use nova_pig_algebra::PlanExpr;
use nova_value::{Key, Row, Value, compare_keys, copy_row, copy_value};
use std::alloc::{AllocError, Global};

/// Copies of rows.
pub(crate) fn copied(alloc: Global, rows: &[Row]) -> Result<Vec<Row>, AllocError>
    ensures { IfOk result (λ rs. rs.items ≡ rows.now) }
{
    let mut all = Vec::new(alloc);
    for row in rows {
        all.push(copy_row(alloc, row)?)?;
    }
    Ok(all)
}

/// Whether two lists of values are equal.
pub(crate) fn same(a: Vec<Value>, b: Vec<Value>) -> bool
    ensures { result ≡ meaning.same_row a.items b.items }
{
    compare_keys(&Key::new(a), &Key::new(b)).is_eq()
}

/// Whether two rows are equal.
fn same_row(alloc: Global, a: &Row, b: &Row) -> Result<bool, AllocError>
    ensures { IfOk result (λ is. is ≡ meaning.same_row a.now b.now) }
{
    Ok(same(
        copy_row(alloc, a)?.into_values(),
        copy_row(alloc, b)?.into_values(),
    ))
}

/// Whether a condition holds of a row.
fn passes(alloc: Global, cond: &PlanExpr, row: &Row) -> Result<bool, AllocError>
    ensures { IfOk result (λ is. is ≡ meaning.holds cond.now row.now meaning.no_calls) }
{
    let is = holds(alloc, cond, row.values(), &[])?;
    Ok(is)
}

/// The row that items make of a row.
fn made_of(alloc: Global, items: &[PlanExpr], row: &Row) -> Result<Row, AllocError>
    ensures { IfOk result (λ r. r ≡ meaning.made items.now row.now meaning.no_calls) }
{
    let row = made(alloc, items, row.values(), &[])?;
    Ok(row)
}

/// The rows for which a condition holds.
pub(crate) fn filtered(alloc: Global, cond: &PlanExpr, rows: &[Row]) -> Result<Vec<Row>, AllocError>
    ensures { IfOk result (λ rs. rs.items ≡ filter (λ row. meaning.holds cond.now row meaning.no_calls) rows.now) }
{
    let mut all = Vec::new(alloc);
    for row in rows {
        if passes(alloc, cond, row)? {
            all.push(copy_row(alloc, row)?)?;
        }
    }
    Ok(all)
}

/// A row for each row.
pub(crate) fn mapped(
    alloc: Global,
    items: &[PlanExpr],
    rows: &[Row],
) -> Result<Vec<Row>, AllocError>
    ensures { IfOk result (λ rs. rs.items ≡ map (λ row. meaning.made items.now row meaning.no_calls) rows.now) }
{
    let mut all = Vec::new(alloc);
    for row in rows {
        all.push(made_of(alloc, items, row)?)?;
    }
    Ok(all)
}

/// Adds copies of values.
fn push_all(alloc: Global, out: &mut Vec<Value>, values: &[Value]) -> Result<(), AllocError>
    ensures { OnOk result (out.new.items ≡ out.old.items ++ values.now) }
{
    for value in values {
        out.push(copy_value(alloc, value)?)?;
    }
    Ok(())
}

/// One row's values behind another's.
fn pair(alloc: Global, left: &Row, right: &Row) -> Result<Row, AllocError>
    ensures { IfOk result (λ row. row ≡ left.now ++ right.now) }
{
    let mut values = Vec::new(alloc);
    push_all(alloc, &mut values, left.values())?;
    push_all(alloc, &mut values, right.values())?;
    Ok(Row::new(values))
}

/// The left row with each right one that has the same BY values.
fn pairs(
    alloc: Global,
    left: &Row,
    left_by: &[u32],
    right: &[Row],
    right_by: &[u32],
) -> Result<Vec<Row>, AllocError>
    ensures { IfOk result (λ rs. rs.items ≡ map (λ b. left.now ++ b) (filter (λ b. meaning.same_row (key_at left_by.now left.now) (key_at right_by.now b)) right.now)) }
{
    let mut all = Vec::new(alloc);
    for row in right {
        let a = picked(alloc, left_by, left.values())?;
        let b = picked(alloc, right_by, row.values())?;
        if same(a, b) {
            all.push(pair(alloc, left, row)?)?;
        }
    }
    Ok(all)
}

/// All pairs of a left and a right row with equal BY values.
pub(crate) fn joined(
    alloc: Global,
    left: &[Row],
    left_by: &[u32],
    right: &[Row],
    right_by: &[u32],
) -> Result<Vec<Row>, AllocError>
    ensures { IfOk result (λ rs. rs.items ≡ tree.joined left_by.now right_by.now left.now right.now) }
{
    let mut all = Vec::new(alloc);
    for row in left {
        let mut more = pairs(alloc, row, left_by, right, right_by)?;
        all.append(&mut more)?;
    }
    Ok(all)
}

/// A row before those of the others that differ from it.
fn before_others(alloc: Global, row: &Row, others: &[Row]) -> Result<Vec<Row>, AllocError>
    ensures { IfOk result (λ rs. rs.items ≡ row.now ∷ filter (λ other. not (meaning.same_row row.now other)) others.now) }
{
    let mut all = Vec::new(alloc);
    all.push(copy_row(alloc, row)?)?;
    for other in others {
        if !same_row(alloc, row, other)? {
            all.push(copy_row(alloc, other)?)?;
        }
    }
    Ok(all)
}

/// The rows without later repeats, from the last one on.
pub(crate) fn distinct(alloc: Global, rows: &[Row]) -> Result<Vec<Row>, AllocError>
    ensures { IfOk result (λ rs. rs.items ≡ tree.distinct rows.now) }
{
    let mut all = Vec::new(alloc);
    let mut left = rows.len();
    while left > 0 {
        left -= 1;
        all = before_others(alloc, &rows[left], &all)?;
    }
    Ok(all)
}
