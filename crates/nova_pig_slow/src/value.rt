//! Expressions over rows, and over groups.
ghost use Rattle.std.specs.Prelude.{◌≡◌, ◌+ℤ◌, ◌-ℤ◌, ◌*ℤ◌, neg_ℤ, map, pos, IfOk, length};
ghost use Rattle.std.specs.Ordering.{is_lt};
ghost use Rattle.nova_value.specs.Rows.{key_at, value_at};
ghost use Rattle.nova_value.specs.Wrapped.{wrapped};
ghost use Rattle.nova_pig_algebra.specs.Meaning as meaning;
ghost use Rattle.nova_pig_slow.specs.Bests as bests;

use nova_pig_algebra::PlanExpr;
use nova_pig_tree::{CallKind, CompareOp};
use nova_value::{Row, Value, compare_values, copy_value};
use std::alloc::{AllocError, Global};
use std::cmp::Ordering;

/// The value at a place of a row.
fn at(alloc: Global, row: &[Value], place: u32) -> Result<Value, AllocError>
    ensures { IfOk result (λ v. v ≡ value_at row.now place) }
{
    match row.get(place as usize) {
        Some(value) => copy_value(alloc, value),
        None => Ok(Value::Long(0)),
    }
}

/// The values at places of a row.
pub(crate) fn picked(alloc: Global, places: &[u32], row: &[Value]) -> Result<Vec<Value>, AllocError>
    ensures { IfOk result (λ vs. vs.items ≡ key_at places.now row.now) }
{
    let mut values = Vec::new(alloc);
    for place in places {
        values.push(at(alloc, row, *place)?)?;
    }
    Ok(values)
}

fn long_of(value: &Value) -> i64
    ensures { result ≡ meaning.long_of value.now }
{
    match value {
        Value::Long(n) => *n,
        Value::Text(_) => 0,
    }
}

/// What the order of two values says of a comparison.
fn passes(op: CompareOp, order: Ordering) -> bool
    ensures { result ≡ meaning.passes op order }
{
    match op {
        CompareOp::Eq => order.is_eq(),
        CompareOp::Ne => order.is_ne(),
        CompareOp::Lt => order.is_lt(),
        CompareOp::Le => order.is_le(),
        CompareOp::Gt => order.is_gt(),
        CompareOp::Ge => order.is_ge(),
    }
}

/// The values of a column.
fn values_at(alloc: Global, place: u32, rows: &[Row]) -> Result<Vec<Value>, AllocError>
    ensures { IfOk result (λ vs. vs.items ≡ map (λ row. value_at row place) rows.now) }
{
    let mut values = Vec::new(alloc);
    for row in rows {
        values.push(at(alloc, row.values(), place)?)?;
    }
    Ok(values)
}

/// The values of a column, where there is one.
fn column_of(alloc: Global, column: Option<u32>, rows: &[Row]) -> Result<Vec<Value>, AllocError>
    ensures { IfOk result (λ vs. vs.items ≡ meaning.column_of column rows.now) }
{
    match column {
        Some(place) => values_at(alloc, place, rows),
        None => Ok(Vec::new(alloc)),
    }
}

/// The wrapped sum of two numbers.
fn add(a: i64, b: i64) -> i64
    ensures { result ≡ wrapped (a +ℤ b) }
{
    a.wrapping_add(b)
}

/// The wrapped difference of two numbers.
fn subtract(a: i64, b: i64) -> i64
    ensures { result ≡ wrapped (a -ℤ b) }
{
    a.wrapping_sub(b)
}

/// The wrapped product of two numbers.
fn multiply(a: i64, b: i64) -> i64
    ensures { result ≡ wrapped (a *ℤ b) }
{
    a.wrapping_mul(b)
}

/// The wrapped negative of a number.
fn negate(a: i64) -> i64
    ensures { result ≡ wrapped (neg_ℤ a) }
{
    a.wrapping_neg()
}

/// The wrapped number of rows.
fn count(rows: &[Row]) -> i64
    ensures { result ≡ wrapped (pos (length rows.now)) }
{
    let mut count = 0i64;
    for _ in rows {
        count = add(count, 1);
    }
    count
}

/// The wrapped sum with a value more.
fn add_value(sum: i64, value: &Value) -> i64
    ensures { result ≡ wrapped (sum +ℤ meaning.long_of value.now) }
{
    add(sum, long_of(value))
}

/// The wrapped sum.
fn sum(values: &[Value]) -> i64
    ensures { result ≡ wrapped (meaning.total (map meaning.long_of values.now)) }
{
    let mut sum = 0i64;
    for value in values {
        sum = add_value(sum, value);
    }
    sum
}

/// Whether a value comes before the best so far.
fn comes_before(is_greatest: bool, value: &Value, best: &Value) -> bool
    ensures { result ≡ is_lt (bests.order_of is_greatest value.now best.now) }
{
    if is_greatest {
        return compare_values(best, value).is_lt();
    }
    compare_values(value, best).is_lt()
}

/// The better of the best so far and a value.
fn better(is_greatest: bool, best: Option<Value>, value: Value) -> Value
    ensures { result ≡ bests.better (bests.order_of is_greatest) best value }
{
    match best {
        Some(best) => {
            if comes_before(is_greatest, &value, &best) {
                value
            } else {
                best
            }
        }
        None => value,
    }
}

/// The least value, or the greatest.
fn extreme(alloc: Global, is_greatest: bool, values: &[Value]) -> Result<Value, AllocError>
    ensures { IfOk result (λ v. v ≡ meaning.best (bests.order_of is_greatest) values.now) }
{
    let mut best = None;
    for value in values {
        let value = copy_value(alloc, value)?;
        best = Some(better(is_greatest, best, value));
    }
    match best {
        Some(best) => Ok(best),
        None => Ok(Value::Long(0)),
    }
}

/// What a call gives over the members of a group.
fn call(
    alloc: Global,
    kind: CallKind,
    column: Option<u32>,
    members: &[Row],
) -> Result<Value, AllocError>
    ensures { IfOk result (λ v. v ≡ meaning.kind_over kind column members.now) }
{
    match kind {
        CallKind::Count => Ok(Value::Long(count(members))),
        CallKind::Sum => Ok(Value::Long(sum(&column_of(alloc, column, members)?))),
        CallKind::Min => extreme(alloc, false, &column_of(alloc, column, members)?),
        CallKind::Max => extreme(alloc, true, &column_of(alloc, column, members)?),
    }
}

/// The value of an expression over a row, where the members are none; or over a group, where the row
/// is its BY values.
#[cycle(value)]
pub(crate) fn value(
    alloc: Global,
    expr: &PlanExpr,
    row: &[Value],
    members: &[Row],
) -> Result<Value, AllocError>
    ensures { IfOk result (λ v. v ≡ meaning.value_of expr.now row.now (meaning.calls_over members.now)) }
{
    match expr {
        PlanExpr::Num(n) => Ok(Value::Long(*n)),
        PlanExpr::Lit(text) => Ok(Value::Text(text.copy(alloc)?)),
        PlanExpr::Column(place) => at(alloc, row, *place),
        PlanExpr::GroupColumn(place) => at(alloc, row, *place),
        PlanExpr::Agg { kind, column } => call(alloc, *kind, *column, members),
        PlanExpr::Neg(a) => {
            let a = long(alloc, a.get(), row, members)?;
            Ok(Value::Long(negate(a)))
        }
        PlanExpr::Add(a, b) => {
            let a = long(alloc, a.get(), row, members)?;
            let b = long(alloc, b.get(), row, members)?;
            Ok(Value::Long(add(a, b)))
        }
        PlanExpr::Sub(a, b) => {
            let a = long(alloc, a.get(), row, members)?;
            let b = long(alloc, b.get(), row, members)?;
            Ok(Value::Long(subtract(a, b)))
        }
        PlanExpr::Mul(a, b) => {
            let a = long(alloc, a.get(), row, members)?;
            let b = long(alloc, b.get(), row, members)?;
            Ok(Value::Long(multiply(a, b)))
        }
        PlanExpr::If { cond, a, b } => {
            if holds(alloc, cond.get(), row, members)? {
                value(alloc, a.get(), row, members)
            } else {
                value(alloc, b.get(), row, members)
            }
        }
        PlanExpr::Compare { .. } => Ok(Value::Long(0)),
        PlanExpr::And(..) => Ok(Value::Long(0)),
        PlanExpr::Or(..) => Ok(Value::Long(0)),
        PlanExpr::Not(_) => Ok(Value::Long(0)),
    }
}

/// The number that an expression gives.
#[cycle(value)]
fn long(alloc: Global, expr: &PlanExpr, row: &[Value], members: &[Row]) -> Result<i64, AllocError>
    ensures { IfOk result (λ n. n ≡ meaning.long_of (meaning.value_of expr.now row.now (meaning.calls_over members.now))) }
{
    Ok(long_of(&value(alloc, expr, row, members)?))
}

/// Whether a condition holds.
#[cycle(value)]
pub(crate) fn holds(
    alloc: Global,
    expr: &PlanExpr,
    row: &[Value],
    members: &[Row],
) -> Result<bool, AllocError>
    ensures { IfOk result (λ b. b ≡ meaning.holds expr.now row.now (meaning.calls_over members.now)) }
{
    match expr {
        PlanExpr::Compare { op, a, b } => {
            let a = value(alloc, a.get(), row, members)?;
            let b = value(alloc, b.get(), row, members)?;
            Ok(passes(*op, compare_values(&a, &b)))
        }
        PlanExpr::And(a, b) => {
            let a = holds(alloc, a.get(), row, members)?;
            let b = holds(alloc, b.get(), row, members)?;
            Ok(a && b)
        }
        PlanExpr::Or(a, b) => {
            let a = holds(alloc, a.get(), row, members)?;
            let b = holds(alloc, b.get(), row, members)?;
            Ok(a || b)
        }
        PlanExpr::Not(a) => Ok(!holds(alloc, a.get(), row, members)?),
        _ => Ok(false),
    }
}

/// The row that items make.
pub(crate) fn made(
    alloc: Global,
    items: &[PlanExpr],
    row: &[Value],
    members: &[Row],
) -> Result<Row, AllocError>
    ensures { IfOk result (λ r. r ≡ meaning.made items.now row.now (meaning.calls_over members.now)) }
{
    let mut values = Vec::new(alloc);
    for item in items {
        values.push(value(alloc, item, row, members)?)?;
    }
    Ok(Row::new(values))
}
