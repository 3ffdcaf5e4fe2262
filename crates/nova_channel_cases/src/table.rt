//! A table of rows that aren't in the order of their keys.
ghost use Rattle.std.specs.Prelude.{◌≡◌, IfOk, ◌∷◌, []};
ghost use Rattle.nova_value.specs.declared.value.Value.TheVariants.{Long};

use crate::rows::{add_values, lines_of_table, schema};
use nova_case::Step;
use nova_delta::Table;
use nova_value::{Key, Row, Value};
use std::alloc::{AllocError, Global};

fn row(alloc: Global, key: i64, number: i64) -> Result<Row, AllocError>
    ensures { IfOk result (λ r. r ≡ Long key ∷ Long number ∷ []) }
{
    Ok(Row::new(vec![in alloc; Value::Long(key), Value::Long(number)]?))
}

/// The rows of 3 and 30, -1 and 10, 2 and 20.
fn three_rows(alloc: Global) -> Result<Table, AllocError> {
    let first = row(alloc, 3, 30)?;
    let second = row(alloc, -1, 10)?;
    let third = row(alloc, 2, 20)?;
    let rows = vec![in alloc; first, second, third]?;
    Table::from_rows(alloc, schema(alloc)?, rows)
}

/// The row of a key, or `none`.
fn row_at(alloc: Global, table: &Table, key: i64) -> Result<Vec<u8>, AllocError> {
    let key = Key::new(vec![in alloc; Value::Long(key)]?);
    let mut out = Vec::new(alloc);
    match table.get(&key) {
        Some(row) => add_values(alloc, &mut out, b'+', row.values())?,
        None => out.extend_from_slice(b"none\n")?,
    }
    Ok(out)
}

/// The table of three rows, (3, 30), (-1, 10) and (2, 20): its rows and how many there are, or with
/// a number the row of that key.
pub fn answer(alloc: Global, step: &Step) -> Result<Vec<u8>, AllocError> {
    let table = three_rows(alloc)?;
    if let Ok(key) = step.words.as_str().parse::<i64>() {
        return row_at(alloc, &table, key);
    }
    let mut out = lines_of_table(alloc, &table)?;
    let (count, is_empty) = (table.len(), table.is_empty());
    let text = format!(in alloc; "{count} rows, empty: {is_empty}\n")?;
    out.extend_from_slice(text.as_str().as_bytes())?;
    Ok(out)
}
