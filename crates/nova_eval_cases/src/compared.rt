//! Rows beside those that plain loops find.
use nova_delta::Table;
use nova_value::{Row, Value, compare_values};

/// Whether two rows have the same values.
fn same(a: &[Value], b: &[Value]) -> bool {
    for (one, other) in a.iter().zip(b) {
        if !compare_values(one, other).is_eq() {
            return false;
        }
    }
    a.len() == b.len()
}

/// Whether these are the same rows in the same order.
pub fn same_rows(a: &[Row], b: &[Row]) -> bool {
    for (one, other) in a.iter().zip(b) {
        if !same(one.values(), other.values()) {
            return false;
        }
    }
    a.len() == b.len()
}

/// Whether a row is one of these.
fn is_among(rows: &[Row], row: &Row) -> bool {
    for other in rows {
        if same(other.values(), row.values()) {
            return true;
        }
    }
    false
}

/// Whether a table has these rows and no others, each once, in whatever order they come.
pub fn has_all(table: &Table, rows: &[Row]) -> bool {
    for row in table.rows() {
        if !is_among(rows, row) {
            return false;
        }
    }
    table.len() == rows.len()
}
