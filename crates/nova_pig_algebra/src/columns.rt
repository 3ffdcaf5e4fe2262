//! Sets of columns, as rising lists.
ghost use Rattle.std.specs.Prelude.{◌≡◌, ◌++◌, IfOk, OnOk};
ghost use Rattle.nova_pig_algebra.specs.Keys as spec;

use sqlite_items::Items;
use std::alloc::{AllocError, Global};

/// Adds the columns after those that are there.
pub(crate) fn push_all(out: &mut Items<u32>, columns: &[u32]) -> Result<(), AllocError>
    ensures { OnOk result (out.new ≡ out.old ++ columns.now) }
{
    for column in columns {
        out.push(*column)?;
    }
    Ok(())
}

/// The set with one column more.
pub(crate) fn with_column(alloc: Global, column: u32, set: &[u32]) -> Result<Items<u32>, AllocError>
    ensures { IfOk result (λ r. r ≡ spec.with_column column set.now) }
{
    let mut out = Items::new(alloc);
    for (at, other) in set.iter().enumerate() {
        if column < *other {
            out.push(column)?;
            push_all(&mut out, &set[at..])?;
            return Ok(out);
        }
        if column == *other {
            push_all(&mut out, &set[at..])?;
            return Ok(out);
        }
        out.push(*other)?;
    }
    out.push(column)?;
    Ok(out)
}

/// The set of the columns, rising.
pub fn column_set(alloc: Global, columns: &[u32]) -> Result<Items<u32>, AllocError>
    ensures { IfOk result (λ r. r ≡ spec.column_set columns.now) }
{
    let mut set = Items::new(alloc);
    let mut at = columns.len();
    while at > 0 {
        at -= 1;
        set = with_column(alloc, columns[at], set.as_slice())?;
    }
    Ok(set)
}

/// Whether it is one of the columns.
fn is_one_of(column: u32, columns: &[u32]) -> bool
    ensures { result ≡ spec.is_one_of column columns.now }
{
    for other in columns {
        if column == *other {
            return true;
        }
    }
    false
}

/// Whether the columns include these.
pub fn covers(columns: &[u32], these: &[u32]) -> bool
    ensures { result ≡ spec.covers columns.now these.now }
{
    for column in these {
        if !is_one_of(*column, columns) {
            return false;
        }
    }
    true
}

/// Whether both are the same list.
pub fn same_columns(a: &[u32], b: &[u32]) -> bool
    ensures { result ≡ spec.same_columns a.now b.now }
{
    a.cmp(b).is_eq()
}

/// A place as a plan numbers it. No list of the program is so long that this fails; where one
/// were, it would be out of memory.
pub fn narrow(place: usize) -> Result<u32, AllocError>
    ensures { IfOk result (λ n. n ≡ place) }
{
    match u32::try_from(place) {
        Ok(n) => Ok(n),
        Err(_) => Err(AllocError),
    }
}
