//! The block of a table that is written anew.
ghost use Rattle.std.specs.Prelude.{◌≡◌, map, IfOk, OnOk};
ghost use Rattle.nova_value.specs.declared.schema.Entry.TheVariants.{Put};
ghost use Rattle.nova_delta.specs.Merge.{IsTable};
ghost use Rattle.nova_delta.specs.Listed.{rows_of};
ghost use Rattle.nova_execution.specs.Base.{base_of};

use nova_delta::{Delta, Table};
use nova_value::{Entry, copy_row};
use std::alloc::{AllocError, Global};

/// A put of each row of a table, in the order of the keys.
fn puts_of(alloc: Global, table: &Table) -> Result<Vec<Entry>, AllocError>
    ensures puts { IfOk result (λ es. es.items ≡ map Put (rows_of table.now)) }
    ensures table { OnOk result (IsTable table.now) }
{
    let mut puts = Vec::with_capacity(alloc, table.len())?;
    for row in table.rows() {
        puts.push(Entry::Put(copy_row(alloc, row)?))?;
    }
    Ok(puts)
}

/// The block that leads from no rows to a table: a put of each row.
pub(crate) fn base_block(alloc: Global, table: &Table) -> Result<Delta, AllocError>
    ensures { IfOk result (λ d. d ≡ base_of table.now) }
{
    let puts = puts_of(alloc, table)?;
    let schema = table.schema().copy(alloc)?;
    let block = Delta::from_rising(alloc, schema, puts)?;
    Ok(block)
}
