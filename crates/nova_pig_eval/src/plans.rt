//! Evaluation of plans.
ghost use Rattle.std.specs.Prelude.{◌≡◌, map, IfOk, OnOk};
ghost use Rattle.std.specs.List.{AllByRecursion};
ghost use Rattle.nova_delta.specs.Merge.{IsTable};
ghost use Rattle.nova_delta.specs.Listed.{rows_of};
ghost use Rattle.nova_pig_algebra.specs.Tree.{tree_at, trees};
ghost use Rattle.nova_pig_rows.specs.ChainRows.{chain_row};
ghost use Rattle.nova_pig_eval.specs.Stored as spec;

use nova_delta::{Table, all_fit, keys_rise};
use nova_pig_algebra::{Plan, keys_tell_rows_apart, rows_fit_their_kinds};
use nova_pig_rows::{Relation, row_of_chain, rows_of_nodes};
use nova_value::Row;
use std::alloc::{AllocError, Global};

/// The rows of a table, in the order of their keys, each lent.
fn lend<'a>(alloc: Global, table: &'a Table) -> Result<Relation<'a>, AllocError>
    ensures rows { IfOk result (λ r. r ≡ rows_of table.now) }
    ensures table { IsTable table.now }
{
    let mut rows = Relation::new(alloc);
    for row in table.rows() {
        rows.push_lent(row)?;
    }
    Ok(rows)
}

/// The rows of each table.
fn lend_all<'a>(alloc: Global, tables: &'a [Table]) -> Result<Vec<Relation<'a>>, AllocError>
    ensures rows { IfOk result (λ rs. rs.items ≡ map rows_of tables.now) }
    ensures tables { OnOk result (AllByRecursion IsTable tables.now) }
{
    let mut all = Vec::with_capacity(alloc, tables.len())?;
    for table in tables {
        all.push(lend(alloc, table)?)?;
    }
    Ok(all)
}

/// The table that a plan stores, of the tables of its inputs. Each node that the stored one stands
/// on is evaluated once. Rows of the inputs are lent, and copied where they are stored.
pub fn eval(alloc: Global, plan: &Plan, tables: &[Table]) -> Result<Table, AllocError>
    requires key { spec.HasOutputKey plan.now }
    requires inputs { map (λ t. t.schema) tables.now ≡ plan.now.inputs }
    ensures { IfOk result (λ t. t ≡ spec.stored plan.now tables.now) }
{
    let lent = lend_all(alloc, tables)?;
    let relation = rows_of_nodes(alloc, &lent, plan.nodes(), plan.stored())?;
    let rows = relation.into_rows(alloc)?;
    let schema = plan.output().copy(alloc)?;
    keys_tell_rows_apart();
    rows_fit_their_kinds();
    all_fit();
    keys_rise();
    let table = Table::from_rows(alloc, schema, rows)?;
    Ok(table)
}

/// The one row or none that a row chain, by the number of its last node, gives of a row of its
/// input. A node that is no row chain gives none.
pub fn eval_row(alloc: Global, plan: &Plan, node: u32, row: &Row) -> Result<Option<Row>, AllocError>
    ensures { IfOk result (λ r. r ≡ chain_row (tree_at (trees plan.now.nodes) node) row.now) }
{
    let given = row_of_chain(alloc, plan.nodes(), node, row)?;
    Ok(given)
}
