//! The delta of a run.
ghost use Rattle.std.specs.Prelude.{◌≡◌, ◌++◌, map, IfOk, OnOk};
ghost use Rattle.std.specs.FinMap as fin;
ghost use Rattle.std.specs.List.{AllByRecursion};
ghost use Rattle.nova_value.specs.declared.schema.Entry.TheVariants.{Put};
ghost use Rattle.nova_value.specs.Rows.{FitsKey, FitsRow};
ghost use Rattle.nova_delta.specs.Merge.{IsDelta, IsTable};
ghost use Rattle.nova_delta.specs.Listed.{rows_of, entries_of};
ghost use Rattle.nova_pig_algebra.specs.Plan.{tree_of_plan};
ghost use Rattle.nova_rowwise.specs.AtOnce as once;
ghost use Rattle.nova_rowwise.specs.Derived as spec;
ghost use Rattle.nova_rowwise.specs.Fits.{Each};
ghost use Rattle.nova_rowwise.specs.Seen.{plain_of};
ghost use Rattle.nova_rowwise.specs.Sources.{keys_by, source_keys};

use crate::key::remove_keys;
use crate::source::{Field, add_sources, columns, main_input};
use nova_admit::RowPlan;
use nova_delta::{Delta, Table, all_fit, keys_rise};
use nova_pig_algebra::{Plan, rows_fit_their_kinds};
use nova_pig_rows::{Relation, rows_of_nodes};
use nova_value::{Entry, Row, Schema};
use std::alloc::{AllocError, Global};

/// The rows that a delta puts, each lent.
fn lend_puts<'a>(alloc: Global, input: &'a Delta) -> Result<Relation<'a>, AllocError>
    ensures rows { IfOk result (λ r. r ≡ once.put_rows (entries_of input.now)) }
    ensures delta { IsDelta input.now }
{
    let mut rows = Relation::new(alloc);
    for entry in input.entries() {
        if let Entry::Put(row) = entry {
            rows.push_lent(row)?;
        }
    }
    Ok(rows)
}

/// The rows of a table, each lent.
fn lend<'a>(alloc: Global, table: &'a Table) -> Result<Relation<'a>, AllocError>
    ensures rows { IfOk result (λ r. r ≡ rows_of table.now) }
{
    let mut rows = Relation::new(alloc);
    for row in table.rows() {
        rows.push_lent(row)?;
    }
    Ok(rows)
}

/// The rows of each table.
fn lend_all<'a>(alloc: Global, tables: &'a [Table]) -> Result<Vec<Relation<'a>>, AllocError>
    ensures { IfOk result (λ rs. rs.items ≡ map rows_of tables.now) }
{
    let mut all = Vec::with_capacity(alloc, tables.len())?;
    for table in tables {
        all.push(lend(alloc, table)?)?;
    }
    Ok(all)
}

/// One more relation at its place.
fn put_at<'a>(
    alloc: Global,
    place: u32,
    relations: &mut Vec<Relation<'a>>,
    rows: Relation<'a>,
) -> Result<(), AllocError>
    ensures { OnOk result (relations.new.items ≡ spec.with_main place relations.old.items rows.entry) }
{
    let at = place as usize;
    while relations.len() < at {
        relations.push(Relation::new(alloc))?;
    }
    relations.insert(at, rows)?;
    Ok(())
}

/// The rows that the plan makes of the put rows. Each lookup table is lent once.
fn made_rows(
    alloc: Global,
    plan: &Plan,
    input: &Delta,
    lookups: &[Table],
) -> Result<Vec<Row>, AllocError>
    ensures { IfOk result (λ rs. rs.items ≡ spec.made_of (tree_of_plan plan.now) (map rows_of lookups.now) (once.put_rows (entries_of input.now))) }
{
    let main = main_input(plan.nodes(), plan.stored());
    let mut tables = lend_all(alloc, lookups)?;
    put_at(alloc, main, &mut tables, lend_puts(alloc, input)?)?;
    let rows = rows_of_nodes(alloc, &tables, plan.nodes(), plan.stored())?;
    rows.into_rows(alloc)
}

/// A removal at each output key of each key.
fn remove_all(
    alloc: Global,
    input: &Delta,
    sources: &[Vec<Field<'_>>],
    out: &mut Delta,
) -> Result<(), AllocError>
    requires { Each (λ k. Each (FitsKey out.old.schema) (keys_by input.now.schema.key (map (λ p. map plain_of p.items) sources.now) k)) (fin.keys input.now.entries) }
    ensures { OnOk result (out.new ≡ spec.set_all out.old (once.removals (keys_by input.now.schema.key (map (λ p. map plain_of p.items) sources.now)) (fin.keys input.now.entries))) }
{
    let columns = input.schema().key();
    for (key, _) in input.keyed_entries() {
        remove_keys(alloc, columns, key, sources, out)?;
    }
    Ok(())
}

/// A put of each row.
fn put_all(rows: Vec<Row>, out: &mut Delta) -> Result<(), AllocError>
    requires { Each (FitsRow out.old.schema) rows.items }
    ensures { OnOk result (out.new ≡ spec.set_all out.old (map Put rows.items)) }
{
    for row in rows {
        out.set(Entry::Put(row))?;
    }
    Ok(())
}

/// The delta, with all put rows at once.
fn at_once(
    alloc: Global,
    plan: &Plan,
    input: &Delta,
    lookups: &[Table],
) -> Result<Delta, AllocError>
    requires keys { Each (λ k. Each (FitsKey plan.now.output) (source_keys input.now.schema plan.now.output (tree_of_plan plan.now) k)) (fin.keys input.now.entries) }
    requires rows { Each (FitsRow plan.now.output) (spec.made_of (tree_of_plan plan.now) (map rows_of lookups.now) (once.put_rows (entries_of input.now))) }
    ensures { IfOk result (λ d. d ≡ once.at_once plan.now (map rows_of lookups.now) input.now) }
{
    let fields = columns(alloc, plan.output().key())?;
    let mut sources = Vec::new(alloc);
    add_sources(alloc, plan.nodes(), plan.stored(), &fields, &mut sources)?;
    let rows = made_rows(alloc, plan, input, lookups)?;
    let mut out = Delta::empty(alloc, plan.output().copy(alloc)?);
    remove_all(alloc, input, &sources, &mut out)?;
    put_all(rows, &mut out)?;
    Ok(out)
}

/// That these are tables.
fn are_tables(tables: &[Table])
    ensures { AllByRecursion IsTable tables.now }
{
    for table in tables {
        let _rows = table.rows();
    }
}

/// The place of the main input among the task's inputs: that of the one NEW input.
pub fn main_place(plan: &RowPlan) -> u32
    ensures { result ≡ spec.main_of (tree_of_plan plan.now) }
{
    let whole = plan.plan();
    main_input(whole.nodes(), whole.stored())
}

/// The delta of a run, of its main input's: at each output key of each key the row that the plan
/// gives for the put row, or a removal. `lookups` are the tables of the other inputs, in their
/// order.
pub fn derive(
    alloc: Global,
    plan: &RowPlan,
    input: &Delta,
    lookups: &[Table],
) -> Result<Delta, AllocError>
    requires { spec.with_main_schema (spec.main_of (tree_of_plan plan.now)) (map (λ t. t.schema) lookups.now) input.now.schema ≡ plan.now.inputs }
    ensures { IfOk result (λ d. d ≡ spec.derived plan.now (map rows_of lookups.now) input.now) }
{
    if input.is_empty() {
        let none = Delta::empty(alloc, plan.output().copy(alloc)?);
        return Ok(none);
    }
    let _entries = input.entries();
    let _key = input.schema().key();
    are_tables(lookups);
    rows_fit_their_kinds();
    all_fit();
    keys_rise();
    let whole = plan.plan();
    let _nodes = whole.nodes();
    let delta = at_once(alloc, whole, input, lookups)?;
    Ok(delta)
}
