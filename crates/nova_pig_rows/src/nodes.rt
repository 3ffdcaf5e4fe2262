//! The nodes of a plan, from the left: those that the stored one stands on, each once.
ghost use Rattle.std.specs.Prelude.{◌≡◌, ◌+◌, ◌<◌, length, flat_map, slice_get, IfOk, OnOk};
ghost use Rattle.std.specs.Prelude.{filter as keep};
ghost use Rattle.nova_pig_algebra.specs.Meaning.{holds, no_calls};
ghost use Rattle.nova_pig_algebra.specs.Tree.{tree_at, trees, rows, rows_at, distinct as once};
ghost use Rattle.nova_pig_algebra.specs.Readers.{ClosedFrom};
ghost use Rattle.nova_pig_rows.specs.Keeps as spec;
ghost use Rattle.nova_pig_rows.specs.Step as step;
ghost use Rattle.nova_pig_rows.specs.Led.{Led};

use crate::distinct::first_rows;
use crate::group::grouped;
use crate::join::join;
use crate::make::{made_all, passing};
use crate::relation::Relation;
use crate::work::Work;
use nova_pig_algebra::{Node, PlanExpr, last_readers};
use std::alloc::{AllocError, Global};

/// UNION: the rows of each arm, one behind the other.
fn union<'a>(
    alloc: Global,
    work: &mut Work<'a>,
    at: usize,
    arms: &[u32],
) -> Result<Relation<'a>, AllocError>
    ensures rows { IfOk result (λ r. r ≡ flat_map (rows_at work.old.relations.items) arms.now) }
    ensures keeps { OnOk result (spec.KeepsLater at work.old.last.items work.old.relations.items work.new.relations.items) }
    ensures last { work.new.last.items ≡ work.old.last.items }
{
    let mut out = Relation::new(alloc);
    for arm in 0..arms.len() {
        work.add_arm(alloc, at, arms[arm], &arms[arm + 1..], &mut out)?;
    }
    Ok(out)
}

/// FOREACH over rows, or over groups.
fn foreach<'a>(
    alloc: Global,
    nodes: &[Node],
    work: &Work<'a>,
    from: u32,
    items: &[PlanExpr],
) -> Result<Relation<'a>, AllocError>
    ensures { IfOk result (λ r. r ≡ step.foreach_rows items.now work.now.relations.items from (slice_get nodes.now from)) }
{
    match nodes.get(from as usize) {
        Some(Node::Group { from, columns }) => {
            grouped(alloc, columns.as_slice(), items, work.rows(*from))
        }
        _ => made_all(alloc, items, work.rows(from)),
    }
}

/// The rows of a table.
fn table<'a>(alloc: Global, tables: &[Relation<'a>], input: u32) -> Result<Relation<'a>, AllocError>
    ensures { IfOk result (λ r. r ≡ rows_at tables.now input) }
{
    let mut out = Relation::new(alloc);
    if let Some(table) = tables.get(input as usize) {
        out.append_shared(alloc, table.rows())?;
    }
    Ok(out)
}

/// FILTER.
fn filter<'a>(
    alloc: Global,
    work: &mut Work<'a>,
    at: usize,
    from: u32,
    cond: &PlanExpr,
) -> Result<Relation<'a>, AllocError>
    ensures rows { IfOk result (λ r. r ≡ keep (λ row. holds cond.now row no_calls) (rows_at work.old.relations.items from)) }
    ensures keeps { OnOk result (spec.KeepsLater at work.old.last.items work.old.relations.items work.new.relations.items) }
    ensures last { work.new.last.items ≡ work.old.last.items }
{
    let picks = passing(alloc, cond, work.rows(from))?;
    let rows = work.pick(alloc, at, from, &picks)?;
    Ok(rows)
}

/// DISTINCT.
fn distinct<'a>(
    alloc: Global,
    work: &mut Work<'a>,
    at: usize,
    from: u32,
) -> Result<Relation<'a>, AllocError>
    ensures rows { IfOk result (λ r. r ≡ once (rows_at work.old.relations.items from)) }
    ensures keeps { OnOk result (spec.KeepsLater at work.old.last.items work.old.relations.items work.new.relations.items) }
    ensures last { work.new.last.items ≡ work.old.last.items }
{
    let picks = first_rows(alloc, work.rows(from))?;
    let rows = work.pick(alloc, at, from, &picks)?;
    Ok(rows)
}

/// The rows of the node with this number.
fn rows_of_node<'a>(
    alloc: Global,
    tables: &[Relation<'a>],
    nodes: &[Node],
    work: &mut Work<'a>,
    at: usize,
    node: &Node,
) -> Result<Relation<'a>, AllocError>
    requires { at < length nodes.now }
    ensures rows { IfOk result (λ r. r ≡ step.node_rows tables.now nodes.now work.old.relations.items node.now) }
    ensures keeps { OnOk result (spec.KeepsLater at work.old.last.items work.old.relations.items work.new.relations.items) }
    ensures last { work.new.last.items ≡ work.old.last.items }
{
    match node {
        Node::Load { input } => table(alloc, tables, *input),
        Node::Filter { from, cond } => filter(alloc, work, at, *from, cond),
        Node::Foreach { from, items } => foreach(alloc, nodes, work, *from, items.as_slice()),
        Node::Group {
            from: _,
            columns: _,
        } => Ok(Relation::new(alloc)),
        Node::Join {
            left,
            left_by,
            right,
            right_by,
        } => join(
            alloc,
            work.rows(*left),
            left_by.as_slice(),
            work.rows(*right),
            right_by.as_slice(),
        ),
        Node::Union { arms } => union(alloc, work, at, arms.as_slice()),
        Node::Distinct { from } => distinct(alloc, work, at, *from),
    }
}

/// The rows of the next node, or none where nothing reads it.
fn add_node<'a>(
    alloc: Global,
    tables: &[Relation<'a>],
    nodes: &[Node],
    work: &mut Work<'a>,
    at: usize,
) -> Result<(), AllocError>
    requires { at < length nodes.now }
    ensures last { work.new.last.items ≡ work.old.last.items }
    ensures led { OnOk result (ClosedFrom nodes.now 0 work.old.last.items → Led tables.now nodes.now work.old.last.items work.old.relations.items at → Led tables.now nodes.now work.old.last.items work.new.relations.items (at + 1)) }
{
    let node = &nodes[at];
    if work.last_of(at) == 0 {
        work.relations.push(Relation::new(alloc))?;
        return Ok(());
    }
    let rows = rows_of_node(alloc, tables, nodes, work, at, node)?;
    work.release(alloc, at);
    work.relations.push(rows)?;
    Ok(())
}

/// The rows of the stored node, of the tables of the inputs. Each node that it stands on is
/// evaluated once, and no other. Rows of tables are lent; rows that were made are moved where a
/// FILTER, a DISTINCT or a UNION is their last reader.
pub fn rows_of_nodes<'a>(
    alloc: Global,
    tables: &[Relation<'a>],
    nodes: &[Node],
    stored: u32,
) -> Result<Relation<'a>, AllocError>
    ensures { IfOk result (λ r. r ≡ rows (tree_at (trees nodes.now) stored) tables.now) }
{
    let last = last_readers(alloc, nodes, stored)?;
    let mut work = Work {
        relations: Vec::with_capacity(alloc, nodes.len())?,
        last,
    };
    for at in 0..nodes.len() {
        add_node(alloc, tables, nodes, &mut work, at)?;
    }
    let rows = work.answer(alloc, stored);
    Ok(rows)
}
