//! The rows of a plan's nodes.
ghost use Rattle.std.specs.Prelude.{◌≡◌, List, flat_map, map, slice_get, IfOk};
ghost use Rattle.nova_pig_algebra.specs.Meaning.{Row};
ghost use Rattle.nova_pig_algebra.specs.Tree as tree;
ghost use Rattle.nova_pig_algebra.specs.Tree.{Tree};
ghost use Rattle.nova_pig_slow.specs.Done.{AreRowsOf};

use crate::groups::grouped;
use crate::rows::{copied, distinct, filtered, joined, mapped};
use nova_pig_algebra::{Node, PlanExpr};
use nova_value::Row;
use std::alloc::{AllocError, Global};

/// Copies of the rows at a place.
fn rows_at(alloc: Global, all: &[Vec<Row>], place: u32) -> Result<Vec<Row>, AllocError>
    ensures { IfOk result (λ rs. rs.items ≡ tree.rows_at (map (λ t. t.items) all.now) place) }
{
    match all.get(place as usize) {
        Some(rows) => copied(alloc, rows),
        None => Ok(Vec::new(alloc)),
    }
}

/// The rows of arms, one after the other.
fn united(alloc: Global, done: &[Vec<Row>], arms: &[u32]) -> Result<Vec<Row>, AllocError>
    ensures { IfOk result (λ rs. rs.items ≡ flat_map (tree.rows_at (map (λ t. t.items) done.now)) arms.now) }
{
    let mut all = Vec::new(alloc);
    for arm in arms {
        let mut rows = rows_at(alloc, done, *arm)?;
        all.append(&mut rows)?;
    }
    Ok(all)
}

/// A row for each row at a place.
fn mapped_at(
    alloc: Global,
    done: &[Vec<Row>],
    from: u32,
    items: &[PlanExpr],
) -> Result<Vec<Row>, AllocError>
    ensures { IfOk result (λ rs. (tables : List (List Row)) (ts : List Tree) → AreRowsOf tables ts (map (λ t. t.items) done.now) → rs.items ≡ tree.rows (tree.Foreach (tree.tree_at ts from) items.now) tables) }
{
    let rows = rows_at(alloc, done, from)?;
    let made = mapped(alloc, items, &rows)?;
    Ok(made)
}

/// A row for each group of the rows at a place.
fn grouped_at(
    alloc: Global,
    done: &[Vec<Row>],
    from: u32,
    columns: &[u32],
    items: &[PlanExpr],
) -> Result<Vec<Row>, AllocError>
    ensures { IfOk result (λ rs. (tables : List (List Row)) (ts : List Tree) → AreRowsOf tables ts (map (λ t. t.items) done.now) → rs.items ≡ tree.rows (tree.Grouped (tree.tree_at ts from) columns.now items.now) tables) }
{
    let rows = rows_at(alloc, done, from)?;
    let made = grouped(alloc, columns, items, &rows)?;
    Ok(made)
}

/// The rows of a FOREACH: of groups where it reads a GROUP.
fn foreach(
    alloc: Global,
    nodes: &[Node],
    done: &[Vec<Row>],
    from: u32,
    items: &[PlanExpr],
) -> Result<Vec<Row>, AllocError>
    ensures { IfOk result (λ rs. (tables : List (List Row)) (ts : List Tree) → AreRowsOf tables ts (map (λ t. t.items) done.now) → rs.items ≡ tree.rows (tree.foreach_tree ts from items.now (slice_get nodes.now from)) tables) }
{
    match nodes.get(from as usize) {
        Some(Node::Group { from, columns }) => {
            grouped_at(alloc, done, *from, columns.as_slice(), items)
        }
        Some(Node::Load { .. }) => mapped_at(alloc, done, from, items),
        Some(Node::Filter { .. }) => mapped_at(alloc, done, from, items),
        Some(Node::Foreach { .. }) => mapped_at(alloc, done, from, items),
        Some(Node::Join { .. }) => mapped_at(alloc, done, from, items),
        Some(Node::Union { .. }) => mapped_at(alloc, done, from, items),
        Some(Node::Distinct { .. }) => mapped_at(alloc, done, from, items),
        None => mapped_at(alloc, done, from, items),
    }
}

/// The rows of a node by those of the nodes before it. A GROUP has none: its FOREACH makes them.
fn node_rows(
    alloc: Global,
    nodes: &[Node],
    tables: &[Vec<Row>],
    done: &[Vec<Row>],
    node: &Node,
) -> Result<Vec<Row>, AllocError>
    ensures { IfOk result (λ rs. (ts : List Tree) → AreRowsOf (map (λ t. t.items) tables.now) ts (map (λ t. t.items) done.now) → rs.items ≡ tree.rows (tree.tree_of nodes.now ts node.now) (map (λ t. t.items) tables.now)) }
{
    match node {
        Node::Load { input } => rows_at(alloc, tables, *input),
        Node::Filter { from, cond } => filtered(alloc, cond, &rows_at(alloc, done, *from)?),
        Node::Foreach { from, items } => foreach(alloc, nodes, done, *from, items.as_slice()),
        Node::Group { .. } => Ok(Vec::new(alloc)),
        Node::Join {
            left,
            left_by,
            right,
            right_by,
        } => {
            let left = rows_at(alloc, done, *left)?;
            let right = rows_at(alloc, done, *right)?;
            let rows = joined(
                alloc,
                &left,
                left_by.as_slice(),
                &right,
                right_by.as_slice(),
            )?;
            Ok(rows)
        }
        Node::Union { arms } => {
            let rows = united(alloc, done, arms.as_slice())?;
            Ok(rows)
        }
        Node::Distinct { from } => distinct(alloc, &rows_at(alloc, done, *from)?),
    }
}

/// The rows of the stored node, of the tables of the inputs, each in the order of its keys. Every
/// node is evaluated, one after the other, over whole lists of rows.
pub fn rows_of_nodes(
    alloc: Global,
    tables: &[Vec<Row>],
    nodes: &[Node],
    stored: u32,
) -> Result<Vec<Row>, AllocError>
    ensures { IfOk result (λ rs. rs.items ≡ tree.rows (tree.tree_at (tree.trees nodes.now) stored) (map (λ t. t.items) tables.now)) }
{
    let mut done = Vec::new(alloc);
    for node in nodes {
        let rows = node_rows(alloc, nodes, tables, &done, node)?;
        done.push(rows)?;
    }
    rows_at(alloc, &done, stored)
}
