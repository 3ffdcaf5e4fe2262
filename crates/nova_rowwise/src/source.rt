//! Where the fields of output keys come from, told by the plan once a run.
ghost use Rattle.std.specs.Prelude.{◌≡◌, ◌<◌, ◌++◌, map, slice_get, IfOk, OnOk, IsTrue};
ghost use Rattle.std.specs.Option.{option_map};
ghost use Rattle.nova_pig_algebra.specs.Keys.{plain as plain_item};
ghost use Rattle.nova_pig_algebra.specs.Tree.{tree_at, trees};
ghost use Rattle.nova_rowwise.specs.Derived.{main_of, first_main as first_arm_main};
ghost use Rattle.nova_pig_algebra.specs.Nodes.{earlier, earlier_arms};
ghost use Rattle.nova_rowwise.specs.OverRows.{over_rows};
ghost use Rattle.nova_rowwise.specs.Seen.{plain_of};
ghost use Rattle.nova_rowwise.specs.Sources as spec;

use nova_pig_algebra::{Node, PlanExpr};
use nova_value::Str;
use std::alloc::{AllocError, Global};

/// Where a field comes from: a column of the main input, a constant of the plan, or neither.
#[derive(Clone, Copy, Drop)]
pub(crate) enum Field<'a> {
    Column(u32),
    By(u32),
    Number(i64),
    Text(&'a Str),
    Computed,
}

/// What an item is by itself.
fn plain(item: &PlanExpr) -> Field<'_>
    ensures { plain_of result ≡ plain_item item.now }
{
    match item {
        PlanExpr::Column(column) => Field::Column(*column),
        PlanExpr::GroupColumn(column) => Field::By(*column),
        PlanExpr::Num(n) => Field::Number(*n),
        PlanExpr::Lit(text) => Field::Text(text),
        _ => Field::Computed,
    }
}

/// What the item of a column is.
fn item_at(items: &[PlanExpr], column: u32) -> Field<'_>
    ensures { plain_of result ≡ spec.item_at items.now column }
{
    match items.get(column as usize) {
        Some(item) => plain(item),
        None => Field::Computed,
    }
}

/// Where a field of a FOREACH's row comes from.
fn through<'a>(items: &'a [PlanExpr], field: &Field<'a>) -> Field<'a>
    ensures { plain_of result ≡ spec.through items.now (plain_of field.now) }
{
    match field {
        Field::Column(column) => item_at(items, *column),
        _ => *field,
    }
}

/// Where fields of a FOREACH's row come from.
fn all_through<'a>(
    alloc: Global,
    items: &'a [PlanExpr],
    fields: &[Field<'a>],
) -> Result<Vec<Field<'a>>, AllocError>
    ensures { IfOk result (λ fs. map plain_of fs.items ≡ map (spec.through items.now) (map plain_of fields.now)) }
{
    let mut out = Vec::with_capacity(alloc, fields.len())?;
    for field in fields {
        out.push(through(items, field))?;
    }
    Ok(out)
}

/// The same fields.
fn copied<'a>(alloc: Global, fields: &[Field<'a>]) -> Result<Vec<Field<'a>>, AllocError>
    ensures { IfOk result (λ fs. map plain_of fs.items ≡ map plain_of fields.now) }
{
    let mut out = Vec::with_capacity(alloc, fields.len())?;
    for field in fields {
        out.push(*field)?;
    }
    Ok(out)
}

/// The key's columns, as fields.
pub(crate) fn columns<'a>(alloc: Global, key: &[u32]) -> Result<Vec<Field<'a>>, AllocError>
    ensures { IfOk result (λ fs. map plain_of fs.items ≡ spec.as_fields key.now) }
{
    let mut out = Vec::with_capacity(alloc, key.len())?;
    for column in key {
        out.push(Field::Column(*column))?;
    }
    Ok(out)
}

/// The node with this number.
fn node_at(nodes: &[Node], node: u32) -> Option<&Node>
    ensures { option_map (λ n. n.now) result ≡ slice_get nodes.now node }
{
    nodes.get(node as usize)
}

/// Whether the operand of a FOREACH is an earlier node, and no GROUP.
fn is_over_rows(nodes: &[Node], node: u32, from: u32) -> bool
    ensures operand { result ≡ over_rows node from (slice_get nodes.now from) }
    ensures earlier { IsTrue result → from < node }
{
    if from >= node {
        return false;
    }
    match nodes.get(from as usize) {
        Some(
            Node::Group {
                from: _,
                columns: _,
            },
        ) => false,
        _ => true,
    }
}

/// Where fields of the node's rows come from, a list for each arm.
#[cycle(sources)]
pub(crate) fn add_sources<'a>(
    alloc: Global,
    nodes: &'a [Node],
    node: u32,
    fields: &[Field<'a>],
    out: &mut Vec<Vec<Field<'a>>>,
) -> Result<(), AllocError>
    ensures { OnOk result (map (λ p. map plain_of p.items) out.new.items ≡ map (λ p. map plain_of p.items) out.old.items ++ spec.sources (tree_at (trees nodes.now) node) (map plain_of fields.now)) }
{
    match node_at(nodes, node) {
        Some(Node::Load { input: _ }) => {
            out.push(copied(alloc, fields)?)?;
            Ok(())
        }
        Some(Node::Filter { from, cond: _ }) => add_earlier(alloc, nodes, node, *from, fields, out),
        Some(Node::Foreach { from, items }) => {
            if !is_over_rows(nodes, node, *from) {
                return Ok(());
            }
            let fields = all_through(alloc, items.as_slice(), fields)?;
            add_sources(alloc, nodes, *from, &fields, out)
        }
        Some(
            Node::Join {
                left,
                left_by: _,
                right: _,
                right_by: _,
            },
        ) => add_earlier(alloc, nodes, node, *left, fields, out),
        Some(Node::Union { arms }) => { add_arms(alloc, nodes, node, arms.as_slice(), fields, out) }
        Some(
            Node::Group {
                from: _,
                columns: _,
            },
        ) => Ok(()),
        Some(Node::Distinct { from: _ }) => Ok(()),
        None => Ok(()),
    }
}

/// Those of an operand.
#[cycle(sources)]
fn add_earlier<'a>(
    alloc: Global,
    nodes: &'a [Node],
    node: u32,
    from: u32,
    fields: &[Field<'a>],
    out: &mut Vec<Vec<Field<'a>>>,
) -> Result<(), AllocError>
    ensures { OnOk result (map (λ p. map plain_of p.items) out.new.items ≡ map (λ p. map plain_of p.items) out.old.items ++ spec.sources (earlier nodes.now node from) (map plain_of fields.now)) }
{
    if from < node {
        add_sources(alloc, nodes, from, fields, out)?;
    }
    Ok(())
}

/// Those of the arms of a UNION.
#[cycle(sources)]
fn add_arms<'a>(
    alloc: Global,
    nodes: &'a [Node],
    node: u32,
    arms: &[u32],
    fields: &[Field<'a>],
    out: &mut Vec<Vec<Field<'a>>>,
) -> Result<(), AllocError>
    ensures { OnOk result (map (λ p. map plain_of p.items) out.new.items ≡ map (λ p. map plain_of p.items) out.old.items ++ spec.arm_sources (earlier_arms nodes.now node arms.now) (map plain_of fields.now)) }
{
    for arm in arms {
        add_earlier(alloc, nodes, node, *arm, fields, out)?;
    }
    Ok(())
}

/// The first of these, if it is earlier.
#[cycle(main)]
fn first_main(nodes: &[Node], node: u32, arms: &[u32]) -> u32
    ensures { result ≡ first_arm_main (earlier_arms nodes.now node arms.now) }
{
    match arms.first() {
        Some(arm) => earlier_main(nodes, node, *arm),
        None => 0,
    }
}

/// The main input of an operand.
#[cycle(main)]
fn earlier_main(nodes: &[Node], node: u32, from: u32) -> u32
    ensures { result ≡ main_of (earlier nodes.now node from) }
{
    if from < node {
        return main_input(nodes, from);
    }
    0
}

/// The main input of a node.
#[cycle(main)]
pub(crate) fn main_input(nodes: &[Node], node: u32) -> u32
    ensures { result ≡ main_of (tree_at (trees nodes.now) node) }
{
    match node_at(nodes, node) {
        Some(Node::Load { input }) => *input,
        Some(Node::Filter { from, cond: _ }) => earlier_main(nodes, node, *from),
        Some(Node::Foreach { from, items: _ }) => {
            if is_over_rows(nodes, node, *from) {
                return main_input(nodes, *from);
            }
            0
        }
        Some(
            Node::Join {
                left,
                left_by: _,
                right: _,
                right_by: _,
            },
        ) => earlier_main(nodes, node, *left),
        Some(Node::Union { arms }) => first_main(nodes, node, arms.as_slice()),
        Some(
            Node::Group {
                from: _,
                columns: _,
            },
        ) => 0,
        Some(Node::Distinct { from: _ }) => 0,
        None => 0,
    }
}
