//! What is known of a node of a plan, by what is known of the nodes that it stands on.
ghost use Rattle.std.specs.Prelude.{◌≡◌, [], None, IfOk, length};
ghost use Rattle.std.specs.Option.{option_map};
ghost use Rattle.nova_pig_algebra.specs.Tree.{tree_at, trees};
ghost use Rattle.nova_pig_algebra.specs.Keys as spec;
ghost use Rattle.nova_pig_algebra.specs.Readers.{ClosedFrom};
ghost use Rattle.nova_pig_algebra.specs.Steps as step;

use crate::columns::column_set;
use crate::constants::{copy_constants, item_constants, push_constants, unknowns};
use crate::facts::Facts;
use crate::keys::{distinct_key, foreach_key, join_key, union_key};
use crate::node::{Node, PlanExpr};
use crate::places::places_by;
use crate::readers::last_readers;
use nova_value::Schema;
use sqlite_items::Items;
use std::alloc::{AllocError, Global};

/// What is known where no node is: no columns, and no key.
fn nothing<'a>(alloc: Global) -> Facts<'a>
    ensures { result ≡ spec.facts_of [] None }
{
    Facts {
        constants: Items::new(alloc),
        key: None,
    }
}

/// What is known of a node, by its number.
fn fact_at<'f, 'a>(done: &'f [Facts<'a>], none: &'f Facts<'a>, node: u32) -> &'f Facts<'a>
    requires { none.now ≡ spec.facts_of [] None }
    ensures { result.now ≡ step.fact_at done.now node }
{
    if (node as usize) < done.len() {
        return &done[node as usize];
    }
    none
}

/// A copy of a key.
fn copy_key(alloc: Global, key: &Option<Items<u32>>) -> Result<Option<Items<u32>>, AllocError>
    ensures { IfOk result (λ k. k ≡ key.now) }
{
    match key {
        Some(key) => Ok(Some(Items::from_slice(alloc, key.as_slice())?)),
        None => Ok(None),
    }
}

/// A copy of what is known, as of a FILTER by its operand.
fn copy_facts<'a>(alloc: Global, from: &Facts<'a>) -> Result<Facts<'a>, AllocError>
    ensures { IfOk result (λ f. f ≡ from.now) }
{
    let constants = copy_constants(alloc, from.constants.as_slice())?;
    let key = copy_key(alloc, &from.key)?;
    Ok(Facts { constants, key })
}

/// LOAD: the channel's key columns.
fn load_facts<'a>(alloc: Global, inputs: &[Schema], input: u32) -> Result<Facts<'a>, AllocError>
    ensures { IfOk result (λ f. f ≡ spec.load_facts (spec.shape_at inputs.now input)) }
{
    match inputs.get(input as usize) {
        Some(schema) => {
            let constants = unknowns(alloc, schema.columns().len())?;
            let key = column_set(alloc, schema.key())?;
            Ok(Facts {
                constants,
                key: Some(key),
            })
        }
        None => Ok(Facts {
            constants: Items::new(alloc),
            key: Some(Items::new(alloc)),
        }),
    }
}

/// FOREACH: for each key column of the operand the first item that is a plain reference to it.
fn foreach_facts<'a>(
    alloc: Global,
    items: &'a [PlanExpr],
    from: &Facts<'a>,
) -> Result<Facts<'a>, AllocError>
    ensures { IfOk result (λ f. f ≡ spec.foreach_facts items.now from.now) }
{
    let constants = item_constants(alloc, from.constants.as_slice(), items)?;
    let key = foreach_key(alloc, items, &from.key)?;
    Ok(Facts { constants, key })
}

/// GROUP then FOREACH: for each BY column the first item that is it.
fn grouped_facts<'a>(
    alloc: Global,
    columns: &[u32],
    items: &'a [PlanExpr],
) -> Result<Facts<'a>, AllocError>
    ensures { IfOk result (λ f. f ≡ spec.grouped_facts columns.now items.now) }
{
    let constants = item_constants(alloc, &[], items)?;
    let key = places_by(alloc, columns, items)?;
    Ok(Facts { constants, key })
}

/// JOIN: the left key where the right BY columns include the right key, else both keys.
fn join_facts<'a>(
    alloc: Global,
    right_by: &[u32],
    left: &Facts<'a>,
    right: &Facts<'a>,
) -> Result<Facts<'a>, AllocError>
    ensures { IfOk result (λ f. f ≡ spec.join_facts right_by.now left.now right.now) }
{
    let mut constants = copy_constants(alloc, left.constants.as_slice())?;
    push_constants(&mut constants, right.constants.as_slice())?;
    let key = join_key(alloc, right_by, left, right)?;
    Ok(Facts { constants, key })
}

/// UNION: where all arms have one key and a column tells them apart, the key and that column.
fn union_facts<'a>(
    alloc: Global,
    done: &[Facts<'a>],
    none: &Facts<'a>,
    arms: &[u32],
) -> Result<Facts<'a>, AllocError>
    requires { none.now ≡ spec.facts_of [] None }
    ensures { IfOk result (λ f. f ≡ spec.union_facts (step.facts_at done.now arms.now)) }
{
    match arms.split_first() {
        None => Ok(nothing(alloc)),
        Some((first, others)) => {
            let own = fact_at(done, none, *first);
            let width = own.constants.len();
            let key = union_key(alloc, &own.key, width, done, arms, others)?;
            let constants = unknowns(alloc, width)?;
            Ok(Facts { constants, key })
        }
    }
}

/// DISTINCT: the key of the operand, or all columns where it has none.
fn distinct_facts<'a>(alloc: Global, from: &Facts<'a>) -> Result<Facts<'a>, AllocError>
    ensures { IfOk result (λ f. f ≡ spec.distinct_facts from.now) }
{
    let constants = copy_constants(alloc, from.constants.as_slice())?;
    let key = distinct_key(alloc, &from.key, from.constants.len())?;
    Ok(Facts {
        constants,
        key: Some(key),
    })
}

/// A FOREACH over a source: over a GROUP, or over rows.
fn foreach_of<'a>(
    alloc: Global,
    source: Option<&Node>,
    items: &'a [PlanExpr],
    from: &Facts<'a>,
) -> Result<Facts<'a>, AllocError>
    ensures { IfOk result (λ f. f ≡ step.foreach_of (option_map (λ n. n.now) source.entry) items.now from.now) }
{
    match source {
        Some(Node::Group { columns, .. }) => grouped_facts(alloc, columns.as_slice(), items),
        _ => foreach_facts(alloc, items, from),
    }
}

/// What is known of a node, of all nodes and of what is known of those before it.
fn node_facts<'a>(
    alloc: Global,
    inputs: &[Schema],
    nodes: &'a [Node],
    done: &[Facts<'a>],
    node: &'a Node,
) -> Result<Facts<'a>, AllocError>
    ensures { IfOk result (λ f. f ≡ step.node_facts inputs.now nodes.now done.now node.now) }
{
    let none = nothing(alloc);
    match node {
        Node::Load { input } => load_facts(alloc, inputs, *input),
        Node::Filter { from, .. } => copy_facts(alloc, fact_at(done, &none, *from)),
        Node::Foreach { from, items } => foreach_of(
            alloc,
            nodes.get(*from as usize),
            items.as_slice(),
            fact_at(done, &none, *from),
        ),
        Node::Group { .. } => Ok(nothing(alloc)),
        Node::Join {
            left,
            right,
            right_by,
            ..
        } => join_facts(
            alloc,
            right_by.as_slice(),
            fact_at(done, &none, *left),
            fact_at(done, &none, *right),
        ),
        Node::Union { arms } => union_facts(alloc, done, &none, arms.as_slice()),
        Node::Distinct { from } => distinct_facts(alloc, fact_at(done, &none, *from)),
    }
}

/// What is known of a node, where another one reads it. A node that is read by none costs nothing.
fn facts_if_read<'a>(
    alloc: Global,
    inputs: &[Schema],
    nodes: &'a [Node],
    done: &[Facts<'a>],
    last: usize,
    node: &'a Node,
) -> Result<Facts<'a>, AllocError>
    ensures { IfOk result (λ f. f ≡ step.facts_if_read inputs.now nodes.now done.now last node.now) }
{
    if last == 0 {
        return Ok(nothing(alloc));
    }
    node_facts(alloc, inputs, nodes, done, node)
}

/// What is known of each node that is read, from the left.
fn facts_of_read<'a>(
    alloc: Global,
    inputs: &[Schema],
    nodes: &'a [Node],
    last: &[usize],
) -> Result<Items<Facts<'a>>, AllocError>
    requires long { length last.now ≡ length nodes.now }
    requires closed { ClosedFrom nodes.now 0 last.now }
    ensures { IfOk result (λ fs. step.AreKnown inputs.now nodes.now last.now (length nodes.now) fs) }
{
    let mut done = Items::new(alloc);
    for at in 0..nodes.len() {
        let facts = facts_if_read(alloc, inputs, nodes, done.as_slice(), last[at], &nodes[at])?;
        done.push(facts)?;
    }
    Ok(done)
}

/// What is known of a node, by the nodes that it stands on: no other one is looked at. A node that
/// names none that stands before it has no columns and no key.
#[tactic(auto, using(crate::proofs::FactsOfTrees::known_at))]
pub fn facts_of_node<'a>(
    alloc: Global,
    inputs: &[Schema],
    nodes: &'a [Node],
    node: u32,
) -> Result<Facts<'a>, AllocError>
    ensures { IfOk result (λ f. f ≡ spec.facts inputs.now (tree_at (trees nodes.now) node)) }
{
    let none = nothing(alloc);
    let last = last_readers(alloc, nodes, node)?;
    let all = facts_of_read(alloc, inputs, nodes, &last)?;
    copy_facts(alloc, fact_at(all.as_slice(), &none, node))
}

/// The key columns of the stored node, rising, by the operators that it stands on; none where it
/// has no key.
pub fn key_of_nodes(
    alloc: Global,
    inputs: &[Schema],
    nodes: &[Node],
    stored: u32,
) -> Result<Option<Items<u32>>, AllocError>
    ensures { IfOk result (λ k. k ≡ (spec.facts inputs.now (tree_at (trees nodes.now) stored)).key) }
{
    let facts = facts_of_node(alloc, inputs, nodes, stored)?;
    Ok(facts.key)
}
