//! The shapes of nodes, from the left, each by those of the nodes before it.
ghost use Rattle.std.specs.Prelude.{◌≡◌, ◌==◌, [], IfOk};
ghost use Rattle.nova_pig_algebra.specs.Keys.{facts};
ghost use Rattle.nova_pig_algebra.specs.Tree.{tree_at, trees};
ghost use Rattle.nova_pig_pattern.specs.Tests as test;
ghost use Rattle.nova_admit.specs.NodeShapes as spec;

use nova_pig_algebra::{Node, covers, key_of_nodes};
use nova_value::Schema;
use std::alloc::{AllocError, Global};

/// What is known of a node, with the main input at a place: the input of which it is a row chain,
/// and whether it is stateless over the main input, made by lookups from it, or grouped over it;
/// and whether a JOIN stands on the way to it.
#[derive(Clone, Copy, Drop)]
pub(crate) struct Known {
    pub(crate) chain: Option<u32>,
    pub(crate) stateless: bool,
    pub(crate) lookup: bool,
    pub(crate) grouped: bool,
    pub(crate) joins: bool,
}

/// What has no shape.
fn nothing() -> Known
    ensures { result ≡ spec.nothing }
{
    Known {
        chain: None,
        stateless: false,
        lookup: false,
        grouped: false,
        joins: false,
    }
}

/// What is known of a node, by its number.
fn known_at(done: &[Known], node: u32) -> Known
    ensures { result ≡ spec.known_at done.now node }
{
    match done.get(node as usize) {
        Some(known) => *known,
        None => nothing(),
    }
}

/// Whether it is the input at this place.
fn is_this(main: usize, chain: Option<u32>) -> bool
    ensures { result ≡ test.is_this main chain }
{
    match chain {
        Some(input) => input as usize == main,
        None => false,
    }
}

/// Whether it is another input than that at this place.
fn is_other(main: usize, chain: Option<u32>) -> bool
    ensures { result ≡ test.is_other main chain }
{
    match chain {
        Some(input) => input as usize != main,
        None => false,
    }
}

/// LOAD.
fn load(main: usize, input: u32) -> Known
    ensures { result ≡ spec.load_known main input }
{
    let is_main = input as usize == main;
    Known {
        chain: Some(input),
        stateless: is_main,
        lookup: is_main,
        grouped: false,
        joins: false,
    }
}

/// A FOREACH, of a GROUP or of rows.
fn foreach(main: usize, nodes: &[Node], done: &[Known], from: u32) -> Known
    ensures { result ≡ spec.foreach_known main done.now from (spec.node_at nodes.now from) }
{
    match nodes.get(from as usize) {
        Some(Node::Group { from, columns: _ }) => Known {
            chain: None,
            stateless: false,
            lookup: false,
            grouped: is_this(main, known_at(done, *from).chain),
            joins: false,
        },
        _ => known_at(done, from),
    }
}

/// Whether the node has a key, which the columns include.
fn is_covered(
    alloc: Global,
    inputs: &[Schema],
    nodes: &[Node],
    node: u32,
    columns: &[u32],
) -> Result<bool, AllocError>
    ensures { IfOk result (λ b. b ≡ test.is_covered columns.now (facts inputs.now (tree_at (trees nodes.now) node)).key) }
{
    match key_of_nodes(alloc, inputs, nodes, node)? {
        Some(key) => Ok(covers(columns, key.as_slice())),
        None => Ok(false),
    }
}

/// JOIN.
fn join(
    alloc: Global,
    inputs: &[Schema],
    main: usize,
    nodes: &[Node],
    done: &[Known],
    left: u32,
    right: u32,
    right_by: &[u32],
) -> Result<Known, AllocError>
    ensures { IfOk result (λ k. k ≡ spec.join_known inputs.now main nodes.now done.now left right right_by.now) }
{
    let mut known = nothing();
    known.joins = true;
    if known_at(done, left).lookup && is_other(main, known_at(done, right).chain) {
        known.lookup = is_covered(alloc, inputs, nodes, right, right_by)?;
    }
    Ok(known)
}

/// Whether all of these are stateless.
fn all_stateless(done: &[Known], arms: &[u32]) -> bool
    ensures { result ≡ spec.all_stateless done.now arms.now }
{
    for arm in arms {
        if !known_at(done, *arm).stateless {
            return false;
        }
    }
    true
}

/// UNION.
fn union(done: &[Known], arms: &[u32]) -> Known
    ensures { result ≡ spec.union_known done.now arms.now }
{
    let mut known = nothing();
    known.stateless = all_stateless(done, arms);
    known
}

/// What is known of a node, of all nodes and of what is known of those before it.
fn node_known(
    alloc: Global,
    inputs: &[Schema],
    main: usize,
    nodes: &[Node],
    done: &[Known],
    node: &Node,
) -> Result<Known, AllocError>
    ensures { IfOk result (λ k. k ≡ spec.node_known inputs.now main nodes.now done.now node.now) }
{
    match node {
        Node::Load { input } => Ok(load(main, *input)),
        Node::Filter { from, cond: _ } => Ok(known_at(done, *from)),
        Node::Foreach { from, items: _ } => Ok(foreach(main, nodes, done, *from)),
        Node::Group {
            from: _,
            columns: _,
        } => Ok(nothing()),
        Node::Join {
            left,
            left_by: _,
            right,
            right_by,
        } => join(
            alloc,
            inputs,
            main,
            nodes,
            done,
            *left,
            *right,
            right_by.as_slice(),
        ),
        Node::Union { arms } => Ok(union(done, arms.as_slice())),
        Node::Distinct { from: _ } => Ok(nothing()),
    }
}

/// What is known of each node, from the left.
fn all_known(
    alloc: Global,
    inputs: &[Schema],
    main: usize,
    nodes: &[Node],
) -> Result<Vec<Known>, AllocError>
    ensures { IfOk result (λ ks. ks.items ≡ spec.known_after inputs.now main nodes.now [] nodes.now) }
{
    let mut done = Vec::with_capacity(alloc, nodes.len())?;
    for node in nodes {
        let known = node_known(alloc, inputs, main, nodes, &done, node)?;
        done.push(known)?;
    }
    Ok(done)
}

/// What is known of the stored node.
#[tactic(auto, using(crate::proofs::KnownTrees::stored_known))]
pub(crate) fn known_of_nodes(
    alloc: Global,
    inputs: &[Schema],
    main: usize,
    nodes: &[Node],
    stored: u32,
) -> Result<Known, AllocError>
    ensures { IfOk result (λ k. k ≡ spec.known inputs.now main (tree_at (trees nodes.now) stored)) }
{
    let all = all_known(alloc, inputs, main, nodes)?;
    Ok(known_at(&all, stored))
}
