//! Of which kinds the state of a plan's groups is.
ghost use Rattle.std.specs.Prelude.{◌≡◌, map, IfOk};
ghost use Rattle.nova_value.specs.Rows.{kinds};
ghost use Rattle.nova_pig_algebra.specs.Tree.{tree_at, trees};
ghost use Rattle.nova_state.specs.Calls as calls;
ghost use Rattle.nova_state.specs.Sorts as spec;

use crate::plan::{calls_of, group_of, node_at, parts_of};
use nova_admit::GroupPlan;
use nova_group_codec::{Sorts, kind_at, kinds_at, sorts_of};
use nova_pig_algebra::{Node, PlanExpr};
use nova_value::{Column, Kind};
use std::alloc::{AllocError, Global};

/// The kind of an expression's value over rows of these kinds.
#[tactic(auto, unfolding(crate::specs::Sorts::kind_in))]
fn kind_in(kinds: &[Kind], expr: &PlanExpr) -> Kind
    ensures { result ≡ spec.kind_in kinds.now expr.now }
{
    match expr {
        PlanExpr::Lit(_) => Kind::Text,
        PlanExpr::Column(column) => kind_at(kinds, *column),
        PlanExpr::If { cond: _, a, b: _ } => kind_in(kinds, a.get()),
        _ => Kind::Long,
    }
}

/// The kinds of the rows that items make of rows of these kinds.
fn kinds_of_items(
    alloc: Global,
    kinds: &[Kind],
    items: &[PlanExpr],
) -> Result<Vec<Kind>, AllocError>
    ensures { IfOk result (λ ks. ks.items ≡ map (spec.kind_in kinds.now) items.now) }
{
    let mut all = Vec::with_capacity(alloc, items.len())?;
    for item in items {
        all.push(kind_in(kinds, item))?;
    }
    Ok(all)
}

/// The kinds of columns.
fn kinds_of_columns(alloc: Global, columns: &[Column]) -> Result<Vec<Kind>, AllocError>
    ensures { IfOk result (λ ks. ks.items ≡ kinds columns.now) }
{
    let mut all = Vec::with_capacity(alloc, columns.len())?;
    for column in columns {
        all.push(column.kind)?;
    }
    Ok(all)
}

/// The kinds of the rows that a row chain gives at a node, over an input of these columns.
fn kinds_of_chain(
    alloc: Global,
    nodes: &[Node],
    node: u32,
    input: &[Column],
) -> Result<Vec<Kind>, AllocError>
    ensures { IfOk result (λ ks. ks.items ≡ spec.chain_kinds (kinds input.now) (tree_at (trees nodes.now) node)) }
{
    match node_at(nodes, node) {
        Some(Node::Load { input: _ }) => kinds_of_columns(alloc, input),
        Some(Node::Filter { from, cond: _ }) => {
            if *from >= node {
                return Ok(Vec::new(alloc));
            }
            kinds_of_chain(alloc, nodes, *from, input)
        }
        Some(Node::Foreach { from, items }) => {
            if let Some((_, _)) = group_of(nodes, *from) {
                return Ok(Vec::new(alloc));
            }
            if *from >= node {
                return kinds_of_items(alloc, &[], items.as_slice());
            }
            let source = kinds_of_chain(alloc, nodes, *from, input)?;
            kinds_of_items(alloc, &source, items.as_slice())
        }
        Some(
            Node::Group {
                from: _,
                columns: _,
            },
        ) => Ok(Vec::new(alloc)),
        Some(
            Node::Join {
                left: _,
                left_by: _,
                right: _,
                right_by: _,
            },
        ) => Ok(Vec::new(alloc)),
        Some(Node::Union { arms: _ }) => Ok(Vec::new(alloc)),
        Some(Node::Distinct { from: _ }) => Ok(Vec::new(alloc)),
        None => Ok(Vec::new(alloc)),
    }
}

/// The same at the node that a GROUP groups, where it is one.
fn kinds_of_source(
    alloc: Global,
    nodes: &[Node],
    source: Option<u32>,
    input: &[Column],
) -> Result<Vec<Kind>, AllocError>
    ensures { IfOk result (λ ks. ks.items ≡ spec.chain_kinds (kinds input.now) (calls.tree_of_source nodes.now source)) }
{
    match source {
        Some(node) => kinds_of_chain(alloc, nodes, node, input),
        None => Ok(Vec::new(alloc)),
    }
}

/// The sorts of the plan's state over an input of these columns and key positions.
fn sorts_over(
    alloc: Global,
    plan: &GroupPlan,
    columns: &[Column],
    key: &[u32],
) -> Result<Sorts, AllocError>
    ensures { IfOk result (λ s. s ≡ spec.sorts_over (record { columns = columns.now; key = key.now }) plan.now) }
{
    let calls = calls_of(alloc, plan)?;
    let own = kinds_of_columns(alloc, columns)?;
    let key = kinds_at(alloc, &own, key)?;
    let plan = plan.plan();
    match parts_of(plan.nodes(), plan.stored()) {
        Some(parts) => {
            let kinds = kinds_of_source(alloc, plan.nodes(), parts.source, columns)?;
            sorts_of(alloc, key, &kinds, parts.columns, &calls)
        }
        None => sorts_of(alloc, key, &[], &[], &calls),
    }
}

/// Of which kinds the state of the plan's groups is.
#[tactic(auto, unfolding(crate::specs::Sorts::plan_sorts))]
pub fn sorts(alloc: Global, plan: &GroupPlan) -> Result<Sorts, AllocError>
    ensures { IfOk result (λ s. s ≡ spec.plan_sorts plan.now) }
{
    match plan.plan().inputs().split_first() {
        Some((input, _)) => sorts_over(alloc, plan, input.columns(), input.key()),
        None => sorts_over(alloc, plan, &[], &[]),
    }
}
