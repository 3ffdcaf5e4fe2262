//! What a plan over groups says of rows and groups.
ghost use Rattle.std.specs.Prelude.{◌≡◌, pos, map, IfOk, OnOk, slice_get};
ghost use Rattle.std.specs.Option.{option_map};
ghost use Rattle.nova_value.specs.Rows.{key_at, value_at};
ghost use Rattle.nova_pig_algebra.specs.Keys.{plain};
ghost use Rattle.nova_pig_algebra.specs.Meaning as meaning;
ghost use Rattle.nova_pig_algebra.specs.Plan.{tree_of_plan};
ghost use Rattle.nova_pig_algebra.specs.Tree.{tree_at, trees};
ghost use Rattle.nova_pig_rows.specs.Outcomes.{called, seen, call};
ghost use Rattle.nova_pig_rows.specs.Outcomes as outcome;
ghost use Rattle.nova_pig_rows.specs.Seen.{datum};
ghost use Rattle.nova_state.specs.Calls as calls;
ghost use Rattle.nova_state.specs.Plan as spec;
ghost use Rattle.nova_state.specs.Rule as rule;
ghost use Rattle.nova_value.specs.Wrapped.{wrapped};

use nova_admit::GroupPlan;
use nova_groups::{Group, Item, Share};
use nova_pig_algebra::{Node, PlanExpr};
use nova_pig_rows::{Call, Datum, Outcome, row_of_chain, row_of_group};
use nova_pig_tree::CallKind;
use nova_value::{Key, Row, Value, copy_value};
use std::alloc::{AllocError, Global};

/// The GROUP on which a node stands: the node that is grouped, where it is one, the BY columns, and
/// the items of the FOREACH over it.
#[derive(Clone, Copy, Drop)]
pub(crate) struct Parts<'a> {
    pub(crate) source: Option<u32>,
    pub(crate) columns: &'a [u32],
    pub(crate) items: &'a [PlanExpr],
}

/// The node with this number.
pub(crate) fn node_at(nodes: &[Node], node: u32) -> Option<&Node>
    ensures { option_map (λ n. n.now) result ≡ slice_get nodes.now node }
{
    nodes.get(node as usize)
}

/// The number, where it is earlier.
fn earlier(source: u32, node: u32) -> Option<u32>
    ensures { result ≡ calls.if_earlier source node }
{
    if source < node { Some(source) } else { None }
}

/// The rows that a GROUP groups, by their node, and its columns.
pub(crate) fn group_of(nodes: &[Node], node: u32) -> Option<(u32, &[u32])>
    ensures { option_map (λ g. (g.0, g.1.now)) result ≡ calls.group_node (slice_get nodes.now node) }
{
    match node_at(nodes, node) {
        Some(Node::Load { input: _ }) => None,
        Some(Node::Filter { from: _, cond: _ }) => None,
        Some(Node::Foreach { from: _, items: _ }) => None,
        Some(Node::Group { from, columns }) => Some((*from, columns.as_slice())),
        Some(
            Node::Join {
                left: _,
                left_by: _,
                right: _,
                right_by: _,
            },
        ) => None,
        Some(Node::Union { arms: _ }) => None,
        Some(Node::Distinct { from: _ }) => None,
        None => None,
    }
}

/// The GROUP on which a node stands.
pub(crate) fn parts_of<'a>(nodes: &'a [Node], node: u32) -> Option<Parts<'a>>
    ensures { option_map (calls.parts_seen nodes.now) result ≡ spec.parts (tree_at (trees nodes.now) node) }
{
    match node_at(nodes, node) {
        Some(Node::Load { input: _ }) => None,
        Some(Node::Filter { from, cond: _ }) => {
            if *from >= node {
                return None;
            }
            parts_of(nodes, *from)
        }
        Some(Node::Foreach { from, items }) => {
            if let Some((source, columns)) = group_of(nodes, *from) {
                return Some(Parts {
                    source: earlier(source, node),
                    columns,
                    items: items.as_slice(),
                });
            }
            if *from >= node {
                return None;
            }
            parts_of(nodes, *from)
        }
        Some(
            Node::Group {
                from: _,
                columns: _,
            },
        ) => None,
        Some(
            Node::Join {
                left: _,
                left_by: _,
                right: _,
                right_by: _,
            },
        ) => None,
        Some(Node::Union { arms: _ }) => None,
        Some(Node::Distinct { from: _ }) => None,
        None => None,
    }
}

/// Whether it is the call.
fn is(call: Call, kind: CallKind, column: Option<u32>) -> bool
    ensures { result ≡ outcome.same_call (called call) (outcome.call kind column) }
{
    same_kind(call.kind, kind) && same_column(call.column, column)
}

/// Whether both are one kind.
fn same_kind(a: CallKind, b: CallKind) -> bool
    ensures { result ≡ calls.same_kind a b }
{
    match (a, b) {
        (CallKind::Count, CallKind::Count) => true,
        (CallKind::Sum, CallKind::Sum) => true,
        (CallKind::Min, CallKind::Min) => true,
        (CallKind::Max, CallKind::Max) => true,
        _ => false,
    }
}

/// Whether both are there and the same, or neither is there.
fn same_column(a: Option<u32>, b: Option<u32>) -> bool
    ensures { result ≡ calls.same_column a b }
{
    match a {
        None => b.is_none(),
        Some(m) => match b {
            None => false,
            Some(n) => m == n,
        },
    }
}

/// Whether the call is one of these.
fn has(all: &[Call], kind: CallKind, column: Option<u32>) -> bool
    ensures { result ≡ outcome.has all.now (outcome.call kind column) }
{
    for call in all {
        if is(*call, kind, column) {
            return true;
        }
    }
    false
}

/// One call more, unless it is there.
#[tactic(auto, using(crate::proofs::CallsInTurn::add_is, crate::proofs::CallsInTurn::there_is))]
fn add(all: &mut Vec<Call>, kind: CallKind, column: Option<u32>) -> Result<(), AllocError>
    ensures { OnOk result (map called all.new.items ≡ spec.with_call (map called all.old.items) (call kind column)) }
{
    if !has(all, kind, column) {
        all.push(Call { kind, column })?;
    }
    Ok(())
}

/// The calls of an expression, each once, behind those that are there.
fn add_calls(expr: &PlanExpr, all: &mut Vec<Call>) -> Result<(), AllocError>
    ensures { OnOk result (map called all.new.items ≡ calls.with_calls (map called all.old.items) (meaning.calls expr.now)) }
{
    match expr {
        PlanExpr::Agg { kind, column } => add(all, *kind, *column)?,
        PlanExpr::Neg(a) => add_calls(a.get(), all)?,
        PlanExpr::Not(a) => add_calls(a.get(), all)?,
        PlanExpr::Add(a, b) => {
            add_calls(a.get(), all)?;
            add_calls(b.get(), all)?;
        }
        PlanExpr::Sub(a, b) => {
            add_calls(a.get(), all)?;
            add_calls(b.get(), all)?;
        }
        PlanExpr::Mul(a, b) => {
            add_calls(a.get(), all)?;
            add_calls(b.get(), all)?;
        }
        PlanExpr::Compare { op: _, a, b } => {
            add_calls(a.get(), all)?;
            add_calls(b.get(), all)?;
        }
        PlanExpr::And(a, b) => {
            add_calls(a.get(), all)?;
            add_calls(b.get(), all)?;
        }
        PlanExpr::Or(a, b) => {
            add_calls(a.get(), all)?;
            add_calls(b.get(), all)?;
        }
        PlanExpr::If { cond, a, b } => {
            add_calls(cond.get(), all)?;
            add_calls(a.get(), all)?;
            add_calls(b.get(), all)?;
        }
        PlanExpr::Num(_) => {}
        PlanExpr::Lit(_) => {}
        PlanExpr::Column(_) => {}
        PlanExpr::GroupColumn(_) => {}
    }
    Ok(())
}

/// The calls of items, each once, in the order in which they first stand.
#[tactic(auto, using(crate::proofs::CallsInTurn::with_both), unfolding(crate::specs::Plan::calls_in))]
fn calls_in(alloc: Global, items: &[PlanExpr]) -> Result<Vec<Call>, AllocError>
    ensures { IfOk result (λ all. map called all.items ≡ spec.calls_in items.now) }
{
    let mut all = Vec::new(alloc);
    for item in items {
        add_calls(item, &mut all)?;
    }
    Ok(all)
}

/// The calls of the plan.
pub(crate) fn calls_of(alloc: Global, plan: &GroupPlan) -> Result<Vec<Call>, AllocError>
    ensures { IfOk result (λ all. map called all.items ≡ (spec.rule_of plan.now).calls) }
{
    let plan = plan.plan();
    match parts_of(plan.nodes(), plan.stored()) {
        Some(parts) => Ok(calls_in(alloc, parts.items)?),
        None => Ok(calls_in(alloc, &[])?),
    }
}

/// Whether the call is kept: the number of members gives COUNT.
pub(crate) fn is_kept(call: Call) -> bool
    ensures { result ≡ rule.is_kept (called call) }
{
    !matches!(call.kind, CallKind::Count)
}

/// The kinds of the calls that are kept.
pub(crate) fn kinds_of(alloc: Global, calls: &[Call]) -> Result<Vec<CallKind>, AllocError>
    ensures { IfOk result (λ ks. ks.items ≡ map (λ c. c.kind) (rule.kept (map called calls.now))) }
{
    let mut kinds = Vec::new(alloc);
    for call in calls {
        if is_kept(*call) {
            kinds.push(call.kind)?;
        }
    }
    Ok(kinds)
}

/// The value of a row at a place, and 0 beyond the last.
fn value_of(alloc: Global, values: &[Value], place: u32) -> Result<Value, AllocError>
    ensures { IfOk result (λ v. v ≡ value_at values.now place) }
{
    match values.get(place as usize) {
        Some(value) => Ok(copy_value(alloc, value)?),
        None => Ok(Value::Long(0)),
    }
}

/// The values at these places.
pub(crate) fn values_at(
    alloc: Global,
    values: &[Value],
    places: &[u32],
) -> Result<Vec<Value>, AllocError>
    ensures { IfOk result (λ vs. vs.items ≡ key_at places.now values.now) }
{
    let mut all = Vec::with_capacity(alloc, places.len())?;
    for place in places {
        all.push(value_of(alloc, values, *place)?)?;
    }
    Ok(all)
}

/// The argument that a call has of a row.
fn argument(alloc: Global, call: Call, values: &[Value]) -> Result<Value, AllocError>
    ensures { IfOk result (λ v. v ≡ rule.argument (called call) values.now) }
{
    match call.column {
        Some(column) => Ok(value_of(alloc, values, column)?),
        None => Ok(Value::Long(0)),
    }
}

/// The arguments of the kept calls.
fn arguments(alloc: Global, calls: &[Call], values: &[Value]) -> Result<Vec<Value>, AllocError>
    ensures { IfOk result (λ vs. vs.items ≡ rule.arguments (rule.kept (map called calls.now)) values.now) }
{
    let mut all = Vec::new(alloc);
    for call in calls {
        if is_kept(*call) {
            all.push(argument(alloc, *call, values)?)?;
        }
    }
    Ok(all)
}

/// What a row of these nodes gives to its group.
fn share_from(
    alloc: Global,
    columns: &[u32],
    calls: &[Call],
    row: &Row,
) -> Result<Share, AllocError>
    ensures { IfOk result (λ s. s ≡ record { by = key_at columns.now row.now; args = rule.arguments (rule.kept (map called calls.now)) row.now }) }
{
    Ok(Share {
        by: Key::new(values_at(alloc, row.values(), columns)?),
        args: Row::new(arguments(alloc, calls, row.values())?),
    })
}

/// What a row gives, if it passes the row chain.
pub(crate) fn share_of(
    alloc: Global,
    plan: &GroupPlan,
    calls: &[Call],
    row: &Row,
) -> Result<Option<Share>, AllocError>
    requires { map called calls.now ≡ (spec.rule_of plan.now).calls }
    ensures { IfOk result (λ s. s ≡ rule.share_of (spec.rule_of plan.now) row.now) }
{
    let plan = plan.plan();
    let Some(parts) = parts_of(plan.nodes(), plan.stored()) else {
        return Ok(None);
    };
    let Some(source) = parts.source else {
        return Ok(None);
    };
    match row_of_chain(alloc, plan.nodes(), source, row)? {
        Some(row) => Ok(Some(share_from(alloc, parts.columns, calls, &row)?)),
        None => Ok(None),
    }
}

/// What a kept call gives: the sum, or the first or the last of the values.
fn item_value<'a>(kind: CallKind, item: &'a Item) -> Datum<'a>
    ensures { datum result ≡ rule.call_value kind item.now }
{
    match item {
        Item::Total(sum) => match kind {
            CallKind::Count => Datum::Long(*sum),
            CallKind::Sum => Datum::Long(*sum),
            CallKind::Min => Datum::Long(0),
            CallKind::Max => Datum::Long(0),
        },
        Item::Counts(numbers) => match kind {
            CallKind::Count => Datum::Long(0),
            CallKind::Sum => Datum::Long(0),
            CallKind::Min => numbers.least(),
            CallKind::Max => numbers.greatest(),
        },
    }
}

/// What a kept call gives, by the first item.
fn first_value<'a>(kind: CallKind, items: &'a [Item]) -> Datum<'a>
    ensures { datum result ≡ rule.call_value kind (rule.first_item items.now) }
{
    match items.split_first() {
        Some((item, _)) => item_value(kind, item),
        None => Datum::Long(0),
    }
}

/// The items behind the first.
fn later_items(items: &[Item]) -> &[Item]
    ensures { result.now ≡ rule.later_items items.now }
{
    match items.split_first() {
        Some((_, others)) => others,
        None => items,
    }
}

/// The number of members, as a number that wraps.
fn count_of(members: u64) -> i64
    ensures { result ≡ wrapped (pos members) }
{
    members.cast_signed()
}

/// What the calls give of a group of so many members with these items.
fn outcomes_of<'a>(
    alloc: Global,
    calls: &[Call],
    members: u64,
    items: &'a [Item],
) -> Result<Vec<Outcome<'a>>, AllocError>
    ensures { IfOk result (λ os. seen os.items ≡ rule.outcomes (map called calls.now) members items.now) }
{
    let mut all = Vec::with_capacity(alloc, calls.len())?;
    let mut left = items;
    for call in calls {
        if is_kept(*call) {
            all.push(Outcome {
                call: *call,
                value: first_value(call.kind, left),
            })?;
            left = later_items(left);
        } else {
            all.push(Outcome {
                call: *call,
                value: Datum::Long(count_of(members)),
            })?;
        }
    }
    Ok(all)
}

/// The row of a group, if one is left.
pub(crate) fn row_of(
    alloc: Global,
    plan: &GroupPlan,
    calls: &[Call],
    by: &Key,
    group: &Group,
) -> Result<Option<Row>, AllocError>
    requires { map called calls.now ≡ (spec.rule_of plan.now).calls }
    ensures { IfOk result (λ r. r ≡ rule.row_from (spec.rule_of plan.now) by.now group.now) }
{
    let outcomes = outcomes_of(alloc, calls, group.members(), group.items())?;
    let plan = plan.plan();
    let row = row_of_group(alloc, plan.nodes(), plan.stored(), by.values(), &outcomes)?;
    Ok(row)
}

/// The place to which an item is a plain reference.
fn place_in(expr: &PlanExpr) -> u32
    ensures { result ≡ spec.place_in (plain expr.now) }
{
    match expr {
        PlanExpr::Column(place) => *place,
        PlanExpr::GroupColumn(place) => *place,
        _ => 0,
    }
}

/// The item at a place.
fn item_at(items: &[PlanExpr], place: u32) -> Option<&PlanExpr>
    ensures { option_map (λ e. e.now) result ≡ slice_get items.now place }
{
    items.get(place as usize)
}

/// The place to which the item at a place is a plain reference.
fn item_place(items: &[PlanExpr], place: u32) -> u32
    ensures { result ≡ spec.item_place items.now place }
{
    match item_at(items, place) {
        Some(expr) => place_in(expr),
        None => 0,
    }
}

/// The BY value that stands at a place of the rows of a node.
fn by_place(nodes: &[Node], node: u32, place: u32) -> u32
    ensures { result ≡ spec.by_place (tree_at (trees nodes.now) node) place }
{
    match node_at(nodes, node) {
        Some(Node::Load { input: _ }) => 0,
        Some(Node::Filter { from, cond: _ }) => {
            if *from >= node {
                return 0;
            }
            by_place(nodes, *from, place)
        }
        Some(Node::Foreach { from, items }) => {
            let at = item_place(items.as_slice(), place);
            if let Some((_, _)) = group_of(nodes, *from) {
                return at;
            }
            if *from >= node {
                return 0;
            }
            by_place(nodes, *from, at)
        }
        Some(
            Node::Group {
                from: _,
                columns: _,
            },
        ) => 0,
        Some(
            Node::Join {
                left: _,
                left_by: _,
                right: _,
                right_by: _,
            },
        ) => 0,
        Some(Node::Union { arms: _ }) => 0,
        Some(Node::Distinct { from: _ }) => 0,
        None => 0,
    }
}

/// For each position of the output key, the BY value that stands there.
pub(crate) fn places_of(alloc: Global, plan: &GroupPlan) -> Result<Vec<u32>, AllocError>
    ensures { IfOk result (λ ps. ps.items ≡ map (spec.by_place (tree_of_plan plan.now)) plan.now.output.key) }
{
    let plan = plan.plan();
    let mut places = Vec::new(alloc);
    for position in plan.output().key() {
        places.push(by_place(plan.nodes(), plan.stored(), *position))?;
    }
    Ok(places)
}
