//! A plan as text, a line a node: a column as `#k`, a BY value as `@k`, each operation in parentheses.
use crate::text::{Done, add, add_line, add_number, add_place, sign};
use nova_admit::{ScriptFault, plan_of_text};
use nova_pig_algebra::{Node, PlanExpr};
use nova_pig_plan::{Channels, Plan};
use nova_pig_tree::{CallKind, Str};
use std::alloc::{AllocError, Global};

fn add_literal(out: &mut Vec<u8>, text: &Str) -> Done {
    add(out, "'")?;
    out.extend_from_slice(text.bytes())?;
    add(out, "'")
}

fn add_call(alloc: Global, out: &mut Vec<u8>, kind: CallKind, column: Option<u32>) -> Done {
    let name = match kind {
        CallKind::Count => "count",
        CallKind::Sum => "sum",
        CallKind::Min => "min",
        CallKind::Max => "max",
    };
    add(out, name)?;
    if let Some(column) = column {
        add(out, " ")?;
        add_place(alloc, out, u64::from(column))?;
    }
    Ok(())
}

fn add_expr(alloc: Global, out: &mut Vec<u8>, expr: &PlanExpr) -> Done {
    match expr {
        PlanExpr::Num(n) => add_number(alloc, out, *n),
        PlanExpr::Lit(text) => add_literal(out, text),
        PlanExpr::Column(k) => {
            add(out, "#")?;
            add_place(alloc, out, u64::from(*k))
        }
        PlanExpr::GroupColumn(k) => {
            add(out, "@")?;
            add_place(alloc, out, u64::from(*k))
        }
        PlanExpr::Agg { kind, column } => add_call(alloc, out, *kind, *column),
        PlanExpr::Add(a, b) => {
            add(out, "(")?;
            add_expr(alloc, out, a.get())?;
            add(out, " + ")?;
            add_expr(alloc, out, b.get())?;
            add(out, ")")
        }
        PlanExpr::Sub(a, b) => {
            add(out, "(")?;
            add_expr(alloc, out, a.get())?;
            add(out, " - ")?;
            add_expr(alloc, out, b.get())?;
            add(out, ")")
        }
        PlanExpr::Mul(a, b) => {
            add(out, "(")?;
            add_expr(alloc, out, a.get())?;
            add(out, " * ")?;
            add_expr(alloc, out, b.get())?;
            add(out, ")")
        }
        PlanExpr::And(a, b) => {
            add(out, "(")?;
            add_expr(alloc, out, a.get())?;
            add(out, " and ")?;
            add_expr(alloc, out, b.get())?;
            add(out, ")")
        }
        PlanExpr::Or(a, b) => {
            add(out, "(")?;
            add_expr(alloc, out, a.get())?;
            add(out, " or ")?;
            add_expr(alloc, out, b.get())?;
            add(out, ")")
        }
        PlanExpr::Compare { op, a, b } => {
            add(out, "(")?;
            add_expr(alloc, out, a.get())?;
            add(out, sign(*op))?;
            add_expr(alloc, out, b.get())?;
            add(out, ")")
        }
        PlanExpr::Neg(a) => {
            add(out, "(neg ")?;
            add_expr(alloc, out, a.get())?;
            add(out, ")")
        }
        PlanExpr::Not(a) => {
            add(out, "(not ")?;
            add_expr(alloc, out, a.get())?;
            add(out, ")")
        }
        PlanExpr::If { cond, a, b } => {
            add(out, "(")?;
            add_expr(alloc, out, cond.get())?;
            add(out, " ? ")?;
            add_expr(alloc, out, a.get())?;
            add(out, " : ")?;
            add_expr(alloc, out, b.get())?;
            add(out, ")")
        }
    }
}

fn add_places(alloc: Global, out: &mut Vec<u8>, places: &[u32]) -> Done {
    for place in places {
        add(out, " ")?;
        add_place(alloc, out, u64::from(*place))?;
    }
    Ok(())
}

fn add_from(alloc: Global, out: &mut Vec<u8>, word: &str, node: u32) -> Done {
    add(out, word)?;
    add_place(alloc, out, u64::from(node))
}

fn add_items(alloc: Global, out: &mut Vec<u8>, items: &[PlanExpr]) -> Done {
    for item in items {
        add(out, ", ")?;
        add_expr(alloc, out, item)?;
    }
    Ok(())
}

fn add_node(alloc: Global, out: &mut Vec<u8>, node: &Node) -> Done {
    match node {
        Node::Load { input } => add_from(alloc, out, "load ", *input),
        Node::Filter { from, cond } => {
            add_from(alloc, out, "filter ", *from)?;
            add(out, " ")?;
            add_expr(alloc, out, cond)
        }
        Node::Foreach { from, items } => {
            add_from(alloc, out, "foreach ", *from)?;
            add_items(alloc, out, items.as_slice())
        }
        Node::Group { from, columns } => {
            add_from(alloc, out, "group ", *from)?;
            add_places(alloc, out, columns.as_slice())
        }
        Node::Join {
            left,
            left_by,
            right,
            right_by,
        } => {
            add_from(alloc, out, "join ", *left)?;
            add_places(alloc, out, left_by.as_slice())?;
            add_from(alloc, out, ", ", *right)?;
            add_places(alloc, out, right_by.as_slice())
        }
        Node::Union { arms } => {
            add(out, "union")?;
            add_places(alloc, out, arms.as_slice())
        }
        Node::Distinct { from } => add_from(alloc, out, "distinct ", *from),
    }
}

fn add_key(alloc: Global, out: &mut Vec<u8>, plan: &Plan) -> Done {
    match plan.key() {
        Some(key) => {
            add(out, "key")?;
            add_places(alloc, out, key)
        }
        None => add(out, "no key"),
    }
}

fn add_plan(alloc: Global, out: &mut Vec<u8>, plan: &Plan) -> Done {
    for node in plan.nodes() {
        add_node(alloc, out, node)?;
        add(out, "\n")?;
    }
    add_from(alloc, out, "store ", plan.stored())?;
    add(out, "\n")?;
    add_key(alloc, out, plan)?;
    add(out, "\n")
}

/// The plan of the text over the channels, or the first fault.
pub fn show(alloc: Global, text: &str, channels: &Channels) -> Result<Vec<u8>, AllocError> {
    let mut out = Vec::new(alloc);
    match plan_of_text(alloc, text, channels) {
        Ok(plan) => add_plan(alloc, &mut out, &plan)?,
        Err(ScriptFault::Plan(fault)) => add_line(alloc, &mut out, fault)?,
        Err(ScriptFault::Parse(fault)) => add_line(alloc, &mut out, fault)?,
    }
    Ok(out)
}
