//! Nodes of a plan, and their expressions.

use nova_pig_tree::{CallKind, CompareOp};
use nova_value::{Kind, Str};
use sqlite_items::{Boxed, Items};

/// What an expression gives: a value of a kind, or a condition.
#[derive(Clone, Copy, Debug, PartialEq, Eq)]
pub enum Sort {
    Of(Kind),
    Condition,
}

/// An expression of a plan. Columns count from 0, those of a group in the order of its BY list.
#[derive(Drop)]
pub enum PlanExpr {
    /// A number.
    Num(i64),
    /// A text.
    Lit(Str),
    /// A column of a row.
    Column(u32),
    /// A BY value of a group.
    GroupColumn(u32),
    /// A call over the members of a group, of a column of theirs; only a COUNT may have none.
    Agg {
        kind: CallKind,
        column: Option<u32>,
    },
    Neg(Boxed<PlanExpr>),
    Add(Boxed<PlanExpr>, Boxed<PlanExpr>),
    Sub(Boxed<PlanExpr>, Boxed<PlanExpr>),
    Mul(Boxed<PlanExpr>, Boxed<PlanExpr>),
    Compare {
        op: CompareOp,
        a: Boxed<PlanExpr>,
        b: Boxed<PlanExpr>,
    },
    And(Boxed<PlanExpr>, Boxed<PlanExpr>),
    Or(Boxed<PlanExpr>, Boxed<PlanExpr>),
    Not(Boxed<PlanExpr>),
    /// `(cond ? a : b)`.
    If {
        cond: Boxed<PlanExpr>,
        a: Boxed<PlanExpr>,
        b: Boxed<PlanExpr>,
    },
}

/// A node of a plan. A `from`, `left`, `right` or arm is the number of an earlier node; a column
/// is one of the rows of the node that is named beside it.
#[derive(Drop)]
pub enum Node {
    /// The rows of an input, by its number among the inputs.
    Load {
        input: u32,
    },
    /// The rows for which the condition holds.
    Filter {
        from: u32,
        cond: PlanExpr,
    },
    /// A row for each row, or for each group where `from` is a GROUP.
    Foreach {
        from: u32,
        items: Items<PlanExpr>,
    },
    /// The rows by their distinct lists of values at the columns.
    Group {
        from: u32,
        columns: Items<u32>,
    },
    /// The pairs of rows with equal BY values.
    Join {
        left: u32,
        left_by: Items<u32>,
        right: u32,
        right_by: Items<u32>,
    },
    /// The rows of all arms.
    Union {
        arms: Items<u32>,
    },
    /// Each row once.
    Distinct {
        from: u32,
    },
}
