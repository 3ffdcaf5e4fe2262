//! Expressions of a script.

use nova_value::Str;
use sqlite_items::Boxed;

/// What a call counts or gathers over the rows of a group.
#[derive(Clone, Copy, Debug, PartialEq, Eq)]
pub enum CallKind {
    Count,
    Sum,
    Min,
    Max,
}

/// A comparison of two values: `==`, `!=`, `<`, `<=`, `>`, `>=`.
#[derive(Clone, Copy, Debug, PartialEq, Eq)]
pub enum CompareOp {
    Eq,
    Ne,
    Lt,
    Le,
    Gt,
    Ge,
}

/// A reference to a column.
#[derive(Debug, Drop)]
pub enum Field {
    /// `f`; the field `group` is `Plain` too.
    Plain(Str),
    /// `A::f`, the alias first; `group::f` is `Of` too.
    Of(Str, Str),
    /// `group.f`, with the name `f`.
    GroupOf(Str),
    /// `$n`, counted from 0.
    At(u64),
}

/// An expression. Parentheses leave no trace in it; `OR`, `AND`, sums and products group to the
/// left.
#[derive(Drop)]
pub enum Expr {
    /// A number.
    Num(i64),
    /// The text of a literal, after its escapes.
    Lit(Str),
    /// A column.
    Ref(Field),
    /// `COUNT(alias)` or `SUM(alias.field)`.
    Call {
        kind: CallKind,
        alias: Str,
        field: Option<Field>,
    },
    Neg(Boxed<Expr>),
    Add(Boxed<Expr>, Boxed<Expr>),
    Sub(Boxed<Expr>, Boxed<Expr>),
    Mul(Boxed<Expr>, Boxed<Expr>),
    Compare {
        op: CompareOp,
        a: Boxed<Expr>,
        b: Boxed<Expr>,
    },
    And(Boxed<Expr>, Boxed<Expr>),
    Or(Boxed<Expr>, Boxed<Expr>),
    Not(Boxed<Expr>),
    /// `(cond ? a : b)`.
    If {
        cond: Boxed<Expr>,
        a: Boxed<Expr>,
        b: Boxed<Expr>,
    },
}
