//! What expressions are in a plan, and what they give.
ghost use Rattle.std.specs.Prelude.{◌≡◌, true, Ok, Err};
ghost use Rattle.nova_pig_algebra.specs.Literals.{has_values};
ghost use Rattle.nova_pig_plan.specs.Answers.{AnswersAs, if_not};
ghost use Rattle.nova_pig_plan.specs.declared.fault.Cause.TheVariants as fault;
ghost use Rattle.nova_pig_plan.specs.Exprs as spec;
ghost use Rattle.nova_value.specs.declared.value.Kind.TheVariants.{Text};
ghost use Rattle.nova_pig_algebra.specs.declared.node.PlanExpr.TheVariants as p;
ghost use Rattle.nova_pig_algebra.specs.declared.node.Sort.TheVariants.{Of};

use crate::columns::{field_of, kind_at, place_named, same_text};
use crate::fault::{Cause, Stop};
use crate::scope::{Scope, ScopeColumn, Typed};
use crate::valued::{ValuedExpr, number_is_long, text_is_value};
use nova_pig_algebra::{PlanExpr, Sort, narrow};
use nova_pig_tree::{CallKind, Expr, Field, Str};
use nova_value::Kind;
use std::alloc::Global;

/// Whether it is a long.
fn is_long(sort: Sort) -> bool
    ensures { result ≡ spec.is_long sort }
{
    match sort {
        Sort::Of(Kind::Long) => true,
        Sort::Of(Kind::Text) => false,
        Sort::Condition => false,
    }
}

/// Whether it is a condition.
pub(crate) fn is_condition(sort: Sort) -> bool
    ensures { result ≡ spec.is_condition sort }
{
    match sort {
        Sort::Of(_) => false,
        Sort::Condition => true,
    }
}

/// Whether both are values of one kind.
fn are_alike(a: Sort, b: Sort) -> bool
    ensures { result ≡ spec.are_alike a b }
{
    match a {
        Sort::Of(Kind::Long) => match b {
            Sort::Of(Kind::Long) => true,
            Sort::Of(Kind::Text) => false,
            Sort::Condition => false,
        },
        Sort::Of(Kind::Text) => match b {
            Sort::Of(Kind::Long) => false,
            Sort::Of(Kind::Text) => true,
            Sort::Condition => false,
        },
        Sort::Condition => false,
    }
}

/// An expression with what it gives.
fn typed(alloc: Global, expr: PlanExpr, sort: Sort) -> Result<Typed, Stop>
    requires { has_values expr ≡ true }
    ensures { AnswersAs result (Ok (spec.typed expr sort)) }
{
    let expr = ValuedExpr::new(alloc, expr)?;
    Ok(Typed { expr, sort })
}

/// A number.
#[tactic(auto, using(crate::proofs::Literals::num))]
fn number(alloc: Global, n: i64) -> Result<Typed, Stop>
    ensures { AnswersAs result (Ok (spec.typed (p.Num n) spec.long)) }
{
    number_is_long(n);
    typed(alloc, PlanExpr::Num(n), Sort::Of(Kind::Long))
}

/// The text of a literal.
#[tactic(auto, using(crate::proofs::Literals::lit))]
fn literal(alloc: Global, text: &Str) -> Result<Typed, Stop>
    ensures { AnswersAs result (Ok (spec.typed (p.Lit text.now) (Of Text))) }
{
    let text = text.copy(alloc)?;
    text_is_value(&text);
    typed(alloc, PlanExpr::Lit(text), Sort::Of(Kind::Text))
}

/// The rules for kinds: WrongType where one is broken.
pub(crate) fn check(holds: bool) -> Result<(), Stop>
    ensures { AnswersAs result (if_not fault.WrongType holds tt) }
{
    if holds {
        Ok(())
    } else {
        Err(Stop::Fault(Cause::WrongType))
    }
}

/// `group` alone, which is a value where there is one BY column.
#[tactic(auto, using(crate::proofs::Literals::group_col))]
fn whole_group(alloc: Global, by: &[ScopeColumn<'_>]) -> Result<Typed, Stop>
    ensures { AnswersAs result (spec.whole_group by.now) }
{
    match by {
        [column] => typed(alloc, PlanExpr::GroupColumn(0), Sort::Of(column.kind)),
        _ => Err(Stop::Fault(Cause::WrongType)),
    }
}

/// A reference over a group and outside a call.
#[tactic(auto, using(crate::proofs::Literals::group_col))]
fn group_field(
    alloc: Global,
    bag: &[u8],
    by: &[ScopeColumn<'_>],
    field: &Field,
) -> Result<Typed, Stop>
    ensures { AnswersAs result (spec.group_field bag.now by.now field.now) }
{
    match field {
        Field::Plain(name) => {
            if same_text(name.bytes(), b"group") {
                whole_group(alloc, by)
            } else if same_text(name.bytes(), bag) {
                Err(Stop::Fault(Cause::BagMisused))
            } else {
                Err(Stop::Fault(Cause::UnknownField))
            }
        }
        Field::Of(..) => Err(Stop::Fault(Cause::UnknownField)),
        Field::GroupOf(name) => {
            let at = narrow(place_named(by, name.bytes())?)?;
            typed(alloc, PlanExpr::GroupColumn(at), Sort::Of(kind_at(by, at)))
        }
        Field::At(n) => match *n {
            0 => whole_group(alloc, by),
            1 => Err(Stop::Fault(Cause::BagMisused)),
            _ => Err(Stop::Fault(Cause::UnknownField)),
        },
    }
}

/// A reference outside a call.
#[tactic(auto, using(crate::proofs::Literals::col))]
fn ref_of(alloc: Global, scope: &Scope<'_>, field: &Field) -> Result<Typed, Stop>
    ensures { AnswersAs result (spec.ref_of scope.now field.now) }
{
    match scope {
        Scope::Rows { columns } => {
            let columns = columns.as_slice();
            let at = field_of(columns, field)?;
            typed(alloc, PlanExpr::Column(at), Sort::Of(kind_at(columns, at)))
        }
        Scope::Group {
            bag,
            by,
            columns: _,
        } => group_field(alloc, bag.bytes(), by.as_slice(), field),
    }
}

/// A call of the plan.
#[tactic(auto, using(crate::proofs::Literals::agg))]
fn agg(alloc: Global, kind: CallKind, column: Option<u32>, sort: Sort) -> Result<Typed, Stop>
    ensures { AnswersAs result (Ok (spec.typed (p.Agg kind column) sort)) }
{
    typed(alloc, PlanExpr::Agg { kind, column }, sort)
}

/// A call of a column: SUM of longs alone.
fn column_call(alloc: Global, call: CallKind, kind: Kind, at: u32) -> Result<Typed, Stop>
    ensures { AnswersAs result (spec.column_call call kind at) }
{
    match call {
        CallKind::Count => agg(alloc, CallKind::Count, Some(at), Sort::Of(Kind::Long)),
        CallKind::Sum => match kind {
            Kind::Long => agg(alloc, CallKind::Sum, Some(at), Sort::Of(Kind::Long)),
            Kind::Text => Err(Stop::Fault(Cause::WrongType)),
        },
        CallKind::Min => agg(alloc, CallKind::Min, Some(at), Sort::Of(kind)),
        CallKind::Max => agg(alloc, CallKind::Max, Some(at), Sort::Of(kind)),
    }
}

/// A call of the bag: COUNT alone.
fn bag_call(alloc: Global, call: CallKind) -> Result<Typed, Stop>
    ensures { AnswersAs result (spec.bag_call call) }
{
    match call {
        CallKind::Count => agg(alloc, CallKind::Count, None, Sort::Of(Kind::Long)),
        CallKind::Sum => Err(Stop::Fault(Cause::WrongType)),
        CallKind::Min => Err(Stop::Fault(Cause::WrongType)),
        CallKind::Max => Err(Stop::Fault(Cause::WrongType)),
    }
}

/// A call over the bag of the scope.
fn call_field(
    alloc: Global,
    columns: &[ScopeColumn<'_>],
    call: CallKind,
    field: &Option<Field>,
) -> Result<Typed, Stop>
    ensures { AnswersAs result (spec.call_field columns.now call field.now) }
{
    match field {
        None => bag_call(alloc, call),
        Some(field) => {
            let at = field_of(columns, field)?;
            column_call(alloc, call, kind_at(columns, at), at)
        }
    }
}

/// A call: BagMisused where its name isn't the bag's, then its field, then its kind.
fn call_of(
    alloc: Global,
    scope: &Scope<'_>,
    call: CallKind,
    alias: &[u8],
    field: &Option<Field>,
) -> Result<Typed, Stop>
    ensures { AnswersAs result (spec.call_of scope.now call alias.now field.now) }
{
    match scope {
        Scope::Rows { columns: _ } => Err(Stop::Fault(Cause::BagMisused)),
        Scope::Group {
            bag,
            by: _,
            columns,
        } => {
            if same_text(alias, bag.bytes()) {
                call_field(alloc, columns.as_slice(), call, field)
            } else {
                Err(Stop::Fault(Cause::BagMisused))
            }
        }
    }
}

/// The expression of the plan, or the first fault: its parts from left to right, then itself.
#[tactic(auto, using(crate::proofs::Literals::neg, crate::proofs::Literals::negated, crate::proofs::Literals::add, crate::proofs::Literals::sub, crate::proofs::Literals::mul, crate::proofs::Literals::compare, crate::proofs::Literals::and, crate::proofs::Literals::or, crate::proofs::Literals::choice))]
pub fn expr_of(expr: &Expr, alloc: Global, scope: &Scope<'_>) -> Result<Typed, Stop>
    ensures { AnswersAs result (spec.expr_of scope.now expr.now) }
{
    match expr {
        Expr::Num(n) => number(alloc, *n),
        Expr::Lit(text) => literal(alloc, text),
        Expr::Ref(field) => ref_of(alloc, scope, field),
        Expr::Call { kind, alias, field } => call_of(alloc, scope, *kind, alias.bytes(), field),
        Expr::Neg(a) => {
            let a = expr_of(a.get(), alloc, scope)?;
            check(is_long(a.sort))?;
            typed(
                alloc,
                PlanExpr::Neg(a.expr.into_boxed()),
                Sort::Of(Kind::Long),
            )
        }
        Expr::Add(a, b) => {
            let a = expr_of(a.get(), alloc, scope)?;
            let b = expr_of(b.get(), alloc, scope)?;
            check(is_long(a.sort) && is_long(b.sort))?;
            typed(
                alloc,
                PlanExpr::Add(a.expr.into_boxed(), b.expr.into_boxed()),
                Sort::Of(Kind::Long),
            )
        }
        Expr::Sub(a, b) => {
            let a = expr_of(a.get(), alloc, scope)?;
            let b = expr_of(b.get(), alloc, scope)?;
            check(is_long(a.sort) && is_long(b.sort))?;
            typed(
                alloc,
                PlanExpr::Sub(a.expr.into_boxed(), b.expr.into_boxed()),
                Sort::Of(Kind::Long),
            )
        }
        Expr::Mul(a, b) => {
            let a = expr_of(a.get(), alloc, scope)?;
            let b = expr_of(b.get(), alloc, scope)?;
            check(is_long(a.sort) && is_long(b.sort))?;
            typed(
                alloc,
                PlanExpr::Mul(a.expr.into_boxed(), b.expr.into_boxed()),
                Sort::Of(Kind::Long),
            )
        }
        Expr::Compare { op, a, b } => {
            let a = expr_of(a.get(), alloc, scope)?;
            let b = expr_of(b.get(), alloc, scope)?;
            check(are_alike(a.sort, b.sort))?;
            typed(
                alloc,
                PlanExpr::Compare {
                    op: *op,
                    a: a.expr.into_boxed(),
                    b: b.expr.into_boxed(),
                },
                Sort::Condition,
            )
        }
        Expr::And(a, b) => {
            let a = expr_of(a.get(), alloc, scope)?;
            let b = expr_of(b.get(), alloc, scope)?;
            check(is_condition(a.sort) && is_condition(b.sort))?;
            typed(
                alloc,
                PlanExpr::And(a.expr.into_boxed(), b.expr.into_boxed()),
                Sort::Condition,
            )
        }
        Expr::Or(a, b) => {
            let a = expr_of(a.get(), alloc, scope)?;
            let b = expr_of(b.get(), alloc, scope)?;
            check(is_condition(a.sort) && is_condition(b.sort))?;
            typed(
                alloc,
                PlanExpr::Or(a.expr.into_boxed(), b.expr.into_boxed()),
                Sort::Condition,
            )
        }
        Expr::Not(a) => {
            let a = expr_of(a.get(), alloc, scope)?;
            check(is_condition(a.sort))?;
            typed(alloc, PlanExpr::Not(a.expr.into_boxed()), Sort::Condition)
        }
        Expr::If { cond, a, b } => {
            let cond = expr_of(cond.get(), alloc, scope)?;
            let a = expr_of(a.get(), alloc, scope)?;
            let b = expr_of(b.get(), alloc, scope)?;
            check(is_condition(cond.sort) && are_alike(a.sort, b.sort))?;
            typed(
                alloc,
                PlanExpr::If {
                    cond: cond.expr.into_boxed(),
                    a: a.expr.into_boxed(),
                    b: b.expr.into_boxed(),
                },
                a.sort,
            )
        }
    }
}
