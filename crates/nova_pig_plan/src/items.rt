//! The items of a FOREACH.
ghost use Rattle.std.specs.Prelude.{◌≡◌, true, Ok, Some, None};
ghost use Rattle.nova_pig_algebra.specs.Literals.{has_values};
ghost use Rattle.nova_pig_plan.specs.Answers.{AnswersAs, AnswersBy};
ghost use Rattle.nova_pig_tree.specs.declared.expression.Expr.TheViews.{out-Expr};
ghost use Rattle.nova_pig_plan.specs.Items as spec;
ghost use Rattle.nova_pig_plan.specs.Kept as kept;

use crate::columns::field_of;
use crate::exprs::{check, expr_of};
use crate::fault::{Cause, Stop};
use crate::scope::{Made, Scope, ScopeColumn, Text};
use crate::valued::ValuedExprs;
use nova_pig_algebra::{PlanExpr, Sort, narrow};
use nova_pig_tree::{Expr, Field, Item};
use nova_value::{Kind, Str};
use sqlite_items::Items;
use std::alloc::Global;

/// The same text, where there is one.
pub(crate) fn text_again<'a>(text: &Option<Text<'a>>) -> Option<Text<'a>>
    ensures { result ≡ text.now }
{
    match text {
        Some(text) => Some(text.again()),
        None => None,
    }
}

/// The same column.
pub(crate) fn column_again<'a>(column: &ScopeColumn<'a>) -> ScopeColumn<'a>
    ensures { result ≡ column.now }
{
    ScopeColumn {
        kind: column.kind,
        name: text_again(&column.name),
        origin: text_again(&column.origin),
    }
}

/// Whether both are one kind.
pub(crate) fn same_kind(a: Kind, b: Kind) -> bool
    ensures { result ≡ spec.same_kind a b }
{
    match a {
        Kind::Long => match b {
            Kind::Long => true,
            Kind::Text => false,
        },
        Kind::Text => match b {
            Kind::Long => false,
            Kind::Text => true,
        },
    }
}

/// A label without origin.
fn label<'a>(kind: Kind, name: &'a [u8]) -> ScopeColumn<'a>
    ensures { result ≡ spec.column_with kind (Some name.now) None }
{
    ScopeColumn {
        kind,
        name: Some(Text::new(name)),
        origin: None,
    }
}

/// A label without name and origin.
fn unnamed<'a>() -> ScopeColumn<'a>
    ensures { result ≡ spec.unnamed }
{
    ScopeColumn {
        kind: Kind::Long,
        name: None,
        origin: None,
    }
}

/// The column at a place.
pub(crate) fn column_at<'a>(columns: &[ScopeColumn<'a>], at: u32) -> ScopeColumn<'a>
    ensures { result ≡ spec.column_at columns.now at }
{
    if (at as usize) < columns.len() {
        column_again(&columns[at as usize])
    } else {
        unnamed()
    }
}

/// How an item that is a field alone is named.
fn field_label<'a>(scope: &Scope<'a>, field: &'a Field) -> Result<ScopeColumn<'a>, Stop>
    ensures { AnswersAs result (Ok (spec.field_label scope.now field.now)) }
{
    match scope {
        Scope::Rows { columns } => {
            let columns = columns.as_slice();
            match field_of(columns, field) {
                Ok(at) => Ok(column_at(columns, at)),
                Err(Stop::Fault(_)) => Ok(unnamed()),
                Err(Stop::NoMemory) => Err(Stop::NoMemory),
            }
        }
        Scope::Group {
            bag: _,
            by: _,
            columns: _,
        } => match field {
            Field::GroupOf(name) => Ok(label(Kind::Long, name.bytes())),
            Field::Plain(_) => Ok(label(Kind::Long, b"group")),
            Field::Of(..) => Ok(label(Kind::Long, b"group")),
            Field::At(_) => Ok(label(Kind::Long, b"group")),
        },
    }
}

/// How an item without AS is named.
fn expr_label<'a>(scope: &Scope<'a>, expr: &'a Expr) -> Result<ScopeColumn<'a>, Stop>
    ensures { AnswersAs result (Ok (spec.layer_label scope.now (out-Expr expr.now))) }
{
    match expr {
        Expr::Ref(field) => field_label(scope, field),
        _ => Ok(unnamed()),
    }
}

/// How an item is named.
fn item_label<'a>(
    scope: &Scope<'a>,
    name: &'a Option<Str>,
    expr: &'a Expr,
) -> Result<ScopeColumn<'a>, Stop>
    ensures { AnswersAs result (Ok (spec.item_label scope.now name.now expr.now)) }
{
    match name {
        Some(name) => Ok(label(Kind::Long, name.bytes())),
        None => expr_label(scope, expr),
    }
}

/// The kind of an item: it is a value, and of the kind after AS.
fn value_kind(sort: Sort, kind: Option<Kind>) -> Result<Kind, Stop>
    ensures { AnswersAs result (spec.value_kind sort kind) }
{
    match sort {
        Sort::Condition => Err(Stop::Fault(Cause::WrongType)),
        Sort::Of(own) => match kind {
            None => Ok(own),
            Some(kind) => {
                check(same_kind(own, kind))?;
                Ok(own)
            }
        },
    }
}

/// Whether there are more columns than an alias may have.
fn is_wide(made: &Made<'_>) -> bool
    ensures { result ≡ kept.is_wide made.now }
{
    made.columns.len() > 64
}

/// One item more. Past the first column too many none is kept.
fn add<'a>(made: &mut Made<'a>, expr: PlanExpr, column: ScopeColumn<'a>) -> Result<(), Stop>
    requires { has_values expr ≡ true }
    ensures { AnswersBy (λ _. made.new) result (Ok (kept.with_item made.old expr column.entry)) }
{
    if is_wide(made) {
        return Ok(());
    }
    made.exprs.push(expr)?;
    made.columns.push(column)?;
    Ok(())
}

/// `*`: each column.
#[tactic(auto, using(crate::proofs::Literals::col))]
fn add_all<'a>(made: &mut Made<'a>, columns: &[ScopeColumn<'a>]) -> Result<(), Stop>
    ensures { AnswersBy (λ _. made.new) result (Ok (kept.with_all 0 made.old columns.now)) }
{
    for (at, column) in columns.iter().enumerate() {
        if is_wide(made) {
            return Ok(());
        }
        let place = narrow(at)?;
        add(made, PlanExpr::Column(place), column_again(column))?;
    }
    Ok(())
}

/// The BY columns, with the origin `group`.
#[tactic(auto, using(crate::proofs::Literals::group_col))]
fn add_flat<'a>(made: &mut Made<'a>, by: &[ScopeColumn<'a>]) -> Result<(), Stop>
    ensures { AnswersBy (λ _. made.new) result (Ok (kept.with_flat 0 made.old by.now)) }
{
    for (at, column) in by.iter().enumerate() {
        if is_wide(made) {
            return Ok(());
        }
        let place = narrow(at)?;
        add(
            made,
            PlanExpr::GroupColumn(place),
            ScopeColumn {
                kind: column.kind,
                name: text_again(&column.name),
                origin: Some(Text::new(b"group")),
            },
        )?;
    }
    Ok(())
}

/// `FLATTEN(group)`.
#[tactic(auto, using(crate::proofs::Literals::group_col))]
fn flatten<'a>(made: &mut Made<'a>, by: &[ScopeColumn<'a>]) -> Result<(), Stop>
    ensures { AnswersBy (λ _. made.new) result (Ok (kept.flattened made.old by.now)) }
{
    match by {
        [column] => add(made, PlanExpr::GroupColumn(0), label(column.kind, b"group")),
        _ => add_flat(made, by),
    }
}

/// An expression as an item.
fn add_value<'a>(
    alloc: Global,
    scope: &Scope<'a>,
    made: &mut Made<'a>,
    expr: &'a Expr,
    name: &'a Option<Str>,
    kind: Option<Kind>,
) -> Result<(), Stop>
    ensures { AnswersBy (λ _. made.new) result (kept.value_of scope.now made.old expr.now name.now kind) }
{
    let typed = expr_of(expr, alloc, scope)?;
    let kind = value_kind(typed.sort, kind)?;
    let label = item_label(scope, name, expr)?;
    add(
        made,
        typed.expr.into_boxed().into_inner(),
        ScopeColumn {
            kind,
            name: label.name,
            origin: label.origin,
        },
    )
}

/// One item of a FOREACH.
fn add_item<'a>(
    alloc: Global,
    scope: &Scope<'a>,
    made: &mut Made<'a>,
    item: &'a Item,
) -> Result<(), Stop>
    ensures { AnswersBy (λ _. made.new) result (kept.item_of scope.now made.old item.now) }
{
    match item {
        Item::All => match scope {
            Scope::Rows { columns } => add_all(made, columns.as_slice()),
            Scope::Group {
                bag: _,
                by: _,
                columns: _,
            } => Err(Stop::Fault(Cause::BagMisused)),
        },
        Item::Flatten => match scope {
            Scope::Rows { columns: _ } => Err(Stop::Fault(Cause::BagMisused)),
            Scope::Group {
                bag: _,
                by,
                columns: _,
            } => flatten(made, by.as_slice()),
        },
        Item::Value { expr, name, kind } => add_value(alloc, scope, made, expr, name, *kind),
    }
}

/// The items of a FOREACH, from left to right, or the first fault. All are looked at; of more
/// columns than an alias may have, one too many is kept.
pub(crate) fn items_of<'a>(
    alloc: Global,
    scope: &Scope<'a>,
    items: &'a [Item],
) -> Result<Made<'a>, Stop>
    ensures { AnswersAs result (kept.items_of scope.now spec.nothing items.now) }
{
    let mut made = Made {
        exprs: ValuedExprs::new(alloc),
        columns: Items::new(alloc),
    };
    for item in items {
        add_item(alloc, scope, &mut made, item)?;
    }
    Ok(made)
}
