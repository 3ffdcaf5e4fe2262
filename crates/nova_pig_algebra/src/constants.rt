//! Constant columns.
ghost use Rattle.std.specs.Prelude.{◌≡◌, ◌++◌, IfOk, OnOk, map};
ghost use Rattle.nova_pig_algebra.specs.declared.node.PlanExpr.TheViews.{out-PlanExpr};
ghost use Rattle.nova_pig_algebra.specs.Keys as spec;

use crate::facts::Constant;
use crate::node::PlanExpr;
use sqlite_items::Items;
use std::alloc::{AllocError, Global};

/// The same constant, where the column has one.
fn again<'a>(constant: &Option<Constant<'a>>) -> Option<Constant<'a>>
    ensures { result ≡ constant.now }
{
    match constant {
        Some(value) => Some(value.again()),
        None => None,
    }
}

/// What the column has in every row.
pub(crate) fn constant_at<'a>(
    constants: &[Option<Constant<'a>>],
    column: usize,
) -> Option<Constant<'a>>
    ensures { result ≡ spec.constant_at constants.now column }
{
    if column < constants.len() {
        again(&constants[column])
    } else {
        None
    }
}

/// Columns of which none is constant.
#[tactic(auto, using(crate::proofs::Steps::unknowns_more))]
pub(crate) fn unknowns<'a>(
    alloc: Global,
    count: usize,
) -> Result<Items<Option<Constant<'a>>>, AllocError>
    ensures { IfOk result (λ os. os ≡ spec.unknowns count) }
{
    let mut out = Items::new(alloc);
    for at in 0..count {
        out.push(None)?;
    }
    Ok(out)
}

/// Adds the constants after what is there.
pub(crate) fn push_constants<'a>(
    out: &mut Items<Option<Constant<'a>>>,
    constants: &[Option<Constant<'a>>],
) -> Result<(), AllocError>
    ensures { OnOk result (out.new ≡ out.old ++ constants.now) }
{
    for constant in constants {
        out.push(again(constant))?;
    }
    Ok(())
}

/// The same constants.
pub(crate) fn copy_constants<'a>(
    alloc: Global,
    constants: &[Option<Constant<'a>>],
) -> Result<Items<Option<Constant<'a>>>, AllocError>
    ensures { IfOk result (λ os. os ≡ constants.now) }
{
    let mut out = Items::new(alloc);
    push_constants(&mut out, constants)?;
    Ok(out)
}

/// What an item has in every row: a number or a literal, or the constant that it refers to.
fn item_constant<'a>(constants: &[Option<Constant<'a>>], item: &'a PlanExpr) -> Option<Constant<'a>>
    ensures { result ≡ spec.item_constant constants.now (spec.plain_step (out-PlanExpr item.now)) }
{
    match item {
        PlanExpr::Column(column) => constant_at(constants, *column as usize),
        PlanExpr::Num(n) => Some(Constant::long(*n)),
        PlanExpr::Lit(text) => Some(Constant::text(text)),
        _ => None,
    }
}

/// The constants of the columns that items make.
pub(crate) fn item_constants<'a>(
    alloc: Global,
    constants: &[Option<Constant<'a>>],
    items: &'a [PlanExpr],
) -> Result<Items<Option<Constant<'a>>>, AllocError>
    ensures { IfOk result (λ os. os ≡ spec.item_constants constants.now items.now) }
{
    let mut out = Items::new(alloc);
    for item in items {
        out.push(item_constant(constants, item))?;
    }
    Ok(out)
}
