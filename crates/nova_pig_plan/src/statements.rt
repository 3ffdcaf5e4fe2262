//! What statements define.
ghost use Rattle.std.specs.Prelude.{◌≡◌, [], IfOk};
ghost use Rattle.nova_pig_plan.specs.Answers.{AnswersAs, AnswersBy};
ghost use Rattle.nova_pig_plan.specs.Kept as kept;
ghost use Rattle.nova_pig_plan.specs.Plans as spec;

use crate::aliases::Aliases;
use crate::columns::field_of;
use crate::exprs::{check, expr_of, is_condition};
use crate::fault::{Cause, Stop};
use crate::items::{column_again, column_at, items_of};
use crate::scope::{Defined, Scope, ScopeColumn, Text};
use crate::valued::ValuedNode;
use nova_pig_algebra::Node;
use nova_pig_tree::{Expr, Field, Item};
use sqlite_items::Items;
use std::alloc::{AllocError, Global};

/// The fault, where the test fails.
pub(crate) fn test(cause: Cause, holds: bool) -> Result<(), Stop>
    ensures { AnswersAs result (spec.test cause holds) }
{
    if holds {
        Ok(())
    } else {
        Err(Stop::Fault(cause))
    }
}

/// The number and the scope of an alias, or UnknownAlias.
pub(crate) fn known<'s, 'a>(
    done: &'s Aliases<'a>,
    name: &[u8],
) -> Result<(u32, &'s Scope<'a>), Stop>
    ensures { AnswersBy (λ k. (k.0, k.1.now)) result (spec.known done.now name.now) }
{
    match done.find(name) {
        Some((at, scope)) => Ok((at, scope)),
        None => Err(Stop::Fault(Cause::UnknownAlias)),
    }
}

/// The columns of an alias, or BagMisused where it is grouped.
pub(crate) fn ungrouped<'s, 'a>(scope: &'s Scope<'a>) -> Result<&'s [ScopeColumn<'a>], Stop>
    ensures { AnswersBy (λ cs. cs.now) result (spec.ungrouped scope.now) }
{
    match scope {
        Scope::Rows { columns } => Ok(columns.as_slice()),
        Scope::Group {
            bag: _,
            by: _,
            columns: _,
        } => Err(Stop::Fault(Cause::BagMisused)),
    }
}

/// The same columns.
pub(crate) fn columns_again<'a>(
    alloc: Global,
    columns: &[ScopeColumn<'a>],
) -> Result<Items<ScopeColumn<'a>>, AllocError>
    ensures { IfOk result (λ cs. cs ≡ columns.now) }
{
    let mut all = Items::new(alloc);
    for column in columns {
        all.push(column_again(column))?;
    }
    Ok(all)
}

/// A node with its columns, or TooWide where these are more than 64.
pub(crate) fn defined<'a>(
    node: ValuedNode,
    columns: Items<ScopeColumn<'a>>,
) -> Result<Defined<'a>, Stop>
    ensures { AnswersAs result (spec.defined node columns.entry) }
{
    if columns.len() <= 64 {
        Ok(Defined {
            node,
            scope: Scope::Rows { columns },
        })
    } else {
        Err(Stop::Fault(Cause::TooWide))
    }
}

/// The places that references mean, from left to right.
pub(crate) fn fields_of(
    alloc: Global,
    columns: &[ScopeColumn<'_>],
    fields: &[Field],
) -> Result<Items<u32>, Stop>
    ensures { AnswersAs result (spec.fields_of columns.now [] fields.now) }
{
    let mut places = Items::new(alloc);
    for field in fields {
        places.push(field_of(columns, field)?)?;
    }
    Ok(places)
}

/// The columns at these places.
pub(crate) fn columns_at<'a>(
    alloc: Global,
    columns: &[ScopeColumn<'a>],
    places: &[u32],
) -> Result<Items<ScopeColumn<'a>>, AllocError>
    ensures { IfOk result (λ cs. cs ≡ spec.columns_at columns.now places.now) }
{
    let mut all = Items::new(alloc);
    for place in places {
        all.push(column_at(columns, *place))?;
    }
    Ok(all)
}

/// FILTER: it keeps the columns.
pub(crate) fn filter_rows<'a>(
    alloc: Global,
    done: &Aliases<'a>,
    from: &[u8],
    cond: &Expr,
) -> Result<Defined<'a>, Stop>
    ensures { AnswersAs result (spec.filter_rows done.now from.now cond.now) }
{
    let (at, scope) = known(done, from)?;
    let columns = ungrouped(scope)?;
    let typed = expr_of(cond, alloc, scope)?;
    check(is_condition(typed.sort))?;
    let columns = columns_again(alloc, columns)?;
    let node = Node::Filter {
        from: at,
        cond: typed.expr.into_boxed().into_inner(),
    };
    Ok(Defined {
        node: ValuedNode::new(node),
        scope: Scope::Rows { columns },
    })
}

/// FOREACH over rows or over groups, by its items as far as they are kept.
fn foreach_kept<'a>(
    alloc: Global,
    done: &Aliases<'a>,
    from: &[u8],
    items: &'a [Item],
) -> Result<Defined<'a>, Stop>
    ensures { AnswersAs result (kept.foreach done.now from.now items.now) }
{
    let (at, scope) = known(done, from)?;
    let made = items_of(alloc, scope, items)?;
    let node = Node::Foreach {
        from: at,
        items: made.exprs.into_items(),
    };
    defined(ValuedNode::new(node), made.columns)
}

/// FOREACH over rows or over groups.
pub(crate) fn foreach<'a>(
    alloc: Global,
    done: &Aliases<'a>,
    from: &[u8],
    items: &'a [Item],
) -> Result<Defined<'a>, Stop>
    ensures { AnswersAs result (spec.foreach done.now from.now items.now) }
{
    foreach_kept(alloc, done, from, items)
}

/// GROUP: a bag, named by the alias, and the BY columns.
pub(crate) fn group<'a>(
    alloc: Global,
    done: &Aliases<'a>,
    from: &'a [u8],
    by: &[Field],
) -> Result<Defined<'a>, Stop>
    ensures { AnswersAs result (spec.group done.now from.now by.now) }
{
    let (at, scope) = known(done, from)?;
    let columns = ungrouped(scope)?;
    let places = fields_of(alloc, columns, by)?;
    let bag = Text::new(from);
    let by = columns_at(alloc, columns, places.as_slice())?;
    let columns = columns_again(alloc, columns)?;
    let node = Node::Group {
        from: at,
        columns: places,
    };
    Ok(Defined {
        node: ValuedNode::new(node),
        scope: Scope::Group { bag, by, columns },
    })
}

/// DISTINCT: it keeps the columns.
pub(crate) fn distinct<'a>(
    alloc: Global,
    done: &Aliases<'a>,
    from: &[u8],
) -> Result<Defined<'a>, Stop>
    ensures { AnswersAs result (spec.distinct done.now from.now) }
{
    let (at, scope) = known(done, from)?;
    let columns = ungrouped(scope)?;
    let columns = columns_again(alloc, columns)?;
    Ok(Defined {
        node: ValuedNode::new(Node::Distinct { from: at }),
        scope: Scope::Rows { columns },
    })
}
