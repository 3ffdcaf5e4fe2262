//! JOIN, UNION, LOAD and STORE.
ghost use Rattle.std.specs.Prelude.{◌≡◌, ◌++◌, [], IfOk, OnOk};
ghost use Rattle.std.specs.Option.{option_map};
ghost use Rattle.nova_pig_plan.specs.Answers.{AnswersAs, AnswersBy};
ghost use Rattle.nova_pig_plan.specs.Plans as spec;

use crate::aliases::Aliases;
use crate::columns::same_text;
use crate::fault::{Cause, Stop};
use crate::items::{same_kind, text_again};
use crate::scope::{Channels, Defined, Scope, ScopeColumn, Text};
use crate::statements::{columns_again, columns_at, defined, fields_of, known, test, ungrouped};
use crate::valued::ValuedNode;
use nova_pig_algebra::{Node, narrow};
use nova_pig_tree::{Field, Str};
use nova_value::{Column, Name, Schema};
use sqlite_items::Items;
use std::alloc::{AllocError, Global};

/// Whether both have the same kinds, in order.
fn same_kinds(a: &[ScopeColumn<'_>], b: &[ScopeColumn<'_>]) -> bool
    ensures { result ≡ spec.same_kinds a.now b.now }
{
    if a.len() != b.len() {
        return false;
    }
    for (i, column) in a.iter().enumerate() {
        if !same_kind(column.kind, b[i].kind) {
            return false;
        }
    }
    true
}

/// The columns of a channel: its names, without origin.
fn channel_columns<'a>(
    alloc: Global,
    columns: &'a [Column],
) -> Result<Items<ScopeColumn<'a>>, AllocError>
    ensures { IfOk result (λ cs. cs ≡ spec.channel_columns columns.now) }
{
    let mut all = Items::new(alloc);
    for column in columns {
        all.push(ScopeColumn {
            kind: column.kind,
            name: Some(Text::new(column.name.text().as_bytes())),
            origin: None,
        })?;
    }
    Ok(all)
}

/// Adds the columns with this alias as their origin.
fn add_from<'a>(
    all: &mut Items<ScopeColumn<'a>>,
    alias: &'a [u8],
    columns: &[ScopeColumn<'a>],
) -> Result<(), AllocError>
    ensures { OnOk result (all.new ≡ all.old ++ spec.from_alias alias.now columns.now) }
{
    for column in columns {
        all.push(ScopeColumn {
            kind: column.kind,
            name: text_again(&column.name),
            origin: Some(Text::new(alias)),
        })?;
    }
    Ok(())
}

/// The first input of this name, with its number.
fn input_of<'c>(inputs: &'c [(Name, Schema)], name: &[u8]) -> Option<(usize, &'c Schema)>
    ensures { option_map (λ p. (p.0, p.1.now)) result ≡ spec.find name.now 0 inputs.now }
{
    for (at, input) in inputs.iter().enumerate() {
        if same_text(name, input.0.text().as_bytes()) {
            return Some((at, &input.1));
        }
    }
    None
}

/// LOAD: UnknownChannel where it names no input.
pub(crate) fn load<'a>(
    alloc: Global,
    channels: &'a Channels,
    channel: &[u8],
) -> Result<Defined<'a>, Stop>
    ensures { AnswersAs result (spec.load channels.now channel.now) }
{
    match input_of(channels.inputs.as_slice(), channel) {
        Some((at, schema)) => {
            let input = narrow(at)?;
            let columns = channel_columns(alloc, schema.columns())?;
            Ok(Defined {
                node: ValuedNode::new(Node::Load { input }),
                scope: Scope::Rows { columns },
            })
        }
        None => Err(Stop::Fault(Cause::UnknownChannel)),
    }
}

/// One side of a JOIN.
#[derive(Drop)]
struct Side<'s, 'a> {
    at: u32,
    alias: &'a [u8],
    columns: &'s [ScopeColumn<'a>],
    by: &'a [Field],
}

/// The columns of a JOIN: the left ones, and then the right ones.
fn both_sides<'a>(
    alloc: Global,
    left: &Side<'_, 'a>,
    right: &Side<'_, 'a>,
) -> Result<Items<ScopeColumn<'a>>, AllocError>
    ensures { IfOk result (λ cs. cs ≡ spec.from_alias left.now.alias.now left.now.columns.now ++ spec.from_alias right.now.alias.now right.now.columns.now) }
{
    let mut all = Items::new(alloc);
    add_from(&mut all, left.alias, left.columns)?;
    add_from(&mut all, right.alias, right.columns)?;
    Ok(all)
}

/// Whether the columns at these places have the same kinds, in order.
fn same_kinds_at(
    alloc: Global,
    a: &[ScopeColumn<'_>],
    b: &[ScopeColumn<'_>],
    a_at: &[u32],
    b_at: &[u32],
) -> Result<bool, AllocError>
    ensures { IfOk result (λ same. same ≡ spec.same_kinds_at a.now b.now a_at.now b_at.now) }
{
    let a = columns_at(alloc, a, a_at)?;
    let b = columns_at(alloc, b, b_at)?;
    Ok(same_kinds(a.as_slice(), b.as_slice()))
}

/// JOIN of rows: its BY lists from left to right, their lengths, their kinds, and the width.
fn join_rows<'a>(
    alloc: Global,
    left: &Side<'_, 'a>,
    right: &Side<'_, 'a>,
) -> Result<Defined<'a>, Stop>
    ensures { AnswersAs result (spec.join_rows left.now.at left.now.alias.now left.now.columns.now left.now.by.now right.now.at right.now.alias.now right.now.columns.now right.now.by.now) }
{
    let left_by = fields_of(alloc, left.columns, left.by)?;
    let right_by = fields_of(alloc, right.columns, right.by)?;
    test(Cause::SchemaDiffers, left_by.len() == right_by.len())?;
    let alike = same_kinds_at(
        alloc,
        left.columns,
        right.columns,
        left_by.as_slice(),
        right_by.as_slice(),
    )?;
    test(Cause::WrongType, alike)?;
    let columns = both_sides(alloc, left, right)?;
    let node = Node::Join {
        left: left.at,
        left_by,
        right: right.at,
        right_by,
    };
    defined(ValuedNode::new(node), columns)
}

/// JOIN: both aliases, that neither is grouped, and then its BY lists.
pub(crate) fn join<'a>(
    alloc: Global,
    done: &Aliases<'a>,
    left: &'a [u8],
    left_by: &'a [Field],
    right: &'a [u8],
    right_by: &'a [Field],
) -> Result<Defined<'a>, Stop>
    ensures { AnswersAs result (spec.join done.now left.now left_by.now right.now right_by.now) }
{
    let (l, left_scope) = known(done, left)?;
    let (r, right_scope) = known(done, right)?;
    let left_columns = ungrouped(left_scope)?;
    let right_columns = ungrouped(right_scope)?;
    let left = Side {
        at: l,
        alias: left,
        columns: left_columns,
        by: left_by,
    };
    let right = Side {
        at: r,
        alias: right,
        columns: right_columns,
        by: right_by,
    };
    join_rows(alloc, &left, &right)
}

/// The columns of an alias that is defined and not grouped.
fn row_columns<'s, 'a>(done: &'s Aliases<'a>, name: &[u8]) -> Result<&'s [ScopeColumn<'a>], Stop>
    ensures { AnswersBy (λ cs. cs.now) result (spec.row_columns done.now name.now) }
{
    let (_, scope) = known(done, name)?;
    ungrouped(scope)
}

/// The numbers of the arms, or UnknownAlias.
fn all_known(alloc: Global, done: &Aliases<'_>, arms: &[Str]) -> Result<Items<u32>, Stop>
    ensures { AnswersAs result (spec.all_known done.now [] arms.now) }
{
    let mut places = Items::new(alloc);
    for arm in arms {
        let (at, _) = known(done, arm.bytes())?;
        places.push(at)?;
    }
    Ok(places)
}

/// BagMisused where an arm is grouped.
fn none_grouped(done: &Aliases<'_>, arms: &[Str]) -> Result<(), Stop>
    ensures { AnswersAs result (spec.none_grouped done.now arms.now) }
{
    for arm in arms {
        row_columns(done, arm.bytes())?;
    }
    Ok(())
}

/// SchemaDiffers where an arm's kinds aren't these columns'.
fn all_alike(done: &Aliases<'_>, columns: &[ScopeColumn<'_>], arms: &[Str]) -> Result<(), Stop>
    ensures { AnswersAs result (spec.all_alike done.now columns.now arms.now) }
{
    for arm in arms {
        let other = row_columns(done, arm.bytes())?;
        test(Cause::SchemaDiffers, same_kinds(columns, other))?;
    }
    Ok(())
}

/// The columns of the first arm.
fn first_rows<'a>(
    alloc: Global,
    done: &Aliases<'a>,
    arms: &[Str],
) -> Result<Items<ScopeColumn<'a>>, Stop>
    ensures { AnswersAs result (spec.first_rows done.now arms.now) }
{
    match arms.split_first() {
        Some((arm, _)) => {
            let columns = row_columns(done, arm.bytes())?;
            Ok(columns_again(alloc, columns)?)
        }
        None => Ok(Items::new(alloc)),
    }
}

/// UNION: each rule over all arms before the next; it has the first arm's columns.
pub(crate) fn union<'a>(
    alloc: Global,
    done: &Aliases<'a>,
    arms: &[Str],
) -> Result<Defined<'a>, Stop>
    ensures { AnswersAs result (spec.union done.now arms.now) }
{
    let places = all_known(alloc, done, arms)?;
    none_grouped(done, arms)?;
    let columns = first_rows(alloc, done, arms)?;
    all_alike(done, columns.as_slice(), arms)?;
    Ok(Defined {
        node: ValuedNode::new(Node::Union { arms: places }),
        scope: Scope::Rows { columns },
    })
}

/// STORE: its alias, its channel, that the alias is not grouped, and the schemas.
pub(crate) fn store(
    alloc: Global,
    channels: &Channels,
    done: &Aliases<'_>,
    alias: &[u8],
    channel: &[u8],
) -> Result<u32, Stop>
    ensures { AnswersAs result (spec.store channels.now done.now alias.now channel.now) }
{
    let (at, scope) = known(done, alias)?;
    test(
        Cause::UnknownChannel,
        same_text(channel, channels.output.0.text().as_bytes()),
    )?;
    let columns = ungrouped(scope)?;
    let output = channel_columns(alloc, channels.output.1.columns())?;
    test(Cause::SchemaDiffers, same_kinds(columns, output.as_slice()))?;
    Ok(at)
}
