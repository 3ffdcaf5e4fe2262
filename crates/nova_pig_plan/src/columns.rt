//! Which column a reference means.
ghost use Rattle.std.specs.Prelude.{◌≡◌};
ghost use Rattle.nova_pig_plan.specs.Answers.{AnswersAs};
ghost use Rattle.nova_pig_plan.specs.Columns as spec;

use crate::fault::{Cause, Stop};
use crate::scope::{ScopeColumn, Text};
use nova_pig_algebra::narrow;
use nova_pig_tree::Field;
use nova_value::Kind;

/// Whether both are the same text.
pub(crate) fn same_text(a: &[u8], b: &[u8]) -> bool
    ensures { result ≡ spec.same_text a.now b.now }
{
    a == b
}

/// Whether the text is there and is this one.
fn is_text(text: &Option<Text<'_>>, name: &[u8]) -> bool
    ensures { result ≡ spec.is_text text.now name.now }
{
    match text {
        Some(text) => same_text(text.bytes(), name),
        None => false,
    }
}

/// The place of the one column of this name.
pub(crate) fn place_named(columns: &[ScopeColumn<'_>], name: &[u8]) -> Result<usize, Cause>
    ensures { result ≡ spec.the_one (spec.places (spec.is_named name.now) 0 columns.now) }
{
    let mut found = None;
    for (at, column) in columns.iter().enumerate() {
        if is_text(&column.name, name) {
            if found.is_some() {
                return Err(Cause::Ambiguous);
            }
            found = Some(at);
        }
    }
    found.ok_or(Cause::UnknownField)
}

/// The place of the one column of this name and origin.
fn place_from(columns: &[ScopeColumn<'_>], alias: &[u8], name: &[u8]) -> Result<usize, Cause>
    ensures { result ≡ spec.the_one (spec.places (spec.comes_from alias.now name.now) 0 columns.now) }
{
    let mut found = None;
    for (at, column) in columns.iter().enumerate() {
        if is_text(&column.origin, alias) && is_text(&column.name, name) {
            if found.is_some() {
                return Err(Cause::Ambiguous);
            }
            found = Some(at);
        }
    }
    found.ok_or(Cause::UnknownField)
}

/// The place of the column that a reference means, anywhere but over a group.
pub(crate) fn field_of(columns: &[ScopeColumn<'_>], field: &Field) -> Result<u32, Stop>
    ensures { AnswersAs result (spec.field_of columns.now field.now) }
{
    match field {
        Field::Plain(name) => Ok(narrow(place_named(columns, name.bytes())?)?),
        Field::Of(alias, name) => Ok(narrow(place_from(columns, alias.bytes(), name.bytes())?)?),
        Field::GroupOf(_) => Err(Stop::Fault(Cause::UnknownField)),
        Field::At(n) => {
            if *n < columns.len() as u64 {
                Ok(narrow(*n as usize)?)
            } else {
                Err(Stop::Fault(Cause::UnknownField))
            }
        }
    }
}

/// The kind of the column at a place.
pub(crate) fn kind_at(columns: &[ScopeColumn<'_>], at: u32) -> Kind
    ensures { result ≡ spec.kind_at columns.now at }
{
    match columns.get(at as usize) {
        Some(column) => column.kind,
        None => Kind::Long,
    }
}
