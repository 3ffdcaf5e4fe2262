//! The sorts of the pieces of a plan over groups.
ghost use Rattle.std.specs.Prelude.{◌≡◌, map, IfOk};
ghost use Rattle.std.specs.List.{filter_map};
ghost use Rattle.nova_pig_rows.specs.Outcomes.{called};
ghost use Rattle.nova_group_codec.specs.Pieces as spec;

use crate::sorts::{Kept, Sorts};
use nova_pig_rows::Call;
use nova_pig_tree::CallKind;
use nova_value::Kind;
use std::alloc::{AllocError, Global};

/// The kind of a column, and that of the number 0 beyond the last.
pub fn kind_at(kinds: &[Kind], place: u32) -> Kind
    ensures { result ≡ spec.kind_at kinds.now place }
{
    match kinds.get(place as usize) {
        Some(kind) => *kind,
        None => Kind::Long,
    }
}

/// The kind of a call's argument.
fn kind_of(kinds: &[Kind], column: Option<u32>) -> Kind
    ensures { result ≡ spec.kind_of kinds.now column }
{
    match column {
        Some(place) => kind_at(kinds, place),
        None => Kind::Long,
    }
}

/// What is kept of a call.
fn kept_of(kinds: &[Kind], call: Call) -> Option<Kept>
    ensures { result ≡ spec.kept_of kinds.now (called call) }
{
    match call.kind {
        CallKind::Count => None,
        CallKind::Sum => Some(Kept::Total),
        CallKind::Min => Some(Kept::Counts(kind_of(kinds, call.column))),
        CallKind::Max => Some(Kept::Counts(kind_of(kinds, call.column))),
    }
}

/// The kinds of these columns.
pub fn kinds_at(alloc: Global, kinds: &[Kind], columns: &[u32]) -> Result<Vec<Kind>, AllocError>
    ensures { IfOk result (λ ks. ks.items ≡ map (spec.kind_at kinds.now) columns.now) }
{
    let mut all = Vec::with_capacity(alloc, columns.len())?;
    for column in columns {
        all.push(kind_at(kinds, *column))?;
    }
    Ok(all)
}

/// What is kept of the calls.
fn kept_calls(alloc: Global, kinds: &[Kind], calls: &[Call]) -> Result<Vec<Kept>, AllocError>
    ensures { IfOk result (λ cs. cs.items ≡ filter_map (spec.kept_of kinds.now) (map called calls.now)) }
{
    let mut all = Vec::new(alloc);
    for call in calls {
        if let Some(kept) = kept_of(kinds, *call) {
            all.push(kept)?;
        }
    }
    Ok(all)
}

/// The sorts of a task whose plan groups rows of these kinds by these columns and makes these calls,
/// each once, in the order in which they first stand. The key is the kinds of the input key.
pub fn sorts_of(
    alloc: Global,
    key: Vec<Kind>,
    kinds: &[Kind],
    columns: &[u32],
    calls: &[Call],
) -> Result<Sorts, AllocError>
    ensures { IfOk result (λ s. s ≡ spec.sorts_of key.items kinds.now columns.now (map called calls.now)) }
{
    let by = kinds_at(alloc, kinds, columns)?;
    Ok(Sorts::new(key, by, kept_calls(alloc, kinds, calls)?))
}
