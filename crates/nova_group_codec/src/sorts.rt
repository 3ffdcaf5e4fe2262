//! Of which kinds a grouping task's state is.
ghost use Rattle.std.specs.Prelude.{◌≡◌, map, IfOk};
ghost use Rattle.nova_group_codec.specs.Sorts as spec;

use nova_value::Kind;
use std::alloc::{AllocError, Global};
use std::marker::Model;

/// An aggregate that the state keeps: a sum of longs, or how often each value of a kind stands,
/// which gives the least and the greatest.
#[derive(Clone, Copy, Debug, PartialEq, Eq)]
pub enum Kept {
    Total,
    Counts(Kind),
}

/// The kinds of the input key, in key order, and of the BY values, and the kept aggregates, in the
/// order in which the calls first stand in the plan.
#[derive(Drop)]
pub struct Sorts {
    key: Vec<Kind>,
    by: Vec<Kind>,
    kept: Vec<Kept>,
}

impl Model for Sorts {
    ghost use Rattle.nova_group_codec.specs.Sorts.{SortsValue, sorts_code};

    ghost Value = { SortsValue };

    ghost coded = { sorts_code };

    ghost view = { λ s. record { key = s.key.items; by = s.by.items; kept = s.kept.items } };
}

impl Sorts {
    /// The sorts of a task. Each is taken as it comes: whether they are a plan's is the caller's.
    pub fn new(key: Vec<Kind>, by: Vec<Kind>, kept: Vec<Kept>) -> Sorts
        ensures { result ≡ record { key = key.items; by = by.items; kept = kept.items } }
    {
        Sorts { key, by, kept }
    }

    /// The kinds of the input key.
    pub fn key(&self) -> &[Kind]
        ensures { result.now ≡ self.now.key }
    {
        &self.key
    }

    /// The kinds of the BY values.
    pub fn by(&self) -> &[Kind]
        ensures { result.now ≡ self.now.by }
    {
        &self.by
    }

    /// The kept aggregates.
    pub fn kept(&self) -> &[Kept]
        ensures { result.now ≡ self.now.kept }
    {
        &self.kept
    }
}

/// The kind of an aggregate's arguments.
fn argument_kind(kept: Kept) -> Kind
    ensures { result ≡ spec.argument_kind kept }
{
    match kept {
        Kept::Total => Kind::Long,
        Kept::Counts(kind) => kind,
    }
}

/// The kinds of a contribution's arguments.
pub(crate) fn argument_kinds(alloc: Global, kept: &[Kept]) -> Result<Vec<Kind>, AllocError>
    ensures { IfOk result (λ kinds. kinds.items ≡ spec.argument_kinds kept.now) }
{
    let mut kinds = Vec::with_capacity(alloc, kept.len())?;
    for one in kept {
        kinds.push(argument_kind(*one))?;
    }
    Ok(kinds)
}
