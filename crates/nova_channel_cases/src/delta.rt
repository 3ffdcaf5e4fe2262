//! Deltas, one alone or two in turn.
use crate::rows::{add_values, delta_of, lines_of_delta, lines_of_table, schema};
use nova_case::Step;
use nova_delta::{Delta, Table, chain, merge, without_removals};
use std::alloc::{AllocError, Global};

/// What stands before and behind the line `then`.
fn parts(input: &[u8]) -> (&[u8], &[u8]) {
    let text = str::from_utf8(input).unwrap_or("");
    let (first, second) = text.split_once("then\n").unwrap_or((text, ""));
    (first.as_bytes(), second.as_bytes())
}

/// The rows of a table made by two deltas, one after the other.
fn merged(alloc: Global, input: &[u8]) -> Result<Vec<u8>, AllocError> {
    let (first, second) = parts(input);
    let first = delta_of(alloc, first)?;
    let second = delta_of(alloc, second)?;
    let table = merge(alloc, Table::empty(alloc, schema(alloc)?), &first)?;
    let table = merge(alloc, table, &second)?;
    lines_of_table(alloc, &table)
}

/// The entries of two deltas, as one.
fn chained(alloc: Global, input: &[u8]) -> Result<Vec<u8>, AllocError> {
    let (first, second) = parts(input);
    let first = delta_of(alloc, first)?;
    let second = delta_of(alloc, second)?;
    lines_of_delta(alloc, &chain(alloc, first, &second)?)
}

/// The keys of a delta.
fn keys(alloc: Global, delta: &Delta) -> Result<Vec<u8>, AllocError> {
    let mut out = Vec::new(alloc);
    for (key, _entry) in delta.keyed_entries() {
        add_values(alloc, &mut out, b'=', key.values())?;
    }
    Ok(out)
}

/// What a step on deltas answers, whose lines are its input: `merge` and `chain` of two, parted by a
/// line `then`; `puts`, one without its removals; `keys`, the keys of one.
pub fn answer(alloc: Global, step: &Step) -> Result<Vec<u8>, AllocError> {
    match step.verb.as_str() {
        "merge" => merged(alloc, &step.input),
        "chain" => chained(alloc, &step.input),
        "puts" => lines_of_delta(alloc, &without_removals(delta_of(alloc, &step.input)?)),
        _ => keys(alloc, &delta_of(alloc, &step.input)?),
    }
}
