//! Whether a task is admitted.
ghost use Rattle.std.specs.Prelude.{◌≡◌, IfOk};
ghost use Rattle.std.specs.Option.{option_map};
ghost use Rattle.nova_pig_algebra.specs.Tree.{tree_at, trees};
ghost use Rattle.nova_pig_algebra.specs.Keys.{column_set as set_of, same_columns as same};
ghost use Rattle.nova_pig_pattern.specs.Patterns as spec;

use crate::pattern::pattern_of;
use nova_pig_algebra::{Node, column_set, same_columns};
use nova_pig_pattern::{Input, PatternKind, TaskFault};
use nova_value::Schema;
use std::alloc::{AllocError, Global};

/// The channel of the first NEW input that is written as BASE.
fn base_read(inputs: &[Input]) -> Option<u32>
    ensures { result ≡ spec.base_read inputs.now }
{
    for input in inputs {
        if input.is_new && input.based {
            return Some(input.channel);
        }
    }
    None
}

/// Whether the key columns are those of the output's key, as a set.
fn is_output_key(alloc: Global, key: &[u32], output: &[u32]) -> Result<bool, AllocError>
    ensures { IfOk result (λ b. b ≡ same key.now (set_of output.now)) }
{
    let wanted = column_set(alloc, output)?;
    Ok(same_columns(key, wanted.as_slice()))
}

/// The pattern of a task, or its first fault: of the schemas of its inputs, whether it writes BASE,
/// the output's key, the plan's nodes with the stored one, and the plan's key.
pub fn admission(
    alloc: Global,
    shapes: &[Schema],
    inputs: &[Input],
    based: bool,
    output: &[u32],
    nodes: &[Node],
    stored: u32,
    key: Option<&[u32]>,
) -> Result<Result<PatternKind, TaskFault>, AllocError>
    ensures { IfOk result (λ r. r ≡ spec.admission_of shapes.now inputs.now based output.now (tree_at (trees nodes.now) stored) (option_map (λ k. k.now) key.entry)) }
{
    let Some(key) = key else {
        return Ok(Err(TaskFault::NoKey));
    };
    if !is_output_key(alloc, key, output)? {
        return Ok(Err(TaskFault::KeyDiffers));
    }
    if let Some(channel) = base_read(inputs) {
        return Ok(Err(TaskFault::BaseReadAsNew { channel }));
    }
    match pattern_of(alloc, shapes, inputs, based, nodes, stored)? {
        Some(pattern) => Ok(Ok(pattern)),
        None => Ok(Err(TaskFault::NotAPattern)),
    }
}
