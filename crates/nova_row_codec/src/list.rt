//! Deltas from the bytes of a block.
ghost use Rattle.std.specs.Prelude.{◌≡◌, ◌≢◌, ◌<◌, ◌++◌, ◌∷◌, [], ℕ, T, true, length, drop, IfOk, IfErr, IfSome, IfNone};
ghost use Rattle.std.specs.List.{AllByRecursion};
ghost use Rattle.nova_value.specs.Entries.{FitsEntry};
ghost use Rattle.nova_delta.specs.Merge.{IsDelta};
ghost use Rattle.nova_delta.specs.Listed.{delta_of, rises};
ghost use Rattle.nova_row_codec.specs.Spelling.{eight};
ghost use Rattle.nova_row_codec.specs.Faults.{BlockFails, StopsAt, StopsAfter};
ghost use Rattle.nova_row_codec.specs.Written.{IsBlockOf, Spells, StandsAt};
ghost use Rattle.nova_row_codec.specs.declared.fault.CodecFault.TheVariants.{NoMemory};

use crate::decoding::decode_entry;
use crate::fault::CodecFault;
use nova_delta::{Delta, is_above};
use nova_value::{Entry, Schema};
use std::alloc::{AllocError, Global};

/// How many entries the bytes say there are.
fn count_of(bytes: &[u8]) -> Option<u64>
    ensures some { IfSome result (λ count. bytes.now ≡ eight count ++ drop 8 bytes.now) }
    ensures none { IfNone result (length bytes.now < 8) }
{
    if bytes.len() < 8 {
        return None;
    }
    let (prefix, _) = bytes.split_at(8);
    Some(u64::from_be_bytes([
        prefix[0], prefix[1], prefix[2], prefix[3], prefix[4], prefix[5], prefix[6], prefix[7],
    ]))
}

/// The entry at a place, whose key is above those of the entries before it, and the place after it.
fn next_entry(
    alloc: Global,
    bytes: &[u8],
    at: usize,
    schema: &Schema,
    entries: &[Entry],
) -> Result<(Entry, usize), CodecFault>
    requires fit { AllByRecursion (FitsEntry schema.now) entries.now }
    requires rise { T (rises schema.now entries.now) }
    ensures found { IfOk result (StandsAt schema.now bytes.now at) }
    ensures rises { IfOk result (λ found. rises schema.now (entries.now ++ found.0 ∷ []) ≡ true) }
    ensures refused { IfErr result (λ fault. fault ≢ NoMemory → (count : ℕ) → length entries.now < count → StopsAfter schema.now count entries.now (drop at bytes.now) fault) }
{
    let (entry, after) = decode_entry(alloc, bytes, at, schema)?;
    if !is_above(entries, &entry, schema) {
        return Err(CodecFault::OutOfOrder);
    }
    Ok((entry, after))
}

/// So many entries after the number of them, and nothing after.
fn read_entries(
    alloc: Global,
    bytes: &[u8],
    count: u64,
    schema: &Schema,
) -> Result<Vec<Entry>, (CodecFault, usize)>
    requires { bytes.now ≡ eight count ++ drop 8 bytes.now }
    ensures found { IfOk result (λ entries. IsBlockOf schema.now bytes.now entries.items) }
    ensures refused { IfErr result (λ fault. fault.0 ≢ NoMemory → StopsAt schema.now bytes.now fault.0 fault.1) }
{
    let mut entries = Vec::new(alloc);
    let mut at = 8;
    for _ in 0..count {
        match next_entry(alloc, bytes, at, schema, &entries) {
            Ok((entry, after)) => {
                if entries.push(entry).is_err() {
                    return Err((CodecFault::NoMemory, at));
                }
                at = after;
            }
            Err(fault) => return Err((fault, at)),
        }
    }
    if at < bytes.len() {
        return Err((CodecFault::BadTag, at));
    }
    Ok(entries)
}

/// The delta of entries whose keys rise.
fn delta_from(alloc: Global, schema: &Schema, entries: Vec<Entry>) -> Result<Delta, AllocError>
    requires fit { AllByRecursion (FitsEntry schema.now) entries.items }
    requires rise { T (rises schema.now entries.items) }
    ensures entries { IfOk result (λ d. d ≡ delta_of schema.now entries.items) }
    ensures delta { IfOk result IsDelta }
{
    Delta::from_rising(alloc, schema.copy(alloc)?, entries)
}

/// The delta that the bytes of a whole block spell. With a fault comes the place of the entry that
/// has it; where memory ran out the place means nothing.
pub fn decode_list(
    alloc: Global,
    bytes: &[u8],
    schema: &Schema,
) -> Result<Delta, (CodecFault, usize)>
    ensures found { IfOk result (Spells schema.now bytes.now) }
    ensures refused { IfErr result (λ fault. fault.0 ≢ NoMemory → BlockFails schema.now bytes.now fault.0 fault.1) }
{
    let Some(count) = count_of(bytes) else {
        return Err((CodecFault::Short, 0));
    };
    let entries = read_entries(alloc, bytes, count, schema)?;
    match delta_from(alloc, schema, entries) {
        Ok(delta) => Ok(delta),
        Err(_) => Err((CodecFault::NoMemory, 0)),
    }
}
