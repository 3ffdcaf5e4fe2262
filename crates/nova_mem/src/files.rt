// Files in memory by number, and calls on them, each of which keeps its deed.
ghost use Rattle.std.specs.Prelude.{◌≡◌, ◌+◌, ◌-◌, ◌≤◌, ◌<◌, ◌++◌, ◌∷◌, [], ℕ, length, take, drop, reverse, slice_set, vec_len, vec_capacity, IfOk, OnOk, OnErr, IfSome, Some, None, filter, option_map, vec_items};
ghost use Rattle.nova_outside.specs.Disk.{overlaid, Reaches, piece, IsNext};
ghost use Rattle.nova_outside.specs.History.Change.{Created, Written, Synced, Removed};
ghost use Rattle.nova_mem.specs.Deeds.{bytes_in, is_apart, view, with_file};
ghost use Rattle.nova_mem.specs.Does.{Does};

use crate::parts::Deed;
use std::alloc::{AllocError, Global};
use std::collections::BTreeMap;
use std::ops::Bound;

/// The length of a file.
pub fn size_of(files: &BTreeMap<u64, Vec<u8>>, file: u64) -> Option<u64>
    ensures { result ≡ option_map length (view files.now file) }
{
    match files.get(&file) {
        Some(bytes) => Some(bytes.len() as u64),
        None => None,
    }
}

// Moves bytes from an offset on to the front of the slice, as many as there are.
fn copy_piece(bytes: &[u8], at: usize, into: &mut [u8]) -> usize
    ensures within { result ≤ length into.new }
    ensures bytes { take result into.new ≡ take (length into.old) (drop at bytes.now) }
{
    if at >= bytes.len() {
        return 0;
    }
    let rest = &bytes[at..];
    if rest.len() < into.len() {
        into[..rest.len()].copy_from_slice(rest);
        rest.len()
    } else {
        into.copy_from_slice(&rest[..into.len()]);
        into.len()
    }
}

/// Moves bytes of a file from an offset on to the front of the slice, and answers how many.
pub fn read_piece(files: &BTreeMap<u64, Vec<u8>>, file: u64, at: u64, into: &mut [u8]) -> usize
    ensures within { result ≤ length into.new }
    ensures bytes { take result into.new ≡ piece at (length into.old) (view files.now file) }
{
    match files.get(&file) {
        Some(bytes) => copy_piece(bytes, at as usize, into),
        None => 0,
    }
}

/// The least number of a file above this one.
pub fn next_of(files: &BTreeMap<u64, Vec<u8>>, after: Option<u64>) -> Option<u64>
    ensures { IsNext (view files.now) after result }
{
    let start = match after {
        Some(number) => Bound::Excluded(number),
        None => Bound::Unbounded,
    };
    match files.range((start, Bound::Unbounded)).next() {
        Some((number, _)) => Some(*number),
        None => None,
    }
}

// Writes over bytes from an offset on, and past their end.
fn overlay(old: &mut Vec<u8>, at: usize, bytes: &[u8]) -> Result<(), AllocError>
    requires { at ≤ length old.old.items }
    ensures ok { OnOk result (old.new.items ≡ overlaid at bytes.now old.old.items) }
    ensures err { OnErr result (old.new.items ≡ old.old.items) }
{
    let inside = bytes.len().min(old.len() - at);
    old.extend_from_slice(&bytes[inside..])?;
    old[at..at + inside].copy_from_slice(&bytes[..inside]);
    Ok(())
}

// The bytes of a range, as far as there are any.
fn copy_of(alloc: Global, bytes: &[u8], at: usize, count: usize) -> Result<Vec<u8>, AllocError>
    requires { at ≤ length bytes.now }
    ensures { IfOk result (λ copy. copy.items ≡ take count (drop at bytes.now)) }
{
    let inside = count.min(bytes.len() - at);
    bytes[at..at + inside].to_vec(alloc)
}

// Adds a deed where there is room.
fn keep(deeds: &mut Vec<Deed>, deed: Deed)
    requires { vec_len deeds.old < vec_capacity deeds.old }
    ensures { deeds.new.items ≡ deeds.old.items ++ deed ∷ [] }
{
    let _ = deeds.push(deed);
}

// Makes a file, empty.
pub fn create_file(
    alloc: Global,
    files: &mut BTreeMap<u64, Vec<u8>>,
    deeds: &mut Vec<Deed>,
    file: u64,
) -> Result<(), AllocError>
    ensures ok { OnOk result (Does Created file (Some []) deeds.old.items deeds.new.items (view files.old) (view files.new)) }
    ensures err { OnErr result ((deeds.new.items ≡ deeds.old.items) × ((n : ℕ) → view files.new n ≡ view files.old n)) }
{
    deeds.reserve(1)?;
    match files.insert(file, Vec::new(alloc)) {
        Ok(before) => {
            keep(deeds, Deed::Created { file, before });
            Ok(())
        }
        Err(_) => Err(AllocError),
    }
}

// Writes bytes into a file that is there and reaches as far as the offset.
pub fn write_file(
    alloc: Global,
    files: &mut BTreeMap<u64, Vec<u8>>,
    deeds: &mut Vec<Deed>,
    file: u64,
    at: u64,
    bytes: &[u8],
) -> Result<(), AllocError>
    requires { Reaches at (view files.old file) }
    ensures ok { OnOk result (Does (Written at (length bytes.now)) file (option_map (overlaid at bytes.now) (view files.old file)) deeds.old.items deeds.new.items (view files.old) (view files.new)) }
    ensures err { OnErr result ((deeds.new.items ≡ deeds.old.items) × ((n : ℕ) → view files.new n ≡ view files.old n)) }
{
    deeds.reserve(1)?;
    let Some(old) = files.get_mut(&file) else {
        return Ok(());
    };
    let length = old.len() as u64;
    let over = copy_of(alloc, old, at as usize, bytes.len())?;
    overlay(old, at as usize, bytes)?;
    keep(
        deeds,
        Deed::Written {
            file,
            at,
            count: bytes.len() as u64,
            over,
            length,
        },
    );
    Ok(())
}

// Syncs a file.
pub fn sync_file(
    files: &mut BTreeMap<u64, Vec<u8>>,
    deeds: &mut Vec<Deed>,
    file: u64,
) -> Result<(), AllocError>
    ensures ok { OnOk result (Does Synced file (view files.old file) deeds.old.items deeds.new.items (view files.old) (view files.new)) }
    ensures err { OnErr result ((deeds.new.items ≡ deeds.old.items) × ((n : ℕ) → view files.new n ≡ view files.old n)) }
{
    deeds.push(Deed::Synced { file })?;
    Ok(())
}

// Takes a file away.
pub fn remove_file(
    files: &mut BTreeMap<u64, Vec<u8>>,
    deeds: &mut Vec<Deed>,
    file: u64,
) -> Result<(), AllocError>
    ensures ok { OnOk result (Does Removed file None deeds.old.items deeds.new.items (view files.old) (view files.new)) }
    ensures err { OnErr result ((deeds.new.items ≡ deeds.old.items) × ((n : ℕ) → view files.new n ≡ view files.old n)) }
{
    deeds.reserve(1)?;
    let before = files.remove(&file);
    keep(deeds, Deed::Removed { file, before });
    Ok(())
}

// Forgets the deeds on a file.
pub fn forget(deeds: &mut Vec<Deed>, file: u64)
    ensures { deeds.new.items ≡ filter (is_apart file) deeds.old.items }
{
    deeds.retain(|deed| deed.is_apart(file));
}

// Puts a byte of a file in the place of another.
pub fn edit_file(files: &mut BTreeMap<u64, Vec<u8>>, file: u64, at: usize, byte: u8)
    requires { at < length (bytes_in (view files.old file)) }
    ensures { (n : ℕ) → view files.new n ≡ with_file file (option_map (λ bytes. slice_set bytes at byte) (view files.old file)) (view files.old) n }
{
    if let Some(bytes) = files.get_mut(&file) {
        bytes[at] = byte;
    }
}

// Cuts a file to a length.
pub fn cut_file(files: &mut BTreeMap<u64, Vec<u8>>, file: u64, count: usize)
    ensures { (n : ℕ) → view files.new n ≡ with_file file (option_map (take count) (view files.old file)) (view files.old) n }
{
    if let Some(bytes) = files.get_mut(&file) {
        bytes.truncate(count);
    }
}
