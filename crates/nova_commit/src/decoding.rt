//! Commits from bytes.
ghost use Rattle.std.specs.Prelude.{◌≡◌, ◌↔◌, Err, IfOk, IsTrue, is_ok, length};
ghost use Rattle.std.specs.Int.{w32, w64};
ghost use Rattle.std.specs.List.Sorted.{IsNonDecreasing};
ghost use Rattle.nova_commit.specs.Commits.{Fits, commit_bytes, rise};
ghost use Rattle.nova_commit.specs.Fields.{Gives, collected_of, commit_of, items_at, joined_of, kept_at, load_of, number_at, part_at, parts_at, run_of, tick_of, versions_at};
ghost use Rattle.nova_commit.specs.declared.commit.Commit.{Commit};
ghost use Rattle.nova_commit.specs.declared.fault.MetaFault.TheVariants.{BadRecord};

use crate::commit::{Commit, PartFile};
use crate::fault::MetaFault;
use sqlite_items::Items;
use std::alloc::Global;

fn u32_at(bytes: &[u8]) -> Result<(u32, &[u8]), MetaFault>
    ensures { Gives (λ a. (a.0, a.1.now)) result (number_at w32 bytes.now) }
{
    if bytes.len() < 4 {
        return Err(MetaFault::BadRecord);
    }
    let (front, rest) = bytes.split_at(4);
    let number = u32::from_be_bytes([front[0], front[1], front[2], front[3]]);
    Ok((number, rest))
}

fn u64_at(bytes: &[u8]) -> Result<(u64, &[u8]), MetaFault>
    ensures { Gives (λ a. (a.0, a.1.now)) result (number_at w64 bytes.now) }
{
    if bytes.len() < 8 {
        return Err(MetaFault::BadRecord);
    }
    let (front, rest) = bytes.split_at(8);
    let number = u64::from_be_bytes([
        front[0], front[1], front[2], front[3], front[4], front[5], front[6], front[7],
    ]);
    Ok((number, rest))
}

#[tactic(auto, unfolding(crate::specs::Fields::part_at))]
fn part_of(bytes: &[u8]) -> Result<(PartFile, &[u8]), MetaFault>
    ensures { Gives (λ a. (a.0, a.1.now)) result (part_at bytes.now) }
{
    let (part, rest) = u32_at(bytes)?;
    let (block, rest) = u64_at(rest)?;
    let (size, rest) = u64_at(rest)?;
    Ok((PartFile { part, block, size }, rest))
}

fn numbers_of(alloc: Global, count: u64, bytes: &[u8]) -> Result<(Vec<u64>, &[u8]), MetaFault>
    ensures { Gives (λ a. (a.0.items, a.1.now)) result (items_at (number_at w64) count bytes.now) }
{
    let mut numbers = Vec::new(alloc);
    let mut rest = bytes;
    for _ in 0..count {
        let (number, behind) = u64_at(rest)?;
        numbers.push(number)?;
        rest = behind;
    }
    Ok((numbers, rest))
}

fn part_list_of(
    alloc: Global,
    count: u32,
    bytes: &[u8],
) -> Result<(Vec<PartFile>, &[u8]), MetaFault>
    ensures { Gives (λ a. (a.0.items, a.1.now)) result (items_at part_at count bytes.now) }
{
    let mut parts = Vec::new(alloc);
    let mut rest = bytes;
    for _ in 0..count {
        let (part, behind) = part_of(rest)?;
        parts.push(part)?;
        rest = behind;
    }
    Ok((parts, rest))
}

#[tactic(auto, unfolding(crate::specs::Fields::versions_at))]
fn versions_of(alloc: Global, bytes: &[u8]) -> Result<(Items<u64>, &[u8]), MetaFault>
    ensures { Gives (λ a. (a.0, a.1.now)) result (versions_at bytes.now) }
{
    let (count, rest) = u32_at(bytes)?;
    let (versions, rest) = numbers_of(alloc, u64::from(count), rest)?;
    Ok((Items::from_vec(versions), rest))
}

#[tactic(auto, unfolding(crate::specs::Fields::parts_at))]
fn parts_of(alloc: Global, bytes: &[u8]) -> Result<(Items<PartFile>, &[u8]), MetaFault>
    ensures { Gives (λ a. (a.0, a.1.now)) result (parts_at bytes.now) }
{
    let (count, rest) = u32_at(bytes)?;
    let (parts, rest) = part_list_of(alloc, count, rest)?;
    Ok((Items::from_vec(parts), rest))
}

#[tactic(auto, unfolding(crate::specs::Fields::kept_at))]
fn kept_of(alloc: Global, bytes: &[u8]) -> Result<(Items<u64>, &[u8]), MetaFault>
    ensures { Gives (λ a. (a.0, a.1.now)) result (kept_at bytes.now) }
{
    let (count, rest) = u64_at(bytes)?;
    let (kept, rest) = numbers_of(alloc, count, rest)?;
    Ok((Items::from_vec(kept), rest))
}

/// Nothing is left.
fn ended(rest: &[u8]) -> Result<(), MetaFault>
    ensures { IsTrue (is_ok result) ↔ (length rest.now ≡ 0) }
{
    if rest.is_empty() {
        Ok(())
    } else {
        Err(MetaFault::BadRecord)
    }
}

#[tactic(auto, unfolding(crate::specs::Fields::load_of))]
fn load_from(bytes: &[u8]) -> Result<Commit, MetaFault>
    ensures { Gives (λ a. a) result (load_of bytes.now) }
{
    let (channel, rest) = u32_at(bytes)?;
    let (block, rest) = u64_at(rest)?;
    let (size, rest) = u64_at(rest)?;
    ended(rest)?;
    Ok(Commit::Load {
        channel,
        block,
        size,
    })
}

#[tactic(auto, unfolding(crate::specs::Fields::tick_of))]
fn tick_from(bytes: &[u8]) -> Result<Commit, MetaFault>
    ensures { Gives (λ a. a) result (tick_of bytes.now) }
{
    let (moment, rest) = u64_at(bytes)?;
    ended(rest)?;
    Ok(Commit::Tick { moment })
}

#[tactic(auto, unfolding(crate::specs::Fields::run_of))]
fn run_from(alloc: Global, bytes: &[u8]) -> Result<Commit, MetaFault>
    ensures { Gives (λ a. a) result (run_of bytes.now) }
{
    let (task, rest) = u32_at(bytes)?;
    let (versions, rest) = versions_of(alloc, rest)?;
    let (moment, rest) = u64_at(rest)?;
    let (seen, rest) = u64_at(rest)?;
    let (block, rest) = u64_at(rest)?;
    let (size, rest) = u64_at(rest)?;
    let (parts, rest) = parts_of(alloc, rest)?;
    ended(rest)?;
    Ok(Commit::Run {
        task,
        versions,
        moment,
        seen,
        block,
        size,
        parts,
    })
}

#[tactic(auto, unfolding(crate::specs::Fields::joined_of))]
fn joined_from(bytes: &[u8]) -> Result<Commit, MetaFault>
    ensures { Gives (λ a. a) result (joined_of bytes.now) }
{
    let (channel, rest) = u32_at(bytes)?;
    let (from, rest) = u64_at(rest)?;
    let (to, rest) = u64_at(rest)?;
    let (block, rest) = u64_at(rest)?;
    let (size, rest) = u64_at(rest)?;
    ended(rest)?;
    Ok(Commit::Joined {
        channel,
        from,
        to,
        block,
        size,
    })
}

/// Each number is above the one before it.
pub fn is_rising(numbers: &[u64]) -> bool
    ensures rise { result ≡ rise numbers.now }
    ensures order { IsTrue result → IsNonDecreasing numbers.now }
{
    let mut rest = numbers;
    while let [first, second, ..] = rest {
        if first >= second {
            return false;
        }
        rest = &rest[1..];
    }
    true
}

#[tactic(auto, unfolding(crate::specs::Fields::collected_of))]
fn collected_from(alloc: Global, bytes: &[u8]) -> Result<Commit, MetaFault>
    ensures { Gives (λ a. a) result (collected_of bytes.now) }
{
    let (kept, rest) = kept_of(alloc, bytes)?;
    ended(rest)?;
    if !is_rising(kept.as_slice()) {
        return Err(MetaFault::BadRecord);
    }
    Ok(Commit::Collected { kept })
}

#[tactic(auto, unfolding(crate::specs::Fields::commit_of))]
fn commit_from(alloc: Global, bytes: &[u8]) -> Result<Commit, MetaFault>
    ensures { Gives (λ a. a) result (commit_of bytes.now) }
{
    match bytes {
        [1, text @ ..] => Ok(Commit::Flow {
            text: Items::from_vec(Vec::from_slice(alloc, text)?),
        }),
        [2, fields @ ..] => load_from(fields),
        [3, fields @ ..] => tick_from(fields),
        [4, fields @ ..] => run_from(alloc, fields),
        [5, fields @ ..] => joined_from(fields),
        [6, fields @ ..] => collected_from(alloc, fields),
        _ => Err(MetaFault::BadRecord),
    }
}

/// The commit that these bytes spell.
pub fn decode_commit(alloc: Global, bytes: &[u8]) -> Result<Commit, MetaFault>
    // What is read is spelled so, each byte of it.
    ensures found { IfOk result (λ commit. Fits commit × (bytes.now ≡ commit_bytes commit)) }
    // A refusal for another cause than memory says that no commit is spelled so.
    ensures refused { result ≡ Err BadRecord → (commit : Commit) → Fits commit → bytes.now ≡ commit_bytes commit → ⊥ }
{
    commit_from(alloc, bytes)
}
