//! Commits as bytes.
ghost use Rattle.std.specs.Prelude.{◌≡◌, ◌++◌, ◌^◌, ◌<◌, IfOk, OnOk, length};
ghost use Rattle.std.specs.List.{flat_map};
ghost use Rattle.nova_commit.specs.Commits.{HasSpelling, IsNarrow, commit_bytes, eight, four, kept_bytes, part_bytes, parts_bytes, rise, versions_bytes};
ghost use Rattle.nova_commit.specs.declared.commit.Commit.TheVariants.{Flow, Load, Tick, Run, Joined, Collected};

use crate::commit::{Commit, PartFile};
use sqlite_items::Items;
use std::alloc::{AllocError, Global};

fn put_u32(out: &mut Vec<u8>, number: u32) -> Result<(), AllocError>
    ensures { OnOk result (out.new.items ≡ out.old.items ++ four number) }
{
    out.extend_from_slice(&number.to_be_bytes())
}

fn put_u64(out: &mut Vec<u8>, number: u64) -> Result<(), AllocError>
    ensures { OnOk result (out.new.items ≡ out.old.items ++ eight number) }
{
    out.extend_from_slice(&number.to_be_bytes())
}

fn put_numbers(out: &mut Vec<u8>, numbers: &[u64]) -> Result<(), AllocError>
    ensures { OnOk result (out.new.items ≡ out.old.items ++ flat_map eight numbers.now) }
{
    for number in numbers {
        put_u64(out, *number)?;
    }
    Ok(())
}

fn put_part(out: &mut Vec<u8>, part: &PartFile) -> Result<(), AllocError>
    ensures { OnOk result (out.new.items ≡ out.old.items ++ part_bytes part.now) }
{
    put_u32(out, part.part)?;
    put_u64(out, part.block)?;
    put_u64(out, part.size)?;
    Ok(())
}

fn put_parts(out: &mut Vec<u8>, parts: &[PartFile]) -> Result<(), AllocError>
    requires { IsNarrow (length parts.now) }
    ensures { OnOk result (out.new.items ≡ out.old.items ++ parts_bytes parts.now) }
{
    put_u32(out, parts.len() as u32)?;
    put_part_items(out, parts)?;
    Ok(())
}

fn put_part_items(out: &mut Vec<u8>, parts: &[PartFile]) -> Result<(), AllocError>
    ensures { OnOk result (out.new.items ≡ out.old.items ++ flat_map part_bytes parts.now) }
{
    for part in parts {
        put_part(out, part)?;
    }
    Ok(())
}

#[tactic(auto, unfolding(crate::specs::Commits::commit_bytes))]
fn flow_bytes(alloc: Global, text: &Items<u8>) -> Result<Vec<u8>, AllocError>
    ensures { IfOk result (λ bytes. bytes.items ≡ commit_bytes (Flow text.now)) }
{
    let mut bytes = Vec::new(alloc);
    bytes.push(1)?;
    bytes.extend_from_slice(text.as_slice())?;
    Ok(bytes)
}

#[tactic(auto, unfolding(crate::specs::Commits::commit_bytes))]
fn load_bytes(alloc: Global, channel: u32, block: u64, size: u64) -> Result<Vec<u8>, AllocError>
    ensures { IfOk result (λ bytes. bytes.items ≡ commit_bytes (Load channel block size)) }
{
    let mut bytes = Vec::with_capacity(alloc, 21)?;
    bytes.push(2)?;
    put_u32(&mut bytes, channel)?;
    put_u64(&mut bytes, block)?;
    put_u64(&mut bytes, size)?;
    Ok(bytes)
}

#[tactic(auto, unfolding(crate::specs::Commits::commit_bytes))]
fn tick_bytes(alloc: Global, moment: u64) -> Result<Vec<u8>, AllocError>
    ensures { IfOk result (λ bytes. bytes.items ≡ commit_bytes (Tick moment)) }
{
    let mut bytes = Vec::with_capacity(alloc, 9)?;
    bytes.push(3)?;
    put_u64(&mut bytes, moment)?;
    Ok(bytes)
}

#[tactic(auto, unfolding(crate::specs::Commits::commit_bytes))]
fn joined_bytes(
    alloc: Global,
    channel: u32,
    from: u64,
    to: u64,
    block: u64,
    size: u64,
) -> Result<Vec<u8>, AllocError>
    ensures { IfOk result (λ bytes. bytes.items ≡ commit_bytes (Joined channel from to block size)) }
{
    let mut bytes = Vec::with_capacity(alloc, 37)?;
    bytes.push(5)?;
    put_u32(&mut bytes, channel)?;
    put_u64(&mut bytes, from)?;
    put_u64(&mut bytes, to)?;
    put_u64(&mut bytes, block)?;
    put_u64(&mut bytes, size)?;
    Ok(bytes)
}

#[tactic(auto, unfolding(crate::specs::Commits::commit_bytes))]
fn collected_bytes(alloc: Global, kept: &Items<u64>) -> Result<Vec<u8>, AllocError>
    ensures { IfOk result (λ bytes. bytes.items ≡ commit_bytes (Collected kept.now)) }
{
    let kept = kept.as_slice();
    let mut bytes = Vec::new(alloc);
    bytes.push(6)?;
    put_u64(&mut bytes, kept.len() as u64)?;
    put_numbers(&mut bytes, kept)?;
    Ok(bytes)
}

/// The fields of a run up to its versions.
fn put_versions(out: &mut Vec<u8>, versions: &Items<u64>) -> Result<(), AllocError>
    requires { IsNarrow (length versions.now) }
    ensures { OnOk result (out.new.items ≡ out.old.items ++ versions_bytes versions.now) }
{
    let versions = versions.as_slice();
    put_u32(out, versions.len() as u32)?;
    put_numbers(out, versions)?;
    Ok(())
}

/// What a run captured.
fn put_captured(
    out: &mut Vec<u8>,
    versions: &Items<u64>,
    moment: u64,
    seen: u64,
) -> Result<(), AllocError>
    requires { IsNarrow (length versions.now) }
    ensures { OnOk result (out.new.items ≡ out.old.items ++ (versions_bytes versions.now ++ (eight moment ++ eight seen))) }
{
    put_versions(out, versions)?;
    put_u64(out, moment)?;
    put_u64(out, seen)?;
    Ok(())
}

/// The files that a run wrote.
fn put_files(
    out: &mut Vec<u8>,
    block: u64,
    size: u64,
    parts: &Items<PartFile>,
) -> Result<(), AllocError>
    requires { IsNarrow (length parts.now) }
    ensures { OnOk result (out.new.items ≡ out.old.items ++ (eight block ++ (eight size ++ parts_bytes parts.now))) }
{
    put_u64(out, block)?;
    put_u64(out, size)?;
    put_parts(out, parts.as_slice())?;
    Ok(())
}

/// The one spelling of a commit.
#[tactic(auto, unfolding(crate::specs::Commits::commit_bytes))]
pub fn encode_commit(alloc: Global, commit: &Commit) -> Result<Vec<u8>, AllocError>
    requires { HasSpelling commit.now }
    ensures { IfOk result (λ bytes. bytes.items ≡ commit_bytes commit.now) }
{
    match commit {
        Commit::Flow { text } => flow_bytes(alloc, text),
        Commit::Load {
            channel,
            block,
            size,
        } => load_bytes(alloc, *channel, *block, *size),
        Commit::Tick { moment } => tick_bytes(alloc, *moment),
        Commit::Joined {
            channel,
            from,
            to,
            block,
            size,
        } => joined_bytes(alloc, *channel, *from, *to, *block, *size),
        Commit::Collected { kept } => collected_bytes(alloc, kept),
        Commit::Run {
            task,
            versions,
            moment,
            seen,
            block,
            size,
            parts,
        } => {
            let mut bytes = Vec::new(alloc);
            bytes.push(4)?;
            put_u32(&mut bytes, *task)?;
            put_captured(&mut bytes, versions, *moment, *seen)?;
            put_files(&mut bytes, *block, *size, parts)?;
            Ok(bytes)
        }
    }
}
