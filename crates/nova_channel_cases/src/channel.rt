//! A channel that is read: its catalog, and a host in memory with its blocks.
ghost use Rattle.std.specs.Prelude.{◌≡◌, ◌<◌, length, true, IfOk};
ghost use Rattle.std.specs.List.{list_all};
ghost use Rattle.nova_path.specs.Shelf.{HasPath};
ghost use Rattle.nova_path.specs.Intervals.{spans};
ghost use Rattle.nova_meta.specs.Catalog.{shelf_at};
ghost use Rattle.nova_meta.specs.Wired.{IsWiring};
ghost use Rattle.nova_channel.specs.Reading.{AreNumbered};
ghost use Rattle.nova_channel_cases.specs.Examples.{is_low};

use crate::rows::{delta_of, lines_of_delta, lines_of_table, schema};
use nova_block::{BlockFault, encode, put};
use nova_case::Step;
use nova_channel::{read, read_table};
use nova_mem::MemHost;
use nova_meta::{Catalog, Commit, MetaFault, Wiring};
use nova_path::{Interval, path};
use sqlite_items::Items;
use std::alloc::{AllocError, Global};

/// One channel, which loads write.
#[tactic(auto, using(crate::proofs::Example::one_is_wired))]
fn wiring(alloc: Global) -> Result<Wiring, AllocError>
    ensures { IfOk result IsWiring }
{
    Ok(Wiring {
        writers: Items::from_vec(vec![in alloc; None]?),
        tasks: Items::new(alloc),
    })
}

/// A channel, and the host that has its blocks.
#[derive(Drop)]
pub struct Channel {
    catalog: Catalog,
    host: MemHost,
}

/// The number of a word; where it is none, the greatest.
fn number(word: Option<&str>) -> u64 {
    word.unwrap_or("").parse::<u64>().unwrap_or(u64::MAX)
}

/// Two numbers, parted by a space.
fn two_numbers(words: &str) -> (u64, u64) {
    let (first, second) = words.split_once(' ').unwrap_or((words, ""));
    (number(Some(first)), number(Some(second)))
}

/// Whether the blocks of all intervals have files.
fn are_numbered(intervals: &[Interval]) -> bool
    ensures { result ≡ list_all is_low intervals.now }
{
    intervals.iter().all(|interval| interval.block < 1 << 62)
}

/// Whether a channel can be read from one version to another.
#[tactic(auto, using(crate::proofs::Example::numbered, crate::proofs::Example::path_found))]
fn is_readable(alloc: Global, catalog: &Catalog, from: u64, to: u64) -> Result<bool, AllocError>
    requires { 0 < length catalog.now.channels }
    ensures numbered { IfOk result (λ yes. yes ≡ true → AreNumbered (shelf_at catalog.now 0).intervals) }
    ensures path { IfOk result (λ yes. yes ≡ true → HasPath (spans (shelf_at catalog.now 0).intervals) from to) }
{
    let intervals = catalog.intervals(0);
    if from > to || !are_numbered(intervals) {
        return Ok(false);
    }
    Ok(path(alloc, intervals, from, to)?.is_some())
}

/// Why nothing was read.
fn fault(alloc: Global, fault: BlockFault) -> Result<Vec<u8>, AllocError> {
    match fault {
        BlockFault::Disk => b"disk\n".to_vec(alloc),
        BlockFault::Damaged { file, at } => {
            Ok(format!(in alloc; "damaged {file} {at}\n")?.into_bytes())
        }
        BlockFault::NoMemory => Err(AllocError),
    }
}

/// Adds a commit to a catalog, where its rules allow it.
fn commit(alloc: Global, catalog: &mut Catalog, commit: &Commit) -> Result<bool, AllocError> {
    match catalog.prepare(alloc, commit) {
        Ok(prepared) => {
            catalog.apply(prepared);
            Ok(true)
        }
        Err(MetaFault::BadRecord) => Ok(false),
        Err(MetaFault::NoMemory) => Err(AllocError),
    }
}

/// Adds how many bytes were read.
fn with_count(alloc: Global, lines: Vec<u8>, count: u64) -> Result<Vec<u8>, AllocError> {
    let mut out = lines;
    let text = format!(in alloc; "{count} bytes read\n")?;
    out.extend_from_slice(text.as_str().as_bytes())?;
    Ok(out)
}

impl Channel {
    /// A channel without a version.
    pub fn new(alloc: Global) -> Result<Channel, AllocError> {
        let mut catalog = Catalog::start(alloc, wiring(alloc)?)?;
        let text = Items::new(alloc);
        let _ = commit(alloc, &mut catalog, &Commit::Flow { text })?;
        Ok(Channel {
            catalog,
            host: MemHost::new(alloc),
        })
    }

    /// Puts the block of a delta in a file and adds it to the channel: a load, or with two versions
    /// a block that joins others.
    fn add(&mut self, alloc: Global, step: &Step) -> Result<Vec<u8>, AllocError> {
        let bytes = encode(alloc, &delta_of(alloc, &step.input)?)?;
        let block = self.catalog.next_block();
        let size = bytes.len() as u64;
        let (from, to) = two_numbers(step.words.as_str());
        let added = if step.verb.as_str() == "load" {
            Commit::Load {
                channel: 0,
                block,
                size,
            }
        } else {
            Commit::Joined {
                channel: 0,
                from,
                to,
                block,
                size,
            }
        };
        let file = block.saturating_mul(4).saturating_add(2);
        let is_put = put(&mut self.host, file, &bytes).is_ok();
        if !is_put || !commit(alloc, &mut self.catalog, &added)? {
            return b"not added\n".to_vec(alloc);
        }
        Ok(format!(in alloc; "{size} bytes in file {file}\n")?.into_bytes())
    }

    /// What is read from one version to another.
    fn read(&mut self, alloc: Global, words: &str) -> Result<Vec<u8>, AllocError> {
        let (from, to) = two_numbers(words);
        if self.catalog.channel_count() == 0 || !is_readable(alloc, &self.catalog, from, to)? {
            return b"no path\n".to_vec(alloc);
        }
        let before = self.host.read_count();
        match read(
            alloc,
            &mut self.host,
            &self.catalog,
            &schema(alloc)?,
            0,
            from,
            to,
        ) {
            Ok(delta) => {
                let count = self.host.read_count().saturating_sub(before);
                with_count(alloc, lines_of_delta(alloc, &delta)?, count)
            }
            Err(reason) => fault(alloc, reason),
        }
    }

    /// The rows of a version.
    fn table(&mut self, alloc: Global, to: u64) -> Result<Vec<u8>, AllocError> {
        if self.catalog.channel_count() == 0 || !is_readable(alloc, &self.catalog, 0, to)? {
            return b"no path\n".to_vec(alloc);
        }
        let before = self.host.read_count();
        match read_table(alloc, &mut self.host, &self.catalog, &schema(alloc)?, 0, to) {
            Ok(table) => {
                let count = self.host.read_count().saturating_sub(before);
                with_count(alloc, lines_of_table(alloc, &table)?, count)
            }
            Err(reason) => fault(alloc, reason),
        }
    }

    /// Puts the bytes of one file in another, or the first of its own.
    fn damage(&mut self, alloc: Global, step: &Step) -> Result<Vec<u8>, AllocError> {
        let (first, second) = two_numbers(step.words.as_str());
        let bytes = self.host.file(first).unwrap_or(&[]).to_vec(alloc)?;
        let is_done = if step.verb.as_str() == "cut" {
            let length = usize::try_from(second).unwrap_or(usize::MAX);
            put(&mut self.host, first, bytes.get(..length).unwrap_or(&[])).is_ok()
        } else {
            put(&mut self.host, second, &bytes).is_ok()
        };
        if is_done {
            return Ok(Vec::new(alloc));
        }
        b"not done\n".to_vec(alloc)
    }

    /// What a step answers: `load` and `join FROM TO` add the block of the input's entries; `read FROM
    /// TO` and `table VERSION` give what is read and how many bytes of the host that took; `cut FILE
    /// LENGTH` and `copy FILE FILE` damage a file; after `fail N` the host's call N from there on
    /// fails, the next one being 0.
    pub fn answer(&mut self, alloc: Global, step: &Step) -> Result<Vec<u8>, AllocError> {
        let words = step.words.as_str();
        match step.verb.as_str() {
            "load" | "join" => self.add(alloc, step),
            "read" => self.read(alloc, words),
            "table" => self.table(alloc, number(Some(words))),
            "cut" | "copy" => self.damage(alloc, step),
            "fail" => {
                let call = self.host.calls().saturating_add(number(Some(words)));
                self.host.fail_at(call)?;
                Ok(Vec::new(alloc))
            }
            _ => b"no such step\n".to_vec(alloc),
        }
    }
}
