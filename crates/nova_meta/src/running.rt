//! Which runs may come next, and what they change.
ghost use Rattle.std.specs.Prelude.{◌≡◌, ◌<◌, ◌≤◌, ◌+◌, ◌^◌, ◌==◌, ◌&&◌, nat_le, nat_lt, All, false, length, IfOk, Err};
ghost use Rattle.nova_meta.specs.Catalog.{allows, is_timely, may_count, may_parts, may_see, may_see_all, may_write, part_count, progress_at, with_parts};
ghost use Rattle.nova_meta.specs.Prepared.{IsPrepared};
ghost use Rattle.nova_meta.specs.Wired.{wire_at};
ghost use Rattle.nova_meta.specs.declared.wiring.Edge.{Edge};
ghost use Rattle.nova_commit.specs.declared.commit.Commit.TheVariants.{Run};
ghost use Rattle.nova_commit.specs.declared.fault.MetaFault.TheVariants.{BadRecord};

use crate::captured::{Captured, Versions};
use crate::catalog::Catalog;
use crate::prepared::{Change, Prepared};
use crate::progress::{PART_COUNT, Progress, StateFile};
use crate::shelf::LIMIT;
use crate::spans::leads;
use crate::wiring::Edge;
use nova_commit::{MetaFault, PartFile};
use sqlite_items::Items;
use std::alloc::{AllocError, Global};

/// Whether a part's number isn't below `least` and there is such a part, and its block is `block`.
fn may_part(least: u32, block: u64, part: &PartFile) -> bool
    ensures { result ≡ (nat_le least part.now.part && (nat_lt part.now.part part_count && (part.now.block == block))) }
{
    least <= part.part && part.part < PART_COUNT && part.block == block
}

/// Whether the parts' numbers rise, and their blocks have the numbers from this one on.
fn may_parts(block: u64, parts: &[PartFile]) -> bool
    requires { block + length parts.now ≤ 2 ^ 63 }
    ensures { result ≡ may_parts 0 block parts.now }
{
    let mut least = 0;
    let mut next = block;
    for part in parts {
        if !may_part(least, next, part) {
            return false;
        }
        least = part.part + 1;
        next += 1;
    }
    true
}

impl Catalog {
    /// Whether the paths of a run's captured versions are there: no version is above its channel's,
    /// and of an input that is read as new it isn't below the cursor, and a path leads on from it.
    fn may_see(
        &self,
        alloc: Global,
        task: u32,
        input: u32,
        edge: &Edge,
        version: u64,
    ) -> Result<bool, AllocError>
        requires task { task < length self.now.tasks }
        requires input { input < length (wire_at self.now.wiring task).inputs }
        requires channel { edge.now.channel < length self.now.channels }
        ensures { IfOk result (λ yes. yes ≡ may_see self.now (progress_at self.now task).last input edge.now version) }
    {
        let shelves = self.channels.as_slice();
        let shelf = &shelves[edge.channel as usize];
        let newest = shelf.version();
        if version > newest {
            return Ok(false);
        }
        if !edge.new {
            return Ok(true);
        }
        if self.cursor(task, input) > version {
            return Ok(false);
        }
        leads(alloc, shelf.intervals(), version, newest)
    }

    /// The same of each input of the task, one version each.
    fn may_see_each(
        &self,
        alloc: Global,
        task: u32,
        inputs: &[Edge],
        versions: &[u64],
    ) -> Result<bool, AllocError>
        requires task { task < length self.now.tasks }
        requires inputs { inputs.now ≡ (wire_at self.now.wiring task).inputs }
        requires few { length inputs.now ≤ 16 }
        requires channels { All (λ (edge : Edge). edge.channel < length self.now.channels) inputs.now }
        requires same { length inputs.now ≡ length versions.now }
        ensures { IfOk result (λ yes. yes ≡ may_see_all self.now (progress_at self.now task).last 0 inputs.now versions.now) }
    {
        for (input, edge) in inputs.iter().enumerate() {
            let yes = self.may_see(alloc, task, input as u32, edge, versions[input])?;
            if !yes {
                return Ok(false);
            }
        }
        Ok(true)
    }

    fn may_see_all(&self, alloc: Global, task: u32, versions: &[u64]) -> Result<bool, AllocError>
        requires { task < length self.now.tasks }
        ensures { IfOk result (λ yes. yes ≡ may_see_all self.now (progress_at self.now task).last 0 (wire_at self.now.wiring task).inputs versions.now) }
    {
        let inputs = self.wire(task).inputs.as_slice();
        if inputs.len() != versions.len() {
            return Ok(false);
        }
        self.may_see_each(alloc, task, inputs, versions)
    }

    /// Whether a run may have seen so many runs of the task that its cascade trigger names.
    fn may_count(&self, task: u32, seen: u64) -> bool
        requires { task < length self.now.tasks }
        ensures { result ≡ may_count self.now (wire_at self.now.wiring task).after seen }
    {
        match self.wire(task).after {
            Some(other) => seen <= self.runs(other),
            None => seen == 0,
        }
    }

    fn is_timely(&self, task: u32, moment: u64, seen: u64) -> bool
        requires { task < length self.now.tasks }
        ensures { result ≡ is_timely self.now task moment seen }
    {
        let last = match self.last(task) {
            Some(run) => run.moment,
            None => 0,
        };
        last <= moment && moment <= self.moment && self.may_count(task, seen)
    }

    fn may_write(&self, task: u32, block: u64, size: u64, parts: &[PartFile]) -> bool
        requires { task < length self.now.tasks }
        ensures { result ≡ may_write self.now task block size parts.now }
    {
        let wire = self.wire(task);
        self.may_add(wire.output, block, size)
            && self.may_grow(wire.output)
            && self.runs(task) < LIMIT
            && self.next < LIMIT
            && (parts.len() as u64) < LIMIT - self.next
            && (wire.stateful || parts.is_empty())
            && may_parts(self.next + 1, parts)
    }

    /// Whether a run may come next.
    fn may_run(
        &self,
        alloc: Global,
        task: u32,
        versions: &[u64],
        moment: u64,
        seen: u64,
        block: u64,
        size: u64,
        parts: &[PartFile],
    ) -> Result<bool, AllocError>
        ensures { IfOk result (λ yes. yes ≡ allows self.now (Run task versions.now moment seen block size parts.now)) }
    {
        if !self.begun || task as usize >= self.tasks.len() {
            return Ok(false);
        }
        if !self.is_timely(task, moment, seen) || !self.may_write(task, block, size, parts) {
            return Ok(false);
        }
        self.may_see_all(alloc, task, versions)
    }

    /// The files of a task's state parts, these in the place of earlier ones.
    fn files_with(
        &self,
        alloc: Global,
        task: u32,
        parts: &[PartFile],
    ) -> Result<Items<Option<StateFile>>, AllocError>
        requires { task < length self.now.tasks }
        ensures { IfOk result (λ files. files ≡ with_parts parts.now (progress_at self.now task).parts) }
    {
        let tasks = self.tasks.as_slice();
        let mut files = Items::from_slice(alloc, tasks[task as usize].parts.as_slice())?;
        for part in parts {
            if (part.part as usize) < files.len() {
                let file = StateFile {
                    block: part.block,
                    size: part.size,
                };
                files.set(part.part as usize, Some(file));
            }
        }
        Ok(files)
    }

    pub(crate) fn prepare_run(
        &self,
        alloc: Global,
        task: u32,
        versions: &[u64],
        moment: u64,
        seen: u64,
        block: u64,
        size: u64,
        parts: &[PartFile],
    ) -> Result<Prepared, MetaFault>
        ensures prepared { IfOk result (λ prepared. IsPrepared self.now (Run task versions.now moment seen block size parts.now) prepared) }
        ensures refused { result ≡ Err BadRecord → allows self.now (Run task versions.now moment seen block size parts.now) ≡ false }
    {
        let yes = self.may_run(alloc, task, versions, moment, seen, block, size, parts)?;
        if !yes {
            return Err(MetaFault::BadRecord);
        }
        let channel = self.wire(task).output;
        let run = Captured {
            versions: Versions::copied(versions),
            moment,
            seen,
        };
        let shelf = self.next_shelf(alloc, channel, block, size)?;
        let parts_now = self.files_with(alloc, task, parts)?;
        Ok(Prepared {
            change: Change::Ran {
                task,
                progress: Progress {
                    runs: self.runs(task) + 1,
                    last: Some(run),
                    parts: parts_now,
                },
                channel,
                shelf,
                next: self.next + 1 + parts.len() as u64,
            },
        })
    }
}
