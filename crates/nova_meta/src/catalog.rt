//! The catalog: what a store's commits have made so far.
ghost use Rattle.std.specs.Prelude.{◌≡◌, ◌<◌, ◌≤◌, true, length, map, IfOk, None, option_map, replicate, slice_index_or};
ghost use Rattle.std.specs.Option.{option_copied};
ghost use Rattle.nova_meta.specs.Catalog.{applied, blank, captured, no_run, nothing_shelved, progress_at, shelf_at};
ghost use Rattle.nova_meta.specs.Shelves.{IsShelved};
ghost use Rattle.nova_meta.specs.Prepared.{IsPrepared, IsWithin, changed};
ghost use Rattle.nova_meta.specs.Wired.{IsWire, IsWiring, wire_at};
ghost use Rattle.nova_commit.specs.declared.commit.Commit.{Commit};
ghost use Rattle.nova_commit.specs.declared.commit.Commit.TheVariants.{Tick};

use crate::captured::Captured;
use crate::prepared::{Change, Prepared};
use crate::progress::{Progress, StateFile};
use crate::shelf::Shelf;
use crate::wiring::{Wire, Wiring};
use nova_path::Interval;
use sqlite_items::Items;
use std::alloc::{AllocError, Global};
use std::marker::Model;

/// Per channel its version and its intervals, per task its runs, the moment and the next block's
/// number.
#[derive(Drop)]
pub struct Catalog {
    pub(crate) wiring: Wiring,
    pub(crate) begun: bool,
    pub(crate) channels: Items<Shelf>,
    pub(crate) tasks: Items<Progress>,
    pub(crate) moment: u64,
    pub(crate) next: u64,
}

impl Model for Catalog {
    ghost use Rattle.nova_meta.specs.Catalog.{Entered};
    ghost use Rattle.nova_meta.specs.Shelves.{IsEntered};

    ghost Value = { Entered };

    ghost view = { λ c. record { wiring = c.wiring; begun = c.begun; channels = c.channels; tasks = c.tasks; moment = c.moment; next = c.next } };

    ghost invariant = { λ c. IsEntered (record { wiring = c.wiring; begun = c.begun; channels = c.channels; tasks = c.tasks; moment = c.moment; next = c.next }) };
}

fn blank_shelves(alloc: Global, writers: &[Option<u32>]) -> Result<Items<Shelf>, AllocError>
    ensures { IfOk result (λ shelves. shelves ≡ map (λ c. nothing_shelved) writers.now) }
{
    let mut shelves = Vec::new(alloc);
    for _ in writers {
        shelves.push(Shelf::new(alloc))?;
    }
    Ok(Items::from_vec(shelves))
}

fn no_files(alloc: Global) -> Result<Items<Option<StateFile>>, AllocError>
    ensures { IfOk result (λ files. files ≡ replicate 16 None) }
{
    Ok(Items::from_vec(vec![in alloc; None; 16]?))
}

fn blank_tasks(alloc: Global, tasks: &[Wire]) -> Result<Items<Progress>, AllocError>
    ensures { IfOk result (λ blanks. blanks ≡ map (λ t. no_run) tasks.now) }
{
    let mut blanks = Vec::new(alloc);
    for _ in tasks {
        blanks.push(Progress {
            runs: 0,
            last: None,
            parts: no_files(alloc)?,
        })?;
    }
    Ok(Items::from_vec(blanks))
}

impl Catalog {
    /// The catalog of no commits.
    pub fn start(alloc: Global, wiring: Wiring) -> Result<Catalog, AllocError>
        requires { IsWiring wiring }
        ensures { IfOk result (λ catalog. catalog ≡ blank wiring) }
    {
        let channels = blank_shelves(alloc, wiring.writers.as_slice())?;
        let tasks = blank_tasks(alloc, wiring.tasks.as_slice())?;
        Ok(Catalog {
            wiring,
            begun: false,
            channels,
            tasks,
            moment: 0,
            next: 0,
        })
    }

    /// What a commit that was prepared by this catalog as it stands makes of it.
    pub fn apply(&mut self, prepared: Prepared)
        requires { (commit : Commit) × IsPrepared self.old commit prepared }
        ensures { (commit : Commit) → IsPrepared self.old commit prepared → self.new ≡ applied self.old commit }
    {
        let Prepared { change } = prepared;
        self.change(change);
    }

    /// Parts in the place of its own.
    fn change(&mut self, change: Change)
        requires { IsWithin self.old change }
        ensures { self.new ≡ changed self.old change }
    {
        match change {
            Change::Begin => self.begun = true,
            Change::Clock { moment } => self.moment = moment,
            Change::Shelved {
                channel,
                shelf,
                next,
            } => {
                self.channels.set(channel as usize, shelf);
                self.next = next;
            }
            Change::Ran {
                task,
                progress,
                channel,
                shelf,
                next,
            } => {
                self.channels.set(channel as usize, shelf);
                self.tasks.set(task as usize, progress);
                self.next = next;
            }
            Change::Kept { channels } => self.channels = channels,
        }
    }

    /// The clock's new moment, which isn't below the last one.
    pub fn tick(&mut self, moment: u64)
        requires begun { self.old.begun ≡ true }
        requires later { self.old.moment ≤ moment }
        ensures { self.new ≡ applied self.old (Tick moment) }
    {
        self.moment = moment;
    }

    /// How many channels there are.
    pub fn channel_count(&self) -> u32
        ensures { result ≡ length self.now.channels }
    {
        self.channels.len() as u32
    }

    /// How many tasks there are.
    pub fn task_count(&self) -> u32
        ensures { result ≡ length self.now.tasks }
    {
        self.tasks.len() as u32
    }

    /// A task's channels.
    pub(crate) fn wire(&self, task: u32) -> &Wire
        requires { task < length self.now.tasks }
        ensures wire { result.now ≡ wire_at self.now.wiring task }
        ensures wired { IsWire self.now.wiring task result.now }
        ensures channels { length self.now.channels ≡ length self.now.wiring.writers }
    {
        let tasks = self.wiring.tasks.as_slice();
        &tasks[task as usize]
    }

    /// The number of a channel's newest version.
    pub fn version(&self, channel: u32) -> u64
        requires { channel < length self.now.channels }
        ensures { result ≡ (shelf_at self.now channel).version }
    {
        let shelves = self.channels.as_slice();
        shelves[channel as usize].version()
    }

    /// A channel's intervals in order of where they begin, and then of where they end.
    pub fn intervals(&self, channel: u32) -> &[Interval]
        requires { channel < length self.now.channels }
        ensures intervals { result.now ≡ (shelf_at self.now channel).intervals }
        ensures shelf { IsShelved (shelf_at self.now channel) }
    {
        let shelves = self.channels.as_slice();
        shelves[channel as usize].intervals()
    }

    /// How often a task ran.
    pub fn runs(&self, task: u32) -> u64
        requires { task < length self.now.tasks }
        ensures { result ≡ (progress_at self.now task).runs }
    {
        let tasks = self.tasks.as_slice();
        tasks[task as usize].runs
    }

    /// The clock's moment, 0 before the first tick.
    pub fn moment(&self) -> u64
        ensures { result ≡ self.now.moment }
    {
        self.moment
    }

    /// The number that the next block will have.
    pub fn next_block(&self) -> u64
        ensures { result ≡ self.now.next }
    {
        self.next
    }

    /// What a task's last run captured, or None where it never ran.
    pub fn last(&self, task: u32) -> Option<&Captured>
        requires { task < length self.now.tasks }
        ensures { option_copied result ≡ (progress_at self.now task).last }
    {
        let tasks = self.tasks.as_slice();
        tasks[task as usize].last.as_ref()
    }

    /// The version that the last run of a task captured of an input, 0 before any run.
    pub fn cursor(&self, task: u32, input: u32) -> u64
        requires task { task < length self.now.tasks }
        requires input { input < length (wire_at self.now.wiring task).inputs }
        ensures { result ≡ captured (progress_at self.now task).last input }
    {
        match self.last(task) {
            Some(run) => match run.versions.as_slice().get(input as usize) {
                Some(version) => *version,
                None => 0,
            },
            None => 0,
        }
    }

    /// Block and size of a state part's file, or None where no commit gave the part.
    pub fn state_part(&self, task: u32, part: u32) -> Option<(u64, u64)>
        requires { task < length self.now.tasks }
        ensures { result ≡ option_map (λ file. (file.block, file.size)) (slice_index_or (progress_at self.now task).parts part None) }
    {
        let tasks = self.tasks.as_slice();
        let files = tasks[task as usize].parts.as_slice();
        if part as usize >= files.len() {
            return None;
        }
        match files[part as usize] {
            Some(file) => Some((file.block, file.size)),
            None => None,
        }
    }
}
