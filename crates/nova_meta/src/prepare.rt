//! Which commits may come next, and what they change.
ghost use Rattle.std.specs.Prelude.{◌≡◌, ◌<◌, ℕ, List, true, false, length, IfOk, Err};
ghost use Rattle.nova_meta.specs.Catalog.{allows, may_add, may_rise, next_shelf, shelf_at};
ghost use Rattle.nova_meta.specs.Prepared.{IsPrepared};
ghost use Rattle.nova_meta.specs.Wired.{is_based, is_input};
ghost use Rattle.nova_commit.specs.declared.commit.Commit.TheVariants.{Flow, Load, Tick, Joined};
ghost use Rattle.nova_commit.specs.declared.fault.MetaFault.TheVariants.{BadRecord};

use crate::catalog::Catalog;
use crate::prepared::{Change, Prepared};
use crate::shelf::{LIMIT, Shelf};
use crate::spans::has_span;
use nova_commit::{Commit, MetaFault};
use std::alloc::{AllocError, Global};

impl Catalog {
    /// Whether loads write the channel.
    fn is_input(&self, channel: u32) -> bool
        requires { channel < length self.now.channels }
        ensures { result ≡ is_input self.now.wiring channel }
    {
        let writers = self.wiring.writers.as_slice();
        writers[channel as usize].is_none()
    }

    /// Whether each run of its writer writes the channel anew.
    fn is_based(&self, channel: u32) -> bool
        requires { channel < length self.now.channels }
        ensures { result ≡ is_based self.now.wiring channel }
    {
        let writers = self.wiring.writers.as_slice();
        match writers[channel as usize] {
            Some(task) => {
                let tasks = self.wiring.tasks.as_slice();
                tasks[task as usize].based
            }
            None => false,
        }
    }

    /// Whether a block may be added to a channel: it has the next number and room.
    pub(crate) fn may_add(&self, channel: u32, block: u64, size: u64) -> bool
        requires { channel < length self.now.channels }
        ensures { result ≡ may_add self.now channel block size }
    {
        let shelves = self.channels.as_slice();
        block == self.next && shelves[channel as usize].has_room(size)
    }

    /// Whether a channel may have a version more.
    pub(crate) fn may_grow(&self, channel: u32) -> bool
        requires { channel < length self.now.channels }
        ensures { result ≡ may_rise (shelf_at self.now channel).version }
    {
        let shelves = self.channels.as_slice();
        shelves[channel as usize].version() < LIMIT
    }

    /// Whether a load with this block may come next. It takes no memory.
    pub fn may_load(&self, channel: u32, block: u64, size: u64) -> bool
        ensures { result ≡ allows self.now (Load channel block size) }
    {
        self.begun
            && (channel as usize) < self.channels.len()
            && self.is_input(channel)
            && self.may_add(channel, block, size)
            && self.may_grow(channel)
            && self.next < LIMIT
    }

    fn may_join(&self, channel: u32, from: u64, to: u64, block: u64, size: u64) -> bool
        ensures { result ≡ allows self.now (Joined channel from to block size) }
    {
        if !self.begun || channel as usize >= self.channels.len() {
            return false;
        }
        let shelves = self.channels.as_slice();
        let shelf = &shelves[channel as usize];
        from < to
            && to <= shelf.version()
            && !has_span(shelf.intervals(), from, to)
            && self.may_add(channel, block, size)
            && self.next < LIMIT
    }

    /// A channel with one version more.
    pub(crate) fn next_shelf(
        &self,
        alloc: Global,
        channel: u32,
        block: u64,
        size: u64,
    ) -> Result<Shelf, AllocError>
        requires channel { channel < length self.now.channels }
        requires add { may_add self.now channel block size ≡ true }
        requires grow { may_rise (shelf_at self.now channel).version ≡ true }
        ensures { IfOk result (λ shelf. shelf ≡ next_shelf (is_based self.now.wiring channel) (shelf_at self.now channel) block size) }
    {
        let based = self.is_based(channel);
        let shelves = self.channels.as_slice();
        shelves[channel as usize].next(alloc, based, block, size)
    }

    fn prepare_flow(&self) -> Result<Prepared, MetaFault>
        ensures prepared { IfOk result (λ prepared. (text : List ℕ) → IsPrepared self.now (Flow text) prepared) }
        ensures refused { result ≡ Err BadRecord → (text : List ℕ) → allows self.now (Flow text) ≡ false }
    {
        if self.begun {
            return Err(MetaFault::BadRecord);
        }
        Ok(Prepared {
            change: Change::Begin,
        })
    }

    fn prepare_load(
        &self,
        alloc: Global,
        channel: u32,
        block: u64,
        size: u64,
    ) -> Result<Prepared, MetaFault>
        ensures prepared { IfOk result (λ prepared. IsPrepared self.now (Load channel block size) prepared) }
        ensures refused { result ≡ Err BadRecord → allows self.now (Load channel block size) ≡ false }
    {
        if !self.may_load(channel, block, size) {
            return Err(MetaFault::BadRecord);
        }
        let shelf = self.next_shelf(alloc, channel, block, size)?;
        Ok(Prepared {
            change: Change::Shelved {
                channel,
                shelf,
                next: self.next + 1,
            },
        })
    }

    fn prepare_tick(&self, moment: u64) -> Result<Prepared, MetaFault>
        ensures prepared { IfOk result (λ prepared. IsPrepared self.now (Tick moment) prepared) }
        ensures refused { result ≡ Err BadRecord → allows self.now (Tick moment) ≡ false }
    {
        if !self.begun || moment < self.moment {
            return Err(MetaFault::BadRecord);
        }
        Ok(Prepared {
            change: Change::Clock { moment },
        })
    }

    fn prepare_joined(
        &self,
        alloc: Global,
        channel: u32,
        from: u64,
        to: u64,
        block: u64,
        size: u64,
    ) -> Result<Prepared, MetaFault>
        ensures prepared { IfOk result (λ prepared. IsPrepared self.now (Joined channel from to block size) prepared) }
        ensures refused { result ≡ Err BadRecord → allows self.now (Joined channel from to block size) ≡ false }
    {
        if !self.may_join(channel, from, to, block, size) {
            return Err(MetaFault::BadRecord);
        }
        let shelves = self.channels.as_slice();
        let shelf = shelves[channel as usize].joined(alloc, from, to, block, size)?;
        Ok(Prepared {
            change: Change::Shelved {
                channel,
                shelf,
                next: self.next + 1,
            },
        })
    }

    /// What a commit changes, with all the memory that this takes; the catalog stays as it is.
    pub fn prepare(&self, alloc: Global, commit: &Commit) -> Result<Prepared, MetaFault>
        // It keeps the rules, and this leads to the catalog with the commit more.
        ensures prepared { IfOk result (λ prepared. IsPrepared self.now commit.now prepared) }
        // A refusal for another cause than memory says that it breaks a rule.
        ensures refused { result ≡ Err BadRecord → allows self.now commit.now ≡ false }
    {
        match commit {
            Commit::Flow { text: _ } => self.prepare_flow(),
            Commit::Load {
                channel,
                block,
                size,
            } => self.prepare_load(alloc, *channel, *block, *size),
            Commit::Tick { moment } => self.prepare_tick(*moment),
            Commit::Run {
                task,
                versions,
                moment,
                seen,
                block,
                size,
                parts,
            } => self.prepare_run(
                alloc,
                *task,
                versions.as_slice(),
                *moment,
                *seen,
                *block,
                *size,
                parts.as_slice(),
            ),
            Commit::Joined {
                channel,
                from,
                to,
                block,
                size,
            } => self.prepare_joined(alloc, *channel, *from, *to, *block, *size),
            Commit::Collected { kept } => self.prepare_collected(alloc, kept.as_slice()),
        }
    }
}
