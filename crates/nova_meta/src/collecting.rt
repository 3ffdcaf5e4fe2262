//! Which collections may come next, and what they change.
ghost use Rattle.std.specs.Prelude.{◌≡◌, ◌<◌, ◌≤◌, ℕ, true, false, length, map, nat_eq, IfOk, Err, MatchOption};
ghost use Rattle.std.specs.List.{list_any};
ghost use Rattle.std.specs.List.Sorted.{IsNonDecreasing};
ghost use Rattle.nova_meta.specs.Catalog.{allows, has_block, keeps_all, keeps_cursors, keeps_hops, kept_shelf, progress_at, shelf_at};
ghost use Rattle.nova_meta.specs.Prepared.{IsPrepared};
ghost use Rattle.nova_meta.specs.Wired.{wire_at};
ghost use Rattle.nova_commit.specs.declared.commit.Commit.TheVariants.{Collected};
ghost use Rattle.nova_commit.specs.declared.fault.MetaFault.TheVariants.{BadRecord};

use crate::catalog::Catalog;
use crate::keeping::{blocks_of, contains_all};
use crate::prepared::{Change, Prepared};
use crate::shelf::Shelf;
use crate::spans::leads;
use crate::wiring::Edge;
use nova_commit::{MetaFault, is_rising};
use sqlite_items::Items;
use std::alloc::{AllocError, Global};

impl Catalog {
    /// What is left of a channel has a path from the cursor of each input of these, the task's, that
    /// reads it as new.
    fn keeps_cursors(
        &self,
        alloc: Global,
        task: u32,
        inputs: &[Edge],
        channel: u32,
        left: &Shelf,
    ) -> Result<bool, AllocError>
        requires task { task < length self.now.tasks }
        requires inputs { inputs.now ≡ (wire_at self.now.wiring task).inputs }
        requires few { length inputs.now ≤ 16 }
        ensures { IfOk result (λ yes. yes ≡ keeps_cursors (progress_at self.now task).last 0 inputs.now channel left.now) }
    {
        for (input, edge) in inputs.iter().enumerate() {
            if edge.new && edge.channel == channel {
                let cursor = self.cursor(task, input as u32);
                let yes = leads(alloc, left.intervals(), cursor, left.version())?;
                if !yes {
                    return Ok(false);
                }
            }
        }
        Ok(true)
    }

    /// What is left of a channel has a path from 0 and from each cursor of an input that reads it as
    /// new.
    fn keeps_hops(&self, alloc: Global, channel: u32, left: &Shelf) -> Result<bool, AllocError>
        ensures { IfOk result (λ yes. yes ≡ keeps_hops self.now channel left.now) }
    {
        let whole = leads(alloc, left.intervals(), 0, left.version())?;
        if !whole {
            return Ok(false);
        }
        let count = self.task_count();
        for task in 0..count {
            let inputs = self.wire(task).inputs.as_slice();
            let yes = self.keeps_cursors(alloc, task, inputs, channel, left)?;
            if !yes {
                return Ok(false);
            }
        }
        Ok(true)
    }

    /// A channel with the intervals alone whose blocks are kept.
    fn kept_shelf(&self, alloc: Global, channel: u32, kept: &[u64]) -> Result<Shelf, AllocError>
        requires channel { channel < length self.now.channels }
        requires order { IsNonDecreasing kept.now }
        ensures { IfOk result (λ shelf. shelf ≡ kept_shelf kept.now (shelf_at self.now channel)) }
    {
        let shelves = self.channels.as_slice();
        shelves[channel as usize].kept(alloc, kept)
    }

    /// What is left of the channels, or None where one lost a path that it needs.
    fn kept_shelves(&self, alloc: Global, kept: &[u64]) -> Result<Option<Items<Shelf>>, AllocError>
        requires { IsNonDecreasing kept.now }
        ensures { IfOk result (λ found. MatchOption found (keeps_all self.now kept.now ≡ false) (λ shelves. (keeps_all self.now kept.now ≡ true) × (shelves ≡ map (kept_shelf kept.now) self.now.channels))) }
    {
        let mut shelves = Vec::new(alloc);
        let count = self.channel_count();
        for channel in 0..count {
            let left = self.kept_shelf(alloc, channel, kept)?;
            let yes = self.keeps_hops(alloc, channel, &left)?;
            if !yes {
                return Ok(None);
            }
            shelves.push(left)?;
        }
        Ok(Some(Items::from_vec(shelves)))
    }

    /// The numbers of all channels' blocks, in order.
    fn blocks(&self, alloc: Global) -> Result<Vec<u64>, AllocError>
        ensures order { IfOk result (λ blocks. IsNonDecreasing blocks.items) }
        ensures blocks { IfOk result (λ blocks. (block : ℕ) → list_any (nat_eq block) blocks.items ≡ has_block self.now block) }
    {
        let mut blocks = blocks_of(alloc, self.channels.as_slice())?;
        blocks.sort_unstable();
        Ok(blocks)
    }

    pub(crate) fn prepare_collected(
        &self,
        alloc: Global,
        kept: &[u64],
    ) -> Result<Prepared, MetaFault>
        ensures prepared { IfOk result (λ prepared. IsPrepared self.now (Collected kept.now) prepared) }
        ensures refused { result ≡ Err BadRecord → allows self.now (Collected kept.now) ≡ false }
    {
        if !self.begun || !is_rising(kept) {
            return Err(MetaFault::BadRecord);
        }
        let blocks = self.blocks(alloc)?;
        if !contains_all(&blocks, kept) {
            return Err(MetaFault::BadRecord);
        }
        match self.kept_shelves(alloc, kept)? {
            Some(channels) => Ok(Prepared {
                change: Change::Kept { channels },
            }),
            None => Err(MetaFault::BadRecord),
        }
    }
}
