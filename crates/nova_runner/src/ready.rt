//! The memory of a commit, before anything is written.
ghost use Rattle.std.specs.Prelude.{◌≡◌, IfOk, true};
ghost use Rattle.nova_commit.specs.Commits.{HasSpelling};
ghost use Rattle.nova_meta.specs.Catalog.{allows, applied};
ghost use Rattle.nova_runner.specs.Acts.{IsFull, has_room};
ghost use Rattle.nova_runner.specs.Committing.{IsReady};
ghost use Rattle.nova_runner.specs.Readable.{IsReadable};

use crate::store::Store;
use nova_journal::frame;
use nova_meta::{Commit, Prepared, encode_commit};
use std::alloc::{AllocError, Global};

/// The bytes of a block that a commit brings.
#[derive(Drop)]
pub struct Fresh {
    pub block: u64,
    pub bytes: Vec<u8>,
}

/// The frame of a commit, and what the commit makes of the catalog.
#[derive(Drop)]
pub struct Ready {
    pub framed: Vec<u8>,
    pub prepared: Prepared,
}

impl Store {
    /// Takes all the memory of a commit that has room.
    pub(crate) fn ready(&self, alloc: Global, commit: &Commit) -> Result<Ready, AllocError>
        requires spelled { HasSpelling commit.now }
        requires rules { allows self.now.catalog commit.now ≡ has_room self.now.catalog commit.now }
        requires readable { has_room self.now.catalog commit.now ≡ true → IsReadable (applied self.now.catalog commit.now) }
        requires room { IsFull self.now.journal.length self.now.catalog commit.now → ⊥ }
        ensures { IfOk result (IsReady self.now commit.now) }
    {
        let payload = encode_commit(alloc, commit)?;
        let framed = frame(alloc, &payload)?;
        match self.catalog.prepare(alloc, commit) {
            Ok(prepared) => Ok(Ready { framed, prepared }),
            Err(_) => Err(AllocError),
        }
    }
}
