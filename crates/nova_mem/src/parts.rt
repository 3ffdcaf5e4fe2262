// What a disk in memory is made of.
ghost use Rattle.std.specs.Prelude.{◌≡◌, ◌-◌, ◌^◌, ℕ, reverse};
ghost use Rattle.nova_outside.specs.History.{current};
ghost use Rattle.nova_mem.specs.Deeds.{is_apart, view, told};

use std::alloc::Global;
use std::collections::BTreeMap;

/// A call that changed something, with what it takes to know how things were before.
#[derive(Drop)]
pub enum Deed {
    /// A file was made, in the place of this one.
    Created {
        file: u64,
        before: Option<Vec<u8>>,
    },
    /// So many bytes were written at an offset, over these ones, into a file of this length.
    Written {
        file: u64,
        at: u64,
        count: u64,
        over: Vec<u8>,
        length: u64,
    },
    /// A file was synced.
    Synced {
        file: u64,
    },
    /// A file was removed, which was this one.
    Removed {
        file: u64,
        before: Option<Vec<u8>>,
    },
    /// The last so many bytes of the replies were added.
    Replied {
        count: u64,
    },
}

impl Deed {
    /// Whether it is on no file, or on another than this one.
    pub fn is_apart(&self, file: u64) -> bool
        ensures { result ≡ is_apart file self.now }
    {
        match self {
            Deed::Created { file: other, .. } => *other != file,
            Deed::Written { file: other, .. } => *other != file,
            Deed::Synced { file: other } => *other != file,
            Deed::Removed { file: other, .. } => *other != file,
            Deed::Replied { .. } => true,
        }
    }
}

/// Files, replies, and the deeds since all files were settled, the newest last.
#[derive(Drop)]
pub struct Disk {
    pub alloc: Global,
    pub files: BTreeMap<u64, Vec<u8>>,
    pub replies: Vec<u8>,
    pub deeds: Vec<Deed>,
    ghost kept: { (n : ℕ) → current (told (reverse deeds.items) (2 ^ 64 - 1) (view files) replies.items) n ≡ view files n },
}
