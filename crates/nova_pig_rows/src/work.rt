//! The rows of the nodes so far, kept until their last reader has them.
ghost use Rattle.std.specs.Prelude.{◌≡◌, ◌+◌, ◌<◌, ◌==◌, [], ◌∷◌, ◌++◌, length, flat_map, IfOk, OnOk};
ghost use Rattle.nova_pig_algebra.specs.Tree.{rows_at};
ghost use Rattle.nova_pig_rows.specs.Picked.{picked};
ghost use Rattle.nova_pig_algebra.specs.Readers.{last_at};
ghost use Rattle.nova_pig_rows.specs.Keeps as spec;

use crate::held::Held;
use crate::relation::{Relation, pick_shared};
use std::alloc::{AllocError, Global};
use std::mem;

/// The rows of the nodes so far. `last` has for each node of the plan the number of its last reader
/// and one more, or 0 where nothing reads it. A node's rows are let go once that reader has them.
#[derive(Drop)]
pub(crate) struct Work<'a> {
    pub(crate) relations: Vec<Relation<'a>>,
    pub(crate) last: Vec<usize>,
}

impl<'a> Work<'a> {
    /// The rows of a node.
    pub(crate) fn rows(&self, node: u32) -> &[Held<'a>]
        ensures { result.now ≡ rows_at self.now.relations.items node }
    {
        let at = node as usize;
        if at < self.relations.len() {
            return self.relations[at].rows();
        }
        &[]
    }

    /// When a node is read last: the number of its last reader and one more.
    pub(crate) fn last_of(&self, node: usize) -> usize
        ensures { result ≡ last_at self.now.last.items node }
    {
        match self.last.get(node) {
            Some(last) => *last,
            None => 0,
        }
    }

    /// The rows of a node, taken away.
    fn take(&mut self, alloc: Global, node: usize) -> Relation<'a>
        ensures rows { result ≡ rows_at self.old.relations.items node }
        ensures keeps { spec.Keeps node self.old.relations.items self.new.relations.items }
        ensures last { self.new.last.items ≡ self.old.last.items }
    {
        if node < self.relations.len() {
            return mem::replace(&mut self.relations[node], Relation::new(alloc));
        }
        Relation::new(alloc)
    }

    /// Those of a node's rows that are picked, for the reader with this number. The node's rows are
    /// moved where this is the last one.
    pub(crate) fn pick(
        &mut self,
        alloc: Global,
        reader: usize,
        node: u32,
        picks: &[bool],
    ) -> Result<Relation<'a>, AllocError>
        ensures rows { IfOk result (λ r. r ≡ picked picks.now (rows_at self.old.relations.items node)) }
        ensures keeps { OnOk result (spec.KeepsLater reader self.old.last.items self.old.relations.items self.new.relations.items) }
        ensures last { self.new.last.items ≡ self.old.last.items }
    {
        let last = self.last_of(node as usize);
        if last > 0 && last - 1 == reader {
            self.take(alloc, node as usize).pick(alloc, picks)
        } else {
            pick_shared(alloc, self.rows(node), picks)
        }
    }

    /// A node's rows behind those of the arms before it, for the UNION with this number, whose
    /// further arms are `rest`. They are moved where nothing reads them again.
    pub(crate) fn add_arm(
        &mut self,
        alloc: Global,
        reader: usize,
        node: u32,
        rest: &[u32],
        out: &mut Relation<'a>,
    ) -> Result<(), AllocError>
        ensures rows { OnOk result (out.new ≡ out.old ++ rows_at self.old.relations.items node) }
        ensures rest { OnOk result (flat_map (rows_at self.new.relations.items) rest.now ≡ flat_map (rows_at self.old.relations.items) rest.now) }
        ensures keeps { OnOk result (spec.KeepsLater reader self.old.last.items self.old.relations.items self.new.relations.items) }
        ensures last { self.new.last.items ≡ self.old.last.items }
    {
        let last = self.last_of(node as usize);
        if last > 0 && last - 1 == reader && !rest.contains(&node) {
            out.append(self.take(alloc, node as usize))
        } else {
            out.append_shared(alloc, self.rows(node))
        }
    }

    /// Lets go of the rows of the nodes that are read last by the reader with this number.
    pub(crate) fn release(&mut self, alloc: Global, reader: usize)
        ensures keeps { spec.KeepsLater reader self.old.last.items self.old.relations.items self.new.relations.items }
        ensures last { self.new.last.items ≡ self.old.last.items }
    {
        for node in 0..self.relations.len() {
            let last = self.last_of(node);
            if last > 0 && reader == last - 1 {
                let _released = self.take(alloc, node);
            }
        }
    }

    /// The rows of the stored node.
    pub(crate) fn answer(self, alloc: Global, stored: u32) -> Relation<'a>
        ensures { result ≡ rows_at self.entry.relations.items stored }
    {
        let mut work = self;
        work.take(alloc, stored as usize)
    }
}
