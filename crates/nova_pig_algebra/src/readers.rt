//! Which nodes are read, and by which node last.
ghost use Rattle.std.specs.Prelude.{◌≡◌, ◌<◌, length, slice_get, IfOk};
ghost use Rattle.nova_pig_algebra.specs.Readers as spec;

use crate::node::Node;
use std::alloc::{AllocError, Global};

/// The node that a FOREACH reads: that of the GROUP, where it is over one.
pub fn read_by(nodes: &[Node], from: u32) -> u32
    ensures { result ≡ spec.read_by from (slice_get nodes.now from) }
{
    match nodes.get(from as usize) {
        Some(Node::Group { from, columns: _ }) => *from,
        _ => from,
    }
}

/// A node that the reader reads, unless a later one does.
fn mark(last: &mut Vec<usize>, reader: usize, node: u32)
    requires { reader < length last.old.items }
    ensures { last.new.items ≡ spec.marked reader last.old.items node }
{
    let at = node as usize;
    if at < reader && last[at] == 0 {
        last[at] = reader + 1;
    }
}

/// What a node reads, marked.
fn mark_read(last: &mut Vec<usize>, reader: usize, nodes: &[Node], node: &Node)
    requires { reader < length last.old.items }
    ensures { last.new.items ≡ spec.all_marked reader last.old.items (spec.read nodes.now node.now) }
{
    match node {
        Node::Load { input: _ } => {}
        Node::Filter { from, cond: _ } => mark(last, reader, *from),
        Node::Foreach { from, items: _ } => mark(last, reader, read_by(nodes, *from)),
        Node::Group {
            from: _,
            columns: _,
        } => {}
        Node::Join {
            left,
            left_by: _,
            right,
            right_by: _,
        } => {
            mark(last, reader, *left);
            mark(last, reader, *right);
        }
        Node::Union { arms } => mark_arms(last, reader, arms.as_slice()),
        Node::Distinct { from } => mark(last, reader, *from),
    }
}

/// The arms of a UNION, marked.
fn mark_arms(last: &mut Vec<usize>, reader: usize, arms: &[u32])
    requires { reader < length last.old.items }
    ensures { last.new.items ≡ spec.all_marked reader last.old.items arms.now }
{
    for arm in arms {
        mark(last, reader, *arm);
    }
}

/// That the answer reads the stored node after all nodes.
fn answer_reads(alloc: Global, nodes: &[Node], stored: u32) -> Result<Vec<usize>, AllocError>
    ensures { IfOk result (λ u. u.items ≡ spec.answer_reads (length nodes.now) stored) }
{
    let count = nodes.len();
    let mut last = vec![in alloc; 0; count]?;
    let place = stored as usize;
    if place < count {
        last[place] = count + 1;
    }
    Ok(last)
}

/// Of each node the number of its last reader and one more, or 0 where the stored one doesn't stand
/// on it. The answer reads the stored node after all others.
pub fn last_readers(alloc: Global, nodes: &[Node], stored: u32) -> Result<Vec<usize>, AllocError>
    ensures long { IfOk result (λ u. length u.items ≡ length nodes.now) }
    ensures stored { IfOk result (λ u. stored < length nodes.now → length nodes.now < spec.last_at u.items stored) }
    ensures closed { IfOk result (λ u. spec.ClosedFrom nodes.now 0 u.items) }
{
    let mut last = answer_reads(alloc, nodes, stored)?;
    let mut at = nodes.len();
    while at > 0 {
        at -= 1;
        if last[at] > 0 {
            mark_read(&mut last, at, nodes, &nodes[at]);
        }
    }
    Ok(last)
}
