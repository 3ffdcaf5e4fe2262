//! Sources over bytes in memory.
ghost use Rattle.std.specs.Prelude.{◌≡◌, ◌≤◌, ◌↔◌, ◌+◌, ◌-◌, ◌^◌, ◌<◌, ℕ, Option, List, Some, IsErr, IfOk, OnOk, OnErr, ◌++◌, ◌∷◌, [], min, length, take, drop};
ghost use Rattle.std.specs.Io.{ReadsAtMost};
ghost use Rattle.std.specs.Io.KnownBytes.{ReadConsumes};
ghost use Rattle.nova_outside.specs.Causes.{HasCause};
ghost use Rattle.nova_mem.specs.Turns.{IsAmong, piece_at};

use crate::counts::{is_among, raise};
use nova_outside::{Failed, Source};
use std::alloc::{AllocError, Global};

// Moves the first bytes to the front of the slice, as many as there are, fit and are asked for.
fn copy_front(bytes: &[u8], most: usize, into: &mut [u8]) -> usize
    ensures count { result ≡ min (min most (length bytes.now)) (length into.old) }
    ensures bytes { take result into.new ≡ take result bytes.now }
{
    let count = most.min(bytes.len()).min(into.len());
    into[..count].copy_from_slice(&bytes[..count]);
    count
}

// How many bytes the piece of this turn has at most; then it is the turn of the next.
fn next_piece(turn: &mut usize, pieces: &[usize]) -> usize
    requires { turn.old ≤ length pieces.now }
    ensures some { 1 ≤ result }
    ensures length { result ≡ piece_at turn.old pieces.now }
    ensures moved { turn.new ≡ min (turn.old + 1) (length pieces.now) }
{
    if *turn >= pieces.len() {
        return usize::MAX;
    }
    let piece = pieces[*turn];
    *turn += 1;
    piece.max(1)
}

/// A source that gives its bytes in pieces, and fails where it was told to.
#[derive(Drop)]
pub struct MemSource {
    bytes: Vec<u8>,
    at: usize,
    pieces: Vec<usize>,
    turn: usize,
    told: Vec<u64>,
    calls: u64,
    faults: u64,
    ghost within: { at ≤ length bytes.items },
    ghost turned: { turn ≤ length pieces.items },
}

impl MemSource {
    /// A source of these bytes. The first calls give pieces of these lengths, where 0 counts as 1;
    /// later ones give whatever fits.
    pub fn new(alloc: Global, bytes: Vec<u8>, pieces: Vec<usize>) -> MemSource
        ensures bytes { result.bytes ≡ bytes }
        ensures pieces { result.pieces ≡ pieces }
        ensures told { result.told.items ≡ [] }
        ensures start { result.at ≡ 0 }
        ensures turn { result.turn ≡ 0 }
        ensures calls { result.calls ≡ 0 }
        ensures faults { result.faults ≡ 0 }
    {
        MemSource {
            bytes,
            at: 0,
            pieces,
            turn: 0,
            told: Vec::new(alloc),
            calls: 0,
            faults: 0,
        }
    }

    /// The call of `take` with this number, from 0, fails.
    pub fn fail_at(&mut self, call: u64) -> Result<(), AllocError>
        ensures told { OnOk result (self.new.told.items ≡ self.old.told.items ++ call ∷ []) }
        ensures err { OnErr result (self.new.told.items ≡ self.old.told.items) }
        ensures bytes { self.new.bytes ≡ self.old.bytes }
        ensures pieces { self.new.pieces ≡ self.old.pieces }
        ensures at { self.new.at ≡ self.old.at }
        ensures turn { self.new.turn ≡ self.old.turn }
        ensures calls { self.new.calls ≡ self.old.calls }
        ensures faults { self.new.faults ≡ self.old.faults }
    {
        self.told.push(call)?;
        Ok(())
    }
}

impl Source for MemSource {
    ghost left = { λ s. Some (drop s.at s.bytes.items) };

    ghost faults = { λ s. s.faults };

    fn take(&mut self, into: &mut [u8]) -> Result<usize, Failed>
        ensures bound { ReadsAtMost result into.new }
        ensures bytes { ReadConsumes (Some (drop self.old.at self.old.bytes.items)) (Some (drop self.new.at self.new.bytes.items)) result into.new }
        ensures cause { HasCause self.old.faults self.new.faults result }
        ensures told { IsErr result ↔ IsAmong self.old.calls self.old.told.items }
        ensures piece { IfOk result (λ n. n ≡ min (min (piece_at self.old.turn self.old.pieces.items) (length (drop self.old.at self.old.bytes.items))) (length into.old)) }
        ensures counted { self.new.calls ≡ min (self.old.calls + 1) (2 ^ 64 - 1) }
        ensures moved { OnOk result (self.new.turn ≡ min (self.old.turn + 1) (length self.old.pieces.items)) }
        ensures stayed { OnErr result (self.new.turn ≡ self.old.turn) }
        ensures same_bytes { self.new.bytes ≡ self.old.bytes }
        ensures same_pieces { self.new.pieces ≡ self.old.pieces }
        ensures same_told { self.new.told ≡ self.old.told }
        ensures no_fault { OnOk result (self.new.faults ≡ self.old.faults) }
    {
        let call = self.calls;
        self.calls = call.saturating_add(1);
        if is_among(call, &self.told) {
            raise(&mut self.faults);
            return Err(Failed);
        }
        let most = next_piece(&mut self.turn, &self.pieces);
        let count = copy_front(&self.bytes[self.at..], most, into);
        self.at += count;
        Ok(count)
    }
}

/// A source that never fails.
#[derive(Drop)]
pub struct MemSteady {
    bytes: Vec<u8>,
    at: usize,
    ghost within: { at ≤ length bytes.items },
}

impl MemSteady {
    /// A source of these bytes, which gives whatever fits.
    pub fn new(bytes: Vec<u8>) -> MemSteady
        ensures bytes { result.bytes ≡ bytes }
        ensures start { result.at ≡ 0 }
    {
        MemSteady { bytes, at: 0 }
    }
}

impl Source for MemSteady {
    ghost left = { λ s. Some (drop s.at s.bytes.items) };

    ghost faults = { λ _. 0 };

    fn take(&mut self, into: &mut [u8]) -> Result<usize, Failed> {
        let count = copy_front(&self.bytes[self.at..], usize::MAX, into);
        self.at += count;
        Ok(count)
    }
}
