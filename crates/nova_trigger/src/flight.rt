//! Executions in flight.
ghost use Rattle.std.specs.Prelude.{◌≡◌, ◌<◌, length, None, Some, IfOk, replicate, slice_index_or, slice_set, is_some};

use nova_meta::Captured;
use std::alloc::{AllocError, Global};
use std::marker::Model;

/// One slot per task: what its execution in flight captured when it began, or None where there is
/// none.
#[derive(Drop)]
pub struct InFlight {
    slots: Vec<Option<Captured>>,
}

impl Model for InFlight {
    ghost use Rattle.std.specs.Prelude.{List, Option};
    ghost use Rattle.nova_meta.specs.declared.captured.Captured.{Captured};

    ghost Value = { List (Option Captured) };

    ghost view = { λ f. f.slots.items };
}

impl InFlight {
    /// Slots for so many tasks, with nothing in flight.
    pub fn new(alloc: Global, tasks: u32) -> Result<InFlight, AllocError>
        ensures { IfOk result (λ f. f ≡ replicate tasks None) }
    {
        let mut slots = Vec::new(alloc);
        for _ in 0..tasks {
            slots.push(None)?;
        }
        Ok(InFlight { slots })
    }

    /// How many tasks there are.
    pub fn len(&self) -> usize
        ensures { result ≡ length self.now }
    {
        self.slots.len()
    }

    /// Whether an execution of the task is in flight.
    pub fn is_in_flight(&self, task: u32) -> bool
        requires { task < length self.now }
        ensures { result ≡ is_some (slice_index_or self.now task None) }
    {
        self.slots[task as usize].is_some()
    }

    /// Begins an execution, which captured this.
    pub fn begin(&mut self, task: u32, captured: Captured)
        requires { task < length self.old }
        ensures { self.new ≡ slice_set self.old task (Some captured) }
    {
        self.slots[task as usize] = Some(captured);
    }

    /// Ends an execution, and hands out what it captured.
    pub fn end(&mut self, task: u32) -> Option<Captured>
        requires { task < length self.old }
        ensures captured { result ≡ slice_index_or self.old task None }
        ensures free { self.new ≡ slice_set self.old task None }
    {
        self.slots[task as usize].take()
    }
}
