//! The commands of a drill, one after the other.
ghost use Rattle.std.specs.Prelude.{◌≡◌, ◌<◌, ◌≤◌, ◌∷◌, [], IfOk, OnErr, slice_index_or, length};
ghost use Rattle.nova_drill.specs.Places.{IsGiven, later_rounds, left};
ghost use Rattle.nova_drill.specs.Steps.{channels, kept_behind, steps};
ghost use Rattle.nova_drill.specs.declared.drill.Next.TheVariants as next;

use crate::entry::{pages_load, raw_load};
use nova_delta::Delta;
use nova_script::Command;
use nova_value::Name;
use std::alloc::{AllocError, Global};
use std::marker::Model;

/// After each round whose number it divides, channels are compacted and files collected.
const ROUNDS_KEPT: u64 = 16;

/// How far the clock goes in a round.
const PERIOD: u64 = 10;

/// How many channels the workflow has.
const CHANNELS: u32 = 6;

/// One command of a drill.
#[derive(Drop)]
pub enum DrillStep {
    /// A load of a channel, by its number, with these entries.
    LoadRows(u32, Delta),
    Do(Command),
}

/// The command that comes next.
#[derive(Clone, Copy, Debug, PartialEq, Eq)]
pub enum Next {
    Pages,
    Raw,
    Clock,
    Work,
    Compact(u32),
    Collect,
}

/// The commands of a drill that are left.
#[derive(Debug, Drop)]
pub struct Drill {
    /// How many rounds there are.
    count: u64,
    /// The round, from 1.
    round: u64,
    /// The number behind the last entry.
    number: u64,
    next: Next,
}

impl Model for Drill {
    ghost use Rattle.nova_drill.specs.Places.{Place, IsPlace};

    ghost Value = { Place };

    ghost view = { λ d. record { count = d.count; round = d.round; number = d.number; next = d.next } };

    ghost invariant = { λ d. IsPlace (record { count = d.count; round = d.round; number = d.number; next = d.next }) };
}

/// The name of a channel.
fn channel(number: u32) -> &'static str
    requires { number < 6 }
    ensures name { result.now ≡ slice_index_or channels number [] }
    ensures short { length result.now ≤ 64 }
{
    match number {
        0 => "raw",
        1 => "pages",
        2 => "slow",
        3 => "tagged",
        4 => "stats",
        _ => "report",
    }
}

impl Drill {
    /// A drill of 1 to 5,000 rounds.
    pub fn new(count: u64) -> Drill
        requires { (1 ≤ count) × (count ≤ 5000) }
        ensures { left result ≡ steps count }
    {
        Drill {
            count,
            round: 1,
            number: count,
            next: Next::Pages,
        }
    }

    /// The load of a round, or none behind the last.
    fn load(&mut self, alloc: Global) -> Result<Option<DrillStep>, AllocError>
        requires { self.old.next ≡ next.Raw }
        ensures given { IfOk result (λ step. IsGiven step (left self.old) (left self.new)) }
        ensures err { OnErr result (self.new ≡ self.old) }
    {
        if self.round > self.count {
            return Ok(None);
        }
        let (delta, number) = raw_load(alloc, self.number)?;
        self.number = number;
        self.next = Next::Clock;
        Ok(Some(DrillStep::LoadRows(0, delta)))
    }

    /// To the next round.
    fn end_round(&mut self)
        requires { self.old.round ≤ self.old.count }
        ensures { left self.new ≡ later_rounds self.old }
    {
        self.round += 1;
        self.next = Next::Raw;
    }

    /// Behind the work of a round.
    fn end_work(&mut self)
        requires { self.old.round ≤ self.old.count }
        ensures { left self.new ≡ kept_behind self.old.round (later_rounds self.old) }
    {
        if self.round.is_multiple_of(ROUNDS_KEPT) {
            self.next = Next::Compact(0);
        } else {
            self.end_round();
        }
    }

    /// The compaction of a channel.
    fn compact(&mut self, number: u32) -> DrillStep
        requires channel { number < 6 }
        requires next { self.old.next ≡ next.Compact number }
        ensures { left self.old ≡ result ∷ left self.new }
    {
        if number + 1 < CHANNELS {
            self.next = Next::Compact(number + 1);
        } else {
            self.next = Next::Collect;
        }
        DrillStep::Do(Command::Compact(Name::new(channel(number))))
    }

    /// The next command, or none behind the last. For want of memory the drill stays where it was.
    pub fn next(&mut self, alloc: Global) -> Result<Option<DrillStep>, AllocError>
        ensures given { IfOk result (λ step. IsGiven step (left self.old) (left self.new)) }
        ensures err { OnErr result (self.new ≡ self.old) }
    {
        let step = match self.next {
            Next::Pages => {
                let delta = pages_load(alloc)?;
                self.next = Next::Raw;
                DrillStep::LoadRows(1, delta)
            }
            Next::Raw => return self.load(alloc),
            Next::Clock => {
                self.next = Next::Work;
                DrillStep::Do(Command::Tick(PERIOD * self.round))
            }
            Next::Work => {
                self.end_work();
                DrillStep::Do(Command::Work)
            }
            Next::Compact(number) => self.compact(number),
            Next::Collect => {
                self.end_round();
                DrillStep::Do(Command::Collect)
            }
        };
        Ok(Some(step))
    }
}
