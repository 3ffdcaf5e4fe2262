//! What lines ask for over a fixed workflow and state.
ghost use Rattle.std.specs.Prelude.{◌∷◌, [], ◌==◌, codes};

use crate::command::refused;
use nova_script::{Context, Refusal, Request, read_command, request_for};
use nova_value::Name;
use std::alloc::{AllocError, Global};

/// The input channel `raw`, the channel `slow` that the task `pick` writes, and `sum` in flight, at
/// moment 100.
#[derive(Clone, Copy)]
struct Fixed;

impl Context for Fixed {
    ghost around = { λ _. record {
      channels = codes "raw" ∷ codes "slow" ∷ [];
      tasks = codes "pick" ∷ codes "sum" ∷ [];
      has_writer = λ c. c == 1;
      is_in_flight = λ t. t == 1;
      moment = 100;
    } };

    fn channel(&self, name: &Name) -> Option<u32> {
        if name.text() == "raw" {
            Some(0)
        } else if name.text() == "slow" {
            Some(1)
        } else {
            None
        }
    }

    fn task(&self, name: &Name) -> Option<u32> {
        if name.text() == "pick" {
            Some(0)
        } else if name.text() == "sum" {
            Some(1)
        } else {
            None
        }
    }

    fn has_writer(&self, channel: u32) -> bool {
        channel == 1
    }

    fn is_in_flight(&self, task: u32) -> bool {
        task == 1
    }

    fn moment(&self) -> u64 {
        100
    }
}

/// A request by its words, channels and tasks by number.
fn spelled(alloc: Global, request: Request) -> Result<String, AllocError> {
    match request {
        Request::Load(channel) => format!(in alloc; "load {channel}\n"),
        Request::Tick(moment) => format!(in alloc; "tick {moment}\n"),
        Request::Run(task) => format!(in alloc; "run {task}\n"),
        Request::Begin(task) => format!(in alloc; "begin {task}\n"),
        Request::Finish(task) => format!(in alloc; "finish {task}\n"),
        Request::Drop(task) => format!(in alloc; "drop {task}\n"),
        Request::Work => String::from_str(alloc, "work\n"),
        Request::Compact(channel) => format!(in alloc; "compact {channel}\n"),
        Request::Chain(channel, from, to) => format!(in alloc; "chain {channel} {from} {to}\n"),
        Request::Collect => String::from_str(alloc, "collect\n"),
        Request::Show(channel) => format!(in alloc; "show {channel}\n"),
        Request::Blocks(channel) => format!(in alloc; "blocks {channel}\n"),
    }
}

/// A request, or the line of its refusal.
pub fn show_outcome(
    alloc: Global,
    outcome: Result<Request, Refusal>,
) -> Result<Vec<u8>, AllocError> {
    match outcome {
        Ok(request) => Ok(spelled(alloc, request)?.into_bytes()),
        Err(refusal) => refused(alloc, &refusal),
    }
}

/// What a line asks for, or None where it has no words.
pub fn asked(line: &[u8]) -> Result<Option<Request>, Refusal> {
    match read_command(line) {
        Ok(Some(command)) => request_for(&Fixed, &command).map(Some),
        Ok(None) => Ok(None),
        Err(refusal) => Err(refusal),
    }
}

/// What a line asks for, or the line of its refusal.
pub fn show(alloc: Global, line: &[u8]) -> Result<Vec<u8>, AllocError> {
    match asked(line) {
        Ok(Some(request)) => show_outcome(alloc, Ok(request)),
        Ok(None) => b"no words\n".to_vec(alloc),
        Err(refusal) => refused(alloc, &refusal),
    }
}
