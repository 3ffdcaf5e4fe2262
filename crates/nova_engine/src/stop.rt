//! Why a session ends before its input does.
ghost use Rattle.std.specs.Prelude.{◌≡◌};
ghost use Rattle.nova_runner.specs.Reading.{why_unshown};
ghost use Rattle.nova_runner.specs.Steps.{why_of};
ghost use Rattle.nova_engine.specs.Stopping.{why};
ghost use Rattle.nova_engine.specs.declared.stop.Stop.TheVariants.{Reply, NoMemory};

use nova_outside::Failed;
use nova_runner::{Stopped, Unshown};
use std::alloc::{AllocError, AllocFailed};

/// Why a session ended before its input did.
#[derive(Clone, Copy, Debug, PartialEq, Eq)]
pub enum Stop {
    /// A call on a file failed.
    Disk,
    /// A reply failed.
    Reply,
    /// The file with this number is damaged at this place.
    Damaged { file: u64, at: u64 },
    /// A command would take the journal of this length, or a counter, past its bound.
    Full { length: u64 },
    NoMemory,
}

impl From<Failed> for Stop {
    ghost from_gives = { λ _ e. e ≡ Reply };

    fn from(_: Failed) -> Self {
        Stop::Reply
    }
}

impl From<AllocError> for Stop {
    ghost from_gives = { λ _ e. e ≡ NoMemory };

    fn from(_: AllocError) -> Self {
        Stop::NoMemory
    }
}

/// Why a command of the store stopped.
pub fn stop_of(stopped: Stopped) -> Stop
    ensures { why result ≡ why_of stopped }
{
    match stopped {
        Stopped::Disk => Stop::Disk,
        Stopped::Damaged { file, at } => Stop::Damaged { file, at },
        Stopped::Full { length } => Stop::Full { length },
        Stopped::NoMemory(_) => Stop::NoMemory,
    }
}

/// Why a channel wasn't shown.
pub fn stop_of_show(unshown: Unshown) -> Stop
    ensures { why result ≡ why_unshown unshown }
{
    match unshown {
        Unshown::Disk => Stop::Disk,
        Unshown::Damaged { file, at } => Stop::Damaged { file, at },
        Unshown::Reply => Stop::Reply,
        Unshown::NoMemory => Stop::NoMemory,
    }
}
