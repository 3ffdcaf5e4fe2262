//! Why a workflow isn't admitted.
ghost use Rattle.std.specs.Prelude.{◌≡◌};

use crate::script::ScriptFault;
use nova_value::Name;
use std::alloc::AllocError;

/// Why a workflow isn't admitted: what the first task that isn't admitted is refused for. A task
/// and a channel are told by their names.
#[derive(Debug, Drop)]
pub enum AdmitFault {
    /// The script has no plan over the task's channels.
    Script { task: Name, fault: ScriptFault },
    /// The plan has no key.
    NoKey { task: Name },
    /// The plan's key columns, as a set, aren't those of the output's key.
    KeyDiffers { task: Name },
    /// An input that is read as NEW is written as BASE; the first such.
    BaseReadAsNew { task: Name, channel: Name },
    /// The task fits no pattern.
    NotAPattern { task: Name },
    /// Memory ran out.
    NoMemory,
}

impl From<AllocError> for AdmitFault {
    ghost use Rattle.nova_admit.specs.declared.fault.AdmitFault.TheVariants as fault;

    ghost from_gives = { λ _ r. r ≡ fault.NoMemory };

    fn from(_error: AllocError) -> AdmitFault {
        AdmitFault::NoMemory
    }
}
