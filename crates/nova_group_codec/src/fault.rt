//! Why bytes spell no state.
ghost use Rattle.std.specs.Prelude.{◌≡◌};
ghost use Rattle.nova_group_codec.specs.Reading.{flaw_of};
ghost use Rattle.nova_group_codec.specs.declared.fault.Flaw.TheVariants.{NoMemory};

use nova_row_codec::CodecFault;
use std::alloc::{AllocError, AllocFailed};
use thiserror::Error;

/// Why there is no state.
#[derive(Clone, Copy, Debug, PartialEq, Eq, Error)]
pub enum StateFault {
    /// The bytes spell no state of the task. The place is their length where they end too early, and
    /// otherwise the start of the contribution or group that breaks a rule, or the first byte behind
    /// the last group.
    #[error("the state is damaged at byte {at}")]
    Damaged { at: usize },
    /// Memory ran out.
    #[error("out of memory")]
    NoMemory,
}

/// Why bytes begin with no thing of a kind.
#[derive(Clone, Copy, Debug, PartialEq, Eq)]
pub enum Flaw {
    /// They end too early.
    Short,
    /// A text is none, a number is 0, or a key isn't above the one before.
    Broken,
    /// Memory ran out.
    NoMemory,
}

impl From<CodecFault> for Flaw {
    ghost from_gives = { λ fault flaw. flaw ≡ flaw_of fault };

    fn from(fault: CodecFault) -> Flaw {
        match fault {
            CodecFault::Short => Flaw::Short,
            CodecFault::BadTag => Flaw::Broken,
            CodecFault::BadText => Flaw::Broken,
            CodecFault::OutOfOrder => Flaw::Broken,
            CodecFault::NoMemory => Flaw::NoMemory,
        }
    }
}

impl From<AllocError> for Flaw {
    ghost from_gives = { λ _ e. e ≡ NoMemory };

    fn from(_e: AllocError) -> Flaw {
        Flaw::NoMemory
    }
}

impl<T: Drop> From<AllocFailed<T>> for Flaw {
    ghost from_gives = { λ _ e. e ≡ NoMemory };

    fn from(_e: AllocFailed<T>) -> Flaw {
        Flaw::NoMemory
    }
}
