ghost use Rattle.std.specs.Prelude.{◌≡◌};
ghost use Rattle.nova_journal.specs.declared.format_fault.FormatFault.TheVariants.{NoMemory};

use std::alloc::{AllocError, AllocFailed};

/// Why a journal could not be read.
pub enum FormatFault {
    /// The record at this gate is cut short, or there is none at all.
    At(usize),
    NoMemory,
}

impl From<AllocError> for FormatFault {
    ghost from_gives = { λ _ e. e ≡ NoMemory };

    fn from(_: AllocError) -> Self {
        FormatFault::NoMemory
    }
}

impl<T: Drop> From<AllocFailed<T>> for FormatFault {
    ghost from_gives = { λ _ e. e ≡ NoMemory };

    fn from(_: AllocFailed<T>) -> Self {
        FormatFault::NoMemory
    }
}
