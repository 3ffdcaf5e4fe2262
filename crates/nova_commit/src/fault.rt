//! Why a commit was refused.
ghost use Rattle.std.specs.Prelude.{◌≡◌};
ghost use Rattle.nova_commit.specs.declared.fault.MetaFault.TheVariants.{NoMemory};

use std::alloc::{AllocError, AllocFailed};

/// Why a commit was refused.
#[derive(Clone, Copy, Debug, PartialEq, Eq)]
pub enum MetaFault {
    /// The bytes aren't exactly the fields of a commit, or the commit breaks a rule of the catalog.
    BadRecord,
    /// There was no memory.
    NoMemory,
}

impl From<AllocError> for MetaFault {
    ghost from_gives = { λ _ e. e ≡ NoMemory };

    fn from(_: AllocError) -> Self {
        MetaFault::NoMemory
    }
}

impl<T: Drop> From<AllocFailed<T>> for MetaFault {
    ghost from_gives = { λ _ e. e ≡ NoMemory };

    fn from(_: AllocFailed<T>) -> Self {
        MetaFault::NoMemory
    }
}
