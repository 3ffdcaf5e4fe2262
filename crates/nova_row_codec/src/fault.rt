//! Why bytes are no spelling.
ghost use Rattle.std.specs.Prelude.{◌≡◌};
ghost use Rattle.nova_row_codec.specs.declared.fault.CodecFault.TheVariants.{NoMemory};

use std::alloc::{AllocError, AllocFailed};
use thiserror::Error;

/// Why bytes are no spelling: the first cause in the order of the bytes.
#[derive(Clone, Copy, Debug, PartialEq, Eq, Error)]
pub enum CodecFault {
    /// The bytes end before the entry does.
    #[error("the bytes end before the entry does")]
    Short,
    /// The tag is neither 0 nor 1, or bytes are left after the last entry.
    #[error("the tag is neither 0 nor 1, or bytes are left")]
    BadTag,
    /// A text isn't UTF-8, or has a tab or a newline.
    #[error("a text isn't UTF-8, or has a tab or a newline")]
    BadText,
    /// A key isn't above the one before.
    #[error("a key isn't above the one before")]
    OutOfOrder,
    /// Memory ran out.
    #[error("out of memory")]
    NoMemory,
}

impl From<AllocError> for CodecFault {
    ghost from_gives = { λ _ e. e ≡ NoMemory };

    fn from(_e: AllocError) -> CodecFault {
        CodecFault::NoMemory
    }
}

impl<T: Drop> From<AllocFailed<T>> for CodecFault {
    ghost from_gives = { λ _ e. e ≡ NoMemory };

    fn from(_e: AllocFailed<T>) -> CodecFault {
        CodecFault::NoMemory
    }
}
