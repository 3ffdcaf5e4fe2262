// Why a call on a journal failed.
ghost use Rattle.std.specs.Prelude.{◌≡◌};
ghost use Rattle.nova_journal.specs.declared.fault.LogFault.TheVariants.{Disk as DiskFault};

use nova_outside::Failed;

/// Why a call on a journal failed.
#[derive(Clone, Copy, Debug, PartialEq, Eq)]
pub enum LogFault {
    /// A call of the host failed.
    Disk,
    /// No mark is there.
    NoStore,
    /// The file with this number is no journal: the record behind the gate at this place, or a gate
    /// after it, isn't whole, or no record counts.
    Damaged { file: u64, at: u64 },
    /// The record would take the journal of this length past 2^62 bytes.
    Full { length: u64 },
    /// There was no memory.
    NoMemory,
}

impl From<Failed> for LogFault {
    ghost from_gives = { λ _ e. e ≡ DiskFault };

    fn from(_: Failed) -> Self {
        LogFault::Disk
    }
}
