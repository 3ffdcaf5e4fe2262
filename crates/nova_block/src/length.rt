//! How long a block is, before it is written.
ghost use Rattle.std.specs.Prelude.{◌≡◌};
ghost use Rattle.nova_delta.specs.Merge.{puts};
ghost use Rattle.nova_row_codec.specs.Spelling.{spelling_of, told_length};

use nova_delta::Delta;
use nova_row_codec::entry_length;
use nova_value::Entry;

/// How many bytes the spelling of a delta has, or 2^64 - 1 where it has more. It takes no memory.
pub fn encoded_length(delta: &Delta) -> u64
    ensures { result ≡ told_length (spelling_of delta.now) }
{
    let mut total: u64 = 8;
    for entry in delta.entries() {
        total = total.saturating_add(entry_length(entry));
    }
    total
}

/// The same of a delta without its removals.
pub fn puts_length(delta: &Delta) -> u64
    ensures { result ≡ told_length (spelling_of (record { schema = delta.now.schema; entries = puts delta.now.entries })) }
{
    let mut total: u64 = 8;
    for entry in delta.entries() {
        if let Entry::Put(_) = entry {
            total = total.saturating_add(entry_length(entry));
        }
    }
    total
}
