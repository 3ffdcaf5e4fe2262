// The spans of intervals: whether one is there, and whether a path of them is.
ghost use Rattle.std.specs.Prelude.{◌≡◌, IfOk};
ghost use Rattle.nova_path.specs.Shelf.{is_in};
ghost use Rattle.nova_path.specs.Intervals.{IsShelf, spans};
ghost use Rattle.nova_meta.specs.Catalog.{leads};

use nova_path::{Interval, path};
use std::alloc::{AllocError, Global};

/// An interval of this span is there.
pub fn has_span(intervals: &[Interval], from: u64, to: u64) -> bool
    ensures { result ≡ is_in (spans intervals.now) (record { from = from; to = to }) }
{
    for interval in intervals {
        if interval.from == from && interval.to == to {
            return true;
        }
    }
    false
}

/// A path of these intervals leads from one version to the other.
pub fn leads(alloc: Global, intervals: &[Interval], from: u64, to: u64) -> Result<bool, AllocError>
    requires { IsShelf intervals.now }
    ensures { IfOk result (λ yes. yes ≡ leads intervals.now from to) }
{
    if from == to {
        return Ok(true);
    }
    if from > to {
        return Ok(false);
    }
    let found = path(alloc, intervals, from, to)?;
    Ok(found.is_some())
}
