//! Standard input as a source, and a folder with standard output as a host: the real outside. They
//! tell nothing of contents; every error of the system raises a count.
#![tactic(auto)]

mod files;
mod folder;
mod host;
mod source;

ghost use Rattle.std.specs.Prelude.{◌≤◌};
ghost use Rattle.nova_outside.specs.Causes.{Rose};

pub use host::DirHost;
pub use source::StdSource;

/// Raises a count by one, up to the greatest `u64`.
fn raise(count: &mut u64)
    ensures later { count.old ≤ count.new }
    ensures rose { Rose count.old count.new }
{
    *count = count.saturating_add(1);
}
