//! Standard input as a source.
ghost use Rattle.std.specs.Prelude.{◌≡◌, None};

use crate::raise;
use nova_outside::{Failed, Source};
use std::io::{Input, Read};

/// Standard input. A read that was interrupted failed too.
#[derive(Drop)]
pub struct StdSource<'a, R: Input> {
    rt: &'a R,
    faults: u64,
}

impl<'a, R: Input> StdSource<'a, R> {
    /// Reads standard input.
    pub fn new(rt: &'a R) -> StdSource<'a, R>
        ensures { result.faults ≡ 0 }
    {
        StdSource { rt, faults: 0 }
    }
}

impl<R: Input> Source for StdSource<'_, R> {
    ghost left = { λ _. None };

    ghost faults = { λ s. s.faults };

    fn take(&mut self, into: &mut [u8]) -> Result<usize, Failed> {
        match self.rt.reader().read(into) {
            Ok(count) => Ok(count),
            Err(_) => {
                raise(&mut self.faults);
                Err(Failed)
            }
        }
    }
}
