//! A session in the middle of its input.
ghost use Rattle.std.specs.Prelude.{◌≡◌, false};
ghost use Rattle.nova_value.specs.Text.{has_newline};
ghost use Rattle.nova_engine.specs.Loading.{FitsStore};

use crate::load::Pending;
use nova_runner::Store;
use nova_script::HeldLine;

/// The store, and the load that is being read.
#[derive(Drop)]
pub struct Session {
    pub store: Store,
    pub load: Option<Pending>,
    pub ghost of_store: { FitsStore store load },
}

/// A session, and what is held of the line that is being read.
#[derive(Drop)]
pub struct LineReader {
    pub session: Session,
    pub held: HeldLine,
    pub ghost one_line: { has_newline held ≡ false },
}
