//! Commits, what the payloads of a store's journal say, and their bytes. `docs/FORMATS.md` has the
//! format.
#![tactic(auto)]

mod commit;
mod decoding;
mod encoding;
mod fault;
mod laws;

pub use commit::{Commit, PartFile};
pub use decoding::{decode_commit, is_rising};
pub use encoding::encode_commit;
pub use fault::MetaFault;
pub use laws::commits_are_spelled_once;
