//! A journal: records in one file of a host, each behind a gate, a byte that becomes 1 once the record
//! is on the disk. `docs/FORMATS.md` has the format.
#![tactic(auto)]

mod contents;
mod fault;
mod format_fault;
mod framing;
mod journal;
mod laws;
mod marks;
mod payload;
mod reading;

pub use fault::LogFault;
pub use framing::{frame, frame_tick};
pub use journal::Journal;
pub use laws::format_laws;
pub use marks::marked;
pub use payload::Payload;
