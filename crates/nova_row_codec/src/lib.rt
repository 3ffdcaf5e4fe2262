//! Entries and deltas as bytes.
#![tactic(auto)]

mod decoding;
mod encoding;
mod fault;
mod laws;
mod length;
mod list;

pub use decoding::{decode_entry, value_from, values_of};
pub use encoding::{encode_entry, put_value, put_values};
pub use fault::CodecFault;
pub use laws::{blocks_are_spelled_once, entries_are_spelled_once, entries_have_three_bytes};
pub use length::entry_length;
pub use list::decode_list;
