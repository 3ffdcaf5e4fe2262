// The payload of a record.

/// The payload of a record, and the place of its first byte in the journal's file.
#[derive(Drop)]
pub struct Payload {
    pub at: u64,
    pub bytes: Vec<u8>,
}
