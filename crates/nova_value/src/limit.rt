//! The sizes that values and schemas keep to.

/// The most bytes that a text value has.
pub const MAX_TEXT_BYTES: usize = 65_535;

/// The most columns that a schema has.
pub const MAX_COLUMNS: usize = 32;

/// The most columns that a key has.
pub const MAX_KEY_COLUMNS: usize = 8;
