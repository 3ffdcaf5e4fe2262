//! The schemas of the cases.
use nova_value::{Column, Kind, Name, Schema};
use std::alloc::{AllocError, Global};

/// A number, a text and a number; the first is the key.
pub fn visits(alloc: Global) -> Result<Schema, AllocError> {
    Schema::new(
        alloc,
        &[
            Column {
                name: Name::new("id"),
                kind: Kind::Long,
            },
            Column {
                name: Name::new("url"),
                kind: Kind::Text,
            },
            Column {
                name: Name::new("ms"),
                kind: Kind::Long,
            },
        ],
        &[0],
    )
}

/// One text, which is the key.
pub fn words(alloc: Global) -> Result<Schema, AllocError> {
    Schema::new(
        alloc,
        &[Column {
            name: Name::new("word"),
            kind: Kind::Text,
        }],
        &[0],
    )
}

/// A text and a number; the key is the number and then the text.
pub fn turned(alloc: Global) -> Result<Schema, AllocError> {
    Schema::new(
        alloc,
        &[
            Column {
                name: Name::new("word"),
                kind: Kind::Text,
            },
            Column {
                name: Name::new("id"),
                kind: Kind::Long,
            },
        ],
        &[1, 0],
    )
}
