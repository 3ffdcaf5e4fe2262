//! The channels of the cases.
use nova_pig_plan::Channels;
use nova_value::{Column, Kind, Name, Schema};
use sqlite_items::Items;
use std::alloc::{AllocError, Global};

macro_rules! schema {
    ($alloc:expr, $key:expr; $($name:literal $kind:ident),*) => {
        Schema::new($alloc, &[$(Column { name: Name::new($name), kind: Kind::$kind }),*], $key)
    };
}

/// The names of the inputs; an input's number is its place.
pub const NAMES: [&str; 5] = ["raw", "pages", "owners", "pairs", "slow"];

/// The schema of an input, by its number.
pub fn input(alloc: Global, number: u32) -> Result<Schema, AllocError> {
    match number {
        0 | 4 => schema!(alloc, &[0]; "id" Long, "url" Text, "ms" Long),
        1 => schema!(alloc, &[0]; "url" Text, "tag" Text),
        2 => schema!(alloc, &[0]; "tag" Text, "owner" Text),
        _ => schema!(alloc, &[2, 0]; "a" Long, "b" Text, "c" Text),
    }
}

/// An output by its kinds, with the places of its key behind a colon where that isn't the first
/// column: `L` for a long and `T` for a text.
fn output(alloc: Global, kinds: &str) -> Result<Schema, AllocError> {
    match kinds {
        "LT" => schema!(alloc, &[0]; "a" Long, "b" Text),
        "LL" => schema!(alloc, &[0]; "a" Long, "b" Long),
        "TL:1" => schema!(alloc, &[1]; "a" Text, "b" Long),
        "LT:1,0" => schema!(alloc, &[1, 0]; "a" Long, "b" Text),
        "LT:0,1" => schema!(alloc, &[0, 1]; "a" Long, "b" Text),
        "LL:1,0" => schema!(alloc, &[1, 0]; "a" Long, "b" Long),
        "LLT:1,2" => schema!(alloc, &[1, 2]; "a" Long, "b" Long, "c" Text),
        "LTT:0,1,2" => schema!(alloc, &[0, 1, 2]; "a" Long, "b" Text, "c" Text),
        _ => schema!(alloc, &[0]; "a" Long, "b" Text, "c" Long),
    }
}

/// The name of an input.
fn name(number: u32) -> Name {
    match number {
        0 => Name::new("raw"),
        1 => Name::new("pages"),
        2 => Name::new("owners"),
        3 => Name::new("pairs"),
        _ => Name::new("slow"),
    }
}

/// Inputs of these numbers, and an output of these kinds, which is named `out`.
pub fn channels(alloc: Global, inputs: &[u32], kinds: &str) -> Result<Channels, AllocError> {
    let mut all = Items::new(alloc);
    for number in inputs {
        all.push((name(*number), input(alloc, *number)?))?;
    }
    Ok(Channels {
        inputs: all,
        output: (Name::new("out"), output(alloc, kinds)?),
    })
}
