//! The channels of the cases.
use nova_pig_plan::Channels;
use nova_value::{Column, Kind, Name, Schema};
use sqlite_items::Items;
use std::alloc::{AllocError, Global};

macro_rules! schema {
    ($alloc:expr, $key:expr; $($name:literal $kind:ident),*) => {
        Schema::new($alloc, &[$(Column { name: Name::new($name), kind: Kind::$kind }),*], $key)
    };
}

/// The names of the inputs; an input's number is its place.
pub const NAMES: [&str; 8] = [
    "raw", "pages", "slow", "tagged", "stats", "none", "big", "words",
];

/// The schema of an input, by its number.
pub fn input(alloc: Global, number: u32) -> Result<Schema, AllocError> {
    match number {
        0 | 2 => schema!(alloc, &[0]; "id" Long, "url" Text, "ms" Long),
        1 => schema!(alloc, &[0]; "url" Text, "tag" Text),
        3 => schema!(alloc, &[0]; "id" Long, "tag" Text, "ms" Long),
        4 => schema!(alloc, &[0]; "tag" Text, "n" Long, "total" Long, "worst" Long),
        7 => schema!(alloc, &[0]; "id" Long, "w" Text),
        _ => schema!(alloc, &[0]; "id" Long, "n" Long),
    }
}

/// An output whose key is its first column, by its kinds: `L` for a long and `T` for a text.
fn by_first(alloc: Global, kinds: &str) -> Result<Schema, AllocError> {
    match kinds {
        "L" => schema!(alloc, &[0]; "a" Long),
        "T" => schema!(alloc, &[0]; "a" Text),
        "LL" => schema!(alloc, &[0]; "a" Long, "b" Long),
        "TL" => schema!(alloc, &[0]; "a" Text, "b" Long),
        "LLL" => schema!(alloc, &[0]; "a" Long, "b" Long, "c" Long),
        "LLT" => schema!(alloc, &[0]; "a" Long, "b" Long, "c" Text),
        "LTL" => schema!(alloc, &[0]; "a" Long, "b" Text, "c" Long),
        "TLL" => schema!(alloc, &[0]; "a" Text, "b" Long, "c" Long),
        "TTL" => schema!(alloc, &[0]; "a" Text, "b" Text, "c" Long),
        "LLLL" => schema!(alloc, &[0]; "a" Long, "b" Long, "c" Long, "d" Long),
        "TLLL" => schema!(alloc, &[0]; "a" Text, "b" Long, "c" Long, "d" Long),
        "TLLLL" => schema!(alloc, &[0]; "a" Text, "b" Long, "c" Long, "d" Long, "e" Long),
        "TLLTL" => schema!(alloc, &[0]; "a" Text, "b" Long, "c" Long, "d" Text, "e" Long),
        "LTLLTL" => {
            schema!(alloc, &[0]; "a" Long, "b" Text, "c" Long, "d" Long, "e" Text, "f" Long)
        }
        _ => schema!(alloc, &[0]; "a" Long, "b" Text, "c" Long, "d" Text, "e" Text),
    }
}

/// An output by its kinds, with the places of its key behind a colon where that isn't the first
/// column.
pub fn output(alloc: Global, kinds: &str) -> Result<Schema, AllocError> {
    match kinds {
        "LL:1" => schema!(alloc, &[1]; "a" Long, "b" Long),
        "TL:1,0" => schema!(alloc, &[1, 0]; "a" Text, "b" Long),
        "LT:0,1" => schema!(alloc, &[0, 1]; "a" Long, "b" Text),
        "LT:1,0" => schema!(alloc, &[1, 0]; "a" Long, "b" Text),
        "TTLTL:0,2" => { schema!(alloc, &[0, 2]; "a" Text, "b" Text, "c" Long, "d" Text, "e" Long) }
        "LTLTT:0,3" => { schema!(alloc, &[0, 3]; "a" Long, "b" Text, "c" Long, "d" Text, "e" Text) }
        _ => by_first(alloc, kinds),
    }
}

/// The name of an input.
fn name(number: u32) -> Name {
    match number {
        0 => Name::new("raw"),
        1 => Name::new("pages"),
        2 => Name::new("slow"),
        3 => Name::new("tagged"),
        4 => Name::new("stats"),
        5 => Name::new("none"),
        6 => Name::new("big"),
        _ => Name::new("words"),
    }
}

/// Inputs of these numbers, and an output of these kinds, which is named `out`.
pub fn channels(alloc: Global, inputs: &[u32], kinds: &str) -> Result<Channels, AllocError> {
    let mut all = Items::new(alloc);
    for number in inputs {
        all.push((name(*number), input(alloc, *number)?))?;
    }
    Ok(Channels {
        inputs: all,
        output: (Name::new("out"), output(alloc, kinds)?),
    })
}
