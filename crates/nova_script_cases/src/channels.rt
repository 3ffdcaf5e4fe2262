//! The channels of the scripts.
use nova_pig_plan::Channels;
use nova_value::{Column, Kind, Name, Schema};
use sqlite_items::Items;
use std::alloc::{AllocError, Global};

macro_rules! schema {
    ($alloc:expr; $($name:literal $kind:ident),*) => {
        Schema::new($alloc, &[$(Column { name: Name::new($name), kind: Kind::$kind }),*], &[0])
    };
}

/// The inputs of every case, in this order: raw, pages, slow, tagged, stats.
fn inputs(alloc: Global) -> Result<Items<(Name, Schema)>, AllocError> {
    let mut all = Items::new(alloc);
    all.push((
        Name::new("raw"),
        schema!(alloc; "id" Long, "url" Text, "ms" Long)?,
    ))?;
    all.push((Name::new("pages"), schema!(alloc; "url" Text, "tag" Text)?))?;
    all.push((
        Name::new("slow"),
        schema!(alloc; "id" Long, "url" Text, "ms" Long)?,
    ))?;
    all.push((
        Name::new("tagged"),
        schema!(alloc; "id" Long, "tag" Text, "ms" Long)?,
    ))?;
    all.push((
        Name::new("stats"),
        schema!(alloc; "tag" Text, "n" Long, "total" Long, "worst" Long)?,
    ))?;
    Ok(all)
}

/// An output of these kinds, by its name: `L` for a long and `T` for a text.
fn output(alloc: Global, name: &str) -> Result<Schema, AllocError> {
    match name {
        "L" => schema!(alloc; "a" Long),
        "LL" => schema!(alloc; "a" Long, "b" Long),
        "LT" => schema!(alloc; "a" Long, "b" Text),
        "TL" => schema!(alloc; "a" Text, "b" Long),
        "LLL" => schema!(alloc; "a" Long, "b" Long, "c" Long),
        "LLT" => schema!(alloc; "a" Long, "b" Long, "c" Text),
        "TLLL" => schema!(alloc; "a" Text, "b" Long, "c" Long, "d" Long),
        "LTLTT" => schema!(alloc; "a" Long, "b" Text, "c" Long, "d" Text, "e" Text),
        "LTLLTL" => schema!(alloc; "a" Long, "b" Text, "c" Long, "d" Long, "e" Text, "f" Long),
        _ => schema!(alloc; "a" Long, "b" Text, "c" Long),
    }
}

/// The inputs, and an output of these kinds.
pub fn channels(alloc: Global, kinds: &str) -> Result<Channels, AllocError> {
    Ok(Channels {
        inputs: inputs(alloc)?,
        output: (Name::new("out"), output(alloc, kinds)?),
    })
}
