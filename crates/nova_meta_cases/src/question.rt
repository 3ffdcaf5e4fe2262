//! Questions about a catalog's paths and about the bytes of commits.
ghost use Rattle.std.specs.Prelude.{◌≤◌};

use crate::case::bytes_of;
use crate::spelling::meaning;
use nova_meta::Catalog;
use nova_path::{Hop, needed, path};
use std::alloc::{AllocError, Global};
use std::str::Split;

fn number(word: Option<&str>) -> u64 {
    word.unwrap_or("").parse::<u64>().unwrap_or(u64::MAX)
}

/// The blocks on the chosen path between two versions of a channel, and how many bytes they have.
fn chosen(
    alloc: Global,
    catalog: &Catalog,
    channel: u32,
    from: u64,
    to: u64,
) -> Result<String, AllocError> {
    if channel >= catalog.channel_count() || from > to {
        return String::from_str(alloc, "no such path");
    }
    let intervals = catalog.intervals(channel);
    let Some(found) = path(alloc, intervals, from, to)? else {
        return String::from_str(alloc, "none");
    };
    let mut text = String::new(alloc);
    for place in found.steps.iter() {
        let block = intervals
            .get(*place)
            .map_or(u64::MAX, |interval| interval.block);
        text.push_str(format!(in alloc; "block {block}, ")?.as_str())?;
    }
    text.push_str(format!(in alloc; "{} bytes", found.total)?.as_str())?;
    Ok(text)
}

/// The hop of a word such as `0-3`; without one, that from 0 to 0.
fn hop(word: Option<&str>) -> Hop
    ensures { result.from ≤ result.to }
{
    let (from, to) = word.unwrap_or("").split_once('-').unwrap_or(("0", "0"));
    let from = from.parse::<u64>().unwrap_or(0);
    let to = to.parse::<u64>().unwrap_or(0).max(from);
    Hop { from, to }
}

/// The blocks that the reads of three hops need.
fn needs(
    alloc: Global,
    catalog: &Catalog,
    channel: u32,
    mut hops: Split<'_, char>,
) -> Result<String, AllocError> {
    if channel >= catalog.channel_count() {
        return String::from_str(alloc, "no such channel");
    }
    let hops = [hop(hops.next()), hop(hops.next()), hop(hops.next())];
    let mut text = String::from_str(alloc, "blocks")?;
    for block in needed(alloc, catalog.intervals(channel), &hops)?.iter() {
        text.push_str(format!(in alloc; " {block}")?.as_str())?;
    }
    Ok(text)
}

/// The answer to `path CHANNEL FROM TO`, `need CHANNEL FROM-TO FROM-TO FROM-TO`, or `means` and the
/// bytes of a commit.
pub fn answer(alloc: Global, catalog: &Catalog, asked: &str) -> Result<String, AllocError> {
    let (word, rest) = asked.split_once(' ').unwrap_or((asked, ""));
    if word == "means" {
        return match bytes_of(alloc, rest)? {
            Some(bytes) => meaning(alloc, &bytes),
            None => String::from_str(alloc, "no bytes"),
        };
    }
    let mut words = rest.split(' ');
    let channel = u32::try_from(number(words.next())).unwrap_or(u32::MAX);
    match word {
        "path" => {
            let from = number(words.next());
            chosen(alloc, catalog, channel, from, number(words.next()))
        }
        "need" => needs(alloc, catalog, channel, words),
        _ => String::from_str(alloc, "no such question"),
    }
}
