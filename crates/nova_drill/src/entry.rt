//! The entries of the loads.
ghost use Rattle.std.specs.Prelude.{◌≡◌, ◌<◌, ◌≤◌, length, true, IfOk, OnOk};
ghost use Rattle.nova_value.specs.Entries.{FitsEntry};
ghost use Rattle.nova_value.specs.Rows.{FitsRow};
ghost use Rattle.nova_value.specs.Text.{is_clean};
ghost use Rattle.nova_value.specs.declared.value.Kind.TheVariants as kind;
ghost use Rattle.nova_drill.specs.Entries as spec;
ghost use Rattle.nova_drill.specs.Numbers.{number_after};

use crate::number::next_number;
use nova_delta::Delta;
use nova_value::{Column, Entry, Key, Kind, Name, Row, Schema, Str, Value};
use std::alloc::{AllocError, Global};

/// How many pages there are.
const PAGES: u64 = 4;

/// How many entries a load of requests has.
const ENTRIES: u64 = 8;

fn long(name: &str) -> Column
    requires { length name.now ≤ 64 }
    ensures { result ≡ record { name = name.now; kind = kind.Long } }
{
    Column {
        name: Name::new(name),
        kind: Kind::Long,
    }
}

fn chararray(name: &str) -> Column
    requires { length name.now ≤ 64 }
    ensures { result ≡ record { name = name.now; kind = kind.Text } }
{
    Column {
        name: Name::new(name),
        kind: Kind::Text,
    }
}

fn raw_schema(alloc: Global) -> Result<Schema, AllocError>
    ensures { IfOk result (λ s. s ≡ spec.raw_schema) }
{
    Schema::new(alloc, &[long("id"), chararray("url"), long("ms")], &[0])
}

fn pages_schema(alloc: Global) -> Result<Schema, AllocError>
    ensures { IfOk result (λ s. s ≡ spec.pages_schema) }
{
    Schema::new(alloc, &[chararray("url"), chararray("tag")], &[0])
}

/// The address of a page.
fn url(page: u64) -> &'static str
    requires { page < 4 }
    ensures url { result.now ≡ spec.url page }
    ensures short { length result.now ≤ 65535 }
    ensures clean { is_clean result.now ≡ true }
{
    match page {
        0 => "/0",
        1 => "/1",
        2 => "/2",
        _ => "/3",
    }
}

/// The tag of a page.
fn tag(page: u64) -> &'static str
    requires { page < 4 }
    ensures tag { result.now ≡ spec.tag page }
    ensures short { length result.now ≤ 65535 }
    ensures clean { is_clean result.now ≡ true }
{
    match page {
        0 => "t0",
        1 => "t1",
        2 => "t2",
        _ => "t3",
    }
}

/// A page with its tag.
fn page_entry(alloc: Global, page: u64) -> Result<Entry, AllocError>
    requires { page < 4 }
    ensures entry { IfOk result (λ e. e ≡ spec.page_entry page) }
    ensures fits { IfOk result (FitsEntry spec.pages_schema) }
{
    let url = Value::Text(Str::new(alloc, url(page))?);
    let tag = Value::Text(Str::new(alloc, tag(page))?);
    Ok(Entry::Put(Row::new(vec![in alloc; url, tag]?)))
}

/// A request.
fn raw_row(alloc: Global, number: u64) -> Result<Row, AllocError>
    requires { number < 65537 }
    ensures row { IfOk result (λ r. r ≡ spec.raw_row number) }
    ensures fits { IfOk result (FitsRow spec.raw_schema) }
{
    let id = Value::Long((number % 101) as i64);
    let url = Value::Text(Str::new(alloc, url(number / 101 % PAGES))?);
    let ms = Value::Long((number / 404 % 160) as i64);
    Ok(Row::new(vec![in alloc; id, url, ms]?))
}

/// The entry behind a number.
fn raw_entry(alloc: Global, number: u64) -> Result<Entry, AllocError>
    requires { number < 65537 }
    ensures entry { IfOk result (λ e. e ≡ spec.raw_entry number) }
    ensures fits { IfOk result (FitsEntry spec.raw_schema) }
{
    if number.is_multiple_of(8) {
        let id = Value::Long((number % 101) as i64);
        return Ok(Entry::Removal(Key::new(vec![in alloc; id]?)));
    }
    Ok(Entry::Put(raw_row(alloc, number)?))
}

/// The load of pages.
pub(crate) fn pages_load(alloc: Global) -> Result<Delta, AllocError>
    ensures { IfOk result (λ d. d ≡ spec.pages_load) }
{
    let mut delta = Delta::empty(alloc, pages_schema(alloc)?);
    for page in 0..PAGES {
        delta.set(page_entry(alloc, page)?)?;
    }
    Ok(delta)
}

/// A load of requests by the numbers behind this one, and the last of these.
pub(crate) fn raw_load(alloc: Global, number: u64) -> Result<(Delta, u64), AllocError>
    requires { number < 65537 }
    ensures delta { IfOk result (λ made. made.0 ≡ spec.raw_load number) }
    ensures last { IfOk result (λ made. made.1 ≡ number_after 8 number) }
    ensures bound { IfOk result (λ made. made.1 < 65537) }
{
    let mut delta = Delta::empty(alloc, raw_schema(alloc)?);
    let mut last = number;
    for _ in 0..ENTRIES {
        last = next_number(last);
        delta.set(raw_entry(alloc, last)?)?;
    }
    Ok((delta, last))
}
