//! The channels of a workflow.
ghost use Rattle.std.specs.Prelude.{◌≡◌, ◌≤◌, ◌<◌, length, map, true, IfOk, IfSome};
ghost use Rattle.nova_value.specs.Rows.{all_below, none_is, all_distinct};
ghost use Rattle.toml.specs.View.{view};
ghost use Rattle.nova_flow.specs.Answers.{Gives, GivesBy};
ghost use Rattle.nova_flow.specs.Documents.{text_in};
ghost use Rattle.nova_flow.specs.Channels as spec;

use crate::document::text_in;
use crate::fault::{FlowFault, Stop};
use crate::rules::{at_most, only, text_needed, texts_needed};
use crate::words::{kept, kind_of, same_text, two_words};
use nova_name::{is_keyword, is_name};
use nova_value::{Column, Name, Schema};
use nova_workflow::Channel;
use sqlite_items::Items;
use std::alloc::Global;
use toml::Value;

/// The place of the first column of this name.
fn column_place(columns: &[Column], name: &str) -> Option<usize>
    ensures { result ≡ spec.column_place name.now columns.now }
{
    columns
        .iter()
        .position(|column| same_text(column.name.text(), name))
}

/// The column that a text states, after those that are done.
fn column_of(done: &[Column], text: &str) -> Option<Column>
    ensures { result ≡ spec.column_of done.now text.now }
{
    let (name, kind) = two_words(text)?;
    let kind = kind_of(kind)?;
    if is_name(name.as_bytes())
        && !is_keyword(name.as_bytes())
        && column_place(done, name).is_none()
    {
        Some(Column {
            name: Name::new(name),
            kind,
        })
    } else {
        None
    }
}

/// BadColumn: a column of this channel.
fn bad_column(channel: &Name) -> Stop
    ensures { result ≡ spec.bad_column channel.now }
{
    Stop::Fault(FlowFault::BadColumn {
        channel: channel.copy(),
    })
}

/// BadKey: the key of this channel.
fn bad_key(channel: &Name) -> Stop
    ensures { result ≡ spec.bad_key channel.now }
{
    Stop::Fault(FlowFault::BadKey {
        channel: channel.copy(),
    })
}

/// The columns that the texts state, one for each.
fn columns_of(alloc: Global, channel: &Name, texts: &[Value]) -> Result<Vec<Column>, Stop>
    ensures gives { GivesBy (λ cs. cs.items) result (spec.columns_of channel.now (map text_in texts.now)) }
    ensures each { IfOk result (λ cs. length cs.items ≡ length texts.now) }
    ensures some { IfOk result (λ cs. 1 ≤ length cs.items) }
{
    if texts.is_empty() {
        return Err(bad_column(channel));
    }
    let mut columns = Vec::new(alloc);
    for value in texts {
        match column_of(&columns, text_in(value)) {
            Some(column) => columns.push(column)?,
            None => return Err(bad_column(channel)),
        }
    }
    Ok(columns)
}

/// Whether none of the places is this one.
fn is_new_place(places: &[u32], place: usize) -> bool
    ensures { result ≡ none_is place places.now }
{
    for p in places {
        if *p as usize == place {
            return false;
        }
    }
    true
}

/// The place of the column with this name, which isn't in the key yet.
fn key_place(columns: &[Column], done: &[u32], name: &str) -> Option<u32>
    requires { length columns.now ≤ 32 }
    ensures place { result ≡ spec.key_place columns.now done.now name.now }
    ensures below { IfSome result (λ p. p < length columns.now) }
    ensures fresh { IfSome result (λ p. none_is p done.now ≡ true) }
{
    let place = column_place(columns, name)?;
    if is_new_place(done, place) {
        Some(place as u32)
    } else {
        None
    }
}

/// The places of the columns that the names name, one for each, in their order.
fn key_of(
    alloc: Global,
    channel: &Name,
    columns: &[Column],
    names: &[Value],
) -> Result<Vec<u32>, Stop>
    requires { length columns.now ≤ 32 }
    ensures gives { GivesBy (λ ps. ps.items) result (spec.key_of channel.now columns.now (map text_in names.now)) }
    ensures each { IfOk result (λ ps. length ps.items ≡ length names.now) }
    ensures some { IfOk result (λ ps. 1 ≤ length ps.items) }
    ensures below { IfOk result (λ ps. all_below (length columns.now) ps.items ≡ true) }
    ensures distinct { IfOk result (λ ps. all_distinct ps.items ≡ true) }
{
    if names.is_empty() {
        return Err(bad_key(channel));
    }
    let mut places = Vec::new(alloc);
    for value in names {
        match key_place(columns, &places, text_in(value)) {
            Some(place) => places.push(place)?,
            None => return Err(bad_key(channel)),
        }
    }
    Ok(places)
}

/// The schema of a channel.
fn schema_of(
    alloc: Global,
    channel: &Name,
    columns: &[Value],
    key: &[Value],
) -> Result<Schema, Stop>
    ensures { Gives result (spec.schema_of channel.now (map text_in columns.now) (map text_in key.now)) }
{
    at_most("columns", 32, columns.len())?;
    let columns = columns_of(alloc, channel, columns)?;
    at_most("key", 8, key.len())?;
    let places = key_of(alloc, channel, &columns, key)?;
    Ok(Schema::new(alloc, &columns, &places)?)
}

/// The number of the channel with this name.
pub(crate) fn channel_place(channels: &[Channel], name: &str) -> Option<usize>
    ensures { result ≡ spec.channel_place name.now channels.now }
{
    channels
        .iter()
        .position(|channel| same_text(channel.name.text(), name))
}

/// The name of a channel after those that are done.
fn new_channel(done: &[Channel], name: &str) -> Result<Name, Stop>
    ensures { GivesBy (λ n. n) result (spec.new_channel done.now name.now) }
{
    if is_name(name.as_bytes()) && channel_place(done, name).is_none() {
        Ok(Name::new(name))
    } else {
        Err(Stop::Fault(FlowFault::BadName { name: kept(name) }))
    }
}

/// The channel that a table states, after those that are done.
fn channel_of(alloc: Global, done: &[Channel], table: &Value) -> Result<Channel, Stop>
    ensures { Gives result (spec.channel_of done.now (view table.now)) }
{
    only(table, &["name", "columns", "key"])?;
    let name = text_needed(table, "name")?;
    let columns = texts_needed(table, "columns")?;
    let key = texts_needed(table, "key")?;
    let name = new_channel(done, name)?;
    let schema = schema_of(alloc, &name, columns, key)?;
    Ok(Channel {
        name,
        schema,
        writer: None,
        based: false,
    })
}

/// The channels that the tables state, one for each.
pub(crate) fn channels_of(alloc: Global, tables: &[Value]) -> Result<Items<Channel>, Stop>
    ensures gives { Gives result (spec.channels_of (map view tables.now)) }
    ensures each { IfOk result (λ cs. length cs ≡ length tables.now) }
{
    let mut channels = Items::new(alloc);
    for table in tables {
        let channel = channel_of(alloc, channels.as_slice(), table)?;
        channels.push(channel)?;
    }
    Ok(channels)
}
