//! The row that a value tells.
ghost use Rattle.std.specs.Prelude.{◌≡◌, [], IfOk, Some, None, option_map};
ghost use Rattle.serde_json.specs.View.{view, items_view, members_view};
ghost use Rattle.ks_table_line.specs.Reading.{field_by, field_in, member_in, members_from, row_in, key_in, row_at, row_last, row_from_start, row_of_items, table_row_in};

use ks_query::TableRow;
use ks_record::{Key, Name, Text};
use ks_row::{Field, Row};
use serde_json::Value;
use serde_json::value::Map;
use std::alloc::{AllocError, Global};

fn read_text(alloc: Global, text: &str) -> Result<Option<Field>, AllocError>
    ensures { IfOk result (λ o. o ≡ field_by (Some text.now) None) }
{
    match Text::of_text(alloc, text)? {
        Some(text) => Ok(Some(Field::Text(text))),
        None => Ok(None),
    }
}

fn read_field(alloc: Global, value: &Value) -> Result<Option<Field>, AllocError>
    ensures { IfOk result (λ o. o ≡ field_in (view value.now)) }
{
    if let Some(text) = value.as_str() {
        return read_text(alloc, text);
    }
    match value.as_i64() {
        Some(number) => Ok(Some(Field::Int(number))),
        None => Ok(None),
    }
}

fn read_member(
    alloc: Global,
    name: &str,
    value: &Value,
) -> Result<Option<(Name, Field)>, AllocError>
    ensures { IfOk result (λ o. o ≡ member_in name.now (view value.now)) }
{
    let Some(name) = Name::of_text(alloc, name)? else {
        return Ok(None);
    };
    match read_field(alloc, value)? {
        Some(field) => Ok(Some((name, field))),
        None => Ok(None),
    }
}

fn read_members(
    alloc: Global,
    map: &Map<String, Value>,
) -> Result<Option<Vec<(Name, Field)>>, AllocError>
    ensures { IfOk result (λ o. option_map (λ v. v.items) o
        ≡ members_from [] (members_view map.now.entries)) }
{
    let mut members = Vec::new(alloc);
    for (name, value) in map {
        let Some(member) = read_member(alloc, name.as_str(), value)? else {
            return Ok(None);
        };
        members.push(member)?;
    }
    Ok(Some(members))
}

fn read_row(alloc: Global, value: &Value) -> Result<Option<Row>, AllocError>
    ensures { IfOk result (λ o. o ≡ row_in (view value.now)) }
{
    let Some(map) = value.as_object() else {
        return Ok(None);
    };
    match read_members(alloc, map)? {
        Some(members) => Ok(Row::from_rising(alloc, members.as_slice())?),
        None => Ok(None),
    }
}

fn read_key(alloc: Global, value: &Value) -> Result<Option<Key>, AllocError>
    ensures { IfOk result (λ o. o ≡ key_in (view value.now)) }
{
    match value.as_str() {
        Some(text) => Key::of_text(alloc, text),
        None => Ok(None),
    }
}

// The row of a key, a start and fields.
fn row_of(
    alloc: Global,
    key: &Value,
    start: Option<u64>,
    fields: &Value,
) -> Result<Option<TableRow>, AllocError>
    ensures { IfOk result (λ o. o ≡ row_at (view key.now) start (view fields.now)) }
{
    let Some(key) = read_key(alloc, key)? else {
        return Ok(None);
    };
    let Some(row) = read_row(alloc, fields)? else {
        return Ok(None);
    };
    Ok(Some(TableRow { key, start, row }))
}

// Its fields stand last.
fn read_last(
    alloc: Global,
    key: &Value,
    start: Option<u64>,
    items: &[Value],
) -> Result<Option<TableRow>, AllocError>
    ensures { IfOk result (λ o. o ≡ row_last (view key.now) start (items_view items.now)) }
{
    let [fields, more @ ..] = items else {
        return Ok(None);
    };
    if !more.is_empty() {
        return Ok(None);
    }
    row_of(alloc, key, start, fields)
}

// The start of its window comes first.
fn read_start(alloc: Global, key: &Value, items: &[Value]) -> Result<Option<TableRow>, AllocError>
    ensures { IfOk result (λ o. o ≡ row_from_start (view key.now) (items_view items.now)) }
{
    let [start, more @ ..] = items else {
        return Ok(None);
    };
    let Some(start) = start.as_u64() else {
        return Ok(None);
    };
    read_last(alloc, key, Some(start), more)
}

fn read_items(
    alloc: Global,
    windowed: bool,
    items: &[Value],
) -> Result<Option<TableRow>, AllocError>
    ensures { IfOk result (λ o. o ≡ row_of_items windowed (items_view items.now)) }
{
    let [key, more @ ..] = items else {
        return Ok(None);
    };
    if windowed {
        read_start(alloc, key, more)
    } else {
        read_last(alloc, key, None, more)
    }
}

/// The row that a value tells, of a windowed table where that is so. Want of memory is the one error.
pub(crate) fn read_table_row(
    alloc: Global,
    windowed: bool,
    value: &Value,
) -> Result<Option<TableRow>, AllocError>
    ensures { IfOk result (λ o. o ≡ table_row_in windowed (view value.now)) }
{
    match value.as_array() {
        Some(items) => read_items(alloc, windowed, items.as_slice()),
        None => Ok(None),
    }
}
