//! Record lines.
ghost use Rattle.std.specs.Prelude.{◌≡◌, [], codes, option_copied};
ghost use Rattle.serde_json.specs.Find.{get};
ghost use Rattle.serde_json.specs.View.{view, members_view};
ghost use Rattle.ks_row.specs.Spelling.{spelling};
ghost use Rattle.ks_job_record.specs.Gives.{Gives};
ghost use Rattle.ks_job_record.specs.Record.{place_of, number_of, topic_from, key_from, field_from, member_from, with_member, fields_from, row_from, value_from, time_within, time_from, input_from};

use crate::fault::{LineError, bad_number, bad_shape, too_many, unknown_topic};
use crate::members::{Form, read_integer, read_member, read_object, read_text};
use ks_record::{Blob, Name, Rec, RecordRef, Text};
use ks_row::{Field, Row};
use serde_json::Value;
use serde_json::value::Map;
use std::alloc::Global;

/// A record for a topic, which is given by its number.
#[derive(Drop)]
pub struct Input {
    pub topic: u16,
    pub rec: Rec,
}

fn find_topic(topic: &str, topics: &[Name]) -> Option<usize>
    ensures { result ≡ place_of 0 topic.now topics.now }
{
    let mut i = 0;
    let mut rest = topics;
    while let [first, more @ ..] = rest {
        if first.as_str() == topic {
            return Some(i);
        }
        i += 1;
        rest = more;
    }
    None
}

/// The number of a topic, which is its place.
pub fn topic_number(topic: &str, topics: &[Name]) -> Option<u16>
    ensures { result ≡ number_of topic.now topics.now }
{
    let place = find_topic(topic, topics)?;
    if place < 65_536 {
        Some(place as u16)
    } else {
        None
    }
}

#[tactic(auto, unfolding(crate::specs::Record::topic_from))]
fn read_topic(alloc: Global, topics: &[Name], value: &Value) -> Result<u16, LineError>
    ensures { Gives (λ n. n) result (topic_from topics.now (view value.now)) }
{
    let topic = read_text(alloc, "topic", value)?;
    match topic_number(topic, topics) {
        Some(number) => Ok(number),
        None => Err(LineError::Fault(unknown_topic(alloc, topic)?)),
    }
}

fn read_key(alloc: Global, value: &Value) -> Result<Option<Blob>, LineError>
    ensures { Gives (λ k. k) result (key_from (get (codes "key") (view value.now))) }
{
    match value.get("key") {
        None => Ok(None),
        Some(Value::Null) => Ok(None),
        Some(Value::String(text)) => {
            let text = text.as_str();
            if text.is_empty() {
                Err(LineError::Fault(bad_shape(alloc, "key")?))
            } else if text.len() <= 1024 {
                Ok(Some(Blob::from_slice(alloc, text.as_bytes())?))
            } else {
                Err(LineError::Fault(bad_shape(alloc, "key")?))
            }
        }
        Some(_) => Err(LineError::Fault(bad_shape(alloc, "key")?)),
    }
}

fn read_field(alloc: Global, name: &str, value: &Value) -> Result<Field, LineError>
    ensures { Gives (λ f. f) result (field_from name.now (view value.now)) }
{
    match value {
        Value::Number(_) => Ok(Field::Int(read_integer(alloc, name, value)?)),
        Value::String(text) => match Text::of_text(alloc, text.as_str())? {
            Some(text) => Ok(Field::Text(text)),
            None => Err(LineError::Fault(bad_shape(alloc, name)?)),
        },
        _ => Err(LineError::Fault(bad_shape(alloc, name)?)),
    }
}

#[tactic(auto, unfolding(crate::specs::Record::member_from))]
fn read_field_of(alloc: Global, name: &str, value: &Value) -> Result<(Name, Field), LineError>
    ensures { Gives (λ m. m) result (member_from name.now (view value.now)) }
{
    let Some(known) = Name::of_text(alloc, name)? else {
        return Err(LineError::Fault(bad_shape(alloc, name)?));
    };
    let field = read_field(alloc, name, value)?;
    Ok((known, field))
}

#[tactic(auto, unfolding(crate::specs::Record::with_member))]
fn push_field(
    alloc: Global,
    fields: Vec<(Name, Field)>,
    name: &str,
    value: &Value,
) -> Result<Vec<(Name, Field)>, LineError>
    ensures { Gives (λ v. v.items) result (with_member fields.items name.now (view value.now)) }
{
    let mut fields = fields;
    if fields.len() < 64 {
        let member = read_field_of(alloc, name, value)?;
        fields.push(member)?;
        Ok(fields)
    } else {
        Err(LineError::Fault(too_many(alloc, "fields", 64)?))
    }
}

fn read_fields(alloc: Global, map: &Map<String, Value>) -> Result<Vec<(Name, Field)>, LineError>
    ensures { Gives (λ v. v.items) result (fields_from [] (members_view map.now.entries)) }
{
    let mut fields = Vec::new(alloc);
    for (name, value) in map {
        match value {
            Value::Null => {}
            _ => fields = push_field(alloc, fields, name.as_str(), value)?,
        }
    }
    Ok(fields)
}

#[tactic(auto, unfolding(crate::specs::Record::row_from))]
fn read_row(alloc: Global, map: &Map<String, Value>) -> Result<Row, LineError>
    ensures { Gives (λ r. r) result (row_from (members_view map.now.entries)) }
{
    let fields = read_fields(alloc, map)?;
    match Row::from_rising(alloc, fields.as_slice())? {
        Some(row) => Ok(row),
        None => Err(LineError::Fault(bad_shape(alloc, "value")?)),
    }
}

fn read_value(alloc: Global, value: &Value) -> Result<Option<Blob>, LineError>
    ensures { Gives (λ v. v) result (value_from (view value.now)) }
{
    match value {
        Value::Null => Ok(None),
        Value::Object(map) => {
            let row = read_row(alloc, map)?;
            Ok(Some(row.into_bytes()))
        }
        _ => Err(LineError::Fault(bad_shape(alloc, "value")?)),
    }
}

fn check_time(alloc: Global, time: i64) -> Result<u64, LineError>
    ensures { Gives (λ n. n) result (time_within time) }
{
    if 0 <= time && time <= 9_007_199_254_740_992 {
        Ok(time as u64)
    } else {
        Err(LineError::Fault(bad_number(alloc, "ts")?))
    }
}

fn read_time(alloc: Global, value: &Value) -> Result<u64, LineError>
    ensures { Gives (λ n. n) result (time_from (get (codes "ts") (view value.now))) }
{
    match value.get("ts") {
        None => Ok(0),
        Some(value) => {
            let time = read_integer(alloc, "ts", value)?;
            check_time(alloc, time)
        }
    }
}

fn bytes_in(blob: &Option<Blob>) -> Option<&[u8]>
    ensures { option_copied result ≡ blob.now }
{
    match blob {
        Some(blob) => Some(blob.as_slice()),
        None => None,
    }
}

/// The record that a value is, or the first fault.
#[tactic(auto, unfolding(crate::specs::Record::input_from))]
pub fn read_input(alloc: Global, topics: &[Name], value: &Value) -> Result<Input, LineError>
    ensures { Gives (λ i. i) result (input_from topics.now (view value.now)) }
{
    read_object(alloc, "line", Form::Record, value)?;
    let topic = read_topic(alloc, topics, value)?;
    let key = read_key(alloc, value)?;
    let inner = read_member(alloc, "value", value)?;
    let row = read_value(alloc, inner)?;
    let ts = read_time(alloc, value)?;
    let rec = RecordRef {
        key: bytes_in(&key),
        value: bytes_in(&row),
        ts,
    };
    Ok(Input {
        topic,
        rec: Rec::of(alloc, rec)?,
    })
}
