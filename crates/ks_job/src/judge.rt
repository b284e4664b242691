//! One line, judged.
ghost use Rattle.std.specs.Prelude.{◌≡◌, ◌≤◌, ◌<◌, ◌+◌, IfOk, IfSome, option_map, length};
ghost use Rattle.serde_json.specs.View.{view};
ghost use Rattle.ks_job_record.specs.Gives.{Gives};
ghost use Rattle.ks_job.specs.Items.{item_view};
ghost use Rattle.ks_job.specs.Plain.{input_line, SaysAt};
ghost use Rattle.ks_job.specs.Lines.{spot, parsed, is_blank_byte, is_blank as blank, passes, too_long as length_fault, topology_line, record_line, value_line, data_line, judged};

use crate::place::Place;
use ks_job_record::{Input, JobKind, LineError, read_input, read_plain, too_many};
use ks_job_topology::{copy_names, read_topology};
use ks_plan::Draft;
use ks_record::{Name, Rec, Seq};
use serde_json::Value;
use std::alloc::{AllocError, Global};
use std::str;

/// The most bytes of a job.
pub const MOST_BYTES: u64 = 67_108_864;

const MOST_LINE: usize = 65_536;

const MOST_RECORDS: u64 = 250_000;

/// What a line gives.
#[derive(Drop)]
pub enum JobItem {
    /// The topology, with the number of its line.
    Topology { line: u64, draft: Draft },
    /// A record, with the number of its topic.
    Input { topic: u16, rec: Rec },
}

// What JSON says the line is.
#[tactic(auto, unfolding(crate::specs::Lines::parsed))]
fn parse_line(alloc: Global, line: &[u8]) -> Result<Option<Value>, AllocError>
    ensures { IfOk result (λ o. option_map (λ v. view v) o ≡ parsed line.now) }
{
    let Ok(text) = str::from_utf8(line) else {
        return Ok(None);
    };
    match Value::from_str(alloc, text) {
        Ok(value) => Ok(Some(value)),
        Err(error) => {
            if error.is_memory() {
                Err(AllocError)
            } else {
                Ok(None)
            }
        }
    }
}

fn is_blank_part(byte: u8) -> bool
    ensures { result ≡ is_blank_byte byte }
{
    byte == b' ' || byte == b'\t' || byte == b'\r'
}

fn is_blank(bytes: &[u8]) -> bool
    ensures { result ≡ blank bytes.now }
{
    bytes.iter().all(|b| is_blank_part(*b))
}

#[tactic(auto, unfolding(crate::specs::Lines::passes))]
fn is_past(start: u64, size: u64) -> bool
    requires { start ≤ 67108864 }
    ensures { result ≡ passes start size }
{
    start + size.min(65_537) > MOST_BYTES
}

/// The fault of a line that has a byte 65,537.
#[tactic(auto, unfolding(crate::specs::Lines::too_long))]
pub fn too_long(alloc: Global, start: u64) -> Result<JobKind, AllocError>
    requires { start ≤ 67108864 }
    ensures { IfOk result (λ k. k ≡ length_fault start) }
{
    if is_past(start, 65_537) {
        too_many(alloc, "bytes", MOST_BYTES)
    } else {
        Ok(JobKind::LineTooLong)
    }
}

#[tactic(auto, unfolding(crate::specs::Lines::topology_line))]
fn judge_topology(
    alloc: Global,
    place: Place,
    size: u64,
    value: &Value,
) -> Result<(Place, Option<JobItem>), LineError>
    requires some { 0 < size }
    requires room { place.start + size ≤ 67108864 }
    ensures { Gives (λ x. (spot x.0, option_map item_view x.1)) result
        (topology_line (spot place) size (view value.now)) }
{
    let draft = read_topology(alloc, value)?;
    let names = copy_names(alloc, draft.topics.as_slice())?;
    let next = Place {
        line: place.line + 1,
        start: place.start + size,
        topics: Some(Seq::of(names)),
        records: place.records,
    };
    Ok((
        next,
        Some(JobItem::Topology {
            line: place.line,
            draft,
        }),
    ))
}

// The place behind a record's line, and the record, where a job has room for it.
fn take_input(
    alloc: Global,
    place: Place,
    size: u64,
    input: Input,
) -> Result<(Place, Option<JobItem>), LineError>
    requires some { 0 < size }
    requires room { place.start + size ≤ 67108864 }
    ensures { Gives (λ x. (spot x.0, option_map item_view x.1)) result
        (input_line (spot place) size input) }
{
    if place.records < MOST_RECORDS {
        let next = Place {
            line: place.line + 1,
            start: place.start + size,
            topics: place.topics,
            records: place.records + 1,
        };
        let item = JobItem::Input {
            topic: input.topic,
            rec: input.rec,
        };
        Ok((next, Some(item)))
    } else {
        Err(LineError::Fault(too_many(alloc, "records", MOST_RECORDS)?))
    }
}

#[tactic(auto, unfolding(crate::specs::Lines::record_line))]
fn judge_record(
    alloc: Global,
    line: u64,
    start: u64,
    records: u64,
    topics: Seq<Name>,
    size: u64,
    value: &Value,
) -> Result<(Place, Option<JobItem>), LineError>
    requires some { 0 < size }
    requires numbered { line ≤ start + 1 }
    requires room { start + size ≤ 67108864 }
    ensures { Gives (λ x. (spot x.0, option_map item_view x.1)) result
        (record_line (record {
          line = line;
          start = start;
          topics = Some topics;
          records = records;
        }) size topics (view value.now)) }
{
    let input = read_input(alloc, topics.as_slice(), value)?;
    let place = Place {
        line,
        start,
        topics: Some(topics),
        records,
    };
    take_input(alloc, place, size, input)
}

fn judge_value(
    alloc: Global,
    place: Place,
    size: u64,
    value: &Value,
) -> Result<(Place, Option<JobItem>), LineError>
    requires some { 0 < size }
    requires room { place.start + size ≤ 67108864 }
    ensures { Gives (λ x. (spot x.0, option_map item_view x.1)) result
        (value_line place.topics (spot place) size (view value.now)) }
{
    let Place {
        line,
        start,
        topics,
        records,
    } = place;
    match topics {
        None => judge_topology(
            alloc,
            Place {
                line,
                start,
                topics: None,
                records,
            },
            size,
            value,
        ),
        Some(topics) => judge_record(alloc, line, start, records, topics, size, value),
    }
}

// The record of a plain line, once the topics are known.
fn read_plain_at(alloc: Global, place: &Place, line: &[u8]) -> Result<Option<Input>, AllocError>
    ensures { IfOk result (λ o. IfSome o (λ i. SaysAt (spot place.now) line.now i)) }
{
    match &place.topics {
        Some(topics) => read_plain(alloc, topics.as_slice(), line),
        None => Ok(None),
    }
}

#[tactic(auto, unfolding(crate::specs::Lines::data_line))]
fn judge_data(
    alloc: Global,
    place: Place,
    size: u64,
    line: &[u8],
) -> Result<(Place, Option<JobItem>), LineError>
    requires some { 0 < size }
    requires room { place.start + size ≤ 67108864 }
    ensures { Gives (λ x. (spot x.0, option_map item_view x.1)) result
        (data_line (spot place) size line.now) }
{
    if let Some(input) = read_plain_at(alloc, &place, line)? {
        return take_input(alloc, place, size, input);
    }
    match parse_line(alloc, line)? {
        Some(value) => judge_value(alloc, place, size, &value),
        None => Err(LineError::Fault(JobKind::NotJson)),
    }
}

/// Judges a whole line: the place behind it, and its topology or record, none where it is blank; `end` is 1 where an LF ends it, and
/// else 0. `Fault`: the first fault of the line, where it has one. `Memory`: memory ran out.
#[tactic(auto, unfolding(crate::specs::Lines::judged, crate::specs::Lines::passes, crate::specs::Lines::is_too_long))]
pub fn judge_line(
    alloc: Global,
    place: Place,
    end: u64,
    line: &[u8],
) -> Result<(Place, Option<JobItem>), LineError>
    requires some { 0 < length line.now + end }
    requires end { end ≤ 1 }
    ensures { Gives (λ x. (spot x.0, option_map item_view x.1)) result
        (judged (spot place) end line.now) }
{
    let size = line.len() as u64 + end;
    if is_past(place.start, size) {
        return Err(LineError::Fault(too_many(alloc, "bytes", MOST_BYTES)?));
    }
    if line.len() > MOST_LINE {
        return Err(LineError::Fault(JobKind::LineTooLong));
    }
    if is_blank(line) {
        let next = Place {
            line: place.line + 1,
            start: place.start + size,
            topics: place.topics,
            records: place.records,
        };
        return Ok((next, None));
    }
    judge_data(alloc, place, size, line)
}
