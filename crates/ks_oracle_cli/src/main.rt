//! The plain query as a program: it reads a job on standard input, evaluates the query of its topology once over all its records, and
//! prints the tables as `streams` prints those of a settled job. Beside the engine, to compare it with.
#![tactic(auto)]

use ks_job::{JobFault, JobItem, JobReader};
use ks_oracle::{JobRecord, evaluate};
use ks_query::printed;
use ks_record::{Blob, Key, Rec};
use ks_row::{Row, decode};
use ks_topo::{Draft, Topology};
use std::alloc::{AllocError, Global};
use std::io::{self, Read, Write};
use std::process::ExitCode;

// A line or the topology is faulty.
const BAD_JOB: u8 = 2;

// There was no memory, or a device failed.
const NO_ANSWER: u8 = 8;

fn key_of(alloc: Global, key: Option<&[u8]>) -> Result<Option<Key>, AllocError> {
    match key {
        Some(bytes) => Key::of(alloc, bytes),
        None => Ok(None),
    }
}

fn row_of(alloc: Global, value: Option<&[u8]>) -> Result<Option<Row>, AllocError> {
    match value {
        Some(bytes) => decode(alloc, bytes),
        None => Ok(None),
    }
}

fn record_of(alloc: Global, topic: u16, rec: &Rec) -> Result<JobRecord, AllocError> {
    let key = key_of(alloc, rec.key())?;
    let Ok(row) = row_of(alloc, rec.value()) else {
        drop(key);
        return Err(AllocError);
    };
    Ok(JobRecord::new(topic, key, row, rec.ts()))
}

// The records of a job, in their order.
fn records_of(alloc: Global, items: &[JobItem]) -> Result<Vec<JobRecord>, AllocError> {
    let mut records = Vec::new(alloc);
    for item in items {
        if let JobItem::Input { topic, rec } = item {
            records.push(record_of(alloc, *topic, rec)?)?;
        }
    }
    Ok(records)
}

// Whether a reader's answer tells no fault.
fn is_good(answer: Result<Result<(), JobFault>, AllocError>) -> Result<bool, AllocError> {
    let answer = answer?;
    let is_good = answer.is_ok();
    drop(answer);
    Ok(is_good)
}

// The items of a job; none where a line is faulty.
fn items_of(alloc: Global, input: &[u8]) -> Result<Option<Vec<JobItem>>, AllocError> {
    let mut reader = JobReader::new(alloc);
    let mut items = Vec::new(alloc);
    match is_good(reader.feed(input, &mut items)) {
        Ok(true) => {}
        Ok(false) => {
            drop(reader);
            return Ok(None);
        }
        Err(error) => {
            drop(reader);
            return Err(error);
        }
    }
    if is_good(reader.finish(&mut items))? {
        Ok(Some(items))
    } else {
        Ok(None)
    }
}

// The topology's draft, which is a job's first item.
fn draft_of(items: Vec<JobItem>) -> Option<Draft> {
    let mut items = items;
    if items.is_empty() {
        return None;
    }
    match items.remove(0) {
        JobItem::Topology { line: _, draft } => Some(draft),
        JobItem::Input { .. } => None,
    }
}

// The text of the tables of a topology, which is let go.
fn tables_text(
    alloc: Global,
    topology: Topology,
    records: &[JobRecord],
) -> Result<Blob, AllocError> {
    let tables = evaluate(alloc, &topology, records);
    drop(topology);
    let tables = tables?;
    let text = printed(alloc, &tables);
    drop(tables);
    text
}

// The text of the tables; none where the topology is faulty.
fn text_of(alloc: Global, draft: Draft, records: &[JobRecord]) -> Result<Option<Blob>, AllocError> {
    match Topology::build(alloc, draft)? {
        Ok(topology) => Ok(Some(tables_text(alloc, topology, records)?)),
        Err(fault) => {
            drop(fault);
            Ok(None)
        }
    }
}

// The text of the tables that a job prints; none where it is faulty.
fn answer_of(alloc: Global, input: &[u8]) -> Result<Option<Blob>, AllocError> {
    let Some(items) = items_of(alloc, input)? else {
        return Ok(None);
    };
    let records = records_of(alloc, &items)?;
    match draft_of(items) {
        Some(draft) => text_of(alloc, draft, &records),
        None => Ok(None),
    }
}

// Answers the job on standard input.
fn run(rt: &HostRuntime) -> io::Result<u8> {
    let alloc = rt.alloc();
    let mut input = Vec::new(alloc);
    rt.stdin().read_to_end(&mut input)?;
    let Some(text) = answer_of(alloc, &input)? else {
        return Ok(BAD_JOB);
    };
    let mut out = io::writer(rt);
    out.write_all(b"settled\n")?;
    out.write_all(text.as_slice())?;
    Ok(0)
}

fn main(rt: HostRuntime) -> ExitCode {
    ExitCode::from(run(&rt).unwrap_or(NO_ANSWER))
}
