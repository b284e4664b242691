//! A table of the calls of one partition, with their answers: two producers, a number out of sequence, markers of both kinds, and
//! what readers get before and after them.

use crate::passes::expect_text;
use ks_log::Part;
use ks_record::{Rec, RecordList, RecordRef, SharedRecords, TaskId};
use std::alloc::{AllocError, Global};
use std::process::Abort;
use std::test::Fail;

const TASK: TaskId = TaskId { sub: 0, part: 0 };

/// A call. A record is told by its time.
#[derive(Clone, Copy)]
enum PartCall {
    Plain {
        ts: u64,
    },
    Append {
        producer: u8,
        epoch: u64,
        number: u64,
        ts: u64,
    },
    Mark {
        producer: u8,
        epoch: u64,
        commit: bool,
    },
    Read {
        from: u64,
        max: u32,
    },
}

/// Two producers: of what the first one sent nothing is read, of the second one what stands before its first marker.
const TWO_PRODUCERS: &[(PartCall, &str)] = &[
    (PartCall::Read { from: 0, max: 1 }, "to 0"),
    (PartCall::Plain { ts: 10 }, "0, end 1, stable 1"),
    (
        PartCall::Append {
            producer: 1,
            epoch: 1,
            number: 0,
            ts: 11,
        },
        "1, end 2, stable 1",
    ),
    (
        PartCall::Append {
            producer: 2,
            epoch: 1,
            number: 0,
            ts: 12,
        },
        "2, end 3, stable 1",
    ),
    (
        PartCall::Append {
            producer: 1,
            epoch: 1,
            number: 1,
            ts: 13,
        },
        "3, end 4, stable 1",
    ),
    (
        PartCall::Append {
            producer: 1,
            epoch: 1,
            number: 1,
            ts: 90,
        },
        "the next number is 2, end 4, stable 1",
    ),
    (
        PartCall::Append {
            producer: 1,
            epoch: 2,
            number: 2,
            ts: 91,
        },
        "the next number is 0, end 4, stable 1",
    ),
    (PartCall::Plain { ts: 14 }, "4, end 5, stable 1"),
    (PartCall::Read { from: 0, max: 9 }, "0: 10, to 1"),
    (
        PartCall::Mark {
            producer: 1,
            epoch: 1,
            commit: false,
        },
        "5, end 6, stable 2",
    ),
    (PartCall::Read { from: 0, max: 9 }, "0: 10, to 2"),
    (
        PartCall::Mark {
            producer: 2,
            epoch: 1,
            commit: true,
        },
        "6, end 7, stable 7",
    ),
    (
        PartCall::Read { from: 0, max: 9 },
        "0: 10, 2: 12, 4: 14, to 7",
    ),
    (PartCall::Read { from: 0, max: 2 }, "0: 10, 2: 12, to 3"),
    (PartCall::Read { from: 3, max: 1 }, "4: 14, to 5"),
    (PartCall::Read { from: 5, max: 9 }, "to 7"),
    (
        PartCall::Append {
            producer: 2,
            epoch: 1,
            number: 1,
            ts: 15,
        },
        "7, end 8, stable 7",
    ),
    (
        PartCall::Mark {
            producer: 2,
            epoch: 1,
            commit: false,
        },
        "8, end 9, stable 9",
    ),
    (PartCall::Read { from: 2, max: 9 }, "2: 12, 4: 14, to 9"),
    (PartCall::Read { from: 9, max: 9 }, "to 9"),
];

/// An epoch's marker leaves open what another epoch of the producer sent.
const TWO_EPOCHS: &[(PartCall, &str)] = &[
    (
        PartCall::Append {
            producer: 16,
            epoch: 1,
            number: 0,
            ts: 10,
        },
        "0, end 1, stable 0",
    ),
    (
        PartCall::Append {
            producer: 16,
            epoch: 2,
            number: 0,
            ts: 20,
        },
        "1, end 2, stable 0",
    ),
    (
        PartCall::Mark {
            producer: 16,
            epoch: 2,
            commit: true,
        },
        "2, end 3, stable 0",
    ),
    (PartCall::Read { from: 0, max: 9 }, "to 0"),
    (
        PartCall::Mark {
            producer: 16,
            epoch: 1,
            commit: false,
        },
        "3, end 4, stable 4",
    ),
    (PartCall::Read { from: 0, max: 9 }, "1: 20, to 4"),
];

fn record_at(ts: u64) -> RecordRef<'static> {
    RecordRef {
        key: None,
        value: None,
        ts,
    }
}

fn list_of(alloc: Global, ts: u64) -> Result<SharedRecords, AllocError> {
    let mut recs = RecordList::new(alloc);
    recs.push(record_at(ts))?;
    SharedRecords::of(alloc, recs)
}

fn push_plain(
    alloc: Global,
    part: &mut Part,
    ts: u64,
    text: &mut String,
) -> Result<(), AllocError> {
    let at = part.append_plain(Rec::of(alloc, record_at(ts))?)?;
    write!(text, "{at}")
}

fn push_append(
    alloc: Global,
    part: &mut Part,
    producer: u8,
    epoch: u64,
    record: (u64, u64),
    text: &mut String,
) -> Result<(), AllocError> {
    let (number, ts) = record;
    match part.append(producer, epoch, number, TASK, list_of(alloc, ts)?)? {
        Ok(first) => write!(text, "{first}"),
        Err(missed) => write!(text, "the next number is {}", missed.expected),
    }
}

fn push_mark(
    part: &mut Part,
    producer: u8,
    epoch: u64,
    commit: bool,
    text: &mut String,
) -> Result<(), AllocError> {
    let at = part.mark(producer, epoch, commit)?;
    write!(text, "{at}")
}

fn push_records(recs: &[(u64, Rec)], text: &mut String) -> Result<(), AllocError> {
    for (offset, rec) in recs {
        write!(text, "{offset}: {}, ", rec.ts())?;
    }
    Ok(())
}

fn push_read(
    alloc: Global,
    part: &Part,
    from: u64,
    max: u32,
    text: &mut String,
) -> Result<(), AllocError> {
    let (recs, next) = part.read_committed(alloc, from, max)?;
    let pushed = push_records(recs.as_slice(), text);
    drop(recs);
    pushed?;
    write!(text, "to {next}")
}

// Where the partition ends, and is stable.
fn push_ends(part: &Part, text: &mut String) -> Result<(), AllocError> {
    write!(text, ", end {}, stable {}", part.end(), part.stable())
}

/// Makes a call, and answers with its offset or refusal, or with what is read.
fn push_answer(
    alloc: Global,
    part: &mut Part,
    call: &PartCall,
    text: &mut String,
) -> Result<(), AllocError> {
    match *call {
        PartCall::Plain { ts } => push_plain(alloc, part, ts, text),
        PartCall::Append {
            producer,
            epoch,
            number,
            ts,
        } => push_append(alloc, part, producer, epoch, (number, ts), text),
        PartCall::Mark {
            producer,
            epoch,
            commit,
        } => push_mark(part, producer, epoch, commit, text),
        PartCall::Read { from, max } => push_read(alloc, part, from, max, text),
    }
}

/// Makes a call, and answers with a text, after a call that writes with where the partition then ends and is stable.
fn answer(alloc: Global, part: &mut Part, call: &PartCall) -> Result<String, AllocError> {
    let mut text = String::new(alloc);
    push_answer(alloc, part, call, &mut text)?;
    match *call {
        PartCall::Read { .. } => {}
        _ => push_ends(part, &mut text)?,
    }
    Ok(text)
}

// Makes the calls of a table, one after another.
fn run_calls<R: Abort>(
    rt: &R,
    alloc: Global,
    part: &mut Part,
    table: &[(PartCall, &str)],
) -> Result<(), AllocError> {
    for (call, expected) in table {
        let told = answer(alloc, part, call)?;
        expect_text(rt, told.as_str(), expected);
    }
    Ok(())
}

// The same on a partition of their own.
fn run_all<R: Abort>(rt: &R, alloc: Global, table: &[(PartCall, &str)]) -> Result<(), AllocError> {
    let mut part = Part::new(alloc);
    let ran = run_calls(rt, alloc, &mut part, table);
    drop(part);
    ran
}

#[test]
fn partitions(rt: HostRuntime) -> Result<(), Fail> {
    let alloc = rt.alloc();
    run_all(&rt, alloc, TWO_PRODUCERS)?;
    run_all(&rt, alloc, TWO_EPOCHS)?;
    Ok(())
}
