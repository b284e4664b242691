//! Inputs that end early and sources that fail, wherever that is.
use crate::rows::TABLE_JOB;
use crate::runs::{expect_from, owned, source};
use crate::workers::{ORDER, SHOWN};
use ks_edge::MemSource;
use std::alloc::Global;
use std::process::Abort;

/// What the front of the job is answered, and its status: a line that is cut off is no JSON, and what ends with a line is a job.
fn answer_to(front: &[u8], job: &[u8]) -> (u8, &'static str) {
    let mut line: u32 = 1;
    let mut begun = false;
    for byte in front {
        begun = *byte != b'\n';
        if !begun {
            line = line.saturating_add(1);
        }
    }
    let is_whole = !begun || job.get(front.len()) == Some(&b'\n');
    match (front.is_empty(), is_whole, line) {
        (true, _, _) => (2, "bad job line 1: 25 NoTopology\n"),
        (_, true, 3) if begun => (0, SHOWN),
        (_, true, _) => (0, "settled\ntable e 0\n"),
        (_, _, 1) => (2, "bad job line 1: 20 NotJson\n"),
        (_, _, 2) => (2, "bad job line 2: 20 NotJson\n"),
        (_, _, _) => (2, "bad job line 3: 20 NotJson\n"),
    }
}

#[test]
fn a_job_ends_anywhere(rt: HostRuntime) {
    let job = ORDER.as_bytes();
    for length in 0..job.len() {
        let front = &job[..length];
        let input = source(&rt, rt.alloc(), front);
        expect_from(&rt, rt.alloc(), input, answer_to(front, job));
    }
}

// A source that gives single bytes and fails at this call.
fn failing_source<R: Abort>(rt: &R, alloc: Global, bytes: &[u8], call: u64) -> MemSource {
    let sizes = vec![in alloc; 1usize; bytes.len()].expect(rt, "memory");
    MemSource::new(owned(rt, alloc, bytes), sizes, owned(rt, alloc, &[call]))
}

#[test]
fn a_source_fails_anywhere(rt: HostRuntime) {
    let job = TABLE_JOB.as_bytes();
    for call in 0..job.len() as u64 {
        let input = failing_source(&rt, rt.alloc(), job, call);
        expect_from(&rt, rt.alloc(), input, (6, "read fault\n"));
    }
}
