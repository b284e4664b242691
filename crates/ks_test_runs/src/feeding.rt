//! Records that are fed while the workers run. Want of memory ends the test.
ghost use Rattle.std.specs.Prelude.{◌≡◌, Some, length};

use crate::runs::{boxed, expect_number, idle_gates, owned, put_first};
use crate::workers::{ORDER, SHOWN, run_from};
use ks_edge::{Act, Failed, Gate, MemSource, Source, TurnView};
use ks_hash::Murmur3;
use ks_history::{Entry, Journal, Request};
use ks_words::Settings;
use std::alloc::{AllocError, Global};
use std::process::Abort;
use std::random::RandomSource;
use std::sync::atomic::{AtomicU64, Ordering};
use std::sync::{Arc, Wait};
use std::thread::Threads;

const TOPOLOGY: &[u8] =
    b"{\"app\":\"a\",\"topics\":{\"t\":1},\"nodes\":[{\"name\":\"x\",\"op\":\"table\",\"topic\":\"t\"}],\"print\":[\"x\"]}\n";

const RECORD: &[u8] = b"{\"topic\":\"t\",\"key\":\"a\",\"value\":{\"n\":1}}\n";

/// Lets its worker wait while records may come; then it stops it.
#[derive(Drop)]
struct WaitingGate {
    /// Whether it was asked, to be read by a source.
    told: Arc<AtomicU64, Global>,
    asked: u64,
    stops: u64,
}

impl Gate for WaitingGate {
    ghost asked = { λ g. g.asked };

    ghost stops = { λ g. g.stops };

    ghost calls = { λ g. 0 };

    ghost cuts = { λ g. 0 };

    fn reset(&mut self, _worker: u8, _seed: Option<u64>, _interval: u32) {
        self.asked = 0;
        self.stops = 0;
    }

    fn next(&mut self, view: TurnView) -> Act {
        self.asked += 1;
        self.told.store(1, Ordering::SeqCst);
        if view.feeding {
            return Act::Pump;
        }
        self.stops += 1;
        Act::Stop
    }

    fn cut(&mut self, _step: u32) -> bool {
        false
    }
}

/// Gives all but its first piece only once a gate was asked, or after many looks.
#[derive(Drop)]
struct HeldSource {
    bytes: MemSource,
    told: Arc<AtomicU64, Global>,
    has_begun: bool,
    has_met: bool,
}

impl Source for HeldSource {
    ghost left = { λ s. Some s.bytes.left };

    ghost faults = { λ s. s.bytes.faults };

    fn take(&mut self, buf: &mut [u8]) -> Result<usize, Failed> {
        if self.has_begun {
            self.has_met = comes_to_be_told(&self.told);
        }
        self.has_begun = true;
        self.bytes.take(buf)
    }
}

// Whether it is told within a thousand million looks.
fn comes_to_be_told(told: &AtomicU64) -> bool {
    for _ in 0..1_000_000_000u64 {
        if told.load(Ordering::SeqCst) != 0 {
            return true;
        }
    }
    false
}

// One gate that tells that it was asked, and fifteen that nobody asks.
fn waiting_gates<R: Abort>(
    rt: &R,
    alloc: Global,
    told: &Arc<AtomicU64, Global>,
) -> Vec<Box<dyn Gate + Send>>
    ensures { length result.items ≡ 16 }
{
    let gate = WaitingGate {
        told: Arc::try_clone(told).expect(rt, "a counter"),
        asked: 0,
        stops: 0,
    };
    let mut gates = idle_gates(rt, alloc, 15);
    put_first(rt, &mut gates, boxed(rt, alloc, gate));
    gates
}

// The run of a job that a source gives, whose gate tells that it was asked, ends with this status and output; its journal.
fn run_told<S: Source + Send, R: Threads + Wait + Sync + RandomSource + Abort>(
    rt: &R,
    alloc: Global,
    told: &Arc<AtomicU64, Global>,
    input: &mut S,
    ends: (u8, &str),
) -> Journal {
    let gates = waiting_gates(rt, alloc, told);
    run_from::<Murmur3, R, S>(rt, alloc, &Settings::usual(), input, gates, ends)
}

// The length of the first line, with its line feed.
fn first_line(job: &[u8]) -> usize {
    for i in 0..job.len() {
        if job[i] == b'\n' {
            return i + 1;
        }
    }
    job.len()
}

// A source that holds back what follows the first line of a job.
fn held_source<R: Abort>(
    rt: &R,
    alloc: Global,
    told: &Arc<AtomicU64, Global>,
    job: &[u8],
) -> HeldSource {
    let sizes = owned(rt, alloc, &[first_line(job)]);
    HeldSource {
        bytes: MemSource::new(owned(rt, alloc, job), sizes, Vec::new(alloc)),
        told: Arc::try_clone(told).expect(rt, "a counter"),
        has_begun: false,
        has_met: false,
    }
}

/// The source gives the records only once the worker's gate was asked: a run that reads all before its workers begin would never get them.
#[test]
fn the_rest_comes_once_a_gate_was_asked(rt: HostRuntime) {
    let alloc = rt.alloc();
    let told = Arc::new(alloc, AtomicU64::new(0)).expect(&rt, "memory");
    let mut input = held_source(&rt, alloc, &told, ORDER.as_bytes());
    drop(run_told(&rt, alloc, &told, &mut input, (0, SHOWN)));
    expect_number(&rt, u64::from(input.has_met), 1);
}

// A job whose line 200,000 is faulty, with a hundred thousand lines more.
fn long_job(alloc: Global) -> Result<Vec<u8>, AllocError> {
    let mut job = Vec::from_slice(alloc, TOPOLOGY)?;
    for _ in 0..199_998u64 {
        job.extend_from_slice(RECORD)?;
    }
    job.extend_from_slice(b"no JSON\n")?;
    for _ in 0..100_000u64 {
        job.extend_from_slice(RECORD)?;
    }
    Ok(job)
}

fn count_produced(journal: &[Entry]) -> u64 {
    let mut count: u64 = 0;
    for entry in journal {
        if let Request::Produce { .. } = &entry.request {
            count = count.saturating_add(1);
        }
    }
    count
}

// The source has more to give.
fn expect_more<R: Abort>(rt: &R, input: &mut MemSource) {
    let mut rest = [0u8; 1];
    match input.take(&mut rest) {
        Ok(taken) => expect_number(rt, taken as u64, 1),
        Err(_) => panic!(rt),
    }
}

/// The records before a faulty line are produced and stay in the journal, and the source isn't read to its end.
#[test]
fn a_faulty_line_ends_the_feed(rt: HostRuntime) {
    let alloc = rt.alloc();
    let told = Arc::new(alloc, AtomicU64::new(0)).expect(&rt, "memory");
    let sizes = vec![in alloc; 4096usize; 4000].expect(&rt, "memory");
    let job = long_job(alloc).expect(&rt, "memory");
    let mut input = MemSource::new(job, sizes, Vec::new(alloc));
    let ends = (2, "bad job line 200000: 20 NotJson\n");
    let journal = run_told(&rt, alloc, &told, &mut input, ends);
    expect_number(&rt, count_produced(journal.as_slice()), 199_998);
    drop(journal);
    expect_more(&rt, &mut input);
}
