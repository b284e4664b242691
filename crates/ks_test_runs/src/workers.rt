//! Runs in which a worker takes part. Want of memory ends the test.
ghost use Rattle.std.specs.Prelude.{◌≡◌, length, Some};
ghost use Rattle.ks_words.specs.Grammar.{usual};
ghost use Rattle.ks_words.specs.Ranges.{HasRanges};

use crate::runs::{boxed, expect_number, expect_text, put_first, source};
use ks_edge::{Gate, MemSink, MemSource, Source, SteadyGate};
use ks_hash::{Constant, Hash128, Murmur3};
use ks_history::{Entry, Journal, Reply, Request};
use ks_run::{Ended, run_job};
use ks_words::Settings;
use std::alloc::Global;
use std::process::Abort;
use std::random::RandomSource;
use std::sync::Wait;
use std::thread::Threads;

/// An order before its customer.
pub const ORDER: &str =
    r#"{"app":"s","topics":{"customers":1,"orders":1},"nodes":[{"name":"o","op":"table","topic":"orders"},{"name":"c","op":"table","topic":"customers"},{"name":"e","op":"fk_join","left":"o","right":"c","fk":"cust","kind":"inner","set":{"amt":{"left":"amt"},"region":{"right":"region"}}}],"print":["e"]}
{"topic":"orders","key":"o1","value":{"cust":"c1","amt":5}}
{"topic":"customers","key":"c1","value":{"region":"eu"}}
"#;

pub const SHOWN: &str = "settled\ntable e 1\n[\"o1\",{\"amt\":5,\"region\":\"eu\"}]\n";

/// Two rows of one order, which have one hash where all have.
pub const COLLISION: &str =
    r#"{"app":"s","topics":{"customers":1,"orders":1},"nodes":[{"name":"o","op":"table","topic":"orders"},{"name":"c","op":"table","topic":"customers"},{"name":"e","op":"fk_join","left":"o","right":"c","fk":"cust","kind":"inner","set":{"amt":{"left":"amt"},"region":{"right":"region"}}}],"print":["e"]}
{"topic":"orders","key":"o1","value":{"cust":"c1","amt":5}}
{"topic":"orders","key":"o1","value":{"cust":"c1","amt":6}}
"#;

pub const COLLISION_SHOWN: &str = "collision e \"o1\" 0 1\n";

// Sixteen gates that work by the rule.
fn steady_gates<R: Abort>(rt: &R, alloc: Global) -> Vec<Box<dyn Gate + Send>>
    ensures { length result.items ≡ 16 }
{
    let mut gates: Vec<Box<dyn Gate + Send>> = Vec::new(alloc);
    for _ in 0..16usize {
        put_first(rt, &mut gates, boxed(rt, alloc, SteadyGate::new()));
    }
    gates
}

/// The usual settings, with at most 1,000 turns.
pub fn limited() -> Settings
    ensures { result ≡ record usual { stop = Some 1000 } }
{
    let mut settings = Settings::usual();
    settings.stop = Some(1000);
    settings
}

/// The usual settings, with stores that hold two writes back.
pub fn with_cache() -> Settings
    ensures { result ≡ record usual { cache = 2 } }
{
    let mut settings = Settings::usual();
    settings.cache = 2;
    settings
}

/// The usual settings, with two threads.
pub fn two_threads() -> Settings
    ensures { result ≡ record usual { threads = 2 } }
{
    let mut settings = Settings::usual();
    settings.threads = 2;
    settings
}

/// The run of a job that a source gives ends with this status and output; its journal.
pub fn run_from<
    H: Hash128 + Send + Sync,
    R: Threads + Wait + Sync + RandomSource + Abort,
    S: Source + Send,
>(
    rt: &R,
    alloc: Global,
    settings: &Settings,
    input: &mut S,
    gates: Vec<Box<dyn Gate + Send>>,
    ends: (u8, &str),
) -> Journal
    requires settings { HasRanges settings.now }
    requires gates { length gates.items ≡ 16 }
{
    let mut out = MemSink::new(alloc, Vec::new(alloc));
    let Ended { status, journal } = run_job::<H, R, S, MemSink>(
        rt, alloc, settings, input, &mut out, gates,
    );
    expect_text(rt, out.held(), ends.1.as_bytes());
    expect_number(rt, u64::from(status), u64::from(ends.0));
    journal
}

/// The run of a job ends with this status and output; its journal.
pub fn run_with<H: Hash128 + Send + Sync, R: Threads + Wait + Sync + RandomSource + Abort>(
    rt: &R,
    alloc: Global,
    settings: &Settings,
    job: &str,
    gates: Vec<Box<dyn Gate + Send>>,
    ends: (u8, &str),
) -> Journal
    requires settings { HasRanges settings.now }
    requires gates { length gates.items ≡ 16 }
{
    let mut input = source(rt, alloc, job.as_bytes());
    run_from::<H, R, MemSource>(rt, alloc, settings, &mut input, gates, ends)
}

// Whether it is a commit of worker 0 that was accepted.
fn is_own_commit(entry: &Entry) -> bool {
    match (&entry.request, &entry.reply) {
        (Request::Decide { w, commit, .. }, Reply::Done) => *w == 0 && *commit,
        _ => false,
    }
}

// Whether it appends something for the caller, who is worker 16.
fn is_drained(entry: &Entry) -> bool {
    match (&entry.request, &entry.reply) {
        (Request::Append { w, .. }, Reply::Number(_)) => *w == 16,
        _ => false,
    }
}

// How many commits of worker 0 were accepted, and how many appends of the caller.
fn count(entries: &[Entry]) -> (usize, usize) {
    let mut commits: usize = 0;
    let mut appends: usize = 0;
    for entry in entries {
        if is_own_commit(entry) {
            commits = commits.saturating_add(1);
        }
        if is_drained(entry) {
            appends = appends.saturating_add(1);
        }
    }
    (commits, appends)
}

/// The worker does all, and leaves nothing to the drain.
#[test]
fn a_worker_settles_a_job(rt: HostRuntime) {
    let (alloc, settings) = (rt.alloc(), limited());
    let (gates, ends) = (steady_gates(&rt, alloc), (0, SHOWN));
    let journal = run_with::<Murmur3, HostRuntime>(&rt, alloc, &settings, ORDER, gates, ends);
    let (commits, appends) = count(journal.as_slice());
    drop(journal);
    expect_number(&rt, u64::from(commits > 0), 1);
    expect_number(&rt, appends as u64, 0);
    let (gates, ends) = (steady_gates(&rt, alloc), (5, COLLISION_SHOWN));
    drop(run_with::<Constant, HostRuntime>(&rt, alloc, &settings, COLLISION, gates, ends));
}
