//! An example of embedding: a job in memory is run with gates of one's own, and its tables are printed.
#![tactic(auto)]

ghost use Rattle.std.specs.Prelude.{◌≡◌, ℕ, List, Some, None, IfOk};
ghost use Rattle.std.specs.Io.KnownBytes.{Appends};
ghost use Rattle.ks_hash.specs.Murmur3.{murmur3_of};
ghost use Rattle.ks_def_tasks.specs.Rules.{rules_of};
ghost use Rattle.ks_run_verdict.specs.Commands.{placing_by};
ghost use Rattle.ks_run_verdict.specs.Told.Wanted.{nothing};
ghost use Rattle.ks_run_verdict.specs.Journals.{IsSettledRun};

mod crashing;

use crashing::CrashingGate;
use ks_edge::{Gate, MemSink, MemSource};
use ks_hash::Murmur3;
use ks_history::{Entry, Reply, Request};
use ks_run::{Ended, run_job};
use ks_words::Settings;
use std::alloc::{AllocError, Global};
use std::io::{self, Write};
use std::process::ExitCode;
use std::random::RandomSource;
use std::sync::Wait;
use std::thread::Threads;

// There was no memory, or standard output failed.
const NO_ANSWER: u8 = 8;

// A topology, and records of a topic of four partitions.
const JOB: &[u8] =
    br#"{"app":"shop","topics":{"orders":4},"nodes":[{"name":"orders","op":"table","topic":"orders"},{"name":"orders_by_region","op":"count","from":"orders","by":"region"},{"name":"cents_by_region","op":"sum","from":"orders","by":"region","field":"cents"}],"print":["orders_by_region","cents_by_region"]}
{"topic":"orders","key":"o-1","value":{"region":"eu","cents":1250}}
{"topic":"orders","key":"o-2","value":{"region":"us","cents":4000}}
{"topic":"orders","key":"o-3","value":{"region":"eu","cents":990}}
{"topic":"orders","key":"o-4","value":{"region":"ap","cents":700}}
{"topic":"orders","key":"o-2","value":{"region":"eu","cents":3500}}
"#;

// Runs the job of these bytes, writes its answer to the sink, and says how the run ended. The clause is one of those of `run_job`, of
// which docs/embedding.md tells: whatever the gates do, under status 0 the sink got `settled` and the tables of `print`, which are the
// topology's query over the job's records, and the journal is a settled history of this very job. It is of a call that returns.
fn run_bytes<R: Threads + Wait + Sync + RandomSource>(
    rt: &R,
    alloc: Global,
    job: &[u8],
    out: &mut MemSink,
) -> Result<Ended, AllocError>
    ensures settled { IfOk result (λ ended. ended.status ≡ 0 → ((text : List ℕ)
        × IsSettledRun (rules_of murmur3_of) (placing_by None) nothing (Some job.now) text
        ended.journal
        × Appends (Some out.old.held) (Some out.new.held) text)) }
{
    // Sixteen gates, which is what `run_job` wants: one for each worker that there may be.
    let mut gates: Vec<Box<dyn Gate + Send>> = Vec::new(alloc);
    for _ in 0..16usize {
        gates.push(Box::new(alloc, CrashingGate::new())?)?;
    }
    // At most 1,000 turns: so the job is read whole before the worker begins, and each run is like the others.
    let mut settings = Settings::usual();
    settings.stop = Some(1_000);
    // All bytes at once, and no call that fails.
    let bytes = Vec::from_slice(alloc, job)?;
    let mut input = MemSource::new(bytes, Vec::new(alloc), Vec::new(alloc));
    Ok(run_job::<Murmur3, R, MemSource, MemSink>(rt, alloc, &settings, &mut input, out, gates))
}

// How many epochs a worker began.
fn count_epochs(journal: &[Entry]) -> u64 {
    let mut epochs: u64 = 0;
    for entry in journal {
        if let (Request::Init { w: 0..=15 }, Reply::Number(_)) = (&entry.request, &entry.reply) {
            epochs = epochs.saturating_add(1);
        }
    }
    epochs
}

fn print(rt: &HostRuntime, answer: &[u8], journal: &[Entry]) -> io::Result<()> {
    let mut stdout = io::writer(rt);
    stdout.write_all(answer)?;
    writeln!(stdout, "{} epochs", count_epochs(journal))
}

fn main(rt: HostRuntime) -> ExitCode {
    let alloc = rt.alloc();
    let mut out = MemSink::new(alloc, Vec::new(alloc));
    let Ok(ended) = run_bytes(&rt, alloc, JOB, &mut out) else {
        return ExitCode::from(NO_ANSWER);
    };
    match print(&rt, out.held(), ended.journal.as_slice()) {
        Ok(()) => ExitCode::from(ended.status),
        Err(_) => ExitCode::from(NO_ANSWER),
    }
}
