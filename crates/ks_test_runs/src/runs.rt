//! A run of the top call over devices of memory. Want of memory ends the test.
ghost use Rattle.std.specs.Prelude.{◌≡◌, ◌+◌, length};

use ks_edge::{Gate, MemSink, MemSource, ScriptGate};
use ks_run::{Ended, top};
use std::alloc::{AllocError, Global};
use std::process::Abort;
use std::random::RandomSource;
use std::sync::Wait;
use std::thread::Threads;

/// What a run is given, and what it has to give.
#[derive(Clone, Copy)]
pub struct Run<'a> {
    pub words: &'a [&'a str],
    pub input: &'a str,
    /// The spaces that follow the input.
    pub spaces: usize,
    pub devices: Devices<'a>,
    pub ends: (u8, &'a str),
}

/// How the input comes and the output goes.
#[derive(Clone, Copy)]
pub enum Devices<'a> {
    /// The input comes in one piece, and nothing fails.
    Whole,
    /// The sizes of the first pieces of the input, and the numbers of the takes that fail.
    Source(&'a [usize], &'a [u64]),
    /// How many bytes a put takes at most (0: all), and the numbers of the puts that fail.
    Sink(u32, &'a [u64]),
}

/// A gate in a box.
pub fn boxed<R: Abort, G: Gate>(rt: &R, alloc: Global, gate: G) -> Box<G> {
    match Box::new(alloc, gate) {
        Ok(gate) => gate,
        Err(_) => rt.abort(),
    }
}

/// Puts a gate in front of others.
pub fn put_first<R: Abort>(
    rt: &R,
    gates: &mut Vec<Box<dyn Gate + Send>>,
    gate: Box<dyn Gate + Send>,
)
    ensures { length gates.new.items ≡ length gates.old.items + 1 }
{
    match gates.insert(0, gate) {
        Ok(()) => {}
        Err(_) => rt.abort(),
    }
}

/// So many gates without acts.
pub fn idle_gates<R: Abort>(rt: &R, alloc: Global, count: usize) -> Vec<Box<dyn Gate + Send>>
    ensures { length result.items ≡ count }
{
    let mut gates: Vec<Box<dyn Gate + Send>> = Vec::new(alloc);
    for _ in 0..count {
        let gate = boxed(rt, alloc, ScriptGate::new(Vec::new(alloc), Vec::new(alloc)));
        put_first(rt, &mut gates, gate);
    }
    gates
}

fn texts(alloc: Global, words: &[&str]) -> Result<Vec<String>, AllocError> {
    let mut texts = Vec::new(alloc);
    for word in words {
        texts.push(String::from_str(alloc, word)?)?;
    }
    Ok(texts)
}

/// A vector of these.
pub fn owned<R: Abort, T: Copy>(rt: &R, alloc: Global, items: &[T]) -> Vec<T> {
    Vec::from_slice(alloc, items).expect(rt, "memory")
}

fn bytes_of<R: Abort>(rt: &R, alloc: Global, run: &Run) -> Vec<u8> {
    let mut bytes = owned(rt, alloc, run.input.as_bytes());
    for _ in 0..run.spaces {
        bytes.push(b' ').expect(rt, "memory");
    }
    bytes
}

fn source_of<R: Abort>(rt: &R, alloc: Global, run: &Run, sizes: &[usize]) -> MemSource {
    let takes: &[u64] = match run.devices {
        Devices::Source(_, takes) => takes,
        _ => &[],
    };
    let takes = owned(rt, alloc, takes);
    MemSource::new(bytes_of(rt, alloc, run), owned(rt, alloc, sizes), takes)
}

fn sink_of<R: Abort>(rt: &R, alloc: Global, run: &Run) -> MemSink {
    let (width, puts): (u32, &[u64]) = match run.devices {
        Devices::Sink(width, puts) => (width, puts),
        _ => (0, &[]),
    };
    let puts = owned(rt, alloc, puts);
    if width == 0 {
        return MemSink::new(alloc, puts);
    }
    MemSink::narrow(alloc, width, puts)
}

/// Both texts are the same.
pub fn expect_text<R: Abort>(rt: &R, found: &[u8], expected: &[u8]) {
    assert_eq!(rt; found, expected);
}

/// Both numbers are the same.
pub fn expect_number<R: Abort>(rt: &R, found: u64, expected: u64) {
    assert_eq!(rt; found, expected);
}

// These words give this status and output.
fn expect_words<R: Threads + Wait + Sync + RandomSource + Abort>(
    rt: &R,
    alloc: Global,
    words: &[&str],
    input: &mut MemSource,
    out: &mut MemSink,
    ends: (u8, &str),
) {
    let words = texts(alloc, words).expect(rt, "memory");
    let gates = idle_gates(rt, alloc, 16);
    let Ended { status, journal } = top(rt, alloc, &words, input, out, gates);
    drop(journal);
    expect_text(rt, out.held(), ends.1.as_bytes());
    expect_number(rt, u64::from(status), u64::from(ends.0));
}

fn expect_by<R: Threads + Wait + Sync + RandomSource + Abort>(
    rt: &R,
    alloc: Global,
    run: &Run,
    sizes: &[usize],
) {
    let mut out = sink_of(rt, alloc, run);
    let mut input = source_of(rt, alloc, run, sizes);
    expect_words(rt, alloc, run.words, &mut input, &mut out, run.ends);
}

/// The run gives its output; so it does with the input cut into single bytes, where the source doesn't fail.
pub fn expect<R: Threads + Wait + Sync + RandomSource + Abort>(rt: &R, alloc: Global, run: &Run) {
    if let Devices::Source(sizes, _) = run.devices {
        return expect_by(rt, alloc, run, sizes);
    }
    let sizes = vec![in alloc; 1usize; 70_000].expect(rt, "memory");
    expect_by(rt, alloc, run, &[]);
    expect_by(rt, alloc, run, &sizes);
}

/// A source that gives these bytes in one piece.
pub fn source<R: Abort>(rt: &R, alloc: Global, bytes: &[u8]) -> MemSource {
    MemSource::new(owned(rt, alloc, bytes), Vec::new(alloc), Vec::new(alloc))
}

/// What a source gives, run as a job, gives this status and output.
pub fn expect_from<R: Threads + Wait + Sync + RandomSource + Abort>(
    rt: &R,
    alloc: Global,
    mut input: MemSource,
    ends: (u8, &str),
) {
    let mut out = MemSink::new(alloc, Vec::new(alloc));
    expect_words(rt, alloc, &["run"], &mut input, &mut out, ends);
}
