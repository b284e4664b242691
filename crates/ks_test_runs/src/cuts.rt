//! Runs in which a worker is cut off at each of its steps. Want of memory ends the test.
ghost use Rattle.std.specs.Prelude.{◌≡◌, ◌≤◌, ◌+◌, ℕ, length, Some};
ghost use Rattle.ks_edge.specs.Counts.{stops_of, calls_of, one_if, HasRoom};
ghost use Rattle.ks_words.specs.Ranges.{HasRanges};

use crate::rows::{TOTALS, TOTALS_SHOWN};
use crate::runs::{boxed, expect_number, idle_gates, owned, put_first};
use crate::workers::{ORDER, SHOWN, limited, run_with, two_threads, with_cache};
use ks_edge::{Act, Gate, ScriptGate, SteadyGate, TurnView};
use ks_hash::Murmur3;
use ks_history::{Entry, Request};
use ks_words::Settings;
use std::alloc::{AllocError, Global};
use std::process::Abort;
use std::random::RandomSource;
use std::sync::atomic::{AtomicU64, Ordering};
use std::sync::{Arc, Wait};
use std::thread::Threads;

/// The most turns that are kept.
const TURNS: usize = 100;

/// What an act counts in a turn's number, beside its steps.
const ACT: u64 = 1_000;

/// Of each turn, from 1, so many steps, and `ACT` times the number of its act: 1 works, 2 commits, 3 pumps, 4 stops.
type Kept = Arc<Vec<AtomicU64>, Global>;

/// Works by the rule, and keeps its steps and acts.
#[derive(Drop)]
struct KeepingGate {
    inner: SteadyGate,
    turn: usize,
    kept: Kept,
}

impl KeepingGate {
    // Adds to the number of the present turn.
    fn keep(&self, more: u64) {
        if let Some(number) = self.kept.get(self.turn) {
            number.fetch_add(more, Ordering::SeqCst);
        }
    }
}

// The number of an act.
fn number_of(act: Act) -> u64
    ensures { result ≤ 4 }
{
    match act {
        Act::Work(_) => 1,
        Act::Commit => 2,
        Act::Pump => 3,
        _ => 4,
    }
}

impl Gate for KeepingGate {
    ghost asked = { λ g. g.inner.asked };

    ghost stops = { λ g. g.inner.stops };

    ghost calls = { λ g. g.inner.calls };

    ghost cuts = { λ g. g.inner.made };

    fn reset(&mut self, worker: u8, seed: Option<u64>, interval: u32) {
        self.turn = 0;
        self.inner.reset(worker, seed, interval);
    }

    fn next(&mut self, view: TurnView) -> Act {
        let act = self.inner.next(view);
        self.keep(ACT * number_of(act));
        act
    }

    fn cut(&mut self, step: u32) -> bool {
        if step == 0 {
            self.turn = self.turn.saturating_add(1);
        }
        self.keep(1);
        self.inner.cut(step)
    }
}

fn no_turns(alloc: Global) -> Result<Kept, AllocError> {
    let mut kept = Vec::new(alloc);
    for _ in 0..TURNS {
        kept.push(AtomicU64::new(0))?;
    }
    Ok(Arc::new(alloc, kept)?)
}

// A gate that keeps what it does, and fifteen that nobody asks.
fn keeping_gates<R: Abort>(rt: &R, alloc: Global, kept: &Kept) -> Vec<Box<dyn Gate + Send>>
    ensures { length result.items ≡ 16 }
{
    let gate = KeepingGate {
        inner: SteadyGate::new(),
        turn: 0,
        kept: Arc::try_clone(kept).expect(rt, "a counter"),
    };
    let mut gates = idle_gates(rt, alloc, 15);
    put_first(rt, &mut gates, boxed(rt, alloc, gate));
    gates
}

// The act of this number, in this turn; none where there was none.
fn act_of(turn: usize, number: u64) -> Option<Act> {
    match number / ACT {
        1 => Some(Act::Work(u32::try_from(turn).ok()?)),
        2 => Some(Act::Commit),
        3 => Some(Act::Pump),
        4 => Some(Act::Stop),
        _ => None,
    }
}

// The act and the steps of a turn; none where there was none.
fn turn_of(kept: &[AtomicU64], turn: usize) -> Option<(Act, u32)> {
    let number = kept.get(turn)?.load(Ordering::SeqCst);
    let act = act_of(turn, number)?;
    Some((act, (number % ACT) as u32))
}

// The acts and the steps of each turn.
fn turns_of<R: Abort>(rt: &R, alloc: Global, kept: &[AtomicU64]) -> Vec<(Act, u32)> {
    let mut turns = Vec::new(alloc);
    for turn in 1..TURNS {
        match turn_of(kept, turn) {
            Some(found) => turns.push(found).expect(rt, "memory"),
            None => return turns,
        }
    }
    turns
}

fn acts_of<R: Abort>(rt: &R, alloc: Global, turns: &[(Act, u32)]) -> Vec<Act> {
    let mut acts = Vec::new(alloc);
    for (act, _) in turns {
        acts.push(*act).expect(rt, "memory");
    }
    acts
}

// A gate with these acts, so many times, that is cut off where this says.
fn script<R: Abort>(
    rt: &R,
    alloc: Global,
    acts: &[Act],
    times: u32,
    cuts: &[(u64, u32)],
) -> Box<ScriptGate> {
    let mut all = Vec::new(alloc);
    for _ in 0..times {
        all.extend_from_slice(acts).expect(rt, "memory");
    }
    boxed(rt, alloc, ScriptGate::new(all, owned(rt, alloc, cuts)))
}

// Two gates, and fourteen without acts.
fn two_gates<R: Abort>(
    rt: &R,
    alloc: Global,
    first: Box<ScriptGate>,
    second: Box<ScriptGate>,
) -> Vec<Box<dyn Gate + Send>>
    ensures { length result.items ≡ 16 }
{
    let mut gates = idle_gates(rt, alloc, 14);
    put_first(rt, &mut gates, second);
    put_first(rt, &mut gates, first);
    gates
}

// How many epochs worker 0 began.
fn count_epochs(entries: &[Entry]) -> u64 {
    let mut epochs: u64 = 0;
    for entry in entries {
        if let Request::Init { w: 0 } = &entry.request {
            epochs = epochs.saturating_add(1);
        }
    }
    epochs
}

// Runs the job by these settings; its worker is cut off at this turn, from 0, and step. It begins anew: in a second epoch, but where it was
// cut off before it began its first.
fn expect_cut<R: Threads + Wait + Sync + RandomSource + Abort>(
    rt: &R,
    alloc: Global,
    acts: &[Act],
    settings: &Settings,
    turn: usize,
    step: u32,
)
    requires settings { HasRanges settings.now }
{
    let first = script(
        rt,
        alloc,
        acts,
        1,
        &[((turn as u64).saturating_add(1), step)],
    );
    let gates = two_gates(rt, alloc, first, script(rt, alloc, &[], 1, &[]));
    let journal = run_with::<Murmur3, R>(rt, alloc, settings, ORDER, gates, (0, SHOWN));
    let begun = count_epochs(journal.as_slice());
    drop(journal);
    expect_number(rt, begun, if turn == 0 && step == 0 { 1 } else { 2 });
}

// The same once for each step of these turns.
fn expect_cut_off<R: Threads + Wait + Sync + RandomSource + Abort>(
    rt: &R,
    alloc: Global,
    turns: &[(Act, u32)],
    settings: &Settings,
)
    requires settings { HasRanges settings.now }
{
    let acts = acts_of(rt, alloc, turns);
    for turn in 0..turns.len() {
        for step in 0..turns[turn].1 {
            expect_cut(rt, alloc, &acts, settings, turn, step);
        }
    }
}

// The acts and the steps of each turn of a worker that works by the rule.
fn turns_by_rule<R: Threads + Wait + Sync + RandomSource + Abort>(
    rt: &R,
    alloc: Global,
) -> Vec<(Act, u32)> {
    let kept = no_turns(alloc).expect(rt, "memory");
    let gates = keeping_gates(rt, alloc, &kept);
    drop(run_with::<Murmur3, R>(rt, alloc, &limited(), ORDER, gates, (0, SHOWN)));
    turns_of(rt, alloc, &kept)
}

/// Wherever a worker that works by the rule is cut off, the tables are the same, also where each store holds two writes back.
#[test]
fn a_worker_is_cut_off_at_each_step(rt: HostRuntime) {
    let turns = turns_by_rule(&rt, rt.alloc());
    expect_number(&rt, u64::from(turns.len() > 16 && turns.len() < 99), 1);
    expect_cut_off(&rt, rt.alloc(), &turns, &Settings::usual());
    expect_cut_off(&rt, rt.alloc(), &turns, &with_cache());
}

// A worker that is removed again and again by another one is cut off at this turn and step.
fn expect_removed<R: Threads + Wait + Sync + RandomSource + Abort>(
    rt: &R,
    alloc: Global,
    turn: u64,
    step: u32,
) {
    let first = script(rt, alloc, &[Act::Work(0), Act::Commit], 10, &[(turn, step)]);
    let second = script(
        rt,
        alloc,
        &[Act::Work(0), Act::Commit, Act::Evict(0)],
        20,
        &[],
    );
    let (gates, ends) = (two_gates(rt, alloc, first, second), (0, TOTALS_SHOWN));
    drop(run_with::<Murmur3, R>(rt, alloc, &two_threads(), TOTALS, gates, ends));
}

/// A worker that is removed again and again by another one is cut off as well: at each of eight steps of twenty turns.
#[test]
fn a_removed_worker_is_cut_off(rt: HostRuntime) {
    for cut in 0..160u32 {
        expect_removed(&rt, rt.alloc(), u64::from(1 + cut / 8), cut % 8);
    }
}
