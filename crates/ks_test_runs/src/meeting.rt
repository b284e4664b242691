//! Two workers, each of which waits for the other. Want of memory ends the test.
ghost use Rattle.std.specs.Prelude.{◌≡◌, length};

use crate::runs::{boxed, expect_number, idle_gates, put_first};
use crate::workers::{ORDER, SHOWN, run_with, two_threads};
use ks_edge::{Act, Gate, TurnView};
use ks_hash::Murmur3;
use std::alloc::Global;
use std::process::Abort;
use std::sync::Arc;
use std::sync::atomic::{AtomicU64, Ordering};

/// Feeds its worker's replicas until the other gate was asked, a million times at most; then it stops.
#[derive(Drop)]
struct MeetingGate {
    own: Arc<AtomicU64, Global>,
    other: Arc<AtomicU64, Global>,
    /// How many gates met the other.
    met: Arc<AtomicU64, Global>,
    asked: u64,
    stops: u64,
}

impl Gate for MeetingGate {
    ghost asked = { λ g. g.asked };

    ghost stops = { λ g. g.stops };

    ghost calls = { λ g. 0 };

    ghost cuts = { λ g. 0 };

    fn reset(&mut self, _worker: u8, _seed: Option<u64>, _interval: u32) {
        self.asked = 0;
        self.stops = 0;
    }

    fn next(&mut self, _view: TurnView) -> Act {
        self.asked += 1;
        self.own.store(1, Ordering::SeqCst);
        let has_met = self.other.load(Ordering::SeqCst) != 0;
        if !has_met && self.asked < 1_000_000 {
            return Act::Pump;
        }
        if has_met {
            self.met.fetch_add(1, Ordering::SeqCst);
        }
        self.stops += 1;
        Act::Stop
    }

    fn cut(&mut self, _step: u32) -> bool {
        false
    }
}

// The gate of one of two workers.
fn meeting_gate<R: Abort>(
    rt: &R,
    alloc: Global,
    own: &Arc<AtomicU64, Global>,
    other: &Arc<AtomicU64, Global>,
    met: &Arc<AtomicU64, Global>,
) -> Box<MeetingGate> {
    let gate = MeetingGate {
        own: Arc::try_clone(own).expect(rt, "a counter"),
        other: Arc::try_clone(other).expect(rt, "a counter"),
        met: Arc::try_clone(met).expect(rt, "a counter"),
        asked: 0,
        stops: 0,
    };
    boxed(rt, alloc, gate)
}

// Two gates that meet, and fourteen that nobody asks.
fn meeting_gates<R: Abort>(
    rt: &R,
    alloc: Global,
    met: &Arc<AtomicU64, Global>,
) -> Vec<Box<dyn Gate + Send>>
    ensures { length result.items ≡ 16 }
{
    let one = Arc::new(alloc, AtomicU64::new(0)).expect(rt, "memory");
    let two = Arc::new(alloc, AtomicU64::new(0)).expect(rt, "memory");
    let mut gates = idle_gates(rt, alloc, 14);
    put_first(rt, &mut gates, meeting_gate(rt, alloc, &one, &two, met));
    put_first(rt, &mut gates, meeting_gate(rt, alloc, &two, &one, met));
    gates
}

/// Both are asked, so they work at once: a run of one worker after the other would ask a gate a million times.
#[test]
fn two_workers_work_at_once(rt: HostRuntime) {
    let alloc = rt.alloc();
    let met = Arc::new(alloc, AtomicU64::new(0)).expect(&rt, "memory");
    let gates = meeting_gates(&rt, alloc, &met);
    let (settings, ends) = (two_threads(), (0, SHOWN));
    drop(run_with::<Murmur3, HostRuntime>(&rt, alloc, &settings, ORDER, gates, ends));
    expect_number(&rt, met.load(Ordering::SeqCst), 2);
}
