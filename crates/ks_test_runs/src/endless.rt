//! Runs whose gates never stop their worker. Want of memory ends the test.
ghost use Rattle.std.specs.Prelude.{◌≡◌, ◌+◌, ℕ, length};
ghost use Rattle.ks_edge.specs.Counts.{stops_of, calls_of, one_if, HasRoom};

use crate::runs::{boxed, expect_number, put_first};
use crate::workers::{ORDER, SHOWN, run_with};
use ks_edge::{Act, Gate, TurnView};
use ks_hash::Murmur3;
use ks_words::Settings;
use std::alloc::Global;
use std::process::Abort;
use std::sync::Arc;
use std::sync::atomic::{AtomicU64, Ordering};

/// Lets its worker read now and then, and drop what it read; it never lets it commit, and never stops it.
#[derive(Drop)]
struct EndlessGate {
    asked: u64,
    /// How often it was asked, to be read after the run.
    told: Arc<AtomicU64, Global>,
}

impl Gate for EndlessGate {
    ghost asked = { λ g. g.asked };

    ghost stops = { λ g. 0 };

    ghost calls = { λ g. 0 };

    ghost cuts = { λ g. 0 };

    fn reset(&mut self, _worker: u8, _seed: Option<u64>, _interval: u32) {
        self.asked = 0;
    }

    fn next(&mut self, _view: TurnView) -> Act {
        self.asked += 1;
        self.told.store(self.asked, Ordering::SeqCst);
        if self.asked % 50 == 0 {
            return Act::Work(0);
        }
        Act::Abort
    }

    fn cut(&mut self, _step: u32) -> bool {
        false
    }
}

// Sixteen such gates.
fn endless_gates<R: Abort>(
    rt: &R,
    alloc: Global,
    told: &Arc<AtomicU64, Global>,
) -> Vec<Box<dyn Gate + Send>>
    ensures { length result.items ≡ 16 }
{
    let mut gates: Vec<Box<dyn Gate + Send>> = Vec::new(alloc);
    for _ in 0..16usize {
        let gate = EndlessGate {
            asked: 0,
            told: Arc::try_clone(told).expect(rt, "a counter"),
        };
        put_first(rt, &mut gates, boxed(rt, alloc, gate));
    }
    gates
}

/// A worker that is never stopped and commits nothing takes a million turns, and the run ends.
#[test]
fn a_run_without_a_stop_ends(rt: HostRuntime) {
    let alloc = rt.alloc();
    let told = Arc::new(alloc, AtomicU64::new(0)).expect(&rt, "memory");
    let gates = endless_gates(&rt, alloc, &told);
    let (settings, ends) = (Settings::usual(), (0, SHOWN));
    drop(run_with::<Murmur3, HostRuntime>(&rt, alloc, &settings, ORDER, gates, ends));
    expect_number(&rt, told.load(Ordering::SeqCst), 1_000_000);
}
