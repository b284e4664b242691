//! A gate of one's own, which crashes its worker again and again.
ghost use Rattle.std.specs.Prelude.{◌≡◌, ◌+◌, ℕ};
ghost use Rattle.ks_edge.specs.Counts.{stops_of, calls_of, one_if, HasRoom};

use ks_edge::{Act, Gate, TurnView};

/// Crashes its worker at each tenth turn. Else it lets it work, commit once it finds nothing more, and write the markers that wait; it
/// stops it after 16 looks that moved nothing.
#[derive(Drop)]
pub struct CrashingGate {
    asked: u64,
    stops: u64,
}

impl CrashingGate {
    /// A gate as after a reset.
    pub fn new() -> Self {
        CrashingGate { asked: 0, stops: 0 }
    }
}

impl Gate for CrashingGate {
    // The counts that a gate has to tell. It never probes, leaves or evicts, and never cuts off.
    ghost asked = { λ g. g.asked };

    ghost stops = { λ g. g.stops };

    ghost calls = { λ g. 0 };

    ghost cuts = { λ g. 0 };

    fn reset(&mut self, _worker: u8, _seed: Option<u64>, _interval: u32) {
        self.asked = 0;
        self.stops = 0;
    }

    fn next(&mut self, view: TurnView) -> Act {
        self.asked += 1;
        if view.turn % 10 == 0 {
            Act::Crash
        } else if view.dry > 0 && view.dirty > 0 {
            Act::Commit
        } else if view.dry >= 16 && !view.feeding {
            self.stops += 1;
            Act::Stop
        } else if view.waiting > 0 {
            Act::Pump
        } else {
            Act::Work((view.turn % 16) as u32)
        }
    }

    fn cut(&mut self, _step: u32) -> bool {
        false
    }
}
