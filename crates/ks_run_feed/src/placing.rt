//! Where a run's tasks are wanted.
ghost use Rattle.std.specs.Prelude.{◌≡◌};
ghost use Rattle.ks_run_feed.specs.Wanted.{placing_of};

use ks_assign::{Placing, Wants};
use ks_words::Settings;

// The greatest lag of a client that counts as caught up.
const CAUGHT_UP: u64 = 10_000;

// How many warmups there are at most.
const WARMUPS: u8 = 2;

/// How the workers of a run form clients, and what is wanted of an assignment.
pub fn placing_of(settings: &Settings) -> Placing
    ensures { result ≡ placing_of settings.now }
{
    Placing {
        threads: settings.threads,
        wants: Wants {
            standbys: settings.standbys,
            lag: CAUGHT_UP,
            warmups: WARMUPS,
        },
    }
}
