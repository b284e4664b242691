//! How far clients are behind with tasks.
ghost use Rattle.std.specs.Prelude.{◌≡◌};
ghost use Rattle.ks_assign.specs.Lag.{offset_sum, greatest, lag, warm, some_warm};
ghost use Rattle.ks_assign.specs.Placement.{may_run};
ghost use Rattle.ks_assign.specs.Rows.{WarmIsSmallLag};

use crate::clients::{Client, Held};
use ks_record::TaskId;

// The sum of offsets; the greatest `u64` where it would be more.
fn offset_sum(offsets: &[u64]) -> u64
    ensures { result ≡ offset_sum offsets.now }
{
    let mut sum: u64 = 0;
    for offset in offsets {
        sum = sum.saturating_add(*offset);
    }
    sum
}

// The greatest of the positions, 0 where there is none.
fn greatest(positions: &[u64]) -> u64
    ensures { result ≡ greatest positions.now }
{
    let mut found: u64 = 0;
    for position in positions {
        found = found.max(*position);
    }
    found
}

/// The lag of a client for a task, in records: the sum of `ends`, which are those of the task's changelogs, minus the
/// greatest of `positions`, which are the position sums that the client's workers hold of the task, none where none is held.
/// It is 0 where a position is past the ends. A sum of ends past 2^64 - 1 counts as 2^64 - 1.
pub fn client_lag(ends: &[u64], positions: &[u64]) -> u64
    ensures { result ≡ lag ends.now positions.now }
{
    offset_sum(ends).saturating_sub(greatest(positions))
}

/// Whether a client is warm for a task.
pub fn is_warm(held: &[Held], most: u64, instance: u16, task: TaskId) -> bool
    ensures { result ≡ warm held.now most instance task }
{
    for h in held {
        if u16::from(h.instance) == instance && (h.task.is(task) && h.lag <= most) {
            return true;
        }
    }
    false
}

/// Whether some client is warm for a task.
fn is_some_warm(clients: &[Client], held: &[Held], most: u64, task: TaskId) -> bool
    ensures { result ≡ some_warm clients.now held.now most task }
{
    for c in clients {
        if is_warm(held, most, u16::from(c.instance), task) {
            return true;
        }
    }
    false
}

/// Whether a client may run a task: it is warm for it, or no client is.
pub fn may_run(clients: &[Client], held: &[Held], most: u64, instance: u16, task: TaskId) -> bool
    ensures { result ≡ may_run clients.now held.now most instance task }
{
    is_warm(held, most, instance, task) || !is_some_warm(clients, held, most, task)
}

/// A client of which one lag for a task is told is warm for it exactly where that lag is at most the acceptable one.
pub fn warm_is_small_lag()
    ensures { WarmIsSmallLag }
{}
