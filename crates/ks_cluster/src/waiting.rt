//! Which producers are pending, and how many markers wait.
ghost use Rattle.std.specs.Prelude.{◌≡◌, ◌≤◌, ◌||◌, IfOk};
ghost use Rattle.ks_history.specs.Step.{is_undecided};
ghost use Rattle.ks_history.specs.Reads.{is_some_waiting, pending_from, waiting_from};
ghost use Rattle.ks_txn.specs.Outcomes.{producer_at};
ghost use Rattle.ks_cluster.specs.Statuses.{with_producers};

use ks_txn::Txns;
use std::alloc::AllocError;

// Whether a producer has an undecided transaction or a waiting marker.
fn is_pending(txns: &Txns, w: u8) -> bool
    requires { w ≤ 16 }
    ensures { result ≡ (is_undecided (producer_at txns.now w) || is_some_waiting
        (producer_at txns.now w).waiting) }
{
    if txns.undecided(w) {
        return true;
    }
    match txns.next_marker(w) {
        Some(_) => true,
        None => false,
    }
}

/// How many producers have an undecided transaction or a waiting marker.
pub fn pending_count(txns: &Txns) -> u32
    ensures { result ≡ pending_from (with_producers txns.now) 0 17 }
{
    let mut count: u32 = 0;
    for w in 0..17u8 {
        if is_pending(txns, w) {
            count += 1;
        }
    }
    count
}

/// How many markers wait at all producers. Want of memory where they are 2^32 or more.
pub fn marker_count(txns: &Txns) -> Result<u32, AllocError>
    ensures { IfOk result (λ n. n ≡ waiting_from (with_producers txns.now) 0 17) }
{
    let mut count: u32 = 0;
    for w in 0..17u8 {
        let Some(sum) = count.checked_add(txns.waiting(w)) else {
            return Err(AllocError);
        };
        count = sum;
    }
    Ok(count)
}
