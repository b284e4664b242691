//! The markers of a decided transaction.
ghost use Rattle.std.specs.Prelude.{◌≡◌, ◌≤◌, [], OnOk};
ghost use Rattle.ks_cluster.specs.View.{state_of};
ghost use Rattle.ks_commit.specs.Sending.{Marked};

use ks_cluster::{Cluster, Work};
use std::alloc::{AllocError, Global};

/// Writes all waiting markers of a producer; after want of memory those that were written stand.
pub fn write_markers<W: Work>(
    alloc: Global,
    cluster: &mut Cluster<W>,
    worker: u8,
) -> Result<(), AllocError>
    requires { worker ≤ 16 }
    ensures marked { Marked W.plan cluster.old cluster.new worker }
    ensures done { OnOk result (((state_of W.plan cluster.new).producer worker).waiting ≡ []) }
{
    let mut waits = true;
    while waits {
        waits = cluster.mark_next(alloc, worker)?.is_some();
    }
    Ok(())
}
