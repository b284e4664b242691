//! The workers that a cluster had are removed from the group, and what they left undone is finished.
ghost use Rattle.std.specs.Prelude.{◌≡◌, ◌≤◌, ℕ, [], None, OnOk};
ghost use Rattle.ks_history.specs.Machine.{IsNetwork};
ghost use Rattle.ks_cluster.specs.View.{state_of};
ghost use Rattle.ks_commit.specs.Alone.{IsIdle};
ghost use Rattle.ks_settle.specs.Drained.{DrainsOn};

use ks_cluster::{Cluster, Work};
use ks_commit::write_markers;
use std::alloc::{AllocError, Global};

// The workers of a cluster are 0 to 16.
const WORKERS: u8 = 17;

/// Removes every worker from the group, which then has no member: what it had undecided is aborted, and its epoch is over (KIP-98:
/// fencing). `AllocError`: memory ran out, with some of the workers removed; the journal has an entry for each of these.
pub fn remove_workers<W: Work>(alloc: Global, cluster: &mut Cluster<W>) -> Result<(), AllocError>
    ensures decided { OnOk result ((w : ℕ) → w ≤ 16 →
        ((state_of W.plan cluster.new).producer w).undecided ≡ None) }
    ensures gone { OnOk result ((state_of W.plan cluster.new).members ≡ []) }
    ensures on { DrainsOn 0 cluster.old cluster.new }
{
    for worker in 0..WORKERS {
        cluster.expire(alloc, worker)?;
    }
    // The journal is a history: its members are workers 0 to 16.
    cluster.is_history();
    Ok(())
}

/// Writes the waiting markers of every producer, so that the cluster stands between two transactions. `AllocError`: memory ran out,
/// with some of the markers written; the journal has an entry for each of these.
pub fn write_all_markers<W: Work>(alloc: Global, cluster: &mut Cluster<W>) -> Result<(), AllocError>
    requires network { IsNetwork (W.plan cluster.old.work) }
    requires decided { (w : ℕ) → w ≤ 16 →
        ((state_of W.plan cluster.old).producer w).undecided ≡ None }
    ensures idle { OnOk result (IsIdle (state_of W.plan cluster.new)) }
    ensures members { OnOk result ((state_of W.plan cluster.new).members
        ≡ (state_of W.plan cluster.old).members) }
    ensures on { DrainsOn 0 cluster.old cluster.new }
{
    for worker in 0..WORKERS {
        write_markers(alloc, cluster, worker)?;
    }
    // The journal is a history: other producers are new ones.
    cluster.is_history();
    Ok(())
}
