//! The report of a cluster.
ghost use Rattle.std.specs.Prelude.{◌≡◌, true, IfOk, map, option_map};
ghost use Rattle.ks_topo.specs.Topologies.{draft_of, plan_in};
ghost use Rattle.ks_plan.specs.Infos.{drain_numbers};
ghost use Rattle.ks_plan.specs.Layout.{parts_of_topic, topics_of};
ghost use Rattle.ks_history.specs.Reads.{pending_producers};
ghost use Rattle.ks_history.specs.Settled.{IsSettled};
ghost use Rattle.ks_cluster.specs.View.{setup_of, state_of};
ghost use Rattle.ks_law_settled.specs.Collision.{first_pair};
ghost use Rattle.ks_settle_report.specs.Hashed.{row_hash};
ghost use Rattle.ks_settle_report.specs.Report.{IsOf, lags_of, is_at_rest};
ghost use Rattle.ks_settle_report.specs.Joins.{join_pair, named};

use crate::findings::Report;
use crate::joins::first_in_joins;
use crate::lags::{Lag, lags_in};
use ks_cluster::{Cluster, Work};
use ks_hash::Hash128;
use ks_topo::Topology;
use std::alloc::{AllocError, Global};
use std::thread::Threads;

fn is_settled(pending: u32, lags: &[Lag]) -> bool
    ensures { result ≡ is_at_rest pending lags.now }
{
    pending == 0 && lags.len() == 0
}

/// The report of a cluster that was made for a topology. Positions that were read and not committed don't count. `Err` only where
/// memory ran out.
pub fn report<H: Hash128 + Sync, R: Threads + Sync, W: Work + Sync>(
    rt: &R,
    alloc: Global,
    cluster: &Cluster<W>,
    topology: &Topology,
) -> Result<Report, AllocError>
    requires of { IsOf topology.now (setup_of W.plan cluster.now) }
    requires counts { cluster.now.counts ≡ map (parts_of_topic (plan_in topology.now))
        (topics_of (plan_in topology.now)) }
    ensures settled { IfOk result (λ r. r.settled ≡ true
        → IsSettled (setup_of W.plan cluster.now) (state_of W.plan cluster.now)) }
    ensures unsettled { IfOk result (λ r. IsSettled (setup_of W.plan cluster.now)
        (state_of W.plan cluster.now) → r.settled ≡ true) }
    ensures lags { IfOk result (λ r. r.lags.items ≡ lags_of (setup_of W.plan cluster.now)
        (state_of W.plan cluster.now) (drain_numbers (plan_in topology.now))) }
    ensures pending { IfOk result (λ r. r.pending
        ≡ pending_producers (state_of W.plan cluster.now)) }
    ensures late { IfOk result (λ r. r.late ≡ (state_of W.plan cluster.now).late) }
    ensures collision { IfOk result (λ r. option_map join_pair r.collision
        ≡ option_map (named (draft_of topology.now))
        (first_pair (row_hash H.hash_of) (plan_in topology.now) (state_of W.plan cluster.now))) }
{
    let lags = lags_in(alloc, cluster, topology)?;
    let pending = cluster.pending();
    let settled = is_settled(pending, lags.as_slice());
    Ok(Report {
        settled,
        lags,
        pending,
        late: cluster.late(),
        collision: first_in_joins::<H, R, W>(rt, alloc, cluster, topology)?,
    })
}
