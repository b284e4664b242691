//! The last answer of a run.
ghost use Rattle.std.specs.Prelude.{◌≡◌, ◌≤◌, None, IfOk};
ghost use Rattle.ks_topo.specs.Topologies.{draft_of, plan_in};
ghost use Rattle.ks_def_tasks.specs.Rules.{HaveParts};
ghost use Rattle.ks_cluster.specs.View.{setup_of, state_of};
ghost use Rattle.ks_history.specs.Reads.{end_of};
ghost use Rattle.ks_settle.specs.Restoring.{IsQuiet};
ghost use Rattle.ks_iq.specs.Asks.{ask_fault, part_of_ask};
ghost use Rattle.ks_iq.specs.Reads.{IsRead, ReadsTopology};

use ks_cluster::{Cluster, Work};
use ks_iq::{Answer, Ask, find_place, stale};
use ks_settle::replica_at_ends;
use ks_topo::Topology;
use std::alloc::{AllocError, Global};

/// The answer of a replica that is fed up to the ends of its changelogs in a cluster at rest: a read of its journal at the partition's
/// end, which is at least `at_least`. Want of memory is the one error.
pub fn answer_last<W: Work>(
    alloc: Global,
    topology: &Topology,
    cluster: &Cluster<W>,
    ask: &Ask,
    at_least: u64,
) -> Result<Answer, AllocError>
    requires fine { ask_fault (draft_of topology.now) ask.now ≡ None }
    requires quiet { IsQuiet W.plan cluster.now }
    requires topology { ReadsTopology (draft_of topology.now) (setup_of W.plan cluster.now) }
    requires parts { HaveParts (plan_in topology.now) }
    requires bound { at_least ≤ end_of (state_of W.plan cluster.now)
        (part_of_ask (draft_of topology.now) ask.now) }
    ensures read { IfOk result (IsRead (draft_of topology.now) (state_of W.plan cluster.now)
        ask.now) }
    ensures end { IfOk result (λ a. a.position ≡ end_of (state_of W.plan cluster.now)
        (part_of_ask (draft_of topology.now) ask.now)) }
{
    let _nodes = topology.nodes();
    let Ok(place) = find_place(topology, ask) else {
        unreachable!()
    };
    let changelogs = topology.changelogs(place.task.sub);
    let replica = replica_at_ends(alloc, cluster, place.task, changelogs, topology.seed())?;
    match stale(alloc, topology, &replica, ask, at_least)? {
        Ok(answer) => Ok(answer),
        Err(_) => unreachable!(),
    }
}
