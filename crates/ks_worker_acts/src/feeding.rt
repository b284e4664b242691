//! The act by which a worker's replicas are fed, and waiting markers are written.
ghost use Rattle.std.specs.Prelude.{◌≡◌, ◌<◌, length, OnOk};
ghost use Rattle.ks_topo.specs.Topologies.{draft_of};
ghost use Rattle.ks_shared.specs.Calls.{setup_in};
ghost use Rattle.ks_worker_client.specs.Turns.{counts_after};
ghost use Rattle.ks_worker_client.specs.Calls.{MayCall, Later};
ghost use Rattle.ks_worker_state.specs.State.{MayAct, LaterState, KnowsTheSame, IsWorkerState, replica_names};
ghost use Rattle.ks_worker_acts.specs.Feeds.{IsFedAt, AreFed, marks_of};
ghost use Rattle.ks_worker_state.specs.Gained.{HasMade};

use ks_cluster::Work;
use ks_edge::Gate;
use ks_hash::Hash128;
use ks_shared::Shared;
use ks_topo::Topology;
use ks_worker_client::{ClusterClient, Halt};
use ks_worker_state::{WorkerState, changelogs_in, feed_once};
use std::alloc::Global;
use std::sync::Wait;

// How many producers a cluster has: the workers and the caller's own.
const PRODUCERS: u8 = 17;

// Feeds the replica at this place once.
fn feed_place<H: Hash128, R: Wait, W: Work, G: Gate>(
    rt: &R,
    alloc: Global,
    topology: &Topology,
    shared: &Shared<W>,
    state: &mut WorkerState<W, G>,
    index: usize,
) -> Result<(), Halt>
    requires may { MayAct W.plan H.hash_of shared.now.growing.id (draft_of topology.now) state.old }
    requires index { index < length state.old.replicas.items }
    ensures gate { state.new.session.client.gate
        ≡ counts_after state.old.session.client.gate result }
    ensures later { LaterState W.plan state.old state.new }
    ensures made { state.new.session.client.pass.made ≡ state.old.session.client.pass.made }
    ensures same { KnowsTheSame state.old state.new }
    ensures tasks { state.new.tasks ≡ state.old.tasks }
    ensures worker { OnOk result (IsWorkerState W.plan (draft_of topology.now) state.new) }
    ensures fed { OnOk result (IsFedAt (setup_in W.plan state.old.session.client.pass.frame)
        state.old.session.client.pass.seen index state.old.replicas.items
        state.new.replicas.items) }
{
    let replica = &mut state.replicas[index];
    let changelogs = changelogs_in(topology, replica.id().sub);
    feed_once(
        rt,
        alloc,
        shared,
        &mut state.session.client,
        replica,
        changelogs,
    )?;
    Ok(())
}

// Feeds each replica once.
fn feed_all<H: Hash128, R: Wait, W: Work, G: Gate>(
    rt: &R,
    alloc: Global,
    topology: &Topology,
    shared: &Shared<W>,
    state: &mut WorkerState<W, G>,
) -> Result<(), Halt>
    requires may { MayAct W.plan H.hash_of shared.now.growing.id (draft_of topology.now) state.old }
    ensures gate { state.new.session.client.gate
        ≡ counts_after state.old.session.client.gate result }
    ensures later { LaterState W.plan state.old state.new }
    ensures made { state.new.session.client.pass.made ≡ state.old.session.client.pass.made }
    ensures same { KnowsTheSame state.old state.new }
    ensures tasks { state.new.tasks ≡ state.old.tasks }
    ensures worker { OnOk result (IsWorkerState W.plan (draft_of topology.now) state.new) }
    ensures fed { OnOk result (AreFed (setup_in W.plan state.old.session.client.pass.frame)
        state.old.session.client.pass.seen state.old.replicas.items state.new.replicas.items) }
{
    for i in 0..state.replicas.len() {
        feed_place::<H, R, W, G>(rt, alloc, topology, shared, state, i)?;
    }
    Ok(())
}

// Writes the first waiting marker of each producer, where markers wait.
fn write_waiting<R: Wait, W: Work, G: Gate>(
    rt: &R,
    alloc: Global,
    shared: &Shared<W>,
    client: &mut ClusterClient<W, G>,
    waiting: u32,
) -> Result<(), Halt>
    requires may { MayCall W.plan shared.now.growing.id client.old.pass client.old.gate }
    ensures gate { client.new.gate ≡ counts_after client.old.gate result }
    ensures later { Later W.plan client.old.pass client.new.pass }
    ensures marked { OnOk result (HasMade client.old.pass client.new.pass (marks_of waiting)) }
{
    if waiting == 0 {
        return Ok(());
    }
    for w in 0..PRODUCERS {
        client.mark_next(rt, alloc, shared, w)?;
    }
    Ok(())
}

/// Feeds its replicas once each; then, where `status` gave waiting markers, writes the first waiting one of each producer. It makes no
/// other request.
///
/// After `Cut` or want of memory the worker is to be crashed.
pub fn pump<H: Hash128, R: Wait, W: Work, G: Gate>(
    rt: &R,
    alloc: Global,
    topology: &Topology,
    shared: &Shared<W>,
    state: &mut WorkerState<W, G>,
    waiting: u32,
) -> Result<(), Halt>
    requires may { MayAct W.plan H.hash_of shared.now.growing.id (draft_of topology.now) state.old }
    ensures gate { state.new.session.client.gate
        ≡ counts_after state.old.session.client.gate result }
    ensures later { LaterState W.plan state.old state.new }
    ensures same { KnowsTheSame state.old state.new }
    ensures tasks { state.new.tasks ≡ state.old.tasks }
    ensures worker { OnOk result (IsWorkerState W.plan (draft_of topology.now) state.new) }
    ensures names { OnOk result (
        replica_names state.new.replicas.items ≡ replica_names state.old.replicas.items) }
    ensures fed { OnOk result (AreFed (setup_in W.plan state.old.session.client.pass.frame)
        state.old.session.client.pass.seen state.old.replicas.items state.new.replicas.items) }
    ensures marked { OnOk result (HasMade state.old.session.client.pass
        state.new.session.client.pass (marks_of waiting)) }
{
    feed_all::<H, R, W, G>(rt, alloc, topology, shared, state)?;
    write_waiting(rt, alloc, shared, &mut state.session.client, waiting)
}
