//! A worker parks the replicas that it has no place for.
ghost use Rattle.std.specs.Prelude.{◌≡◌, [], ◌∷◌, OnOk};
ghost use Rattle.ks_plan.specs.Layout.{tasks};
ghost use Rattle.ks_topo.specs.Topologies.{draft_of, plan_in};
ghost use Rattle.ks_worker_client.specs.Turns.{counts_after};
ghost use Rattle.ks_worker_state.specs.State.{IsWorkerState, LaterState, MayAct};
ghost use Rattle.ks_worker_turn.specs.Held.{HasParkedOne, HasParked};
ghost use Rattle.ks_worker_turn.specs.Requests.{MakesTurn};

use crate::lists::take_replica;
use crate::placing::is_placed;
use ks_cluster::Work;
use ks_edge::Gate;
use ks_hash::Hash128;
use ks_record::{Assignment, TaskId};
use ks_shared::Shared;
use ks_topo::Topology;
use ks_worker_client::Halt;
use ks_worker_state::WorkerState;
use std::alloc::Global;
use std::sync::Wait;

// Parks the worker's replica of a task on its instance's shelf, where it has one.
fn park_replica<H: Hash128, R: Wait, W: Work, G: Gate>(
    rt: &R,
    alloc: Global,
    topology: &Topology,
    shared: &Shared<W>,
    state: &mut WorkerState<W, G>,
    task: TaskId,
) -> Result<(), Halt>
    requires { MayAct W.plan H.hash_of shared.now.growing.id (draft_of topology.now) state.old }
    ensures gate { state.new.session.client.gate
        ≡ counts_after state.old.session.client.gate result }
    ensures later { LaterState W.plan state.old state.new }
    ensures made { OnOk result (MakesTurn state.old state.new) }
    ensures worker { OnOk result (IsWorkerState W.plan (draft_of topology.now) state.new) }
    ensures member { state.new.member ≡ state.old.member }
    ensures tasks { state.new.tasks.items ≡ state.old.tasks.items }
    ensures parked { OnOk result (HasParkedOne state.old.member.instance task
        state.old.session.client.pass state.new.session.client.pass
        state.old.replicas.items state.new.replicas.items) }
{
    let Some(replica) = take_replica(&mut state.replicas, task) else {
        return Ok(());
    };
    state
        .session
        .client
        .park(rt, alloc, shared, state.member.instance, replica)
}

// Parks the worker's replica of a task that isn't placed with it.
fn park_unplaced<H: Hash128, R: Wait, W: Work, G: Gate>(
    rt: &R,
    alloc: Global,
    topology: &Topology,
    shared: &Shared<W>,
    state: &mut WorkerState<W, G>,
    assignment: &Assignment,
    task: TaskId,
) -> Result<(), Halt>
    requires { MayAct W.plan H.hash_of shared.now.growing.id (draft_of topology.now) state.old }
    ensures gate { state.new.session.client.gate
        ≡ counts_after state.old.session.client.gate result }
    ensures later { LaterState W.plan state.old state.new }
    ensures made { OnOk result (MakesTurn state.old state.new) }
    ensures worker { OnOk result (IsWorkerState W.plan (draft_of topology.now) state.new) }
    ensures member { state.new.member ≡ state.old.member }
    ensures tasks { state.new.tasks.items ≡ state.old.tasks.items }
    ensures parked { OnOk result (HasParked assignment.now state.old.member.number
        state.old.member.instance (task ∷ [])
        state.old.session.client.pass state.new.session.client.pass
        state.old.replicas.items state.new.replicas.items) }
{
    if is_placed(assignment, state.member.number, task) {
        return Ok(());
    }
    park_replica::<H, R, W, G>(rt, alloc, topology, shared, state, task)
}

/// Parks the worker's replicas of tasks that aren't placed with it on its instance's shelf.
///
/// Errors: the gate cut the worker off, or no memory; the worker is then to be crashed.
pub fn park_others<H: Hash128, R: Wait, W: Work, G: Gate>(
    rt: &R,
    alloc: Global,
    topology: &Topology,
    shared: &Shared<W>,
    state: &mut WorkerState<W, G>,
    assignment: &Assignment,
) -> Result<(), Halt>
    requires { MayAct W.plan H.hash_of shared.now.growing.id (draft_of topology.now) state.old }
    ensures gate { state.new.session.client.gate
        ≡ counts_after state.old.session.client.gate result }
    ensures later { LaterState W.plan state.old state.new }
    ensures made { OnOk result (MakesTurn state.old state.new) }
    ensures worker { OnOk result (IsWorkerState W.plan (draft_of topology.now) state.new) }
    ensures member { state.new.member ≡ state.old.member }
    ensures tasks { state.new.tasks.items ≡ state.old.tasks.items }
    ensures parked { OnOk result (HasParked assignment.now state.old.member.number
        state.old.member.instance (tasks (plan_in topology.now))
        state.old.session.client.pass state.new.session.client.pass
        state.old.replicas.items state.new.replicas.items) }
{
    let tasks = topology.tasks();
    for i in 0..tasks.len() {
        park_unplaced::<H, R, W, G>(rt, alloc, topology, shared, state, assignment, tasks[i])?;
    }
    Ok(())
}
