//! A worker's turn up to its act.
ghost use Rattle.std.specs.Prelude.{◌≡◌, ◌⊎◌, ◌<◌, [], IfOk, OnOk};
ghost use Rattle.ks_history.specs.Reads.{status};
ghost use Rattle.ks_plan.specs.Layout.{tasks};
ghost use Rattle.ks_topo.specs.Topologies.{draft_of, plan_in};
ghost use Rattle.ks_shared.specs.Calls.{setup_in};
ghost use Rattle.ks_worker_client.specs.Turns.{counts_after};
ghost use Rattle.ks_worker_client.specs.Calls.{state_seen};
ghost use Rattle.ks_worker_state.specs.State.{IsWorkerState, LaterState, MayAct};
ghost use Rattle.ks_worker_turn.specs.Acting.{WasAssigned};
ghost use Rattle.ks_worker_turn.specs.Beginning.{HasPlaced, HasBegun};
ghost use Rattle.ks_worker_turn.specs.Placing.{PlacesBy};
ghost use Rattle.ks_worker_turn.specs.Requests.{MakesTurn};

use crate::assigning::{assignment_of, new_assignment};
use crate::heeding::heed_status;
use crate::joining::join_group;
use crate::taking::take_places;
use ks_assign::Placing;
use ks_cluster::Work;
use ks_edge::Gate;
use ks_hash::Hash128;
use ks_history::Status;
use ks_shared::Shared;
use ks_topo::Topology;
use ks_worker_client::{Halt, or_halt};
use ks_worker_state::WorkerState;
use std::alloc::Global;
use std::sync::Wait;

// Gives the generation that a status told a good assignment, where it has none, and takes what is placed with the worker.
fn place_tasks<H: Hash128, R: Wait, W: Work, G: Gate>(
    rt: &R,
    alloc: Global,
    topology: &Topology,
    placing: &Placing,
    shared: &Shared<W>,
    state: &mut WorkerState<W, G>,
    told: Status,
) -> Result<(), Halt>
    requires may { MayAct W.plan H.hash_of shared.now.growing.id (draft_of topology.now) state.old }
    requires placing { PlacesBy W.good placing.now (draft_of topology.now)
        state.old.session.client.pass.frame }
    requires status { told ≡ status (setup_in W.plan state.old.session.client.pass.frame)
        (state_seen W.plan state.old.session.client.pass) }
    requires rested { state.old.member.generation < told.generation → state.old.tasks.items ≡ [] }
    ensures gate { state.new.session.client.gate
        ≡ counts_after state.old.session.client.gate result }
    ensures later { LaterState W.plan state.old state.new }
    ensures made { OnOk result (MakesTurn state.old state.new) }
    ensures worker { OnOk result (IsWorkerState W.plan (draft_of topology.now) state.new) }
    ensures generation { OnOk result ((state.new.member.generation ≡ state.old.member.generation)
        ⊎ WasAssigned W.plan state.old.session.client.pass state.new.session.client.pass
        state.new.member.generation) }
    ensures placed { OnOk result (HasPlaced W.plan placing.now.threads
        (tasks (plan_in topology.now))
        state.old state.new) }
{
    let generation = told.generation;
    let offer = or_halt(new_assignment(alloc, topology, placing, &told))?;
    let client = &mut state.session.client;
    let answer = assignment_of(rt, alloc, shared, client, state.member.number, told, offer)?;
    let Some(assignment) = answer else {
        return Ok(());
    };
    take_places::<H, R, W, G>(rt, alloc, topology, shared, state, generation, &assignment)
}

/// A worker's turn up to its act: it is made a member, heeds the group's status, gives the generation a good assignment where it has
/// none, and takes what the assignment of the generation places with it, where there is one. Answers how many markers waited by that
/// status.
///
/// Errors: the gate cut the worker off, or no memory; the worker is then to be crashed.
pub fn begin_turn<H: Hash128, R: Wait, W: Work, G: Gate>(
    rt: &R,
    alloc: Global,
    topology: &Topology,
    placing: &Placing,
    shared: &Shared<W>,
    state: &mut WorkerState<W, G>,
) -> Result<u32, Halt>
    requires may { MayAct W.plan H.hash_of shared.now.growing.id (draft_of topology.now) state.old }
    requires placing { PlacesBy W.good placing.now (draft_of topology.now)
        state.old.session.client.pass.frame }
    ensures gate { state.new.session.client.gate
        ≡ counts_after state.old.session.client.gate result }
    ensures later { LaterState W.plan state.old state.new }
    ensures made { OnOk result (MakesTurn state.old state.new) }
    ensures worker { OnOk result (IsWorkerState W.plan (draft_of topology.now) state.new) }
    ensures generation { OnOk result ((state.new.member.generation ≡ state.old.member.generation)
        ⊎ WasAssigned W.plan state.old.session.client.pass state.new.session.client.pass
        state.new.member.generation) }
    ensures begun { IfOk result (HasBegun W.plan placing.now.threads (tasks (plan_in topology.now))
        state.old state.new) }
{
    join_group(rt, alloc, shared, state)?;
    let status = heed_status(rt, alloc, shared, state)?;
    let waiting = status.waiting;
    place_tasks::<H, R, W, G>(rt, alloc, topology, placing, shared, state, status)?;
    Ok(waiting)
}
