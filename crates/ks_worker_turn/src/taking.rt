//! A worker takes the replicas and tasks that are placed with it.
ghost use Rattle.std.specs.Prelude.{◌≡◌, ◌≤◌, ◌<◌, ℕ, true, false, [], ◌∷◌, max, IfOk, OnOk};
ghost use Rattle.ks_history.specs.State.{has_task};
ghost use Rattle.ks_plan.specs.Layout.{tasks};
ghost use Rattle.ks_topo.specs.Topologies.{draft_of, plan_in};
ghost use Rattle.ks_shared.specs.Calls.{setup_in};
ghost use Rattle.ks_worker_client.specs.Turns.{counts_after};
ghost use Rattle.ks_worker_client.specs.Calls.{MayCall, Later, state_seen};
ghost use Rattle.ks_worker_state.specs.Gained.{HasMadeOnly};
ghost use Rattle.ks_worker_state.specs.Names.{task_names, replica_names};
ghost use Rattle.ks_worker_state.specs.Standbys.{IsStandby};
ghost use Rattle.ks_worker_state.specs.State.{IsWorkerState, LaterState, MayAct};
ghost use Rattle.ks_worker_state.specs.Topology.{RunsTopology};
ghost use Rattle.ks_worker_turn.specs.Held.{AreWithout, HoldsOneMore, HoldsOnce, HoldsPlaced, HasParked, HasTakenPlaces};
ghost use Rattle.ks_worker_turn.specs.Places.{has_place};
ghost use Rattle.ks_worker_turn.specs.Requests.{is_of_turn, MakesTurn};
ghost use Rattle.ks_worker_turn.specs.Restored.{KeepsTasks, IsRestored, HasRestored};

use crate::having::has_places;
use crate::lists::{has_task_of, put_replica, put_task, take_replica};
use crate::parking::park_others;
use crate::placing::{has_place, is_placed};
use ks_cluster::Work;
use ks_edge::Gate;
use ks_hash::Hash128;
use ks_record::{Assignment, TaskId};
use ks_shared::Shared;
use ks_standby::Replica;
use ks_topo::Topology;
use ks_worker_client::{ClusterClient, Halt, Member, or_halt};
use ks_worker_state::{WorkerState, changelogs_in, restore};
use std::alloc::Global;
use std::sync::Wait;

// The replica of a task that is parked at an instance, or an empty one.
fn replica_from_shelf<H: Hash128, R: Wait, W: Work, G: Gate>(
    rt: &R,
    alloc: Global,
    topology: &Topology,
    shared: &Shared<W>,
    client: &mut ClusterClient<W, G>,
    instance: u8,
    task: TaskId,
) -> Result<Replica, Halt>
    requires may { MayCall W.plan shared.now.growing.id client.old.pass client.old.gate }
    requires topology { RunsTopology H.hash_of (draft_of topology.now)
        (setup_in W.plan client.old.pass.frame) }
    requires instance { instance ≤ 3 }
    requires task { has_task task (setup_in W.plan client.old.pass.frame).tasks ≡ true }
    ensures gate { client.new.gate ≡ counts_after client.old.gate result }
    ensures later { Later W.plan client.old.pass client.new.pass }
    ensures made { OnOk result ((w : ℕ) → HasMadeOnly (is_of_turn w instance)
        client.old.pass client.new.pass) }
    ensures standby { IfOk result (λ r. IsStandby (setup_in W.plan client.old.pass.frame)
        client.new.pass.seen r) }
    ensures named { IfOk result (λ r. r.id ≡ task) }
{
    let parked = client.unpark(rt, alloc, shared, instance, task)?;
    match parked {
        Some(replica) => Ok(replica),
        None => or_halt(Replica::new(
            alloc,
            task,
            changelogs_in(topology, task.sub),
            topology.seed(),
        )),
    }
}

// The worker's replica of a task, one of its instance's shelf, or an empty one; the worker no longer has it among its replicas.
fn replica_of<H: Hash128, R: Wait, W: Work, G: Gate>(
    rt: &R,
    alloc: Global,
    topology: &Topology,
    shared: &Shared<W>,
    state: &mut WorkerState<W, G>,
    task: TaskId,
) -> Result<Replica, Halt>
    requires may { MayAct W.plan H.hash_of shared.now.growing.id (draft_of topology.now) state.old }
    requires task { has_task task (setup_in W.plan state.old.session.client.pass.frame).tasks
        ≡ true }
    ensures gate { state.new.session.client.gate
        ≡ counts_after state.old.session.client.gate result }
    ensures later { LaterState W.plan state.old state.new }
    ensures made { OnOk result (MakesTurn state.old state.new) }
    ensures worker { OnOk result (IsWorkerState W.plan (draft_of topology.now) state.new) }
    ensures member { state.new.member ≡ state.old.member }
    ensures tasks { state.new.tasks.items ≡ state.old.tasks.items }
    ensures standby { IfOk result (λ r. IsStandby
        (setup_in W.plan state.old.session.client.pass.frame)
        state.new.session.client.pass.seen r) }
    ensures named { IfOk result (λ r. r.id ≡ task) }
    ensures without { OnOk result (AreWithout task state.old.replicas.items
        state.new.replicas.items) }
{
    match take_replica(&mut state.replicas, task) {
        Some(replica) => Ok(replica),
        None => replica_from_shelf::<H, R, W, G>(
            rt,
            alloc,
            topology,
            shared,
            &mut state.session.client,
            state.member.instance,
            task,
        ),
    }
}

// Makes a task of a replica, where it is restored; else the replica is kept for a later turn.
fn activate<H: Hash128, R: Wait, W: Work, G: Gate>(
    rt: &R,
    alloc: Global,
    topology: &Topology,
    shared: &Shared<W>,
    state: &mut WorkerState<W, G>,
    replica: Replica,
) -> Result<(), Halt>
    requires may { MayAct W.plan H.hash_of shared.now.growing.id (draft_of topology.now) state.old }
    requires standby { IsStandby (setup_in W.plan state.old.session.client.pass.frame)
        state.old.session.client.pass.seen replica }
    requires none { has_task replica.id (task_names state.old.tasks.items) ≡ false }
    requires apart { has_task replica.id (replica_names state.old.replicas.items) ≡ false }
    requires member { state.old.member.is_member ≡ true }
    ensures gate { state.new.session.client.gate
        ≡ counts_after state.old.session.client.gate result }
    ensures later { LaterState W.plan state.old state.new }
    ensures made { OnOk result (MakesTurn state.old state.new) }
    ensures worker { OnOk result (IsWorkerState W.plan (draft_of topology.now) state.new) }
    ensures member { state.new.member ≡ state.old.member }
    ensures held { OnOk result (HoldsOneMore replica.id state.old state.new) }
    ensures kept { OnOk result (KeepsTasks state.old state.new) }
    ensures restored { OnOk result (IsRestored W.plan replica.id state.old state.new) }
{
    let answer = restore::<H, R, W, G>(
        rt,
        alloc,
        topology,
        shared,
        &mut state.session,
        state.member,
        replica,
    )?;
    match answer {
        Ok(task) => or_halt(put_task(&mut state.tasks, task)),
        Err(replica) => or_halt(put_replica(&mut state.replicas, replica)),
    }
}

// Has a replica of a task that is placed with the worker; or the task, where it is active there and restored.
fn take_place<H: Hash128, R: Wait, W: Work, G: Gate>(
    rt: &R,
    alloc: Global,
    topology: &Topology,
    shared: &Shared<W>,
    state: &mut WorkerState<W, G>,
    task: TaskId,
    is_active: bool,
) -> Result<(), Halt>
    requires may { MayAct W.plan H.hash_of shared.now.growing.id (draft_of topology.now) state.old }
    requires task { has_task task (setup_in W.plan state.old.session.client.pass.frame).tasks
        ≡ true }
    requires member { is_active ≡ true → state.old.member.is_member ≡ true }
    ensures gate { state.new.session.client.gate
        ≡ counts_after state.old.session.client.gate result }
    ensures later { LaterState W.plan state.old state.new }
    ensures made { OnOk result (MakesTurn state.old state.new) }
    ensures worker { OnOk result (IsWorkerState W.plan (draft_of topology.now) state.new) }
    ensures member { state.new.member ≡ state.old.member }
    ensures held { OnOk result (HoldsOnce task state.old state.new) }
    ensures kept { OnOk result (KeepsTasks state.old state.new) }
    ensures restored { OnOk result (is_active ≡ true → IsRestored W.plan task state.old state.new) }
{
    if has_task_of(&state.tasks, task) {
        return Ok(());
    }
    let replica = replica_of::<H, R, W, G>(rt, alloc, topology, shared, state, task)?;
    if !is_active {
        return or_halt(put_replica(&mut state.replicas, replica));
    }
    activate::<H, R, W, G>(rt, alloc, topology, shared, state, replica)
}

// Whether an assignment has a task active at this worker; at one that is no member of the group (it was removed) none is.
fn is_active_at(assignment: &Assignment, member: &Member, task: TaskId) -> bool
    ensures member { result ≡ true → member.now.is_member ≡ true }
    ensures active { member.now.is_member ≡ true
        → has_place task member.now.number assignment.now.active ≡ true → result ≡ true }
{
    if !member.is_member {
        return false;
    }
    has_place(task, member.number, assignment.active.as_slice())
}

// Has what an assignment places of a task with the worker.
fn take_assigned<H: Hash128, R: Wait, W: Work, G: Gate>(
    rt: &R,
    alloc: Global,
    topology: &Topology,
    shared: &Shared<W>,
    state: &mut WorkerState<W, G>,
    assignment: &Assignment,
    task: TaskId,
) -> Result<(), Halt>
    requires may { MayAct W.plan H.hash_of shared.now.growing.id (draft_of topology.now) state.old }
    requires task { has_task task (setup_in W.plan state.old.session.client.pass.frame).tasks
        ≡ true }
    ensures gate { state.new.session.client.gate
        ≡ counts_after state.old.session.client.gate result }
    ensures later { LaterState W.plan state.old state.new }
    ensures made { OnOk result (MakesTurn state.old state.new) }
    ensures worker { OnOk result (IsWorkerState W.plan (draft_of topology.now) state.new) }
    ensures member { state.new.member ≡ state.old.member }
    ensures held { OnOk result (HoldsPlaced assignment.now state.old.member.number (task ∷ [])
        state.old state.new) }
    ensures kept { OnOk result (KeepsTasks state.old state.new) }
    ensures restored { OnOk result (HasRestored W.plan assignment.now (task ∷ [])
        state.old state.new) }
{
    let number = state.member.number;
    if !is_placed(assignment, number, task) {
        return Ok(());
    }
    let is_active = is_active_at(assignment, &state.member, task);
    take_place::<H, R, W, G>(rt, alloc, topology, shared, state, task, is_active)
}

// Has all that an assignment places with the worker, in the order of the topology's tasks.
fn take_all<H: Hash128, R: Wait, W: Work, G: Gate>(
    rt: &R,
    alloc: Global,
    topology: &Topology,
    shared: &Shared<W>,
    state: &mut WorkerState<W, G>,
    assignment: &Assignment,
) -> Result<(), Halt>
    requires may { MayAct W.plan H.hash_of shared.now.growing.id (draft_of topology.now) state.old }
    ensures gate { state.new.session.client.gate
        ≡ counts_after state.old.session.client.gate result }
    ensures later { LaterState W.plan state.old state.new }
    ensures made { OnOk result (MakesTurn state.old state.new) }
    ensures worker { OnOk result (IsWorkerState W.plan (draft_of topology.now) state.new) }
    ensures member { state.new.member ≡ state.old.member }
    ensures held { OnOk result (HoldsPlaced assignment.now state.old.member.number
        (tasks (plan_in topology.now)) state.old state.new) }
    ensures kept { OnOk result (KeepsTasks state.old state.new) }
    ensures restored { OnOk result (HasRestored W.plan assignment.now (tasks (plan_in topology.now))
        state.old state.new) }
{
    let tasks = topology.tasks();
    for i in 0..tasks.len() {
        take_assigned::<H, R, W, G>(rt, alloc, topology, shared, state, assignment, tasks[i])?;
    }
    Ok(())
}

// Has all that an assignment of its own generation places with the worker; looks for nothing where all is there.
fn take_missing<H: Hash128, R: Wait, W: Work, G: Gate>(
    rt: &R,
    alloc: Global,
    topology: &Topology,
    shared: &Shared<W>,
    state: &mut WorkerState<W, G>,
    assignment: &Assignment,
) -> Result<(), Halt>
    requires may { MayAct W.plan H.hash_of shared.now.growing.id (draft_of topology.now) state.old }
    ensures gate { state.new.session.client.gate
        ≡ counts_after state.old.session.client.gate result }
    ensures later { LaterState W.plan state.old state.new }
    ensures made { OnOk result (MakesTurn state.old state.new) }
    ensures worker { OnOk result (IsWorkerState W.plan (draft_of topology.now) state.new) }
    ensures member { state.new.member ≡ state.old.member }
    ensures held { OnOk result (HoldsPlaced assignment.now state.old.member.number
        (tasks (plan_in topology.now)) state.old state.new) }
    ensures kept { OnOk result (KeepsTasks state.old state.new) }
    ensures restored { OnOk result (HasRestored W.plan assignment.now (tasks (plan_in topology.now))
        state.old state.new) }
{
    let number = state.member.number;
    let tasks = state.tasks.as_slice();
    if has_places(assignment, number, tasks, state.replicas.as_slice()) {
        return Ok(());
    }
    take_all::<H, R, W, G>(rt, alloc, topology, shared, state, assignment)
}

// Takes a newer generation as the worker's own, once its replicas without a place there are parked.
fn enter_generation<H: Hash128, R: Wait, W: Work, G: Gate>(
    rt: &R,
    alloc: Global,
    topology: &Topology,
    shared: &Shared<W>,
    state: &mut WorkerState<W, G>,
    generation: u64,
    assignment: &Assignment,
) -> Result<(), Halt>
    requires may { MayAct W.plan H.hash_of shared.now.growing.id (draft_of topology.now) state.old }
    requires past { generation ≤ (state_seen W.plan state.old.session.client.pass).generation }
    requires rested { state.old.member.generation < generation → state.old.tasks.items ≡ [] }
    ensures gate { state.new.session.client.gate
        ≡ counts_after state.old.session.client.gate result }
    ensures later { LaterState W.plan state.old state.new }
    ensures made { OnOk result (MakesTurn state.old state.new) }
    ensures worker { OnOk result (IsWorkerState W.plan (draft_of topology.now) state.new) }
    ensures member { OnOk result (state.new.member
        ≡ record state.old.member { generation = max state.old.member.generation generation }) }
    ensures tasks { state.new.tasks.items ≡ state.old.tasks.items }
    ensures same { generation ≤ state.old.member.generation
        → state.new.replicas.items ≡ state.old.replicas.items }
    ensures parked { OnOk result (state.old.member.generation < generation
        → HasParked assignment.now state.old.member.number state.old.member.instance
        (tasks (plan_in topology.now)) state.old.session.client.pass state.new.session.client.pass
        state.old.replicas.items state.new.replicas.items) }
{
    if generation <= state.member.generation {
        return Ok(());
    }
    park_others::<H, R, W, G>(rt, alloc, topology, shared, state, assignment)?;
    state.member.generation = generation;
    Ok(())
}

/// Takes what an assignment of a generation places with the worker. Where the generation is newer than the worker's own, the worker
/// parks its replicas of tasks that aren't placed with it, and that generation is now its own. Of each task that is placed with it, it
/// then has the task, its own replica, one of its instance's shelf, or an empty one; and each that is active with it and isn't a task yet
/// is restored where that can be.
///
/// Errors: the gate cut the worker off, or no memory; the worker is then to be crashed.
pub fn take_places<H: Hash128, R: Wait, W: Work, G: Gate>(
    rt: &R,
    alloc: Global,
    topology: &Topology,
    shared: &Shared<W>,
    state: &mut WorkerState<W, G>,
    generation: u64,
    assignment: &Assignment,
) -> Result<(), Halt>
    requires may { MayAct W.plan H.hash_of shared.now.growing.id (draft_of topology.now) state.old }
    requires past { generation ≤ (state_seen W.plan state.old.session.client.pass).generation }
    requires rested { state.old.member.generation < generation → state.old.tasks.items ≡ [] }
    ensures gate { state.new.session.client.gate
        ≡ counts_after state.old.session.client.gate result }
    ensures later { LaterState W.plan state.old state.new }
    ensures made { OnOk result (MakesTurn state.old state.new) }
    ensures worker { OnOk result (IsWorkerState W.plan (draft_of topology.now) state.new) }
    ensures member { OnOk result (state.new.member
        ≡ record state.old.member { generation = max state.old.member.generation generation }) }
    ensures taken { OnOk result (HasTakenPlaces (tasks (plan_in topology.now)) generation
        assignment.now state.old state.new) }
    ensures kept { OnOk result (KeepsTasks state.old state.new) }
    ensures restored { OnOk result (HasRestored W.plan assignment.now (tasks (plan_in topology.now))
        state.old state.new) }
{
    enter_generation::<H, R, W, G>(rt, alloc, topology, shared, state, generation, assignment)?;
    take_missing::<H, R, W, G>(rt, alloc, topology, shared, state, assignment)
}
