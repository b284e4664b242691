//! The act by which a worker's tasks read.
ghost use Rattle.std.specs.Prelude.{◌≡◌, ◌<◌, ◌++◌, true, false, [], ◌∷◌, length, take, drop, OnOk, IfOk};
ghost use Rattle.std.specs.List.{All};
ghost use Rattle.ks_plan.specs.Infos.{input_numbers};
ghost use Rattle.ks_topo.specs.Topologies.{draft_of, plan_in};
ghost use Rattle.ks_shared.specs.Calls.{setup_in};
ghost use Rattle.ks_worker_client.specs.Turns.{counts_after};
ghost use Rattle.ks_worker_state.specs.State.{MayAct, LaterState, KnowsTheSame, IsWorkerState, task_names};
ghost use Rattle.ks_worker_acts.specs.Inputs.{IsInputAt, HaveReadOn, HasMoved, HaveReadAll, HasLooked};
ghost use Rattle.ks_worker_acts.specs.Picking.{HasPicked};

use crate::places::{InputPlace, places_of};
use ks_cluster::Work;
use ks_edge::Gate;
use ks_shared::Shared;
use ks_task_processing::Processing;
use ks_topo::Topology;
use ks_worker_client::{Halt, or_halt};
use ks_worker_state::{WorkerState, read_once};
use std::alloc::Global;
use std::sync::Wait;

// Looks at one input; whether its task moved there.
fn read_place<H: Processing, R: Wait, W: Work, G: Gate>(
    rt: &R,
    alloc: Global,
    topology: &Topology,
    shared: &Shared<W>,
    state: &mut WorkerState<W, G>,
    place: InputPlace,
) -> Result<bool, Halt>
    requires may { MayAct W.plan H.hash_of shared.now.growing.id (draft_of topology.now) state.old }
    requires place { IsInputAt (input_numbers (plan_in topology.now)) state.old.tasks.items place }
    ensures gate { state.new.session.client.gate
        ≡ counts_after state.old.session.client.gate result }
    ensures later { LaterState W.plan state.old state.new }
    ensures made { state.new.session.client.pass.made ≡ state.old.session.client.pass.made }
    ensures same { KnowsTheSame state.old state.new }
    ensures replicas { state.new.replicas ≡ state.old.replicas }
    ensures worker { OnOk result (IsWorkerState W.plan (draft_of topology.now) state.new) }
    ensures looked { IfOk result (λ moved. HasLooked
        (setup_in W.plan state.old.session.client.pass.frame) state.old.session.client.pass.seen
        moved
        (place ∷ []) state.old.tasks.items state.new.tasks.items) }
{
    let member = state.member;
    let moved = read_once::<H, R, W, G>(
        rt,
        alloc,
        topology,
        shared,
        &mut state.session,
        &member,
        &mut state.tasks[place.index],
        place.topic,
    )?;
    Ok(moved)
}

// Looks at these inputs up to the first whose task moves there; whether one did.
fn read_first<H: Processing, R: Wait, W: Work, G: Gate>(
    rt: &R,
    alloc: Global,
    topology: &Topology,
    shared: &Shared<W>,
    state: &mut WorkerState<W, G>,
    places: &[InputPlace],
) -> Result<bool, Halt>
    requires may { MayAct W.plan H.hash_of shared.now.growing.id (draft_of topology.now) state.old }
    requires places { All (IsInputAt (input_numbers (plan_in topology.now)) state.old.tasks.items)
        places.now }
    ensures gate { state.new.session.client.gate
        ≡ counts_after state.old.session.client.gate result }
    ensures later { LaterState W.plan state.old state.new }
    ensures made { state.new.session.client.pass.made ≡ state.old.session.client.pass.made }
    ensures same { KnowsTheSame state.old state.new }
    ensures replicas { state.new.replicas ≡ state.old.replicas }
    ensures worker { OnOk result (IsWorkerState W.plan (draft_of topology.now) state.new) }
    ensures looked { IfOk result (λ moved. HasLooked
        (setup_in W.plan state.old.session.client.pass.frame) state.old.session.client.pass.seen
        moved
        places.now state.old.tasks.items state.new.tasks.items) }
{
    for i in 0..places.len() {
        let place = places[i];
        if read_place::<H, R, W, G>(rt, alloc, topology, shared, state, place)? {
            return Ok(true);
        }
    }
    Ok(false)
}

// Looks at these inputs, round once from a place on.
fn read_round<H: Processing, R: Wait, W: Work, G: Gate>(
    rt: &R,
    alloc: Global,
    topology: &Topology,
    shared: &Shared<W>,
    state: &mut WorkerState<W, G>,
    places: &[InputPlace],
    start: usize,
) -> Result<bool, Halt>
    requires may { MayAct W.plan H.hash_of shared.now.growing.id (draft_of topology.now) state.old }
    requires places { All (IsInputAt (input_numbers (plan_in topology.now)) state.old.tasks.items)
        places.now }
    requires start { start < length places.now }
    ensures gate { state.new.session.client.gate
        ≡ counts_after state.old.session.client.gate result }
    ensures later { LaterState W.plan state.old state.new }
    ensures made { state.new.session.client.pass.made ≡ state.old.session.client.pass.made }
    ensures same { KnowsTheSame state.old state.new }
    ensures replicas { state.new.replicas ≡ state.old.replicas }
    ensures worker { OnOk result (IsWorkerState W.plan (draft_of topology.now) state.new) }
    ensures looked { IfOk result (λ moved. HasLooked
        (setup_in W.plan state.old.session.client.pass.frame) state.old.session.client.pass.seen
        moved (drop start places.now ++ take start places.now)
        state.old.tasks.items state.new.tasks.items) }
{
    let (front, back) = places.split_at(start);
    if read_first::<H, R, W, G>(rt, alloc, topology, shared, state, back)? {
        return Ok(true);
    }
    read_first::<H, R, W, G>(rt, alloc, topology, shared, state, front)
}

/// Looks at the inputs of its tasks, in order of task and topic, from one on that `pick` names, round once; at the first whose fetch
/// moves the position it takes at most 32 records, and ends. Whether a position moved.
///
/// After `Cut` or want of memory the worker is to be crashed.
pub fn work<H: Processing, R: Wait, W: Work, G: Gate>(
    rt: &R,
    alloc: Global,
    topology: &Topology,
    shared: &Shared<W>,
    state: &mut WorkerState<W, G>,
    pick: u32,
) -> Result<bool, Halt>
    requires may { MayAct W.plan H.hash_of shared.now.growing.id (draft_of topology.now) state.old }
    ensures gate { state.new.session.client.gate
        ≡ counts_after state.old.session.client.gate result }
    ensures later { LaterState W.plan state.old state.new }
    ensures made { state.new.session.client.pass.made ≡ state.old.session.client.pass.made }
    ensures same { KnowsTheSame state.old state.new }
    ensures replicas { state.new.replicas ≡ state.old.replicas }
    ensures worker { OnOk result (IsWorkerState W.plan (draft_of topology.now) state.new) }
    ensures names { OnOk result (task_names state.new.tasks.items
        ≡ task_names state.old.tasks.items) }
    ensures read { OnOk result (HaveReadOn state.old.tasks.items state.new.tasks.items) }
    ensures moved { IfOk result (λ moved. moved ≡ true
        → HasMoved state.old.tasks.items state.new.tasks.items) }
    ensures first { IfOk result (λ moved. moved ≡ true
        → HasPicked W.plan pick state.old state.new) }
    ensures stays { IfOk result (λ moved. moved ≡ false
        → state.new.tasks.items ≡ state.old.tasks.items) }
    ensures dry { IfOk result (λ moved. moved ≡ false
        → HaveReadAll (setup_in W.plan state.old.session.client.pass.frame)
        state.old.session.client.pass.seen state.new.tasks.items) }
{
    let places = or_halt(places_of(alloc, topology, state.tasks.as_slice()))?;
    let places = places.as_slice();
    if places.is_empty() {
        return Ok(false);
    }
    let start = pick as usize % places.len();
    let moved = read_round::<H, R, W, G>(rt, alloc, topology, shared, state, places, start)?;
    Ok(moved)
}
