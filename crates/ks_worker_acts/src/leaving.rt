//! The act by which a worker leaves its group.
ghost use Rattle.std.specs.Prelude.{◌≡◌, ◌≤◌, [], ◌∷◌, ◌++◌, List, ℕ, OnOk};
ghost use Rattle.std.specs.List.{All, filter};
ghost use Rattle.ks_plan.specs.Drafts.{DraftView};
ghost use Rattle.ks_history.specs.declared.journal.Request.TheVariants.{Expire};
ghost use Rattle.ks_shared.specs.Calls.{setup_in};
ghost use Rattle.ks_worker_client.specs.Turns.{counts_after};
ghost use Rattle.ks_worker_client.specs.Calls.{MayCall, Later};
ghost use Rattle.ks_worker_state.specs.Standbys.{IsStandby};
ghost use Rattle.ks_worker_state.specs.State.{MayAct, LaterState, IsWorkerState, task_names, replica_names};
ghost use Rattle.ks_worker_state.specs.Gained.{HasMade};
ghost use Rattle.ks_worker_acts.specs.Telling.{is_clean_task, parks, outside, RestsOnto};

use ks_cluster::Work;
use ks_edge::Gate;
use ks_shared::Shared;
use ks_standby::Replica;
use ks_task::Task;
use ks_worker_client::{ClusterClient, Halt, or_halt};
use ks_worker_state::WorkerState;
use std::alloc::{AllocError, Global};
use std::mem;
use std::sync::Wait;

// Adds the replica that a clean task leaves; a dirty task is dropped.
fn rest_task(task: Task, replicas: &mut Vec<Replica>) -> Result<(), AllocError>
    ensures { OnOk result (RestsOnto (task ∷ []) replicas.old.items replicas.new.items) }
{
    if let Ok(replica) = task.rest() {
        replicas.push(replica)?;
    }
    Ok(())
}

/// Adds the replicas that the clean ones of these tasks leave; dirty tasks are dropped.
pub fn rest_tasks(tasks: Vec<Task>, replicas: &mut Vec<Replica>) -> Result<(), AllocError>
    ensures { OnOk result (RestsOnto tasks.items replicas.old.items replicas.new.items) }
{
    let mut rest = tasks.into_iter();
    while let Some(task) = rest.next() {
        rest_task(task, replicas)?;
    }
    Ok(())
}

// Parks these replicas at an instance.
fn park_all<R: Wait, W: Work, G: Gate>(
    rt: &R,
    alloc: Global,
    shared: &Shared<W>,
    client: &mut ClusterClient<W, G>,
    instance: u8,
    replicas: Vec<Replica>,
) -> Result<(), Halt>
    requires may { MayCall W.plan shared.now.growing.id client.old.pass client.old.gate }
    requires instance { instance ≤ 3 }
    requires standbys { All (IsStandby (setup_in W.plan client.old.pass.frame) client.old.pass.seen)
        replicas.items }
    ensures gate { client.new.gate ≡ counts_after client.old.gate result }
    ensures later { Later W.plan client.old.pass client.new.pass }
    ensures parked { OnOk result (HasMade client.old.pass client.new.pass
        (parks instance (replica_names replicas.items))) }
{
    let mut rest = replicas.into_iter();
    while let Some(replica) = rest.next() {
        client.park(rt, alloc, shared, instance, replica)?;
    }
    Ok(())
}

/// Parks its replicas, and those that its clean tasks leave, on its instance's shelf, drops its dirty tasks, and removes itself from the
/// group. It is no member then, and has no epoch.
///
/// After `Cut` or want of memory the worker is to be crashed.
pub fn leave<R: Wait, W: Work, G: Gate>(
    rt: &R,
    alloc: Global,
    shared: &Shared<W>,
    state: &mut WorkerState<W, G>,
) -> Result<(), Halt>
    requires may { (hash : List ℕ → ℕ) × (d : DraftView)
        × MayAct W.plan hash shared.now.growing.id d state.old }
    ensures gate { state.new.session.client.gate
        ≡ counts_after state.old.session.client.gate result }
    ensures later { LaterState W.plan state.old state.new }
    ensures member { OnOk result (state.new.member ≡ outside state.old.member) }
    ensures tasks { OnOk result (state.new.tasks.items ≡ []) }
    ensures replicas { OnOk result (state.new.replicas.items ≡ []) }
    ensures worker { OnOk result ((d : DraftView) → IsWorkerState W.plan d state.new) }
    ensures left { OnOk result (HasMade state.old.session.client.pass
        state.new.session.client.pass
        (parks state.old.member.instance (replica_names state.old.replicas.items
        ++ task_names (filter is_clean_task state.old.tasks.items))
        ++ Expire state.old.member.number ∷ [])) }
{
    let member = state.member;
    let tasks = mem::replace(&mut state.tasks, Vec::new(alloc));
    let mut replicas = mem::replace(&mut state.replicas, Vec::new(alloc));
    or_halt(rest_tasks(tasks, &mut replicas))?;
    let client = &mut state.session.client;
    park_all(rt, alloc, shared, client, member.instance, replicas)?;
    state
        .session
        .client
        .expire(rt, alloc, shared, member.number)?;
    state.member.epoch = 0;
    state.member.is_member = false;
    state.session.last = 0;
    state.session.numbers = Vec::new(alloc);
    Ok(())
}
