//! The act by which a worker tells the group its positions.
ghost use Rattle.std.specs.Prelude.{◌≡◌, ◌++◌, [], ◌∷◌, OnOk, IfOk};
ghost use Rattle.ks_history.specs.declared.journal.Request.TheVariants.{Hold, Probe};
ghost use Rattle.ks_plan.specs.Infos.{changelog_numbers};
ghost use Rattle.ks_topo.specs.Topologies.{draft_of, plan_in};
ghost use Rattle.ks_task.specs.Tasks.{task_view};
ghost use Rattle.ks_worker_client.specs.Turns.{counts_after};
ghost use Rattle.ks_worker_state.specs.State.{MayAct, LaterState, KnowsTheSame, IsWorkerState};
ghost use Rattle.ks_worker_state.specs.Gained.{HasMade};
ghost use Rattle.ks_worker_acts.specs.Telling.{position_total, task_positions, replica_positions, positions_held};

use ks_cluster::Work;
use ks_edge::Gate;
use ks_hash::Hash128;
use ks_record::TaskId;
use ks_shared::Shared;
use ks_standby::Replica;
use ks_task::Task;
use ks_topo::Topology;
use ks_worker_client::{Halt, or_halt};
use ks_worker_state::{WorkerState, changelogs_in};
use std::alloc::{AllocError, Global};
use std::sync::Wait;

// The sum of a task's positions in these changelogs, or 2^64 - 1 where that would be more.
fn sum_of(task: &Task, changelogs: &[u16]) -> u64
    ensures { result ≡ position_total (task_view task.now).position changelogs.now }
{
    let mut sum: u64 = 0;
    let mut rest = changelogs;
    while let [topic, more @ ..] = rest {
        sum = sum.saturating_add(task.position(*topic));
        rest = more;
    }
    sum
}

// Adds the positions of these tasks.
fn push_tasks(
    topology: &Topology,
    held: &mut Vec<(TaskId, u64)>,
    tasks: &[Task],
) -> Result<(), AllocError>
    ensures { OnOk result (held.new.items ≡ held.old.items
        ++ task_positions (changelog_numbers (plan_in topology.now)) tasks.now) }
{
    for i in 0..tasks.len() {
        let task = &tasks[i];
        let id = task.id();
        held.push((id, sum_of(task, changelogs_in(topology, id.sub))))?;
    }
    Ok(())
}

// Adds the positions of these replicas.
fn push_replicas(held: &mut Vec<(TaskId, u64)>, replicas: &[Replica]) -> Result<(), AllocError>
    ensures { OnOk result (held.new.items ≡ held.old.items ++ replica_positions replicas.now) }
{
    for i in 0..replicas.len() {
        let replica = &replicas[i];
        held.push((replica.id(), replica.sum()))?;
    }
    Ok(())
}

// The positions of these tasks and replicas.
fn positions_of(
    alloc: Global,
    topology: &Topology,
    tasks: &[Task],
    replicas: &[Replica],
) -> Result<Vec<(TaskId, u64)>, AllocError>
    ensures { IfOk result (λ v. v.items ≡ positions_held
        (changelog_numbers (plan_in topology.now)) tasks.now replicas.now) }
{
    let mut held = Vec::new(alloc);
    push_tasks(topology, &mut held, tasks)?;
    push_replicas(&mut held, replicas)?;
    Ok(held)
}

/// Tells the group the positions of its tasks and replicas, by `hold`, and begins the next generation, by `probe` with its own
/// generation, which may be refused.
///
/// After `Cut` or want of memory the worker is to be crashed.
pub fn probe<H: Hash128, R: Wait, W: Work, G: Gate>(
    rt: &R,
    alloc: Global,
    topology: &Topology,
    shared: &Shared<W>,
    state: &mut WorkerState<W, G>,
) -> Result<(), Halt>
    requires may { MayAct W.plan H.hash_of shared.now.growing.id (draft_of topology.now) state.old }
    ensures gate { state.new.session.client.gate
        ≡ counts_after state.old.session.client.gate result }
    ensures later { LaterState W.plan state.old state.new }
    ensures same { KnowsTheSame state.old state.new }
    ensures tasks { state.new.tasks ≡ state.old.tasks }
    ensures replicas { state.new.replicas ≡ state.old.replicas }
    ensures worker { OnOk result (IsWorkerState W.plan (draft_of topology.now) state.new) }
    ensures told { OnOk result (HasMade state.old.session.client.pass
        state.new.session.client.pass
        (Hold state.old.member.number (positions_held (changelog_numbers (plan_in topology.now))
        state.old.tasks.items state.old.replicas.items)
        ∷ Probe state.old.member.number state.old.member.generation ∷ [])) }
{
    let member = state.member;
    let held = or_halt(positions_of(
        alloc,
        topology,
        state.tasks.as_slice(),
        state.replicas.as_slice(),
    ))?;
    let client = &mut state.session.client;
    client.hold(rt, alloc, shared, member.number, held.as_slice())?;
    let _answer = client.probe(rt, alloc, shared, member.number, member.generation)?;
    Ok(())
}
