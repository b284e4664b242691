//! A worker heeds the group's status.
ghost use Rattle.std.specs.Prelude.{◌≡◌, ◌<◌, true, false, [], ◌∷◌, IfOk, OnOk};
ghost use Rattle.ks_history.specs.State.{has_number};
ghost use Rattle.ks_history.specs.Reads.{status};
ghost use Rattle.ks_shared.specs.Calls.{setup_in};
ghost use Rattle.ks_worker_client.specs.Turns.{counts_after};
ghost use Rattle.ks_worker_client.specs.Calls.{MayCall, state_seen};
ghost use Rattle.ks_worker_state.specs.State.{LaterState};
ghost use Rattle.ks_worker_turn.specs.Acting.{KeepsWorker};
ghost use Rattle.ks_worker_turn.specs.Resting.{HaveLeft, is_generation_over, HaveRested};

use crate::lists::put_replica;
use ks_cluster::Work;
use ks_edge::Gate;
use ks_history::Status;
use ks_shared::Shared;
use ks_standby::Replica;
use ks_task::Task;
use ks_worker_client::Halt;
use ks_worker_state::WorkerState;
use std::alloc::{AllocError, Global};
use std::sync::Wait;

// A task rests: of a clean one the replica is kept, a dirty one is let go.
fn rest_task(replicas: &mut Vec<Replica>, task: Task) -> Result<(), AllocError>
    ensures { OnOk result (HaveLeft (task ∷ []) replicas.old.items replicas.new.items) }
{
    match task.rest() {
        Ok(replica) => put_replica(replicas, replica),
        Err(_dirty) => Ok(()),
    }
}

// All tasks rest.
fn rest_tasks(tasks: &mut Vec<Task>, replicas: &mut Vec<Replica>) -> Result<(), AllocError>
    ensures tasks { OnOk result (tasks.new.items ≡ []) }
    ensures replicas { OnOk result (HaveLeft tasks.old.items replicas.old.items
        replicas.new.items) }
{
    while let Some(task) = tasks.pop() {
        rest_task(replicas, task)?;
    }
    Ok(())
}

// All tasks rest where their generation is over.
fn rest_where_over(
    tasks: &mut Vec<Task>,
    replicas: &mut Vec<Replica>,
    is_over: bool,
) -> Result<(), AllocError>
    ensures { OnOk result (HaveRested is_over tasks.old.items replicas.old.items
        tasks.new.items replicas.new.items) }
{
    if !is_over {
        return Ok(());
    }
    rest_tasks(tasks, replicas)
}

// Whether a generation is over for a worker: there is a newer one than its own, or the group doesn't list it any more.
fn is_over(own: u64, generation: u64, listed: bool) -> bool
    ensures { result ≡ is_generation_over own generation listed }
{
    own < generation || !listed
}

// Whether a worker is one of the members.
fn is_listed(members: &[u8], number: u8) -> bool
    ensures { result ≡ has_number number members.now }
{
    for member in members {
        if number == *member {
            return true;
        }
    }
    false
}

/// Asks for the group's status and heeds it: in a generation newer than the worker's own its dirty tasks are dropped, and of each clean
/// one the replica is kept; and the worker is a member where the group lists it. Who isn't listed any more has no task either: its
/// removal began a generation.
///
/// Errors: the gate cut the worker off, or no memory; the worker is then to be crashed.
pub fn heed_status<R: Wait, W: Work, G: Gate>(
    rt: &R,
    alloc: Global,
    shared: &Shared<W>,
    state: &mut WorkerState<W, G>,
) -> Result<Status, Halt>
    requires may { MayCall W.plan shared.now.growing.id state.old.session.client.pass
        state.old.session.client.gate }
    ensures gate { state.new.session.client.gate
        ≡ counts_after state.old.session.client.gate result }
    ensures later { LaterState W.plan state.old state.new }
    ensures made { state.new.session.client.pass.made ≡ state.old.session.client.pass.made }
    ensures last { state.new.session.last ≡ state.old.session.last }
    ensures numbers { state.new.session.numbers ≡ state.old.session.numbers }
    ensures worker { OnOk result (KeepsWorker W.plan state.old state.new) }
    ensures status { IfOk result (λ s. s ≡ status
        (setup_in W.plan state.old.session.client.pass.frame)
        (state_seen W.plan state.new.session.client.pass)) }
    ensures member { IfOk result (λ s. state.new.member
        ≡ record state.old.member { is_member = has_number state.old.member.number s.members }) }
    ensures rested { IfOk result (λ s. HaveRested
        (is_generation_over state.old.member.generation s.generation
        (has_number state.old.member.number s.members))
        state.old.tasks.items state.old.replicas.items
        state.new.tasks.items state.new.replicas.items) }
    ensures newer { IfOk result (λ s. state.old.member.generation < s.generation
        → state.new.tasks.items ≡ []) }
{
    let status = state.session.client.status(rt, alloc, shared)?;
    let listed = is_listed(status.members.as_slice(), state.member.number);
    let is_over = is_over(state.member.generation, status.generation, listed);
    let Ok(()) = rest_where_over(&mut state.tasks, &mut state.replicas, is_over) else {
        drop(status);
        return Err(Halt::OutOfMemory);
    };
    state.member.is_member = listed;
    Ok(status)
}
