//! Tasks and replicas in the order of their names.
ghost use Rattle.std.specs.Prelude.{◌≡◌, ◌≤◌, false, length, OnOk, IfSome, IsNone};
ghost use Rattle.ks_history.specs.State.{has_task};
ghost use Rattle.ks_worker_state.specs.Names.{task_names, replica_names};
ghost use Rattle.ks_worker_turn.specs.Lists.{HasPut, HasTaken};

use ks_record::TaskId;
use ks_standby::Replica;
use ks_task::Task;
use std::alloc::AllocError;

// The place before the first replica of a later task.
fn place_of_replica(replicas: &[Replica], task: TaskId) -> usize
    ensures { result ≤ length replicas.now }
{
    for i in 0..replicas.len() {
        if task.is_before(replicas[i].id()) {
            return i;
        }
    }
    replicas.len()
}

// The place before the first later task.
fn place_of_task(tasks: &[Task], task: TaskId) -> usize
    ensures { result ≤ length tasks.now }
{
    for i in 0..tasks.len() {
        if task.is_before(tasks[i].id()) {
            return i;
        }
    }
    tasks.len()
}

/// Puts a replica before the first one of a later task. After want of memory it is let go.
pub fn put_replica(replicas: &mut Vec<Replica>, replica: Replica) -> Result<(), AllocError>
    ensures { OnOk result (HasPut replicas.old.items replica replicas.new.items) }
{
    let place = place_of_replica(replicas, replica.id());
    match replicas.insert(place, replica) {
        Ok(()) => Ok(()),
        Err(_failed) => Err(AllocError),
    }
}

/// Puts a task before the first later one. After want of memory it is let go.
pub fn put_task(tasks: &mut Vec<Task>, task: Task) -> Result<(), AllocError>
    ensures { OnOk result (HasPut tasks.old.items task tasks.new.items) }
{
    let place = place_of_task(tasks, task.id());
    match tasks.insert(place, task) {
        Ok(()) => Ok(()),
        Err(_failed) => Err(AllocError),
    }
}

/// Takes the first replica of a task; None, and nothing is taken, where there is none. Takes no memory.
pub fn take_replica(replicas: &mut Vec<Replica>, task: TaskId) -> Option<Replica>
    ensures taken { IfSome result (λ r. HasTaken replicas.old.items r replicas.new.items) }
    ensures named { IfSome result (λ r. r.id ≡ task) }
    ensures none { IsNone result → replicas.new.items ≡ replicas.old.items }
    ensures absent { IsNone result → has_task task (replica_names replicas.old.items) ≡ false }
{
    for i in 0..replicas.len() {
        if task.is(replicas[i].id()) {
            return Some(replicas.remove(i));
        }
    }
    None
}

/// Whether one of the tasks has this name. Takes no memory.
pub fn has_task_of(tasks: &[Task], task: TaskId) -> bool
    ensures { result ≡ has_task task (task_names tasks.now) }
{
    for other in tasks {
        if task.is(other.id()) {
            return true;
        }
    }
    false
}
