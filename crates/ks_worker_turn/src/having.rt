//! Whether a worker has what an assignment places with it.
ghost use Rattle.std.specs.Prelude.{◌≡◌, ◌++◌, true, IsSome};
ghost use Rattle.ks_history.specs.State.{has_task};
ghost use Rattle.ks_worker_state.specs.Names.{task_names, replica_names};
ghost use Rattle.ks_worker_turn.specs.Held.{AreHeld};
ghost use Rattle.ks_worker_turn.specs.Places.{has_place, is_placed};

use ks_record::{Assignment, TaskId};
use ks_standby::Replica;
use ks_task::Task;

// The place of the first of these tasks, from a place on, that isn't before this task; their number where there is none.
fn task_from(tasks: &[Task], from: usize, task: TaskId) -> usize {
    for i in from..tasks.len() {
        if !tasks[i].id().is_before(task) {
            return i;
        }
    }
    tasks.len()
}

// Whether the task at a place is of this task.
fn is_task_at(tasks: &[Task], index: usize, task: TaskId) -> bool
    ensures { result ≡ true → has_task task (task_names tasks.now) ≡ true }
{
    if index >= tasks.len() {
        return false;
    }
    let found = &tasks[index];
    task.is(found.id())
}

// The place of the task that a place of an assignment asks for, where that is the worker's, from a place on; None where it isn't found.
fn find_task(tasks: &[Task], from: usize, number: u8, place: (TaskId, u8)) -> Option<usize>
    ensures { IsSome result → place.1 ≡ number → has_task place.0 (task_names tasks.now) ≡ true }
{
    if place.1 != number {
        return Some(from);
    }
    let index = task_from(tasks, from, place.0);
    if !is_task_at(tasks, index, place.0) {
        return None;
    }
    Some(index)
}

// Whether the worker has a task for each of these places that is its own. Both lists are gone through once, in the order of tasks: where
// one is in another order the answer may be false though it has them all.
fn has_tasks(tasks: &[Task], number: u8, places: &[(TaskId, u8)]) -> bool
    ensures { result ≡ true → AreHeld (λ u. has_place u number places.now) (task_names tasks.now) }
{
    let mut from = 0;
    for i in 0..places.len() {
        let Some(index) = find_task(tasks, from, number, places[i]) else {
            return false;
        };
        from = index;
    }
    true
}

// The place of the first of these replicas, from a place on, that isn't before this task; their number where there is none.
fn replica_from(replicas: &[Replica], from: usize, task: TaskId) -> usize {
    for i in from..replicas.len() {
        if !replicas[i].id().is_before(task) {
            return i;
        }
    }
    replicas.len()
}

// Whether the replica at a place is of this task.
fn is_replica_at(replicas: &[Replica], index: usize, task: TaskId) -> bool
    ensures { result ≡ true → has_task task (replica_names replicas.now) ≡ true }
{
    if index >= replicas.len() {
        return false;
    }
    let found = &replicas[index];
    task.is(found.id())
}

// The place of the replica that a place of an assignment asks for, where that is the worker's, from a place on; None where it isn't found.
fn find_replica(replicas: &[Replica], from: usize, number: u8, place: (TaskId, u8)) -> Option<usize>
    ensures { IsSome result → place.1 ≡ number → has_task place.0 (replica_names replicas.now)
        ≡ true }
{
    if place.1 != number {
        return Some(from);
    }
    let index = replica_from(replicas, from, place.0);
    if !is_replica_at(replicas, index, place.0) {
        return None;
    }
    Some(index)
}

// Whether the worker has a replica for each of these places that is its own. Both lists are gone through once, in the order of tasks: where
// one is in another order the answer may be false though it has them all.
fn has_replicas(replicas: &[Replica], number: u8, places: &[(TaskId, u8)]) -> bool
    ensures { result ≡ true → AreHeld (λ u. has_place u number places.now)
        (replica_names replicas.now) }
{
    let mut from = 0;
    for i in 0..places.len() {
        let Some(index) = find_replica(replicas, from, number, places[i]) else {
            return false;
        };
        from = index;
    }
    true
}

/// Whether a worker has all that an assignment places with it: of each task that is active there the task, of each standby and warmup the
/// replica. It may be false though all is there, where places or names are out of order; so what is missing is to be looked for then.
/// Takes no memory.
pub fn has_places(assignment: &Assignment, number: u8, tasks: &[Task], replicas: &[Replica]) -> bool
    ensures all { result ≡ true → AreHeld (is_placed assignment.now number)
        (task_names tasks.now ++ replica_names replicas.now) }
    ensures active { result ≡ true → AreHeld (λ u. has_place u number assignment.now.active)
        (task_names tasks.now) }
{
    if !has_tasks(tasks, number, assignment.active.as_slice()) {
        return false;
    }
    if !has_replicas(replicas, number, assignment.standby.as_slice()) {
        return false;
    }
    has_replicas(replicas, number, assignment.warmup.as_slice())
}
