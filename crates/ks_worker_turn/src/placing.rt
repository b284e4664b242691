//! What an assignment says of a task and a worker.
ghost use Rattle.std.specs.Prelude.{◌≡◌};
ghost use Rattle.ks_worker_turn.specs.Places.{has_place, is_placed};

use ks_record::{Assignment, TaskId};

/// Whether one of these places is the task's at the worker. Takes no memory.
pub fn has_place(task: TaskId, number: u8, places: &[(TaskId, u8)]) -> bool
    ensures { result ≡ has_place task number places.now }
{
    for place in places {
        if task.is(place.0) && place.1 == number {
            return true;
        }
    }
    false
}

/// Whether a task is placed with a worker, as an active one, a standby or a warmup. Takes no memory.
pub fn is_placed(assignment: &Assignment, number: u8, task: TaskId) -> bool
    ensures { result ≡ is_placed assignment.now number task }
{
    has_place(task, number, assignment.active.as_slice())
        || has_place(task, number, assignment.standby.as_slice())
        || has_place(task, number, assignment.warmup.as_slice())
}
