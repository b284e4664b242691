//! Where the records of one task end.
ghost use Rattle.std.specs.Prelude.{◌≡◌, ◌&&◌, ◌==◌, IfOk};
ghost use Rattle.ks_record.specs.Parts.{same_task};
ghost use Rattle.ks_worker_commit.specs.Leaves.{ends_for};

use ks_record::{PartId, TaskId};
use std::alloc::{AllocError, Global};

// Whether an end is of a task, in a partition of its own number.
fn is_own_end(task: TaskId, end: (TaskId, PartId, u64)) -> bool
    ensures { result ≡ same_task task end.0 && end.1.part == task.part }
{
    task.is(end.0) && end.1.part == task.part
}

/// The ends of a task's records in its own partitions of topics, each topic with its end, out of those that a session has taken down
/// (`Session::ends`): what its task is told after a commit. Of two ends of one topic the later stands first.
pub fn ends_of_task(
    alloc: Global,
    ends: &[(TaskId, PartId, u64)],
    task: TaskId,
) -> Result<Vec<(u16, u64)>, AllocError>
    ensures { IfOk result (λ own. own.items ≡ ends_for task ends.now) }
{
    let mut own = Vec::new(alloc);
    let mut left = ends.len();
    while left > 0 {
        left -= 1;
        let end = ends[left];
        if is_own_end(task, end) {
            own.push((end.1.topic, end.2))?;
        }
    }
    Ok(own)
}
