//! Tasks are told that their works are committed.
ghost use Rattle.std.specs.Prelude.{OnOk};
ghost use Rattle.std.specs.List.{All};
ghost use Rattle.ks_plan.specs.Drafts.{DraftView};
ghost use Rattle.ks_task.specs.Tasks.{IsTaskOf};
ghost use Rattle.ks_worker_acts.specs.Told.{IsToldTask, AreTold};

use ks_record::{PartId, TaskId};
use ks_task::Task;
use ks_worker_commit::ends_of_task;
use std::alloc::{AllocError, Global};

// Tells a task that its work is committed, where it had one.
fn tell_task(
    alloc: Global,
    task: &mut Task,
    ends: &[(TaskId, PartId, u64)],
) -> Result<(), AllocError>
    ensures { (d : DraftView) → IsTaskOf d task.old
        → OnOk result (IsToldTask d ends.now task.old task.new) }
{
    if task.is_clean() {
        return Ok(());
    }
    let own = ends_of_task(alloc, ends, task.id())?;
    task.committed(own.as_slice())?;
    Ok(())
}

/// Tells each dirty task that its work is committed, and where its records end; the clean ones stay as they are.
pub(crate) fn tell_dirty(
    alloc: Global,
    tasks: &mut Vec<Task>,
    ends: &[(TaskId, PartId, u64)],
) -> Result<(), AllocError>
    ensures { (d : DraftView) → All (IsTaskOf d) tasks.old.items
        → OnOk result (AreTold d ends.now tasks.old.items tasks.new.items) }
{
    for i in 0..tasks.len() {
        tell_task(alloc, &mut tasks[i], ends)?;
    }
    Ok(())
}
