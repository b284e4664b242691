//! The inputs of the tasks, from a cluster's work.
ghost use Rattle.std.specs.Prelude.{◌≡◌, IfOk, map};
ghost use Rattle.ks_group.specs.Committed.{none_committed};
ghost use Rattle.ks_cluster.specs.Moves.{first_rows};

use crate::work::Work;
use ks_group::TaskInputs;
use ks_record::TaskId;
use std::alloc::{AllocError, Global};

/// Each task beside the topics that it reads.
pub fn task_inputs<W: Work>(
    alloc: Global,
    work: &W,
    tasks: &[TaskId],
) -> Result<Vec<TaskInputs>, AllocError>
    ensures tasks { IfOk result (λ made. map (λ t. t.task) made.items ≡ tasks.now) }
    ensures rows { IfOk result (λ made. map (λ t. (t.task, none_committed t.inputs.items))
        made.items ≡ first_rows (W.plan work.now) tasks.now) }
{
    let mut made = Vec::new(alloc);
    for task in tasks {
        let mut inputs = Vec::new(alloc);
        inputs.extend_from_slice(work.inputs(task.sub))?;
        made.push(TaskInputs {
            task: *task,
            inputs,
        })?;
    }
    Ok(made)
}
