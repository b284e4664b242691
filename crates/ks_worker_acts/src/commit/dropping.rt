//! Dirty tasks are dropped.
ghost use Rattle.std.specs.Prelude.{OnOk};
ghost use Rattle.ks_worker_acts.specs.Works.{AreCleanOf};

use ks_task::Task;
use std::alloc::{AllocError, Global};
use std::mem;

/// Drops the dirty tasks; the others stay as they are, in their order.
pub(crate) fn drop_dirty(alloc: Global, tasks: &mut Vec<Task>) -> Result<(), AllocError>
    ensures { OnOk result (AreCleanOf tasks.old.items tasks.new.items) }
{
    let all = mem::replace(tasks, Vec::new(alloc));
    for task in all {
        if task.is_clean() {
            tasks.push(task)?;
        }
    }
    Ok(())
}
