//! Tasks are told what became of their work.
ghost use Rattle.std.specs.Prelude.{◌≡◌, OnOk, option_map};
ghost use Rattle.std.specs.List.{All};
ghost use Rattle.ks_topo.specs.Topologies.{draft_of};
ghost use Rattle.ks_task.specs.Tasks.{IsTaskOf};
ghost use Rattle.ks_settle.specs.Drained.{ends_for, IsToldTask, AreToldBy};

use ks_record::{Seq, TaskId};
use ks_task::Task;
use ks_topo::Topology;
use std::alloc::AllocError;

// The ends that were answered to a task's work, where these tasks had works.
fn ends_of<'a>(
    worked: &[TaskId],
    ends: &'a [Seq<(u16, u64)>],
    task: TaskId,
) -> Option<&'a [(u16, u64)]>
    ensures { option_map (λ e. e.now) result ≡ ends_for task worked.now ends.now }
{
    let mut rest = worked;
    let mut left = ends;
    while let [name, more @ ..] = rest {
        let [first, others @ ..] = left else {
            return None;
        };
        if task.is(*name) {
            return Some(first.as_slice());
        }
        rest = more;
        left = others;
    }
    None
}

fn tell_task(
    topology: &Topology,
    task: &mut Task,
    worked: &[TaskId],
    ends: &[Seq<(u16, u64)>],
) -> Result<(), AllocError>
    requires { IsTaskOf (draft_of topology.now) task.old }
    ensures { OnOk result (IsToldTask (draft_of topology.now) worked.now ends.now task.old
        task.new) }
{
    if let Some(own) = ends_of(worked, ends, task.id()) {
        task.committed(own)?;
    }
    Ok(())
}

/// Each of the tasks that had work is told the ends of its changelogs; the others stay as they are. After want of memory the tasks are to
/// be dropped.
pub fn tell(
    topology: &Topology,
    tasks: &mut Vec<Task>,
    worked: &[TaskId],
    ends: &[Seq<(u16, u64)>],
) -> Result<(), AllocError>
    requires { All (IsTaskOf (draft_of topology.now)) tasks.old.items }
    ensures { OnOk result (AreToldBy (draft_of topology.now) worked.now ends.now
        tasks.old.items tasks.new.items) }
{
    for i in 0..tasks.len() {
        tell_task(topology, &mut tasks[i], worked, ends)?;
    }
    Ok(())
}
