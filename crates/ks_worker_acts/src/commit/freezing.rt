//! The works of a worker's tasks.
ghost use Rattle.std.specs.Prelude.{ℕ, List, [], ◌∷◌, ◌++◌, IfOk, OnOk};
ghost use Rattle.std.specs.List.{All};
ghost use Rattle.ks_plan.specs.Drafts.{DraftView};
ghost use Rattle.ks_plan.specs.Plan.{plan_of};
ghost use Rattle.ks_law_topology.specs.Work.{work_of};
ghost use Rattle.ks_commit.specs.Committed.{works_of};
ghost use Rattle.ks_def_tasks.specs.Rules.{rules_of};
ghost use Rattle.ks_task.specs.Tasks.{IsTaskOf};
ghost use Rattle.ks_task.specs.declared.task.Task.{Task};
ghost use Rattle.ks_worker_acts.specs.Works.{AreWorksOf};

use ks_commit::Frozen;
use ks_task::Task;
use std::alloc::{AllocError, Global};

// Adds a task's work to those of the tasks before it, where it is dirty.
fn freeze_task(alloc: Global, works: &mut Vec<Frozen>, task: &Task) -> Result<(), AllocError>
    ensures { (d : DraftView) (hash : List ℕ → ℕ) (ts : List Task) → IsTaskOf d task.now
        → AreWorksOf (work_of (rules_of hash) (plan_of d)) ts (works_of works.old.items)
        → OnOk result
        (AreWorksOf (work_of (rules_of hash) (plan_of d)) (ts ++ task.now ∷ [])
        (works_of works.new.items)) }
{
    if task.is_clean() {
        return Ok(());
    }
    let work = task.freeze(alloc)?;
    works.push(work)?;
    Ok(())
}

/// The works of the dirty ones among these tasks, in their order.
pub(crate) fn freeze_dirty(alloc: Global, tasks: &[Task]) -> Result<Vec<Frozen>, AllocError>
    ensures { (d : DraftView) (hash : List ℕ → ℕ) → All (IsTaskOf d) tasks.now → IfOk result
        (λ works. AreWorksOf (work_of (rules_of hash) (plan_of d)) tasks.now
        (works_of works.items)) }
{
    let mut works = Vec::new(alloc);
    for i in 0..tasks.len() {
        freeze_task(alloc, &mut works, &tasks[i])?;
    }
    Ok(works)
}
