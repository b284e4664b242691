//! A commit that is accepted, judged by each task; and the tasks at rest behind one that was made.
ghost use Rattle.std.specs.Prelude.{◌≡◌, ◌++◌, ◌∷◌, [], ℕ, List, IfOk, OnOk};
ghost use Rattle.ks_topo.specs.Topologies.{draft_of};
ghost use Rattle.ks_plan.specs.Drafts.{DraftView};
ghost use Rattle.ks_history.specs.declared.journal.Entry.{Entry};
ghost use Rattle.ks_history.specs.State.{Setup};
ghost use Rattle.ks_law_audit.specs.Laws.{commit_of};
ghost use Rattle.ks_cluster.specs.View.{setup_of};
ghost use Rattle.ks_def_tasks.specs.Rules.{rules_of};
ghost use Rattle.ks_audit_commit.specs.Judging.{IsAudited, name_of};
ghost use Rattle.ks_audit.specs.Playing.{MayJudge, AreOwn, HasOpen, AreAudited, AreJudged, IsJudged, IsMade, JudgesTask, JudgesAll, names_in};

use ks_audit_commit::AuditedTask;
use ks_audit_ledger::{Open, is_named, pending_for};
use ks_cluster::{Cluster, Work};
use ks_record::TaskId;
use ks_task_processing::Processing;
use ks_topo::Topology;
use std::alloc::{AllocError, Global};

// Whether a commit is faithful for a task: no append names one for which nothing is pending.
fn judge_task<H: Processing, W: Work>(
    alloc: Global,
    topology: &Topology,
    cluster: &Cluster<W>,
    task: &mut AuditedTask,
    open: &Open,
) -> Result<bool, AllocError>
    requires may { MayJudge W.plan (rules_of H.hash_of) (draft_of topology.now) cluster.now }
    requires own { AreOwn open.now }
    requires audited { IsAudited (draft_of topology.now) (setup_of W.plan cluster.now)
        cluster.now.journal task.old }
    ensures { IfOk result (λ b. (w : ℕ)
        → HasOpen (setup_of W.plan cluster.now) cluster.now.journal w open.now
        → JudgesTask (draft_of topology.now) (setup_of W.plan cluster.now) cluster.now.journal w b
        task.old task.new) }
{
    let id = task.id();
    match pending_for(open, id) {
        Some(pending) => task.judge::<H, W>(alloc, topology, cluster, open, pending),
        None => Ok(!is_named(open, id)),
    }
}

/// The first task, in order of tasks, for which a commit isn't faithful, of which an account has these open; none where it is faithful for
/// each, and then each has taken what is pending for it. Want of memory is the one error; after it, and where one is found, the tasks are
/// to be dropped.
pub fn judge_tasks<H: Processing, W: Work>(
    alloc: Global,
    topology: &Topology,
    cluster: &Cluster<W>,
    tasks: &mut Vec<AuditedTask>,
    open: &Open,
) -> Result<Option<TaskId>, AllocError>
    requires may { MayJudge W.plan (rules_of H.hash_of) (draft_of topology.now) cluster.now }
    requires own { AreOwn open.now }
    requires names { names_in tasks.old.items ≡ cluster.now.tasks }
    requires audited { AreAudited (draft_of topology.now) (setup_of W.plan cluster.now)
        cluster.now.journal tasks.old.items }
    ensures { IfOk result (λ found. (w : ℕ)
        → HasOpen (setup_of W.plan cluster.now) cluster.now.journal w open.now
        → JudgesAll (draft_of topology.now) (setup_of W.plan cluster.now) cluster.now.journal w
        found tasks.new.items) }
{
    let count = tasks.len();
    for place in 0..count {
        let task = &mut tasks[place];
        let id = task.id();
        if !judge_task::<H, W>(alloc, topology, cluster, task, open)? {
            return Ok(Some(id));
        }
    }
    Ok(None)
}

// A task is at rest behind a commit.
fn rest_task(task: &mut AuditedTask, open: &Open) -> Result<(), AllocError>
    ensures { OnOk result ((d : DraftView) (setup : Setup) (journal : List Entry) (w epoch : ℕ)
        → IsMade setup journal w epoch → HasOpen setup journal w open.now
        → IsJudged d setup journal w task.old
        → IsAudited d setup (journal ++ commit_of w epoch ∷ []) task.new
        × (name_of task.new ≡ name_of task.old)) }
{
    match pending_for(open, task.id()) {
        Some(_) => {
            task.rest(open)?;
            Ok(())
        }
        None => Ok(()),
    }
}

/// The tasks are at rest behind a commit that was made, of which an account had these open. Want of memory is the one error; after it they
/// are to be dropped.
pub fn rest_tasks(tasks: &mut Vec<AuditedTask>, open: &Open) -> Result<(), AllocError>
    ensures { OnOk result ((d : DraftView) (setup : Setup) (journal : List Entry) (w epoch : ℕ)
        → IsMade setup journal w epoch → HasOpen setup journal w open.now
        → (names_in tasks.old.items ≡ setup.tasks)
        → AreJudged d setup journal w tasks.old.items
        → (names_in tasks.new.items ≡ setup.tasks)
        × AreAudited d setup (journal ++ commit_of w epoch ∷ []) tasks.new.items) }
{
    for place in 0..tasks.len() {
        rest_task(&mut tasks[place], open)?;
    }
    Ok(())
}
