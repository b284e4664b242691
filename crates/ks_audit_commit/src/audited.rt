//! A task between two of its commits, as an audit keeps it.
ghost use Rattle.std.specs.Prelude.{◌≡◌, ◌&&◌, ℕ, true, Some, List, [], ◌∷◌, ◌++◌, IfOk, OnOk, map};
ghost use Rattle.ks_topo.specs.Topologies.{draft_of, plan_in};
ghost use Rattle.ks_plan.specs.Drafts.{DraftView};
ghost use Rattle.ks_plan.specs.Plan.{plan_of};
ghost use Rattle.ks_plan.specs.Layout.{tasks};
ghost use Rattle.ks_history.specs.State.{IsSetup, Setup, has_task};
ghost use Rattle.ks_history.specs.declared.journal.Entry.{Entry};
ghost use Rattle.ks_history.specs.declared.transaction.Pending.{Pending as PendingOffsets};
ghost use Rattle.ks_law_restore.specs.Views.{are_topics_once};
ghost use Rattle.ks_law_audit.specs.Laws.{commit_of};
ghost use Rattle.ks_law_topology.specs.Work.{work_of, setup_of as topology_setup};
ghost use Rattle.ks_cluster.specs.View.{setup_of};
ghost use Rattle.ks_def_tasks.specs.Rules.{HaveParts, rules_of};
ghost use Rattle.ks_audit_ledger.specs.declared.account.Account.{Account};
ghost use Rattle.ks_task.specs.Tasks.{task_view, IsTaskOf};
ghost use Rattle.ks_audit_commit.specs.Judging.{IsAudited, IsResting, IsCommit, TakesPending, FrozenAs, Judges, MayRest, name_of};

use crate::comparing::are_made;
use crate::ends::{is_behind, move_ends};
use crate::ordering::{may_go_on, pass_all, take_order};
use ks_audit_ledger::{Open, Sent};
use ks_cluster::{Cluster, Work};
use ks_history::Pending;
use ks_record::{PartId, TaskId};
use ks_standby::Replica;
use ks_task::Task;
use ks_task_processing::Processing;
use ks_topo::Topology;
use std::alloc::{AllocError, Global};

/// A task that has taken nothing since its last commit, and in each partition to which it has sent one past its last decided record.
#[derive(Drop)]
pub struct AuditedTask {
    task: Task,
    ends: Vec<(PartId, u64)>,
}

// Offset 0 of each input.
fn first_offsets(alloc: Global, inputs: &[u16]) -> Result<Vec<(u16, u64)>, AllocError>
    ensures { IfOk result (λ v. v.items ≡ map (λ n. (n, 0)) inputs.now) }
{
    let mut offsets = Vec::new(alloc);
    for input in inputs {
        offsets.push((*input, 0))?;
    }
    Ok(offsets)
}

// A task at rest takes what is pending; false where that can't be done. Want of memory is the one error; after it, and where it is false,
// the task is to be dropped.
fn take_pending<H: Processing, W: Work>(
    alloc: Global,
    topology: &Topology,
    cluster: &Cluster<W>,
    task: &mut Task,
    pending: &Pending,
) -> Result<bool, AllocError>
    requires work { W.plan cluster.now.work ≡ work_of (rules_of H.hash_of) (plan_in topology.now) }
    requires made { IsSetup (setup_of W.plan cluster.now) }
    requires resting { IsResting (draft_of topology.now) (setup_of W.plan cluster.now)
        cluster.now.journal pending.now task.old }
    ensures { IfOk result (λ done. TakesPending (draft_of topology.now)
        (setup_of W.plan cluster.now) cluster.now.journal pending.now done task.new) }
{
    // The journal is a history: a task at rest follows it.
    cluster.is_history();
    let inputs = topology.inputs(pending.task.sub);
    if !may_go_on(task, inputs, pending.offsets.as_slice()) {
        return Ok(false);
    }
    if !take_order::<H, W>(alloc, topology, cluster, task, pending)? {
        return Ok(false);
    }
    pass_all::<H, W>(alloc, topology, cluster, task, inputs, pending)
}

fn both(a: bool, b: bool) -> bool
    ensures { result ≡ (a && b) }
{
    a && b
}

// Whether what a task made is what was sent for it, and so many records were late.
fn has_made(alloc: Global, task: &Task, late: u64, sent: &[Sent]) -> Result<bool, AllocError>
    ensures { (d : DraftView) (hash : List ℕ → ℕ) → IsTaskOf d task.now
        → IfOk result (FrozenAs (work_of (rules_of hash) (plan_of d)) (task_view task.now) late
        sent.now) }
{
    let frozen = task.freeze(alloc)?;
    let is_late = late == frozen.late;
    let is_made = are_made(task.id(), frozen.outputs.as_slice(), sent);
    Ok(both(is_late, is_made))
}

impl AuditedTask {
    /// A task of an empty cluster of this topology. Want of memory is the one error.
    pub fn new(alloc: Global, topology: &Topology, task: TaskId) -> Result<AuditedTask, AllocError>
        requires parts { HaveParts (plan_in topology.now) }
        requires there { has_task task (tasks (plan_in topology.now)) ≡ true }
        ensures audited { IfOk result (λ t. (hash : List ℕ → ℕ)
            → IsAudited (draft_of topology.now) (topology_setup (rules_of hash)
            (plan_in topology.now)) [] t) }
        ensures name { IfOk result (λ t. name_of t ≡ task) }
    {
        // A topology is well-formed.
        let _nodes = topology.nodes();
        let replica = Replica::new(alloc, task, topology.changelogs(task.sub), topology.seed())?;
        let offsets = first_offsets(alloc, topology.inputs(task.sub))?;
        // An audit's stores hold nothing back.
        match Task::of(alloc, topology, replica, offsets.as_slice(), 0) {
            Ok(task) => Ok(AuditedTask {
                task,
                ends: Vec::new(alloc),
            }),
            Err(_) => Err(AllocError),
        }
    }

    /// Its name. Takes no memory.
    pub fn id(&self) -> TaskId
        ensures { result ≡ name_of self.now }
    {
        self.task.id()
    }

    /// Whether a commit is faithful for this task, which has these offsets pending in it: the task takes what they name. Want of memory is
    /// the one error; after it, and where the commit isn't faithful, the task is to be dropped.
    pub fn judge<H: Processing, W: Work>(
        &mut self,
        alloc: Global,
        topology: &Topology,
        cluster: &Cluster<W>,
        open: &Open,
        pending: &Pending,
    ) -> Result<bool, AllocError>
        requires work { W.plan cluster.now.work ≡ work_of (rules_of H.hash_of)
            (plan_in topology.now) }
        requires made { IsSetup (setup_of W.plan cluster.now) }
        requires once { are_topics_once ((setup_of W.plan cluster.now).plan.inputs
            pending.now.task.sub) ≡ true }
        requires audited { IsAudited (draft_of topology.now) (setup_of W.plan cluster.now)
            cluster.now.journal self.old }
        requires task { pending.now.task ≡ name_of self.old }
        ensures { IfOk result (λ b. (w : ℕ) (a : Account) → a.undecided ≡ Some open.now
            → IsCommit (setup_of W.plan cluster.now) cluster.now.journal w a pending.now
            → Judges (draft_of topology.now) (setup_of W.plan cluster.now) cluster.now.journal w
            pending.now b self.old self.new) }
    {
        cluster.is_history();
        let sent = open.sent.as_slice();
        if !is_behind(self.task.id(), self.ends.as_slice(), sent) {
            return Ok(false);
        }
        if !take_pending::<H, W>(alloc, topology, cluster, &mut self.task, pending)? {
            return Ok(false);
        }
        has_made(alloc, &self.task, pending.late, sent)
    }

    /// The commit was made: the task rests at the state behind it. Want of memory is the one error; after it the task is to be dropped.
    pub fn rest(&mut self, open: &Open) -> Result<(), AllocError>
        ensures name { OnOk result ((d : DraftView) → IsTaskOf d self.old.task
            → name_of self.new ≡ name_of self.old) }
        ensures rests { OnOk result ((d : DraftView) (setup : Setup) (journal : List Entry)
            (w epoch : ℕ)
            (p : PendingOffsets) → MayRest d setup journal w epoch open.now p self.old
            → IsAudited d setup (journal ++ commit_of w epoch ∷ []) self.new) }
    {
        move_ends(&mut self.ends, self.task.id(), open.sent.as_slice())?;
        self.task.committed(&[])?;
        Ok(())
    }
}
