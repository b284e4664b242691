//! A worker that publishes.
ghost use Rattle.std.specs.Prelude.{◌≡◌, ℕ, ◌≤◌, true, IfOk, OnErr};
ghost use Rattle.ks_history.specs.Machine.{IsNetwork};
ghost use Rattle.ks_history.specs.State.{are_once, has_task, insert_number};
ghost use Rattle.ks_history.specs.Reads.{committed_offsets};
ghost use Rattle.ks_cluster.specs.View.{setup_of, state_of};
ghost use Rattle.ks_commit.specs.Alone.{IsIdle};
ghost use Rattle.ks_commit.specs.Committed.{IsReady, Started};
ghost use Rattle.ks_commit.specs.Sending.{Longer};
ghost use Rattle.ks_commit.specs.Everything.{everything, IsGoodForAll};

use crate::accepted::{assign, committed};
use ks_cluster::{Cluster, Work};
use ks_record::{Assignment, PartId, Seq, TaskId};
use std::alloc::{AllocError, Global};

/// A worker that publishes: its epoch, its generation, and how many records of its epoch it has put into each partition.
#[derive(Drop)]
pub struct Publisher {
    pub(crate) worker: u8,
    pub(crate) epoch: u64,
    pub(crate) generation: u64,
    pub(crate) numbers: Vec<(PartId, u64)>,
}

/// All tasks active at one worker.
fn all_active(alloc: Global, worker: u8, tasks: &[TaskId]) -> Result<Assignment, AllocError>
    ensures { IfOk result (λ a. a ≡ everything worker tasks.now) }
{
    let mut active = Vec::new(alloc);
    for task in tasks {
        active.push((*task, worker))?;
    }
    Ok(Assignment {
        active: Seq::of(active),
        standby: Seq::new(alloc),
        warmup: Seq::new(alloc),
    })
}

impl Publisher {
    /// A worker begins an epoch, joins the group and is given every task, which is good for the members that there are then, at a
    /// cluster between two transactions.
    pub fn start<W: Work>(
        alloc: Global,
        cluster: &mut Cluster<W>,
        worker: u8,
        tasks: &[TaskId],
    ) -> Result<Publisher, AllocError>
        requires worker { worker ≤ 16 }
        requires network { IsNetwork (W.plan cluster.old.work) }
        requires idle { IsIdle (state_of W.plan cluster.old) }
        requires tasks { tasks.now ≡ cluster.old.tasks }
        requires once { are_once cluster.old.tasks ≡ true }
        requires good { IsGoodForAll (W.good cluster.old.work)
            (insert_number worker (state_of W.plan cluster.old).members)
            (everything worker cluster.old.tasks) }
        ensures ready { IfOk result (λ p. IsReady (setup_of W.plan cluster.new)
            (state_of W.plan cluster.new) p) }
        ensures worker { IfOk result (λ p. p.worker ≡ worker) }
        ensures started { IfOk result (λ p. Started W.plan cluster.old cluster.new worker) }
        ensures err { OnErr result (Longer worker 0 cluster.old cluster.new) }
    {
        cluster.is_history();
        let epoch = cluster.init(alloc, worker)?;
        let generation = cluster.join(alloc, worker)?;
        let all = all_active(alloc, worker, tasks)?;
        assign(alloc, cluster, worker, generation, &all)?;
        Ok(Publisher {
            worker,
            epoch,
            generation,
            numbers: Vec::new(alloc),
        })
    }

    /// The committed offset of each input of a task, in the order of its inputs, as the worker that has every task is told them.
    pub fn committed<W: Work>(
        &self,
        alloc: Global,
        cluster: &Cluster<W>,
        task: TaskId,
    ) -> Result<Vec<(u16, u64)>, AllocError>
        requires ready { IsReady (setup_of W.plan cluster.now) (state_of W.plan cluster.now)
            self.now }
        requires task { has_task task cluster.now.tasks ≡ true }
        ensures { IfOk result (λ v. v.items ≡ committed_offsets (setup_of W.plan cluster.now)
            (state_of W.plan cluster.now) task) }
    {
        committed(alloc, cluster, self.worker, self.generation, task)
    }
}
