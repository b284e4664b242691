//! Requests that aren't refused.
ghost use Rattle.std.specs.Prelude.{◌≡◌, ◌≤◌, true, None, OnOk, IfOk, OnErr};
ghost use Rattle.ks_history.specs.State.{has_task};
ghost use Rattle.ks_history.specs.Reads.{committed_refusal, committed_offsets};
ghost use Rattle.ks_history.specs.declared.journal.Request.TheVariants.{Add, Append, SendOffsets, Decide, Assign};
ghost use Rattle.ks_history.specs.declared.journal.Reply.TheVariants.{Done, Number, Truth};
ghost use Rattle.ks_history.specs.Step.{refusal};
ghost use Rattle.ks_history.specs.History.{Meets, CommitsFaithfully};
ghost use Rattle.ks_cluster.specs.Placed.{IsGoodAt};
ghost use Rattle.ks_cluster.specs.View.{setup_of, state_of, AddsEntry};

use ks_cluster::{Cluster, Work};
use ks_record::{Assignment, PartId, SharedRecords, TaskId};
use std::alloc::{AllocError, Global};

/// Takes a partition into the transaction.
pub fn add<W: Work>(
    alloc: Global,
    cluster: &mut Cluster<W>,
    w: u8,
    epoch: u64,
    part: PartId,
) -> Result<(), AllocError>
    requires meets { Meets (setup_of W.plan cluster.old) (state_of W.plan cluster.old)
        (Add w epoch part) }
    requires free { refusal (setup_of W.plan cluster.old) (state_of W.plan cluster.old)
        (Add w epoch part) ≡ None }
    ensures ok { OnOk result (AddsEntry W.plan cluster.old cluster.new (Add w epoch part) Done) }
    ensures err { OnErr result (cluster.new ≡ cluster.old) }
{
    match cluster.add(alloc, w, epoch, part)? {
        Ok(()) => Ok(()),
        Err(_) => unreachable!(),
    }
}

/// Appends records of a task, and answers the first offset.
pub fn append<W: Work>(
    alloc: Global,
    cluster: &mut Cluster<W>,
    w: u8,
    epoch: u64,
    number: u64,
    task: TaskId,
    part: PartId,
    recs: &SharedRecords,
) -> Result<u64, AllocError>
    requires meets { Meets (setup_of W.plan cluster.old) (state_of W.plan cluster.old)
        (Append w epoch number task part recs.now) }
    requires free { refusal (setup_of W.plan cluster.old) (state_of W.plan cluster.old)
        (Append w epoch number task part recs.now) ≡ None }
    ensures ok { IfOk result (λ n. AddsEntry W.plan cluster.old cluster.new
        (Append w epoch number task part recs.now) (Number n)) }
    ensures err { OnErr result (cluster.new ≡ cluster.old) }
{
    match cluster.append(alloc, w, epoch, number, task, part, recs)? {
        Ok(offset) => Ok(offset),
        Err(_) => unreachable!(),
    }
}

/// Leaves the offsets of a task pending.
pub fn send_offsets<W: Work>(
    alloc: Global,
    cluster: &mut Cluster<W>,
    w: u8,
    epoch: u64,
    generation: u64,
    task: TaskId,
    offsets: &[(u16, u64)],
    order: &[(u16, u64)],
    late: u64,
) -> Result<(), AllocError>
    requires meets { Meets (setup_of W.plan cluster.old) (state_of W.plan cluster.old)
        (SendOffsets w epoch generation task offsets.now order.now late) }
    requires free { refusal (setup_of W.plan cluster.old) (state_of W.plan cluster.old)
        (SendOffsets w epoch generation task offsets.now order.now late) ≡ None }
    ensures ok { OnOk result (AddsEntry W.plan cluster.old cluster.new
        (SendOffsets w epoch generation task offsets.now order.now late) Done) }
    ensures err { OnErr result (cluster.new ≡ cluster.old) }
{
    match cluster.send_offsets(alloc, w, epoch, generation, task, offsets, order, late)? {
        Ok(()) => Ok(()),
        Err(_) => unreachable!(),
    }
}

/// Commits the transaction, which is faithful.
pub fn decide<W: Work>(
    alloc: Global,
    cluster: &mut Cluster<W>,
    w: u8,
    epoch: u64,
) -> Result<(), AllocError>
    requires meets { Meets (setup_of W.plan cluster.old) (state_of W.plan cluster.old)
        (Decide w epoch true) }
    requires faithful { CommitsFaithfully (setup_of W.plan cluster.old)
        (state_of W.plan cluster.old) (Decide w epoch true) }
    requires free { refusal (setup_of W.plan cluster.old) (state_of W.plan cluster.old)
        (Decide w epoch true) ≡ None }
    ensures ok { OnOk result (AddsEntry W.plan cluster.old cluster.new (Decide w epoch true) Done) }
    ensures err { OnErr result (cluster.new ≡ cluster.old) }
{
    match cluster.decide(alloc, w, epoch, true)? {
        Ok(()) => Ok(()),
        Err(_) => unreachable!(),
    }
}

/// Gives the generation an assignment, which is good.
pub fn assign<W: Work>(
    alloc: Global,
    cluster: &mut Cluster<W>,
    w: u8,
    generation: u64,
    a: &Assignment,
) -> Result<bool, AllocError>
    requires meets { Meets (setup_of W.plan cluster.old) (state_of W.plan cluster.old)
        (Assign w generation a.now) }
    requires free { refusal (setup_of W.plan cluster.old) (state_of W.plan cluster.old)
        (Assign w generation a.now) ≡ None }
    requires good { IsGoodAt (W.good cluster.old.work) (setup_of W.plan cluster.old)
        cluster.old.journal generation a.now }
    ensures ok { IfOk result (λ b. AddsEntry W.plan cluster.old cluster.new
        (Assign w generation a.now) (Truth b)) }
    ensures err { OnErr result (cluster.new ≡ cluster.old) }
{
    match cluster.assign(alloc, w, generation, a)? {
        Ok(first) => Ok(first),
        Err(_) => unreachable!(),
    }
}

/// The committed offset of each input of a task, in the order of its inputs.
pub fn committed<W: Work>(
    alloc: Global,
    cluster: &Cluster<W>,
    w: u8,
    generation: u64,
    task: TaskId,
) -> Result<Vec<(u16, u64)>, AllocError>
    requires worker { w ≤ 16 }
    requires task { has_task task (setup_of W.plan cluster.now).tasks ≡ true }
    requires free { committed_refusal (state_of W.plan cluster.now) w generation task ≡ None }
    ensures { IfOk result (λ v. v.items ≡ committed_offsets (setup_of W.plan cluster.now)
        (state_of W.plan cluster.now) task) }
{
    match cluster.committed(alloc, w, generation, task)? {
        Ok(offsets) => Ok(offsets),
        Err(_) => unreachable!(),
    }
}
