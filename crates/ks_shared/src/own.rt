// A worker's own requests: they are made where nobody else used its number.
ghost use Rattle.std.specs.Prelude.{◌≡◌, IfOk, OnErr};
ghost use Rattle.ks_history.specs.declared.journal.Request.TheVariants.{Init, Add, Append, SendOffsets, Decide};
ghost use Rattle.ks_history.specs.declared.journal.Reply.TheVariants.{Done, Number};
ghost use Rattle.ks_history.specs.History.{Meets, CommitsFaithfully};
ghost use Rattle.ks_history.specs.Touched.{touched};
ghost use Rattle.ks_cluster.specs.View.{setup_of, state_of, AddsEntry};
ghost use Rattle.ks_shared.specs.Own.{IsOwn};

use crate::barred::Barred;
use crate::touched::touched_in;
use ks_cluster::{Cluster, Work};
use ks_record::{PartId, SharedRecords, TaskId};
use std::alloc::{AllocError, Global};

pub(crate) fn init_own<W: Work>(
    cluster: &mut Cluster<W>,
    alloc: Global,
    w: u8,
    last: &mut u64,
) -> Result<u64, AllocError>
    requires { Meets (setup_of W.plan cluster.old) (state_of W.plan cluster.old) (Init w) }
    ensures ok { IfOk result (λ n. AddsEntry W.plan cluster.old cluster.new (Init w) (Number n)) }
    ensures last { IfOk result (λ n. last.new ≡ touched w cluster.new.journal) }
    ensures err { OnErr result (cluster.new ≡ cluster.old) }
    ensures last_stays { OnErr result (last.new ≡ last.old) }
{
    let epoch = cluster.init(alloc, w)?;
    *last = touched_in(cluster.journal(), w);
    Ok(epoch)
}

pub(crate) fn add_own<W: Work>(
    cluster: &mut Cluster<W>,
    alloc: Global,
    w: u8,
    epoch: u64,
    part: PartId,
    last: &mut u64,
) -> Result<Result<(), Barred>, AllocError>
    requires { Meets (setup_of W.plan cluster.old) (state_of W.plan cluster.old)
        (Add w epoch part) }
    ensures ok { IfOk result
        (λ r. IsOwn W.plan cluster.old cluster.new w last.old last.new (Add w epoch part)
        (λ u. Done) r) }
    ensures err { OnErr result (cluster.new ≡ cluster.old) }
    ensures last_stays { OnErr result (last.new ≡ last.old) }
{
    let at = touched_in(cluster.journal(), w);
    if at != *last {
        return Ok(Err(Barred::Touched { at }));
    }
    match cluster.add(alloc, w, epoch, part)? {
        Ok(()) => {
            *last = touched_in(cluster.journal(), w);
            Ok(Ok(()))
        }
        Err(refused) => Ok(Err(Barred::Refused(refused))),
    }
}

pub(crate) fn append_own<W: Work>(
    cluster: &mut Cluster<W>,
    alloc: Global,
    w: u8,
    epoch: u64,
    number: u64,
    task: TaskId,
    part: PartId,
    recs: &SharedRecords,
    last: &mut u64,
) -> Result<Result<u64, Barred>, AllocError>
    requires { Meets (setup_of W.plan cluster.old) (state_of W.plan cluster.old)
        (Append w epoch number task part recs.now) }
    ensures ok { IfOk result (λ r. IsOwn W.plan cluster.old cluster.new w last.old last.new
        (Append w epoch number task part recs.now) (λ n. Number n) r) }
    ensures err { OnErr result (cluster.new ≡ cluster.old) }
    ensures last_stays { OnErr result (last.new ≡ last.old) }
{
    let at = touched_in(cluster.journal(), w);
    if at != *last {
        return Ok(Err(Barred::Touched { at }));
    }
    match cluster.append(alloc, w, epoch, number, task, part, recs)? {
        Ok(first) => {
            *last = touched_in(cluster.journal(), w);
            Ok(Ok(first))
        }
        Err(refused) => Ok(Err(Barred::Refused(refused))),
    }
}

pub(crate) fn send_own<W: Work>(
    cluster: &mut Cluster<W>,
    alloc: Global,
    w: u8,
    epoch: u64,
    generation: u64,
    task: TaskId,
    offsets: &[(u16, u64)],
    order: &[(u16, u64)],
    late: u64,
    last: &mut u64,
) -> Result<Result<(), Barred>, AllocError>
    requires { Meets (setup_of W.plan cluster.old) (state_of W.plan cluster.old)
        (SendOffsets w epoch generation task offsets.now order.now late) }
    ensures ok { IfOk result (λ r. IsOwn W.plan cluster.old cluster.new w last.old last.new
        (SendOffsets w epoch generation task offsets.now order.now late) (λ u. Done) r) }
    ensures err { OnErr result (cluster.new ≡ cluster.old) }
    ensures last_stays { OnErr result (last.new ≡ last.old) }
{
    let at = touched_in(cluster.journal(), w);
    if at != *last {
        return Ok(Err(Barred::Touched { at }));
    }
    match cluster.send_offsets(alloc, w, epoch, generation, task, offsets, order, late)? {
        Ok(()) => {
            *last = touched_in(cluster.journal(), w);
            Ok(Ok(()))
        }
        Err(refused) => Ok(Err(Barred::Refused(refused))),
    }
}

pub(crate) fn decide_own<W: Work>(
    cluster: &mut Cluster<W>,
    alloc: Global,
    w: u8,
    epoch: u64,
    commit: bool,
    last: &mut u64,
) -> Result<Result<(), Barred>, AllocError>
    requires meets { Meets (setup_of W.plan cluster.old) (state_of W.plan cluster.old)
        (Decide w epoch commit) }
    requires faithful { touched w cluster.old.journal ≡ last.old
        → CommitsFaithfully (setup_of W.plan cluster.old) (state_of W.plan cluster.old)
        (Decide w epoch commit) }
    ensures ok { IfOk result (λ r. IsOwn W.plan cluster.old cluster.new w last.old last.new
        (Decide w epoch commit) (λ u. Done) r) }
    ensures err { OnErr result (cluster.new ≡ cluster.old) }
    ensures last_stays { OnErr result (last.new ≡ last.old) }
{
    let at = touched_in(cluster.journal(), w);
    if at != *last {
        return Ok(Err(Barred::Touched { at }));
    }
    match cluster.decide(alloc, w, epoch, commit)? {
        Ok(()) => {
            *last = touched_in(cluster.journal(), w);
            Ok(Ok(()))
        }
        Err(refused) => Ok(Err(Barred::Refused(refused))),
    }
}
