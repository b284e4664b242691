//! An entry tried on a cluster: its request is made, and its reply compared with the one that is answered.
ghost use Rattle.std.specs.Prelude.{◌≡◌, IfOk};
ghost use Rattle.ks_history.specs.declared.journal.Request.TheVariants.{Produce, Init, Add, Append, SendOffsets, Decide, MarkNext, Join, Expire, Hold, Probe, Assign, Park, Unpark};
ghost use Rattle.ks_history.specs.History.{Meets, CommitsFaithfully};
ghost use Rattle.ks_cluster.specs.View.{setup_of, state_of};
ghost use Rattle.ks_audit_entry.specs.Outcomes.{FindsAllGood, Replayed};

use crate::replies::{
    is_done, is_done_or, is_mark, is_number, is_number_or, is_truth, is_truth_or,
};
use ks_cluster::{Cluster, Work};
use ks_history::{Entry, Reply, Request};
use ks_record::{Assignment, PartId, Rec, SharedRecords, TaskId};
use std::alloc::{AllocError, Global};

#[tactic(auto, using(crate::proofs::Replays::replayed_by))]
fn replay_produce<W: Work>(
    alloc: Global,
    cluster: &mut Cluster<W>,
    part: PartId,
    rec: &Rec,
    reply: &Reply,
) -> Result<bool, AllocError>
    requires meets { Meets (setup_of W.plan cluster.old) (state_of W.plan cluster.old)
        (Produce part rec.now) }
    ensures { IfOk result (λ b. Replayed W.plan cluster.old cluster.new
        (record { request = Produce part rec.now; reply = reply.now }) b) }
{
    let answer = cluster.produce(alloc, part, rec)?;
    Ok(is_number(reply, answer))
}

#[tactic(auto, using(crate::proofs::Replays::replayed_by))]
fn replay_init<W: Work>(
    alloc: Global,
    cluster: &mut Cluster<W>,
    w: u8,
    reply: &Reply,
) -> Result<bool, AllocError>
    requires meets { Meets (setup_of W.plan cluster.old) (state_of W.plan cluster.old) (Init w) }
    ensures { IfOk result (λ b. Replayed W.plan cluster.old cluster.new
        (record { request = Init w; reply = reply.now }) b) }
{
    let answer = cluster.init(alloc, w)?;
    Ok(is_number(reply, answer))
}

#[tactic(auto, using(crate::proofs::Replays::replayed_by))]
fn replay_add<W: Work>(
    alloc: Global,
    cluster: &mut Cluster<W>,
    w: u8,
    epoch: u64,
    part: PartId,
    reply: &Reply,
) -> Result<bool, AllocError>
    requires meets { Meets (setup_of W.plan cluster.old) (state_of W.plan cluster.old)
        (Add w epoch part) }
    ensures { IfOk result (λ b. Replayed W.plan cluster.old cluster.new
        (record { request = Add w epoch part; reply = reply.now }) b) }
{
    let answer = cluster.add(alloc, w, epoch, part)?;
    Ok(is_done_or(reply, answer))
}

#[tactic(auto, using(crate::proofs::Replays::replayed_by))]
fn replay_append<W: Work>(
    alloc: Global,
    cluster: &mut Cluster<W>,
    w: u8,
    epoch: u64,
    number: u64,
    task: TaskId,
    part: PartId,
    recs: &SharedRecords,
    reply: &Reply,
) -> Result<bool, AllocError>
    requires meets { Meets (setup_of W.plan cluster.old) (state_of W.plan cluster.old)
        (Append w epoch number task part recs.now) }
    ensures { IfOk result (λ b. Replayed W.plan cluster.old cluster.new
        (record { request = Append w epoch number task part recs.now; reply = reply.now }) b) }
{
    let answer = cluster.append(alloc, w, epoch, number, task, part, recs)?;
    Ok(is_number_or(reply, answer))
}

#[tactic(auto, using(crate::proofs::Replays::replayed_by))]
fn replay_send_offsets<W: Work>(
    alloc: Global,
    cluster: &mut Cluster<W>,
    w: u8,
    epoch: u64,
    generation: u64,
    task: TaskId,
    offsets: &[(u16, u64)],
    order: &[(u16, u64)],
    late: u64,
    reply: &Reply,
) -> Result<bool, AllocError>
    requires meets { Meets (setup_of W.plan cluster.old) (state_of W.plan cluster.old)
        (SendOffsets w epoch generation task offsets.now order.now late) }
    ensures { IfOk result (λ b. Replayed W.plan cluster.old cluster.new
        (record {
          request = SendOffsets w epoch generation task offsets.now order.now late;
          reply = reply.now;
        }) b) }
{
    let answer = cluster.send_offsets(alloc, w, epoch, generation, task, offsets, order, late)?;
    Ok(is_done_or(reply, answer))
}

#[tactic(auto, using(crate::proofs::Replays::replayed_by))]
fn replay_decide<W: Work>(
    alloc: Global,
    cluster: &mut Cluster<W>,
    w: u8,
    epoch: u64,
    commit: bool,
    reply: &Reply,
) -> Result<bool, AllocError>
    requires meets { Meets (setup_of W.plan cluster.old) (state_of W.plan cluster.old)
        (Decide w epoch commit) }
    requires faithful { CommitsFaithfully (setup_of W.plan cluster.old)
        (state_of W.plan cluster.old) (Decide w epoch commit) }
    ensures { IfOk result (λ b. Replayed W.plan cluster.old cluster.new
        (record { request = Decide w epoch commit; reply = reply.now }) b) }
{
    let answer = cluster.decide(alloc, w, epoch, commit)?;
    Ok(is_done_or(reply, answer))
}

#[tactic(auto, using(crate::proofs::Replays::replayed_by))]
fn replay_mark_next<W: Work>(
    alloc: Global,
    cluster: &mut Cluster<W>,
    w: u8,
    reply: &Reply,
) -> Result<bool, AllocError>
    requires meets { Meets (setup_of W.plan cluster.old) (state_of W.plan cluster.old)
        (MarkNext w) }
    ensures { IfOk result (λ b. Replayed W.plan cluster.old cluster.new
        (record { request = MarkNext w; reply = reply.now }) b) }
{
    let answer = cluster.mark_next(alloc, w)?;
    Ok(is_mark(reply, answer))
}

#[tactic(auto, using(crate::proofs::Replays::replayed_by))]
fn replay_join<W: Work>(
    alloc: Global,
    cluster: &mut Cluster<W>,
    w: u8,
    reply: &Reply,
) -> Result<bool, AllocError>
    requires meets { Meets (setup_of W.plan cluster.old) (state_of W.plan cluster.old) (Join w) }
    ensures { IfOk result (λ b. Replayed W.plan cluster.old cluster.new
        (record { request = Join w; reply = reply.now }) b) }
{
    let answer = cluster.join(alloc, w)?;
    Ok(is_number(reply, answer))
}

#[tactic(auto, using(crate::proofs::Replays::replayed_by))]
fn replay_expire<W: Work>(
    alloc: Global,
    cluster: &mut Cluster<W>,
    w: u8,
    reply: &Reply,
) -> Result<bool, AllocError>
    requires meets { Meets (setup_of W.plan cluster.old) (state_of W.plan cluster.old) (Expire w) }
    ensures { IfOk result (λ b. Replayed W.plan cluster.old cluster.new
        (record { request = Expire w; reply = reply.now }) b) }
{
    let answer = cluster.expire(alloc, w)?;
    Ok(is_truth(reply, answer))
}

#[tactic(auto, using(crate::proofs::Replays::replayed_by))]
fn replay_hold<W: Work>(
    alloc: Global,
    cluster: &mut Cluster<W>,
    w: u8,
    held: &[(TaskId, u64)],
    reply: &Reply,
) -> Result<bool, AllocError>
    requires meets { Meets (setup_of W.plan cluster.old) (state_of W.plan cluster.old)
        (Hold w held.now) }
    ensures { IfOk result (λ b. Replayed W.plan cluster.old cluster.new
        (record { request = Hold w held.now; reply = reply.now }) b) }
{
    cluster.hold(alloc, w, held)?;
    Ok(is_done(reply))
}

#[tactic(auto, using(crate::proofs::Replays::replayed_by))]
fn replay_probe<W: Work>(
    alloc: Global,
    cluster: &mut Cluster<W>,
    w: u8,
    generation: u64,
    reply: &Reply,
) -> Result<bool, AllocError>
    requires meets { Meets (setup_of W.plan cluster.old) (state_of W.plan cluster.old)
        (Probe w generation) }
    ensures { IfOk result (λ b. Replayed W.plan cluster.old cluster.new
        (record { request = Probe w generation; reply = reply.now }) b) }
{
    let answer = cluster.probe(alloc, w, generation)?;
    Ok(is_number_or(reply, answer))
}

#[tactic(auto, using(crate::proofs::Replays::replayed_by, crate::proofs::Replays::all_are_good))]
fn replay_assign<W: Work>(
    alloc: Global,
    cluster: &mut Cluster<W>,
    w: u8,
    generation: u64,
    a: &Assignment,
    reply: &Reply,
) -> Result<bool, AllocError>
    requires meets { Meets (setup_of W.plan cluster.old) (state_of W.plan cluster.old)
        (Assign w generation a.now) }
    requires all_good { FindsAllGood (W.good cluster.old.work) }
    ensures { IfOk result (λ b. Replayed W.plan cluster.old cluster.new
        (record { request = Assign w generation a.now; reply = reply.now }) b) }
{
    let answer = cluster.assign(alloc, w, generation, a)?;
    Ok(is_truth_or(reply, answer))
}

#[tactic(auto, using(crate::proofs::Replays::replayed_by))]
fn replay_park<W: Work>(
    alloc: Global,
    cluster: &mut Cluster<W>,
    instance: u8,
    task: TaskId,
    reply: &Reply,
) -> Result<bool, AllocError>
    requires meets { Meets (setup_of W.plan cluster.old) (state_of W.plan cluster.old)
        (Park instance task) }
    ensures { IfOk result (λ b. Replayed W.plan cluster.old cluster.new
        (record { request = Park instance task; reply = reply.now }) b) }
{
    cluster.park(alloc, instance, task)?;
    Ok(is_done(reply))
}

#[tactic(auto, using(crate::proofs::Replays::replayed_by))]
fn replay_unpark<W: Work>(
    alloc: Global,
    cluster: &mut Cluster<W>,
    instance: u8,
    task: TaskId,
    reply: &Reply,
) -> Result<bool, AllocError>
    requires meets { Meets (setup_of W.plan cluster.old) (state_of W.plan cluster.old)
        (Unpark instance task) }
    ensures { IfOk result (λ b. Replayed W.plan cluster.old cluster.new
        (record { request = Unpark instance task; reply = reply.now }) b) }
{
    let answer = cluster.unpark(alloc, instance, task)?;
    Ok(is_truth(reply, answer))
}

/// Makes the request of an entry, whose conditions hold, and tells whether the entry's reply is the one that is answered. Where it isn't, the
/// cluster has gone another way than the journal. Want of memory is the one error; then the cluster is as it was.
pub fn replay_entry<W: Work>(
    alloc: Global,
    cluster: &mut Cluster<W>,
    entry: &Entry,
) -> Result<bool, AllocError>
    requires meets { Meets (setup_of W.plan cluster.old) (state_of W.plan cluster.old)
        entry.now.request }
    requires faithful { CommitsFaithfully (setup_of W.plan cluster.old)
        (state_of W.plan cluster.old) entry.now.request }
    requires all_good { FindsAllGood (W.good cluster.old.work) }
    ensures { IfOk result (λ b. Replayed W.plan cluster.old cluster.new entry.now b) }
{
    let reply = &entry.reply;
    match &entry.request {
        Request::Produce { part, rec } => replay_produce(alloc, cluster, *part, rec, reply),
        Request::Init { w } => replay_init(alloc, cluster, *w, reply),
        Request::Add { w, epoch, part } => replay_add(alloc, cluster, *w, *epoch, *part, reply),
        Request::Append {
            w,
            epoch,
            number,
            task,
            part,
            recs,
        } => replay_append(
            alloc, cluster, *w, *epoch, *number, *task, *part, recs, reply,
        ),
        Request::SendOffsets {
            w,
            epoch,
            generation,
            task,
            offsets,
            order,
            late,
        } => replay_send_offsets(
            alloc,
            cluster,
            *w,
            *epoch,
            *generation,
            *task,
            offsets.as_slice(),
            order.as_slice(),
            *late,
            reply,
        ),
        Request::Decide { w, epoch, commit } => replay_decide(
            alloc, cluster, *w, *epoch, *commit, reply,
        ),
        Request::MarkNext { w } => replay_mark_next(alloc, cluster, *w, reply),
        Request::Join { w } => replay_join(alloc, cluster, *w, reply),
        Request::Expire { w } => replay_expire(alloc, cluster, *w, reply),
        Request::Hold { w, held } => replay_hold(alloc, cluster, *w, held.as_slice(), reply),
        Request::Probe { w, generation } => replay_probe(alloc, cluster, *w, *generation, reply),
        Request::Assign { w, generation, a } => replay_assign(
            alloc,
            cluster,
            *w,
            *generation,
            a,
            reply,
        ),
        Request::Park { instance, task } => replay_park(alloc, cluster, *instance, *task, reply),
        Request::Unpark { instance, task } => replay_unpark(
            alloc, cluster, *instance, *task, reply,
        ),
    }
}
