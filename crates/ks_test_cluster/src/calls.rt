//! Each call of the cluster, made where its conditions hold, with its answer as a text: so a table of calls can be run whose states
//! are not known beforehand.
ghost use Rattle.std.specs.Prelude.{◌≡◌, [], OnOk, IfOk};
ghost use Rattle.std.specs.Prelude.{◌<◌, ◌≤◌, None};
ghost use Rattle.ks_history.specs.Reads.{end_of};
ghost use Rattle.ks_cluster.specs.View.{state_of};
ghost use Rattle.ks_law_exactly_once.specs.Example.{setup, active_at};
ghost use Rattle.ks_test_cluster.specs.Ours.{IsOurs};

use crate::copying::{Copying, TASK};
use crate::tables::OneRecord;
use ks_cluster::{Cluster, Status};
use ks_record::{Assignment, PartId, Rec, Refused, Seq, SharedRecords, TaskId};
use std::alloc::{AllocError, Global};

/// A call. All are of the only task and of partition 0 of the topic that is named.
#[derive(Clone, Copy)]
pub enum Call {
    Produce {
        topic: u16,
    },
    Init {
        w: u8,
    },
    Add {
        w: u8,
        epoch: u64,
        topic: u16,
    },
    Append {
        w: u8,
        epoch: u64,
        number: u64,
        topic: u16,
    },
    SendOffset {
        w: u8,
        epoch: u64,
        generation: u64,
        offset: u64,
    },
    Abort {
        w: u8,
        epoch: u64,
    },
    /// Expires the worker, and then decides to commit what it has, which is nothing.
    ExpireAndCommit {
        w: u8,
        epoch: u64,
    },
    MarkNext {
        w: u8,
    },
    Join {
        w: u8,
    },
    Assign {
        w: u8,
        generation: u64,
    },
    Hold {
        w: u8,
        position: u64,
    },
    Probe {
        w: u8,
        generation: u64,
    },
    Park {
        instance: u8,
    },
    Unpark {
        instance: u8,
    },
    Fetch {
        topic: u16,
        from: u64,
        max: u32,
    },
    Committed {
        w: u8,
        generation: u64,
    },
    End {
        topic: u16,
    },
    Decided {
        topic: u16,
    },
    Offset,
    Late,
    Pending,
    Status,
}

fn number_text(alloc: Global, outcome: Result<u64, Refused>) -> Result<String, AllocError> {
    match outcome {
        Ok(number) => format!(in alloc; "{number}"),
        Err(refused) => format!(in alloc; "{refused}"),
    }
}

fn truth_text(alloc: Global, outcome: Result<bool, Refused>) -> Result<String, AllocError> {
    match outcome {
        Ok(truth) => format!(in alloc; "{truth}"),
        Err(refused) => format!(in alloc; "{refused}"),
    }
}

fn done_text(alloc: Global, outcome: Result<(), Refused>) -> Result<String, AllocError> {
    match outcome {
        Ok(()) => String::from_str(alloc, "done"),
        Err(refused) => format!(in alloc; "{refused}"),
    }
}

fn not_made(alloc: Global) -> Result<String, AllocError> {
    String::from_str(alloc, "not made")
}

fn produce(
    alloc: Global,
    cluster: &mut Cluster<Copying>,
    topic: u16,
    rec: &Rec,
) -> Result<String, AllocError>
    requires { IsOurs cluster.old }
    ensures { OnOk result (IsOurs cluster.new) }
{
    if topic != 0 {
        return not_made(alloc);
    }
    let offset = cluster.produce(alloc, PartId { topic, part: 0 }, rec)?;
    number_text(alloc, Ok(offset))
}

fn init(alloc: Global, cluster: &mut Cluster<Copying>, w: u8) -> Result<String, AllocError>
    requires { IsOurs cluster.old }
    ensures { OnOk result (IsOurs cluster.new) }
{
    if w > 16 {
        return not_made(alloc);
    }
    let epoch = cluster.init(alloc, w)?;
    number_text(alloc, Ok(epoch))
}

fn add(
    alloc: Global,
    cluster: &mut Cluster<Copying>,
    w: u8,
    epoch: u64,
    topic: u16,
) -> Result<String, AllocError>
    requires { IsOurs cluster.old }
    ensures { OnOk result (IsOurs cluster.new) }
{
    if w > 16 || topic > 1 {
        return not_made(alloc);
    }
    let outcome = cluster.add(alloc, w, epoch, PartId { topic, part: 0 })?;
    done_text(alloc, outcome)
}

fn append(
    alloc: Global,
    cluster: &mut Cluster<Copying>,
    w: u8,
    epoch: u64,
    number: u64,
    topic: u16,
    recs: &SharedRecords,
) -> Result<String, AllocError>
    requires { IsOurs cluster.old }
    ensures { OnOk result (IsOurs cluster.new) }
{
    if w > 16 || topic > 1 {
        return not_made(alloc);
    }
    let part = PartId { topic, part: 0 };
    let outcome = cluster.append(alloc, w, epoch, number, TASK, part, recs)?;
    number_text(alloc, outcome)
}

/// The end of a partition.
fn end(alloc: Global, cluster: &Cluster<Copying>, topic: u16) -> Result<u64, AllocError>
    requires ours { IsOurs cluster.now }
    requires topic { topic < 2 }
    ensures { IfOk result (λ n. n ≡ end_of (state_of (λ _. setup.plan) cluster.now)
        (record { topic = topic; part = 0 })) }
{
    let ends = cluster.ends(alloc, &[PartId { topic, part: 0 }])?;
    Ok(ends[0])
}

fn send_offset(
    alloc: Global,
    cluster: &mut Cluster<Copying>,
    w: u8,
    epoch: u64,
    generation: u64,
    offset: u64,
) -> Result<String, AllocError>
    requires { IsOurs cluster.old }
    ensures { OnOk result (IsOurs cluster.new) }
{
    if w > 16 || offset > end(alloc, cluster, 0)? {
        return not_made(alloc);
    }
    let outcome = cluster.send_offsets(
        alloc,
        w,
        epoch,
        generation,
        TASK,
        &[(0, offset)],
        &[(0, offset)],
        0,
    )?;
    done_text(alloc, outcome)
}

fn abort(
    alloc: Global,
    cluster: &mut Cluster<Copying>,
    w: u8,
    epoch: u64,
) -> Result<String, AllocError>
    requires { IsOurs cluster.old }
    ensures { OnOk result (IsOurs cluster.new) }
{
    if w > 16 {
        return not_made(alloc);
    }
    let outcome = cluster.decide(alloc, w, epoch, false)?;
    done_text(alloc, outcome)
}

fn mark_next(alloc: Global, cluster: &mut Cluster<Copying>, w: u8) -> Result<String, AllocError>
    requires { IsOurs cluster.old }
    ensures { OnOk result (IsOurs cluster.new) }
{
    if w > 16 {
        return not_made(alloc);
    }
    match cluster.mark_next(alloc, w)? {
        Some((part, commit)) => format!(in alloc; "{}/{} {commit}", part.topic, part.part),
        None => String::from_str(alloc, "none"),
    }
}

fn join(alloc: Global, cluster: &mut Cluster<Copying>, w: u8) -> Result<String, AllocError>
    requires { IsOurs cluster.old }
    ensures { OnOk result (IsOurs cluster.new) }
{
    if w > 16 {
        return not_made(alloc);
    }
    let generation = cluster.join(alloc, w)?;
    number_text(alloc, Ok(generation))
}

/// The task is active at a worker.
pub fn active(alloc: Global, w: u8) -> Result<Assignment, AllocError>
    ensures { IfOk result (λ a. a ≡ active_at w) }
{
    let mut active = Vec::new(alloc);
    active.push((TASK, w))?;
    Ok(Assignment {
        active: Seq::of(active),
        standby: Seq::new(alloc),
        warmup: Seq::new(alloc),
    })
}

fn assign(
    alloc: Global,
    cluster: &mut Cluster<Copying>,
    w: u8,
    generation: u64,
) -> Result<String, AllocError>
    requires { IsOurs cluster.old }
    ensures { OnOk result (IsOurs cluster.new) }
{
    if w > 16 {
        return not_made(alloc);
    }
    let a = active(alloc, w)?;
    let outcome = cluster.assign(alloc, w, generation, &a);
    drop(a);
    truth_text(alloc, outcome?)
}

fn hold(
    alloc: Global,
    cluster: &mut Cluster<Copying>,
    w: u8,
    position: u64,
) -> Result<String, AllocError>
    requires { IsOurs cluster.old }
    ensures { OnOk result (IsOurs cluster.new) }
{
    if w > 16 {
        return not_made(alloc);
    }
    cluster.hold(alloc, w, &[(TASK, position)])?;
    done_text(alloc, Ok(()))
}

fn probe(
    alloc: Global,
    cluster: &mut Cluster<Copying>,
    w: u8,
    generation: u64,
) -> Result<String, AllocError>
    requires { IsOurs cluster.old }
    ensures { OnOk result (IsOurs cluster.new) }
{
    if w > 16 {
        return not_made(alloc);
    }
    let outcome = cluster.probe(alloc, w, generation)?;
    number_text(alloc, outcome)
}

fn park(alloc: Global, cluster: &mut Cluster<Copying>, instance: u8) -> Result<String, AllocError>
    requires { IsOurs cluster.old }
    ensures { OnOk result (IsOurs cluster.new) }
{
    if instance > 3 {
        return not_made(alloc);
    }
    cluster.park(alloc, instance, TASK)?;
    done_text(alloc, Ok(()))
}

fn unpark(alloc: Global, cluster: &mut Cluster<Copying>, instance: u8) -> Result<String, AllocError>
    requires { IsOurs cluster.old }
    ensures { OnOk result (IsOurs cluster.new) }
{
    if instance > 3 {
        return not_made(alloc);
    }
    let parked = cluster.unpark(alloc, instance, TASK)?;
    truth_text(alloc, Ok(parked))
}

fn expire(alloc: Global, cluster: &mut Cluster<Copying>, w: u8) -> Result<bool, AllocError>
    requires ours { IsOurs cluster.old }
    requires worker { w ≤ 16 }
    ensures ours { OnOk result (IsOurs cluster.new) }
    ensures expired { OnOk result (((state_of (λ _. setup.plan) cluster.new).producer w).undecided
        ≡ None) }
{
    cluster.expire(alloc, w)
}

fn expire_and_commit(
    alloc: Global,
    cluster: &mut Cluster<Copying>,
    w: u8,
    epoch: u64,
) -> Result<String, AllocError>
    requires { IsOurs cluster.old }
    ensures { OnOk result (IsOurs cluster.new) }
{
    if w > 16 {
        return not_made(alloc);
    }
    let expired = expire(alloc, cluster, w)?;
    match cluster.decide(alloc, w, epoch, true)? {
        Ok(()) => String::from_str(alloc, "committed"),
        Err(refused) => format!(in alloc; "{expired}, {refused}"),
    }
}

/// What a fetch of a topic's partition 0 answers, as a line of a table of calls.
pub fn fetch(
    alloc: Global,
    cluster: &Cluster<Copying>,
    topic: u16,
    from: u64,
    max: u32,
) -> Result<String, AllocError>
    requires { IsOurs cluster.now }
{
    if topic > 1 || max < 1 || from > end(alloc, cluster, topic)? {
        return not_made(alloc);
    }
    let (recs, next) = cluster.fetch(alloc, PartId { topic, part: 0 }, from, max)?;
    format!(in alloc; "{} to {next}", recs.len())
}

fn committed(
    alloc: Global,
    cluster: &Cluster<Copying>,
    w: u8,
    generation: u64,
) -> Result<String, AllocError>
    requires { IsOurs cluster.now }
{
    if w > 16 {
        return not_made(alloc);
    }
    match cluster.committed(alloc, w, generation, TASK)? {
        Ok(offsets) => pairs_text(alloc, offsets.as_slice()),
        Err(refused) => format!(in alloc; "{refused}"),
    }
}

fn pairs_text(alloc: Global, pairs: &[(u16, u64)]) -> Result<String, AllocError> {
    let mut text = String::new(alloc);
    for (topic, offset) in pairs {
        writeln!(text, "{topic} at {offset}")?;
    }
    Ok(text)
}

fn end_text(alloc: Global, cluster: &Cluster<Copying>, topic: u16) -> Result<String, AllocError>
    requires { IsOurs cluster.now }
{
    if topic > 1 {
        return not_made(alloc);
    }
    let end = end(alloc, cluster, topic)?;
    number_text(alloc, Ok(end))
}

fn decided(alloc: Global, cluster: &Cluster<Copying>, topic: u16) -> Result<String, AllocError>
    requires { IsOurs cluster.now }
{
    if topic > 1 {
        return not_made(alloc);
    }
    let recs = cluster.decided(alloc, PartId { topic, part: 0 })?;
    format!(in alloc; "{}", recs.len())
}

fn offset(alloc: Global, cluster: &Cluster<Copying>) -> Result<String, AllocError>
    requires { IsOurs cluster.now }
{
    number_text(alloc, Ok(cluster.offset(TASK, 0)))
}

fn push_held(text: &mut String, held: &[(u8, TaskId, u64)]) -> Result<(), AllocError> {
    for (w, task, position) in held {
        writeln!(
            text,
            "worker {w} holds {}_{} at {position}",
            task.sub, task.part
        )?;
    }
    Ok(())
}

fn push_ends(text: &mut String, ends: &[(PartId, u64)]) -> Result<(), AllocError> {
    for (part, end) in ends {
        writeln!(text, "{}/{} ends at {end}", part.topic, part.part)?;
    }
    Ok(())
}

fn status_text(alloc: Global, status: &Status) -> Result<String, AllocError> {
    let mut text = String::new(alloc);
    writeln!(
        text,
        "generation {}, members {}, markers {}",
        status.generation,
        status.members.len(),
        status.waiting
    )?;
    push_held(&mut text, status.held.as_slice())?;
    push_ends(&mut text, status.ends.as_slice())?;
    Ok(text)
}

fn status(alloc: Global, cluster: &Cluster<Copying>) -> Result<String, AllocError> {
    let status = cluster.status(alloc)?;
    let text = status_text(alloc, &status);
    drop(status);
    text
}

// Makes a call that reads, and answers with a text.
fn read(alloc: Global, cluster: &Cluster<Copying>, call: &Call) -> Result<String, AllocError>
    requires { IsOurs cluster.now }
{
    match *call {
        Call::Fetch { topic, from, max } => fetch(alloc, cluster, topic, from, max),
        Call::Committed { w, generation } => committed(alloc, cluster, w, generation),
        Call::End { topic } => end_text(alloc, cluster, topic),
        Call::Decided { topic } => decided(alloc, cluster, topic),
        Call::Offset => offset(alloc, cluster),
        Call::Late => number_text(alloc, Ok(cluster.late())),
        Call::Pending => number_text(alloc, Ok(u64::from(cluster.pending()))),
        Call::Status => status(alloc, cluster),
        _ => not_made(alloc),
    }
}

// Makes a call of the group, or one that reads, and answers with a text.
fn ask(alloc: Global, cluster: &mut Cluster<Copying>, call: &Call) -> Result<String, AllocError>
    requires { IsOurs cluster.old }
    ensures { OnOk result (IsOurs cluster.new) }
{
    match *call {
        Call::Join { w } => join(alloc, cluster, w),
        Call::Assign { w, generation } => assign(alloc, cluster, w, generation),
        Call::Hold { w, position } => hold(alloc, cluster, w, position),
        Call::Probe { w, generation } => probe(alloc, cluster, w, generation),
        Call::Park { instance } => park(alloc, cluster, instance),
        Call::Unpark { instance } => unpark(alloc, cluster, instance),
        _ => read(alloc, cluster, call),
    }
}

/// Makes a call, and answers with a text.
pub fn answer(
    alloc: Global,
    cluster: &mut Cluster<Copying>,
    recs: &OneRecord,
    call: &Call,
) -> Result<String, AllocError>
    requires { IsOurs cluster.old }
    ensures { OnOk result (IsOurs cluster.new) }
{
    match *call {
        Call::Produce { topic } => produce(alloc, cluster, topic, &recs.rec),
        Call::Init { w } => init(alloc, cluster, w),
        Call::Add { w, epoch, topic } => add(alloc, cluster, w, epoch, topic),
        Call::Append {
            w,
            epoch,
            number,
            topic,
        } => append(alloc, cluster, w, epoch, number, topic, &recs.list),
        Call::SendOffset {
            w,
            epoch,
            generation,
            offset,
        } => send_offset(alloc, cluster, w, epoch, generation, offset),
        Call::Abort { w, epoch } => abort(alloc, cluster, w, epoch),
        Call::ExpireAndCommit { w, epoch } => expire_and_commit(alloc, cluster, w, epoch),
        Call::MarkNext { w } => mark_next(alloc, cluster, w),
        _ => ask(alloc, cluster, call),
    }
}
