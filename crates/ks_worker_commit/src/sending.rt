//! The loops of a commit over partitions and works.
ghost use Rattle.std.specs.Prelude.{◌≡◌, ◌≢◌, true, [], OnOk};
ghost use Rattle.std.specs.List.{All};
ghost use Rattle.ks_history.specs.State.{IsPart, has_task};
ghost use Rattle.ks_history.specs.History.{at};
ghost use Rattle.ks_history.specs.Touched.{touched};
ghost use Rattle.ks_shared.specs.Calls.{setup_in};
ghost use Rattle.ks_commit.specs.Committed.{works_of, EachOf};
ghost use Rattle.ks_worker_commit.specs.Premises.{MayRequest};
ghost use Rattle.ks_worker_commit.specs.Outcomes.{Requests, with_cuts, cuts_in};
ghost use Rattle.ks_worker_commit.specs.Outputs.{add_all, put_output, put_outputs, put_works, put_all, send_all, sends_of};
ghost use Rattle.ks_worker_commit.specs.Underway.{memory, Carries, always, has_added, have_added, have_works};

use crate::halt::Halt;
use crate::requests::{add_part, append_output, send_offsets};
use ks_cluster::Work;
use ks_commit::Frozen;
use ks_edge::Gate;
use ks_record::{PartId, SharedRecords, TaskId};
use ks_shared::Shared;
use ks_worker_client::{Member, Session};
use std::alloc::Global;
use std::sync::Wait;

// Takes each of these partitions into the transaction.
pub(crate) fn add_parts<R: Wait, W: Work, G: Gate>(
    rt: &R,
    alloc: Global,
    shared: &Shared<W>,
    session: &mut Session<W, G>,
    member: Member,
    parts: &[PartId],
) -> Result<(), Halt>
    requires may { MayRequest shared.now.growing.id member.number session.old }
    requires parts { All (IsPart (setup_in W.plan session.old.client.pass.frame)) parts.now }
    ensures requests { Requests W.plan session.old.client.pass session.new.client.pass
        member.number }
    ensures carries { Carries W.plan session.old.client.pass session.new.client.pass
        member.number member.epoch member.generation
        (memory session.old.last session.old.numbers.items session.old.ends.items)
        (memory session.new.last session.new.numbers.items session.new.ends.items)
        always (add_all parts.now) result }
    ensures gate { session.new.client.gate ≡ with_cuts session.old.client.gate (cuts_in result) }
{
    for i in 0..parts.len() {
        match add_part(rt, alloc, shared, session, member, parts[i]) {
            Ok(()) => {}
            Err(halt) => return Err(halt),
        }
    }
    Ok(())
}

// Appends records of a task, where they are of its partition here.
fn append_if_in<R: Wait, W: Work, G: Gate>(
    rt: &R,
    alloc: Global,
    shared: &Shared<W>,
    session: &mut Session<W, G>,
    member: Member,
    place: (TaskId, PartId),
    out: &(PartId, SharedRecords),
) -> Result<(), Halt>
    requires may { MayRequest shared.now.growing.id member.number session.old }
    requires part { IsPart (setup_in W.plan session.old.client.pass.frame) out.now.0 }
    requires task { has_task place.0 (setup_in W.plan session.old.client.pass.frame).tasks ≡ true }
    ensures requests { Requests W.plan session.old.client.pass session.new.client.pass
        member.number }
    ensures carries { Carries W.plan session.old.client.pass session.new.client.pass
        member.number member.epoch member.generation
        (memory session.old.last session.old.numbers.items session.old.ends.items)
        (memory session.new.last session.new.numbers.items session.new.ends.items)
        (has_added place.1) (put_output place.1 place.0 out.now) result }
    ensures gate { session.new.client.gate ≡ with_cuts session.old.client.gate (cuts_in result) }
{
    if !place.1.is(out.0) {
        return Ok(());
    }
    append_output(rt, alloc, shared, session, member, place.0, out)
}

// Appends a task's records in its partition here.
fn append_outputs<R: Wait, W: Work, G: Gate>(
    rt: &R,
    alloc: Global,
    shared: &Shared<W>,
    session: &mut Session<W, G>,
    member: Member,
    place: (TaskId, PartId),
    outputs: &[(PartId, SharedRecords)],
) -> Result<(), Halt>
    requires may { MayRequest shared.now.growing.id member.number session.old }
    requires parts { All (λ out. IsPart (setup_in W.plan session.old.client.pass.frame) out.0)
        outputs.now }
    requires task { has_task place.0 (setup_in W.plan session.old.client.pass.frame).tasks ≡ true }
    ensures requests { Requests W.plan session.old.client.pass session.new.client.pass
        member.number }
    ensures carries { Carries W.plan session.old.client.pass session.new.client.pass
        member.number member.epoch member.generation
        (memory session.old.last session.old.numbers.items session.old.ends.items)
        (memory session.new.last session.new.numbers.items session.new.ends.items)
        (has_added place.1) (put_outputs place.1 place.0 outputs.now) result }
    ensures gate { session.new.client.gate ≡ with_cuts session.old.client.gate (cuts_in result) }
{
    for i in 0..outputs.len() {
        match append_if_in(rt, alloc, shared, session, member, place, &outputs[i]) {
            Ok(()) => {}
            Err(halt) => return Err(halt),
        }
    }
    Ok(())
}

// Appends a work's records in a partition.
fn append_work<R: Wait, W: Work, G: Gate>(
    rt: &R,
    alloc: Global,
    shared: &Shared<W>,
    session: &mut Session<W, G>,
    member: Member,
    part: PartId,
    work: &Frozen,
) -> Result<(), Halt>
    requires may { MayRequest shared.now.growing.id member.number session.old }
    requires parts { All (λ out. IsPart (setup_in W.plan session.old.client.pass.frame) out.0)
        work.now.outputs }
    requires task { has_task work.now.task (setup_in W.plan session.old.client.pass.frame).tasks
        ≡ true }
    ensures requests { Requests W.plan session.old.client.pass session.new.client.pass
        member.number }
    ensures carries { Carries W.plan session.old.client.pass session.new.client.pass
        member.number member.epoch member.generation
        (memory session.old.last session.old.numbers.items session.old.ends.items)
        (memory session.new.last session.new.numbers.items session.new.ends.items)
        (has_added part) (put_outputs part work.now.task work.now.outputs) result }
    ensures gate { session.new.client.gate ≡ with_cuts session.old.client.gate (cuts_in result) }
{
    let outputs = work.outputs.as_slice();
    append_outputs(
        rt,
        alloc,
        shared,
        session,
        member,
        (work.task, part),
        outputs,
    )
}

// Appends the records of each work in a partition.
fn append_part<R: Wait, W: Work, G: Gate>(
    rt: &R,
    alloc: Global,
    shared: &Shared<W>,
    session: &mut Session<W, G>,
    member: Member,
    part: PartId,
    works: &[Frozen],
) -> Result<(), Halt>
    requires may { MayRequest shared.now.growing.id member.number session.old }
    requires works { EachOf (setup_in W.plan session.old.client.pass.frame)
        (at (setup_in W.plan session.old.client.pass.frame) session.old.client.pass.seen)
        (works_of works.now) }
    ensures requests { Requests W.plan session.old.client.pass session.new.client.pass
        member.number }
    ensures carries { Carries W.plan session.old.client.pass session.new.client.pass
        member.number member.epoch member.generation
        (memory session.old.last session.old.numbers.items session.old.ends.items)
        (memory session.new.last session.new.numbers.items session.new.ends.items)
        (has_added part) (put_works part (works_of works.now)) result }
    ensures gate { session.new.client.gate ≡ with_cuts session.old.client.gate (cuts_in result) }
{
    for i in 0..works.len() {
        match append_work(rt, alloc, shared, session, member, part, &works[i]) {
            Ok(()) => {}
            Err(halt) => return Err(halt),
        }
    }
    Ok(())
}

// Appends the records of each work, by partition and then by work.
pub(crate) fn append_parts<R: Wait, W: Work, G: Gate>(
    rt: &R,
    alloc: Global,
    shared: &Shared<W>,
    session: &mut Session<W, G>,
    member: Member,
    parts: &[PartId],
    works: &[Frozen],
) -> Result<(), Halt>
    requires may { MayRequest shared.now.growing.id member.number session.old }
    requires works { EachOf (setup_in W.plan session.old.client.pass.frame)
        (at (setup_in W.plan session.old.client.pass.frame) session.old.client.pass.seen)
        (works_of works.now) }
    ensures requests { Requests W.plan session.old.client.pass session.new.client.pass
        member.number }
    ensures carries { Carries W.plan session.old.client.pass session.new.client.pass
        member.number member.epoch member.generation
        (memory session.old.last session.old.numbers.items session.old.ends.items)
        (memory session.new.last session.new.numbers.items session.new.ends.items)
        (have_added parts.now) (put_all parts.now (works_of works.now)) result }
    ensures gate { session.new.client.gate ≡ with_cuts session.old.client.gate (cuts_in result) }
{
    for i in 0..parts.len() {
        match append_part(rt, alloc, shared, session, member, parts[i], works) {
            Ok(()) => {}
            Err(halt) => return Err(halt),
        }
    }
    Ok(())
}

// Sends the offsets of each work.
pub(crate) fn send_works<R: Wait, W: Work, G: Gate>(
    rt: &R,
    alloc: Global,
    shared: &Shared<W>,
    session: &mut Session<W, G>,
    member: Member,
    works: &[Frozen],
) -> Result<(), Halt>
    requires may { MayRequest shared.now.growing.id member.number session.old }
    requires works { EachOf (setup_in W.plan session.old.client.pass.frame)
        (at (setup_in W.plan session.old.client.pass.frame) session.old.client.pass.seen)
        (works_of works.now) }
    ensures requests { Requests W.plan session.old.client.pass session.new.client.pass
        member.number }
    ensures carries { Carries W.plan session.old.client.pass session.new.client.pass
        member.number member.epoch member.generation
        (memory session.old.last session.old.numbers.items session.old.ends.items)
        (memory session.new.last session.new.numbers.items session.new.ends.items)
        (have_works (works_of works.now)) (send_all (works_of works.now)) result }
    ensures sent { OnOk result (works.now ≢ [] → touched member.number session.new.client.pass.seen
        ≡ session.new.last) }
    ensures generation { OnOk result (works.now ≢ []
        → (at (setup_in W.plan session.old.client.pass.frame)
        session.new.client.pass.seen).generation ≡ member.generation) }
    ensures gate { session.new.client.gate ≡ with_cuts session.old.client.gate (cuts_in result) }
{
    for i in 0..works.len() {
        match send_offsets(rt, alloc, shared, session, member, &works[i]) {
            Ok(()) => {}
            Err(halt) => return Err(halt),
        }
    }
    Ok(())
}

// Makes the requests of a commit, up to its decision.
pub(crate) fn send<R: Wait, W: Work, G: Gate>(
    rt: &R,
    alloc: Global,
    shared: &Shared<W>,
    session: &mut Session<W, G>,
    member: Member,
    parts: &[PartId],
    works: &[Frozen],
) -> Result<(), Halt>
    requires may { MayRequest shared.now.growing.id member.number session.old }
    requires parts { All (IsPart (setup_in W.plan session.old.client.pass.frame)) parts.now }
    requires works { EachOf (setup_in W.plan session.old.client.pass.frame)
        (at (setup_in W.plan session.old.client.pass.frame) session.old.client.pass.seen)
        (works_of works.now) }
    ensures requests { Requests W.plan session.old.client.pass session.new.client.pass
        member.number }
    ensures carries { Carries W.plan session.old.client.pass session.new.client.pass
        member.number member.epoch member.generation
        (memory session.old.last session.old.numbers.items session.old.ends.items)
        (memory session.new.last session.new.numbers.items session.new.ends.items)
        (have_works (works_of works.now)) (sends_of parts.now (works_of works.now)) result }
    ensures sent { OnOk result (works.now ≢ [] → touched member.number session.new.client.pass.seen
        ≡ session.new.last) }
    ensures generation { OnOk result (works.now ≢ []
        → (at (setup_in W.plan session.old.client.pass.frame)
        session.new.client.pass.seen).generation ≡ member.generation) }
    ensures gate { session.new.client.gate ≡ with_cuts session.old.client.gate (cuts_in result) }
{
    match add_parts(rt, alloc, shared, session, member, parts) {
        Ok(()) => {}
        Err(halt) => return Err(halt),
    }
    match append_parts(rt, alloc, shared, session, member, parts, works) {
        Ok(()) => {}
        Err(halt) => return Err(halt),
    }
    send_works(rt, alloc, shared, session, member, works)
}
