//! The requests of a commit, one at a time: each is made unless the worker is cut off before it.
ghost use Rattle.std.specs.Prelude.{◌≡◌, ◌≤◌, ◌+◌, true, false, [], length, IfOk, OnOk};
ghost use Rattle.ks_history.specs.declared.journal.Request.TheVariants.{Decide};
ghost use Rattle.ks_history.specs.State.{IsPart, has_task};
ghost use Rattle.ks_history.specs.History.{at, are_offsets, CommitsFaithfully};
ghost use Rattle.ks_history.specs.Touched.{touched};
ghost use Rattle.ks_shared.specs.Calls.{setup_in};
ghost use Rattle.ks_law_restore.specs.Views.{pending_work};
ghost use Rattle.ks_law_commit.specs.Building.{with_part, with_records, with_pending_offsets};
ghost use Rattle.ks_commit.specs.Work.{work_view};
ghost use Rattle.ks_worker_commit.specs.Premises.{MayRequest};
ghost use Rattle.ks_worker_commit.specs.Outcomes.{Requests, UndecidedRequests, with_cuts, cuts_in, fence_in, halted, written, WroteMarker};
ghost use Rattle.ks_worker_commit.specs.Ends.{NeverBarred};
ghost use Rattle.ks_worker_commit.specs.Underway.{memory, with_end, Carries, Decides, Aborts, always, has_added, has_work};

use crate::halt::Halt;
use ks_cluster::Work;
use ks_commit::{Frozen, number_at, with_next_number};
use ks_edge::Gate;
use ks_record::{PartId, SharedRecords, TaskId};
use ks_shared::{Barred, Shared};
use ks_worker_client::{BatchHeader, Halt as TurnHalt, Member, Session};
use std::alloc::{AllocError, Global};
use std::sync::Wait;

// How many records of its epoch a producer has sent to a partition, after these.
fn number_after(before: u64, recs: &SharedRecords) -> Result<u64, AllocError>
    ensures { IfOk result (λ after. after ≡ before + length recs.now) }
{
    match before.checked_add(recs.len() as u64) {
        Some(after) => Ok(after),
        None => Err(AllocError),
    }
}

// Takes down where records of a task end in a partition that stand from an offset on. An end that would pass its type's greatest value
// is answered as want of memory.
fn note_end(
    ends: &mut Vec<(TaskId, PartId, u64)>,
    place: (TaskId, PartId),
    offset: u64,
    recs: &SharedRecords,
) -> Result<(), AllocError>
    ensures { OnOk result (ends.new.items ≡ with_end place.0 place.1 offset recs.now
        ends.old.items) }
{
    if recs.len() == 0 {
        return Ok(());
    }
    let end = number_after(offset, recs)?;
    ends.push((place.0, place.1, end))?;
    Ok(())
}

// What a call's answer is to a commit.
fn done<T: Drop>(answer: Result<Result<T, Barred>, TurnHalt>) -> Result<T, Halt>
    ensures { result ≡ halted answer }
{
    match answer {
        Ok(Ok(value)) => Ok(value),
        Ok(Err(barred)) => Err(Halt::Barred(barred)),
        Err(TurnHalt::OutOfMemory) => Err(Halt::OutOfMemory),
        Err(TurnHalt::Cut) => Err(Halt::Cut),
    }
}

// Whether a marker was written.
fn is_written(answer: Result<Option<(PartId, bool)>, TurnHalt>) -> Result<bool, Halt>
    ensures { result ≡ written answer }
{
    match answer {
        Ok(None) => Ok(false),
        Ok(Some(_)) => Ok(true),
        Err(TurnHalt::OutOfMemory) => Err(Halt::OutOfMemory),
        Err(TurnHalt::Cut) => Err(Halt::Cut),
    }
}

/// Takes a partition into the worker's transaction, which begins where there is none.
pub fn add_part<R: Wait, W: Work, G: Gate>(
    rt: &R,
    alloc: Global,
    shared: &Shared<W>,
    session: &mut Session<W, G>,
    member: Member,
    part: PartId,
) -> Result<(), Halt>
    requires may { MayRequest shared.now.growing.id member.number session.old }
    requires part { IsPart (setup_in W.plan session.old.client.pass.frame) part }
    ensures requests { Requests W.plan session.old.client.pass session.new.client.pass
        member.number }
    ensures carries { Carries W.plan session.old.client.pass session.new.client.pass
        member.number member.epoch member.generation
        (memory session.old.last session.old.numbers.items session.old.ends.items)
        (memory session.new.last session.new.numbers.items session.new.ends.items)
        always (with_part part) result }
    ensures gate { session.new.client.gate ≡ with_cuts session.old.client.gate (cuts_in result) }
{
    let (client, last) = (&mut session.client, &mut session.last);
    done(client.add(rt, alloc, shared, member, part, last))
}

/// Appends a task's records to a partition of the worker's transaction, with the next number of its epoch
/// there. A number that would pass its type's greatest value is answered as want of memory.
pub fn append_output<R: Wait, W: Work, G: Gate>(
    rt: &R,
    alloc: Global,
    shared: &Shared<W>,
    session: &mut Session<W, G>,
    member: Member,
    task: TaskId,
    out: &(PartId, SharedRecords),
) -> Result<(), Halt>
    requires may { MayRequest shared.now.growing.id member.number session.old }
    requires part { IsPart (setup_in W.plan session.old.client.pass.frame) out.now.0 }
    requires task { has_task task (setup_in W.plan session.old.client.pass.frame).tasks ≡ true }
    ensures requests { Requests W.plan session.old.client.pass session.new.client.pass
        member.number }
    ensures carries { Carries W.plan session.old.client.pass session.new.client.pass
        member.number member.epoch member.generation
        (memory session.old.last session.old.numbers.items session.old.ends.items)
        (memory session.new.last session.new.numbers.items session.new.ends.items)
        (has_added out.now.0) (with_records task out.now.0 out.now.1) result }
    ensures gate { session.new.client.gate ≡ with_cuts session.old.client.gate (cuts_in result) }
{
    let (part, recs) = (out.0, &out.1);
    let before = number_at(session.numbers.as_slice(), part);
    let after = number_after(before, recs)?;
    let numbers = with_next_number(alloc, session.numbers.as_slice(), part, after)?;
    let header = BatchHeader {
        task,
        part,
        number: before,
    };
    let (client, last) = (&mut session.client, &mut session.last);
    let offset = match done(client.append(rt, alloc, shared, member, header, recs, last)) {
        Ok(offset) => offset,
        Err(halt) => return Err(halt),
    };
    session.numbers = numbers;
    note_end(&mut session.ends, (task, part), offset, recs)?;
    Ok(())
}

/// Sends the offsets of a task's work in the worker's transaction, with its own generation.
pub fn send_offsets<R: Wait, W: Work, G: Gate>(
    rt: &R,
    alloc: Global,
    shared: &Shared<W>,
    session: &mut Session<W, G>,
    member: Member,
    work: &Frozen,
) -> Result<(), Halt>
    requires may { MayRequest shared.now.growing.id member.number session.old }
    requires task { has_task work.now.task (setup_in W.plan session.old.client.pass.frame).tasks
        ≡ true }
    requires offsets { are_offsets (setup_in W.plan session.old.client.pass.frame)
        (at (setup_in W.plan session.old.client.pass.frame) session.old.client.pass.seen)
        work.now.task work.now.offsets
        ≡ true }
    ensures requests { Requests W.plan session.old.client.pass session.new.client.pass
        member.number }
    ensures carries { Carries W.plan session.old.client.pass session.new.client.pass
        member.number member.epoch member.generation
        (memory session.old.last session.old.numbers.items session.old.ends.items)
        (memory session.new.last session.new.numbers.items session.new.ends.items)
        (has_work work.now.task) (with_pending_offsets (pending_work (work_view work.now))) result }
    ensures sent { OnOk result (touched member.number session.new.client.pass.seen
        ≡ session.new.last) }
    ensures generation { OnOk result ((at (setup_in W.plan session.old.client.pass.frame)
        session.new.client.pass.seen).generation
        ≡ member.generation) }
    ensures gate { session.new.client.gate ≡ with_cuts session.old.client.gate (cuts_in result) }
{
    let (client, last) = (&mut session.client, &mut session.last);
    done(client.send_offsets(rt, alloc, shared, member, work, last))
}

/// Commits the worker's transaction, which is faithful in what the pass has seen.
pub fn decide_commit<R: Wait, W: Work, G: Gate>(
    rt: &R,
    alloc: Global,
    shared: &Shared<W>,
    session: &mut Session<W, G>,
    member: Member,
) -> Result<(), Halt>
    requires may { MayRequest shared.now.growing.id member.number session.old }
    requires within { session.old.last ≤ length session.old.client.pass.seen }
    requires faithful { CommitsFaithfully (setup_in W.plan session.old.client.pass.frame)
        (at (setup_in W.plan session.old.client.pass.frame) session.old.client.pass.seen)
        (Decide member.number member.epoch true) }
    ensures requests { Requests W.plan session.old.client.pass session.new.client.pass
        member.number }
    ensures decides { Decides W.plan session.old.client.pass session.new.client.pass
        member.number member.epoch member.generation
        (memory session.old.last session.old.numbers.items session.old.ends.items)
        (memory session.new.last session.new.numbers.items session.new.ends.items) result }
    ensures gate { session.new.client.gate ≡ with_cuts session.old.client.gate (cuts_in result) }
{
    let (client, last) = (&mut session.client, &mut session.last);
    done(client.decide(rt, alloc, shared, member, true, last))
}

/// Aborts the worker's transaction.
pub fn decide_abort<R: Wait, W: Work, G: Gate>(
    rt: &R,
    alloc: Global,
    shared: &Shared<W>,
    session: &mut Session<W, G>,
    member: Member,
) -> Result<(), Halt>
    requires may { MayRequest shared.now.growing.id member.number session.old }
    ensures requests { UndecidedRequests W.plan session.old.client.pass session.new.client.pass
        member.number (fence_in result) }
    ensures aborts { Aborts W.plan session.old.client.pass session.new.client.pass member.number
        member.epoch
        (memory session.old.last session.old.numbers.items session.old.ends.items)
        (memory session.new.last session.new.numbers.items session.new.ends.items) result }
    ensures gate { session.new.client.gate ≡ with_cuts session.old.client.gate (cuts_in result) }
{
    let (client, last) = (&mut session.client, &mut session.last);
    done(client.decide(rt, alloc, shared, member, false, last))
}

/// Writes the worker's next waiting marker; true where one waited, false where none waits.
pub fn write_marker<R: Wait, W: Work, G: Gate>(
    rt: &R,
    alloc: Global,
    shared: &Shared<W>,
    session: &mut Session<W, G>,
    member: Member,
) -> Result<bool, Halt>
    requires may { MayRequest shared.now.growing.id member.number session.old }
    ensures requests { UndecidedRequests W.plan session.old.client.pass session.new.client.pass
        member.number false }
    ensures same { memory session.new.last session.new.numbers.items session.new.ends.items
        ≡ memory session.old.last session.old.numbers.items session.old.ends.items }
    ensures done { NeverBarred result }
    ensures none { IfOk result (λ more. more ≡ false
        → ((at (setup_in W.plan session.old.client.pass.frame)
        session.new.client.pass.seen).producer member.number).waiting ≡ []) }
    ensures wrote { IfOk result (λ more. more ≡ true
        → WroteMarker W.plan session.old.client.pass session.new.client.pass member.number) }
    ensures gate { session.new.client.gate ≡ with_cuts session.old.client.gate (cuts_in result) }
{
    let client = &mut session.client;
    is_written(client.write_marker(rt, alloc, shared, member.number))
}
