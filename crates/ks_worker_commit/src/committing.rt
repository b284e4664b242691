//! A commit, from its first request to its end.
ghost use Rattle.std.specs.Prelude.{◌≡◌, ◌≢◌, ◌≤◌, false, [], IfOk, OnOk};
ghost use Rattle.ks_history.specs.State.{pending_of};
ghost use Rattle.ks_history.specs.History.{at};
ghost use Rattle.ks_history.specs.Touched.{touched};
ghost use Rattle.ks_worker_client.specs.Calls.{MayCall, Later};
ghost use Rattle.ks_worker_client.specs.Members.{MemberHasSeen, IsProducer};
ghost use Rattle.ks_shared.specs.Calls.{setup_in};
ghost use Rattle.ks_commit.specs.Alone.{IsNumbered};
ghost use Rattle.ks_commit.specs.Sending.{pendings_of};
ghost use Rattle.ks_commit.specs.Committed.{works_of, EachOf, AreApart};
ghost use Rattle.ks_worker_commit.specs.Premises.{MayRequest};
ghost use Rattle.ks_worker_commit.specs.Outcomes.{Requests, UndecidedRequests, with_cuts, cuts_in};
ghost use Rattle.ks_worker_commit.specs.Outputs.{contents_of};
ghost use Rattle.ks_worker_commit.specs.Underway.{memory, IsWorker, AreActiveWorks};
ghost use Rattle.ks_worker_commit.specs.Leaves.{LeavesTasks, LeavesProducer, LeavesNoMarker};
ghost use Rattle.ks_worker_commit.specs.Ends.{EndsSo, HasCase, IsOutcomeOf, cut_of, fenced_in, NeverBarred, TurnsBackSo, AbortsSo, FinishesSo};

use crate::halt::Halt;
use crate::outcome::Outcome;
use crate::outputs::output_parts;
use crate::requests::{decide_abort, decide_commit, write_marker};
use crate::sending::send;
use ks_cluster::Work;
use ks_commit::Frozen;
use ks_edge::Gate;
use ks_record::Refused;
use ks_shared::{Barred, Shared};
use ks_worker_client::{Member, Session};
use std::alloc::{AllocError, Global};
use std::sync::Wait;

// Makes the requests of a commit and decides it.
fn send_and_decide<R: Wait, W: Work, G: Gate>(
    rt: &R,
    alloc: Global,
    shared: &Shared<W>,
    session: &mut Session<W, G>,
    member: Member,
    works: &[Frozen],
) -> Result<(), Halt>
    requires may { MayRequest shared.now.growing.id member.number session.old }
    requires known { IsWorker W.plan session.old.client.pass member.number member.epoch
        member.generation
        session.old.last (works_of works.now) }
    requires numbered { touched member.number session.old.client.pass.seen ≡ session.old.last
        → IsNumbered (at (setup_in W.plan session.old.client.pass.frame)
        session.old.client.pass.seen)
        member.number member.epoch session.old.numbers.items }
    requires none { session.old.ends.items ≡ [] }
    requires some { works.now ≢ [] }
    requires apart { AreApart (works_of works.now) }
    requires works { EachOf (setup_in W.plan session.old.client.pass.frame)
        (at (setup_in W.plan session.old.client.pass.frame) session.old.client.pass.seen)
        (works_of works.now) }
    ensures requests { Requests W.plan session.old.client.pass session.new.client.pass
        member.number }
    ensures ends { EndsSo W.plan session.old.client.pass session.new.client.pass
        member.number member.epoch member.generation session.old.last
        (memory session.new.last session.new.numbers.items session.new.ends.items)
        (works_of works.now) (contents_of (works_of works.now)) result }
    ensures gate { session.new.client.gate ≡ with_cuts session.old.client.gate (cuts_in result) }
{
    let parts = match output_parts(alloc, works) {
        Ok(parts) => parts,
        Err(_) => return Err(Halt::OutOfMemory),
    };
    match send(rt, alloc, shared, session, member, parts.as_slice(), works) {
        Ok(()) => {}
        Err(halt) => return Err(halt),
    }
    decide_commit(rt, alloc, shared, session, member)
}

// Writes the worker's markers until none waits.
fn write_markers<R: Wait, W: Work, G: Gate>(
    rt: &R,
    alloc: Global,
    shared: &Shared<W>,
    session: &mut Session<W, G>,
    member: Member,
) -> Result<(), Halt>
    requires may { MayRequest shared.now.growing.id member.number session.old }
    ensures requests { UndecidedRequests W.plan session.old.client.pass session.new.client.pass
        member.number false }
    ensures none { OnOk result (((at (setup_in W.plan session.old.client.pass.frame)
        session.new.client.pass.seen).producer member.number).waiting ≡ []) }
    ensures done { NeverBarred result }
    ensures same { memory session.new.last session.new.numbers.items session.new.ends.items
        ≡ memory session.old.last session.old.numbers.items session.old.ends.items }
    ensures gate { session.new.client.gate ≡ with_cuts session.old.client.gate (cuts_in result) }
{
    for _ in rt.forever() {
        match write_marker(rt, alloc, shared, session, member) {
            Ok(true) => {}
            Ok(false) => return Ok(()),
            Err(halt) => return Err(halt),
        }
    }
    unreachable!()
}

// What a commit comes to whose requests stopped so, but for the abort.
fn outcome_of(halt: Halt) -> Result<Outcome, AllocError>
    ensures { IsOutcomeOf halt result }
{
    match halt {
        Halt::OutOfMemory => Err(AllocError),
        Halt::Cut => Ok(Outcome::Cut),
        Halt::Barred(Barred::Touched { .. }) => Ok(Outcome::Touched),
        Halt::Barred(Barred::Refused(Refused::Fenced { .. })) => Ok(Outcome::Fenced),
        Halt::Barred(Barred::Refused(_)) => Ok(Outcome::Aborted),
    }
}

// Aborts what was sent, after a refusal that isn't the fence; the abort itself may be refused.
fn turn_back<R: Wait, W: Work, G: Gate>(
    rt: &R,
    alloc: Global,
    shared: &Shared<W>,
    session: &mut Session<W, G>,
    member: Member,
) -> Result<Outcome, AllocError>
    requires may { MayRequest shared.now.growing.id member.number session.old }
    ensures requests { UndecidedRequests W.plan session.old.client.pass session.new.client.pass
        member.number (fenced_in result) }
    ensures so { IfOk result (TurnsBackSo W.plan session.old.client.pass session.new.client.pass
        member.number member.epoch
        (memory session.old.last session.old.numbers.items session.old.ends.items)
        (memory session.new.last session.new.numbers.items session.new.ends.items)) }
    ensures gate { session.new.client.gate ≡ with_cuts session.old.client.gate (cut_of result) }
{
    match decide_abort(rt, alloc, shared, session, member) {
        Ok(()) => Ok(Outcome::Aborted),
        Err(halt) => outcome_of(halt),
    }
}

// Aborts what was sent and writes the markers that wait then, also where the abort is refused: while they wait
// the producer may begin no transaction.
fn abort<R: Wait, W: Work, G: Gate>(
    rt: &R,
    alloc: Global,
    shared: &Shared<W>,
    session: &mut Session<W, G>,
    member: Member,
) -> Result<Outcome, AllocError>
    requires may { MayRequest shared.now.growing.id member.number session.old }
    ensures requests { UndecidedRequests W.plan session.old.client.pass session.new.client.pass
        member.number (fenced_in result) }
    ensures so { IfOk result (AbortsSo W.plan session.old.client.pass session.new.client.pass
        member.number member.epoch
        (memory session.old.last session.old.numbers.items session.old.ends.items)
        (memory session.new.last session.new.numbers.items session.new.ends.items)) }
    ensures gate { session.new.client.gate ≡ with_cuts session.old.client.gate (cut_of result) }
{
    let outcome = match turn_back(rt, alloc, shared, session, member) {
        Ok(outcome) => outcome,
        Err(error) => return Err(error),
    };
    match outcome {
        Outcome::Aborted => {}
        _ => return Ok(outcome),
    }
    match write_markers(rt, alloc, shared, session, member) {
        Ok(()) => Ok(Outcome::Aborted),
        Err(halt) => outcome_of(halt),
    }
}

// Writes the markers of a decided commit.
fn finish<R: Wait, W: Work, G: Gate>(
    rt: &R,
    alloc: Global,
    shared: &Shared<W>,
    session: &mut Session<W, G>,
    member: Member,
) -> Result<Outcome, AllocError>
    requires may { MayRequest shared.now.growing.id member.number session.old }
    ensures requests { Requests W.plan session.old.client.pass session.new.client.pass
        member.number }
    ensures same { memory session.new.last session.new.numbers.items session.new.ends.items
        ≡ memory session.old.last session.old.numbers.items session.old.ends.items }
    ensures so { IfOk result (FinishesSo ((at (setup_in W.plan session.old.client.pass.frame)
        session.new.client.pass.seen).producer member.number).waiting) }
    ensures gate { session.new.client.gate ≡ with_cuts session.old.client.gate (cut_of result) }
{
    match write_markers(rt, alloc, shared, session, member) {
        Ok(()) => Ok(Outcome::Committed),
        Err(halt) => outcome_of(halt),
    }
}

/// Commits the work of several tasks of a worker in one transaction, while others use the cluster too: takes
/// each output partition into it, appends the records by partition and then by work, sends the offsets of
/// each work, commits, and writes the markers until none waits (KIP-98, KIP-447).
///
/// Before each of these steps the gate is asked whether the worker is cut off. After a refusal that isn't the
/// fence, the transaction is aborted and its markers are written as well, so that the next one can begin. What
/// it came to says the journal: one of the five cases, unless the worker was cut off; `Fenced` where one of its
/// requests was refused so, and only there, `Touched` only where somebody else used its number. After
/// `Committed` and `Aborted` the session is right for a next commit, and its `ends` are those of the records
/// that were sent (`ends_of_task`); after any other end it is to be given up with the worker's tasks. Want of memory is the one error, and ends the commit wherever it comes: the same holds then.
pub fn commit<R: Wait, W: Work, G: Gate>(
    rt: &R,
    alloc: Global,
    shared: &Shared<W>,
    session: &mut Session<W, G>,
    member: Member,
    works: &[Frozen],
) -> Result<Outcome, AllocError>
    requires may { MayCall W.plan shared.now.growing.id session.old.client.pass
        session.old.client.gate }
    requires worker { member.number ≤ 16 }
    requires seen { MemberHasSeen (setup_in W.plan session.old.client.pass.frame)
        session.old.client.pass.seen
        member session.old.last }
    requires producer { IsProducer (setup_in W.plan session.old.client.pass.frame)
        session.old.client.pass.seen
        member session.old.last session.old.numbers.items }
    requires active { AreActiveWorks (setup_in W.plan session.old.client.pass.frame)
        session.old.client.pass.seen
        member.number member.generation session.old.last (works_of works.now) }
    requires some { works.now ≢ [] }
    requires apart { AreApart (works_of works.now) }
    requires works { EachOf (setup_in W.plan session.old.client.pass.frame)
        (at (setup_in W.plan session.old.client.pass.frame) session.old.client.pass.seen)
        (works_of works.now) }
    ensures later { Later W.plan session.old.client.pass session.new.client.pass }
    ensures requests { Requests W.plan session.old.client.pass session.new.client.pass
        member.number }
    ensures cases { IfOk result (HasCase W.plan session.old.client.pass session.new.client.pass
        member.number member.epoch member.generation session.old.last
        (λ t. pending_of t (pendings_of (works_of works.now)))) }
    ensures producer { IfOk result (LeavesProducer (setup_in W.plan session.old.client.pass.frame)
        session.new.client.pass.seen member session.new.last session.new.numbers.items) }
    ensures tasks { IfOk result (LeavesTasks (setup_in W.plan session.old.client.pass.frame)
        session.old.client.pass.seen session.new.client.pass.seen member session.old.last
        session.new.last
        (works_of works.now) session.new.ends.items) }
    ensures marked { IfOk result (LeavesNoMarker (setup_in W.plan session.old.client.pass.frame)
        session.new.client.pass.seen member.number) }
    ensures gate { session.new.client.gate ≡ with_cuts session.old.client.gate (cut_of result) }
{
    session.ends.clear();
    let halt = match send_and_decide(rt, alloc, shared, session, member, works) {
        Ok(()) => return finish(rt, alloc, shared, session, member),
        Err(halt) => halt,
    };
    let outcome = match outcome_of(halt) {
        Ok(outcome) => outcome,
        Err(error) => return Err(error),
    };
    match outcome {
        Outcome::Aborted => abort(rt, alloc, shared, session, member),
        _ => Ok(outcome),
    }
}
