//! A worker commits its tasks.
ghost use Rattle.std.specs.Prelude.{◌≡◌, IfOk, IfErr, OnOk};
ghost use Rattle.std.specs.List.{All};
ghost use Rattle.ks_plan.specs.Drafts.{DraftView};
ghost use Rattle.ks_topo.specs.Topologies.{draft_of};
ghost use Rattle.ks_task.specs.Tasks.{IsTaskOf};
ghost use Rattle.ks_worker_client.specs.declared.halt.Halt.TheVariants.{OutOfMemory};
ghost use Rattle.ks_worker_client.specs.Turns.{counts_after};
ghost use Rattle.ks_worker_commit.specs.Outcomes.{Requests};
ghost use Rattle.ks_worker_state.specs.State.{MayAct, LaterState, IsWorkerState};
ghost use Rattle.ks_worker_acts.specs.Works.{AreCleanOf};
ghost use Rattle.ks_worker_acts.specs.Told.{AreTold};
ghost use Rattle.ks_worker_acts.specs.Ends.{HasLostAll, HasEnded};
ghost use Rattle.ks_worker_acts.specs.declared.commit.commit_end.CommitEnd.TheVariants.{Committed, Aborted, Crashed};

use crate::commit::commit_end::CommitEnd;
use crate::commit::committed::tell_dirty;
use crate::commit::dropping::drop_dirty;
use crate::commit::freezing::freeze_dirty;
use ks_cluster::Work;
use ks_edge::Gate;
use ks_hash::Hash128;
use ks_shared::Shared;
use ks_topo::Topology;
use ks_worker_client::{Halt, or_halt};
use ks_worker_commit::{Outcome, commit};
use ks_worker_state::WorkerState;
use std::alloc::Global;
use std::sync::Wait;

// After a commit that was decided each dirty task is told of it.
fn go_on<W: Work, G: Gate>(alloc: Global, state: &mut WorkerState<W, G>) -> Result<CommitEnd, Halt>
    ensures session { state.new.session ≡ state.old.session }
    ensures member { state.new.member ≡ state.old.member }
    ensures replicas { state.new.replicas ≡ state.old.replicas }
    ensures told { (d : DraftView) → All (IsTaskOf d) state.old.tasks.items → OnOk result
        (AreTold d state.old.session.ends.items state.old.tasks.items state.new.tasks.items) }
    ensures end { IfOk result (λ end. end ≡ Committed) }
    ensures memory { IfErr result (λ halt. halt ≡ OutOfMemory) }
{
    match tell_dirty(alloc, &mut state.tasks, state.session.ends.as_slice()) {
        Ok(()) => Ok(CommitEnd::Committed),
        Err(_failed) => Err(Halt::OutOfMemory),
    }
}

// After an abort the dirty tasks are dropped.
fn go_back<W: Work, G: Gate>(
    alloc: Global,
    state: &mut WorkerState<W, G>,
) -> Result<CommitEnd, Halt>
    ensures session { state.new.session ≡ state.old.session }
    ensures member { state.new.member ≡ state.old.member }
    ensures replicas { state.new.replicas ≡ state.old.replicas }
    ensures kept { OnOk result (AreCleanOf state.old.tasks.items state.new.tasks.items) }
    ensures end { IfOk result (λ end. end ≡ Aborted) }
    ensures memory { IfErr result (λ halt. halt ≡ OutOfMemory) }
{
    match drop_dirty(alloc, &mut state.tasks) {
        Ok(()) => Ok(CommitEnd::Aborted),
        Err(_failed) => Err(Halt::OutOfMemory),
    }
}

// A worker whose producer is over loses all that it has.
fn lose_all<W: Work, G: Gate>(alloc: Global, state: &mut WorkerState<W, G>) -> CommitEnd
    ensures end { result ≡ Crashed }
    ensures client { state.new.session.client ≡ state.old.session.client }
    ensures lost { HasLostAll state.old.member state.new }
{
    state.crash(alloc);
    CommitEnd::Crashed
}

/// Commits what a worker's dirty tasks took and made since their last commits, in one transaction, and tells these tasks; with none
/// dirty it makes no call and changes nothing. After a refusal the transaction is aborted and the dirty tasks are dropped; a worker that
/// is fenced, or whose number another has used, loses all that it has.
///
/// The gate is asked before each call. After `Cut` or want of memory the worker is to be crashed: its tasks may have been told of their
/// commit or not. Whatever comes, the worker's pass has made requests of a commit alone.
pub fn commit_tasks<H: Hash128, R: Wait, W: Work, G: Gate>(
    rt: &R,
    alloc: Global,
    topology: &Topology,
    shared: &Shared<W>,
    state: &mut WorkerState<W, G>,
) -> Result<CommitEnd, Halt>
    requires may { MayAct W.plan H.hash_of shared.now.growing.id (draft_of topology.now) state.old }
    ensures gate { state.new.session.client.gate
        ≡ counts_after state.old.session.client.gate result }
    ensures later { LaterState W.plan state.old state.new }
    ensures requests { Requests W.plan state.old.session.client.pass state.new.session.client.pass
        state.old.member.number }
    ensures worker { OnOk result (IsWorkerState W.plan (draft_of topology.now) state.new) }
    ensures ended { IfOk result (HasEnded W.plan (draft_of topology.now) state.old state.new) }
{
    let works = or_halt(freeze_dirty(alloc, state.tasks.as_slice()))?;
    if works.is_empty() {
        return Ok(CommitEnd::Clean);
    }
    let member = state.member;
    match commit(
        rt,
        alloc,
        shared,
        &mut state.session,
        member,
        works.as_slice(),
    ) {
        Ok(Outcome::Committed) => go_on(alloc, state),
        Ok(Outcome::Aborted) => go_back(alloc, state),
        Ok(Outcome::Fenced) => Ok(lose_all(alloc, state)),
        Ok(Outcome::Touched) => Ok(lose_all(alloc, state)),
        Ok(Outcome::Cut) => Err(Halt::Cut),
        Err(_failed) => Err(Halt::OutOfMemory),
    }
}
