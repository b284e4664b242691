//! Reads of a store that is lent.
ghost use Rattle.std.specs.Prelude.{◌≡◌, ◌≤◌, List, Option, IfOk, option_map, option_and_then};
ghost use Rattle.ks_topo.specs.Topologies.{draft_of};
ghost use Rattle.ks_history.specs.declared.journal.Entry.{Entry};
ghost use Rattle.ks_history.specs.State.{Setup};
ghost use Rattle.ks_history.specs.Follows.{ReplicaFollows, TaskFollows};
ghost use Rattle.ks_history.specs.History.{at};
ghost use Rattle.ks_standby.specs.Replicas.{replica_view};
ghost use Rattle.ks_plan.specs.Drafts.{op_view};
ghost use Rattle.ks_task.specs.Tasks.{task_view};
ghost use Rattle.ks_task.specs.Views.{are_committed};
ghost use Rattle.ks_iq.specs.Asks.{lent_answer, active_answer, IsActiveAnswer};
ghost use Rattle.ks_iq.specs.Places.{op_row};
ghost use Rattle.ks_iq.specs.Reads.{IsRead, ReadsTopology};

use crate::answer::Answer;
use crate::ask::Ask;
use crate::fault::IqFault;
use crate::place::{find_place, key_in_store, read_shown};
use ks_row::Row;
use ks_standby::Replica;
use ks_task::Task;
use ks_topo::{Op, Topology};
use std::alloc::{AllocError, Global};

// The row of what was found.
fn read_found(alloc: Global, op: &Op, found: Option<&[u8]>) -> Result<Option<Row>, AllocError>
    ensures { IfOk result (λ o. o ≡ option_and_then (op_row (op_view op.now))
        (option_map (λ v. v.now) found.entry)) }
{
    match found {
        Some(bytes) => read_shown(alloc, op, bytes),
        None => Ok(None),
    }
}

// What a replica that is lent answers.
fn read_lent(
    alloc: Global,
    topology: &Topology,
    replica: &Replica,
    ask: &Ask,
    at_least: u64,
) -> Result<Result<Answer, IqFault>, AllocError>
    ensures { IfOk result (λ r. r ≡ lent_answer (draft_of topology.now) (replica_view replica.now)
        ask.now at_least) }
{
    let place = match find_place(topology, ask) {
        Ok(place) => place,
        Err(fault) => return Ok(Err(fault)),
    };
    if !replica.id().is(place.task) {
        return Ok(Err(IqFault::WrongTask { owner: place.task }));
    }
    let position = replica.position(place.log);
    if position < at_least {
        return Ok(Err(IqFault::Behind { position }));
    }
    let key = key_in_store(alloc, &ask.key, ask.start)?;
    let value = read_found(
        alloc,
        &place.node.op,
        replica.value(place.log, key.as_slice()),
    )?;
    Ok(Ok(Answer { value, position }))
}

/// What a replica that is lent answers; it is fed nothing. It is a read at its position in every journal that the replica follows.
/// The outer error is want of memory alone.
pub fn stale(
    alloc: Global,
    topology: &Topology,
    replica: &Replica,
    ask: &Ask,
    at_least: u64,
) -> Result<Result<Answer, IqFault>, AllocError>
    ensures exact { IfOk result (λ r. r ≡ lent_answer (draft_of topology.now)
        (replica_view replica.now) ask.now at_least) }
    ensures reads { (setup : Setup) (journal : List Entry)
        → ReadsTopology (draft_of topology.now) setup
        → ReplicaFollows setup journal (replica_view replica.now)
        → IfOk result (λ r. IfOk r (IsRead (draft_of topology.now) (at setup journal) ask.now)) }
    ensures bound { IfOk result (λ r. IfOk r (λ a. at_least ≤ a.position)) }
{
    read_lent(alloc, topology, replica, ask, at_least)
}

// What a task that is lent answers.
fn read_active(
    alloc: Global,
    topology: &Topology,
    task: &Task,
    ask: &Ask,
    at_least: u64,
) -> Result<Result<Answer, IqFault>, AllocError>
    ensures { IfOk result (λ r. r ≡ active_answer (draft_of topology.now) (task_view task.now)
        (are_committed task.now.inputs.items task.now.inputs.items) ask.now at_least) }
{
    let place = match find_place(topology, ask) {
        Ok(place) => place,
        Err(fault) => return Ok(Err(fault)),
    };
    if !task.id().is(place.task) {
        return Ok(Err(IqFault::WrongTask { owner: place.task }));
    }
    if !task.is_clean() {
        return Ok(Err(IqFault::NotClean));
    }
    let position = task.position(place.log);
    if position < at_least {
        return Ok(Err(IqFault::Behind { position }));
    }
    let key = key_in_store(alloc, &ask.key, ask.start)?;
    let value = read_found(alloc, &place.node.op, task.value(place.log, key.as_slice()))?;
    Ok(Ok(Answer { value, position }))
}

/// What a task that is lent answers, where it is clean; it takes nothing. It is a read at its position in every journal that the task
/// follows. The outer error is want of memory alone.
pub fn active(
    alloc: Global,
    topology: &Topology,
    task: &Task,
    ask: &Ask,
    at_least: u64,
) -> Result<Result<Answer, IqFault>, AllocError>
    ensures exact { IfOk result (IsActiveAnswer (draft_of topology.now) (task_view task.now)
        ask.now at_least) }
    ensures reads { (setup : Setup) (journal : List Entry)
        → ReadsTopology (draft_of topology.now) setup
        → TaskFollows setup journal (task_view task.now)
        → IfOk result (λ r. IfOk r (IsRead (draft_of topology.now) (at setup journal) ask.now)) }
    ensures bound { IfOk result (λ r. IfOk r (λ a. at_least ≤ a.position)) }
{
    read_active(alloc, topology, task, ask, at_least)
}
