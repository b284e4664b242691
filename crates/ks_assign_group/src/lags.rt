//! How far the clients of a group are behind with its tasks.
ghost use Rattle.std.specs.Prelude.{◌≡◌, ◌++◌, IfOk, OnOk};
ghost use Rattle.ks_plan.specs.Infos.{changelog_numbers};
ghost use Rattle.ks_topo.specs.Topologies.{plan_in};
ghost use Rattle.ks_assign.specs.Placement.{has_worker};
ghost use Rattle.ks_assign_group.specs.Groups.{end_in, ends_at, positions_in, lag_of, lags_at, lags_in};

use ks_assign::{Client, Held, client_lag};
use ks_history::Status;
use ks_record::{PartId, TaskId};
use ks_topo::Topology;
use std::alloc::{AllocError, Global};

// The end that is told of a partition; 0 where none is.
fn end_in(part: PartId, ends: &[(PartId, u64)]) -> u64
    ensures { result ≡ end_in part ends.now }
{
    for end in ends {
        if part.is(end.0) {
            return end.1;
        }
    }
    0
}

// The ends of a task's partitions of these changelogs.
fn ends_at(
    alloc: Global,
    task: TaskId,
    changelogs: &[u16],
    ends: &[(PartId, u64)],
) -> Result<Vec<u64>, AllocError>
    ensures { IfOk result (λ v. v.items ≡ ends_at task changelogs.now ends.now) }
{
    let mut found = Vec::new(alloc);
    for topic in changelogs {
        let part = PartId {
            topic: *topic,
            part: task.part,
        };
        found.push(end_in(part, ends))?;
    }
    Ok(found)
}

// Whether it is one of these workers.
fn is_one_of(w: u8, workers: &[u8]) -> bool
    ensures { result ≡ has_worker w workers.now }
{
    for v in workers {
        if *v == w {
            return true;
        }
    }
    false
}

// The positions that these workers hold of a task.
fn positions_in(
    alloc: Global,
    workers: &[u8],
    task: TaskId,
    held: &[(u8, TaskId, u64)],
) -> Result<Vec<u64>, AllocError>
    ensures { IfOk result (λ v. v.items ≡ positions_in workers.now task held.now) }
{
    let mut found = Vec::new(alloc);
    for place in held {
        if is_one_of(place.0, workers) && task.is(place.1) {
            found.push(place.2)?;
        }
    }
    Ok(found)
}

// The lag of a client for a task whose subtopology has these changelogs.
fn lag_of(
    alloc: Global,
    client: &Client,
    task: TaskId,
    changelogs: &[u16],
    status: &Status,
) -> Result<Held, AllocError>
    ensures { IfOk result (λ h. h ≡ lag_of client.now task changelogs.now status.now.held
        status.now.ends) }
{
    let ends = ends_at(alloc, task, changelogs, status.ends.as_slice())?;
    let positions = positions_in(
        alloc,
        client.workers.as_slice(),
        task,
        status.held.as_slice(),
    )?;
    Ok(Held {
        instance: client.instance,
        task,
        lag: client_lag(ends.as_slice(), positions.as_slice()),
    })
}

// The changelogs of a subtopology's tasks.
fn changelogs_in(topology: &Topology, sub: u8) -> &[u16]
    ensures { result.now ≡ changelog_numbers (plan_in topology.now) sub }
{
    let _nodes = topology.nodes();
    topology.changelogs(sub)
}

// Puts the lags of a client for each of these tasks behind others.
fn push_lags_at(
    alloc: Global,
    topology: &Topology,
    client: &Client,
    tasks: &[TaskId],
    status: &Status,
    lags: &mut Vec<Held>,
) -> Result<(), AllocError>
    ensures { OnOk result (lags.new.items ≡ lags.old.items
        ++ lags_at (changelog_numbers (plan_in topology.now)) client.now tasks.now
        status.now.held status.now.ends) }
{
    for task in tasks {
        let changelogs = changelogs_in(topology, task.sub);
        lags.push(lag_of(alloc, client, *task, changelogs, status)?)?;
    }
    Ok(())
}

/// The lags of each client for each task, by what a cluster tells of its group.
pub(crate) fn lags_in(
    alloc: Global,
    topology: &Topology,
    clients: &[Client],
    tasks: &[TaskId],
    status: &Status,
) -> Result<Vec<Held>, AllocError>
    ensures { IfOk result (λ v. v.items ≡ lags_in (changelog_numbers (plan_in topology.now))
        clients.now tasks.now status.now.held status.now.ends) }
{
    let mut lags = Vec::new(alloc);
    for client in clients {
        push_lags_at(alloc, topology, client, tasks, status, &mut lags)?;
    }
    Ok(lags)
}
