//! The assignment of a group.
ghost use Rattle.std.specs.Prelude.{◌≡◌, ◌≢◌, ◌≤◌, [], None, IfOk, IfSome};
ghost use Rattle.ks_plan.specs.Infos.{changelog_numbers};
ghost use Rattle.ks_plan.specs.Layout.{tasks};
ghost use Rattle.ks_topo.specs.Topologies.{plan_in};
ghost use Rattle.ks_assign_group.specs.Groups.{clients_of, IsGoodBy};
ghost use Rattle.ks_assign_group.specs.Laws.{AloneIsGood, GoodPlaces};

use crate::clients::clients_of;
use crate::lags::lags_in;
use ks_assign::{Assignment, Placing, assign};
use ks_history::Status;
use ks_topo::Topology;
use std::alloc::{AllocError, Global};

/// An assignment of a topology's tasks that is good for a group by what its cluster tells of it: the members, the positions that they
/// hold, the ends of the changelogs. None exactly where the group has no member. Want of memory is the one error.
pub fn assign_group(
    alloc: Global,
    topology: &Topology,
    placing: &Placing,
    status: &Status,
) -> Result<Option<Assignment>, AllocError>
    requires threads { 1 ≤ placing.now.threads }
    ensures good { IfOk result (λ o. IfSome o (IsGoodBy (changelog_numbers (plan_in topology.now))
        (tasks (plan_in topology.now)) placing.now status.now)) }
    ensures none { IfOk result (λ o. o ≡ None → clients_of placing.now.threads status.now.members
        ≡ []) }
    ensures some { IfOk result (λ o. o ≢ None → clients_of placing.now.threads status.now.members
        ≢ []) }
{
    let clients = clients_of(alloc, placing.threads, status.members.as_slice())?;
    if clients.is_empty() {
        return Ok(None);
    }
    let _nodes = topology.nodes();
    let tasks = topology.tasks();
    let lags = lags_in(alloc, topology, clients.as_slice(), tasks, status)?;
    let assignment = assign(
        alloc,
        tasks,
        clients.as_slice(),
        lags.as_slice(),
        &placing.wants,
    )?;
    Ok(Some(assignment))
}

/// The places of a good assignment are of the cluster's tasks and workers.
pub fn good_places()
    ensures { GoodPlaces }
{}

/// Where a worker is the one member, it is good that it has every task, with no standby and no warmup, whatever is held.
pub fn alone_is_good()
    ensures { AloneIsGood }
{}
