//! A task takes all that a commit names, run by run, and goes on to the offsets that are committed.
ghost use Rattle.std.specs.Prelude.{◌≡◌, IfOk, true, []};
ghost use Rattle.ks_topo.specs.Topologies.{draft_of, plan_in};
ghost use Rattle.ks_history.specs.Machine.{has_topic};
ghost use Rattle.ks_history.specs.State.{IsSetup};
ghost use Rattle.ks_law_audit.specs.Rested.{merged};
ghost use Rattle.ks_law_topology.specs.Work.{work_of};
ghost use Rattle.ks_cluster.specs.View.{setup_of};
ghost use Rattle.ks_def_tasks.specs.Rules.{rules_of};
ghost use Rattle.ks_task.specs.Tasks.{task_view};
ghost use Rattle.ks_audit_commit.specs.Naming.{offset_named, is_ahead, are_ahead, may_go_on};
ghost use Rattle.ks_audit_commit.specs.Judging.{IsTaking, TakesNamed, TakesOrder, PassesOne, PassesAll};

use crate::taking::{pass_to, take_run};
use ks_cluster::{Cluster, Work};
use ks_history::Pending;
use ks_task::Task;
use ks_task_processing::Processing;
use ks_topo::Topology;
use std::alloc::{AllocError, Global};

// The offset that is named for a topic.
fn offset_of(offsets: &[(u16, u64)], topic: u16) -> Option<u64>
    ensures { result ≡ offset_named topic offsets.now }
{
    let mut rest = offsets;
    while let [first, more @ ..] = rest {
        if topic == first.0 {
            return Some(first.1);
        }
        rest = more;
    }
    None
}

// Whether an offset is named for an input, at or past which the task stands no further.
fn is_ahead(task: &Task, topic: u16, offsets: &[(u16, u64)]) -> bool
    ensures { result ≡ is_ahead (offset_named topic offsets.now)
        ((task_view task.now).inputs topic) }
{
    match offset_of(offsets, topic) {
        Some(upto) => task.input_position(topic) <= upto,
        None => false,
    }
}

fn are_ahead(task: &Task, inputs: &[u16], offsets: &[(u16, u64)]) -> bool
    ensures { result ≡ are_ahead (task_view task.now).inputs inputs.now offsets.now }
{
    let mut rest = inputs;
    while let [first, more @ ..] = rest {
        if !is_ahead(task, *first, offsets) {
            return false;
        }
        rest = more;
    }
    true
}

/// Whether these offsets name each of the inputs, and no more, where the task stands past none of them. Takes no memory.
pub fn may_go_on(task: &Task, inputs: &[u16], offsets: &[(u16, u64)]) -> bool
    ensures { result ≡ may_go_on (task_view task.now).inputs inputs.now offsets.now }
{
    if are_ahead(task, inputs, offsets) {
        inputs.len() == offsets.len()
    } else {
        false
    }
}

// A task takes a run of an order: so many records of a topic, each below the offset that is named for it.
fn take_named<H: Processing, W: Work>(
    alloc: Global,
    topology: &Topology,
    cluster: &Cluster<W>,
    task: &mut Task,
    run: (u16, u64),
    pending: &Pending,
) -> Result<bool, AllocError>
    requires work { W.plan cluster.now.work ≡ work_of (rules_of H.hash_of) (plan_in topology.now) }
    requires made { IsSetup (setup_of W.plan cluster.now) }
    requires taking { IsTaking (draft_of topology.now) (setup_of W.plan cluster.now)
        cluster.now.journal pending.now task.old }
    ensures { IfOk result (λ done. TakesNamed (draft_of topology.now) (setup_of W.plan cluster.now)
        cluster.now.journal pending.now run done task.old task.new) }
{
    let (topic, count) = run;
    if count == 0 {
        return Ok(true);
    }
    match offset_of(pending.offsets.as_slice(), topic) {
        Some(upto) => take_run::<H, W>(alloc, topology, cluster, task, topic, count, upto),
        None => Ok(false),
    }
}

/// A task that has taken nothing takes all records that a pending order names, in that order; false where they aren't there below the
/// pending offsets. Want of memory is the one error; after it, and where it is false, the task is to be dropped.
pub fn take_order<H: Processing, W: Work>(
    alloc: Global,
    topology: &Topology,
    cluster: &Cluster<W>,
    task: &mut Task,
    pending: &Pending,
) -> Result<bool, AllocError>
    requires work { W.plan cluster.now.work ≡ work_of (rules_of H.hash_of) (plan_in topology.now) }
    requires made { IsSetup (setup_of W.plan cluster.now) }
    requires taking { IsTaking (draft_of topology.now) (setup_of W.plan cluster.now)
        cluster.now.journal pending.now task.old }
    requires fresh { (task_view task.old).order ≡ [] }
    ensures { IfOk result (λ done. TakesOrder (draft_of topology.now) (setup_of W.plan cluster.now)
        cluster.now.journal pending.now done task.new) }
{
    let mut rest = pending.order.as_slice();
    while let [run, more @ ..] = rest {
        if !take_named::<H, W>(alloc, topology, cluster, task, *run, pending)? {
            return Ok(false);
        }
        rest = more;
    }
    Ok(true)
}

// A task goes on to the offset that is pending for an input.
fn pass_one<H: Processing, W: Work>(
    alloc: Global,
    topology: &Topology,
    cluster: &Cluster<W>,
    task: &mut Task,
    topic: u16,
    pending: &Pending,
) -> Result<bool, AllocError>
    requires work { W.plan cluster.now.work ≡ work_of (rules_of H.hash_of) (plan_in topology.now) }
    requires made { IsSetup (setup_of W.plan cluster.now) }
    requires taking { IsTaking (draft_of topology.now) (setup_of W.plan cluster.now)
        cluster.now.journal pending.now task.old }
    requires input { has_topic topic ((setup_of W.plan cluster.now).plan.inputs
        pending.now.task.sub)
        ≡ true }
    ensures { IfOk result (λ done. PassesOne (draft_of topology.now) (setup_of W.plan cluster.now)
        cluster.now.journal pending.now topic done task.old task.new) }
{
    match offset_of(pending.offsets.as_slice(), topic) {
        Some(upto) => pass_to::<H, W>(alloc, topology, cluster, task, topic, upto),
        None => Ok(false),
    }
}

/// A task that took a pending order goes on to the pending offset of each of its inputs; false where a record stands before one, or one
/// isn't stable. Want of memory is the one error; after it, and where it is false, the task is to be dropped.
pub fn pass_all<H: Processing, W: Work>(
    alloc: Global,
    topology: &Topology,
    cluster: &Cluster<W>,
    task: &mut Task,
    inputs: &[u16],
    pending: &Pending,
) -> Result<bool, AllocError>
    requires work { W.plan cluster.now.work ≡ work_of (rules_of H.hash_of) (plan_in topology.now) }
    requires made { IsSetup (setup_of W.plan cluster.now) }
    requires taking { IsTaking (draft_of topology.now) (setup_of W.plan cluster.now)
        cluster.now.journal pending.now task.old }
    requires order { (task_view task.old).order ≡ merged pending.now.order }
    requires inputs { inputs.now ≡ (setup_of W.plan cluster.now).plan.inputs pending.now.task.sub }
    ensures { IfOk result (λ done. PassesAll (draft_of topology.now) (setup_of W.plan cluster.now)
        cluster.now.journal pending.now done task.new) }
{
    let mut rest = inputs;
    while let [topic, more @ ..] = rest {
        if !pass_one::<H, W>(alloc, topology, cluster, task, *topic, pending)? {
            return Ok(false);
        }
        rest = more;
    }
    Ok(true)
}
