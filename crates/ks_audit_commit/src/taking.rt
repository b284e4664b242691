//! A task takes the next record of an input, and passes over what is not readable.
ghost use Rattle.std.specs.Prelude.{◌≡◌, ◌≤◌, IfOk, true};
ghost use Rattle.ks_topo.specs.Topologies.{draft_of, plan_in};
ghost use Rattle.ks_plan.specs.Infos.{input_numbers};
ghost use Rattle.ks_history.specs.Machine.{has_topic};
ghost use Rattle.ks_history.specs.State.{IsSetup};
ghost use Rattle.ks_law_topology.specs.Work.{work_of};
ghost use Rattle.ks_cluster.specs.View.{setup_of};
ghost use Rattle.ks_def_tasks.specs.Rules.{rules_of};
ghost use Rattle.ks_task.specs.Tasks.{task_view, IsTaskOf};
ghost use Rattle.ks_audit_commit.specs.Taking.{IsTaker, HasMet, TakesOne, PassesTo, TakesRun, is_clear};

use ks_cluster::{Cluster, Work};
use ks_record::{PartId, Rec};
use ks_task::Task;
use ks_task_processing::Processing;
use ks_topo::Topology;
use std::alloc::{AllocError, Global};

// Takes a record, if it stands before this offset.
fn take_below<H: Processing>(
    alloc: Global,
    topology: &Topology,
    task: &mut Task,
    topic: u16,
    upto: u64,
    rec: &(u64, Rec),
) -> Result<bool, AllocError>
    requires task { IsTaskOf (draft_of topology.now) task.old }
    requires input { has_topic topic (input_numbers (plan_in topology.now)
        (task_view task.old).task.sub) ≡ true }
    ensures { IfOk result (λ took. HasMet (draft_of topology.now)
        (work_of (rules_of H.hash_of) (plan_in topology.now)) topic upto rec.now took task.old
        task.new) }
{
    if rec.0 < upto {
        task.take::<H>(alloc, topology, topic, rec.0, &rec.1)?;
        Ok(true)
    } else {
        Ok(false)
    }
}

/// A task takes the next readable record of an input, if one stands before this offset; false, and it is as it was, where none does. Want
/// of memory is the one error; then the task is to be dropped.
pub fn take_one<H: Processing, W: Work>(
    alloc: Global,
    topology: &Topology,
    cluster: &Cluster<W>,
    task: &mut Task,
    topic: u16,
    upto: u64,
) -> Result<bool, AllocError>
    requires work { W.plan cluster.now.work ≡ work_of (rules_of H.hash_of) (plan_in topology.now) }
    requires made { IsSetup (setup_of W.plan cluster.now) }
    requires taker { IsTaker (draft_of topology.now) (setup_of W.plan cluster.now)
        cluster.now.journal topic task.old }
    ensures { IfOk result (λ took. TakesOne (draft_of topology.now) (setup_of W.plan cluster.now)
        cluster.now.journal topic upto took task.old task.new) }
{
    let part = PartId {
        topic,
        part: task.id().part,
    };
    let from = task.input_position(topic);
    let (recs, _) = cluster.fetch(alloc, part, from, 1)?;
    match recs.as_slice() {
        [rec, ..] => take_below::<H>(alloc, topology, task, topic, upto, rec),
        [] => Ok(false),
    }
}

// Whether no record of a fetch of one stands below an offset, up to which it went.
fn is_clear(recs: &[(u64, Rec)], next: u64, upto: u64) -> bool
    ensures { result ≡ is_clear recs.now next upto }
{
    match recs {
        [rec, ..] => upto <= rec.0,
        [] => upto <= next,
    }
}

/// A task passes on to this offset of an input, at or past which it stands; false, and it is as it was, where a readable record stands
/// before, or the offset isn't stable. Want of memory is the one error; then the task is as it was.
pub fn pass_to<H: Processing, W: Work>(
    alloc: Global,
    topology: &Topology,
    cluster: &Cluster<W>,
    task: &mut Task,
    topic: u16,
    upto: u64,
) -> Result<bool, AllocError>
    requires work { W.plan cluster.now.work ≡ work_of (rules_of H.hash_of) (plan_in topology.now) }
    requires made { IsSetup (setup_of W.plan cluster.now) }
    requires taker { IsTaker (draft_of topology.now) (setup_of W.plan cluster.now)
        cluster.now.journal topic task.old }
    requires later { (task_view task.old).inputs topic ≤ upto }
    ensures { IfOk result (λ passed. PassesTo (draft_of topology.now) (setup_of W.plan cluster.now)
        cluster.now.journal topic upto passed task.old task.new) }
{
    let part = PartId {
        topic,
        part: task.id().part,
    };
    let from = task.input_position(topic);
    let (recs, next) = cluster.fetch(alloc, part, from, 1)?;
    if is_clear(recs.as_slice(), next, upto) {
        task.skip(topic, upto);
        Ok(true)
    } else {
        Ok(false)
    }
}

/// A task takes so many records of an input, each below this offset; false where there aren't so many, and then it has taken those that
/// there are. Want of memory is the one error; then the task is to be dropped.
pub fn take_run<H: Processing, W: Work>(
    alloc: Global,
    topology: &Topology,
    cluster: &Cluster<W>,
    task: &mut Task,
    topic: u16,
    count: u64,
    upto: u64,
) -> Result<bool, AllocError>
    requires work { W.plan cluster.now.work ≡ work_of (rules_of H.hash_of) (plan_in topology.now) }
    requires made { IsSetup (setup_of W.plan cluster.now) }
    requires taker { IsTaker (draft_of topology.now) (setup_of W.plan cluster.now)
        cluster.now.journal topic task.old }
    ensures { IfOk result (λ done. TakesRun (draft_of topology.now) (setup_of W.plan cluster.now)
        cluster.now.journal topic upto count done task.old task.new) }
{
    let mut left = count;
    while left > 0 {
        if !take_one::<H, W>(alloc, topology, cluster, task, topic, upto)? {
            return Ok(false);
        }
        left -= 1;
    }
    Ok(true)
}
