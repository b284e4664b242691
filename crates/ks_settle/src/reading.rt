//! A task reads a topic to its end.
ghost use Rattle.std.specs.Prelude.{◌≡◌, ◌≤◌, true, IfOk, OnOk, IfSome, option_map};
ghost use Rattle.ks_topo.specs.Topologies.{draft_of, plan_in};
ghost use Rattle.ks_plan.specs.Infos.{input_numbers};
ghost use Rattle.ks_history.specs.Machine.{has_topic};
ghost use Rattle.ks_law_topology.specs.Work.{work_of};
ghost use Rattle.ks_cluster.specs.View.{ClusterView, setup_of, state_of};
ghost use Rattle.ks_law_restore.specs.Views.{take_all};
ghost use Rattle.ks_commit.specs.Work.{work_view};
ghost use Rattle.ks_def_tasks.specs.Rules.{rules_of};
ghost use Rattle.ks_task.specs.Tasks.{task_view, IsTaskOf};
ghost use Rattle.ks_settle.specs.Drained.{MayRead, Rests, IsFetched, IsReadOn, IsRead, IsReader};

use ks_cluster::{Cluster, Work};
use ks_commit::Frozen;
use ks_record::{PartId, Rec};
use ks_task::{MOST_FETCHED, Task};
use ks_task_processing::Processing;
use ks_topo::Topology;
use std::alloc::{AllocError, Global};

// Whether the topic is one of these numbers.
fn has_number(numbers: &[u16], topic: u16) -> bool
    ensures { result ≡ has_topic topic numbers.now }
{
    let mut rest = numbers;
    while let [first, more @ ..] = rest {
        if topic == *first {
            return true;
        }
        rest = more;
    }
    false
}

// Takes these records of an input, one after another.
fn take_fetched<H: Processing>(
    alloc: Global,
    topology: &Topology,
    task: &mut Task,
    topic: u16,
    recs: &[(u64, Rec)],
) -> Result<(), AllocError>
    requires task { IsTaskOf (draft_of topology.now) task.old }
    requires input { has_topic topic (input_numbers (plan_in topology.now)
        (task_view task.old).task.sub) ≡ true }
    ensures task { OnOk result (IsTaskOf (draft_of topology.now) task.new) }
    ensures cache { task.new.cache ≡ task.old.cache }
    ensures view { OnOk result (task_view task.new
        ≡ take_all (work_of (rules_of H.hash_of) (plan_in topology.now)) (task_view task.old) topic
        recs.now) }
{
    task.take_all::<H>(alloc, topology, topic, recs)
}

// One fetch from where the task stands; false where it doesn't move it, and then it stands at the end.
fn fetch_on<H: Processing, W: Work>(
    alloc: Global,
    topology: &Topology,
    cluster: &Cluster<W>,
    task: &mut Task,
    topic: u16,
) -> Result<bool, AllocError>
    requires may { MayRead W.plan (rules_of H.hash_of) (draft_of topology.now) cluster.now }
    requires reader { IsReader (draft_of topology.now) (setup_of W.plan cluster.now)
        cluster.now.journal topic task.old }
    ensures { IfOk result (λ moved. IsFetched (draft_of topology.now) (setup_of W.plan cluster.now)
        cluster.now.journal topic moved task.old task.new) }
{
    cluster.is_history();
    let part = PartId {
        topic,
        part: task.id().part,
    };
    let from = task.input_position(topic);
    let (recs, next) = cluster.fetch(alloc, part, from, MOST_FETCHED)?;
    if next == from {
        return Ok(false);
    }
    take_fetched::<H>(alloc, topology, task, topic, recs.as_slice())?;
    task.skip(topic, next);
    Ok(true)
}

// Fetches until a fetch doesn't move the task; whether any did.
fn read_on<H: Processing, W: Work>(
    alloc: Global,
    topology: &Topology,
    cluster: &Cluster<W>,
    task: &mut Task,
    topic: u16,
) -> Result<bool, AllocError>
    requires may { MayRead W.plan (rules_of H.hash_of) (draft_of topology.now) cluster.now }
    requires reader { IsReader (draft_of topology.now) (setup_of W.plan cluster.now)
        cluster.now.journal topic task.old }
    ensures { IfOk result (λ moved. IsReadOn (draft_of topology.now) (setup_of W.plan cluster.now)
        cluster.now.journal topic moved task.old task.new) }
{
    let mut moved = false;
    while fetch_on::<H, W>(alloc, topology, cluster, task, topic)? {
        moved = true;
    }
    Ok(moved)
}

/// A task reads a topic to its end, where it is one of its inputs; what it then has to commit, if it has taken anything or passed
/// over anything. `AllocError`: memory ran out; the task may have taken a part of the topic, and its owner lets it go.
pub fn read_task<H: Processing, W: Work>(
    alloc: Global,
    topology: &Topology,
    cluster: &Cluster<W>,
    inputs: &[u16],
    task: &mut Task,
    topic: u16,
) -> Result<Option<Frozen>, AllocError>
    requires may { MayRead W.plan (rules_of H.hash_of) (draft_of topology.now) cluster.now }
    requires inputs { inputs.now ≡ (W.plan cluster.now.work).inputs (task_view task.old).task.sub }
    requires rests { Rests (draft_of topology.now) (setup_of W.plan cluster.now)
        cluster.now.journal topic task.old }
    ensures { IfOk result (λ o. IsRead (draft_of topology.now) (setup_of W.plan cluster.now)
        cluster.now.journal topic task.old task.new (option_map work_view o)) }
{
    if !has_number(inputs, topic) {
        return Ok(None);
    }
    let moved = read_on::<H, W>(alloc, topology, cluster, task, topic)?;
    if !moved {
        return Ok(None);
    }
    Ok(Some(task.freeze(alloc)?))
}
