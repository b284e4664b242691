//! A worker's tasks read. This writes no entry.
ghost use Rattle.std.specs.Prelude.{◌≡◌, true, false, OnOk, IfOk};
ghost use Rattle.ks_history.specs.Machine.{has_topic};
ghost use Rattle.ks_plan.specs.Infos.{input_numbers};
ghost use Rattle.ks_topo.specs.Topologies.{draft_of, plan_in};
ghost use Rattle.ks_law_topology.specs.Work.{work_of};
ghost use Rattle.ks_law_restore.specs.Views.{take_all};
ghost use Rattle.ks_def_tasks.specs.Rules.{rules_of};
ghost use Rattle.ks_shared.specs.Calls.{setup_in};
ghost use Rattle.ks_task.specs.Tasks.{task_view, IsTaskOf};
ghost use Rattle.ks_worker_client.specs.Turns.{counts_after};
ghost use Rattle.ks_worker_client.specs.Calls.{MayCall, Later};
ghost use Rattle.ks_worker_client.specs.Members.{MemberHasSeen};
ghost use Rattle.ks_worker_state.specs.Tasks.{IsHeldTask, IsReadOnce};
ghost use Rattle.ks_worker_state.specs.Topology.{RunsTopology};

use ks_cluster::Work;
use ks_edge::Gate;
use ks_record::{PartId, Rec};
use ks_shared::Shared;
use ks_task::{MOST_FETCHED, Task};
use ks_task_processing::Processing;
use ks_topo::Topology;
use ks_worker_client::{Halt, Member, Session, or_halt};
use std::alloc::{AllocError, Global};
use std::sync::Wait;

// Takes these records of an input, one after another.
fn take_fetched<H: Processing>(
    alloc: Global,
    topology: &Topology,
    task: &mut Task,
    topic: u16,
    recs: &[(u64, Rec)],
) -> Result<(), AllocError>
    requires task { IsTaskOf (draft_of topology.now) task.old }
    requires input { has_topic topic (input_numbers (plan_in topology.now)
        (task_view task.old).task.sub) ≡ true }
    ensures task { OnOk result (IsTaskOf (draft_of topology.now) task.new) }
    ensures cache { task.new.cache ≡ task.old.cache }
    ensures view { OnOk result (task_view task.new
        ≡ take_all (work_of (rules_of H.hash_of) (plan_in topology.now)) (task_view task.old) topic
        recs.now) }
{
    task.take_all::<H>(alloc, topology, topic, recs)
}

/// A task takes what one fetch of one of its inputs gives, at most 32 records; whether that moved it.
pub fn read_once<H: Processing, R: Wait, W: Work, G: Gate>(
    rt: &R,
    alloc: Global,
    topology: &Topology,
    shared: &Shared<W>,
    session: &mut Session<W, G>,
    member: &Member,
    task: &mut Task,
    topic: u16,
) -> Result<bool, Halt>
    requires may { MayCall W.plan shared.now.growing.id session.old.client.pass
        session.old.client.gate }
    requires topology { RunsTopology H.hash_of (draft_of topology.now)
        (setup_in W.plan session.old.client.pass.frame) }
    requires seen { MemberHasSeen (setup_in W.plan session.old.client.pass.frame)
        session.old.client.pass.seen member.now session.old.last }
    requires task { IsHeldTask (draft_of topology.now)
        (setup_in W.plan session.old.client.pass.frame)
        session.old.client.pass.seen member.now session.old.last task.old }
    requires input { has_topic topic (input_numbers (plan_in topology.now)
        (task_view task.old).task.sub) ≡ true }
    ensures gate { session.new.client.gate ≡ counts_after session.old.client.gate result }
    ensures last { session.new.last ≡ session.old.last }
    ensures numbers { session.new.numbers ≡ session.old.numbers }
    ensures later { Later W.plan session.old.client.pass session.new.client.pass }
    ensures made { session.new.client.pass.made ≡ session.old.client.pass.made }
    ensures task { OnOk result (IsHeldTask (draft_of topology.now)
        (setup_in W.plan session.old.client.pass.frame)
        session.new.client.pass.seen member.now session.old.last task.new) }
    ensures read { IfOk result (λ moved. IsReadOnce (setup_in W.plan session.old.client.pass.frame)
        session.old.client.pass.seen topic moved task.old task.new) }
    ensures stays { IfOk result (λ moved. moved ≡ false → task.new ≡ task.old) }
{
    let from = task.input_position(topic);
    let part = PartId {
        topic,
        part: task.id().part,
    };
    let (recs, next) = session
        .client
        .fetch(rt, alloc, shared, part, from, MOST_FETCHED)?;
    if next == from {
        return Ok(false);
    }
    or_halt(take_fetched::<H>(alloc, topology, task, topic, recs.as_slice()))?;
    task.skip(topic, next);
    Ok(true)
}
