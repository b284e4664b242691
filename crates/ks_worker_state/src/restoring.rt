//! A task is made of a replica. This writes no entry.
ghost use Rattle.std.specs.Prelude.{◌≡◌, ◌≤◌, true, map, OnOk, IfOk, IfErr};
ghost use Rattle.ks_history.specs.Machine.{part_of};
ghost use Rattle.ks_history.specs.Reads.{ends_of};
ghost use Rattle.ks_history.specs.State.{has_task, offset_in};
ghost use Rattle.ks_plan.specs.Infos.{input_numbers, changelog_numbers};
ghost use Rattle.ks_plan.specs.Layout.{tasks};
ghost use Rattle.ks_topo.specs.Topologies.{draft_of, plan_in};
ghost use Rattle.ks_law_restore.specs.Replicas.{restored_view};
ghost use Rattle.ks_def_tasks.specs.Rules.{HaveParts};
ghost use Rattle.ks_shared.specs.Calls.{setup_in};
ghost use Rattle.ks_standby.specs.Replicas.{replica_view, changelogs_of};
ghost use Rattle.ks_task.specs.Tasks.{task_view, IsTaskOf};
ghost use Rattle.ks_worker_client.specs.declared.halt.Halt.TheVariants.{OutOfMemory};
ghost use Rattle.ks_worker_client.specs.Turns.{counts_after};
ghost use Rattle.ks_worker_client.specs.Calls.{MayCall, Later, state_seen};
ghost use Rattle.ks_worker_state.specs.Standbys.{IsStandby};
ghost use Rattle.ks_worker_client.specs.Members.{MemberHasSeen};
ghost use Rattle.ks_worker_state.specs.Tasks.{IsHeldTask};
ghost use Rattle.ks_worker_state.specs.Topology.{RunsTopology};
ghost use Rattle.ks_worker_state.specs.Restoring.{reached_in, IsMadeAtTheEnds, IsRestoredAtTheEnds, IsShortOfTheEnds, IsGivenBack};

use crate::feeding::feed_to_ends;
use crate::topics::changelogs_in;
use ks_cluster::Work;
use ks_edge::Gate;
use ks_hash::Hash128;
use ks_record::{PartId, TaskId};
use ks_shared::Shared;
use ks_standby::Replica;
use ks_task::Task;
use ks_topo::Topology;
use ks_worker_client::{ClusterClient, Halt, Member, Session, or_halt};
use std::alloc::{AllocError, Global};
use std::sync::Wait;

// The partitions of a task in these topics.
fn parts_of(alloc: Global, task: TaskId, topics: &[u16]) -> Result<Vec<PartId>, AllocError>
    ensures { IfOk result (λ v. v.items ≡ map (λ topic. part_of topic task) topics.now) }
{
    let mut parts = Vec::new(alloc);
    for topic in topics {
        parts.push(PartId {
            topic: *topic,
            part: task.part,
        })?;
    }
    Ok(parts)
}

// Whether a replica stands at or past these ends of these changelogs.
fn has_reached(replica: &Replica, changelogs: &[u16], ends: &[u64]) -> bool
    ensures { result ≡ reached_in (replica_view replica.now).position changelogs.now ends.now }
{
    let mut topics = changelogs;
    let mut left = ends;
    while let [topic, more @ ..] = topics {
        let [end, rest @ ..] = left else {
            return false;
        };
        if replica.position(*topic) < *end {
            return false;
        }
        topics = more;
        left = rest;
    }
    true
}

// The ends of a task's changelogs, in their order.
fn ends_of_task<R: Wait, W: Work, G: Gate>(
    rt: &R,
    alloc: Global,
    shared: &Shared<W>,
    client: &mut ClusterClient<W, G>,
    task: TaskId,
    changelogs: &[u16],
) -> Result<Vec<u64>, Halt>
    requires may { MayCall W.plan shared.now.growing.id client.old.pass client.old.gate }
    requires known { has_task task (setup_in W.plan client.old.pass.frame).tasks ≡ true }
    requires changelogs { changelogs.now
        ≡ (setup_in W.plan client.old.pass.frame).plan.changelogs task.sub }
    ensures gate { client.new.gate ≡ counts_after client.old.gate result }
    ensures later { Later W.plan client.old.pass client.new.pass }
    ensures made { client.new.pass.made ≡ client.old.pass.made }
    ensures ends { IfOk result (λ v. v.items ≡ ends_of (state_seen W.plan client.new.pass)
        (map (λ topic. part_of topic task) changelogs.now)) }
{
    let parts = or_halt(parts_of(alloc, task, changelogs))?;
    client.ends(rt, alloc, shared, parts.as_slice())
}

// A task of a replica; on want of memory the replica is let go.
fn task_of(
    alloc: Global,
    topology: &Topology,
    replica: Replica,
    offsets: &[(u16, u64)],
    cache: u32,
) -> Result<Task, Halt>
    requires parts { HaveParts (plan_in topology.now) }
    requires there { has_task replica.id (tasks (plan_in topology.now)) ≡ true }
    requires changelogs { changelogs_of replica
        ≡ changelog_numbers (plan_in topology.now) replica.id.sub }
    requires offsets { map (λ o. o.0) offsets.now
        ≡ input_numbers (plan_in topology.now) replica.id.sub }
    ensures task { IfOk result (λ t. IsTaskOf (draft_of topology.now) t) }
    ensures view { IfOk result (λ t. task_view t
        ≡ restored_view (replica_view replica) (λ topic. offset_in 0 topic offsets.now)) }
    ensures cache { IfOk result (λ t. t.cache ≡ cache) }
    ensures memory { IfErr result (λ halt. halt ≡ OutOfMemory) }
{
    match Task::of(alloc, topology, replica, offsets, cache) {
        Ok(task) => Ok(task),
        Err(_failed) => Err(Halt::OutOfMemory),
    }
}

// Makes a task of a replica of these committed offsets, once it is fed and has reached the ends of its changelogs; else it is given back.
fn restore_with<H: Hash128, R: Wait, W: Work, G: Gate>(
    rt: &R,
    alloc: Global,
    topology: &Topology,
    shared: &Shared<W>,
    client: &mut ClusterClient<W, G>,
    mut replica: Replica,
    offsets: &[(u16, u64)],
    cache: u32,
) -> Result<Result<Task, Replica>, Halt>
    requires may { MayCall W.plan shared.now.growing.id client.old.pass client.old.gate }
    requires topology { RunsTopology H.hash_of (draft_of topology.now)
        (setup_in W.plan client.old.pass.frame) }
    requires standby { IsStandby (setup_in W.plan client.old.pass.frame) client.old.pass.seen
        replica }
    requires offsets { map (λ o. o.0) offsets.now
        ≡ input_numbers (plan_in topology.now) replica.id.sub }
    ensures gate { client.new.gate ≡ counts_after client.old.gate result }
    ensures later { Later W.plan client.old.pass client.new.pass }
    ensures made { client.new.pass.made ≡ client.old.pass.made }
    ensures task { IfOk result (λ r. IfOk r (IsMadeAtTheEnds W.plan (draft_of topology.now)
        client.old.pass client.new.pass replica.id offsets.now)) }
    ensures cache { IfOk result (λ r. IfOk r (λ t. t.cache ≡ cache)) }
    ensures standby { IfOk result (λ r. IfErr r (λ b. IsStandby
        (setup_in W.plan client.old.pass.frame) client.new.pass.seen b)) }
    ensures same { IfOk result (λ r. IfErr r (λ b. b.id ≡ replica.id)) }
    ensures back { IfOk result (λ r. IfErr r (IsShortOfTheEnds W.plan client.old.pass
        client.new.pass)) }
{
    let task = replica.id();
    let changelogs = changelogs_in(topology, task.sub);
    let told = ends_of_task(rt, alloc, shared, client, task, changelogs)?;
    let ends = told.as_slice();
    feed_to_ends(rt, alloc, shared, client, &mut replica, changelogs, ends)?;
    if !has_reached(&replica, changelogs, ends) {
        return Ok(Err(replica));
    }
    Ok(Ok(task_of(alloc, topology, replica, offsets, cache)?))
}

/// Makes a task of a replica, where the group answers its committed offsets and the replica, fed until no fetch moves it or it has reached
/// the ends of its changelogs, has reached them; else the replica is given back, for a later try: the group refused the offsets, or a
/// transaction that writes to a changelog isn't decided yet.
///
/// The committed offsets are asked for first and the ends then, so that nothing is committed for the task behind these ends while it is
/// the worker's.
pub fn restore<H: Hash128, R: Wait, W: Work, G: Gate>(
    rt: &R,
    alloc: Global,
    topology: &Topology,
    shared: &Shared<W>,
    session: &mut Session<W, G>,
    member: Member,
    replica: Replica,
) -> Result<Result<Task, Replica>, Halt>
    requires may { MayCall W.plan shared.now.growing.id session.old.client.pass
        session.old.client.gate }
    requires topology { RunsTopology H.hash_of (draft_of topology.now)
        (setup_in W.plan session.old.client.pass.frame) }
    requires worker { member.number ≤ 16 }
    requires seen { MemberHasSeen (setup_in W.plan session.old.client.pass.frame)
        session.old.client.pass.seen member session.old.last }
    requires standby { IsStandby (setup_in W.plan session.old.client.pass.frame)
        session.old.client.pass.seen replica }
    ensures gate { session.new.client.gate ≡ counts_after session.old.client.gate result }
    ensures last { session.new.last ≡ session.old.last }
    ensures numbers { session.new.numbers ≡ session.old.numbers }
    ensures later { Later W.plan session.old.client.pass session.new.client.pass }
    ensures made { session.new.client.pass.made ≡ session.old.client.pass.made }
    ensures task { IfOk result (λ r. IfOk r (λ t. IsHeldTask (draft_of topology.now)
        (setup_in W.plan session.old.client.pass.frame) session.new.client.pass.seen member
        session.old.last t)) }
    ensures ends { IfOk result (λ r. IfOk r (IsRestoredAtTheEnds W.plan (draft_of topology.now)
        session.old.client.pass session.new.client.pass member.number member.generation
        replica.id)) }
    ensures named { IfOk result (λ r. IfOk r (λ t. (task_view t).task ≡ replica.id)) }
    ensures standby { IfOk result (λ r. IfErr r (λ b. IsStandby
        (setup_in W.plan session.old.client.pass.frame) session.new.client.pass.seen b)) }
    ensures same { IfOk result (λ r. IfErr r (λ b. b.id ≡ replica.id)) }
    ensures back { IfOk result (λ r. IfErr r (IsGivenBack W.plan session.old.client.pass
        session.new.client.pass member.number member.generation)) }
{
    let task = replica.id();
    let answer = session
        .client
        .committed(rt, alloc, shared, member.number, member.generation, task)?;
    let Ok(offsets) = answer else {
        return Ok(Err(replica));
    };
    restore_with::<H, R, W, G>(
        rt,
        alloc,
        topology,
        shared,
        &mut session.client,
        replica,
        offsets.as_slice(),
        member.cache,
    )
}
