//! Tasks are restored: replicas are fed up to the ends of their changelogs, and made tasks at the committed offsets.
ghost use Rattle.std.specs.Prelude.{◌≡◌, ℕ, true, length, List, IfOk, OnOk};
ghost use Rattle.std.specs.List.{All};
ghost use Rattle.ks_history.specs.Machine.{has_topic};
ghost use Rattle.ks_history.specs.declared.journal.Entry.{Entry};
ghost use Rattle.ks_history.specs.State.{Setup, has_task};
ghost use Rattle.ks_topo.specs.Topologies.{draft_of, plan_in};
ghost use Rattle.ks_cluster.specs.View.{setup_of, state_of};
ghost use Rattle.ks_commit.specs.Committed.{IsReady};
ghost use Rattle.ks_def_tasks.specs.Rules.{HaveParts};
ghost use Rattle.ks_settle.specs.Drained.{MayDrain, HasTasksOf, Rests, AreRestored};
ghost use Rattle.ks_settle.specs.Restoring.{IsQuiet, IsReplicaAt, IsReplicaOf, IsFedOn, IsFedTo, HasReachedFirst};
ghost use Rattle.ks_settle.specs.Restored.{MayRestore, MayBegin, IsRestoredAs, names_in, IsGiven, AreGiven, AreTried};

use crate::picking::take_furthest;
use ks_cluster::{Cluster, Work};
use ks_commit::Publisher;
use ks_record::{PartId, TaskId};
use ks_standby::Replica;
use ks_task::{MOST_FED, Task};
use ks_topo::{Topology, share_topology};
use std::alloc::{AllocError, Global};
use std::thread;
use std::thread::Threads;

// The most threads that restore tasks side by side.
const THREADS: usize = 64;

// The name of a task, a replica to go on from, where there is one, and what came of restoring it; want of memory until then.
#[derive(Drop)]
struct Restoration {
    name: TaskId,
    replica: Option<Replica>,
    task: Result<Task, AllocError>,
}

// One fetch of a changelog from where the replica stands; false where it doesn't move it, and then it stands at the end.
fn feed_on<W: Work>(
    alloc: Global,
    cluster: &Cluster<W>,
    replica: &mut Replica,
    changelog: u16,
) -> Result<bool, AllocError>
    requires quiet { IsQuiet W.plan cluster.now }
    requires own { has_topic changelog ((W.plan cluster.now.work).changelogs replica.old.id.sub)
        ≡ true }
    requires of { IsReplicaOf (setup_of W.plan cluster.now) cluster.now.journal
        replica.old.id replica.old }
    ensures { IfOk result (λ moved. IsFedOn (setup_of W.plan cluster.now) cluster.now.journal
        replica.old.id changelog moved replica.old replica.new) }
{
    cluster.is_history();
    let part = PartId {
        topic: changelog,
        part: replica.id().part,
    };
    let from = replica.position(changelog);
    let (recs, next) = cluster.fetch(alloc, part, from, MOST_FED)?;
    if next == from {
        return Ok(false);
    }
    replica.feed(changelog, recs, next)?;
    Ok(true)
}

// Feeds the replica a changelog up to its end.
fn feed_to_end<W: Work>(
    alloc: Global,
    cluster: &Cluster<W>,
    replica: &mut Replica,
    changelog: u16,
) -> Result<(), AllocError>
    requires quiet { IsQuiet W.plan cluster.now }
    requires own { has_topic changelog ((W.plan cluster.now.work).changelogs replica.old.id.sub)
        ≡ true }
    requires of { IsReplicaOf (setup_of W.plan cluster.now) cluster.now.journal
        replica.old.id replica.old }
    ensures { OnOk result (IsFedTo (setup_of W.plan cluster.now) cluster.now.journal
        replica.old.id changelog replica.old replica.new) }
{
    // The journal is a history: a fetch stands at the end only where all is stable.
    cluster.is_history();
    let mut moved = true;
    while moved {
        moved = feed_on(alloc, cluster, replica, changelog)?;
    }
    Ok(())
}

// A replica of a task with these changelogs: the one that is given, or a new one with this seed.
fn replica_or_new<W: Work>(
    alloc: Global,
    cluster: &Cluster<W>,
    task: TaskId,
    changelogs: &[u16],
    seed: u64,
    given: Option<Replica>,
) -> Result<Replica, AllocError>
    requires given { IsGiven (setup_of W.plan cluster.now) cluster.now.journal task given }
    requires quiet { IsQuiet W.plan cluster.now }
    requires there { has_task task cluster.now.tasks ≡ true }
    requires changelogs { changelogs.now ≡ (W.plan cluster.now.work).changelogs task.sub }
    ensures { IfOk result (λ r. HasReachedFirst (setup_of W.plan cluster.now) cluster.now.journal
        task changelogs.now 0 r) }
{
    // The journal is a history: a new replica follows it.
    cluster.is_history();
    match given {
        Some(replica) => Ok(replica),
        None => {
            let replica = Replica::new(alloc, task, changelogs, seed)?;
            Ok(replica)
        }
    }
}

// A replica of a task with these changelogs, fed each of them up to its end: the one that is given, or a new one.
fn fed_replica<W: Work>(
    alloc: Global,
    cluster: &Cluster<W>,
    task: TaskId,
    changelogs: &[u16],
    seed: u64,
    given: Option<Replica>,
) -> Result<Replica, AllocError>
    requires given { IsGiven (setup_of W.plan cluster.now) cluster.now.journal task given }
    requires quiet { IsQuiet W.plan cluster.now }
    requires there { has_task task cluster.now.tasks ≡ true }
    requires changelogs { changelogs.now ≡ (W.plan cluster.now.work).changelogs task.sub }
    ensures { IfOk result (λ r. HasReachedFirst (setup_of W.plan cluster.now) cluster.now.journal
        task changelogs.now (length changelogs.now) r) }
{
    cluster.is_history();
    let mut replica = replica_or_new(alloc, cluster, task, changelogs, seed, given)?;
    for i in 0..changelogs.len() {
        feed_to_end(alloc, cluster, &mut replica, changelogs[i])?;
    }
    Ok(replica)
}

/// A new replica of a task with these changelogs, whose stores begin the hashes of keys with this seed, fed each of them up to its end.
/// Want of memory is the one error.
pub fn replica_at_ends<W: Work>(
    alloc: Global,
    cluster: &Cluster<W>,
    task: TaskId,
    changelogs: &[u16],
    seed: u64,
) -> Result<Replica, AllocError>
    requires quiet { IsQuiet W.plan cluster.now }
    requires there { has_task task cluster.now.tasks ≡ true }
    requires changelogs { changelogs.now ≡ (W.plan cluster.now.work).changelogs task.sub }
    ensures { IfOk result (λ r. HasReachedFirst (setup_of W.plan cluster.now) cluster.now.journal
        task changelogs.now (length changelogs.now) r) }
{
    fed_replica(alloc, cluster, task, changelogs, seed, None)
}

// A task of the worker that has every task: its committed offsets are read, and then a replica is fed up to the ends.
fn restore<W: Work>(
    alloc: Global,
    topology: &Topology,
    cluster: &Cluster<W>,
    publisher: &Publisher,
    task: TaskId,
    given: Option<Replica>,
    cache: u32,
) -> Result<Task, AllocError>
    requires given { IsGiven (setup_of W.plan cluster.now) cluster.now.journal task given }
    requires may { MayDrain (setup_of W.plan cluster.now) }
    requires of { HasTasksOf W.plan (draft_of topology.now) cluster.now }
    requires parts { HaveParts (plan_in topology.now) }
    requires ready { IsReady (setup_of W.plan cluster.now) (state_of W.plan cluster.now)
        publisher.now }
    requires there { has_task task cluster.now.tasks ≡ true }
    ensures rests { IfOk result (λ t. Rests (draft_of topology.now) (setup_of W.plan cluster.now)
        cluster.now.journal 0 t) }
    ensures id { IfOk result (λ t. t.id ≡ task) }
    ensures cache { IfOk result (λ t. t.cache ≡ cache) }
{
    cluster.is_history();
    let offsets = publisher.committed(alloc, cluster, task)?;
    let changelogs = topology.changelogs(task.sub);
    let replica = fed_replica(alloc, cluster, task, changelogs, topology.seed(), given)?;
    match Task::of(alloc, topology, replica, offsets.as_slice(), cache) {
        Ok(task) => Ok(task),
        Err(_) => Err(AllocError),
    }
}

// These tasks, none of which is restored yet; of each the furthest of the replicas is given to it.
fn restorations_of(
    alloc: Global,
    names: &[TaskId],
    replicas: Vec<Replica>,
) -> Result<Vec<Restoration>, AllocError>
    ensures names { IfOk result (λ v. names_in v.items ≡ names.now) }
    ensures given { (setup : Setup) (journal : List Entry)
        → All (IsReplicaAt setup journal) replicas.items
        → IfOk result (λ v. AreGiven setup journal v.items) }
{
    let mut left = replicas;
    let mut all = Vec::with_capacity(alloc, names.len())?;
    for name in names {
        let replica = take_furthest(&mut left, *name);
        all.push(Restoration {
            name: *name,
            replica,
            task: Err(AllocError),
        })?;
    }
    Ok(all)
}

// Restores one task.
fn restore_own<W: Work>(
    alloc: Global,
    topology: &Topology,
    cluster: &Cluster<W>,
    publisher: &Publisher,
    cache: u32,
    one: &mut Restoration,
)
    requires may { MayRestore W.plan (draft_of topology.now) cluster.now publisher.now }
    requires there { MayBegin W.plan cluster.now one.old }
    ensures { IsRestoredAs (draft_of topology.now) (setup_of W.plan cluster.now)
        cluster.now.journal cache one.old.name one.new }
{
    let given = one.replica.take();
    one.task = restore(alloc, topology, cluster, publisher, one.name, given, cache);
}

// Restores all of the tasks, side by side.
fn restore_each<R: Threads + Sync, W: Work + Sync>(
    rt: &R,
    alloc: Global,
    topology: &Topology,
    cluster: &Cluster<W>,
    publisher: &Publisher,
    cache: u32,
    all: &mut [Restoration],
)
    requires may { MayRestore W.plan (draft_of topology.now) cluster.now publisher.now }
    requires there { All (MayBegin W.plan cluster.now) all.old }
    ensures { AreTried (draft_of topology.now) (setup_of W.plan cluster.now)
        cluster.now.journal cache all.old all.new }
{
    share_topology();
    let one = |_: usize, it: &mut Restoration|
        requires { MayRestore W.plan (draft_of topology.now) cluster.now publisher.now
            × MayBegin W.plan cluster.now it.now }
        ensures { IsRestoredAs (draft_of topology.entry.now) (setup_of W.plan cluster.entry.now)
            cluster.entry.now.journal cache it.entry.now.name it.exit.now }
    { restore_own(alloc, topology, cluster, publisher, cache, it) };
    thread::for_each_mut(rt, all, THREADS, &one);
}

/// Every task of the topology, restored by the worker that has them all, side by side in at most 64 threads, each on from the furthest of
/// these replicas that is its own: its stores are what the committed records of its changelogs leave, its positions the committed
/// offsets, and each store holds back at most `cache` pairs from then on. Kafka Streams: what a `StoreChangelogReader` does before a task
/// runs. `AllocError`: memory ran out; the cluster is as it was.
pub fn restore_tasks<R: Threads + Sync, W: Work + Sync>(
    rt: &R,
    alloc: Global,
    topology: &Topology,
    cluster: &Cluster<W>,
    publisher: &Publisher,
    replicas: Vec<Replica>,
    cache: u32,
) -> Result<Vec<Task>, AllocError>
    requires replicas { All (IsReplicaAt (setup_of W.plan cluster.now) cluster.now.journal)
        replicas.items }
    requires may { MayDrain (setup_of W.plan cluster.now) }
    requires of { HasTasksOf W.plan (draft_of topology.now) cluster.now }
    requires parts { HaveParts (plan_in topology.now) }
    requires ready { IsReady (setup_of W.plan cluster.now) (state_of W.plan cluster.now)
        publisher.now }
    ensures { IfOk result (λ v. AreRestored (draft_of topology.now) (setup_of W.plan cluster.now)
        cluster.now.journal cluster.now.tasks cache v.items) }
{
    let mut all = restorations_of(alloc, topology.tasks(), replicas)?;
    let each = all.as_mut_slice();
    restore_each(rt, alloc, topology, cluster, publisher, cache, each);
    let mut tasks = Vec::new(alloc);
    for one in all {
        tasks.push(one.task?)?;
    }
    Ok(tasks)
}
