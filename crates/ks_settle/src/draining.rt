//! A cluster is brought to rest, topic by topic.
ghost use Rattle.std.specs.Prelude.{◌≡◌, ◌+◌, ℕ, length, [], ◌∷◌, IfOk, OnOk, option_map};
ghost use Rattle.std.specs.List.{All};
ghost use Rattle.ks_topo.specs.Topologies.{draft_of, plan_in};
ghost use Rattle.ks_plan.specs.Infos.{changelog_numbers, drain_numbers};
ghost use Rattle.ks_history.specs.Settled.{IsSettled};
ghost use Rattle.ks_law_topology.specs.Work.{setup_of as topology_setup};
ghost use Rattle.ks_cluster.specs.View.{setup_of, state_of};
ghost use Rattle.ks_commit.specs.Committed.{works_of, tasks_in as worked_in, IsReady};
ghost use Rattle.ks_commit.specs.Everything.{everything, IsGoodForAll};
ghost use Rattle.ks_commit.specs.Work.{work_view};
ghost use Rattle.ks_def_tasks.specs.Rules.{HaveParts, rules_of};
ghost use Rattle.ks_settle.specs.Drained.{MayDrain, IsOfTopology, MayRead, with_work, IsRead, Rests, tasks_in, HaveCache, caches_in, AreTried, AreReading, AreResting, HasTasksOf, drain_worker, DrainsOn, Extends};
ghost use Rattle.ks_settle.specs.Restoring.{IsReplicaAt};

use crate::committed::tell;
use crate::reading::read_task;
use crate::removing::{remove_workers, write_all_markers};
use crate::restoring::restore_tasks;
use ks_cluster::{Cluster, Work};
use ks_commit::{Frozen, Publisher, commit};
use ks_record::TaskId;
use ks_standby::Replica;
use ks_task::Task;
use ks_task_processing::Processing;
use ks_topo::{Topology, share_topology};
use std::alloc::{AllocError, Global};
use std::thread::Threads;
use std::{mem, thread};

// The worker that drains; the others are 0 to 15.
const WORKER: u8 = 16;

// The most threads that read a topic side by side.
const THREADS: usize = 64;

// A task, and what came of its reading: the work that it then has, if it has one.
#[derive(Drop)]
struct Attempt {
    task: Task,
    work: Result<Option<Frozen>, AllocError>,
}

// Lets all of these go, side by side.
fn let_go<R: Threads + Sync, T: Send + Drop>(rt: &R, all: Vec<T>) {
    drop(thread::map_vec(rt, all, &|one: T| drop(one)));
}

fn keep(works: &mut Vec<Frozen>, work: Option<Frozen>) -> Result<(), AllocError>
    ensures { OnOk result (works_of works.new.items ≡ with_work (works_of works.old.items)
        (option_map work_view work)) }
{
    match work {
        Some(work) => works.push(work)?,
        None => {}
    }
    Ok(())
}

// The tasks, none of which has read yet.
fn attempts_of(alloc: Global, tasks: Vec<Task>) -> Result<Vec<Attempt>, AllocError>
    ensures { IfOk result (λ v. tasks_in v.items ≡ tasks.items) }
{
    let mut attempts = Vec::new(alloc);
    for task in tasks {
        attempts.push(Attempt {
            task,
            work: Ok(None),
        })?;
    }
    Ok(attempts)
}

// A task reads the topic to its end, where it is one of its inputs.
fn read_own<H: Processing, W: Work>(
    alloc: Global,
    topology: &Topology,
    cluster: &Cluster<W>,
    attempt: &mut Attempt,
    topic: u16,
)
    requires may { MayRead W.plan (rules_of H.hash_of) (draft_of topology.now) cluster.now }
    requires rests { Rests (draft_of topology.now) (setup_of W.plan cluster.now)
        cluster.now.journal topic attempt.old.task }
    ensures { IfOk attempt.new.work (λ o. IsRead (draft_of topology.now)
        (setup_of W.plan cluster.now)
        cluster.now.journal topic attempt.old.task attempt.new.task (option_map work_view o)) }
{
    let inputs = topology.inputs(attempt.task.id().sub);
    attempt.work = read_task::<H, W>(alloc, topology, cluster, inputs, &mut attempt.task, topic);
}

// All of the tasks, side by side.
fn read_each<H: Processing + Sync, R: Threads + Sync, W: Work + Sync>(
    rt: &R,
    alloc: Global,
    topology: &Topology,
    cluster: &Cluster<W>,
    attempts: &mut [Attempt],
    topic: u16,
)
    requires may { MayRead W.plan (rules_of H.hash_of) (draft_of topology.now) cluster.now }
    requires rests { All (λ a. Rests (draft_of topology.now) (setup_of W.plan cluster.now)
        cluster.now.journal topic a.task) attempts.old }
    ensures { AreTried (draft_of topology.now) (setup_of W.plan cluster.now)
        cluster.now.journal topic attempts.old attempts.new }
{
    share_topology();
    let one = |_: usize, attempt: &mut Attempt|
        requires { MayRead W.plan (rules_of H.hash_of) (draft_of topology.now) cluster.now
            × Rests (draft_of topology.now) (setup_of W.plan cluster.now) cluster.now.journal topic
            attempt.now.task }
        ensures { IfOk attempt.exit.now.work (λ o. IsRead (draft_of topology.entry.now)
            (setup_of W.plan cluster.entry.now) cluster.entry.now.journal topic
            attempt.entry.now.task attempt.exit.now.task (option_map work_view o)) }
    { read_own::<H, W>(alloc, topology, cluster, attempt, topic) };
    thread::for_each_mut(rt, attempts, THREADS, &one);
}

// Each task that reads the topic reads it to its end; what they then have to commit.
fn read_tasks<H: Processing + Sync, R: Threads + Sync, W: Work + Sync>(
    rt: &R,
    alloc: Global,
    topology: &Topology,
    cluster: &Cluster<W>,
    tasks: &mut Vec<Task>,
    topic: u16,
) -> Result<Vec<Frozen>, AllocError>
    requires may { MayRead W.plan (rules_of H.hash_of) (draft_of topology.now) cluster.now }
    requires reading { AreReading (draft_of topology.now) (setup_of W.plan cluster.now)
        cluster.now.journal topic 0 tasks.old.items [] }
    ensures reading { IfOk result (λ works. AreReading (draft_of topology.now)
        (setup_of W.plan cluster.now)
        cluster.now.journal topic (length tasks.new.items) tasks.new.items (works_of works.items)) }
    ensures caches { OnOk result (caches_in tasks.new.items ≡ caches_in tasks.old.items) }
{
    let all = mem::replace(tasks, Vec::new(alloc));
    let mut attempts = attempts_of(alloc, all)?;
    let each = attempts.as_mut_slice();
    read_each::<H, R, W>(rt, alloc, topology, cluster, each, topic);
    let mut works = Vec::new(alloc);
    for attempt in attempts {
        tasks.push(attempt.task)?;
        keep(&mut works, attempt.work?)?;
    }
    Ok(works)
}

// The tasks of these works.
fn workers(alloc: Global, works: &[Frozen]) -> Result<Vec<TaskId>, AllocError>
    ensures { IfOk result (λ v. v.items ≡ worked_in (works_of works.now)) }
{
    let mut worked = Vec::with_capacity(alloc, works.len())?;
    for work in works {
        worked.push(work.task)?;
    }
    Ok(worked)
}

// The tasks of a worker, and the account of what it publishes. Kafka Streams: what the TaskManager of a StreamThread holds.
#[derive(Drop)]
struct TaskManager {
    tasks: Vec<Task>,
    publisher: Publisher,
}

impl TaskManager {
    // Whatever workers the cluster had are removed; then one of its own has every task, and each is restored.
    fn start<R: Threads + Sync, W: Work + Sync>(
        rt: &R,
        alloc: Global,
        topology: &Topology,
        cluster: &mut Cluster<W>,
        replicas: Vec<Replica>,
        cache: u32,
    ) -> Result<TaskManager, AllocError>
        requires may { MayDrain (setup_of W.plan cluster.old) }
        requires of { HasTasksOf W.plan (draft_of topology.now) cluster.old }
        requires parts { HaveParts (plan_in topology.now) }
        requires alone { IsGoodForAll (W.good cluster.old.work) (drain_worker ∷ [])
            (everything drain_worker cluster.old.tasks) }
        requires replicas { All (IsReplicaAt (setup_of W.plan cluster.old) cluster.old.journal)
            replicas.items }
        ensures resting { IfOk result (λ m. AreResting W.plan cluster.new m.publisher
            (draft_of topology.now) 0 m.tasks.items) }
        ensures caches { IfOk result (λ m. HaveCache cache m.tasks.items) }
        ensures on { DrainsOn 0 cluster.old cluster.new }
    {
        remove_workers(alloc, cluster)?;
        write_all_markers(alloc, cluster)?;
        let publisher = Publisher::start(alloc, cluster, WORKER, topology.tasks())?;
        // The journal is a history: the replicas follow it.
        cluster.is_history();
        let tasks = restore_tasks(rt, alloc, topology, cluster, &publisher, replicas, cache)?;
        Ok(TaskManager { tasks, publisher })
    }

    // Commits the works in one transaction, with all its markers, and tells the tasks.
    fn publish<W: Work>(
        &mut self,
        alloc: Global,
        topology: &Topology,
        cluster: &mut Cluster<W>,
        works: Vec<Frozen>,
        topic: u16,
    ) -> Result<(), AllocError>
        requires may { MayDrain (setup_of W.plan cluster.old) }
        requires logs { (sub : ℕ) →
            (W.plan cluster.old.work).changelogs sub
            ≡ changelog_numbers (plan_in topology.now) sub }
        requires worker { self.old.publisher.worker ≡ drain_worker }
        requires ready { IsReady (setup_of W.plan cluster.old) (state_of W.plan cluster.old)
            self.old.publisher }
        requires reading { AreReading (draft_of topology.now) (setup_of W.plan cluster.old)
            cluster.old.journal topic (length self.old.tasks.items) self.old.tasks.items
            (works_of works.items) }
        ensures rest { OnOk result (
            AreResting W.plan cluster.new self.new.publisher (draft_of topology.now) (topic + 1)
            self.new.tasks.items) }
        ensures caches { OnOk result (caches_in self.new.tasks.items
            ≡ caches_in self.old.tasks.items) }
        ensures on { DrainsOn 1 cluster.old cluster.new }
    {
        if works.is_empty() {
            return Ok(());
        }
        let worked = workers(alloc, works.as_slice())?;
        let ends = commit(alloc, cluster, &mut self.publisher, works)?;
        cluster.is_history();
        tell(
            topology,
            &mut self.tasks,
            worked.as_slice(),
            ends.as_slice(),
        )?;
        Ok(())
    }

    // The tasks that read the topic read it to its end, and then one transaction commits what they made.
    fn drain_topic<H: Processing + Sync, R: Threads + Sync, W: Work + Sync>(
        &mut self,
        rt: &R,
        alloc: Global,
        topology: &Topology,
        cluster: &mut Cluster<W>,
        topic: u16,
    ) -> Result<(), AllocError>
        requires of { IsOfTopology W.plan (rules_of H.hash_of) (draft_of topology.now) cluster.old }
        requires resting { AreResting W.plan cluster.old self.old.publisher
            (draft_of topology.now) topic
            self.old.tasks.items }
        ensures rest { OnOk result (
            AreResting W.plan cluster.new self.new.publisher (draft_of topology.now) (topic + 1)
            self.new.tasks.items) }
        ensures caches { OnOk result (caches_in self.new.tasks.items
            ≡ caches_in self.old.tasks.items) }
        ensures on { DrainsOn 1 cluster.old cluster.new }
    {
        let works = read_tasks::<H, R, W>(rt, alloc, topology, cluster, &mut self.tasks, topic)?;
        self.publish(alloc, topology, cluster, works, topic)
    }

    // Topic by topic, in the drain order.
    fn drain_all<H: Processing + Sync, R: Threads + Sync, W: Work + Sync>(
        &mut self,
        rt: &R,
        alloc: Global,
        topology: &Topology,
        cluster: &mut Cluster<W>,
    ) -> Result<(), AllocError>
        requires setup { setup_of W.plan cluster.old
            ≡ topology_setup (rules_of H.hash_of) (plan_in topology.now) }
        requires of { IsOfTopology W.plan (rules_of H.hash_of) (draft_of topology.now) cluster.old }
        requires resting { AreResting W.plan cluster.old self.old.publisher
            (draft_of topology.now) 0
            self.old.tasks.items }
        ensures settled { OnOk result (IsSettled (setup_of W.plan cluster.new)
            (state_of W.plan cluster.new)) }
        ensures caches { OnOk result (caches_in self.new.tasks.items
            ≡ caches_in self.old.tasks.items) }
        ensures on { DrainsOn (length (drain_numbers (plan_in topology.now)))
            cluster.old cluster.new }
    {
        let order = topology.drain_order();
        for i in 0..order.len() {
            self.drain_topic::<H, R, W>(rt, alloc, topology, cluster, order[i])?;
        }
        Ok(())
    }
}

/// Brings to rest a cluster of a topology, whatever stands in its journal. Every worker is removed, all waiting markers are written, and
/// a worker of its own, 16, has every task, which is good where it is the one member, and restores it: of each task it goes on from the
/// furthest of these replicas, where there is one. Then topic by topic, in the drain
/// order, the tasks that read it read it to its end, and one transaction commits what they made. Its tasks' stores hold back at most
/// `cache` pairs each. Want of memory is the one error, after which the journal has what was done before, and no further input.
pub fn drain<H: Processing + Sync, R: Threads + Sync, W: Work + Sync>(
    rt: &R,
    alloc: Global,
    topology: &Topology,
    cluster: &mut Cluster<W>,
    replicas: Vec<Replica>,
    cache: u32,
) -> Result<(), AllocError>
    requires setup { setup_of W.plan cluster.old
        ≡ topology_setup (rules_of H.hash_of) (plan_in topology.now) }
    requires replicas { All (IsReplicaAt (setup_of W.plan cluster.old) cluster.old.journal)
        replicas.items }
    requires parts { HaveParts (plan_in topology.now) }
    requires alone { IsGoodForAll (W.good cluster.old.work) (drain_worker ∷ [])
        (everything drain_worker cluster.old.tasks) }
    ensures settled { OnOk result (IsSettled (setup_of W.plan cluster.new)
        (state_of W.plan cluster.new)) }
    ensures more { Extends cluster.old cluster.new }
    ensures on { DrainsOn (length (drain_numbers (plan_in topology.now)))
        cluster.old cluster.new }
{
    let _nodes = topology.nodes();
    let mut manager = TaskManager::start(rt, alloc, topology, cluster, replicas, cache)?;
    manager.drain_all::<H, R, W>(rt, alloc, topology, cluster)?;
    let_go(rt, manager.tasks);
    Ok(())
}
