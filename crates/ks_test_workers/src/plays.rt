//! A whole run of a scene: the job is read, its workers do what the scene says, and the cluster is drained. Want of memory ends the test.
ghost use Rattle.std.specs.Prelude.{◌≡◌, ◌≤◌, ◌∷◌, [], Some, length, map};
ghost use Rattle.ks_plan.specs.Layout.{parts_of_topic, topics_of};
ghost use Rattle.ks_topo.specs.Topologies.{draft_of, plan_in};
ghost use Rattle.ks_job.specs.Items.{item_views};
ghost use Rattle.ks_law_inputs.specs.Records.{HavePartitions, AreRecords};
ghost use Rattle.ks_law_topology.specs.Work.{work_of, setup_of as topology_setup};
ghost use Rattle.ks_def_tasks.specs.Rules.{HaveParts, rules_of};
ghost use Rattle.ks_cluster.specs.View.{setup_of};
ghost use Rattle.ks_commit.specs.Everything.{everything, IsGoodForAll};
ghost use Rattle.ks_task.specs.Placing.{placed_by};
ghost use Rattle.ks_settle.specs.Drained.{drain_worker};

use crate::actors::CACHE;
use crate::crews::play;
use crate::jobs::{Job, read_text};
use crate::scenes::Scene;
use crate::telling::lines;
use ks_cluster::{Cluster, Work};
use ks_history::{Entry, Reply, Request};
use ks_job::JobItem;
use ks_run_feed::counts_of;
use ks_run_output::print_settled;
use ks_settle::{drain, tables};
use ks_task::{TaskWork, everything_is_good};
use ks_task_processing::Processing;
use ks_topo::{Topology, share_topology};
use std::alloc::Global;
use std::process::Abort;
use std::sync::Wait;
use std::thread::Threads;

/// What a scene came to.
#[derive(Drop)]
pub struct Played {
    /// The lines of the journal that it shows, before the drain.
    pub lines: Vec<u8>,
    /// How many lists of records the drain appended.
    pub appends: usize,
    /// The tables after the drain.
    pub text: Vec<u8>,
}

// How many appends of worker 16, the drain, were accepted.
fn count_appends(entries: &[Entry]) -> usize {
    let mut appends: usize = 0;
    for entry in entries {
        if let Request::Append { w, .. } = &entry.request {
            if let Reply::Number(_) = &entry.reply {
                if *w == 16 {
                    appends = appends.saturating_add(1);
                }
            }
        }
    }
    appends
}

// Drains a cluster: how many lists of records that appends, and its tables.
fn drain_all<H: Processing + Sync, R: Threads + Wait + Sync + Abort, W: Work + Sync>(
    rt: &R,
    alloc: Global,
    topology: &Topology,
    cluster: &mut Cluster<W>,
) -> (usize, Vec<u8>)
    requires setup { setup_of W.plan cluster.old ≡ topology_setup (rules_of H.hash_of)
        (plan_in topology.now) }
    requires parts { HaveParts (plan_in topology.now) }
    requires alone { IsGoodForAll (W.good cluster.old.work) (drain_worker ∷ [])
        (everything drain_worker cluster.old.tasks) }
    requires counts { cluster.old.counts ≡ map (parts_of_topic (plan_in topology.now))
        (topics_of (plan_in topology.now)) }
{
    drain::<H, R, W>(rt, alloc, topology, cluster, Vec::new(alloc), CACHE).expect(rt, "memory");
    let tables = tables(rt, alloc, topology, cluster).expect(rt, "memory");
    let text = print_settled(rt, alloc, tables).expect(rt, "memory");
    (count_appends(cluster.journal()), text)
}

// What a cluster came to after its workers ended.
fn end_play<H: Processing + Sync, R: Threads + Wait + Sync + Abort, W: Work + Sync>(
    rt: &R,
    alloc: Global,
    topology: &Topology,
    mut cluster: Cluster<W>,
) -> Played
    requires setup { setup_of W.plan cluster ≡ topology_setup (rules_of H.hash_of)
        (plan_in topology.now) }
    requires parts { HaveParts (plan_in topology.now) }
    requires alone { IsGoodForAll (W.good cluster.work) (drain_worker ∷ [])
        (everything drain_worker cluster.tasks) }
    requires counts { cluster.counts ≡ map (parts_of_topic (plan_in topology.now))
        (topics_of (plan_in topology.now)) }
{
    let lines = lines(rt, alloc, cluster.journal());
    let (appends, text) = drain_all::<H, R, W>(rt, alloc, topology, &mut cluster);
    drop(cluster);
    Played {
        lines,
        appends,
        text,
    }
}

// The run of a scene over a job's tasks.
fn play_tasks<H: Processing + Sync, R: Threads + Wait + Sync + Abort, W: Work + Sync>(
    rt: &R,
    alloc: Global,
    topology: &Topology,
    work: W,
    records: Vec<JobItem>,
    scene: &Scene,
) -> Played
    requires work { W.plan work ≡ work_of (rules_of H.hash_of) (plan_in topology.now) }
    requires good { W.good work ≡ placed_by (plan_in topology.now) (Some scene.now.placing) }
    requires threads { 1 ≤ scene.now.placing.threads }
    requires partitions { HavePartitions (draft_of topology.now).topics }
    requires records { AreRecords (length (draft_of topology.now).topics)
        (item_views records.items) }
{
    let _nodes = topology.nodes();
    everything_is_good();
    let Ok(counts) = counts_of(alloc, topology.topics()) else {
        rt.abort()
    };
    let Ok(tasks) = Vec::from_slice(alloc, topology.tasks()) else {
        rt.abort()
    };
    let Ok(empty) = Cluster::new(alloc, work, counts, tasks) else {
        rt.abort()
    };
    let cluster = play::<H, R, W>(rt, alloc, topology, empty, records, scene);
    end_play::<H, R, W>(rt, alloc, topology, cluster)
}

/// The run of a scene over a job; the test ends where the text is no job, its topology has a fault, or the workers have no thread.
pub fn play_job<H: Processing + Sync + Send, R: Threads + Wait + Sync + Abort>(
    rt: &R,
    alloc: Global,
    job: &str,
    scene: &Scene,
) -> Played {
    if scene.placing.threads == 0 {
        rt.abort()
    }
    let Job { draft, records } = read_text(rt, alloc, job);
    let Ok(Ok(topology)) = Topology::build(alloc, draft) else {
        rt.abort()
    };
    share_topology();
    let work = TaskWork::<H>::new(&topology, Some(scene.placing));
    let played = play_tasks::<H, R, TaskWork<H>>(rt, alloc, &topology, work, records, scene);
    drop(topology);
    played
}
