//! How a run ends: drained, or left as it is.
ghost use Rattle.std.specs.Prelude.{◌≡◌, Ok, IfOk};
ghost use Rattle.std.specs.List.{All};
ghost use Rattle.ks_topo.specs.Topologies.{draft_of, plan_in};
ghost use Rattle.ks_cluster.specs.View.{setup_of, state_of};
ghost use Rattle.ks_law_inputs.specs.Records.{HavePartitions};
ghost use Rattle.ks_law_topology.specs.Work.{setup_of as topology_setup};
ghost use Rattle.ks_def_tasks.specs.Rules.{HaveParts, rules_of};
ghost use Rattle.ks_history.specs.Settled.{IsSettled};
ghost use Rattle.ks_settle.specs.Drained.{Extends};
ghost use Rattle.ks_settle.specs.Restoring.{IsQuiet, IsReplicaAt};
ghost use Rattle.ks_iq.specs.Reads.{ReadsTopology};
ghost use Rattle.ks_run_verdict.specs.Told.{told};
ghost use Rattle.ks_run_verdict.specs.Verdict.{told_as};
ghost use Rattle.ks_run_end.specs.Tails.{wanted_of, refusal_in, MayTell, IsToldBy};
ghost use Rattle.ks_run_end.specs.Ends.{AreWanted, IsEnded, IsLeft, EndsWhole};

use crate::answer::Answer;
use crate::tail::{Tail, refusal_in};
use crate::telling::tell;
use ks_cluster::{Cluster, Work};
use ks_run_ask::print_bad_ask;
use ks_run_verdict::{BAD_ASK, Verdict, judge};
use ks_settle::drain;
use ks_standby::Replica;
use ks_task_processing::Processing;
use ks_topo::Topology;
use std::alloc::{AllocError, Global};
use std::thread::Threads;

/// The answer of a run that was cut short, and isn't drained: this status, this text, and the journal as it stands. Where the text
/// wants memory, so does the answer, and the cluster is let go.
pub fn end_undrained<W: Work>(
    cluster: Cluster<W>,
    status: u8,
    text: Result<Vec<u8>, AllocError>,
) -> Result<Answer, AllocError>
    ensures { IfOk result (λ a. (a.status ≡ status) × (text ≡ Ok a.text)
        × IsLeft W.plan W.good cluster a.journal) }
{
    match text {
        Ok(text) => Ok(Answer {
            status,
            text,
            journal: cluster.into_last_journal(),
        }),
        Err(error) => {
            drop(cluster);
            Err(error)
        }
    }
}

// The answer of a run that came to this: the text of its verdict, and then what stands behind its tables.
fn end_run<R: Threads + Sync, W: Work>(
    rt: &R,
    alloc: Global,
    topology: &Topology,
    cluster: Cluster<W>,
    verdict: Verdict,
    wanted: &Tail,
) -> Result<Answer, AllocError>
    requires quiet { IsQuiet W.plan cluster }
    requires topology { ReadsTopology (draft_of topology.now) (setup_of W.plan cluster) }
    requires parts { HaveParts (plan_in topology.now) }
    requires may { MayTell (draft_of topology.now) (state_of W.plan cluster) wanted.now }
    ensures { IfOk result (λ a. (a.status ≡ (told_as verdict).0)
        × IsToldBy (draft_of topology.now) (state_of W.plan cluster) wanted.now cluster.journal
        (told_as verdict) a.text.items × (a.journal ≡ cluster.journal)) }
{
    let status = verdict.status();
    match tell(rt, alloc, topology, &cluster, verdict, wanted) {
        Ok(text) => {
            let journal = cluster.into_last_journal();
            Ok(Answer {
                status,
                text,
                journal,
            })
        }
        Err(error) => {
            drop(cluster);
            Err(error)
        }
    }
}

// Brings a cluster to rest, and tells what it has come to.
fn settle_cluster<H: Processing + Send + Sync, R: Threads + Sync, W: Work + Send + Sync>(
    rt: &R,
    alloc: Global,
    topology: &Topology,
    cluster: &mut Cluster<W>,
    replicas: Vec<Replica>,
    cache: u32,
) -> Result<Verdict, AllocError>
    requires setup { setup_of W.plan cluster.old ≡ topology_setup (rules_of H.hash_of)
        (plan_in topology.now) }
    requires placing { AreWanted W.good cluster.old.work (draft_of topology.now) }
    requires replicas { All (IsReplicaAt (setup_of W.plan cluster.old) cluster.old.journal)
        replicas.items }
    requires partitions { HavePartitions (draft_of topology.now).topics }
    ensures more { Extends cluster.old cluster.new }
    ensures settled { IfOk result (λ v. IsSettled (setup_of W.plan cluster.new)
        (state_of W.plan cluster.new)) }
    ensures told { IfOk result (λ v. told_as v ≡ told (rules_of H.hash_of)
        (draft_of topology.now) (state_of W.plan cluster.new)) }
{
    let _nodes = topology.nodes();
    drain::<H, R, W>(rt, alloc, topology, cluster, replicas, cache)?;
    judge::<H, R, W>(rt, alloc, topology, cluster)
}

// The answer of a run whose records were all fed: the cluster is brought to rest.
fn end_settled<H: Processing + Send + Sync, R: Threads + Sync, W: Work + Send + Sync>(
    rt: &R,
    alloc: Global,
    topology: &Topology,
    mut cluster: Cluster<W>,
    replicas: Vec<Replica>,
    cache: u32,
    wanted: &Tail,
) -> Result<Answer, AllocError>
    requires setup { setup_of W.plan cluster ≡ topology_setup (rules_of H.hash_of)
        (plan_in topology.now) }
    requires placing { AreWanted W.good cluster.work (draft_of topology.now) }
    requires replicas { All (IsReplicaAt (setup_of W.plan cluster) cluster.journal)
        replicas.items }
    requires may { MayTell (draft_of topology.now) (state_of W.plan cluster) wanted.now }
    requires partitions { HavePartitions (draft_of topology.now).topics }
    ensures { IfOk result (λ a. IsEnded W.plan W.good (rules_of H.hash_of) (wanted_of wanted.now)
        (draft_of topology.now) cluster a.status a.text.items a.journal) }
{
    let _nodes = topology.nodes();
    match settle_cluster::<H, R, W>(rt, alloc, topology, &mut cluster, replicas, cache) {
        Ok(verdict) => {
            // The journal is a history: what was read of its front is read of it.
            cluster.is_history();
            end_run(rt, alloc, topology, cluster, verdict, wanted)
        }
        Err(error) => {
            drop(cluster);
            Err(error)
        }
    }
}

/// The answer of a run whose records were all fed. The cluster of this topology's tasks is brought to rest (`drain` of `ks_settle`,
/// from these replicas on, with `cache` pairs held back), and what it has come to is told, with what is wanted behind the tables. A
/// question that can't be asked is refused, and nothing is drained then. Want of memory is the one error; the cluster is let go then.
pub fn end_whole<H: Processing + Send + Sync, R: Threads + Sync, W: Work + Send + Sync>(
    rt: &R,
    alloc: Global,
    topology: &Topology,
    cluster: Cluster<W>,
    replicas: Vec<Replica>,
    cache: u32,
    wanted: &Tail,
) -> Result<Answer, AllocError>
    requires setup { setup_of W.plan cluster ≡ topology_setup (rules_of H.hash_of)
        (plan_in topology.now) }
    requires placing { AreWanted W.good cluster.work (draft_of topology.now) }
    requires replicas { All (IsReplicaAt (setup_of W.plan cluster) cluster.journal)
        replicas.items }
    requires may { MayTell (draft_of topology.now) (state_of W.plan cluster) wanted.now }
    requires partitions { HavePartitions (draft_of topology.now).topics }
    ensures { IfOk result (λ a. EndsWhole W.plan W.good (rules_of H.hash_of)
        (wanted_of wanted.now) (draft_of topology.now) cluster (refusal_in wanted.now) a.status
        a.text.items a.journal) }
{
    match refusal_in(wanted) {
        Some(fault) => {
            drop(replicas);
            end_undrained(cluster, BAD_ASK, print_bad_ask(alloc, &fault))
        }
        None => end_settled::<H, R, W>(rt, alloc, topology, cluster, replicas, cache, wanted),
    }
}
