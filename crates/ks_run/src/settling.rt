//! Runs a job's tasks over its records, until nothing is left to take.
ghost use Rattle.std.specs.Prelude.{◌≡◌, [], IfOk, None, cond, is_some, length, map};
ghost use Rattle.ks_run_workers.specs.Left.{AreStandbysOf};
ghost use Rattle.ks_plan.specs.Drafts.{draft_view};
ghost use Rattle.ks_plan.specs.Infos.{topic_infos};
ghost use Rattle.ks_plan.specs.Layout.{tasks};
ghost use Rattle.ks_topo.specs.Topologies.{draft_of, plan_in};
ghost use Rattle.ks_history.specs.State.{IsSetup};
ghost use Rattle.ks_cluster.specs.View.{setup_from, setup_of, state_of};
ghost use Rattle.ks_job.specs.Items.{item_views};
ghost use Rattle.ks_job_source.specs.Opening.{IsReadable};
ghost use Rattle.ks_law_inputs.specs.Records.{HavePartitions};
ghost use Rattle.ks_law_topology.specs.Work.{FitsRules, work_of, setup_of as topology_setup};
ghost use Rattle.ks_def_tasks.specs.Rules.{rules_of};
ghost use Rattle.ks_words.specs.Ranges.{HasRanges};
ghost use Rattle.ks_run_feed.specs.Wanted.{placing_of};
ghost use Rattle.ks_run_verdict.specs.Told.{wanted_in};
ghost use Rattle.ks_run_end.specs.Tails.{wanted_of, refusal_in, MayTell};
ghost use Rattle.ks_run_end.specs.Ends.{IsWantedBy, AreWanted};
ghost use Rattle.ks_run.specs.Begun.{HasBegun};
ghost use Rattle.ks_run.specs.Settling.{EndsBy, RunsJob};

use crate::wanted::wanted_by;
use ks_cluster::{Cluster, Work};
use ks_edge::{Gate, Source};
use ks_iq::{Ask, IqFault};
use ks_job_source::{JobEnd, OpenJob, print_bad_job};
use ks_run_ask::bad_ask;
use ks_run_end::{Answer, Tail, end_undrained, end_whole};
use ks_run_feed::{JobInput, build_topology, counts_of, placing_of};
use ks_run_output::print_read_fault;
use ks_run_verdict::{BAD_JOB, READ_FAULT};
use ks_run_workers::{RunWorkers, WorkEnd, run_workers};
use ks_task::{TaskWork, topology_fits};
use ks_task_processing::Processing;
use ks_topo::{Topology, share_topology};
use std::alloc::{AllocError, Global};
use std::random::RandomSource;
use std::sync::Wait;
use std::thread::Threads;

// Hashes have 128 bits, as a fact for what follows; does nothing.
fn hashes_fit<H: Processing>()
    ensures { FitsRules (rules_of H.hash_of) }
{}

// The answer of a run by how reading its job ended: a cluster is brought to rest only where all of the job was read.
fn end_by<H: Processing + Send + Sync, R: Threads + Sync, W: Work + Send + Sync>(
    rt: &R,
    alloc: Global,
    topology: &Topology,
    ended: WorkEnd<W>,
    cache: u32,
    wanted: &Tail,
) -> Result<Answer, AllocError>
    requires setup { setup_of W.plan ended.cluster ≡ topology_setup (rules_of H.hash_of)
        (plan_in topology.now) }
    requires placing { AreWanted W.good ended.cluster.work (draft_of topology.now) }
    requires replicas { AreStandbysOf W.plan ended.cluster ended.replicas.items }
    requires may { MayTell (draft_of topology.now) (state_of W.plan ended.cluster) wanted.now }
    requires partitions { HavePartitions (draft_of topology.now).topics }
    ensures { IfOk result (λ a. EndsBy W.plan W.good (rules_of H.hash_of) (wanted_of wanted.now)
        (draft_of topology.now) ended.cluster (refusal_in wanted.now) ended.end
        a.status a.text.items a.journal) }
{
    let WorkEnd {
        cluster,
        replicas,
        end,
    } = ended;
    match end {
        JobEnd::Whole => {
            end_whole::<H, R, W>(rt, alloc, topology, cluster, replicas, cache, wanted)
        }
        JobEnd::Stopped(stop) => {
            drop(replicas);
            let text = print_bad_job(alloc, &stop);
            drop(stop);
            end_undrained(cluster, BAD_JOB, text)
        }
        JobEnd::Failed => {
            drop(replicas);
            end_undrained(cluster, READ_FAULT, print_read_fault(alloc))
        }
    }
}

// A question that the topology has nothing against.
fn unless_refused(refusal: &Option<IqFault>, question: Option<Ask>) -> Option<Ask>
    ensures { result ≡ cond (is_some refusal.now) None question }
{
    match refusal {
        Some(_) => None,
        None => question,
    }
}

// A new cluster of the tasks of a topology.
fn begin<W: Work>(alloc: Global, topology: &Topology, work: W) -> Result<Cluster<W>, AllocError>
    requires { IsSetup (setup_from (W.plan work) (map (λ i. i.parts)
        (topic_infos (draft_of topology.now))) (tasks (plan_in topology.now))) }
    ensures { IfOk result (λ c. c ≡ record {
      work = work;
      counts = map (λ i. i.parts) (topic_infos (draft_of topology.now));
      tasks = tasks (plan_in topology.now);
      journal = [];
    }) }
{
    let counts = counts_of(alloc, topology.topics())?;
    let names = Vec::from_slice(alloc, topology.tasks())?;
    Cluster::new(alloc, work, counts, names)
}

// The run of a new cluster.
fn run_begun<
    H: Processing + Send + Sync,
    R: Threads + Wait + Sync,
    W: Work + Send + Sync,
    S: Source,
>(
    rt: &R,
    alloc: Global,
    topology: &Topology,
    empty: Cluster<W>,
    intake: JobInput,
    input: &mut S,
    crew: RunWorkers<Box<dyn Gate + Send>>,
) -> Result<Answer, AllocError>
    requires settings { HasRanges crew.settings }
    requires gates { length crew.gates.items ≡ 16 }
    requires begun { HasBegun H.hash_of W.plan W.good (placing_of crew.settings)
        (draft_of topology.now) empty }
    requires job { IsReadable (draft_of topology.now) (item_views intake.records.items)
        intake.rest }
    ensures { IfOk result (λ a. RunsJob (rules_of H.hash_of) (placing_of crew.settings)
        (wanted_in crew.settings.journal crew.question) (draft_of topology.now)
        (item_views intake.records.items) intake.rest.standing (S.left input.old) (S.left input.new)
        (S.faults input.old)
        (S.faults input.new) a.status a.text.items a.journal) }
{
    // Its names and constants can be written, and it is well formed: the law on settled journals asks for both.
    topology_fits(topology);
    hashes_fit::<H>();
    let _nodes = topology.nodes();
    let RunWorkers {
        settings,
        gates,
        question,
    } = crew;
    let refusal = bad_ask(topology, &question);
    let question = unless_refused(&refusal, question);
    let crew = RunWorkers {
        settings,
        gates,
        question,
    };
    let Ok((ended, asked)) = run_workers::<H, R, W, S>(
        rt, alloc, topology, empty, intake, input, crew,
    ) else {
        drop(refusal);
        return Err(AllocError);
    };
    let wanted = wanted_by(settings.journal, refusal, asked);
    let answer = end_by::<H, R, W>(rt, alloc, topology, ended, settings.cache, &wanted);
    drop(wanted);
    answer
}

// The run of a job's tasks.
fn settle<H: Processing + Send + Sync, R: Threads + Wait + Sync, W: Work + Send + Sync, S: Source>(
    rt: &R,
    alloc: Global,
    topology: &Topology,
    work: W,
    intake: JobInput,
    input: &mut S,
    crew: RunWorkers<Box<dyn Gate + Send>>,
) -> Result<Answer, AllocError>
    requires settings { HasRanges crew.settings }
    requires gates { length crew.gates.items ≡ 16 }
    requires work { W.plan work ≡ work_of (rules_of H.hash_of) (plan_in topology.now) }
    requires placing { IsWantedBy W.good work (draft_of topology.now) (placing_of crew.settings) }
    requires job { IsReadable (draft_of topology.now) (item_views intake.records.items)
        intake.rest }
    ensures { IfOk result (λ a. RunsJob (rules_of H.hash_of) (placing_of crew.settings)
        (wanted_in crew.settings.journal crew.question) (draft_of topology.now)
        (item_views intake.records.items) intake.rest.standing (S.left input.old) (S.left input.new)
        (S.faults input.old)
        (S.faults input.new) a.status a.text.items a.journal) }
{
    let _nodes = topology.nodes();
    match begin(alloc, topology, work) {
        Ok(empty) => { run_begun::<H, R, W, S>(rt, alloc, topology, empty, intake, input, crew) }
        Err(error) => {
            drop(intake);
            drop(crew);
            Err(error)
        }
    }
}

/// The run of a job that was opened, by this crew; the text has the journal's lines where the crew's settings say so. Want of
/// memory, also in a worker, is the one error.
pub fn settle_job<H: Processing + Send + Sync, R: Threads + Wait + Sync + RandomSource, S: Source>(
    rt: &R,
    alloc: Global,
    job: OpenJob,
    input: &mut S,
    crew: RunWorkers<Box<dyn Gate + Send>>,
) -> Result<Answer, AllocError>
    requires settings { HasRanges crew.settings }
    requires gates { length crew.gates.items ≡ 16 }
    requires job { IsReadable (draft_view job.draft) (item_views job.records.items) job.rest }
    ensures { IfOk result (λ a. RunsJob (rules_of H.hash_of) (placing_of crew.settings)
        (wanted_in crew.settings.journal crew.question) (draft_view job.draft)
        (item_views job.records.items) job.rest.standing (S.left input.old) (S.left input.new)
        (S.faults input.old)
        (S.faults input.new) a.status a.text.items a.journal) }
{
    let OpenJob {
        draft,
        records,
        rest,
    } = job;
    let intake = JobInput { records, rest };
    let Ok(built) = build_topology(rt, alloc, draft) else {
        drop(intake);
        drop(crew);
        return Err(AllocError);
    };
    let topology = match built {
        Ok(topology) => topology,
        Err(fault) => {
            drop(fault);
            unreachable!()
        }
    };
    share_topology();
    let placing = placing_of(&crew.settings);
    let work = TaskWork::<H>::new(&topology, Some(placing));
    let answer = settle::<H, R, TaskWork<H>, S>(rt, alloc, &topology, work, intake, input, crew);
    drop(topology);
    answer
}
