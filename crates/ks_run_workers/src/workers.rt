//! The whole crew of a run.
ghost use Rattle.std.specs.Prelude.{◌≡◌, ◌<◌, ◌≤◌, ◌*◌, ◌+◌, ℕ, true, cond, is_some, length, IfOk, IfSome, None};
ghost use Rattle.ks_topo.specs.Topologies.{draft_of};
ghost use Rattle.ks_words.specs.Ranges.{HasRanges};
ghost use Rattle.ks_iq.specs.Asks.{ask_fault};
ghost use Rattle.ks_run_workers.specs.Asked.{TakesLast, AreAnswered};
ghost use Rattle.ks_run_feed.specs.Feeding.{FaultsBy};
ghost use Rattle.ks_run_workers.specs.Left.{AreStandbysOf};
ghost use Rattle.ks_run_workers.specs.Members.{turns_in};
ghost use Rattle.ks_run_feed.specs.Wanted.{placing_of};
ghost use Rattle.ks_run_workers.specs.Ready.{IsReady, HasWorked};

use crate::asking::Asker;
use crate::boxed_gate::{BoxedGate, box_gates};
use crate::closing::{WorkEnd, work_and_close};
use crate::enlisting::enlist;
use crate::working::{Crew, Team, WorkerThreads};
use ks_cluster::{Cluster, Work};
use ks_edge::{Gate, Source};
use ks_growing::Pass;
use ks_iq::{Answer, Ask};
use ks_run_feed::{JobFeed, JobInput, split_first};
use ks_shared::{Shared, SharedState};
use ks_task_processing::Processing;
use ks_topo::Topology;
use ks_words::Settings;
use std::alloc::{AllocError, Global};
use std::sync::Wait;
use std::thread::Threads;

// The most turns of a worker, where the settings have no other number.
const USUAL_TURNS: u64 = 1_000_000;

/// How the workers of a run work, and the gates that tell them their acts.
#[derive(Drop)]
pub struct RunWorkers<G> {
    pub settings: Settings,
    pub gates: Vec<G>,
    /// What is asked meanwhile.
    pub question: Option<Ask>,
}

/// A question, and what was answered beside the workers.
#[derive(Drop)]
pub struct Asked {
    pub ask: Ask,
    pub answers: Vec<Answer>,
}

// How many workers there are: one for each thread of each instance.
fn count_workers(settings: &Settings) -> u8
    requires { HasRanges settings.now }
    ensures some { 1 ≤ result }
    ensures few { result ≤ 16 }
    ensures instances { result ≤ 4 * settings.now.threads }
    ensures is { result ≡ settings.now.instances * settings.now.threads }
{
    settings.instances * settings.threads
}

// The most turns of each worker.
fn turns_of(settings: &Settings) -> u64
    requires { HasRanges settings.now }
    ensures exact { result ≡ turns_in settings.now }
    ensures few { result ≤ 1000000 }
{
    match settings.stop {
        Some(turns) => turns,
        None => USUAL_TURNS,
    }
}

// How many passes a lock has: one for the caller, one for each worker, and one for who asks.
fn count_passes(settings: &Settings, question: &Option<Ask>) -> u8
    requires { HasRanges settings.now }
    ensures { result ≡ settings.now.instances * settings.now.threads
        + cond (is_some question.now) 2 1 }
{
    let workers = count_workers(settings);
    match question {
        Some(_) => workers + 2,
        None => workers + 1,
    }
}

// Who asks a question, through the last of the passes.
fn asker_of<W: Work>(
    alloc: Global,
    question: Option<Ask>,
    passes: &mut Vec<Pass<SharedState<W>>>,
) -> Option<Asker<W>>
    requires { is_some question ≡ true → 0 < length passes.old.items }
    ensures { TakesLast question passes.old.items passes.new.items result }
{
    let Some(ask) = question else {
        return None;
    };
    let Some(pass) = passes.pop() else {
        unreachable!()
    };
    Some(Asker::new(alloc, ask, pass))
}

// The same for gates of any type.
fn run_gated<
    H: Processing + Sync,
    R: Threads + Wait + Sync,
    W: Work + Send + Sync,
    G: Gate + Send,
    S: Source,
>(
    rt: &R,
    alloc: Global,
    topology: &Topology,
    cluster: Cluster<W>,
    intake: JobInput,
    input: &mut S,
    crew: RunWorkers<G>,
) -> Result<(WorkEnd<W>, Option<Asked>), AllocError>
    requires ready { IsReady W.plan W.good H.hash_of (draft_of topology.now) cluster intake
        (placing_of crew.settings) }
    requires settings { HasRanges crew.settings }
    requires gates { length crew.gates.items ≡ 16 }
    requires question { IfSome crew.question (λ a. ask_fault (draft_of topology.now) a ≡ None) }
    ensures worked { IfOk result (λ r. HasWorked (draft_of topology.now) cluster r.0.cluster intake
        (S.left input.old) (S.left input.new) r.0.end) }
    ensures asked { IfOk result (λ r. AreAnswered W.plan (draft_of topology.now) r.0.cluster
        crew.question r.1) }
    ensures replicas { IfOk result (λ r. AreStandbysOf W.plan r.0.cluster r.0.replicas.items) }
    ensures faults { IfOk result (λ r. FaultsBy r.0.end (S.faults input.old)
        (S.faults input.new)) }
{
    let _nodes = topology.nodes();
    let RunWorkers {
        settings,
        gates,
        question,
    } = crew;
    let count = count_passes(&settings, &question);
    let Ok((shared, passes)) = Shared::new(alloc, cluster, count) else {
        drop(intake);
        drop(question);
        drop(gates);
        return Err(AllocError);
    };
    let (pass, mut others) = split_first(passes);
    let asker = asker_of(alloc, question, &mut others);
    let JobInput { records, rest } = intake;
    let feeder = JobFeed {
        records,
        rest,
        pass,
    };
    let Ok(members) = enlist(alloc, &settings, gates, others) else {
        drop(feeder);
        drop(asker);
        drop(shared);
        return Err(AllocError);
    };
    let threads = WorkerThreads {
        members,
        turns: turns_of(&settings),
    };
    let team = Team {
        crew: Crew { threads, asker },
        waits: settings.stop.is_some(),
    };
    work_and_close::<H, R, W, G, S>(rt, alloc, topology, shared, input, feeder, team)
}

/// Puts a new cluster under a lock with a pass for the caller, one for each worker and one for who asks, and feeds it all records of
/// a job. Meanwhile the workers take their turns, each in a thread of its own where one can be made, and the question is asked 16
/// times, where there is one. Where the settings stop the workers, these begin after the last record.
///
/// Gives back the cluster, whose journal has produced the records up to where reading the job ended and no other, the replicas that
/// the workers leave, how reading ended, and what was answered. Want of memory, also in a worker or in who asks, is the one error; the
/// cluster is let go then.
pub fn run_workers<
    H: Processing + Sync,
    R: Threads + Wait + Sync,
    W: Work + Send + Sync,
    S: Source,
>(
    rt: &R,
    alloc: Global,
    topology: &Topology,
    cluster: Cluster<W>,
    intake: JobInput,
    input: &mut S,
    crew: RunWorkers<Box<dyn Gate + Send>>,
) -> Result<(WorkEnd<W>, Option<Asked>), AllocError>
    requires ready { IsReady W.plan W.good H.hash_of (draft_of topology.now) cluster intake
        (placing_of crew.settings) }
    requires settings { HasRanges crew.settings }
    requires gates { length crew.gates.items ≡ 16 }
    requires question { IfSome crew.question (λ a. ask_fault (draft_of topology.now) a ≡ None) }
    ensures worked { IfOk result (λ r. HasWorked (draft_of topology.now) cluster r.0.cluster intake
        (S.left input.old) (S.left input.new) r.0.end) }
    ensures asked { IfOk result (λ r. AreAnswered W.plan (draft_of topology.now) r.0.cluster
        crew.question r.1) }
    ensures replicas { IfOk result (λ r. AreStandbysOf W.plan r.0.cluster r.0.replicas.items) }
    ensures faults { IfOk result (λ r. FaultsBy r.0.end (S.faults input.old)
        (S.faults input.new)) }
{
    let RunWorkers {
        settings,
        gates,
        question,
    } = crew;
    let Ok(gates) = box_gates(alloc, gates) else {
        drop(question);
        drop(intake);
        drop(cluster);
        return Err(AllocError);
    };
    let crew = RunWorkers {
        settings,
        gates,
        question,
    };
    run_gated::<H, R, W, BoxedGate, S>(rt, alloc, topology, cluster, intake, input, crew)
}
