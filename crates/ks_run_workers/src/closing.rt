//! A crew that works, and then closes the lock.
ghost use Rattle.std.specs.Prelude.{◌≡◌, ◌+◌, ◌∷◌, ◌++◌, [], filter, length, map, option_map, IfOk, IfSome, OnOk, Some};
ghost use Rattle.ks_history.specs.History.{IsHistory, IsPrefix};
ghost use Rattle.ks_cluster.specs.View.{setup_of};
ghost use Rattle.ks_topo.specs.Topologies.{draft_of};
ghost use Rattle.ks_worker_state.specs.Topology.{RunsTopology};
ghost use Rattle.ks_run_workers.specs.Left.{AllLeave, AreWorkers, AreStandbysOf};
ghost use Rattle.ks_growing.specs.Passes.{IsPass};
ghost use Rattle.ks_shared.specs.Calls.{frame_of};
ghost use Rattle.ks_shared.specs.Reserved.{is_callers};
ghost use Rattle.ks_run_workers.specs.Asked.{option_list, asked_by, AreAnswered};
ghost use Rattle.ks_run_feed.specs.Feeding.{FaultsBy};
ghost use Rattle.ks_run_workers.specs.Members.{ArePasses};
ghost use Rattle.ks_run_workers.specs.Ready.{HasClosed};
ghost use Rattle.ks_run_workers.specs.Working.{MayWork};

use crate::Asked;
use crate::asking::Asker;
use crate::beside::feed_and_work;
use crate::working::{Crew, Team, WorkerThread};
use ks_cluster::{Cluster, Work};
use ks_edge::{Gate, Source};
use ks_growing::Pass;
use ks_job_source::JobEnd;
use ks_run_feed::JobFeed;
use ks_shared::{Shared, SharedState};
use ks_standby::Replica;
use ks_task_processing::Processing;
use ks_topo::Topology;
use std::alloc::{AllocError, Global};
use std::sync::Wait;
use std::thread::Threads;

/// What is left of a run: its cluster, the replicas that its workers leave, each of which follows the cluster's journal, and how reading
/// the job ended.
#[derive(Drop)]
pub struct WorkEnd<W: Work> {
    pub cluster: Cluster<W>,
    pub replicas: Vec<Replica>,
    pub end: JobEnd,
}

// A pass at the end of others, where there is one.
fn push_last<W: Work>(
    passes: &mut Vec<Pass<SharedState<W>>>,
    last: Option<Pass<SharedState<W>>>,
) -> Result<(), AllocError>
    ensures { OnOk result (passes.new.items ≡ passes.old.items ++ option_list last) }
{
    if let Some(last) = last {
        passes.push(last)?;
    }
    Ok(())
}

// All passes of a lock: the first, those of the workers, which are let go, and that of who asks; at the end of others the replicas that the
// workers leave.
fn passes_of<W: Work, G: Gate>(
    alloc: Global,
    first: Pass<SharedState<W>>,
    members: Vec<WorkerThread<W, G>>,
    last: Option<Pass<SharedState<W>>>,
    replicas: &mut Vec<Replica>,
) -> Result<Vec<Pass<SharedState<W>>>, AllocError>
    ensures passes { IfOk result (λ v. v.items ≡ first
        ∷ (map (λ m. m.worker.state.session.client.pass) members.items ++ option_list last)) }
    ensures replicas { OnOk result (AllLeave W.plan members.items replicas.old.items
        replicas.new.items) }
{
    let mut passes = Vec::new(alloc);
    passes.push(first)?;
    let mut rest = members.into_iter();
    while let Some(member) = rest.next() {
        let pass = member.worker.into_pass(replicas)?;
        passes.push(pass)?;
    }
    push_last(&mut passes, last)?;
    Ok(passes)
}

// The pass of who asks, and what was answered.
fn part_asker<W: Work>(asker: Option<Asker<W>>) -> (Option<Pass<SharedState<W>>>, Option<Asked>)
    ensures pass { result.0 ≡ option_map (λ a. a.reader.pass) asker }
    ensures asked { result.1 ≡ option_map asked_by asker }
{
    let Some(asker) = asker else {
        return (None, None);
    };
    let Asker {
        reader,
        ask,
        answers,
        ..
    } = asker;
    (Some(reader.into_pass()), Some(Asked { ask, answers }))
}

// Closes a lock with all its passes.
fn close_with<W: Work, G: Gate>(
    alloc: Global,
    shared: Shared<W>,
    first: Pass<SharedState<W>>,
    members: Vec<WorkerThread<W, G>>,
    last: Option<Pass<SharedState<W>>>,
) -> Result<(Cluster<W>, Vec<Replica>), AllocError>
    requires first { IsPass shared.growing.id 0 first }
    requires passes { ArePasses shared.growing.id
        (map (λ m. m.worker.state.session.client.pass) members.items ++ option_list last) }
    requires all { length members.items + length (option_list last) + 1 ≡ shared.growing.passes }
    requires workers { AreWorkers W.plan (setup_of W.plan shared.growing.first) members.items }
    ensures history { IfOk result (λ r. IsHistory (setup_of W.plan r.0) r.0.journal) }
    ensures last { IfOk result (λ r. IfSome last (λ p. IsPrefix p.seen r.0.journal
        × (p.frame ≡ Some (frame_of r.0)))) }
    ensures frame { IfOk result (λ r. frame_of r.0 ≡ frame_of shared.growing.first) }
    ensures reserved { IfOk result (λ r. filter is_callers r.0.journal
        ≡ filter is_callers first.seen) }
    ensures replicas { IfOk result (λ r. AreStandbysOf W.plan r.0 r.1.items) }
{
    let mut replicas = Vec::new(alloc);
    let Ok(passes) = passes_of(alloc, first, members, last, &mut replicas) else {
        drop(replicas);
        drop(shared);
        return Err(AllocError);
    };
    let cluster = shared.close(passes);
    // The journal is a history: the replicas follow it.
    cluster.is_history();
    Ok((cluster, replicas))
}

/// Feeds the records of a job through the first pass while workers that have all other passes of a lock take their turns, closes the lock with
/// all of them, and gives the cluster back, and how the feed ended: of the caller's entries the first pass has seen each. Want of
/// memory, also in a worker, is the one error; the cluster is let go then.
pub fn work_and_close<
    H: Processing + Sync,
    R: Threads + Wait + Sync,
    W: Work + Send + Sync,
    G: Gate + Send,
    S: Source,
>(
    rt: &R,
    alloc: Global,
    topology: &Topology,
    shared: Shared<W>,
    input: &mut S,
    mut feeder: JobFeed<W>,
    mut team: Team<W, G>,
) -> Result<(WorkEnd<W>, Option<Asked>), AllocError>
    requires may { MayWork W.plan W.good H.hash_of shared.growing.id (draft_of topology.now) team
        feeder }
    requires passes { ArePasses shared.growing.id
        (map (λ m. m.worker.state.session.client.pass) team.crew.threads.members.items
        ++ option_list (option_map (λ a. a.reader.pass) team.crew.asker)) }
    requires all { length team.crew.threads.members.items + length (option_list team.crew.asker) + 1
        ≡ shared.growing.passes }
    requires topology { RunsTopology H.hash_of (draft_of topology.now)
        (setup_of W.plan shared.growing.first) }
    requires none { IfSome team.crew.asker (λ a. a.answers.items ≡ []) }
    ensures asked { IfOk result (λ r. AreAnswered W.plan (draft_of topology.now) r.0.cluster
        (option_map (λ a. a.ask) team.crew.asker) r.1) }
    ensures fed { IfOk result (λ r. HasClosed (draft_of topology.now) shared.growing.first
        r.0.cluster feeder (S.left input.old) (S.left input.new) r.0.end) }
    ensures replicas { IfOk result (λ r. AreStandbysOf W.plan r.0.cluster r.0.replicas.items) }
    ensures faults { IfOk result (λ r. FaultsBy r.0.end (S.faults input.old)
        (S.faults input.new)) }
{
    let Ok(end) = feed_and_work::<H, R, W, G, S>(
        rt,
        alloc,
        topology,
        &shared,
        input,
        &mut feeder,
        &mut team,
    ) else {
        drop(team);
        drop(feeder);
        drop(shared);
        return Err(AllocError);
    };
    let Team { crew, .. } = team;
    let Crew { threads, asker } = crew;
    let (last, asked) = part_asker(asker);
    let first = feeder.into_pass();
    let Ok((cluster, replicas)) = close_with(alloc, shared, first, threads.members, last) else {
        drop(asked);
        drop(end);
        return Err(AllocError);
    };
    let end = WorkEnd {
        cluster,
        replicas,
        end,
    };
    Ok((end, asked))
}
