//! Workers that take their turns, each in a thread of its own.
ghost use Rattle.std.specs.Prelude.{◌≡◌, ◌<◌, length, false, IfSome};
ghost use Rattle.std.specs.Borrow.{sem};
ghost use Rattle.std.specs.List.{All};
ghost use Rattle.ks_topo.specs.Topologies.{draft_of};
ghost use Rattle.ks_worker.specs.Beginning.{MayRun};
ghost use Rattle.ks_run_workers.specs.Lending.{LendsCrew};
ghost use Rattle.ks_run_workers.specs.Members.{pass_key, HaveKeys};
ghost use Rattle.ks_run_workers.specs.Asking.{MayAsk, HasAskedOne, HasAskedUnlessStarved};
ghost use Rattle.ks_run_workers.specs.Working.{TurnedUnlessStarved, AllTurnedUnlessStarved};

use crate::asking::{Asker, ask_often};
use ks_cluster::Work;
use ks_edge::Gate;
use ks_shared::Shared;
use ks_task_processing::Processing;
use ks_topo::{Topology, share_topology};
use ks_worker::Worker;
use std::alloc::Global;
use std::sync::Wait;
use std::sync::atomic::{AtomicBool, Ordering};
use std::thread;
use std::thread::Threads;

/// A worker of a crew, and whether it ran out of memory.
#[derive(Drop)]
pub struct WorkerThread<W: Work, G: Gate> {
    pub worker: Worker<W, G>,
    pub is_starved: bool,
}

/// The workers of a run.
#[derive(Drop)]
pub struct WorkerThreads<W: Work, G: Gate> {
    pub members: Vec<WorkerThread<W, G>>,
    /// The most turns of each.
    pub turns: u64,
}

/// Who works on a run's cluster and asks of it.
#[derive(Drop)]
pub struct Crew<W: Work, G: Gate> {
    pub threads: WorkerThreads<W, G>,
    /// Who asks a question meanwhile.
    pub asker: Option<Asker<W>>,
}

/// A crew, and when it begins.
#[derive(Drop)]
pub struct Team<W: Work, G: Gate> {
    pub crew: Crew<W, G>,
    /// Whether it begins only once all records are fed.
    pub waits: bool,
}

impl<W: Work, G: Gate> Team<W, G> {
    /// Its crew.
    pub fn crew_mut(&mut self) -> &mut Crew<W, G>
        ensures* writes_back { sem 𝓛 (LendsCrew W.row G.row W.Work G.Gate self.entry result) }
        ensures value { result.now ≡ self.old.crew }
    {
        &mut self.crew
    }
}

// One worker takes its turns, or is starved.
fn take_turns<H: Processing, R: Wait, W: Work, G: Gate>(
    rt: &R,
    alloc: Global,
    topology: &Topology,
    shared: &Shared<W>,
    member: &mut WorkerThread<W, G>,
    turns: u64,
    feeding: &AtomicBool,
)
    requires may { MayRun W.plan W.good H.hash_of shared.now.growing.id (draft_of topology.now)
        member.old.worker.placing turns member.old.worker.state }
    ensures key { pass_key member.new.worker.state.session.client.pass
        ≡ pass_key member.old.worker.state.session.client.pass }
    ensures turned { TurnedUnlessStarved W.plan (draft_of topology.now) turns member.old
        member.new }
{
    let answer = member
        .worker
        .run::<H, R>(rt, alloc, topology, shared, turns, feeding);
    member.is_starved = answer.is_err();
}

/// All workers take their turns, each in a thread of its own where one can be made; who runs out of memory is starved. Their
/// passes are of this lock still, with their numbers, and none holds the value.
pub fn work_together<
    H: Processing + Sync,
    R: Threads + Wait + Sync,
    W: Work + Send + Sync,
    G: Gate + Send,
>(
    rt: &R,
    alloc: Global,
    topology: &Topology,
    shared: &Shared<W>,
    members: &mut [WorkerThread<W, G>],
    turns: u64,
    feeding: &AtomicBool,
)
    requires some { 0 < length members.old }
    requires may { All (λ m. MayRun W.plan W.good H.hash_of shared.now.growing.id
        (draft_of topology.now)
        m.worker.placing turns m.worker.state) members.old }
    ensures keys { HaveKeys (λ m. m.worker.state.session.client.pass) members.old members.new }
    ensures turned { AllTurnedUnlessStarved W.plan (draft_of topology.now) turns members.old
        members.new }
{
    share_topology();
    let count = members.len();
    let each = |_: usize, member: &mut WorkerThread<W, G>|
        requires { MayRun W.plan W.good H.hash_of shared.now.growing.id (draft_of topology.now)
            member.now.worker.placing turns member.now.worker.state }
        ensures { (pass_key member.exit.now.worker.state.session.client.pass
            ≡ pass_key member.entry.now.worker.state.session.client.pass)
            × TurnedUnlessStarved W.plan (draft_of topology.entry.now) turns member.entry.now
            member.exit.now }
    { take_turns::<H, R, W, G>(rt, alloc, topology, shared, member, turns, feeding) };
    thread::for_each_mut(rt, members, count, &each);
}

/// All workers take their turns, and who asks a question asks it meanwhile, in a thread of its own where one can be made. Want of
/// memory marks each of them alone.
pub fn work_and_ask<
    H: Processing + Sync,
    R: Threads + Wait + Sync,
    W: Work + Send + Sync,
    G: Gate + Send,
>(
    rt: &R,
    alloc: Global,
    topology: &Topology,
    shared: &Shared<W>,
    crew: &mut Crew<W, G>,
    feeding: &AtomicBool,
)
    requires some { 0 < length crew.old.threads.members.items }
    requires may { All (λ m. MayRun W.plan W.good H.hash_of shared.now.growing.id
        (draft_of topology.now)
        m.worker.placing crew.old.threads.turns m.worker.state) crew.old.threads.members.items }
    requires asker { IfSome crew.old.asker (MayAsk W.plan shared.now.growing.id
        (draft_of topology.now)) }
    ensures keys { HaveKeys (λ m. m.worker.state.session.client.pass)
        crew.old.threads.members.items crew.new.threads.members.items }
    ensures turned { AllTurnedUnlessStarved W.plan (draft_of topology.now) crew.old.threads.turns
        crew.old.threads.members.items crew.new.threads.members.items }
    ensures asked { HasAskedUnlessStarved W.plan (draft_of topology.now) crew.old.asker
        crew.new.asker }
{
    share_topology();
    let working = AtomicBool::new(true);
    let flag = &working;
    let turns = crew.threads.turns;
    let members = crew.threads.members.as_mut_slice();
    let Some(asker) = crew.asker.as_mut() else {
        work_together::<H, R, W, G>(rt, alloc, topology, shared, members, turns, feeding);
        return;
    };
    thread::join_mut(
        rt,
        &mut ||
            requires { MayAsk W.plan shared.now.growing.id (draft_of topology.now) asker.now }
            ensures { HasAskedOne W.plan (draft_of topology.entry.now) asker.entry.now
                asker.exit.now }
        { ask_often(rt, alloc, topology, shared, asker, flag) },
        &mut ||
            requires { (0 < length members.now)
                × All (λ m. MayRun W.plan W.good H.hash_of shared.now.growing.id
                (draft_of topology.now) m.worker.placing turns m.worker.state) members.now }
            ensures { HaveKeys (λ m. m.worker.state.session.client.pass) members.entry.now
                members.exit.now
                × AllTurnedUnlessStarved W.plan (draft_of topology.entry.now) turns
                members.entry.now members.exit.now }
        {
            work_together::<H, R, W, G>(rt, alloc, topology, shared, members, turns, feeding);
            flag.store(false, Ordering::SeqCst);
        },
    );
}
