//! A feed beside the workers.
ghost use Rattle.std.specs.Prelude.{◌≡◌, ◌<◌, length, false, IfOk, IfSome, OnOk};
ghost use Rattle.std.specs.Option.{option_map_or};
ghost use Rattle.std.specs.List.{All};
ghost use Rattle.ks_topo.specs.Topologies.{draft_of};
ghost use Rattle.ks_worker.specs.Beginning.{MayRun};
ghost use Rattle.ks_run_workers.specs.Asking.{MayAsk, HasAskedUnlessStarved};
ghost use Rattle.ks_run_feed.specs.Feeding.{MayFeed, FaultsBy, HasFed};
ghost use Rattle.ks_run_workers.specs.Members.{HaveKeys};
ghost use Rattle.ks_run_workers.specs.Working.{MayWork, AllTurnedUnlessStarved, HaveTurned, is_one_starved};

use crate::asking::Asker;
use crate::working::{Team, WorkerThread, work_and_ask};
use ks_cluster::Work;
use ks_edge::{Gate, Source};
use ks_job_source::JobEnd;
use ks_run_feed::{JobFeed, feed};
use ks_shared::Shared;
use ks_task_processing::Processing;
use ks_topo::{Topology, share_topology};
use std::alloc::{AllocError, Global};
use std::sync::Wait;
use std::sync::atomic::{AtomicBool, Ordering};
use std::thread;
use std::thread::Threads;

// The whole feed; clears the flag when it ends, whatever came.
fn feed_while<R: Threads + Wait + Sync, W: Work, S: Source>(
    rt: &R,
    alloc: Global,
    topology: &Topology,
    shared: &Shared<W>,
    input: &mut S,
    feeder: &mut JobFeed<W>,
    feeding: &AtomicBool,
) -> Result<JobEnd, AllocError>
    requires may { MayFeed W.plan shared.now.growing.id (draft_of topology.now) feeder.old }
    ensures fed { IfOk result (λ e. HasFed (draft_of topology.now) feeder.old feeder.new
        (S.left input.old) (S.left input.new) e) }
    ensures faults { IfOk result (λ e. FaultsBy e (S.faults input.old) (S.faults input.new)) }
{
    let end = feed(rt, alloc, topology, shared, input, feeder);
    feeding.store(false, Ordering::SeqCst);
    end
}

// All records are fed, and then the workers take their turns.
fn feed_first<
    H: Processing + Sync,
    R: Threads + Wait + Sync,
    W: Work + Send + Sync,
    G: Gate + Send,
    S: Source,
>(
    rt: &R,
    alloc: Global,
    topology: &Topology,
    shared: &Shared<W>,
    input: &mut S,
    feeder: &mut JobFeed<W>,
    team: &mut Team<W, G>,
) -> Result<JobEnd, AllocError>
    requires { MayWork W.plan W.good H.hash_of shared.now.growing.id (draft_of topology.now)
        team.old feeder.old }
    ensures keys { HaveKeys (λ m. m.worker.state.session.client.pass)
        team.old.crew.threads.members.items team.new.crew.threads.members.items }
    ensures turned { OnOk result (AllTurnedUnlessStarved W.plan (draft_of topology.now)
        team.old.crew.threads.turns
        team.old.crew.threads.members.items team.new.crew.threads.members.items) }
    ensures asked { OnOk result (HasAskedUnlessStarved W.plan (draft_of topology.now)
        team.old.crew.asker team.new.crew.asker) }
    ensures fed { IfOk result (λ e. HasFed (draft_of topology.now) feeder.old feeder.new
        (S.left input.old) (S.left input.new) e) }
    ensures faults { IfOk result (λ e. FaultsBy e (S.faults input.old) (S.faults input.new)) }
{
    let feeding = AtomicBool::new(false);
    let end = feed_while(rt, alloc, topology, shared, input, feeder, &feeding)?;
    work_and_ask::<H, R, W, G>(rt, alloc, topology, shared, &mut team.crew, &feeding);
    Ok(end)
}

// The workers take their turns while the records are fed.
fn feed_beside<
    H: Processing + Sync,
    R: Threads + Wait + Sync,
    W: Work + Send + Sync,
    G: Gate + Send,
    S: Source,
>(
    rt: &R,
    alloc: Global,
    topology: &Topology,
    shared: &Shared<W>,
    input: &mut S,
    feeder: &mut JobFeed<W>,
    team: &mut Team<W, G>,
) -> Result<JobEnd, AllocError>
    requires { MayWork W.plan W.good H.hash_of shared.now.growing.id (draft_of topology.now)
        team.old feeder.old }
    ensures keys { HaveKeys (λ m. m.worker.state.session.client.pass)
        team.old.crew.threads.members.items team.new.crew.threads.members.items }
    ensures turned { OnOk result (AllTurnedUnlessStarved W.plan (draft_of topology.now)
        team.old.crew.threads.turns
        team.old.crew.threads.members.items team.new.crew.threads.members.items) }
    ensures asked { OnOk result (HasAskedUnlessStarved W.plan (draft_of topology.now)
        team.old.crew.asker team.new.crew.asker) }
    ensures fed { IfOk result (λ e. HasFed (draft_of topology.now) feeder.old feeder.new
        (S.left input.old) (S.left input.new) e) }
    ensures faults { IfOk result (λ e. FaultsBy e (S.faults input.old) (S.faults input.new)) }
{
    share_topology();
    let feeding = AtomicBool::new(true);
    let flag = &feeding;
    let crew = team.crew_mut();
    let (_, end) = thread::join_mut(
        rt,
        &mut ||
            requires { (0 < length crew.now.threads.members.items)
                × All (λ m. MayRun W.plan W.good H.hash_of shared.now.growing.id
                (draft_of topology.now)
                m.worker.placing crew.now.threads.turns m.worker.state)
                crew.now.threads.members.items
                × IfSome crew.now.asker (MayAsk W.plan shared.now.growing.id
                (draft_of topology.now)) }
            ensures { HaveKeys (λ m. m.worker.state.session.client.pass)
                crew.entry.now.threads.members.items crew.exit.now.threads.members.items
                × AllTurnedUnlessStarved W.plan (draft_of topology.entry.now)
                crew.entry.now.threads.turns
                crew.entry.now.threads.members.items crew.exit.now.threads.members.items
                × HasAskedUnlessStarved W.plan (draft_of topology.entry.now) crew.entry.now.asker
                crew.exit.now.asker }
        { work_and_ask::<H, R, W, G>(rt, alloc, topology, shared, crew, flag) },
        &mut || -> Result<JobEnd, AllocError>
            requires { MayFeed W.plan shared.now.growing.id (draft_of topology.now) feeder.now }
            ensures { IfOk result (λ e. HasFed (draft_of topology.entry.now) feeder.entry.now
                feeder.exit.now (S.left input.entry.now) (S.left input.exit.now) e)
                × IfOk result (λ e. FaultsBy e (S.faults input.entry.now)
                (S.faults input.exit.now)) }
        { feed_while(rt, alloc, topology, shared, input, feeder, flag) },
    );
    end
}

// Feeds the records of a job while the workers take their turns, or before where they wait.
fn feed_team<
    H: Processing + Sync,
    R: Threads + Wait + Sync,
    W: Work + Send + Sync,
    G: Gate + Send,
    S: Source,
>(
    rt: &R,
    alloc: Global,
    topology: &Topology,
    shared: &Shared<W>,
    input: &mut S,
    feeder: &mut JobFeed<W>,
    team: &mut Team<W, G>,
) -> Result<JobEnd, AllocError>
    requires { MayWork W.plan W.good H.hash_of shared.now.growing.id (draft_of topology.now)
        team.old feeder.old }
    ensures keys { HaveKeys (λ m. m.worker.state.session.client.pass)
        team.old.crew.threads.members.items team.new.crew.threads.members.items }
    ensures turned { OnOk result (AllTurnedUnlessStarved W.plan (draft_of topology.now)
        team.old.crew.threads.turns
        team.old.crew.threads.members.items team.new.crew.threads.members.items) }
    ensures asked { OnOk result (HasAskedUnlessStarved W.plan (draft_of topology.now)
        team.old.crew.asker team.new.crew.asker) }
    ensures fed { IfOk result (λ e. HasFed (draft_of topology.now) feeder.old feeder.new
        (S.left input.old) (S.left input.new) e) }
    ensures faults { IfOk result (λ e. FaultsBy e (S.faults input.old) (S.faults input.new)) }
{
    if team.waits {
        feed_first::<H, R, W, G, S>(rt, alloc, topology, shared, input, feeder, team)
    } else {
        feed_beside::<H, R, W, G, S>(rt, alloc, topology, shared, input, feeder, team)
    }
}

// Whether who asks is marked as starved.
fn is_asker_starved<W: Work>(asker: &Option<Asker<W>>) -> bool
    ensures { result ≡ option_map_or (λ a. a.is_starved) asker.now false }
{
    match asker {
        Some(asker) => asker.is_starved,
        None => false,
    }
}

// Whether one of them is marked as starved.
fn is_one_starved<W: Work, G: Gate>(members: &[WorkerThread<W, G>]) -> bool
    ensures { result ≡ is_one_starved members.now }
{
    for member in members {
        if member.is_starved {
            return true;
        }
    }
    false
}

// Whether somebody of a team is marked as starved.
fn is_team_starved<W: Work, G: Gate>(team: &Team<W, G>) -> bool
    ensures workers { result ≡ false
        → is_one_starved team.now.crew.threads.members.items ≡ false }
    ensures asker { result ≡ false
        → option_map_or (λ a. a.is_starved) team.now.crew.asker false ≡ false }
{
    is_one_starved(team.crew.threads.members.as_slice()) || is_asker_starved(&team.crew.asker)
}

/// Feeds the records of a job while the workers take their turns, or before where they wait. Want of memory, also in a
/// worker, is the one error.
pub fn feed_and_work<
    H: Processing + Sync,
    R: Threads + Wait + Sync,
    W: Work + Send + Sync,
    G: Gate + Send,
    S: Source,
>(
    rt: &R,
    alloc: Global,
    topology: &Topology,
    shared: &Shared<W>,
    input: &mut S,
    feeder: &mut JobFeed<W>,
    team: &mut Team<W, G>,
) -> Result<JobEnd, AllocError>
    requires { MayWork W.plan W.good H.hash_of shared.now.growing.id (draft_of topology.now)
        team.old feeder.old }
    ensures keys { HaveKeys (λ m. m.worker.state.session.client.pass)
        team.old.crew.threads.members.items team.new.crew.threads.members.items }
    ensures turned { OnOk result (HaveTurned W.plan (draft_of topology.now)
        team.old.crew.threads.turns
        team.old.crew.threads.members.items team.new.crew.threads.members.items) }
    ensures asked { OnOk result (HasAskedUnlessStarved W.plan (draft_of topology.now)
        team.old.crew.asker team.new.crew.asker) }
    ensures awake { OnOk result (option_map_or (λ a. a.is_starved) team.new.crew.asker false
        ≡ false) }
    ensures fed { IfOk result (λ e. HasFed (draft_of topology.now) feeder.old feeder.new
        (S.left input.old) (S.left input.new) e) }
    ensures faults { IfOk result (λ e. FaultsBy e (S.faults input.old) (S.faults input.new)) }
{
    let end = feed_team::<H, R, W, G, S>(rt, alloc, topology, shared, input, feeder, team)?;
    if is_team_starved(team) {
        drop(end);
        return Err(AllocError);
    }
    Ok(end)
}
