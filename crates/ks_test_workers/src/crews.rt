//! Two workers round one cluster. Want of memory ends the test.
ghost use Rattle.std.specs.Prelude.{◌≡◌, ◌≤◌, ◌∷◌, [], length};
ghost use Rattle.ks_topo.specs.Topologies.{draft_of};
ghost use Rattle.ks_job.specs.Items.{item_views};
ghost use Rattle.ks_growing.specs.Passes.{Each, IsFresh, IsPass};
ghost use Rattle.ks_shared.specs.Calls.{frame_of};
ghost use Rattle.ks_run_workers.specs.Members.{pass_key, IsEnlisted};
ghost use Rattle.ks_worker.specs.Beginning.{MayRun};
ghost use Rattle.ks_test_workers.specs.Pairs.{IsReady};

use crate::actors::{Actor, new_actor};
use crate::scenes::{Does, Move, Scene, Who};
use crate::telling::{lent, told};
use crate::workers::expect_text;
use ks_cluster::{Cluster, Work};
use ks_edge::{Act, Gate, ScriptGate};
use ks_growing::Pass;
use ks_job::JobItem;
use ks_run_feed::{produce_all, split_first};
use ks_shared::{Shared, SharedState};
use ks_task_processing::Processing;
use ks_topo::Topology;
use std::alloc::Global;
use std::process::Abort;
use std::sync::Wait;

/// The workers 0 and 1.
#[derive(Drop)]
pub struct Pair<W: Work, G: Gate> {
    pub one: Actor<W, G>,
    pub two: Actor<W, G>,
}

// Puts a new cluster under a lock for the caller and two workers.
fn lock<R: Abort, W: Work>(
    rt: &R,
    alloc: Global,
    cluster: Cluster<W>,
) -> (Shared<W>, Vec<Pass<SharedState<W>>>)
    requires new { cluster.journal ≡ [] }
    ensures first { result.0.growing.first ≡ cluster }
    ensures passes { result.0.growing.passes ≡ 3 }
    ensures count { length result.1.items ≡ 3 }
    ensures fresh { Each (IsFresh result.0.growing.id cluster.journal (frame_of cluster))
        result.1.items }
{
    match Shared::new(alloc, cluster, 3) {
        Ok(made) => made,
        Err(_) => rt.abort(),
    }
}

fn acts_of<R: Abort>(rt: &R, alloc: Global, moves: &[Move], who: Who) -> Vec<Act> {
    let mut acts = Vec::new(alloc);
    for step in moves {
        if let Does::Turn(act) = step.1 {
            if step.0 == who {
                acts.push(act).expect(rt, "memory");
            }
        }
    }
    acts
}

// The gate of one of the workers: the first one's cuts it off where the scene says so.
fn gate_of<R: Abort>(rt: &R, alloc: Global, scene: &Scene, who: Who) -> ScriptGate {
    let acts = acts_of(rt, alloc, scene.moves, who);
    let mut cuts = Vec::new(alloc);
    if let (Who::First, Some(cut)) = (who, scene.cut) {
        cuts.push(cut).expect(rt, "memory");
    }
    ScriptGate::new(acts, cuts)
}

// The instance of the second worker; the first one's is 0.
fn other_instance(scene: &Scene) -> u8
    ensures { result ≤ 3 }
{
    if scene.placing.threads == 1 { 1 } else { 0 }
}

/// The workers of a scene, with these passes.
fn enlist<R: Abort, W: Work>(
    rt: &R,
    alloc: Global,
    scene: &Scene,
    passes: Vec<Pass<SharedState<W>>>,
) -> Pair<W, ScriptGate>
    requires two { length passes.items ≡ 2 }
    ensures passes { passes.items ≡ result.one.worker.state.session.client.pass
        ∷ result.two.worker.state.session.client.pass ∷ [] }
    ensures one { IsEnlisted result.one.worker.state × (result.one.left ≡ 1000)
        × (result.one.worker.placing ≡ scene.now.placing) }
    ensures two { IsEnlisted result.two.worker.state × (result.two.left ≡ 1000)
        × (result.two.worker.placing ≡ scene.now.placing) }
{
    let one = gate_of(rt, alloc, scene, Who::First);
    let two = gate_of(rt, alloc, scene, Who::Second);
    let (first, rest) = split_first(passes);
    let (second, _none) = split_first(rest);
    Pair {
        one: new_actor(alloc, 0, 0, scene.placing, one, first),
        two: new_actor(alloc, 1, other_instance(scene), scene.placing, two, second),
    }
}

// A worker does what a move says.
fn make_move<H: Processing, R: Wait + Abort, W: Work, G: Gate>(
    rt: &R,
    alloc: Global,
    topology: &Topology,
    shared: &Shared<W>,
    actor: &mut Actor<W, G>,
    does: Does,
) -> String
    requires may { MayRun W.plan W.good H.hash_of shared.now.growing.id (draft_of topology.now)
        actor.old.worker.placing actor.old.left actor.old.worker.state }
    ensures may { MayRun W.plan W.good H.hash_of shared.now.growing.id (draft_of topology.now)
        actor.new.worker.placing actor.new.left actor.new.worker.state }
    ensures pass { pass_key actor.new.worker.state.session.client.pass
        ≡ pass_key actor.old.worker.state.session.client.pass }
{
    match does {
        Does::Turn(_) => {
            actor.take_turn::<H, R>(rt, alloc, topology, shared);
            told(rt, alloc, topology, &actor.worker.state)
        }
        Does::Act(act) => {
            actor.perform::<H, R>(rt, alloc, topology, shared, act);
            told(rt, alloc, topology, &actor.worker.state)
        }
        Does::Lend(at_least) => lent(rt, alloc, topology, &actor.worker.state, at_least),
    }
}

fn move_one_of<H: Processing, R: Wait + Abort, W: Work, G: Gate>(
    rt: &R,
    alloc: Global,
    topology: &Topology,
    shared: &Shared<W>,
    pair: &mut Pair<W, G>,
    who: Who,
    does: Does,
) -> String
    requires one { MayRun W.plan W.good H.hash_of shared.now.growing.id (draft_of topology.now)
        pair.old.one.worker.placing pair.old.one.left pair.old.one.worker.state }
    requires two { MayRun W.plan W.good H.hash_of shared.now.growing.id (draft_of topology.now)
        pair.old.two.worker.placing pair.old.two.left pair.old.two.worker.state }
    ensures may_one { MayRun W.plan W.good H.hash_of shared.now.growing.id (draft_of topology.now)
        pair.new.one.worker.placing pair.new.one.left pair.new.one.worker.state }
    ensures may_two { MayRun W.plan W.good H.hash_of shared.now.growing.id (draft_of topology.now)
        pair.new.two.worker.placing pair.new.two.left pair.new.two.worker.state }
    ensures one { pass_key pair.new.one.worker.state.session.client.pass
        ≡ pass_key pair.old.one.worker.state.session.client.pass }
    ensures two { pass_key pair.new.two.worker.state.session.client.pass
        ≡ pass_key pair.old.two.worker.state.session.client.pass }
{
    match who {
        Who::First => { make_move::<H, R, W, G>(rt, alloc, topology, shared, &mut pair.one, does) }
        Who::Second => { make_move::<H, R, W, G>(rt, alloc, topology, shared, &mut pair.two, does) }
    }
}

// What was told is this, where that is a text.
fn expect_told<R: Abort>(rt: &R, found: &str, expected: &str) {
    if !expected.is_empty() {
        expect_text(rt, found.as_bytes(), expected.as_bytes());
    }
}

// The workers do all that a scene says.
fn play_moves<H: Processing, R: Wait + Abort, W: Work, G: Gate>(
    rt: &R,
    alloc: Global,
    topology: &Topology,
    shared: &Shared<W>,
    pair: &mut Pair<W, G>,
    moves: &[Move],
)
    requires one { MayRun W.plan W.good H.hash_of shared.now.growing.id (draft_of topology.now)
        pair.old.one.worker.placing pair.old.one.left pair.old.one.worker.state }
    requires two { MayRun W.plan W.good H.hash_of shared.now.growing.id (draft_of topology.now)
        pair.old.two.worker.placing pair.old.two.left pair.old.two.worker.state }
    ensures one { pass_key pair.new.one.worker.state.session.client.pass
        ≡ pass_key pair.old.one.worker.state.session.client.pass }
    ensures two { pass_key pair.new.two.worker.state.session.client.pass
        ≡ pass_key pair.old.two.worker.state.session.client.pass }
{
    for step in moves {
        let (who, does, expected) = *step;
        let found = move_one_of::<H, R, W, G>(rt, alloc, topology, shared, pair, who, does);
        expect_told(rt, &found, expected);
    }
}

// The pass of a worker, which goes.
fn pass_of<R: Abort, W: Work, G: Gate>(
    rt: &R,
    alloc: Global,
    actor: Actor<W, G>,
) -> Pass<SharedState<W>>
    ensures { result ≡ actor.worker.state.session.client.pass }
{
    let mut replicas = Vec::new(alloc);
    match actor.worker.into_pass(&mut replicas) {
        Ok(pass) => pass,
        Err(_) => rt.abort(),
    }
}

fn close<R: Abort, W: Work, G: Gate>(
    rt: &R,
    alloc: Global,
    shared: Shared<W>,
    first: Pass<SharedState<W>>,
    pair: Pair<W, G>,
) -> Cluster<W>
    requires passes { shared.growing.passes ≡ 3 }
    requires first { IsPass shared.growing.id 0 first }
    requires one { IsPass shared.growing.id 1 pair.one.worker.state.session.client.pass }
    requires two { IsPass shared.growing.id 2 pair.two.worker.state.session.client.pass }
    ensures { frame_of result ≡ frame_of shared.growing.first }
{
    let Pair { one, two } = pair;
    let second = pass_of(rt, alloc, one);
    let third = pass_of(rt, alloc, two);
    match vec![in alloc; first, second, third] {
        Ok(passes) => shared.close(passes),
        Err(_) => rt.abort(),
    }
}

/// Puts a cluster under a lock, and these records into it; the workers of the scene do what it says, and the cluster comes back.
pub fn play<H: Processing, R: Wait + Abort, W: Work>(
    rt: &R,
    alloc: Global,
    topology: &Topology,
    cluster: Cluster<W>,
    items: Vec<JobItem>,
    scene: &Scene,
) -> Cluster<W>
    requires ready { IsReady W.plan W.good H.hash_of (draft_of topology.now) scene.now.placing
        cluster (item_views items.items) }
    ensures { frame_of result ≡ frame_of cluster }
{
    let _nodes = topology.nodes();
    let (shared, passes) = lock(rt, alloc, cluster);
    let (mut first, others) = split_first(passes);
    let Ok(()) = produce_all(rt, alloc, topology, &shared, items, &mut first) else {
        rt.abort()
    };
    let mut pair = enlist(rt, alloc, scene, others);
    play_moves::<H, R, W, ScriptGate>(rt, alloc, topology, &shared, &mut pair, scene.moves);
    close(rt, alloc, shared, first, pair)
}
