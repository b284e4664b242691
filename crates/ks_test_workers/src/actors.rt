//! A worker that is told from outside when to take a turn. Want of memory ends the test.
ghost use Rattle.std.specs.Prelude.{◌≡◌, ◌≤◌};
ghost use Rattle.ks_topo.specs.Topologies.{draft_of};
ghost use Rattle.ks_worker.specs.Beginning.{MayRun};
ghost use Rattle.ks_run_workers.specs.Members.{pass_key, IsEnlisted};

use ks_assign::Placing;
use ks_cluster::Work;
use ks_edge::{Act, Gate};
use ks_growing::Pass;
use ks_shared::{Shared, SharedState};
use ks_task_processing::Processing;
use ks_topo::Topology;
use ks_worker::Worker;
use std::alloc::Global;
use std::process::Abort;
use std::sync::Wait;
use std::sync::atomic::AtomicBool;

/// How many writes each store of the workers' tasks holds back, and of the drain's.
pub const CACHE: u32 = 2;

/// A worker, and how many more turns and acts it has at most.
#[derive(Drop)]
pub struct Actor<W: Work, G: Gate> {
    pub worker: Worker<W, G>,
    pub left: u64,
}

/// A worker of this number that did nothing yet, whose gate begins for it.
pub fn new_actor<W: Work, G: Gate>(
    alloc: Global,
    number: u8,
    instance: u8,
    placing: Placing,
    mut gate: G,
    pass: Pass<SharedState<W>>,
) -> Actor<W, G>
    requires number { number ≤ 15 }
    requires instance { instance ≤ 3 }
    ensures pass { result.worker.state.session.client.pass ≡ pass }
    ensures enlisted { IsEnlisted result.worker.state }
    ensures placing { result.worker.placing ≡ placing }
    ensures left { result.left ≡ 1000 }
{
    gate.reset(number, None, 100);
    let worker = Worker::new(alloc, number, instance, placing, gate, pass, CACHE);
    Actor { worker, left: 1000 }
}

impl<W: Work, G: Gate> Actor<W, G> {
    /// Takes one turn, whose act its gate says; nothing where none is left.
    pub fn take_turn<H: Processing, R: Wait + Abort>(
        &mut self,
        rt: &R,
        alloc: Global,
        topology: &Topology,
        shared: &Shared<W>,
    )
        requires may { MayRun W.plan W.good H.hash_of shared.now.growing.id (draft_of topology.now)
            self.old.worker.placing self.old.left self.old.worker.state }
        ensures may { MayRun W.plan W.good H.hash_of shared.now.growing.id (draft_of topology.now)
            self.new.worker.placing self.new.left self.new.worker.state }
        ensures pass { pass_key self.new.worker.state.session.client.pass
            ≡ pass_key self.old.worker.state.session.client.pass }
    {
        if self.left == 0 {
            return;
        }
        let feeding = AtomicBool::new(false);
        let worker = &mut self.worker;
        match worker.run::<H, R>(rt, alloc, topology, shared, 1, &feeding) {
            Ok(()) => self.left -= 1,
            Err(_) => rt.abort(),
        }
    }

    /// Does this act, outside of a turn; nothing where none is left.
    pub fn perform<H: Processing, R: Wait + Abort>(
        &mut self,
        rt: &R,
        alloc: Global,
        topology: &Topology,
        shared: &Shared<W>,
        act: Act,
    )
        requires may { MayRun W.plan W.good H.hash_of shared.now.growing.id (draft_of topology.now)
            self.old.worker.placing self.old.left self.old.worker.state }
        ensures may { MayRun W.plan W.good H.hash_of shared.now.growing.id (draft_of topology.now)
            self.new.worker.placing self.new.left self.new.worker.state }
        ensures pass { pass_key self.new.worker.state.session.client.pass
            ≡ pass_key self.old.worker.state.session.client.pass }
    {
        if self.left == 0 {
            return;
        }
        let worker = &mut self.worker;
        match worker.perform::<H, R>(rt, alloc, topology, shared, act) {
            Ok(()) => self.left -= 1,
            Err(_) => rt.abort(),
        }
    }
}
