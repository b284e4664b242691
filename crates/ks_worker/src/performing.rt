//! A worker's acts.
ghost use Rattle.std.specs.Prelude.{◌≡◌, ◌≢◌, OnOk, OnErr};
ghost use Rattle.ks_edge.specs.declared.gate.Act.TheVariants.{Work as Working, Commit as Committing};
ghost use Rattle.ks_topo.specs.Topologies.{draft_of};
ghost use Rattle.ks_worker_client.specs.Turns.{counts_after};
ghost use Rattle.ks_worker_state.specs.State.{MayAct, LaterState, IsWorkerState};
ghost use Rattle.ks_worker.specs.Acts.{HasLostAll, Does};
ghost use Rattle.ks_worker.specs.Running.{IsCutOnce};
ghost use Rattle.ks_worker.specs.Turns.{CountsDry, dry_after};

use crate::worker::Worker;
use ks_cluster::Work;
use ks_edge::{Act, Gate};
use ks_shared::Shared;
use ks_task_processing::Processing;
use ks_topo::Topology;
use ks_worker_acts::{abort, commit_tasks, evict, leave, probe, pump, work};
use ks_worker_client::Halt;
use std::alloc::{AllocError, Global};
use std::sync::Wait;

// How many acts `Work` in a row moved nothing, with one more, of which it is told whether it moved something.
fn count_dry(dry: u32, moved: bool) -> u32
    ensures { result ≡ dry_after dry moved }
{
    if moved { 0 } else { dry.saturating_add(1) }
}

impl<W: Work, G: Gate> Worker<W, G> {
    // Its tasks read; how often in a row that moved nothing is counted.
    fn work<H: Processing, R: Wait>(
        &mut self,
        rt: &R,
        alloc: Global,
        topology: &Topology,
        shared: &Shared<W>,
        pick: u32,
    ) -> Result<(), Halt>
        requires may { MayAct W.plan H.hash_of shared.now.growing.id (draft_of topology.now)
            self.old.state }
        ensures gate { self.new.state.session.client.gate
            ≡ counts_after self.old.state.session.client.gate result }
        ensures later { LaterState W.plan self.old.state self.new.state }
        ensures placing { self.new.placing ≡ self.old.placing }
        ensures waiting { self.new.waiting ≡ self.old.waiting }
        ensures turn { self.new.turn ≡ self.old.turn }
        ensures worker { OnOk result (IsWorkerState W.plan (draft_of topology.now) self.new.state) }
        ensures does { OnOk result (Does W.plan (draft_of topology.now) self.old.waiting
            (Working pick) self.old.state self.new.state) }
        ensures dry { OnOk result (CountsDry (Working pick) self.old self.new) }
        ensures dry_cut { OnErr result (self.new.dry ≡ self.old.dry) }
    {
        let moved = work::<H, R, W, G>(rt, alloc, topology, shared, &mut self.state, pick)?;
        self.dry = count_dry(self.dry, moved);
        Ok(())
    }

    // It commits its tasks.
    fn commit<H: Processing, R: Wait>(
        &mut self,
        rt: &R,
        alloc: Global,
        topology: &Topology,
        shared: &Shared<W>,
    ) -> Result<(), Halt>
        requires may { MayAct W.plan H.hash_of shared.now.growing.id (draft_of topology.now)
            self.old.state }
        ensures gate { self.new.state.session.client.gate
            ≡ counts_after self.old.state.session.client.gate result }
        ensures later { LaterState W.plan self.old.state self.new.state }
        ensures placing { self.new.placing ≡ self.old.placing }
        ensures waiting { self.new.waiting ≡ self.old.waiting }
        ensures turn { self.new.turn ≡ self.old.turn }
        ensures worker { OnOk result (IsWorkerState W.plan (draft_of topology.now) self.new.state) }
        ensures does { OnOk result (Does W.plan (draft_of topology.now) self.old.waiting
            Committing self.old.state self.new.state) }
        ensures dry { self.new.dry ≡ self.old.dry }
    {
        commit_tasks::<H, R, W, G>(rt, alloc, topology, shared, &mut self.state)?;
        Ok(())
    }

    // It does an act.
    fn act<H: Processing, R: Wait>(
        &mut self,
        rt: &R,
        alloc: Global,
        topology: &Topology,
        shared: &Shared<W>,
        act: Act,
    ) -> Result<(), Halt>
        requires may { MayAct W.plan H.hash_of shared.now.growing.id (draft_of topology.now)
            self.old.state }
        ensures gate { self.new.state.session.client.gate
            ≡ counts_after self.old.state.session.client.gate result }
        ensures later { LaterState W.plan self.old.state self.new.state }
        ensures placing { self.new.placing ≡ self.old.placing }
        ensures waiting { self.new.waiting ≡ self.old.waiting }
        ensures turn { self.new.turn ≡ self.old.turn }
        ensures worker { OnOk result (IsWorkerState W.plan (draft_of topology.now) self.new.state) }
        ensures does { OnOk result (Does W.plan (draft_of topology.now) self.old.waiting act
            self.old.state self.new.state) }
        ensures dry { OnOk result (CountsDry act self.old self.new) }
        ensures dry_cut { OnErr result (self.new.dry ≡ self.old.dry) }
    {
        let state = &mut self.state;
        match act {
            Act::Work(pick) => return self.work::<H, R>(rt, alloc, topology, shared, pick),
            Act::Commit => return self.commit::<H, R>(rt, alloc, topology, shared),
            Act::Abort => abort(state),
            Act::Crash => state.crash(alloc),
            Act::Leave => return leave(rt, alloc, shared, state),
            Act::Pump => return pump::<H, R, W, G>(
                rt,
                alloc,
                topology,
                shared,
                state,
                self.waiting,
            ),
            Act::Probe => return probe::<H, R, W, G>(rt, alloc, topology, shared, state),
            Act::Evict(w) => return evict(rt, alloc, shared, state, w),
            Act::Stop => {}
        }
        Ok(())
    }

    /// Does one act:
    ///
    /// | Act | What it does |
    /// |---|---|
    /// | `Work(pick)` | looks at the inputs of its tasks, in order of task and topic, from the one at `pick` modulo their number on, round once; at the first whose fetch moves the position it takes at most 32 records |
    /// | `Commit` | commits what its tasks took in one transaction; makes no call where that is nothing |
    /// | `Abort` | drops its dirty tasks |
    /// | `Crash` | loses its tasks, its replicas, its epoch and its membership, and makes no call |
    /// | `Leave` | parks its replicas and those of its clean tasks, drops its dirty tasks, and removes itself from the group |
    /// | `Pump` | feeds its replicas once each, and writes a waiting marker of each producer, where some waited |
    /// | `Probe` | tells its positions, and asks for a new generation |
    /// | `Evict(w)` | removes worker `w`, 0 to 15, from the group; does nothing for another |
    /// | `Stop` | nothing |
    ///
    /// Before each call its gate is asked whether it is cut off; if it is, it crashes. Want of memory is the one error: the worker ends
    /// then, and the lock is free.
    pub fn perform<H: Processing, R: Wait>(
        &mut self,
        rt: &R,
        alloc: Global,
        topology: &Topology,
        shared: &Shared<W>,
        act: Act,
    ) -> Result<(), AllocError>
        requires may { MayAct W.plan H.hash_of shared.now.growing.id (draft_of topology.now)
            self.old.state }
        ensures gate { IsCutOnce self.old.state.session.client.gate
            self.new.state.session.client.gate }
        ensures later { LaterState W.plan self.old.state self.new.state }
        ensures placing { self.new.placing ≡ self.old.placing }
        ensures waiting { self.new.waiting ≡ self.old.waiting }
        ensures turn { self.new.turn ≡ self.old.turn }
        ensures worker { OnOk result (IsWorkerState W.plan (draft_of topology.now) self.new.state) }
        ensures does { OnOk result (self.new.state.session.client.gate
            ≡ self.old.state.session.client.gate
            → Does W.plan (draft_of topology.now) self.old.waiting act
            self.old.state self.new.state) }
        ensures cut { OnOk result (self.new.state.session.client.gate
            ≢ self.old.state.session.client.gate
            → HasLostAll self.old.state self.new.state) }
        ensures dry { OnOk result (self.new.state.session.client.gate
            ≡ self.old.state.session.client.gate
            → CountsDry act self.old self.new) }
        ensures dry_cut { OnOk result (self.new.state.session.client.gate
            ≢ self.old.state.session.client.gate
            → self.new.dry ≡ self.old.dry) }
    {
        match self.act::<H, R>(rt, alloc, topology, shared, act) {
            Ok(()) => Ok(()),
            Err(Halt::Cut) => {
                self.state.crash(alloc);
                Ok(())
            }
            Err(Halt::OutOfMemory) => Err(AllocError),
        }
    }
}
