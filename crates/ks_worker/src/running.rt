//! A worker's turns.
ghost use Rattle.std.specs.Prelude.{◌≡◌, ◌≤◌, ◌+◌, true, false, OnOk, IfOk};
ghost use Rattle.ks_edge.specs.Counts.{one_if};
ghost use Rattle.ks_topo.specs.Topologies.{draft_of};
ghost use Rattle.ks_worker_state.specs.State.{MayAct, LaterState, IsWorkerState};
ghost use Rattle.ks_worker_turn.specs.Placing.{PlacesBy};
ghost use Rattle.ks_worker.specs.Beginning.{MayRun};
ghost use Rattle.ks_worker.specs.Running.{HasCounted, ShowsCalls, IsCutOnce, HasEndedBy};
ghost use Rattle.ks_worker.specs.Turns.{BeginsTurn, IsCutBefore, ObeysGate, TakesTurn, HasTakenTurns};

use crate::worker::Worker;
use ks_cluster::Work;
use ks_edge::{Act, Gate};
use ks_shared::Shared;
use ks_task_processing::Processing;
use ks_topo::Topology;
use ks_worker_client::Halt;
use ks_worker_turn::begin_turn;
use std::alloc::{AllocError, Global};
use std::sync::Wait;
use std::sync::atomic::{AtomicBool, Ordering};
use std::time::Duration;

// How long an idle worker rests while records are fed, in ms: so that it finds many at once.
const REST_MS: u64 = 10;

impl<W: Work, G: Gate> Worker<W, G> {
    // A turn up to its act; whether the worker was cut off, and crashed.
    fn begin<H: Processing, R: Wait>(
        &mut self,
        rt: &R,
        alloc: Global,
        topology: &Topology,
        shared: &Shared<W>,
    ) -> Result<bool, AllocError>
        requires may { MayAct W.plan H.hash_of shared.now.growing.id (draft_of topology.now)
            self.old.state }
        requires placing { PlacesBy W.good self.old.placing (draft_of topology.now)
            self.old.state.session.client.pass.frame }
        ensures placing { self.new.placing ≡ self.old.placing }
        ensures later { LaterState W.plan self.old.state self.new.state }
        ensures worker { OnOk result (IsWorkerState W.plan (draft_of topology.now) self.new.state) }
        ensures once { IsCutOnce self.old.state.session.client.gate
            self.new.state.session.client.gate }
        ensures goes_on { IfOk result (λ is_cut. is_cut ≡ false
            → self.new.state.session.client.gate ≡ self.old.state.session.client.gate) }
        ensures begins { IfOk result (λ is_cut. is_cut ≡ false
            → BeginsTurn W.plan (draft_of topology.now) self.old self.new) }
        ensures cut { IfOk result (λ is_cut. is_cut ≡ true → IsCutBefore self.old self.new) }
        ensures is_cut { IfOk result (λ is_cut. is_cut ≡ true
            → self.new.state.session.client.gate.cuts
            ≡ self.old.state.session.client.gate.cuts + 1) }
    {
        self.turn = self.turn.saturating_add(1);
        self.state.session.client.gate.begin_turn();
        let state = &mut self.state;
        match begin_turn::<H, R, W, G>(rt, alloc, topology, &self.placing, shared, state) {
            Ok(waiting) => {
                self.waiting = waiting;
                Ok(false)
            }
            Err(Halt::Cut) => {
                self.state.crash(alloc);
                Ok(true)
            }
            Err(Halt::OutOfMemory) => Err(AllocError),
        }
    }

    // Asks its gate for the act and performs it, and rests where it is idle while records are still fed; whether the gate ended the worker.
    fn obey<H: Processing, R: Wait>(
        &mut self,
        rt: &R,
        alloc: Global,
        topology: &Topology,
        shared: &Shared<W>,
        feeding: &AtomicBool,
    ) -> Result<bool, AllocError>
        requires may { MayRun W.plan W.good H.hash_of shared.now.growing.id (draft_of topology.now)
            self.old.placing 1 self.old.state }
        ensures placing { self.new.placing ≡ self.old.placing }
        ensures later { LaterState W.plan self.old.state self.new.state }
        ensures worker { OnOk result (IsWorkerState W.plan (draft_of topology.now) self.new.state) }
        ensures obeys { OnOk result (ObeysGate W.plan (draft_of topology.now) self.old self.new) }
        ensures counts { HasCounted self.old.state.session.client.gate
            self.new.state.session.client.gate 1 }
        ensures asked { self.new.state.session.client.gate.asked
            ≡ self.old.state.session.client.gate.asked + 1 }
        ensures stops { IfOk result (λ stopped. self.new.state.session.client.gate.stops
            ≡ self.old.state.session.client.gate.stops + one_if stopped) }
        ensures shown { OnOk result (ShowsCalls self.old.state.member.number
            self.old.state.session.client.pass self.new.state.session.client.pass
            self.old.state.session.client.gate self.new.state.session.client.gate) }
    {
        let feeding = feeding.load(Ordering::SeqCst);
        let view = self.view(feeding);
        let act = self.state.session.client.gate.next(view);
        self.perform::<H, R>(rt, alloc, topology, shared, act)?;
        if feeding && self.is_idle() {
            shared.rest(rt, Duration::from_millis(REST_MS));
        }
        Ok(act == Act::Stop)
    }

    // One turn; whether the gate ended the worker.
    fn take_turn<H: Processing, R: Wait>(
        &mut self,
        rt: &R,
        alloc: Global,
        topology: &Topology,
        shared: &Shared<W>,
        feeding: &AtomicBool,
    ) -> Result<bool, AllocError>
        requires may { MayRun W.plan W.good H.hash_of shared.now.growing.id (draft_of topology.now)
            self.old.placing 1 self.old.state }
        ensures placing { self.new.placing ≡ self.old.placing }
        ensures later { LaterState W.plan self.old.state self.new.state }
        ensures worker { OnOk result (IsWorkerState W.plan (draft_of topology.now) self.new.state) }
        ensures turn { OnOk result (TakesTurn W.plan (draft_of topology.now) self.old self.new) }
        ensures counts { OnOk result (HasCounted self.old.state.session.client.gate
            self.new.state.session.client.gate 1) }
        ensures stops { IfOk result (λ stopped. self.new.state.session.client.gate.stops
            ≡ self.old.state.session.client.gate.stops + one_if stopped) }
        ensures took { OnOk result (self.old.state.session.client.gate.asked
            + self.old.state.session.client.gate.cuts + 1
            ≤ self.new.state.session.client.gate.asked + self.new.state.session.client.gate.cuts) }
        ensures shown { OnOk result (ShowsCalls self.old.state.member.number
            self.old.state.session.client.pass self.new.state.session.client.pass
            self.old.state.session.client.gate self.new.state.session.client.gate) }
    {
        if self.begin::<H, R>(rt, alloc, topology, shared)? {
            return Ok(false);
        }
        self.obey::<H, R>(rt, alloc, topology, shared, feeding)
    }

    /// Takes turns until its gate stops it, `turns` at most. A turn begins with what the group's status asks of the worker; then the gate
    /// says the act (`perform`). A turn that is cut off before its act ends so. The gate is shown whether the input is still being fed.
    ///
    /// Want of memory is the one error: the worker ends then, and the lock is free.
    pub fn run<H: Processing, R: Wait>(
        &mut self,
        rt: &R,
        alloc: Global,
        topology: &Topology,
        shared: &Shared<W>,
        turns: u64,
        feeding: &AtomicBool,
    ) -> Result<(), AllocError>
        requires may { MayRun W.plan W.good H.hash_of shared.now.growing.id (draft_of topology.now)
            self.old.placing turns self.old.state }
        ensures placing { self.new.placing ≡ self.old.placing }
        ensures later { LaterState W.plan self.old.state self.new.state }
        ensures worker { OnOk result (IsWorkerState W.plan (draft_of topology.now) self.new.state) }
        ensures turns { OnOk result (HasTakenTurns W.plan (draft_of topology.now) turns
            self.old self.new) }
        ensures counts { OnOk result (HasCounted self.old.state.session.client.gate
            self.new.state.session.client.gate turns) }
        ensures ended { OnOk result (HasEndedBy turns self.old.state.session.client.gate
            self.new.state.session.client.gate) }
        ensures shown { OnOk result (ShowsCalls self.old.state.member.number
            self.old.state.session.client.pass self.new.state.session.client.pass
            self.old.state.session.client.gate self.new.state.session.client.gate) }
    {
        for _ in 0..turns {
            if self.take_turn::<H, R>(rt, alloc, topology, shared, feeding)? {
                return Ok(());
            }
        }
        Ok(())
    }
}
