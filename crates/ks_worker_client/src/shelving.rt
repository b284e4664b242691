//! The calls of a worker's client that reach the shelf of replicas.
ghost use Rattle.std.specs.Prelude.{◌≡◌, ◌≤◌, true, IfOk, IfSome, is_some};
ghost use Rattle.ks_history.specs.declared.journal.Request.TheVariants.{Park, Unpark};
ghost use Rattle.ks_history.specs.declared.journal.Reply.TheVariants.{Done, Truth};
ghost use Rattle.ks_history.specs.State.{has_task};
ghost use Rattle.ks_shared.specs.Calls.{setup_in};
ghost use Rattle.ks_shared.specs.Shelf.{IsReplicaOf};
ghost use Rattle.ks_worker_client.specs.Turns.{counts_after};
ghost use Rattle.ks_worker_client.specs.Calls.{MayCall, Later, Wrote};

use crate::client::ClusterClient;
use crate::halt::{Halt, or_halt};
use ks_cluster::Work;
use ks_edge::Gate;
use ks_record::TaskId;
use ks_shared::Shared;
use ks_standby::Replica;
use std::alloc::Global;
use std::sync::Wait;

impl<W: Work, G: Gate> ClusterClient<W, G> {
    /// Parks a replica at an instance, in place of one of its task that is parked there. After an error the replica is let go.
    pub fn park<R: Wait>(
        &mut self,
        rt: &R,
        alloc: Global,
        shared: &Shared<W>,
        instance: u8,
        replica: Replica,
    ) -> Result<(), Halt>
        requires may { MayCall W.plan shared.now.growing.id self.old.pass self.old.gate }
        requires instance { instance ≤ 3 }
        requires task { has_task replica.id (setup_in W.plan self.old.pass.frame).tasks ≡ true }
        requires follows { IsReplicaOf (setup_in W.plan self.old.pass.frame) self.old.pass.seen
            replica.id replica }
        ensures gate { self.new.gate ≡ counts_after self.old.gate result }
        ensures later { Later W.plan self.old.pass self.new.pass }
        ensures wrote { IfOk result (λ u. Wrote W.plan self.old.pass self.new.pass
            (Park instance replica.id) Done) }
    {
        self.gate.pass_step()?;
        match shared.park(rt, alloc, instance, replica, &mut self.pass) {
            Ok(()) => Ok(()),
            Err(_failed) => Err(Halt::OutOfMemory),
        }
    }

    /// Takes the replica of a task that is parked at an instance, which follows what the pass has seen then; None where none is parked
    /// there.
    pub fn unpark<R: Wait>(
        &mut self,
        rt: &R,
        alloc: Global,
        shared: &Shared<W>,
        instance: u8,
        task: TaskId,
    ) -> Result<Option<Replica>, Halt>
        requires may { MayCall W.plan shared.now.growing.id self.old.pass self.old.gate }
        requires instance { instance ≤ 3 }
        requires task { has_task task (setup_in W.plan self.old.pass.frame).tasks ≡ true }
        ensures gate { self.new.gate ≡ counts_after self.old.gate result }
        ensures later { Later W.plan self.old.pass self.new.pass }
        ensures wrote { IfOk result (λ o. Wrote W.plan self.old.pass self.new.pass
            (Unpark instance task) (Truth (is_some o))) }
        ensures follows { IfOk result (λ o. IfSome o (IsReplicaOf
            (setup_in W.plan self.old.pass.frame) self.new.pass.seen task)) }
    {
        self.gate.pass_step()?;
        or_halt(shared.unpark(rt, alloc, instance, task, &mut self.pass))
    }
}
