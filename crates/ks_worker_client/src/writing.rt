//! The calls of a worker's client that write. Each passes a step of the turn first: `Halt::Cut`, where the gate cuts the worker off
//! there, and then nothing is written. `Halt::OutOfMemory`: memory ran out; whether the call's entry was written isn't said.
ghost use Rattle.std.specs.Prelude.{◌≡◌, ◌≤◌, true, IfOk, OnErr};
ghost use Rattle.ks_history.specs.declared.journal.Request.TheVariants.{Init, MarkNext, Join, Expire, Hold, Probe, Assign};
ghost use Rattle.ks_history.specs.declared.journal.Reply.TheVariants.{Done, Number, Truth, Mark as Marked};
ghost use Rattle.ks_history.specs.History.{are_tasks, are_places};
ghost use Rattle.ks_history.specs.Touched.{touched};
ghost use Rattle.ks_cluster.specs.Placed.{IsGoodAt};
ghost use Rattle.ks_cluster.specs.Replies.{number_or, truth_or};
ghost use Rattle.ks_shared.specs.Calls.{setup_in, good_in};
ghost use Rattle.ks_worker_client.specs.Turns.{counts_after};
ghost use Rattle.ks_worker_client.specs.Calls.{MayCall, Later, Wrote};

use crate::client::ClusterClient;
use crate::halt::{Halt, or_halt};
use ks_cluster::Work;
use ks_edge::Gate;
use ks_record::{Assignment, PartId, Refused, TaskId};
use ks_shared::Shared;
use std::alloc::Global;
use std::sync::Wait;

impl<W: Work, G: Gate> ClusterClient<W, G> {
    /// Begins a new epoch of the worker's producer, whose undecided transaction is aborted, and answers the epoch. `last` is then
    /// the place of this entry. The number 16 is left to the cluster's caller.
    pub fn init<R: Wait>(
        &mut self,
        rt: &R,
        alloc: Global,
        shared: &Shared<W>,
        w: u8,
        last: &mut u64,
    ) -> Result<u64, Halt>
        requires may { MayCall W.plan shared.now.growing.id self.old.pass self.old.gate }
        requires worker { w ≤ 15 }
        ensures gate { self.new.gate ≡ counts_after self.old.gate result }
        ensures later { Later W.plan self.old.pass self.new.pass }
        ensures wrote { IfOk result (λ n. Wrote W.plan self.old.pass self.new.pass (Init w)
            (Number n)) }
        ensures last { IfOk result (λ n. last.new ≡ touched w self.new.pass.seen) }
        ensures last_stays { OnErr result (last.new ≡ last.old) }
    {
        self.gate.pass_step()?;
        or_halt(shared.init(rt, alloc, w, last, &mut self.pass))
    }

    /// Writes the first waiting marker of a producer, and answers it; None where none waits.
    pub fn mark_next<R: Wait>(
        &mut self,
        rt: &R,
        alloc: Global,
        shared: &Shared<W>,
        w: u8,
    ) -> Result<Option<(PartId, bool)>, Halt>
        requires may { MayCall W.plan shared.now.growing.id self.old.pass self.old.gate }
        requires worker { w ≤ 16 }
        ensures gate { self.new.gate ≡ counts_after self.old.gate result }
        ensures later { Later W.plan self.old.pass self.new.pass }
        ensures wrote { IfOk result (λ n. Wrote W.plan self.old.pass self.new.pass (MarkNext w)
            (Marked n)) }
    {
        self.write_marker(rt, alloc, shared, w)
    }

    /// Makes a worker a member, and answers the next generation, which begins without an assignment. The number 16 is left to the
    /// cluster's caller.
    pub fn join<R: Wait>(
        &mut self,
        rt: &R,
        alloc: Global,
        shared: &Shared<W>,
        w: u8,
    ) -> Result<u64, Halt>
        requires may { MayCall W.plan shared.now.growing.id self.old.pass self.old.gate }
        requires worker { w ≤ 15 }
        ensures gate { self.new.gate ≡ counts_after self.old.gate result }
        ensures later { Later W.plan self.old.pass self.new.pass }
        ensures wrote { IfOk result (λ n. Wrote W.plan self.old.pass self.new.pass (Join w)
            (Number n)) }
    {
        self.gate.pass_step()?;
        or_halt(shared.join(rt, alloc, w, &mut self.pass))
    }

    /// Removes a worker from the group and aborts its undecided transaction; false where it is no member and has nothing undecided.
    pub fn expire<R: Wait>(
        &mut self,
        rt: &R,
        alloc: Global,
        shared: &Shared<W>,
        w: u8,
    ) -> Result<bool, Halt>
        requires may { MayCall W.plan shared.now.growing.id self.old.pass self.old.gate }
        requires worker { w ≤ 16 }
        ensures gate { self.new.gate ≡ counts_after self.old.gate result }
        ensures later { Later W.plan self.old.pass self.new.pass }
        ensures wrote { IfOk result (λ n. Wrote W.plan self.old.pass self.new.pass (Expire w)
            (Truth n)) }
    {
        self.gate.pass_step()?;
        or_halt(shared.expire(rt, alloc, w, &mut self.pass))
    }

    /// Tells the group the positions that a worker holds.
    pub fn hold<R: Wait>(
        &mut self,
        rt: &R,
        alloc: Global,
        shared: &Shared<W>,
        w: u8,
        held: &[(TaskId, u64)],
    ) -> Result<(), Halt>
        requires may { MayCall W.plan shared.now.growing.id self.old.pass self.old.gate }
        requires worker { w ≤ 16 }
        requires tasks { are_tasks (setup_in W.plan self.old.pass.frame) held.now ≡ true }
        ensures gate { self.new.gate ≡ counts_after self.old.gate result }
        ensures later { Later W.plan self.old.pass self.new.pass }
        ensures wrote { IfOk result (λ n. Wrote W.plan self.old.pass self.new.pass (Hold w held.now)
            Done) }
    {
        self.gate.pass_step()?;
        or_halt(shared.hold(rt, alloc, w, held, &mut self.pass))
    }

    /// Begins the next generation with the same members, and answers it. Refused: OldGeneration.
    pub fn probe<R: Wait>(
        &mut self,
        rt: &R,
        alloc: Global,
        shared: &Shared<W>,
        w: u8,
        generation: u64,
    ) -> Result<Result<u64, Refused>, Halt>
        requires may { MayCall W.plan shared.now.growing.id self.old.pass self.old.gate }
        requires worker { w ≤ 16 }
        ensures gate { self.new.gate ≡ counts_after self.old.gate result }
        ensures later { Later W.plan self.old.pass self.new.pass }
        ensures wrote { IfOk result (λ n. Wrote W.plan self.old.pass self.new.pass
            (Probe w generation) (number_or n)) }
    {
        self.gate.pass_step()?;
        or_halt(shared.probe(rt, alloc, w, generation, &mut self.pass))
    }

    /// Gives the generation its assignment, which is good by what the pass has seen; false where it has one. Refused: OldGeneration,
    /// BadAssignment.
    pub fn assign<R: Wait>(
        &mut self,
        rt: &R,
        alloc: Global,
        shared: &Shared<W>,
        w: u8,
        generation: u64,
        a: &Assignment,
    ) -> Result<Result<bool, Refused>, Halt>
        requires may { MayCall W.plan shared.now.growing.id self.old.pass self.old.gate }
        requires worker { w ≤ 16 }
        requires active { are_places (setup_in W.plan self.old.pass.frame) a.now.active ≡ true }
        requires standby { are_places (setup_in W.plan self.old.pass.frame) a.now.standby ≡ true }
        requires warmup { are_places (setup_in W.plan self.old.pass.frame) a.now.warmup ≡ true }
        requires good { IsGoodAt (good_in W.good self.old.pass.frame)
            (setup_in W.plan self.old.pass.frame)
            self.old.pass.seen generation a.now }
        ensures gate { self.new.gate ≡ counts_after self.old.gate result }
        ensures later { Later W.plan self.old.pass self.new.pass }
        ensures wrote { IfOk result (λ n. Wrote W.plan self.old.pass self.new.pass
            (Assign w generation a.now) (truth_or n)) }
    {
        self.gate.pass_step()?;
        or_halt(shared.assign(rt, alloc, w, generation, a, &mut self.pass))
    }
}
