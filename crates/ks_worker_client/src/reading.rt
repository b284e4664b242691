//! The calls of a worker's client that read: none writes an entry. Each passes a step of the turn first: `Halt::Cut`, where the gate cuts the worker off
//! there. `Halt::OutOfMemory`: memory ran out.
ghost use Rattle.std.specs.Prelude.{◌≡◌, ◌≤◌, true, IfOk};
ghost use Rattle.std.specs.List.{All};
ghost use Rattle.ks_history.specs.Reads.{MayFetch, fetched, committed_offsets, committed_refusal, ends_of, status};
ghost use Rattle.ks_history.specs.State.{IsPart, has_task};
ghost use Rattle.ks_cluster.specs.View.{Refuses};
ghost use Rattle.ks_shared.specs.Calls.{setup_in};
ghost use Rattle.ks_worker_client.specs.Turns.{counts_after};
ghost use Rattle.ks_worker_client.specs.Calls.{MayCall, Later, state_seen};

use crate::client::ClusterClient;
use crate::halt::{Halt, or_halt};
use ks_cluster::Work;
use ks_edge::Gate;
use ks_history::Status;
use ks_record::{PartId, Rec, Refused, TaskId};
use ks_shared::Shared;
use std::alloc::Global;
use std::sync::Wait;

impl<W: Work, G: Gate> ClusterClient<W, G> {
    /// The first so many committed records of a partition at or past an offset, and where the next fetch goes on.
    pub fn fetch<R: Wait>(
        &mut self,
        rt: &R,
        alloc: Global,
        shared: &Shared<W>,
        part: PartId,
        from: u64,
        most: u32,
    ) -> Result<(Vec<(u64, Rec)>, u64), Halt>
        requires may { MayCall W.plan shared.now.growing.id self.old.pass self.old.gate }
        requires fetch { MayFetch (setup_in W.plan self.old.pass.frame)
            (state_seen W.plan self.old.pass) part from most }
        ensures gate { self.new.gate ≡ counts_after self.old.gate result }
        ensures later { Later W.plan self.old.pass self.new.pass }
        ensures made { self.new.pass.made ≡ self.old.pass.made }
        ensures records { IfOk result (λ r. r.0.items
            ≡ (fetched (state_seen W.plan self.new.pass) part from most).0) }
        ensures next { IfOk result (λ r. r.1
            ≡ (fetched (state_seen W.plan self.new.pass) part from most).1) }
    {
        self.gate.pass_step()?;
        or_halt(shared.fetch(rt, alloc, part, from, most, &mut self.pass))
    }

    /// The committed offset of each input of a task, in their order. Refused: OldGeneration, NotAssigned, Unstable.
    pub fn committed<R: Wait>(
        &mut self,
        rt: &R,
        alloc: Global,
        shared: &Shared<W>,
        w: u8,
        generation: u64,
        task: TaskId,
    ) -> Result<Result<Vec<(u16, u64)>, Refused>, Halt>
        requires may { MayCall W.plan shared.now.growing.id self.old.pass self.old.gate }
        requires worker { w ≤ 16 }
        requires task { has_task task (setup_in W.plan self.old.pass.frame).tasks ≡ true }
        ensures gate { self.new.gate ≡ counts_after self.old.gate result }
        ensures later { Later W.plan self.old.pass self.new.pass }
        ensures made { self.new.pass.made ≡ self.old.pass.made }
        ensures offsets { IfOk result (λ r. IfOk r (λ v. v.items
            ≡ committed_offsets (setup_in W.plan self.old.pass.frame)
            (state_seen W.plan self.new.pass) task)) }
        ensures refused { IfOk result (λ r. Refuses
            (committed_refusal (state_seen W.plan self.new.pass) w generation task) r) }
    {
        self.gate.pass_step()?;
        or_halt(shared.committed(rt, alloc, w, generation, task, &mut self.pass))
    }

    /// The ends of partitions, in their order.
    pub fn ends<R: Wait>(
        &mut self,
        rt: &R,
        alloc: Global,
        shared: &Shared<W>,
        parts: &[PartId],
    ) -> Result<Vec<u64>, Halt>
        requires may { MayCall W.plan shared.now.growing.id self.old.pass self.old.gate }
        requires parts { All (IsPart (setup_in W.plan self.old.pass.frame)) parts.now }
        ensures gate { self.new.gate ≡ counts_after self.old.gate result }
        ensures later { Later W.plan self.old.pass self.new.pass }
        ensures made { self.new.pass.made ≡ self.old.pass.made }
        ensures ends { IfOk result (λ v. v.items
            ≡ ends_of (state_seen W.plan self.new.pass) parts.now) }
    {
        self.gate.pass_step()?;
        or_halt(shared.ends(rt, alloc, parts, &mut self.pass))
    }

    /// The group and the changelogs: the generation, the members, the assignment, the positions that workers hold, how many markers
    /// wait, and the end of each partition of a changelog.
    pub fn status<R: Wait>(
        &mut self,
        rt: &R,
        alloc: Global,
        shared: &Shared<W>,
    ) -> Result<Status, Halt>
        requires may { MayCall W.plan shared.now.growing.id self.old.pass self.old.gate }
        ensures gate { self.new.gate ≡ counts_after self.old.gate result }
        ensures later { Later W.plan self.old.pass self.new.pass }
        ensures made { self.new.pass.made ≡ self.old.pass.made }
        ensures status { IfOk result (λ r. r ≡ status (setup_in W.plan self.old.pass.frame)
            (state_seen W.plan self.new.pass)) }
    {
        self.gate.pass_step()?;
        or_halt(shared.status(rt, alloc, &mut self.pass))
    }
}
