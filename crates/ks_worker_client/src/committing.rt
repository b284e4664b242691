//! The calls of a worker's client that a commit is made of: by each of them the worker's producer changes its own transaction. Each
//! passes a step of the turn first: `Halt::Cut`, where the gate cuts the worker off there, and then nothing is done.
//! `Halt::OutOfMemory`: memory ran out, and nothing was added. `Barred`: the cluster refused it, or somebody else used the worker's
//! number. None asks for a history of what the pass has seen.
ghost use Rattle.std.specs.Prelude.{◌≡◌, ◌≤◌, true, length, OnErr};
ghost use Rattle.ks_history.specs.declared.journal.Request.TheVariants.{Add, Append, SendOffsets, Decide, MarkNext};
ghost use Rattle.ks_history.specs.declared.journal.Reply.TheVariants.{Done, Number, Mark as Marked};
ghost use Rattle.ks_history.specs.History.{are_offsets, CommitsFaithfully};
ghost use Rattle.ks_history.specs.State.{IsPart, has_task};
ghost use Rattle.ks_cluster.specs.View.{AddsEntry};
ghost use Rattle.ks_shared.specs.Calls.{setup_in};
ghost use Rattle.ks_shared.specs.Own.{IsOwn};
ghost use Rattle.ks_worker_client.specs.Turns.{counts_after};
ghost use Rattle.ks_worker_client.specs.Calls.{MayAsk, Answered, state_seen};

use crate::batch::BatchHeader;
use crate::client::ClusterClient;
use crate::halt::{Halt, or_halt};
use crate::member::Member;
use ks_cluster::Work;
use ks_commit::Frozen;
use ks_edge::Gate;
use ks_record::{PartId, SharedRecords};
use ks_shared::{Barred, Shared};
use std::alloc::Global;
use std::sync::Wait;

impl<W: Work, G: Gate> ClusterClient<W, G> {
    /// Takes a partition into the producer's transaction, which begins where there is none. `last` is the last entry of the number
    /// that the caller knows of, and then this one, if it is done. Refused: Fenced, MarkersWaiting.
    pub fn add<R: Wait>(
        &mut self,
        rt: &R,
        alloc: Global,
        shared: &Shared<W>,
        member: Member,
        part: PartId,
        last: &mut u64,
    ) -> Result<Result<(), Barred>, Halt>
        requires may { MayAsk shared.now.growing.id self.old.pass self.old.gate }
        requires worker { member.number ≤ 16 }
        requires part { IsPart (setup_in W.plan self.old.pass.frame) part }
        ensures gate { self.new.gate ≡ counts_after self.old.gate result }
        ensures answered { Answered W.plan self.old.pass self.new.pass
            (λ r before after. IsOwn W.plan before after member.number last.old last.new
            (Add member.number member.epoch part)
            (λ u. Done) r) result }
        ensures last_stays { OnErr result (last.new ≡ last.old) }
    {
        self.gate.pass_step()?;
        let (w, epoch) = (member.number, member.epoch);
        or_halt(shared.add(rt, alloc, w, epoch, part, last, &mut self.pass))
    }

    /// Appends records of a task to a partition of the producer's transaction, and answers the first offset. `last` is as for `add`.
    /// Refused: Fenced, NoTransaction, OutOfSequence.
    pub fn append<R: Wait>(
        &mut self,
        rt: &R,
        alloc: Global,
        shared: &Shared<W>,
        member: Member,
        header: BatchHeader,
        recs: &SharedRecords,
        last: &mut u64,
    ) -> Result<Result<u64, Barred>, Halt>
        requires may { MayAsk shared.now.growing.id self.old.pass self.old.gate }
        requires worker { member.number ≤ 16 }
        requires part { IsPart (setup_in W.plan self.old.pass.frame) header.part }
        requires task { has_task header.task (setup_in W.plan self.old.pass.frame).tasks ≡ true }
        ensures gate { self.new.gate ≡ counts_after self.old.gate result }
        ensures answered { Answered W.plan self.old.pass self.new.pass
            (λ r before after. IsOwn W.plan before after member.number last.old last.new
            (Append member.number member.epoch header.number header.task header.part recs.now)
            (λ n. Number n) r) result }
        ensures last_stays { OnErr result (last.new ≡ last.old) }
    {
        self.gate.pass_step()?;
        let (w, epoch, number) = (member.number, member.epoch, header.number);
        let (task, part) = (header.task, header.part);
        let pass = &mut self.pass;
        or_halt(shared.append(rt, alloc, w, epoch, number, task, part, recs, last, pass))
    }

    /// Pends the offsets of a task's work in the producer's transaction, which begins where there is none, in place of earlier ones of
    /// the task. They are offsets of its inputs, none past the end that the pass has seen. `last` is as for `add`. Refused: Fenced,
    /// OldGeneration, NotAssigned, MarkersWaiting, Unstable.
    pub fn send_offsets<R: Wait>(
        &mut self,
        rt: &R,
        alloc: Global,
        shared: &Shared<W>,
        member: Member,
        work: &Frozen,
        last: &mut u64,
    ) -> Result<Result<(), Barred>, Halt>
        requires may { MayAsk shared.now.growing.id self.old.pass self.old.gate }
        requires worker { member.number ≤ 16 }
        requires task { has_task work.now.task (setup_in W.plan self.old.pass.frame).tasks ≡ true }
        requires offsets { are_offsets (setup_in W.plan self.old.pass.frame)
            (state_seen W.plan self.old.pass) work.now.task work.now.offsets ≡ true }
        ensures gate { self.new.gate ≡ counts_after self.old.gate result }
        ensures answered { Answered W.plan self.old.pass self.new.pass
            (λ r before after. IsOwn W.plan before after member.number last.old last.new
            (SendOffsets member.number member.epoch member.generation work.now.task
            work.now.offsets work.now.order work.now.late)
            (λ u. Done) r) result }
        ensures last_stays { OnErr result (last.new ≡ last.old) }
    {
        self.gate.pass_step()?;
        let (w, epoch, generation) = (member.number, member.epoch, member.generation);
        let (offsets, order) = (work.offsets.as_slice(), work.order.as_slice());
        let (task, late, pass) = (work.task, work.late, &mut self.pass);
        or_halt(shared.send_offsets(
            rt, alloc, w, epoch, generation, task, offsets, order, late, last, pass,
        ))
    }

    /// Decides the producer's transaction, whose markers wait from then on. A commit makes the pending offsets the committed ones in the
    /// same step; it asks that `last` is no later than what the pass has seen, and that what is undecided there is faithful there.
    /// `last` is as for `add`. Refused: Fenced, AlreadyDecided, NoTransaction.
    pub fn decide<R: Wait>(
        &mut self,
        rt: &R,
        alloc: Global,
        shared: &Shared<W>,
        member: Member,
        commit: bool,
        last: &mut u64,
    ) -> Result<Result<(), Barred>, Halt>
        requires may { MayAsk shared.now.growing.id self.old.pass self.old.gate }
        requires worker { member.number ≤ 16 }
        requires within { commit ≡ true → last.old ≤ length self.old.pass.seen }
        requires faithful { CommitsFaithfully (setup_in W.plan self.old.pass.frame)
            (state_seen W.plan self.old.pass) (Decide member.number member.epoch commit) }
        ensures gate { self.new.gate ≡ counts_after self.old.gate result }
        ensures answered { Answered W.plan self.old.pass self.new.pass
            (λ r before after. IsOwn W.plan before after member.number last.old last.new
            (Decide member.number member.epoch commit)
            (λ u. Done) r) result }
        ensures last_stays { OnErr result (last.new ≡ last.old) }
    {
        self.gate.pass_step()?;
        let (w, epoch) = (member.number, member.epoch);
        or_halt(shared.decide(rt, alloc, w, epoch, commit, last, &mut self.pass))
    }

    /// Writes the first waiting marker of a producer, and answers its partition and whether it commits; None where none waits.
    /// `mark_next` says of the same call what it is in a history.
    pub fn write_marker<R: Wait>(
        &mut self,
        rt: &R,
        alloc: Global,
        shared: &Shared<W>,
        w: u8,
    ) -> Result<Option<(PartId, bool)>, Halt>
        requires may { MayAsk shared.now.growing.id self.old.pass self.old.gate }
        requires worker { w ≤ 16 }
        ensures gate { self.new.gate ≡ counts_after self.old.gate result }
        ensures answered { Answered W.plan self.old.pass self.new.pass
            (λ m before after. AddsEntry W.plan before after (MarkNext w) (Marked m)) result }
    {
        self.gate.pass_step()?;
        or_halt(shared.mark_next(rt, alloc, w, &mut self.pass))
    }
}
