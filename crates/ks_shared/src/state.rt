//! The value under the lock.
ghost use Rattle.std.specs.Prelude.{◌≡◌, ◌≢◌, ◌≤◌, true, None, IfOk, IfErr, IfSome, OnOk, OnErr, is_some};
ghost use Rattle.ks_history.specs.declared.journal.Request.TheVariants.{Produce, Init, Add, Append, SendOffsets, Decide, MarkNext};
ghost use Rattle.ks_history.specs.declared.journal.Request.TheVariants.{Join, Expire, Hold, Probe, Assign, Park, Unpark};
ghost use Rattle.ks_history.specs.declared.journal.Reply.TheVariants.{Done, Number, Truth, Mark as Marked};
ghost use Rattle.ks_history.specs.History.{Meets, CommitsFaithfully, IsHistory};
ghost use Rattle.ks_history.specs.Touched.{touched};
ghost use Rattle.ks_history.specs.Reads.{MayFetch, fetched, committed_refusal, committed_offsets, ends_of, status};
ghost use Rattle.ks_history.specs.State.{IsPart, has_task};
ghost use Rattle.std.specs.List.{All};
ghost use Rattle.ks_cluster.specs.Replies.{number_or, truth_or};
ghost use Rattle.ks_cluster.specs.Placed.{IsGoodAt};
ghost use Rattle.ks_cluster.specs.View.{setup_of, state_of, AddsEntry, Refuses};
ghost use Rattle.ks_shared.specs.Calls.{frame_of, Grew, Grows};
ghost use Rattle.ks_shared.specs.Own.{IsOwn};
ghost use Rattle.ks_shared.specs.Reserved.{is_callers};
ghost use Rattle.ks_shared.specs.Shelf.{IsReplicaOf};

use crate::barred::Barred;
use crate::own::{add_own, append_own, decide_own, init_own, send_own};
use ks_cluster::{Cluster, Work};
use ks_growing::Journaled;
use ks_history::{Entry, Status};
use ks_record::{Assignment, PartId, Rec, Refused, Seq, SharedRecords, TaskId};
use ks_standby::{Parked, Replica};
use std::alloc::{AllocError, AllocFailed, Global};
use std::marker::Model;

/// What of a cluster no call changes. It is for proofs alone: no value of it is made.
pub struct Frame<W> {
    pub work: W,
    pub counts: Seq<u8>,
    pub tasks: Seq<TaskId>,
}

// A cluster and the shelf of all instances, in the block that the lock's value points to. Each replica on the shelf
// follows the journal, and one stands there for exactly the pairs that are parked in the cluster.
#[derive(Drop)]
pub(crate) struct HeldState<W: Work> {
    pub(crate) cluster: Cluster<W>,
    pub(crate) shelf: Parked,
}

impl<W: Work> Model for HeldState<W> {
    ghost use Rattle.ks_cluster.specs.View.{ClusterView};
    ghost use Rattle.ks_shared.specs.Shelf.{IsShelf};

    ghost Value = { ClusterView W };

    ghost view = { λ s. s.cluster };

    ghost invariant = { λ s. IsShelf W.plan s.cluster s.shelf };
}

/// A cluster and the shelf of all instances, as the lock keeps them. The entries are those of the
/// cluster's journal, of which `produce`, and `init` and `join` of worker 16, are left to pass 0. Each replica
/// on the shelf follows the journal, and one stands there for exactly the pairs that are parked in the cluster.
/// They lie in a block of their own, so that a turn through the lock moves its address alone.
#[derive(Drop)]
pub struct SharedState<W: Work> {
    pub(crate) held: Box<HeldState<W>>,
}

impl<W: Work> Model for SharedState<W> {
    ghost use Rattle.ks_cluster.specs.View.{ClusterView};

    ghost Value = { ClusterView W };

    ghost view = { λ s. s.held.value };
}

impl<W: Work> Journaled for SharedState<W> {
    type Entry = Entry;

    type Frame = Frame<W>;

    ghost journal = { λ s. s.journal };

    ghost reserved = { is_callers };

    ghost frame = { frame_of };

    fn entries(&self) -> u64 {
        self.held.cluster.journal().len() as u64
    }
}

impl<W: Work> HeldState<W> {
    // That the journal is legal and faithful, as a fact.
    pub(crate) fn tell(&self)
        ensures { IsHistory (setup_of W.plan self.now) self.now.journal }
    {
        self.cluster.is_history();
    }

    pub(crate) fn produce(
        &mut self,
        alloc: Global,
        part: PartId,
        rec: &Rec,
    ) -> Result<u64, AllocError>
        requires { Meets (setup_of W.plan self.old) (state_of W.plan self.old)
            (Produce part rec.now) }
        ensures ok { IfOk result (λ n. AddsEntry W.plan self.old self.new (Produce part rec.now)
            (Number n)) }
        ensures err { OnErr result (self.new ≡ self.old) }
        ensures grew { Grew self.old self.new }
    {
        let answer = self.cluster.produce(alloc, part, rec);
        self.cluster.is_history();
        answer
    }

    pub(crate) fn mark_next(
        &mut self,
        alloc: Global,
        w: u8,
    ) -> Result<Option<(PartId, bool)>, AllocError>
        requires { Meets (setup_of W.plan self.old) (state_of W.plan self.old) (MarkNext w) }
        ensures ok { IfOk result (λ m. AddsEntry W.plan self.old self.new (MarkNext w) (Marked m)) }
        ensures err { OnErr result (self.new ≡ self.old) }
        ensures grows { Grows self.old self.new }
    {
        let answer = self.cluster.mark_next(alloc, w);
        self.cluster.is_history();
        answer
    }

    pub(crate) fn join(&mut self, alloc: Global, w: u8) -> Result<u64, AllocError>
        requires { Meets (setup_of W.plan self.old) (state_of W.plan self.old) (Join w) }
        ensures ok { IfOk result (λ n. AddsEntry W.plan self.old self.new (Join w) (Number n)) }
        ensures err { OnErr result (self.new ≡ self.old) }
        ensures grew { Grew self.old self.new }
        ensures grows { w ≢ 16 → Grows self.old self.new }
    {
        let answer = self.cluster.join(alloc, w);
        self.cluster.is_history();
        answer
    }

    pub(crate) fn expire(&mut self, alloc: Global, w: u8) -> Result<bool, AllocError>
        requires { Meets (setup_of W.plan self.old) (state_of W.plan self.old) (Expire w) }
        ensures ok { IfOk result (λ b. AddsEntry W.plan self.old self.new (Expire w) (Truth b)) }
        ensures err { OnErr result (self.new ≡ self.old) }
        ensures grows { Grows self.old self.new }
    {
        let answer = self.cluster.expire(alloc, w);
        self.cluster.is_history();
        answer
    }

    pub(crate) fn hold(
        &mut self,
        alloc: Global,
        w: u8,
        held: &[(TaskId, u64)],
    ) -> Result<(), AllocError>
        requires { Meets (setup_of W.plan self.old) (state_of W.plan self.old) (Hold w held.now) }
        ensures ok { IfOk result (λ u. AddsEntry W.plan self.old self.new (Hold w held.now) Done) }
        ensures err { OnErr result (self.new ≡ self.old) }
        ensures grows { Grows self.old self.new }
    {
        let answer = self.cluster.hold(alloc, w, held);
        self.cluster.is_history();
        answer
    }

    pub(crate) fn probe(
        &mut self,
        alloc: Global,
        w: u8,
        generation: u64,
    ) -> Result<Result<u64, Refused>, AllocError>
        requires { Meets (setup_of W.plan self.old) (state_of W.plan self.old)
            (Probe w generation) }
        ensures ok { IfOk result (λ r. AddsEntry W.plan self.old self.new (Probe w generation)
            (number_or r)) }
        ensures err { OnErr result (self.new ≡ self.old) }
        ensures grows { Grows self.old self.new }
    {
        let answer = self.cluster.probe(alloc, w, generation);
        self.cluster.is_history();
        answer
    }

    pub(crate) fn assign(
        &mut self,
        alloc: Global,
        w: u8,
        generation: u64,
        a: &Assignment,
    ) -> Result<Result<bool, Refused>, AllocError>
        requires meets { Meets (setup_of W.plan self.old) (state_of W.plan self.old)
            (Assign w generation a.now) }
        requires good { IsGoodAt (W.good self.old.work) (setup_of W.plan self.old)
            self.old.journal generation a.now }
        ensures ok { IfOk result (λ r. AddsEntry W.plan self.old self.new
            (Assign w generation a.now) (truth_or r)) }
        ensures err { OnErr result (self.new ≡ self.old) }
        ensures grows { Grows self.old self.new }
    {
        let answer = self.cluster.assign(alloc, w, generation, a);
        self.cluster.is_history();
        answer
    }

    pub(crate) fn init(&mut self, alloc: Global, w: u8, last: &mut u64) -> Result<u64, AllocError>
        requires { Meets (setup_of W.plan self.old) (state_of W.plan self.old) (Init w) }
        ensures ok { IfOk result (λ n. AddsEntry W.plan self.old self.new (Init w) (Number n)) }
        ensures last { IfOk result (λ n. last.new ≡ touched w self.new.journal) }
        ensures err { OnErr result (self.new ≡ self.old) }
        ensures last_stays { OnErr result (last.new ≡ last.old) }
        ensures grew { Grew self.old self.new }
        ensures grows { w ≢ 16 → Grows self.old self.new }
    {
        let answer = init_own(&mut self.cluster, alloc, w, last);
        self.cluster.is_history();
        answer
    }

    pub(crate) fn add(
        &mut self,
        alloc: Global,
        w: u8,
        epoch: u64,
        part: PartId,
        last: &mut u64,
    ) -> Result<Result<(), Barred>, AllocError>
        requires { Meets (setup_of W.plan self.old) (state_of W.plan self.old) (Add w epoch part) }
        ensures ok { IfOk result
            (λ r. IsOwn W.plan self.old self.new w last.old last.new (Add w epoch part) (λ u. Done)
            r) }
        ensures err { OnErr result (self.new ≡ self.old) }
        ensures last_stays { OnErr result (last.new ≡ last.old) }
        ensures grows { Grows self.old self.new }
    {
        let answer = add_own(&mut self.cluster, alloc, w, epoch, part, last);
        self.cluster.is_history();
        answer
    }

    pub(crate) fn append(
        &mut self,
        alloc: Global,
        w: u8,
        epoch: u64,
        number: u64,
        task: TaskId,
        part: PartId,
        recs: &SharedRecords,
        last: &mut u64,
    ) -> Result<Result<u64, Barred>, AllocError>
        requires { Meets (setup_of W.plan self.old) (state_of W.plan self.old)
            (Append w epoch number task part recs.now) }
        ensures ok { IfOk result (λ r. IsOwn W.plan self.old self.new w last.old last.new
            (Append w epoch number task part recs.now) (λ n. Number n) r) }
        ensures err { OnErr result (self.new ≡ self.old) }
        ensures last_stays { OnErr result (last.new ≡ last.old) }
        ensures grows { Grows self.old self.new }
    {
        let answer = append_own(
            &mut self.cluster,
            alloc,
            w,
            epoch,
            number,
            task,
            part,
            recs,
            last,
        );
        self.cluster.is_history();
        answer
    }

    pub(crate) fn send_offsets(
        &mut self,
        alloc: Global,
        w: u8,
        epoch: u64,
        generation: u64,
        task: TaskId,
        offsets: &[(u16, u64)],
        order: &[(u16, u64)],
        late: u64,
        last: &mut u64,
    ) -> Result<Result<(), Barred>, AllocError>
        requires { Meets (setup_of W.plan self.old) (state_of W.plan self.old)
            (SendOffsets w epoch generation task offsets.now order.now late) }
        ensures ok { IfOk result (λ r. IsOwn W.plan self.old self.new w last.old last.new
            (SendOffsets w epoch generation task offsets.now order.now late) (λ u. Done) r) }
        ensures err { OnErr result (self.new ≡ self.old) }
        ensures last_stays { OnErr result (last.new ≡ last.old) }
        ensures grows { Grows self.old self.new }
    {
        let answer = send_own(
            &mut self.cluster,
            alloc,
            w,
            epoch,
            generation,
            task,
            offsets,
            order,
            late,
            last,
        );
        self.cluster.is_history();
        answer
    }

    pub(crate) fn decide(
        &mut self,
        alloc: Global,
        w: u8,
        epoch: u64,
        commit: bool,
        last: &mut u64,
    ) -> Result<Result<(), Barred>, AllocError>
        requires meets { Meets (setup_of W.plan self.old) (state_of W.plan self.old)
            (Decide w epoch commit) }
        requires faithful { touched w self.old.journal ≡ last.old
            → CommitsFaithfully (setup_of W.plan self.old) (state_of W.plan self.old)
            (Decide w epoch commit) }
        ensures ok { IfOk result (λ r. IsOwn W.plan self.old self.new w last.old last.new
            (Decide w epoch commit) (λ u. Done) r) }
        ensures err { OnErr result (self.new ≡ self.old) }
        ensures last_stays { OnErr result (last.new ≡ last.old) }
        ensures grows { Grows self.old self.new }
    {
        let answer = decide_own(&mut self.cluster, alloc, w, epoch, commit, last);
        self.cluster.is_history();
        answer
    }

    pub(crate) fn fetch(
        &self,
        alloc: Global,
        part: PartId,
        from: u64,
        max: u32,
    ) -> Result<(Vec<(u64, Rec)>, u64), AllocError>
        requires { MayFetch (setup_of W.plan self.now) (state_of W.plan self.now) part from max }
        ensures records { IfOk result
            (λ r. r.0.items ≡ (fetched (state_of W.plan self.now) part from max).0) }
        ensures next { IfOk result (λ r. r.1 ≡ (fetched (state_of W.plan self.now) part from
            max).1) }
    {
        self.cluster.fetch(alloc, part, from, max)
    }

    pub(crate) fn committed(
        &self,
        alloc: Global,
        w: u8,
        generation: u64,
        task: TaskId,
    ) -> Result<Result<Vec<(u16, u64)>, Refused>, AllocError>
        requires worker { w ≤ 16 }
        requires task { has_task task (setup_of W.plan self.now).tasks ≡ true }
        ensures offsets { IfOk result (λ r. IfOk r
            (λ v. v.items ≡ committed_offsets (setup_of W.plan self.now) (state_of W.plan self.now)
            task)) }
        ensures refused { IfOk result
            (λ r. Refuses (committed_refusal (state_of W.plan self.now) w generation task) r) }
    {
        self.cluster.committed(alloc, w, generation, task)
    }

    pub(crate) fn ends(&self, alloc: Global, parts: &[PartId]) -> Result<Vec<u64>, AllocError>
        requires { All (IsPart (setup_of W.plan self.now)) parts.now }
        ensures { IfOk result (λ v. v.items ≡ ends_of (state_of W.plan self.now) parts.now) }
    {
        self.cluster.ends(alloc, parts)
    }

    pub(crate) fn status(&self, alloc: Global) -> Result<Status, AllocError>
        ensures { IfOk result (λ r. r ≡ status (setup_of W.plan self.now)
            (state_of W.plan self.now)) }
    {
        self.cluster.status(alloc)
    }

    // On want of memory the replica comes back.
    pub(crate) fn park(
        &mut self,
        alloc: Global,
        instance: u8,
        replica: Replica,
    ) -> Result<(), AllocFailed<Replica>>
        requires meets { Meets (setup_of W.plan self.old) (state_of W.plan self.old)
            (Park instance replica.id) }
        requires follows { IsReplicaOf (setup_of W.plan self.old) self.old.journal replica.id
            replica }
        ensures ok { OnOk result (AddsEntry W.plan self.old self.new (Park instance replica.id)
            Done) }
        ensures err { IfErr result (λ e. (e.value ≡ replica) × (self.new ≡ self.old)) }
        ensures grows { Grows self.old self.new }
    {
        let task = replica.id();
        if self.shelf.make_place(instance, task).is_err() {
            return Err(AllocFailed { value: replica });
        }
        match self.cluster.park(alloc, instance, task) {
            Ok(()) => {}
            Err(_) => return Err(AllocFailed { value: replica }),
        }
        self.cluster.is_history();
        self.shelf.set(instance, replica);
        Ok(())
    }

    pub(crate) fn unpark(
        &mut self,
        alloc: Global,
        instance: u8,
        task: TaskId,
    ) -> Result<Option<Replica>, AllocError>
        requires { Meets (setup_of W.plan self.old) (state_of W.plan self.old)
            (Unpark instance task) }
        ensures ok { IfOk result
            (λ o. AddsEntry W.plan self.old self.new (Unpark instance task) (Truth (is_some o))) }
        ensures follows { IfOk result
            (λ o. IfSome o (IsReplicaOf (setup_of W.plan self.new) self.new.journal task)) }
        ensures err { OnErr result (self.new ≡ self.old) }
        ensures grows { Grows self.old self.new }
    {
        let _is_parked = self.cluster.unpark(alloc, instance, task)?;
        self.cluster.is_history();
        Ok(self.shelf.take(instance, task))
    }
}
