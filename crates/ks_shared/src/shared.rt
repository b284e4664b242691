//! The lock round a cluster, and its calls.
ghost use Rattle.std.specs.Prelude.{◌≡◌, ◌⊎◌, ◌≤◌, ◌<◌, ◌+◌, ℕ, true, false, Some, length, filter};
ghost use Rattle.std.specs.Prelude.{IfOk, IfErr, IfSome, OnOk, OnErr, is_some};
ghost use mathlib.Core.List.{IsPrefix};
ghost use lib.ListN.{get_elem?};
ghost use mathlib.Core.Option.{some};
ghost use Rattle.ks_history.specs.declared.journal.Entry.{Entry};
ghost use Rattle.ks_history.specs.declared.journal.Request.TheVariants.{Produce, Init, Add, Append, SendOffsets, Decide, MarkNext};
ghost use Rattle.ks_history.specs.declared.journal.Request.TheVariants.{Join, Expire, Hold, Probe, Assign, Park, Unpark};
ghost use Rattle.ks_history.specs.declared.journal.Reply.TheVariants.{Done, Number, Truth, Mark as Marked};
ghost use Rattle.ks_history.specs.History.{at, Meets, CommitsFaithfully};
ghost use Rattle.ks_history.specs.Touched.{touched};
ghost use Rattle.ks_history.specs.Reads.{MayFetch, fetched, committed_refusal, committed_offsets, ends_of, status};
ghost use Rattle.ks_history.specs.State.{IsPart, has_task};
ghost use Rattle.std.specs.List.{All};
ghost use Rattle.ks_cluster.specs.Replies.{number_or, truth_or};
ghost use Rattle.ks_cluster.specs.Placed.{IsGoodAt};
ghost use Rattle.ks_cluster.specs.View.{setup_of, state_of, AddsEntry, Refuses};
ghost use Rattle.ks_growing.specs.Rule.{total};
ghost use Rattle.ks_growing.specs.Passes.{Each, PassView, IsPass, IsFresh, seen_of, made_of, frame_of as pass_frame};
ghost use Rattle.ks_shared.specs.Calls.{setup_in, good_in, frame_of, Called};
ghost use Rattle.ks_shared.specs.Reserved.{is_callers};
ghost use Rattle.ks_shared.specs.Own.{IsOwn};
ghost use Rattle.ks_shared.specs.Shelf.{IsReplicaOf};
ghost use Rattle.ks_record.specs.declared.record.TaskId.{TaskId as Task};
ghost use Rattle.ks_shared.specs.declared.state.Frame.{Frame};

use crate::barred::Barred;
use crate::state::{HeldState, SharedState};
use ks_cluster::{Cluster, Work};
use ks_growing::{Growing, Pass};
use ks_history::Status;
use ks_record::{Assignment, PartId, Rec, Refused, SharedRecords, TaskId};
use ks_standby::{Parked, Replica};
use std::alloc::{AllocError, AllocFailed, Global};
use std::sync::Wait;
use std::time::Duration;

/// A cluster that threads use one at a time, each through a pass of its own.
///
/// The conditions of a call speak of the setup and of the journal that its pass knows. The outer error
/// is want of memory alone; after it nothing was added.
#[derive(Drop)]
pub struct Shared<W: Work> {
    growing: Growing<SharedState<W>>,
}

// A cluster of which nothing is parked, with an empty shelf.
fn held_with<W: Work>(alloc: Global, cluster: Cluster<W>) -> HeldState<W>
    requires { (i : ℕ) (t : Task) → (state_of W.plan cluster).parked i t ≡ false }
    ensures { result ≡ cluster }
{
    HeldState {
        cluster,
        shelf: Parked::new(alloc),
    }
}

// The cluster alone; what is still parked is dropped.
fn cluster_of<W: Work>(held: HeldState<W>) -> Cluster<W>
    ensures { result ≡ held }
{
    let HeldState { cluster, shelf: _ } = held;
    cluster
}

// A cluster of which nothing is parked, as the lock keeps it. On want of memory the cluster comes back.
fn state_with<W: Work>(
    alloc: Global,
    cluster: Cluster<W>,
) -> Result<SharedState<W>, AllocFailed<Cluster<W>>>
    requires { (i : ℕ) (t : Task) → (state_of W.plan cluster).parked i t ≡ false }
    ensures ok { IfOk result (λ s. s ≡ cluster) }
    ensures err { IfErr result (λ e. e.value ≡ cluster) }
{
    match Box::new(alloc, held_with(alloc, cluster)) {
        Ok(held) => Ok(SharedState { held }),
        Err(failed) => Err(AllocFailed {
            value: cluster_of(failed.value),
        }),
    }
}

// The cluster that the lock kept; what is still parked is dropped.
fn cluster_in<W: Work>(state: SharedState<W>) -> Cluster<W>
    ensures { result ≡ state }
{
    let SharedState { held } = state;
    cluster_of(Box::into_inner(held))
}

impl<W: Work> Shared<W> {
    /// Puts a cluster, of which nothing is parked, under a lock with 1 to 64 passes, whose numbers are 0,
    /// 1, 2 and so on. On want of memory the cluster comes back.
    pub fn new(
        alloc: Global,
        cluster: Cluster<W>,
        passes: u8,
    ) -> Result<(Shared<W>, Vec<Pass<SharedState<W>>>), AllocFailed<Cluster<W>>>
        requires passes { (1 ≤ passes) × (passes ≤ 64) }
        requires none { (i : ℕ) (t : Task) → (state_of W.plan cluster).parked i t ≡ false }
        ensures first { IfOk result (λ r. r.0.growing.first ≡ cluster) }
        ensures passes { IfOk result (λ r. r.0.growing.passes ≡ passes) }
        ensures count { IfOk result (λ r. length r.1.items ≡ passes) }
        ensures fresh { IfOk result
            (λ r. Each (IsFresh r.0.growing.id cluster.journal (frame_of cluster)) r.1.items) }
        ensures err { IfErr result (λ e. e.value ≡ cluster) }
    {
        let state = match state_with(alloc, cluster) {
            Ok(state) => state,
            Err(failed) => return Err(failed),
        };
        match Growing::new(alloc, state, passes) {
            Ok((growing, passes)) => Ok((Shared { growing }, passes)),
            Err(failed) => Err(AllocFailed {
                value: cluster_in(failed.value),
            }),
        }
    }

    /// Gives the cluster back for all the passes, in the order of their numbers. Its journal begins with
    /// what each had seen, and has as many entries more than at first as they made; its `produce` entries
    /// are those that pass 0 had seen, as are its `init` and `join` entries of worker 16. What is still parked is
    /// dropped.
    pub fn close(self, passes: Vec<Pass<SharedState<W>>>) -> Cluster<W>
        requires count { (length passes.items ≡ self.growing.passes) × (0 < length passes.items) }
        requires passes { Each (IsPass self.growing.id) passes.items }
        ensures frame { frame_of result ≡ frame_of self.growing.first }
        ensures frames { Each (λ k p. pass_frame p ≡ Some (frame_of result)) passes.items }
        ensures first { IsPrefix self.growing.first.journal result.journal }
        ensures seen { Each (λ k p. IsPrefix (seen_of p) result.journal) passes.items }
        ensures made { length result.journal
            ≡ length self.growing.first.journal + total made_of passes.items }
        ensures reserved { (p : PassView Entry (Frame W)) → get_elem? passes.items 0 ≡ some p
            → filter is_callers result.journal ≡ filter is_callers (seen_of p) }
    {
        let Shared { growing } = self;
        cluster_in(growing.close(passes))
    }

    /// Sleeps for so long, or less, in nobody's way: for a thread that has nothing to do before others have.
    /// Takes no memory.
    pub fn rest<R: Wait>(&self, rt: &R, longest: Duration) {
        self.growing.rest(rt, longest);
    }

    /// Tells the first pass what the other has seen: of the two lists one begins the other, and the first
    /// pass then has the longer. Takes no memory.
    pub fn meet(&self, pass: &mut Pass<SharedState<W>>, other: &mut Pass<SharedState<W>>)
        requires own { pass.old.lock ≡ self.now.growing.id }
        requires other_own { other.old.lock ≡ self.now.growing.id }
        requires free { pass.old.holds ≡ false }
        requires other_free { other.old.holds ≡ false }
        ensures pass { pass.new ≡ record pass.old { seen = pass.new.seen } }
        ensures other { other.new ≡ other.old }
        ensures begins { IsPrefix pass.old.seen pass.new.seen }
        ensures other_begins { IsPrefix other.old.seen pass.new.seen }
        ensures either { (pass.new.seen ≡ pass.old.seen) ⊎ (pass.new.seen ≡ other.old.seen) }
        ensures reserved { pass.old.number ≡ 0
            → filter is_callers pass.new.seen ≡ filter is_callers pass.old.seen }
    {
        self.growing.meet(pass, other);
    }

    /// Puts a copy of a record into a partition of an input topic, and answers its offset. Pass 0 alone
    /// may.
    pub fn produce<R: Wait>(
        &self,
        rt: &R,
        alloc: Global,
        part: PartId,
        rec: &Rec,
        pass: &mut Pass<SharedState<W>>,
    ) -> Result<u64, AllocError>
        requires own { pass.old.lock ≡ self.now.growing.id }
        requires free { pass.old.holds ≡ false }
        requires first { pass.old.number ≡ 0 }
        requires meets { Meets (setup_in W.plan pass.old.frame)
            (at (setup_in W.plan pass.old.frame) pass.old.seen) (Produce part rec.now) }
        ensures { Called W.plan pass.old pass.new
            (λ before after. IfOk result (λ n. AddsEntry W.plan before after (Produce part rec.now)
            (Number n))
            × OnErr result (after ≡ before)) }
    {
        let mut state = self.growing.enter(rt, pass);
        let answer = state.held.produce(alloc, part, rec);
        state.held.tell();
        self.growing.leave(pass, state);
        answer
    }

    /// Writes the first waiting marker of a producer, and answers its partition and whether it commits;
    /// None where none waits.
    pub fn mark_next<R: Wait>(
        &self,
        rt: &R,
        alloc: Global,
        w: u8,
        pass: &mut Pass<SharedState<W>>,
    ) -> Result<Option<(PartId, bool)>, AllocError>
        requires own { pass.old.lock ≡ self.now.growing.id }
        requires free { pass.old.holds ≡ false }
        requires meets { Meets (setup_in W.plan pass.old.frame)
            (at (setup_in W.plan pass.old.frame) pass.old.seen) (MarkNext w) }
        ensures { Called W.plan pass.old pass.new
            (λ before after. IfOk result (λ m. AddsEntry W.plan before after (MarkNext w)
            (Marked m))
            × OnErr result (after ≡ before)) }
    {
        let mut state = self.growing.enter(rt, pass);
        let answer = state.held.mark_next(alloc, w);
        state.held.tell();
        self.growing.leave(pass, state);
        answer
    }

    /// Makes a worker a member, and answers the next generation, which begins without an assignment. Worker 16 is
    /// the caller's own: it joins through pass 0 alone.
    pub fn join<R: Wait>(
        &self,
        rt: &R,
        alloc: Global,
        w: u8,
        pass: &mut Pass<SharedState<W>>,
    ) -> Result<u64, AllocError>
        requires own { pass.old.lock ≡ self.now.growing.id }
        requires free { pass.old.holds ≡ false }
        requires meets { Meets (setup_in W.plan pass.old.frame)
            (at (setup_in W.plan pass.old.frame) pass.old.seen) (Join w) }
        requires callers { w ≡ 16 → pass.old.number ≡ 0 }
        ensures { Called W.plan pass.old pass.new
            (λ before after. IfOk result (λ n. AddsEntry W.plan before after (Join w) (Number n))
            × OnErr result (after ≡ before)) }
    {
        let mut state = self.growing.enter(rt, pass);
        let answer = state.held.join(alloc, w);
        state.held.tell();
        self.growing.leave(pass, state);
        answer
    }

    /// Removes a worker from the group and aborts its undecided transaction; false, and nothing changes,
    /// where it is no member and has nothing undecided.
    pub fn expire<R: Wait>(
        &self,
        rt: &R,
        alloc: Global,
        w: u8,
        pass: &mut Pass<SharedState<W>>,
    ) -> Result<bool, AllocError>
        requires own { pass.old.lock ≡ self.now.growing.id }
        requires free { pass.old.holds ≡ false }
        requires meets { Meets (setup_in W.plan pass.old.frame)
            (at (setup_in W.plan pass.old.frame) pass.old.seen) (Expire w) }
        ensures { Called W.plan pass.old pass.new
            (λ before after. IfOk result (λ b. AddsEntry W.plan before after (Expire w) (Truth b))
            × OnErr result (after ≡ before)) }
    {
        let mut state = self.growing.enter(rt, pass);
        let answer = state.held.expire(alloc, w);
        state.held.tell();
        self.growing.leave(pass, state);
        answer
    }

    /// Replaces the positions that a worker holds.
    pub fn hold<R: Wait>(
        &self,
        rt: &R,
        alloc: Global,
        w: u8,
        held: &[(TaskId, u64)],
        pass: &mut Pass<SharedState<W>>,
    ) -> Result<(), AllocError>
        requires own { pass.old.lock ≡ self.now.growing.id }
        requires free { pass.old.holds ≡ false }
        requires meets { Meets (setup_in W.plan pass.old.frame)
            (at (setup_in W.plan pass.old.frame) pass.old.seen) (Hold w held.now) }
        ensures { Called W.plan pass.old pass.new
            (λ before after. IfOk result (λ u. AddsEntry W.plan before after (Hold w held.now) Done)
            × OnErr result (after ≡ before)) }
    {
        let mut state = self.growing.enter(rt, pass);
        let answer = state.held.hold(alloc, w, held);
        state.held.tell();
        self.growing.leave(pass, state);
        answer
    }

    /// Begins the next generation, without an assignment, and answers it.
    pub fn probe<R: Wait>(
        &self,
        rt: &R,
        alloc: Global,
        w: u8,
        generation: u64,
        pass: &mut Pass<SharedState<W>>,
    ) -> Result<Result<u64, Refused>, AllocError>
        requires own { pass.old.lock ≡ self.now.growing.id }
        requires free { pass.old.holds ≡ false }
        requires meets { Meets (setup_in W.plan pass.old.frame)
            (at (setup_in W.plan pass.old.frame) pass.old.seen) (Probe w generation) }
        ensures { Called W.plan pass.old pass.new
            (λ before after. IfOk result (λ r. AddsEntry W.plan before after (Probe w generation)
            (number_or r))
            × OnErr result (after ≡ before)) }
    {
        let mut state = self.growing.enter(rt, pass);
        let answer = state.held.probe(alloc, w, generation);
        state.held.tell();
        self.growing.leave(pass, state);
        answer
    }

    /// Proposes an assignment for a generation; false where the generation has one already. The assignment is good
    /// by what some beginning of what the pass has seen, in which the generation stood already, tells of the group.
    pub fn assign<R: Wait>(
        &self,
        rt: &R,
        alloc: Global,
        w: u8,
        generation: u64,
        a: &Assignment,
        pass: &mut Pass<SharedState<W>>,
    ) -> Result<Result<bool, Refused>, AllocError>
        requires own { pass.old.lock ≡ self.now.growing.id }
        requires free { pass.old.holds ≡ false }
        requires meets { Meets (setup_in W.plan pass.old.frame)
            (at (setup_in W.plan pass.old.frame) pass.old.seen) (Assign w generation a.now) }
        requires good { IsGoodAt (good_in W.good pass.old.frame) (setup_in W.plan pass.old.frame)
            pass.old.seen generation a.now }
        ensures { Called W.plan pass.old pass.new
            (λ before after. IfOk result (λ r. AddsEntry W.plan before after
            (Assign w generation a.now) (truth_or r))
            × OnErr result (after ≡ before)) }
    {
        let mut state = self.growing.enter(rt, pass);
        let answer = state.held.assign(alloc, w, generation, a);
        state.held.tell();
        self.growing.leave(pass, state);
        answer
    }

    /// Begins a new epoch of a worker's number, and answers it; what the number had undecided is aborted.
    /// `last` is then this entry. Worker 16 is the caller's own: its epochs begin through pass 0 alone.
    pub fn init<R: Wait>(
        &self,
        rt: &R,
        alloc: Global,
        w: u8,
        last: &mut u64,
        pass: &mut Pass<SharedState<W>>,
    ) -> Result<u64, AllocError>
        requires own { pass.old.lock ≡ self.now.growing.id }
        requires free { pass.old.holds ≡ false }
        requires meets { Meets (setup_in W.plan pass.old.frame)
            (at (setup_in W.plan pass.old.frame) pass.old.seen) (Init w) }
        requires callers { w ≡ 16 → pass.old.number ≡ 0 }
        ensures { Called W.plan pass.old pass.new
            (λ before after. IfOk result (λ n. AddsEntry W.plan before after (Init w) (Number n))
            × IfOk result (λ n. last.new ≡ touched w after.journal)
            × OnErr result (after ≡ before) × OnErr result (last.new ≡ last.old)) }
    {
        let mut state = self.growing.enter(rt, pass);
        let answer = state.held.init(alloc, w, last);
        state.held.tell();
        self.growing.leave(pass, state);
        answer
    }

    /// Takes a partition into the producer's transaction, which begins where there is none. `last` is the
    /// last entry of the number that the caller knows of, and then this one, if it is done.
    pub fn add<R: Wait>(
        &self,
        rt: &R,
        alloc: Global,
        w: u8,
        epoch: u64,
        part: PartId,
        last: &mut u64,
        pass: &mut Pass<SharedState<W>>,
    ) -> Result<Result<(), Barred>, AllocError>
        requires own { pass.old.lock ≡ self.now.growing.id }
        requires free { pass.old.holds ≡ false }
        requires meets { Meets (setup_in W.plan pass.old.frame)
            (at (setup_in W.plan pass.old.frame) pass.old.seen) (Add w epoch part) }
        ensures { Called W.plan pass.old pass.new
            (λ before after.
            IfOk result (λ r. IsOwn W.plan before after w last.old last.new (Add w epoch part)
            (λ u. Done) r)
            × OnErr result (after ≡ before) × OnErr result (last.new ≡ last.old)) }
    {
        let mut state = self.growing.enter(rt, pass);
        let answer = state.held.add(alloc, w, epoch, part, last);
        state.held.tell();
        self.growing.leave(pass, state);
        answer
    }

    /// Appends records of a task, which log and journal share, to a partition of the producer's transaction, and answers the
    /// first offset. `number` is how many records the epoch has sent there. `last` is as for `add`.
    /// Refused: Fenced, NoTransaction, OutOfSequence.
    pub fn append<R: Wait>(
        &self,
        rt: &R,
        alloc: Global,
        w: u8,
        epoch: u64,
        number: u64,
        task: TaskId,
        part: PartId,
        recs: &SharedRecords,
        last: &mut u64,
        pass: &mut Pass<SharedState<W>>,
    ) -> Result<Result<u64, Barred>, AllocError>
        requires own { pass.old.lock ≡ self.now.growing.id }
        requires free { pass.old.holds ≡ false }
        requires meets { Meets (setup_in W.plan pass.old.frame)
            (at (setup_in W.plan pass.old.frame) pass.old.seen)
            (Append w epoch number task part recs.now) }
        ensures { Called W.plan pass.old pass.new
            (λ before after.
            IfOk result (λ r. IsOwn W.plan before after w last.old last.new
            (Append w epoch number task part recs.now) (λ n. Number n) r)
            × OnErr result (after ≡ before) × OnErr result (last.new ≡ last.old)) }
    {
        let mut state = self.growing.enter(rt, pass);
        let answer = state
            .held
            .append(alloc, w, epoch, number, task, part, recs, last);
        state.held.tell();
        self.growing.leave(pass, state);
        answer
    }

    /// Pends the offsets of a task in the producer's transaction, which begins where there is none, in
    /// place of earlier ones of the task. They are offsets of its inputs, none past the end that the pass
    /// has seen. `order` is the order of what the task took, by runs of a topic and a count; `late` counts
    /// its late pairs. `last` is as for `add`. Refused: Fenced, OldGeneration, NotAssigned,
    /// MarkersWaiting, Unstable.
    pub fn send_offsets<R: Wait>(
        &self,
        rt: &R,
        alloc: Global,
        w: u8,
        epoch: u64,
        generation: u64,
        task: TaskId,
        offsets: &[(u16, u64)],
        order: &[(u16, u64)],
        late: u64,
        last: &mut u64,
        pass: &mut Pass<SharedState<W>>,
    ) -> Result<Result<(), Barred>, AllocError>
        requires own { pass.old.lock ≡ self.now.growing.id }
        requires free { pass.old.holds ≡ false }
        requires meets { Meets (setup_in W.plan pass.old.frame)
            (at (setup_in W.plan pass.old.frame) pass.old.seen)
            (SendOffsets w epoch generation task offsets.now order.now late) }
        ensures { Called W.plan pass.old pass.new
            (λ before after.
            IfOk result (λ r. IsOwn W.plan before after w last.old last.new
            (SendOffsets w epoch generation task offsets.now order.now late) (λ u. Done) r)
            × OnErr result (after ≡ before) × OnErr result (last.new ≡ last.old)) }
    {
        let mut state = self.growing.enter(rt, pass);
        let answer = state.held.send_offsets(
            alloc, w, epoch, generation, task, offsets, order, late, last,
        );
        state.held.tell();
        self.growing.leave(pass, state);
        answer
    }

    /// Decides the producer's transaction, whose markers wait from then on. A commit makes the pending
    /// offsets the committed ones in the same step; it asks that `last` is no later than what the pass has
    /// seen, and that what is undecided there is faithful there. `last` is as for `add`. Refused: Fenced,
    /// AlreadyDecided, NoTransaction.
    pub fn decide<R: Wait>(
        &self,
        rt: &R,
        alloc: Global,
        w: u8,
        epoch: u64,
        commit: bool,
        last: &mut u64,
        pass: &mut Pass<SharedState<W>>,
    ) -> Result<Result<(), Barred>, AllocError>
        requires own { pass.old.lock ≡ self.now.growing.id }
        requires free { pass.old.holds ≡ false }
        requires meets { Meets (setup_in W.plan pass.old.frame)
            (at (setup_in W.plan pass.old.frame) pass.old.seen) (Decide w epoch commit) }
        requires within { commit ≡ true → last.old ≤ length pass.old.seen }
        requires faithful { CommitsFaithfully (setup_in W.plan pass.old.frame)
            (at (setup_in W.plan pass.old.frame) pass.old.seen) (Decide w epoch commit) }
        ensures { Called W.plan pass.old pass.new
            (λ before after.
            IfOk result (λ r. IsOwn W.plan before after w last.old last.new
            (Decide w epoch commit) (λ u. Done) r)
            × OnErr result (after ≡ before) × OnErr result (last.new ≡ last.old)) }
    {
        let mut state = self.growing.enter(rt, pass);
        state.held.tell();
        let answer = state.held.decide(alloc, w, epoch, commit, last);
        state.held.tell();
        self.growing.leave(pass, state);
        answer
    }

    /// Parks a replica at an instance, in place of one of its task that is parked there. It is a replica
    /// with the changelogs of its task that follows what the pass has seen. On want of memory it comes
    /// back.
    pub fn park<R: Wait>(
        &self,
        rt: &R,
        alloc: Global,
        instance: u8,
        replica: Replica,
        pass: &mut Pass<SharedState<W>>,
    ) -> Result<(), AllocFailed<Replica>>
        requires own { pass.old.lock ≡ self.now.growing.id }
        requires free { pass.old.holds ≡ false }
        requires meets { Meets (setup_in W.plan pass.old.frame)
            (at (setup_in W.plan pass.old.frame) pass.old.seen) (Park instance replica.id) }
        requires follows { IsReplicaOf (setup_in W.plan pass.old.frame) pass.old.seen replica.id
            replica }
        ensures { Called W.plan pass.old pass.new
            (λ before after. OnOk result (AddsEntry W.plan before after (Park instance replica.id)
            Done)
            × IfErr result (λ e. (e.value ≡ replica) × (after ≡ before))) }
    {
        let mut state = self.growing.enter(rt, pass);
        state.held.tell();
        let answer = state.held.park(alloc, instance, replica);
        state.held.tell();
        self.growing.leave(pass, state);
        answer
    }

    /// Takes the replica of a task that is parked at an instance, which follows what the pass has seen
    /// then; None exactly where the entry answers false, since none is parked there.
    pub fn unpark<R: Wait>(
        &self,
        rt: &R,
        alloc: Global,
        instance: u8,
        task: TaskId,
        pass: &mut Pass<SharedState<W>>,
    ) -> Result<Option<Replica>, AllocError>
        requires own { pass.old.lock ≡ self.now.growing.id }
        requires free { pass.old.holds ≡ false }
        requires meets { Meets (setup_in W.plan pass.old.frame)
            (at (setup_in W.plan pass.old.frame) pass.old.seen) (Unpark instance task) }
        ensures { Called W.plan pass.old pass.new
            (λ before after.
            IfOk result (λ o. AddsEntry W.plan before after (Unpark instance task)
            (Truth (is_some o)))
            × IfOk result (λ o. IfSome o (IsReplicaOf (setup_of W.plan after) after.journal task))
            × OnErr result (after ≡ before)) }
    {
        let mut state = self.growing.enter(rt, pass);
        let answer = state.held.unpark(alloc, instance, task);
        state.held.tell();
        self.growing.leave(pass, state);
        answer
    }

    /// The first `max` readable records of a partition at or past an offset, with their offsets, and where
    /// the next fetch goes on. The offset is at most the partition's end in what the pass has seen, and
    /// `max` at least 1.
    pub fn fetch<R: Wait>(
        &self,
        rt: &R,
        alloc: Global,
        part: PartId,
        from: u64,
        max: u32,
        pass: &mut Pass<SharedState<W>>,
    ) -> Result<(Vec<(u64, Rec)>, u64), AllocError>
        requires own { pass.old.lock ≡ self.now.growing.id }
        requires free { pass.old.holds ≡ false }
        requires may { MayFetch (setup_in W.plan pass.old.frame)
            (at (setup_in W.plan pass.old.frame) pass.old.seen) part from max }
        ensures { Called W.plan pass.old pass.new
            (λ before after. (after ≡ before)
            × IfOk result (λ r. r.0.items ≡ (fetched (state_of W.plan after) part from max).0)
            × IfOk result (λ r. r.1 ≡ (fetched (state_of W.plan after) part from max).1)) }
    {
        let state = self.growing.enter(rt, pass);
        let answer = state.held.fetch(alloc, part, from, max);
        state.held.tell();
        self.growing.leave(pass, state);
        answer
    }

    /// The committed offset of each input of a task, in the order of its inputs. Refused: OldGeneration,
    /// NotAssigned, Unstable.
    pub fn committed<R: Wait>(
        &self,
        rt: &R,
        alloc: Global,
        w: u8,
        generation: u64,
        task: TaskId,
        pass: &mut Pass<SharedState<W>>,
    ) -> Result<Result<Vec<(u16, u64)>, Refused>, AllocError>
        requires own { pass.old.lock ≡ self.now.growing.id }
        requires free { pass.old.holds ≡ false }
        requires worker { w ≤ 16 }
        requires task { has_task task (setup_in W.plan pass.old.frame).tasks ≡ true }
        ensures { Called W.plan pass.old pass.new
            (λ before after. (after ≡ before)
            × IfOk result (λ r. IfOk r
            (λ v. v.items ≡ committed_offsets (setup_of W.plan after) (state_of W.plan after) task))
            × IfOk result
            (λ r. Refuses (committed_refusal (state_of W.plan after) w generation task) r)) }
    {
        let state = self.growing.enter(rt, pass);
        let answer = state.held.committed(alloc, w, generation, task);
        state.held.tell();
        self.growing.leave(pass, state);
        answer
    }

    /// The ends of partitions, in their order.
    pub fn ends<R: Wait>(
        &self,
        rt: &R,
        alloc: Global,
        parts: &[PartId],
        pass: &mut Pass<SharedState<W>>,
    ) -> Result<Vec<u64>, AllocError>
        requires own { pass.old.lock ≡ self.now.growing.id }
        requires free { pass.old.holds ≡ false }
        requires parts { All (IsPart (setup_in W.plan pass.old.frame)) parts.now }
        ensures { Called W.plan pass.old pass.new
            (λ before after. (after ≡ before)
            × IfOk result (λ v. v.items ≡ ends_of (state_of W.plan after) parts.now)) }
    {
        let state = self.growing.enter(rt, pass);
        let answer = state.held.ends(alloc, parts);
        state.held.tell();
        self.growing.leave(pass, state);
        answer
    }

    /// The group and the changelogs: the generation, the members, the assignment, the positions that workers
    /// hold, how many markers wait, and the end of each partition of a changelog. Want of memory comes also
    /// where the cluster has more than 65,536 topics.
    pub fn status<R: Wait>(
        &self,
        rt: &R,
        alloc: Global,
        pass: &mut Pass<SharedState<W>>,
    ) -> Result<Status, AllocError>
        requires own { pass.old.lock ≡ self.now.growing.id }
        requires free { pass.old.holds ≡ false }
        ensures { Called W.plan pass.old pass.new
            (λ before after. (after ≡ before)
            × IfOk result (λ r. r ≡ status (setup_of W.plan after) (state_of W.plan after))) }
    {
        let state = self.growing.enter(rt, pass);
        let answer = state.held.status(alloc);
        state.held.tell();
        self.growing.leave(pass, state);
        answer
    }
}
