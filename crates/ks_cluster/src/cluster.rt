//! The cluster: a broker under a journal that is legal and faithful.
ghost use Rattle.std.specs.Prelude.{◌≡◌, ℕ, ◌≤◌, ◌<◌, ◌^◌, [], true, None, IfOk, OnOk, OnErr, length};
ghost use Rattle.std.specs.List.{All};
ghost use Rattle.ks_history.specs.declared.journal.Request.TheVariants.{Produce, Init, Add, Append, SendOffsets, Decide, MarkNext, Join, Expire, Hold, Probe, Assign, Park, Unpark};
ghost use Rattle.ks_history.specs.declared.journal.Reply.TheVariants.{Done, Number, Truth, Mark as Marked};
ghost use Rattle.ks_history.specs.Machine.{has_topic};
ghost use Rattle.ks_history.specs.State.{IsSetup, IsPart, has_task};
ghost use Rattle.ks_history.specs.History.{Meets, CommitsFaithfully, IsHistory};
ghost use Rattle.ks_history.specs.Reads.{MayFetch, fetched, committed_refusal, committed_offsets, ends_of, decided_records, pending_producers, status};
ghost use Rattle.ks_cluster.specs.Replies.{done_or, number_or, truth_or};
ghost use Rattle.ks_history.specs.Count.{records_in};
ghost use Rattle.ks_cluster.specs.Placed.{IsGoodAt, ArePlaced};
ghost use Rattle.ks_cluster.specs.View.{ClusterView, setup_of, setup_from, state_of, AddsEntry, Refuses};

use crate::broker::Broker;
use crate::replies::{done, numbered, told};
use crate::status::{changelog_ends, copy_given, copy_members, copy_positions};
use crate::waiting::{marker_count, pending_count};
use crate::work::Work;
use ks_group::{copy_assignment, copy_held, new_pending};
use ks_history::{Entry, Journal, Reply, Request, Status};
use ks_log::{copy, ends_in};
use ks_record::{Assignment, PartId, Rec, Refused, Seq, SharedRecords, TaskId};
use std::alloc::{AllocError, Global};
use std::marker::Model;
use std::mem;

/// A cluster in memory: its partitions, producers, group and committed offsets, and the journal of all requests that
/// write. The journal is a history at all times, and all else is where the journal leaves it.
///
/// Workers are 0 to 16, also as producers, and instances 0 to 3; partitions and tasks are those of the cluster (`Meets`).
/// The outer error of each call is want of memory alone, which comes also where an epoch or the generation would be 2^64, a
/// number or an offset 2^64, where 2^32 markers wait, or where the log would have 2^48 slots; after it the cluster is as
/// before.
#[derive(Drop)]
pub struct Cluster<W: Work> {
    work: W,
    counts: Vec<u8>,
    broker: Broker,
    journal: Vec<Entry>,
}

impl<W: Work> Model for Cluster<W> {
    ghost use Rattle.ks_cluster.specs.View.{ClusterView, IsCluster};

    ghost Value = { ClusterView W };

    ghost view = { λ c. record { work = c.work; counts = c.counts.items; tasks = c.broker.group.tasks; journal = c.journal.items } };

    ghost invariant = { λ c. IsCluster (W.plan c.work) (W.good c.work) c.counts.items c.journal.items c.broker };
}

impl<W: Work> Cluster<W> {
    /// An empty cluster, with the partition count of each topic and its tasks.
    pub fn new(
        alloc: Global,
        work: W,
        parts: Vec<u8>,
        tasks: Vec<TaskId>,
    ) -> Result<Cluster<W>, AllocError>
        requires { IsSetup (setup_from (W.plan work) parts.items tasks.items) }
        ensures { IfOk result (λ c. c ≡ record
            { work = work; counts = parts.items; tasks = tasks.items; journal = [] }) }
    {
        let broker = Broker::new(alloc, &work, tasks.as_slice())?;
        Ok(Cluster {
            work,
            counts: parts,
            broker,
            journal: Vec::new(alloc),
        })
    }

    /// Puts a copy of a record into a partition of an input topic, and answers its offset.
    pub fn produce(&mut self, alloc: Global, part: PartId, rec: &Rec) -> Result<u64, AllocError>
        requires { Meets (setup_of W.plan self.old) (state_of W.plan self.old)
            (Produce part rec.now) }
        ensures ok { IfOk result (λ n. AddsEntry W.plan self.old self.new (Produce part rec.now)
            (Number n)) }
        ensures err { OnErr result (self.new ≡ self.old) }
    {
        let own = copy(rec)?;
        let kept = copy(rec)?;
        self.journal.reserve(1)?;
        let offset = self.broker.produce(alloc, part, own)?;
        self.journal.push_reserved(Entry {
            request: Request::Produce { part, rec: kept },
            reply: Reply::Number(offset),
        });
        Ok(offset)
    }

    /// Begins a new epoch of a producer, whose undecided transaction is aborted, and answers the epoch.
    pub fn init(&mut self, alloc: Global, w: u8) -> Result<u64, AllocError>
        requires { Meets (setup_of W.plan self.old) (state_of W.plan self.old) (Init w) }
        ensures ok { IfOk result (λ n. AddsEntry W.plan self.old self.new (Init w) (Number n)) }
        ensures err { OnErr result (self.new ≡ self.old) }
    {
        self.journal.reserve(1)?;
        let epoch = self.broker.init(alloc, w)?;
        self.journal.push_reserved(Entry {
            request: Request::Init { w },
            reply: Reply::Number(epoch),
        });
        Ok(epoch)
    }

    /// Takes a partition into the producer's transaction, which begins where there is none. Refused: Fenced,
    /// MarkersWaiting.
    pub fn add(
        &mut self,
        alloc: Global,
        w: u8,
        epoch: u64,
        part: PartId,
    ) -> Result<Result<(), Refused>, AllocError>
        requires { Meets (setup_of W.plan self.old) (state_of W.plan self.old) (Add w epoch part) }
        ensures ok { IfOk result (λ r. AddsEntry W.plan self.old self.new (Add w epoch part)
            (done_or r)) }
        ensures err { OnErr result (self.new ≡ self.old) }
    {
        self.journal.reserve(1)?;
        let outcome = self.broker.add(alloc, w, epoch, part)?;
        self.journal.push_reserved(Entry {
            request: Request::Add { w, epoch, part },
            reply: done(&outcome),
        });
        Ok(outcome)
    }

    /// Appends records of a task, which log and journal share, to a partition of the producer's transaction, and answers the first offset. Refused:
    /// Fenced, NoTransaction, OutOfSequence.
    pub fn append(
        &mut self,
        alloc: Global,
        w: u8,
        epoch: u64,
        number: u64,
        task: TaskId,
        part: PartId,
        recs: &SharedRecords,
    ) -> Result<Result<u64, Refused>, AllocError>
        requires { Meets (setup_of W.plan self.old) (state_of W.plan self.old)
            (Append w epoch number task part recs.now) }
        ensures ok { IfOk result (λ r. AddsEntry W.plan self.old self.new
            (Append w epoch number task part recs.now) (number_or r)) }
        ensures err { OnErr result (self.new ≡ self.old) }
    {
        let own = recs.share()?;
        let kept = recs.share()?;
        self.journal.reserve(1)?;
        let outcome = self
            .broker
            .append(alloc, w, epoch, number, task, part, own)?;
        self.journal.push_reserved(Entry {
            request: Request::Append {
                w,
                epoch,
                number,
                task,
                part,
                recs: kept,
            },
            reply: numbered(&outcome),
        });
        Ok(outcome)
    }

    /// Pends the offsets of a task in the producer's transaction, which begins where there is none, in place of earlier
    /// ones of the task. `order` is the order of what the task took, by runs of a topic and a count; `late` counts its late
    /// pairs. Refused: Fenced, OldGeneration, NotAssigned, MarkersWaiting, Unstable.
    pub fn send_offsets(
        &mut self,
        alloc: Global,
        w: u8,
        epoch: u64,
        generation: u64,
        task: TaskId,
        offsets: &[(u16, u64)],
        order: &[(u16, u64)],
        late: u64,
    ) -> Result<Result<(), Refused>, AllocError>
        requires { Meets (setup_of W.plan self.old) (state_of W.plan self.old)
            (SendOffsets w epoch generation task offsets.now order.now late) }
        ensures ok { IfOk result (λ r. AddsEntry W.plan self.old self.new
            (SendOffsets w epoch generation task offsets.now order.now late) (done_or r)) }
        ensures err { OnErr result (self.new ≡ self.old) }
    {
        let new = new_pending(alloc, task, offsets, order, late)?;
        let kept = new_pending(alloc, task, offsets, order, late)?;
        self.journal.reserve(1)?;
        let outcome = self.broker.send_offsets(alloc, w, epoch, generation, new)?;
        self.journal.push_reserved(Entry {
            request: Request::SendOffsets {
                w,
                epoch,
                generation,
                task,
                offsets: kept.offsets,
                order: kept.order,
                late,
            },
            reply: done(&outcome),
        });
        Ok(outcome)
    }

    /// Decides the producer's transaction, whose markers wait from then on. A commit, which is faithful, makes the
    /// pending offsets the committed ones in the same step. Refused: Fenced, AlreadyDecided, NoTransaction.
    pub fn decide(
        &mut self,
        alloc: Global,
        w: u8,
        epoch: u64,
        commit: bool,
    ) -> Result<Result<(), Refused>, AllocError>
        requires meets { Meets (setup_of W.plan self.old) (state_of W.plan self.old)
            (Decide w epoch commit) }
        requires faithful { CommitsFaithfully (setup_of W.plan self.old) (state_of W.plan self.old)
            (Decide w epoch commit) }
        ensures ok { IfOk result (λ r. AddsEntry W.plan self.old self.new (Decide w epoch commit)
            (done_or r)) }
        ensures err { OnErr result (self.new ≡ self.old) }
    {
        self.journal.reserve(1)?;
        let outcome = self.broker.decide(alloc, w, epoch, commit);
        self.journal.push_reserved(Entry {
            request: Request::Decide { w, epoch, commit },
            reply: done(&outcome),
        });
        Ok(outcome)
    }

    /// Writes the first waiting marker of a producer, and answers its partition and decision; None where none waits.
    pub fn mark_next(&mut self, alloc: Global, w: u8) -> Result<Option<(PartId, bool)>, AllocError>
        requires { Meets (setup_of W.plan self.old) (state_of W.plan self.old) (MarkNext w) }
        ensures ok { IfOk result (λ m. AddsEntry W.plan self.old self.new (MarkNext w) (Marked m)) }
        ensures err { OnErr result (self.new ≡ self.old) }
    {
        self.journal.reserve(1)?;
        let marked = self.broker.mark_next(alloc, w)?;
        self.journal.push_reserved(Entry {
            request: Request::MarkNext { w },
            reply: Reply::Mark(marked),
        });
        Ok(marked)
    }

    /// Takes a worker into the group, and answers the new generation, which has no assignment.
    pub fn join(&mut self, alloc: Global, w: u8) -> Result<u64, AllocError>
        requires { Meets (setup_of W.plan self.old) (state_of W.plan self.old) (Join w) }
        ensures ok { IfOk result (λ n. AddsEntry W.plan self.old self.new (Join w) (Number n)) }
        ensures err { OnErr result (self.new ≡ self.old) }
    {
        self.journal.reserve(1)?;
        let generation = self.broker.join(alloc, w)?;
        self.journal.push_reserved(Entry {
            request: Request::Join { w },
            reply: Reply::Number(generation),
        });
        Ok(generation)
    }

    /// Gives the generation an assignment: false where it has one already. `w` is the worker that asks, which the journal
    /// keeps. An assignment that is to be taken is good for the group by what some prefix of the journal, in which the
    /// generation stood already, tells of it. Refused: OldGeneration, BadAssignment.
    pub fn assign(
        &mut self,
        alloc: Global,
        w: u8,
        generation: u64,
        a: &Assignment,
    ) -> Result<Result<bool, Refused>, AllocError>
        requires meets { Meets (setup_of W.plan self.old) (state_of W.plan self.old)
            (Assign w generation a.now) }
        requires good { (state_of W.plan self.old).generation ≡ generation
            → (state_of W.plan self.old).assignment ≡ None
            → IsGoodAt (W.good self.old.work) (setup_of W.plan self.old) self.old.journal generation
            a.now }
        ensures ok { IfOk result (λ r. AddsEntry W.plan self.old self.new
            (Assign w generation a.now) (truth_or r)) }
        ensures err { OnErr result (self.new ≡ self.old) }
    {
        let kept = copy_assignment(alloc, a)?;
        self.journal.reserve(1)?;
        let outcome = self.broker.assign(alloc, generation, a)?;
        self.journal.push_reserved(Entry {
            request: Request::Assign {
                w,
                generation,
                a: kept,
            },
            reply: told(&outcome),
        });
        Ok(outcome)
    }

    /// Removes a worker from the group: its undecided transaction is aborted, its epoch rises, its held positions go, and
    /// the generation rises, without an assignment. False, and nothing changes, where it is no member and has nothing
    /// undecided.
    pub fn expire(&mut self, alloc: Global, w: u8) -> Result<bool, AllocError>
        requires { Meets (setup_of W.plan self.old) (state_of W.plan self.old) (Expire w) }
        ensures ok { IfOk result (λ b. AddsEntry W.plan self.old self.new (Expire w) (Truth b)) }
        ensures err { OnErr result (self.new ≡ self.old) }
    {
        self.journal.reserve(1)?;
        let expired = self.broker.expire(alloc, w)?;
        self.journal.push_reserved(Entry {
            request: Request::Expire { w },
            reply: Reply::Truth(expired),
        });
        Ok(expired)
    }

    /// Replaces the positions that a worker holds.
    pub fn hold(&mut self, alloc: Global, w: u8, held: &[(TaskId, u64)]) -> Result<(), AllocError>
        requires { Meets (setup_of W.plan self.old) (state_of W.plan self.old) (Hold w held.now) }
        ensures ok { OnOk result (AddsEntry W.plan self.old self.new (Hold w held.now) Done) }
        ensures err { OnErr result (self.new ≡ self.old) }
    {
        let kept = copy_held(alloc, held)?;
        self.journal.reserve(1)?;
        self.broker.hold(alloc, w, held)?;
        self.journal.push_reserved(Entry {
            request: Request::Hold {
                w,
                held: Seq::of(kept),
            },
            reply: Reply::Done,
        });
        Ok(())
    }

    /// Begins the next generation, without an assignment, and answers it. `w` is the worker that asks, which the journal
    /// keeps. Refused: OldGeneration.
    pub fn probe(
        &mut self,
        alloc: Global,
        w: u8,
        generation: u64,
    ) -> Result<Result<u64, Refused>, AllocError>
        requires { Meets (setup_of W.plan self.old) (state_of W.plan self.old)
            (Probe w generation) }
        ensures ok { IfOk result (λ r. AddsEntry W.plan self.old self.new (Probe w generation)
            (number_or r)) }
        ensures err { OnErr result (self.new ≡ self.old) }
    {
        self.journal.reserve(1)?;
        let outcome = self.broker.probe(generation)?;
        self.journal.push_reserved(Entry {
            request: Request::Probe { w, generation },
            reply: numbered(&outcome),
        });
        Ok(outcome)
    }

    /// Parks a task at an instance.
    pub fn park(&mut self, alloc: Global, instance: u8, task: TaskId) -> Result<(), AllocError>
        requires { Meets (setup_of W.plan self.old) (state_of W.plan self.old)
            (Park instance task) }
        ensures ok { OnOk result (AddsEntry W.plan self.old self.new (Park instance task) Done) }
        ensures err { OnErr result (self.new ≡ self.old) }
    {
        self.journal.reserve(1)?;
        self.broker.park(instance, task)?;
        self.journal.push_reserved(Entry {
            request: Request::Park { instance, task },
            reply: Reply::Done,
        });
        Ok(())
    }

    /// Takes a parked task from an instance: false where it isn't parked there.
    pub fn unpark(&mut self, alloc: Global, instance: u8, task: TaskId) -> Result<bool, AllocError>
        requires { Meets (setup_of W.plan self.old) (state_of W.plan self.old)
            (Unpark instance task) }
        ensures ok { IfOk result (λ b. AddsEntry W.plan self.old self.new (Unpark instance task)
            (Truth b)) }
        ensures err { OnErr result (self.new ≡ self.old) }
    {
        self.journal.reserve(1)?;
        let parked = self.broker.unpark(alloc, instance, task)?;
        self.journal.push_reserved(Entry {
            request: Request::Unpark { instance, task },
            reply: Reply::Truth(parked),
        });
        Ok(parked)
    }

    /// The first `max` readable records of a partition at or past an offset, with their offsets, and where the next
    /// fetch goes on. The offset is at most the partition's end, and `max` at least 1.
    pub fn fetch(
        &self,
        alloc: Global,
        part: PartId,
        from: u64,
        max: u32,
    ) -> Result<(Vec<(u64, Rec)>, u64), AllocError>
        requires { MayFetch (setup_of W.plan self.now) (state_of W.plan self.now) part from max }
        ensures records { IfOk result (λ r. r.0.items
            ≡ (fetched (state_of W.plan self.now) part from max).0) }
        ensures next { IfOk result (λ r. r.1 ≡ (fetched (state_of W.plan self.now) part from
            max).1) }
    {
        let slots = self.broker.log.part(part);
        let read = slots.read_committed(alloc, from, max)?;
        Ok(read)
    }

    /// The committed offset of each input of a task, in the order of its inputs. Refused: OldGeneration, NotAssigned,
    /// Unstable.
    pub fn committed(
        &self,
        alloc: Global,
        w: u8,
        generation: u64,
        task: TaskId,
    ) -> Result<Result<Vec<(u16, u64)>, Refused>, AllocError>
        requires worker { w ≤ 16 }
        requires task { has_task task (setup_of W.plan self.now).tasks ≡ true }
        ensures offsets { IfOk result (λ r. IfOk r
            (λ v. v.items ≡ committed_offsets (setup_of W.plan self.now) (state_of W.plan self.now)
            task)) }
        ensures refused { IfOk result (λ r. Refuses
            (committed_refusal (state_of W.plan self.now) w generation task) r) }
    {
        let outcome = self.broker.group.committed(alloc, w, generation, task)?;
        Ok(outcome)
    }

    /// The ends of some partitions.
    pub fn ends(&self, alloc: Global, parts: &[PartId]) -> Result<Vec<u64>, AllocError>
        requires { All (IsPart (setup_of W.plan self.now)) parts.now }
        ensures { IfOk result (λ v. v.items ≡ ends_of (state_of W.plan self.now) parts.now) }
    {
        ends_in(alloc, &self.broker.log, parts)
    }

    /// The group and the changelogs at this moment: the generation, the members (rising), the assignment, the positions that
    /// workers hold (by worker, and then in the order of the last `hold`), how many markers wait, and the end of each partition of
    /// a changelog (by topic and partition). Want of memory, the one error, comes also where the cluster has more than 65,536
    /// topics. Kafka Streams: what an assignor is told of the members' task lags and the end offsets (KIP-441).
    pub fn status(&self, alloc: Global) -> Result<Status, AllocError>
        ensures { IfOk result (λ r. r ≡ status (setup_of W.plan self.now)
            (state_of W.plan self.now)) }
    {
        let group = &self.broker.group;
        let tasks = group.tasks();
        let waiting = marker_count(&self.broker.txns)?;
        let members = copy_members(alloc, group.members())?;
        let held = copy_positions(alloc, group.held())?;
        let counts = self.counts.as_slice();
        let ends = changelog_ends(alloc, &self.work, tasks, counts, &self.broker.log)?;
        let assignment = copy_given(alloc, group.assignment())?;
        Ok(Status {
            generation: group.generation(),
            members: Seq::of(members),
            assignment,
            held: Seq::of(held),
            waiting,
            ends: Seq::of(ends),
        })
    }

    /// The journal. It is legal and faithful, each assignment in it that was taken is good by the work, and it has fewer
    /// than 2^48 records.
    pub fn journal(&self) -> &[Entry]
        ensures entries { result.now ≡ self.now.journal }
        ensures history { IsHistory (setup_of W.plan self.now) self.now.journal }
        ensures placed { ArePlaced (W.good self.now.work) (setup_of W.plan self.now)
            self.now.journal }
        ensures few { records_in (setup_of W.plan self.now) self.now.journal < 2 ^ 48 }
    {
        self.journal.as_slice()
    }

    /// That the journal is legal and faithful, that each assignment in it that was taken is good by the work, and that it has fewer
    /// than 2^48 records: facts for who calls it. It does nothing.
    pub fn is_history(&self)
        ensures history { IsHistory (setup_of W.plan self.now) self.now.journal }
        ensures placed { ArePlaced (W.good self.now.work) (setup_of W.plan self.now)
            self.now.journal }
        ensures few { records_in (setup_of W.plan self.now) self.now.journal < 2 ^ 48 }
    {
        let _journal = self.journal();
    }

    /// The journal alone: legal, faithful, with good assignments and fewer than 2^48 records.
    pub fn into_journal(self) -> Journal
        ensures entries { result ≡ self.journal }
        ensures history { IsHistory (setup_of W.plan self) self.journal }
        ensures placed { ArePlaced (W.good self.work) (setup_of W.plan self) self.journal }
        ensures few { records_in (setup_of W.plan self) self.journal < 2 ^ 48 }
    {
        let Cluster {
            work: _,
            counts: _,
            broker,
            journal,
        } = self;
        drop(broker);
        Seq::of(journal)
    }

    /// The journal alone, as `into_journal` gives it, where the process is about to end: all else of the cluster is forgotten, and its
    /// memory is taken until then.
    pub fn into_last_journal(self) -> Journal
        ensures entries { result ≡ self.journal }
        ensures history { IsHistory (setup_of W.plan self) self.journal }
        ensures placed { ArePlaced (W.good self.work) (setup_of W.plan self) self.journal }
        ensures few { records_in (setup_of W.plan self) self.journal < 2 ^ 48 }
    {
        let Cluster {
            work: _,
            counts: _,
            broker,
            journal,
        } = self;
        mem::forget(broker);
        Seq::of(journal)
    }

    /// The committed late total.
    pub fn late(&self) -> u64
        ensures { result ≡ (state_of W.plan self.now).late }
    {
        self.broker.group.late()
    }

    /// The committed offset of a task's input.
    pub fn offset(&self, task: TaskId, topic: u16) -> u64
        requires task { has_task task (setup_of W.plan self.now).tasks ≡ true }
        requires input { has_topic topic ((setup_of W.plan self.now).plan.inputs task.sub) ≡ true }
        ensures { result ≡ (state_of W.plan self.now).committed task topic }
    {
        self.broker.group.offset(task, topic)
    }

    /// How many producers have an undecided transaction or a waiting marker.
    pub fn pending(&self) -> u32
        ensures { result ≡ pending_producers (state_of W.plan self.now) }
    {
        pending_count(&self.broker.txns)
    }

    /// The decided records of a partition, with their offsets.
    pub fn decided(&self, alloc: Global, part: PartId) -> Result<Vec<(u64, Rec)>, AllocError>
        requires { IsPart (setup_of W.plan self.now) part }
        ensures { IfOk result (λ v. v.items ≡ decided_records (state_of W.plan self.now) part) }
    {
        let producers = self.broker.txns.describe(alloc)?;
        let slots = self.broker.log.part(part);
        let made = slots.decided(alloc, producers.as_slice(), part)?;
        Ok(made)
    }
}
