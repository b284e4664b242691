//! The log, the producers, the group and the parked pairs, without the journal: each call answers a request as the step does.
ghost use Rattle.std.specs.Prelude.{◌≡◌, ℕ, ◌≤◌, ◌||◌, IfOk, OnOk, OnErr};
ghost use Rattle.ks_history.specs.declared.journal.Request.TheVariants.{Produce, Init, Add, Append, SendOffsets, Decide, MarkNext, Join, Expire, Hold, Probe, Assign, Park, Unpark};
ghost use Rattle.ks_history.specs.declared.journal.Reply.TheVariants.{Done, Number, Truth, Mark as Marked};
ghost use Rattle.ks_history.specs.State.{has_number};
ghost use Rattle.ks_history.specs.Step.{is_undecided};
ghost use Rattle.ks_txn.specs.Outcomes.{producer_at};
ghost use Rattle.ks_cluster.specs.Moves.{Moves, IsNew, begin_fault};
ghost use Rattle.ks_cluster.specs.Replies.{done_or, number_or, truth_or};

use crate::inputs::task_inputs;
use crate::parked::{is_parked, without_parked};
use crate::work::Work;
use ks_group::Group;
use ks_history::Pending;
use ks_log::{Batch, Log};
use ks_record::{Assignment, PartId, Rec, Refused, Seq, SharedRecords, TaskId};
use ks_txn::Txns;
use std::alloc::{AllocError, Global};

/// All that a cluster knows but its journal.
#[derive(Drop)]
pub struct Broker {
    pub log: Log,
    pub txns: Txns,
    pub group: Group,
    /// The parked pairs of an instance and a task; a pair may stand twice.
    pub parked: Seq<(u8, TaskId)>,
}

impl Broker {
    /// An empty broker of this work and these tasks.
    pub fn new<W: Work>(alloc: Global, work: &W, tasks: &[TaskId]) -> Result<Broker, AllocError>
        ensures { IfOk result (λ b. IsNew (W.plan work.now) tasks.now b) }
    {
        let inputs = task_inputs(alloc, work, tasks)?;
        let group = Group::new(alloc, inputs)?;
        let Ok(txns) = Txns::new(alloc) else {
            drop(group);
            return Err(AllocError);
        };
        Ok(Broker {
            log: Log::new(alloc),
            txns,
            group,
            parked: Seq::new(alloc),
        })
    }

    /// Appends a record of no transaction to a partition, and answers its offset. After want of memory nothing has changed.
    pub fn produce(&mut self, alloc: Global, part: PartId, rec: Rec) -> Result<u64, AllocError>
        ensures ok { IfOk result (λ n. Moves self.old self.new (Produce part rec) (Number n)) }
        ensures err { OnErr result (self.new ≡ self.old) }
    {
        let offset = self.log.append_plain(alloc, part, rec)?;
        Ok(offset)
    }

    /// Begins a further epoch of a worker's producer and answers it; an undecided transaction of it is aborted. Where the epochs are at
    /// an end the answer is want of memory, and nothing has changed.
    pub fn init(&mut self, alloc: Global, w: u8) -> Result<u64, AllocError>
        requires { w ≤ 16 }
        ensures ok { IfOk result (λ n. Moves self.old self.new (Init w) (Number n)) }
        ensures err { OnErr result (self.new ≡ self.old) }
    {
        if self.txns.epoch(w) == u64::MAX {
            return Err(AllocError);
        }
        self.group.resolve(alloc, w, false);
        Ok(self.txns.init(w))
    }

    /// Adds a partition to a worker's transaction, or refuses it. After want of memory nothing has changed.
    pub fn add(
        &mut self,
        alloc: Global,
        w: u8,
        epoch: u64,
        part: PartId,
    ) -> Result<Result<(), Refused>, AllocError>
        requires { w ≤ 16 }
        ensures ok { IfOk result (λ r. Moves self.old self.new (Add w epoch part) (done_or r)) }
        ensures err { OnErr result (self.new ≡ self.old) }
    {
        let outcome = self.txns.add(alloc, w, epoch, part)?;
        Ok(outcome)
    }

    /// Appends a batch of a worker's transaction to a partition and answers the offset of its first record, or refuses it: for its
    /// epoch, a partition that wasn't added, a number out of sequence. After want of memory nothing has changed.
    pub fn append(
        &mut self,
        alloc: Global,
        w: u8,
        epoch: u64,
        number: u64,
        task: TaskId,
        part: PartId,
        recs: SharedRecords,
    ) -> Result<Result<u64, Refused>, AllocError>
        requires { w ≤ 16 }
        ensures ok { IfOk result (λ r. Moves self.old self.new
            (Append w epoch number task part recs) (number_or r)) }
        ensures err { OnErr result (self.new ≡ self.old) }
    {
        if let Err(refused) = self.txns.has(w, epoch, part) {
            return Ok(Err(refused));
        }
        let batch = Batch {
            producer: w,
            epoch,
            number,
            task,
            recs,
        };
        let answer = self.log.append(alloc, part, batch)?;
        match answer {
            Ok(first) => Ok(Ok(first)),
            Err(missed) => Ok(Err(Refused::OutOfSequence {
                expected: missed.expected,
            })),
        }
    }

    /// Why a worker may not send offsets for a task, whatever the group would say: its epoch is another, or markers of its producer
    /// wait, where the group's refusals of the speaker come before that.
    fn begin_refusal(&self, w: u8, epoch: u64, generation: u64, task: TaskId) -> Option<Refused>
        requires { w ≤ 16 }
        ensures { result ≡ begin_fault self.now w epoch generation task }
    {
        let held = self.txns.epoch(w);
        if epoch != held {
            return Some(Refused::Fenced { held });
        }
        let Some(waiting) = self.txns.markers_refusal(w) else {
            return None;
        };
        match self.group.speak_refusal(w, generation, task) {
            Some(refused) => Some(refused),
            None => Some(waiting),
        }
    }

    /// Gives a worker's transaction the offsets that a task is to have once it commits, or refuses them. After want of memory nothing
    /// has changed.
    pub fn send_offsets(
        &mut self,
        alloc: Global,
        w: u8,
        epoch: u64,
        generation: u64,
        new: Pending,
    ) -> Result<Result<(), Refused>, AllocError>
        requires { w ≤ 16 }
        ensures ok { IfOk result (λ r. Moves self.old self.new
            (SendOffsets w epoch generation new.task new.offsets new.order new.late) (done_or r)) }
        ensures err { OnErr result (self.new ≡ self.old) }
    {
        if let Some(refused) = self.begin_refusal(w, epoch, generation, new.task) {
            return Ok(Err(refused));
        }
        let outcome = self.group.pend(alloc, w, generation, new)?;
        match outcome {
            Ok(()) => Ok(self.txns.start(w, epoch)),
            Err(refused) => Ok(Err(refused)),
        }
    }

    /// Commits or aborts a worker's transaction, from which point its markers wait to be written; or refuses it. Takes no memory.
    pub fn decide(&mut self, alloc: Global, w: u8, epoch: u64, commit: bool) -> Result<(), Refused>
        requires { w ≤ 16 }
        ensures { Moves self.old self.new (Decide w epoch commit) (done_or result) }
    {
        if let Err(refused) = self.txns.decide(w, epoch, commit) {
            return Err(refused);
        }
        self.group.resolve(alloc, w, commit);
        Ok(())
    }

    /// Writes the next waiting marker of a worker's transaction and answers its partition and whether it commits; none where none
    /// waits. After want of memory nothing has changed.
    pub fn mark_next(&mut self, alloc: Global, w: u8) -> Result<Option<(PartId, bool)>, AllocError>
        requires { w ≤ 16 }
        ensures ok { IfOk result (λ m. Moves self.old self.new (MarkNext w) (Marked m)) }
        ensures err { OnErr result (self.new ≡ self.old) }
    {
        let Some(marker) = self.txns.next_marker(w) else {
            return Ok(None);
        };
        let part = marker.part;
        self.log.mark(alloc, part, w, marker.epoch, marker.commit)?;
        self.txns.marked(w);
        Ok(Some((marker.part, marker.commit)))
    }

    /// Makes a worker a member of the group and answers the generation that begins. Where the generations are at an end the answer is
    /// want of memory, and nothing has changed.
    pub fn join(&mut self, alloc: Global, w: u8) -> Result<u64, AllocError>
        ensures ok { IfOk result (λ n. Moves self.old self.new (Join w) (Number n)) }
        ensures err { OnErr result (self.new ≡ self.old) }
    {
        if self.group.generation() == u64::MAX {
            return Err(AllocError);
        }
        let generation = self.group.join(alloc, w)?;
        Ok(generation)
    }

    /// The request is that of any worker.
    pub fn assign(
        &mut self,
        alloc: Global,
        generation: u64,
        a: &Assignment,
    ) -> Result<Result<bool, Refused>, AllocError>
        ensures ok { IfOk result (λ r. (w : ℕ)
            → Moves self.old self.new (Assign w generation a.now) (truth_or r)) }
        ensures err { OnErr result (self.new ≡ self.old) }
    {
        let outcome = self.group.assign(alloc, generation, a)?;
        Ok(outcome)
    }

    /// Whether there is something to remove of a worker.
    fn can_expire(&self, w: u8) -> bool
        requires { w ≤ 16 }
        ensures { result ≡ (has_number w self.now.group.members || is_undecided
            (producer_at self.now.txns w)) }
    {
        self.group.has_member(w) || self.txns.undecided(w)
    }

    /// Removes a worker, whose undecided transaction is aborted and whose epoch rises: false where there is nothing to remove.
    pub fn expire(&mut self, alloc: Global, w: u8) -> Result<bool, AllocError>
        requires { w ≤ 16 }
        ensures ok { IfOk result (λ b. Moves self.old self.new (Expire w) (Truth b)) }
        ensures err { OnErr result (self.new ≡ self.old) }
    {
        if !self.can_expire(w) {
            return Ok(false);
        }
        if self.txns.epoch(w) == u64::MAX {
            return Err(AllocError);
        }
        if self.group.generation() == u64::MAX {
            return Err(AllocError);
        }
        self.group.expire(alloc, w);
        self.group.resolve(alloc, w, false);
        self.txns.fence(w);
        Ok(true)
    }

    /// Replaces the positions that a worker holds.
    pub fn hold(&mut self, alloc: Global, w: u8, held: &[(TaskId, u64)]) -> Result<(), AllocError>
        requires { w ≤ 16 }
        ensures ok { OnOk result (Moves self.old self.new (Hold w held.now) Done) }
        ensures err { OnErr result (self.new ≡ self.old) }
    {
        self.group.hold(alloc, w, held)?;
        Ok(())
    }

    /// The request is that of any worker.
    pub fn probe(&mut self, generation: u64) -> Result<Result<u64, Refused>, AllocError>
        ensures ok { IfOk result (λ r. (w : ℕ)
            → Moves self.old self.new (Probe w generation) (number_or r)) }
        ensures err { OnErr result (self.new ≡ self.old) }
    {
        if self.group.generation() == u64::MAX {
            return Err(AllocError);
        }
        Ok(self.group.probe(generation))
    }

    /// Parks a task's stores at an instance. After want of memory nothing has changed.
    pub fn park(&mut self, instance: u8, task: TaskId) -> Result<(), AllocError>
        ensures ok { OnOk result (Moves self.old self.new (Park instance task) Done) }
        ensures err { OnErr result (self.new ≡ self.old) }
    {
        self.parked.push((instance, task))?;
        Ok(())
    }

    /// False where the pair isn't parked.
    pub fn unpark(&mut self, alloc: Global, instance: u8, task: TaskId) -> Result<bool, AllocError>
        ensures ok { IfOk result (λ b. Moves self.old self.new (Unpark instance task) (Truth b)) }
        ensures err { OnErr result (self.new ≡ self.old) }
    {
        let parked = self.parked.as_slice();
        let there = is_parked(parked, instance, task);
        if !there {
            return Ok(false);
        }
        let left = without_parked(alloc, parked, instance, task)?;
        self.parked = Seq::of(left);
        Ok(true)
    }
}
