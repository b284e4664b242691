//! One partition: its slots, and beside them what readers and appends need of them.
ghost use Rattle.std.specs.Prelude.{◌≡◌, ℕ, ◌≤◌, ◌++◌, ◌∷◌, [], length, drop, vec_capacity, IfOk, OnOk, OnErr};
ghost use Rattle.ks_history.specs.declared.partition.Slot.TheVariants.{Plain, Mark};
ghost use Rattle.ks_history.specs.Partition.{stable, count_sent, read, read_next};
ghost use Rattle.ks_log.specs.Appending.{append_answer, appended};
ghost use Rattle.ks_log.specs.Index.{visible_in, marks_in};
ghost use Rattle.ks_log.specs.Reading.{decided_pairs, waiting_in};

use crate::append::{Batch, put_sent};
use crate::counts::{Counted, count_of, put_count};
use crate::marks::{Marked, is_visible, mark_count, put_mark};
use crate::reading::{decided_in, next_in, visible_from};
use ks_history::{Producer, Slot};
use ks_record::{PartId, Rec, SharedRecords, TaskId};
use std::alloc::{AllocError, Global};
use std::marker::Model;

/// An append's number isn't the count of its producer's and epoch's records in the partition.
#[derive(Clone, Copy, Drop)]
pub struct OutOfSequence {
    /// That count.
    pub expected: u64,
}

/// The slots of a partition in the order of their offsets, the first at offset 0. It is seen as the list of these slots.
#[derive(Drop)]
pub struct Part {
    slots: Vec<Slot>,
    /// For each slot below the last stable offset, whether readers get it.
    visible: Vec<bool>,
    marks: Vec<Marked>,
    /// How many markers stand below the last stable offset.
    passed: usize,
    counts: Vec<Counted>,
}

impl Model for Part {
    ghost use Rattle.std.specs.Prelude.{List};
    ghost use Rattle.ks_history.specs.declared.partition.Slot.{Slot};
    ghost use Rattle.ks_log.specs.Index.{IsIndexed};

    ghost Value = { List Slot };

    ghost view = { λ p. p.slots.items };

    ghost invariant = { λ p. IsIndexed p.slots.items p.visible.items p.marks.items p.passed p.counts.items };
}

/// Tells of each slot on from those that are known whether readers get it, up to the first record that no marker
/// completes, and answers how many markers are passed.
fn extend_visible(slots: &[Slot], marks: &[Marked], passed: usize, visible: &mut Vec<bool>) -> usize
    requires room { length slots.now ≤ vec_capacity visible.old }
    requires known { length visible.old.items ≤ length slots.now }
    requires within { passed ≤ length marks.now }
    requires marks { drop passed marks.now ≡ marks_in (drop (length visible.old.items) slots.now) }
    ensures visible { visible.new.items ≡ visible.old.items
        ++ visible_in (drop (length visible.old.items) slots.now) }
    ensures within { result ≤ length marks.now }
    ensures marks { drop result marks.now ≡ marks_in (drop (length visible.new.items) slots.now) }
{
    let mut passed = passed;
    for i in visible.len()..slots.len() {
        let slot = &slots[i];
        let Some(is) = is_visible(slot, &marks[passed..]) else {
            return passed;
        };
        visible.push_reserved(is);
        passed += mark_count(slot);
    }
    passed
}

impl Part {
    /// A partition without a slot.
    pub fn new(alloc: Global) -> Part
        ensures { result ≡ [] }
    {
        Part {
            slots: Vec::new(alloc),
            visible: Vec::new(alloc),
            marks: Vec::new(alloc),
            passed: 0,
            counts: Vec::new(alloc),
        }
    }

    /// The offset of the next slot: how many slots there are, markers among them.
    pub fn end(&self) -> u64
        ensures { result ≡ length self.now }
    {
        self.slots.len() as u64
    }

    /// The last stable offset: that of the first record which no marker completes, or the end where there is none.
    pub fn stable(&self) -> u64
        ensures { result ≡ stable self.now }
    {
        self.visible.len() as u64
    }

    /// How many records of this producer and epoch there are, 0 for one that sent none.
    pub fn count(&self, w: u8, epoch: u64) -> u64
        ensures { result ≡ count_sent w epoch self.now }
    {
        count_of(self.counts.as_slice(), w, epoch)
    }

    /// The first readable records at or past an offset, at most `max`, with their offsets. Readable are the records below
    /// the last stable offset that weren't aborted.
    fn readable(&self, alloc: Global, from: u64, max: usize) -> Result<Vec<(u64, Rec)>, AllocError>
        ensures { IfOk result (λ made. made.items ≡ read from max self.now) }
    {
        let slots = self.slots.as_slice();
        let made = visible_from(alloc, slots, self.visible.as_slice(), from as usize, max)?;
        Ok(made)
    }

    /// The first readable records at or past an offset, at most `max`, with their offsets; and where the next read goes on: one
    /// past the last record where there are `max` of them, else the last stable offset or `from`, whichever is more. Readable are
    /// the records below the last stable offset that weren't aborted. An offset past all of them gives none. Want of memory for
    /// the copies is the one error, which stands also for an offset of 2^64. KIP-98.
    pub fn read_committed(
        &self,
        alloc: Global,
        from: u64,
        max: u32,
    ) -> Result<(Vec<(u64, Rec)>, u64), AllocError>
        ensures records { IfOk result (λ r. r.0.items ≡ read from max self.now) }
        ensures next { IfOk result (λ r. r.1 ≡ read_next from max self.now) }
    {
        let made = self.readable(alloc, from, max as usize)?;
        let next = next_in(made.as_slice(), self.stable(), from, max as usize)?;
        Ok((made, next))
    }

    /// The committed records of all slots, with their offsets, where this is the partition `part` of the markers that wait at
    /// the producers, which stand at their numbers: a record is decided by the first marker after it of its producer and
    /// epoch, else by one that waits. Plain records are among them. Want of memory for the copies is the one error.
    pub fn decided(
        &self,
        alloc: Global,
        producers: &[Producer],
        part: PartId,
    ) -> Result<Vec<(u64, Rec)>, AllocError>
        ensures { IfOk result (λ made. made.items
            ≡ decided_pairs (waiting_in producers.now part) 0 self.now) }
    {
        decided_in(
            alloc,
            self.slots.as_slice(),
            self.marks.as_slice(),
            producers,
            part,
        )
    }

    /// Puts records of a producer and epoch at the end, for a task, and answers the offset of the first. OutOfSequence exactly
    /// where `number`, that of the first record, isn't the count of that producer's and epoch's records here. Want of memory is the
    /// outer error, which comes also where there would be 2^64 of them. After both all is as before, but the records are gone.
    pub fn append(
        &mut self,
        producer: u8,
        epoch: u64,
        number: u64,
        task: TaskId,
        recs: SharedRecords,
    ) -> Result<Result<u64, OutOfSequence>, AllocError>
        ensures answer { IfOk result (λ r. r ≡ append_answer producer epoch number self.old) }
        ensures ok { OnOk result (self.new ≡ appended producer epoch number task recs self.old) }
        ensures err { OnErr result (self.new ≡ self.old) }
    {
        let expected = self.count(producer, epoch);
        if number != expected {
            return Ok(Err(OutOfSequence { expected }));
        }
        let Some(next) = number.checked_add(recs.len() as u64) else {
            return Err(AllocError);
        };
        let end = self.slots.len();
        let waiting = end - self.visible.len();
        let Some(room) = waiting.checked_add(recs.len()) else {
            return Err(AllocError);
        };
        self.visible.reserve(room)?;
        self.counts.reserve(1)?;
        self.slots.reserve(recs.len())?;
        let batch = Batch {
            producer,
            epoch,
            number,
            task,
            recs,
        };
        put_sent(&mut self.slots, &batch)?;
        put_count(&mut self.counts, producer, epoch, next);
        let slots = self.slots.as_slice();
        let marks = self.marks.as_slice();
        self.passed = extend_visible(slots, marks, self.passed, &mut self.visible);
        Ok(Ok(end as u64))
    }

    /// Puts one slot at the end, which is no record that was sent, and answers its offset. Want of memory is the one error, after
    /// which all is as before, but the slot is gone.
    pub fn put_slot(&mut self, slot: Slot) -> Result<u64, AllocError>
        requires { (w e : ℕ) → count_sent w e (slot ∷ []) ≡ 0 }
        ensures at { IfOk result (λ at. at ≡ length self.old) }
        ensures ok { OnOk result (self.new ≡ self.old ++ slot ∷ []) }
        ensures err { OnErr result (self.new ≡ self.old) }
    {
        let end = self.slots.len();
        let room = end - self.visible.len();
        self.visible.reserve(room + 1)?;
        self.marks.reserve(mark_count(&slot))?;
        self.slots.reserve(1)?;
        put_mark(&mut self.marks, &slot);
        self.slots.push_reserved(slot);
        let slots = self.slots.as_slice();
        let marks = self.marks.as_slice();
        self.passed = extend_visible(slots, marks, self.passed, &mut self.visible);
        Ok(end as u64)
    }

    /// Puts a plain record at the end, and answers its offset. Want of memory is the one error, after which all is as before,
    /// but the record is gone.
    pub fn append_plain(&mut self, rec: Rec) -> Result<u64, AllocError>
        ensures at { IfOk result (λ at. at ≡ length self.old) }
        ensures ok { OnOk result (self.new ≡ self.old ++ Plain rec ∷ []) }
        ensures err { OnErr result (self.new ≡ self.old) }
    {
        let at = self.put_slot(Slot::Plain { rec })?;
        Ok(at)
    }

    /// Puts a marker of a producer and epoch at the end, which completes their records before it, and answers its offset. Want of
    /// memory is the one error, after which all is as before. KIP-98.
    pub fn mark(&mut self, producer: u8, epoch: u64, commit: bool) -> Result<u64, AllocError>
        ensures at { IfOk result (λ at. at ≡ length self.old) }
        ensures ok { OnOk result (self.new ≡ self.old ++ Mark producer epoch commit ∷ []) }
        ensures err { OnErr result (self.new ≡ self.old) }
    {
        let slot = Slot::Mark {
            producer,
            epoch,
            commit,
        };
        let at = self.put_slot(slot)?;
        Ok(at)
    }
}
