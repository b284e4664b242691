//! The log: the partitions that were written to, each beside its name.
ghost use Rattle.std.specs.Prelude.{◌≡◌, ◌<◌, ◌+◌, ◌^◌, ◌++◌, ◌∷◌, [], ℕ, ◌==◌, if◌then◌else◌, length, IfOk, OnOk, OnErr};
ghost use Rattle.ks_history.specs.declared.partition.Slot.TheVariants.{Plain, Mark};
ghost use Rattle.ks_history.specs.Partition.{count_sent, sent_slots};
ghost use Rattle.ks_log.specs.Appending.{append_answer};
ghost use Rattle.ks_log.specs.Written.{slots_in, total, place, with_slots, log_appended};

use crate::append::Batch;
use crate::part::{OutOfSequence, Part};
use crate::seats::{put_seat, seat_of, widen};
use ks_history::Slot;
use ks_record::{PartId, Rec};
use std::alloc::{AllocError, Global};
use std::marker::Model;

/// A log has fewer slots than this.
const LIMIT: usize = 281_474_976_710_656;

/// A partition and its slots, in the order of their offsets.
#[derive(Drop)]
pub struct Written {
    /// The name of the partition.
    pub part: PartId,
    /// All slots that were appended to it.
    pub slots: Part,
}

/// The partitions that were written to, with fewer than 2^48 slots in all. It is seen as the list of these partitions with
/// their slots, in the order of their first appends; a partition that isn't there has no slots.
#[derive(Drop)]
pub struct Log {
    parts: Vec<Written>,
    /// Where each partition stands.
    seats: Vec<usize>,
    /// What stands for each partition that wasn't written to.
    empty: Part,
    /// How many slots there are in all.
    count: usize,
}

impl Model for Log {
    ghost use Rattle.std.specs.Prelude.{List};
    ghost use Rattle.ks_log.specs.declared.log.Written.{Written};
    ghost use Rattle.ks_log.specs.Written.{IsCounted};
    ghost use Rattle.ks_log.specs.Places.{AreSeats};

    ghost Value = { List Written };

    ghost view = { λ l. l.parts.items };

    ghost invariant = { λ l. IsCounted l.parts.items l.empty l.count × AreSeats l.seats.items l.parts.items };
}

/// Records more at the end of a partition, which stands at this place, where their number is right.
fn grow(
    parts: &mut Vec<Written>,
    alloc: Global,
    at: usize,
    part: PartId,
    batch: Batch,
) -> Result<Result<u64, OutOfSequence>, AllocError>
    requires { at ≡ place part parts.old.items }
    ensures answer { IfOk result (λ r. r ≡ append_answer batch.producer batch.epoch batch.number
        (slots_in part parts.old.items)) }
    ensures ok { OnOk result (parts.new.items ≡ log_appended part batch parts.old.items) }
    ensures err { OnErr result (parts.new.items ≡ parts.old.items) }
{
    let Batch {
        producer,
        epoch,
        number,
        task,
        recs,
    } = batch;
    if at < parts.len() {
        let written = &mut parts[at];
        let answer = written.slots.append(producer, epoch, number, task, recs)?;
        return Ok(answer);
    }
    let mut slots = Part::new(alloc);
    let answer = slots.append(producer, epoch, number, task, recs)?;
    if answer.is_err() {
        return Ok(answer);
    }
    parts.push(Written { part, slots })?;
    Ok(answer)
}

/// One slot more at the end of a partition, which stands at this place; its offset.
fn grow_one(
    parts: &mut Vec<Written>,
    alloc: Global,
    at: usize,
    part: PartId,
    slot: Slot,
) -> Result<u64, AllocError>
    requires at { at ≡ place part parts.old.items }
    requires one { (w e : ℕ) → count_sent w e (slot ∷ []) ≡ 0 }
    ensures at { IfOk result (λ end. end ≡ length (slots_in part parts.old.items)) }
    ensures ok { OnOk result (parts.new.items ≡ with_slots part (slot ∷ []) parts.old.items) }
    ensures err { OnErr result (parts.new.items ≡ parts.old.items) }
{
    if at < parts.len() {
        let written = &mut parts[at];
        let end = written.slots.put_slot(slot)?;
        return Ok(end);
    }
    let mut slots = Part::new(alloc);
    let end = slots.put_slot(slot)?;
    parts.push(Written { part, slots })?;
    Ok(end)
}

impl Log {
    /// A log without a slot.
    pub fn new(alloc: Global) -> Log
        ensures { result ≡ [] }
    {
        Log {
            parts: Vec::new(alloc),
            seats: Vec::new(alloc),
            empty: Part::new(alloc),
            count: 0,
        }
    }

    /// Where a partition stands, or how many there are.
    fn place(&self, part: PartId) -> usize
        ensures { result ≡ place part self.now }
    {
        let seat = seat_of(self.seats.as_slice(), part);
        if seat == 0 {
            return self.parts.len();
        }
        seat - 1
    }

    /// Where a partition stands, or how many there are, if the log has room for so many slots more; else want of memory.
    fn place_for(&self, part: PartId, count: usize) -> Result<usize, AllocError>
        ensures at { IfOk result (λ at. at ≡ place part self.now) }
        ensures below { IfOk result (λ at. at < 2 ^ 48) }
        ensures room { OnOk result (total self.now + count < 2 ^ 48) }
    {
        if self.count.saturating_add(count) >= LIMIT {
            return Err(AllocError);
        }
        let at = self.place(part);
        if at >= LIMIT {
            return Err(AllocError);
        }
        Ok(at)
    }

    /// The slots of a partition, which are none where nothing was appended to it.
    pub fn part(&self, part: PartId) -> &Part
        ensures { result.now ≡ slots_in part self.now }
    {
        let at = self.place(part);
        if at < self.parts.len() {
            return &self.parts[at].slots;
        }
        &self.empty
    }

    /// Puts records at the end of one partition, and answers the offset of the first. OutOfSequence exactly where their number
    /// isn't the count of their producer's and epoch's records there. Want of memory is the outer error, which comes also where the
    /// log would have 2^48 slots or more. After both the log is as before, but the records are gone.
    pub fn append(
        &mut self,
        alloc: Global,
        part: PartId,
        batch: Batch,
    ) -> Result<Result<u64, OutOfSequence>, AllocError>
        ensures answer { IfOk result (λ r. r ≡ append_answer batch.producer batch.epoch batch.number
            (slots_in part self.old)) }
        ensures ok { OnOk result (self.new ≡ log_appended part batch self.old) }
        ensures few { OnOk result (total self.new < 2 ^ 48) }
        ensures err { OnErr result (self.new ≡ self.old) }
    {
        let count = batch.recs.len();
        let at = self.place_for(part, count)?;
        widen(&mut self.seats, part)?;
        let answer = grow(&mut self.parts, alloc, at, part, batch)?;
        if answer.is_err() {
            return Ok(answer);
        }
        self.count += count;
        put_seat(&mut self.seats, part, at);
        Ok(answer)
    }

    /// Puts one slot at the end of one partition, which is no record that was sent, and answers its offset.
    fn put_slot(&mut self, alloc: Global, part: PartId, slot: Slot) -> Result<u64, AllocError>
        requires { (w e : ℕ) → count_sent w e (slot ∷ []) ≡ 0 }
        ensures at { IfOk result (λ at. at ≡ length (slots_in part self.old)) }
        ensures ok { OnOk result (self.new ≡ with_slots part (slot ∷ []) self.old) }
        ensures few { OnOk result (total self.new < 2 ^ 48) }
        ensures err { OnErr result (self.new ≡ self.old) }
    {
        let at = self.place_for(part, 1)?;
        widen(&mut self.seats, part)?;
        let end = grow_one(&mut self.parts, alloc, at, part, slot)?;
        self.count += 1;
        put_seat(&mut self.seats, part, at);
        Ok(end)
    }

    /// Puts a plain record at the end of one partition, and answers its offset. Want of memory is the one error, after which
    /// the log is as before and the record is gone; it comes also where the log would have 2^48 slots or more.
    pub fn append_plain(&mut self, alloc: Global, part: PartId, rec: Rec) -> Result<u64, AllocError>
        ensures at { IfOk result (λ at. at ≡ length (slots_in part self.old)) }
        ensures ok { OnOk result (self.new ≡ with_slots part (Plain rec ∷ []) self.old) }
        ensures few { OnOk result (total self.new < 2 ^ 48) }
        ensures err { OnErr result (self.new ≡ self.old) }
    {
        let at = self.put_slot(alloc, part, Slot::Plain { rec })?;
        Ok(at)
    }

    /// Puts a marker of a producer and epoch at the end of one partition, and answers its offset. Want of memory is the one error,
    /// after which the log is as before; it comes also where the log would have 2^48 slots or more.
    pub fn mark(
        &mut self,
        alloc: Global,
        part: PartId,
        producer: u8,
        epoch: u64,
        commit: bool,
    ) -> Result<u64, AllocError>
        ensures at { IfOk result (λ at. at ≡ length (slots_in part self.old)) }
        ensures ok { OnOk result (self.new ≡ with_slots part (Mark producer epoch commit ∷ [])
            self.old) }
        ensures few { OnOk result (total self.new < 2 ^ 48) }
        ensures err { OnErr result (self.new ≡ self.old) }
    {
        let slot = Slot::Mark {
            producer,
            epoch,
            commit,
        };
        let at = self.put_slot(alloc, part, slot)?;
        Ok(at)
    }
}
