//! The slots that an append adds.
ghost use Rattle.std.specs.Prelude.{◌≡◌, ◌+◌, ◌<◌, ◌≤◌, ◌^◌, ◌++◌, ◌∷◌, [], length, vec_capacity, IfOk, OnOk, OnErr};
ghost use Rattle.ks_history.specs.declared.partition.Slot.TheVariants.{Sent};
ghost use Rattle.ks_history.specs.Partition.{sent_slots};
ghost use Rattle.ks_record.specs.Records.{rec_of_list};

use ks_history::Slot;
use ks_record::{Rec, SharedRecords, TaskId};
use std::alloc::AllocError;

/// A copy of a record, which shares its bytes. Want of memory stands for a count of owners that is full.
pub fn copy(rec: &Rec) -> Result<Rec, AllocError>
    ensures { IfOk result (λ made. made ≡ rec.now) }
{
    rec.clone()
}

/// Records that a producer sends in an epoch for a task, numbered on from `number` (in Kafka: a record batch, with the
/// producer's id, its epoch and the base sequence).
#[derive(Drop)]
pub struct Batch {
    pub producer: u8,
    pub epoch: u64,
    pub number: u64,
    pub task: TaskId,
    pub recs: SharedRecords,
}

// Puts the slot of the record at a place of a batch behind those that are there. Takes no memory; its one error stands for a count of
// owners that is full, and then the slots are as before.
fn put_rec(
    slots: &mut Vec<Slot>,
    batch: &Batch,
    place: usize,
    number: u64,
) -> Result<(), AllocError>
    requires room { length slots.old.items < vec_capacity slots.old }
    requires there { place < length batch.now.recs }
    ensures ok { OnOk result (slots.new.items ≡ slots.old.items
        ++ Sent batch.now.producer batch.now.epoch number batch.now.task
        (rec_of_list batch.now.recs place) ∷ []) }
    ensures err { OnErr result (slots.new.items ≡ slots.old.items) }
    ensures room { vec_capacity slots.new ≡ vec_capacity slots.old }
{
    let rec = batch.recs.rec(place)?;
    slots.push_reserved(Slot::Sent {
        producer: batch.producer,
        epoch: batch.epoch,
        number,
        task: batch.task,
        rec,
    });
    Ok(())
}

/// Puts the slots of a batch behind those that are there: one for each record, in their order. Takes no memory; its one error stands for
/// a count of owners that is full, and then the slots are as before.
pub fn put_sent(slots: &mut Vec<Slot>, batch: &Batch) -> Result<(), AllocError>
    requires room { length slots.old.items + length batch.now.recs ≤ vec_capacity slots.old }
    requires below { batch.now.number + length batch.now.recs < 2 ^ 64 }
    ensures ok { OnOk result (slots.new.items ≡ slots.old.items
        ++ sent_slots batch.now.producer batch.now.epoch batch.now.number batch.now.task
        batch.now.recs) }
    ensures err { OnErr result (slots.new.items ≡ slots.old.items) }
{
    let before = slots.len();
    let mut next = batch.number;
    for place in 0..batch.recs.len() {
        if let Err(error) = put_rec(slots, batch, place, next) {
            slots.truncate(before);
            return Err(error);
        }
        next += 1;
    }
    Ok(())
}
