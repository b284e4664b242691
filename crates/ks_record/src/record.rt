//! Records, and the partitions and tasks that they go through.
ghost use Rattle.std.specs.Prelude.{◌≡◌, ◌<◌, IfOk, length, option_copied};
ghost use Rattle.ks_record.specs.Parts.{same_part, same_task, part_lt, task_lt};
ghost use Rattle.ks_record.specs.Records.{record_seen, rec_of_list};

use crate::records::{RecordList, RecordRef, SharedRecords, size_of};
use std::alloc::{AllocError, Global};
use std::marker::Model;

/// A record as a log keeps it: a place in a list of records, which its copies share. Contracts see its key, value and time.
#[derive(Drop)]
pub struct Rec {
    records: SharedRecords,
    place: u32,
}

impl Model for Rec {
    ghost use Rattle.std.specs.Prelude.{◌<◌, length};
    ghost use Rattle.ks_record.specs.Records.{Record, rec_of_list};

    ghost Value = { Record };

    ghost view = { λ r. rec_of_list r.records r.place };

    ghost invariant = { λ r. r.place < length r.records };
}

impl Clone for Rec {
    ghost is_clone = { λ r copy. copy ≡ r };

    fn clone(&self) -> Result<Rec, AllocError> {
        Ok(Rec {
            records: self.records.share()?,
            place: self.place,
        })
    }
}

impl Rec {
    /// A record of its own, with copies of these bytes. Want of memory is the one error.
    pub fn of(alloc: Global, rec: RecordRef<'_>) -> Result<Rec, AllocError>
        ensures { IfOk result (λ r. r ≡ record_seen rec.entry) }
    {
        let mut list = RecordList::with_room(
            alloc,
            1,
            size_of(rec.key).saturating_add(size_of(rec.value)),
        )?;
        list.push(rec)?;
        Ok(Rec {
            records: SharedRecords::of(alloc, list)?,
            place: 0,
        })
    }

    // The record at a place of a list.
    pub(crate) fn of_shared(records: SharedRecords, place: u32) -> Rec
        requires { place < length records }
        ensures { result ≡ rec_of_list records place }
    {
        Rec { records, place }
    }

    /// The record where it stands.
    pub fn as_ref(&self) -> RecordRef<'_>
        ensures { record_seen result ≡ self.now }
    {
        self.records.get(self.place as usize)
    }

    /// Its key, where it has one.
    pub fn key(&self) -> Option<&[u8]>
        ensures { option_copied result ≡ self.now.key }
    {
        self.as_ref().key
    }

    /// Its value, where it has one.
    pub fn value(&self) -> Option<&[u8]>
        ensures { option_copied result ≡ self.now.value }
    {
        self.as_ref().value
    }

    /// Its time in milliseconds.
    pub fn ts(&self) -> u64
        ensures { result ≡ self.now.ts }
    {
        self.as_ref().ts
    }
}

/// A partition of a topic.
#[derive(Clone, Copy, PartialEq, Eq, PartialOrd, Ord, Debug)]
pub struct PartId {
    pub topic: u16,
    pub part: u8,
}

impl PartId {
    /// Whether both are one partition of one topic.
    pub fn is(self, other: PartId) -> bool
        ensures { result ≡ same_part self other }
    {
        self.topic == other.topic && self.part == other.part
    }

    /// By topic, then by partition.
    pub fn is_before(self, other: PartId) -> bool
        ensures { result ≡ part_lt self other }
    {
        self.topic < other.topic || (self.topic == other.topic && self.part < other.part)
    }
}

/// A task: a subtopology and the number of the partitions that it reads.
#[derive(Clone, Copy, PartialEq, Eq, PartialOrd, Ord, Debug)]
pub struct TaskId {
    pub sub: u8,
    pub part: u8,
}

impl TaskId {
    /// Whether both are one task.
    pub fn is(self, other: TaskId) -> bool
        ensures { result ≡ same_task self other }
    {
        self.sub == other.sub && self.part == other.part
    }

    /// By subtopology, then by partition.
    pub fn is_before(self, other: TaskId) -> bool
        ensures { result ≡ task_lt self other }
    {
        self.sub < other.sub || (self.sub == other.sub && self.part < other.part)
    }
}
