//! Lists of records, of which all bytes stand in one block.
ghost use Rattle.std.specs.Prelude.{◌≡◌, ◌<◌, ◌≤◌, ◌++◌, ◌∷◌, [], IfOk, OnOk, OnErr, length, option_copied};
ghost use Rattle.ks_record.specs.Records.{record_seen, bytes_or_none, record_bytes, part_between, ends_behind, ends_moved, IsCopy, rec_of_list, part_of_list, placed_of_list};

use crate::record::{PartId, Rec};
use std::alloc::{AllocError, Global};
use std::marker::Model;
use std::sync::Arc;

// A list has fewer bytes than this.
const MOST_BYTES: usize = 4_294_967_295;

// Where a record stands among the bytes of a list: its key up to `middle`, then its value up to `end`.
#[derive(Clone, Copy)]
struct Ends {
    start: u32,
    middle: u32,
    end: u32,
    has_key: bool,
    has_value: bool,
    ts: u64,
}

/// A record where it stands.
#[derive(Clone, Copy)]
pub struct RecordRef<'a> {
    pub key: Option<&'a [u8]>,
    pub value: Option<&'a [u8]>,
    /// Milliseconds.
    pub ts: u64,
}

/// Records one after another, their bytes in one block; contracts see them as a list.
#[derive(Drop)]
pub struct RecordList {
    bytes: Vec<u8>,
    ends: Vec<Ends>,
}

impl Model for RecordList {
    ghost use Rattle.std.specs.Prelude.{List};
    ghost use Rattle.ks_record.specs.Records.{Record, recs_in, AreWithin};

    ghost Value = { List Record };

    ghost view = { λ l. recs_in l.bytes.items l.ends.items };

    ghost invariant = { λ l. AreWithin l.bytes.items l.ends.items };
}

// How many bytes these are.
pub(crate) fn size_of(bytes: Option<&[u8]>) -> usize
    ensures { result ≡ length (bytes_or_none (option_copied bytes.entry)) }
{
    match bytes {
        Some(bytes) => bytes.len(),
        None => 0,
    }
}

// Where a record stands once its bytes are behind so many. Too many bytes for a list stand for want of memory.
fn ends_of(start: usize, rec: RecordRef<'_>) -> Result<Ends, AllocError>
    ensures { IfOk result (λ e. e ≡ ends_behind start (record_seen rec.entry)) }
{
    let (key, value) = (size_of(rec.key), size_of(rec.value));
    if start > MOST_BYTES || key > MOST_BYTES || value > MOST_BYTES {
        return Err(AllocError);
    }
    let middle = start + key;
    let end = middle + value;
    if end > MOST_BYTES {
        return Err(AllocError);
    }
    Ok(Ends {
        start: start as u32,
        middle: middle as u32,
        end: end as u32,
        has_key: rec.key.is_some(),
        has_value: rec.value.is_some(),
        ts: rec.ts,
    })
}

// Where a record stands once its bytes are behind so many others. Too many bytes for a list stand for want of memory.
fn moved_behind(start: usize, ends: Ends) -> Result<Ends, AllocError>
    requires key { ends.start ≤ ends.middle }
    requires value { ends.middle ≤ ends.end }
    ensures { IfOk result (λ e. e ≡ ends_moved start ends) }
{
    let (key, both) = (ends.middle - ends.start, ends.end - ends.start);
    if start > MOST_BYTES {
        return Err(AllocError);
    }
    let middle = start + key as usize;
    let end = start + both as usize;
    if end > MOST_BYTES {
        return Err(AllocError);
    }
    Ok(Ends {
        start: start as u32,
        middle: middle as u32,
        end: end as u32,
        has_key: ends.has_key,
        has_value: ends.has_value,
        ts: ends.ts,
    })
}

fn push_bytes(bytes: &mut Vec<u8>, more: Option<&[u8]>) -> Result<(), AllocError>
    ensures ok { OnOk result (bytes.new.items ≡ bytes.old.items
        ++ bytes_or_none (option_copied more.entry)) }
    ensures err { OnErr result (bytes.new.items ≡ bytes.old.items) }
{
    if let Some(more) = more {
        bytes.extend_from_slice(more)?;
    }
    Ok(())
}

// The bytes of a record at the end; after want of memory all is as before.
fn push_record(bytes: &mut Vec<u8>, rec: RecordRef<'_>) -> Result<(), AllocError>
    ensures ok { OnOk result (bytes.new.items ≡ bytes.old.items
        ++ record_bytes (record_seen rec.entry)) }
    ensures err { OnErr result (bytes.new.items ≡ bytes.old.items) }
{
    let start = bytes.len();
    push_bytes(bytes, rec.key)?;
    match push_bytes(bytes, rec.value) {
        Ok(()) => Ok(()),
        Err(error) => {
            bytes.truncate(start);
            Err(error)
        }
    }
}

// The bytes of a part of a record.
fn part_of(is_there: bool, bytes: &[u8], start: u32, end: u32) -> Option<&[u8]>
    requires start { start ≤ end }
    requires end { end ≤ length bytes.now }
    ensures { option_copied result ≡ part_between is_there bytes.now start end }
{
    if is_there {
        Some(&bytes[start as usize..end as usize])
    } else {
        None
    }
}

impl RecordList {
    /// No record yet; takes no memory.
    pub fn new(alloc: Global) -> RecordList
        ensures { result ≡ [] }
    {
        RecordList {
            bytes: Vec::new(alloc),
            ends: Vec::new(alloc),
        }
    }

    /// The same, with room for so many records and bytes. Want of memory is the one error.
    pub fn with_room(alloc: Global, count: usize, bytes: usize) -> Result<RecordList, AllocError>
        ensures { IfOk result (λ l. l ≡ []) }
    {
        Ok(RecordList {
            bytes: Vec::with_capacity(alloc, bytes)?,
            ends: Vec::with_capacity(alloc, count)?,
        })
    }

    /// How many records it has.
    pub fn len(&self) -> usize
        ensures { result ≡ length self.now }
    {
        self.ends.len()
    }

    /// One more record at the end, a copy of these bytes; after want of memory the list is as before.
    #[tactic(auto, using(crate::proofs::Blocks::one_more, crate::proofs::Blocks::within_more))]
    pub fn push(&mut self, rec: RecordRef<'_>) -> Result<(), AllocError>
        ensures ok { OnOk result (self.new ≡ self.old ++ record_seen rec.entry ∷ []) }
        ensures err { OnErr result (self.new ≡ self.old) }
    {
        let ends = ends_of(self.bytes.len(), rec)?;
        self.ends.reserve(1)?;
        push_record(&mut self.bytes, rec)?;
        self.ends.push_reserved(ends);
        Ok(())
    }

    // Where the record at a place stands, and all its bytes: whatever they are put behind, it is this record.
    fn whole(&self, place: usize) -> (Ends, &[u8])
        requires { place < length self.now }
        ensures key { result.0.start ≤ result.0.middle }
        ensures value { result.0.middle ≤ result.0.end }
        ensures copy { IsCopy result.0 result.1.now (rec_of_list self.now place) }
    {
        let ends = self.ends[place];
        let bytes = self.bytes.as_slice();
        (ends, &bytes[ends.start as usize..ends.end as usize])
    }

    /// One more record at the end, a copy of the one at a place of another list; after want of memory the list is as before.
    #[tactic(auto, using(crate::proofs::Blocks::within_copied))]
    pub fn push_copy(&mut self, from: &RecordList, place: usize) -> Result<(), AllocError>
        requires { place < length from.now }
        ensures ok { OnOk result (self.new ≡ self.old ++ rec_of_list from.now place ∷ []) }
        ensures err { OnErr result (self.new ≡ self.old) }
    {
        let (ends, bytes) = from.whole(place);
        let moved = moved_behind(self.bytes.len(), ends)?;
        self.ends.reserve(1)?;
        push_bytes(&mut self.bytes, Some(bytes))?;
        self.ends.push_reserved(moved);
        Ok(())
    }

    /// The record at a place.
    #[tactic(auto, using(crate::proofs::Blocks::rec_there, crate::proofs::Blocks::within_there))]
    pub fn get(&self, place: usize) -> RecordRef<'_>
        requires { place < length self.now }
        ensures { record_seen result ≡ rec_of_list self.now place }
    {
        let ends = self.ends[place];
        let bytes = self.bytes.as_slice();
        RecordRef {
            key: part_of(ends.has_key, bytes, ends.start, ends.middle),
            value: part_of(ends.has_value, bytes, ends.middle, ends.end),
            ts: ends.ts,
        }
    }

    /// No record again; the room stays.
    pub fn clear(&mut self)
        ensures { self.new ≡ [] }
    {
        self.bytes.clear();
        self.ends.clear();
    }

    // Gives back room that isn't used.
    fn shrink(&mut self)
        ensures { self.new ≡ self.old }
    {
        self.bytes.shrink_to_fit();
        self.ends.shrink_to_fit();
    }
}

/// A list of records that its copies share, which contracts see as such. Nobody changes it.
#[derive(Drop)]
pub struct SharedRecords {
    list: Arc<RecordList, Global>,
}

impl Model for SharedRecords {
    ghost use Rattle.std.specs.Prelude.{List};
    ghost use Rattle.std.specs.Arc.{arc_value};
    ghost use Rattle.ks_record.specs.Records.{Record};

    ghost Value = { List Record };

    ghost view = { λ s. arc_value s.list };
}

impl SharedRecords {
    /// The records of a list. Want of memory is the one error.
    pub fn of(alloc: Global, list: RecordList) -> Result<SharedRecords, AllocError>
        ensures { IfOk result (λ s. s ≡ list) }
    {
        let mut list = list;
        list.shrink();
        match Arc::new(alloc, list) {
            Ok(list) => Ok(SharedRecords { list }),
            Err(_) => Err(AllocError),
        }
    }

    /// The same records again. Want of memory stands for a count of owners that is full.
    pub fn share(&self) -> Result<SharedRecords, AllocError>
        ensures { IfOk result (λ s. s ≡ self.now) }
    {
        Ok(SharedRecords {
            list: Arc::try_clone(&self.list)?,
        })
    }

    /// How many records it has.
    pub fn len(&self) -> usize
        ensures { result ≡ length self.now }
    {
        self.list.len()
    }

    /// The record at a place, where it stands.
    pub fn get(&self, place: usize) -> RecordRef<'_>
        requires { place < length self.now }
        ensures { record_seen result ≡ rec_of_list self.now place }
    {
        self.list.get(place)
    }

    /// The record at a place, which shares the list. Want of memory stands for a count of owners that is full.
    pub fn rec(&self, place: usize) -> Result<Rec, AllocError>
        requires { place < length self.now }
        ensures { IfOk result (λ r. r ≡ rec_of_list self.now place) }
    {
        if place > MOST_BYTES {
            return Err(AllocError);
        }
        Ok(Rec::of_shared(self.share()?, place as u32))
    }
}

/// Records with the partitions that they are for, one after another; contracts see a list of pairs.
#[derive(Drop)]
pub struct PlacedRecords {
    parts: Vec<PartId>,
    list: RecordList,
}

impl Model for PlacedRecords {
    ghost use Rattle.std.specs.Prelude.{◌≡◌, List, length};
    ghost use Rattle.ks_record.specs.declared.record.PartId.{PartId};
    ghost use Rattle.ks_record.specs.Records.{Record, placed_in};

    ghost Value = { List (PartId × Record) };

    ghost view = { λ p. placed_in p.parts.items p.list };

    ghost invariant = { λ p. length p.parts.items ≡ length p.list };
}

impl PlacedRecords {
    /// No record yet; takes no memory.
    pub fn new(alloc: Global) -> PlacedRecords
        ensures { result ≡ [] }
    {
        PlacedRecords {
            parts: Vec::new(alloc),
            list: RecordList::new(alloc),
        }
    }

    /// How many records there are.
    #[tactic(auto, using(crate::proofs::Blocks::placed_long))]
    pub fn len(&self) -> usize
        ensures { result ≡ length self.now }
    {
        self.parts.len()
    }

    /// One more record at the end, a copy of these bytes; after want of memory all is as before.
    #[tactic(auto, using(crate::proofs::Blocks::one_placed))]
    pub fn push(&mut self, part: PartId, rec: RecordRef<'_>) -> Result<(), AllocError>
        ensures ok { OnOk result (self.new ≡ self.old ++ (part, record_seen rec.entry) ∷ []) }
        ensures err { OnErr result (self.new ≡ self.old) }
    {
        self.parts.reserve(1)?;
        self.list.push(rec)?;
        self.parts.push_reserved(part);
        Ok(())
    }

    /// The partition of the record at a place.
    #[tactic(auto, using(crate::proofs::Blocks::part_there))]
    pub fn part(&self, place: usize) -> PartId
        requires { place < length self.now }
        ensures { result ≡ part_of_list self.now place }
    {
        self.parts[place]
    }

    /// Puts a copy of the record at a place at the end of a list; after want of memory that list is as before.
    pub fn copy_to(&self, place: usize, list: &mut RecordList) -> Result<(), AllocError>
        requires { place < length self.now }
        ensures ok { OnOk result (list.new ≡ list.old ++ placed_of_list self.now place ∷ []) }
        ensures err { OnErr result (list.new ≡ list.old) }
    {
        list.push_copy(&self.list, place)
    }

    /// The record at a place.
    #[tactic(auto, using(crate::proofs::Blocks::placed_there))]
    pub fn get(&self, place: usize) -> RecordRef<'_>
        requires { place < length self.now }
        ensures { record_seen result ≡ placed_of_list self.now place }
    {
        self.list.get(place)
    }

    /// No record again; the room stays.
    pub fn clear(&mut self)
        ensures { self.new ≡ [] }
    {
        self.parts.clear();
        self.list.clear();
    }
}
