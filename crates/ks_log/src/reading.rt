//! What the readers of a partition are given.
ghost use Rattle.std.specs.Prelude.{◌≡◌, ◌++◌, ◌∷◌, [], ℕ, List, take, drop, length, map, max, IfOk, OnOk, ◌≤◌, ◌<◌, ◌==◌, if◌then◌else◌};
ghost use Rattle.ks_history.specs.Partition.{past_last, decision};
ghost use Rattle.ks_history.specs.Faithful.{marker_among};
ghost use Rattle.ks_log.specs.Index.{marks_in};
ghost use Rattle.ks_log.specs.Reading.{waiting_in, record_at, visible_pairs, decided_one, decided_pairs, end_at};
ghost use Rattle.ks_record.specs.Records.{Record};

use crate::append::copy;
use crate::log::Log;
use crate::marks::{Marked, mark_count, mark_in};
use ks_history::{Producer, Slot};
use ks_record::{Marker, PartId, Rec};
use std::alloc::{AllocError, Global};

/// Takes a record with its offset, and answers how many may still be taken.
fn take_record(
    made: &mut Vec<(u64, Rec)>,
    at: u64,
    rec: &Rec,
    left: usize,
) -> Result<usize, AllocError>
    requires { 0 < left }
    ensures { IfOk result (λ less. (rest : List (ℕ × Record)) → made.new.items ++ take less rest
        ≡ made.old.items ++ take left ((at, rec.now) ∷ rest)) }
{
    made.push((at, copy(rec)?))?;
    Ok(left - 1)
}

/// Takes the record of a slot, where readers get it.
fn take_slot(
    made: &mut Vec<(u64, Rec)>,
    at: u64,
    slot: &Slot,
    is_visible: bool,
    left: usize,
) -> Result<usize, AllocError>
    requires { 0 < left }
    ensures { IfOk result (λ less. (rest : List (ℕ × Record)) → made.new.items ++ take less rest
        ≡ made.old.items ++ take left ((if is_visible then record_at at slot.now else [])
        ++ rest)) }
{
    if !is_visible {
        return Ok(left);
    }
    match slot {
        Slot::Plain { rec } => take_record(made, at, rec, left),
        Slot::Sent {
            producer: _,
            epoch: _,
            number: _,
            task: _,
            rec,
        } => take_record(made, at, rec, left),
        _ => Ok(left),
    }
}

/// The first records that readers get at or past an offset, at most so many. No other is copied.
pub fn visible_from(
    alloc: Global,
    slots: &[Slot],
    visible: &[bool],
    from: usize,
    limit: usize,
) -> Result<Vec<(u64, Rec)>, AllocError>
    requires { length visible.now ≤ length slots.now }
    ensures { IfOk result (λ made. made.items
        ≡ take limit (visible_pairs from (drop from visible.now) (drop from slots.now))) }
{
    let mut made = Vec::with_capacity(alloc, limit.min(visible.len().saturating_sub(from)))?;
    let mut left = limit;
    for i in from..visible.len() {
        if left == 0 {
            return Ok(made);
        }
        left = take_slot(&mut made, i as u64, &slots[i], visible[i], left)?;
    }
    Ok(made)
}

/// One past the last offset. Where that is 2^64 this is want of memory.
fn past_last_in(recs: &[(u64, Rec)]) -> Result<u64, AllocError>
    ensures { IfOk result (λ next. next ≡ past_last recs.now) }
{
    let count = recs.len();
    if count == 0 {
        return Ok(0);
    }
    let last = recs[count - 1].0;
    if last == u64::MAX {
        return Err(AllocError);
    }
    Ok(last + 1)
}

/// Where the next read goes on after one from `from` that gave these records, of at most `limit`, in a partition with this
/// last stable offset: one past the last record, or 0 with none, where there are `limit` of them, else the last stable
/// offset or `from`, whichever is more. Its one error, want of memory, stands for an offset of 2^64.
pub fn next_in(recs: &[(u64, Rec)], stable: u64, from: u64, limit: usize) -> Result<u64, AllocError>
    ensures { IfOk result (λ next. next ≡ (if length recs.now == limit then past_last recs.now else
        max from stable)) }
{
    if recs.len() == limit {
        past_last_in(recs)
    } else {
        Ok(from.max(stable))
    }
}

/// The ends of some partitions of a log, in their order: of each the offset of its next slot, 0 where nothing was appended to
/// it. Want of memory for the list is the one error.
pub fn ends_in(alloc: Global, log: &Log, parts: &[PartId]) -> Result<Vec<u64>, AllocError>
    ensures { IfOk result (λ ends. ends.items ≡ map (end_at log.now) parts.now) }
{
    let mut ends = Vec::new(alloc);
    for part in parts {
        ends.push(log.part(*part).end())?;
    }
    Ok(ends)
}

/// How the marker of a partition and an epoch decides, among markers that wait.
fn marker_in(markers: &[Marker], part: PartId, epoch: u64) -> Option<bool>
    ensures { result ≡ marker_among part epoch markers.now }
{
    for marker in markers {
        if part.is(marker.part) && epoch == marker.epoch {
            return Some(marker.commit);
        }
    }
    None
}

/// How a waiting marker of this producer and epoch decides.
fn waiting_mark(producers: &[Producer], part: PartId, w: u8, epoch: u64) -> Option<bool>
    ensures { result ≡ waiting_in producers.now part w epoch }
{
    match producers.get(w as usize) {
        Some(producer) => marker_in(producer.waiting.as_slice(), part, epoch),
        None => None,
    }
}

/// How a record of this producer and epoch is decided, where the next marker decides so.
fn decision_in(
    mark: Option<bool>,
    producers: &[Producer],
    part: PartId,
    w: u8,
    epoch: u64,
) -> Option<bool>
    ensures { result ≡ decision mark (waiting_in producers.now part w epoch) }
{
    match mark {
        Some(commit) => Some(commit),
        None => waiting_mark(producers, part, w, epoch),
    }
}

/// Takes the record of a slot that these markers follow, where it is decided.
fn decide_slot(
    made: &mut Vec<(u64, Rec)>,
    at: u64,
    slot: &Slot,
    marks: &[Marked],
    producers: &[Producer],
    part: PartId,
) -> Result<(), AllocError>
    ensures { OnOk result (made.new.items ≡ made.old.items
        ++ decided_one (waiting_in producers.now part) at slot.now marks.now) }
{
    match slot {
        Slot::Plain { rec } => made.push((at, copy(rec)?))?,
        Slot::Sent {
            producer,
            epoch,
            number: _,
            task: _,
            rec,
        } => {
            let mark = mark_in(marks, *producer, *epoch);
            match decision_in(mark, producers, part, *producer, *epoch) {
                Some(true) => made.push((at, copy(rec)?))?,
                _ => {}
            }
        }
        _ => {}
    }
    Ok(())
}

/// The decided records of a partition, which has these markers.
pub fn decided_in(
    alloc: Global,
    slots: &[Slot],
    marks: &[Marked],
    producers: &[Producer],
    part: PartId,
) -> Result<Vec<(u64, Rec)>, AllocError>
    requires { marks.now ≡ marks_in slots.now }
    ensures { IfOk result (λ made. made.items
        ≡ decided_pairs (waiting_in producers.now part) 0 slots.now) }
{
    let mut made = Vec::with_capacity(alloc, slots.len())?;
    let mut passed: usize = 0;
    for (i, slot) in slots.iter().enumerate() {
        let rest = &marks[passed..];
        decide_slot(&mut made, i as u64, slot, rest, producers, part)?;
        passed += mark_count(slot);
    }
    Ok(made)
}
