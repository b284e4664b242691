//! Where a task's decided records end in each partition to which it sends, and what a transaction has for it there.
ghost use Rattle.std.specs.Prelude.{◌≡◌, OnOk};
ghost use Rattle.ks_audit_commit.specs.Ends.{end_in, end_place, with_end, first_in, is_from, are_from, moved_by, moved};

use crate::comparing::is_sent_by;
use ks_audit_ledger::Sent;
use ks_record::{PartId, TaskId};
use std::alloc::AllocError;

// One past the last decided record in a partition; 0 where there is none.
fn end_in(ends: &[(PartId, u64)], part: PartId) -> u64
    ensures { result ≡ end_in part ends.now }
{
    let mut rest = ends;
    while let [first, more @ ..] = rest {
        if part.is(first.0) {
            return first.1;
        }
        rest = more;
    }
    0
}

// Where the first record stands that was sent for a task to a partition.
fn first_in(task: TaskId, part: PartId, sent: &[Sent]) -> Option<u64>
    ensures { result ≡ first_in task part sent.now }
{
    let mut rest = sent;
    while let [first, more @ ..] = rest {
        if is_sent_by(first, task) && part.is(first.part) {
            return Some(first.first);
        }
        rest = more;
    }
    None
}

fn is_from(end: u64, first: Option<u64>) -> bool
    ensures { result ≡ is_from end first }
{
    match first {
        Some(first) => end <= first,
        None => true,
    }
}

/// Whether what was sent for a task stands behind these ends of its decided records, in each partition. Takes no memory.
pub fn is_behind(task: TaskId, ends: &[(PartId, u64)], sent: &[Sent]) -> bool
    ensures { result ≡ are_from task ends.now sent.now sent.now }
{
    let mut rest = sent;
    while let [next, more @ ..] = rest {
        if !is_from(end_in(ends, next.part), first_in(task, next.part, sent)) {
            return false;
        }
        rest = more;
    }
    true
}

// The place of a partition's end; how many ends there are where it has none.
fn end_place(ends: &[(PartId, u64)], part: PartId) -> usize
    ensures { result ≡ end_place part ends.now }
{
    let mut at: usize = 0;
    for end in ends {
        if part.is(end.0) {
            return at;
        }
        at += 1;
    }
    at
}

// A partition's decided records end here from now on.
fn put_end(ends: &mut Vec<(PartId, u64)>, part: PartId, end: u64) -> Result<(), AllocError>
    ensures { OnOk result (ends.new.items ≡ with_end part end ends.old.items) }
{
    let at = end_place(ends.as_slice(), part);
    if at < ends.len() {
        ends[at] = (part, end);
        Ok(())
    } else {
        ends.push((part, end))?;
        Ok(())
    }
}

fn move_by(ends: &mut Vec<(PartId, u64)>, task: TaskId, sent: &Sent) -> Result<(), AllocError>
    ensures { OnOk result (ends.new.items ≡ moved_by task ends.old.items sent.now) }
{
    if is_sent_by(sent, task) {
        let Some(end) = sent.first.checked_add(sent.recs.len() as u64) else {
            return Err(AllocError);
        };
        put_end(ends, sent.part, end)
    } else {
        Ok(())
    }
}

/// The ends are those behind what was sent for a task. After want of memory they are to be dropped.
pub fn move_ends(
    ends: &mut Vec<(PartId, u64)>,
    task: TaskId,
    sent: &[Sent],
) -> Result<(), AllocError>
    ensures { OnOk result (ends.new.items ≡ moved task ends.old.items sent.now) }
{
    let mut rest = sent;
    while let [first, more @ ..] = rest {
        move_by(ends, task, first)?;
        rest = more;
    }
    Ok(())
}
