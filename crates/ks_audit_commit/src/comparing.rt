//! What a task made, compared with what a transaction sent for it.
ghost use Rattle.std.specs.Prelude.{◌≡◌, ◌≤◌, IfSome, drop, length, option_map, option_copied};
ghost use Rattle.ks_record.specs.Records.{record_seen};
ghost use Rattle.ks_law_restore.specs.Views.{is_empty, names_part};
ghost use Rattle.ks_audit_commit.specs.Ends.{is_sent_by};
ghost use Rattle.ks_audit_commit.specs.Comparing.{same_bytes, same_record, behind, is_sent_to, left_behind, are_sent, outputs_are_sent, is_output, sent_are_outputs, are_made};

use ks_audit_ledger::Sent;
use ks_record::{PartId, RecordRef, SharedRecords, TaskId, equal_bytes};

fn is_same_bytes(a: Option<&[u8]>, b: Option<&[u8]>) -> bool
    ensures { result ≡ same_bytes (option_copied a.entry) (option_copied b.entry) }
{
    match (a, b) {
        (Some(a), Some(b)) => equal_bytes(a, b),
        (None, None) => true,
        _ => false,
    }
}

fn is_same_record(a: RecordRef<'_>, b: RecordRef<'_>) -> bool
    ensures { result ≡ same_record (record_seen a.entry) (record_seen b.entry) }
{
    is_same_bytes(a.key, b.key) && is_same_bytes(a.value, b.value) && a.ts == b.ts
}

// The place behind these records, which stand from a place on; none where others stand there.
fn behind_records(recs: &SharedRecords, at: usize, front: &SharedRecords) -> Option<usize>
    requires { at ≤ length recs.now }
    ensures value { option_map (λ n. drop n recs.now) result
        ≡ behind front.now (drop at recs.now) }
    ensures within { IfSome result (λ n. n ≤ length recs.now) }
{
    let mut next = at;
    for place in 0..front.len() {
        if next >= recs.len() {
            return None;
        }
        if !is_same_record(front.get(place), recs.get(next)) {
            return None;
        }
        next += 1;
    }
    Some(next)
}

fn is_sent_to(sent: &Sent, task: TaskId, part: PartId) -> bool
    ensures { result ≡ is_sent_to task part sent.now }
{
    task.is(sent.task) && part.is(sent.part)
}

// Whether no record stands from a place on.
#[tactic(auto, using(crate::proofs::Compared::end_told))]
fn is_end(recs: &SharedRecords, at: usize) -> bool
    requires { at ≤ length recs.now }
    ensures { result ≡ is_empty (drop at recs.now) }
{
    at == recs.len()
}

/// Whether these are records of a task.
pub fn is_sent_by(sent: &Sent, task: TaskId) -> bool
    ensures { result ≡ is_sent_by task sent.now }
{
    task.is(sent.task) && !is_end(&sent.recs, 0)
}

// The place behind the records of an append, if they are for this task and partition.
fn left_behind(
    task: TaskId,
    part: PartId,
    recs: &SharedRecords,
    at: usize,
    sent: &Sent,
) -> Option<usize>
    requires { at ≤ length recs.now }
    ensures value { option_map (λ n. drop n recs.now) result
        ≡ left_behind task part (drop at recs.now) sent.now }
    ensures within { IfSome result (λ n. n ≤ length recs.now) }
{
    if is_sent_to(sent, task, part) {
        behind_records(recs, at, &sent.recs)
    } else {
        Some(at)
    }
}

// Whether all that was sent for a task to a partition is these records.
fn are_sent(task: TaskId, part: PartId, recs: &SharedRecords, sent: &[Sent]) -> bool
    ensures { result ≡ are_sent task part recs.now sent.now }
{
    let mut at: usize = 0;
    let mut rest = sent;
    while let [first, more @ ..] = rest {
        let Some(behind) = left_behind(task, part, recs, at, first) else {
            return false;
        };
        at = behind;
        rest = more;
    }
    is_end(recs, at)
}

// Whether each output was sent as it was made.
fn outputs_are_sent(task: TaskId, outputs: &[(PartId, SharedRecords)], sent: &[Sent]) -> bool
    ensures { result ≡ outputs_are_sent task sent.now outputs.now }
{
    let mut rest = outputs;
    while let [first, more @ ..] = rest {
        if !are_sent(task, first.0, &first.1, sent) {
            return false;
        }
        rest = more;
    }
    true
}

fn has_output(part: PartId, outputs: &[(PartId, SharedRecords)]) -> bool
    ensures { result ≡ names_part part outputs.now }
{
    let mut rest = outputs;
    while let [first, more @ ..] = rest {
        if part.is(first.0) {
            return true;
        }
        rest = more;
    }
    false
}

// Whether records went to a partition of an output, if they are the task's.
fn is_output(task: TaskId, outputs: &[(PartId, SharedRecords)], sent: &Sent) -> bool
    ensures { result ≡ is_output task outputs.now sent.now }
{
    if is_sent_by(sent, task) {
        has_output(sent.part, outputs)
    } else {
        true
    }
}

// Whether nothing was sent for a task but to a partition of an output.
fn sent_are_outputs(task: TaskId, outputs: &[(PartId, SharedRecords)], sent: &[Sent]) -> bool
    ensures { result ≡ sent_are_outputs task outputs.now sent.now }
{
    let mut rest = sent;
    while let [first, more @ ..] = rest {
        if !is_output(task, outputs, first) {
            return false;
        }
        rest = more;
    }
    true
}

/// Whether what was sent for a task is what it made, partition by partition, where the outputs name no partition twice. Takes no memory.
pub fn are_made(task: TaskId, outputs: &[(PartId, SharedRecords)], sent: &[Sent]) -> bool
    ensures { result ≡ are_made task outputs.now sent.now }
{
    if outputs_are_sent(task, outputs, sent) {
        sent_are_outputs(task, outputs, sent)
    } else {
        false
    }
}
