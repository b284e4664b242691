//! What a cluster tells of its group, its waiting markers and the ends of its changelogs.
ghost use Rattle.std.specs.Prelude.{◌≡◌, ◌++◌, [], None, IfOk, OnOk, option_copied};
ghost use Rattle.ks_history.specs.Machine.{has_topic};
ghost use Rattle.ks_history.specs.Reads.{is_changelog};
ghost use Rattle.ks_cluster.specs.View.{setup_from};
ghost use Rattle.ks_cluster.specs.Statuses.{ends_on, ends_if, changelogs_on, is_same_sub, firsts_from};

use crate::work::Work;
use ks_group::copy_assignment;
use ks_log::Log;
use ks_record::{Assignment, PartId, TaskId};
use std::alloc::{AllocError, Global};

/// Members again: a copy with its own memory.
pub fn copy_members(alloc: Global, members: &[u8]) -> Result<Vec<u8>, AllocError>
    ensures { IfOk result (λ made. made.items ≡ members.now) }
{
    let mut made = Vec::new(alloc);
    made.extend_from_slice(members)?;
    Ok(made)
}

/// What is assigned, if anything is, again: a copy with its own memory.
pub fn copy_given(
    alloc: Global,
    given: Option<&Assignment>,
) -> Result<Option<Assignment>, AllocError>
    ensures { IfOk result (λ made. made ≡ option_copied given.entry) }
{
    match given {
        Some(a) => Ok(Some(copy_assignment(alloc, a)?)),
        None => Ok(None),
    }
}

/// The positions that workers hold again: a copy with its own memory.
pub fn copy_positions(
    alloc: Global,
    held: &[(u8, TaskId, u64)],
) -> Result<Vec<(u8, TaskId, u64)>, AllocError>
    ensures { IfOk result (λ made. made.items ≡ held.now) }
{
    let mut made = Vec::new(alloc);
    made.extend_from_slice(held)?;
    Ok(made)
}

fn has_number(numbers: &[u16], number: u16) -> bool
    ensures { result ≡ has_topic number numbers.now }
{
    for other in numbers {
        if number == *other {
            return true;
        }
    }
    false
}

fn is_same_subtopology(last: Option<u8>, sub: u8) -> bool
    ensures { result ≡ is_same_sub last sub }
{
    match last {
        Some(other) => other == sub,
        None => false,
    }
}

// Of tasks of one subtopology that stand together the first.
fn first_tasks(alloc: Global, tasks: &[TaskId]) -> Result<Vec<TaskId>, AllocError>
    ensures { IfOk result (λ v. v.items ≡ firsts_from None tasks.now) }
{
    let mut firsts = Vec::new(alloc);
    let mut last: Option<u8> = None;
    for task in tasks {
        if !is_same_subtopology(last, task.sub) {
            firsts.push(*task)?;
        }
        last = Some(task.sub);
    }
    Ok(firsts)
}

// Whether a topic is a changelog of one of these tasks.
fn is_kept<W: Work>(work: &W, tasks: &[TaskId], topic: u16) -> bool
    ensures { result ≡ is_changelog (setup_from (W.plan work.now) [] []) tasks.now topic }
{
    for task in tasks {
        if has_number(work.changelogs(task.sub), topic) {
            return true;
        }
    }
    false
}

// The ends of the partitions of a topic, behind those that are there.
fn push_ends(
    made: &mut Vec<(PartId, u64)>,
    log: &Log,
    topic: u16,
    count: u8,
) -> Result<(), AllocError>
    ensures { OnOk result (made.new.items ≡ made.old.items ++ ends_on log.now topic 0 count) }
{
    for part in 0..count {
        let part = PartId { topic, part };
        made.push((part, log.part(part).end()))?;
    }
    Ok(())
}

// The ends of the partitions of a topic, if it is a changelog, behind those that are there.
fn push_changelog<W: Work>(
    made: &mut Vec<(PartId, u64)>,
    work: &W,
    tasks: &[TaskId],
    log: &Log,
    place: (u16, u8),
) -> Result<(), AllocError>
    ensures { OnOk result (made.new.items ≡ made.old.items
        ++ ends_if (setup_from (W.plan work.now) [] tasks.now) log.now place.0 place.1) }
{
    if is_kept(work, tasks, place.0) {
        push_ends(made, log, place.0, place.1)?;
    }
    Ok(())
}

// The ends of the partitions of all changelogs of these tasks, by topic and partition.
fn ends_of_tasks<W: Work>(
    alloc: Global,
    work: &W,
    tasks: &[TaskId],
    counts: &[u8],
    log: &Log,
) -> Result<Vec<(PartId, u64)>, AllocError>
    ensures { IfOk result (λ made. made.items
        ≡ changelogs_on (setup_from (W.plan work.now) [] tasks.now) log.now 0 counts.now) }
{
    let mut made = Vec::with_capacity(alloc, counts.len().saturating_mul(4))?;
    for (i, count) in counts.iter().enumerate() {
        let Ok(topic) = u16::try_from(i) else {
            return Err(AllocError);
        };
        push_changelog(&mut made, work, tasks, log, (topic, *count))?;
    }
    Ok(made)
}

/// The ends of the partitions of all changelogs, by topic and partition. Want of memory also where there are more than 65,536 topics.
/// Where tasks of a subtopology stand together, one of them is asked for its changelogs.
#[tactic(auto, using(crate::proofs::StatusParts::firsts_have_ends))]
pub fn changelog_ends<W: Work>(
    alloc: Global,
    work: &W,
    tasks: &[TaskId],
    counts: &[u8],
    log: &Log,
) -> Result<Vec<(PartId, u64)>, AllocError>
    ensures { IfOk result (λ made. made.items
        ≡ changelogs_on (setup_from (W.plan work.now) [] tasks.now) log.now 0 counts.now) }
{
    let firsts = first_tasks(alloc, tasks)?;
    ends_of_tasks(alloc, work, firsts.as_slice(), counts, log)
}
