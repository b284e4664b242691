//! The committed offsets of the tasks' inputs, which are kept for each task.
ghost use Rattle.std.specs.Prelude.{◌≡◌, IfOk, map, option_copied};
ghost use Rattle.ks_history.specs.State.{offset_in, pending_of};
ghost use Rattle.ks_group.specs.Committed.{offsets_of, none_committed, pair_with, offsets_with, row_with};
ghost use Rattle.ks_group.specs.Places.{row_place};

use crate::places::{places_of, task_number};
use ks_history::Pending;
use ks_record::TaskId;
use std::alloc::{AllocError, Global};
use std::marker::Model;

/// A task and the topics that it reads.
#[derive(Drop)]
pub struct TaskInputs {
    pub task: TaskId,
    pub inputs: Vec<u16>,
}

/// A task beside the committed offset of each of its inputs, in their order. It is seen as this pair.
#[derive(Drop)]
pub struct TaskOffsets {
    task: TaskId,
    offsets: Vec<(u16, u64)>,
}

impl Model for TaskOffsets {
    ghost use Rattle.std.specs.Prelude.{ℕ, List};
    ghost use Rattle.ks_record.specs.declared.record.TaskId.{TaskId};

    ghost Value = { TaskId × List (ℕ × ℕ) };

    ghost view = { λ t. (t.task, t.offsets.items) };
}

/// The offset that is named for a topic, else the old one.
fn named_offset(old: u64, topic: u16, offsets: &[(u16, u64)]) -> u64
    ensures { result ≡ offset_in old topic offsets.now }
{
    for pair in offsets {
        if topic == pair.0 {
            return pair.1;
        }
    }
    old
}

/// The offset that is named for a pair's topic, else as before.
fn commit_pair(pair: &mut (u16, u64), named: &[(u16, u64)])
    ensures { pair.new ≡ pair_with named.now pair.old }
{
    pair.1 = named_offset(pair.1, pair.0, named);
}

/// Offsets of which each is the one that is named for its topic, else as before.
fn commit_offsets(offsets: &mut Vec<(u16, u64)>, named: &[(u16, u64)])
    ensures { offsets.new.items ≡ offsets_with named.now offsets.old.items }
{
    for i in 0..offsets.len() {
        commit_pair(&mut offsets[i], named);
    }
}

/// What is pending for a task.
fn pending_for(pending: &[Pending], task: TaskId) -> Option<&Pending>
    ensures { option_copied result ≡ pending_of task pending.now }
{
    for p in pending {
        if task.is(p.task) {
            return Some(p);
        }
    }
    None
}

impl TaskOffsets {
    /// The task of the row.
    pub fn task(&self) -> TaskId
        ensures { result ≡ self.now.0 }
    {
        self.task
    }

    /// Nothing is committed of these inputs.
    fn new(alloc: Global, task: TaskId, inputs: &[u16]) -> Result<TaskOffsets, AllocError>
        ensures { IfOk result (λ t. t ≡ (task, none_committed inputs.now)) }
    {
        let mut offsets = Vec::new(alloc);
        for topic in inputs {
            offsets.push((*topic, 0))?;
        }
        Ok(TaskOffsets { task, offsets })
    }

    /// Commits what is pending for the task.
    fn commit(&mut self, pending: &[Pending])
        ensures { self.new ≡ row_with pending.now self.old }
    {
        if let Some(p) = pending_for(pending, self.task) {
            commit_offsets(&mut self.offsets, p.offsets.as_slice());
        }
    }
}

/// A row for each task, of which nothing is committed.
fn new_rows(alloc: Global, tasks: &[TaskInputs]) -> Result<Vec<TaskOffsets>, AllocError>
    ensures { IfOk result (λ rows. rows.items
        ≡ map (λ t. (t.task, none_committed t.inputs.items)) tasks.now) }
{
    let mut rows = Vec::new(alloc);
    for one in tasks {
        rows.push(TaskOffsets::new(alloc, one.task, one.inputs.as_slice())?)?;
    }
    Ok(rows)
}

/// Commits what is pending.
fn commit_rows(rows: &mut Vec<TaskOffsets>, pending: &[Pending])
    ensures { rows.new.items ≡ map (row_with pending.now) rows.old.items }
{
    for i in 0..rows.len() {
        let row = &mut rows[i];
        row.commit(pending);
    }
}

/// The committed offsets of all tasks, in the order of the tasks. It is seen as the list of these rows.
#[derive(Drop)]
pub struct Offsets {
    rows: Vec<TaskOffsets>,
    /// Where the row of each task stands.
    places: Vec<usize>,
}

impl Model for Offsets {
    ghost use Rattle.std.specs.Prelude.{ℕ, List};
    ghost use Rattle.ks_record.specs.declared.record.TaskId.{TaskId};
    ghost use Rattle.ks_group.specs.Places.{ArePlaces};

    ghost Value = { List (TaskId × List (ℕ × ℕ)) };

    ghost view = { λ o. o.rows.items };

    ghost invariant = { λ o. ArePlaces o.places.items o.rows.items };
}

impl Offsets {
    /// A row for each task, of which nothing is committed. Want of memory is the one error.
    pub fn new(alloc: Global, tasks: &[TaskInputs]) -> Result<Offsets, AllocError>
        ensures { IfOk result (λ o. o ≡ map (λ t. (t.task, none_committed t.inputs.items))
            tasks.now) }
    {
        let rows = new_rows(alloc, tasks)?;
        let places = places_of(alloc, rows.as_slice())?;
        Ok(Offsets { rows, places })
    }

    /// Where the row of a task stands, or how many rows there are.
    fn place(&self, task: TaskId) -> usize
        ensures { result ≡ row_place task self.now }
    {
        match self.places.get(task_number(task)) {
            Some(at) => *at,
            None => self.rows.len(),
        }
    }

    /// The committed offset of each input of a task, in the order of its inputs; nothing where there is no such task.
    pub fn of(&self, task: TaskId) -> &[(u16, u64)]
        ensures { result.now ≡ offsets_of task self.now }
    {
        let at = self.place(task);
        if at < self.rows.len() {
            return self.rows[at].offsets.as_slice();
        }
        &[]
    }

    /// The committed offset of a task's input; 0 where the task has no such input.
    pub fn offset(&self, task: TaskId, topic: u16) -> u64
        ensures { result ≡ offset_in 0 topic (offsets_of task self.now) }
    {
        named_offset(0, topic, self.of(task))
    }

    /// Commits what is pending. Takes no memory.
    pub fn commit(&mut self, pending: &[Pending])
        ensures { self.new ≡ map (row_with pending.now) self.old }
    {
        commit_rows(&mut self.rows, pending);
    }
}
