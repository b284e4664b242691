//! The group: its members, where the tasks stand, what is pending, and what was committed.
ghost use Rattle.std.specs.Prelude.{◌≡◌, ◌++◌, ◌+◌, ◌-◌, ◌<◌, ◌≤◌, ◌^◌, ◌∷◌, [], IfOk, OnOk, OnErr, None, Some, length, map, replicate, set, option_copied};
ghost use Rattle.ks_history.specs.Partition.{is_none};
ghost use Rattle.ks_history.specs.State.{has_number, insert_number, without_number, offset_in};
ghost use Rattle.ks_history.specs.Step.{or_else, is_place, place_in, places_of, badly_placed, bad_assignment};
ghost use Rattle.ks_group.specs.Committed.{offsets_of};
ghost use Rattle.ks_group.specs.Group.{generation_fault, owner_at, owner_fault, speak_fault, settled_fault, committed_fault, pend_fault, assign_fault, next_generation, expired, assigned, pended, resolved};
ghost use Rattle.ks_group.specs.Held.{held_with};
ghost use Rattle.ks_group.specs.New.{new_group, Refuses};

use crate::committed::{Offsets, TaskInputs};
use crate::held::{remove_held, with_held};
use crate::pending::{late_with, pend_in, unstable_refusal};
use ks_history::Pending;
use ks_record::{Assignment, Refused, Seq, TaskId};
use std::alloc::{AllocError, Global};
use std::marker::Model;
use std::mem;

/// The group of the workers, what their producers have pending, and what was committed (in Kafka: the group coordinator). In
/// all calls a worker or producer `w` is at most 16. It is seen as a record of lists.
#[derive(Drop)]
pub struct Group {
    /// All tasks, of which an assignment makes each active at exactly one member.
    tasks: Vec<TaskId>,
    /// The number of the present generation.
    generation: u64,
    /// The workers in the group, rising.
    members: Seq<u8>,
    /// Where the tasks stand in this generation; none until one is given.
    assignment: Option<Assignment>,
    /// The positions that workers hold, each beside its worker: by worker, and then in the order in which they were told.
    held: Vec<(u8, TaskId, u64)>,
    /// Of each producer, 0 to 16, the offsets that are pending in its undecided transaction.
    pending: Vec<Seq<Pending>>,
    /// Of each task the committed offsets.
    offsets: Offsets,
    /// The committed late total.
    late: u64,
}

impl Model for Group {
    ghost use Rattle.std.specs.Prelude.{◌≡◌, length};
    ghost use Rattle.ks_group.specs.Group.{GroupView};

    ghost Value = { GroupView };

    ghost view = { λ g. record { tasks = g.tasks.items; generation = g.generation; members = g.members; assignment = g.assignment; held = g.held.items; pending = g.pending.items; offsets = g.offsets; late = g.late } };

    ghost invariant = { λ g. length g.pending.items ≡ 17 };
}

/// Whether a worker is among members.
fn is_member(members: &[u8], w: u8) -> bool
    ensures { result ≡ has_number w members.now }
{
    for m in members {
        if w == *m {
            return true;
        }
    }
    false
}

/// Rising members with one more.
fn with_member(alloc: Global, members: &[u8], w: u8) -> Result<Vec<u8>, AllocError>
    ensures { IfOk result (λ made. made.items ≡ insert_number w members.now) }
{
    let mut made = Vec::new(alloc);
    for (i, m) in members.iter().enumerate() {
        if w == *m {
            made.extend_from_slice(&members[i..])?;
            return Ok(made);
        }
        if w < *m {
            made.push(w)?;
            made.extend_from_slice(&members[i..])?;
            return Ok(made);
        }
        made.push(*m)?;
    }
    made.push(w)?;
    Ok(made)
}

/// Takes a worker out of members, which stay in their order.
fn remove_member(members: &mut Vec<u8>, w: u8)
    ensures { members.new.items ≡ without_number w members.old.items }
{
    members.retain(|m| w != *m);
}

/// Held positions again: a copy with its own memory. Want of memory for the copy is the one error.
pub fn copy_held(alloc: Global, held: &[(TaskId, u64)]) -> Result<Vec<(TaskId, u64)>, AllocError>
    ensures { IfOk result (λ made. made.items ≡ held.now) }
{
    let mut made = Vec::new(alloc);
    made.extend_from_slice(held)?;
    Ok(made)
}

/// Whether a task stands at a member here.
fn stands(members: &[u8], task: TaskId, place: (TaskId, u8)) -> bool
    ensures { result ≡ is_place task members.now place }
{
    task.is(place.0) && is_member(members, place.1)
}

/// The member at which a task is active.
fn place_of(active: &[(TaskId, u8)], members: &[u8], task: TaskId) -> Option<u8>
    ensures { result ≡ place_in task members.now active.now }
{
    for place in active {
        if stands(members, task, *place) {
            return Some(place.1);
        }
    }
    None
}

/// At how many members a task is active.
fn places(active: &[(TaskId, u8)], members: &[u8], task: TaskId) -> u64
    ensures { result ≡ places_of task members.now active.now }
{
    let mut count: u64 = 0;
    for place in active {
        if stands(members, task, *place) {
            count += 1;
        }
    }
    count
}

/// The first task, in task order, that doesn't stand in exactly one pair of `active` whose worker is a member.
fn misplaced_task(tasks: &[TaskId], members: &[u8], active: &[(TaskId, u8)]) -> Option<TaskId>
    ensures { result ≡ badly_placed tasks.now members.now active.now }
{
    let mut found: Option<TaskId> = None;
    let mut i = tasks.len();
    while i > 0 {
        i -= 1;
        let task = tasks[i];
        if places(active, members, task) != 1 {
            found = match found {
                Some(other) if other.is_before(task) => Some(other),
                _ => Some(task),
            };
        }
    }
    found
}

fn copy_places(alloc: Global, places: &[(TaskId, u8)]) -> Result<Vec<(TaskId, u8)>, AllocError>
    ensures { IfOk result (λ made. made.items ≡ places.now) }
{
    let mut made = Vec::new(alloc);
    made.extend_from_slice(places)?;
    Ok(made)
}

/// A copy of an assignment, with its own memory. Want of memory for the copy is the one error.
pub fn copy_assignment(alloc: Global, a: &Assignment) -> Result<Assignment, AllocError>
    ensures { IfOk result (λ b. b ≡ a.now) }
{
    Ok(Assignment {
        active: Seq::of(copy_places(alloc, a.active.as_slice())?),
        standby: Seq::of(copy_places(alloc, a.standby.as_slice())?),
        warmup: Seq::of(copy_places(alloc, a.warmup.as_slice())?),
    })
}

/// Seventeen producers of which nothing is pending.
fn none_pending(alloc: Global) -> Result<Vec<Seq<Pending>>, AllocError>
    ensures { IfOk result (λ made. made.items ≡ replicate 17 []) }
{
    let mut made = Vec::new(alloc);
    for _ in 0..17usize {
        made.push(Seq::new(alloc))?;
    }
    Ok(made)
}

/// The tasks alone.
fn tasks_of(alloc: Global, tasks: &[TaskInputs]) -> Result<Vec<TaskId>, AllocError>
    ensures { IfOk result (λ made. made.items ≡ map (λ t. t.task) tasks.now) }
{
    let mut made = Vec::new(alloc);
    for one in tasks {
        made.push(one.task)?;
    }
    Ok(made)
}

impl Group {
    /// A group of these tasks at generation 0, without members and assignment, of which nothing is committed, held or pending;
    /// it has the room for all committed offsets. Want of memory is the one error.
    pub fn new(alloc: Global, tasks: Vec<TaskInputs>) -> Result<Group, AllocError>
        ensures { IfOk result (λ g. g ≡ new_group tasks.items) }
    {
        let offsets = Offsets::new(alloc, tasks.as_slice())?;
        Ok(Group {
            tasks: tasks_of(alloc, tasks.as_slice())?,
            generation: 0,
            members: Seq::new(alloc),
            assignment: None,
            held: Vec::new(alloc),
            pending: none_pending(alloc)?,
            offsets,
            late: 0,
        })
    }

    /// All tasks.
    pub fn tasks(&self) -> &[TaskId]
        ensures { result.now ≡ self.now.tasks }
    {
        self.tasks.as_slice()
    }

    /// The number of the present generation.
    pub fn generation(&self) -> u64
        ensures { result ≡ self.now.generation }
    {
        self.generation
    }

    /// The members, in the order in which the group has them.
    pub fn members(&self) -> &[u8]
        ensures { result.now ≡ self.now.members }
    {
        self.members.as_slice()
    }

    /// Where the tasks stand, if the generation has an assignment.
    pub fn assignment(&self) -> Option<&Assignment>
        ensures { option_copied result ≡ self.now.assignment }
    {
        self.assignment.as_ref()
    }

    /// The positions that workers hold, each beside its worker: by worker, and then in the order of its last `hold`.
    pub fn held(&self) -> &[(u8, TaskId, u64)]
        ensures { result.now ≡ self.now.held }
    {
        self.held.as_slice()
    }

    /// The committed late total.
    pub fn late(&self) -> u64
        ensures { result ≡ self.now.late }
    {
        self.late
    }

    /// The committed offset of a task's input; 0 where the task has no such input. Kafka: a consumer group's committed offset.
    pub fn offset(&self, task: TaskId, topic: u16) -> u64
        ensures { result ≡ offset_in 0 topic (offsets_of task self.now.offsets) }
    {
        self.offsets.offset(task, topic)
    }

    /// Whether a worker is a member.
    pub fn has_member(&self, w: u8) -> bool
        ensures { result ≡ has_number w self.now.members }
    {
        is_member(self.members.as_slice(), w)
    }

    /// Why a request of a generation is refused: OldGeneration, with the present one, where it names another; else none.
    fn generation_refusal(&self, generation: u64) -> Option<Refused>
        ensures { result ≡ generation_fault self.now.generation generation }
    {
        if generation == self.generation {
            None
        } else {
            Some(Refused::OldGeneration {
                now: self.generation,
            })
        }
    }

    /// The member at which a task is active.
    fn owner(&self, task: TaskId) -> Option<u8>
        ensures { result ≡ owner_at self.now.assignment self.now.members task }
    {
        match &self.assignment {
            Some(a) => place_of(a.active.as_slice(), self.members.as_slice(), task),
            None => None,
        }
    }

    /// Why a worker may not speak for a task: OldGeneration where the generation isn't the present one; NotAssigned, with the
    /// member at which the task is active, or none where it is active at no member or nothing is assigned. None where it is active
    /// at this worker. Of several members at which a task is active the first in `active` counts.
    pub fn speak_refusal(&self, w: u8, generation: u64, task: TaskId) -> Option<Refused>
        ensures { result ≡ speak_fault self.now w generation task }
    {
        if let Some(refused) = self.generation_refusal(generation) {
            return Some(refused);
        }
        match self.owner(task) {
            None => Some(Refused::NotAssigned { owner: None }),
            Some(v) => {
                if v == w {
                    None
                } else {
                    Some(Refused::NotAssigned { owner: Some(v) })
                }
            }
        }
    }

    /// Why offsets of a task may not be read or sent: OldGeneration, NotAssigned, then Unstable with the least producer, but for
    /// one, that has some pending for the task.
    fn settled_refusal(
        &self,
        w: u8,
        generation: u64,
        task: TaskId,
        except: Option<u8>,
    ) -> Option<Refused>
        ensures { result ≡ settled_fault self.now w generation task except }
    {
        if let Some(refused) = self.speak_refusal(w, generation, task) {
            return Some(refused);
        }
        unstable_refusal(self.pending.as_slice(), task, except)
    }

    /// The committed offset of each input of a task, in the order of its inputs. Refused: OldGeneration, NotAssigned, then Unstable
    /// with the least producer that has offsets pending for the task. Want of memory for the list is the outer error.
    pub fn committed(
        &self,
        alloc: Global,
        w: u8,
        generation: u64,
        task: TaskId,
    ) -> Result<Result<Vec<(u16, u64)>, Refused>, AllocError>
        ensures offsets { IfOk result (λ r. IfOk r
            (λ v. v.items ≡ offsets_of task self.now.offsets)) }
        ensures refused { IfOk result (λ r. Refuses (committed_fault self.now w generation task)
            r) }
    {
        if let Some(refused) = self.settled_refusal(w, generation, task, None) {
            return Ok(Err(refused));
        }
        let mut made = Vec::new(alloc);
        made.extend_from_slice(self.offsets.of(task))?;
        Ok(Ok(made))
    }

    /// Begins the next generation, without an assignment.
    fn begin_generation(&mut self)
        requires { self.old.generation < 2 ^ 64 - 1 }
        ensures { self.new ≡ next_generation self.old }
    {
        self.generation += 1;
        self.assignment = None;
    }

    /// Takes a worker into the group, at its place among members that rise, if it isn't among them, and answers the new
    /// generation, which is one more and has no assignment. Want of memory is the one error; after it the group is as before.
    pub fn join(&mut self, alloc: Global, w: u8) -> Result<u64, AllocError>
        requires { self.old.generation < 2 ^ 64 - 1 }
        ensures generation { IfOk result (λ n. n ≡ self.old.generation + 1) }
        ensures ok { OnOk result (self.new ≡ record (next_generation self.old)
            { members = insert_number w self.old.members }) }
        ensures err { OnErr result (self.new ≡ self.old) }
    {
        let members = with_member(alloc, self.members.as_slice(), w)?;
        self.members = Seq::of(members);
        self.begin_generation();
        Ok(self.generation)
    }

    /// Takes a worker and its held positions out of the group, whose next generation has no assignment. Takes no memory.
    pub fn expire(&mut self, alloc: Global, w: u8)
        requires worker { w ≤ 16 }
        requires below { self.old.generation < 2 ^ 64 - 1 }
        ensures { self.new ≡ expired self.old w }
    {
        let mut members = mem::replace(&mut self.members, Seq::new(alloc)).into_vec();
        remove_member(&mut members, w);
        self.members = Seq::of(members);
        remove_held(&mut self.held, w);
        self.begin_generation();
    }

    /// Replaces the positions that a worker holds, which stand between those of the workers before it and after it. Want of memory
    /// is the one error; after it the group is as before. KIP-441.
    pub fn hold(&mut self, alloc: Global, w: u8, held: &[(TaskId, u64)]) -> Result<(), AllocError>
        requires { w ≤ 16 }
        ensures ok { OnOk result (self.new ≡ record self.old
            { held = held_with w held.now self.old.held }) }
        ensures err { OnErr result (self.new ≡ self.old) }
    {
        let held = with_held(alloc, self.held.as_slice(), w, held)?;
        self.held = held;
        Ok(())
    }

    /// Begins the next generation, without an assignment, and answers it. Refused: OldGeneration; then the group is as before.
    pub fn probe(&mut self, generation: u64) -> Result<u64, Refused>
        requires { self.old.generation < 2 ^ 64 - 1 }
        ensures refused { Refuses (generation_fault self.old.generation generation) result }
        ensures generation { IfOk result (λ n. n ≡ self.old.generation + 1) }
        ensures ok { OnOk result (self.new ≡ next_generation self.old) }
        ensures err { OnErr result (self.new ≡ self.old) }
    {
        if let Some(refused) = self.generation_refusal(generation) {
            return Err(refused);
        }
        self.begin_generation();
        Ok(self.generation)
    }

    /// Why an assignment is refused: OldGeneration where the generation isn't the present one; else BadAssignment, with the
    /// first task, in task order, that doesn't stand in exactly one pair of `active` whose worker is a member; else none.
    fn assign_refusal(&self, generation: u64, a: &Assignment) -> Option<Refused>
        ensures { result ≡ assign_fault self.now generation a.now }
    {
        if generation != self.generation {
            return Some(Refused::OldGeneration {
                now: self.generation,
            });
        }
        match misplaced_task(
            self.tasks.as_slice(),
            self.members.as_slice(),
            a.active.as_slice(),
        ) {
            Some(task) => Some(Refused::BadAssignment { task }),
            None => None,
        }
    }

    /// Gives the generation an assignment; false, and nothing changes, where it has one already. Refused: OldGeneration, then
    /// BadAssignment with the first task, in task order, that isn't active at exactly one member. Want of memory is the outer
    /// error. After a refusal or want of memory the group is as before.
    pub fn assign(
        &mut self,
        alloc: Global,
        generation: u64,
        a: &Assignment,
    ) -> Result<Result<bool, Refused>, AllocError>
        ensures refused { IfOk result (λ r. Refuses (assign_fault self.old generation a.now) r) }
        ensures truth { IfOk result (λ r. IfOk r (λ b. b ≡ is_none self.old.assignment)) }
        ensures ok { IfOk result (λ r. IfOk r (λ b. self.new ≡ assigned self.old a.now)) }
        ensures same { IfOk result (λ r. OnErr r (self.new ≡ self.old)) }
        ensures err { OnErr result (self.new ≡ self.old) }
    {
        if let Some(refused) = self.assign_refusal(generation, a) {
            return Ok(Err(refused));
        }
        if self.assignment.is_some() {
            return Ok(Ok(false));
        }
        let copy = copy_assignment(alloc, a)?;
        self.assignment = Some(copy);
        Ok(Ok(true))
    }

    /// Pends offsets of a task in a producer's transaction, in place of earlier ones of the task there. Refused: OldGeneration,
    /// NotAssigned, then Unstable with the least other producer that has offsets pending for the task. Want of memory is the outer
    /// error. After a refusal or want of memory the group is as before. KIP-447.
    pub fn pend(
        &mut self,
        alloc: Global,
        w: u8,
        generation: u64,
        new: Pending,
    ) -> Result<Result<(), Refused>, AllocError>
        requires { w ≤ 16 }
        ensures refused { IfOk result (λ r. Refuses (pend_fault self.old w generation new.task) r) }
        ensures ok { IfOk result (λ r. OnOk r (self.new ≡ pended self.old w new)) }
        ensures same { IfOk result (λ r. OnErr r (self.new ≡ self.old)) }
        ensures err { OnErr result (self.new ≡ self.old) }
    {
        if let Some(refused) = self.settled_refusal(w, generation, new.task, Some(w)) {
            return Ok(Err(refused));
        }
        pend_in(alloc, &mut self.pending[w as usize], new)?;
        Ok(Ok(()))
    }

    /// The producer's transaction is decided: on commit its pending offsets become the committed ones, and their late pairs are
    /// added to the total, which stays at most 2^64 - 1; on abort they are dropped. Takes no memory. KIP-447.
    pub fn resolve(&mut self, alloc: Global, w: u8, commit: bool)
        requires { w ≤ 16 }
        ensures { self.new ≡ resolved self.old w commit }
    {
        let pending = mem::replace(&mut self.pending[w as usize], Seq::new(alloc));
        if commit {
            self.late = late_with(self.late, pending.as_slice());
            self.offsets.commit(pending.as_slice());
        }
    }
}
