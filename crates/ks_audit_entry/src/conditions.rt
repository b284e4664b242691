//! Whether a request meets its conditions.
ghost use Rattle.std.specs.Prelude.{◌≡◌, ◌&&◌, ℕ, List, IfOk, true, false, length, nat_le, if◌then◌else◌};
ghost use Rattle.ks_record.specs.declared.record.TaskId.{TaskId};
ghost use Rattle.ks_history.specs.Machine.{TaskPlan, has_topic};
ghost use Rattle.ks_history.specs.State.{has_task, IsSetup, IsPart};
ghost use Rattle.ks_history.specs.History.{are_places, are_tasks, are_offsets, names_topic};
ghost use Rattle.ks_cluster.specs.View.{setup_of, setup_from, state_of};
ghost use Rattle.ks_audit_entry.specs.Conditions.{is_part, is_worker, are_assigned, meets};

use ks_cluster::{Cluster, Work};
use ks_history::Request;
use ks_record::{Assignment, PartId, TaskId};
use std::alloc::{AllocError, Global};

/// What a cluster was made with.
#[derive(Drop)]
pub struct Conditions<W: Work> {
    pub work: W,
    pub counts: Vec<u8>,
    pub tasks: Vec<TaskId>,
}

fn both(a: bool, b: bool) -> bool
    ensures { result ≡ (a && b) }
{
    a && b
}

fn is_worker(w: u8) -> bool
    ensures { result ≡ is_worker w }
{
    w <= 16
}

fn has_topic(topic: u16, topics: &[u16]) -> bool
    ensures { result ≡ has_topic topic topics.now }
{
    let mut rest = topics;
    while let [first, more @ ..] = rest {
        if topic == *first {
            return true;
        }
        rest = more;
    }
    false
}

fn has_task(task: TaskId, tasks: &[TaskId]) -> bool
    ensures { result ≡ has_task task tasks.now }
{
    let mut rest = tasks;
    while let [first, more @ ..] = rest {
        if task.is(*first) {
            return true;
        }
        rest = more;
    }
    false
}

fn names_topic(topic: u16, pairs: &[(u16, u64)]) -> bool
    ensures { result ≡ names_topic topic pairs.now }
{
    let mut rest = pairs;
    while let [first, more @ ..] = rest {
        if topic == first.0 {
            return true;
        }
        rest = more;
    }
    false
}

fn are_tasks(tasks: &[TaskId], held: &[(TaskId, u64)]) -> bool
    ensures { (plan : TaskPlan) (counts : List ℕ)
        → result ≡ are_tasks (setup_from plan counts tasks.now) held.now }
{
    let mut rest = held;
    while let [first, more @ ..] = rest {
        if !has_task(first.0, tasks) {
            return false;
        }
        rest = more;
    }
    true
}

fn are_places(tasks: &[TaskId], places: &[(TaskId, u8)]) -> bool
    ensures { (plan : TaskPlan) (counts : List ℕ)
        → result ≡ are_places (setup_from plan counts tasks.now) places.now }
{
    let mut rest = places;
    while let [first, more @ ..] = rest {
        if !(has_task(first.0, tasks) && is_worker(first.1)) {
            return false;
        }
        rest = more;
    }
    true
}

fn is_assignment(tasks: &[TaskId], a: &Assignment) -> bool
    ensures { (plan : TaskPlan) (counts : List ℕ)
        → result ≡ are_assigned (setup_from plan counts tasks.now) a.now }
{
    are_places(tasks, a.active.as_slice())
        && (are_places(tasks, a.standby.as_slice()) && are_places(tasks, a.warmup.as_slice()))
}

fn is_part(counts: &[u8], part: PartId) -> bool
    ensures { (plan : TaskPlan) (tasks : List TaskId)
        → result ≡ is_part (setup_from plan counts.now tasks) part }
{
    match counts.get(part.topic as usize) {
        Some(count) => part.part < *count,
        None => false,
    }
}

fn is_within<W: Work>(
    alloc: Global,
    cluster: &Cluster<W>,
    part: PartId,
    offset: u64,
) -> Result<bool, AllocError>
    requires { IsPart (setup_of W.plan cluster.now) part }
    ensures { IfOk result (λ b. b ≡ nat_le offset (length ((state_of W.plan cluster.now).partition
        part))) }
{
    let ends = cluster.ends(alloc, &[part])?;
    Ok(offset <= ends[0])
}

impl<W: Work> Conditions<W> {
    fn has_task(&self, task: TaskId) -> bool
        ensures { result ≡ has_task task self.now.tasks.items }
    {
        has_task(task, self.tasks.as_slice())
    }

    fn are_offsets(
        &self,
        alloc: Global,
        cluster: &Cluster<W>,
        task: TaskId,
        offsets: &[(u16, u64)],
    ) -> Result<bool, AllocError>
        requires same { setup_of W.plan cluster.now ≡ setup_from (W.plan self.now.work)
            self.now.counts.items self.now.tasks.items }
        requires made { IsSetup (setup_of W.plan cluster.now) }
        requires task { has_task task self.now.tasks.items ≡ true }
        ensures { IfOk result (λ b. b ≡ are_offsets (setup_of W.plan cluster.now)
            (state_of W.plan cluster.now) task offsets.now) }
    {
        let inputs = self.work.inputs(task.sub);
        let mut rest = offsets;
        while let [first, more @ ..] = rest {
            if names_topic(first.0, more) {
                return Ok(false);
            }
            if !has_topic(first.0, inputs) {
                return Ok(false);
            }
            let part = PartId {
                topic: first.0,
                part: task.part,
            };
            if !is_within(alloc, cluster, part, first.1)? {
                return Ok(false);
            }
            rest = more;
        }
        Ok(true)
    }

    fn allow_offsets(
        &self,
        alloc: Global,
        cluster: &Cluster<W>,
        w: u8,
        task: TaskId,
        offsets: &[(u16, u64)],
    ) -> Result<bool, AllocError>
        requires same { setup_of W.plan cluster.now ≡ setup_from (W.plan self.now.work)
            self.now.counts.items self.now.tasks.items }
        requires made { IsSetup (setup_of W.plan cluster.now) }
        ensures { IfOk result (λ b. b ≡ (if is_worker w && has_task task self.now.tasks.items
            then are_offsets (setup_of W.plan cluster.now) (state_of W.plan cluster.now) task
            offsets.now else false)) }
    {
        if is_worker(w) && self.has_task(task) {
            self.are_offsets(alloc, cluster, task, offsets)
        } else {
            Ok(false)
        }
    }

    /// Whether a request may be made of a cluster that was made with these. Want of memory is the one error.
    pub fn allow(
        &self,
        alloc: Global,
        cluster: &Cluster<W>,
        request: &Request,
    ) -> Result<bool, AllocError>
        requires same { setup_of W.plan cluster.now ≡ setup_from (W.plan self.now.work)
            self.now.counts.items self.now.tasks.items }
        requires made { IsSetup (setup_of W.plan cluster.now) }
        ensures { IfOk result (λ b. b ≡ meets (setup_of W.plan cluster.now)
            (state_of W.plan cluster.now) request.now) }
    {
        let counts = self.counts.as_slice();
        let tasks = self.tasks.as_slice();
        match request {
            Request::Produce { part, .. } => {
                let is_source = part.topic < self.work.sources();
                let is_part = is_part(counts, *part);
                Ok(both(is_source, is_part))
            }
            Request::Init { w } => Ok(is_worker(*w)),
            Request::Add { w, part, .. } => {
                let is_worker = is_worker(*w);
                let is_part = is_part(counts, *part);
                Ok(both(is_worker, is_part))
            }
            Request::Append { w, task, part, .. } => {
                let is_worker = is_worker(*w);
                let is_part = is_part(counts, *part);
                let has_task = has_task(*task, tasks);
                Ok(both(is_worker, both(is_part, has_task)))
            }
            Request::SendOffsets {
                w,
                task,
                offsets,
                ..
            } => self.allow_offsets(alloc, cluster, *w, *task, offsets.as_slice()),
            Request::Decide { w, .. } => Ok(is_worker(*w)),
            Request::MarkNext { w } => Ok(is_worker(*w)),
            Request::Join { w } => Ok(is_worker(*w)),
            Request::Expire { w } => Ok(is_worker(*w)),
            Request::Hold { w, held } => {
                let is_worker = is_worker(*w);
                let are_tasks = are_tasks(tasks, held.as_slice());
                Ok(both(is_worker, are_tasks))
            }
            Request::Probe { w, .. } => Ok(is_worker(*w)),
            Request::Assign { w, a, .. } => {
                let is_worker = is_worker(*w);
                let is_assignment = is_assignment(tasks, a);
                Ok(both(is_worker, is_assignment))
            }
            Request::Park { instance, task } => {
                let has_task = has_task(*task, tasks);
                Ok(both(*instance <= 3, has_task))
            }
            Request::Unpark { instance, task } => {
                let has_task = has_task(*task, tasks);
                Ok(both(*instance <= 3, has_task))
            }
        }
    }
}
