//! A task at work.
ghost use Rattle.std.specs.Prelude.{◌≡◌, ◌≤◌, ◌-◌, ◌^◌, ◌++◌, ℕ, List, [], IfOk, IfErr, OnOk, false, length, map, min, true, slice_get, option_map};
ghost use Rattle.ks_record.specs.Records.{record_seen};
ghost use Rattle.ks_plan.specs.Drafts.{DraftView};
ghost use Rattle.ks_plan.specs.Plan.{plan_of};
ghost use Rattle.ks_topo.specs.Topologies.{draft_of, plan_in};
ghost use Rattle.ks_plan.specs.Layout.{tasks, topic_at};
ghost use Rattle.ks_plan.specs.Infos.{input_numbers, changelog_numbers};
ghost use Rattle.ks_def_runs.specs.FinMap as fin;
ghost use Rattle.ks_history.specs.Machine.{has_topic, part_of};
ghost use Rattle.ks_history.specs.State.{has_task, offset_in};
ghost use Rattle.ks_history.specs.Faithful.{capped};
ghost use Rattle.ks_law_topology.specs.Work.{work_of};
ghost use Rattle.ks_law_restore.specs.Replicas.{restored_view, rested_view};
ghost use Rattle.ks_law_restore.specs.Views.{take_view, take_all, skip_view, committed_view, IsFrozen};
ghost use Rattle.ks_commit.specs.Work.{work_view};
ghost use Rattle.ks_def_tasks.specs.Rules.{HaveParts, rules_of};
ghost use Rattle.ks_task_nodes.specs.Nodes.{node_view, kinds_in, nodes_of};
ghost use Rattle.ks_task_nodes.specs.Reach.{are_numbered};
ghost use Rattle.ks_task_nodes.specs.Records.{arrival_of, arrival_at};
ghost use Rattle.ks_task_processing.specs.Steps.{made_or_none, late_or_none};
ghost use Rattle.ks_cache.specs.Changelogs.{stores_in};
ghost use Rattle.ks_cache.specs.Lists.{cached_after};
ghost use Rattle.ks_def_tasks.specs.Bytes.{records_at};
ghost use Rattle.ks_standby.specs.Replicas.{replica_view, changelogs_of};
ghost use Rattle.ks_task.specs.Views.{own_ends, AreLiveAt};
ghost use Rattle.ks_task.specs.Tasks.{task_view, with_made, uncommitted, IsClean, IsTaskOf};

use crate::changelogs::{
    apply_changelogs, cached_of, end_changelogs, hold_bytes, hold_changelogs, keep_records,
    record_is_bytes,
};
use crate::fitting::topology_fits;
use crate::freezing::group;
use crate::inputs::{
    Input, are_all_committed, commit_inputs, inputs_at, move_input, offsets_of, position_of,
    take_in_order, uncommitted_of,
};
use ks_cache::{Changelog, find_bytes};
use ks_commit::Frozen;
use ks_record::{PartId, PlacedRecords, Rec, RecordRef, Seq, TaskId};
use ks_standby::{Replica, position_in_changelog};
use ks_task_nodes::{
    NodeTopics, ProcessorNode, StampedRecord, live_nodes, node_topics, processor_nodes, read_record,
};
use ks_task_processing::Processing;
use ks_task_values::Step;
use ks_topo::{Topic, Topology};
use std::alloc::{AllocError, AllocFailed, Global};

/// The most records of one fetch that a task takes.
pub const MOST_FETCHED: u32 = 32;

/// The most records of one fetch that a replica is fed.
pub const MOST_FED: u32 = 4_096;

/// A task: its nodes, its stores and positions, and what it made since its last commit. A node is kept by the numbers of its topics; what
/// it computes is borrowed of the topology while a record is taken.
#[derive(Drop)]
pub struct Task {
    id: TaskId,
    nodes: Vec<NodeTopics>,
    inputs: Vec<Input>,
    changelogs: Vec<Changelog>,
    order: Vec<(u16, u64)>,
    made: PlacedRecords,
    late: u64,
    // how many pairs each store holds back
    cache: u32,
}

// What a record of a topic says.
fn read_from<'a>(
    alloc: Global,
    purposes: &[Topic],
    nodes: &[ProcessorNode<'_>],
    topic: u16,
    rec: RecordRef<'a>,
) -> Result<Option<StampedRecord<'a>>, AllocError>
    ensures { IfOk result (λ o. option_map arrival_of o
        ≡ arrival_at (kinds_in (map node_view nodes.now)) (slice_get purposes.now topic)
        (record_seen rec.entry)) }
{
    match purposes.get(topic as usize) {
        Some(purpose) => read_record(alloc, nodes, *purpose, rec),
        None => Ok(None),
    }
}

// The numbers of those of these nodes that a topic's records can reach.
fn live_at(
    alloc: Global,
    purposes: &[Topic],
    nodes: &[ProcessorNode<'_>],
    topic: u16,
) -> Result<Vec<u8>, AllocError>
    ensures { IfOk result (λ v. AreLiveAt nodes.now (slice_get purposes.now topic) v.items) }
{
    match purposes.get(topic as usize) {
        Some(purpose) => live_nodes(alloc, nodes, *purpose),
        None => Ok(Vec::new(alloc)),
    }
}

// The same by the number of a topology's topic.
fn live_for(
    alloc: Global,
    topology: &Topology,
    nodes: &[ProcessorNode<'_>],
    topic: u16,
) -> Result<Vec<u8>, AllocError>
    ensures { IfOk result (λ v. AreLiveAt nodes.now (topic_at (plan_in topology.now) topic)
        v.items) }
{
    live_at(alloc, topology.purposes(), nodes, topic)
}

// All that these nodes make of a record, at the end of what was made before; these of them are those that the topic can reach. How many
// pairs were late.
fn process_record<H: Processing>(
    alloc: Global,
    made: &mut PlacedRecords,
    purposes: &[Topic],
    nodes: &[ProcessorNode<'_>],
    live: &[u8],
    changelogs: &[Changelog],
    at: PartId,
    rec: RecordRef<'_>,
) -> Result<u64, AllocError>
    requires part { at.part ≤ 63 }
    requires numbered { are_numbered 0 (map node_view nodes.now) ≡ true }
    requires live { AreLiveAt nodes.now (slice_get purposes.now at.topic) live.now }
    ensures late { IfOk result (λ n. n ≡ capped
        (late_or_none (map node_view nodes.now) (stores_in changelogs.now)
        (arrival_at (kinds_in (map node_view nodes.now)) (slice_get purposes.now at.topic)
        (record_seen rec.entry)))) }
    ensures records { OnOk result (made.new ≡ made.old
        ++ made_or_none (rules_of H.hash_of) (map node_view nodes.now) (stores_in changelogs.now)
        at.part (arrival_at (kinds_in (map node_view nodes.now)) (slice_get purposes.now at.topic)
        (record_seen rec.entry))) }
{
    match read_from(alloc, purposes, nodes, at.topic, rec)? {
        Some(stamped) => {
            let step = Step {
                nodes,
                live,
                changelogs,
                partition: at.part,
                stamped: &stamped,
            };
            let late = H::process(alloc, made, &step);
            drop(stamped);
            late
        }
        None => Ok(0),
    }
}

impl Task {
    /// A task made of a replica, with the committed offset of each of its inputs, each of whose stores holds back at most so many pairs.
    /// On want of memory the replica comes back, with the same stores.
    ///
    /// It follows every journal that the replica follows, in which these are the committed offsets and the replica has reached the
    /// ends of its changelogs.
    pub fn of(
        alloc: Global,
        topology: &Topology,
        replica: Replica,
        offsets: &[(u16, u64)],
        cache: u32,
    ) -> Result<Task, AllocFailed<Replica>>
        requires parts { HaveParts (plan_in topology.now) }
        requires there { has_task replica.id (tasks (plan_in topology.now)) ≡ true }
        requires changelogs { changelogs_of replica
            ≡ changelog_numbers (plan_in topology.now) replica.id.sub }
        requires offsets { map (λ o. o.0) offsets.now
            ≡ input_numbers (plan_in topology.now) replica.id.sub }
        ensures task { IfOk result (λ t. IsTaskOf (draft_of topology.now) t) }
        ensures view { IfOk result (λ t. task_view t
            ≡ restored_view (replica_view replica) (λ topic. offset_in 0 topic offsets.now)) }
        ensures cache { IfOk result (λ t. t.cache ≡ cache) }
        ensures err { IfErr result (λ e. replica_view e.value ≡ replica_view replica) }
        ensures same { IfErr result (λ e. changelogs_of e.value ≡ changelogs_of replica) }
    {
        // What a topology is built of can be written: the machine's law asks for it.
        topology_fits(topology);
        let sub = replica.id().sub;
        let Ok(nodes) = node_topics(alloc, topology.purposes(), sub, topology.nodes()) else {
            return Err(AllocFailed { value: replica });
        };
        let Ok(inputs) = inputs_at(alloc, offsets) else {
            return Err(AllocFailed { value: replica });
        };
        let (id, mut changelogs) = replica.into_parts();
        let Ok(()) = hold_changelogs(alloc, &mut changelogs, cache) else {
            let value = Replica::of_parts(id, changelogs);
            return Err(AllocFailed { value });
        };
        Ok(Task {
            id,
            nodes,
            inputs,
            changelogs,
            order: Vec::new(alloc),
            made: PlacedRecords::new(alloc),
            late: 0,
            cache,
        })
    }

    /// The replica that a clean task is; the task comes back exactly where it isn't clean. Takes no memory.
    pub fn rest(self) -> Result<Replica, Task>
        ensures view { IfOk result (λ r. replica_view r ≡ rested_view (task_view self)) }
        ensures changelogs { (d : DraftView) → IsTaskOf d self → IfOk result (λ r. changelogs_of r
            ≡ changelog_numbers (plan_of d) r.id.sub) }
        ensures clean { IfOk result (λ r. IsClean (task_view self)) }
        ensures back { IfErr result (λ t. t ≡ self) }
        ensures dirty { IfErr result (λ t. IsClean (task_view self) → ⊥) }
    {
        if !self.is_clean() {
            return Err(self);
        }
        let Task { id, changelogs, .. } = self;
        Ok(Replica::of_parts(id, changelogs))
    }

    // Its nodes, with what they compute.
    fn own_nodes<'a>(
        &self,
        alloc: Global,
        topology: &'a Topology,
    ) -> Result<Vec<ProcessorNode<'a>>, AllocError>
        requires { IsTaskOf (draft_of topology.now) self.now }
        ensures { IfOk result (λ v. map node_view v.items
            ≡ nodes_of (plan_in topology.now) self.now.id.sub) }
    {
        processor_nodes(alloc, &self.nodes, topology.topics(), topology.nodes())
    }

    // All that its nodes make of a record of a topic, at the end of what it made before. How many pairs were late.
    fn process<H: Processing>(
        &mut self,
        alloc: Global,
        topology: &Topology,
        nodes: &[ProcessorNode<'_>],
        live: &[u8],
        topic: u16,
        rec: RecordRef<'_>,
    ) -> Result<u64, AllocError>
        requires task { IsTaskOf (draft_of topology.now) self.old }
        requires nodes { map node_view nodes.now ≡ nodes_of (plan_in topology.now) self.old.id.sub }
        requires live { AreLiveAt nodes.now (topic_at (plan_in topology.now) topic) live.now }
        ensures same { OnOk result (self.new ≡ with_made self.new.made self.old) }
        ensures cache { self.new.cache ≡ self.old.cache }
        ensures late { IfOk result (λ n. n
            ≡ capped (late_or_none (nodes_of (plan_in topology.now) self.old.id.sub)
            (stores_in self.old.changelogs.items)
            (arrival_at (plan_in topology.now).kinds (topic_at (plan_in topology.now) topic)
            (record_seen rec.entry)))) }
        ensures records { OnOk result (self.new.made ≡ self.old.made
            ++ made_or_none (rules_of H.hash_of) (nodes_of (plan_in topology.now) self.old.id.sub)
            (stores_in self.old.changelogs.items) self.old.id.part
            (arrival_at (plan_in topology.now).kinds (topic_at (plan_in topology.now) topic)
            (record_seen rec.entry))) }
    {
        let at = PartId {
            topic,
            part: self.id.part,
        };
        let (made, changelogs) = (&mut self.made, self.changelogs.as_slice());
        process_record::<H>(
            alloc,
            made,
            topology.purposes(),
            nodes,
            live,
            changelogs,
            at,
            rec,
        )
    }

    // Takes the next readable record of an input by its nodes.
    fn take_by<H: Processing>(
        &mut self,
        alloc: Global,
        topology: &Topology,
        nodes: &[ProcessorNode<'_>],
        live: &[u8],
        topic: u16,
        offset: u64,
        rec: RecordRef<'_>,
    ) -> Result<(), AllocError>
        requires task { IsTaskOf (draft_of topology.now) self.old }
        requires live { AreLiveAt nodes.now (topic_at (plan_in topology.now) topic) live.now }
        requires nodes { map node_view nodes.now ≡ nodes_of (plan_in topology.now) self.old.id.sub }
        requires input { has_topic topic (input_numbers (plan_in topology.now)
            (task_view self.old).task.sub) ≡ true }
        ensures task { OnOk result (IsTaskOf (draft_of topology.now) self.new) }
        ensures cache { self.new.cache ≡ self.old.cache }
        ensures view { OnOk result (task_view self.new
            ≡ take_view (work_of (rules_of H.hash_of) (plan_in topology.now)) (task_view self.old)
            topic offset (record_seen rec.entry)) }
    {
        let Some(next) = offset.checked_add(1) else {
            return Err(AllocError);
        };
        // Stores and records hold bytes: the machine's law asks for it.
        hold_bytes(&self.changelogs);
        record_is_bytes(rec);
        let before = self.made.len();
        let late = self.process::<H>(alloc, topology, nodes, live, topic, rec)?;
        keep_records(&mut self.changelogs, self.id.part, &self.made, before)?;
        move_input(&mut self.inputs, topic, next);
        take_in_order(&mut self.order, topic)?;
        self.late = self.late.saturating_add(late);
        Ok(())
    }

    // Has its stores written what waits in them. The task is the same, also after want of memory.
    fn write_waiting(&mut self) -> Result<(), AllocError>
        ensures task { (d : DraftView) → IsTaskOf d self.old → IsTaskOf d self.new }
        ensures cache { self.new.cache ≡ self.old.cache }
        ensures view { task_view self.new ≡ task_view self.old }
    {
        apply_changelogs(&mut self.changelogs)
    }

    // Takes the next readable record of an input.
    fn take_one<H: Processing>(
        &mut self,
        alloc: Global,
        topology: &Topology,
        topic: u16,
        offset: u64,
        rec: &Rec,
    ) -> Result<(), AllocError>
        requires task { IsTaskOf (draft_of topology.now) self.old }
        requires input { has_topic topic (input_numbers (plan_in topology.now)
            (task_view self.old).task.sub) ≡ true }
        ensures task { OnOk result (IsTaskOf (draft_of topology.now) self.new) }
        ensures cache { self.new.cache ≡ self.old.cache }
        ensures view { OnOk result (task_view self.new
            ≡ take_view (work_of (rules_of H.hash_of) (plan_in topology.now)) (task_view self.old)
            topic offset rec.now) }
    {
        let nodes = self.own_nodes(alloc, topology)?;
        let nodes = nodes.as_slice();
        let live = live_for(alloc, topology, nodes, topic)?;
        let (live, rec) = (live.as_slice(), rec.as_ref());
        self.take_by::<H>(alloc, topology, nodes, live, topic, offset, rec)
    }

    // Takes these records of an input, with their offsets, one after another.
    fn take_each<H: Processing>(
        &mut self,
        alloc: Global,
        topology: &Topology,
        topic: u16,
        recs: &[(u64, Rec)],
    ) -> Result<(), AllocError>
        requires task { IsTaskOf (draft_of topology.now) self.old }
        requires input { has_topic topic (input_numbers (plan_in topology.now)
            (task_view self.old).task.sub) ≡ true }
        ensures task { OnOk result (IsTaskOf (draft_of topology.now) self.new) }
        ensures cache { self.new.cache ≡ self.old.cache }
        ensures view { OnOk result (task_view self.new
            ≡ take_all (work_of (rules_of H.hash_of) (plan_in topology.now)) (task_view self.old)
            topic recs.now) }
    {
        let nodes = self.own_nodes(alloc, topology)?;
        let nodes = nodes.as_slice();
        let live = live_for(alloc, topology, nodes, topic)?;
        let live = live.as_slice();
        for i in 0..recs.len() {
            let rec = &recs[i];
            self.take_by::<H>(alloc, topology, nodes, live, topic, rec.0, rec.1.as_ref())?;
        }
        Ok(())
    }

    /// Takes the next readable record of an input. After want of memory the task is to be dropped.
    pub fn take<H: Processing>(
        &mut self,
        alloc: Global,
        topology: &Topology,
        topic: u16,
        offset: u64,
        rec: &Rec,
    ) -> Result<(), AllocError>
        requires task { IsTaskOf (draft_of topology.now) self.old }
        requires input { has_topic topic (input_numbers (plan_in topology.now)
            (task_view self.old).task.sub) ≡ true }
        ensures task { OnOk result (IsTaskOf (draft_of topology.now) self.new) }
        ensures cache { self.new.cache ≡ self.old.cache }
        ensures view { OnOk result (task_view self.new
            ≡ take_view (work_of (rules_of H.hash_of) (plan_in topology.now)) (task_view self.old)
            topic offset rec.now) }
    {
        self.write_waiting()?;
        self.take_one::<H>(alloc, topology, topic, offset, rec)
    }

    /// Takes these records of an input, with their offsets, one after another. After want of memory the task is to be dropped.
    pub fn take_all<H: Processing>(
        &mut self,
        alloc: Global,
        topology: &Topology,
        topic: u16,
        recs: &[(u64, Rec)],
    ) -> Result<(), AllocError>
        requires task { IsTaskOf (draft_of topology.now) self.old }
        requires input { has_topic topic (input_numbers (plan_in topology.now)
            (task_view self.old).task.sub) ≡ true }
        ensures task { OnOk result (IsTaskOf (draft_of topology.now) self.new) }
        ensures cache { self.new.cache ≡ self.old.cache }
        ensures view { OnOk result (task_view self.new
            ≡ take_all (work_of (rules_of H.hash_of) (plan_in topology.now)) (task_view self.old)
            topic recs.now) }
    {
        if recs.is_empty() {
            return Ok(());
        }
        self.write_waiting()?;
        self.take_each::<H>(alloc, topology, topic, recs)
    }

    /// Passes over what is not readable of an input, up to `next`. Takes no memory.
    pub fn skip(&mut self, topic: u16, next: u64)
        ensures task { (d : DraftView) → IsTaskOf d self.old → IsTaskOf d self.new }
        ensures cache { self.new.cache ≡ self.old.cache }
        ensures view { (d : DraftView) → IsTaskOf d self.old
            → has_topic topic (input_numbers (plan_of d) (task_view self.old).task.sub) ≡ true
            → task_view self.new ≡ skip_view (task_view self.old) topic next }
    {
        move_input(&mut self.inputs, topic, next);
    }

    /// The work since its last commit: outputs and changelog records by partition, the offsets of its inputs, the order in which it
    /// took their records. `AllocError`: memory ran out; the task is as it was.
    pub fn freeze(&self, alloc: Global) -> Result<Frozen, AllocError>
        ensures { (d : DraftView) (hash : List ℕ → ℕ) → IsTaskOf d self.now
            → IfOk result (λ f. IsFrozen (work_of (rules_of hash) (plan_of d)) (task_view self.now)
            (work_view f)) }
    {
        let outputs = group(alloc, &self.made)?;
        let offsets = offsets_of(alloc, &self.inputs)?;
        let order = Vec::from_slice(alloc, &self.order)?;
        Ok(Frozen {
            task: self.id,
            outputs: Seq::of(outputs),
            offsets: Seq::of(offsets),
            order: Seq::of(order),
            late: self.late,
        })
    }

    /// Its frozen work was committed: its positions are the committed offsets now, and the named ends, where they are those of its
    /// own changelogs, are its positions there. What its stores held back is written. After want of memory the task is to be dropped.
    pub fn committed(&mut self, ends: &[(u16, u64)]) -> Result<(), AllocError>
        ensures task { (d : DraftView) → IsTaskOf d self.old → OnOk result (IsTaskOf d self.new) }
        ensures view { (d : DraftView) → IsTaskOf d self.old → OnOk result (task_view self.new
            ≡ committed_view (task_view self.old)
            (own_ends (changelog_numbers (plan_of d) (task_view self.old).task.sub) ends.now)) }
        ensures cache { self.new.cache ≡ self.old.cache }
    {
        commit_inputs(&mut self.inputs);
        end_changelogs(&mut self.changelogs, ends)?;
        self.order.clear();
        self.made.clear();
        self.late = 0;
        Ok(())
    }

    /// Its subtopology and partition.
    pub fn id(&self) -> TaskId
        ensures { result ≡ (task_view self.now).task }
    {
        self.id
    }

    /// The position in a changelog; 0 in one that is none of the task's. Takes no memory.
    pub fn position(&self, changelog: u16) -> u64
        ensures { result ≡ (task_view self.now).position changelog }
    {
        position_in_changelog(&self.changelogs, changelog)
    }

    /// The bytes at a key of a changelog's store; none where it has no such key, or the changelog is none of the task's. Takes no memory.
    pub fn value(&self, log: u16, key: &[u8]) -> Option<&[u8]>
        ensures { option_map (λ v. v.now) result
            ≡ fin.get ((task_view self.now).stores log) key.now }
    {
        find_bytes(&self.changelogs, log, key)
    }

    /// How many pairs the store of a changelog holds back: as many as stand in the cached list after the changelog's records since the
    /// last commit; 0 where the changelog is none of the task's. Takes no memory.
    pub fn cached(&self, log: u16) -> usize
        ensures list { (d : DraftView) → IsTaskOf d self.now
            → has_topic log (changelog_numbers (plan_of d) self.now.id.sub) ≡ true
            → result ≡ length (cached_after self.now.cache []
            (records_at (part_of log self.now.id) self.now.made)) }
        ensures none { (d : DraftView) → IsTaskOf d self.now
            → has_topic log (changelog_numbers (plan_of d) self.now.id.sub) ≡ false
            → result ≡ 0 }
    {
        cached_of(&self.changelogs, log)
    }

    /// The position in an input; 0 in a topic that is none of the task's. Takes no memory.
    pub fn input_position(&self, topic: u16) -> u64
        ensures { result ≡ (task_view self.now).inputs topic }
    {
        position_of(&self.inputs, topic)
    }

    /// How far it has read past its committed offsets: the sum of position minus committed offset over its inputs, or 2^64 - 1 where
    /// that would be more. Takes no memory.
    pub fn uncommitted(&self) -> u64
        ensures { result ≡ min (uncommitted self.now) (2 ^ 64 - 1) }
    {
        uncommitted_of(&self.inputs)
    }

    /// Whether it took nothing since its last commit, nor passed over anything: each position is its committed offset. Takes no
    /// memory.
    pub fn is_clean(&self) -> bool
        ensures yes { result ≡ true → IsClean (task_view self.now) }
        ensures no { IsClean (task_view self.now) → result ≡ true }
    {
        are_all_committed(&self.inputs)
    }
}
