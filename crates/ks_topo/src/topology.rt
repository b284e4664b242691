//! Topologies that were built of well-formed drafts.
ghost use Rattle.std.specs.Prelude.{◌≡◌, ◌≤◌, ◌<◌, length, map, get_or, [], ◌++◌, IfOk, OnOk, None};
ghost use Rattle.ks_plan.specs.Drafts.{DraftView, draft_view, nodes_view};
ghost use Rattle.ks_plan.specs.Plan.{plan_of, sorted_topics};
ghost use Rattle.ks_hash.specs.Partition.{part_of_key};
ghost use Rattle.ks_expr.specs.Keys.{spread_part};
ghost use Rattle.ks_plan.specs.Layout.{topics_of, tasks as all_tasks};
ghost use Rattle.ks_plan.specs.Places.{spread_to};
ghost use Rattle.ks_topo.specs.Places.{spread_in, HasPlaces};
ghost use Rattle.ks_plan.specs.Infos.{topic_infos as shown_topics, node_places, node_place, built_view, inputs_by_sub, changelogs_by_sub, drain_numbers};
ghost use Rattle.ks_plan.specs.Faults.{fault_of};
ghost use Rattle.ks_topo.specs.Finds.{Finds};
ghost use Rattle.ks_topo_layout.specs.Resolve.{resolved_from};
ghost use Rattle.ks_topo.specs.Built.{IsShapeOf, wired_topic_info};
ghost use Rattle.ks_topo_layout.specs.Wired.{kept, wired_topics, wired_drained, numbers_read, numbers_in, all_tasks as wired_tasks};
ghost use Rattle.ks_topo.specs.Topologies.{draft_of, plan_in, Builds, BuildsOr};

use crate::built::Topology;
use crate::infos::{built_nodes, counts_of, sort_topics, topic_infos};
use crate::judge::{judge_parts, judge_sizes};
use crate::stop::Refusal;
use ks_expr::spread_part;
use ks_hash::partition_of;
use ks_plan::{Draft, Node, Topic, TopicDraft, TopicInfo, TopoFault, Wiring};
use ks_record::{Blob, Name, Seq, TaskId};
use ks_topo_layout::{
    Resolved, Shape, changelog_topics, drained_topics, drained_topics_by_node, numbers_by_sub,
    numbers_of, shape_of, tasks_of,
};
use std::alloc::{AllocError, Global};

fn wirings_of(alloc: Global, known: &[Resolved]) -> Result<Vec<Wiring>, AllocError>
    ensures { IfOk result (λ v. v.items ≡ map (λ r. r.wiring) known.now) }
{
    let mut wirings = Vec::new(alloc);
    for resolved in known {
        wirings.push(resolved.wiring)?;
    }
    Ok(wirings)
}

// The topics by number.
fn all_topics(alloc: Global, flowing: &[Topic], kept: &[Topic]) -> Result<Vec<Topic>, AllocError>
    ensures { IfOk result (λ v. v.items ≡ flowing.now ++ kept.now) }
{
    let mut all = Vec::from_slice(alloc, flowing)?;
    all.extend_from_slice(kept)?;
    Ok(all)
}

// The shape of the plan of a draft whose nodes were resolved.
#[tactic(auto, using(crate::proofs::Shaping::few_wirings))]
fn draft_shape(
    alloc: Global,
    draft: &Draft,
    counts: Vec<u8>,
    known: &[Resolved],
) -> Result<Shape, AllocError>
    requires counts { counts.items ≡ (plan_of (draft_view draft.now)).counts }
    requires known { known.now ≡ resolved_from draft.now.topics (nodes_view draft.now.nodes) }
    requires nodes { length draft.now.nodes ≤ 64 }
    ensures shape { IfOk result (λ s. IsShapeOf s (plan_of (draft_view draft.now))) }
    ensures topics { IfOk result (λ s. length s.counts.items ≡ length counts.items) }
    ensures nodes { IfOk result (λ s. length s.wirings.items ≤ 64) }
{
    let wirings = wirings_of(alloc, known)?;
    shape_of(alloc, counts, wirings)
}

// What a topology shows besides its nodes.
#[derive(Drop)]
struct Shown {
    infos: Vec<TopicInfo>,
    all: Vec<Topic>,
    tasks: Vec<TaskId>,
    inputs: Vec<Seq<u16>>,
    changelogs: Vec<Seq<u16>>,
    drained: Vec<u16>,
}

// The topics of a plan: those that may be drained, the changelogs, and all by number.
#[derive(Drop)]
struct Topics {
    drained: Vec<Topic>,
    kept: Vec<Topic>,
    all: Vec<Topic>,
}

fn gather_topics(alloc: Global, shape: &Shape) -> Result<Topics, AllocError>
    requires nodes { length shape.now.wirings.items ≤ 64 }
    requires topics { length shape.now.counts.items ≤ 64 }
    ensures kept { IfOk result (λ t. t.kept.items ≡ kept shape.now.wirings.items) }
    ensures all { IfOk result (λ t. t.all.items ≡ wired_topics shape.now) }
    ensures drained { IfOk result (λ t. t.drained.items ≡ wired_drained shape.now) }
{
    let flowing = drained_topics_by_node(alloc, shape.counts.len() as u16, &shape.wirings)?;
    let kept = changelog_topics(alloc, &shape.wirings)?;
    let all = all_topics(alloc, &flowing, &kept)?;
    let drained = drained_topics(alloc, shape, &flowing)?;
    Ok(Topics { drained, kept, all })
}

fn plan_topics(alloc: Global, shape: &Shape) -> Result<Topics, AllocError>
    requires nodes { length shape.now.wirings.items ≤ 64 }
    requires topics { length shape.now.counts.items ≤ 64 }
    ensures kept { IfOk result (λ t. t.kept.items ≡ kept shape.now.wirings.items) }
    ensures all { IfOk result (λ t. t.all.items ≡ wired_topics shape.now) }
    ensures drained { IfOk result (λ t. t.drained.items ≡ wired_drained shape.now) }
    ensures few { IfOk result (λ t. length t.all.items ≤ 400) }
{
    let topics = gather_topics(alloc, shape)?;
    Ok(topics)
}

fn show(
    alloc: Global,
    draft: &Draft,
    sorted: &[(Name, TopicDraft)],
    shape: &Shape,
) -> Result<Shown, AllocError>
    requires sorted { sorted.now ≡ sorted_topics (draft_view draft.now) }
    requires nodes { length shape.now.wirings.items ≤ 64 }
    requires topics { length shape.now.counts.items ≤ 64 }
    ensures infos { IfOk result (λ x. x.infos.items
        ≡ map (wired_topic_info (draft_view draft.now) shape.now) (wired_topics shape.now)) }
    ensures all { IfOk result (λ x. x.all.items ≡ wired_topics shape.now) }
    ensures few { IfOk result (λ x. length x.all.items ≤ 400) }
    ensures tasks { IfOk result (λ x. x.tasks.items ≡ wired_tasks shape.now) }
    ensures inputs { IfOk result (λ x. x.inputs.items
        ≡ numbers_read shape.now (wired_topics shape.now) (wired_drained shape.now)) }
    ensures changelogs { IfOk result (λ x. x.changelogs.items
        ≡ numbers_read shape.now (wired_topics shape.now) (kept shape.now.wirings.items)) }
    ensures drained { IfOk result (λ x. x.drained.items
        ≡ numbers_in (wired_topics shape.now) (wired_drained shape.now)) }
{
    let topics = plan_topics(alloc, shape)?;
    let infos = topic_infos(alloc, draft, sorted, shape, &topics.all)?;
    let inputs = numbers_by_sub(alloc, shape, &topics.all, &topics.drained)?;
    let changelogs = numbers_by_sub(alloc, shape, &topics.all, &topics.kept)?;
    let drained = numbers_of(alloc, &topics.all, &topics.drained)?;
    let tasks = tasks_of(alloc, shape)?;
    Ok(Shown {
        infos,
        all: topics.all,
        tasks,
        inputs,
        changelogs,
        drained,
    })
}

// The topology of a draft without a fault.
fn lay_out(
    alloc: Global,
    draft: Draft,
    sorted: &[(Name, TopicDraft)],
    shape: &Shape,
) -> Result<Topology, AllocError>
    requires fine { fault_of (draft_view draft) ≡ None }
    requires sorted { sorted.now ≡ sorted_topics (draft_view draft) }
    requires shape { IsShapeOf shape.now (plan_of (draft_view draft)) }
    requires topics { length shape.now.counts.items ≤ 64 }
    requires nodes { length shape.now.wirings.items ≤ 64 }
    requires drafts { length draft.nodes ≤ 64 }
    ensures { IfOk result (λ t. draft_of t ≡ draft_view draft) }
{
    let Ok(shown) = show(alloc, &draft, sorted, shape) else {
        drop(draft);
        return Err(AllocError);
    };
    let nodes = built_nodes(alloc, shape, &shown.all, draft.nodes.into_vec())?;
    Ok(Topology {
        app: draft.app,
        counts: draft.topics,
        print: draft.print,
        nodes,
        topics: shown.infos,
        purposes: shown.all,
        tasks: shown.tasks,
        inputs: shown.inputs,
        changelogs: shown.changelogs,
        drained: shown.drained,
        seed: 0,
    })
}

fn number_lists(lists: &[Seq<u16>], sub: u8) -> &[u16]
    ensures { result.now ≡ get_or lists.now sub [] }
{
    match lists.get(sub as usize) {
        Some(numbers) => numbers.as_slice(),
        None => &[],
    }
}

// What is laid out beside a draft without a fault: its topics in order of their names, and the shape of its plan.
#[derive(Drop)]
struct Judged {
    sorted: Vec<(Name, TopicDraft)>,
    shape: Shape,
}

fn judge_shape(alloc: Global, draft: &Draft) -> Result<Judged, Refusal>
    ensures found { Finds result (fault_of (draft_view draft.now)) }
    ensures sorted { IfOk result (λ j. j.sorted.items ≡ sorted_topics (draft_view draft.now)) }
    ensures shape { IfOk result (λ j. IsShapeOf j.shape (plan_of (draft_view draft.now))) }
    ensures topics { IfOk result (λ j. length j.shape.counts.items ≤ 64) }
    ensures nodes { IfOk result (λ j. length j.shape.wirings.items ≤ 64) }
    ensures drafts { OnOk result (length draft.now.nodes ≤ 64) }
{
    judge_sizes(alloc, draft)?;
    let sorted = sort_topics(alloc, draft.topics.as_slice())?;
    let counts = counts_of(alloc, &sorted)?;
    let known = judge_parts(alloc, draft, &sorted, &counts)?;
    let shape = draft_shape(alloc, draft, counts, &known)?;
    Ok(Judged { sorted, shape })
}

fn judge_and_build(alloc: Global, draft: Draft) -> Result<Topology, Refusal>
    ensures { BuildsOr (draft_view draft) result }
{
    match judge_shape(alloc, &draft) {
        Ok(judged) => Ok(lay_out(alloc, draft, &judged.sorted, &judged.shape)?),
        Err(refusal) => {
            drop(draft);
            Err(refusal)
        }
    }
}

fn judge_draft(alloc: Global, draft: &Draft) -> Result<(), Refusal>
    ensures { Finds result (fault_of (draft_view draft.now)) }
{
    judge_sizes(alloc, draft)?;
    let sorted = sort_topics(alloc, draft.topics.as_slice())?;
    let counts = counts_of(alloc, &sorted)?;
    judge_parts(alloc, draft, &sorted, &counts)?;
    Ok(())
}

/// The first fault of a draft; none exactly where it is well formed. Want of memory is the one error.
pub fn first_fault(alloc: Global, draft: &Draft) -> Result<Option<TopoFault>, AllocError>
    ensures { IfOk result (λ o. o ≡ fault_of (draft_view draft.now)) }
{
    match judge_draft(alloc, draft) {
        Ok(()) => Ok(None),
        Err(Refusal::Memory) => Err(AllocError),
        Err(Refusal::Fault(fault)) => Ok(Some(fault)),
    }
}

// The place of a key in a topic of 1 to 64 partitions.
fn place_in(info: &TopicInfo, key: &[u8]) -> u8
    requires low { 1 ≤ info.now.parts }
    requires high { info.now.parts ≤ 64 }
    ensures place { result ≡ part_of_key (spread_part info.now.before key.now) info.now.parts }
    ensures below { result < info.now.parts }
{
    partition_of(spread_part(info.before.as_ref(), key), info.parts)
}

impl Topology {
    /// The topology of a draft, exactly where the draft is well formed; else its first fault. Want of memory is the one
    /// outer error.
    pub fn build(alloc: Global, draft: Draft) -> Result<Result<Topology, TopoFault>, AllocError>
        ensures { IfOk result (λ r. Builds (draft_view draft) r) }
    {
        match judge_and_build(alloc, draft) {
            Ok(topology) => Ok(Ok(topology)),
            Err(Refusal::Memory) => Err(AllocError),
            Err(Refusal::Fault(fault)) => Ok(Err(fault)),
        }
    }

    /// From now on its tasks' stores begin the hashes of keys with this seed; with 0 before. Keys can be searched for that have one hash by
    /// a seed that is known, so a run draws one. Takes no memory.
    pub fn set_seed(&mut self, seed: u64)
        ensures draft { draft_of self.new ≡ draft_of self.old }
        ensures seed { self.new.seed ≡ seed }
    {
        self.seed = seed;
    }

    /// What its tasks' stores begin the hashes of keys with. Takes no memory.
    pub fn seed(&self) -> u64
        ensures { result ≡ self.now.seed }
    {
        self.seed
    }

    /// The topics, by number.
    pub fn topics(&self) -> &[TopicInfo]
        ensures { result.now ≡ shown_topics (draft_of self.now) }
    {
        self.topics.as_slice()
    }

    /// The place of a key in a topic of 1 to 64 partitions, by number: the partition of its front part where the topic's keys are spread
    /// by that, else of the whole key (Kafka's `DefaultPartitioner`). Of a topic of responses and of a changelog it is that of the
    /// node's key. Takes no memory.
    pub fn place(&self, topic: u16, key: &[u8]) -> u8
        requires { HasPlaces (plan_in self.now) topic }
        ensures place { result ≡ spread_to key.now (spread_in (plan_in self.now) topic) }
        ensures below { result < (spread_in (plan_in self.now) topic).parts }
    {
        let infos = self.topics();
        place_in(&infos[topic as usize], key)
    }

    /// What each topic is for, by number.
    pub fn purposes(&self) -> &[Topic]
        ensures { result.now ≡ topics_of (plan_in self.now) }
    {
        self.purposes.as_slice()
    }

    /// The tasks, by subtopology, then by partition.
    pub fn tasks(&self) -> &[TaskId]
        ensures { result.now ≡ all_tasks (plan_in self.now) }
    {
        self.tasks.as_slice()
    }

    /// The numbers of the topics that a subtopology reads, rising; none where there is no such subtopology.
    pub fn inputs(&self, sub: u8) -> &[u16]
        ensures { result.now ≡ get_or (inputs_by_sub (plan_in self.now)) sub [] }
    {
        number_lists(&self.inputs, sub)
    }

    /// The numbers of the changelogs that a subtopology writes, rising; none where there is no such subtopology.
    pub fn changelogs(&self, sub: u8) -> &[u16]
        ensures { result.now ≡ get_or (changelogs_by_sub (plan_in self.now)) sub [] }
    {
        number_lists(&self.changelogs, sub)
    }

    /// The numbers of the topics in the order in which they are drained.
    pub fn drain_order(&self) -> &[u16]
        ensures { result.now ≡ drain_numbers (plan_in self.now) }
    {
        self.drained.as_slice()
    }

    /// The nodes, in the order of the draft.
    pub fn nodes(&self) -> &[Node]
        ensures places { map node_place result.now ≡ node_places (draft_of self.now) }
        ensures drafts { map built_view result.now ≡ (draft_of self.now).nodes }
        ensures well_formed { fault_of (draft_of self.now) ≡ None }
    {
        self.nodes.as_slice()
    }

    /// The draft's printed names.
    pub fn print(&self) -> &[Blob]
        ensures { result.now ≡ (draft_of self.now).print }
    {
        self.print.as_slice()
    }
}
