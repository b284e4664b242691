//! The topics of a topology: their order, numbers, partitions and readers; and the tasks.
ghost use Rattle.std.specs.Prelude.{◌≡◌, ◌≤◌, ◌<◌, ◌+◌, ◌*◌, ◌++◌, suc, length, map, IfOk, OnOk};
ghost use Rattle.ks_plan.specs.declared.node.Topic.TheVariants.{Input};
ghost use Rattle.ks_plan.specs.Layout.{same_topic, by_node, wired_through, wired_changelogs, wired_reads, wired_right, place_of, first_in, up_to};
ghost use Rattle.ks_topo_layout.specs.Wired.{topic_origin, flowing, kept, any_wired, first_wired, right_in, topic_parts, topic_reader, subs_in, flows, read_in, subs_of, tasks_to, all_tasks, numbers_in, numbers_read, sub_at};
ghost use Rattle.std.specs.List.{filter};

use crate::internal::{push_changelogs, push_through};
use crate::layout::{count_firsts, number_at, origin_at, sub_of};
use crate::shape::Shape;
use ks_plan::{Topic, Wiring};
use ks_record::{Seq, TaskId};
use std::alloc::{AllocError, Global};

fn input_topics(alloc: Global, count: u16) -> Result<Vec<Topic>, AllocError>
    ensures { IfOk result (λ v. v.items ≡ map Input (up_to count)) }
{
    let mut topics = Vec::new(alloc);
    for topic in 0..count {
        topics.push(Topic::Input(topic))?;
    }
    Ok(topics)
}

/// The topics that are drained where somebody reads them: inputs, then those between nodes.
/// At most 64 nodes; an error only where memory runs out.
pub fn drained_topics_by_node(
    alloc: Global,
    count: u16,
    wirings: &[Wiring],
) -> Result<Vec<Topic>, AllocError>
    requires { length wirings.now ≤ 64 }
    ensures { IfOk result (λ v. v.items ≡ flowing count wirings.now) }
{
    let mut topics = input_topics(alloc, count)?;
    let mut node: u8 = 0;
    for wiring in wirings {
        push_through(&mut topics, node, *wiring)?;
        node += 1;
    }
    Ok(topics)
}

/// The changelogs, by node, of at most 64 nodes. An error only where memory runs out.
pub fn changelog_topics(alloc: Global, wirings: &[Wiring]) -> Result<Vec<Topic>, AllocError>
    requires { length wirings.now ≤ 64 }
    ensures { IfOk result (λ v. v.items ≡ kept wirings.now) }
{
    let mut topics = Vec::new(alloc);
    let mut node: u8 = 0;
    for wiring in wirings {
        push_changelogs(&mut topics, node, *wiring)?;
        node += 1;
    }
    Ok(topics)
}

fn is_same(a: Topic, b: Topic) -> bool
    ensures { result ≡ same_topic a b }
{
    match (a, b) {
        (Topic::Input(m), Topic::Input(n)) => m == n,
        (Topic::Repartition(m), Topic::Repartition(n)) => m == n,
        (Topic::Subscriptions(m), Topic::Subscriptions(n)) => m == n,
        (Topic::Responses(m), Topic::Responses(n)) => m == n,
        (Topic::Changelog(m), Topic::Changelog(n)) => m == n,
        (Topic::HashChangelog(m), Topic::HashChangelog(n)) => m == n,
        _ => false,
    }
}

/// A topic's number: its place among all, which are at most 400; their number where it is none of them.
pub fn number_of(all: &[Topic], topic: Topic) -> u16
    requires { length all.now ≤ 400 }
    ensures { result ≡ place_of all.now topic }
{
    let mut number: u16 = 0;
    for own in all {
        if is_same(*own, topic) {
            return number;
        }
        number += 1;
    }
    number
}

fn is_source(wiring: Wiring, topic: u16) -> bool
    ensures { result ≡ wired_reads topic wiring }
{
    match wiring {
        Wiring::StreamSource { topic: own } | Wiring::TableSource { topic: own } => own == topic,
        _ => false,
    }
}

fn is_read(wirings: &[Wiring], topic: u16) -> bool
    ensures { result ≡ any_wired topic wirings.now }
{
    for wiring in wirings {
        if is_source(*wiring, topic) {
            return true;
        }
    }
    false
}

fn first_source(wirings: &[Wiring], topic: u16) -> usize
    ensures { result ≡ first_wired topic 0 wirings.now }
{
    let mut node = 0;
    for wiring in wirings {
        if is_source(*wiring, topic) {
            return node;
        }
        node += 1;
    }
    node
}

// The right side of a foreign-key join.
fn right_of(wirings: &[Wiring], node: u8) -> usize
    ensures { result ≡ right_in wirings.now node }
{
    match wirings.get(node as usize) {
        Some(Wiring::ForeignKeyJoin { right, .. }) => *right as usize,
        _ => 0,
    }
}

/// A topic's partition count; 0 where the shape has no such input topic or node.
pub fn parts_of_topic(shape: &Shape, topic: Topic) -> u8
    ensures { result ≡ topic_parts shape.now topic }
{
    match topic {
        Topic::Input(number) => number_at(&shape.counts, number as usize),
        Topic::Repartition(node) | Topic::Responses(node) | Topic::Changelog(node) => number_at(
            &shape.parts,
            node as usize,
        ),
        Topic::Subscriptions(node) | Topic::HashChangelog(node) => number_at(
            &shape.parts,
            right_of(&shape.wirings, node),
        ),
    }
}

/// The input topic as whose keys a topic's are spread; none where they are spread as a whole.
pub fn origin_of_topic(shape: &Shape, topic: Topic) -> Option<u16>
    ensures { result ≡ topic_origin shape.now topic }
{
    match topic {
        Topic::Input(number) => Some(number),
        Topic::Repartition(node) | Topic::Responses(node) | Topic::Changelog(node) => origin_at(
            &shape.origins,
            node as usize,
        ),
        Topic::Subscriptions(node) | Topic::HashChangelog(node) => origin_at(
            &shape.origins,
            right_of(&shape.wirings, node),
        ),
    }
}

// How many subtopologies there are.
fn count_subs(shape: &Shape) -> u8
    requires { length shape.now.wirings.items ≤ 64 }
    ensures { result ≡ subs_in shape.now }
{
    count_firsts(&shape.labels, shape.wirings.len() as u8)
}

// The subtopology that reads a topic or writes a changelog; one beyond all for a topic that nobody reads.
fn reader_of(shape: &Shape, topic: Topic) -> u8
    requires { length shape.now.wirings.items ≤ 64 }
    ensures { result ≡ topic_reader shape.now topic }
{
    match topic {
        Topic::Input(number) => {
            if is_read(&shape.wirings, number) {
                sub_of(shape, first_source(&shape.wirings, number))
            } else {
                count_subs(shape)
            }
        }
        Topic::Repartition(node) | Topic::Responses(node) | Topic::Changelog(node) => sub_of(
            shape,
            node as usize,
        ),
        Topic::Subscriptions(node) | Topic::HashChangelog(node) => sub_of(
            shape,
            right_of(&shape.wirings, node),
        ),
    }
}

fn is_drained(shape: &Shape, topic: Topic) -> bool
    ensures { result ≡ flows shape.now topic }
{
    match topic {
        Topic::Input(number) => is_read(&shape.wirings, number),
        _ => true,
    }
}

/// These topics without the inputs that no node reads, in their order. An error only where memory runs out.
pub fn drained_topics(
    alloc: Global,
    shape: &Shape,
    topics: &[Topic],
) -> Result<Vec<Topic>, AllocError>
    ensures { IfOk result (λ v. v.items ≡ filter (flows shape.now) topics.now) }
{
    let mut drained = Vec::new(alloc);
    for topic in topics {
        if is_drained(shape, *topic) {
            drained.push(*topic)?;
        }
    }
    Ok(drained)
}

fn topics_read(
    alloc: Global,
    shape: &Shape,
    sub: u8,
    topics: &[Topic],
) -> Result<Vec<Topic>, AllocError>
    requires { length shape.now.wirings.items ≤ 64 }
    ensures { IfOk result (λ v. v.items ≡ read_in shape.now sub topics.now) }
{
    let mut read = Vec::new(alloc);
    for topic in topics {
        if reader_of(shape, *topic) == sub {
            read.push(*topic)?;
        }
    }
    Ok(read)
}

/// The numbers of some of the topics among all, which are at most 400. An error only where memory runs out.
pub fn numbers_of(alloc: Global, all: &[Topic], topics: &[Topic]) -> Result<Vec<u16>, AllocError>
    requires { length all.now ≤ 400 }
    ensures { IfOk result (λ v. v.items ≡ numbers_in all.now topics.now) }
{
    let mut numbers = Vec::new(alloc);
    for topic in topics {
        numbers.push(number_of(all, *topic))?;
    }
    Ok(numbers)
}

/// Of each subtopology the numbers of those of the topics that it reads, or writes as changelogs.
/// At most 64 nodes and 400 topics; an error only where memory runs out.
pub fn numbers_by_sub(
    alloc: Global,
    shape: &Shape,
    all: &[Topic],
    topics: &[Topic],
) -> Result<Vec<Seq<u16>>, AllocError>
    requires nodes { length shape.now.wirings.items ≤ 64 }
    requires topics { length all.now ≤ 400 }
    ensures { IfOk result (λ v. v.items ≡ numbers_read shape.now all.now topics.now) }
{
    let mut by_sub = Vec::new(alloc);
    for sub in 0..count_subs(shape) {
        let read = topics_read(alloc, shape, sub, topics)?;
        by_sub.push(Seq::of(numbers_of(alloc, all, &read)?))?;
    }
    Ok(by_sub)
}

// The subtopologies of the nodes.
fn node_subs(alloc: Global, shape: &Shape) -> Result<Vec<u8>, AllocError>
    ensures { IfOk result (λ v. v.items ≡ subs_of shape.now) }
{
    let mut subs = Vec::new(alloc);
    for node in 0..shape.wirings.len() {
        subs.push(sub_of(shape, node))?;
    }
    Ok(subs)
}

// The first node of a subtopology.
fn first_node(subs: &[u8], sub: u8) -> usize
    ensures { result ≡ first_in sub subs.now }
{
    let mut node = 0;
    for own in subs {
        if *own == sub {
            return node;
        }
        node += 1;
    }
    node
}

fn push_tasks(tasks: &mut Vec<TaskId>, sub: u8, parts: u8) -> Result<(), AllocError>
    ensures { OnOk result (tasks.new.items ≡ tasks.old.items ++ tasks_to sub parts) }
{
    for part in 0..parts {
        tasks.push(TaskId { sub, part })?;
    }
    Ok(())
}

/// The tasks, by subtopology, then by partition, of at most 64 nodes. An error only where memory runs out.
#[tactic(auto, using(crate::proofs::Tasks::one_more_sub))]
pub fn tasks_of(alloc: Global, shape: &Shape) -> Result<Vec<TaskId>, AllocError>
    requires { length shape.now.wirings.items ≤ 64 }
    ensures { IfOk result (λ v. v.items ≡ all_tasks shape.now) }
{
    let subs = node_subs(alloc, shape)?;
    let mut tasks = Vec::new(alloc);
    for sub in 0..count_subs(shape) {
        let parts = number_at(&shape.parts, first_node(&subs, sub));
        push_tasks(&mut tasks, sub, parts)?;
    }
    Ok(tasks)
}
