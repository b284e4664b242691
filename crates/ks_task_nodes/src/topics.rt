//! The topics that a node writes and reads, by number.
ghost use Rattle.std.specs.Prelude.{◌≡◌, ◌≤◌, IfOk, length};
ghost use Rattle.ks_plan.specs.Layout.{place_of, same_topic, wired_right};
ghost use Rattle.ks_task_nodes.specs.Nodes.{topics_at, topics_in, sub_in, parts_in};

use ks_plan::{Node, Topic, Wiring};
use std::alloc::{AllocError, Global};

/// A node's number, its topics by number, and how many partitions its records are spread over.
#[derive(Clone, Copy)]
pub struct NodeTopics {
    pub number: u8,
    /// The changelog of its store.
    pub changelog: u16,
    /// Whether it lies in the task's subtopology.
    pub is_own: bool,
    /// Its repartition topic, where it has one.
    pub repartition: u16,
    /// The partitions of the node, of its changelog and its repartition topic.
    pub partitions: u8,
    /// Of a join on a foreign key, the changelog of its subscription store.
    pub hash_changelog: u16,
    /// Of a join on a foreign key, the topic of subscriptions.
    pub subscriptions: u16,
    /// Of a join on a foreign key, the topic of responses.
    pub responses: u16,
    /// Whether its right side, with the subscription store, lies in the task's subtopology.
    pub has_right: bool,
    /// The partitions of its right side.
    pub right_partitions: u8,
}

/// Whether two topics are one.
pub fn is_same_topic(a: Topic, b: Topic) -> bool
    ensures { result ≡ same_topic a b }
{
    match (a, b) {
        (Topic::Input(x), Topic::Input(y)) => x == y,
        (Topic::Repartition(x), Topic::Repartition(y)) => x == y,
        (Topic::Subscriptions(x), Topic::Subscriptions(y)) => x == y,
        (Topic::Responses(x), Topic::Responses(y)) => x == y,
        (Topic::Changelog(x), Topic::Changelog(y)) => x == y,
        (Topic::HashChangelog(x), Topic::HashChangelog(y)) => x == y,
        _ => false,
    }
}

// The place of a topic among all; past the end where it is none of them.
fn topic_place(all: &[Topic], topic: Topic) -> usize
    ensures place { result ≡ place_of all.now topic }
    ensures within { result ≤ length all.now }
{
    let mut place = 0;
    let mut rest = all;
    while let [first, more @ ..] = rest {
        if is_same_topic(*first, topic) {
            return place;
        }
        rest = more;
        place += 1;
    }
    place
}

// The right side of a join on a foreign key; 0 of any other node.
fn right_side(wiring: Wiring) -> u8
    ensures { result ≡ wired_right wiring }
{
    match wiring {
        Wiring::ForeignKeyJoin { right, .. } => right,
        _ => 0,
    }
}

// The subtopology of a node by number; 0 where there is no such node.
fn sub_at(nodes: &[Node], number: u8) -> u8
    ensures { result ≡ sub_in nodes.now number }
{
    match nodes.get(number as usize) {
        Some(node) => node.sub,
        None => 0,
    }
}

// The partitions of a node by number; 0 where there is no such node.
fn parts_at(nodes: &[Node], number: u8) -> u8
    ensures { result ≡ parts_in nodes.now number }
{
    match nodes.get(number as usize) {
        Some(node) => node.parts,
        None => 0,
    }
}

fn topics_for(topics: &[Topic], all: &[Node], sub: u8, number: u8, node: &Node) -> NodeTopics
    requires { length topics.now ≤ 1000 }
    ensures { result ≡ topics_at topics.now all.now sub number node.now }
{
    let right = right_side(node.wiring);
    NodeTopics {
        number,
        changelog: topic_place(topics, Topic::Changelog(number)) as u16,
        is_own: node.sub == sub,
        repartition: topic_place(topics, Topic::Repartition(number)) as u16,
        partitions: node.parts,
        hash_changelog: topic_place(topics, Topic::HashChangelog(number)) as u16,
        subscriptions: topic_place(topics, Topic::Subscriptions(number)) as u16,
        responses: topic_place(topics, Topic::Responses(number)) as u16,
        has_right: sub_at(all, right) == sub,
        right_partitions: parts_at(all, right),
    }
}

/// The topics of each of a topology's nodes, for the tasks of a subtopology. Want of memory is the one error.
pub fn node_topics(
    alloc: Global,
    topics: &[Topic],
    sub: u8,
    nodes: &[Node],
) -> Result<Vec<NodeTopics>, AllocError>
    requires topics { length topics.now ≤ 1000 }
    requires nodes { length nodes.now ≤ 64 }
    ensures { IfOk result (λ v. v.items ≡ topics_in topics.now nodes.now sub 0 nodes.now) }
{
    let mut found = Vec::new(alloc);
    let mut number = 0;
    let mut rest = nodes;
    while let [node, more @ ..] = rest {
        found.push(topics_for(topics, nodes, sub, number, node))?;
        rest = more;
        number += 1;
    }
    Ok(found)
}
