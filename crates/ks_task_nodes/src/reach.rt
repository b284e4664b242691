//! The nodes that the records of a topic can reach: which a step goes through, and no other.
ghost use Rattle.std.specs.Prelude.{◌≡◌, [], IfOk, OnOk, map};
ghost use Rattle.ks_task_nodes.specs.Nodes.{kind_of, node_view};
ghost use Rattle.ks_task_nodes.specs.Reach.{is_named, is_among, is_fed, is_reached_by, is_reached, with_reached, live_in, OutOfReachStays};

use crate::processor::{Processor, ProcessorNode};
use crate::topics::is_same_topic;
use ks_plan::Topic;
use std::alloc::{AllocError, Global};

// Whether a number is one of these.
fn is_among(live: &[u8], number: u8) -> bool
    ensures { result ≡ is_among number live.now }
{
    let mut rest = live;
    while let [first, more @ ..] = rest {
        if number == *first {
            return true;
        }
        rest = more;
    }
    false
}

// Whether a topic is one between the parts of a node.
fn is_named(topic: Topic, number: u8) -> bool
    ensures { result ≡ is_named topic number }
{
    match topic {
        Topic::Repartition(node) => node == number,
        Topic::Subscriptions(node) => node == number,
        Topic::Responses(node) => node == number,
        _ => false,
    }
}

// Whether a node that this one reads is among these, or doesn't stand before it.
fn is_fed(number: u8, from: u8, live: &[u8]) -> bool
    ensures { result ≡ is_fed number from live.now }
{
    is_among(live, from) || number <= from
}

// Whether a node acts on a topic's records by a node that it reads, or by its input topic.
fn is_reached_by(number: u8, processor: &Processor<'_>, topic: Topic, live: &[u8]) -> bool
    ensures { result ≡ is_reached_by number (kind_of processor.now) topic live.now }
{
    match processor {
        Processor::StreamSource { topic: own } => is_same_topic(topic, Topic::Input(*own)),
        Processor::TableSource { topic: own } => is_same_topic(topic, Topic::Input(*own)),
        Processor::StreamFilter { from, .. } => is_fed(number, *from, live),
        Processor::TableFilter { from, .. } => is_fed(number, *from, live),
        Processor::StreamMap { from, .. } => is_fed(number, *from, live),
        Processor::TableMap { from, .. } => is_fed(number, *from, live),
        Processor::SelectKey { from, .. } => is_fed(number, *from, live),
        Processor::StreamAggregate { from, .. } => is_fed(number, *from, live),
        Processor::TableAggregate { from, .. } => is_fed(number, *from, live),
        Processor::WindowedCount { from, .. } => is_fed(number, *from, live),
        Processor::KeyJoin(join) => {
            is_fed(number, join.left, live) || is_fed(number, join.right, live)
        }
        Processor::ForeignKeyJoin(join) => {
            is_fed(number, join.left, live) || is_fed(number, join.right, live)
        }
    }
}

fn is_reached(topic: Topic, number: u8, processor: &Processor<'_>, live: &[u8]) -> bool
    ensures { result ≡ is_reached topic number (kind_of processor.now) live.now }
{
    is_named(topic, number) || is_reached_by(number, processor, topic, live)
}

// One more number, where it is reached.
fn push_number(live: &mut Vec<u8>, reached: bool, number: u8) -> Result<(), AllocError>
    ensures { OnOk result (live.new.items ≡ with_reached reached live.old.items number) }
{
    if reached {
        live.push(number)?;
    }
    Ok(())
}

/// The numbers of the nodes that a record of this topic can reach, in order: the step passes no item of any other node on, leaves its
/// value, sends nothing of it and tells its changelogs nothing (`nodes_out_of_reach_stay`). A node that reads one which doesn't stand
/// before it counts as reached. Want of memory is the one error.
pub fn live_nodes(
    alloc: Global,
    nodes: &[ProcessorNode<'_>],
    topic: Topic,
) -> Result<Vec<u8>, AllocError>
    ensures { IfOk result (λ v. v.items ≡ live_in topic [] (map node_view nodes.now)) }
{
    let mut live = Vec::with_capacity(alloc, nodes.len())?;
    let mut rest = nodes;
    while let [node, more @ ..] = rest {
        let number = node.topics.number;
        let reached = is_reached(topic, number, &node.processor, live.as_slice());
        push_number(&mut live, reached, number)?;
        rest = more;
    }
    Ok(live)
}

/// Of a node that a record can't reach, where each stands at its number, a step passes no item on, leaves the value, sends nothing and
/// tells the changelogs nothing; a law alone.
pub fn nodes_out_of_reach_stay()
    ensures { OutOfReachStays }
{}
