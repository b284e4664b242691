//! Names among topics and nodes.
ghost use Rattle.std.specs.Prelude.{◌≡◌, ◌≤◌, length, map};
ghost use Rattle.std.specs.Ordering.{nat_cmp, is_lt};
ghost use Rattle.std.specs.Cmp.Lexicographic.{slice_cmp};
ghost use Rattle.ks_plan.specs.Drafts.{nodes_view};
ghost use Rattle.ks_plan.specs.Plan.{name_place, topic_number as number_by_name};
ghost use Rattle.ks_plan.specs.Faults.{has_name, names_of, sources_of, names_of_topics};

use ks_plan::{NodeDraft, Op, TopicDraft};
use ks_record::{Blob, Name, equal_bytes};

/// Whether the first name stands before the second, byte by byte; of two names of which one begins the other, the shorter first.
pub fn is_before(a: &[u8], b: &[u8]) -> bool
    ensures { result ≡ is_lt (slice_cmp nat_cmp a.now b.now) }
{
    a.cmp(b).is_lt()
}

/// Whether one of the topics has this name.
pub fn is_topic(topics: &[(Name, TopicDraft)], name: &[u8]) -> bool
    ensures { result ≡ has_name (names_of_topics topics.now) name.now }
{
    for (topic, _) in topics {
        if equal_bytes(topic.as_str().as_bytes(), name) {
            return true;
        }
    }
    false
}

/// Whether one of the nodes has this name.
pub fn is_node(nodes: &[NodeDraft], name: &[u8]) -> bool
    ensures { result ≡ has_name (names_of (nodes_view nodes.now)) name.now }
{
    for node in nodes {
        if equal_bytes(node.name.as_str().as_bytes(), name) {
            return true;
        }
    }
    false
}

/// Whether the name is one of these.
pub fn is_listed(names: &[Blob], name: &[u8]) -> bool
    ensures { result ≡ has_name names.now name.now }
{
    for own in names {
        if equal_bytes(own.as_slice(), name) {
            return true;
        }
    }
    false
}

/// Whether one of the nodes is a source of the topic.
pub fn is_source(nodes: &[NodeDraft], topic: &[u8]) -> bool
    ensures { result ≡ has_name (sources_of (nodes_view nodes.now)) topic.now }
{
    for node in nodes {
        match &node.op {
            Op::Stream { topic: own } | Op::Table { topic: own } => {
                if equal_bytes(own.as_slice(), topic) {
                    return true;
                }
            }
            _ => {}
        }
    }
    false
}

/// The number of the first node of this name; their number where none has it.
pub fn find_node(nodes: &[NodeDraft], name: &[u8]) -> usize
    ensures place { result ≡ name_place (names_of (nodes_view nodes.now)) name.now }
    ensures within { result ≤ length nodes.now }
{
    let mut place = 0;
    for node in nodes {
        if equal_bytes(node.name.as_str().as_bytes(), name) {
            return place;
        }
        place += 1;
    }
    place
}

/// How many topics have a name below this one.
pub fn topic_number(topics: &[(Name, TopicDraft)], name: &[u8]) -> usize
    ensures number { result ≡ number_by_name topics.now name.now }
    ensures within { result ≤ length topics.now }
{
    let mut number = 0;
    for (own, _) in topics {
        if is_before(own.as_str().as_bytes(), name) {
            number += 1;
        }
    }
    number
}
