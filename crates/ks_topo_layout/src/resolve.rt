//! Names to numbers: what each node is and what it reads.
ghost use Rattle.std.specs.Prelude.{◌≡◌, ◌≤◌, length};
ghost use Rattle.ks_plan.specs.Drafts.{nodes_view, op_view};
ghost use Rattle.ks_plan.specs.Plan.{gives_stream as is_stream_wiring, known_from};
ghost use Rattle.ks_topo_layout.specs.Resolve.{resolved_from, resolved_op, input_in, aggregate_of};

use crate::names::{find_node, topic_number};
use ks_plan::{NodeDraft, Op, TopicDraft, Wiring};
use ks_record::Name;

/// A node that was resolved, and whether a `select_key` stands between it and its source.
#[derive(Clone, Copy)]
pub struct Resolved {
    pub wiring: Wiring,
    pub rekeyed: bool,
}

/// Whether what the node gives is a stream; else it is a table or a windowed count.
pub fn gives_stream(wiring: Wiring) -> bool
    ensures { result ≡ is_stream_wiring wiring }
{
    match wiring {
        Wiring::StreamSource { .. } => true,
        Wiring::StreamFilter { .. } => true,
        Wiring::StreamMap { .. } => true,
        Wiring::KeySelected { .. } => true,
        _ => false,
    }
}

/// An input of a node.
#[derive(Clone, Copy)]
pub struct Input {
    pub number: u8,
    pub wiring: Wiring,
    pub rekeyed: bool,
}

// A count or sum: of a stream it goes through a repartition topic where it has a group or its keys were changed.
fn resolve_aggregate(input: Input, grouped: bool) -> Resolved
    ensures { result ≡ aggregate_of input grouped }
{
    let from = input.number;
    let wiring = if gives_stream(input.wiring) {
        Wiring::StreamAggregate {
            from,
            through: grouped || input.rekeyed,
        }
    } else {
        Wiring::TableAggregate { from }
    };
    Resolved {
        wiring,
        rekeyed: false,
    }
}

/// The node of this name among those that were resolved so far, which are at most 64; past all of them, as a source, where none has it.
pub fn find_input(
    topics: &[(Name, TopicDraft)],
    nodes: &[NodeDraft],
    known: &[Resolved],
    name: &[u8],
) -> Input
    requires known { known.now ≡ resolved_from topics.now (nodes_view nodes.now) }
    requires few { length nodes.now ≤ 64 }
    ensures { result ≡ input_in (known_from topics.now (nodes_view nodes.now)) name.now }
{
    let number = find_node(nodes, name);
    match known.get(number) {
        Some(input) => Input {
            number: number as u8,
            wiring: input.wiring,
            rekeyed: input.rekeyed,
        },
        None => Input {
            number: number as u8,
            wiring: Wiring::StreamSource { topic: 0 },
            rekeyed: false,
        },
    }
}

/// What an operation is after these nodes, by number: at most 64 nodes and 64 topics.
pub fn resolve_op(
    topics: &[(Name, TopicDraft)],
    nodes: &[NodeDraft],
    known: &[Resolved],
    op: &Op,
) -> Resolved
    requires known { known.now ≡ resolved_from topics.now (nodes_view nodes.now) }
    requires few { length nodes.now ≤ 64 }
    requires topics { length topics.now ≤ 64 }
    ensures { result ≡ resolved_op topics.now (nodes_view nodes.now) (op_view op.now) }
{
    match op {
        Op::Stream { topic } => Resolved {
            wiring: Wiring::StreamSource {
                topic: topic_number(topics, topic.as_slice()) as u16,
            },
            rekeyed: false,
        },
        Op::Table { topic } => Resolved {
            wiring: Wiring::TableSource {
                topic: topic_number(topics, topic.as_slice()) as u16,
            },
            rekeyed: false,
        },
        Op::Filter { from, .. } => {
            let input = find_input(topics, nodes, known, from.as_slice());
            let from = input.number;
            let wiring = if gives_stream(input.wiring) {
                Wiring::StreamFilter { from }
            } else {
                Wiring::TableFilter { from }
            };
            Resolved {
                wiring,
                rekeyed: input.rekeyed,
            }
        }
        Op::MapValues { from, .. } => {
            let input = find_input(topics, nodes, known, from.as_slice());
            let from = input.number;
            let wiring = if gives_stream(input.wiring) {
                Wiring::StreamMap { from }
            } else {
                Wiring::TableMap { from }
            };
            Resolved {
                wiring,
                rekeyed: input.rekeyed,
            }
        }
        Op::SelectKey { from, .. } => {
            let input = find_input(topics, nodes, known, from.as_slice());
            Resolved {
                wiring: Wiring::KeySelected { from: input.number },
                rekeyed: true,
            }
        }
        Op::Count { from, by } => {
            let input = find_input(topics, nodes, known, from.as_slice());
            resolve_aggregate(input, by.is_some())
        }
        Op::Sum { from, by, .. } => {
            let input = find_input(topics, nodes, known, from.as_slice());
            resolve_aggregate(input, by.is_some())
        }
        Op::WindowedCount { from, by, .. } => {
            let input = find_input(topics, nodes, known, from.as_slice());
            Resolved {
                wiring: Wiring::Windowed {
                    from: input.number,
                    through: by.is_some() || input.rekeyed,
                },
                rekeyed: false,
            }
        }
        Op::Join { left, right, .. } => {
            let left = find_input(topics, nodes, known, left.as_slice()).number;
            let right = find_input(topics, nodes, known, right.as_slice()).number;
            Resolved {
                wiring: Wiring::KeyJoin { left, right },
                rekeyed: false,
            }
        }
        Op::FkJoin { left, right, .. } => {
            let left = find_input(topics, nodes, known, left.as_slice()).number;
            let right = find_input(topics, nodes, known, right.as_slice()).number;
            Resolved {
                wiring: Wiring::ForeignKeyJoin { left, right },
                rekeyed: false,
            }
        }
    }
}
