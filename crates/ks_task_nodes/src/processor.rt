//! What the nodes of a topology do to records.
ghost use Rattle.std.specs.Prelude.{◌≡◌, IfOk, map, option_copied, is_some};
ghost use Rattle.ks_plan.specs.declared.node.Wiring.TheVariants as wired;
ghost use Rattle.ks_plan.specs.Layout.{no_kind};
ghost use Rattle.ks_plan.specs.Drafts.{op_view};
ghost use Rattle.ks_plan.specs.Plan.{is_windowed};
ghost use Rattle.ks_task_nodes.specs.Nodes.{kind_of, node_view, kind_in, node_kind, kind_numbered, text_at, told_node, with_kinds};

use crate::topics::NodeTopics;
use crate::windows::HoppingWindow;
use ks_expr::{Fk, JoinKind, Pred, Proj};
use ks_plan::{Node, Op, TopicInfo, Wiring};
use ks_record::Name;
use std::alloc::{AllocError, Global};

/// A join of two tables on their keys.
#[derive(Clone, Copy)]
pub struct KeyJoin<'a> {
    pub left: u8,
    pub right: u8,
    pub kind: JoinKind,
    pub set: &'a Proj,
}

/// A join of two tables on a foreign key of the left one's rows and keys (KIP-213).
#[derive(Clone, Copy)]
pub struct ForeignKeyJoin<'a> {
    pub left: u8,
    pub right: u8,
    pub foreign_key: &'a Fk,
    pub kind: JoinKind,
    pub set: &'a Proj,
}

/// What a node does, and what it reads: input topics and nodes by number. `through` says whether an aggregate's items go through a
/// repartition topic; `field` is that of a sum, none for a count; `by` the field of the groups.
#[derive(Drop)]
pub enum Processor<'a> {
    StreamSource {
        topic: u16,
    },
    TableSource {
        topic: u16,
    },
    StreamFilter {
        from: u8,
        test: &'a Pred,
    },
    TableFilter {
        from: u8,
        test: &'a Pred,
    },
    StreamMap {
        from: u8,
        set: &'a Proj,
    },
    TableMap {
        from: u8,
        set: &'a Proj,
    },
    SelectKey {
        from: u8,
        field: &'a Name,
    },
    StreamAggregate {
        from: u8,
        by: &'a Option<Name>,
        field: Option<&'a Name>,
        through: bool,
    },
    TableAggregate {
        from: u8,
        by: &'a Name,
        field: Option<&'a Name>,
    },
    WindowedCount {
        from: u8,
        by: &'a Option<Name>,
        window: HoppingWindow,
        through: bool,
    },
    KeyJoin(KeyJoin<'a>),
    ForeignKeyJoin(ForeignKeyJoin<'a>),
}

/// A node that processes records.
#[derive(Drop)]
pub struct ProcessorNode<'a> {
    pub topics: NodeTopics,
    pub processor: Processor<'a>,
    /// Of a join on a foreign key, whether its subscriptions name the partition of the task that sends them: where the keys of its
    /// left side are spread by their front parts.
    pub names_partition: bool,
    /// Of a join on a foreign key, the text before which the front parts of foreign keys end, by which its subscriptions are spread;
    /// none where whole keys spread them.
    pub right_before: Option<&'a Name>,
}

impl<'a> Processor<'a> {
    /// Whether it is a windowed count, whose store has no value at a key itself.
    pub fn is_windowed(&self) -> bool
        ensures { result ≡ is_windowed (kind_of self.now) }
    {
        matches!(self, Processor::WindowedCount { .. })
    }
}

// Of a number that no node has, and where wiring and operation do not agree: never in a well-formed topology.
fn no_processor<'a>() -> Processor<'a>
    ensures { kind_of result ≡ no_kind }
{
    Processor::StreamSource { topic: 0 }
}

fn stream_filter<'a>(from: u8, op: &'a Op) -> Processor<'a>
    ensures { kind_of result ≡ kind_in (wired.StreamFilter from) (op_view op.now) }
{
    match op {
        Op::Filter { test, .. } => Processor::StreamFilter { from, test },
        _ => no_processor(),
    }
}

fn table_filter<'a>(from: u8, op: &'a Op) -> Processor<'a>
    ensures { kind_of result ≡ kind_in (wired.TableFilter from) (op_view op.now) }
{
    match op {
        Op::Filter { test, .. } => Processor::TableFilter { from, test },
        _ => no_processor(),
    }
}

fn stream_map<'a>(from: u8, op: &'a Op) -> Processor<'a>
    ensures { kind_of result ≡ kind_in (wired.StreamMap from) (op_view op.now) }
{
    match op {
        Op::MapValues { set, .. } => Processor::StreamMap { from, set },
        _ => no_processor(),
    }
}

fn table_map<'a>(from: u8, op: &'a Op) -> Processor<'a>
    ensures { kind_of result ≡ kind_in (wired.TableMap from) (op_view op.now) }
{
    match op {
        Op::MapValues { set, .. } => Processor::TableMap { from, set },
        _ => no_processor(),
    }
}

fn select_key<'a>(from: u8, op: &'a Op) -> Processor<'a>
    ensures { kind_of result ≡ kind_in (wired.KeySelected from) (op_view op.now) }
{
    match op {
        Op::SelectKey { key, .. } => Processor::SelectKey { from, field: key },
        _ => no_processor(),
    }
}

fn stream_aggregate<'a>(from: u8, through: bool, op: &'a Op) -> Processor<'a>
    ensures { kind_of result ≡ kind_in (wired.StreamAggregate from through) (op_view op.now) }
{
    match op {
        Op::Count { by, .. } => Processor::StreamAggregate {
            from,
            by,
            field: None,
            through,
        },
        Op::Sum { by, field, .. } => Processor::StreamAggregate {
            from,
            by,
            field: Some(field),
            through,
        },
        _ => no_processor(),
    }
}

fn table_aggregate<'a>(from: u8, op: &'a Op) -> Processor<'a>
    ensures { kind_of result ≡ kind_in (wired.TableAggregate from) (op_view op.now) }
{
    match op {
        Op::Count { by: Some(by), .. } => Processor::TableAggregate {
            from,
            by,
            field: None,
        },
        Op::Sum {
            by: Some(by),
            field,
            ..
        } => Processor::TableAggregate {
            from,
            by,
            field: Some(field),
        },
        _ => no_processor(),
    }
}

fn windowed_count<'a>(from: u8, through: bool, op: &'a Op) -> Processor<'a>
    ensures { kind_of result ≡ kind_in (wired.Windowed from through) (op_view op.now) }
{
    match op {
        Op::WindowedCount {
            by,
            size,
            advance,
            grace,
            ..
        } => match HoppingWindow::of(*size, *advance, *grace) {
            Some(window) => Processor::WindowedCount {
                from,
                by,
                window,
                through,
            },
            None => no_processor(),
        },
        _ => no_processor(),
    }
}

fn key_join<'a>(left: u8, right: u8, op: &'a Op) -> Processor<'a>
    ensures { kind_of result ≡ kind_in (wired.KeyJoin left right) (op_view op.now) }
{
    match op {
        Op::Join { kind, set, .. } => Processor::KeyJoin(KeyJoin {
            left,
            right,
            kind: *kind,
            set,
        }),
        _ => no_processor(),
    }
}

fn foreign_key_join<'a>(left: u8, right: u8, op: &'a Op) -> Processor<'a>
    ensures { kind_of result ≡ kind_in (wired.ForeignKeyJoin left right) (op_view op.now) }
{
    match op {
        Op::FkJoin { fk, kind, set, .. } => Processor::ForeignKeyJoin(ForeignKeyJoin {
            left,
            right,
            foreign_key: fk,
            kind: *kind,
            set,
        }),
        _ => no_processor(),
    }
}

fn processor_of<'a>(node: &'a Node) -> Processor<'a>
    ensures { kind_of result ≡ node_kind node.now }
{
    let op = &node.op;
    match node.wiring {
        Wiring::StreamSource { topic } => Processor::StreamSource { topic },
        Wiring::TableSource { topic } => Processor::TableSource { topic },
        Wiring::StreamFilter { from } => stream_filter(from, op),
        Wiring::TableFilter { from } => table_filter(from, op),
        Wiring::StreamMap { from } => stream_map(from, op),
        Wiring::TableMap { from } => table_map(from, op),
        Wiring::KeySelected { from } => select_key(from, op),
        Wiring::StreamAggregate { from, through } => stream_aggregate(from, through, op),
        Wiring::TableAggregate { from } => table_aggregate(from, op),
        Wiring::Windowed { from, through } => windowed_count(from, through, op),
        Wiring::KeyJoin { left, right } => key_join(left, right, op),
        Wiring::ForeignKeyJoin { left, right } => foreign_key_join(left, right, op),
    }
}

fn processor_numbered<'a>(nodes: &'a [Node], number: u8) -> Processor<'a>
    ensures { kind_of result ≡ kind_numbered nodes.now number }
{
    match nodes.get(number as usize) {
        Some(node) => processor_of(node),
        None => no_processor(),
    }
}

// The text before which the front parts of a topic's keys end; none where whole keys are spread, and past the last topic.
fn before_at(infos: &[TopicInfo], topic: u16) -> Option<&Name>
    ensures { option_copied result ≡ text_at infos.now topic }
{
    let info = infos.get(topic as usize)?;
    info.before.as_ref()
}

fn processor_node<'a>(
    topics: NodeTopics,
    infos: &'a [TopicInfo],
    nodes: &'a [Node],
) -> ProcessorNode<'a>
    ensures { node_view result ≡ told_node infos.now nodes.now topics }
{
    ProcessorNode {
        topics,
        processor: processor_numbered(nodes, topics.number),
        names_partition: before_at(infos, topics.responses).is_some(),
        right_before: before_at(infos, topics.subscriptions),
    }
}

/// The nodes with these topics, by number among a topology's nodes, of which they borrow what they compute; `infos` are what the
/// topology shows of its topics. Want of memory is the one error.
pub fn processor_nodes<'a>(
    alloc: Global,
    topics: &[NodeTopics],
    infos: &'a [TopicInfo],
    nodes: &'a [Node],
) -> Result<Vec<ProcessorNode<'a>>, AllocError>
    ensures { IfOk result (λ v. map node_view v.items ≡ with_kinds topics.now infos.now nodes.now) }
{
    let mut processors = Vec::with_capacity(alloc, topics.len())?;
    for one in topics {
        processors.push(processor_node(*one, infos, nodes))?;
    }
    Ok(processors)
}
