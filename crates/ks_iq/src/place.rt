//! Where an ask is answered.
ghost use Rattle.std.specs.Prelude.{◌≡◌, Some, None, cond, slice_get, IfOk, IfSome, option_map};
ghost use Rattle.ks_iq.specs.declared.fault.IqFault.TheVariants.{WrongStart};
ghost use Rattle.ks_topo.specs.Topologies.{draft_of};
ghost use Rattle.ks_plan.specs.Drafts.{op_view};
ghost use Rattle.ks_query.specs.Aggregates.{agg_row as total_row};
ghost use Rattle.ks_wire.specs.Reading.{agg_from};
ghost use Rattle.ks_expr.specs.Keys.{spread_part};
ghost use Rattle.ks_task_processing.specs.Steps.{part_in};
ghost use Rattle.ks_settle.specs.Rows.{node_named, counts_windows};
ghost use Rattle.ks_iq.specs.Asks.{start_fault, store_key};
ghost use Rattle.ks_iq.specs.Places.{op_row, Finds};

use crate::ask::Ask;
use crate::fault::IqFault;
use ks_agg::agg_row;
use ks_record::{Blob, Key, TaskId};
use ks_row::{Row, decode};
use ks_task_processing::part_for;
use ks_topo::{Node, Op, TopicInfo, Topology};
use ks_wire::{read_agg, write_window_key};
use std::alloc::{AllocError, Global};

/// A node, its changelog, and the task that has the key.
#[derive(Clone, Copy)]
pub struct Place<'a> {
    pub node: &'a Node,
    pub log: u16,
    pub task: TaskId,
}

// The first node of this name.
fn find_node<'a>(nodes: &'a [Node], name: &[u8]) -> Option<&'a Node>
    ensures { option_map (λ n. n.now) result ≡ node_named nodes.now name.now }
{
    let mut rest = nodes;
    while let [first, more @ ..] = rest {
        if first.name.as_str().as_bytes() == name {
            return Some(first);
        }
        rest = more;
    }
    None
}

// The partition of a key in the topic with this number; 0 where there is none.
fn part_in(topics: &[TopicInfo], number: u16, key: &Key) -> u8
    ensures { IfSome (slice_get topics.now number) (λ i. result
        ≡ part_in (spread_part i.before key.now) i.parts) }
{
    match topics.get(number as usize) {
        Some(info) => part_for(info.before.as_ref(), key, info.parts),
        None => 0,
    }
}

fn is_windowed(op: &Op) -> bool
    ensures { result ≡ counts_windows (op_view op.now) }
{
    match op {
        Op::WindowedCount { .. } => true,
        _ => false,
    }
}

// Whether a start is there exactly where it is wanted.
fn has_start(op: &Op, start: Option<u64>) -> bool
    ensures { start_fault (counts_windows (op_view op.now)) start
        ≡ cond result None (Some WrongStart) }
{
    match start {
        Some(_) => is_windowed(op),
        None => !is_windowed(op),
    }
}

/// Where an ask is answered, or what the job alone has against it. Takes no memory.
pub fn find_place<'a>(topology: &'a Topology, ask: &Ask) -> Result<Place<'a>, IqFault>
    ensures { Finds (draft_of topology.now) ask.now result }
{
    let Some(node) = find_node(topology.nodes(), ask.node.as_str().as_bytes()) else {
        return Err(IqFault::UnknownStore);
    };
    let Some(log) = node.store else {
        return Err(IqFault::UnknownStore);
    };
    if has_start(&node.op, ask.start) {
        let task = TaskId {
            sub: node.sub,
            part: part_in(topology.topics(), log, &ask.key),
        };
        return Ok(Place { node, log, task });
    }
    Err(IqFault::WrongStart)
}

/// The bytes of a key in a store. `Err` only where memory ran out.
pub fn key_in_store(alloc: Global, key: &Key, start: Option<u64>) -> Result<Blob, AllocError>
    ensures { IfOk result (λ b. b ≡ store_key key.now start) }
{
    match start {
        Some(start) => write_window_key(alloc, key, start),
        None => Blob::from_slice(alloc, key.as_str().as_bytes()),
    }
}

// The row of a count or of a sum.
fn read_total(alloc: Global, count: bool, bytes: &[u8]) -> Result<Option<Row>, AllocError>
    ensures { IfOk result (λ o. o ≡ option_map (total_row count) (agg_from bytes.now)) }
{
    match read_agg(bytes) {
        Some(agg) => Ok(Some(agg_row(alloc, count, agg)?)),
        None => Ok(None),
    }
}

/// The row that kept bytes are shown as. `Err` only where memory ran out.
pub fn read_shown(alloc: Global, op: &Op, bytes: &[u8]) -> Result<Option<Row>, AllocError>
    ensures { IfOk result (λ o. o ≡ op_row (op_view op.now) bytes.now) }
{
    match op {
        Op::Count { .. } => read_total(alloc, true, bytes),
        Op::Sum { .. } => read_total(alloc, false, bytes),
        Op::WindowedCount { .. } => read_total(alloc, true, bytes),
        _ => decode(alloc, bytes),
    }
}
