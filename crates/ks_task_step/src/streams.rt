//! The items that streams pass on, where a task has streams.
ghost use Rattle.std.specs.Prelude.{◌≡◌, [], IfOk, map, slice_get};
ghost use Rattle.ks_def_lookups.specs.Lists.{item_in, all_items};
ghost use Rattle.ks_task_nodes.specs.Nodes.{kind_of, kinds_in, node_view};
ghost use Rattle.ks_task_nodes.specs.Records.{arrival_of};
ghost use Rattle.ks_task_values.specs.Items.{views};
ghost use Rattle.ks_task_step.specs.Streams.{is_stream, is_stream_at, has_live_stream};

use ks_task_nodes::{Processor, ProcessorNode};
use ks_task_values::{Item, Step, items_of, node_at};
use std::alloc::{AllocError, Global};

fn is_stream(processor: &Processor<'_>) -> bool
    ensures { result ≡ is_stream (kind_of processor.now) }
{
    match processor {
        Processor::StreamSource { .. } => true,
        Processor::StreamFilter { .. } => true,
        Processor::StreamMap { .. } => true,
        Processor::SelectKey { .. } => true,
        _ => false,
    }
}

// Whether the node with a number passes items on, where there is one.
fn is_stream_at(nodes: &[ProcessorNode<'_>], number: u8) -> bool
    ensures { result ≡ is_stream_at (slice_get (kinds_in (map node_view nodes.now)) number) }
{
    match node_at(nodes, number) {
        Some(node) => is_stream(&node.processor),
        None => false,
    }
}

// Whether one of the nodes that a step goes through passes items on.
fn has_stream(nodes: &[ProcessorNode<'_>], live: &[u8]) -> bool
    ensures { result ≡ has_live_stream (kinds_in (map node_view nodes.now)) live.now }
{
    let mut rest = live;
    while let [number, more @ ..] = rest {
        if is_stream_at(nodes, *number) {
            return true;
        }
        rest = more;
    }
    false
}

/// The items that the nodes pass on of a record, by number; no list of them where the step goes through no stream. Want of memory is the
/// one error.
pub fn passed_items(alloc: Global, step: &Step<'_>) -> Result<Vec<Option<Item>>, AllocError>
    ensures { IfOk result (λ v. item_in (views v.items)
        ≡ item_in (all_items (arrival_of step.now.stamped.now) []
        (kinds_in (map node_view step.now.nodes.now)))) }
{
    if !has_stream(step.nodes, step.live) {
        return Ok(Vec::new(alloc));
    }
    items_of(alloc, step.nodes, step.stamped)
}
