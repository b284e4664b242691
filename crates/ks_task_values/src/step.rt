//! What the nodes have in a step.
ghost use Rattle.std.specs.Prelude.{◌≡◌, IfOk, Some, not, map, option_map, option_copied, slice_get};
ghost use Rattle.ks_def_tasks.specs.Messages.{shown};
ghost use Rattle.ks_def_tasks.specs.Step.{changed, row_in, step_key};
ghost use Rattle.ks_task_nodes.specs.Nodes.{node_view};
ghost use Rattle.ks_plan.specs.Layout.{same_topic};
ghost use Rattle.ks_task_nodes.specs.Records.{arrival_of, message_of};
ghost use Rattle.ks_task_nodes.specs.Stored.{stored_in};
ghost use Rattle.ks_task_values.specs.Values.{stored_at, olds_at, live_at, olds_in, news_in};
ghost use Rattle.ks_cache.specs.Changelogs.{stores_in};

use crate::items::Item;
use crate::live::LiveValue;
use crate::taken::Step;
use ks_cache::{Changelog, find_bytes};
use ks_plan::Topic;
use ks_record::Key;
use ks_row::{Change, Row};
use ks_task_nodes::{
    ProcessorNode, StampedRecord, StoredValue, is_same_topic, read_value, row_after, stored_row,
};
use std::alloc::{AllocError, Global};

/// What the nodes have in a step: the items of streams by number, and the values of those that were gone through so far. Of any other
/// node the value is what it was.
#[derive(Clone, Copy)]
pub struct NodeValues<'s, 'v> {
    pub step: &'s Step<'v>,
    pub items: &'s [Option<Item>],
    pub live: &'s [LiveValue<'v>],
}

/// What a table stores at a key before the step; none of a windowed count, and of a node of another subtopology. Takes no memory.
pub fn stored_value<'a>(
    changelogs: &'a [Changelog],
    key: &Key,
    node: &ProcessorNode<'_>,
) -> Option<StoredValue<'a>>
    ensures { stored_in result ≡ stored_at (stores_in changelogs.now) key.now (node_view node.now) }
{
    if node.processor.is_windowed() || !node.topics.is_own {
        return None;
    }
    let bytes = find_bytes(changelogs, node.topics.changelog, key.as_str().as_bytes())?;
    read_value(&node.processor, bytes)
}

/// The node with a number, where there is one. Takes no memory.
pub fn node_at<'s, 'n>(nodes: &'s [ProcessorNode<'n>], number: u8) -> Option<&'s ProcessorNode<'n>>
    ensures { option_map (λ n. node_view n.now) result
        ≡ slice_get (map node_view nodes.now) number }
{
    match nodes.get(number as usize) {
        Some(node) => Some(node),
        None => None,
    }
}

// What a node stores at a step's key before it; none past the last node.
fn stored_of<'v>(step: &Step<'v>, key: &Key, number: u8) -> Option<StoredValue<'v>>
    requires { step_key (message_of step.now.stamped.now.payload) ≡ Some key.now }
    ensures { stored_in result ≡ olds_at step.now number }
{
    match node_at(step.nodes, number) {
        Some(node) => stored_value(step.changelogs, key, node),
        None => None,
    }
}

// The same; none where the record has no key.
fn stored_here<'v>(step: &Step<'v>, number: u8) -> Option<StoredValue<'v>>
    ensures { stored_in result ≡ olds_at step.now number }
{
    match step.stamped.key() {
        Some(key) => stored_of(step, key, number),
        None => None,
    }
}

/// What is kept of a node that was gone through. Takes no memory.
pub fn live_value<'s, 'v>(live: &'s [LiveValue<'v>], number: u8) -> Option<&'s LiveValue<'v>>
    ensures { option_copied result ≡ live_at number live.now }
{
    let mut rest = live;
    while let [more @ .., last] = rest {
        if number == last.number {
            return Some(last);
        }
        rest = more;
    }
    None
}

/// The row that a node shows before the step. Want of memory is the one error.
pub fn old_row(
    alloc: Global,
    values: &NodeValues<'_, '_>,
    number: u8,
) -> Result<Option<Row>, AllocError>
    ensures { IfOk result (λ r. r ≡ row_in (olds_in values.now) number) }
{
    match live_value(values.live, number) {
        Some(live) => stored_row(alloc, live.old),
        None => stored_row(alloc, stored_here(values.step, number)),
    }
}

/// The row that a node shows after the step. Want of memory is the one error.
pub fn new_row(
    alloc: Global,
    values: &NodeValues<'_, '_>,
    number: u8,
) -> Result<Option<Row>, AllocError>
    ensures { IfOk result (λ r. r ≡ row_in (news_in values.now) number) }
{
    match live_value(values.live, number) {
        Some(live) => row_after(alloc, &live.new),
        None => stored_row(alloc, stored_here(values.step, number)),
    }
}

/// Whether a node shows another row after the step. Takes no memory.
pub fn is_changed(values: &NodeValues<'_, '_>, number: u8) -> bool
    ensures { result ≡ changed (olds_in values.now) (news_in values.now) number }
{
    match live_value(values.live, number) {
        Some(live) => live.is_changed,
        None => false,
    }
}

/// The rows that a node shows at a key before and after the step. Want of memory is the one error.
pub fn change_at(
    alloc: Global,
    values: &NodeValues<'_, '_>,
    key: Key,
    number: u8,
) -> Result<Change, AllocError>
    ensures key { IfOk result (λ c. c.key ≡ key) }
    ensures old { IfOk result (λ c. c.old ≡ row_in (olds_in values.now) number) }
    ensures new { IfOk result (λ c. c.new ≡ row_in (news_in values.now) number) }
{
    Ok(Change {
        key,
        old: old_row(alloc, values, number)?,
        new: new_row(alloc, values, number)?,
    })
}
