//! What the nodes of a step send to repartition topics and between the sides of joins.
ghost use Rattle.std.specs.Prelude.{◌≡◌, ◌≤◌, ◌++◌, ◌∷◌, [], IfOk, OnOk, Some, map, option_copied, slice_get};
ghost use Rattle.std.specs.List.{flat_map};
ghost use Rattle.ks_query.specs.Streams.{group_key};
ghost use Rattle.ks_def_tasks.specs.Step.{row_in, regroup, regroup_rows, send_deltas};
ghost use Rattle.ks_def_tasks.specs.Rules.{rules_of};
ghost use Rattle.ks_task_nodes.specs.Nodes.{node_view};
ghost use Rattle.ks_task_nodes.specs.Reach.{of_node, at_numbers};
ghost use Rattle.ks_task_nodes.specs.Records.{arrival_of};
ghost use Rattle.ks_task_values.specs.Items.{item_view};
ghost use Rattle.ks_task_values.specs.Values.{items_in, olds_in, news_in};
ghost use Rattle.ks_task_processing.specs.Steps.{grouped_at, sent_by, sends_by, all_sends, IsQuiet};
ghost use Rattle.ks_cache.specs.Changelogs.{stores_in};

use crate::foreign::{push_answer, push_join};
use ks_agg::table_parts;
use ks_hash::Hash128;
use ks_record::{Blob, Key, Name, PartId, PlacedRecords, RecordRef};
use ks_row::{Change, key_of_field};
use ks_task_nodes::{Processor, ProcessorNode};
use ks_task_processing::part_for;
use ks_task_values::{Item, NodeValues, Step, change_at, copy_key, is_changed, item_at, node_at};
use ks_wire::{Delta, write_delta};
use std::alloc::{AllocError, Global};

/// One more record for a partition. Want of memory is the one error.
pub fn push_send(
    out: &mut PlacedRecords,
    to: PartId,
    key: &Key,
    value: &[u8],
    time: u64,
) -> Result<(), AllocError>
    ensures { OnOk result (out.new ≡ out.old ++ (
      to,
      record
          { key = Some key.now; value = Some value.now; ts = time },
    ) ∷ []) }
{
    let rec = RecordRef {
        key: Some(key.as_str().as_bytes()),
        value: Some(value),
        ts: time,
    };
    out.push(to, rec)
}

/// One more record for a changelog: a key's value, or that it has none. Want of memory is the one error.
pub fn push_told(
    out: &mut PlacedRecords,
    to: PartId,
    key: &[u8],
    value: &Option<Blob>,
    time: u64,
) -> Result<(), AllocError>
    ensures { OnOk result (out.new ≡ out.old ++ (
      to,
      record
          { key = Some key.now; value = value.now; ts = time },
    ) ∷ []) }
{
    let value = match value {
        Some(value) => Some(value.as_slice()),
        None => None,
    };
    let rec = RecordRef {
        key: Some(key),
        value,
        ts: time,
    };
    out.push(to, rec)
}

// The place of a group in a node's repartition topic.
fn group_place(node: &ProcessorNode<'_>, group: &Key) -> PartId
    ensures { result ≡ grouped_at (node_view node.now) group.now }
{
    PartId {
        topic: node.topics.repartition,
        part: part_for(None, group, node.topics.partitions),
    }
}

fn push_deltas(
    alloc: Global,
    out: &mut PlacedRecords,
    node: &ProcessorNode<'_>,
    deltas: &[(Key, Delta)],
    time: u64,
) -> Result<(), AllocError>
    ensures { OnOk result (out.new ≡ out.old
        ++ flat_map (sent_by (node_view node.now) time)
        (send_deltas node.now.topics.number deltas.now)) }
{
    for (group, delta) in deltas {
        let value = write_delta(alloc, delta)?;
        let to = group_place(node, group);
        let pushed = push_send(out, to, group, value.as_slice(), time);
        drop(value);
        pushed?;
    }
    Ok(())
}

fn group_of(alloc: Global, by: &Option<Name>, item: &Item) -> Result<Option<Key>, AllocError>
    ensures { IfOk result (λ k. k ≡ group_key by.now (item_view item.now)) }
{
    match by {
        Some(by) => key_of_field(alloc, &item.row, by.as_str().as_bytes()),
        None => copy_key(&item.key),
    }
}

// An item goes to its group; one without a group goes nowhere.
fn push_item(
    alloc: Global,
    out: &mut PlacedRecords,
    node: &ProcessorNode<'_>,
    by: &Option<Name>,
    item: &Item,
    time: u64,
) -> Result<(), AllocError>
    ensures { OnOk result (out.new ≡ out.old
        ++ flat_map (sent_by (node_view node.now) time)
        (regroup by.now node.now.topics.number (Some (item_view item.now)))) }
{
    let Some(group) = group_of(alloc, by, item)? else {
        return Ok(());
    };
    let to = group_place(node, &group);
    let pushed = push_send(out, to, &group, item.row.as_bytes(), time);
    drop(group);
    pushed
}

// Any key: what a table sends to its groups is told by the rows alone.
fn any_key(alloc: Global) -> Result<Key, AllocError> {
    match Key::of_text(alloc, "-")? {
        Some(key) => Ok(key),
        None => Err(AllocError),
    }
}

fn push_row_change(
    alloc: Global,
    out: &mut PlacedRecords,
    node: &ProcessorNode<'_>,
    by: &Name,
    field: Option<&Name>,
    change: &Change,
    time: u64,
) -> Result<(), AllocError>
    ensures { OnOk result (out.new ≡ out.old
        ++ flat_map (sent_by (node_view node.now) time)
        (regroup_rows by.now (option_copied field.entry) node.now.topics.number change.now.old
        change.now.new)) }
{
    let deltas = table_parts(alloc, by, field, change)?;
    push_deltas(alloc, out, node, &deltas, time)
}

// A table's row leaves its old group and joins the new one; a row that stays is not looked at.
fn push_table_change(
    alloc: Global,
    out: &mut PlacedRecords,
    node: &ProcessorNode<'_>,
    from: u8,
    by: &Name,
    field: Option<&Name>,
    values: &NodeValues<'_, '_>,
    time: u64,
) -> Result<(), AllocError>
    ensures { OnOk result (out.new ≡ out.old
        ++ flat_map (sent_by (node_view node.now) time)
        (regroup_rows by.now (option_copied field.entry) node.now.topics.number
        (row_in (olds_in values.now) from) (row_in (news_in values.now) from))) }
{
    if is_changed(values, from) {
        let change = change_at(alloc, values, any_key(alloc)?, from)?;
        let pushed = push_row_change(alloc, out, node, by, field, &change, time);
        drop(change);
        pushed
    } else {
        Ok(())
    }
}

// What a node sends.
fn push_sends<H: Hash128>(
    alloc: Global,
    out: &mut PlacedRecords,
    step: &Step<'_>,
    node: &ProcessorNode<'_>,
    values: &NodeValues<'_, '_>,
) -> Result<(), AllocError>
    requires { step.now.partition ≤ 63 }
    ensures { OnOk result (out.new ≡ out.old
        ++ sends_by (rules_of H.hash_of) (map node_view step.now.nodes.now)
        (stores_in step.now.changelogs.now) step.now.partition (arrival_of step.now.stamped.now)
        (items_in values.now) (olds_in values.now) (news_in values.now) (node_view node.now)) }
{
    let time = step.stamped.time;
    match &node.processor {
        Processor::StreamAggregate {
            from,
            by,
            through: true,
            ..
        } => match item_at(values.items, *from) {
            Some(item) => push_item(alloc, out, node, by, item, time),
            None => Ok(()),
        },
        Processor::WindowedCount {
            from,
            by,
            through: true,
            ..
        } => match item_at(values.items, *from) {
            Some(item) => push_item(alloc, out, node, by, item, time),
            None => Ok(()),
        },
        Processor::TableAggregate { from, by, field } => {
            push_table_change(alloc, out, node, *from, by, *field, values, time)
        }
        Processor::ForeignKeyJoin(join) => {
            push_join::<H>(alloc, out, step, node, join, values)?;
            push_answer(alloc, out, step, node, join.right)
        }
        _ => Ok(()),
    }
}

// What the node with a number sends, where there is one.
fn push_sends_at<H: Hash128>(
    alloc: Global,
    out: &mut PlacedRecords,
    step: &Step<'_>,
    number: u8,
    values: &NodeValues<'_, '_>,
) -> Result<(), AllocError>
    requires { step.now.partition ≤ 63 }
    ensures { OnOk result (out.new ≡ out.old
        ++ of_node (sends_by (rules_of H.hash_of) (map node_view step.now.nodes.now)
        (stores_in step.now.changelogs.now) step.now.partition (arrival_of step.now.stamped.now)
        (items_in values.now) (olds_in values.now) (news_in values.now))
        (slice_get (map node_view step.now.nodes.now) number)) }
{
    match node_at(step.nodes, number) {
        Some(node) => push_sends::<H>(alloc, out, step, node, values),
        None => Ok(()),
    }
}

// What the nodes send that a step goes through.
fn push_live_sends<H: Hash128>(
    alloc: Global,
    out: &mut PlacedRecords,
    step: &Step<'_>,
    values: &NodeValues<'_, '_>,
) -> Result<(), AllocError>
    requires { step.now.partition ≤ 63 }
    ensures { OnOk result (out.new ≡ out.old
        ++ at_numbers (sends_by (rules_of H.hash_of) (map node_view step.now.nodes.now)
        (stores_in step.now.changelogs.now) step.now.partition (arrival_of step.now.stamped.now)
        (items_in values.now) (olds_in values.now) (news_in values.now))
        (map node_view step.now.nodes.now) step.now.live.now) }
{
    let mut rest = step.live;
    while let [number, more @ ..] = rest {
        push_sends_at::<H>(alloc, out, step, *number, values)?;
        rest = more;
    }
    Ok(())
}

/// What all nodes send in a step, whose partition is at most 63, at the end of others: those that it doesn't go through send nothing. Want
/// of memory is the one error.
pub fn push_all_sends<H: Hash128>(
    alloc: Global,
    out: &mut PlacedRecords,
    step: &Step<'_>,
    values: &NodeValues<'_, '_>,
) -> Result<(), AllocError>
    requires part { step.now.partition ≤ 63 }
    requires quiet { IsQuiet step.now (items_in values.now) (olds_in values.now)
        (news_in values.now) }
    ensures { OnOk result (out.new ≡ out.old ++ all_sends (rules_of H.hash_of)
        (map node_view step.now.nodes.now) (stores_in step.now.changelogs.now) step.now.partition
        (arrival_of step.now.stamped.now) (items_in values.now) (olds_in values.now)
        (news_in values.now) (map node_view step.now.nodes.now)) }
{
    push_live_sends::<H>(alloc, out, step, values)
}
