//! The items that streams pass on, node by node.
ghost use Rattle.std.specs.Prelude.{◌≡◌, ◌++◌, ◌∷◌, [], Some, IfOk, OnOk, map, option_map, option_copied};
ghost use Rattle.ks_expr.specs.Terms.{test_of, set_of};
ghost use Rattle.ks_query.specs.Streams.{filter_item, map_item, rekey_item};
ghost use Rattle.ks_plan.specs.Plan.Kind.{StreamSource};
ghost use Rattle.ks_def_tasks.specs.Step.{item_at as item_here, item_keyed, item_into as item_taken, arrived};
ghost use Rattle.ks_plan.specs.declared.node.Topic.TheVariants.{Repartition};
ghost use Rattle.ks_def_lookups.specs.Lists.{item_in, all_items};
ghost use Rattle.ks_task_nodes.specs.Nodes.{kind_of, kinds_in, node_view};
ghost use Rattle.ks_task_nodes.specs.Records.{arrival_of};
ghost use Rattle.ks_task_values.specs.Items.{item_view, views};

use ks_expr::{Pred, Proj};
use ks_plan::Topic;
use ks_record::{Key, Name};
use ks_row::{Row, key_of_field};
use ks_table_ops::{filter_row, map_row};
use ks_task_nodes::{Payload, Processor, ProcessorNode, StampedRecord, is_same_topic};
use std::alloc::{AllocError, Global};

/// An item of a stream, with its timestamp in milliseconds.
#[derive(Drop)]
pub struct Item {
    pub key: Option<Key>,
    pub row: Row,
    pub time: u64,
}

/// A copy of a key, where there is one. Want of memory is the one error.
pub fn copy_key(key: &Option<Key>) -> Result<Option<Key>, AllocError>
    ensures { IfOk result (λ k. k ≡ key.now) }
{
    match key {
        Some(key) => Ok(Some(key.clone()?)),
        None => Ok(None),
    }
}

fn copy_item(item: &Item) -> Result<Item, AllocError>
    ensures { IfOk result (λ i. item_view i ≡ item_view item.now) }
{
    let key = copy_key(&item.key)?;
    let Ok(row) = item.row.clone() else {
        drop(key);
        return Err(AllocError);
    };
    Ok(Item {
        key,
        row,
        time: item.time,
    })
}

/// The item of a node by number; none past the end.
pub fn item_at(items: &[Option<Item>], number: u8) -> Option<&Item>
    ensures { option_map item_view (option_copied result) ≡ item_in (views items.now) number }
{
    match items.get(number as usize) {
        Some(Some(item)) => Some(item),
        _ => None,
    }
}

// The item of a row, under a copy of a key.
fn item_under(key: &Option<Key>, row: Row, time: u64) -> Result<Option<Item>, AllocError>
    ensures { IfOk result (λ o. option_map item_view o
        ≡ Some (record { key = key.now; row = row; time = time })) }
{
    let Ok(key) = copy_key(key) else {
        drop(row);
        return Err(AllocError);
    };
    Ok(Some(Item { key, row, time }))
}

fn filter_one(test: &Pred, item: &Item) -> Result<Option<Item>, AllocError>
    ensures { IfOk result (λ o. option_map item_view o
        ≡ filter_item (test_of test.now) (item_view item.now)) }
{
    match filter_row(test, Some(&item.row))? {
        Some(row) => item_under(&item.key, row, item.time),
        None => Ok(None),
    }
}

fn map_one(alloc: Global, set: &Proj, item: &Item) -> Result<Option<Item>, AllocError>
    ensures { IfOk result (λ o. option_map item_view o
        ≡ map_item (set_of set.now) (item_view item.now)) }
{
    match map_row(alloc, set, Some(&item.row))? {
        Some(row) => item_under(&item.key, row, item.time),
        None => Ok(None),
    }
}

fn rekey_one(alloc: Global, field: &Name, item: &Item) -> Result<Option<Item>, AllocError>
    ensures { IfOk result (λ o. option_map item_view o
        ≡ rekey_item field.now (item_view item.now)) }
{
    match key_of_field(alloc, &item.row, field.as_str().as_bytes())? {
        Some(key) => {
            let Ok(row) = item.row.clone() else {
                drop(key);
                return Err(AllocError);
            };
            Ok(Some(Item {
                key: Some(key),
                row,
                time: item.time,
            }))
        }
        None => Ok(None),
    }
}

// Of a stream's source: a record without a value is no item.
fn source_item(
    alloc: Global,
    topic: u16,
    stamped: &StampedRecord<'_>,
) -> Result<Option<Item>, AllocError>
    ensures { IfOk result (λ o. option_map item_view o
        ≡ item_here (arrival_of stamped.now) (λ n. None) (StreamSource topic)) }
{
    if !is_same_topic(stamped.topic, Topic::Input(topic)) {
        return Ok(None);
    }
    match &stamped.payload {
        Payload::Input {
            key,
            row: Some(row),
        } => match row.row(alloc)? {
            Some(row) => item_under(key, row, stamped.time),
            None => Ok(None),
        },
        _ => Ok(None),
    }
}

// The item that a node passes on.
fn item_of(
    alloc: Global,
    processor: &Processor<'_>,
    items: &[Option<Item>],
    stamped: &StampedRecord<'_>,
) -> Result<Option<Item>, AllocError>
    ensures { IfOk result (λ o. option_map item_view o
        ≡ item_here (arrival_of stamped.now) (item_in (views items.now)) (kind_of processor.now)) }
{
    match processor {
        Processor::StreamSource { topic } => source_item(alloc, *topic, stamped),
        Processor::StreamFilter { from, test } => match item_at(items, *from) {
            Some(item) => filter_one(test, item),
            None => Ok(None),
        },
        Processor::StreamMap { from, set } => match item_at(items, *from) {
            Some(item) => map_one(alloc, set, item),
            None => Ok(None),
        },
        Processor::SelectKey { from, field } => match item_at(items, *from) {
            Some(item) => rekey_one(alloc, field, item),
            None => Ok(None),
        },
        _ => Ok(None),
    }
}

fn push_item(
    alloc: Global,
    processor: &Processor<'_>,
    items: &mut Vec<Option<Item>>,
    stamped: &StampedRecord<'_>,
) -> Result<(), AllocError>
    ensures { OnOk result (views items.new.items ≡ views items.old.items
        ++ item_here (arrival_of stamped.now) (item_in (views items.old.items))
        (kind_of processor.now) ∷ []) }
{
    let item = item_of(alloc, processor, items.as_slice(), stamped)?;
    items.push(item)?;
    Ok(())
}

/// The items that all nodes pass on of a record. Want of memory is the one error.
pub fn items_of(
    alloc: Global,
    nodes: &[ProcessorNode<'_>],
    stamped: &StampedRecord<'_>,
) -> Result<Vec<Option<Item>>, AllocError>
    ensures { IfOk result (λ v. views v.items
        ≡ all_items (arrival_of stamped.now) [] (kinds_in (map node_view nodes.now))) }
{
    let mut items = Vec::with_capacity(alloc, nodes.len())?;
    let mut rest = nodes;
    while let [first, more @ ..] = rest {
        push_item(alloc, &first.processor, &mut items, stamped)?;
        rest = more;
    }
    Ok(items)
}

// Of the node's repartition topic.
fn repartitioned_item(
    alloc: Global,
    number: u8,
    stamped: &StampedRecord<'_>,
) -> Result<Option<Item>, AllocError>
    ensures { IfOk result (λ o. option_map item_view o
        ≡ item_keyed stamped.now.time (arrived (arrival_of stamped.now) (Repartition number))) }
{
    if !is_same_topic(stamped.topic, Topic::Repartition(number)) {
        return Ok(None);
    }
    match &stamped.payload {
        Payload::Row { group, row } => match row.row(alloc)? {
            Some(row) => {
                let Ok(group) = group.clone() else {
                    drop(row);
                    return Err(AllocError);
                };
                Ok(Some(Item {
                    key: Some(group),
                    row,
                    time: stamped.time,
                }))
            }
            None => Ok(None),
        },
        _ => Ok(None),
    }
}

/// The item that an aggregate of a stream takes: of its repartition topic, or of the node that it reads. Want of memory is the one
/// error.
pub fn item_into(
    alloc: Global,
    items: &[Option<Item>],
    number: u8,
    from: u8,
    through: bool,
    stamped: &StampedRecord<'_>,
) -> Result<Option<Item>, AllocError>
    ensures { IfOk result (λ o. option_map item_view o
        ≡ item_taken (arrival_of stamped.now) (item_in (views items.now)) number from through) }
{
    if through {
        return repartitioned_item(alloc, number, stamped);
    }
    match item_at(items, from) {
        Some(item) => Ok(Some(copy_item(item)?)),
        None => Ok(None),
    }
}
