//! What the nodes that a step goes through store at its key, before and after it.
ghost use Rattle.std.specs.Prelude.{◌≡◌, IfOk, OnOk, Some, map, option_map, option_copied, slice_get};
ghost use Rattle.ks_expr.specs.Terms.{test_of, set_of};
ghost use Rattle.ks_plan.specs.declared.node.Topic.TheVariants.{Input, Repartition};
ghost use Rattle.ks_query.specs.Query.{with_number};
ghost use Rattle.ks_def_tasks.specs.Step.{arrived, step_key, taken_row, applied, added, of_row, value_at};
ghost use Rattle.ks_def_lookups.specs.Lists.{item_in, value_in};
ghost use Rattle.ks_def_tasks.specs.Rules.{rules_of};
ghost use Rattle.ks_task_nodes.specs.Nodes.{kind_of, node_view};
ghost use Rattle.ks_task_nodes.specs.Reach.{NoItems, SameValues, valued_by, values_at_numbers};
ghost use Rattle.ks_task_nodes.specs.Records.{arrival_of, message_of};
ghost use Rattle.ks_task_values.specs.Items.{item_view, views};
ghost use Rattle.ks_task_nodes.specs.Stored.{stored_in, value_view};
ghost use Rattle.ks_task_values.specs.Values.{items_in, olds_in, news_in, stored_at, olds_at, live_olds, live_news, new_list, filter_value as filter_stored, map_value as map_stored, join_value as join_stored, stays_at, is_still as still};
ghost use Rattle.ks_cache.specs.Changelogs.{stores_in};

use crate::changes::is_other_row;
use crate::foreign::{foreign_stays, foreign_value};
use crate::items::{Item, item_into};
use crate::live::LiveValue;
use crate::step::{NodeValues, is_changed, live_value, new_row, node_at, stored_value};
use crate::taken::Step;
use ks_agg::{stream_add, table_apply};
use ks_expr::{Pred, Proj};
use ks_hash::Hash128;
use ks_plan::Topic;
use ks_record::{Key, Name};
use ks_row::Row;
use ks_table_ops::{filter_row, join_rows, map_row};
use ks_task_nodes::{
    EncodedRow, KeyJoin, NewValue, Payload, Processor, ProcessorNode, StampedRecord, StoredValue,
    aggregate_in, is_elsewhere, is_same_topic,
};
use std::alloc::{AllocError, Global};

/// The value that a row is, where there is one. Takes no memory.
pub fn value_of_row<'a>(row: Option<Row>) -> NewValue<'a>
    ensures { value_view result ≡ of_row row }
{
    match row {
        Some(row) => NewValue::Row(row),
        None => NewValue::Absent,
    }
}

fn value_of_record<'a>(row: &'a Option<EncodedRow<'a>>) -> NewValue<'a>
    ensures { value_view result ≡ of_row row.now }
{
    match row {
        Some(row) => NewValue::Encoded(row),
        None => NewValue::Absent,
    }
}

fn source_value<'a>(
    topic: u16,
    old: Option<StoredValue<'a>>,
    stamped: &'a StampedRecord<'a>,
) -> NewValue<'a>
    ensures { value_view result ≡ taken_row (stored_in old.entry)
        (arrived (arrival_of stamped.now) (Input topic)) }
{
    if !is_same_topic(stamped.topic, Topic::Input(topic)) {
        return NewValue::Unchanged(old);
    }
    match &stamped.payload {
        Payload::Input { row, .. } => value_of_record(row),
        _ => NewValue::Unchanged(old),
    }
}

fn filter_value<'a>(
    alloc: Global,
    from: u8,
    test: &Pred,
    old: Option<StoredValue<'a>>,
    values: &NodeValues<'_, '_>,
) -> Result<NewValue<'a>, AllocError>
    ensures { IfOk result (λ v. value_view v ≡ filter_stored (test_of test.now) (olds_in values.now)
        (news_in values.now) from (stored_in old.entry)) }
{
    if !is_changed(values, from) {
        return Ok(NewValue::Unchanged(old));
    }
    let row = new_row(alloc, values, from)?;
    let kept = filter_row(test, row.as_ref());
    drop(row);
    Ok(value_of_row(kept?))
}

fn map_value<'a>(
    alloc: Global,
    number: u8,
    from: u8,
    set: &Proj,
    old: Option<StoredValue<'a>>,
    values: &NodeValues<'_, '_>,
) -> Result<NewValue<'a>, AllocError>
    requires { stored_in old ≡ olds_in values.now number }
    ensures { IfOk result (λ v. value_view v ≡ map_stored (set_of set.now) (olds_in values.now)
        (news_in values.now) from (olds_in values.now number)) }
{
    if !is_changed(values, from) {
        return Ok(NewValue::Unchanged(old));
    }
    let row = new_row(alloc, values, from)?;
    let made = map_row(alloc, set, row.as_ref());
    drop(row);
    Ok(value_of_row(made?))
}

fn join_value<'a>(
    alloc: Global,
    join: &KeyJoin<'_>,
    old: Option<StoredValue<'a>>,
    values: &NodeValues<'_, '_>,
) -> Result<NewValue<'a>, AllocError>
    ensures { IfOk result (λ v. value_view v ≡ join_stored join.now.kind (set_of join.now.set.now)
        (olds_in values.now) (news_in values.now) join.now.left join.now.right
        (stored_in old.entry)) }
{
    if is_changed(values, join.left) || is_changed(values, join.right) {
        let left = new_row(alloc, values, join.left)?;
        let Ok(right) = new_row(alloc, values, join.right) else {
            drop(left);
            return Err(AllocError);
        };
        let row = join_rows(alloc, join.kind, join.set, left.as_ref(), right.as_ref());
        drop(left);
        drop(right);
        Ok(value_of_row(row?))
    } else {
        Ok(NewValue::Unchanged(old))
    }
}

fn table_aggregate_value<'a>(
    number: u8,
    field: Option<&Name>,
    old: Option<StoredValue<'a>>,
    stamped: &StampedRecord<'_>,
) -> NewValue<'a>
    ensures { value_view result ≡ applied (option_copied field.entry) (stored_in old.entry)
        (arrived (arrival_of stamped.now) (Repartition number)) }
{
    if !is_same_topic(stamped.topic, Topic::Repartition(number)) {
        return NewValue::Unchanged(old);
    }
    match &stamped.payload {
        Payload::Delta { delta, .. } => match table_apply(aggregate_in(old), *delta) {
            Some(agg) => NewValue::Aggregate {
                is_count: field.is_none(),
                agg,
            },
            None => NewValue::Absent,
        },
        _ => NewValue::Unchanged(old),
    }
}

fn stream_aggregate_value<'a>(
    field: Option<&Name>,
    old: Option<StoredValue<'a>>,
    item: &Option<Item>,
) -> NewValue<'a>
    ensures { value_view result ≡ added (option_copied field.entry) (stored_in old.entry)
        (option_map item_view item.now) }
{
    match item {
        Some(item) => NewValue::Aggregate {
            is_count: field.is_none(),
            agg: stream_add(field, aggregate_in(old), &item.row),
        },
        None => NewValue::Unchanged(old),
    }
}

// What a node stores at the key after the step, where it stores this before it.
fn new_value<'a, H: Hash128>(
    alloc: Global,
    node: &ProcessorNode<'_>,
    old: Option<StoredValue<'a>>,
    values: &NodeValues<'_, '_>,
    stamped: &'a StampedRecord<'a>,
) -> Result<NewValue<'a>, AllocError>
    requires { stored_in old ≡ olds_in values.now node.now.topics.number }
    ensures { IfOk result (λ v. value_view v ≡ value_at (rules_of H.hash_of)
        (arrival_of stamped.now) (items_in values.now) (olds_in values.now) (news_in values.now)
        node.now.topics.number (kind_of node.now.processor)) }
{
    let number = node.topics.number;
    match &node.processor {
        Processor::TableSource { topic } => Ok(source_value(*topic, old, stamped)),
        Processor::TableFilter { from, test } => filter_value(alloc, *from, test, old, values),
        Processor::TableMap { from, set } => map_value(alloc, number, *from, set, old, values),
        Processor::StreamAggregate {
            from,
            field,
            through,
            ..
        } => {
            let item = item_into(alloc, values.items, number, *from, *through, stamped)?;
            let value = stream_aggregate_value(*field, old, &item);
            drop(item);
            Ok(value)
        }
        Processor::TableAggregate { field, .. } => {
            Ok(table_aggregate_value(number, *field, old, stamped))
        }
        Processor::KeyJoin(join) => join_value(alloc, join, old, values),
        Processor::ForeignKeyJoin(join) => {
            foreign_value::<H>(alloc, number, join, old, values, stamped)
        }
        _ => Ok(NewValue::Unchanged(old)),
    }
}

// Whether nothing that a node reads changes what it stores at the key, whatever that is: it needn't be looked up then.
fn stays(
    alloc: Global,
    node: &ProcessorNode<'_>,
    values: &NodeValues<'_, '_>,
    stamped: &StampedRecord<'_>,
) -> Result<bool, AllocError>
    ensures { IfOk result (λ b. b ≡ stays_at (arrival_of stamped.now) (olds_in values.now)
        (news_in values.now) node.now.topics.number (kind_of node.now.processor)) }
{
    let number = node.topics.number;
    match &node.processor {
        Processor::TableSource { topic } => Ok(is_elsewhere(stamped, Topic::Input(*topic))),
        Processor::TableFilter { from, .. } => Ok(!is_changed(values, *from)),
        Processor::TableMap { from, .. } => Ok(!is_changed(values, *from)),
        Processor::TableAggregate { .. } => Ok(is_elsewhere(stamped, Topic::Repartition(number))),
        Processor::KeyJoin(join) => {
            Ok(!(is_changed(values, join.left) || is_changed(values, join.right)))
        }
        Processor::ForeignKeyJoin(join) => foreign_stays(alloc, number, join, values, stamped),
        _ => Ok(false),
    }
}

// The same of a node that wasn't gone through yet.
fn is_still(
    alloc: Global,
    live: &[LiveValue<'_>],
    step: &Step<'_>,
    items: &[Option<Item>],
    node: &ProcessorNode<'_>,
) -> Result<bool, AllocError>
    ensures { IfOk result (λ b. b ≡ still (arrival_of step.now.stamped.now) (olds_at step.now)
        live.now node.now.topics.number (kind_of node.now.processor)) }
{
    match live_value(live, node.topics.number) {
        Some(_) => Ok(false),
        None => {
            let values = NodeValues { step, items, live };
            stays(alloc, node, &values, step.stamped)
        }
    }
}

// What a node stores at the step's key before and after it, behind those of the nodes before it, where it doesn't stay.
fn push_live_value<'v, H: Hash128>(
    alloc: Global,
    live: &mut Vec<LiveValue<'v>>,
    step: &Step<'v>,
    key: &Key,
    items: &[Option<Item>],
    node: &ProcessorNode<'_>,
) -> Result<(), AllocError>
    requires olds { live_olds (olds_at step.now) live.old.items ≡ olds_at step.now }
    requires node { stored_at (stores_in step.now.changelogs.now) key.now (node_view node.now)
        ≡ olds_at step.now node.now.topics.number }
    ensures olds { OnOk result (live_olds (olds_at step.now) live.new.items ≡ olds_at step.now) }
    ensures news { OnOk result (live_news (olds_at step.now) live.new.items
        ≡ with_number (live_news (olds_at step.now) live.old.items) node.now.topics.number
        (value_at (rules_of H.hash_of) (arrival_of step.now.stamped.now)
        (item_in (views items.now)) (olds_at step.now)
        (live_news (olds_at step.now) live.old.items) node.now.topics.number
        (kind_of node.now.processor))) }
{
    let still = is_still(alloc, live.as_slice(), step, items, node)?;
    if still {
        Ok(())
    } else {
        push_value::<H>(alloc, live, step, key, items, node)
    }
}

// What a node stores at the step's key before and after it, behind those of the nodes before it.
fn push_value<'v, H: Hash128>(
    alloc: Global,
    live: &mut Vec<LiveValue<'v>>,
    step: &Step<'v>,
    key: &Key,
    items: &[Option<Item>],
    node: &ProcessorNode<'_>,
) -> Result<(), AllocError>
    requires olds { live_olds (olds_at step.now) live.old.items ≡ olds_at step.now }
    requires node { stored_at (stores_in step.now.changelogs.now) key.now (node_view node.now)
        ≡ olds_at step.now node.now.topics.number }
    ensures olds { OnOk result (live_olds (olds_at step.now) live.new.items ≡ olds_at step.now) }
    ensures news { OnOk result (live_news (olds_at step.now) live.new.items
        ≡ with_number (live_news (olds_at step.now) live.old.items) node.now.topics.number
        (value_at (rules_of H.hash_of) (arrival_of step.now.stamped.now)
        (item_in (views items.now)) (olds_at step.now)
        (live_news (olds_at step.now) live.old.items) node.now.topics.number
        (kind_of node.now.processor))) }
{
    let old = stored_value(step.changelogs, key, node);
    let values = NodeValues {
        step,
        items,
        live: live.as_slice(),
    };
    let new = new_value::<H>(alloc, node, old, &values, step.stamped)?;
    let Ok(is_changed) = is_other_row(alloc, old, &new) else {
        drop(new);
        return Err(AllocError);
    };
    live.push(LiveValue {
        number: node.topics.number,
        old,
        new,
        is_changed,
    })?;
    Ok(())
}

// The same of the node with a number, where there is one.
fn push_live_at<'v, H: Hash128>(
    alloc: Global,
    live: &mut Vec<LiveValue<'v>>,
    step: &Step<'v>,
    key: &Key,
    items: &[Option<Item>],
    number: u8,
) -> Result<(), AllocError>
    requires key { step_key (message_of step.now.stamped.now.payload) ≡ Some key.now }
    requires olds { live_olds (olds_at step.now) live.old.items ≡ olds_at step.now }
    ensures olds { OnOk result (live_olds (olds_at step.now) live.new.items ≡ olds_at step.now) }
    ensures news { OnOk result (live_news (olds_at step.now) live.new.items
        ≡ valued_by (rules_of H.hash_of) (arrival_of step.now.stamped.now)
        (item_in (views items.now)) (olds_at step.now)
        (live_news (olds_at step.now) live.old.items)
        (slice_get (map node_view step.now.nodes.now) number)) }
{
    match node_at(step.nodes, number) {
        Some(node) => push_live_value::<H>(alloc, live, step, key, items, node),
        None => Ok(()),
    }
}

// The values at a step's key of the nodes that it goes through.
fn live_values_at<'v, H: Hash128>(
    alloc: Global,
    step: &Step<'v>,
    key: &Key,
    items: &[Option<Item>],
) -> Result<Vec<LiveValue<'v>>, AllocError>
    requires { step_key (message_of step.now.stamped.now.payload) ≡ Some key.now }
    ensures olds { IfOk result (λ v. live_olds (olds_at step.now) v.items ≡ olds_at step.now) }
    ensures news { IfOk result (λ v. live_news (olds_at step.now) v.items
        ≡ values_at_numbers (rules_of H.hash_of) (arrival_of step.now.stamped.now)
        (item_in (views items.now)) (olds_at step.now) (map node_view step.now.nodes.now)
        (olds_at step.now) step.now.live.now) }
{
    let mut live = Vec::with_capacity(alloc, step.live.len())?;
    let mut rest = step.live;
    while let [number, more @ ..] = rest {
        push_live_at::<H>(alloc, &mut live, step, key, items, *number)?;
        rest = more;
    }
    Ok(live)
}

/// The values of all nodes that a step goes through, each made of those of the nodes before it; none at all where the record has no key.
/// Of any other node there is no item, and the value stays. Want of memory is the one error.
pub fn live_values<'v, H: Hash128>(
    alloc: Global,
    step: &Step<'v>,
    items: &[Option<Item>],
) -> Result<Vec<LiveValue<'v>>, AllocError>
    requires { NoItems step.now.live.now (item_in (views items.now)) }
    ensures olds { IfOk result (λ v. live_olds (olds_at step.now) v.items ≡ olds_at step.now) }
    ensures news { IfOk result (λ v. live_news (olds_at step.now) v.items
        ≡ value_in (olds_at step.now) (new_list (rules_of H.hash_of)
        (arrival_of step.now.stamped.now) (item_in (views items.now)) (olds_at step.now)
        (step_key (message_of step.now.stamped.now.payload))
        (map node_view step.now.nodes.now))) }
    ensures same { IfOk result (λ v. SameValues step.now.live.now (olds_at step.now)
        (live_news (olds_at step.now) v.items)) }
{
    match step.stamped.key() {
        Some(key) => live_values_at::<H>(alloc, step, key, items),
        None => Ok(Vec::new(alloc)),
    }
}
