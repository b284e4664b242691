//! What a record of a topic says to a task.
ghost use Rattle.std.specs.Prelude.{◌≡◌, Some, None, IfOk, not, map, option_map, option_copied};
ghost use Rattle.ks_record.specs.Texts.{key_from};
ghost use Rattle.ks_record.specs.Records.{record_seen};
ghost use Rattle.ks_row.specs.Reading.{row_from};
ghost use Rattle.ks_plan.specs.Layout.{same_topic};
ghost use Rattle.ks_wire.specs.Reading.{delta_from, subscription_from, response_from};
ghost use Rattle.ks_def_tasks.specs.Messages.{subscription_of};
ghost use Rattle.ks_def_tasks.specs.Messages.Message.{Keyed, Moved, Asked, Answered};
ghost use Rattle.ks_def_tasks.specs.Bytes.{if_there, of_both, given_in, regrouped_in};
ghost use Rattle.ks_def_tasks.specs.Step.{step_key};
ghost use Rattle.ks_task_nodes.specs.Nodes.{kind_of, kinds_in, node_view};
ghost use Rattle.ks_task_nodes.specs.Records.{message_of, message_from, arrival_from, arrival_of};

use crate::encoded::EncodedRow;
use crate::processor::{Processor, ProcessorNode};
use crate::topics::is_same_topic;
use ks_plan::Topic;
use ks_record::{Key, RecordRef};
use ks_wire::{Delta, Response, Subscription, read_delta, read_response, read_subscription};
use std::alloc::{AllocError, Global};

/// What a record says, with the keys that it names.
#[derive(Drop)]
pub enum Payload<'a> {
    /// Of an input topic: the row of a key, or that it is gone.
    Input {
        key: Option<Key>,
        row: Option<EncodedRow<'a>>,
    },
    /// Of the repartition topic of a stream's aggregate: a row of a group.
    Row {
        group: Key,
        row: EncodedRow<'a>,
    },
    /// Of the repartition topic of a table's aggregate: a change of a group.
    Delta {
        group: Key,
        delta: Delta,
    },
    /// Of the subscriptions of a join on a foreign key.
    Subscription {
        foreign: Key,
        subscription: Subscription,
    },
    /// Of its responses, by left key.
    Response {
        left: Key,
        response: Response,
    },
}

/// A record that was read, with its topic and its timestamp in milliseconds.
#[derive(Drop)]
pub struct StampedRecord<'a> {
    pub topic: Topic,
    pub payload: Payload<'a>,
    pub time: u64,
}

/// Whether a record is of another topic than this. Takes no memory.
pub fn is_elsewhere(stamped: &StampedRecord<'_>, topic: Topic) -> bool
    ensures { result ≡ not (same_topic (arrival_of stamped.now).topic topic) }
{
    !is_same_topic(stamped.topic, topic)
}

// None where the bytes are there and spell no key.
fn read_key(alloc: Global, key: Option<&[u8]>) -> Result<Option<Option<Key>>, AllocError>
    ensures { IfOk result (λ o. o ≡ if_there key_from (option_copied key.entry)) }
{
    let Some(bytes) = key else {
        return Ok(Some(None));
    };
    match Key::of(alloc, bytes)? {
        Some(key) => Ok(Some(Some(key))),
        None => Ok(None),
    }
}

// None where the bytes are there and spell no row. Takes no memory.
fn read_row<'a>(value: Option<&'a [u8]>) -> Option<Option<EncodedRow<'a>>>
    ensures { result ≡ if_there row_from (option_copied value.entry) }
{
    let Some(bytes) = value else {
        return Some(None);
    };
    let row = EncodedRow::of(bytes)?;
    Some(Some(row))
}

// Of an input topic.
fn read_input<'a>(alloc: Global, rec: RecordRef<'a>) -> Result<Option<Payload<'a>>, AllocError>
    ensures { IfOk result (λ o. option_map message_of o ≡ given_in (record_seen rec.entry)) }
{
    let Some(key) = read_key(alloc, rec.key)? else {
        return Ok(None);
    };
    let Some(row) = read_row(rec.value) else {
        return Ok(None);
    };
    Ok(Some(Payload::Input { key, row }))
}

// Of the repartition topic of a stream's aggregate.
fn read_grouped<'a>(alloc: Global, rec: RecordRef<'a>) -> Result<Option<Payload<'a>>, AllocError>
    ensures { IfOk result (λ o. option_map message_of o
        ≡ of_both key_from row_from Keyed (record_seen rec.entry)) }
{
    let (Some(key), Some(value)) = (rec.key, rec.value) else {
        return Ok(None);
    };
    let Some(group) = Key::of(alloc, key)? else {
        return Ok(None);
    };
    let Some(row) = EncodedRow::of(value) else {
        return Ok(None);
    };
    Ok(Some(Payload::Row { group, row }))
}

// Of the repartition topic of a table's aggregate.
fn read_change<'a>(alloc: Global, rec: RecordRef<'a>) -> Result<Option<Payload<'a>>, AllocError>
    ensures { IfOk result (λ o. option_map message_of o
        ≡ of_both key_from delta_from Moved (record_seen rec.entry)) }
{
    let (Some(key), Some(value)) = (rec.key, rec.value) else {
        return Ok(None);
    };
    let Some(group) = Key::of(alloc, key)? else {
        return Ok(None);
    };
    let Some(delta) = read_delta(value) else {
        return Ok(None);
    };
    Ok(Some(Payload::Delta { group, delta }))
}

// Of the subscriptions of a join on a foreign key.
fn read_subscribed<'a>(alloc: Global, rec: RecordRef<'a>) -> Result<Option<Payload<'a>>, AllocError>
    ensures { IfOk result (λ o. option_map message_of o
        ≡ of_both key_from subscription_from (λ b v. Asked b v.left (subscription_of v))
        (record_seen rec.entry)) }
{
    let (Some(key), Some(value)) = (rec.key, rec.value) else {
        return Ok(None);
    };
    let Some(foreign) = Key::of(alloc, key)? else {
        return Ok(None);
    };
    let Some(subscription) = read_subscription(alloc, value)? else {
        return Ok(None);
    };
    Ok(Some(Payload::Subscription {
        foreign,
        subscription,
    }))
}

// Of its responses.
fn read_responded<'a>(alloc: Global, rec: RecordRef<'a>) -> Result<Option<Payload<'a>>, AllocError>
    ensures { IfOk result (λ o. option_map message_of o
        ≡ of_both key_from response_from Answered (record_seen rec.entry)) }
{
    let (Some(key), Some(value)) = (rec.key, rec.value) else {
        return Ok(None);
    };
    let Some(left) = Key::of(alloc, key)? else {
        return Ok(None);
    };
    let Some(response) = read_response(alloc, value)? else {
        return Ok(None);
    };
    Ok(Some(Payload::Response { left, response }))
}

// Of a repartition topic, by the node that it leads to.
fn read_repartitioned<'a>(
    alloc: Global,
    processor: &Processor<'_>,
    rec: RecordRef<'a>,
) -> Result<Option<Payload<'a>>, AllocError>
    ensures { IfOk result (λ o. option_map message_of o
        ≡ regrouped_in (kind_of processor.now) (record_seen rec.entry)) }
{
    match processor {
        Processor::StreamAggregate { .. } => read_grouped(alloc, rec),
        Processor::WindowedCount { .. } => read_grouped(alloc, rec),
        Processor::TableAggregate { .. } => read_change(alloc, rec),
        _ => Ok(None),
    }
}

fn read_payload<'a>(
    alloc: Global,
    nodes: &[ProcessorNode<'_>],
    topic: Topic,
    rec: RecordRef<'a>,
) -> Result<Option<Payload<'a>>, AllocError>
    ensures { IfOk result (λ o. option_map message_of o
        ≡ message_from (kinds_in (map node_view nodes.now)) topic (record_seen rec.entry)) }
{
    match topic {
        Topic::Input(_) => read_input(alloc, rec),
        Topic::Repartition(number) => match nodes.get(number as usize) {
            Some(node) => read_repartitioned(alloc, &node.processor, rec),
            None => Ok(None),
        },
        Topic::Subscriptions(_) => read_subscribed(alloc, rec),
        Topic::Responses(_) => read_responded(alloc, rec),
        _ => Ok(None),
    }
}

/// What a record of a topic says; none where it spells nothing of the topic's kind. Want of memory is the one error.
pub fn read_record<'a>(
    alloc: Global,
    nodes: &[ProcessorNode<'_>],
    topic: Topic,
    rec: RecordRef<'a>,
) -> Result<Option<StampedRecord<'a>>, AllocError>
    ensures { IfOk result (λ o. option_map arrival_of o
        ≡ arrival_from (kinds_in (map node_view nodes.now)) topic (record_seen rec.entry)) }
{
    match read_payload(alloc, nodes, topic, rec)? {
        Some(payload) => Ok(Some(StampedRecord {
            topic,
            payload,
            time: rec.ts,
        })),
        None => Ok(None),
    }
}

impl<'a> StampedRecord<'a> {
    /// The key at which tables change; none of a subscription, nor of an input record without a key.
    pub fn key(&self) -> Option<&Key>
        ensures { option_copied result ≡ step_key (message_of self.now.payload) }
    {
        match &self.payload {
            Payload::Input { key, .. } => key.as_ref(),
            Payload::Row { group, .. } => Some(group),
            Payload::Delta { group, .. } => Some(group),
            Payload::Subscription { .. } => None,
            Payload::Response { left, .. } => Some(left),
        }
    }
}
