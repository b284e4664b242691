//! The sides of a join on a foreign key (KIP-213).
ghost use Rattle.std.specs.Prelude.{◌≡◌, ◌≤◌, ◌++◌, ◌∷◌, [], IfOk, OnOk, Some, None, map, option_map, option_copied, nat_eq};
ghost use Rattle.std.specs.List.{flat_map};
ghost use Rattle.ks_plan.specs.declared.node.Topic.TheVariants.{Subscriptions};
ghost use Rattle.ks_def_tasks.specs.Messages.{shown, subscription_of, same_option, same_subscriber};
ghost use Rattle.ks_def_tasks.specs.Foreign.{subscriptions as asked_of, answer_to, answer_all};
ghost use Rattle.ks_def_tasks.specs.Step.{arrived, step_key, row_in, send_responses, answer_of};
ghost use Rattle.ks_wire.specs.Spelling.{subscriber_bytes};
ghost use Rattle.ks_wire.specs.Values.{IsPart};
ghost use Rattle.ks_def_tasks.specs.Messages.Message.{Asked, Answered};
ghost use Rattle.ks_fk_left.specs.Asked.{told};
ghost use Rattle.ks_def_lookups.specs.Kept.{kept_under};
ghost use Rattle.ks_def_tasks.specs.Rules.{rules_of};
ghost use Rattle.ks_task_nodes.specs.Nodes.{node_view};
ghost use Rattle.ks_task_nodes.specs.Records.{arrival_of, message_of};
ghost use Rattle.ks_task_values.specs.Changes.{in_list};
ghost use Rattle.ks_task_values.specs.Values.{olds_in, news_in, old_list};
ghost use Rattle.ks_task_processing.specs.Steps.{named_by, asked_at, answered_part, answered_at, sent_at, sent_by, asked_by, kept_at, subscriber_under, kept_told, hash_here, hash_told, hashed_by, left_sends, right_sends, join_here, answer_here};
ghost use Rattle.ks_cache.specs.Changelogs.{stores_in};

use crate::sends::{push_send, push_told};
use ks_cache::{Changelog, TaskStore, find_bytes};
use ks_fk_left::subscriptions_by;
use ks_fk_right::{answer, kept_of, on_right};
use ks_hash::Hash128;
use ks_plan::Topic;
use ks_record::{Blob, Key, PartId, PlacedRecords};
use ks_row::{Change, Row};
use ks_task_nodes::{
    ForeignKeyJoin, Payload, ProcessorNode, StampedRecord, is_same_topic, stored_row,
};
use ks_task_processing::part_for;
use ks_task_values::{NodeValues, Step, change_at, is_changed, new_hash, new_row, stored_value};
use ks_wire::{
    Response, Subscriber, Subscription, read_subscriber, write_response, write_subscriber,
    write_subscription, write_subscription_key,
};
use std::alloc::{AllocError, Global};

// ---- what a changed row of a side sends

// The partition that a join's subscriptions name, where they name one.
fn named_partition(node: &ProcessorNode<'_>, partition: u8) -> Option<u8>
    requires { partition ≤ 63 }
    ensures named { result ≡ named_by (node_view node.now) partition }
    ensures few { IsPart result }
{
    if node.names_partition {
        Some(partition)
    } else {
        None
    }
}

// The place of a foreign key among those of a join's subscriptions.
fn subscription_place(node: &ProcessorNode<'_>, foreign: &Key) -> PartId
    ensures { result ≡ asked_at (node_view node.now) foreign.now }
{
    PartId {
        topic: node.topics.subscriptions,
        part: part_for(node.right_before, foreign, node.topics.right_partitions),
    }
}

// The partition of a response to a left key: the one that was named, where the topic has it; where none was named, that of the key.
fn response_part(node: &ProcessorNode<'_>, left: &Key, named: Option<u8>) -> Option<u8>
    ensures { result ≡ answered_part (node_view node.now) left.now named }
{
    let Some(part) = named else {
        return Some(part_for(None, left, node.topics.partitions));
    };
    if part < node.topics.partitions {
        Some(part)
    } else {
        None
    }
}

fn response_place(node: &ProcessorNode<'_>, left: &Key, named: Option<u8>) -> Option<PartId>
    ensures { result ≡ answered_at (node_view node.now) left.now named }
{
    let part = response_part(node, left, named)?;
    Some(PartId {
        topic: node.topics.responses,
        part,
    })
}

fn push_subscriptions(
    alloc: Global,
    out: &mut PlacedRecords,
    node: &ProcessorNode<'_>,
    asked: &[(Key, Subscription)],
    time: u64,
) -> Result<(), AllocError>
    ensures { OnOk result (out.new ≡ out.old
        ++ map (asked_by (node_view node.now) time) asked.now) }
{
    for (foreign, subscription) in asked {
        let value = write_subscription(alloc, subscription)?;
        let to = subscription_place(node, foreign);
        let pushed = push_send(out, to, foreign, value.as_slice(), time);
        drop(value);
        pushed?;
    }
    Ok(())
}

// A response to a left key, where it has a place.
fn push_response(
    alloc: Global,
    out: &mut PlacedRecords,
    to: Option<PartId>,
    left: &Key,
    response: &Response,
    time: u64,
) -> Result<(), AllocError>
    ensures { OnOk result (out.new ≡ out.old
        ++ sent_at time (Answered left.now response.now) to) }
{
    let Some(to) = to else {
        return Ok(());
    };
    let value = write_response(alloc, response)?;
    let pushed = push_send(out, to, left, value.as_slice(), time);
    drop(value);
    pushed
}

fn push_responses(
    alloc: Global,
    out: &mut PlacedRecords,
    node: &ProcessorNode<'_>,
    responses: &[(Key, Response, Option<u8>)],
    time: u64,
) -> Result<(), AllocError>
    ensures { OnOk result (out.new ≡ out.old
        ++ flat_map (sent_by (node_view node.now) time)
        (send_responses node.now.topics.number responses.now)) }
{
    for (left, response, named) in responses {
        let to = response_place(node, left, *named);
        push_response(alloc, out, to, left, response, time)?;
    }
    Ok(())
}

// What a left row that changed asks.
fn asked_by_left<H: Hash128>(
    alloc: Global,
    join: &ForeignKeyJoin<'_>,
    part: Option<u8>,
    values: &NodeValues<'_, '_>,
    key: &Key,
) -> Result<Vec<(Key, Subscription)>, AllocError>
    requires part { IsPart part }
    ensures { IfOk result (λ v. v.items ≡ told key.now
        (asked_of (rules_of H.hash_of).hash join.now.foreign_key.now key.now part
        (row_in (olds_in values.now) join.now.left) (row_in (news_in values.now) join.now.left))) }
{
    let hash = new_hash::<H>(alloc, values, join.left)?;
    let change = change_at(alloc, values, key.clone()?, join.left)?;
    let asked = subscriptions_by::<H>(alloc, join.foreign_key, part, &change, hash);
    drop(change);
    let (asked, _) = asked?;
    Ok(asked)
}

fn responses_in(
    alloc: Global,
    changelogs: &[Changelog],
    number: u16,
    change: &Change,
) -> Result<Vec<(Key, Response, Option<u8>)>, AllocError>
    ensures { IfOk result (λ v. v.items ≡ answer_all change.now.new
        (kept_under change.now.key (stores_in changelogs.now number))) }
{
    let mut rest = changelogs;
    while let [changelog, more @ ..] = rest {
        if number == changelog.topic {
            return on_right(alloc, &changelog.store, change);
        }
        rest = more;
    }
    let none = TaskStore::new(alloc, 0);
    let answers = on_right(alloc, &none, change);
    drop(none);
    answers
}

fn responses_to(
    alloc: Global,
    changelogs: &[Changelog],
    node: &ProcessorNode<'_>,
    change: &Change,
) -> Result<Vec<(Key, Response, Option<u8>)>, AllocError>
    ensures { IfOk result (λ v. v.items ≡ answer_all change.now.new
        (kept_at (stores_in changelogs.now) (node_view node.now) change.now.key)) }
{
    if node.topics.has_right {
        responses_in(alloc, changelogs, node.topics.hash_changelog, change)
    } else {
        Ok(Vec::new(alloc))
    }
}

// A right row that changed answers.
fn push_right(
    alloc: Global,
    out: &mut PlacedRecords,
    changelogs: &[Changelog],
    node: &ProcessorNode<'_>,
    change: &Change,
    time: u64,
) -> Result<(), AllocError>
    ensures { OnOk result (out.new ≡ out.old
        ++ flat_map (sent_by (node_view node.now) time)
        (send_responses node.now.topics.number
        (answer_all change.now.new (kept_at (stores_in changelogs.now) (node_view node.now)
        change.now.key)))) }
{
    let responses = responses_to(alloc, changelogs, node, change)?;
    let pushed = push_responses(alloc, out, node, &responses, time);
    drop(responses);
    pushed
}

#[tactic(auto, using(crate::proofs::Asking::asked_is))]
fn push_left_if<H: Hash128>(
    alloc: Global,
    out: &mut PlacedRecords,
    step: &Step<'_>,
    node: &ProcessorNode<'_>,
    join: &ForeignKeyJoin<'_>,
    values: &NodeValues<'_, '_>,
    key: &Key,
) -> Result<(), AllocError>
    requires { step.now.partition ≤ 63 }
    ensures { OnOk result (out.new ≡ out.old
        ++ flat_map (sent_by (node_view node.now) step.now.stamped.now.time)
        (left_sends (rules_of H.hash_of) step.now.partition (node_view node.now)
        join.now.foreign_key.now key.now (row_in (olds_in values.now) join.now.left)
        (row_in (news_in values.now) join.now.left))) }
{
    if is_changed(values, join.left) {
        let part = named_partition(node, step.partition);
        let asked = asked_by_left::<H>(alloc, join, part, values, key)?;
        let pushed = push_subscriptions(alloc, out, node, &asked, step.stamped.time);
        drop(asked);
        pushed
    } else {
        Ok(())
    }
}

fn push_right_if(
    alloc: Global,
    out: &mut PlacedRecords,
    step: &Step<'_>,
    node: &ProcessorNode<'_>,
    right: u8,
    values: &NodeValues<'_, '_>,
    key: &Key,
) -> Result<(), AllocError>
    ensures { OnOk result (out.new ≡ out.old
        ++ flat_map (sent_by (node_view node.now) step.now.stamped.now.time)
        (right_sends (stores_in step.now.changelogs.now) (node_view node.now) key.now
        (row_in (olds_in values.now) right) (row_in (news_in values.now) right))) }
{
    if is_changed(values, right) {
        let change = change_at(alloc, values, key.clone()?, right)?;
        let pushed = push_right(
            alloc,
            out,
            step.changelogs,
            node,
            &change,
            step.stamped.time,
        );
        drop(change);
        pushed
    } else {
        Ok(())
    }
}

/// What both sides send of their changed rows at the step's key; the step's partition is at most 63. Want of memory is the one error.
#[tactic(auto, using(crate::proofs::Asking::both_sent))]
pub fn push_join<H: Hash128>(
    alloc: Global,
    out: &mut PlacedRecords,
    step: &Step<'_>,
    node: &ProcessorNode<'_>,
    join: &ForeignKeyJoin<'_>,
    values: &NodeValues<'_, '_>,
) -> Result<(), AllocError>
    requires { step.now.partition ≤ 63 }
    ensures { OnOk result (out.new ≡ out.old
        ++ flat_map (sent_by (node_view node.now) step.now.stamped.now.time)
        (join_here (rules_of H.hash_of) (stores_in step.now.changelogs.now) step.now.partition
        (node_view node.now) join.now.foreign_key.now join.now.left join.now.right
        (olds_in values.now) (news_in values.now)
        (step_key (message_of step.now.stamped.now.payload)))) }
{
    let Some(key) = step.stamped.key() else {
        return Ok(());
    };
    push_left_if::<H>(alloc, out, step, node, join, values, key)?;
    push_right_if(alloc, out, step, node, join.right, values, key)
}

// ---- the answer to a subscription

// The right row of the moment, at a foreign key.
fn right_row(
    alloc: Global,
    step: &Step<'_>,
    right: u8,
    foreign: &Key,
) -> Result<Option<Row>, AllocError>
    ensures { IfOk result (λ r. r ≡ option_map shown
        (in_list (old_list (stores_in step.now.changelogs.now) (Some foreign.now)
        (map node_view step.now.nodes.now)) right)) }
{
    match step.nodes.get(right as usize) {
        Some(node) => stored_row(alloc, stored_value(step.changelogs, foreign, node)),
        None => Ok(None),
    }
}

// The answer to a subscription, where there is one, to the partition that it names.
fn push_answer_to(
    alloc: Global,
    out: &mut PlacedRecords,
    node: &ProcessorNode<'_>,
    subscription: &Subscription,
    right: Option<&Row>,
    time: u64,
) -> Result<(), AllocError>
    ensures { OnOk result (out.new ≡ out.old
        ++ flat_map (sent_by (node_view node.now) time)
        (send_responses node.now.topics.number (answer_of subscription.now.left
        subscription.now.part (answer_to (subscription_of subscription.now)
        (option_copied right.entry))))) }
{
    let Some(response) = answer(subscription, right)? else {
        return Ok(());
    };
    let left = subscription.left();
    let to = response_place(node, left, subscription.part());
    let pushed = push_response(alloc, out, to, left, &response, time);
    drop(response);
    pushed
}

/// The answer to a subscription, with the right row of the moment. Want of memory is the one error.
pub fn push_answer(
    alloc: Global,
    out: &mut PlacedRecords,
    step: &Step<'_>,
    node: &ProcessorNode<'_>,
    right: u8,
) -> Result<(), AllocError>
    ensures { OnOk result (out.new ≡ out.old
        ++ flat_map (sent_by (node_view node.now) step.now.stamped.now.time)
        (answer_here (map node_view step.now.nodes.now) (stores_in step.now.changelogs.now)
        node.now.topics.number right (arrived (arrival_of step.now.stamped.now)
        (Subscriptions node.now.topics.number)))) }
{
    if !is_same_topic(step.stamped.topic, Topic::Subscriptions(node.topics.number)) {
        return Ok(());
    }
    match &step.stamped.payload {
        Payload::Subscription {
            foreign,
            subscription,
        } => {
            let row = right_row(alloc, step, right, foreign)?;
            let time = step.stamped.time;
            let pushed = push_answer_to(alloc, out, node, subscription, row.as_ref(), time);
            drop(row);
            pushed
        }
        _ => Ok(()),
    }
}

// ---- what is kept of a subscription

// The subscriber that is kept at a subscription's key.
fn subscriber_at(
    changelogs: &[Changelog],
    node: &ProcessorNode<'_>,
    key: &Blob,
) -> Option<Subscriber>
    ensures { result ≡ subscriber_under (stores_in changelogs.now) (node_view node.now) key.now }
{
    if !node.topics.has_right {
        return None;
    }
    match find_bytes(changelogs, node.topics.hash_changelog, key.as_slice()) {
        Some(bytes) => read_subscriber(bytes),
        None => None,
    }
}

fn is_same_part(a: Option<u8>, b: Option<u8>) -> bool
    ensures { result ≡ same_option nat_eq a b }
{
    match (a, b) {
        (None, None) => true,
        (Some(a), Some(b)) => a == b,
        _ => false,
    }
}

fn is_same_subscriber(a: Option<Subscriber>, b: Option<Subscriber>) -> bool
    ensures { result ≡ same_option same_subscriber a b }
{
    match (a, b) {
        (None, None) => true,
        (Some(a), Some(b)) => a.hash == b.hash && is_same_part(a.part, b.part),
        _ => false,
    }
}

fn subscriber_value(
    alloc: Global,
    subscriber: Option<Subscriber>,
) -> Result<Option<Blob>, AllocError>
    ensures { IfOk result (λ v. v ≡ option_map subscriber_bytes subscriber) }
{
    match subscriber {
        Some(subscriber) => Ok(Some(write_subscriber(alloc, subscriber)?)),
        None => Ok(None),
    }
}

fn push_new_subscriber(
    alloc: Global,
    out: &mut PlacedRecords,
    step: &Step<'_>,
    node: &ProcessorNode<'_>,
    key: &Blob,
    subscriber: Option<Subscriber>,
) -> Result<(), AllocError>
    ensures { OnOk result (out.new ≡ out.old
        ++ kept_told (node_view node.now) step.now.partition step.now.stamped.now.time key.now
        subscriber ∷ []) }
{
    let value = subscriber_value(alloc, subscriber)?;
    let to = PartId {
        topic: node.topics.hash_changelog,
        part: step.partition,
    };
    let pushed = push_told(out, to, key.as_slice(), &value, step.stamped.time);
    drop(value);
    pushed
}

fn push_other_subscriber(
    alloc: Global,
    out: &mut PlacedRecords,
    step: &Step<'_>,
    node: &ProcessorNode<'_>,
    foreign: &Key,
    subscription: &Subscription,
) -> Result<(), AllocError>
    ensures { OnOk result (out.new ≡ out.old
        ++ map (hash_told (node_view node.now) step.now.partition step.now.stamped.now.time)
        (hash_here (stores_in step.now.changelogs.now) (node_view node.now)
        (Some (Asked foreign.now subscription.now.left (subscription_of subscription.now))))) }
{
    let left = subscription.left();
    let key = write_subscription_key(alloc, foreign, left)?;
    let old = subscriber_at(step.changelogs, node, &key);
    let new = kept_of(subscription);
    if is_same_subscriber(old, new) {
        drop(key);
        Ok(())
    } else {
        let pushed = push_new_subscriber(alloc, out, step, node, &key, new);
        drop(key);
        pushed
    }
}

/// The changelog record of what is kept of a subscription, where it is other than it was. Want of memory is the one error.
pub fn push_subscriber(
    alloc: Global,
    out: &mut PlacedRecords,
    step: &Step<'_>,
    node: &ProcessorNode<'_>,
) -> Result<(), AllocError>
    ensures { OnOk result (out.new ≡ out.old
        ++ hashed_by step.now.partition (stores_in step.now.changelogs.now)
        (arrival_of step.now.stamped.now) (node_view node.now)) }
{
    if !is_same_topic(step.stamped.topic, Topic::Subscriptions(node.topics.number)) {
        return Ok(());
    }
    match &step.stamped.payload {
        Payload::Subscription {
            foreign,
            subscription,
        } => push_other_subscriber(alloc, out, step, node, foreign, subscription),
        _ => Ok(()),
    }
}
