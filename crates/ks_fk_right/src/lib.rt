//! The right side of a foreign-key join: what it keeps of a subscription, and what it answers (KIP-213).
#![tactic(auto)]

ghost use Rattle.std.specs.Prelude.{◌≡◌, ◌++◌, ◌∷◌, [], Some, None, IfOk, OnOk, OnErr, option_copied, option_map};
ghost use Rattle.ks_def_runs.specs.Bytes.{by_bytes};
ghost use Rattle.ks_def_runs.specs.Table.{write};
ghost use Rattle.ks_wire.specs.Spelling.{subscription_key, subscriber_bytes, long_key};
ghost use Rattle.ks_query.specs.Streams.{some_of};
ghost use Rattle.ks_def_tasks.specs.Messages.{subscription_of, instruction_of};
ghost use Rattle.ks_def_tasks.specs.Foreign.{subscribed, answer_to, answer_all};
ghost use Rattle.ks_def_lookups.specs.Kept.{kept_in, kept_under};

use ks_record::{Blob, Key};
use ks_row::{Change, Row};
use ks_store::KvStore;
use ks_wire::{
    Response, Subscriber, Subscription, read_subscriber, read_subscription_key, write_subscriber,
    write_subscription_key,
};
use std::alloc::{AllocError, Global};

fn copy_row(row: Option<&Row>) -> Result<Option<Row>, AllocError>
    ensures { IfOk result (λ r. r ≡ option_copied row.entry) }
{
    match row {
        Some(row) => Ok(Some(row.clone()?)),
        None => Ok(None),
    }
}

/// What is kept of a subscription: the instructions 2 and 3 put its hash, with the partition that it names, the others delete.
pub fn kept_of(subscription: &Subscription) -> Option<Subscriber>
    ensures { result ≡ subscribed (subscription_of subscription.now) }
{
    match subscription.instruction() {
        0 | 1 => None,
        _ => match subscription.hash() {
            Some(hash) => Some(Subscriber {
                hash,
                part: subscription.part(),
            }),
            None => None,
        },
    }
}

/// The answer to a subscription, with the right row of the moment (KIP-213): none to the instruction 0, nor to 3 without a right row. Its
/// hash is that of the subscription.
pub fn answer(
    subscription: &Subscription,
    right: Option<&Row>,
) -> Result<Option<Response>, AllocError>
    ensures { IfOk result (λ r. r ≡ answer_to (subscription_of subscription.now)
        (option_copied right.entry)) }
{
    match subscription.instruction() {
        0 => Ok(None),
        1 => Ok(Some(Response {
            hash: None,
            right: None,
        })),
        2 => Ok(Some(Response {
            hash: subscription.hash(),
            right: copy_row(right)?,
        })),
        _ => match right {
            Some(row) => Ok(Some(Response {
                hash: subscription.hash(),
                right: Some(row.clone()?),
            })),
            None => Ok(None),
        },
    }
}

// Keeps a subscriber at a place of the store.
fn put_kept<S: KvStore>(
    alloc: Global,
    store: &mut S,
    place: &[u8],
    subscriber: Subscriber,
) -> Result<(), AllocError>
    ensures kept { OnOk result (S.contents store.new
        ≡ write by_bytes (S.contents store.old) place.now (Some (subscriber_bytes subscriber))) }
    ensures err { OnErr result (S.contents store.new ≡ S.contents store.old) }
{
    let value = write_subscriber(alloc, subscriber)?;
    store.put(place, value.as_slice())
}

// Keeps a subscriber at a place of the store; without one, deletes what is there.
fn set_kept<S: KvStore>(
    alloc: Global,
    store: &mut S,
    place: &[u8],
    subscriber: Option<Subscriber>,
) -> Result<(), AllocError>
    ensures kept { OnOk result (S.contents store.new
        ≡ write by_bytes (S.contents store.old) place.now
        (option_map subscriber_bytes subscriber)) }
    ensures err { OnErr result (S.contents store.new ≡ S.contents store.old) }
{
    match subscriber {
        Some(subscriber) => put_kept(alloc, store, place, subscriber),
        None => {
            store.delete(place);
            Ok(())
        }
    }
}

/// Takes a subscription to a foreign key: keeps its hash with the partition that it names, or deletes what is there, and answers with the
/// right row of the moment, to that partition; none where the instruction is 0, or 3 and there is no right row. Where it names no
/// partition, the answer goes to that of the left key. After want of memory the store is as before.
pub fn on_subscription<S: KvStore>(
    alloc: Global,
    store: &mut S,
    foreign: &Key,
    subscription: &Subscription,
    right: Option<&Row>,
) -> Result<Option<(Response, Option<u8>)>, AllocError>
    ensures kept { OnOk result (S.contents store.new
        ≡ write by_bytes (S.contents store.old) (subscription_key foreign.now subscription.now.left)
        (option_map subscriber_bytes (subscribed (subscription_of subscription.now)))) }
    ensures answer { IfOk result (λ r. r ≡ option_map (λ y. (y, subscription.now.part))
        (answer_to (subscription_of subscription.now) (option_copied right.entry))) }
    ensures err { OnErr result (S.contents store.new ≡ S.contents store.old) }
{
    let response = answer(subscription, right)?;
    let Ok(key) = write_subscription_key(alloc, foreign, subscription.left()) else {
        drop(response);
        return Err(AllocError);
    };
    let kept = set_kept(alloc, store, key.as_slice(), kept_of(subscription));
    drop(key);
    let Ok(()) = kept else {
        drop(response);
        return Err(AllocError);
    };
    match response {
        Some(response) => Ok(Some((response, subscription.part()))),
        None => Ok(None),
    }
}

/// The front of all keys of the store that stand under a foreign key.
fn front_of(alloc: Global, foreign: &Key) -> Result<Vec<u8>, AllocError>
    ensures { IfOk result (λ v. v.items ≡ long_key foreign.now) }
{
    let bytes = foreign.as_str().as_bytes();
    let mut front = Vec::new(alloc);
    front.extend_from_slice(&(bytes.len() as u32).to_be_bytes())?;
    front.extend_from_slice(bytes)?;
    Ok(front)
}

/// The left key and the subscriber of a pair of the store; none where the pair is spelled otherwise.
#[tactic(auto, unfolding(ks_def_lookups::specs::Kept::kept_in))]
fn read_kept(
    alloc: Global,
    key: &Blob,
    value: &Blob,
) -> Result<Option<(Key, Subscriber)>, AllocError>
    ensures { IfOk result (λ o. o ≡ kept_in (key.now, value.now)) }
{
    let Some((_, left)) = read_subscription_key(alloc, key.as_slice())? else {
        return Ok(None);
    };
    let Some(subscriber) = read_subscriber(value.as_slice()) else {
        return Ok(None);
    };
    Ok(Some((left, subscriber)))
}

// The answer to a left key that the store keeps, behind those before it.
fn push_answer(
    answers: &mut Vec<(Key, Response, Option<u8>)>,
    left: Key,
    subscriber: Subscriber,
    row: Option<&Row>,
) -> Result<(), AllocError>
    ensures { OnOk result (answers.new.items ≡ answers.old.items
        ++ answer_all (option_copied row.entry) ((left, subscriber) ∷ [])) }
{
    let Ok(right) = copy_row(row) else {
        drop(left);
        return Err(AllocError);
    };
    let response = Response {
        hash: Some(subscriber.hash),
        right,
    };
    answers.push((left, response, subscriber.part))?;
    Ok(())
}

/// What a changed right row answers: to each left key that the store keeps under it, in order, the hash that is kept and the new
/// right row or none, and the partition that the subscription named, if it named one.
pub fn on_right<S: KvStore>(
    alloc: Global,
    store: &S,
    change: &Change,
) -> Result<Vec<(Key, Response, Option<u8>)>, AllocError>
    ensures { IfOk result (λ v. v.items ≡ answer_all change.now.new
        (kept_under change.now.key (S.contents store.now))) }
{
    let front = front_of(alloc, &change.key)?;
    let pairs = store.prefix(&front)?;
    let mut answers = Vec::new(alloc);
    for (key, value) in &pairs {
        if let Some((left, subscriber)) = read_kept(alloc, key, value)? {
            push_answer(&mut answers, left, subscriber, change.new.as_ref())?;
        }
    }
    Ok(answers)
}
