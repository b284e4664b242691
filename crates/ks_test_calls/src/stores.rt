//! What stands on a store: the right side of foreign-key joins, windows, the store's own calls.
use crate::calls::{Asked, Changed};
use crate::given::{Given, blob, change, key, row};
use crate::joins::is_above;
use crate::replies::{push_number, push_replies};
use ks_fk_right::{on_right, on_subscription};
use ks_record::{Blob, Key, Rec, RecordRef};
use ks_row::Row;
use ks_store::{KvStore, StoreCall, restore, run_calls};
use ks_window::{Window, apply};
use ks_wire::{Response, Subscription, write_response};
use std::alloc::{AllocError, Global};
use std::process::Abort;

// A response, and the partition that was named, where one was.
fn push_response(
    alloc: Global,
    response: &Response,
    part: Option<u8>,
    text: &mut Vec<u8>,
) -> Result<(), AllocError> {
    text.extend_from_slice(write_response(alloc, response)?.as_slice())?;
    let Some(part) = part else {
        return Ok(());
    };
    text.extend_from_slice(b"to ")?;
    push_number(alloc, u64::from(part), b"", text)
}

fn push_answer<S: KvStore>(
    alloc: Global,
    given: &Given,
    store: &mut S,
    subscription: &Subscription,
    right: Option<&Row>,
    text: &mut Vec<u8>,
) -> Result<(), AllocError> {
    match on_subscription(alloc, store, &given.right, subscription, right)? {
        Some((response, part)) => {
            let pushed = push_response(alloc, &response, part, text);
            drop(response);
            pushed
        }
        None => text.extend_from_slice(b"no answer"),
    }
}

/// What a subscription is answered, by this right row.
pub fn take_subscription<R: Abort, S: KvStore>(
    rt: &R,
    alloc: Global,
    given: &Given,
    store: &mut S,
    asked: Asked,
    right: &[u8],
    text: &mut Vec<u8>,
) -> Result<(), AllocError> {
    if asked.instruction > 3 || is_above(asked.part, 63) {
        return text.extend_from_slice(b"nothing");
    }
    let left = key(rt, alloc, asked.left);
    let subscription = Subscription::new(asked.hash, asked.instruction, left, asked.part);
    let right = row(rt, alloc, right);
    let pushed = push_answer(alloc, given, store, &subscription, right.as_ref(), text);
    drop(subscription);
    drop(right);
    pushed
}

fn push_told(
    alloc: Global,
    left: &Key,
    response: &Response,
    part: Option<u8>,
    text: &mut Vec<u8>,
) -> Result<(), AllocError> {
    text.extend_from_slice(left.as_str().as_bytes())?;
    text.push(b' ')?;
    push_response(alloc, response, part, text)?;
    text.push(b' ')?;
    Ok(())
}

fn push_all_told(
    alloc: Global,
    answers: &[(Key, Response, Option<u8>)],
    text: &mut Vec<u8>,
) -> Result<(), AllocError> {
    for (left, response, part) in answers {
        push_told(alloc, left, response, *part, text)?;
    }
    Ok(())
}

/// What a changed right row answers, each as the left key and the response.
pub fn change_right<R: Abort, S: KvStore>(
    rt: &R,
    alloc: Global,
    store: &S,
    right: Changed,
    text: &mut Vec<u8>,
) -> Result<(), AllocError> {
    let change = change(rt, alloc, right);
    let answers = on_right(alloc, store, &change).expect(rt, "memory");
    drop(change);
    push_all_told(alloc, answers.as_slice(), text)
}

fn push_counted(
    alloc: Global,
    late: u64,
    recs: usize,
    text: &mut Vec<u8>,
) -> Result<(), AllocError> {
    push_number(alloc, late, b" late, records ", text)?;
    push_number(alloc, recs as u64, b"", text)
}

/// Counts a record of this time: how many windows were late, and how many records it made.
pub fn count<S: KvStore>(
    alloc: Global,
    given: &Given,
    store: &mut S,
    t: u64,
    text: &mut Vec<u8>,
) -> Result<(), AllocError> {
    let window = Window {
        size: 10,
        advance: 10,
        grace: 5,
    };
    let (late, recs) = apply(alloc, store, &given.counted, t, &window)?;
    push_counted(alloc, late, recs.len(), text)
}

/// Restores a record into a store.
pub fn restore_one<S: KvStore>(
    alloc: Global,
    store: &mut S,
    key: Option<&[u8]>,
    value: Option<&[u8]>,
) -> Result<(), AllocError> {
    let rec = Rec::of(alloc, RecordRef { key, value, ts: 0 })?;
    restore(store, &[(7, rec)])
}

/// The value of a key.
pub fn get<S: KvStore>(store: &S, key: &[u8], text: &mut Vec<u8>) -> Result<(), AllocError> {
    text.extend_from_slice(store.get(key).unwrap_or(b"nothing"))
}

fn push_pair(key: &Blob, value: &Blob, text: &mut Vec<u8>) -> Result<(), AllocError> {
    text.extend_from_slice(key.as_slice())?;
    text.push(b'=')?;
    text.extend_from_slice(value.as_slice())?;
    text.push(b' ')?;
    Ok(())
}

fn push_all_pairs(pairs: &[(Blob, Blob)], text: &mut Vec<u8>) -> Result<(), AllocError> {
    for (key, value) in pairs {
        push_pair(key, value, text)?;
    }
    Ok(())
}

/// The pairs of a store whose key begins so, each as `KEY=VALUE` with a blank behind it.
pub fn push_pairs<S: KvStore>(
    store: &S,
    front: &[u8],
    text: &mut Vec<u8>,
) -> Result<(), AllocError> {
    let pairs = store.prefix(front)?;
    push_all_pairs(&pairs, text)
}

/// The call that puts a pair.
pub fn put<R: Abort>(rt: &R, alloc: Global, key: &[u8], value: &[u8]) -> StoreCall {
    StoreCall::Put(blob(rt, alloc, key), blob(rt, alloc, value))
}

fn calls_of<R: Abort>(
    rt: &R,
    alloc: Global,
    key: &[u8],
    value: &[u8],
    front: &[u8],
) -> [StoreCall; 5] {
    [
        put(rt, alloc, key, value),
        StoreCall::Get(blob(rt, alloc, key)),
        StoreCall::Prefix(blob(rt, alloc, front)),
        StoreCall::Delete(blob(rt, alloc, key)),
        StoreCall::Get(blob(rt, alloc, key)),
    ]
}

/// The replies to a list of calls.
pub fn list<R: Abort, S: KvStore>(
    rt: &R,
    alloc: Global,
    store: &mut S,
    key: &[u8],
    value: &[u8],
    front: &[u8],
    text: &mut Vec<u8>,
) -> Result<(), AllocError> {
    let calls = calls_of(rt, alloc, key, value, front);
    let replies = run_calls(alloc, store, &calls).expect(rt, "memory");
    drop(calls);
    push_replies(alloc, &replies, text)
}
